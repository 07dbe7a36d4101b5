//! Which operators tokens are.

ghost use Rattle.std.specs.Prelude.{◌≡◌};
ghost use Rattle.snap_cursor.specs.Steps.{lead_in, sequel_in, tail_in};
ghost use Rattle.spec_grammar.specs.Parts.{is_tail};
ghost use Rattle.spec_grammar.specs.Operators.{begins_declaration, binary_of, lead_of, level_of, operator_at, sequel_of, tail_of, update_of};

use snap_ast::{AssignOperator, BinaryOperator, UnaryOperator, UpdateOperator};
use spec_grammar::Sign;

/// What a Unary begins with.
#[derive(Clone, Copy)]
pub enum Lead {
    /// An operator before another Unary.
    BeforeUnary(UnaryOperator),
    /// An operator before what it changes.
    BeforeTarget(UpdateOperator),
    /// No operator.
    NoLead,
}

/// What stands behind an Or.
#[derive(Clone, Copy)]
pub enum Sequel {
    /// `?`
    Choice,
    /// An operator of an assignment.
    Assignment(AssignOperator),
    /// Nothing that belongs to it.
    NoSequel,
}

/// What stands behind a Primary, a Member or a Call.
#[derive(Clone, Copy)]
pub enum Tail {
    /// `.`
    Dot,
    /// `[`
    Bracket,
    /// `(`
    Arguments,
    /// Nothing that belongs to it.
    NoTail,
}

/// The operator between two operands.
#[tactic(auto, unfolding(spec_grammar::specs::Operators::binary_of))]
fn binary_of(sign: Sign) -> Option<BinaryOperator>
    ensures { result ≡ binary_of sign }
{
    match sign {
        Sign::OrOr => Some(BinaryOperator::Or),
        Sign::AndAnd => Some(BinaryOperator::And),
        Sign::Or => Some(BinaryOperator::BitOr),
        Sign::Xor => Some(BinaryOperator::BitXor),
        Sign::And => Some(BinaryOperator::BitAnd),
        Sign::Same => Some(BinaryOperator::Same),
        Sign::NotSame => Some(BinaryOperator::NotSame),
        Sign::Less => Some(BinaryOperator::Less),
        Sign::Greater => Some(BinaryOperator::Greater),
        Sign::LessEqual => Some(BinaryOperator::LessEqual),
        Sign::GreaterEqual => Some(BinaryOperator::GreaterEqual),
        Sign::Shl => Some(BinaryOperator::Shl),
        Sign::Shr => Some(BinaryOperator::Shr),
        Sign::UShr => Some(BinaryOperator::UShr),
        Sign::Plus => Some(BinaryOperator::Add),
        Sign::Minus => Some(BinaryOperator::Sub),
        Sign::Star => Some(BinaryOperator::Mul),
        Sign::Slash => Some(BinaryOperator::Div),
        Sign::Percent => Some(BinaryOperator::Rem),
        _ => None,
    }
}

/// The level of an operator, from 0, which binds most tightly, to 9.
#[tactic(auto, unfolding(spec_grammar::specs::Operators::level_of))]
fn level_of(operator: BinaryOperator) -> u8
    ensures { result ≡ level_of operator }
{
    match operator {
        BinaryOperator::Or => 9,
        BinaryOperator::And => 8,
        BinaryOperator::BitOr => 7,
        BinaryOperator::BitXor => 6,
        BinaryOperator::BitAnd => 5,
        BinaryOperator::Same | BinaryOperator::NotSame => 4,
        BinaryOperator::Less
        | BinaryOperator::Greater
        | BinaryOperator::LessEqual
        | BinaryOperator::GreaterEqual => 3,
        BinaryOperator::Shl | BinaryOperator::Shr | BinaryOperator::UShr => 2,
        BinaryOperator::Add | BinaryOperator::Sub => 1,
        BinaryOperator::Mul | BinaryOperator::Div | BinaryOperator::Rem => 0,
    }
}

/// The operator that goes on with an operand at a level.
#[tactic(auto, unfolding(spec_grammar::specs::Operators::operator_at))]
pub fn operator_at(level: u8, sign: Sign) -> Option<BinaryOperator>
    ensures { result ≡ operator_at level sign }
{
    match binary_of(sign) {
        None => None,
        Some(operator) => {
            if level_of(operator) == level {
                Some(operator)
            } else {
                None
            }
        }
    }
}

/// What a Unary begins with.
#[tactic(auto, unfolding(spec_grammar::specs::Operators::lead_of))]
pub fn lead_of(sign: Sign) -> Lead
    ensures { lead_in result ≡ lead_of sign }
{
    match sign {
        Sign::Delete => Lead::BeforeUnary(UnaryOperator::Delete),
        Sign::TypeOf => Lead::BeforeUnary(UnaryOperator::TypeOf),
        Sign::Plus => Lead::BeforeUnary(UnaryOperator::Plus),
        Sign::Minus => Lead::BeforeUnary(UnaryOperator::Minus),
        Sign::Tilde => Lead::BeforeUnary(UnaryOperator::BitNot),
        Sign::Not => Lead::BeforeUnary(UnaryOperator::Not),
        Sign::Increment => Lead::BeforeTarget(UpdateOperator::Increment),
        Sign::Decrement => Lead::BeforeTarget(UpdateOperator::Decrement),
        _ => Lead::NoLead,
    }
}

/// What stands behind an Or.
#[tactic(auto, unfolding(spec_grammar::specs::Operators::sequel_of))]
pub fn sequel_of(sign: Sign) -> Sequel
    ensures { sequel_in result ≡ sequel_of sign }
{
    match sign {
        Sign::Question => Sequel::Choice,
        Sign::Assign => Sequel::Assignment(AssignOperator::Plain),
        Sign::AddAssign => Sequel::Assignment(AssignOperator::Add),
        Sign::SubAssign => Sequel::Assignment(AssignOperator::Sub),
        Sign::MulAssign => Sequel::Assignment(AssignOperator::Mul),
        Sign::DivAssign => Sequel::Assignment(AssignOperator::Div),
        Sign::RemAssign => Sequel::Assignment(AssignOperator::Rem),
        Sign::ShlAssign => Sequel::Assignment(AssignOperator::Shl),
        Sign::ShrAssign => Sequel::Assignment(AssignOperator::Shr),
        Sign::UShrAssign => Sequel::Assignment(AssignOperator::UShr),
        Sign::AndAssign => Sequel::Assignment(AssignOperator::BitAnd),
        Sign::XorAssign => Sequel::Assignment(AssignOperator::BitXor),
        Sign::OrAssign => Sequel::Assignment(AssignOperator::BitOr),
        _ => Sequel::NoSequel,
    }
}

/// What stands behind a Primary, a Member or a Call, where arguments may stand or not.
#[tactic(auto, unfolding(spec_grammar::specs::Operators::tail_of))]
pub fn tail_of(calls: bool, sign: Sign) -> Tail
    ensures { tail_in result ≡ tail_of calls sign }
{
    match sign {
        Sign::Dot => Tail::Dot,
        Sign::OpenSquare => Tail::Bracket,
        Sign::OpenParen => { if calls { Tail::Arguments } else { Tail::NoTail } }
        _ => Tail::NoTail,
    }
}

/// An operator that changes its operand by one.
#[tactic(auto, unfolding(spec_grammar::specs::Operators::update_of))]
pub fn update_of(sign: Sign) -> Option<UpdateOperator>
    ensures { result ≡ update_of sign }
{
    match sign {
        Sign::Increment => Some(UpdateOperator::Increment),
        Sign::Decrement => Some(UpdateOperator::Decrement),
        _ => None,
    }
}

/// A let, const or function begins with it.
#[tactic(auto, unfolding(spec_grammar::specs::Operators::begins_declaration))]
pub fn begins_declaration(sign: Sign) -> bool
    ensures { result ≡ begins_declaration sign }
{
    match sign {
        Sign::Let | Sign::Const | Sign::Function => true,
        _ => false,
    }
}

/// Something that belongs to it stands there.
pub fn is_tail(tail: Tail) -> bool
    ensures { result ≡ is_tail (tail_in tail) }
{
    match tail {
        Tail::NoTail => false,
        _ => true,
    }
}

//! Values and operators as a script writes them.

ghost use Rattle.std.specs.Prelude.{IfOk};
ghost use Rattle.snap_oper.specs.Given.{IsOperand};

use heap_words::{Refused, value_of};
use snap_graph::Value;
use snap_oper::{BinaryOp, UnaryOp, values_are_operands};
use std::alloc::Global;

/// The value of a word. A node is written as # with its number.
pub(crate) fn operand_of(alloc: Global, word: &str) -> Result<Value, Refused>
    ensures { IfOk result IsOperand }
{
    values_are_operands();
    value_of(alloc, u32::MAX, word)
}

// The operators between two values, as they are written.
const BINARY: [(&str, BinaryOp); 17] = [
    ("+", BinaryOp::Add),
    ("-", BinaryOp::Sub),
    ("*", BinaryOp::Mul),
    ("/", BinaryOp::Div),
    ("%", BinaryOp::Rem),
    ("&", BinaryOp::BitAnd),
    ("^", BinaryOp::BitXor),
    ("|", BinaryOp::BitOr),
    ("<<", BinaryOp::Shl),
    (">>", BinaryOp::Shr),
    (">>>", BinaryOp::UShr),
    ("<", BinaryOp::Less),
    (">", BinaryOp::Greater),
    ("<=", BinaryOp::LessEqual),
    (">=", BinaryOp::GreaterEqual),
    ("===", BinaryOp::Same),
    ("!==", BinaryOp::NotSame),
];

/// The operator between two values that is written so.
pub(crate) fn binary_op(sign: &str) -> Option<BinaryOp> {
    for (written, op) in BINARY {
        if written == sign {
            return Some(op);
        }
    }
    None
}

/// The operator in front of a value that is written so.
pub(crate) fn unary_op(sign: &str) -> Option<UnaryOp> {
    match sign {
        "+" => Some(UnaryOp::Plus),
        "-" => Some(UnaryOp::Minus),
        "~" => Some(UnaryOp::BitNot),
        "!" => Some(UnaryOp::Not),
        _ => None,
    }
}

//! Each operator.

ghost use Rattle.std.specs.Prelude.{◌≢◌, Err};
ghost use Rattle.snap_oper.specs.declared.fault.OperFault.TheVariants.{NoMemory};
ghost use Rattle.snap_oper.specs.Given.{Answers, IsOperand};
ghost use Rattle.spec_values.specs.Operators.{added, binary_value, unary_value};

use crate::arithmetic::{difference, product, quotient, rest, sum};
use crate::bits::{
    bit_and, bit_not, bit_or, bit_xor, shift_left, shift_right, shift_right_unsigned,
};
use crate::comparing::{less, same};
use crate::conversions::{number_of, numbers_of, truth_of};
use crate::fault::OperFault;
use crate::joining::{is_text, join};
use snap_graph::Value;
use spec_values::{BinaryOp, UnaryOp};
use std::alloc::Global;

/// What the operator gives of two values, or why it gives none. Memory is taken for a text that is answered, once
/// and for the whole of it, and for the digits of an integer that is joined to a text.
///
/// `+` joins texts where a text is on either side, and adds otherwise. An integer that would not be from
/// -(2^53 - 1) to 2^53 - 1, a quotient with a rest and a division by 0 stop with `NotSafeInteger`, a text of more
/// than `MOST_ITEMS` units with `TooLong`. Where a number is needed, undefined, a text and a node stop with
/// `NotInProfile`, and so does a node where a text is needed.
pub fn binary(alloc: Global, op: BinaryOp, left: &Value, right: &Value) -> Result<Value, OperFault>
    requires left { IsOperand left.now }
    requires right { IsOperand right.now }
    ensures { Answers result (binary_value op left.now right.now) }
{
    match op {
        BinaryOp::Add => add(alloc, left, right),
        BinaryOp::Sub => Ok(difference(numbers_of(left, right)?)?),
        BinaryOp::Mul => Ok(product(numbers_of(left, right)?)?),
        BinaryOp::Div => Ok(quotient(numbers_of(left, right)?)?),
        BinaryOp::Rem => Ok(rest(numbers_of(left, right)?)?),
        BinaryOp::BitAnd => Ok(bit_and(numbers_of(left, right)?)),
        BinaryOp::BitXor => Ok(bit_xor(numbers_of(left, right)?)),
        BinaryOp::BitOr => Ok(bit_or(numbers_of(left, right)?)),
        BinaryOp::Shl => Ok(shift_left(numbers_of(left, right)?)),
        BinaryOp::Shr => Ok(shift_right(numbers_of(left, right)?)),
        BinaryOp::UShr => Ok(shift_right_unsigned(numbers_of(left, right)?)),
        BinaryOp::Less => Ok(Value::Bool(less(left, right)?)),
        BinaryOp::Greater => Ok(Value::Bool(less(right, left)?)),
        BinaryOp::LessEqual => Ok(Value::Bool(!less(right, left)?)),
        BinaryOp::GreaterEqual => Ok(Value::Bool(!less(left, right)?)),
        BinaryOp::Same => Ok(Value::Bool(same(left, right))),
        BinaryOp::NotSame => Ok(Value::Bool(!same(left, right))),
    }
}

// `left + right` (ECMA-262, 13.15.3).
#[tactic(auto, using(crate::proofs::Sums::plain_sum, crate::proofs::Sums::text_on_left, crate::proofs::Sums::text_on_right))]
fn add(alloc: Global, left: &Value, right: &Value) -> Result<Value, OperFault>
    requires left { IsOperand left.now }
    requires right { IsOperand right.now }
    ensures { Answers result (added left.now right.now) }
{
    if is_text(left) || is_text(right) {
        join(alloc, left, right)
    } else {
        Ok(sum(numbers_of(left, right)?)?)
    }
}

/// What the operator gives of one value, or why it gives none: undefined, a text and a node, whose number is
/// asked for, stop with `NotInProfile`. It takes no memory.
pub fn unary(op: UnaryOp, value: &Value) -> Result<Value, OperFault>
    requires { IsOperand value.now }
    ensures value { Answers result (unary_value op value.now) }
    ensures memory { result ≢ Err NoMemory }
{
    match op {
        UnaryOp::Plus => Ok(Value::Int(number_of(value)?)),
        UnaryOp::Minus => Ok(Value::Int(-number_of(value)?)),
        UnaryOp::BitNot => Ok(bit_not(number_of(value)?)),
        UnaryOp::Not => Ok(Value::Bool(!truth_of(value))),
    }
}

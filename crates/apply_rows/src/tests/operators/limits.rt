//! The longest text that `+` joins.

ghost use Rattle.std.specs.Prelude.{IfOk};
ghost use Rattle.snap_oper.specs.Given.{IsOperand};

use snap_base::{MOST_ITEMS, Stop};
use snap_graph::Value;
use snap_oper::{BinaryOp, OperFault, binary};
use snap_text::{NoMemory, Units};
use std::alloc::Global;
use std::test::Fail;

// Whether `+` stops at these values since their text is too long.
fn is_too_long(alloc: Global, left: &Value, right: &Value) -> Result<bool, OperFault>
    requires left { IsOperand left.now }
    requires right { IsOperand right.now }
{
    match binary(alloc, BinaryOp::Add, left, right) {
        Ok(_) => Ok(false),
        Err(OperFault::Stopped(why)) => Ok(why == Stop::TooLong),
        Err(OperFault::NoMemory) => Err(OperFault::NoMemory),
    }
}

// A text of the most units.
fn longest(alloc: Global) -> Result<Value, NoMemory>
    ensures { IfOk result IsOperand }
{
    let units = vec![in alloc; 0x61; MOST_ITEMS as usize]?;
    Ok(Value::Text(Units::from_vec(units)))
}

// How many units the text has that `+` makes of a value and the empty text.
fn joined_with_none(alloc: Global, value: &Value) -> Result<Option<usize>, OperFault>
    requires { IsOperand value.now }
{
    let empty = Value::Text(Units::from_vec(Vec::new(alloc)));
    match binary(alloc, BinaryOp::Add, value, &empty)? {
        Value::Text(text) => Ok(Some(text.units().len())),
        _ => Ok(None),
    }
}

// A text of the most units is joined with the empty one and with no other. Node.js has longer texts.
#[test]
fn joins_the_longest_with_none(rt: HostRuntime) -> Result<(), Fail> {
    let longest = longest(rt.alloc())?;
    let most = Some(MOST_ITEMS as usize);
    assert_eq!(rt; joined_with_none(rt.alloc(), &longest)?, most);
    Ok(())
}

// Whether `+` stops at a text behind which an integer, before which null, and behind which the text itself would stand.
fn is_longest(alloc: Global, text: &Value) -> Result<[bool; 3], OperFault>
    requires { IsOperand text.now }
{
    let behind = is_too_long(alloc, text, &Value::Int(0))?;
    let before = is_too_long(alloc, &Value::Null, text)?;
    let twice = is_too_long(alloc, text, text)?;
    Ok([behind, before, twice])
}

#[test]
fn joins_up_to_the_limit(rt: HostRuntime) -> Result<(), Fail> {
    let longest = longest(rt.alloc())?;
    assert_eq!(rt; is_longest(rt.alloc(), &longest)?, [true, true, true]);
    Ok(())
}

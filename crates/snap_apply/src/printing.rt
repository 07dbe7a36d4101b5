//! The text of what is held, printed.

ghost use Rattle.snap_apply.specs.Printed.{Prints};
ghost use Rattle.spec_values.specs.Conversions.{text_of};

use snap_action::Abrupt;
use snap_graph::Value;
use snap_oper::{OperFault, text_of};
use snap_store::Store;
use snap_text::print_utf8;
use std::alloc::Global;

/// Appends the UTF-8 form of the text of what is held (7.1.17, ToString). A text is read where it stands. A node has no text in
/// this profile: evaluation stops there, and nothing is appended.
pub fn print_held<S: Store>(
    alloc: Global,
    store: &S,
    held: &S::Held,
    out: &mut Vec<u8>,
) -> Result<(), Abrupt<S::Held>>
    requires { S.owns store.now held.now }
    ensures { Prints result out.old.items out.new.items (text_of (S.meaning store.now held.now)) }
{
    match store.text(held) {
        Some(text) => Ok(text.print(out)?),
        None => {
            let value = store.value(held)?;
            print_value(alloc, &value, out)
        }
    }
}

// Appends the UTF-8 form of the text of a value.
fn print_value<H: Drop>(alloc: Global, value: &Value, out: &mut Vec<u8>) -> Result<(), Abrupt<H>>
    ensures { Prints result out.old.items out.new.items (text_of value.now) }
{
    match text_of(alloc, value) {
        Ok(text) => Ok(print_utf8(&text, out)?),
        Err(OperFault::Stopped(stop)) => Err(Abrupt::Stopped(stop)),
        Err(OperFault::NoMemory) => Err(Abrupt::NoMemory),
    }
}

//! What is to be told.

ghost use Rattle.std.specs.Prelude.{◌≡◌, Err, Ok, IfOk};
ghost use Rattle.std.specs.String.{string_bytes};
ghost use Rattle.snap_commands.specs.Answers.{counted};
ghost use Rattle.snap_commands.specs.Coming.{Says, starved};
ghost use Rattle.snap_commands.specs.Line.{count_line, fault_line};
ghost use Rattle.snap_commands.specs.Views.{message_view};

use crate::fault::Fault;
use crate::line::{count_line, fault_line};
use std::alloc::Global;

/// What is to be told, and the fault that it tells.
#[derive(Debug, Drop)]
pub(crate) struct Said {
    /// The bytes for the sink.
    pub(crate) text: Vec<u8>,
    /// The fault, or `None` where all was done.
    pub(crate) fault: Option<Fault>,
}

/// The line of a fault, where `name` is that of the file whose read failed or of the source that is refused.
pub(crate) fn refused(alloc: Global, name: &str, fault: Fault) -> Said
    ensures { Says name.now (Err fault) (message_view result) }
{
    match fault_line(alloc, name, fault) {
        Ok(line) => Said {
            text: line.into_bytes(),
            fault: Some(fault),
        },
        Err(_) => starved(alloc),
    }
}

/// The line of a number of strings, or of why there is none.
pub(crate) fn counted(alloc: Global, name: &str, count: Result<u32, Fault>) -> Said
    ensures { Says name.now (counted count) (message_view result) }
{
    let count = match count {
        Ok(count) => count,
        Err(fault) => return refused(alloc, name, fault),
    };
    match count_line(alloc, count) {
        Ok(line) => Said {
            text: line.into_bytes(),
            fault: None,
        },
        Err(_) => starved(alloc),
    }
}

/// Nothing, since memory ran out.
pub(crate) fn starved(alloc: Global) -> Said
    ensures { message_view result ≡ starved }
{
    Said {
        text: Vec::new(alloc),
        fault: Some(Fault::NoMemory),
    }
}

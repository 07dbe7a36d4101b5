//! What no clause says: that calls succeed with ample memory, and what real files and a real pipe
//! give and take.

mod files;
mod narrow;
mod pipe;
mod real;
mod sinks;

use super::*;

/// One of the two files that calls are made at.
#[derive(Clone, Copy)]
enum Place {
    First,
    Second,
}

/// A call at a file, and what it answers: a write of some bytes, or a read with a limit.
#[derive(Clone, Copy)]
enum Call {
    Write(&'static [u8], Option<WriteAnswer>),
    Read(u32, Result<&'static [u8], ReadAnswer>),
}

/// Whether a call at the file of this name answers so.
fn is_answered<F: Files>(files: &mut F, name: &str, call: Call) -> bool {
    match call {
        Call::Write(bytes, wanted) => files.write(name, bytes).err() == wanted,
        Call::Read(limit, wanted) => match files.read(name, limit) {
            Ok(bytes) => wanted == Ok(bytes.as_slice()),
            Err(answer) => wanted == Err(answer),
        },
    }
}

/// The first of some calls at files of two names that answers otherwise.
fn first_misanswered<F: Files>(
    files: &mut F,
    first: &str,
    second: &str,
    calls: &[(Place, Call)],
) -> Option<usize> {
    for (row, (place, call)) in calls.iter().enumerate() {
        let name = match place {
            Place::First => first,
            Place::Second => second,
        };
        if !is_answered(files, name, *call) {
            return Some(row);
        }
    }
    None
}

/// Calls at files that take both names and fail at none of them.
const WRITES_AND_READS: [(Place, Call); 7] = [
    (Place::First, Call::Write(b"abc", None)),
    (Place::Second, Call::Write(b"xy", None)),
    (Place::First, Call::Read(3, Ok(b"abc"))),
    (Place::First, Call::Read(2, Err(ReadAnswer::TooLong))),
    (Place::First, Call::Write(b"", None)),
    (Place::First, Call::Read(0, Ok(b""))),
    (Place::Second, Call::Read(u32::MAX, Ok(b"xy"))),
];

/// The first of some pieces that a sink answers otherwise.
fn first_misput<S: Sink>(sink: &mut S, pieces: &[(&[u8], Option<WriteAnswer>)]) -> Option<usize> {
    for (row, (piece, wanted)) in pieces.iter().enumerate() {
        if sink.put(piece).err() != *wanted {
            return Some(row);
        }
    }
    None
}

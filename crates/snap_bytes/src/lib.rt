//! Bytes, read from front to back: fields of so many bytes, fixed numbers with their low byte first,
//! and varints. Beside the reader stands the writer of varints.
#![tactic(auto)]

mod cursor;
mod fault;
mod number;
mod reading;
mod writing;

pub use cursor::Cursor;
pub use fault::{ByteFault, NoMemory};
pub use number::read_number;
pub use writing::put_varint;

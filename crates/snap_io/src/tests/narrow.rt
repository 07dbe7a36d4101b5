//! A reader and a writer that fail.

ghost use Rattle.std.specs.Prelude.{◌≡◌, IfOk};

use super::*;
use crate::transfer::read_up_to;
use std::alloc::Global;
use std::io;
use std::io::{ErrorKind, Read, Write};

/// Gives one byte a read and takes one byte a write, as often as it has turns, and then fails.
#[derive(Drop)]
struct Narrow {
    turns: u8,
}

impl Narrow {
    fn step(&mut self) -> io::Result<usize>
        ensures { IfOk result (λ n. n ≡ 1) }
    {
        if self.turns == 0 {
            return Err(io::Error::from(ErrorKind::BrokenPipe));
        }
        self.turns -= 1;
        Ok(1)
    }
}

impl Read for Narrow {
    fn read(&mut self, buf: &mut [u8]) -> io::Result<usize> {
        if buf.is_empty() {
            return Ok(0);
        }
        self.step()
    }
}

impl Write for Narrow {
    fn write(&mut self, buf: &[u8]) -> io::Result<usize> {
        if buf.is_empty() {
            return Ok(0);
        }
        self.step()
    }

    fn flush(&mut self) -> io::Result<()> {
        self.step()?;
        Ok(())
    }
}

/// Turns of a reader, limits, and why a read gives nothing.
const READS: [(u8, u32, ReadAnswer); 4] = [
    (0, 9, ReadAnswer::Failed),
    (3, 9, ReadAnswer::Failed),
    (4, 3, ReadAnswer::TooLong),
    (3, 3, ReadAnswer::Failed),
];

/// The first read that answers otherwise.
fn first_misread(alloc: Global) -> Option<usize> {
    for (row, (turns, limit, wanted)) in READS.iter().enumerate() {
        let mut reader = Narrow { turns: *turns };
        if read_up_to(&mut reader, Vec::new(alloc), *limit).err() != Some(*wanted) {
            return Some(row);
        }
    }
    None
}

#[test]
fn readers_that_fail(rt: HostRuntime) {
    assert_eq!(rt; first_misread(rt.alloc()), None);
}

/// Turns of a writer, and what a piece of three bytes comes to.
const WRITES: [(u8, Option<WriteAnswer>); 4] = [
    (0, Some(WriteAnswer::Failed)),
    (2, Some(WriteAnswer::Failed)),
    (3, Some(WriteAnswer::Failed)),
    (4, None),
];

/// The first piece that is answered otherwise.
fn first_miswritten() -> Option<usize> {
    for (row, (turns, wanted)) in WRITES.iter().enumerate() {
        let mut sink = StdSink::new(Narrow { turns: *turns });
        if sink.put(b"abc").err() != *wanted {
            return Some(row);
        }
    }
    None
}

#[test]
fn writers_that_fail(rt: HostRuntime) {
    assert_eq!(rt; first_miswritten(), None);
}

// A buffer that is full takes nothing.
#[test]
fn a_full_buffer(rt: HostRuntime) {
    let mut room = [0u8; 2];
    let mut sink = StdSink::new(room.as_mut_slice());
    assert_eq!(rt; sink.put(b"abc").err(), Some(WriteAnswer::Failed));
}

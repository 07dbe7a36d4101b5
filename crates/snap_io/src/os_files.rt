//! Real files: the trusted edge.

ghost use Rattle.std.specs.Prelude.{◌≡◌, ◌≢◌, ◌≤◌, None, length, IfOk, IsErrOf, IsOkUnless};
ghost use Rattle.snap_io.specs.Counts.{CountsRead, CountsWrite};
ghost use Rattle.snap_io.specs.OneMore.{IsOneMore};

use crate::answers::{ReadAnswer, WriteAnswer};
use crate::files::Files;
use crate::plan::one_more;
use crate::transfer::{read_answer, read_up_to, write_whole};
use std::fs;
use std::fs::OpenFile;
use std::rt::Files as System;

/// The files of the system that the runtime stands for. A name is a path. They tell nothing of what
/// they hold, since that is the outside's: another program may change it at any time.
///
/// An error of the system is a fault, a missing file and a folder too. A read takes in at most one
/// byte more than its limit.
#[derive(Drop)]
pub struct OsFiles<R> {
    rt: R,
    read_faults: u64,
    write_faults: u64,
}

impl<R: System + AllocGlobal> OsFiles<R> {
    ghost use Rattle.snap_io.specs.OsFiles.{os_read_faults, os_write_faults};

    /// The files of this runtime, with no fault so far.
    pub fn new(rt: R) -> OsFiles<R>
        ensures read_faults { os_read_faults result ≡ 0 }
        ensures write_faults { os_write_faults result ≡ 0 }
    {
        OsFiles {
            rt,
            read_faults: 0,
            write_faults: 0,
        }
    }
}

impl<R: System + AllocGlobal> Files for OsFiles<R> {
    ghost use Rattle.snap_io.specs.OsFiles.{os_read_faults, os_write_faults};

    ghost held = { λ _. None };

    ghost read_faults = { os_read_faults };

    ghost write_faults = { os_write_faults };

    fn read(&mut self, name: &str, limit: u32) -> Result<Vec<u8>, ReadAnswer>
        ensures fits { IfOk result (λ bytes. length bytes.items ≤ limit) }
        ensures count { CountsRead result (os_read_faults self.old) (os_read_faults self.new) }
        ensures other_count { os_write_faults self.new ≡ os_write_faults self.old }
        ensures one_more { IsErrOf result ReadAnswer.Failed
            → IsOneMore (os_read_faults self.old) (os_read_faults self.new) }
    {
        let answer = read_file(&self.rt, name, limit);
        if matches!(&answer, Err(ReadAnswer::Failed)) {
            self.read_faults = one_more(self.read_faults);
        }
        answer
    }

    /// After `Failed` the file may hold nothing, or the first of the bytes.
    fn write(&mut self, name: &str, bytes: &[u8]) -> Result<(), WriteAnswer>
        ensures count { CountsWrite result (os_write_faults self.old) (os_write_faults self.new) }
        ensures other_count { os_read_faults self.new ≡ os_read_faults self.old }
        ensures one_more { IsErrOf result WriteAnswer.Failed
            → IsOneMore (os_write_faults self.old) (os_write_faults self.new) }
        ensures no_other { IsOkUnless result WriteAnswer.Failed }
    {
        let answer = write_file(&self.rt, name, bytes);
        if answer.is_err() {
            self.write_faults = one_more(self.write_faults);
        }
        answer
    }
}

// A regular file's length is known ahead, so its bytes are held once and read by one call.
fn known_length(file: &impl OpenFile) -> Result<u64, ReadAnswer>
    ensures { result ≢ Err ReadAnswer.TooLong }
{
    let known = file.metadata().map_err(read_answer)?;
    Ok(if known.is_file() { known.len() } else { 0 })
}

fn read_file<R: System + AllocGlobal>(rt: &R, name: &str, limit: u32) -> Result<Vec<u8>, ReadAnswer>
    ensures { IfOk result (λ bytes. length bytes.items ≤ limit) }
{
    let mut file = fs::open(rt, name).map_err(read_answer)?;
    let room = known_length(&file)?.min(u64::from(limit)) as usize + 1;
    let bytes = vec![in rt.alloc(); 0u8; room]?;
    read_up_to(&mut file, bytes, limit)
}

fn write_file<R: System>(rt: &R, name: &str, bytes: &[u8]) -> Result<(), WriteAnswer>
    ensures { IsOkUnless result WriteAnswer.Failed }
{
    let mut file = fs::create(rt, name).map_err(|_| WriteAnswer::Failed)?;
    write_whole(&mut file, bytes)
}

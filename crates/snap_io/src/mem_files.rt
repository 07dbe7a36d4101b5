//! Files in memory, of which chosen calls fail.

ghost use Rattle.std.specs.Prelude.{◌≡◌, ◌<◌, ◌≤◌, ◌↔◌, ◌⊎◌, None, Some, length, option_copied, IfOk, IfSome, OnOk, IsErrOf};
ghost use Rattle.snap_io.specs.Counts.{CountsRead, CountsWrite};
ghost use Rattle.snap_io.specs.Held.{Writes, WritesInPart, bytes_under};
ghost use Rattle.snap_io.specs.OneMore.{IsOneMore};
ghost use Rattle.snap_io.specs.NamedFile.{held_by, AreApart};
ghost use Rattle.snap_io.specs.FaultPlan.{next_call, failing_calls, IsListed, CountsCall};

use crate::answers::{ReadAnswer, WriteAnswer};
use crate::files::Files;
use crate::named::{NamedFile, copied, find, put_under};
use crate::plan::{FaultPlan, one_more};
use std::alloc::Global;

/// Files in memory. They tell all that they hold. A read of a name that they do not hold fails,
/// and so does each call that is listed.
#[derive(Drop)]
pub struct MemFiles {
    alloc: Global,
    files: Vec<NamedFile>,
    plan: FaultPlan,
    read_faults: u64,
    write_faults: u64,
}

impl MemFiles {
    ghost use Rattle.snap_io.specs.MemFiles.{mem_held, mem_plan, mem_read_faults, mem_write_faults};

    /// Files that hold these, whose names are all different. The calls of `read` and `write` are
    /// numbered together, from 0 on, and those whose numbers `fails` lists fail: they answer
    /// `Failed` and change nothing. Past the last u32 each call has the last number.
    pub fn new(alloc: Global, files: Vec<NamedFile>, fails: Vec<u32>) -> MemFiles
        requires { AreApart files.items }
        ensures held { mem_held result ≡ held_by files.items }
        ensures read_faults { mem_read_faults result ≡ 0 }
        ensures write_faults { mem_write_faults result ≡ 0 }
        ensures call { next_call (mem_plan result) ≡ 0 }
        ensures fails { failing_calls (mem_plan result) ≡ fails.items }
    {
        MemFiles {
            alloc,
            files,
            plan: FaultPlan::new(fails),
            read_faults: 0,
            write_faults: 0,
        }
    }

    /// The bytes under the name, or `None` exactly where it is not held.
    pub fn held(&self, name: &str) -> Option<&[u8]>
        ensures { option_copied result ≡ mem_held self.now name.now }
    {
        find(&self.files, name)
    }
}

impl Files for MemFiles {
    ghost use Rattle.snap_io.specs.MemFiles.{mem_held, mem_plan, mem_read_faults, mem_write_faults};

    ghost held = { λ files. Some (mem_held files) };

    ghost read_faults = { mem_read_faults };

    ghost write_faults = { mem_write_faults };

    /// Also says when it fails: where the call is listed, or the name is not held.
    fn read(&mut self, name: &str, limit: u32) -> Result<Vec<u8>, ReadAnswer>
        ensures bytes { IfOk result (λ bytes. bytes.items ≡ bytes_under (mem_held self.old) name.now) }
        ensures fits { IfOk result (λ bytes. length bytes.items ≤ limit) }
        ensures too_long { IsErrOf result ReadAnswer.TooLong
            → limit < length (bytes_under (mem_held self.old) name.now) }
        ensures count { CountsRead result (mem_read_faults self.old) (mem_read_faults self.new) }
        ensures other_count { mem_write_faults self.new ≡ mem_write_faults self.old }
        ensures held { mem_held self.new ≡ mem_held self.old }
        ensures listed { IsErrOf result ReadAnswer.Failed
            ↔ (IsListed (mem_plan self.old) ⊎ (mem_held self.old name.now ≡ None)) }
        ensures one_more { IsErrOf result ReadAnswer.Failed
            → IsOneMore (mem_read_faults self.old) (mem_read_faults self.new) }
        ensures call { CountsCall (mem_plan self.old) (mem_plan self.new) }
    {
        let is_listed = self.plan.next_fails();
        match find(&self.files, name) {
            Some(bytes) if !is_listed => copied(self.alloc, bytes, limit),
            _ => {
                self.read_faults = one_more(self.read_faults);
                Err(ReadAnswer::Failed)
            }
        }
    }

    /// Also says when it fails: where the call is listed. It then writes nothing.
    fn write(&mut self, name: &str, bytes: &[u8]) -> Result<(), WriteAnswer>
        ensures ok { OnOk result (Writes name.now bytes.now (mem_held self.old) (mem_held self.new)) }
        ensures failed { IsErrOf result WriteAnswer.Failed
            → WritesInPart name.now bytes.now (mem_held self.old) (mem_held self.new) }
        ensures no_memory { IsErrOf result WriteAnswer.NoMemory → mem_held self.new ≡ mem_held self.old }
        ensures count { CountsWrite result (mem_write_faults self.old) (mem_write_faults self.new) }
        ensures other_count { mem_read_faults self.new ≡ mem_read_faults self.old }
        ensures listed { IsErrOf result WriteAnswer.Failed ↔ IsListed (mem_plan self.old) }
        ensures nothing { IsErrOf result WriteAnswer.Failed → mem_held self.new ≡ mem_held self.old }
        ensures one_more { IsErrOf result WriteAnswer.Failed
            → IsOneMore (mem_write_faults self.old) (mem_write_faults self.new) }
        ensures call { CountsCall (mem_plan self.old) (mem_plan self.new) }
    {
        if self.plan.next_fails() {
            self.write_faults = one_more(self.write_faults);
            return Err(WriteAnswer::Failed);
        }
        put_under(self.alloc, &mut self.files, name, bytes)?;
        Ok(())
    }
}

//! A sink in memory, of which chosen calls fail.

ghost use Rattle.std.specs.Prelude.{◌≡◌, ◌↔◌, ◌++◌, [], Some, OnOk, IsErrOf};
ghost use Rattle.snap_io.specs.Counts.{CountsWrite};
ghost use Rattle.snap_io.specs.Written.{AppendsInPart};
ghost use Rattle.snap_io.specs.OneMore.{IsOneMore};
ghost use Rattle.snap_io.specs.FaultPlan.{next_call, failing_calls, IsListed, CountsCall};

use crate::answers::WriteAnswer;
use crate::plan::{FaultPlan, one_more};
use crate::sink::Sink;
use std::alloc::Global;

/// A sink in memory. It tells all that was written. Each call that is listed fails, and appends
/// nothing.
#[derive(Drop)]
pub struct MemSink {
    bytes: Vec<u8>,
    plan: FaultPlan,
    faults: u64,
}

impl MemSink {
    ghost use Rattle.snap_io.specs.MemSink.{mem_written, mem_sink_plan, mem_sink_faults};

    /// An empty sink. The calls of `put` are numbered from 0 on, and those whose numbers `fails`
    /// lists fail. Past the last u32 each call has the last number.
    pub fn new(alloc: Global, fails: Vec<u32>) -> MemSink
        ensures written { mem_written result ≡ [] }
        ensures faults { mem_sink_faults result ≡ 0 }
        ensures call { next_call (mem_sink_plan result) ≡ 0 }
        ensures fails { failing_calls (mem_sink_plan result) ≡ fails.items }
    {
        MemSink {
            bytes: Vec::new(alloc),
            plan: FaultPlan::new(fails),
            faults: 0,
        }
    }

    /// The bytes written so far.
    pub fn written(&self) -> &[u8]
        ensures { result.now ≡ mem_written self.now }
    {
        &self.bytes
    }
}

impl Sink for MemSink {
    ghost use Rattle.snap_io.specs.MemSink.{mem_written, mem_sink_plan, mem_sink_faults};

    ghost written = { λ sink. Some (mem_written sink) };

    ghost faults = { mem_sink_faults };

    /// Also says when it fails: where the call is listed. It then appends nothing.
    fn put(&mut self, bytes: &[u8]) -> Result<(), WriteAnswer>
        ensures ok { OnOk result (mem_written self.new ≡ mem_written self.old ++ bytes.now) }
        ensures failed { IsErrOf result WriteAnswer.Failed
            → AppendsInPart bytes.now (Some (mem_written self.old)) (Some (mem_written self.new)) }
        ensures no_memory { IsErrOf result WriteAnswer.NoMemory → mem_written self.new ≡ mem_written self.old }
        ensures count { CountsWrite result (mem_sink_faults self.old) (mem_sink_faults self.new) }
        ensures listed { IsErrOf result WriteAnswer.Failed ↔ IsListed (mem_sink_plan self.old) }
        ensures nothing { IsErrOf result WriteAnswer.Failed → mem_written self.new ≡ mem_written self.old }
        ensures one_more { IsErrOf result WriteAnswer.Failed
            → IsOneMore (mem_sink_faults self.old) (mem_sink_faults self.new) }
        ensures call { CountsCall (mem_sink_plan self.old) (mem_sink_plan self.new) }
    {
        if self.plan.next_fails() {
            self.faults = one_more(self.faults);
            return Err(WriteAnswer::Failed);
        }
        self.bytes.extend_from_slice(bytes)?;
        Ok(())
    }
}

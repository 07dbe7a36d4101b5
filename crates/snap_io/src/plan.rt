//! Faults: a plan of the calls that fail, and a count that stops at its last value.

ghost use Rattle.std.specs.Prelude.{◌≡◌, ◌↔◌, IsTrue};
ghost use Rattle.snap_io.specs.OneMore.{IsOneMore};

/// The calls that are to fail, by their numbers, and the number of the next call.
#[derive(Drop)]
pub(crate) struct FaultPlan {
    calls: u32,
    fails: Vec<u32>,
}

impl FaultPlan {
    ghost use Rattle.snap_io.specs.FaultPlan.{next_call, failing_calls, IsListed, CountsCall};

    pub(crate) fn new(fails: Vec<u32>) -> FaultPlan
        ensures calls { next_call result ≡ 0 }
        ensures fails { failing_calls result ≡ fails.items }
    {
        FaultPlan { calls: 0, fails }
    }

    // Counts a call, and says whether it is to fail.
    pub(crate) fn next_fails(&mut self) -> bool
        ensures listed { IsTrue result ↔ IsListed self.old }
        ensures counts { CountsCall self.old self.new }
    {
        let fails = self.fails.contains(&self.calls);
        self.calls = self.calls.saturating_add(1);
        fails
    }
}

// The next count of faults, which stops at the last value.
pub(crate) fn one_more(count: u64) -> u64
    ensures { IsOneMore count result }
{
    count.saturating_add(1)
}

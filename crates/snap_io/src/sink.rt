//! A place that takes bytes, one piece after the other.

ghost use Rattle.std.specs.Prelude.{◌≡◌, ℕ, Option, List, OnOk, IsErrOf};
ghost use Rattle.snap_io.specs.Counts.{CountsWrite};
ghost use Rattle.snap_io.specs.Written.{appended, AppendsInPart};

use crate::answers::WriteAnswer;

/// A place that takes bytes: what was written so far, where the object tells it, and a count of
/// faults.
pub trait Sink {
    /// The bytes written so far, or `None` where the object does not tell.
    ghost written: { Self → Option (List ℕ) };

    /// How often a write failed, up to the greatest u64.
    ghost faults: { Self → ℕ };

    /// Appends a piece. A piece that failed was appended in part, all of it or nothing included.
    fn put(&mut self, bytes: &[u8]) -> Result<(), WriteAnswer>
        ensures ok { OnOk result (written self.new ≡ appended (written self.old) bytes.now) }
        ensures failed { IsErrOf result WriteAnswer.Failed → AppendsInPart bytes.now (written self.old) (written self.new) }
        ensures no_memory { IsErrOf result WriteAnswer.NoMemory → written self.new ≡ written self.old }
        ensures count { CountsWrite result (faults self.old) (faults self.new) };
}

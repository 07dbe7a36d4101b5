//! Files by name.

ghost use Rattle.std.specs.Prelude.{◌≡◌, ◌<◌, ◌≤◌, ℕ, Option, List, vec_len, length, IfOk, IfSome, OnOk, IsErrOf};
ghost use Rattle.snap_io.specs.Counts.{CountsRead, CountsWrite};
ghost use Rattle.snap_io.specs.Held.{Held, Told, Writes, WritesInPart, bytes_under};

use crate::answers::{ReadAnswer, WriteAnswer};

/// Files by name: a map from names to bytes, where the object tells it, and two counts of faults,
/// one of `read` and one of `write`, each of which its own call alone raises.
pub trait Files {
    /// What the files hold, or `None` where the object does not tell.
    ghost held: { Self → Option Held };

    /// How often a read failed, up to the greatest u64.
    ghost read_faults: { Self → ℕ };

    /// How often a write failed, up to the greatest u64.
    ghost write_faults: { Self → ℕ };

    /// The bytes under the name, of which there are at most `limit`. What the files hold stays,
    /// whatever the answer.
    fn read(&mut self, name: &str, limit: u32) -> Result<Vec<u8>, ReadAnswer>
        ensures bytes { IfOk result (λ bytes. IfSome (held self.old) (λ h. bytes.items ≡ bytes_under h name.now)) }
        ensures fits { IfOk result (λ bytes. length bytes.items ≤ limit) }
        ensures too_long { IsErrOf result ReadAnswer.TooLong → IfSome (held self.old) (λ h. limit < length (bytes_under h name.now)) }
        ensures count { CountsRead result (read_faults self.old) (read_faults self.new) }
        ensures other_count { write_faults self.new ≡ write_faults self.old }
        ensures held { held self.new ≡ held self.old };

    /// Replaces the bytes under the name. Every other name stays as it is, whatever the answer.
    fn write(&mut self, name: &str, bytes: &[u8]) -> Result<(), WriteAnswer>
        ensures ok { OnOk result (Told (Writes name.now bytes.now) (held self.old) (held self.new)) }
        ensures failed { IsErrOf result WriteAnswer.Failed → Told (WritesInPart name.now bytes.now) (held self.old) (held self.new) }
        ensures no_memory { IsErrOf result WriteAnswer.NoMemory → held self.new ≡ held self.old }
        ensures count { CountsWrite result (write_faults self.old) (write_faults self.new) }
        ensures other_count { read_faults self.new ≡ read_faults self.old };
}

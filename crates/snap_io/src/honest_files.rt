//! Files in memory that never fail.

ghost use Rattle.std.specs.Prelude.{◌≡◌, Some, option_copied};
ghost use Rattle.snap_io.specs.NamedFile.{held_by, AreApart};

use crate::answers::{ReadAnswer, WriteAnswer};
use crate::files::Files;
use crate::named::{NamedFile, copied, find, put_under};
use std::alloc::Global;

/// Files in memory. They tell all that they hold, and never fail: a name that they do not hold
/// reads as no bytes.
#[derive(Drop)]
pub struct HonestFiles {
    alloc: Global,
    files: Vec<NamedFile>,
}

impl HonestFiles {
    ghost use Rattle.snap_io.specs.HonestFiles.{honest_held};

    /// Files that hold these, whose names are all different.
    pub fn new(alloc: Global, files: Vec<NamedFile>) -> HonestFiles
        requires { AreApart files.items }
        ensures { honest_held result ≡ held_by files.items }
    {
        HonestFiles { alloc, files }
    }

    /// The bytes under the name, or `None` exactly where it is not held.
    pub fn held(&self, name: &str) -> Option<&[u8]>
        ensures { option_copied result ≡ honest_held self.now name.now }
    {
        find(&self.files, name)
    }
}

impl Files for HonestFiles {
    ghost use Rattle.snap_io.specs.HonestFiles.{honest_held};

    ghost held = { λ files. Some (honest_held files) };

    ghost read_faults = { λ _. 0 };

    ghost write_faults = { λ _. 0 };

    fn read(&mut self, name: &str, limit: u32) -> Result<Vec<u8>, ReadAnswer> {
        match find(&self.files, name) {
            Some(bytes) => copied(self.alloc, bytes, limit),
            None => Ok(Vec::new(self.alloc)),
        }
    }

    fn write(&mut self, name: &str, bytes: &[u8]) -> Result<(), WriteAnswer> {
        put_under(self.alloc, &mut self.files, name, bytes)?;
        Ok(())
    }
}

//! A sink in memory that never fails.

ghost use Rattle.std.specs.Prelude.{◌≡◌, [], Some};

use crate::answers::WriteAnswer;
use crate::sink::Sink;
use std::alloc::Global;

/// A sink in memory. It tells all that was written, and never fails.
#[derive(Drop)]
pub struct HonestSink {
    bytes: Vec<u8>,
}

impl HonestSink {
    ghost use Rattle.snap_io.specs.HonestSink.{honest_written};

    /// An empty sink.
    pub fn new(alloc: Global) -> HonestSink
        ensures { honest_written result ≡ [] }
    {
        HonestSink {
            bytes: Vec::new(alloc),
        }
    }

    /// The bytes written so far.
    pub fn written(&self) -> &[u8]
        ensures { result.now ≡ honest_written self.now }
    {
        &self.bytes
    }
}

impl Sink for HonestSink {
    ghost use Rattle.snap_io.specs.HonestSink.{honest_written};

    ghost written = { λ sink. Some (honest_written sink) };

    ghost faults = { λ _. 0 };

    fn put(&mut self, bytes: &[u8]) -> Result<(), WriteAnswer> {
        self.bytes.extend_from_slice(bytes)?;
        Ok(())
    }
}

//! Any writer as a sink: the trusted edge.

ghost use Rattle.std.specs.Prelude.{◌≡◌, None, OnOk, IsErrOf, IsOkUnless};
ghost use Rattle.std.specs.Io.KnownBytes.{Appends};
ghost use Rattle.snap_io.specs.Counts.{CountsWrite};
ghost use Rattle.snap_io.specs.OneMore.{IsOneMore};

use crate::answers::WriteAnswer;
use crate::plan::one_more;
use crate::sink::Sink;
use crate::transfer::write_whole;
use std::io::Write;

/// A writer as a sink. It tells nothing of what was written, since that is the outside's.
///
/// Each error of the writer is a fault, and so is a write that takes nothing of what is left of a
/// piece. The call ends there, so it counts one.
#[derive(Drop)]
pub struct StdSink<W> {
    writer: W,
    faults: u64,
}

impl<W: Write> StdSink<W> {
    ghost use Rattle.snap_io.specs.StdSink.{std_sink_writer, std_sink_faults};

    /// A sink over this writer, with no fault so far.
    pub fn new(writer: W) -> StdSink<W>
        ensures writer { std_sink_writer result ≡ writer }
        ensures faults { std_sink_faults result ≡ 0 }
    {
        StdSink { writer, faults: 0 }
    }
}

impl<W: Write> Sink for StdSink<W> {
    ghost use Rattle.snap_io.specs.StdSink.{std_sink_writer, std_sink_faults};

    ghost written = { λ _. None };

    ghost faults = { std_sink_faults };

    /// Writes the whole piece and flushes it.
    fn put(&mut self, bytes: &[u8]) -> Result<(), WriteAnswer>
        ensures count { CountsWrite result (std_sink_faults self.old) (std_sink_faults self.new) }
        ensures one_more { IsErrOf result WriteAnswer.Failed
            → IsOneMore (std_sink_faults self.old) (std_sink_faults self.new) }
        ensures no_other { IsOkUnless result WriteAnswer.Failed }
        ensures writer { OnOk result (Appends
            (W.contents (std_sink_writer self.old)) (W.contents (std_sink_writer self.new)) bytes.now) }
    {
        let answer = write_whole(&mut self.writer, bytes);
        if answer.is_err() {
            self.faults = one_more(self.faults);
        }
        answer
    }
}

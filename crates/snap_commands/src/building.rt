//! `build` over files: the source is judged and run and its blob made before anything is written.

ghost use Rattle.std.specs.Prelude.{◌≡◌, ◌≢◌, [], map, Some, None, Err, IfOk};
ghost use Rattle.snap_commands.specs.Answers.{ran, source_number};
ghost use Rattle.snap_commands.specs.Refusals.{refusal};
ghost use Rattle.snap_commands.specs.Coming.{Comes};
ghost use Rattle.snap_commands.specs.declared.fault.Fault.{Fault};
ghost use Rattle.snap_commands.specs.Thin.{thin_of};
ghost use Rattle.snap_commands.specs.ThinSource.{thin_script};
ghost use Rattle.snap_commands.specs.Making.{Fetches, IsMade, Puts};
ghost use Rattle.snap_commands.specs.Views.{message_view};
ghost use Rattle.snap_commands.specs.Words.{Build};

use crate::build::made_blob;
use crate::evaluate::{Stop, evaluate};
use crate::fault::Fault;
use crate::judge::{Unjudged, judge};
use crate::refused::SourceRefused;
use crate::said::{Said, refused, starved};
use crate::statement::Statement;
use indexmap::IndexMap;
use snap_base::MOST_SOURCE_BYTES;
use snap_io::{Files, ReadAnswer, WriteAnswer};
use snap_parse::SourceFault;
use std::alloc::Global;

/// The name of the blob that a build writes.
pub(crate) const BLOB_NAME: &str = "snapshot.blob";

/// What a build makes before it writes.
#[derive(Debug, Drop)]
pub(crate) struct Made {
    /// What the script printed.
    pub(crate) printed: Vec<u8>,
    /// The blob.
    pub(crate) blob: Vec<u8>,
}

/// Builds a source: runs it and writes the blob of what it leaves.
pub(crate) fn build<F: Files>(alloc: Global, source: &str, files: &mut F) -> Said
    ensures { Comes (Some (Build source.now)) (record {
      before = F.held files.old;
      after = F.held files.new;
      reads_before = F.read_faults files.old;
      reads_after = F.read_faults files.new;
      writes_before = F.write_faults files.old;
      writes_after = F.write_faults files.new;
    }) (message_view result) }
{
    let bytes = match fetch(source, 0, files) {
        Ok(bytes) => bytes,
        Err(fault) => return refused(alloc, source, fault),
    };
    match make(alloc, &bytes) {
        Ok(made) => put(alloc, made, files),
        Err(fault) => refused(alloc, source, fault),
    }
}

/// The bytes of a source, or why there are none to run under this number.
pub(crate) fn fetch<F: Files>(source: &str, number: u32, files: &mut F) -> Result<Vec<u8>, Fault>
    ensures { Fetches number source.now (record {
      before = F.held files.old;
      after = F.held files.new;
      reads_before = F.read_faults files.old;
      reads_after = F.read_faults files.new;
      writes_before = F.write_faults files.old;
      writes_after = F.write_faults files.new;
    }) result }
{
    match files.read(source, MOST_SOURCE_BYTES) {
        Ok(bytes) => Ok(bytes),
        Err(ReadAnswer::TooLong) => Err(Fault::Source(
            number,
            SourceRefused::Parse(SourceFault::TooLong),
        )),
        Err(ReadAnswer::Failed) => Err(Fault::Read),
        Err(ReadAnswer::NoMemory) => Err(Fault::NoMemory),
    }
}

// What the source prints, and the blob of what it leaves.
fn make(alloc: Global, source: &[u8]) -> Result<Made, Fault>
    ensures ok { IfOk result (λ made. IsMade source.now made.printed.items made.blob.items) }
    ensures refused { (f : Fault) → result ≡ Err f → f ≢ Fault.NoMemory → ran source_number source.now [] ≡ Err f }
{
    match judge(alloc, source) {
        Ok(Some(statements)) => run(alloc, source, &statements),
        Ok(None) => Err(Fault::NotBuilt),
        Err(Unjudged::Refused(why)) => Err(Fault::Source(0, why)),
        Err(Unjudged::NoMemory) => Err(Fault::NoMemory),
    }
}

fn run(alloc: Global, source: &[u8], statements: &[Statement<'_>]) -> Result<Made, Fault>
    requires thin { thin_script source.now ≡ Some (map thin_of statements.now) }
    requires accepted { refusal source.now ≡ None }
    ensures ok { IfOk result (λ made. IsMade source.now made.printed.items made.blob.items) }
    ensures refused { (f : Fault) → result ≡ Err f → f ≢ Fault.NoMemory → ran source_number source.now [] ≡ Err f }
{
    let mut globals = IndexMap::new(alloc);
    let mut printed = Vec::new(alloc);
    match evaluate(alloc, statements, &mut globals, &mut printed) {
        Ok(()) => {}
        Err(Stop::TooLong) => return Err(Fault::NotBuilt),
        Err(Stop::NoMemory) => return Err(Fault::NoMemory),
    }
    match made_blob(alloc, source, &globals) {
        Ok(blob) => Ok(Made { printed, blob }),
        Err(_) => Err(Fault::NoMemory),
    }
}

// Writes the blob. The line of a write that fails is made before, so that it can be told.
fn put<F: Files>(alloc: Global, made: Made, files: &mut F) -> Said
    ensures { Puts made.printed.items made.blob.items (record {
      before = F.held files.old;
      after = F.held files.new;
      reads_before = F.read_faults files.old;
      reads_after = F.read_faults files.new;
      writes_before = F.write_faults files.old;
      writes_after = F.write_faults files.new;
    }) (message_view result) }
{
    let Made { mut printed, blob } = made;
    let len = printed.len();
    if printed
        .extend_from_slice(b"write failed: snapshot.blob\n")
        .is_err()
    {
        return starved(alloc);
    }
    match files.write(BLOB_NAME, &blob) {
        Ok(()) => {
            printed.truncate(len);
            Said {
                text: printed,
                fault: None,
            }
        }
        Err(WriteAnswer::Failed) => Said {
            text: printed,
            fault: Some(Fault::Write),
        },
        Err(WriteAnswer::NoMemory) => starved(alloc),
    }
}

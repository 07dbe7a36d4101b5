//! `run` over files: an entry is run on what the blob holds.

ghost use Rattle.std.specs.Prelude.{◌≡◌, ◌≢◌, map, Some, None, Ok, Err, IfOk};
ghost use Rattle.std.specs.Option.{option_map};
ghost use Rattle.snap_commands.specs.declared.fault.Fault.{Fault};
ghost use Rattle.snap_commands.specs.Answers.{entry_number, ran};
ghost use Rattle.snap_commands.specs.Refusals.{refusal};
ghost use Rattle.snap_commands.specs.Coming.{Comes};
ghost use Rattle.snap_commands.specs.Globals.{entries_of};
ghost use Rattle.snap_commands.specs.Kept.{AreApart, globals_in, kept_globals};
ghost use Rattle.snap_commands.specs.Making.{Finds, Runs};
ghost use Rattle.snap_commands.specs.Thin.{thin_of};
ghost use Rattle.snap_commands.specs.ThinSource.{thin_script};
ghost use Rattle.snap_commands.specs.Views.{message_view};
ghost use Rattle.snap_commands.specs.Words.{Run};

use crate::building::{BLOB_NAME, fetch};
use crate::evaluate::{Stop, evaluate};
use crate::fault::Fault;
use crate::judge::{Unjudged, judge};
use crate::kept::{Loaded, globals_of};
use crate::load::load;
use crate::said::{Said, refused};
use crate::statement::Statement;
use snap_base::MOST_BLOB_BYTES;
use snap_blob::{BlobFault, BlobKind};
use snap_io::{Files, ReadAnswer};
use std::alloc::Global;

/// The number of an entry, which is the number of the blob's scripts: a thin blob has one.
const ENTRY_NUMBER: u32 = 1;

/// Runs an entry on the globals of the blob.
pub(crate) fn run<F: Files>(alloc: Global, entry: Option<&str>, files: &mut F) -> Said
    ensures { Comes (Some (Run (option_map (λ name. name.now) entry.entry))) (record {
      before = F.held files.old;
      after = F.held files.new;
      reads_before = F.read_faults files.old;
      reads_after = F.read_faults files.new;
      writes_before = F.write_faults files.old;
      writes_after = F.write_faults files.new;
    }) (message_view result) }
{
    let loaded = match find(alloc, files) {
        Ok(loaded) => loaded,
        Err(fault) => return refused(alloc, BLOB_NAME, fault),
    };
    match entry {
        Some(entry) => run_entry(alloc, &loaded, entry, files),
        None => refused(alloc, "", Fault::NothingToRun),
    }
}

// What the blob holds, or why there is nothing to run on.
fn find<F: Files>(alloc: Global, files: &mut F) -> Result<Loaded, Fault>
    ensures finds { Finds (record {
      before = F.held files.old;
      after = F.held files.new;
      reads_before = F.read_faults files.old;
      reads_after = F.read_faults files.new;
      writes_before = F.write_faults files.old;
      writes_after = F.write_faults files.new;
    }) (globals_in result) }
    ensures apart { IfOk result (λ loaded. AreApart (kept_globals loaded.globals.items)) }
{
    match files.read(BLOB_NAME, MOST_BLOB_BYTES) {
        Ok(bytes) => load(alloc, &bytes),
        Err(ReadAnswer::TooLong) => Err(Fault::Blob(BlobFault {
            kind: BlobKind::TooLong,
            at: MOST_BLOB_BYTES,
        })),
        Err(ReadAnswer::Failed) => Err(Fault::Read),
        Err(ReadAnswer::NoMemory) => Err(Fault::NoMemory),
    }
}

// Runs an entry that the files hold on the globals that were loaded.
fn run_entry<F: Files>(alloc: Global, loaded: &Loaded, entry: &str, files: &mut F) -> Said
    requires { AreApart (kept_globals loaded.now.globals.items) }
    ensures { Runs entry.now (kept_globals loaded.now.globals.items) (record {
      before = F.held files.old;
      after = F.held files.new;
      reads_before = F.read_faults files.old;
      reads_after = F.read_faults files.new;
      writes_before = F.write_faults files.old;
      writes_after = F.write_faults files.new;
    }) (message_view result) }
{
    let bytes = match fetch(entry, ENTRY_NUMBER, files) {
        Ok(bytes) => bytes,
        Err(fault) => return refused(alloc, entry, fault),
    };
    match print(alloc, loaded, &bytes) {
        Ok(printed) => Said {
            text: printed,
            fault: None,
        },
        Err(fault) => refused(alloc, entry, fault),
    }
}

// What an entry prints.
fn print(alloc: Global, loaded: &Loaded, entry: &[u8]) -> Result<Vec<u8>, Fault>
    requires { AreApart (kept_globals loaded.now.globals.items) }
    ensures ok { IfOk result (λ printed. ran entry_number entry.now (kept_globals loaded.now.globals.items) ≡ Ok printed.items) }
    ensures refused { (f : Fault) → result ≡ Err f → f ≢ Fault.NoMemory → ran entry_number entry.now (kept_globals loaded.now.globals.items) ≡ Err f }
{
    match judge(alloc, entry) {
        Ok(Some(statements)) => evaluate_on(alloc, loaded, entry, &statements),
        Ok(None) => Err(Fault::NotBuilt),
        Err(Unjudged::Refused(why)) => Err(Fault::Source(ENTRY_NUMBER, why)),
        Err(Unjudged::NoMemory) => Err(Fault::NoMemory),
    }
}

fn evaluate_on(
    alloc: Global,
    loaded: &Loaded,
    entry: &[u8],
    statements: &[Statement<'_>],
) -> Result<Vec<u8>, Fault>
    requires apart { AreApart (kept_globals loaded.now.globals.items) }
    requires thin { thin_script entry.now ≡ Some (map thin_of statements.now) }
    requires accepted { refusal entry.now ≡ None }
    ensures ok { IfOk result (λ printed. ran entry_number entry.now (kept_globals loaded.now.globals.items) ≡ Ok printed.items) }
    ensures refused { (f : Fault) → result ≡ Err f → f ≢ Fault.NoMemory → ran entry_number entry.now (kept_globals loaded.now.globals.items) ≡ Err f }
{
    let Ok(mut globals) = globals_of(alloc, loaded) else {
        return Err(Fault::NoMemory);
    };
    let mut printed = Vec::new(alloc);
    match evaluate(alloc, statements, &mut globals, &mut printed) {
        Ok(()) => Ok(printed),
        Err(Stop::TooLong) => Err(Fault::NotBuilt),
        Err(Stop::NoMemory) => Err(Fault::NoMemory),
    }
}

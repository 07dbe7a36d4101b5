//! The top call.

ghost use Rattle.std.specs.Prelude.{◌≡◌, ◌≢◌, ◌<◌, ◌⊎◌, ◌++◌, ℕ, [], ◌∷◌, List, Option, Some, None, Result, Ok, Err, IfSome, Contains};
ghost use Rattle.std.specs.Option.{option_map};
ghost use Rattle.spec_format.specs.declared.fault.BlobFault.{BlobFault};
ghost use Rattle.snap_io.specs.Counts.{HasRisen};
ghost use Rattle.snap_io.specs.Held.{Held, Told, bytes_under};
ghost use Rattle.snap_io.specs.Written.{AppendsInPart, appended};
ghost use Rattle.snap_commands.specs.declared.fault.Fault.{Fault};
ghost use Rattle.snap_commands.specs.Answers.{Answers, HoldsBuild, KeepsOrHolds, KeepsOthers, LeavesBuild, MayLeave};
ghost use Rattle.snap_commands.specs.Coming.{Comes, Counts, IsRefusal};
ghost use Rattle.snap_commands.specs.Line.{Names, count_line, fault_line, fault_of, read_names, source_name, status_of, told_of, unwritten_line};
ghost use Rattle.snap_commands.specs.Refusals.{HasCause};
ghost use Rattle.snap_commands.specs.declared.refused.SourceRefused.{SourceRefused};
ghost use Rattle.snap_commands.specs.Telling.{Tells};
ghost use Rattle.snap_commands.specs.Views.{job_view, message_view};
ghost use Rattle.snap_commands.specs.Words.{Job as command, Build, Verify, bytes_of, job_of};

use crate::building::build;
use crate::fault::Fault;
use crate::line::status_of;
use crate::outcome::Outcome;
use crate::running::run;
use crate::said::{Said, counted, refused};
use crate::verify::verify;
use crate::words::{Job, job_of};
use snap_base::MOST_BLOB_BYTES;
use snap_blob::{BlobFault, BlobKind};
use snap_io::{Files, ReadAnswer, Sink, WriteAnswer};
use std::alloc::Global;

/// Runs the command of the words, with every command on one thread. Tables are hashed under the seed.
///
/// The fault is `None` exactly at status 0. Only a `build` writes a file, and only `snapshot.blob`.
pub fn snap_serial<F: Files, O: Sink>(
    alloc: Global,
    words: &[String],
    files: &mut F,
    out: &mut O,
    _seed: u64,
) -> Outcome
    ensures status { result.status ≡ status_of result.fault }

    // What comes of it, where no count of faults rose: the defined fault, and exactly the defined text.
    ensures told { IfSome (F.held files.old) (λ held.
        (HasRisen (F.read_faults files.old) (F.read_faults files.new) → ⊥)
        → (HasRisen (F.write_faults files.old) (F.write_faults files.new) → ⊥)
        → (HasRisen (O.faults out.old) (O.faults out.new) → ⊥)
        → result.fault ≢ Some Fault.NoMemory
        → (answer : Result (List ℕ) Fault) × Answers held (job_of (bytes_of words.now)) answer
        × (result.fault ≡ fault_of answer)
        × (O.written out.new ≡ appended (O.written out.old) (told_of (source_name (job_of (bytes_of words.now))) answer))) }

    // No other answer is defined, so each fault comes exactly where it is.
    ensures only { IfSome (F.held files.old) (λ held. (answer : Result (List ℕ) Fault)
        → Answers held (job_of (bytes_of words.now)) answer
        → (HasRisen (F.read_faults files.old) (F.read_faults files.new) → ⊥)
        → (HasRisen (F.write_faults files.old) (F.write_faults files.new) → ⊥)
        → (HasRisen (O.faults out.old) (O.faults out.new) → ⊥)
        → result.fault ≢ Some Fault.NoMemory
        → result.fault ≡ fault_of answer) }

    // The cause of each fault, whatever else rose.
    ensures words { result.fault ≡ Some Fault.Words → job_of (bytes_of words.now) ≡ None }
    ensures blob { (f : BlobFault) → result.fault ≡ Some (Fault.Blob f)
        → IfSome (F.held files.old) (λ held. Answers held (job_of (bytes_of words.now)) (Err (Fault.Blob f))) }
    ensures source { (number : ℕ) (why : SourceRefused) → result.fault ≡ Some (Fault.Source number why)
        → IfSome (F.held files.old) (λ held. Answers held (job_of (bytes_of words.now)) (Err (Fault.Source number why))
        × HasCause (bytes_under held (source_name (job_of (bytes_of words.now)))) why) }
    ensures not_built { result.fault ≡ Some Fault.NotBuilt
        → IfSome (F.held files.old) (λ held. Answers held (job_of (bytes_of words.now)) (Err Fault.NotBuilt)) }
    ensures nothing_to_run { result.fault ≡ Some Fault.NothingToRun
        → IfSome (F.held files.old) (λ held. Answers held (job_of (bytes_of words.now)) (Err Fault.NothingToRun)) }
    ensures read { result.fault ≡ Some Fault.Read → HasRisen (F.read_faults files.old) (F.read_faults files.new) }
    ensures write { result.fault ≡ Some Fault.Write → HasRisen (O.faults out.old) (O.faults out.new)
        ⊎ HasRisen (F.write_faults files.old) (F.write_faults files.new) }

    // Where the words name no job they are refused and the files left alone, whether or not these tell.
    ensures refused { job_of (bytes_of words.now) ≡ None → Contains (2 ∷ 7 ∷ 9 ∷ []) result.status }
    ensures unread { job_of (bytes_of words.now) ≡ None → files.new ≡ files.old }

    // What the sink gets: what was printed where all was done, or the line of the fault; a prefix of
    // that where the sink failed; nothing where memory ran out. Where the file was not written, what
    // was printed comes before the line that says so.
    ensures done { result.fault ≡ None → (printed : List ℕ)
        × IfSome (F.held files.old) (λ held. Answers held (job_of (bytes_of words.now)) (Ok printed))
        × (O.written out.new ≡ appended (O.written out.old) printed) }
    ensures line { (f : Fault) → result.fault ≡ Some f → f ≢ Fault.Write → (name : List ℕ)
        × Names (job_of (bytes_of words.now)) f name
        × (O.written out.new ≡ appended (O.written out.old) (fault_line name f)) }
    ensures unwritten { result.fault ≡ Some Fault.Write → (HasRisen (O.faults out.old) (O.faults out.new) → ⊥) → (printed : List ℕ)
        × IfSome (F.held files.old) (λ held. Answers held (job_of (bytes_of words.now)) (Ok printed))
        × (O.written out.new ≡ appended (O.written out.old) (printed ++ unwritten_line)) }
    ensures prefix { IfSome (F.held files.old) (λ held. (answer : Result (List ℕ) Fault)
        → Answers held (job_of (bytes_of words.now)) answer
        → (HasRisen (F.read_faults files.old) (F.read_faults files.new) → ⊥)
        → (HasRisen (F.write_faults files.old) (F.write_faults files.new) → ⊥)
        → AppendsInPart (told_of (source_name (job_of (bytes_of words.now))) answer) (O.written out.old) (O.written out.new)) }

    // Whether or not the files tell: a verify that was done tells a number; where the words name no job
    // the sink gets a prefix of the line of refused words, and where a read failed one of that line.
    ensures counted { (blob : List ℕ) → job_of (bytes_of words.now) ≡ Some (Verify blob) → result.fault ≡ None → (n : ℕ)
        × (O.written out.new ≡ appended (O.written out.old) (count_line n)) }
    ensures refused_line { job_of (bytes_of words.now) ≡ None
        → AppendsInPart (fault_line [] Fault.Words) (O.written out.old) (O.written out.new) }
    ensures read_line { F.read_faults files.old < F.read_faults files.new → (name : List ℕ)
        × Contains (read_names (job_of (bytes_of words.now))) name
        × AppendsInPart (fault_line name Fault.Read) (O.written out.old) (O.written out.new) }

    // Where a count is greater than before, the status says so.
    ensures read_rose { F.read_faults files.old < F.read_faults files.new
        → Contains (6 ∷ 7 ∷ 9 ∷ []) result.status }
    ensures write_rose { F.write_faults files.old < F.write_faults files.new
        → Contains (7 ∷ 9 ∷ []) result.status }
    ensures put_rose { O.faults out.old < O.faults out.new → result.status ≡ 7 }

    // What the files hold: a build that was done, or whose sink alone failed, has written the blob of
    // the source and of what it left. A refused command has written nothing.
    ensures built { (source : List ℕ) → job_of (bytes_of words.now) ≡ Some (Build source) → result.fault ≡ None
        → Told (HoldsBuild source) (F.held files.old) (F.held files.new) }
    ensures sink_alone { (source : List ℕ) → job_of (bytes_of words.now) ≡ Some (Build source) → result.fault ≡ Some Fault.Write
        → (HasRisen (F.write_faults files.old) (F.write_faults files.new) → ⊥)
        → (HasRisen (F.read_faults files.old) (F.read_faults files.new) → ⊥)
        → Told (LeavesBuild source) (F.held files.old) (F.held files.new) }
    ensures leaves { (source : List ℕ) → job_of (bytes_of words.now) ≡ Some (Build source)
        → Told (MayLeave source) (F.held files.old) (F.held files.new) }
    ensures whole { (source : List ℕ) → job_of (bytes_of words.now) ≡ Some (Build source)
        → (HasRisen (F.write_faults files.old) (F.write_faults files.new) → ⊥)
        → Told (KeepsOrHolds source) (F.held files.old) (F.held files.new) }
    ensures kept { (f : Fault) → result.fault ≡ Some f → IsRefusal f → F.held files.new ≡ F.held files.old }
    ensures reads_only { ((source : List ℕ) → job_of (bytes_of words.now) ≡ Some (Build source) → ⊥)
        → F.held files.new ≡ F.held files.old }
    ensures others { Told KeepsOthers (F.held files.old) (F.held files.new) }
{
    let job = job_of(words);
    let said = answer_of(alloc, job, files);
    let fault = tell(&said, out);
    Outcome {
        status: status_of(fault),
        fault,
    }
}

/// A job comes to one answer over what the files hold, so a blob denotes one thing or has one first
/// fault.
pub fn one_answer()
    ensures { (held : Held) (job : Option command) (a b : Result (List ℕ) Fault) → Answers held job a → Answers held job b → a ≡ b }
{}

// The message of a job over files.
fn answer_of<F: Files>(alloc: Global, job: Option<Job<'_>>, files: &mut F) -> Said
    ensures comes { Comes (option_map job_view job.entry) (record {
      before = F.held files.old;
      after = F.held files.new;
      reads_before = F.read_faults files.old;
      reads_after = F.read_faults files.new;
      writes_before = F.write_faults files.old;
      writes_after = F.write_faults files.new;
    }) (message_view result) }
    ensures unread { option_map job_view job.entry ≡ None → files.new ≡ files.old }
{
    match job {
        Some(job) => message_of(alloc, job, files),
        None => refused(alloc, "", Fault::Words),
    }
}

fn message_of<F: Files>(alloc: Global, job: Job<'_>, files: &mut F) -> Said
    ensures { Comes (Some (job_view job.entry)) (record {
      before = F.held files.old;
      after = F.held files.new;
      reads_before = F.read_faults files.old;
      reads_after = F.read_faults files.new;
      writes_before = F.write_faults files.old;
      writes_after = F.write_faults files.new;
    }) (message_view result) }
{
    match job {
        Job::Build(source) => build(alloc, source, files),
        Job::Run(entry) => run(alloc, entry, files),
        Job::Verify(blob) => {
            let count = count_of(alloc, blob, files);
            counted(alloc, blob, count)
        }
    }
}

// The number of strings of a blob, or why there is none.
fn count_of<F: Files>(alloc: Global, name: &str, files: &mut F) -> Result<u32, Fault>
    ensures { Counts name.now (record {
      before = F.held files.old;
      after = F.held files.new;
      reads_before = F.read_faults files.old;
      reads_after = F.read_faults files.new;
      writes_before = F.write_faults files.old;
      writes_after = F.write_faults files.new;
    }) result }
{
    match files.read(name, MOST_BLOB_BYTES) {
        Ok(bytes) => verify(alloc, &bytes),
        Err(ReadAnswer::TooLong) => Err(Fault::Blob(BlobFault {
            kind: BlobKind::TooLong,
            at: MOST_BLOB_BYTES,
        })),
        Err(ReadAnswer::Failed) => Err(Fault::Read),
        Err(ReadAnswer::NoMemory) => Err(Fault::NoMemory),
    }
}

// Tells a message to the sink; the fault that there is in the end.
fn tell<O: Sink>(said: &Said, out: &mut O) -> Option<Fault>
    ensures { Tells (message_view said.now) result (record { before = O.written out.old; after = O.written out.new; faults_before = O.faults out.old; faults_after = O.faults out.new }) }
{
    if said.fault == Some(Fault::NoMemory) {
        return said.fault;
    }
    match out.put(&said.text) {
        Ok(()) => said.fault,
        Err(WriteAnswer::Failed) => Some(Fault::Write),
        Err(WriteAnswer::NoMemory) => Some(Fault::NoMemory),
    }
}

//! What `run` prints over files in memory: entries on blobs that were built, and on blobs by hand.

use super::builds::string_section;
use super::{
    BLOB_A, CONTEXT, EXTERNALS, READ_ONLY, STARTUP, damaged, ended, failing_files, is_failure_told,
    is_verified, one_file, outcome_of, sealed, words_of,
};
use snap_commands::{Fault, SourceRefused};
use snap_io::{Files, HonestFiles, HonestSink, MemFiles};
use snap_lex::LexFault;
use snap_parse::SourceFault;
use snap_scope::ScopeFault;
use std::alloc::{AllocError, Global};
use std::test::Fail;

/// The strings of the blobs by hand; the last one is used nowhere.
const STRINGS: [&str; 18] = [
    "Array",
    "Error",
    "Map",
    "Object",
    "RangeError",
    "ReferenceError",
    "Set",
    "String",
    "TypeError",
    "console",
    "globalThis",
    "host",
    "name",
    "require",
    "text",
    "var",
    "x",
    "zz",
];

/// The numbers of the names of the global object's own properties, in their order.
const OWN_KEYS: &[u8] = &[10, 3, 0, 7, 2, 6, 1, 8, 5, 4, 9, 11, 13];

/// What these hold: the global object itself, and intrinsics.
const OWN_VALUES: &[u8] = &[
    8, 0, 7, 10, 7, 11, 7, 12, 7, 13, 7, 14, 7, 15, 7, 16, 7, 17, 7, 18, 7, 19, 7, 20, 7, 23,
];

fn byte(n: usize) -> u8 {
    u8::try_from(n).unwrap_or(u8::MAX)
}

/// Shapes on the empty one with the keys `branches`, then shapes with the keys `chain`, the first on the
/// empty one and each further one on the one before; their number stands first.
fn shape_bytes(alloc: Global, branches: &[u8], chain: &[u8]) -> Result<Vec<u8>, AllocError> {
    let mut count = byte(branches.len());
    let mut shapes = Vec::new(alloc);
    shapes.push(count.saturating_add(byte(chain.len())))?;
    for key in branches {
        shapes.extend_from_slice(&[0, *key])?;
    }
    let mut parent = 0u8;
    for key in chain {
        shapes.extend_from_slice(&[parent, *key])?;
        count = count.saturating_add(1);
        parent = count;
    }
    Ok(shapes)
}

/// A blob by hand: its script, the keys of the shapes that stand before the chain, and the properties
/// of the global object, whose shape is the last of the chain.
#[derive(Clone, Copy)]
struct ByHand {
    script: &'static str,
    branches: &'static [u8],
    // The keys and values before the global object's own.
    first_keys: &'static [u8],
    first_values: &'static [u8],
    // How many of the global object's own properties follow.
    own: usize,
    // The keys and values behind those.
    last_keys: &'static [u8],
    last_values: &'static [u8],
}

/// A blob whose one global `x` holds -5.
const MINUS_FIVE: ByHand = ByHand {
    script: "globalThis.x = 5;",
    branches: &[],
    first_keys: &[],
    first_values: &[],
    own: 13,
    last_keys: &[16],
    last_values: &[5, 9],
};

/// The bytes of a blob by hand, whose builder had another seed.
fn by_hand(alloc: Global, made: ByHand) -> Result<Vec<u8>, AllocError> {
    let own = made.own.min(13);
    let mut chain = Vec::from_slice(alloc, made.first_keys)?;
    chain.extend_from_slice(&OWN_KEYS[..own])?;
    chain.extend_from_slice(made.last_keys)?;
    let shapes = shape_bytes(alloc, made.branches, &chain)?;
    let shape = byte(made.branches.len()).saturating_add(byte(chain.len()));
    let mut startup = Vec::from_slice(alloc, b"\x07\0\0\0\0\0\0\x80\x01")?;
    startup.push(byte(made.script.len()))?;
    startup.extend_from_slice(made.script.as_bytes())?;
    startup.push(0)?;
    startup.extend_from_slice(&shapes)?;
    let mut context = Vec::from_slice(alloc, b"\x01\x09\x10\0\x07\0\x20")?;
    context.push(shape)?;
    context.extend_from_slice(made.first_values)?;
    context.extend_from_slice(&OWN_VALUES[..own * 2])?;
    context.extend_from_slice(made.last_values)?;
    context.extend_from_slice(&[0; 4])?;
    let read_only = string_section(alloc, &words_of(alloc, &STRINGS)?)?;
    let sections: [&[u8]; 4] = [&EXTERNALS, &read_only, &startup, &context];
    sealed(alloc, &sections)
}

/// An entry, and this blob.
fn run_files(alloc: Global, blob: &[u8], entry: &[u8]) -> Result<HonestFiles, AllocError> {
    let mut files = HonestFiles::new(alloc, one_file(alloc, "e.js", entry)?);
    match files.write("snapshot.blob", blob) {
        Ok(()) => Ok(files),
        Err(_) => Err(AllocError),
    }
}

/// Whether `run` of an entry on this blob prints this and ends with this status, and the files keep what
/// they hold.
fn is_run(
    alloc: Global,
    blob: &[u8],
    entry: &[u8],
    line: &[u8],
    status: u8,
) -> Result<bool, AllocError> {
    let mut files = run_files(alloc, blob, entry)?;
    let mut out = HonestSink::new(alloc);
    let outcome = outcome_of(alloc, &["run", "e.js"], &mut files, &mut out)?;
    Ok(
        out.written() == line
            && ended(&outcome, status)
            && files.held("e.js") == Some(entry)
            && files.held("snapshot.blob") == Some(blob),
    )
}

/// The blob that a build of this source leaves, or no bytes where it is refused.
fn built(alloc: Global, source: &[u8]) -> Result<Vec<u8>, AllocError> {
    let mut files = HonestFiles::new(alloc, one_file(alloc, "s.js", source)?);
    let mut out = HonestSink::new(alloc);
    let outcome = outcome_of(alloc, &["build", "s.js"], &mut files, &mut out)?;
    match files.held("snapshot.blob") {
        Some(blob) if outcome.status == 0 => blob.to_vec(alloc),
        _ => Ok(Vec::new(alloc)),
    }
}

/// An entry that prints `x`.
const PRINT_X: &[u8] = b"console.log(globalThis.x);";

const SOURCE: &[u8] = b"globalThis.foo = 'I am from the snapshot'; console.log(7);";

/// Entries on the blob of that source, what they print, and the status.
const ENTRIES: [(&str, &str, u8); 13] = [
    (
        "console.log(globalThis.foo); console.log(globalThis.bar);",
        "I am from the snapshot\nundefined\n",
        0,
    ),
    ("", "", 0),
    ("console.log('foo'); console.log(\"'\");", "foo\n'\n", 0),
    (
        "globalThis.bar = 'b'; console.log(globalThis.bar); console.log(globalThis.foo);",
        "b\nI am from the snapshot\n",
        0,
    ),
    (
        "console.log(globalThis.foo); globalThis.foo = null; console.log(globalThis.foo);",
        "I am from the snapshot\nnull\n",
        0,
    ),
    (
        "globalThis.foo = undefined; console.log(globalThis.foo);",
        "undefined\n",
        0,
    ),
    ("console.log(foo);", "not built\n", 11),
    ("console.log(1); console.log(foo);", "not built\n", 11),
    ("console.log(1)", "not built\n", 11),
    ("console.log(-5);", "not built\n", 11),
    ("console.log(globalThis.Object);", "not built\n", 11),
    ("// nothing", "not built\n", 11),
    ("console.log('a", "source refused: e.js Unclosed at 12\n", 3),
];

/// The first entry that is told otherwise.
fn first_entry_told_otherwise(alloc: Global, blob: &[u8]) -> Result<Option<usize>, AllocError> {
    for (row, (entry, line, status)) in ENTRIES.iter().enumerate() {
        if !is_run(alloc, blob, entry.as_bytes(), line.as_bytes(), *status)? {
            return Ok(Some(row));
        }
    }
    Ok(None)
}

#[test]
fn entries(rt: HostRuntime) -> Result<(), Fail> {
    let blob = built(rt.alloc(), SOURCE)?;
    assert_eq!(rt; first_entry_told_otherwise(rt.alloc(), &blob)?, None);
    assert!(rt; is_verified(rt.alloc(), &blob, "ok 15 strings\n", 0)?);
    Ok(())
}

/// Whether a build and then a run over the same files print their lines.
fn is_built_and_run(alloc: Global, files: &mut HonestFiles) -> Result<bool, AllocError> {
    let mut out = HonestSink::new(alloc);
    let build = outcome_of(alloc, &["build", "s.js"], files, &mut out)?;
    let run = outcome_of(alloc, &["run", "e.js"], files, &mut out)?;
    let lines = b"7\nI am from the snapshot\nundefined\n";
    Ok(build.status == 0 && run.status == 0 && out.written() == lines.as_slice())
}

/// Whether there is nothing to run where no entry is named.
fn is_nothing_run(alloc: Global, files: &mut HonestFiles) -> Result<bool, AllocError> {
    let mut out = HonestSink::new(alloc);
    let outcome = outcome_of(alloc, &["run"], files, &mut out)?;
    Ok(
        outcome.status == 8
            && outcome.fault == Some(Fault::NothingToRun)
            && out.written() == b"nothing to run\n".as_slice(),
    )
}

/// The source, and an entry that prints what it assigned.
fn source_and_entry(alloc: Global) -> Result<HonestFiles, AllocError> {
    let entry = b"console.log(globalThis.foo); console.log(globalThis.bar);";
    let mut files = HonestFiles::new(alloc, one_file(alloc, "s.js", SOURCE)?);
    match files.write("e.js", entry) {
        Ok(()) => Ok(files),
        Err(_) => Err(AllocError),
    }
}

#[test]
fn built_and_run(rt: HostRuntime) -> Result<(), Fail> {
    let mut files = source_and_entry(rt.alloc())?;
    assert!(rt; is_built_and_run(rt.alloc(), &mut files)?);
    assert!(rt; is_nothing_run(rt.alloc(), &mut files)?);
    Ok(())
}

/// An entry of so many bytes that prints `x`.
fn long_entry(alloc: Global, len: usize) -> Result<Vec<u8>, AllocError> {
    let mut entry = vec![in alloc; b' '; len.saturating_sub(PRINT_X.len())]?;
    entry.extend_from_slice(PRINT_X)?;
    Ok(entry)
}

/// Whether an entry of so many bytes is told so.
fn is_long_entry_run(
    alloc: Global,
    len: usize,
    line: &[u8],
    status: u8,
) -> Result<bool, AllocError> {
    let blob = by_hand(alloc, MINUS_FIVE)?;
    let entry = long_entry(alloc, len)?;
    if entry.len() != len {
        return Ok(false);
    }
    is_run(alloc, &blob, &entry, line, status)
}

#[test]
fn longest_entry(rt: HostRuntime) -> Result<(), Fail> {
    assert!(rt; is_long_entry_run(rt.alloc(), 1_048_576, b"-5\n", 0)?);
    let line = b"source refused: e.js TooLong at 1048576\n";
    assert!(rt; is_long_entry_run(rt.alloc(), 1_048_577, line, 3)?);
    Ok(())
}

/// Entries that are refused, why, and how that is told.
const REFUSED: [(&str, SourceRefused, &str); 2] = [
    (
        "/* 9007199254740992 */ 9007199254740992",
        SourceRefused::Parse(SourceFault::Lex(LexFault::BigLiteral(23))),
        "source refused: e.js BigLiteral at 23\n",
    ),
    (
        "console.log(x); ++1;",
        SourceRefused::Scope(ScopeFault::BadTarget(18)),
        "source refused: e.js BadTarget at 18\n",
    ),
];

/// Whether an entry is refused, for this reason and under the number of the blob's scripts.
fn is_refused(
    alloc: Global,
    entry: &str,
    why: SourceRefused,
    line: &str,
) -> Result<bool, AllocError> {
    let blob = by_hand(alloc, MINUS_FIVE)?;
    let mut files = run_files(alloc, &blob, entry.as_bytes())?;
    let mut out = HonestSink::new(alloc);
    let outcome = outcome_of(alloc, &["run", "e.js"], &mut files, &mut out)?;
    Ok(
        outcome.fault == Some(Fault::Source(1, why))
            && outcome.status == 3
            && out.written() == line.as_bytes(),
    )
}

/// The first entry that is not.
fn first_accepted(alloc: Global) -> Result<Option<usize>, AllocError> {
    for (row, (entry, why, line)) in REFUSED.iter().enumerate() {
        if !is_refused(alloc, entry, *why, line)? {
            return Ok(Some(row));
        }
    }
    Ok(None)
}

#[test]
fn refused_entries(rt: HostRuntime) -> Result<(), Fail> {
    assert_eq!(rt; first_accepted(rt.alloc())?, None);
    Ok(())
}

/// What else the last property may be: its key, its value, what an entry that prints `x` prints, and
/// the status, which is also that of a `verify`.
const LAST: [(&[u8], &[u8], &str, u8); 20] = [
    (&[16], &[5, 9], "-5\n", 0),
    (&[16], &[0], "undefined\n", 0),
    (&[16], &[1], "null\n", 0),
    (&[16], &[2], "false\n", 0),
    (&[16], &[3], "true\n", 0),
    (&[16], &[5, 10], "5\n", 0),
    (&[16], &[6, 14], "text\n", 0),
    (&[16], &[6, 16], "x\n", 0),
    (
        &[16],
        b"\x05\xFD\xFF\xFF\xFF\xFF\xFF\xFF\x1F",
        "-9007199254740991\n",
        0,
    ),
    (
        &[16],
        b"\x05\xFE\xFF\xFF\xFF\xFF\xFF\xFF\x1F",
        "9007199254740991\n",
        0,
    ),
    (&[12, 16], &[5, 2, 5, 4], "2\n", 0),
    (&[], &[], "undefined\n", 0),
    (
        &[16],
        b"\x05\xFF\xFF\xFF\xFF\xFF\xFF\xFF\x1F",
        "not built\n",
        11,
    ),
    (
        &[16],
        b"\x05\x80\x80\x80\x80\x80\x80\x80\x20",
        "not built\n",
        11,
    ),
    (&[16], &[4], "not built\n", 11),
    (&[16], &[7, 10], "not built\n", 11),
    (&[16], &[8, 0], "not built\n", 11),
    (&[16], &[6, 18], "not built\n", 11),
    (&[15], &[5, 10], "not built\n", 11),
    (&[3], &[5, 10], "not built\n", 11),
];

/// Whether a run on this blob prints `x` so, and `verify` takes or refuses it like the run.
fn is_run_and_verified(
    alloc: Global,
    made: ByHand,
    line: &str,
    status: u8,
) -> Result<bool, AllocError> {
    let blob = by_hand(alloc, made)?;
    if !is_run(alloc, &blob, PRINT_X, line.as_bytes(), status)? {
        return Ok(false);
    }
    let verified = if status == 0 {
        "ok 18 strings\n"
    } else {
        "not built\n"
    };
    is_verified(alloc, &blob, verified, status)
}

/// The first last property of which something else is told.
fn first_last_told_otherwise(alloc: Global) -> Result<Option<usize>, AllocError> {
    for (row, (keys, values, line, status)) in LAST.iter().enumerate() {
        let made = ByHand {
            last_keys: keys,
            last_values: values,
            ..MINUS_FIVE
        };
        if !is_run_and_verified(alloc, made, line, *status)? {
            return Ok(Some(row));
        }
    }
    Ok(None)
}

#[test]
fn last_properties(rt: HostRuntime) -> Result<(), Fail> {
    assert_eq!(rt; first_last_told_otherwise(rt.alloc())?, None);
    Ok(())
}

/// Other numberings of the shapes, other scripts and other properties in front, what is printed, and
/// the status.
const MADE: [(ByHand, &str, u8); 9] = [
    (
        ByHand {
            branches: &[12, 17],
            ..MINUS_FIVE
        },
        "-5\n",
        0,
    ),
    (
        ByHand {
            branches: &[12, 12],
            ..MINUS_FIVE
        },
        "not built\n",
        11,
    ),
    (
        ByHand {
            branches: &[10],
            ..MINUS_FIVE
        },
        "not built\n",
        11,
    ),
    (
        ByHand {
            script: "",
            ..MINUS_FIVE
        },
        "-5\n",
        0,
    ),
    (
        ByHand {
            script: "var x = 5;",
            ..MINUS_FIVE
        },
        "not built\n",
        11,
    ),
    (
        ByHand {
            first_keys: &[12],
            first_values: &[5, 9],
            ..MINUS_FIVE
        },
        "not built\n",
        11,
    ),
    (
        ByHand {
            own: 12,
            ..MINUS_FIVE
        },
        "not built\n",
        11,
    ),
    (
        ByHand {
            own: 12,
            last_keys: &[],
            last_values: &[],
            ..MINUS_FIVE
        },
        "not built\n",
        11,
    ),
    (
        ByHand {
            own: 11,
            last_keys: &[13, 11, 16],
            last_values: &[7, 23, 7, 20, 5, 9],
            ..MINUS_FIVE
        },
        "not built\n",
        11,
    ),
];

/// Whether a run on this blob prints `x` so.
fn is_made_run(alloc: Global, made: ByHand, line: &str, status: u8) -> Result<bool, AllocError> {
    let blob = by_hand(alloc, made)?;
    is_run(alloc, &blob, PRINT_X, line.as_bytes(), status)
}

/// The first blob by hand of which something else is told.
fn first_made_told_otherwise(alloc: Global) -> Result<Option<usize>, AllocError> {
    for (row, (made, line, status)) in MADE.iter().enumerate() {
        if !is_made_run(alloc, *made, line, *status)? {
            return Ok(Some(row));
        }
    }
    Ok(None)
}

#[test]
fn blobs_by_hand(rt: HostRuntime) -> Result<(), Fail> {
    assert_eq!(rt; first_made_told_otherwise(rt.alloc())?, None);
    Ok(())
}

fn many_assignments(alloc: Global) -> Result<Vec<u8>, AllocError> {
    let mut source = Vec::new(alloc);
    for k in 0..5_000u32 {
        let name = k.saturating_mul(7) % 5_000;
        let line = format!(in alloc; "globalThis.n{name} = 'text {k}';\n")?;
        source.extend_from_slice(line.as_bytes())?;
    }
    Ok(source)
}

/// Whether an entry on a blob of many names prints what they hold.
fn is_run_on_many_names(alloc: Global) -> Result<bool, AllocError> {
    let source = many_assignments(alloc)?;
    let blob = built(alloc, &source)?;
    let entry =
        b"console.log(globalThis.n0); console.log(globalThis.n7); console.log(globalThis.n4999);
        globalThis.n2500 = 1; console.log(globalThis.n2500); console.log(globalThis.n5000);";
    // 7 times 2,857 is 19,999, which is 4,999 behind a multiple of 5,000.
    let lines = b"text 0\ntext 1\ntext 2857\n1\nundefined\n";
    is_run(alloc, &blob, entry, lines, 0)
}

#[test]
fn entry_on_many_names(rt: HostRuntime) -> Result<(), Fail> {
    assert!(rt; is_run_on_many_names(rt.alloc())?);
    Ok(())
}

/// How a run is told whose outside fails: the failing calls of the files, of which the first puts the
/// blob under a name; that name; the failing calls of the sink; the words; what is printed; the status.
const FAILING: [(&[u32], &str, &[u32], &[&str], &str, u8); 13] = [
    (&[], "snapshot.blob", &[], &["run", "e.js"], "-5\n", 0),
    (
        &[1],
        "snapshot.blob",
        &[],
        &["run", "e.js"],
        "read failed: snapshot.blob\n",
        6,
    ),
    (
        &[2],
        "snapshot.blob",
        &[],
        &["run", "e.js"],
        "read failed: e.js\n",
        6,
    ),
    (&[3], "snapshot.blob", &[], &["run", "e.js"], "-5\n", 0),
    (
        &[],
        "snapshot.blob",
        &[],
        &["run", "f.js"],
        "read failed: f.js\n",
        6,
    ),
    (
        &[],
        "other",
        &[],
        &["run", "e.js"],
        "read failed: snapshot.blob\n",
        6,
    ),
    (
        &[],
        "other",
        &[],
        &["run", "f.js"],
        "read failed: snapshot.blob\n",
        6,
    ),
    (&[], "snapshot.blob", &[0], &["run", "e.js"], "", 7),
    (&[1], "snapshot.blob", &[0], &["run", "e.js"], "", 7),
    (&[2], "snapshot.blob", &[0], &["run", "e.js"], "", 7),
    (&[2], "snapshot.blob", &[], &["run"], "nothing to run\n", 8),
    (
        &[1],
        "snapshot.blob",
        &[],
        &["run"],
        "read failed: snapshot.blob\n",
        6,
    ),
    (&[], "snapshot.blob", &[0], &["run"], "", 7),
];

/// The entry, where these calls fail, and the blob under this name.
fn entry_files(
    alloc: Global,
    calls: &[u32],
    name: &str,
    blob: &[u8],
) -> Result<MemFiles, AllocError> {
    let mut files = failing_files(alloc, calls, "e.js", PRINT_X)?;
    match files.write(name, blob) {
        Ok(()) => Ok(files),
        Err(_) => Err(AllocError),
    }
}

/// Whether the files hold the entry still, and this blob under this name.
fn are_held(files: &MemFiles, name: &str, blob: &[u8]) -> bool {
    files.held("e.js") == Some(PRINT_X) && files.held(name) == Some(blob)
}

/// The first of them that is told otherwise, or does not leave the files as they were.
fn first_told_otherwise(alloc: Global, blob: &[u8]) -> Result<Option<usize>, AllocError> {
    for (row, (calls, name, puts, words, line, status)) in FAILING.iter().enumerate() {
        let mut files = entry_files(alloc, calls, name, blob)?;
        let told = is_failure_told(alloc, words, &mut files, puts, line, *status)?;
        if !told || !are_held(&files, name, blob) {
            return Ok(Some(row));
        }
    }
    Ok(None)
}

#[test]
fn failing_runs(rt: HostRuntime) -> Result<(), Fail> {
    let blob = by_hand(rt.alloc(), MINUS_FIVE)?;
    assert_eq!(rt; first_told_otherwise(rt.alloc(), &blob)?, None);
    Ok(())
}

/// Whether a run of these words over this blob alone is told so.
fn is_run_refused(
    alloc: Global,
    words: &[&str],
    blob: &[u8],
    line: &str,
    status: u8,
) -> Result<bool, AllocError> {
    let mut files = failing_files(alloc, &[], "snapshot.blob", blob)?;
    is_failure_told(alloc, words, &mut files, &[], line, status)
}

/// Whether a run of no entry and one of an entry that is not there are told so.
fn is_blob_refused(alloc: Global, blob: &[u8], line: &str, status: u8) -> Result<bool, AllocError> {
    Ok(
        is_run_refused(alloc, &["run"], blob, line, status)?
            && is_run_refused(alloc, &["run", "e.js"], blob, line, status)?,
    )
}

/// Whether a blob with one byte more is refused.
fn is_longer_refused(alloc: Global) -> Result<bool, AllocError> {
    let mut blob = by_hand(alloc, MINUS_FIVE)?;
    blob.push(0)?;
    is_blob_refused(alloc, &blob, "blob refused: BadLength at 12\n", 5)
}

/// Whether a blob with a second context is refused.
fn is_second_context_refused(alloc: Global) -> Result<bool, AllocError> {
    let sections: [&[u8]; 5] = [&EXTERNALS, &READ_ONLY, &STARTUP, &CONTEXT, &CONTEXT];
    let blob = sealed(alloc, &sections)?;
    is_blob_refused(alloc, &blob, "not built\n", 11)
}

/// Whether each of five blobs is refused.
fn are_refused(alloc: Global) -> Result<[bool; 5], AllocError> {
    Ok([
        is_longer_refused(alloc)?,
        is_blob_refused(alloc, &damaged(), "blob refused: BadDigest at 16\n", 5)?,
        is_blob_refused(alloc, &BLOB_A, "not built\n", 11)?,
        is_second_context_refused(alloc)?,
        is_blob_refused(alloc, b"", "blob refused: TooShort at 0\n", 5)?,
    ])
}

#[test]
fn refused_blobs(rt: HostRuntime) -> Result<(), Fail> {
    assert_eq!(rt; are_refused(rt.alloc())?, [true; 5]);
    Ok(())
}

//! What `build` prints and writes over files in memory.

use super::{failing_files, is_failure_told, number, one_file, outcome_of, sealed, words_of};
use snap_commands::{Fault, SourceRefused};
use snap_io::{Files, HonestFiles, HonestSink, MemFiles};
use snap_lex::LexFault;
use snap_parse::SourceFault;
use snap_scope::ScopeFault;
use std::alloc::{AllocError, Global};
use std::test::Fail;

const SOURCE: &str = "globalThis.foo = 'I am from the snapshot'; console.log(7);";

/// The strings of the blob of that source: the names of the global object, the new name and its text.
const STRINGS: [&str; 15] = [
    "Array",
    "Error",
    "I am from the snapshot",
    "Map",
    "Object",
    "RangeError",
    "ReferenceError",
    "Set",
    "String",
    "TypeError",
    "console",
    "foo",
    "globalThis",
    "host",
    "require",
];

/// Their numbers in order of the properties, the new name last.
const KEYS: [u32; 14] = [12, 4, 0, 8, 3, 7, 1, 9, 6, 5, 10, 13, 14, 11];

/// What the global object's own properties hold: the global object itself, and intrinsics.
const OWN_VALUES: [u8; 26] = [
    8, 0, 7, 10, 7, 11, 7, 12, 7, 13, 7, 14, 7, 15, 7, 16, 7, 17, 7, 18, 7, 19, 7, 20, 7, 23,
];

fn put_varint(out: &mut Vec<u8>, n: usize) -> Result<(), AllocError> {
    let mut rest = n;
    for _ in 0..4 {
        if rest >= 128 {
            out.push(128 | (rest % 128) as u8)?;
            rest /= 128;
        }
    }
    out.push((rest % 128) as u8)?;
    Ok(())
}

/// The read-only section of some strings.
pub(super) fn string_section(alloc: Global, strings: &[String]) -> Result<Vec<u8>, AllocError> {
    let mut section = Vec::new(alloc);
    section.extend_from_slice(&number(strings.len()))?;
    section.extend_from_slice(&number(0))?;
    let mut end = 0usize;
    for string in strings {
        end = end.saturating_add(string.len());
        section.extend_from_slice(&number(end))?;
    }
    for string in strings {
        section.extend_from_slice(string.as_bytes())?;
    }
    Ok(section)
}

/// The startup section of one script and of shapes with these keys, each on the one before.
fn startup_section(alloc: Global, script: &[u8], keys: &[u32]) -> Result<Vec<u8>, AllocError> {
    let mut section = Vec::new(alloc);
    section.extend_from_slice(b"\0\0\0\0\0\0\0\0\x01")?;
    put_varint(&mut section, script.len())?;
    section.extend_from_slice(script)?;
    put_varint(&mut section, 0)?;
    put_varint(&mut section, keys.len())?;
    let mut parent = 0usize;
    for key in keys {
        put_varint(&mut section, parent)?;
        put_varint(&mut section, *key as usize)?;
        parent = parent.saturating_add(1);
    }
    Ok(section)
}

/// The context section of a global object with so many properties; the values behind its own ones
/// are spelled so.
fn context_section(alloc: Global, count: usize, values: &[u8]) -> Result<Vec<u8>, AllocError> {
    let mut section = Vec::new(alloc);
    section.extend_from_slice(b"\x01\x09\x10\0\x07\0\x20")?;
    put_varint(&mut section, count)?;
    section.extend_from_slice(&OWN_VALUES)?;
    section.extend_from_slice(values)?;
    section.extend_from_slice(&[0; 4])?;
    Ok(section)
}

/// The blob of these strings, this script, shapes with these keys, and these values of new names.
fn blob_of(
    alloc: Global,
    strings: &[String],
    script: &[u8],
    keys: &[u32],
    values: &[u8],
) -> Result<Vec<u8>, AllocError> {
    let read_only = string_section(alloc, strings)?;
    let startup = startup_section(alloc, script, keys)?;
    let context = context_section(alloc, keys.len(), values)?;
    let sections: [&[u8]; 4] = [
        &[0],
        read_only.as_slice(),
        startup.as_slice(),
        context.as_slice(),
    ];
    sealed(alloc, &sections)
}

fn expected_blob(alloc: Global) -> Result<Vec<u8>, AllocError> {
    let strings = words_of(alloc, &STRINGS)?;
    blob_of(alloc, &strings, SOURCE.as_bytes(), &KEYS, &[6, 2])
}

/// This source, and another file.
fn source_files(alloc: Global, source: &[u8]) -> Result<HonestFiles, AllocError> {
    let mut files = HonestFiles::new(alloc, one_file(alloc, "s.js", source)?);
    match files.write("other", b"x") {
        Ok(()) => Ok(files),
        Err(_) => Err(AllocError),
    }
}

/// Whether a build over these files prints this, ends with this status, and leaves both as they were.
fn is_told(
    alloc: Global,
    files: &mut HonestFiles,
    source: &[u8],
    line: &[u8],
    status: u8,
) -> Result<bool, AllocError> {
    let mut out = HonestSink::new(alloc);
    let outcome = outcome_of(alloc, &["build", "s.js"], files, &mut out)?;
    Ok(
        out.written() == line
            && outcome.status == status
            && files.held("s.js") == Some(source)
            && files.held("other") == Some(b"x".as_slice()),
    )
}

/// Whether a build of this source is told so, and writes a blob exactly where the status is 0.
fn is_built(alloc: Global, source: &[u8], line: &[u8], status: u8) -> Result<bool, AllocError> {
    let mut files = source_files(alloc, source)?;
    let told = is_told(alloc, &mut files, source, line, status)?;
    Ok(told && files.held("snapshot.blob").is_some() == (status == 0))
}

/// Whether a build of this source prints this, and writes this blob.
fn is_built_as(alloc: Global, source: &[u8], line: &[u8], blob: &[u8]) -> Result<bool, AllocError> {
    let mut files = source_files(alloc, source)?;
    let told = is_told(alloc, &mut files, source, line, 0)?;
    Ok(told && files.held("snapshot.blob") == Some(blob))
}

/// Whether the build of the source writes the expected blob.
fn is_built_as_expected(alloc: Global) -> Result<bool, AllocError> {
    let blob = expected_blob(alloc)?;
    is_built_as(alloc, SOURCE.as_bytes(), b"7\n", &blob)
}

#[test]
fn a_built_blob(rt: HostRuntime) -> Result<(), Fail> {
    assert!(rt; is_built_as_expected(rt.alloc())?);
    // A build that is refused writes nothing.
    assert!(rt; is_built(rt.alloc(), b"foo", b"not built\n", 11)?);
    Ok(())
}

/// Scripts, what they print, and the status.
const PRINTING: [(&str, &str, u8); 33] = [
    ("", "", 0),
    (" \t\r\n", "", 0),
    ("console.log(undefined);", "undefined\n", 0),
    ("console.log(null);", "null\n", 0),
    ("console.log(true); console.log(false);", "true\nfalse\n", 0),
    ("console.log(0); console.log(10);", "0\n10\n", 0),
    ("console.log(''); console.log(\"\");", "\n\n", 0),
    (
        "console.log(globalThis.x); globalThis.x = 5; console.log(globalThis.x);",
        "undefined\n5\n",
        0,
    ),
    (
        "globalThis.x = 1; globalThis.y = 'b'; globalThis.x = null; console.log(globalThis.x); console.log(globalThis.y);",
        "null\nb\n",
        0,
    ),
    (
        "globalThis.x = 'a'; globalThis.x = undefined; console.log(globalThis.x);",
        "undefined\n",
        0,
    ),
    (
        "globalThis._$1 = true; console.log(globalThis._$1); console.log(globalThis._$);",
        "true\nundefined\n",
        0,
    ),
    (
        "console.log(' !\"#$%&()*+,-./0123456789:;<=>?@ABCDEFGHIJKLMNOPQRSTUVWXYZ[]^_`abcdefghijklmnopqrstuvwxyz{|}~');",
        " !\"#$%&()*+,-./0123456789:;<=>?@ABCDEFGHIJKLMNOPQRSTUVWXYZ[]^_`abcdefghijklmnopqrstuvwxyz{|}~\n",
        0,
    ),
    (
        "console.log(\" !#$%&'()*+,-./0123456789:;<=>?@ABCDEFGHIJKLMNOPQRSTUVWXYZ[]^_`abcdefghijklmnopqrstuvwxyz{|}~\");",
        " !#$%&'()*+,-./0123456789:;<=>?@ABCDEFGHIJKLMNOPQRSTUVWXYZ[]^_`abcdefghijklmnopqrstuvwxyz{|}~\n",
        0,
    ),
    ("console.log(9007199254740991);", "9007199254740991\n", 0),
    (
        "console.log(9007199254740992);",
        "source refused: s.js BigLiteral at 12\n",
        3,
    ),
    ("console.log(-1);", "not built\n", 11),
    ("console.log(0x10);", "not built\n", 11),
    (
        "console.log(1.5);",
        "source refused: s.js BadByte at 13\n",
        3,
    ),
    (
        "console\r.\nlog\r\n(\t1 )\r\n;console.log(2)\n;\r",
        "1\n2\n",
        0,
    ),
    ("console.log(1); // one", "not built\n", 11),
    ("console.log(/* one */ 1);", "not built\n", 11),
    ("globalThis.Object = 1;", "not built\n", 11),
    ("globalThis.require = 1;", "not built\n", 11),
    ("globalThis.__proto__ = 1;", "not built\n", 11),
    ("globalThis.constructor = 1;", "not built\n", 11),
    ("console.log(globalThis.hasOwnProperty);", "not built\n", 11),
    ("console.log('\\n');", "not built\n", 11),
    ("console.log('a", "source refused: s.js Unclosed at 12\n", 3),
    ("console.log(1)", "not built\n", 11),
    ("console.log(1);;", "not built\n", 11),
    ("console.log(1, 2);", "not built\n", 11),
    ("globalThis.x = globalThis.y;", "not built\n", 11),
    (
        "console.log('\u{E4}');",
        "source refused: s.js BadByte at 13\n",
        3,
    ),
];

/// The first script that prints something else.
fn first_printing_otherwise(alloc: Global) -> Result<Option<usize>, AllocError> {
    for (row, (source, line, status)) in PRINTING.iter().enumerate() {
        if !is_built(alloc, source.as_bytes(), line.as_bytes(), *status)? {
            return Ok(Some(row));
        }
    }
    Ok(None)
}

#[test]
fn printed_lines(rt: HostRuntime) -> Result<(), Fail> {
    assert_eq!(rt; first_printing_otherwise(rt.alloc())?, None);
    Ok(())
}

/// Sources that are refused, why, and how that is told.
const REFUSED: [(&str, SourceRefused, &str); 9] = [
    (
        "let 1;",
        SourceRefused::Parse(SourceFault::Syntax(4)),
        "source refused: bad.js Syntax at 4\n",
    ),
    (
        "1; 08",
        SourceRefused::Parse(SourceFault::Lex(LexFault::BadByte(4))),
        "source refused: bad.js BadByte at 4\n",
    ),
    (
        "console.log(1",
        SourceRefused::Parse(SourceFault::Syntax(13)),
        "source refused: bad.js Syntax at 13\n",
    ),
    (
        "!!!!!!!!!!!!!!!!!!!!!!!!!!!!!!!!!!!!!!!!!!!!!!!!!!!!!!!!!!!!!!!!!!!!!!!!!!!!!!!!!!!!!!!!!!!!!!!!!!!!a",
        SourceRefused::Parse(SourceFault::Nested(100)),
        "source refused: bad.js Nested at 100\n",
    ),
    (
        "let a = 1; let a = 2;",
        SourceRefused::Scope(ScopeFault::Duplicate(15)),
        "source refused: bad.js Duplicate at 15\n",
    ),
    (
        "x = 1; f() = 2;",
        SourceRefused::Scope(ScopeFault::BadTarget(7)),
        "source refused: bad.js BadTarget at 7\n",
    ),
    (
        "while (a) {} break;",
        SourceRefused::Scope(ScopeFault::StrayJump(13)),
        "source refused: bad.js StrayJump at 13\n",
    ),
    (
        "return; { let b; let b; }",
        SourceRefused::Scope(ScopeFault::StrayJump(0)),
        "source refused: bad.js StrayJump at 0\n",
    ),
    (
        "return; let",
        SourceRefused::Parse(SourceFault::Syntax(11)),
        "source refused: bad.js Syntax at 11\n",
    ),
];

/// Whether a source is refused, for this reason and under its place among the sources, and nothing is
/// written.
fn is_refused(
    alloc: Global,
    source: &str,
    why: SourceRefused,
    line: &str,
) -> Result<bool, AllocError> {
    let held = one_file(alloc, "bad.js", source.as_bytes())?;
    let mut files = HonestFiles::new(alloc, held);
    let mut out = HonestSink::new(alloc);
    let outcome = outcome_of(alloc, &["build", "bad.js"], &mut files, &mut out)?;
    Ok(
        outcome.fault == Some(Fault::Source(0, why))
            && outcome.status == 3
            && out.written() == line.as_bytes()
            && files.held("snapshot.blob").is_none(),
    )
}

/// The first source that is not.
fn first_accepted(alloc: Global) -> Result<Option<usize>, AllocError> {
    for (row, (source, why, line)) in REFUSED.iter().enumerate() {
        if !is_refused(alloc, source, *why, line)? {
            return Ok(Some(row));
        }
    }
    Ok(None)
}

#[test]
fn refused_sources(rt: HostRuntime) -> Result<(), Fail> {
    assert_eq!(rt; first_accepted(rt.alloc())?, None);
    Ok(())
}

/// A script that prints lines of 16,384 bytes, so many.
fn long_lines(alloc: Global, count: u32) -> Result<Vec<u8>, AllocError> {
    let mut source = Vec::from_slice(alloc, b"globalThis.t = '")?;
    source.extend_from_slice(&vec![in alloc; b'a'; 16_383]?)?;
    source.extend_from_slice(b"';\n")?;
    for _ in 0..count {
        source.extend_from_slice(b"console.log(globalThis.t);\n")?;
    }
    Ok(source)
}

/// A script that prints 7, behind so many spaces.
fn spaced(alloc: Global, spaces: usize) -> Result<Vec<u8>, AllocError> {
    let mut source = vec![in alloc; b' '; spaces]?;
    source.extend_from_slice(b"console.log(7);")?;
    Ok(source)
}

/// Whether a source of 1,048,576 bytes is built.
fn is_longest_built(alloc: Global) -> Result<bool, AllocError> {
    let source = spaced(alloc, 1_048_561)?;
    is_built(alloc, &source, b"7\n", 0)
}

/// Whether a source of one byte more is refused.
fn is_longer_refused(alloc: Global) -> Result<bool, AllocError> {
    let mut source = spaced(alloc, 1_048_561)?;
    source.push(b' ')?;
    let line = b"source refused: s.js TooLong at 1048576\n";
    is_built(alloc, &source, line, 3)
}

#[test]
fn longest_source(rt: HostRuntime) -> Result<(), Fail> {
    assert!(rt; is_longest_built(rt.alloc())?);
    assert!(rt; is_longer_refused(rt.alloc())?);
    Ok(())
}

/// 1,024 lines of 16,384 bytes, which are 16,777,216 bytes.
fn most_lines(alloc: Global) -> Result<Vec<u8>, AllocError> {
    let mut line = vec![in alloc; b'a'; 16_383]?;
    line.push(b'\n')?;
    let mut printed = Vec::new(alloc);
    for _ in 0..1_024 {
        printed.extend_from_slice(&line)?;
    }
    Ok(printed)
}

/// Whether a script that prints these is built.
fn are_most_lines_printed(alloc: Global) -> Result<bool, AllocError> {
    let printed = most_lines(alloc)?;
    let source = long_lines(alloc, 1_024)?;
    is_built(alloc, &source, &printed, 0)
}

#[test]
fn most_printed(rt: HostRuntime) -> Result<(), Fail> {
    assert!(rt; are_most_lines_printed(rt.alloc())?);
    Ok(())
}

/// Whether a script that prints one byte more is not built.
fn is_one_more_refused(alloc: Global) -> Result<bool, AllocError> {
    let mut source = long_lines(alloc, 1_024)?;
    source.extend_from_slice(b"console.log('');")?;
    is_built(alloc, &source, b"not built\n", 11)
}

#[test]
fn one_byte_too_many(rt: HostRuntime) -> Result<(), Fail> {
    assert!(rt; is_one_more_refused(rt.alloc())?);
    Ok(())
}

/// The place of a name among 5,000 of them: they are not assigned in order at first.
fn place_of(k: u32) -> u32 {
    k.saturating_mul(7) % 5_000
}

fn many_assignments(alloc: Global) -> Result<Vec<u8>, AllocError> {
    let mut source = Vec::new(alloc);
    for k in 0..5_000u32 {
        let name = place_of(k).saturating_add(10_000);
        let line = format!(in alloc; "globalThis.n{name} = 'text {k}';\n")?;
        source.extend_from_slice(line.as_bytes())?;
    }
    for k in 0..5_000u32 {
        let name = k.saturating_add(10_000);
        let value = k.saturating_add(5_000);
        let line = format!(in alloc; "globalThis.n{name} = {value};\n")?;
        source.extend_from_slice(line.as_bytes())?;
    }
    for name in ["10000", "10007", "12500", "14999", "15000"] {
        let line = format!(in alloc; "console.log(globalThis.n{name});\n")?;
        source.extend_from_slice(line.as_bytes())?;
    }
    Ok(source)
}

/// The names of the global object below and above those of the many assignments.
const BELOW: [&str; 12] = [
    "Array",
    "Error",
    "Map",
    "Object",
    "RangeError",
    "ReferenceError",
    "Set",
    "String",
    "TypeError",
    "console",
    "globalThis",
    "host",
];

/// The numbers of the global object's own names, of which `require` is the last string.
const OWN_KEYS: [u32; 13] = [10, 3, 0, 7, 2, 6, 1, 8, 5, 4, 9, 11, 5_012];

/// The blob of the many assignments: each name stands where it was assigned first and holds what it
/// was assigned last.
fn many_blob(alloc: Global, source: &[u8]) -> Result<Vec<u8>, AllocError> {
    let mut strings = words_of(alloc, &BELOW)?;
    let mut keys = Vec::from_slice(alloc, &OWN_KEYS)?;
    let mut values = Vec::new(alloc);
    for k in 0..5_000u32 {
        let name = k.saturating_add(10_000);
        strings.push(format!(in alloc; "n{name}")?)?;
        let place = place_of(k);
        keys.push(place.saturating_add(12))?;
        values.push(5)?;
        let value = place.saturating_add(5_000);
        put_varint(&mut values, value.saturating_mul(2) as usize)?;
    }
    strings.push(String::from_str(alloc, "require")?)?;
    blob_of(alloc, &strings, source, &keys, &values)
}

/// Whether the build of the many assignments writes this blob.
fn are_many_built(alloc: Global) -> Result<bool, AllocError> {
    let source = many_assignments(alloc)?;
    let blob = many_blob(alloc, &source)?;
    let lines = b"5000\n5007\n7500\n9999\nundefined\n";
    is_built_as(alloc, &source, lines, &blob)
}

#[test]
fn many_names(rt: HostRuntime) -> Result<(), Fail> {
    assert!(rt; are_many_built(rt.alloc())?);
    Ok(())
}

/// How a build is told whose outside fails: the failing calls of the files, of which the first makes
/// what the blob's name holds, those of the sink, the source, what is printed, the status, and whether
/// the blob is held then.
const FAILING: [(&[u32], &[u32], &str, &str, u8, bool); 7] = [
    (&[], &[], "s.js", "7\n", 0, true),
    (&[1], &[], "s.js", "read failed: s.js\n", 6, false),
    (&[], &[], "t.js", "read failed: t.js\n", 6, false),
    (
        &[2],
        &[],
        "s.js",
        "7\nwrite failed: snapshot.blob\n",
        7,
        false,
    ),
    (&[], &[0], "s.js", "", 7, true),
    (&[2], &[0], "s.js", "", 7, false),
    (&[1], &[0], "s.js", "", 7, false),
];

/// The source, where these calls fail, and an old blob.
fn old_files(alloc: Global, calls: &[u32]) -> Result<MemFiles, AllocError> {
    let mut files = failing_files(alloc, calls, "s.js", SOURCE.as_bytes())?;
    match files.write("snapshot.blob", b"old") {
        Ok(()) => Ok(files),
        Err(_) => Err(AllocError),
    }
}

/// Whether the files hold the source still, and this blob.
fn are_held(files: &MemFiles, blob: &[u8]) -> bool {
    files.held("s.js") == Some(SOURCE.as_bytes()) && files.held("snapshot.blob") == Some(blob)
}

/// The first of them that is told otherwise, or leaves other files.
fn first_told_otherwise(alloc: Global, blob: &[u8]) -> Result<Option<usize>, AllocError> {
    for (row, (calls, puts, name, line, status, written)) in FAILING.iter().enumerate() {
        let now = if *written { blob } else { b"old".as_slice() };
        let mut files = old_files(alloc, calls)?;
        let told = is_failure_told(alloc, &["build", name], &mut files, puts, line, *status)?;
        if !told || !are_held(&files, now) {
            return Ok(Some(row));
        }
    }
    Ok(None)
}

#[test]
fn failing_builds(rt: HostRuntime) -> Result<(), Fail> {
    let blob = expected_blob(rt.alloc())?;
    assert_eq!(rt; first_told_otherwise(rt.alloc(), &blob)?, None);
    Ok(())
}

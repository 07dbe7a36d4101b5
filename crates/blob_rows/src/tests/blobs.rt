//! Blobs that are sealed and taken again, lists of strings, and startup sections.

ghost use Rattle.std.specs.Prelude.{◌≡◌, [], ◌∷◌, IfOk};

use snap_base::MOST_BLOB_BYTES;
use snap_blob::{
    Container, SealFault, ShapeStep, Startup, are_lawful, read_startup, seal, write_startup,
    write_strings,
};
use snap_text::{NoMemory, Units};
use std::alloc::{AllocError, Global};
use std::test::Fail;

/// A blob of 100 bytes with one empty context.
const BLOB_A: [u8; 100] = [
    0x53, 0x4E, 0x41, 0x50, 0x42, 0x4C, 0x4F, 0x42, 1, 0, 0, 0, 0x64, 0, 0, 0, 0xD0, 0xD8, 0x6B,
    0x79, 0xFD, 0xB7, 0x4D, 0x53, 0xB7, 0xBE, 0x1D, 0x34, 0xF8, 0x5D, 0xAB, 0xA8, 0xC9, 0xE0, 0x92,
    0xC0, 0xCE, 0x5C, 0xAF, 0x7E, 0xD2, 0x85, 0x8F, 0x11, 0xB3, 0x52, 0xDE, 0x92, 4, 0, 0, 0, 0x45,
    0, 0, 0, 0x4D, 0, 0, 0, 0x58, 0, 0, 0, 0x64, 0, 0, 0, 0, 0, 0, 0, 0, 0, 0, 0, 0, 0, 0, 0, 0, 0,
    0, 0, 0, 0, 0, 0, 1, 9, 0x10, 0, 7, 0, 0x20, 0, 0, 0, 0, 0,
];

/// Its sections: the externals, the read-only section, the startup section and one context.
const SECTIONS_A: [&[u8]; 4] = [
    &[0],
    &[0; 8],
    &[0; 11],
    &[1, 9, 0x10, 0, 7, 0, 0x20, 0, 0, 0, 0, 0],
];

/// A seed of 0, the script `let n=5;`, no functions, and the shapes (0, 3) and (1, 300).
const STARTUP: [u8; 25] = *b"\0\0\0\0\0\0\0\0\x01\x08let n=5;\0\x02\0\x03\x01\xAC\x02";

const SHAPES: [ShapeStep; 2] = [
    ShapeStep { parent: 0, name: 3 },
    ShapeStep {
        parent: 1,
        name: 300,
    },
];

fn owned(alloc: Global, sections: &[&[u8]]) -> Result<Vec<Vec<u8>>, AllocError> {
    let mut all = Vec::new(alloc);
    for section in sections {
        all.push(Vec::from_slice(alloc, section)?)?;
    }
    Ok(all)
}

/// Whether the sections are sealed as the blob.
fn is_sealed(alloc: Global) -> Result<bool, NoMemory> {
    let sections = owned(alloc, &SECTIONS_A)?;
    if sections.len() != 4 {
        return Ok(false);
    }
    match seal(alloc, 1, sections.as_slice()) {
        Ok(blob) => Ok(blob.as_slice() == BLOB_A.as_slice()),
        Err(SealFault::NoMemory) => Err(NoMemory),
        Err(SealFault::TooLong) => Ok(false),
    }
}

/// The first section that a blob has otherwise.
fn first_other_section(container: &Container) -> Option<usize> {
    for (k, section) in SECTIONS_A.iter().enumerate() {
        if k as u32 >= container.sections() || container.section(k as u32) != *section {
            return Some(k);
        }
    }
    None
}

#[test]
fn sections_are_sealed(rt: HostRuntime) -> Result<(), Fail> {
    assert!(rt; is_sealed(rt.alloc())?);
    Ok(())
}

#[test]
fn a_blob_is_taken(rt: HostRuntime) -> Result<(), Fail> {
    let container = Container::take(&BLOB_A)?;
    assert_eq!(rt; container.sections(), 4);
    assert_eq!(rt; first_other_section(&container), None);
    Ok(())
}

#[test]
fn a_blob_has_a_limit(rt: HostRuntime) -> Result<(), Fail> {
    let alloc = rt.alloc();
    // The header, the ends and this section fill the limit and one byte more.
    let mut long = vec![in alloc; 7u8; MOST_BLOB_BYTES as usize - 67]?;
    for expected in [Err(SealFault::TooLong), Ok(MOST_BLOB_BYTES as usize)] {
        let mut sections = owned(alloc, &[&[], &[], &[]])?;
        sections.push(long)?;
        assert!(rt; sections.len() == 4);
        let sealed = match seal(alloc, 1, sections.as_slice()) {
            Ok(blob) => Ok(blob.len()),
            Err(SealFault::NoMemory) => return Err(Fail::from(SealFault::NoMemory)),
            Err(fault) => Err(fault),
        };
        assert_eq!(rt; sealed, expected);
        long = sections.pop().unwrap_or(Vec::new(alloc));
        long.truncate(MOST_BLOB_BYTES as usize - 68);
    }
    Ok(())
}

fn two_strings(alloc: Global) -> Result<Vec<Units>, NoMemory>
    ensures { IfOk result (λ strings. strings.items ≡ (97 ∷ []) ∷ (98 ∷ []) ∷ []) }
{
    let first = Units::of(alloc, &[97])?;
    let second = Units::of(alloc, &[98])?;
    Ok(Vec::from_array(alloc, [first, second])?)
}

#[test]
fn strings_are_written(rt: HostRuntime) -> Result<(), Fail> {
    let strings = two_strings(rt.alloc())?;
    let section = write_strings(rt.alloc(), strings.as_slice())?;
    let expected = b"\x02\0\0\0\0\0\0\0\x01\0\0\0\x02\0\0\0ab";
    assert_eq!(rt; section.as_slice(), expected.as_slice());
    Ok(())
}

/// Whether the section is written so.
fn is_startup_written(alloc: Global) -> Result<bool, NoMemory> {
    match write_startup(alloc, 0, b"let n=5;", &SHAPES) {
        Ok(section) => Ok(section.as_slice() == STARTUP.as_slice()),
        Err(_) => Err(NoMemory),
    }
}

/// Whether this was read of the section.
fn is_what_was_written(startup: &Startup) -> bool {
    startup.seed == 0
        && startup.script == b"let n=5;".as_slice()
        && startup.shapes.as_slice() == SHAPES.as_slice()
}

/// Whether the section is read as what it was written of.
fn is_startup_read(alloc: Global) -> Result<bool, NoMemory> {
    match read_startup(alloc, &STARTUP) {
        Ok(Some(startup)) => Ok(is_what_was_written(&startup)),
        Ok(None) => Ok(false),
        Err(_) => Err(NoMemory),
    }
}

#[test]
fn a_startup_section_is_read_again(rt: HostRuntime) -> Result<(), Fail> {
    assert!(rt; is_startup_written(rt.alloc())?, "written");
    assert!(rt; is_startup_read(rt.alloc())?, "read");
    Ok(())
}

/// Bytes that are no startup section.
const NO_STARTUP: [&[u8]; 8] = [
    b"",
    b"\0\0\0\0\0\0\0",
    // The second spelling of 0 functions, and of the number of shapes.
    b"\0\0\0\0\0\0\0\0\x01\x01;\x80\0\0",
    b"\0\0\0\0\0\0\0\0\x01\x01;\0\x81\0\0\0",
    // A byte is left over, and one is missing.
    b"\0\0\0\0\0\0\0\0\x01\x01;\0\0\0",
    b"\0\0\0\0\0\0\0\0\x01\x01;\0\x01\0",
    // Two scripts, and a function.
    b"\0\0\0\0\0\0\0\0\x02\x01;\x01;\0\0",
    b"\0\0\0\0\0\0\0\0\x01\x01;\x01\0\0\0",
];

/// Whether they are told as such.
fn is_refused(alloc: Global, section: &[u8]) -> Result<bool, NoMemory> {
    if section.len() >= 1000 {
        return Ok(false);
    }
    match read_startup(alloc, section) {
        Ok(startup) => Ok(startup.is_none()),
        Err(_) => Err(NoMemory),
    }
}

/// The first of them that are not.
fn first_accepted(alloc: Global) -> Result<Option<usize>, NoMemory> {
    for (row, section) in NO_STARTUP.iter().enumerate() {
        if !is_refused(alloc, section)? {
            return Ok(Some(row));
        }
    }
    Ok(None)
}

#[test]
fn other_startup_sections_are_refused(rt: HostRuntime) -> Result<(), Fail> {
    assert_eq!(rt; first_accepted(rt.alloc())?, None);
    Ok(())
}

/// Shapes, each as its parent and its key, how many strings there are, and whether they are lawful.
const JUDGED: [(&[(u32, u32)], u32, bool); 16] = [
    // None, and a chain.
    (&[], 0, true),
    (&[(0, 2), (1, 1), (2, 0)], 3, true),
    // A key stands in the parent, above it, and above it where another branch was gone into before.
    (&[(0, 0), (1, 0)], 1, false),
    (&[(0, 0), (1, 1), (2, 0)], 2, false),
    (&[(0, 0), (1, 1), (1, 2), (3, 0)], 3, false),
    // A key stands in two branches, in either order.
    (&[(0, 0), (1, 1), (0, 1), (3, 0)], 2, true),
    (&[(0, 0), (0, 1), (1, 2), (2, 2)], 3, true),
    // A parent is the shape itself, or one behind it, or there is none.
    (&[(1, 0)], 1, false),
    (&[(2, 0), (0, 1)], 2, false),
    (&[(7, 0)], 1, false),
    // A key is no string.
    (&[(0, 0), (1, 3)], 3, false),
    (&[(0, 4_294_967_295)], 4_294_967_295, false),
    // A shape stands twice, at once and behind another.
    (&[(0, 0), (0, 0)], 1, false),
    (&[(0, 0), (0, 1), (1, 1), (0, 0)], 2, false),
    // Two chains whose numbers take turns; in the second the last key stands in its own chain.
    (&[(0, 0), (0, 1), (1, 2), (2, 2), (3, 1), (4, 0)], 3, true),
    (&[(0, 0), (0, 1), (1, 2), (2, 2), (3, 1), (4, 1)], 3, false),
];

fn shapes_of(alloc: Global, pairs: &[(u32, u32)]) -> Result<Vec<ShapeStep>, AllocError> {
    let mut shapes = Vec::new(alloc);
    for (parent, name) in pairs {
        shapes.push(ShapeStep {
            parent: *parent,
            name: *name,
        })?;
    }
    Ok(shapes)
}

/// Whether shapes are judged so.
fn is_judged(
    alloc: Global,
    pairs: &[(u32, u32)],
    strings: u32,
    lawful: bool,
) -> Result<bool, NoMemory> {
    let shapes = shapes_of(alloc, pairs)?;
    if shapes.len() >= 10 {
        return Ok(false);
    }
    match are_lawful(alloc, &shapes, strings) {
        Ok(judged) => Ok(judged == lawful),
        Err(_) => Err(NoMemory),
    }
}

/// The first shapes that are judged otherwise.
fn first_misjudged(alloc: Global) -> Result<Option<usize>, NoMemory> {
    for (row, (pairs, strings, lawful)) in JUDGED.iter().enumerate() {
        if !is_judged(alloc, pairs, *strings, *lawful)? {
            return Ok(Some(row));
        }
    }
    Ok(None)
}

#[test]
fn shapes_are_judged(rt: HostRuntime) -> Result<(), Fail> {
    assert_eq!(rt; first_misjudged(rt.alloc())?, None);
    Ok(())
}

/// Many shapes as one chain, a star, a comb, two chains whose numbers take turns, and a deep tree of many
/// branches.
fn many_shapes(alloc: Global, form: u32) -> Result<Vec<ShapeStep>, AllocError> {
    let mut shapes = Vec::new(alloc);
    for n in 0..300_000u32 {
        let parent = match form {
            0 => n,
            1 => 0,
            2 if n % 2 == 1 => n,
            4 => n - (n.wrapping_mul(2_654_435_761) >> 29).min(n),
            _ => n.max(1) - 1,
        };
        shapes.push(ShapeStep { parent, name: n })?;
    }
    Ok(shapes)
}

/// Whether they are found lawful.
fn are_many_lawful(alloc: Global, form: u32) -> Result<bool, NoMemory> {
    let shapes = many_shapes(alloc, form)?;
    if shapes.len() != 300_000 {
        return Ok(false);
    }
    match are_lawful(alloc, &shapes, 300_000) {
        Ok(judged) => Ok(judged),
        Err(_) => Err(NoMemory),
    }
}

/// The first form of many shapes that is not.
fn first_unlawful(alloc: Global) -> Result<Option<u32>, NoMemory> {
    for form in 0..5 {
        if !are_many_lawful(alloc, form)? {
            return Ok(Some(form));
        }
    }
    Ok(None)
}

// Were each key sought by a walk up from its shape, this would not end in time.
#[test]
fn many_shapes_are_judged(rt: HostRuntime) -> Result<(), Fail> {
    assert_eq!(rt; first_unlawful(rt.alloc())?, None);
    Ok(())
}

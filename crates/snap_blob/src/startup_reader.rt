//! The startup section of one script, read.

ghost use Rattle.std.specs.Prelude.{◌≡◌, ℕ, ◌<◌, ◌^◌, List, ◌++◌, length, map, IfOk, IfSome, IfNone, IsSome};
ghost use Rattle.std.specs.List.{flat_map};
ghost use Rattle.spec_format.specs.Number.{spelled64};
ghost use Rattle.spec_format.specs.Startup.{AreShort, counted, one_script, pair_bytes, script_bytes, startup_bytes};
ghost use Rattle.spec_format.specs.Varint.{varint};
ghost use Rattle.snap_blob.specs.Steps.{front_bytes, pair_of, HasNoStartup};

use crate::startups::ShapeStep;
use byteorder::{ByteOrder, LittleEndian};
use snap_base::NoMemory;
use snap_bytes::{Cursor, read_number};
use std::alloc::Global;

/// What a startup section of one script and no functions holds.
#[derive(Debug, Drop)]
pub struct Startup<'a> {
    /// The hash seed of the builder.
    pub seed: u64,
    /// The bytes of the script.
    pub script: &'a [u8],
    /// Each shape from 1 on.
    pub shapes: Vec<ShapeStep>,
}

/// What the section holds, or `None` where it is not the one spelling of a seed, one script, no
/// functions and some shapes.
pub fn read_startup<'a>(alloc: Global, section: &'a [u8]) -> Result<Option<Startup<'a>>, NoMemory>
    requires { length section.now < 2 ^ 32 }
    ensures some { IfOk result (λ read. IfSome read (λ s.
        section.now ≡ startup_bytes (one_script s.seed s.script.now (map pair_of s.shapes.items)))) }
    ensures none { IfOk result (λ read. IfNone read (HasNoStartup section.now)) }
{
    let mut cursor = Cursor::new(section, 0);
    let Some((seed, script)) = read_front(&mut cursor) else {
        return Ok(None);
    };
    let Some(shapes) = read_shapes(alloc, &mut cursor)? else {
        return Ok(None);
    };
    if cursor.left() > 0 {
        return Ok(None);
    }
    Ok(Some(Startup {
        seed,
        script,
        shapes,
    }))
}

// The seed and the one script, where no functions follow.
fn read_front<'a>(cursor: &mut Cursor<'a>) -> Option<(u64, &'a [u8])>
    ensures some { IfSome result (λ front. cursor.old.left ≡ front_bytes front.0 front.1.now ++ cursor.new.left) }
    ensures only { (seed : ℕ) (script rest : List ℕ) → seed < 2 ^ 64 → length script < 2 ^ 32
        → cursor.old.left ≡ front_bytes seed script ++ rest → IsSome result × (cursor.new.left ≡ rest) }
{
    let seed = read_seed(cursor)?;
    if read_number(cursor)? != 1 {
        return None;
    }
    let script = read_script(cursor)?;
    if read_number(cursor)? != 0 {
        return None;
    }
    Some((seed, script))
}

// The number in the next eight bytes.
fn read_seed(cursor: &mut Cursor) -> Option<u64>
    ensures some { IfSome result (λ seed. cursor.old.left ≡ spelled64 seed ++ cursor.new.left) }
    ensures only { (seed : ℕ) (rest : List ℕ) → cursor.old.left ≡ spelled64 seed ++ rest
        → IsSome result × (cursor.new.left ≡ rest) }
{
    match cursor.take(8) {
        Ok(field) => Some(number64(field)),
        Err(_) => None,
    }
}

fn number64(bytes: &[u8]) -> u64
    requires { length bytes.now ≡ 8 }
    ensures { bytes.now ≡ spelled64 result }
{
    LittleEndian::read_u64(bytes)
}

fn read_script<'a>(cursor: &mut Cursor<'a>) -> Option<&'a [u8]>
    ensures some { IfSome result (λ script. cursor.old.left ≡ script_bytes script.now ++ cursor.new.left) }
    ensures only { (script rest : List ℕ) → length script < 2 ^ 32
        → cursor.old.left ≡ script_bytes script ++ rest → IsSome result × (cursor.new.left ≡ rest) }
{
    let len = read_short(cursor)?;
    match cursor.take(len) {
        Ok(script) => Some(script),
        Err(_) => None,
    }
}

// How many shapes there are, and these.
fn read_shapes(alloc: Global, cursor: &mut Cursor) -> Result<Option<Vec<ShapeStep>>, NoMemory>
    ensures some { IfOk result (λ read. IfSome read (λ shapes.
        cursor.old.left ≡ counted pair_bytes (map pair_of shapes.items) ++ cursor.new.left)) }
    ensures only { (shapes : List (ℕ × ℕ)) (rest : List ℕ) → AreShort shapes → length shapes < 2 ^ 64
        → cursor.old.left ≡ counted pair_bytes shapes ++ rest → IfOk result (λ read. IsSome read × (cursor.new.left ≡ rest)) }
{
    let mut shapes = Vec::new(alloc);
    let Some(count) = read_number(cursor) else {
        return Ok(None);
    };
    for _index in 0..count {
        let Some(shape) = read_shape(cursor) else {
            return Ok(None);
        };
        shapes.push(shape).map_err(|_| NoMemory)?;
    }
    Ok(Some(shapes))
}

fn read_shape(cursor: &mut Cursor) -> Option<ShapeStep>
    ensures some { IfSome result (λ shape. cursor.old.left ≡ pair_bytes (pair_of shape) ++ cursor.new.left) }
    ensures only { (pair : ℕ × ℕ) (rest : List ℕ) → pair.0 < 2 ^ 32 → pair.1 < 2 ^ 32
        → cursor.old.left ≡ pair_bytes pair ++ rest → IsSome result × (cursor.new.left ≡ rest) }
{
    let parent = read_short(cursor)?;
    let name = read_short(cursor)?;
    Some(ShapeStep { parent, name })
}

// A number of 32 bits.
fn read_short(cursor: &mut Cursor) -> Option<u32>
    ensures some { IfSome result (λ n. cursor.old.left ≡ varint n ++ cursor.new.left) }
    ensures only { (n : ℕ) (rest : List ℕ) → n < 2 ^ 32
        → cursor.old.left ≡ varint n ++ rest → (result ≡ Some n) × (cursor.new.left ≡ rest) }
{
    let n = read_number(cursor)?;
    if n > u64::from(u32::MAX) {
        return None;
    }
    Some(n as u32)
}

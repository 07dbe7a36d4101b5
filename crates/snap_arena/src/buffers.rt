//! Lists of buffers, and what is put behind what.

ghost use Rattle.std.specs.Prelude.{◌≡◌, ◌+◌, ◌<◌, ◌≤◌, ◌++◌, [], length, take, drop, slice_index_or, slice_set, vec_len, OnOk, OnErr};
ghost use Rattle.snap_arena.specs.Texts.{IsHeld, contents, text_in};

use crate::held::HeldText;
use snap_text::NoMemory;
use std::alloc::Global;
use std::mem;

// The units of a held text.
pub(crate) fn units_of(buffers: &[Vec<u16>], held: HeldText) -> &[u16]
    requires { IsHeld (contents buffers.now) held }
    ensures { result.now ≡ text_in (contents buffers.now) held }
{
    let units = buffer_of(buffers, held.buffer as usize);
    part_of(units, held.start as usize, held.length as usize)
}

// How many units a buffer has.
pub(crate) fn length_of(buffers: &[Vec<u16>], number: usize) -> usize
    ensures { result ≡ length (slice_index_or (contents buffers.now) number []) }
{
    buffer_of(buffers, number).len()
}

// The units of a buffer, which are none where there is no such buffer.
fn buffer_of(buffers: &[Vec<u16>], number: usize) -> &[u16]
    ensures { result.now ≡ slice_index_or (contents buffers.now) number [] }
{
    match buffers.get(number) {
        Some(buffer) => buffer.as_slice(),
        None => &[],
    }
}

fn part_of(units: &[u16], start: usize, count: usize) -> &[u16]
    requires { start + count ≤ length units.now }
    ensures { result.now ≡ take count (drop start units.now) }
{
    &units[start..start + count]
}

// Two lists of units, one behind the other, at the start of a list that has room for both.
pub(crate) fn gather(units: &mut [u16], left: &[u16], right: &[u16])
    requires { length left.now + length right.now ≤ length units.old }
    ensures { take (length left.now + length right.now) units.new ≡ left.now ++ right.now }
{
    let (front, back) = units.split_at_mut(left.len());
    front.copy_from_slice(left);
    back[..right.len()].copy_from_slice(right);
}

// Puts units behind those of a buffer.
pub(crate) fn put_units(
    buffers: &mut Vec<Vec<u16>>,
    number: usize,
    units: &[u16],
) -> Result<(), NoMemory>
    requires { number < vec_len buffers.old }
    ensures ok { OnOk result (contents buffers.new.items ≡ slice_set (contents buffers.old.items) number
        (slice_index_or (contents buffers.old.items) number [] ++ units.now)) }
    ensures err { OnErr result (contents buffers.new.items ≡ contents buffers.old.items) }
{
    buffers[number].extend_from_slice(units)?;
    Ok(())
}

// Puts a held text behind the units of a buffer.
pub(crate) fn put_text(
    alloc: Global,
    buffers: &mut Vec<Vec<u16>>,
    number: usize,
    text: HeldText,
) -> Result<(), NoMemory>
    requires place { number < vec_len buffers.old }
    requires held { IsHeld (contents buffers.old.items) text }
    ensures ok { OnOk result (contents buffers.new.items ≡ slice_set (contents buffers.old.items) number
        (slice_index_or (contents buffers.old.items) number [] ++ text_in (contents buffers.old.items) text)) }
    ensures err { OnErr result (contents buffers.new.items ≡ contents buffers.old.items) }
{
    if text.buffer as usize == number {
        put_own(buffers, text)
    } else {
        put_other(alloc, buffers, number, text)
    }
}

// Puts a held text behind the buffer that it stands in.
fn put_own(buffers: &mut Vec<Vec<u16>>, text: HeldText) -> Result<(), NoMemory>
    requires place { text.buffer < vec_len buffers.old }
    requires held { IsHeld (contents buffers.old.items) text }
    ensures ok { OnOk result (contents buffers.new.items ≡ slice_set (contents buffers.old.items) text.buffer
        (slice_index_or (contents buffers.old.items) text.buffer [] ++ text_in (contents buffers.old.items) text)) }
    ensures err { OnErr result (contents buffers.new.items ≡ contents buffers.old.items) }
{
    let start = text.start as usize;
    let end = start + text.length as usize;
    buffers[text.buffer as usize].extend_from_within(start..end)?;
    Ok(())
}

// Puts a held text behind a buffer that it does not stand in.
fn put_other(
    alloc: Global,
    buffers: &mut Vec<Vec<u16>>,
    number: usize,
    text: HeldText,
) -> Result<(), NoMemory>
    requires place { number < vec_len buffers.old }
    requires held { IsHeld (contents buffers.old.items) text }
    requires other { ¬ (text.buffer ≡ number) }
    ensures ok { OnOk result (contents buffers.new.items ≡ slice_set (contents buffers.old.items) number
        (slice_index_or (contents buffers.old.items) number [] ++ text_in (contents buffers.old.items) text)) }
    ensures err { OnErr result (contents buffers.new.items ≡ contents buffers.old.items) }
{
    let mut buffer = mem::replace(&mut buffers[number], Vec::new(alloc));
    let put = buffer.extend_from_slice(units_of(buffers, text));
    buffers[number] = buffer;
    put?;
    Ok(())
}

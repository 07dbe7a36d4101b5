//! Views of texts in memory that somebody else keeps.

ghost use Rattle.std.specs.Prelude.{◌≡◌, ◌==◌, ◌≤◌, ◌++◌, [], length, take, slice_get, vec_len, vec_capacity, encode_utf8, IfOk, OnOk, OnErr};
ghost use Rattle.std.specs.Cmp.Lexicographic.{slice_cmp};
ghost use Rattle.std.specs.Ordering.{nat_cmp};
ghost use Rattle.std.specs.Str.{bytes_eq as text_eq};
ghost use Rattle.snap_arena.specs.Views.{units};
ghost use Rattle.snap_text.specs.Utf8.{utf8_of};

use snap_text::{NoMemory, Units, print_units};
use std::alloc::Global;
use std::cmp::Ordering;

/// A view of a text. It is seen as its list of code units.
#[derive(Clone, Copy)]
pub enum TextView<'a> {
    /// Units that stand as one byte each, so each is below 256.
    Narrow(&'a [u8]),
    /// Units.
    Wide(&'a [u16]),
}

impl TextView<'_> {
    /// How many units the text has.
    pub fn len(&self) -> usize
        ensures { result ≡ length (units self.now) }
    {
        match self {
            TextView::Narrow(bytes) => bytes.len(),
            TextView::Wide(units) => units.len(),
        }
    }

    /// Whether the text has no unit.
    pub fn is_empty(&self) -> bool
        ensures { result ≡ (length (units self.now) == 0) }
    {
        self.len() == 0
    }

    /// The unit at a place, where there is one.
    pub fn unit(&self, i: usize) -> Option<u16>
        ensures { result ≡ slice_get (units self.now) i }
    {
        match self {
            TextView::Narrow(bytes) => byte_at(bytes, i),
            TextView::Wide(units) => units.get(i).copied(),
        }
    }

    /// Whether two texts have the same units.
    pub fn same(&self, other: &TextView<'_>) -> bool
        ensures { result ≡ text_eq (units self.now) (units other.now) }
    {
        match (self, other) {
            (TextView::Narrow(left), TextView::Narrow(right)) => left == right,
            (TextView::Narrow(left), TextView::Wide(right)) => same_bytes(left, right),
            (TextView::Wide(left), TextView::Narrow(right)) => same_bytes(right, left),
            (TextView::Wide(left), TextView::Wide(right)) => left == right,
        }
    }

    /// How two texts stand, unit by unit (ECMA-262, 7.2.13).
    pub fn order(&self, other: &TextView<'_>) -> Ordering
        ensures { result ≡ slice_cmp nat_cmp (units self.now) (units other.now) }
    {
        match (self, other) {
            (TextView::Narrow(left), TextView::Narrow(right)) => left.cmp(right),
            (TextView::Narrow(left), TextView::Wide(right)) => order_bytes(left, right),
            (TextView::Wide(left), TextView::Narrow(right)) => order_bytes(right, left).reverse(),
            (TextView::Wide(left), TextView::Wide(right)) => left.cmp(right),
        }
    }

    /// A text of these units, or want of memory.
    pub fn copy(&self, alloc: Global) -> Result<Units, NoMemory>
        ensures { IfOk result (λ text. text ≡ units self.now) }
    {
        match self {
            TextView::Narrow(bytes) => widened(alloc, bytes),
            TextView::Wide(units) => Units::of(alloc, units),
        }
    }

    /// These units in the place of those of a list. Where the list has room for them, no memory is taken; where memory is refused, the
    /// list is as it was.
    pub fn copy_into(&self, list: &mut Vec<u16>) -> Result<(), NoMemory>
        ensures ok { OnOk result (list.new.items ≡ units self.now) }
        ensures err { OnErr result (list.new.items ≡ list.old.items) }
    {
        list.reserve(self.len().saturating_sub(list.len()))?;
        list.clear();
        match self {
            TextView::Narrow(bytes) => put_bytes(bytes, list),
            TextView::Wide(units) => put_units(units, list),
        }
        Ok(())
    }

    /// Appends the UTF-8 form of the text, as `print_utf8` does. Where memory is refused, the bytes are as they were.
    pub fn print(&self, out: &mut Vec<u8>) -> Result<(), NoMemory>
        ensures ok { OnOk result (out.new.items ≡ out.old.items ++ utf8_of (units self.now)) }
        ensures err { OnErr result (out.new.items ≡ out.old.items) }
    {
        match self {
            TextView::Narrow(bytes) => print_bytes(bytes, out),
            TextView::Wide(units) => print_units(units, out),
        }
    }
}

fn byte_at(bytes: &[u8], i: usize) -> Option<u16>
    ensures { result ≡ slice_get bytes.now i }
{
    match bytes.get(i) {
        Some(byte) => Some(u16::from(*byte)),
        None => None,
    }
}

fn same_bytes(bytes: &[u8], units: &[u16]) -> bool
    ensures { result ≡ text_eq bytes.now units.now }
{
    if bytes.len() != units.len() {
        return false;
    }
    for (i, byte) in bytes.iter().enumerate() {
        if u16::from(*byte) != units[i] {
            return false;
        }
    }
    true
}

fn order_bytes(bytes: &[u8], units: &[u16]) -> Ordering
    ensures { result ≡ slice_cmp nat_cmp bytes.now units.now }
{
    for (i, byte) in bytes.iter().enumerate() {
        if i == units.len() {
            return Ordering::Greater;
        }
        let order = u16::from(*byte).cmp(&units[i]);
        if order != Ordering::Equal {
            return order;
        }
    }
    if bytes.len() < units.len() {
        Ordering::Less
    } else {
        Ordering::Equal
    }
}

// Bytes as units, one byte a unit.
fn widened(alloc: Global, bytes: &[u8]) -> Result<Units, NoMemory>
    ensures { IfOk result (λ text. text ≡ bytes.now) }
{
    let mut units = Vec::with_capacity(alloc, bytes.len())?;
    for byte in bytes {
        units.push(u16::from(*byte))?;
    }
    Ok(Units::from_vec(units))
}

// Bytes as units in an empty list that has room for them.
fn put_bytes(bytes: &[u8], list: &mut Vec<u16>)
    requires empty { list.old.items ≡ [] }
    requires room { length bytes.now ≤ vec_capacity list.old }
    ensures { list.new.items ≡ bytes.now }
{
    for byte in bytes {
        list.push(u16::from(*byte)).unwrap();
    }
}

// Units in an empty list that has room for them.
fn put_units(units: &[u16], list: &mut Vec<u16>)
    requires empty { list.old.items ≡ [] }
    requires room { length units.now ≤ vec_capacity list.old }
    ensures { list.new.items ≡ units.now }
{
    list.extend_from_slice(units).unwrap();
}

// Appends the UTF-8 form of the text that these bytes are, one byte a unit.
fn print_bytes(bytes: &[u8], out: &mut Vec<u8>) -> Result<(), NoMemory>
    ensures ok { OnOk result (out.new.items ≡ out.old.items ++ utf8_of bytes.now) }
    ensures err { OnErr result (out.new.items ≡ out.old.items) }
{
    let length = out.len();
    let printed = append(bytes, out);
    if printed.is_err() {
        out.truncate(length);
    }
    printed
}

// Appends the UTF-8 form of the bytes, and leaves part of it where memory is refused.
fn append(bytes: &[u8], out: &mut Vec<u8>) -> Result<(), NoMemory>
    ensures ok { OnOk result (out.new.items ≡ out.old.items ++ utf8_of bytes.now) }
    ensures err { OnErr result (take (vec_len out.old) out.new.items ≡ out.old.items) }
{
    out.reserve(bytes.len())?;
    for byte in bytes {
        append_byte(*byte, out)?;
    }
    Ok(())
}

// Appends the UTF-8 form of a unit below 256.
fn append_byte(byte: u8, out: &mut Vec<u8>) -> Result<(), NoMemory>
    ensures ok { OnOk result (out.new.items ≡ out.old.items ++ encode_utf8 byte) }
    ensures err { OnErr result (out.new.items ≡ out.old.items) }
{
    if byte < 0x80 {
        out.push(byte)?;
        return Ok(());
    }
    let mut buffer = [0; 4];
    out.extend_from_slice(char::from(byte).encode_utf8(&mut buffer).as_bytes())?;
    Ok(())
}

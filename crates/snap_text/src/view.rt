//! A text that stands in bytes that somebody else keeps.

ghost use Rattle.std.specs.Prelude.{◌≡◌, ◌<◌, ◌^◌, ◌↔◌, [], length, slice_index, IsTrue, IfOk};
ghost use Rattle.snap_text.specs.StrView.{pairs, units};

use crate::no_memory::NoMemory;
use crate::units::{Units, widened};
use std::alloc::Global;

/// A view of a text in borrowed bytes. It is seen as its list of code units.
#[derive(Clone, Copy)]
pub enum StrView<'a> {
    /// One byte a unit, so each unit is below 256.
    One(&'a [u8]),
    /// Two bytes a unit, the low byte first. An odd last byte belongs to no unit.
    Two(&'a [u8]),
}

impl StrView<'_> {
    /// How many units the text has.
    pub fn len(&self) -> u32
        requires { length (units self.now) < 2 ^ 32 }
        ensures { result ≡ length (units self.now) }
    {
        match self {
            StrView::One(bytes) => bytes.len() as u32,
            StrView::Two(bytes) => pair_count(bytes) as u32,
        }
    }

    /// Whether the text has no unit.
    pub fn is_empty(&self) -> bool
        requires { length (units self.now) < 2 ^ 32 }
        ensures { IsTrue result ↔ (units self.now ≡ []) }
    {
        self.len() == 0
    }

    /// The unit at a place below the length.
    pub fn unit(&self, i: u32) -> u16
        requires { i < length (units self.now) }
        ensures { result ≡ slice_index (units self.now) i }
    {
        let i = i as usize;
        match self {
            StrView::One(bytes) => u16::from(bytes[i]),
            StrView::Two(bytes) => pair_at(bytes, i),
        }
    }

    /// Whether the view's units are those of a text.
    pub fn same(&self, text: &Units) -> bool
        ensures { IsTrue result ↔ (units self.now ≡ text.now) }
    {
        match self {
            StrView::One(bytes) => same_bytes(bytes, text.units()),
            StrView::Two(bytes) => same_pairs(bytes, text.units()),
        }
    }

    /// A text of the view's units, or want of memory.
    pub fn copy(&self, alloc: Global) -> Result<Units, NoMemory>
        ensures { IfOk result (λ text. text ≡ units self.now) }
    {
        match self {
            StrView::One(bytes) => widened(alloc, bytes),
            StrView::Two(bytes) => paired(alloc, bytes),
        }
    }
}

fn same_bytes(bytes: &[u8], text: &[u16]) -> bool
    ensures { IsTrue result ↔ (bytes.now ≡ text.now) }
{
    if bytes.len() != text.len() {
        return false;
    }
    for (i, byte) in bytes.iter().enumerate() {
        if u16::from(*byte) != text[i] {
            return false;
        }
    }
    true
}

fn same_pairs(bytes: &[u8], text: &[u16]) -> bool
    ensures { IsTrue result ↔ (pairs bytes.now ≡ text.now) }
{
    if pair_count(bytes) != text.len() {
        return false;
    }
    for (i, unit) in text.iter().enumerate() {
        if pair_at(bytes, i) != *unit {
            return false;
        }
    }
    true
}

// Pairs of bytes as units.
fn paired(alloc: Global, bytes: &[u8]) -> Result<Units, NoMemory>
    ensures { IfOk result (λ text. text ≡ pairs bytes.now) }
{
    let count = pair_count(bytes);
    let mut text = Vec::with_capacity(alloc, count)?;
    for i in 0..count {
        text.push(pair_at(bytes, i))?;
    }
    Ok(Units::from_vec(text))
}

#[tactic(auto, using(crate::proofs::Pairs::length_pairs))]
fn pair_count(bytes: &[u8]) -> usize
    ensures { result ≡ length (pairs bytes.now) }
{
    bytes.len() / 2
}

#[tactic(auto, using(crate::proofs::Pairs::length_pairs, crate::proofs::Pairs::get_or_pairs))]
fn pair_at(bytes: &[u8], i: usize) -> u16
    requires { i < length (pairs bytes.now) }
    ensures { result ≡ slice_index (pairs bytes.now) i }
{
    u16::from_le_bytes([bytes[2 * i], bytes[2 * i + 1]])
}

//! The list of strings at the front of the read-only section.

ghost use Rattle.std.specs.Prelude.{◌≡◌, ◌+◌, ◌*◌, ◌<◌, ◌≤◌, ◌^◌, ◌↔◌, suc, length, drop, IsTrue, IfOk, MatchOption};
ghost use Rattle.spec_format.specs.Check.{AllHold, Passes, each};
ghost use Rattle.spec_format.specs.Strings.{IsBelow, count_checks, end_before, first_byte, node_count, node_end_checks, string, string_checks, string_count, string_end, string_end_checks, string_list_checks, strings_start};
ghost use Rattle.snap_blob.specs.Ordered.{AllLie, IsBefore};

use crate::field::{fault, number32, part};
use snap_base::MOST_ITEMS;
use snap_text::StrView;
use spec_format::{BlobFault, BlobKind};
use std::cmp::Ordering;

/// The strings of a section whose list of strings has no fault. It is seen as the section's bytes.
#[derive(Clone, Copy)]
pub struct RoStrings<'a> {
    section: &'a [u8],
    ghost counted: { strings_start section.now ≤ length section.now },
    ghost placed: { AllLie section.now },
}

impl<'a> RoStrings<'a> {
    ghost use Rattle.snap_text.specs.StrView.{units};
    ghost use Rattle.snap_blob.specs.RoStrings.{section_of};

    /// The strings of a section that begins at `base` in its blob, or the first fault at its counts,
    /// its string ends, the places of its node ends or its string bytes. Nothing behind the string
    /// bytes is looked at.
    pub fn take(section: &'a [u8], base: u32) -> Result<RoStrings<'a>, BlobFault>
        requires { base + length section.now < 2 ^ 32 }
        ensures first_fault { Passes (string_list_checks section.now base) result }
        ensures value { IfOk result (λ s. section_of s ≡ section.now) }
    {
        let base = base as usize;
        check_counts(section, base)?;
        check_string_ends(section, base)?;
        check_node_ends(section, base)?;
        check_strings(section, base)?;
        Ok(RoStrings { section })
    }

    /// How many strings there are.
    pub fn strings(&self) -> u32
        ensures { result ≡ string_count (section_of self.now) }
    {
        number32(self.section, 0)
    }

    /// A string, one byte a unit. It has at most `MOST_ITEMS` units.
    pub fn string(&self, i: u32) -> StrView<'a>
        requires { i < string_count (section_of self.now) }
        ensures units { units result ≡ string (section_of self.now) i }
        ensures short { length (units result) ≤ MOST_ITEMS }
    {
        let i = i as usize;
        StrView::One(part(self.section, self.first_byte(i), self.first_byte(i + 1)))
    }

    /// What stands behind the string bytes.
    pub fn rest(&self) -> &'a [u8]
        ensures bytes { result.now ≡ drop (first_byte (section_of self.now) (string_count (section_of self.now))) (section_of self.now) }
        ensures place { first_byte (section_of self.now) (string_count (section_of self.now)) + length result.now ≡ length (section_of self.now) }
    {
        let end = self.first_byte(self.strings() as usize);
        &self.section[end..]
    }

    // The place of a string's first byte, or of the first byte behind the strings.
    fn first_byte(&self, i: usize) -> usize
        requires { i ≤ string_count (section_of self.now) }
        ensures { result ≡ first_byte (section_of self.now) i }
    {
        let start = strings_start(self.section);
        if i == 0 {
            start
        } else {
            start + number32(self.section, 4 + 4 * i) as usize
        }
    }
}

/// How many nodes a read-only section says that it has, or `None` where it is too short to say.
pub fn node_count(section: &[u8]) -> Option<u32>
    ensures { MatchOption result (length section.now < 8) (λ n. (8 ≤ length section.now) × (n ≡ node_count section.now)) }
{
    if section.len() < 8 {
        return None;
    }
    Some(number32(section, 4))
}

// Where the string bytes begin.
fn strings_start(section: &[u8]) -> usize
    requires { 8 ≤ length section.now }
    ensures { result ≡ strings_start section.now }
{
    8 + 4 * number32(section, 0) as usize + 4 * number32(section, 4) as usize
}

fn check_counts(section: &[u8], base: usize) -> Result<(), BlobFault>
    requires { base + length section.now < 2 ^ 32 }
    ensures { Passes (count_checks section.now base) result }
{
    if section.len() < 4 {
        return Err(fault(BlobKind::Truncated, base));
    }
    if section.len() < 8 {
        return Err(fault(BlobKind::Truncated, base + 4));
    }
    Ok(())
}

fn check_string_ends(section: &[u8], base: usize) -> Result<(), BlobFault>
    requires fits { base + length section.now < 2 ^ 32 }
    requires counts { 8 ≤ length section.now }
    ensures { Passes (each (string_count section.now) (string_end_checks section.now base)) result }
{
    let count = number32(section, 0) as usize;
    let mut before = 0;
    for i in 0..count {
        before = string_end(section, base, i, before)?;
    }
    Ok(())
}

// The end of string i, where the string before has this one.
fn string_end(section: &[u8], base: usize, i: usize, before: u32) -> Result<u32, BlobFault>
    requires fits { base + length section.now < 2 ^ 32 }
    requires reached { 8 + 4 * i ≤ length section.now }
    requires before { before ≡ end_before section.now i }
    ensures first_fault { Passes (string_end_checks section.now base i) result }
    ensures value { IfOk result (λ end. end ≡ string_end section.now i) }
{
    let entry = 8 + 4 * i;
    if section.len() < entry + 4 {
        return Err(fault(BlobKind::Truncated, base + entry));
    }
    let end = number32(section, entry);
    if end < before || MOST_ITEMS < end - before {
        return Err(fault(BlobKind::BadString, base + entry));
    }
    Ok(end)
}

fn check_node_ends(section: &[u8], base: usize) -> Result<(), BlobFault>
    requires fits { base + length section.now < 2 ^ 32 }
    requires strings { 8 + 4 * string_count section.now ≤ length section.now }
    ensures { Passes (each (node_count section.now) (node_end_checks section.now base)) result }
{
    let first = 8 + 4 * number32(section, 0) as usize;
    let room = (section.len() - first) / 4;
    if room < number32(section, 4) as usize {
        return Err(fault(BlobKind::Truncated, base + (first + 4 * room)));
    }
    Ok(())
}

fn check_strings(section: &[u8], base: usize) -> Result<(), BlobFault>
    requires fits { base + length section.now < 2 ^ 32 }
    requires entries { strings_start section.now ≤ length section.now }
    requires ends { AllHold (each (string_count section.now) (string_end_checks section.now base)) }
    ensures { Passes (each (string_count section.now) (string_checks section.now base)) result }
{
    let count = number32(section, 0) as usize;
    let start = strings_start(section);
    let mut first = start;
    let mut before: &[u8] = &[];
    for i in 0..count {
        let next = start + number32(section, 8 + 4 * i) as usize;
        before = string_between(section, base, i, first, next, before)?;
        first = next;
    }
    Ok(())
}

// The units of string i, which stand between two places and follow the units of the string before.
fn string_between<'a>(
    section: &'a [u8],
    base: usize,
    i: usize,
    first: usize,
    next: usize,
    before: &[u8],
) -> Result<&'a [u8], BlobFault>
    requires fits { base + length section.now < 2 ^ 32 }
    requires reached { first ≤ length section.now }
    requires ordered { first ≤ next }
    requires first { first ≡ first_byte section.now i }
    requires next { next ≡ first_byte section.now (suc i) }
    requires before { IsBefore section.now i before.now }
    ensures first_fault { Passes (string_checks section.now base i) result }
    ensures value { IfOk result (λ units. units.now ≡ string section.now i) }
{
    if section.len() < next {
        return Err(fault(BlobKind::Truncated, base + first));
    }
    let units = part(section, first, next);
    if i > 0 && !is_below(before, units) {
        return Err(fault(BlobKind::BadString, base + first));
    }
    Ok(units)
}

// Whether a string comes before another in the order of the list.
fn is_below(string: &[u8], other: &[u8]) -> bool
    ensures { IsTrue result ↔ IsBelow string.now other.now }
{
    string.cmp(other) == Ordering::Less
}

//! The parts of a blob that has strings, a startup section and one context, and nothing else.

ghost use Rattle.std.specs.Prelude.{◌≡◌, ◌≢◌, ◌≤◌, true, false, ◌↔◌, ◌++◌, ◌+◌, ◌<◌, ◌^◌, [], ◌∷◌, length, IsTrue, IfOk, MatchResult, OnOk};
ghost use Rattle.spec_format.specs.Check.{Passes};
ghost use Rattle.spec_format.specs.Container.{section};
ghost use Rattle.spec_format.specs.Number.{AreBytes};
ghost use Rattle.spec_format.specs.Strings.{node_count, string, string_count, string_list_checks, strings_of, trailing_check};
ghost use Rattle.snap_blob.specs.RoStrings.{section_of};
ghost use Rattle.snap_commands.specs.Parts.{HasNoParts, HasParts};

use crate::fault::Fault;
use snap_base::NoMemory;
use snap_blob::{BlobFault, BlobKind, Container, RoStrings, node_count};
use snap_text::Units;
use std::alloc::Global;

/// The parts of a blob.
#[derive(Drop)]
pub(crate) struct Parts<'a> {
    /// The strings, which fill the read-only section.
    pub strings: RoStrings<'a>,
    /// The startup section.
    pub startup: &'a [u8],
    /// The section of the one context.
    pub context: &'a [u8],
}

/// The parts of a blob, or why it has not these: its first fault down to its strings, or that it has
/// more.
pub(crate) fn parts_of(bytes: &[u8]) -> Result<Parts<'_>, Fault>
    ensures { MatchResult result (HasParts bytes.now) (HasNoParts bytes.now) }
{
    let container = match Container::take(bytes) {
        Ok(container) => container,
        Err(fault) => return Err(Fault::Blob(fault)),
    };
    if container.sections() != 4 {
        return Err(Fault::NotBuilt);
    }
    if !is_without_externals(container.section(0)) {
        return Err(Fault::NotBuilt);
    }
    let section = container.section(1);
    if has_nodes(section) {
        return Err(Fault::NotBuilt);
    }
    let strings = match strings_alone(section, container.start(1)) {
        Ok(strings) => strings,
        Err(fault) => return Err(Fault::Blob(fault)),
    };
    Ok(Parts {
        strings,
        startup: container.section(2),
        context: container.section(3),
    })
}

// Whether a read-only section says that it has nodes.
fn has_nodes(section: &[u8]) -> bool
    ensures some { result ≡ true → (8 ≤ length section.now) × (node_count section.now ≢ 0) }
    ensures none { result ≡ false → 8 ≤ length section.now → node_count section.now ≡ 0 }
{
    match node_count(section) {
        Some(nodes) => nodes != 0,
        None => false,
    }
}

// The strings of a section, behind which nothing stands.
fn strings_alone(section: &[u8], base: u32) -> Result<RoStrings<'_>, BlobFault>
    requires { base + length section.now < 2 ^ 32 }
    ensures first_fault { Passes (string_list_checks section.now base ++ trailing_check section.now base) result }
    ensures value { IfOk result (λ s. section_of s ≡ section.now) }
    ensures bytes { AreBytes section.now }
{
    let strings = RoStrings::take(section, base)?;
    let rest = strings.rest().len();
    if rest != 0 {
        return Err(BlobFault {
            kind: BlobKind::Trailing,
            at: base + (section.len() - rest) as u32,
        });
    }
    Ok(strings)
}

// Whether the section of the externals names none.
fn is_without_externals(section: &[u8]) -> bool
    ensures { IsTrue result ↔ (section.now ≡ 0 ∷ []) }
{
    section == [0].as_slice()
}

/// The strings, each a text of its own.
pub(crate) fn strings_in(alloc: Global, strings: &RoStrings<'_>) -> Result<Vec<Units>, NoMemory>
    ensures { IfOk result (λ list. list.items ≡ strings_of (section_of strings.now)) }
{
    let mut list = Vec::new(alloc);
    for i in 0..strings.strings() {
        put(alloc, strings, i, &mut list)?;
    }
    Ok(list)
}

fn put(
    alloc: Global,
    strings: &RoStrings<'_>,
    i: u32,
    list: &mut Vec<Units>,
) -> Result<(), NoMemory>
    requires { i < string_count (section_of strings.now) }
    ensures { OnOk result (list.new.items ≡ list.old.items ++ string (section_of strings.now) i ∷ []) }
{
    let Ok(string) = strings.string(i).copy(alloc) else {
        return Err(NoMemory);
    };
    match list.push(string) {
        Ok(()) => Ok(()),
        Err(_) => Err(NoMemory),
    }
}

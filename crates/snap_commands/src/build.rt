//! The blob that a build makes.

ghost use Rattle.std.specs.Prelude.{◌≡◌, ◌<◌, ◌≤◌, ◌^◌, ◌∷◌, [], All, Contains, length, IfOk, OnOk, IsErrOf, ◌++◌, Ok};
ghost use Rattle.spec_format.specs.Number.{AreBytes};
ghost use Rattle.spec_format.specs.Strings.{AreStrings};
ghost use Rattle.spec_sections.specs.Texts.{HasText};
ghost use Rattle.snap_blob.specs.Sections.{lists_of};
ghost use Rattle.snap_commands.specs.Denoted.{IsBuild, LeavesGlobals};
ghost use Rattle.snap_commands.specs.Globals.{entries_of};
ghost use Rattle.snap_commands.specs.Made.{made_sections};

use crate::evaluate::Globals;
use crate::properties::properties;
use crate::shapes::shapes;
use crate::strings::strings;
use crate::texts::texts;
use snap_base::NoMemory;
use snap_blob::{SealFault, seal, write_startup, write_strings};
use snap_ctxfmt::write_global;
use snap_graph::Property;
use snap_text::Units;
use std::alloc::Global;

/// The format of the blobs that are made.
const FORMAT: u32 = 1;

/// The hash seed that stands in the blobs that are made.
const SEED: u64 = 0;

/// The blob of a thin script that left these globals. It is never too long: a script has at most
/// 1,048,576 bytes.
pub(crate) fn made_blob(
    alloc: Global,
    source: &[u8],
    globals: &Globals<'_>,
) -> Result<Vec<u8>, NoMemory>
    requires { LeavesGlobals source.now (entries_of globals.now.entries) }
    ensures { IfOk result (λ blob. IsBuild blob.items source.now (entries_of globals.now.entries)) }
{
    let texts = texts(alloc, globals)?;
    let strings = strings(alloc, &texts)?;
    let properties = properties(alloc, globals)?;
    let sections = sections(alloc, source, &strings, &properties)?;
    let blob = fitting(seal(alloc, FORMAT, &sections))?;
    Ok(blob)
}

// The sections of a blob: no externals, the strings, the script with the shapes, and the properties.
fn sections(
    alloc: Global,
    source: &[u8],
    strings: &[Units],
    properties: &[Property],
) -> Result<Vec<Vec<u8>>, NoMemory>
    requires lawful { AreStrings strings.now }
    requires keys { All (λ p. Contains strings.now p.key) properties.now }
    requires texts { All (λ p. HasText strings.now p.value) properties.now }
    requires few { length properties.now < 2 ^ 32 }
    ensures { IfOk result (λ sections. lists_of sections.items ≡ made_sections source.now strings.now properties.now) }
{
    let mut sections = Vec::new(alloc);
    let mut externals = Vec::new(alloc);
    if externals.push(0).is_err() {
        return Err(NoMemory);
    }
    put(&mut sections, externals)?;
    put(&mut sections, write_strings(alloc, strings)?)?;
    let shapes = shapes(alloc, properties, strings)?;
    put(&mut sections, write_startup(alloc, SEED, source, &shapes)?)?;
    put(&mut sections, write_global(alloc, properties, strings)?)?;
    Ok(sections)
}

fn put(sections: &mut Vec<Vec<u8>>, section: Vec<u8>) -> Result<(), NoMemory>
    ensures { OnOk result (lists_of sections.new.items ≡ lists_of sections.old.items ++ section.items ∷ []) }
{
    match sections.push(section) {
        Ok(()) => Ok(()),
        Err(_) => Err(NoMemory),
    }
}

// A sealed blob that was not too long.
fn fitting(sealed: Result<Vec<u8>, SealFault>) -> Result<Vec<u8>, NoMemory>
    requires { IsErrOf sealed SealFault.TooLong → ⊥ }
    ensures same { IfOk result (λ blob. sealed ≡ Ok blob) }
    ensures bytes { IfOk result (λ blob. AreBytes blob.items) }
{
    match sealed {
        Ok(blob) => {
            are_bytes(&blob);
            Ok(blob)
        }
        Err(_) => Err(NoMemory),
    }
}

// Does nothing: what it ensures is what the type says.
fn are_bytes(bytes: &[u8])
    ensures { AreBytes bytes.now }
{
    let _ = bytes;
}

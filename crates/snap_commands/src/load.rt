//! What a run finds in the bytes of a blob.

ghost use Rattle.std.specs.Prelude.{◌≡◌, ◌≢◌, ◌≤◌, ◌<◌, ◌^◌, ℕ, All, List, Result, Ok, Err, length, map, IfOk, IfSome, IfNone, MatchOption};
ghost use Rattle.std.specs.Option.{is_some};
ghost use Rattle.spec_format.specs.Shapes.{AreLawful};
ghost use Rattle.spec_format.specs.Strings.{AreStrings, strings_of};
ghost use Rattle.spec_sections.specs.Properties.{DenotesGlobal};
ghost use Rattle.snap_blob.specs.RoStrings.{section_of};
ghost use Rattle.snap_blob.specs.Steps.{pair_of};
ghost use Rattle.snap_graph.specs.declared.value.Property.{Property};
ghost use Rattle.snap_commands.specs.declared.fault.Fault.{Fault};
ghost use Rattle.snap_commands.specs.Denoted.{IsBuild, LeavesGlobals};
ghost use Rattle.snap_commands.specs.Kept.{AreApart, StandsInBlob, globals_in, kept_globals};
ghost use Rattle.snap_commands.specs.Thin.{Globals};
ghost use Rattle.snap_commands.specs.ThinBlob.{Loads};
ghost use Rattle.snap_commands.specs.ThinParts.{AreThin};
ghost use Rattle.snap_commands.specs.ThinSource.{thin_script};

use crate::fault::Fault;
use crate::judge;
use crate::keeping::globals_behind;
use crate::kept::{Kept, Loaded};
use crate::parts::{Parts, parts_of, strings_in};
use snap_base::{MOST_BLOB_BYTES, NoMemory};
use snap_blob::{ShapeStep, are_lawful, read_startup};
use snap_ctxfmt::read_global;
use snap_graph::Property;
use snap_text::Units;
use std::alloc::Global;

/// The globals of a thin blob, or why it is none.
pub(crate) fn load(alloc: Global, bytes: &[u8]) -> Result<Loaded, Fault>
    ensures loads { result ≢ Err Fault.NoMemory → Loads bytes.now (globals_in result) }
    ensures apart { IfOk result (λ loaded. AreApart (kept_globals loaded.globals.items)) }
{
    let parts = match parts_of(bytes) {
        Ok(parts) => parts,
        Err(fault) => return Err(fault),
    };
    match globals_of_parts(alloc, &parts) {
        Ok(Some(globals)) => Ok(Loaded { globals }),
        Ok(None) => Err(Fault::NotBuilt),
        Err(_) => Err(Fault::NoMemory),
    }
}

/// The globals of the parts of a blob; none where the blob is not thin.
pub(crate) fn globals_of_parts(
    alloc: Global,
    parts: &Parts<'_>,
) -> Result<Option<Vec<Kept>>, NoMemory>
    requires lawful { AreStrings (strings_of (section_of parts.now.strings)) }
    requires startup { length parts.now.startup.now ≤ MOST_BLOB_BYTES }
    requires context { length parts.now.context.now ≤ MOST_BLOB_BYTES }
    ensures { IfOk result (λ o. MatchOption o
        ((globals : Globals) → AreThin (strings_of (section_of parts.now.strings)) parts.now.startup.now parts.now.context.now globals → ⊥)
        (λ list. AreThin (strings_of (section_of parts.now.strings)) parts.now.startup.now parts.now.context.now (kept_globals list.items))) }
{
    let strings = strings_in(alloc, &parts.strings)?;
    globals_of_sections(alloc, &strings, parts.startup, parts.context)
}

fn globals_of_sections(
    alloc: Global,
    strings: &[Units],
    startup: &[u8],
    context: &[u8],
) -> Result<Option<Vec<Kept>>, NoMemory>
    requires lawful { AreStrings strings.now }
    requires startup { length startup.now ≤ MOST_BLOB_BYTES }
    requires context { length context.now ≤ MOST_BLOB_BYTES }
    ensures { IfOk result (λ o. MatchOption o
        ((globals : Globals) → AreThin strings.now startup.now context.now globals → ⊥)
        (λ list. AreThin strings.now startup.now context.now (kept_globals list.items))) }
{
    let Some(found) = read_startup(alloc, startup)? else {
        return Ok(None);
    };
    if !is_thin_script(alloc, found.script)? {
        return Ok(None);
    }
    let Some(properties) = read_context(alloc, context, &found.shapes, strings)? else {
        return Ok(None);
    };
    globals_behind(alloc, &properties)
}

fn is_thin_script(alloc: Global, script: &[u8]) -> Result<bool, NoMemory>
    ensures { IfOk result (λ b. b ≡ is_some (thin_script script.now)) }
{
    match judge::thin_script(alloc, script) {
        Ok(found) => Ok(found.is_some()),
        Err(_) => Err(NoMemory),
    }
}

// The properties of the global object; none where the shapes are not lawful, or the section is not
// that of a global object.
fn read_context(
    alloc: Global,
    context: &[u8],
    shapes: &[ShapeStep],
    strings: &[Units],
) -> Result<Option<Vec<Property>>, NoMemory>
    requires lawful { AreStrings strings.now }
    requires context { length context.now ≤ MOST_BLOB_BYTES }
    requires few { length shapes.now < 2 ^ 32 }
    ensures lawful { IfOk result (λ read. IfSome read (λ _. AreLawful (length strings.now) (map pair_of shapes.now))) }
    ensures denotes { IfOk result (λ read. IfSome read (λ properties. DenotesGlobal strings.now (map pair_of shapes.now) context.now properties.items)) }
    ensures stand { IfOk result (λ read. IfSome read (λ properties. All StandsInBlob properties.items)) }
    ensures none { IfOk result (λ read. IfNone read ((properties : List Property) → AreLawful (length strings.now) (map pair_of shapes.now)
        → DenotesGlobal strings.now (map pair_of shapes.now) context.now properties → ⊥)) }
{
    if !are_lawful(alloc, shapes, strings.len() as u32)? {
        return Ok(None);
    }
    read_global(alloc, context, shapes, strings)
}

/// A run finds one thing in a blob: one list of globals, its first fault, or that it is no thin blob.
pub fn one_loading()
    ensures { (bytes : List ℕ) (a b : Result Globals Fault) → Loads bytes a → Loads bytes b → a ≡ b }
{}

/// What a build leaves is thin, and a run finds in it the globals that the script left. So a run on a
/// built blob prints what the entry prints on those globals.
pub fn built_is_found()
    ensures { (bytes source : List ℕ) (globals : Globals) → LeavesGlobals source globals → IsBuild bytes source globals → Loads bytes (Ok globals) }
{}

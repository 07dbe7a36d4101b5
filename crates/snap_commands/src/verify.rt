//! `verify` over the bytes of a blob.

ghost use Rattle.std.specs.Prelude.{◌≡◌, ◌≢◌, ◌↔◌, IsTrue, Err};
ghost use Rattle.snap_commands.specs.declared.fault.Fault.{Fault};
ghost use Rattle.snap_commands.specs.Verify.{Verifies, bare_context, bare_startup};

use crate::fault::Fault;
use crate::load::globals_of_parts;
use crate::parts::{Parts, parts_of};
use std::alloc::Global;

/// The startup section of a blob without scripts, functions and shapes.
const BARE_STARTUP: [u8; 11] = [0; 11];

/// The context section of a global object without properties.
const BARE_CONTEXT: [u8; 12] = [1, 9, 0x10, 0, 7, 0, 0x20, 0, 0, 0, 0, 0];

/// The number of strings that a blob denotes, or why there is none.
pub(crate) fn verify(alloc: Global, bytes: &[u8]) -> Result<u32, Fault>
    ensures { result ≢ Err Fault.NoMemory → Verifies bytes.now result }
{
    let parts = match parts_of(bytes) {
        Ok(parts) => parts,
        Err(fault) => return Err(fault),
    };
    let count = parts.strings.strings();
    if is_bare(&parts) {
        return Ok(count);
    }
    match globals_of_parts(alloc, &parts) {
        Ok(Some(_)) => Ok(count),
        Ok(None) => Err(Fault::NotBuilt),
        Err(_) => Err(Fault::NoMemory),
    }
}

// Whether a blob of these parts has no script and no properties.
fn is_bare(parts: &Parts<'_>) -> bool
    ensures { IsTrue result ↔ ((parts.now.startup.now ≡ bare_startup) × (parts.now.context.now ≡ bare_context)) }
{
    is_bare_startup(parts.startup) && is_bare_context(parts.context)
}

#[tactic(auto, unfolding(spec_format::specs::Number::spelled64, spec_format::specs::Varint::varint, spec_format::specs::Varint::varint_within))]
fn is_bare_startup(section: &[u8]) -> bool
    ensures { IsTrue result ↔ (section.now ≡ bare_startup) }
{
    section == BARE_STARTUP.as_slice()
}

#[tactic(auto, unfolding(spec_format::specs::Varint::varint, spec_format::specs::Varint::varint_within))]
fn is_bare_context(section: &[u8]) -> bool
    ensures { IsTrue result ↔ (section.now ≡ bare_context) }
{
    section == BARE_CONTEXT.as_slice()
}

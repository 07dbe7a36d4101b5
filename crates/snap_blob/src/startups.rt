//! The startup section of one script, written.

ghost use Rattle.std.specs.Prelude.{◌≡◌, ◌++◌, length, map, IfOk, OnOk};
ghost use Rattle.std.specs.List.{flat_map};
ghost use Rattle.spec_format.specs.Startup.{counted, one_script, pair_bytes, script_bytes, startup_bytes};
ghost use Rattle.spec_format.specs.Varint.{varint};
ghost use Rattle.snap_blob.specs.Steps.{front_bytes, pair_of};

use crate::put::{put_number, put64};
use snap_base::NoMemory;
use std::alloc::Global;

/// A shape: the number of its parent, and that of the string that is its key.
#[derive(Clone, Copy, Debug, PartialEq, Eq, PartialOrd, Ord)]
pub struct ShapeStep {
    /// The number of its parent.
    pub parent: u32,
    /// The number of the string that is its key.
    pub name: u32,
}

/// The startup section of one script and no functions.
pub fn write_startup(
    alloc: Global,
    seed: u64,
    script: &[u8],
    shapes: &[ShapeStep],
) -> Result<Vec<u8>, NoMemory>
    ensures { IfOk result (λ v. v.items ≡ startup_bytes (one_script seed script.now (map pair_of shapes.now))) }
{
    let mut section = Vec::new(alloc);
    put_front(&mut section, seed, script)?;
    put_shapes(&mut section, shapes)?;
    Ok(section)
}

// The seed, the script and no functions.
fn put_front(section: &mut Vec<u8>, seed: u64, script: &[u8]) -> Result<(), NoMemory>
    ensures { OnOk result (section.new.items ≡ section.old.items ++ front_bytes seed script.now) }
{
    put64(section, seed).map_err(|_| NoMemory)?;
    put_number(section, 1)?;
    put_number(section, script.len() as u64)?;
    section.extend_from_slice(script).map_err(|_| NoMemory)?;
    put_number(section, 0)?;
    Ok(())
}

fn put_shapes(section: &mut Vec<u8>, shapes: &[ShapeStep]) -> Result<(), NoMemory>
    ensures { OnOk result (section.new.items ≡ section.old.items ++ counted pair_bytes (map pair_of shapes.now)) }
{
    put_number(section, shapes.len() as u64)?;
    for shape in shapes {
        put_number(section, u64::from(shape.parent))?;
        put_number(section, u64::from(shape.name))?;
    }
    Ok(())
}

//! The section of the global object.

ghost use Rattle.std.specs.Prelude.{◌≡◌, ◌++◌, length, map, All, OnOk, IfOk};
ghost use Rattle.std.specs.List.{flat_map};
ghost use Rattle.spec_format.specs.Strings.{IsAscending};
ghost use Rattle.spec_sections.specs.Global.{value_bytes, global_section};
ghost use Rattle.spec_sections.specs.Texts.{HasText};

use crate::layout::{END, HEAD};
use crate::values::{put_bytes, put_value};
use snap_base::NoMemory;
use snap_blob::put_number;
use snap_graph::Property;
use snap_text::Units;
use std::alloc::Global;

/// The context section of a global object with these properties, whose shape has the number of the
/// properties, or want of memory.
pub fn write_global(
    alloc: Global,
    properties: &[Property],
    strings: &[Units],
) -> Result<Vec<u8>, NoMemory>
    requires strings { IsAscending strings.now }
    requires texts { All (λ p. HasText strings.now p.value) properties.now }
    ensures { IfOk result (λ v. v.items ≡ global_section strings.now (length properties.now) (map (λ p. p.value) properties.now)) }
{
    let mut out = Vec::new(alloc);
    put_bytes(&mut out, &HEAD)?;
    put_number(&mut out, properties.len() as u64)?;
    put_values(&mut out, properties, strings)?;
    put_bytes(&mut out, &END)?;
    Ok(out)
}

fn put_values(out: &mut Vec<u8>, properties: &[Property], strings: &[Units]) -> Result<(), NoMemory>
    requires strings { IsAscending strings.now }
    requires texts { All (λ p. HasText strings.now p.value) properties.now }
    ensures { OnOk result
        (out.new.items ≡ out.old.items ++ flat_map (value_bytes strings.now) (map (λ p. p.value) properties.now)) }
{
    for property in properties {
        put_value(out, &property.value, strings)?;
    }
    Ok(())
}

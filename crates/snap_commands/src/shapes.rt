//! The shapes of the properties of a global object, each of which stands on the one before.

ghost use Rattle.std.specs.Prelude.{◌≡◌, ◌<◌, ◌^◌, All, Contains, length, map, IfOk};
ghost use Rattle.spec_format.specs.Shapes.{chain_from};
ghost use Rattle.spec_format.specs.Strings.{IsAscending};
ghost use Rattle.spec_sections.specs.Global.{text_number};
ghost use Rattle.snap_blob.specs.Steps.{pair_of};

use snap_base::NoMemory;
use snap_blob::ShapeStep;
use snap_ctxfmt::text_number;
use snap_graph::Property;
use snap_text::Units;
use std::alloc::Global;

/// The shapes of the properties: the last has all their keys, in order.
pub(crate) fn shapes(
    alloc: Global,
    properties: &[Property],
    strings: &[Units],
) -> Result<Vec<ShapeStep>, NoMemory>
    requires ascending { IsAscending strings.now }
    requires held { All (λ p. Contains strings.now p.key) properties.now }
    requires few { length properties.now < 2 ^ 32 }
    requires few_strings { length strings.now < 2 ^ 32 }
    ensures { IfOk result (λ list. map pair_of list.items ≡ chain_from 0 (map (λ p. text_number strings.now p.key) properties.now)) }
{
    let mut list = Vec::new(alloc);
    for property in properties {
        let parent = list.len() as u32;
        let name = number(strings, &property.key);
        match list.push(ShapeStep { parent, name }) {
            Ok(()) => {}
            Err(_) => return Err(NoMemory),
        }
    }
    Ok(list)
}

// The number of a text among the strings.
#[tactic(auto, using(crate::proofs::Chaining::number_below))]
fn number(strings: &[Units], text: &Units) -> u32
    requires ascending { IsAscending strings.now }
    requires among { Contains strings.now text.now }
    requires few { length strings.now < 2 ^ 32 }
    ensures { result ≡ text_number strings.now text.now }
{
    text_number(strings, text) as u32
}

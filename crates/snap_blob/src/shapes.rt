//! Whether shapes are lawful.

ghost use Rattle.std.specs.Prelude.{◌≢◌, ◌<◌, ◌^◌, ◌↔◌, length, map, AllPairs, IfOk, IsTrue};
ghost use Rattle.std.specs.List.{AllAdjacentBelow};
ghost use Rattle.spec_format.specs.Shapes.{AreLawful};
ghost use Rattle.snap_blob.specs.OpenShapes.{AreBounded};
ghost use Rattle.snap_blob.specs.Steps.{pair_of};

use crate::shape_walk::are_fresh;
use crate::startups::ShapeStep;
use snap_base::NoMemory;
use std::alloc::Global;

/// Whether the shapes are lawful where there are so many strings. It takes two sorts and one walk over
/// the shapes, however they stand.
pub fn are_lawful(alloc: Global, shapes: &[ShapeStep], strings: u32) -> Result<bool, NoMemory>
    requires { length shapes.now < 2 ^ 32 }
    ensures { IfOk result (λ b. IsTrue b ↔ AreLawful strings (map pair_of shapes.now)) }
{
    if !are_bounded(shapes, strings) {
        return Ok(false);
    }
    if !are_apart(alloc, shapes)? {
        return Ok(false);
    }
    are_fresh(alloc, shapes, strings)
}

// Whether each parent is below its shape, and each key one of the strings.
fn are_bounded(shapes: &[ShapeStep], strings: u32) -> bool
    requires { length shapes.now < 2 ^ 32 }
    ensures { IsTrue result ↔ AreBounded strings shapes.now }
{
    for (n, shape) in shapes.iter().enumerate() {
        if shape.parent as usize > n || shape.name >= strings {
            return false;
        }
    }
    true
}

// Whether no shape stands twice.
fn are_apart(alloc: Global, shapes: &[ShapeStep]) -> Result<bool, NoMemory>
    ensures { IfOk result (λ b. IsTrue b ↔ AllPairs (λ one other. one ≢ other) (map pair_of shapes.now)) }
{
    let mut sorted = Vec::from_slice(alloc, shapes).map_err(|_| NoMemory)?;
    sorted.sort_unstable();
    Ok(neighbours_differ(&sorted))
}

fn neighbours_differ(shapes: &[ShapeStep]) -> bool
    ensures { IsTrue result ↔ AllAdjacentBelow (λ one other. one ≢ other) shapes.now (length shapes.now) }
{
    for i in 1..shapes.len() {
        if shapes[i - 1] == shapes[i] {
            return false;
        }
    }
    true
}

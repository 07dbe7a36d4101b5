//! The keys of shapes.

ghost use Rattle.std.specs.Prelude.{◌≤◌, length, map, IfOk};
ghost use Rattle.spec_format.specs.Shapes.{HasKeys};
ghost use Rattle.snap_blob.specs.Steps.{pair_of};
ghost use Rattle.snap_ctxfmt.specs.Reading.{HaveParents};

use snap_base::NoMemory;
use snap_blob::ShapeStep;
use std::alloc::Global;

/// The keys of a shape, as numbers of strings, in order: its own comes last, behind those of its
/// parents. Each shape on the way is looked at once.
pub fn keys_of(alloc: Global, shapes: &[ShapeStep], shape: usize) -> Result<Vec<u32>, NoMemory>
    requires parents { HaveParents (map pair_of shapes.now) }
    requires within { shape ≤ length shapes.now }
    ensures { IfOk result (λ keys. HasKeys (map pair_of shapes.now) shape keys.items) }
{
    let mut keys = Vec::new(alloc);
    let mut at = shape;
    while at > 0 {
        let step = &shapes[at - 1];
        keys.push(step.name).map_err(|_| NoMemory)?;
        at = step.parent as usize;
    }
    keys.reverse();
    Ok(keys)
}

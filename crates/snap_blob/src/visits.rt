//! The order in which shapes are visited.

ghost use Rattle.std.specs.Prelude.{◌≡◌, suc, ◌<◌, ◌^◌, length, IfOk};
ghost use Rattle.snap_blob.specs.OpenShapes.{HaveLowParents};
ghost use Rattle.snap_blob.specs.Visits.{AreVisits};

use crate::startups::ShapeStep;
use snap_base::NoMemory;
use std::alloc::Global;

/// When a stored shape is visited: in order of places.
#[derive(Clone, Copy, Debug, PartialEq, Eq, PartialOrd, Ord)]
pub struct Visit {
    /// Its place among the visits.
    pub place: u32,
    /// Its number among the stored shapes, from 0 on.
    pub shape: u32,
}

/// Each stored shape, in an order in which the shapes that stand on one another follow one another: each
/// comes behind its parent, and all that stand on it before any other. So a walk that opens shapes in
/// this order and closes those that are done with takes as many steps as there are shapes.
pub fn visits_in_order(alloc: Global, shapes: &[ShapeStep]) -> Result<Vec<Visit>, NoMemory>
    requires few { length shapes.now < 2 ^ 32 }
    requires low { HaveLowParents shapes.now }
    ensures { IfOk result (λ v. AreVisits (length shapes.now) v.items) }
{
    let sizes = sizes(alloc, shapes)?;
    let mut visits = placed(alloc, shapes, sizes.as_slice())?;
    visits.sort_unstable();
    Ok(visits)
}

// How many shapes stand on each, itself among them.
fn sizes(alloc: Global, shapes: &[ShapeStep]) -> Result<Vec<u32>, NoMemory>
    requires few { length shapes.now < 2 ^ 32 }
    requires low { HaveLowParents shapes.now }
    ensures { IfOk result (λ v. length v.items ≡ suc (length shapes.now)) }
{
    let mut sizes = vec![in alloc; 1u32; shapes.len() + 1].map_err(|_| NoMemory)?;
    for n in (0..shapes.len()).rev() {
        let parent = shapes[n].parent as usize;
        sizes[parent] = sizes[parent].wrapping_add(sizes[n + 1]);
    }
    Ok(sizes)
}

// Each stored shape with its place: right behind its parent and what stands on the shapes before it that
// have the same parent.
fn placed(alloc: Global, shapes: &[ShapeStep], sizes: &[u32]) -> Result<Vec<Visit>, NoMemory>
    requires few { length shapes.now < 2 ^ 32 }
    requires low { HaveLowParents shapes.now }
    requires sizes { length sizes.now ≡ suc (length shapes.now) }
    ensures { IfOk result (λ v. AreVisits (length shapes.now) v.items) }
{
    let mut visits = Vec::new(alloc);
    let mut next = vec![in alloc; 0u32; shapes.len() + 1].map_err(|_| NoMemory)?;
    for n in 0..shapes.len() {
        let parent = shapes[n].parent as usize;
        let place = next[parent];
        next[parent] = place.wrapping_add(sizes[n + 1]);
        next[n + 1] = place.wrapping_add(1);
        let shape = n as u32;
        visits.push(Visit { place, shape }).map_err(|_| NoMemory)?;
    }
    Ok(visits)
}

//! The walk over all shapes that looks for a key which stands in its parent.

ghost use Rattle.std.specs.Prelude.{◌<◌, ◌≤◌, ◌^◌, ◌↔◌, length, map, IfOk, IfSome, IsTrue, MatchOption};
ghost use Rattle.snap_blob.specs.OpenShapes.{AreBounded, AreFresh, HasKey, HaveLowParents, IsFresh, IsMarked};
ghost use Rattle.snap_blob.specs.Steps.{pair_of};
ghost use Rattle.snap_blob.specs.Visits.{AreVisits};

use crate::startups::ShapeStep;
use crate::visits::{Visit, visits_in_order};
use snap_base::NoMemory;
use std::alloc::Global;

/// Whether no key stands in its parent.
pub fn are_fresh(alloc: Global, shapes: &[ShapeStep], strings: u32) -> Result<bool, NoMemory>
    requires few { length shapes.now < 2 ^ 32 }
    requires bounded { AreBounded strings shapes.now }
    ensures { IfOk result (λ b. IsTrue b ↔ AreFresh (map pair_of shapes.now)) }
{
    let visits = visits_in_order(alloc, shapes)?;
    let mut marks = vec![in alloc; false; strings as usize].map_err(|_| NoMemory)?;
    Ok(visit_all(shapes, visits.as_slice(), marks.as_mut_slice()))
}

// Whether no key stands in its parent. The marks are those of the root, none.
fn visit_all(shapes: &[ShapeStep], visits: &[Visit], marks: &mut [bool]) -> bool
    requires few { length shapes.now < 2 ^ 32 }
    requires bounded { AreBounded (length marks.old) shapes.now }
    requires marked { IsMarked (map pair_of shapes.now) 0 marks.old }
    requires whole { AreVisits (length shapes.now) visits.now }
    ensures { IsTrue result ↔ AreFresh (map pair_of shapes.now) }
{
    let mut top = 0;
    for visit in visits {
        let Some(next) = enter(shapes, marks, top, visit.shape) else {
            return false;
        };
        top = next;
    }
    true
}

// Opens a stored shape and answers which shape is open then, or `None` where its key stands in its
// parent. The marks are at all times the keys of the shape that is open.
fn enter(shapes: &[ShapeStep], marks: &mut [bool], top: u32, index: u32) -> Option<u32>
    requires few { length shapes.now < 2 ^ 32 }
    requires bounded { AreBounded (length marks.old) shapes.now }
    requires inside { index < length shapes.now }
    requires within { top ≤ length shapes.now }
    requires marked { IsMarked (map pair_of shapes.now) top marks.old }
    ensures fresh { MatchOption result (IsFresh (map pair_of shapes.now) index → ⊥) (λ _. IsFresh (map pair_of shapes.now) index) }
    ensures within { IfSome result (λ next. next ≤ length shapes.now) }
    ensures marked { IfSome result (λ next. IsMarked (map pair_of shapes.now) next marks.new) }
{
    let shape = shapes[index as usize];
    let name = shape.name as usize;
    let next = climb(shapes, marks, top, shape.parent);
    if next != shape.parent {
        // Its parent is not open, as it would be in a good order, so its keys are looked at one by one.
        return if has_key(shapes, shape.parent, shape.name) {
            None
        } else {
            Some(next)
        };
    }
    if marks[name] {
        return None;
    }
    marks[name] = true;
    Some(index + 1)
}

// Closes shapes until none above `parent` is open, and answers which is open then.
fn climb(shapes: &[ShapeStep], marks: &mut [bool], top: u32, parent: u32) -> u32
    requires bounded { AreBounded (length marks.old) shapes.now }
    requires within { top ≤ length shapes.now }
    requires marked { IsMarked (map pair_of shapes.now) top marks.old }
    ensures closed { result ≤ parent }
    ensures within { result ≤ length shapes.now }
    ensures marked { IsMarked (map pair_of shapes.now) result marks.new }
{
    let mut reached = top;
    while reached > parent {
        let shape = shapes[reached as usize - 1];
        marks[shape.name as usize] = false;
        reached = shape.parent;
    }
    reached
}

// Whether a shape has a key, by a look at each of its keys.
fn has_key(shapes: &[ShapeStep], shape: u32, name: u32) -> bool
    requires low { HaveLowParents shapes.now }
    requires within { shape ≤ length shapes.now }
    ensures { IsTrue result ↔ HasKey (map pair_of shapes.now) shape name }
{
    let mut above = shape;
    while above > 0 {
        let step = shapes[above as usize - 1];
        if step.name == name {
            return true;
        }
        above = step.parent;
    }
    false
}

//! Trees, resolved.

ghost use Rattle.std.specs.Prelude.{◌≡◌, ◌≢◌, None, Some, map, length, OnOk, IfOk, IfErr};
ghost use Rattle.snap_ast.specs.Lawful.{Lawful};
ghost use Rattle.snap_scope.specs.Faults.{IsTold};
ghost use Rattle.snap_scope.specs.Visit.{Visited};
ghost use Rattle.snap_scope.specs.Start.{IsStart};
ghost use Rattle.spec_scopes.specs.EarlyErrors.{HasFault};
ghost use Rattle.spec_scopes.specs.Resolution.{AreScopes};
ghost use Rattle.spec_scopes.specs.Scopes.{script_names, slot_of};
ghost use Rattle.spec_scopes.specs.Told.{early_error, first_repeat};
ghost use Rattle.spec_scopes.specs.declared.fault.ScopeFault.{ScopeFault};

use crate::chains::Chains;
use crate::context::Context;
use crate::declare::slots_of;
use crate::names::put_body;
use crate::scopes::Scopes;
use crate::slots::Slots;
use crate::visiting::{Pass, visit};
use snap_ast::Tree;
use snap_text::NoMemory;
use spec_scopes::{ScopeFault, one_early_error};
use std::alloc::Global;

// The slots of the names at the top of a script.
fn script_slots(alloc: Global, tree: &Tree) -> Result<Slots, ScopeFault>
    requires { Lawful tree.now }
    ensures slots { IfOk result (λ slots. slots ≡ map slot_of (script_names tree.now).names) }
    ensures apart { OnOk result (first_repeat (script_names tree.now).names ≡ None) }
    ensures err { IfErr result (IsTold (first_repeat (script_names tree.now).names)) }
{
    let mut names = Vec::new(alloc);
    match put_body(tree.nodes.as_slice(), tree.top.as_slice(), &mut names) {
        Ok(()) => slots_of(alloc, &names),
        Err(NoMemory) => Err(ScopeFault::NoMemory),
    }
}

// What is known before any node is visited.
fn start<'t>(alloc: Global, count: usize, slots: Slots) -> Result<Pass<'t>, NoMemory>
    ensures { IfOk result (IsStart count slots) }
{
    let chains = Chains::script(alloc, slots)?;
    let context = Context {
        chain: 0,
        in_loop: false,
        in_function: false,
    };
    let contexts = vec![in alloc; context; count]?;
    Ok(Pass {
        chains,
        contexts,
        entries: Vec::with_capacity(alloc, count)?,
        places: Vec::new(alloc),
        children: Vec::new(alloc),
        names: Vec::new(alloc),
        bytes: Vec::new(alloc),
    })
}

fn visit_all<'t>(alloc: Global, tree: &'t Tree, pass: &mut Pass<'t>) -> Result<(), ScopeFault>
    requires lawful { Lawful tree.now }
    requires start { Visited tree.now pass.old.chains pass.old.contexts.items pass.old.entries.items pass.old.places.items 0 }
    ensures ok { OnOk result (Visited tree.now pass.new.chains pass.new.contexts.items pass.new.entries.items pass.new.places.items (length tree.now.nodes)) }
    ensures err { IfErr result (IsTold (early_error tree.now)) }
{
    for number in 0..tree.nodes.as_slice().len() {
        match visit(alloc, tree, number, pass) {
            Ok(()) => {}
            Err(fault) => return Err(fault),
        }
    }
    Ok(())
}

fn resolve_from(alloc: Global, tree: &Tree, slots: Slots) -> Result<Scopes, ScopeFault>
    requires lawful { Lawful tree.now }
    requires slots { slots ≡ map slot_of (script_names tree.now).names }
    requires apart { first_repeat (script_names tree.now).names ≡ None }
    ensures scopes { IfOk result (AreScopes tree.now) }
    ensures none { OnOk result (early_error tree.now ≡ None) }
    ensures err { IfErr result (IsTold (early_error tree.now)) }
{
    let mut pass = match start(alloc, tree.nodes.as_slice().len(), slots) {
        Ok(pass) => pass,
        Err(NoMemory) => return Err(ScopeFault::NoMemory),
    };
    match visit_all(alloc, tree, &mut pass) {
        Ok(()) => {
            let Pass {
                chains,
                entries,
                places,
                ..
            } = pass;
            Ok(Scopes::of(chains, entries, places))
        }
        Err(fault) => Err(fault),
    }
}

/// The scopes of a tree, or its first early error.
///
/// # Errors
///
/// `Duplicate`, `BadTarget` and `StrayJump` come only where that early error stands at that place. Of several the
/// first is told: those of the script's own names come first, then those of the nodes in their order. A tree with an
/// early error has no answer but that one and `NoMemory`.
pub fn resolve(alloc: Global, tree: &Tree) -> Result<Scopes, ScopeFault>
    requires { Lawful tree.now }
    ensures scopes { IfOk result (AreScopes tree.now) }
    ensures right { OnOk result ((fault : ScopeFault) → HasFault tree.now fault → ⊥) }
    ensures none { OnOk result (early_error tree.now ≡ None) }
    ensures refused { IfErr result (λ fault. fault ≢ ScopeFault.NoMemory → HasFault tree.now fault) }
    ensures first { IfErr result (λ fault. fault ≢ ScopeFault.NoMemory → early_error tree.now ≡ Some fault) }
{
    one_early_error();
    match script_slots(alloc, tree) {
        Ok(slots) => resolve_from(alloc, tree, slots),
        Err(fault) => Err(fault),
    }
}

//! The scope that a node makes, and what its children have from it.

ghost use Rattle.std.specs.Prelude.{◌≡◌, ◌<◌, ◌^◌, ◌++◌, ◌∷◌, [], ℕ, List, Option, None, Some, map, length, slice_get, OnOk, IfOk, IfErr};
ghost use Rattle.snap_ast.specs.Lawful.{HasWords};
ghost use Rattle.snap_ast.specs.Words.{Each};
ghost use Rattle.snap_graph.specs.declared.kind.ScopeKind.{ScopeKind};
ghost use Rattle.snap_scope.specs.Chains.{chain_in};
ghost use Rattle.snap_scope.specs.Faults.{IsTold};
ghost use Rattle.snap_scope.specs.Names.{all_declared, slots_in, AreNarrow, HaveWords};
ghost use Rattle.snap_scope.specs.Visit.{child_context, Enters};
ghost use Rattle.spec_scopes.specs.Round.{IsAmong};
ghost use Rattle.spec_scopes.specs.Scopes.{names_apart, own_names, slot_of};
ghost use Rattle.spec_scopes.specs.Told.{first_repeat};

use crate::chains::Chains;
use crate::context::{Context, child_context};
use crate::declare::slots_of;
use crate::names::{Name, put_apart, put_own};
use crate::slots::Slots;
use snap_ast::{Form, TreeNode};
use snap_graph::ScopeKind;
use snap_text::NoMemory;
use spec_scopes::ScopeFault;
use std::alloc::Global;

// The slots of names, of which no two may be the same, or nothing where there are no names.
fn some_slots(alloc: Global, names: &[Name<'_>]) -> Result<Option<Slots>, ScopeFault>
    requires { AreNarrow (all_declared names.now) }
    ensures slots { IfOk result (λ slots. slots_in slots ≡ map slot_of (all_declared names.now)) }
    ensures apart { OnOk result (first_repeat (all_declared names.now) ≡ None) }
    ensures err { IfErr result (IsTold (first_repeat (all_declared names.now))) }
{
    match names {
        [] => Ok(None),
        [_, ..] => match slots_of(alloc, names) {
            Ok(slots) => Ok(Some(slots)),
            Err(fault) => Err(fault),
        },
    }
}

// The slots of the names of which no two may be the same.
fn apart_slots<'t>(
    alloc: Global,
    nodes: &'t [TreeNode],
    form: &'t Form,
    names: &mut Vec<Name<'t>>,
) -> Result<Option<Slots>, ScopeFault>
    requires nodes { HaveWords nodes.now }
    requires words { HasWords form.now }
    ensures slots { IfOk result (λ slots. slots_in slots ≡ map slot_of (names_apart nodes.now form.now)) }
    ensures apart { OnOk result (first_repeat (names_apart nodes.now form.now) ≡ None) }
    ensures err { IfErr result (IsTold (first_repeat (names_apart nodes.now form.now))) }
{
    names.clear();
    match put_apart(nodes, form, names) {
        Ok(()) => some_slots(alloc, names),
        Err(NoMemory) => Err(ScopeFault::NoMemory),
    }
}

// The slots of the one name of a catch, which can't repeat.
fn catch_slots<'t>(
    alloc: Global,
    nodes: &'t [TreeNode],
    form: &'t Form,
    names: &mut Vec<Name<'t>>,
) -> Result<Slots, NoMemory>
    requires nodes { HaveWords nodes.now }
    requires words { HasWords form.now }
    ensures { IfOk result (λ slots. slots ≡ map slot_of (own_names nodes.now form.now).names) }
{
    names.clear();
    put_own(nodes, form, names)?;
    match slots_of(alloc, names) {
        Ok(slots) => Ok(slots),
        Err(_) => Err(NoMemory),
    }
}

/// The slots of the scope that a node makes, where its names are apart, or nothing where it has no names. They
/// are listed in the list that is lent.
pub(crate) fn own_slots<'t>(
    alloc: Global,
    nodes: &'t [TreeNode],
    form: &'t Form,
    names: &mut Vec<Name<'t>>,
) -> Result<Option<Slots>, ScopeFault>
    requires nodes { HaveWords nodes.now }
    requires words { HasWords form.now }
    ensures slots { IfOk result (λ slots. slots_in slots ≡ map slot_of (own_names nodes.now form.now).names) }
    ensures apart { OnOk result (first_repeat (names_apart nodes.now form.now) ≡ None) }
    ensures err { IfErr result (IsTold (first_repeat (names_apart nodes.now form.now))) }
{
    match form {
        Form::TryCatchName { .. } => match apart_slots(alloc, nodes, form, names) {
            Ok(_) => match catch_slots(alloc, nodes, form, names) {
                Ok(slots) => Ok(Some(slots)),
                Err(NoMemory) => Err(ScopeFault::NoMemory),
            },
            Err(fault) => Err(fault),
        },
        _ => apart_slots(alloc, nodes, form, names),
    }
}

/// Adds the scope of a node inside a chain, where it has slots, and gives its number.
pub(crate) fn enter(
    alloc: Global,
    chain: u32,
    kind: ScopeKind,
    slots: Option<Slots>,
    chains: &mut Chains,
) -> Result<Option<u32>, NoMemory>
    requires within { chain < length chains.old.chains }
    requires few { length (chain_in chains.old chain) < 2 ^ 32 }
    ensures { IfOk result (λ own. Enters chain kind (slots_in slots) own chains.old chains.new) }
{
    let Some(slots) = slots else {
        return Ok(None);
    };
    if slots.len() == 0 {
        return Ok(None);
    }
    let own = chains.add(alloc, chain as usize, kind, slots)?;
    match u32::try_from(own) {
        Ok(own) => Ok(Some(own)),
        Err(_) => Err(NoMemory),
    }
}

/// Gives the children of a node what they have from it.
pub(crate) fn spread(
    form: &Form,
    context: Context,
    own: Option<u32>,
    children: &[u32],
    contexts: &mut Vec<Context>,
)
    requires { Each (λ child. child < length contexts.old.items) children.now }
    ensures long { length contexts.new.items ≡ length contexts.old.items }
    ensures children { (child : ℕ) → IsAmong children.now child → slice_get contexts.new.items child ≡ Some (child_context form.now context own child) }
    ensures others { (other : ℕ) → (IsAmong children.now other → ⊥) → slice_get contexts.new.items other ≡ slice_get contexts.old.items other }
{
    for child in children {
        contexts[*child as usize] = child_context(form, context, own, *child);
    }
}

//! The nodes of a tree, visited in order.

ghost use Rattle.std.specs.Prelude.{◌≡◌, ◌<◌, ◌+◌, ◌^◌, ◌++◌, ◌∷◌, [], ℕ, List, Some, map, length, slice_get, OnOk, IfOk, IfErr};
ghost use Rattle.snap_ast.specs.Lawful.{HasWords, Lawful};
ghost use Rattle.snap_ast.specs.Words.{Each};
ghost use Rattle.snap_scope.specs.Chains.{chain_in};
ghost use Rattle.snap_scope.specs.Faults.{IsTold, IsToldAt};
ghost use Rattle.snap_scope.specs.Names.{slots_in};
ghost use Rattle.snap_scope.specs.Visit.{child_context, GoesIn, IsCleanAt, Visited};
ghost use Rattle.snap_scope.specs.declared.context.Context.{Context};
ghost use Rattle.spec_scopes.specs.Round.{IsAmong, numbers};
ghost use Rattle.spec_scopes.specs.Scopes.{own_names, slot_of};
ghost use Rattle.spec_scopes.specs.Told.{early_error};

use crate::chains::Chains;
use crate::checks::{check_target, is_stray};
use crate::children::put_children;
use crate::context::{Context, NodeEntry};
use crate::enter::{enter, own_slots, spread};
use crate::names::{Name, kind_of};
use crate::places::{entry_of, put_places};
use crate::slots::Slots;
use snap_ast::{Form, Tree, TreeNode};
use snap_text::NoMemory;
use spec_scopes::{ScopeFault, SlotPlace};
use std::alloc::Global;

/// What is known once some nodes are visited.
#[derive(Drop)]
pub(crate) struct Pass<'t> {
    /// The scopes that they make, and that of the script.
    pub chains: Chains,
    /// What their children have from them, by number.
    pub contexts: Vec<Context>,
    /// Their own scopes, by number.
    pub entries: Vec<NodeEntry>,
    /// The places of the names that they mention, in order.
    pub places: Vec<Option<SlotPlace>>,
    /// The children of the node that is visited.
    pub children: Vec<u32>,
    /// The names that are looked at there.
    pub names: Vec<Name<'t>>,
    /// The bytes of the name whose place is looked for.
    pub bytes: Vec<u8>,
}

// Refuses a node with its early error, or gives the slots of its own scope, where it has names.
fn check<'t>(
    alloc: Global,
    tree: &'t Tree,
    node: &'t TreeNode,
    context: Context,
    names: &mut Vec<Name<'t>>,
) -> Result<Option<Slots>, ScopeFault>
    requires lawful { Lawful tree.now }
    requires words { HasWords node.now.form }
    ensures slots { IfOk result (λ slots. slots_in slots ≡ map slot_of (own_names tree.now.nodes node.now.form).names) }
    ensures clean { OnOk result (IsCleanAt tree.now node.now context) }
    ensures err { IfErr result (IsToldAt tree.now node.now context) }
{
    match check_target(tree.nodes.as_slice(), &node.form) {
        Ok(()) => {
            if is_stray(&node.form, context) {
                return Err(ScopeFault::StrayJump(node.at));
            }
            own_slots(alloc, tree.nodes.as_slice(), &node.form, names)
        }
        Err(fault) => Err(fault),
    }
}

// Gives the children of a node what they have from it. They are listed in the list that is lent.
fn spread_all(
    form: &Form,
    context: Context,
    own: Option<u32>,
    children: &mut Vec<u32>,
    contexts: &mut Vec<Context>,
) -> Result<(), NoMemory>
    requires { Each (λ child. child < length contexts.old.items) (numbers form.now) }
    ensures long { OnOk result (length contexts.new.items ≡ length contexts.old.items) }
    ensures children { OnOk result ((child : ℕ) → IsAmong (numbers form.now) child → slice_get contexts.new.items child ≡ Some (child_context form.now context own child)) }
    ensures others { OnOk result ((other : ℕ) → (IsAmong (numbers form.now) other → ⊥) → slice_get contexts.new.items other ≡ slice_get contexts.old.items other) }
{
    children.clear();
    put_children(form, children)?;
    spread(form, context, own, children, contexts);
    Ok(())
}

// The places of the names of a node whose slots are given, its scope, and what its children have from it.
fn go_in<'t>(
    alloc: Global,
    node: &'t TreeNode,
    context: Context,
    slots: Option<Slots>,
    pass: &mut Pass<'t>,
) -> Result<(), NoMemory>
    requires within { context.chain < length pass.old.chains.chains }
    requires few { length (chain_in pass.old.chains context.chain) < 2 ^ 32 }
    requires words { HasWords node.now.form }
    requires children { Each (λ child. child < length pass.old.contexts.items) (numbers node.now.form) }
    ensures { OnOk result (GoesIn node.now.form context (slots_in slots) pass.old.chains pass.old.contexts.items pass.old.entries.items pass.old.places.items pass.new.chains pass.new.contexts.items pass.new.entries.items pass.new.places.items) }
{
    let first = pass.places.len();
    put_places(
        &pass.chains,
        context.chain,
        &node.form,
        &mut pass.names,
        &mut pass.bytes,
        &mut pass.places,
    )?;
    let own = enter(
        alloc,
        context.chain,
        kind_of(&node.form),
        slots,
        &mut pass.chains,
    )?;
    spread_all(
        &node.form,
        context,
        own,
        &mut pass.children,
        &mut pass.contexts,
    )?;
    let entry = entry_of(context.chain, own, first, pass.places.len())?;
    pass.entries.push(entry)?;
    Ok(())
}

/// Visits the next node.
pub(crate) fn visit<'t>(
    alloc: Global,
    tree: &'t Tree,
    number: usize,
    pass: &mut Pass<'t>,
) -> Result<(), ScopeFault>
    requires lawful { Lawful tree.now }
    requires below { number < length tree.now.nodes }
    requires visited { Visited tree.now pass.old.chains pass.old.contexts.items pass.old.entries.items pass.old.places.items number }
    ensures ok { OnOk result (Visited tree.now pass.new.chains pass.new.contexts.items pass.new.entries.items pass.new.places.items (number + 1)) }
    ensures err { IfErr result (IsTold (early_error tree.now)) }
{
    let node = &tree.nodes.as_slice()[number];
    let context = pass.contexts[number];
    match check(alloc, tree, node, context, &mut pass.names) {
        Ok(slots) => match go_in(alloc, node, context, slots, pass) {
            Ok(()) => Ok(()),
            Err(NoMemory) => Err(ScopeFault::NoMemory),
        },
        Err(fault) => Err(fault),
    }
}

//! The places of the names that nodes mention.

ghost use Rattle.std.specs.Prelude.{◌≡◌, ◌<◌, ◌≤◌, ◌-◌, ◌∷◌, [], ◌++◌, map, length, OnOk, IfOk};
ghost use Rattle.snap_ast.specs.Lawful.{HasWords};
ghost use Rattle.snap_scope.specs.Chains.{chain_in};
ghost use Rattle.snap_scope.specs.Names.{all_declared, names_in, AreNarrow, IsNarrow};
ghost use Rattle.spec_scopes.specs.Names.{declares};
ghost use Rattle.spec_scopes.specs.Slots.{place_of, places};

use crate::chains::Chains;
use crate::context::NodeEntry;
use crate::names::{Name, put_declared};
use crate::narrow::narrow;
use snap_ast::Form;
use snap_text::{NoMemory, Units};
use spec_scopes::SlotPlace;

// The place of a name, which is narrowed into the list of bytes that is lent.
fn put_place(
    chains: &Chains,
    chain: u32,
    name: &Units,
    bytes: &mut Vec<u8>,
    out: &mut Vec<Option<SlotPlace>>,
) -> Result<(), NoMemory>
    requires within { chain < length chains.now.chains }
    requires narrow { IsNarrow name.now }
    ensures { OnOk result (out.new.items ≡ out.old.items ++ place_of (chain_in chains.now chain) name.now ∷ []) }
{
    narrow(name.units(), bytes)?;
    out.push(chains.place(chain as usize, bytes))?;
    Ok(())
}

fn put_all(
    chains: &Chains,
    chain: u32,
    names: &[Name<'_>],
    bytes: &mut Vec<u8>,
    out: &mut Vec<Option<SlotPlace>>,
) -> Result<(), NoMemory>
    requires within { chain < length chains.now.chains }
    requires narrow { AreNarrow (all_declared names.now) }
    ensures { OnOk result (out.new.items ≡ out.old.items ++ map (place_of (chain_in chains.now chain)) (names_in (all_declared names.now))) }
{
    for name in names {
        put_place(chains, chain, &name.named.name, bytes, out)?;
    }
    Ok(())
}

// The places of the names that a node declares in the scope round it. They are listed in the list that is lent.
fn put_declared_places<'t>(
    chains: &Chains,
    chain: u32,
    form: &'t Form,
    names: &mut Vec<Name<'t>>,
    bytes: &mut Vec<u8>,
    out: &mut Vec<Option<SlotPlace>>,
) -> Result<(), NoMemory>
    requires within { chain < length chains.now.chains }
    requires words { HasWords form.now }
    ensures { OnOk result (out.new.items ≡ out.old.items ++ map (place_of (chain_in chains.now chain)) (names_in (declares form.now))) }
{
    names.clear();
    put_declared(form, names)?;
    put_all(chains, chain, names, bytes, out)
}

/// Adds the places of the names that a node mentions, in the chain round it. The lists of names and of bytes are
/// lent.
pub(crate) fn put_places<'t>(
    chains: &Chains,
    chain: u32,
    form: &'t Form,
    names: &mut Vec<Name<'t>>,
    bytes: &mut Vec<u8>,
    out: &mut Vec<Option<SlotPlace>>,
) -> Result<(), NoMemory>
    requires within { chain < length chains.now.chains }
    requires words { HasWords form.now }
    ensures { OnOk result (out.new.items ≡ out.old.items ++ places (chain_in chains.now chain) form.now) }
{
    match form {
        Form::Name { name } => put_place(chains, chain, name, bytes, out),
        Form::AssignName { name, .. } => put_place(chains, chain, &name.name, bytes, out),
        Form::UpdateName { name, .. } => put_place(chains, chain, &name.name, bytes, out),
        Form::Let { .. } | Form::Const { .. } | Form::Function { .. } => {
            put_declared_places(chains, chain, form, names, bytes, out)
        }
        _ => Ok(()),
    }
}

/// The entry of a node whose names have the places from one number up to another. Where these are no 32 bits, the
/// answer is want of memory.
pub(crate) fn entry_of(
    chain: u32,
    own: Option<u32>,
    first: usize,
    end: usize,
) -> Result<NodeEntry, NoMemory>
    requires { first ≤ end }
    ensures { IfOk result (λ entry. entry ≡ record { chain = chain; own = own; first = first; count = end - first }) }
{
    let Ok(from) = u32::try_from(first) else {
        return Err(NoMemory);
    };
    let Ok(count) = u32::try_from(end - first) else {
        return Err(NoMemory);
    };
    Ok(NodeEntry {
        chain,
        own,
        first: from,
        count,
    })
}

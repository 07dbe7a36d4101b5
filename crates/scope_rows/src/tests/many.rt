//! Many names in one scope, many scopes round a node, and many uses of a name.

ghost use Rattle.std.specs.Prelude.{◌≡◌, ◌<◌, length};
ghost use Rattle.snap_ast.specs.Lawful.{Lawful};

use super::{node_at, scopes_of, tree_of};
use snap_ast::Tree;
use snap_scope::{Scopes, SlotPlace};
use std::alloc::{AllocError, Global};
use std::test::Fail;

/// `let n0, n1, ..;`
fn names(alloc: Global, count: usize) -> Result<String, AllocError> {
    let mut source = String::new(alloc);
    source.push_str("let n0")?;
    for number in 1..count {
        source.push_str(", n")?;
        source.push_str(number.to_string(alloc)?.as_str())?;
    }
    source.push(';')?;
    Ok(source)
}

/// `{let n0;{let n1; .. }}`, so many blocks.
fn blocks(alloc: Global, count: usize) -> Result<String, AllocError> {
    let mut source = String::new(alloc);
    for number in 0..count {
        source.push_str("{let n")?;
        source.push_str(number.to_string(alloc)?.as_str())?;
        source.push(';')?;
    }
    for _ in 0..count {
        source.push('}')?;
    }
    Ok(source)
}

/// Whether a name with this number stands at a place from a node.
fn is_at(
    alloc: Global,
    scopes: &Scopes,
    node: u32,
    number: u32,
    place: SlotPlace,
) -> Result<bool, AllocError>
    requires { node < length scopes.now.nodes }
{
    let name = format!(in alloc; "n{number}")?;
    Ok(scopes.slot_of(node, name.as_bytes()) == Some(place))
}

/// How many of the names from `n0` on are found from a node, each in the slot of its number.
fn slots(alloc: Global, scopes: &Scopes, node: u32) -> Result<u32, AllocError>
    requires { node < length scopes.now.nodes }
{
    for slot in 0..100_000u32 {
        let place = SlotPlace {
            hops: 0,
            slot,
            constant: false,
        };
        if !is_at(alloc, scopes, node, slot, place)? {
            return Ok(slot);
        }
    }
    Ok(100_000)
}

/// How many places from the first on are each the slot of its index.
fn in_order(places: &[Option<SlotPlace>]) -> usize {
    for (slot, place) in places.iter().enumerate() {
        match place {
            Some(place) => {
                if place.hops != 0 || place.slot as usize != slot {
                    return slot;
                }
            }
            None => return slot,
        }
    }
    places.len()
}

/// How many slots the script of a tree has, how many of its names are found in them from its first node, and how many
/// names of that node are resolved to them.
fn found_in_script(alloc: Global, tree: &Tree) -> Result<Option<(u32, u32, usize)>, AllocError>
    requires { Lawful tree.now }
{
    let Some(node) = node_at(tree, 0) else {
        return Ok(None);
    };
    match scopes_of(alloc, tree)? {
        Ok(scopes) => {
            let looked_up = slots(alloc, &scopes, node)?;
            Ok(Some((
                scopes.top().slots,
                looked_up,
                in_order(scopes.places_of(node)),
            )))
        }
        Err(_) => Ok(None),
    }
}

#[test]
fn finds_one_name_among_many(rt: HostRuntime) -> Result<(), Fail> {
    let source = names(rt.alloc(), 100_000)?;
    let tree = tree_of(rt.alloc(), source.as_bytes())?.expect(&rt, "a tree");
    let found = found_in_script(rt.alloc(), &tree)?;
    assert_eq!(rt; found, Some((100_000, 100_000, 100_000)));
    Ok(())
}

/// How many of the names from `n99` down are found from a node, each one scope further out.
fn hops(alloc: Global, scopes: &Scopes, node: u32) -> Result<u32, AllocError>
    requires { node < length scopes.now.nodes }
{
    for hops in 0..100u32 {
        let place = SlotPlace {
            hops,
            slot: 0,
            constant: false,
        };
        if !is_at(alloc, scopes, node, 99 - hops, place)? {
            return Ok(hops);
        }
    }
    Ok(100)
}

/// How many scopes lie round the last node that begins at a place, and in how many of them the names of the blocks
/// are found.
fn found_in_blocks(
    alloc: Global,
    tree: &Tree,
    at: usize,
) -> Result<Option<(usize, u32)>, AllocError>
    requires { Lawful tree.now }
{
    let Some(node) = node_at(tree, at) else {
        return Ok(None);
    };
    match scopes_of(alloc, tree)? {
        Ok(scopes) => Ok(Some((scopes.chain_of(node).len(), hops(alloc, &scopes, node)?))),
        Err(_) => Ok(None),
    }
}

// The declaration in the hundredth block has 100 nodes round it, as many as there may be.
#[test]
fn finds_names_through_a_hundred_blocks(rt: HostRuntime) -> Result<(), Fail> {
    let source = blocks(rt.alloc(), 100)?;
    let last = source.as_str().find("let n99").unwrap_or(0);
    let tree = tree_of(rt.alloc(), source.as_bytes())?.expect(&rt, "a tree");
    let found = found_in_blocks(rt.alloc(), &tree, last)?;
    assert_eq!(rt; found, Some((101, 100)));
    Ok(())
}

/// `{let n0;{let n1; .. n0;n0; .. }}`, 99 blocks and so many uses in the innermost one.
fn uses(alloc: Global, count: usize) -> Result<String, AllocError> {
    let mut source = String::new(alloc);
    for number in 0..99usize {
        source.push_str("{let n")?;
        source.push_str(number.to_string(alloc)?.as_str())?;
        source.push(';')?;
    }
    for _ in 0..count {
        source.push_str("n0;")?;
    }
    for _ in 0..99usize {
        source.push('}')?;
    }
    Ok(source)
}

/// How many names of a tree are resolved to a place.
fn resolved(tree: &Tree, scopes: &Scopes, place: SlotPlace) -> u64
    requires { length scopes.now.nodes ≡ length tree.now.nodes }
{
    let mut count: u64 = 0;
    for (number, _) in tree.nodes.as_slice().iter().enumerate() {
        if number < u32::MAX as usize {
            for found in scopes.places_of(number as u32) {
                if *found == Some(place) {
                    count = count.saturating_add(1);
                }
            }
        }
    }
    count
}

/// How many uses of `n0` in a tree are resolved to the slot of the outermost of 99 blocks.
fn resolved_uses(alloc: Global, tree: &Tree) -> Result<Option<u64>, AllocError>
    requires { Lawful tree.now }
{
    let place = SlotPlace {
        hops: 98,
        slot: 0,
        constant: false,
    };
    match scopes_of(alloc, tree)? {
        Ok(scopes) => Ok(Some(resolved(tree, &scopes, place))),
        Err(_) => Ok(None),
    }
}

// A use in the innermost block has 100 nodes round it.
#[test]
fn resolves_many_uses_through_many_blocks(rt: HostRuntime) -> Result<(), Fail> {
    let source = uses(rt.alloc(), 100_000)?;
    let tree = tree_of(rt.alloc(), source.as_bytes())?.expect(&rt, "a tree");
    assert_eq!(rt; resolved_uses(rt.alloc(), &tree)?, Some(100_000));
    Ok(())
}

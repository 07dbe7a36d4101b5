//! A node of as many properties as it may have.

ghost use Rattle.std.specs.Prelude.{◌≡◌, ◌<◌, ◌+◌, ◌++◌, ◌∷◌, [], length, IfOk};
ghost use Rattle.heap_rows.specs.Wide.{many, property_of, wide};
ghost use Rattle.snap_graph.specs.Lawful.{IsLawful};

use super::*;
use heap_words::is_refused;
use snap_graph::{Graph, Items, Node, Property, intrinsics_are_a_heap};
use snap_store::{PlainStore, StoreFault, intrinsics};
use snap_text::{NoMemory, OwnKeys};
use spec_values::{making_keeps_heaps, properties_keep_heaps};
use std::test::Fail;

/// A property of its own for each number.
fn property(alloc: Global, n: u32) -> Result<Property, NoMemory>
    ensures { IfOk result (λ property. property ≡ property_of n) }
{
    let key = Units::of(alloc, &[(n % 65_536) as u16, (n / 65_536) as u16])?;
    Ok(Property {
        key,
        value: Value::Null,
    })
}

/// So many properties, each with a key of its own.
fn many(alloc: Global, count: u32) -> Result<Vec<Property>, NoMemory>
    ensures { IfOk result (λ list. list.items ≡ many count) }
{
    let mut properties = Vec::new(alloc);
    for n in 0..count {
        properties.push(property(alloc, n)?)?;
    }
    Ok(properties)
}

/// The intrinsics and a plain object with so many properties, which are a heap.
fn wide(alloc: Global, count: u32) -> Result<Graph, Refused>
    ensures lawful { IfOk result (λ graph. IsLawful graph.nodes) }
    ensures count { IfOk result (λ graph. length graph.nodes ≡ 63) }
{
    intrinsics_are_a_heap();
    making_keeps_heaps();
    properties_keep_heaps();
    let properties = many(alloc, count)?;
    let mut nodes = intrinsics(alloc)?.nodes.into_vec();
    nodes.push(Node {
        kind: Kind::Plain,
        prototype: Value::Null,
        frozen: false,
        properties: Items::from_vec(properties),
        elements: Items::from_vec(Vec::new(alloc)),
    })?;
    Ok(Graph {
        nodes: Items::from_vec(nodes),
    })
}

/// A store of them, of whose nodes one is private.
fn wide_store(alloc: Global, count: u32) -> Result<PlainStore<OwnKeys>, Refused>
    ensures { IfOk result (λ store. length (⟦<PlainStore<OwnKeys> as Store>⟧.view store).nodes ≡ 63) }
{
    let graph = wide(alloc, count)?;
    match PlainStore::of(alloc, OwnKeys::new(alloc), graph, 1) {
        Ok(store) => Ok(store),
        Err(_) => Err(Refused::NoMemory),
    }
}

/// A key of a property of 2^20, and one of another.
const ONE_OF_THEM: &[u16] = &[65_535, 15];

const ANOTHER: &[u16] = &[0, 16];

/// Whether one of them is written, and another refused.
fn has_no_more<S: Store>(alloc: Global, store: &mut S, node: u32) -> Result<bool, Refused>
    requires { node < length (S.view store.old).nodes }
{
    let wrote = put(alloc, store, node, ONE_OF_THEM, 0)?;
    let another = put(alloc, store, node, ANOTHER, 0);
    Ok(wrote && is_refused(another, StoreFault::TooLong)?)
}

#[test]
fn has_room_for_properties(rt: HostRuntime) -> Result<(), Fail> {
    let mut store = wide_store(rt.alloc(), 1_048_576)?;
    assert!(rt; has_no_more(rt.alloc(), &mut store, 62)?);
    Ok(())
}

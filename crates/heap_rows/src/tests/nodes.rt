//! Nodes that are made and read.

use snap_graph::{Graph, Items, Kind, Node, Property, ScopeKind, Value};
use snap_text::{NoMemory, Units};
use std::alloc::Global;
use std::test::Fail;

// A list of one.
fn one<T: Drop>(alloc: Global, item: T) -> Result<Vec<T>, NoMemory> {
    let mut items = Vec::new(alloc);
    items.push(item)?;
    Ok(items)
}

// A function that closes over the node with number 1.
fn function(alloc: Global) -> Result<Node, NoMemory> {
    let closes_over = one(alloc, Value::Node(1))?;
    Ok(Node {
        kind: Kind::Function { script: 0, tree: 3 },
        prototype: Value::Node(2),
        frozen: false,
        properties: Items::from_vec(Vec::new(alloc)),
        elements: Items::from_vec(closes_over),
    })
}

// A block's scope with a number and an empty slot.
fn scope(alloc: Global) -> Result<Node, NoMemory> {
    let mut slots = one(alloc, Value::Int(-5))?;
    slots.push(Value::Empty)?;
    Ok(Node {
        kind: Kind::Scope {
            scope: ScopeKind::Block,
        },
        prototype: Value::Null,
        frozen: false,
        properties: Items::from_vec(Vec::new(alloc)),
        elements: Items::from_vec(slots),
    })
}

// A property that is a text.
fn property(alloc: Global) -> Result<Property, NoMemory> {
    let key = Units::of(alloc, &[0x61])?;
    let text = Units::of(alloc, &[0x62, 0x63])?;
    Ok(Property {
        key,
        value: Value::Text(text),
    })
}

// A frozen object with a text.
fn object(alloc: Global) -> Result<Node, NoMemory> {
    let properties = one(alloc, property(alloc)?)?;
    Ok(Node {
        kind: Kind::Plain,
        prototype: Value::Null,
        frozen: true,
        properties: Items::from_vec(properties),
        elements: Items::from_vec(Vec::new(alloc)),
    })
}

// A function, the scope that it closes over, and an object with a text.
fn nodes(alloc: Global) -> Result<Vec<Node>, NoMemory> {
    let mut nodes = one(alloc, function(alloc)?)?;
    nodes.push(scope(alloc)?)?;
    nodes.push(object(alloc)?)?;
    Ok(nodes)
}

fn kind_at(nodes: &[Node], at: usize) -> Option<Kind> {
    nodes.get(at).map(|node| node.kind)
}

// The number in the first element of a node: an integer, or the number of a node.
fn first_number(nodes: &[Node], at: usize) -> Option<i64> {
    match nodes.get(at)?.elements.as_slice().first() {
        Some(Value::Int(number)) => Some(*number),
        Some(Value::Node(number)) => Some(i64::from(*number)),
        _ => None,
    }
}

#[test]
fn holds_nodes(rt: HostRuntime) -> Result<(), Fail> {
    let graph = Graph {
        nodes: Items::from_vec(nodes(rt.alloc())?),
    };
    let nodes = graph.nodes.as_slice();
    let function = Kind::Function { script: 0, tree: 3 };
    let scope = Kind::Scope {
        scope: ScopeKind::Block,
    };
    assert_eq!(rt; nodes.len(), 3);
    assert_eq!(rt; kind_at(nodes, 0), Some(function));
    assert_eq!(rt; kind_at(nodes, 1), Some(scope));
    assert_eq!(rt; kind_at(nodes, 2), Some(Kind::Plain));
    assert_eq!(rt; first_number(nodes, 0), Some(1));
    assert_eq!(rt; first_number(nodes, 1), Some(-5));
    assert_eq!(rt; first_number(nodes, 2), None);
    Ok(())
}

// Whether a list of these items lends them and gives them back.
fn lends_and_gives_back(alloc: Global, given: &[u32]) -> Result<bool, NoMemory> {
    let items = Items::from_vec(Vec::from_slice(alloc, given)?);
    let lent = items.as_slice() == given;
    Ok(lent && items.into_vec().as_slice() == given)
}

#[test]
fn keeps_items(rt: HostRuntime) -> Result<(), Fail> {
    assert!(rt; lends_and_gives_back(rt.alloc(), &[3, 1, 2])?);
    Ok(())
}

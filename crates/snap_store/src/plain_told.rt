//! What is kept, as a graph.

ghost use Rattle.std.specs.Prelude.{◌≡◌, All, IfOk, length, map};
ghost use Rattle.snap_store.specs.Plain.{IsNodeWithin, IsWithin, node_in, nodes_in, property_in, value_in};

use crate::plain_node::{PlainNode, PlainProperty, PlainValue};
use snap_arena::Arena;
use snap_graph::{Graph, Items, Node, Property, Value};
use snap_text::{NoMemory, Units};
use std::alloc::Global;

// A value, copied.
pub(crate) fn told_value(alloc: Global, texts: &Arena, held: PlainValue) -> Result<Value, NoMemory>
    requires { IsWithin texts.now held }
    ensures { IfOk result (λ value. value ≡ value_in texts.now held) }
{
    Ok(match held {
        PlainValue::Undefined => Value::Undefined,
        PlainValue::Null => Value::Null,
        PlainValue::Bool(truth) => Value::Bool(truth),
        PlainValue::Int(number) => Value::Int(number),
        PlainValue::Text(held) => Value::Text(texts.view(held).copy(alloc)?),
        PlainValue::Node(node) => Value::Node(node),
        PlainValue::Empty => Value::Empty,
    })
}

fn told_values(
    alloc: Global,
    texts: &Arena,
    values: &[PlainValue],
) -> Result<Items<Value>, NoMemory>
    requires { All (IsWithin texts.now) values.now }
    ensures { IfOk result (λ told. told ≡ map (value_in texts.now) values.now) }
{
    let mut told = Vec::new(alloc);
    for held in values {
        told.push(told_value(alloc, texts, *held)?)?;
    }
    Ok(Items::from_vec(told))
}

fn told_properties(
    alloc: Global,
    texts: &Arena,
    properties: &[PlainProperty],
) -> Result<Items<Property>, NoMemory>
    requires { All (λ property. IsWithin texts.now property.value) properties.now }
    ensures { IfOk result (λ told. told ≡ map (property_in texts.now) properties.now) }
{
    let mut told = Vec::new(alloc);
    for property in properties {
        let key = Units::of(alloc, property.key.units())?;
        let value = told_value(alloc, texts, property.value)?;
        told.push(Property { key, value })?;
    }
    Ok(Items::from_vec(told))
}

fn told_node(alloc: Global, texts: &Arena, node: &PlainNode) -> Result<Node, NoMemory>
    requires { IsNodeWithin texts.now node.now }
    ensures { IfOk result (λ told. told ≡ node_in texts.now node.now) }
{
    Ok(Node {
        kind: node.kind,
        prototype: told_value(alloc, texts, node.prototype)?,
        frozen: node.frozen,
        properties: told_properties(alloc, texts, node.properties.as_slice())?,
        elements: told_values(alloc, texts, node.elements.as_slice())?,
    })
}

// The nodes, copied.
pub(crate) fn told_graph(
    alloc: Global,
    texts: &Arena,
    nodes: &[PlainNode],
) -> Result<Graph, NoMemory>
    requires { All (IsNodeWithin texts.now) nodes.now }
    ensures { IfOk result (λ told. told.nodes ≡ nodes_in texts.now nodes.now) }
{
    let mut told = Vec::new(alloc);
    for node in nodes {
        told.push(told_node(alloc, texts, node)?)?;
    }
    Ok(Graph {
        nodes: Items::from_vec(told),
    })
}

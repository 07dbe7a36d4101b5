//! A graph, as it is kept.
#![tactic(auto, using(snap_arena::specs::Laws::extends_itself))]

ghost use Rattle.std.specs.Prelude.{ℕ, All, IfOk, List, Option};
ghost use Rattle.snap_arena.specs.Texts.{Extends};
ghost use Rattle.snap_store.specs.Keyed.{AreNodesKeyed, IsKeyed, IsNodeKeyed};
ghost use Rattle.snap_store.specs.Kept.{AreKept, AreNodesKept, ArePropertiesKept, IsKept, IsNodeKept};
ghost use Rattle.snap_text.specs.declared.key.Key.{Key};

use crate::plain_node::{PlainNode, PlainProperty, PlainValue};
use snap_arena::Arena;
use snap_graph::{Items, Node, Property, Value};
use snap_text::NoMemory;
use std::alloc::Global;

// A value, with its text in the arena.
fn kept_value(texts: &mut Arena, value: Value) -> Result<PlainValue, NoMemory>
    ensures texts { Extends texts.old texts.new }
    ensures kept { IfOk result (λ held. IsKept texts.new held value) }
{
    Ok(match value {
        Value::Undefined => PlainValue::Undefined,
        Value::Null => PlainValue::Null,
        Value::Bool(truth) => PlainValue::Bool(truth),
        Value::Int(number) => PlainValue::Int(number),
        Value::Text(text) => PlainValue::Text(texts.hold(text.units())?),
        Value::Node(node) => PlainValue::Node(node),
        Value::Empty => PlainValue::Empty,
    })
}

fn kept_values(
    alloc: Global,
    texts: &mut Arena,
    values: Items<Value>,
) -> Result<Vec<PlainValue>, NoMemory>
    ensures texts { Extends texts.old texts.new }
    ensures kept { IfOk result (λ kept. AreKept texts.new kept.items values) }
{
    let mut kept = Vec::new(alloc);
    for value in values.into_vec() {
        kept.push(kept_value(texts, value)?)?;
    }
    Ok(kept)
}

fn kept_properties(
    alloc: Global,
    texts: &mut Arena,
    properties: Items<Property>,
) -> Result<Vec<PlainProperty>, NoMemory>
    ensures texts { Extends texts.old texts.new }
    ensures kept { IfOk result (λ kept. ArePropertiesKept texts.new kept.items properties) }
    ensures keyed { IfOk result (λ kept. (key_of : List ℕ → Option Key) → All (IsKeyed key_of) kept.items) }
{
    let mut kept = Vec::new(alloc);
    for property in properties.into_vec() {
        let Property { key, value } = property;
        let value = kept_value(texts, value)?;
        let known = None;
        kept.push(PlainProperty { key, known, value })?;
    }
    Ok(kept)
}

// A node. Where it has 2^32 elements or more, the answer is want of memory.
fn kept_node(alloc: Global, texts: &mut Arena, node: Node) -> Result<PlainNode, NoMemory>
    ensures texts { Extends texts.old texts.new }
    ensures kept { IfOk result (λ kept. IsNodeKept texts.new kept node) }
    ensures keyed { IfOk result (λ kept. (key_of : List ℕ → Option Key) → IsNodeKeyed key_of kept) }
{
    let Node {
        kind,
        prototype,
        frozen,
        properties,
        elements,
    } = node;
    if elements.as_slice().len() > u32::MAX as usize {
        return Err(NoMemory);
    }
    let prototype = kept_value(texts, prototype)?;
    let properties = kept_properties(alloc, texts, properties)?;
    let elements = kept_values(alloc, texts, elements)?;
    Ok(PlainNode {
        kind,
        prototype,
        frozen,
        properties,
        elements,
    })
}

// The nodes, with their texts in the arena.
pub(crate) fn kept_nodes(
    alloc: Global,
    texts: &mut Arena,
    nodes: Items<Node>,
) -> Result<Vec<PlainNode>, NoMemory>
    ensures texts { Extends texts.old texts.new }
    ensures kept { IfOk result (λ kept. AreNodesKept texts.new kept.items nodes) }
    ensures keyed { IfOk result (λ kept. (key_of : List ℕ → Option Key) → AreNodesKeyed key_of kept.items) }
{
    let mut kept = Vec::new(alloc);
    for node in nodes.into_vec() {
        kept.push(kept_node(alloc, texts, node)?)?;
    }
    Ok(kept)
}

//! The texts and nodes of a plain store.
#![tactic(auto, using(snap_arena::specs::Laws::extends_itself))]

ghost use Rattle.std.specs.Coded.{le_prop};
ghost use Rattle.std.specs.Prelude.{◌≤◌, ◌^◌, All, length};
ghost use Rattle.snap_graph.specs.Lawful.{IsLawful};
ghost use Rattle.snap_store.specs.Plain.{IsNodeWithin, nodes_in, nodes_within-prop};
ghost use Rattle.snap_store.specs.Unique.{IsLawful-prop};

use crate::fault::StoreFault;
use crate::intrinsic_nodes::intrinsics;
use crate::plain_kept::kept_nodes;
use crate::plain_node::{PlainNode, PlainProperty, PlainValue};
use crate::plain_order::keys_in_order;
use crate::plain_told::{told_graph, told_value};
use snap_arena::{Arena, HeldText, JoinFault, TextView};
use snap_base::{MOST_ITEMS, MOST_PRIVATE_NODES, MOST_PROPERTIES};
use snap_graph::{Graph, Kind, Value};
use snap_text::{Key, NoMemory, Units};
use std::alloc::Global;

// The texts and nodes of a plain store. What they stand for is `heap_nodes`.
#[derive(Drop)]
pub(crate) struct PlainHeap {
    alloc: Global,
    texts: Arena,
    nodes: Vec<PlainNode>,
    private_nodes: u32,
    ghost lawful: { IsLawful (nodes_in texts nodes.items) } by { IsLawful-prop _ },
    ghost within: { All (IsNodeWithin texts) nodes.items } by { nodes_within-prop _ _ },
    ghost few: { length nodes.items ≤ 2 ^ 32 } by { le_prop },
}

impl PlainHeap {
    ghost use Rattle.std.specs.Prelude.{◌≡◌, ◌<◌, ◌+◌, ◌-◌, ◌++◌, ◌∷◌, [], ℕ, List, false, Option, None, Some, IfSome, IfOk, OnOk, OnErr, drop, slice_get, take};
    ghost use Rattle.std.specs.Option.{option_map};
    ghost use Rattle.snap_arena.specs.Texts.{IsHeld, is_too_long, text_in};
    ghost use Rattle.snap_arena.specs.Views.{units};
    ghost use Rattle.snap_graph.specs.declared.kind.Kind.TheVariants.{Array, Native};
    ghost use Rattle.snap_graph.specs.declared.value.Value.TheVariants.{Text};
    ghost use Rattle.snap_graph.specs.Intrinsics.{IsNative, intrinsics};
    ghost use Rattle.snap_graph.specs.Lawful.{IsElementKey, IsPrototype};
    ghost use Rattle.snap_graph.specs.Values.{IsPlace, IsValue};
    ghost use Rattle.snap_store.specs.Calls.{EndsWhere, IsResource, MakesWhere, MayStandIn, has_room, is_full, is_long};
    ghost use Rattle.snap_store.specs.Keyed.{AreNodesKeyed, IsKeyed};
    ghost use Rattle.snap_store.specs.Plain.{IsPlaceOf, value_in};
    ghost use Rattle.snap_store.specs.PlainHeaps.{Follows, HeapOwns, heap_nodes, heap_properties};
    ghost use Rattle.snap_text.specs.declared.key.Key.{Key};
    ghost use Rattle.spec_values.specs.Operations.{elements_of, is_frozen, kind_of, new_node, own_keys_of, own_value, prototype_of, with_closed, with_element, with_fewer, with_frozen, with_more, with_own, without_own};

    // The intrinsics alone.
    pub(crate) fn new(alloc: Global) -> Result<PlainHeap, NoMemory>
        ensures nodes { IfOk result (λ heap. heap_nodes heap ≡ intrinsics) }
        ensures private_nodes { IfOk result (λ heap. heap.private_nodes ≡ 0) }
        ensures keyed { IfOk result (λ heap. (key_of : List ℕ → Option Key) → AreNodesKeyed key_of heap.nodes.items) }
    {
        match intrinsics(alloc) {
            Ok(graph) => PlainHeap::of(alloc, graph, 0),
            Err(_) => Err(NoMemory),
        }
    }

    // The texts and nodes of a graph. Past `u32::MAX` nodes the answer is want of memory.
    pub(crate) fn of(alloc: Global, graph: Graph, private_nodes: u32) -> Result<PlainHeap, NoMemory>
        requires { IsLawful graph.nodes }
        ensures nodes { IfOk result (λ heap. heap_nodes heap ≡ graph.nodes) }
        ensures private_nodes { IfOk result (λ heap. heap.private_nodes ≡ private_nodes) }
        ensures keyed { IfOk result (λ heap. (key_of : List ℕ → Option Key) → AreNodesKeyed key_of heap.nodes.items) }
    {
        let Graph { nodes } = graph;
        let mut texts = Arena::new(alloc);
        let nodes = kept_nodes(alloc, &mut texts, nodes)?;
        if nodes.len() > u32::MAX as usize {
            return Err(NoMemory);
        }
        Ok(PlainHeap {
            alloc,
            texts,
            nodes,
            private_nodes,
        })
    }

    // The graph that it stands for.
    pub(crate) fn graph(&self) -> Result<Graph, NoMemory>
        ensures { IfOk result (λ graph. graph.nodes ≡ heap_nodes self.now) }
    {
        told_graph(self.alloc, &self.texts, self.nodes.as_slice())
    }

    // A text, held.
    fn hold_text(&mut self, text: &Units) -> Result<HeldText, NoMemory>
        ensures held { IfOk result (IsHeld self.new.texts) }
        ensures text { IfOk result (λ held. text_in self.new.texts held ≡ text.now) }
        ensures nodes { heap_nodes self.new ≡ heap_nodes self.old }
        ensures private_nodes { self.new.private_nodes ≡ self.old.private_nodes }
        ensures keyed { (key_of : List ℕ → Option Key) → AreNodesKeyed key_of self.old.nodes.items → AreNodesKeyed key_of self.new.nodes.items }
        ensures later { Follows self.old self.new }
    {
        self.texts.hold(text.units())
    }

    // A view of a text that is held.
    pub(crate) fn text(&self, held: HeldText) -> TextView<'_>
        requires { IsHeld self.now.texts held }
        ensures { units result ≡ text_in self.now.texts held }
    {
        self.texts.view(held)
    }

    // Two texts, one behind the other.
    pub(crate) fn join(&mut self, left: HeldText, right: HeldText) -> Result<PlainValue, StoreFault>
        requires left { IsHeld self.old.texts left }
        requires right { IsHeld self.old.texts right }
        ensures fault { EndsWhere (is_too_long (text_in self.old.texts left) (text_in self.old.texts right)) result }
        ensures owned { IfOk result (HeapOwns self.new) }
        ensures meaning { IfOk result (λ held. value_in self.new.texts held ≡ Text (text_in self.old.texts left ++ text_in self.old.texts right)) }
        ensures nodes { heap_nodes self.new ≡ heap_nodes self.old }
        ensures private_nodes { self.new.private_nodes ≡ self.old.private_nodes }
        ensures keyed { (key_of : List ℕ → Option Key) → AreNodesKeyed key_of self.old.nodes.items → AreNodesKeyed key_of self.new.nodes.items }
        ensures later { Follows self.old self.new }
    {
        match self.texts.join(left, right) {
            Ok(held) => Ok(PlainValue::Text(held)),
            Err(JoinFault::TooLong) => Err(StoreFault::TooLong),
            Err(JoinFault::NoMemory) => Err(StoreFault::NoMemory),
        }
    }

    // The part of a text from one place to another.
    pub(crate) fn part(&self, held: HeldText, from: u32, to: u32) -> PlainValue
        requires held { IsHeld self.now.texts held }
        requires order { from ≤ to }
        requires within { to ≤ length (text_in self.now.texts held) }
        ensures owned { HeapOwns self.now result }
        ensures meaning { value_in self.now.texts result ≡ Text (take (to - from) (drop from (text_in self.now.texts held))) }
    {
        PlainValue::Text(self.texts.part(held, from, to))
    }

    // A value, held.
    pub(crate) fn hold(&mut self, value: &Value) -> Result<PlainValue, NoMemory>
        requires { IsPlace (length (heap_nodes self.old)) value.now }
        ensures owned { IfOk result (HeapOwns self.new) }
        ensures meaning { IfOk result (λ held. value_in self.new.texts held ≡ value.now) }
        ensures nodes { heap_nodes self.new ≡ heap_nodes self.old }
        ensures private_nodes { self.new.private_nodes ≡ self.old.private_nodes }
        ensures keyed { (key_of : List ℕ → Option Key) → AreNodesKeyed key_of self.old.nodes.items → AreNodesKeyed key_of self.new.nodes.items }
        ensures later { Follows self.old self.new }
    {
        Ok(match value {
            Value::Undefined => PlainValue::Undefined,
            Value::Null => PlainValue::Null,
            Value::Bool(truth) => PlainValue::Bool(*truth),
            Value::Int(number) => PlainValue::Int(*number),
            Value::Text(text) => PlainValue::Text(self.hold_text(text)?),
            Value::Node(node) => PlainValue::Node(*node),
            Value::Empty => PlainValue::Empty,
        })
    }

    // The value that a held value stands for.
    pub(crate) fn value(&self, held: PlainValue) -> Result<Value, NoMemory>
        requires { HeapOwns self.now held }
        ensures { IfOk result (λ value. value ≡ value_in self.now.texts held) }
    {
        told_value(self.alloc, &self.texts, held)
    }

    // Makes a node with nothing in it and answers its number. Where 2^32 nodes have one, the answer is want
    // of memory.
    pub(crate) fn make(&mut self, kind: Kind, prototype: PlainValue) -> Result<u32, StoreFault>
        requires owned { HeapOwns self.old prototype }
        requires prototype { IsPrototype (heap_nodes self.old) kind (value_in self.old.texts prototype) }
        requires native { (number : ℕ) → kind ≡ Native number → IsNative number }
        ensures fault { MakesWhere (has_room self.old.private_nodes) result }
        ensures number { IfOk result (λ number. number ≡ length (heap_nodes self.old)) }
        ensures nodes { OnOk result (heap_nodes self.new
            ≡ heap_nodes self.old ++ new_node kind (value_in self.old.texts prototype) ∷ []) }
        ensures private_nodes { OnOk result (self.new.private_nodes ≡ self.old.private_nodes + 1) }
        ensures err { OnErr result ((heap_nodes self.new ≡ heap_nodes self.old) × (self.new.private_nodes ≡ self.old.private_nodes)) }
        ensures keyed { (key_of : List ℕ → Option Key) → AreNodesKeyed key_of self.old.nodes.items → AreNodesKeyed key_of self.new.nodes.items }
        ensures later { Follows self.old self.new }
    {
        if self.private_nodes >= MOST_PRIVATE_NODES {
            return Err(StoreFault::TooManyNodes);
        }
        let number = self.nodes.len();
        if number > u32::MAX as usize {
            return Err(StoreFault::NoMemory);
        }
        let made = PlainNode {
            kind,
            prototype,
            frozen: false,
            properties: Vec::new(self.alloc),
            elements: Vec::new(self.alloc),
        };
        self.nodes.push(made)?;
        self.private_nodes += 1;
        Ok(number as u32)
    }

    // What a node is.
    pub(crate) fn kind(&self, node: u32) -> Kind
        requires { node < length (heap_nodes self.now) }
        ensures { kind_of (heap_nodes self.now) node ≡ Some result }
    {
        self.nodes[node as usize].kind
    }

    // The prototype of a node.
    pub(crate) fn prototype(&self, node: u32) -> PlainValue
        requires { node < length (heap_nodes self.now) }
        ensures owned { HeapOwns self.now result }
        ensures meaning { prototype_of (heap_nodes self.now) node ≡ Some (value_in self.now.texts result) }
    {
        self.nodes[node as usize].prototype
    }

    // Whether a node is frozen.
    pub(crate) fn is_frozen(&self, node: u32) -> bool
        requires { node < length (heap_nodes self.now) }
        ensures { result ≡ is_frozen (heap_nodes self.now) node }
    {
        self.nodes[node as usize].frozen
    }

    // Freezes a node.
    pub(crate) fn freeze(&mut self, node: u32)
        requires { node < length (heap_nodes self.old) }
        ensures nodes { heap_nodes self.new ≡ with_frozen (heap_nodes self.old) node }
        ensures private_nodes { self.new.private_nodes ≡ self.old.private_nodes }
        ensures keyed { (key_of : List ℕ → Option Key) → AreNodesKeyed key_of self.old.nodes.items → AreNodesKeyed key_of self.new.nodes.items }
        ensures later { Follows self.old self.new }
    {
        self.nodes[node as usize].freeze();
    }

    // Closes a resource.
    pub(crate) fn close(&mut self, node: u32)
        requires number { node < length (heap_nodes self.old) }
        requires kind { IfSome (kind_of (heap_nodes self.old) node) IsResource }
        ensures nodes { heap_nodes self.new ≡ with_closed (heap_nodes self.old) node }
        ensures private_nodes { self.new.private_nodes ≡ self.old.private_nodes }
        ensures keyed { (key_of : List ℕ → Option Key) → AreNodesKeyed key_of self.old.nodes.items → AreNodesKeyed key_of self.new.nodes.items }
        ensures later { Follows self.old self.new }
    {
        self.nodes[node as usize].close();
    }

    // The properties of a node.
    pub(crate) fn properties(&self, node: u32) -> &[PlainProperty]
        requires { node < length (heap_nodes self.now) }
        ensures value { result.now ≡ heap_properties self.now node }
        ensures keyed { (key_of : List ℕ → Option Key) → AreNodesKeyed key_of self.now.nodes.items → All (IsKeyed key_of) result.now }
    {
        self.nodes[node as usize].properties.as_slice()
    }

    // What the property at a place holds.
    pub(crate) fn property(&self, node: u32, place: usize) -> PlainValue
        requires number { node < length (heap_nodes self.now) }
        requires place { place < length (heap_properties self.now node) }
        ensures owned { HeapOwns self.now result }
        ensures meaning { (key : List ℕ) → IsPlaceOf key (heap_properties self.now node) (Some place)
            → own_value (heap_nodes self.now) node key ≡ Some (value_in self.now.texts result) }
    {
        self.nodes[node as usize].properties[place].value
    }

    // Writes the property at a place.
    pub(crate) fn write(&mut self, node: u32, place: usize, held: PlainValue)
        requires number { node < length (heap_nodes self.old) }
        requires frozen { is_frozen (heap_nodes self.old) node ≡ false }
        requires place { (key : List ℕ) × IsPlaceOf key (heap_properties self.old node) (Some place)
            × (kind_of (heap_nodes self.old) node ≡ Some Array → IsElementKey key → ⊥) }
        requires owned { HeapOwns self.old held }
        requires value { IsValue (length (heap_nodes self.old)) (value_in self.old.texts held) }
        ensures nodes { (key : List ℕ) → IsPlaceOf key (heap_properties self.old node) (Some place)
            → heap_nodes self.new ≡ with_own (heap_nodes self.old) node key (value_in self.old.texts held) }
        ensures private_nodes { self.new.private_nodes ≡ self.old.private_nodes }
        ensures keyed { (key_of : List ℕ → Option Key) → AreNodesKeyed key_of self.old.nodes.items → AreNodesKeyed key_of self.new.nodes.items }
        ensures later { Follows self.old self.new }
    {
        self.nodes[node as usize].write(place, held);
    }

    // Creates a property behind all others of a node.
    pub(crate) fn create(
        &mut self,
        node: u32,
        key: Units,
        known: Key,
        held: PlainValue,
    ) -> Result<(), StoreFault>
        requires number { node < length (heap_nodes self.old) }
        requires frozen { is_frozen (heap_nodes self.old) node ≡ false }
        requires place { IsPlaceOf key (heap_properties self.old node) None }
        requires element { kind_of (heap_nodes self.old) node ≡ Some Array → IsElementKey key → ⊥ }
        requires owned { HeapOwns self.old held }
        requires value { IsValue (length (heap_nodes self.old)) (value_in self.old.texts held) }
        ensures fault { EndsWhere (is_full (heap_nodes self.old) node key) result }
        ensures nodes { OnOk result (heap_nodes self.new ≡ with_own (heap_nodes self.old) node key (value_in self.old.texts held)) }
        ensures err { OnErr result (heap_nodes self.new ≡ heap_nodes self.old) }
        ensures private_nodes { self.new.private_nodes ≡ self.old.private_nodes }
        ensures keyed { (key_of : List ℕ → Option Key) → key_of key ≡ Some known → AreNodesKeyed key_of self.old.nodes.items → AreNodesKeyed key_of self.new.nodes.items }
        ensures later { Follows self.old self.new }
    {
        if self.properties(node).len() >= MOST_PROPERTIES as usize {
            return Err(StoreFault::TooLong);
        }
        self.nodes[node as usize].create(key, known, held)?;
        Ok(())
    }

    // Removes the property at a place.
    pub(crate) fn remove(&mut self, node: u32, place: usize)
        requires number { node < length (heap_nodes self.old) }
        requires frozen { is_frozen (heap_nodes self.old) node ≡ false }
        requires place { (key : List ℕ) × IsPlaceOf key (heap_properties self.old node) (Some place) }
        ensures nodes { (key : List ℕ) → IsPlaceOf key (heap_properties self.old node) (Some place)
            → heap_nodes self.new ≡ without_own (heap_nodes self.old) node key }
        ensures private_nodes { self.new.private_nodes ≡ self.old.private_nodes }
        ensures keyed { (key_of : List ℕ → Option Key) → AreNodesKeyed key_of self.old.nodes.items → AreNodesKeyed key_of self.new.nodes.items }
        ensures later { Follows self.old self.new }
    {
        self.nodes[node as usize].remove(place);
    }

    // The keys of a node's own properties, in the order of own keys.
    pub(crate) fn own_keys(&self, node: u32) -> Result<Vec<Units>, NoMemory>
        requires { node < length (heap_nodes self.now) }
        ensures { IfOk result (λ keys. keys.items ≡ own_keys_of (heap_nodes self.now) node) }
    {
        keys_in_order(self.alloc, self.properties(node))
    }

    // How many elements a node has.
    pub(crate) fn count(&self, node: u32) -> u32
        requires { node < length (heap_nodes self.now) }
        ensures { result ≡ length (elements_of (heap_nodes self.now) node) }
    {
        self.nodes[node as usize].elements.len() as u32
    }

    // An element of a node.
    pub(crate) fn element(&self, node: u32, i: u32) -> PlainValue
        requires number { node < length (heap_nodes self.now) }
        requires place { i < length (elements_of (heap_nodes self.now) node) }
        ensures owned { HeapOwns self.now result }
        ensures meaning { slice_get (elements_of (heap_nodes self.now) node) i ≡ Some (value_in self.now.texts result) }
    {
        self.nodes[node as usize].elements[i as usize]
    }

    // Writes an element.
    pub(crate) fn set_element(&mut self, node: u32, i: u32, held: PlainValue)
        requires number { node < length (heap_nodes self.old) }
        requires place { i < length (elements_of (heap_nodes self.old) node) }
        requires owned { HeapOwns self.old held }
        requires value { MayStandIn (heap_nodes self.old) node (value_in self.old.texts held) }
        ensures nodes { heap_nodes self.new ≡ with_element (heap_nodes self.old) node i (value_in self.old.texts held) }
        ensures private_nodes { self.new.private_nodes ≡ self.old.private_nodes }
        ensures keyed { (key_of : List ℕ → Option Key) → AreNodesKeyed key_of self.old.nodes.items → AreNodesKeyed key_of self.new.nodes.items }
        ensures later { Follows self.old self.new }
    {
        self.nodes[node as usize].set_element(i as usize, held);
    }

    // Puts an element behind the others.
    pub(crate) fn push_element(&mut self, node: u32, held: PlainValue) -> Result<(), StoreFault>
        requires number { node < length (heap_nodes self.old) }
        requires owned { HeapOwns self.old held }
        requires value { MayStandIn (heap_nodes self.old) node (value_in self.old.texts held) }
        ensures fault { EndsWhere (is_long (heap_nodes self.old) node) result }
        ensures nodes { OnOk result (heap_nodes self.new ≡ with_more (heap_nodes self.old) node (value_in self.old.texts held)) }
        ensures err { OnErr result (heap_nodes self.new ≡ heap_nodes self.old) }
        ensures private_nodes { self.new.private_nodes ≡ self.old.private_nodes }
        ensures keyed { (key_of : List ℕ → Option Key) → AreNodesKeyed key_of self.old.nodes.items → AreNodesKeyed key_of self.new.nodes.items }
        ensures later { Follows self.old self.new }
    {
        if self.kind(node) == Kind::Array && self.count(node) >= MOST_ITEMS {
            return Err(StoreFault::TooLong);
        }
        self.nodes[node as usize].push_element(held)?;
        Ok(())
    }

    // Takes the last element of an array, if there is one.
    pub(crate) fn pop_element(&mut self, node: u32) -> Option<PlainValue>
        requires number { node < length (heap_nodes self.old) }
        requires kind { kind_of (heap_nodes self.old) node ≡ Some Array }
        requires frozen { is_frozen (heap_nodes self.old) node ≡ false }
        ensures owned { IfSome result (HeapOwns self.new) }
        ensures meaning { option_map (value_in self.new.texts) result
            ≡ slice_get (elements_of (heap_nodes self.old) node) (length (elements_of (heap_nodes self.old) node) - 1) }
        ensures nodes { heap_nodes self.new ≡ with_fewer (heap_nodes self.old) node }
        ensures private_nodes { self.new.private_nodes ≡ self.old.private_nodes }
        ensures keyed { (key_of : List ℕ → Option Key) → AreNodesKeyed key_of self.old.nodes.items → AreNodesKeyed key_of self.new.nodes.items }
        ensures later { Follows self.old self.new }
    {
        self.nodes[node as usize].pop_element()
    }

    // How many nodes are private.
    pub(crate) fn private_nodes(&self) -> u32
        ensures { result ≡ self.now.private_nodes }
    {
        self.private_nodes
    }
}

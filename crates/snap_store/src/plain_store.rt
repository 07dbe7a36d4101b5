//! Stores that keep plain lists.
#![tactic(auto, using(snap_arena::specs::Laws::extends_itself))]

ghost use Rattle.snap_text.specs.Keys.{Keeps};
ghost use Rattle.snap_store.specs.Keyed.{AreNodesKeyed, AreNodesKeyed-prop};
ghost use Rattle.snap_store.specs.Plain.{value_in};
ghost use Rattle.std.specs.Prelude.{◌≡◌, ℕ, List, length};

use crate::fault::StoreFault;
use crate::plain_heap::PlainHeap;
use crate::plain_node::PlainValue;
use crate::plain_place::place_of;
use crate::store::Store;
use snap_arena::TextView;
use snap_base::NoMemory;
use snap_graph::{Graph, Kind, Value};
use snap_text::{Key, Keys, Units};
use std::alloc::Global;

/// A store that keeps plain lists: nodes whose values are held ones, and texts in buffers that only grow.
/// A property is looked up by a scan of its node alone, which compares keys where both are known.
#[derive(Drop)]
pub struct PlainStore<K: Keys> {
    keys: K,
    heap: PlainHeap,
    ghost keyed: { AreNodesKeyed (K.key_of keys) heap.nodes.items } by { AreNodesKeyed-prop (K.key_of keys) heap.nodes.items },
}

/// Want of memory of `PlainStore::of`, which gives the keys back.
#[derive(Drop)]
pub struct NoRoom<K: Keys> {
    /// The keys.
    pub keys: K,
}

impl<K: Keys> PlainStore<K> {
    ghost use Rattle.std.specs.Prelude.{IfErr, IfOk};
    ghost use Rattle.snap_graph.specs.Intrinsics.{intrinsics};
    ghost use Rattle.snap_graph.specs.Lawful.{IsLawful};

    /// A store with these keys that stands for the intrinsics alone, of which none is private.
    pub fn new(alloc: Global, keys: K) -> Result<PlainStore<K>, NoMemory>
        ensures nodes { IfOk result (λ store. (⟦<PlainStore<K> as Store>⟧.view store).nodes ≡ intrinsics) }
        ensures private_nodes { IfOk result (λ store. (⟦<PlainStore<K> as Store>⟧.view store).private_nodes ≡ 0) }
        ensures keys { IfOk result (λ store. store.keys ≡ keys) }
    {
        match PlainHeap::new(alloc) {
            Ok(heap) => Ok(PlainStore { keys, heap }),
            Err(_) => Err(NoMemory),
        }
    }

    /// A store with these keys that stands for a graph, of which so many nodes are private.
    pub fn of(
        alloc: Global,
        keys: K,
        graph: Graph,
        private_nodes: u32,
    ) -> Result<PlainStore<K>, NoRoom<K>>
        requires { IsLawful graph.nodes }
        ensures nodes { IfOk result (λ store. (⟦<PlainStore<K> as Store>⟧.view store).nodes ≡ graph.nodes) }
        ensures private_nodes { IfOk result (λ store. (⟦<PlainStore<K> as Store>⟧.view store).private_nodes ≡ private_nodes) }
        ensures keys { IfOk result (λ store. store.keys ≡ keys) }
        ensures err { IfErr result (λ room. room.keys ≡ keys) }
    {
        match PlainHeap::of(alloc, graph, private_nodes) {
            Ok(heap) => Ok(PlainStore { keys, heap }),
            Err(_) => Err(NoRoom { keys }),
        }
    }

    /// The keys, which takes no memory.
    pub fn into_keys(self) -> K
        ensures { result ≡ self.keys }
    {
        let PlainStore { keys, heap: _ } = self;
        keys
    }

    /// The graph that the store stands for.
    pub fn graph(&self) -> Result<Graph, NoMemory>
        ensures { IfOk result (λ graph. graph.nodes ≡ (⟦<PlainStore<K> as Store>⟧.view self.now).nodes) }
    {
        match self.heap.graph() {
            Ok(graph) => Ok(graph),
            Err(_) => Err(NoMemory),
        }
    }
}

impl<K: Keys> Store for PlainStore<K> {
    type Held = PlainValue;

    ghost use Rattle.std.proofs.Common.{◌∙◌, refl};
    ghost use Rattle.snap_arena.specs.Laws.{extends_itself, extends_still};
    ghost use Rattle.snap_store.specs.Following.{few_nodes, fewer_still, not_fewer, own_after, value_still};
    ghost use Rattle.snap_store.specs.PlainHeaps.{Follows, HeapOwns, heap_nodes};

    ghost view = { λ store. record { nodes = heap_nodes store.heap; private_nodes = store.heap.private_nodes; log = K.log store.keys } };

    ghost owns = { λ store held. HeapOwns store.heap held };

    ghost meaning = { λ store held. value_in store.heap.texts held };

    ghost key_of = { λ store. K.key_of store.keys };

    ghost leaves_out = { λ store. K.leaves_out store.keys };

    ghost later = { λ first next. Follows first.heap next.heap
        × Keeps (K.key_of first.keys) (K.key_of next.keys)
        × ((text : List ℕ) → K.leaves_out next.keys text ≡ K.leaves_out first.keys text) };

    fn hold(&mut self, value: &Value) -> Result<PlainValue, NoMemory> {
        match self.heap.hold(value) {
            Ok(held) => Ok(held),
            Err(_) => Err(NoMemory),
        }
    }

    fn value(&self, held: &PlainValue) -> Result<Value, NoMemory> {
        match self.heap.value(*held) {
            Ok(value) => Ok(value),
            Err(_) => Err(NoMemory),
        }
    }

    fn text(&self, held: &PlainValue) -> Option<TextView<'_>> {
        match held {
            PlainValue::Text(text) => Some(self.heap.text(*text)),
            _ => None,
        }
    }

    fn join(&mut self, left: &PlainValue, right: &PlainValue) -> Result<PlainValue, StoreFault> {
        match (left, right) {
            (PlainValue::Text(left), PlainValue::Text(right)) => self.heap.join(*left, *right),
            _ => unreachable!(),
        }
    }

    fn part(&mut self, held: &PlainValue, from: u32, to: u32) -> Result<PlainValue, NoMemory> {
        match held {
            PlainValue::Text(text) => Ok(self.heap.part(*text, from, to)),
            _ => unreachable!(),
        }
    }

    fn make(&mut self, kind: Kind, prototype: &PlainValue) -> Result<u32, StoreFault> {
        self.heap.make(kind, *prototype)
    }

    fn kind(&self, node: u32) -> Kind {
        self.heap.kind(node)
    }

    fn prototype(&self, node: u32) -> PlainValue {
        self.heap.prototype(node)
    }

    fn is_frozen(&self, node: u32) -> bool {
        self.heap.is_frozen(node)
    }

    fn freeze(&mut self, node: u32) {
        self.heap.freeze(node);
    }

    fn close(&mut self, node: u32) {
        self.heap.close(node);
    }

    fn key(&mut self, text: &Units) -> Result<Key, NoMemory> {
        match self.keys.key(text) {
            Ok(key) => Ok(key),
            Err(_) => Err(NoMemory),
        }
    }

    fn used(&mut self, key: Key) -> Result<(), NoMemory> {
        match self.keys.used(key) {
            Ok(()) => Ok(()),
            Err(_) => Err(NoMemory),
        }
    }

    fn own(&self, node: u32, key: Key) -> Option<PlainValue> {
        match place_of(&self.keys, key, self.heap.properties(node)) {
            Some(place) => Some(self.heap.property(node, place)),
            None => None,
        }
    }

    fn put_own(&mut self, node: u32, key: Key, held: &PlainValue) -> Result<(), StoreFault> {
        match place_of(&self.keys, key, self.heap.properties(node)) {
            Some(place) => {
                self.heap.write(node, place, *held);
                Ok(())
            }
            None => {
                let text = self.keys.text(key)?;
                self.heap.create(node, text, key, *held)
            }
        }
    }

    fn write_own(&mut self, node: u32, key: Key, held: &PlainValue) -> bool {
        match place_of(&self.keys, key, self.heap.properties(node)) {
            Some(place) => {
                self.heap.write(node, place, *held);
                true
            }
            None => false,
        }
    }

    fn remove_own(&mut self, node: u32, key: Key) -> Result<bool, NoMemory> {
        match place_of(&self.keys, key, self.heap.properties(node)) {
            Some(place) => {
                self.heap.remove(node, place);
                Ok(true)
            }
            None => Ok(false),
        }
    }

    fn own_keys(&self, node: u32) -> Result<Vec<Units>, NoMemory> {
        match self.heap.own_keys(node) {
            Ok(keys) => Ok(keys),
            Err(_) => Err(NoMemory),
        }
    }

    fn count(&self, node: u32) -> u32 {
        self.heap.count(node)
    }

    fn element(&self, node: u32, i: u32) -> PlainValue {
        self.heap.element(node, i)
    }

    fn set_element(&mut self, node: u32, i: u32, held: &PlainValue) {
        self.heap.set_element(node, i, *held);
    }

    fn push_element(&mut self, node: u32, held: &PlainValue) -> Result<(), StoreFault> {
        self.heap.push_element(node, *held)
    }

    fn pop_element(&mut self, node: u32) -> Option<PlainValue> {
        self.heap.pop_element(node)
    }

    fn private_nodes(&self) -> u32 {
        self.heap.private_nodes()
    }

    ghost lawful = { λ store. store.heap.lawful };

    ghost few = { λ store. few_nodes store.heap.texts store.heap.nodes.items 4294967296 store.heap.few };

    ghost places = { λ store held owned. owned.1 };

    ghost one_text = { λ store. K.one_text store.keys };

    ghost at_once = { λ store. (
      (extends_itself store.heap.texts, not_fewer (length store.heap.nodes.items)),
      λ text key given. given,
      λ text. refl,
    ) };

    ghost later_still = { λ first next last one other. (
      (
        extends_still first.heap.texts next.heap.texts last.heap.texts one.0.0 other.0.0,
        fewer_still (length first.heap.nodes.items) (length next.heap.nodes.items) (length last.heap.nodes.items) one.0.1 other.0.1,
      ),
      λ text key given. other.1 text key (one.1 text key given),
      λ text. other.2 text ∙ one.2 text,
    ) };

    ghost stays_owned = { λ first next held later owned.
        own_after first.heap.texts next.heap.texts first.heap.nodes.items next.heap.nodes.items
        held later.0.0 later.0.1 owned };

    ghost keeps_meaning = { λ first next held later owned.
        value_still first.heap.texts next.heap.texts held later.0.0 owned.0 };

    ghost keeps_keys = { λ first next later. later.1 };

    ghost keeps_left_out = { λ first next text later. later.2 text };
}

//! A node as a plain store keeps it.

ghost use Rattle.std.specs.Prelude.{◌≡◌, ◌<◌, ◌-◌, ◌++◌, ◌∷◌, [], ℕ, List, AllPairs, Option, None, Some, OnOk, OnErr, ◌≢◌, length, slice_set, slice_get, take};
ghost use Rattle.spec_values.specs.Operations.{closed_kind};

use snap_arena::HeldText;
use snap_graph::Kind;
use snap_text::{Key, NoMemory, Units};

/// A value as a plain store keeps it: the units of a text stand in the store's arena.
#[derive(Clone, Copy, Debug, PartialEq, Eq)]
pub enum PlainValue {
    /// undefined
    Undefined,
    /// null
    Null,
    /// A truth value.
    Bool(bool),
    /// A safe integer.
    Int(i64),
    /// A text of the arena.
    Text(HeldText),
    /// The number of a node.
    Node(u32),
    /// The mark of an empty place.
    Empty,
}

// A property of a node: the text of its key, the store's key of that text where it is known, and what it holds.
#[derive(Drop)]
pub(crate) struct PlainProperty {
    pub(crate) key: Units,
    pub(crate) known: Option<Key>,
    pub(crate) value: PlainValue,
}

// A node. What it stands for is `node_in`.
#[derive(Drop)]
pub(crate) struct PlainNode {
    pub(crate) kind: Kind,
    pub(crate) prototype: PlainValue,
    pub(crate) frozen: bool,
    pub(crate) properties: Vec<PlainProperty>,
    pub(crate) elements: Vec<PlainValue>,
}

impl PlainNode {
    ghost use Rattle.snap_store.specs.Keyed.{IsNodeKeyed};
    ghost use Rattle.snap_store.specs.Plain.{IsNodeWithin, IsPlaceOf, IsWithin, node_in, value_in};
    ghost use Rattle.snap_text.specs.declared.key.Key.{Key};
    ghost use Rattle.spec_values.specs.Operations.{closed_node, frozen_node, put_under, remove_under, with_elements, with_properties};

    // Freezes the node.
    pub(crate) fn freeze(&mut self)
        ensures means { (texts : List (List ℕ)) → node_in texts self.new ≡ frozen_node (node_in texts self.old) }
        ensures within { (texts : List (List ℕ)) → IsNodeWithin texts self.old → IsNodeWithin texts self.new }
        ensures keyed { (key_of : List ℕ → Option Key) → IsNodeKeyed key_of self.old → IsNodeKeyed key_of self.new }
    {
        self.frozen = true;
    }

    // Closes a resource.
    pub(crate) fn close(&mut self)
        ensures means { (texts : List (List ℕ)) → node_in texts self.new ≡ closed_node (node_in texts self.old) }
        ensures within { (texts : List (List ℕ)) → IsNodeWithin texts self.old → IsNodeWithin texts self.new }
        ensures keyed { (key_of : List ℕ → Option Key) → IsNodeKeyed key_of self.old → IsNodeKeyed key_of self.new }
    {
        self.kind = closed(self.kind);
    }

    // Writes the property at a place.
    pub(crate) fn write(&mut self, place: usize, value: PlainValue)
        requires { place < length self.old.properties.items }
        ensures means { (texts : List (List ℕ)) (key : List ℕ) → IsPlaceOf key self.old.properties.items (Some place)
            → node_in texts self.new ≡ with_properties (put_under key (value_in texts value)) (node_in texts self.old) }
        ensures within { (texts : List (List ℕ)) → IsNodeWithin texts self.old → IsWithin texts value → IsNodeWithin texts self.new }
        ensures keyed { (key_of : List ℕ → Option Key) → IsNodeKeyed key_of self.old → IsNodeKeyed key_of self.new }
    {
        self.properties[place].value = value;
    }

    // Creates a property behind all others.
    pub(crate) fn create(
        &mut self,
        key: Units,
        known: Key,
        value: PlainValue,
    ) -> Result<(), NoMemory>
        ensures means { OnOk result ((texts : List (List ℕ)) → IsPlaceOf key self.old.properties.items None
            → node_in texts self.new ≡ with_properties (put_under key (value_in texts value)) (node_in texts self.old)) }
        ensures err { OnErr result ((texts : List (List ℕ)) → node_in texts self.new ≡ node_in texts self.old) }
        ensures within { (texts : List (List ℕ)) → IsNodeWithin texts self.old → IsWithin texts value → IsNodeWithin texts self.new }
        ensures keyed { (key_of : List ℕ → Option Key) → key_of key ≡ Some known → IsNodeKeyed key_of self.old → IsNodeKeyed key_of self.new }
    {
        let known = Some(known);
        self.properties.push(PlainProperty { key, known, value })?;
        Ok(())
    }

    // Removes the property at a place.
    pub(crate) fn remove(&mut self, place: usize)
        requires { place < length self.old.properties.items }
        ensures means { (texts : List (List ℕ)) (key : List ℕ) → IsPlaceOf key self.old.properties.items (Some place)
            → AllPairs (λ one other. one.key ≢ other.key) self.old.properties.items
            → node_in texts self.new ≡ with_properties (remove_under key) (node_in texts self.old) }
        ensures within { (texts : List (List ℕ)) → IsNodeWithin texts self.old → IsNodeWithin texts self.new }
        ensures keyed { (key_of : List ℕ → Option Key) → IsNodeKeyed key_of self.old → IsNodeKeyed key_of self.new }
    {
        let _property = self.properties.remove(place);
    }

    // Writes an element.
    pub(crate) fn set_element(&mut self, place: usize, value: PlainValue)
        requires { place < length self.old.elements.items }
        ensures means { (texts : List (List ℕ))
            → node_in texts self.new
            ≡ with_elements (λ elements. slice_set elements place (value_in texts value)) (node_in texts self.old) }
        ensures within { (texts : List (List ℕ)) → IsNodeWithin texts self.old → IsWithin texts value → IsNodeWithin texts self.new }
        ensures keyed { (key_of : List ℕ → Option Key) → IsNodeKeyed key_of self.old → IsNodeKeyed key_of self.new }
    {
        self.elements[place] = value;
    }

    // Puts an element behind the others. Where there are 2^32 - 1 of them, the answer is want of memory.
    pub(crate) fn push_element(&mut self, value: PlainValue) -> Result<(), NoMemory>
        ensures means { OnOk result ((texts : List (List ℕ))
            → node_in texts self.new ≡ with_elements (λ elements. elements ++ value_in texts value ∷ []) (node_in texts self.old)) }
        ensures err { OnErr result ((texts : List (List ℕ)) → node_in texts self.new ≡ node_in texts self.old) }
        ensures within { (texts : List (List ℕ)) → IsNodeWithin texts self.old → IsWithin texts value → IsNodeWithin texts self.new }
        ensures keyed { (key_of : List ℕ → Option Key) → IsNodeKeyed key_of self.old → IsNodeKeyed key_of self.new }
    {
        if self.elements.len() >= u32::MAX as usize {
            return Err(NoMemory);
        }
        self.elements.push(value)?;
        Ok(())
    }

    // Takes the last element, if there is one.
    pub(crate) fn pop_element(&mut self) -> Option<PlainValue>
        ensures means { (texts : List (List ℕ))
            → node_in texts self.new ≡ with_elements (λ elements. take (length elements - 1) elements) (node_in texts self.old) }
        ensures taken { result ≡ slice_get self.old.elements.items (length self.old.elements.items - 1) }
        ensures within { (texts : List (List ℕ)) → IsNodeWithin texts self.old → IsNodeWithin texts self.new }
        ensures keyed { (key_of : List ℕ → Option Key) → IsNodeKeyed key_of self.old → IsNodeKeyed key_of self.new }
    {
        self.elements.pop()
    }
}

// A resource that is closed; any other kind stays.
fn closed(kind: Kind) -> Kind
    ensures { result ≡ closed_kind kind }
{
    match kind {
        Kind::Resource { number, closed: _ } => Kind::Resource {
            number,
            closed: true,
        },
        Kind::Plain
        | Kind::Array
        | Kind::Function { .. }
        | Kind::Native { .. }
        | Kind::Scope { .. }
        | Kind::Error
        | Kind::Map
        | Kind::Set => kind,
    }
}

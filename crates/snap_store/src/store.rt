//! Stores of heaps, whoever keeps them.

ghost use Rattle.std.specs.Prelude.{◌≡◌, ◌<◌, ◌≤◌, ◌-◌, ◌++◌, ℕ, List, Bool, false, Option, Some, is_some, IsOk, IsSome, IfOk, IfSome, OnOk, OnErr, drop, length, slice_get, take};
ghost use Rattle.std.specs.Bool.{OnFalse, OnTrue};
ghost use Rattle.std.specs.Option.{option_map};
ghost use Rattle.snap_arena.specs.Texts.{is_too_long};
ghost use Rattle.snap_arena.specs.Views.{units};
ghost use Rattle.snap_graph.specs.declared.kind.Kind.TheVariants.{Array, Native};
ghost use Rattle.snap_graph.specs.declared.value.Value.{Value};
ghost use Rattle.snap_graph.specs.declared.value.Value.TheVariants.{Text};
ghost use Rattle.snap_graph.specs.Intrinsics.{IsNative};
ghost use Rattle.snap_graph.specs.Lawful.{IsElementKey, IsLawful, IsPrototype};
ghost use Rattle.snap_graph.specs.Values.{IsPlace, IsValue};
ghost use Rattle.snap_store.specs.Calls.{EndsWhere, IsResource, MakesWhere, MayStandIn, has_room, is_full, is_long, text_units, units_in};
ghost use Rattle.snap_store.specs.View.{View, with_logged, with_made, with_nodes};
ghost use Rattle.snap_text.specs.declared.key.Key.{Key};
ghost use Rattle.snap_text.specs.Keys.{HasText, Keeps};
ghost use Rattle.spec_values.specs.Operations.{elements_of, is_frozen, kind_of, own_keys_of, own_value, prototype_of, with_closed, with_element, with_fewer, with_frozen, with_more, with_own, without_own};

use crate::fault::StoreFault;
use snap_arena::TextView;
use snap_base::NoMemory;
use snap_graph::{Kind, Value};
use snap_text::{Key, Units};

/// Keeps a heap, in whatever way. It stands for a heap at every call; a refused call leaves that heap as it was.
/// Nodes go by their numbers, property keys by what `key` answers, and values are held in a form of the store's
/// own.
pub trait Store {
    /// A value in the store's own form.
    type Held: Drop;

    /// What the store stands for: the nodes of a heap, how many of them are private, and the texts that were asked
    /// for, where the store tells them.
    ghost view: { Self → View };

    /// A held value is this store's own.
    ghost owns: { Self → Self.Held → Type 0 };

    /// The value that a held value stands for.
    ghost meaning: { Self → Self.Held → Value };

    /// The key of a text, where the text has one by now: from the start, or since `key` gave it.
    ghost key_of: { Self → List ℕ → Option Key };

    /// Whether a text is left out of the log.
    ghost leaves_out: { Self → List ℕ → Bool };

    /// One store has come of another by calls.
    ghost later: { Self → Self → Type 0 };

    /// A value, held.
    fn hold(&mut self, value: &Value) -> Result<Self::Held, NoMemory>
        requires { IsPlace (length (view self.old).nodes) value.now }
        ensures owned { IfOk result (λ held. owns self.new held) }
        ensures meaning { IfOk result (λ held. meaning self.new held ≡ value.now) }
        ensures view { view self.new ≡ view self.old }
        ensures later { later self.old self.new };

    /// The value that a held value stands for.
    fn value(&self, held: &Self::Held) -> Result<Value, NoMemory>
        requires { owns self.now held.now }
        ensures { IfOk result (λ value. value ≡ meaning self.now held.now) };

    /// A view of a text that is held; nothing where what is held is no text. Nothing is copied.
    fn text(&self, held: &Self::Held) -> Option<TextView<'_>>
        requires { owns self.now held.now }
        ensures { option_map units result ≡ text_units (meaning self.now held.now) };

    /// Two texts that are held, one behind the other, as one text.
    fn join(&mut self, left: &Self::Held, right: &Self::Held) -> Result<Self::Held, StoreFault>
        requires left { owns self.old left.now }
        requires left_text { IsSome (text_units (meaning self.old left.now)) }
        requires right { owns self.old right.now }
        requires right_text { IsSome (text_units (meaning self.old right.now)) }
        ensures fault { EndsWhere (is_too_long (units_in (meaning self.old left.now)) (units_in (meaning self.old right.now))) result }
        ensures owned { IfOk result (λ held. owns self.new held) }
        ensures meaning { IfOk result (λ held. meaning self.new held ≡ Text (units_in (meaning self.old left.now) ++ units_in (meaning self.old right.now))) }
        ensures view { view self.new ≡ view self.old }
        ensures later { later self.old self.new };

    /// The part of a text that is held, from one place to another, as a text.
    fn part(&mut self, held: &Self::Held, from: u32, to: u32) -> Result<Self::Held, NoMemory>
        requires owned { owns self.old held.now }
        requires text { IsSome (text_units (meaning self.old held.now)) }
        requires order { from ≤ to }
        requires within { to ≤ length (units_in (meaning self.old held.now)) }
        ensures owned { IfOk result (λ part. owns self.new part) }
        ensures meaning { IfOk result (λ part. meaning self.new part ≡ Text (take (to - from) (drop from (units_in (meaning self.old held.now))))) }
        ensures view { view self.new ≡ view self.old }
        ensures later { later self.old self.new };

    /// Makes a node with nothing in it and answers its number.
    fn make(&mut self, kind: Kind, prototype: &Self::Held) -> Result<u32, StoreFault>
        requires owned { owns self.old prototype.now }
        requires prototype { IsPrototype (view self.old).nodes kind (meaning self.old prototype.now) }
        requires native { (number : ℕ) → kind ≡ Native number → IsNative number }
        ensures fault { MakesWhere (has_room (view self.old).private_nodes) result }
        ensures number { IfOk result (λ number. number ≡ length (view self.old).nodes) }
        ensures ok { OnOk result (view self.new ≡ with_made (view self.old) kind (meaning self.old prototype.now)) }
        ensures err { OnErr result (view self.new ≡ view self.old) }
        ensures later { later self.old self.new };

    /// What a node is.
    fn kind(&self, node: u32) -> Kind
        requires { node < length (view self.now).nodes }
        ensures { kind_of (view self.now).nodes node ≡ Some result };

    /// The prototype of a node.
    fn prototype(&self, node: u32) -> Self::Held
        requires { node < length (view self.now).nodes }
        ensures owned { owns self.now result }
        ensures meaning { prototype_of (view self.now).nodes node ≡ Some (meaning self.now result) };

    /// Whether a node is frozen.
    fn is_frozen(&self, node: u32) -> bool
        requires { node < length (view self.now).nodes }
        ensures { result ≡ is_frozen (view self.now).nodes node };

    /// Freezes a node.
    fn freeze(&mut self, node: u32)
        requires { node < length (view self.old).nodes }
        ensures view { view self.new ≡ with_nodes (view self.old) (with_frozen (view self.old).nodes node) }
        ensures later { later self.old self.new };

    /// Closes a resource.
    fn close(&mut self, node: u32)
        requires number { node < length (view self.old).nodes }
        requires kind { IfSome (kind_of (view self.old).nodes node) IsResource }
        ensures view { view self.new ≡ with_nodes (view self.old) (with_closed (view self.old).nodes node) }
        ensures later { later self.old self.new };

    /// The key of a text. This call and `used` alone change the log.
    fn key(&mut self, text: &Units) -> Result<Key, NoMemory>
        ensures key { IfOk result (λ key. key_of self.new text.now ≡ Some key) }
        ensures ok { OnOk result (view self.new ≡ with_logged (leaves_out self.old) (view self.old) text.now) }
        ensures err { OnErr result (view self.new ≡ view self.old) }
        ensures later { later self.old self.new };

    /// Counts a use of a key that `key` gave: the log grows as `key` would have it grow for the key's text.
    fn used(&mut self, key: Key) -> Result<(), NoMemory>
        requires { HasText (key_of self.old) key }
        ensures ok { (text : List ℕ) → key_of self.old text ≡ Some key
            → OnOk result (view self.new ≡ with_logged (leaves_out self.old) (view self.old) text) }
        ensures err { OnErr result (view self.new ≡ view self.old) }
        ensures later { later self.old self.new };

    /// What a node holds under a key of its own.
    fn own(&self, node: u32, key: Key) -> Option<Self::Held>
        requires number { node < length (view self.now).nodes }
        requires key { HasText (key_of self.now) key }
        ensures owned { IfSome result (λ held. owns self.now held) }
        ensures meaning { (text : List ℕ) → key_of self.now text ≡ Some key
            → option_map (meaning self.now) result ≡ own_value (view self.now).nodes node text };

    /// Writes a property of a node, or creates it behind all others. A key that the node has takes no memory.
    fn put_own(&mut self, node: u32, key: Key, held: &Self::Held) -> Result<(), StoreFault>
        requires number { node < length (view self.old).nodes }
        requires frozen { is_frozen (view self.old).nodes node ≡ false }
        requires key { HasText (key_of self.old) key }
        requires element { kind_of (view self.old).nodes node ≡ Some Array
            → (text : List ℕ) → key_of self.old text ≡ Some key → IsElementKey text → ⊥ }
        requires owned { owns self.old held.now }
        requires value { IsValue (length (view self.old).nodes) (meaning self.old held.now) }
        ensures fault { (text : List ℕ) → key_of self.old text ≡ Some key → EndsWhere (is_full (view self.old).nodes node text) result }
        ensures known { (text : List ℕ) → key_of self.old text ≡ Some key → IsSome (own_value (view self.old).nodes node text) → IsOk result }
        ensures ok { (text : List ℕ) → key_of self.old text ≡ Some key
            → OnOk result (view self.new ≡ with_nodes (view self.old) (with_own (view self.old).nodes node text (meaning self.old held.now))) }
        ensures err { OnErr result (view self.new ≡ view self.old) }
        ensures later { later self.old self.new };

    /// Writes a property that a node has, in its place, and says whether it has it; otherwise nothing changes. It takes
    /// no memory.
    fn write_own(&mut self, node: u32, key: Key, held: &Self::Held) -> bool
        requires number { node < length (view self.old).nodes }
        requires frozen { is_frozen (view self.old).nodes node ≡ false }
        requires key { HasText (key_of self.old) key }
        requires element { kind_of (view self.old).nodes node ≡ Some Array
            → (text : List ℕ) → key_of self.old text ≡ Some key → IsElementKey text → ⊥ }
        requires owned { owns self.old held.now }
        requires value { IsValue (length (view self.old).nodes) (meaning self.old held.now) }
        ensures found { (text : List ℕ) → key_of self.old text ≡ Some key → result ≡ is_some (own_value (view self.old).nodes node text) }
        ensures written { (text : List ℕ) → key_of self.old text ≡ Some key
            → OnTrue result (view self.new ≡ with_nodes (view self.old) (with_own (view self.old).nodes node text (meaning self.old held.now))) }
        ensures absent { OnFalse result (view self.new ≡ view self.old) }
        ensures later { later self.old self.new };

    /// Removes a property of a node, and says whether there was one.
    fn remove_own(&mut self, node: u32, key: Key) -> Result<bool, NoMemory>
        requires number { node < length (view self.old).nodes }
        requires frozen { is_frozen (view self.old).nodes node ≡ false }
        requires key { HasText (key_of self.old) key }
        ensures found { (text : List ℕ) → key_of self.old text ≡ Some key
            → IfOk result (λ found. found ≡ is_some (own_value (view self.old).nodes node text)) }
        ensures ok { (text : List ℕ) → key_of self.old text ≡ Some key
            → OnOk result (view self.new ≡ with_nodes (view self.old) (without_own (view self.old).nodes node text)) }
        ensures err { OnErr result (view self.new ≡ view self.old) }
        ensures later { later self.old self.new };

    /// The texts of a node's own keys, in the order of own keys: array indices first, ascending, and then the others
    /// as they were created.
    fn own_keys(&self, node: u32) -> Result<Vec<Units>, NoMemory>
        requires { node < length (view self.now).nodes }
        ensures { IfOk result (λ keys. keys.items ≡ own_keys_of (view self.now).nodes node) };

    /// How many elements a node has.
    fn count(&self, node: u32) -> u32
        requires { node < length (view self.now).nodes }
        ensures { result ≡ length (elements_of (view self.now).nodes node) };

    /// An element of a node.
    fn element(&self, node: u32, i: u32) -> Self::Held
        requires number { node < length (view self.now).nodes }
        requires place { i < length (elements_of (view self.now).nodes node) }
        ensures owned { owns self.now result }
        ensures meaning { slice_get (elements_of (view self.now).nodes node) i ≡ Some (meaning self.now result) };

    /// Writes an element of an array that is not frozen, a function or a scope.
    fn set_element(&mut self, node: u32, i: u32, held: &Self::Held)
        requires number { node < length (view self.old).nodes }
        requires place { i < length (elements_of (view self.old).nodes node) }
        requires owned { owns self.old held.now }
        requires value { MayStandIn (view self.old).nodes node (meaning self.old held.now) }
        ensures view { view self.new ≡ with_nodes (view self.old) (with_element (view self.old).nodes node i (meaning self.old held.now)) }
        ensures later { later self.old self.new };

    /// Puts an element behind those of an array that is not frozen, a function or a scope.
    fn push_element(&mut self, node: u32, held: &Self::Held) -> Result<(), StoreFault>
        requires number { node < length (view self.old).nodes }
        requires owned { owns self.old held.now }
        requires value { MayStandIn (view self.old).nodes node (meaning self.old held.now) }
        ensures fault { EndsWhere (is_long (view self.old).nodes node) result }
        ensures ok { OnOk result (view self.new ≡ with_nodes (view self.old) (with_more (view self.old).nodes node (meaning self.old held.now))) }
        ensures err { OnErr result (view self.new ≡ view self.old) }
        ensures later { later self.old self.new };

    /// Takes the last element of an array that is not frozen, if there is one.
    fn pop_element(&mut self, node: u32) -> Option<Self::Held>
        requires number { node < length (view self.old).nodes }
        requires kind { kind_of (view self.old).nodes node ≡ Some Array }
        requires frozen { is_frozen (view self.old).nodes node ≡ false }
        ensures owned { IfSome result (λ held. owns self.new held) }
        ensures meaning { option_map (meaning self.new) result
            ≡ slice_get (elements_of (view self.old).nodes node) (length (elements_of (view self.old).nodes node) - 1) }
        ensures view { view self.new ≡ with_nodes (view self.old) (with_fewer (view self.old).nodes node) }
        ensures later { later self.old self.new };

    /// How many nodes are private.
    fn private_nodes(&self) -> u32
        ensures { result ≡ (view self.now).private_nodes };

    /// What the store stands for is a heap.
    ghost lawful: { (store : Self) → IsLawful (view store).nodes };

    /// There are 2^32 nodes at most, since the number of each has 32 bits.
    ghost few: { (store : Self) → length (view store).nodes ≤ 4294967296 };

    /// What a held value stands for may stand in a place of the heap.
    ghost places: { (store : Self) (held : Self.Held) → owns store held → IsPlace (length (view store).nodes) (meaning store held) };

    /// A key stands for one text.
    ghost one_text: { (store : Self) (key : Key) (text other : List ℕ)
        → key_of store text ≡ Some key → key_of store other ≡ Some key → text ≡ other };

    /// A store has come of itself by no call.
    ghost at_once: { (store : Self) → later store store };

    /// What comes of calls, and of calls again, comes of calls.
    ghost later_still: { (first next last : Self) → later first next → later next last → later first last };

    /// A held value stays the store's own.
    ghost stays_owned: { (first next : Self) (held : Self.Held) → later first next → owns first held → owns next held };

    /// A held value of the store's own stays what it is.
    ghost keeps_meaning: { (first next : Self) (held : Self.Held)
        → later first next → owns first held → meaning next held ≡ meaning first held };

    /// A text keeps its key.
    ghost keeps_keys: { (first next : Self) → later first next → Keeps (key_of first) (key_of next) };

    /// A key that has a text has one still.
    ghost keeps_known: { (first next : Self) (key : Key)
        → later first next → HasText (key_of first) key → HasText (key_of next) key } = { λ first next key later known.
            (known.0, keeps_keys first next later known.0 key known.1) };

    /// Which texts are left out of the log stays.
    ghost keeps_left_out: { (first next : Self) (text : List ℕ) → later first next → leaves_out next text ≡ leaves_out first text };
}

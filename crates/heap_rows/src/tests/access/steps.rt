//! Single steps, and what they come to.

ghost use Rattle.std.specs.Prelude.{◌<◌, ℕ, IfOk, length};
ghost use Rattle.snap_action.specs.Gives.{Owns, OwnsCut, cut_of};
ghost use Rattle.snap_action.specs.Names.{IsKnown};
ghost use Rattle.snap_graph.specs.Values.{IsValue};

use heap_words::{Refused, last_node, takes_properties, value_of};
use snap_base::Stop;
use snap_graph::Value;
use snap_object::{
    Abrupt, Name, delete, delete_by_key, delete_by_name, get, get_by_key, get_by_name, has_own,
    has_own_by_key, has_own_by_name, set, set_by_key, set_by_name,
};
use snap_store::Store;
use snap_text::{StrView, Units, decimal};
use std::alloc::Global;

/// What a step came to.
#[derive(Drop)]
pub(crate) enum Outcome {
    /// A value that was read.
    Read(Value),
    /// A write that was done.
    Wrote,
    /// A delete that was done, and its answer.
    Deleted(bool),
    /// Whether there is a property.
    Told(bool),
    /// The texts of own keys.
    Keys(Vec<Units>),
    /// A TypeError that was thrown.
    TypeError,
    /// A stop.
    Stopped(Stop),
}

/// How the key of an access is given.
#[derive(Clone, Copy)]
pub(crate) enum By {
    /// As the value that it is.
    Value,
    /// As the name of its text, where it has one.
    Name,
    /// As the value, held, with a name to work in.
    Held,
}

/// What a step does with a property.
#[derive(Clone, Copy)]
enum Access {
    Get,
    Set,
    Delete,
    HasOwn,
}

/// What a step does.
#[derive(Clone, Copy)]
enum Verb {
    Access(Access),
    Put,
    Freeze,
    Keys,
}

// What a verb says, as it is written.
fn verb_of(word: &str) -> Option<Verb> {
    match word {
        "get" => Some(Verb::Access(Access::Get)),
        "set" => Some(Verb::Access(Access::Set)),
        "delete" => Some(Verb::Access(Access::Delete)),
        "hasOwn" => Some(Verb::Access(Access::HasOwn)),
        "put" => Some(Verb::Put),
        "freeze" => Some(Verb::Freeze),
        "keys" => Some(Verb::Keys),
        _ => None,
    }
}

/// What a step is about; those that its row leaves out are undefined.
#[derive(Drop)]
struct Operands {
    base: Value,
    key: Value,
    value: Value,
}

// What the words of a step say behind its verb.
fn operands_of(alloc: Global, last: u32, words: &[&str]) -> Result<Operands, Refused>
    ensures base { (count : ℕ) → last < count → IfOk result (λ given. IsValue count given.base) }
    ensures key { (count : ℕ) → last < count → IfOk result (λ given. IsValue count given.key) }
    ensures value { (count : ℕ) → last < count → IfOk result (λ given. IsValue count given.value) }
{
    let base = value_of(alloc, last, word(words, 1))?;
    let key = value_of(alloc, last, word(words, 2))?;
    let value = value_of(alloc, last, word(words, 3))?;
    Ok(Operands { base, key, value })
}

/// Takes one step: a verb and its words. Want of memory is none of what it may come to.
pub(crate) fn step<S: Store>(
    alloc: Global,
    store: &mut S,
    words: &[&str],
    by: By,
) -> Result<Outcome, Refused> {
    let Some(verb) = verb_of(word(words, 0)) else {
        return Err(Refused::Row);
    };
    let last = last_node(store)?;
    let given = operands_of(alloc, last, words)?;
    match verb {
        Verb::Access(access) => accessed(alloc, store, access, by, &given),
        Verb::Put => put(store, last, &given.base, &given.key, &given.value),
        Verb::Freeze => frozen(store, last, &given.base),
        Verb::Keys => keys(store, last, &given.base),
    }
}

// Takes a step that reads, writes or deletes a property.
fn accessed<S: Store>(
    alloc: Global,
    store: &mut S,
    access: Access,
    by: By,
    given: &Operands,
) -> Result<Outcome, Refused>
    requires base { IsValue (length (S.view store.old).nodes) given.now.base }
    requires key { IsValue (length (S.view store.old).nodes) given.now.key }
    requires value { IsValue (length (S.view store.old).nodes) given.now.value }
{
    let base = store.hold(&given.base)?;
    match by {
        By::Value => valued(alloc, store, access, &base, given),
        By::Name => named(alloc, store, access, &base, given),
        By::Held => keyed(alloc, store, access, &base, given),
    }
}

// Takes a step by the value that a key is.
fn valued<S: Store>(
    alloc: Global,
    store: &mut S,
    access: Access,
    base: &S::Held,
    given: &Operands,
) -> Result<Outcome, Refused>
    requires base { S.owns store.old base.now }
    requires value { IsValue (length (S.view store.old).nodes) given.now.value }
{
    match access {
        Access::Get => read(alloc, store, base, &given.key),
        Access::Set => written(alloc, store, base, &given.key, &given.value),
        Access::Delete => deleted(alloc, store, base, &given.key),
        Access::HasOwn => told(alloc, store, base, &given.key),
    }
}

// A word of a step; those that are left out are undefined.
fn word<'a>(words: &[&'a str], i: usize) -> &'a str {
    match words.get(i) {
        Some(word) => word,
        None => "undefined",
    }
}

// The text that a key is (ECMA-262, 7.1.17, ToString). A node has none in this profile.
fn text_of(alloc: Global, key: &Value) -> Result<Option<Units>, Refused> {
    let text = match key {
        Value::Text(text) => Units::of(alloc, text.units())?,
        Value::Undefined => StrView::One(b"undefined").copy(alloc)?,
        Value::Null => StrView::One(b"null").copy(alloc)?,
        Value::Bool(true) => StrView::One(b"true").copy(alloc)?,
        Value::Bool(false) => StrView::One(b"false").copy(alloc)?,
        Value::Int(number) => decimal(alloc, *number)?,
        Value::Node(_) | Value::Empty => return Ok(None),
    };
    Ok(Some(text))
}

// Takes a step by the name of the text that a key is. A key that has none is taken as the value that it is.
fn named<S: Store>(
    alloc: Global,
    store: &mut S,
    access: Access,
    base: &S::Held,
    given: &Operands,
) -> Result<Outcome, Refused>
    requires base { S.owns store.old base.now }
    requires value { IsValue (length (S.view store.old).nodes) given.now.value }
{
    match text_of(alloc, &given.key)? {
        Some(text) => by_name(alloc, store, access, base, text, &given.value),
        None => valued(alloc, store, access, base, given),
    }
}

// Takes a step by the name of a text.
fn by_name<S: Store>(
    alloc: Global,
    store: &mut S,
    access: Access,
    base: &S::Held,
    text: Units,
    value: &Value,
) -> Result<Outcome, Refused>
    requires base { S.owns store.old base.now }
    requires value { IsValue (length (S.view store.old).nodes) value.now }
{
    let mut name = Name::new(text);
    match access {
        Access::Get => read_by_name(alloc, store, base, &mut name),
        Access::Set => written_by_name(alloc, store, base, &mut name, value),
        Access::Delete => deleted_by_name(alloc, store, base, &mut name),
        Access::HasOwn => told_by_name(alloc, store, base, &mut name),
    }
}

// Reads a property by a name.
fn read_by_name<S: Store>(
    alloc: Global,
    store: &mut S,
    base: &S::Held,
    name: &mut Name,
) -> Result<Outcome, Refused>
    requires base { S.owns store.old base.now }
    requires known { IsKnown (S.key_of store.old) name.old }
{
    let given = get_by_name(alloc, store, base, name);
    read_outcome(store, given)
}

// Writes a property by a name.
fn written_by_name<S: Store>(
    alloc: Global,
    store: &mut S,
    base: &S::Held,
    name: &mut Name,
    value: &Value,
) -> Result<Outcome, Refused>
    requires base { S.owns store.old base.now }
    requires known { IsKnown (S.key_of store.old) name.old }
    requires value { IsValue (length (S.view store.old).nodes) value.now }
{
    let held = store.hold(value)?;
    let given = set_by_name(alloc, store, base, name, &held);
    write_outcome(store, given)
}

// Deletes a property by a name.
fn deleted_by_name<S: Store>(
    alloc: Global,
    store: &mut S,
    base: &S::Held,
    name: &mut Name,
) -> Result<Outcome, Refused>
    requires base { S.owns store.old base.now }
    requires known { IsKnown (S.key_of store.old) name.old }
{
    let given = delete_by_name(alloc, store, base, name);
    delete_outcome(store, given)
}

// Tests an own property by a name.
fn told_by_name<S: Store>(
    alloc: Global,
    store: &mut S,
    base: &S::Held,
    name: &mut Name,
) -> Result<Outcome, Refused>
    requires base { S.owns store.old base.now }
    requires known { IsKnown (S.key_of store.old) name.old }
{
    let given = has_own_by_name(alloc, store, base, name);
    told_outcome(store, given)
}

// A name to work in. Its own text is one that no access goes on with, so that an access by it would be seen.
fn scratch(alloc: Global) -> Result<Name, Refused> {
    Ok(Name::new(StrView::One(b"__proto__").copy(alloc)?))
}

// Takes a step by a key that is held.
fn keyed<S: Store>(
    alloc: Global,
    store: &mut S,
    access: Access,
    base: &S::Held,
    given: &Operands,
) -> Result<Outcome, Refused>
    requires base { S.owns store.old base.now }
    requires key { IsValue (length (S.view store.old).nodes) given.now.key }
    requires value { IsValue (length (S.view store.old).nodes) given.now.value }
{
    let key = store.hold(&given.key)?;
    match access {
        Access::Get => read_by_key(alloc, store, base, &key),
        Access::Set => written_by_key(alloc, store, base, &key, &given.value),
        Access::Delete => deleted_by_key(alloc, store, base, &key),
        Access::HasOwn => told_by_key(alloc, store, base, &key),
    }
}

// Reads a property by a key that is held.
fn read_by_key<S: Store>(
    alloc: Global,
    store: &mut S,
    base: &S::Held,
    key: &S::Held,
) -> Result<Outcome, Refused>
    requires base { S.owns store.old base.now }
    requires key { S.owns store.old key.now }
{
    let mut name = scratch(alloc)?;
    let given = get_by_key(alloc, store, base, key, &mut name);
    read_outcome(store, given)
}

// Writes a property by a key that is held.
fn written_by_key<S: Store>(
    alloc: Global,
    store: &mut S,
    base: &S::Held,
    key: &S::Held,
    value: &Value,
) -> Result<Outcome, Refused>
    requires base { S.owns store.old base.now }
    requires key { S.owns store.old key.now }
    requires value { IsValue (length (S.view store.old).nodes) value.now }
{
    let mut name = scratch(alloc)?;
    let held = store.hold(value)?;
    let given = set_by_key(alloc, store, base, key, &mut name, &held);
    write_outcome(store, given)
}

// Deletes a property by a key that is held.
fn deleted_by_key<S: Store>(
    alloc: Global,
    store: &mut S,
    base: &S::Held,
    key: &S::Held,
) -> Result<Outcome, Refused>
    requires base { S.owns store.old base.now }
    requires key { S.owns store.old key.now }
{
    let mut name = scratch(alloc)?;
    let given = delete_by_key(alloc, store, base, key, &mut name);
    delete_outcome(store, given)
}

// Tests an own property by a key that is held.
fn told_by_key<S: Store>(
    alloc: Global,
    store: &mut S,
    base: &S::Held,
    key: &S::Held,
) -> Result<Outcome, Refused>
    requires base { S.owns store.old base.now }
    requires key { S.owns store.old key.now }
{
    let mut name = scratch(alloc)?;
    let given = has_own_by_key(alloc, store, base, key, &mut name);
    told_outcome(store, given)
}

// Reads a property.
fn read<S: Store>(
    alloc: Global,
    store: &mut S,
    base: &S::Held,
    key: &Value,
) -> Result<Outcome, Refused>
    requires { S.owns store.old base.now }
{
    let given = get(alloc, store, base, key);
    read_outcome(store, given)
}

// Writes a property.
fn written<S: Store>(
    alloc: Global,
    store: &mut S,
    base: &S::Held,
    key: &Value,
    value: &Value,
) -> Result<Outcome, Refused>
    requires base { S.owns store.old base.now }
    requires value { IsValue (length (S.view store.old).nodes) value.now }
{
    let held = store.hold(value)?;
    let given = set(alloc, store, base, key, &held);
    write_outcome(store, given)
}

// Deletes a property.
fn deleted<S: Store>(
    alloc: Global,
    store: &mut S,
    base: &S::Held,
    key: &Value,
) -> Result<Outcome, Refused>
    requires { S.owns store.old base.now }
{
    let given = delete(alloc, store, base, key);
    delete_outcome(store, given)
}

// Tests an own property.
fn told<S: Store>(
    alloc: Global,
    store: &mut S,
    base: &S::Held,
    key: &Value,
) -> Result<Outcome, Refused>
    requires { S.owns store.old base.now }
{
    let given = has_own(alloc, store, base, key);
    told_outcome(store, given)
}

// What a read came to.
fn read_outcome<S: Store>(
    store: &mut S,
    given: Result<S::Held, Abrupt<S::Held>>,
) -> Result<Outcome, Refused>
    requires { Owns cut_of (S.owns store.old) (S.owns store.old) given }
{
    match given {
        Ok(held) => Ok(Outcome::Read(store.value(&held)?)),
        Err(fault) => abrupt(store, fault),
    }
}

// What a write came to.
fn write_outcome<S: Store>(
    store: &mut S,
    given: Result<(), Abrupt<S::Held>>,
) -> Result<Outcome, Refused>
    requires { Owns cut_of (S.owns store.old) (λ done. Unit {0}) given }
{
    match given {
        Ok(()) => Ok(Outcome::Wrote),
        Err(fault) => abrupt(store, fault),
    }
}

// What a delete came to.
fn delete_outcome<S: Store>(
    store: &mut S,
    given: Result<bool, Abrupt<S::Held>>,
) -> Result<Outcome, Refused>
    requires { Owns cut_of (S.owns store.old) (λ answer. Unit {0}) given }
{
    match given {
        Ok(answer) => Ok(Outcome::Deleted(answer)),
        Err(fault) => abrupt(store, fault),
    }
}

// What a test came to.
fn told_outcome<S: Store>(
    store: &mut S,
    given: Result<bool, Abrupt<S::Held>>,
) -> Result<Outcome, Refused>
    requires { Owns cut_of (S.owns store.old) (λ answer. Unit {0}) given }
{
    match given {
        Ok(answer) => Ok(Outcome::Told(answer)),
        Err(fault) => abrupt(store, fault),
    }
}

// Puts a property on a node that is no array, whatever its prototypes have.
fn put<S: Store>(
    store: &mut S,
    last: u32,
    base: &Value,
    key: &Value,
    value: &Value,
) -> Result<Outcome, Refused>
    requires last { last < length (S.view store.old).nodes }
    requires value { IsValue (length (S.view store.old).nodes) value.now }
{
    let Value::Node(node) = base else {
        return Err(Refused::Row);
    };
    let Value::Text(name) = key else {
        return Err(Refused::Row);
    };
    if *node > last || !takes_properties(store, *node) {
        return Err(Refused::Row);
    }
    let held = store.hold(value)?;
    let key = store.key(name)?;
    store.put_own(*node, key, &held)?;
    Ok(Outcome::Wrote)
}

// Freezes a node.
fn frozen<S: Store>(store: &mut S, last: u32, base: &Value) -> Result<Outcome, Refused>
    requires { last < length (S.view store.old).nodes }
{
    match base {
        Value::Node(node) => {
            if *node > last {
                return Err(Refused::Row);
            }
            store.freeze(*node);
            Ok(Outcome::Wrote)
        }
        _ => Err(Refused::Row),
    }
}

// The texts of a node's own keys.
fn keys<S: Store>(store: &S, last: u32, base: &Value) -> Result<Outcome, Refused>
    requires { last < length (S.view store.now).nodes }
{
    match base {
        Value::Node(node) => {
            if *node > last {
                return Err(Refused::Row);
            }
            Ok(Outcome::Keys(store.own_keys(*node)?))
        }
        _ => Err(Refused::Row),
    }
}

// Why there is no result.
fn abrupt<S: Store>(store: &mut S, fault: Abrupt<S::Held>) -> Result<Outcome, Refused>
    requires { OwnsCut (S.owns store.old) (cut_of fault) }
{
    match fault {
        Abrupt::Threw(error) => thrown(store, &error),
        Abrupt::Stopped(why) => Ok(Outcome::Stopped(why)),
        Abrupt::NoMemory => Err(Refused::NoMemory),
    }
}

// What was thrown, if it is a TypeError.
fn thrown<S: Store>(store: &mut S, error: &S::Held) -> Result<Outcome, Refused>
    requires { S.owns store.old error.now }
{
    let error = store.value(error)?;
    let last = last_node(store)?;
    match error {
        Value::Node(node) => type_error(store, last, node),
        _ => Err(Refused::Error),
    }
}

// A node, if it is a TypeError.
fn type_error<S: Store>(store: &S, last: u32, node: u32) -> Result<Outcome, Refused>
    requires { last < length (S.view store.now).nodes }
{
    if node > last {
        return Err(Refused::Row);
    }
    let prototype = store.prototype(node);
    match store.value(&prototype)? {
        Value::Node(7) => Ok(Outcome::TypeError),
        _ => Err(Refused::Error),
    }
}

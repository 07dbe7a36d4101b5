//! The nodes that the rows are about.

ghost use Rattle.std.specs.Prelude.{◌≡◌, ◌<◌, ℕ, IfOk, false, true, length};
ghost use Rattle.snap_graph.specs.declared.kind.Kind.{Kind};
ghost use Rattle.snap_graph.specs.declared.kind.Kind.TheVariants.{Native};
ghost use Rattle.snap_graph.specs.declared.value.Value.TheVariants.{Node as At};
ghost use Rattle.snap_graph.specs.Intrinsics.{IsNative};
ghost use Rattle.snap_graph.specs.Lawful.{IsPrototype, is_scope};

use heap_words::{Refused, new_node, value_of};
use snap_graph::{Kind, Value};
use snap_store::Store;
use std::alloc::Global;

// The kind and the prototype of each node from number 62 on.
const OBJECTS: &str = "\
Plain #0
Plain #62
Array #2
Array #2
Plain #0
Plain #66
Map #4
Set #5
Error #6
Array #2
Plain null
Plain #64
Plain #63
";

/// What is put on them.
pub(crate) const PROPERTIES: &str = "\
set #62 'a' 1
set #62 'b' 'x'
set #63 'c' 3
set #64 0 1
set #64 1 'y'
set #64 2 #62
set #65 0 5
set #65 1 6
freeze #65
set #66 'p' 1
set #66 'q' null
freeze #66
put #70 'message' 'm'
set #71 0 7
set #71 'k' 8
set #72 'a' true
";

/// Makes the nodes from number 62 on, with nothing on them.
pub(crate) fn make_objects<S: Store>(alloc: Global, store: &mut S) -> Result<(), Refused> {
    let mut last = 7;
    for row in OBJECTS.lines() {
        last = object(alloc, store, last, row)?;
    }
    Ok(())
}

// Makes the node of a row.
fn object<S: Store>(alloc: Global, store: &mut S, last: u32, row: &str) -> Result<u32, Refused>
    requires { last < length (S.view store.old).nodes }
    ensures { IfOk result (λ number. number < length (S.view store.new).nodes) }
{
    let Some((kind, word)) = row.split_once(' ') else {
        return Err(Refused::Row);
    };
    let prototype = value_of(alloc, last, word)?;
    if !may_be_prototype(store, last, &prototype) {
        return Err(Refused::Row);
    }
    new_node(store, kind_of(kind), &prototype)
}

// The kind of a word.
fn kind_of(word: &str) -> Kind
    ensures scope { is_scope result ≡ false }
    ensures native { (number : ℕ) → result ≡ Native number → IsNative number }
{
    match word {
        "Array" => Kind::Array,
        "Error" => Kind::Error,
        "Map" => Kind::Map,
        "Set" => Kind::Set,
        _ => Kind::Plain,
    }
}

/// Whether a value may be a prototype of what is no scope.
pub(crate) fn may_be_prototype<S: Store>(store: &S, last: u32, value: &Value) -> bool
    requires { last < length (S.view store.now).nodes }
    ensures { (kind : Kind) → is_scope kind ≡ false → result ≡ true → IsPrototype (S.view store.now).nodes kind value.now }
{
    match value {
        Value::Null => true,
        Value::Node(node) => *node <= last && is_object(store, *node),
        _ => false,
    }
}

// Whether a node is a plain object or an array.
fn is_object<S: Store>(store: &S, node: u32) -> bool
    requires { node < length (S.view store.now).nodes }
    ensures { (kind : Kind) → is_scope kind ≡ false → result ≡ true → IsPrototype (S.view store.now).nodes kind (At node) }
{
    match store.kind(node) {
        Kind::Plain | Kind::Array => true,
        _ => false,
    }
}

//! What is asked of a value that is held.

ghost use Rattle.std.specs.Prelude.{◌≡◌, ◌<◌, Some, length};
ghost use Rattle.snap_action.specs.Gives.{Gives, as_is};
ghost use Rattle.snap_apply.specs.Types.{as_type, type_text};
ghost use Rattle.snap_graph.specs.declared.value.Value.TheVariants.{Node as At};
ghost use Rattle.snap_graph.specs.Values.{IsPlace};
ghost use Rattle.spec_values.specs.Asking.{can_be_called, is_callable, type_of};

use snap_action::{Abrupt, is_text};
use snap_base::Stop;
use snap_graph::{Kind, Value};
use snap_store::Store;

/// The word that `typeof` gives of a value (ECMA-262, 13.5.3).
#[derive(Clone, Copy, Debug, PartialEq, Eq)]
pub enum TypeWord {
    /// `undefined`
    Undefined,
    /// `object`, which null gives too.
    Object,
    /// `boolean`
    Boolean,
    /// `number`
    Number,
    /// `string`
    String,
    /// `function`
    Function,
}

impl TypeWord {
    /// Its text.
    pub fn text(self) -> &'static [u8]
        ensures { result.now ≡ type_text self }
    {
        match self {
            TypeWord::Undefined => b"undefined",
            TypeWord::Object => b"object",
            TypeWord::Boolean => b"boolean",
            TypeWord::Number => b"number",
            TypeWord::String => b"string",
            TypeWord::Function => b"function",
        }
    }
}

/// What `typeof` gives of a value that is held (13.5.3).
pub fn type_of<S: Store>(store: &S, held: &S::Held) -> Result<TypeWord, Abrupt<S::Held>>
    requires { S.owns store.now held.now }
    ensures { Gives S.Store store.now store.now as_type result (type_of (S.meaning store.now held.now)) }
{
    if is_text(store, held) {
        return Ok(TypeWord::String);
    }
    let value = store.value(held)?;
    type_of_value(store, &value)
}

// What `typeof` gives of a value.
fn type_of_value<S: Store>(store: &S, value: &Value) -> Result<TypeWord, Abrupt<S::Held>>
    requires { IsPlace (length (S.view store.now).nodes) value.now }
    ensures { Gives S.Store store.now store.now as_type result (type_of value.now) }
{
    match value {
        Value::Undefined => Ok(TypeWord::Undefined),
        Value::Null => Ok(TypeWord::Object),
        Value::Bool(_) => Ok(TypeWord::Boolean),
        Value::Int(_) => Ok(TypeWord::Number),
        Value::Text(_) => Ok(TypeWord::String),
        Value::Node(node) => Ok(type_of_node(store, *node)),
        Value::Empty => Err(Abrupt::Stopped(Stop::NotInProfile)),
    }
}

// What `typeof` gives of a node.
fn type_of_node<S: Store>(store: &S, node: u32) -> TypeWord
    requires { node < length (S.view store.now).nodes }
    ensures { Gives S.Store store.now store.now as_type (Ok result) (type_of (At node)) }
{
    if can_be_called(store.kind(node)) {
        TypeWord::Function
    } else {
        TypeWord::Object
    }
}

/// Whether a value that is held can be called (7.2.3, IsCallable).
pub fn is_callable<S: Store>(store: &S, held: &S::Held) -> Result<bool, Abrupt<S::Held>>
    requires { S.owns store.now held.now }
    ensures { Gives S.Store store.now store.now as_is result (is_callable (S.meaning store.now held.now)) }
{
    if is_text(store, held) {
        return Ok(false);
    }
    match store.value(held)? {
        Value::Node(node) => Ok(can_be_called(store.kind(node))),
        _ => Ok(false),
    }
}

// Whether a node of this kind can be called.
fn can_be_called(kind: Kind) -> bool
    ensures { result ≡ can_be_called (Some kind) }
{
    matches!(kind, Kind::Function { .. } | Kind::Native { .. })
}

//! Errors that are thrown.

ghost use Rattle.std.specs.Prelude.{◌≡◌, ◌<◌, Some, false, IfOk, Err, length};
ghost use Rattle.snap_action.specs.Errors.{error_prototype, error_with, put_named};
ghost use Rattle.snap_action.specs.Gives.{Gives, as_held, as_is, as_node};
ghost use Rattle.snap_graph.specs.declared.kind.Kind.TheVariants.{Error as Errors};
ghost use Rattle.snap_graph.specs.declared.value.Value.TheVariants.{Node as At};
ghost use Rattle.snap_graph.specs.Values.{IsValue};
ghost use Rattle.spec_values.specs.Access.{throw_error};
ghost use Rattle.spec_values.specs.Operations.{is_frozen, kind_of, make};

use crate::calls::{hold_value, make_node, put_property, use_text};
use crate::fault::Abrupt;
use snap_graph::{Kind, Value, intrinsic};
use snap_store::Store;
use snap_text::{StrView, Units};
use std::alloc::Global;

/// Which error is thrown (ECMA-262, 20.5.1 and 20.5.5).
#[derive(Clone, Copy, Debug, PartialEq, Eq)]
pub enum ErrorKind {
    /// An Error.
    Error,
    /// A TypeError.
    TypeError,
    /// A ReferenceError.
    ReferenceError,
    /// A RangeError.
    RangeError,
}

impl ErrorKind {
    /// The number of the prototype of such errors.
    pub fn prototype(self) -> u32
        ensures { result ≡ error_prototype self }
    {
        match self {
            ErrorKind::Error => intrinsic::ERROR_PROTOTYPE,
            ErrorKind::TypeError => intrinsic::TYPE_ERROR_PROTOTYPE,
            ErrorKind::ReferenceError => intrinsic::REFERENCE_ERROR_PROTOTYPE,
            ErrorKind::RangeError => intrinsic::RANGE_ERROR_PROTOTYPE,
        }
    }
}

/// Makes an error with a message of one unit a byte, and throws it. Where it can't be made, the answer says why.
pub fn throw_error<S: Store>(
    alloc: Global,
    store: &mut S,
    kind: ErrorKind,
    message: &[u8],
) -> Abrupt<S::Held>
    ensures { Gives {R = Unit {0}} S.Store store.old store.new as_is (Err result) (throw_error (error_prototype kind) message.now) }
{
    match error_with(alloc, store, kind, message) {
        Ok(error) => Abrupt::Threw(error),
        Err(fault) => fault,
    }
}

// An error with a message.
fn error_with<S: Store>(
    alloc: Global,
    store: &mut S,
    kind: ErrorKind,
    message: &[u8],
) -> Result<S::Held, Abrupt<S::Held>>
    ensures { Gives S.Store store.old store.new (as_held S.Store store.new) result (error_with (error_prototype kind) message.now) }
{
    let name = StrView::One(b"message").copy(alloc)?;
    let text = Value::Text(StrView::One(message).copy(alloc)?);
    let number = bare_error(store, kind)?;
    let error = hold_value(store, &Value::Node(number))?;
    put(store, number, &name, &text)?;
    Ok(error)
}

// An error with nothing in it yet.
fn bare_error<S: Store>(store: &mut S, kind: ErrorKind) -> Result<u32, Abrupt<S::Held>>
    ensures gives { Gives S.Store store.old store.new (as_node S.Store store.new) result (make Errors (At (error_prototype kind))) }
    ensures frozen { IfOk result (λ number. is_frozen (S.view store.new).nodes number ≡ false) }
    ensures kind { IfOk result (λ number. kind_of (S.view store.new).nodes number ≡ Some Errors) }
{
    let prototype = hold_value(store, &Value::Node(kind.prototype()))?;
    make_node(store, Kind::Error, &prototype)
}

// Puts a property on an error.
fn put<S: Store>(
    store: &mut S,
    error: u32,
    name: &Units,
    value: &Value,
) -> Result<(), Abrupt<S::Held>>
    requires number { error < length (S.view store.old).nodes }
    requires frozen { is_frozen (S.view store.old).nodes error ≡ false }
    requires kind { kind_of (S.view store.old).nodes error ≡ Some Errors }
    requires value { IsValue (length (S.view store.old).nodes) value.now }
    ensures { Gives S.Store store.old store.new as_is result (put_named error name.now value.now) }
{
    let value = hold_value(store, value)?;
    let key = use_text(store, name)?;
    put_property(store, error, name, key, &value)
}

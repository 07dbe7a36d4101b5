//! Names that access treats on their own.

ghost use Rattle.std.specs.Prelude.{◌≡◌, ◌<◌, Some, length};
ghost use Rattle.std.specs.Str.{bytes_eq as text_eq};
ghost use Rattle.spec_values.specs.Access.{is_array, is_length, is_size, is_special};

use snap_graph::{Kind, intrinsic};
use snap_store::Store;
use snap_text::{StrView, Units};

/// Whether a text is this word.
pub(crate) fn is_word(text: &Units, word: &[u8]) -> bool
    ensures { result ≡ text_eq text.now word.now }
{
    StrView::One(word).same(text)
}

/// Whether a node of this kind has a key of this name that is not in this profile.
pub(crate) fn is_special(kind: Kind, name: &Units) -> bool
    ensures { result ≡ is_special (Some kind) name.now }
{
    match kind {
        Kind::Function { .. } => {
            is_word(name, b"name") || is_word(name, b"length") || is_word(name, b"prototype")
        }
        Kind::Native { .. } => is_word(name, b"name") || is_word(name, b"length"),
        Kind::Error => is_word(name, b"stack"),
        Kind::Plain
        | Kind::Array
        | Kind::Scope { .. }
        | Kind::Map
        | Kind::Set
        | Kind::Resource { .. } => false,
    }
}

/// Whether this is `size` of the prototype of Maps or of Sets.
pub(crate) fn is_size(node: u32, name: &Units) -> bool
    ensures { result ≡ is_size node name.now }
{
    (node == intrinsic::MAP_PROTOTYPE || node == intrinsic::SET_PROTOTYPE) && is_word(name, b"size")
}

/// Whether this is the kind of arrays.
pub(crate) fn is_array(kind: Kind) -> bool
    ensures { result ≡ is_array (Some kind) }
{
    matches!(kind, Kind::Array)
}

/// Whether a name is `length` of an array.
pub(crate) fn is_length<S: Store>(store: &S, node: u32, name: &Units) -> bool
    requires { node < length (S.view store.now).nodes }
    ensures { result ≡ is_length (S.view store.now).nodes node name.now }
{
    is_array(store.kind(node)) && is_word(name, b"length")
}

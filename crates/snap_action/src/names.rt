//! Names of properties that are kept, so that a store is asked once for the key of each.

ghost use Rattle.std.specs.Prelude.{◌≡◌, None, Some, IfOk, OnErr, OnOk, codes};
ghost use Rattle.std.specs.Str.{bytes_eq as text_eq};
ghost use Rattle.snap_action.specs.Gives.{Gives, as_key};
ghost use Rattle.snap_action.specs.Names.{IsKnown};
ghost use Rattle.snap_arena.specs.Views.{units};
ghost use Rattle.snap_graph.specs.OwnKeys.{array_index};
ghost use Rattle.spec_values.specs.Answer.{use_key};

use crate::fault::Abrupt;
use snap_arena::TextView;
use snap_store::{Store, array_index};
use snap_text::{Key, NoMemory, StrView, Units};
use std::alloc::Global;
use std::marker::Model;

/// The name of a property: its text, the array index that this is, whether it is `__proto__`, and the key of the text,
/// where a store was asked for it. It is seen as its text and that key.
#[derive(Drop)]
pub struct Name {
    text: Units,
    key: Option<Key>,
    index: Option<u32>,
    is_proto: bool,
}

impl Model for Name {
    ghost use Rattle.std.specs.Prelude.{◌≡◌, codes};
    ghost use Rattle.std.specs.Str.{bytes_eq as text_eq};
    ghost use Rattle.snap_action.specs.Names.{Named};
    ghost use Rattle.snap_graph.specs.OwnKeys.{array_index};

    ghost Value = { Named };

    ghost view = { λ name. record { text = name.text; key = name.key } };

    ghost invariant = { λ name. (name.index ≡ array_index name.text) × (name.is_proto ≡ text_eq name.text (codes "__proto__")) };
}

impl Name {
    /// The name of a text. No store was asked for its key yet. It takes no memory.
    pub fn new(text: Units) -> Name
        ensures { result ≡ record { text = text; key = None } }
    {
        let index = array_index(text.units());
        let is_proto = StrView::One(b"__proto__").same(&text);
        Name {
            text,
            key: None,
            index,
            is_proto,
        }
    }

    /// Makes it the name of another text, whose key no store was asked for yet. Where the memory of the text that it had is
    /// enough, none is taken; where memory is refused, it stays as it was.
    pub fn rename(&mut self, alloc: Global, text: &TextView<'_>) -> Result<(), NoMemory>
        ensures ok { OnOk result (self.new ≡ record { text = units text.now; key = None }) }
        ensures err { OnErr result (self.new ≡ self.old) }
    {
        let empty = Name::new(Units::from_vec(Vec::new(alloc)));
        let Name {
            text: old,
            key,
            index,
            is_proto,
        } = std::mem::replace(self, empty);
        let mut list = old.into_vec();
        let copied = text.copy_into(&mut list);
        let text = Units::from_vec(list);
        *self = match copied {
            Ok(()) => Name::new(text),
            Err(_) => Name {
                text,
                key,
                index,
                is_proto,
            },
        };
        copied
    }

    /// Its text.
    pub fn text(&self) -> &Units
        ensures { result.now ≡ self.now.text }
    {
        &self.text
    }

    /// The array index that it is (ECMA-262, 6.1.7).
    pub fn index(&self) -> Option<u32>
        ensures { result ≡ array_index self.now.text }
    {
        self.index
    }

    /// Whether it is `__proto__`.
    pub fn is_proto(&self) -> bool
        ensures { result ≡ text_eq self.now.text (codes "__proto__") }
    {
        self.is_proto
    }
}

/// The key of a name, which is used. The first time the store is asked for it, and it is kept; from then on the use takes
/// no memory, unless the store's log does.
pub fn use_name<S: Store>(store: &mut S, name: &mut Name) -> Result<Key, Abrupt<S::Held>>
    requires { IsKnown (S.key_of store.old) name.old }
    ensures gives { Gives S.Store store.old store.new (as_key S.Store store.new name.old.text) result (use_key name.old.text) }
    ensures nodes { (S.view store.new).nodes ≡ (S.view store.old).nodes }
    ensures text { name.new.text ≡ name.old.text }
    ensures known { IsKnown (S.key_of store.new) name.new }
    ensures kept { IfOk result (λ key. name.new.key ≡ Some key) }
{
    match name.key {
        Some(key) => {
            store.used(key)?;
            Ok(key)
        }
        None => {
            let key = store.key(&name.text)?;
            name.key = Some(key);
            Ok(key)
        }
    }
}

//! The globals of a blob, with names and texts of their own.

ghost use Rattle.std.specs.Prelude.{◌≡◌, IfOk, OnOk};
ghost use Rattle.snap_commands.specs.Globals.{entries_of};
ghost use Rattle.snap_commands.specs.Kept.{AreApart, kept_globals, kept_value};
ghost use Rattle.snap_commands.specs.Thin.{assigned, value_of};

use crate::evaluate::Globals;
use crate::statement::Literal;
use indexmap::IndexMap;
use snap_base::NoMemory;
use std::alloc::Global;

/// A primitive value of a blob.
#[derive(Debug, Drop)]
pub enum KeptValue {
    /// undefined
    Undefined,
    /// null
    Null,
    /// A truth value.
    Bool(bool),
    /// A safe integer.
    Int(i64),
    /// A text, one byte a unit.
    Text(Vec<u8>),
}

/// A global of a blob.
#[derive(Debug, Drop)]
pub struct Kept {
    /// Its name.
    pub name: Vec<u8>,
    /// What it holds.
    pub value: KeptValue,
}

/// What a run finds in a blob.
#[derive(Debug, Drop)]
pub struct Loaded {
    /// The globals, in order.
    pub globals: Vec<Kept>,
}

/// The map of globals that stand apart, in their order.
pub(crate) fn globals_of<'a>(alloc: Global, loaded: &'a Loaded) -> Result<Globals<'a>, NoMemory>
    requires { AreApart (kept_globals loaded.now.globals.items) }
    ensures { IfOk result (λ globals. entries_of globals.entries ≡ kept_globals loaded.now.globals.items) }
{
    let mut globals = IndexMap::new(alloc);
    for kept in &loaded.globals {
        put(&mut globals, kept)?;
    }
    Ok(globals)
}

fn put<'a>(globals: &mut Globals<'a>, kept: &'a Kept) -> Result<(), NoMemory>
    ensures { OnOk result (entries_of globals.new.entries ≡ assigned (entries_of globals.old.entries) kept.now.name.items (kept_value kept.now.value)) }
{
    match globals.insert(kept.name.as_slice(), literal(&kept.value)) {
        Ok(_) => Ok(()),
        Err(_) => Err(NoMemory),
    }
}

fn literal(value: &KeptValue) -> Literal<'_>
    ensures { value_of result ≡ kept_value value.now }
{
    match value {
        KeptValue::Undefined => Literal::Undefined,
        KeptValue::Null => Literal::Null,
        KeptValue::Bool(truth) => Literal::Bool(*truth),
        KeptValue::Int(number) => Literal::Int(*number),
        KeptValue::Text(bytes) => Literal::Text(bytes.as_slice()),
    }
}

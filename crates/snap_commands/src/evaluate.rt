//! Thin scripts, run.

ghost use Rattle.std.specs.Prelude.{◌≡◌, ◌≢◌, ◌+◌, [], ◌∷◌, Err, ◌<◌, ◌≤◌, ◌++◌, List, ℕ, map, length, codes, OnOk, IfOk, IsErrOf};
ghost use Rattle.snap_text.specs.Utf8.{utf8_of};
ghost use Rattle.snap_commands.specs.Globals.{entries_of};
ghost use Rattle.snap_commands.specs.Thin.{assigned, global_value, leaves, prints, text_of, thin_of, value_of};

use crate::statement::{Literal, Statement};
use indexmap::IndexMap;
use snap_base::MOST_ITEMS;
use snap_text::{StrView, print_utf8};
use std::alloc::{AllocError, AllocFailed, Global};

/// What the global object holds beside its own properties.
pub(crate) type Globals<'a> = IndexMap<&'a [u8], Literal<'a>>;

/// Why a script did not run to its end.
#[derive(Clone, Copy, Debug, PartialEq, Eq)]
pub(crate) enum Stop {
    /// It would print more than the limit.
    TooLong,
    /// Memory ran out.
    NoMemory,
}

/// Runs the statements, each on what those before it left.
pub(crate) fn evaluate<'a>(
    alloc: Global,
    statements: &[Statement<'a>],
    globals: &mut Globals<'a>,
    printed: &mut Vec<u8>,
) -> Result<(), Stop>
    requires { length printed.old.items ≤ MOST_ITEMS }
    ensures printed { OnOk result (printed.new.items ≡ printed.old.items ++ prints (map thin_of statements.now) (entries_of globals.old.entries)) }
    ensures globals { OnOk result (entries_of globals.new.entries ≡ leaves (map thin_of statements.now) (entries_of globals.old.entries)) }
    ensures fits { OnOk result (length printed.new.items ≤ MOST_ITEMS) }
    ensures too_long { IsErrOf result Stop.TooLong → MOST_ITEMS < length (printed.old.items ++ prints (map thin_of statements.now) (entries_of globals.old.entries)) }
{
    for statement in statements {
        perform(alloc, *statement, globals, printed)?;
    }
    Ok(())
}

fn perform<'a>(
    alloc: Global,
    statement: Statement<'a>,
    globals: &mut Globals<'a>,
    printed: &mut Vec<u8>,
) -> Result<(), Stop>
    requires { length printed.old.items ≤ MOST_ITEMS }
    ensures printed { OnOk result (printed.new.items ≡ printed.old.items ++ prints (thin_of statement.entry ∷ []) (entries_of globals.old.entries)) }
    ensures globals { OnOk result (entries_of globals.new.entries ≡ leaves (thin_of statement.entry ∷ []) (entries_of globals.old.entries)) }
    ensures fits { OnOk result (length printed.new.items ≤ MOST_ITEMS) }
    ensures too_long { IsErrOf result Stop.TooLong → MOST_ITEMS < length (printed.old.items ++ prints (thin_of statement.entry ∷ []) (entries_of globals.old.entries)) }
{
    match statement {
        Statement::Log(value) => log(alloc, value, printed),
        Statement::LogGlobal(name) => {
            let value = value_under(globals, name);
            log(alloc, value, printed)
        }
        Statement::Assign(name, value) => assign(globals, name, value),
    }
}

fn assign<'a>(globals: &mut Globals<'a>, name: &'a [u8], value: Literal<'a>) -> Result<(), Stop>
    ensures ok { OnOk result (entries_of globals.new.entries ≡ assigned (entries_of globals.old.entries) name.now (value_of value.entry)) }
    ensures err { result ≢ Err Stop.TooLong }
{
    match globals.insert(name, value) {
        Ok(_) => Ok(()),
        Err(_) => Err(Stop::NoMemory),
    }
}

fn value_under<'a>(globals: &Globals<'a>, name: &[u8]) -> Literal<'a>
    ensures { value_of result ≡ global_value (entries_of globals.now.entries) name.now }
{
    match globals.get(name) {
        Some(value) => *value,
        None => Literal::Undefined,
    }
}

fn log(alloc: Global, value: Literal<'_>, printed: &mut Vec<u8>) -> Result<(), Stop>
    requires { length printed.old.items ≤ MOST_ITEMS }
    ensures printed { OnOk result (printed.new.items ≡ printed.old.items ++ (text_of (value_of value.entry) ++ codes "\n")) }
    ensures fits { OnOk result (length printed.new.items ≤ MOST_ITEMS) }
    ensures too_long { IsErrOf result Stop.TooLong → MOST_ITEMS < length (printed.old.items ++ (text_of (value_of value.entry) ++ codes "\n")) }
{
    let mut line = Vec::new(alloc);
    if put_text(alloc, value, &mut line).is_err() {
        return Err(Stop::NoMemory);
    }
    if line.len() >= MOST_ITEMS as usize || printed.len() >= MOST_ITEMS as usize - line.len() {
        return Err(Stop::TooLong);
    }
    if printed.extend_from_slice(&line).is_err() || printed.push(b'\n').is_err() {
        return Err(Stop::NoMemory);
    }
    Ok(())
}

fn put_text(alloc: Global, value: Literal<'_>, out: &mut Vec<u8>) -> Result<(), AllocError>
    ensures { OnOk result (out.new.items ≡ out.old.items ++ text_of (value_of value.entry)) }
{
    match value {
        Literal::Undefined => out.extend_from_slice(b"undefined"),
        Literal::Null => out.extend_from_slice(b"null"),
        Literal::Bool(true) => out.extend_from_slice(b"true"),
        Literal::Bool(false) => out.extend_from_slice(b"false"),
        Literal::Int(n) => out.extend_from_slice(n.to_string(alloc)?.as_bytes()),
        Literal::Text(bytes) => put_units(alloc, bytes, out),
    }
}

fn put_units(alloc: Global, bytes: &[u8], out: &mut Vec<u8>) -> Result<(), AllocError>
    ensures { OnOk result (out.new.items ≡ out.old.items ++ utf8_of bytes.now) }
{
    let Ok(text) = StrView::One(bytes).copy(alloc) else {
        return Err(AllocError);
    };
    match print_utf8(&text, out) {
        Ok(()) => Ok(()),
        Err(_) => Err(AllocError),
    }
}

//! Texts that a store holds, as they are joined and cut, and what is held again.

ghost use Rattle.std.specs.Prelude.{◌≡◌, ◌≤◌, ◌-◌, IsSome, IfOk, is_some, drop, length, take};
ghost use Rattle.std.specs.Option.{option_map};
ghost use Rattle.snap_action.specs.Gives.{Gives, as_held};
ghost use Rattle.snap_graph.specs.declared.value.Value.TheVariants.{Text};
ghost use Rattle.snap_store.specs.Calls.{text_units, units_in};
ghost use Rattle.spec_values.specs.Access.{or_stop};
ghost use Rattle.spec_values.specs.Answer.{give};
ghost use Rattle.spec_values.specs.Operators.{joined};

use crate::calls::{hold_value, read_value};
use crate::fault::Abrupt;
use snap_base::NoMemory;
use snap_store::Store;

/// Whether a text is held.
pub fn is_text<S: Store>(store: &S, held: &S::Held) -> bool
    requires { S.owns store.now held.now }
    ensures { result ≡ is_some (text_units (S.meaning store.now held.now)) }
{
    store.text(held).is_some()
}

/// How many units a text has that is held; nothing where what is held is no text. Where they are 2^32 or more, the answer is
/// want of memory.
pub fn text_length<S: Store>(store: &S, held: &S::Held) -> Result<Option<u32>, NoMemory>
    requires { S.owns store.now held.now }
    ensures { IfOk result (λ count. option_map length (text_units (S.meaning store.now held.now)) ≡ count) }
{
    match store.text(held) {
        Some(text) => Ok(Some(counted(text.len())?)),
        None => Ok(None),
    }
}

// A count in 32 bits.
fn counted(count: usize) -> Result<u32, NoMemory>
    ensures { IfOk result (λ n. n ≡ count) }
{
    if count > u32::MAX as usize {
        return Err(NoMemory);
    }
    Ok(count as u32)
}

/// Two texts that are held, one behind the other, as one text (ECMA-262, 13.15.3).
pub fn join_texts<S: Store>(
    store: &mut S,
    left: &S::Held,
    right: &S::Held,
) -> Result<S::Held, Abrupt<S::Held>>
    requires left { S.owns store.old left.now }
    requires left_text { IsSome (text_units (S.meaning store.old left.now)) }
    requires right { S.owns store.old right.now }
    requires right_text { IsSome (text_units (S.meaning store.old right.now)) }
    ensures gives { Gives S.Store store.old store.new (as_held S.Store store.new) result
        (or_stop (joined (units_in (S.meaning store.old left.now)) (units_in (S.meaning store.old right.now)))) }
    ensures view { S.view store.new ≡ S.view store.old }
{
    Ok(store.join(left, right)?)
}

/// The part of a text that is held, from one place to another, as a text.
pub fn part_of_text<S: Store>(
    store: &mut S,
    held: &S::Held,
    from: u32,
    to: u32,
) -> Result<S::Held, Abrupt<S::Held>>
    requires owned { S.owns store.old held.now }
    requires text { IsSome (text_units (S.meaning store.old held.now)) }
    requires order { from ≤ to }
    requires within { to ≤ length (units_in (S.meaning store.old held.now)) }
    ensures gives { Gives S.Store store.old store.new (as_held S.Store store.new) result
        (give (Text (take (to - from) (drop from (units_in (S.meaning store.old held.now)))))) }
    ensures view { S.view store.new ≡ S.view store.old }
{
    Ok(store.part(held, from, to)?)
}

/// What is held, held once more. The units of a text are not copied.
pub fn hold_again<S: Store>(store: &mut S, held: &S::Held) -> Result<S::Held, Abrupt<S::Held>>
    requires { S.owns store.old held.now }
    ensures gives { Gives S.Store store.old store.new (as_held S.Store store.new) result (give (S.meaning store.old held.now)) }
    ensures view { S.view store.new ≡ S.view store.old }
{
    match text_length(store, held)? {
        Some(length) => part_of_text(store, held, 0, length),
        None => copy_plain(store, held),
    }
}

// What is held and no text, held once more.
fn copy_plain<S: Store>(store: &mut S, held: &S::Held) -> Result<S::Held, Abrupt<S::Held>>
    requires { S.owns store.old held.now }
    ensures gives { Gives S.Store store.old store.new (as_held S.Store store.new) result (give (S.meaning store.old held.now)) }
    ensures view { S.view store.new ≡ S.view store.old }
{
    let value = read_value(store, held)?;
    hold_value(store, &value)
}

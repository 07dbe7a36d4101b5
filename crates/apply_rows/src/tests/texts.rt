//! Texts that a store holds, called through the trait's bound.

ghost use Rattle.std.specs.Prelude.{◌≡◌, IfOk, IsSome, length, true};
ghost use Rattle.snap_graph.specs.declared.value.Value.TheVariants.{Text};
ghost use Rattle.snap_graph.specs.Values.{IsValue};
ghost use Rattle.snap_store.specs.Calls.{text_units};

mod plain;
mod speed;

use heap_words::Refused;
use snap_action::join_texts;
use snap_graph::Value;
use snap_store::{PlainStore, Store};
use snap_text::{OwnKeys, Units};
use std::alloc::Global;

/// A text, held.
fn held_text<S: Store>(alloc: Global, store: &mut S, units: &[u16]) -> Result<S::Held, Refused>
    ensures owned { IfOk result (λ held. S.owns store.new held) }
    ensures text { IfOk result (λ held. S.meaning store.new held ≡ Text units.now) }
    ensures value { IfOk result (λ held. IsValue (length (S.view store.new).nodes) (S.meaning store.new held)) }
    ensures view { S.view store.new ≡ S.view store.old }
    ensures later { S.later store.old store.new }
{
    let text = Units::of(alloc, units)?;
    Ok(store.hold(&Value::Text(text))?)
}

/// Whether two values that are held are texts.
fn are_texts<S: Store>(store: &S, left: &S::Held, right: &S::Held) -> bool
    requires left { S.owns store.now left.now }
    requires right { S.owns store.now right.now }
    ensures left { result ≡ true → IsSome (text_units (S.meaning store.now left.now)) }
    ensures right { result ≡ true → IsSome (text_units (S.meaning store.now right.now)) }
{
    store.text(left).is_some() && store.text(right).is_some()
}

/// Two texts, one behind the other. Of any other values it says that they are none.
fn joined<S: Store>(store: &mut S, left: &S::Held, right: &S::Held) -> Result<S::Held, Refused>
    requires left { S.owns store.old left.now }
    requires right { S.owns store.old right.now }
    ensures owned { IfOk result (λ held. S.owns store.new held) }
    ensures view { S.view store.new ≡ S.view store.old }
    ensures later { S.later store.old store.new }
{
    if !are_texts(store, left, right) {
        return Err(Refused::Row);
    }
    Ok(join_texts(store, left, right)?)
}

/// Whether what is held is this text.
fn reads<S: Store>(store: &S, held: &S::Held, units: &[u16]) -> Result<bool, Refused>
    requires { S.owns store.now held.now }
{
    match store.value(held)? {
        Value::Text(text) => Ok(text.units() == units),
        _ => Ok(false),
    }
}

/// What is tried over a plain store.
#[derive(Clone, Copy)]
enum Case {
    Cuts,
    Unlike,
    UnlikeCuts,
    Longest,
    Literal,
    Numbers,
    Prints,
    Renames,
    /// As many units as are put behind a text.
    Grows(u32),
    /// As many units and lengths as are read.
    Reads(u32),
    /// As many comparisons.
    Compares(u32),
    /// As many texts as are joined.
    Joins(u32),
}

/// What comes of it.
#[derive(Clone, Copy, Debug, PartialEq, Eq)]
enum Given {
    Truth(bool),
    Count(usize),
    Number(i64),
}

/// What comes of what is tried.
fn answer<S: Store>(alloc: Global, store: &mut S, case: Case) -> Result<Given, Refused> {
    match case {
        Case::Grows(count) => Ok(Given::Count(speed::grown_length(alloc, store, count)?)),
        Case::Reads(count) => Ok(Given::Number(speed::sum_of_reads(alloc, store, count)?)),
        Case::Compares(count) => Ok(Given::Number(speed::count_of_less(alloc, store, count)?)),
        _ => Ok(Given::Truth(holds(alloc, store, case)?)),
    }
}

/// Whether what is tried comes to what it should, where that is all that is asked.
fn holds<S: Store>(alloc: Global, store: &mut S, case: Case) -> Result<bool, Refused> {
    match case {
        Case::Cuts => plain::joins_and_cuts_two(alloc, store),
        Case::Unlike => plain::joins_unlike_two(alloc, store),
        Case::UnlikeCuts => plain::cuts_where_two_meet(alloc, store),
        Case::Longest => plain::keeps_the_limit(alloc, store),
        Case::Literal => plain::holds_a_literal(alloc, store),
        Case::Numbers => plain::holds_a_number(store),
        Case::Prints => plain::prints(alloc, store),
        Case::Renames => plain::renamed_to_an_index(alloc, store),
        Case::Joins(count) => speed::adds_fives(alloc, store, count),
        Case::Grows(_) | Case::Reads(_) | Case::Compares(_) => Ok(false),
    }
}

/// What comes of it over a plain store. The tests themselves are about no store, since each call at a store's own type is long to
/// prove.
fn answer_plain(alloc: Global, case: Case) -> Result<Given, Refused> {
    let mut store = PlainStore::new(alloc, OwnKeys::new(alloc))?;
    answer(alloc, &mut store, case)
}

//! What a plain store gives of the texts that it holds.

ghost use Rattle.std.specs.Prelude.{◌≡◌, IfOk, None, length};
ghost use Rattle.snap_action.specs.Literals.{StandsFor};
ghost use Rattle.snap_action.specs.Names.{IsKnown};
ghost use Rattle.snap_graph.specs.Values.{IsPlace, IsValue};

use super::*;
use heap_words::last_node;
use snap_action::{Literal, hold_literal, part_of_text, text_length};
use snap_apply::print_held;
use snap_arena::TextView;
use snap_base::{MOST_ITEMS, Stop};
use snap_object::{Abrupt, Name, get_by_name};
use std::test::Fail;

const A: &[u16] = &[0x61];

const B: &[u16] = &[0x62];

const AB: &[u16] = &[0x61, 0x62];

const BC: &[u16] = &[0x62, 0x63];

const CD: &[u16] = &[0x63, 0x64];

const ABCD: &[u16] = &[0x61, 0x62, 0x63, 0x64];

// A letter below 256, one above it, and half a pair with no other half.
const MIXED: &[u16] = &[0x61, 0x20AC, 0xD800];

/// The part of a text from one place to another. Where there is none it says so.
fn cut<S: Store>(store: &mut S, held: &S::Held, from: u32, to: u32) -> Result<S::Held, Refused>
    requires { S.owns store.old held.now }
    ensures owned { IfOk result (λ part. S.owns store.new part) }
    ensures later { S.later store.old store.new }
{
    match text_length(store, held)? {
        Some(length) if from <= to && to <= length => Ok(part_of_text(store, held, from, to)?),
        _ => Err(Refused::Row),
    }
}

/// Whether the part of a text from one place to another is this text.
fn reads_part<S: Store>(
    store: &mut S,
    held: &S::Held,
    places: (u32, u32),
    units: &[u16],
) -> Result<bool, Refused>
    requires { S.owns store.old held.now }
    ensures { S.later store.old store.new }
{
    let part = cut(store, held, places.0, places.1)?;
    reads(store, &part, units)
}

/// Whether two texts, one behind the other, are this text.
fn reads_joined<S: Store>(
    store: &mut S,
    left: &S::Held,
    right: &S::Held,
    units: &[u16],
) -> Result<bool, Refused>
    requires left { S.owns store.old left.now }
    requires right { S.owns store.old right.now }
    ensures { S.later store.old store.new }
{
    let whole = joined(store, left, right)?;
    reads(store, &whole, units)
}

/// Whether the text `abcd` is that, whole and in parts.
fn reads_parts<S: Store>(store: &mut S, whole: &S::Held) -> Result<bool, Refused>
    requires { S.owns store.old whole.now }
    ensures { S.later store.old store.new }
{
    let middle = reads_part(store, whole, (1, 3), BC)?;
    let none = reads_part(store, whole, (4, 4), &[])?;
    Ok(middle && none && reads(store, whole, ABCD)?)
}

/// Whether the text `abcd` is that, whole and in parts, behind the joins of others too.
fn reads_whole<S: Store>(store: &mut S, left: &S::Held, whole: &S::Held) -> Result<bool, Refused>
    requires left { S.owns store.old left.now }
    requires whole { S.owns store.old whole.now }
    ensures { S.later store.old store.new }
{
    let other = reads_joined(store, left, left, &[0x61, 0x62, 0x61, 0x62])?;
    Ok(other && reads_parts(store, whole)?)
}

/// Whether two texts are `ab` and `cd`.
fn reads_both<S: Store>(store: &S, left: &S::Held, right: &S::Held) -> Result<bool, Refused>
    requires left { S.owns store.now left.now }
    requires right { S.owns store.now right.now }
{
    Ok(reads(store, left, AB)? && reads(store, right, CD)?)
}

/// Whether `ab` and `cd` are one text when they are joined, and each reads the same behind that.
fn joins_and_cuts<S: Store>(store: &mut S, left: &S::Held, right: &S::Held) -> Result<bool, Refused>
    requires left { S.owns store.old left.now }
    requires right { S.owns store.old right.now }
{
    let whole = joined(store, left, right)?;
    let found = reads_whole(store, left, &whole)?;
    Ok(found && reads_both(store, left, right)?)
}

/// That, of the two texts, held.
pub(super) fn joins_and_cuts_two<S: Store>(alloc: Global, store: &mut S) -> Result<bool, Refused> {
    let left = held_text(alloc, store, AB)?;
    let right = held_text(alloc, store, CD)?;
    joins_and_cuts(store, &left, &right)
}

#[test]
fn joins_and_cuts_texts(rt: HostRuntime) -> Result<(), Fail> {
    assert_eq!(rt; answer_plain(rt.alloc(), Case::Cuts)?, Given::Truth(true));
    Ok(())
}

/// Whether a text of wide units and one of bytes are joined on either side of one another.
fn joins_unlike<S: Store>(store: &mut S, wide: &S::Held, narrow: &S::Held) -> Result<bool, Refused>
    requires wide { S.owns store.old wide.now }
    requires narrow { S.owns store.old narrow.now }
{
    let behind = reads_joined(store, narrow, wide, &[0x61, 0x62, 0x61, 0x20AC, 0xD800])?;
    let before = reads_joined(store, wide, narrow, &[0x61, 0x20AC, 0xD800, 0x61, 0x62])?;
    Ok(behind && before && reads(store, wide, MIXED)?)
}

/// That, of two texts, held.
pub(super) fn joins_unlike_two<S: Store>(alloc: Global, store: &mut S) -> Result<bool, Refused> {
    let wide = held_text(alloc, store, MIXED)?;
    let narrow = held_text(alloc, store, AB)?;
    joins_unlike(store, &wide, &narrow)
}

#[test]
fn joins_unlike_texts(rt: HostRuntime) -> Result<(), Fail> {
    assert_eq!(rt; answer_plain(rt.alloc(), Case::Unlike)?, Given::Truth(true));
    Ok(())
}

/// Whether a text of bytes with one of wide units behind it is cut where they meet.
fn cuts_where_they_meet<S: Store>(
    store: &mut S,
    narrow: &S::Held,
    wide: &S::Held,
) -> Result<bool, Refused>
    requires narrow { S.owns store.old narrow.now }
    requires wide { S.owns store.old wide.now }
{
    let whole = joined(store, narrow, wide)?;
    reads_part(store, &whole, (1, 4), &[0x62, 0x61, 0x20AC])
}

/// That, of two texts, held.
pub(super) fn cuts_where_two_meet<S: Store>(alloc: Global, store: &mut S) -> Result<bool, Refused> {
    let narrow = held_text(alloc, store, AB)?;
    let wide = held_text(alloc, store, MIXED)?;
    cuts_where_they_meet(store, &narrow, &wide)
}

#[test]
fn cuts_unlike_texts(rt: HostRuntime) -> Result<(), Fail> {
    assert_eq!(rt;
        answer_plain(rt.alloc(), Case::UnlikeCuts)?,
        Given::Truth(true)
    );
    Ok(())
}

/// A text of one unit, doubled so many times.
fn doubled<S: Store>(alloc: Global, store: &mut S, times: u32) -> Result<S::Held, Refused>
    ensures { IfOk result (λ held. S.owns store.new held) }
{
    let mut text = held_text(alloc, store, A)?;
    for _turn in 0..times {
        text = joined(store, &text, &text)?;
    }
    Ok(text)
}

/// Why two texts are not joined.
fn why_apart<S: Store>(
    store: &mut S,
    left: &S::Held,
    right: &S::Held,
) -> Result<Option<Stop>, Refused>
    requires left { S.owns store.old left.now }
    requires right { S.owns store.old right.now }
    ensures later { S.later store.old store.new }
{
    if !are_texts(store, left, right) {
        return Err(Refused::Row);
    }
    match join_texts(store, left, right) {
        Ok(_) => Ok(None),
        Err(Abrupt::Stopped(why)) => Ok(Some(why)),
        Err(fault) => Err(Refused::from(fault)),
    }
}

/// Why a text is not joined with this one, behind it and before it.
fn why_with<S: Store>(
    alloc: Global,
    store: &mut S,
    held: &S::Held,
    units: &[u16],
) -> Result<[Option<Stop>; 2], Refused>
    requires { S.owns store.old held.now }
    ensures { S.later store.old store.new }
{
    let other = held_text(alloc, store, units)?;
    let behind = why_apart(store, held, &other)?;
    let before = why_apart(store, &other, held)?;
    Ok([behind, before])
}

/// The first and the last unit of a text, and how many units there are.
fn ends<S: Store>(store: &S, held: &S::Held) -> (Option<u16>, Option<u16>, usize)
    requires { S.owns store.now held.now }
{
    match store.text(held) {
        Some(text) => (
            text.unit(0),
            text.unit(text.len().saturating_sub(1)),
            text.len(),
        ),
        None => (None, None, 0),
    }
}

/// Why the longest text is not joined with one unit, with itself and with the empty text.
fn why_longest<S: Store>(
    alloc: Global,
    store: &mut S,
    text: &S::Held,
) -> Result<([Option<Stop>; 2], Option<Stop>, [Option<Stop>; 2]), Refused>
    requires { S.owns store.old text.now }
    ensures { S.later store.old store.new }
{
    let unit = why_with(alloc, store, text, B)?;
    let twice = why_apart(store, text, text)?;
    let none = why_with(alloc, store, text, &[])?;
    Ok((unit, twice, none))
}

/// Whether the longest text is joined with the empty text alone, and stays what it is.
pub(super) fn keeps_the_limit<S: Store>(alloc: Global, store: &mut S) -> Result<bool, Refused> {
    let text = doubled(alloc, store, 24)?;
    let (unit, twice, none) = why_longest(alloc, store, &text)?;
    let long = Some(Stop::TooLong);
    Ok(
        unit == [long, long]
            && twice == long
            && none == [None, None]
            && ends(store, &text) == (Some(0x61), Some(0x61), MOST_ITEMS as usize),
    )
}

// Twice 1, 24 times, is the most units. Node.js has longer texts.
#[test]
fn joins_up_to_the_limit(rt: HostRuntime) -> Result<(), Fail> {
    assert_eq!(rt;
        answer_plain(rt.alloc(), Case::Longest)?,
        Given::Truth(true)
    );
    Ok(())
}

/// A literal, held once more.
fn held_literal<S: Store>(store: &mut S, literal: &mut Literal<S::Held>) -> Result<S::Held, Refused>
    requires place { IsPlace (length (S.view store.old).nodes) literal.old.value }
    requires known { StandsFor S.Store store.old literal.old }
    ensures owned { IfOk result (λ held. S.owns store.new held) }
    ensures place { IsPlace (length (S.view store.new).nodes) literal.new.value }
    ensures known { StandsFor S.Store store.new literal.new }
    ensures later { S.later store.old store.new }
{
    Ok(hold_literal(store, literal)?)
}

/// A literal, held twice.
fn held_twice<S: Store>(
    store: &mut S,
    literal: &mut Literal<S::Held>,
) -> Result<(S::Held, S::Held), Refused>
    requires place { IsPlace (length (S.view store.old).nodes) literal.old.value }
    requires known { StandsFor S.Store store.old literal.old }
    ensures first { IfOk result (λ two. S.owns store.new two.0) }
    ensures second { IfOk result (λ two. S.owns store.new two.1) }
{
    let first = held_literal(store, literal)?;
    let second = held_literal(store, literal)?;
    Ok((first, second))
}

/// Whether two texts are `ab` each, behind a join of the two as well.
fn reads_twice<S: Store>(store: &mut S, first: &S::Held, second: &S::Held) -> Result<bool, Refused>
    requires first { S.owns store.old first.now }
    requires second { S.owns store.old second.now }
{
    let whole = reads_joined(store, first, second, &[0x61, 0x62, 0x61, 0x62])?;
    Ok(whole && reads(store, first, AB)? && reads(store, second, AB)?)
}

/// Whether a literal, held twice, is the same text each time, behind a join of the two as well.
pub(super) fn holds_a_literal<S: Store>(alloc: Global, store: &mut S) -> Result<bool, Refused> {
    let mut literal = Literal::new(Value::Text(Units::of(alloc, AB)?));
    let (first, second) = held_twice(store, &mut literal)?;
    reads_twice(store, &first, &second)
}

/// The numbers that a literal of 7 gives, held twice.
fn numbers<S: Store>(store: &mut S) -> Result<[Option<i64>; 2], Refused> {
    let mut literal = Literal::new(Value::Int(7));
    let (first, second) = held_twice(store, &mut literal)?;
    Ok([number(store, &first)?, number(store, &second)?])
}

/// Whether they are 7.
pub(super) fn holds_a_number<S: Store>(store: &mut S) -> Result<bool, Refused> {
    Ok(numbers(store)? == [Some(7), Some(7)])
}

/// The number that is held, if it is one.
fn number<S: Store>(store: &S, held: &S::Held) -> Result<Option<i64>, Refused>
    requires { S.owns store.now held.now }
{
    match store.value(held)? {
        Value::Int(number) => Ok(Some(number)),
        _ => Ok(None),
    }
}

#[test]
fn holds_literals(rt: HostRuntime) -> Result<(), Fail> {
    assert_eq!(rt;
        answer_plain(rt.alloc(), Case::Literal)?,
        Given::Truth(true)
    );
    Ok(())
}

#[test]
fn holds_literal_numbers(rt: HostRuntime) -> Result<(), Fail> {
    assert_eq!(rt;
        answer_plain(rt.alloc(), Case::Numbers)?,
        Given::Truth(true)
    );
    Ok(())
}

/// Prints a value behind what was printed; where evaluation stops, says why.
fn printed<S: Store>(
    alloc: Global,
    store: &mut S,
    value: &Value,
    out: &mut Vec<u8>,
) -> Result<Option<Stop>, Refused>
    requires { IsValue (length (S.view store.old).nodes) value.now }
{
    let held = store.hold(value)?;
    match print_held(alloc, store, &held, out) {
        Ok(()) => Ok(None),
        Err(Abrupt::Stopped(why)) => Ok(Some(why)),
        Err(fault) => Err(Refused::from(fault)),
    }
}

/// Prints a text behind what was printed.
fn print_text<S: Store>(
    alloc: Global,
    store: &mut S,
    units: &[u16],
    out: &mut Vec<u8>,
) -> Result<Option<Stop>, Refused> {
    let text = Value::Text(Units::of(alloc, units)?);
    printed(alloc, store, &text, out)
}

/// Prints a node.
fn print_node<S: Store>(
    alloc: Global,
    store: &mut S,
    out: &mut Vec<u8>,
) -> Result<Option<Stop>, Refused> {
    let node = last_node(store)?;
    printed(alloc, store, &Value::Node(node), out)
}

/// Prints a text, a number, a truth value, null and undefined, one behind the other, and a node before them.
fn print_all<S: Store>(
    alloc: Global,
    store: &mut S,
    out: &mut Vec<u8>,
) -> Result<[Option<Stop>; 6], Refused> {
    let stopped = print_node(alloc, store, out)?;
    let first = print_text(alloc, store, MIXED, out)?;
    let second = printed(alloc, store, &Value::Int(-12), out)?;
    let third = printed(alloc, store, &Value::Bool(true), out)?;
    let fourth = printed(alloc, store, &Value::Null, out)?;
    let fifth = printed(alloc, store, &Value::Undefined, out)?;
    Ok([first, second, third, fourth, fifth, stopped])
}

/// Whether that prints what it should, and stops at the node alone.
pub(super) fn prints<S: Store>(alloc: Global, store: &mut S) -> Result<bool, Refused> {
    let mut out = Vec::new(alloc);
    let why = print_all(alloc, store, &mut out)?;
    let stopped = Some(Stop::NotInProfile);
    let expected = b"a\xE2\x82\xAC\xEF\xBF\xBD-12truenullundefined";
    Ok(why == [None, None, None, None, None, stopped] && out.as_slice() == expected.as_slice())
}

// Half a pair with no other half is printed as U+FFFD, the replacement character, as Node.js does.
#[test]
fn prints_what_is_held(rt: HostRuntime) -> Result<(), Fail> {
    assert_eq!(rt; answer_plain(rt.alloc(), Case::Prints)?, Given::Truth(true));
    Ok(())
}

/// A name that is an array index, and was none before.
fn renamed_name(alloc: Global) -> Result<Name, Refused>
    ensures { IfOk result (λ name. name.key ≡ None) }
{
    let mut name = Name::new(Units::of(alloc, AB)?);
    name.rename(alloc, &TextView::Wide(&[0x31]))?;
    Ok(name)
}

/// Whether what a name finds in a text is this text.
fn finds<S: Store>(
    alloc: Global,
    store: &mut S,
    text: &S::Held,
    name: &mut Name,
    units: &[u16],
) -> Result<bool, Refused>
    requires owned { S.owns store.old text.now }
    requires known { IsKnown (S.key_of store.old) name.old }
{
    let unit = get_by_name(alloc, store, text, name)?;
    reads(store, &unit, units)
}

/// Whether an array index finds a unit of a text, by a name that was no index before.
pub(super) fn renamed_to_an_index<S: Store>(alloc: Global, store: &mut S) -> Result<bool, Refused> {
    let text = held_text(alloc, store, ABCD)?;
    let mut name = renamed_name(alloc)?;
    finds(alloc, store, &text, &mut name, B)
}

#[test]
fn renames_to_an_index(rt: HostRuntime) -> Result<(), Fail> {
    assert_eq!(rt;
        answer_plain(rt.alloc(), Case::Renames)?,
        Given::Truth(true)
    );
    Ok(())
}

//! Loops that `bench/texts.py` measures: each test that takes many turns stands beside one that takes one.

ghost use Rattle.std.specs.Prelude.{◌≡◌, IfOk, length};
ghost use Rattle.snap_action.specs.Names.{IsKnown};
ghost use Rattle.snap_graph.specs.Values.{IsValue};

use super::*;
use snap_apply::{BinaryOp, apply_binary};
use snap_object::{Name, get, get_by_name};
use snap_text::StrView;
use std::test::Fail;

const X: &[u16] = &[0x78];

const FIVE: &[u16] = &[0x68, 0x65, 0x6C, 0x6C, 0x6F];

const OTHER: &[u16] = &[0x68, 0x65, 0x6C, 0x6C, 0x70];

const TEN: &[u16] = &[0x68, 0x65, 0x6C, 0x6C, 0x6F, 0x68, 0x65, 0x6C, 0x6C, 0x70];

/// How many turns a measured test takes that is not named by its number.
const MANY: u32 = 1_000_000;

/// The empty text with one unit put behind it so many times.
fn grown<S: Store>(alloc: Global, store: &mut S, count: u32) -> Result<S::Held, Refused>
    ensures { IfOk result (λ held. S.owns store.new held) }
{
    let unit = held_text(alloc, store, X)?;
    let mut text = held_text(alloc, store, &[])?;
    for _turn in 0..count {
        text = joined(store, &text, &unit)?;
    }
    Ok(text)
}

/// How many units a text has that is grown by so many.
pub(super) fn grown_length<S: Store>(
    alloc: Global,
    store: &mut S,
    count: u32,
) -> Result<usize, Refused> {
    let text = grown(alloc, store, count)?;
    match store.text(&text) {
        Some(view) => Ok(view.len()),
        None => Err(Refused::Row),
    }
}

#[test]
fn joins_one_unit_once(rt: HostRuntime) -> Result<(), Fail> {
    assert_eq!(rt; answer_plain(rt.alloc(), Case::Grows(1))?, Given::Count(1));
    Ok(())
}

#[test]
fn joins_one_unit_100000(rt: HostRuntime) -> Result<(), Fail> {
    assert_eq!(rt;
        answer_plain(rt.alloc(), Case::Grows(100_000))?,
        Given::Count(100_000)
    );
    Ok(())
}

#[test]
fn joins_one_unit_200000(rt: HostRuntime) -> Result<(), Fail> {
    assert_eq!(rt;
        answer_plain(rt.alloc(), Case::Grows(200_000))?,
        Given::Count(200_000)
    );
    Ok(())
}

/// The first unit of a text, or 0.
fn first_unit<S: Store>(store: &S, held: &S::Held) -> i64
    requires { S.owns store.now held.now }
{
    match store.text(held) {
        Some(text) => match text.unit(0) {
            Some(unit) => i64::from(unit),
            None => 0,
        },
        None => 0,
    }
}

/// The unit at a place of a text, or 0.
fn unit_at<S: Store>(
    alloc: Global,
    store: &mut S,
    text: &S::Held,
    place: u32,
) -> Result<i64, Refused>
    requires { S.owns store.old text.now }
    ensures { S.later store.old store.new }
{
    match get(alloc, store, text, &Value::Int(i64::from(place))) {
        Ok(unit) => Ok(first_unit(store, &unit)),
        Err(fault) => Err(Refused::from(fault)),
    }
}

/// The number that a text has under a name, or 0.
fn number_by_name<S: Store>(
    alloc: Global,
    store: &mut S,
    text: &S::Held,
    name: &mut Name,
) -> Result<i64, Refused>
    requires owned { S.owns store.old text.now }
    requires known { IsKnown (S.key_of store.old) name.old }
    ensures known { IsKnown (S.key_of store.new) name.new }
    ensures later { S.later store.old store.new }
{
    let held = get_by_name(alloc, store, text, name)?;
    match store.value(&held)? {
        Value::Int(number) => Ok(number),
        _ => Ok(0),
    }
}

/// The sum of a unit of a text and of the text's length.
fn unit_and_length<S: Store>(
    alloc: Global,
    store: &mut S,
    text: &S::Held,
    name: &mut Name,
    place: u32,
) -> Result<i64, Refused>
    requires owned { S.owns store.old text.now }
    requires known { IsKnown (S.key_of store.old) name.old }
    ensures known { IsKnown (S.key_of store.new) name.new }
    ensures later { S.later store.old store.new }
{
    let unit = unit_at(alloc, store, text, place)?;
    let length = number_by_name(alloc, store, text, name)?;
    Ok(unit.wrapping_add(length))
}

/// That sum, so many times, for one place of a hundred after the other.
fn units_and_lengths<S: Store>(
    alloc: Global,
    store: &mut S,
    text: &S::Held,
    count: u32,
) -> Result<i64, Refused>
    requires { S.owns store.old text.now }
{
    let mut name = Name::new(StrView::One(b"length").copy(alloc)?);
    let mut total = 0_i64;
    for turn in 0..count {
        let more = unit_and_length(alloc, store, text, &mut name, turn % 100)?;
        total = total.wrapping_add(more);
    }
    Ok(total)
}

/// That sum, of a text of a hundred units, which are the numbers from 32 on.
pub(super) fn sum_of_reads<S: Store>(
    alloc: Global,
    store: &mut S,
    count: u32,
) -> Result<i64, Refused> {
    let mut units = Vec::new(alloc);
    for unit in 32_u16..132 {
        units.push(unit)?;
    }
    let text = held_text(alloc, store, units.as_slice())?;
    units_and_lengths(alloc, store, &text, count)
}

#[test]
fn reads_units_once(rt: HostRuntime) -> Result<(), Fail> {
    assert_eq!(rt;
        answer_plain(rt.alloc(), Case::Reads(1))?,
        Given::Number(132)
    );
    Ok(())
}

// The units are 8150 in sum, 10000 times, and the length is 100, a million times.
#[test]
fn reads_units_many(rt: HostRuntime) -> Result<(), Fail> {
    assert_eq!(rt;
        answer_plain(rt.alloc(), Case::Reads(MANY))?,
        Given::Number(181_500_000)
    );
    Ok(())
}

/// Whether an operator finds two values true.
fn is_found<S: Store>(
    alloc: Global,
    store: &mut S,
    op: BinaryOp,
    left: &S::Held,
    right: &S::Held,
) -> Result<bool, Refused>
    requires left { S.owns store.old left.now }
    requires left_value { IsValue (length (S.view store.old).nodes) (S.meaning store.old left.now) }
    requires right { S.owns store.old right.now }
    requires right_value { IsValue (length (S.view store.old).nodes) (S.meaning store.old right.now) }
    ensures view { S.view store.new ≡ S.view store.old }
    ensures later { S.later store.old store.new }
{
    let held = apply_binary(alloc, store, op, left, right)?;
    match store.value(&held)? {
        Value::Bool(found) => Ok(found),
        _ => Err(Refused::Row),
    }
}

/// How many of so many comparisons of two values find the left one less.
fn times_less<S: Store>(
    alloc: Global,
    store: &mut S,
    left: &S::Held,
    right: &S::Held,
    count: u32,
) -> Result<u32, Refused>
    requires left { S.owns store.old left.now }
    requires left_value { IsValue (length (S.view store.old).nodes) (S.meaning store.old left.now) }
    requires right { S.owns store.old right.now }
    requires right_value { IsValue (length (S.view store.old).nodes) (S.meaning store.old right.now) }
{
    let mut total = 0_u32;
    for _turn in 0..count {
        if is_found(alloc, store, BinaryOp::Less, left, right)? {
            total = total.wrapping_add(1);
        }
    }
    Ok(total)
}

/// How many of so many comparisons find a text of five units less than another, which it is.
pub(super) fn count_of_less<S: Store>(
    alloc: Global,
    store: &mut S,
    count: u32,
) -> Result<i64, Refused> {
    let left = held_text(alloc, store, FIVE)?;
    let right = held_text(alloc, store, OTHER)?;
    Ok(i64::from(times_less(alloc, store, &left, &right, count)?))
}

#[test]
fn compares_once(rt: HostRuntime) -> Result<(), Fail> {
    assert_eq!(rt;
        answer_plain(rt.alloc(), Case::Compares(1))?,
        Given::Number(1)
    );
    Ok(())
}

#[test]
fn compares_many(rt: HostRuntime) -> Result<(), Fail> {
    assert_eq!(rt;
        answer_plain(rt.alloc(), Case::Compares(MANY))?,
        Given::Number(i64::from(MANY))
    );
    Ok(())
}

/// What `+` gives of two values.
fn added<S: Store>(
    alloc: Global,
    store: &mut S,
    left: &S::Held,
    right: &S::Held,
) -> Result<S::Held, Refused>
    requires left { S.owns store.old left.now }
    requires left_value { IsValue (length (S.view store.old).nodes) (S.meaning store.old left.now) }
    requires right { S.owns store.old right.now }
    requires right_value { IsValue (length (S.view store.old).nodes) (S.meaning store.old right.now) }
    ensures owned { IfOk result (λ held. S.owns store.new held) }
    ensures view { S.view store.new ≡ S.view store.old }
    ensures later { S.later store.old store.new }
{
    Ok(apply_binary(alloc, store, BinaryOp::Add, left, right)?)
}

/// What `+` gives of two values, the last of so many times.
fn added_last<S: Store>(
    alloc: Global,
    store: &mut S,
    left: &S::Held,
    right: &S::Held,
    count: u32,
) -> Result<S::Held, Refused>
    requires left { S.owns store.old left.now }
    requires left_value { IsValue (length (S.view store.old).nodes) (S.meaning store.old left.now) }
    requires right { S.owns store.old right.now }
    requires right_value { IsValue (length (S.view store.old).nodes) (S.meaning store.old right.now) }
    ensures { IfOk result (λ held. S.owns store.new held) }
{
    for _turn in 1..count {
        added(alloc, store, left, right)?;
    }
    added(alloc, store, left, right)
}

/// Whether two texts are one of ten units, the last of so many times.
fn adds_ten<S: Store>(
    alloc: Global,
    store: &mut S,
    left: &S::Held,
    right: &S::Held,
    count: u32,
) -> Result<bool, Refused>
    requires left { S.owns store.old left.now }
    requires left_value { IsValue (length (S.view store.old).nodes) (S.meaning store.old left.now) }
    requires right { S.owns store.old right.now }
    requires right_value { IsValue (length (S.view store.old).nodes) (S.meaning store.old right.now) }
{
    let last = added_last(alloc, store, left, right, count)?;
    reads(store, &last, TEN)
}

/// Whether two texts of five units are one of ten, the last of so many times.
pub(super) fn adds_fives<S: Store>(
    alloc: Global,
    store: &mut S,
    count: u32,
) -> Result<bool, Refused> {
    let left = held_text(alloc, store, FIVE)?;
    let right = held_text(alloc, store, OTHER)?;
    adds_ten(alloc, store, &left, &right, count)
}

#[test]
fn joins_fives_once(rt: HostRuntime) -> Result<(), Fail> {
    assert_eq!(rt;
        answer_plain(rt.alloc(), Case::Joins(1))?,
        Given::Truth(true)
    );
    Ok(())
}

#[test]
fn joins_fives_many(rt: HostRuntime) -> Result<(), Fail> {
    assert_eq!(rt;
        answer_plain(rt.alloc(), Case::Joins(MANY))?,
        Given::Truth(true)
    );
    Ok(())
}

//! What is asked of values that a store holds, beside what Node.js gives of the same: `node bench/questions.js` asks it again.
//!
//! A row is a question and its answer: what `typeof` gives, whether the value can be called, and its text. A node is written as
//! # with its number. The text of a node is not in this profile, and evaluation stops there (`NOT_IN_PROFILE`).

ghost use Rattle.snap_action.specs.Gives.{Owns, cut_of};

use super::operators::beside_node::is_held_given;
use heap_words::{Refused, last_node, new_node, value_of};
use snap_action::Abrupt;
use snap_apply::{TypeWord, is_callable, spell_held, type_of};
use snap_graph::{Kind, Value};
use snap_store::{PlainStore, Store};
use snap_text::OwnKeys;
use std::alloc::Global;
use std::test::Fail;

/// Node.js gives these answers.
const SAME: &str = "\
typeof undefined = undefined
typeof null = object
typeof true = boolean
typeof false = boolean
typeof 0 = number
typeof -7 = number
typeof 9007199254740991 = number
typeof '' = string
typeof 'a' = string
typeof 'undefined' = string
typeof 'éa' = string
typeof #0 = object
typeof #1 = function
typeof #2 = object
typeof #4 = object
typeof #6 = object
typeof #10 = function
typeof #15 = function
typeof #19 = object
typeof #24 = function
typeof #29 = function
typeof #62 = object
typeof #63 = object
typeof #64 = function
typeof #65 = function
typeof #66 = object
typeof #67 = object
typeof #68 = object
callable undefined = false
callable null = false
callable 0 = false
callable 'a' = false
callable #0 = false
callable #1 = true
callable #2 = false
callable #4 = false
callable #6 = false
callable #10 = true
callable #15 = true
callable #19 = false
callable #24 = true
callable #29 = true
callable #62 = false
callable #63 = false
callable #64 = true
callable #65 = true
callable #66 = false
callable #67 = false
callable #68 = false
String undefined = 'undefined'
String null = 'null'
String true = 'true'
String false = 'false'
String 0 = '0'
String -7 = '-7'
String 9007199254740991 = '9007199254740991'
String '' = ''
String 'a' = 'a'
String 'undefined' = 'undefined'
String 'éa' = 'éa'
String -9007199254740991 = '-9007199254740991'
String 10 = '10'
String -1 = '-1'
String 4294967296 = '4294967296'
";

/// Node.js gives a text of each.
const NOT_IN_PROFILE: &str = "\
String #0 = NotInProfile
String #10 = NotInProfile
String #62 = NotInProfile
String #63 = NotInProfile
String #66 = NotInProfile
";

// Makes the nodes from number 62 on, one of each kind.
fn make_nodes<S: Store>(store: &mut S) -> Result<(), Refused> {
    new_node(store, Kind::Plain, &Value::Null)?;
    new_node(store, Kind::Array, &Value::Null)?;
    new_node(store, Kind::Function { script: 0, tree: 0 }, &Value::Null)?;
    new_node(store, Kind::Native { native: 62 }, &Value::Null)?;
    new_node(store, Kind::Error, &Value::Null)?;
    new_node(store, Kind::Map, &Value::Null)?;
    new_node(store, Kind::Set, &Value::Null)?;
    Ok(())
}

// What a row asks.
#[derive(Clone, Copy)]
enum Question {
    Type,
    Callable,
    Text,
}

// What a question is, as it is written.
fn question_of(word: &str) -> Option<Question> {
    match word {
        "typeof" => Some(Question::Type),
        "callable" => Some(Question::Callable),
        "String" => Some(Question::Text),
        _ => None,
    }
}

// Whether the question of a row has its answer.
fn is_answered<S: Store>(alloc: Global, store: &mut S, row: &str) -> Result<bool, Refused> {
    let Some((asked, answer)) = row.split_once(" = ") else {
        return Err(Refused::Row);
    };
    let Some((verb, word)) = asked.split_once(' ') else {
        return Err(Refused::Row);
    };
    let Some(question) = question_of(verb) else {
        return Err(Refused::Row);
    };
    let last = last_node(store)?;
    let value = value_of(alloc, last, word)?;
    let held = store.hold(&value)?;
    match question {
        Question::Type => is_type(type_of(store, &held), answer),
        Question::Callable => is_told(is_callable(store, &held), answer),
        Question::Text => is_spelled(alloc, store, &held, answer),
    }
}

// Whether a value that is held has this text.
fn is_spelled<S: Store>(
    alloc: Global,
    store: &mut S,
    held: &S::Held,
    answer: &str,
) -> Result<bool, Refused>
    requires { S.owns store.old held.now }
{
    let given = spell_held(alloc, store, held);
    is_held_given(alloc, store, given, answer)
}

// Whether the type that was told is this word.
fn is_type<H: Drop>(given: Result<TypeWord, Abrupt<H>>, answer: &str) -> Result<bool, Refused> {
    Ok(given?.text() == answer.as_bytes())
}

// Whether the answer that was told is this word.
fn is_told<H: Drop>(given: Result<bool, Abrupt<H>>, answer: &str) -> Result<bool, Refused> {
    match given? {
        true => Ok(answer == "true"),
        false => Ok(answer == "false"),
    }
}

// The first row of a table that is not right.
fn first_wrong_of<S: Store>(
    alloc: Global,
    store: &mut S,
    table: &'static str,
) -> Result<Option<&'static str>, Refused> {
    for row in table.lines() {
        if !is_answered(alloc, store, row)? {
            return Ok(Some(row));
        }
    }
    Ok(None)
}

// The first row that is not right over a plain store.
fn first_wrong(alloc: Global) -> Result<Option<&'static str>, Refused> {
    let mut store = PlainStore::new(alloc, OwnKeys::new(alloc))?;
    make_nodes(&mut store)?;
    for table in [SAME, NOT_IN_PROFILE] {
        let wrong = first_wrong_of(alloc, &mut store, table)?;
        if wrong.is_some() {
            return Ok(wrong);
        }
    }
    Ok(None)
}

#[test]
fn answers_as_node_does(rt: HostRuntime) -> Result<(), Fail> {
    assert_eq!(rt; first_wrong(rt.alloc())?, None);
    Ok(())
}

//! Property access and tests of own properties beside what Node.js gives of the same objects: `node bench/properties.js` asks it again.
//!
//! A row is one or more steps, and what the last one comes to. A node is written as # with its number; those from
//! 62 on are made for each row anew. The profile differs from Node.js in three ways, and each has a table of its
//! own:
//!
//! - some names, and some writes and deletes of elements, stop evaluation with `NotInProfile` (`NOT_IN_PROFILE`);
//! - the objects that are there from the start are frozen (`FROZEN`);
//! - the elements and the length of an array are read of the array alone (`ALONE`).

use super::samples::{PROPERTIES, make_objects};
use super::steps::{By, Outcome, step};
use crate::tests::told_keys::ToldKeys;
use heap_words::{Refused, is_value_of};
use snap_base::Stop;
use snap_store::{PlainStore, Store};
use snap_text::{NoMemory, Units};
use std::alloc::Global;
use std::test::Fail;

/// Node.js gives these answers.
const SAME: &str = "\
get #62 'a' = 1
get #62 'b' = 'x'
get #62 'c' = undefined
get #62 'd' = undefined
get #62 '' = undefined
get #62 'constructor' = #10
get #62 'hasOwnProperty' = #24
get #63 'a' = 1
get #63 'b' = 'x'
get #63 'c' = 3
get #63 'd' = undefined
get #63 '' = undefined
get #63 'constructor' = #10
get #63 'hasOwnProperty' = #24
get #72 'a' = true
get #72 'b' = undefined
get #72 'c' = undefined
get #72 'd' = undefined
get #72 '' = undefined
get #72 'constructor' = undefined
get #72 'hasOwnProperty' = undefined
get #74 'a' = 1
get #74 'b' = 'x'
get #74 'c' = 3
get #74 'd' = undefined
get #74 '' = undefined
get #74 'constructor' = #10
get #74 'hasOwnProperty' = #24
get #64 0 = 1
get #64 1 = 'y'
get #64 '0' = 1
get #64 '1' = 'y'
get #64 2 = #62
get #64 '2' = #62
get #64 3 = undefined
get #64 -1 = undefined
get #64 '-1' = undefined
get #64 '01' = undefined
get #64 '00' = undefined
get #64 '1.0' = undefined
get #64 '4294967294' = undefined
get #64 4294967295 = undefined
get #64 '4294967295' = undefined
get #64 'length' = 3
get #64 'push' = #31
get #64 'k' = undefined
get #64 true = undefined
get #64 null = undefined
get #64 undefined = undefined
get #65 0 = 5
get #65 1 = 6
get #65 '0' = 5
get #65 '1' = 6
get #65 2 = undefined
get #65 '2' = undefined
get #65 3 = undefined
get #65 -1 = undefined
get #65 '-1' = undefined
get #65 '01' = undefined
get #65 '00' = undefined
get #65 '1.0' = undefined
get #65 '4294967294' = undefined
get #65 4294967295 = undefined
get #65 '4294967295' = undefined
get #65 'length' = 2
get #65 'push' = #31
get #65 'k' = undefined
get #65 true = undefined
get #65 null = undefined
get #65 undefined = undefined
get #71 0 = 7
get #71 1 = undefined
get #71 '0' = 7
get #71 '1' = undefined
get #71 2 = undefined
get #71 '2' = undefined
get #71 3 = undefined
get #71 -1 = undefined
get #71 '-1' = undefined
get #71 '01' = undefined
get #71 '00' = undefined
get #71 '1.0' = undefined
get #71 '4294967294' = undefined
get #71 4294967295 = undefined
get #71 '4294967295' = undefined
get #71 'length' = 1
get #71 'push' = #31
get #71 'k' = 8
get #71 true = undefined
get #71 null = undefined
get #71 undefined = undefined
get 'abc' 0 = 'a'
get 'abc' '0' = 'a'
get 'abc' 1 = 'b'
get 'abc' 2 = 'c'
get 'abc' 3 = undefined
get 'abc' -1 = undefined
get 'abc' '01' = undefined
get 'abc' 'length' = 3
get 'abc' 'slice' = #34
get 'abc' 'charCodeAt' = #33
get 'abc' 'constructor' = #12
get 'abc' 'x' = undefined
get '' 0 = undefined
get '' '0' = undefined
get '' 1 = undefined
get '' 2 = undefined
get '' 3 = undefined
get '' -1 = undefined
get '' '01' = undefined
get '' 'length' = 0
get '' 'slice' = #34
get '' 'charCodeAt' = #33
get '' 'constructor' = #12
get '' 'x' = undefined
get 'éa' 0 = 'é'
get 'éa' '0' = 'é'
get 'éa' 1 = 'a'
get 'éa' 2 = undefined
get 'éa' 3 = undefined
get 'éa' -1 = undefined
get 'éa' '01' = undefined
get 'éa' 'length' = 2
get 'éa' 'slice' = #34
get 'éa' 'charCodeAt' = #33
get 'éa' 'constructor' = #12
get 'éa' 'x' = undefined
get undefined 'a' = TypeError
set undefined 'a' 1 = TypeError
delete undefined 'a' = TypeError
get undefined 0 = TypeError
set undefined 0 1 = TypeError
delete undefined 0 = TypeError
get null 'a' = TypeError
set null 'a' 1 = TypeError
delete null 'a' = TypeError
get null 0 = TypeError
set null 0 1 = TypeError
delete null 0 = TypeError
get #66 'p' = 1
get #66 'q' = null
get #67 'p' = 1
get #67 'r' = undefined
get #68 'size' = 0
get #69 'size' = 0
get #68 'get' = #38
get #68 'set' = #40
get #69 'add' = #41
get #69 'has' = #45
get #70 'message' = 'm'
get #70 'name' = 'Error'
get #70 'constructor' = #15
get #62 1 = undefined
get #62 true = undefined
get #62 null = undefined
get #62 undefined = undefined
get #62 'size' = undefined
set #62 'a' 5; get #62 'a' = 5
set #62 'd' 5; get #62 'd' = 5
set #62 'd' 5; keys #62 = a,b,d
set #62 'a' 5; keys #62 = a,b
set #63 'a' 5; get #63 'a' = 5
set #63 'a' 5; get #62 'a' = 1
set #63 'a' 5; keys #63 = c,a
set #74 'c' 5; get #63 'c' = 3
set #74 'c' 5; keys #74 = c
set #62 '2' 1; set #62 '10' 2; set #62 '1' 3; keys #62 = 1,2,10,a,b
set #62 7 1; keys #62 = 7,a,b
set #62 true 1; keys #62 = a,b,true
set #62 null 1; get #62 'null' = 1
set #62 undefined 1; get #62 'undefined' = 1
set #62 -1 1; set #62 0 2; keys #62 = 0,a,b,-1
delete #62 'a'; keys #62 = b
delete #62 'a'; set #62 'a' 9; keys #62 = b,a
set #72 'constructor' 1; get #72 'constructor' = 1
set #62 'a' #64; get #62 'a' = #64
set #62 'a' undefined; keys #62 = a,b
set #62 'size' 3; get #62 'size' = 3
set #64 0 9; get #64 0 = 9
set #64 '0' 9; get #64 0 = 9
set #64 3 9; get #64 'length' = 4
set #64 3 9; get #64 3 = 9
set #64 '3' 9; get #64 3 = 9
set #64 'k' 9; get #64 'k' = 9
set #64 'k' 9; get #64 'length' = 3
set #64 -1 9; get #64 -1 = 9
set #64 '01' 9; get #64 '01' = 9
set #64 '01' 9; get #64 1 = 'y'
set #64 4294967295 9; get #64 'length' = 3
set #73 0 9; get #73 0 = 9
set #73 0 9; get #64 0 = 1
set #71 'k' 9; get #71 'k' = 9
set #71 1 #71; get #71 1 = #71
set #65 0 9 = TypeError
set #65 '1' 9 = TypeError
set #65 2 9 = TypeError
set #65 9 9 = TypeError
set #65 'k' 9 = TypeError
set #65 'length' 0 = TypeError
set #66 'p' 2 = TypeError
set #66 'r' 2 = TypeError
set #67 'p' 2 = TypeError
set #67 'q' 2 = TypeError
set #67 'r' 2; get #67 'r' = 2
set #67 'r' 2; get #66 'r' = undefined
delete #66 'p' = TypeError
delete #66 'r' = true
delete #67 'p' = true
delete #67 'p'; get #67 'p' = 1
delete #62 'a' = true
delete #62 'z' = true
delete #62 'a'; get #62 'a' = undefined
delete #63 'a' = true
delete #63 'a'; get #63 'a' = 1
delete #63 'c'; get #63 'c' = undefined
delete #71 'k'; get #71 'k' = undefined
delete #62 1 = true
delete #70 'message'; get #70 'message' = ''
set true 'a' 1 = TypeError
set 5 'a' 1 = TypeError
set 5 0 1 = TypeError
set 'abc' 0 1 = TypeError
set 'abc' 9 1 = TypeError
set 'abc' 'length' 1 = TypeError
set 'abc' 'x' 1 = TypeError
set '' 'x' 1 = TypeError
set #68 'size' 1 = TypeError
set #69 'size' 1 = TypeError
hasOwn #62 'a' = true
hasOwn #63 'a' = false
hasOwn #62 'c' = false
hasOwn #63 'c' = true
hasOwn #62 'hasOwnProperty' = false
hasOwn #63 'hasOwnProperty' = false
hasOwn #62 '' = false
hasOwn #63 '' = false
hasOwn #64 0 = true
hasOwn #64 '0' = true
hasOwn #64 2 = true
hasOwn #64 '2' = true
hasOwn #64 3 = false
hasOwn #64 -1 = false
hasOwn #64 '01' = false
hasOwn #64 'length' = true
hasOwn #64 'slice' = false
hasOwn 'abc' 0 = true
hasOwn 'abc' '0' = true
hasOwn 'abc' 2 = true
hasOwn 'abc' '2' = true
hasOwn 'abc' 3 = false
hasOwn 'abc' -1 = false
hasOwn 'abc' '01' = false
hasOwn 'abc' 'length' = true
hasOwn 'abc' 'slice' = false
hasOwn '' 0 = false
hasOwn '' '0' = false
hasOwn '' 2 = false
hasOwn '' '2' = false
hasOwn '' 3 = false
hasOwn '' -1 = false
hasOwn '' '01' = false
hasOwn '' 'length' = true
hasOwn '' 'slice' = false
hasOwn #72 'a' = true
hasOwn #72 'constructor' = false
hasOwn #73 0 = false
hasOwn #73 'length' = false
hasOwn #71 'k' = true
hasOwn #66 'q' = true
hasOwn #67 'q' = false
hasOwn #70 'message' = true
hasOwn #70 'name' = false
hasOwn #68 'size' = false
hasOwn #69 'add' = false
hasOwn #62 true = false
hasOwn #62 undefined = false
hasOwn #4 'size' = true
hasOwn #5 'size' = true
hasOwn #4 'get' = true
hasOwn #10 'keys' = true
hasOwn #10 'push' = false
hasOwn undefined 'a' = TypeError
hasOwn null 0 = TypeError
set #62 'd' undefined; hasOwn #62 'd' = true
delete #62 'a'; hasOwn #62 'a' = false
set #63 'a' 5; hasOwn #63 'a' = true
set #64 3 9; hasOwn #64 3 = true
set #62 7 1; hasOwn #62 '7' = true
";

/// Node.js goes on with these.
const NOT_IN_PROFILE: &str = "\
get true 'a' = NotInProfile
get 5 'a' = NotInProfile
get 5 0 = NotInProfile
delete true 'a' = NotInProfile
delete 5 'a' = NotInProfile
delete 'abc' 'x' = NotInProfile
delete 'abc' 0 = NotInProfile
delete 'abc' 'length' = NotInProfile
set #64 4 9 = NotInProfile
set #64 '9' 9 = NotInProfile
set #64 4294967294 9 = NotInProfile
set #64 'length' 1 = NotInProfile
delete #64 0 = NotInProfile
delete #64 'length' = NotInProfile
delete #64 9 = NotInProfile
delete #65 0 = NotInProfile
get #70 'stack' = NotInProfile
set #70 'stack' 1 = NotInProfile
delete #70 'stack' = NotInProfile
get #62 '__proto__' = NotInProfile
set #62 '__proto__' null = NotInProfile
delete #62 '__proto__' = NotInProfile
get 'abc' '__proto__' = NotInProfile
hasOwn #70 'stack' = NotInProfile
hasOwn #10 'name' = NotInProfile
hasOwn #24 'length' = NotInProfile
hasOwn #62 '__proto__' = NotInProfile
hasOwn 'abc' '__proto__' = NotInProfile
hasOwn true 'a' = NotInProfile
hasOwn 5 0 = NotInProfile
hasOwn #62 #64 = NotInProfile
hasOwn 'abc' #64 = NotInProfile
hasOwn undefined #64 = NotInProfile
get #62 #64 = NotInProfile
set #62 #64 1 = NotInProfile
delete #62 #64 = NotInProfile
";

/// Node.js accepts these.
const FROZEN: &str = "\
set #62 'hasOwnProperty' 1 = TypeError
set #62 'constructor' 1 = TypeError
set #64 'push' 1 = TypeError
set #70 'name' 'x' = TypeError
set #68 'get' 1 = TypeError
set #69 'add' 1 = TypeError
";

/// Node.js reads these along the prototypes.
const ALONE: &str = "\
get #73 '0' = undefined
get #73 0 = undefined
get #73 '2' = undefined
get #73 'length' = undefined
";

// The words of a step. A text has no blank in it.
fn words_of<'a>(alloc: Global, step: &'a str) -> Result<Vec<&'a str>, NoMemory> {
    let mut words = Vec::new(alloc);
    for word in step.split(' ') {
        words.push(word)?;
    }
    Ok(words)
}

// Whether the texts are these, with a comma between each two.
fn are_listed(keys: &[Units], listed: &str) -> bool {
    let mut names = listed.split(',');
    for key in keys {
        match names.next() {
            Some(name) => {
                if !name.encode_utf16().eq(key.units().iter().copied()) {
                    return false;
                }
            }
            None => return false,
        }
    }
    names.next().is_none()
}

// Whether a step came to this.
fn is_outcome(alloc: Global, outcome: &Outcome, answer: &str) -> Result<bool, Refused> {
    match outcome {
        Outcome::Read(value) => is_value_of(alloc, value, answer),
        Outcome::Wrote => Ok(answer == "ok"),
        Outcome::Deleted(deleted) => Ok(*deleted && answer == "true"),
        Outcome::Told(true) => Ok(answer == "true"),
        Outcome::Told(false) => Ok(answer == "false"),
        Outcome::Keys(keys) => Ok(are_listed(keys.as_slice(), answer)),
        Outcome::TypeError => Ok(answer == "TypeError"),
        Outcome::Stopped(why) => Ok(*why == Stop::NotInProfile && answer == "NotInProfile"),
    }
}

// Whether a step comes to this.
fn comes_to<S: Store>(
    alloc: Global,
    store: &mut S,
    one: &str,
    by: By,
    answer: &str,
) -> Result<bool, Refused> {
    let words = words_of(alloc, one)?;
    let outcome = step(alloc, store, words.as_slice(), by)?;
    is_outcome(alloc, &outcome, answer)
}

// Makes the objects with all that is on them.
fn fill<S: Store>(alloc: Global, store: &mut S) -> Result<(), Refused> {
    make_objects(alloc, store)?;
    for one in PROPERTIES.lines() {
        if !comes_to(alloc, store, one, By::Value, "ok")? {
            return Err(Refused::Row);
        }
    }
    Ok(())
}

// Whether the last of the steps comes to the answer.
fn is_right<S: Store>(
    alloc: Global,
    store: &mut S,
    steps: &str,
    by: By,
    answer: &str,
) -> Result<bool, Refused> {
    let mut right = false;
    for one in steps.split("; ") {
        right = comes_to(alloc, store, one, by, answer)?;
    }
    Ok(right)
}

// Whether it does so over new objects.
fn is_right_anew<S: Store>(
    alloc: Global,
    store: &mut S,
    steps: &str,
    by: By,
    answer: &str,
) -> Result<bool, Refused> {
    fill(alloc, store)?;
    is_right(alloc, store, steps, by, answer)
}

// The keys after these steps over new objects, where the last one comes to the answer.
fn keys_after(
    alloc: Global,
    steps: &str,
    by: By,
    answer: &str,
) -> Result<Option<ToldKeys>, Refused> {
    let mut store = PlainStore::new(alloc, ToldKeys::new(alloc))?;
    if is_right_anew(alloc, &mut store, steps, by, answer)? {
        Ok(Some(store.into_keys()))
    } else {
        Ok(None)
    }
}

// Whether these are the same texts.
fn are_same(texts: &[Units], others: &[Units]) -> bool {
    if texts.len() != others.len() {
        return false;
    }
    for (text, other) in texts.iter().zip(others) {
        if text.units() != other.units() {
            return false;
        }
    }
    true
}

// Whether a row is right by the values of keys, by their names and by what is held of them, and all ask for the same texts.
fn is_answered(alloc: Global, row: &str) -> Result<bool, Refused> {
    let Some((steps, answer)) = row.split_once(" = ") else {
        return Err(Refused::Row);
    };
    let Some(keys) = keys_after(alloc, steps, By::Value, answer)? else {
        return Ok(false);
    };
    for by in [By::Name, By::Held] {
        match keys_after(alloc, steps, by, answer)? {
            Some(others) if are_same(keys.log(), others.log()) => {}
            _ => return Ok(false),
        }
    }
    Ok(true)
}

// The first row of a table that is not right.
fn first_wrong_of(alloc: Global, table: &'static str) -> Result<Option<&'static str>, Refused> {
    for row in table.lines() {
        if !is_answered(alloc, row)? {
            return Ok(Some(row));
        }
    }
    Ok(None)
}

// The first row that is not right.
fn first_wrong(alloc: Global) -> Result<Option<&'static str>, Refused> {
    for table in [SAME, NOT_IN_PROFILE, FROZEN, ALONE] {
        let wrong = first_wrong_of(alloc, table)?;
        if wrong.is_some() {
            return Ok(wrong);
        }
    }
    Ok(None)
}

#[test]
fn gives_what_node_gives(rt: HostRuntime) -> Result<(), Fail> {
    assert_eq!(rt; first_wrong(rt.alloc())?, None);
    Ok(())
}

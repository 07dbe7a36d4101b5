//! Nodes round one another: 100 are a tree, and one more is none.

use snap_parse::{SourceFault, parse};
use std::alloc::{AllocError, Global};
use std::test::Fail;

/// A source with an opening and a closing text so many times round its middle.
fn nested(
    alloc: Global,
    open: &str,
    middle: &str,
    close: &str,
    count: usize,
) -> Result<String, AllocError> {
    let mut source = String::new(alloc);
    for _ in 0..count {
        source.push_str(open)?;
    }
    source.push_str(middle)?;
    for _ in 0..count {
        source.push_str(close)?;
    }
    Ok(source)
}

/// `t` for a tree, `n` for too many nodes round one, and `o` for another fault.
fn answer(alloc: Global, source: &str) -> Result<char, AllocError> {
    match parse(alloc, source.as_bytes()) {
        Ok(_) => Ok('t'),
        Err(SourceFault::Nested(_)) => Ok('n'),
        Err(SourceFault::NoMemory) => Err(AllocError),
        Err(_) => Ok('o'),
    }
}

/// What opens, the middle, what closes, and how often this may stand round the middle: the nodes of
/// one round are counted by hand from the grammar, and the statement and the middle with them.
const ROWS: [(&str, &str, &str, u8); 36] = [
    ("!", "a", "", 99),
    ("typeof ", "a", "", 99),
    ("", "a", ".b", 99),
    ("", "a", "[0]", 99),
    ("", "a", "()", 99),
    ("", "a", "-a", 99),
    ("a-(", "a", ")", 99),
    ("a?b:", "c", "", 99),
    ("a=", "b", "", 99),
    ("x=>", "x", "", 99),
    ("x=>{", ";", "}", 50),
    ("{", "", "}", 101),
    ("if(a)", ";", "", 100),
    ("if(a);else ", ";", "", 100),
    ("while(a)", ";", "", 100),
    ("for(;;)", ";", "", 100),
    ("for(let a;;)", ";", "", 100),
    ("for(let a of b)", ";", "", 100),
    ("function f(){", "", "}", 101),
    ("(function(){", "", "})", 50),
    ("new (", "A", ")", 99),
    ("[", "", "]", 100),
    ("f(", "", ")", 99),
    ("({a:", "1", "})", 99),
    ("({[", "1", "]:a})", 99),
    ("a[", "b", "]", 99),
    ("try{", "", "}finally{}", 50),
    ("try{", "", "}catch{}", 50),
    ("try{}catch(e){", "", "}", 50),
    ("const f=x=>{", "", "}", 50),
    ("let f=x=>{", "", "}", 50),
    ("throw x=>{", "", "}", 50),
    ("return x=>{", "", "}", 50),
    ("++a[", "b", "]", 49),
    ("delete a[", "b", "]", 49),
    ("", "a", "\n.b", 99),
];

/// Whether this stands so often round its middle and is answered so.
fn is_answered(
    alloc: Global,
    open: &str,
    middle: &str,
    close: &str,
    count: usize,
    wanted: char,
) -> Result<bool, AllocError> {
    let source = nested(alloc, open, middle, close, count)?;
    Ok(answer(alloc, source.as_str())? == wanted)
}

/// The first row of which as many as may stand round the middle are no tree, or one more is one.
fn first_misjudged(alloc: Global) -> Result<Option<usize>, AllocError> {
    for (row, (open, middle, close, most)) in ROWS.iter().enumerate() {
        let most = usize::from(*most);
        if !is_answered(alloc, open, middle, close, most, 't')? {
            return Ok(Some(row));
        }
        if !is_answered(alloc, open, middle, close, most + 1, 'n')? {
            return Ok(Some(row));
        }
    }
    Ok(None)
}

#[test]
fn levels_of_each_production(rt: HostRuntime) -> Result<(), Fail> {
    assert_eq!(rt; first_misjudged(rt.alloc())?, None);
    Ok(())
}

/// What opens, what closes, how often this stands round a number, and the answer.
const PARENTHESES: [(&str, &str, usize, char); 4] = [
    ("(", ")", 10_000, 't'),
    ("(", ")", 500_000, 't'),
    ("(", ").a", 100, 'n'),
    ("(", "", 10_000, 'o'),
];

/// The first row that is answered otherwise.
fn first_misanswered(alloc: Global) -> Result<Option<usize>, AllocError> {
    for (row, (open, close, count, wanted)) in PARENTHESES.iter().enumerate() {
        if !is_answered(alloc, open, "1", close, *count, *wanted)? {
            return Ok(Some(row));
        }
    }
    Ok(None)
}

#[test]
fn parentheses_take_no_level(rt: HostRuntime) -> Result<(), Fail> {
    assert_eq!(rt; first_misanswered(rt.alloc())?, None);
    Ok(())
}

/// How many nodes the tree of a source has, or why it has none.
fn nodes_of(alloc: Global, source: &str) -> Result<usize, SourceFault> {
    Ok(parse(alloc, source.as_bytes())?.nodes.as_slice().len())
}

/// Whether a source of so many empty statements is answered so.
fn is_counted(
    alloc: Global,
    count: usize,
    wanted: Result<usize, SourceFault>,
) -> Result<bool, AllocError> {
    let source = nested(alloc, ";", "", "", count)?;
    match nodes_of(alloc, source.as_str()) {
        Err(SourceFault::NoMemory) => Err(AllocError),
        answer => Ok(answer == wanted),
    }
}

#[test]
fn refuses_only_past_the_limit(rt: HostRuntime) -> Result<(), Fail> {
    assert!(rt; is_counted(rt.alloc(), 1_048_576, Ok(1_048_576))?);
    assert!(rt; is_counted(rt.alloc(), 1_048_577, Err(SourceFault::TooLong))?);
    Ok(())
}

//! Phrases of so many levels, and scripts.

ghost use Rattle.std.specs.Prelude.{◌≡◌};
ghost use Rattle.snap_cursor.specs.Reads.{Reads};
ghost use Rattle.spec_grammar.specs.Read.{phrase, script};

use crate::grammar::Grammar;
use snap_cursor::{Cursor, ReadFault};
use snap_phrase::{Below, Phrase, Row};
use spec_grammar::Start;
use std::alloc::Global;

/// How many levels a tree may have: a node may have 100 nodes round it.
const MOST_LEVELS: u32 = 101;

/// A phrase that has so many levels at most.
pub fn read_phrase(
    alloc: Global,
    cursor: &mut Cursor<'_>,
    levels: u32,
    start: Start,
) -> Result<Phrase, ReadFault>
    ensures { Reads (phrase levels start cursor.old) result cursor.new }
{
    if levels == 0 {
        return Err(ReadFault::Nested);
    }
    Grammar {
        alloc,
        room: levels - 1,
        phrase: read_phrase,
    }
    .start(cursor, start)
}

/// A script.
pub fn script(alloc: Global, cursor: &mut Cursor<'_>) -> Result<Row<u32>, ReadFault>
    ensures { Reads (script cursor.old) result cursor.new }
{
    let mut row = Row::on(alloc, Below::new(alloc));
    for _turn in 0..cursor.len() {
        if cursor.is_empty() {
            return Ok(row);
        }
        let statement = read_phrase(alloc, cursor, MOST_LEVELS, Start::Statement)?;
        row = row.with_child(statement)?;
    }
    if cursor.is_empty() {
        Ok(row)
    } else {
        Err(ReadFault::Syntax)
    }
}

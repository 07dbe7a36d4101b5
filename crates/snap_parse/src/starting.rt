//! The phrase of a kind.

ghost use Rattle.snap_parse.specs.Nests.{Nests};
ghost use Rattle.snap_cursor.specs.Reads.{Reads};
ghost use Rattle.spec_grammar.specs.Read.{phrase, phrase_by};

use crate::grammar::Grammar;
use snap_cursor::{Cursor, ReadFault};
use snap_phrase::Phrase;
use spec_grammar::Start;
use std::alloc::Global;

impl<F: Fn(Global, &mut Cursor<'_>, u32, Start) -> Result<Phrase, ReadFault>> Grammar<F> {
    /// A phrase whose nodes below its own are so high at most as there is room.
    pub fn start(&self, cursor: &mut Cursor<'_>, start: Start) -> Result<Phrase, ReadFault>
        requires { Nests self.now.room (F.pre self.now.phrase) (F.post self.now.phrase) }
        ensures { Reads (phrase_by (phrase self.now.room) self.now.room start cursor.old) result cursor.new }
    {
        match start {
            Start::Statement => self.statement(cursor),
            Start::Block => self.block(cursor),
            Start::Expression => self.expression(cursor),
            Start::Operand(level) => self.operand(cursor, level),
            Start::Member => self.member(cursor),
        }
    }
}

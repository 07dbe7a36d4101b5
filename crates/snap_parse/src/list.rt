//! Lists, read by what reads the phrases in them. Each turn takes a token at least, so that the
//! count of the tokens bounds the turns.

ghost use Rattle.snap_parse.specs.Nests.{Nests};
ghost use Rattle.snap_cursor.specs.Reads.{Reads};
ghost use Rattle.spec_grammar.specs.Read.{phrase};
ghost use Rattle.spec_grammar.specs.ReadLists as spec;

use crate::grammar::Grammar;
use snap_ast::{Items, Named};
use snap_cursor::{Cursor, ReadFault, parameters};
use snap_phrase::{Below, Phrase, Row, block_node};
use spec_grammar::{Sign, Start};
use std::alloc::Global;

impl<F: Fn(Global, &mut Cursor<'_>, u32, Start) -> Result<Phrase, ReadFault>> Grammar<F> {
    /// Expressions with commas between and the closing sign, behind those that a row has.
    pub fn list(
        &self,
        cursor: &mut Cursor<'_>,
        close: Sign,
        mut row: Row<u32>,
    ) -> Result<Row<u32>, ReadFault>
        requires { Nests self.now.room (F.pre self.now.phrase) (F.post self.now.phrase) }
        ensures { Reads (spec.list (phrase self.now.room) close row cursor.old) result cursor.new }
    {
        for _turn in 0..cursor.len() {
            if cursor.sees(close) {
                cursor.skip();
                return Ok(row);
            }
            let item = self.below(cursor, Start::Expression)?;
            row = row.with_child(item)?;
            if !cursor.sees(Sign::Comma) {
                cursor.expect(close)?;
                return Ok(row);
            }
            cursor.skip();
        }
        Err(ReadFault::Syntax)
    }

    /// Statements and the closing brace.
    pub fn body(&self, cursor: &mut Cursor<'_>) -> Result<Row<u32>, ReadFault>
        requires { Nests self.now.room (F.pre self.now.phrase) (F.post self.now.phrase) }
        ensures { Reads (spec.body (phrase self.now.room) cursor.old) result cursor.new }
    {
        let mut row = Row::on(self.alloc, Below::new(self.alloc));
        for _turn in 0..cursor.len() {
            if cursor.sees(Sign::CloseCurly) {
                cursor.skip();
                return Ok(row);
            }
            let statement = self.below(cursor, Start::Statement)?;
            row = row.with_child(statement)?;
        }
        Err(ReadFault::Syntax)
    }

    /// A block.
    #[tactic(auto, unfolding(spec_grammar::specs::ReadLists::block))]
    pub fn block(&self, cursor: &mut Cursor<'_>) -> Result<Phrase, ReadFault>
        requires { Nests self.now.room (F.pre self.now.phrase) (F.post self.now.phrase) }
        ensures { Reads (spec.block (phrase self.now.room) cursor.old) result cursor.new }
    {
        let at = cursor.start();
        cursor.expect(Sign::OpenCurly)?;
        let found = self.body(cursor)?;
        Ok(block_node(at, found)?)
    }

    /// The parameters and the body of a function.
    #[tactic(auto, unfolding(spec_grammar::specs::ReadLists::function))]
    pub fn function(&self, cursor: &mut Cursor<'_>) -> Result<(Items<Named>, Row<u32>), ReadFault>
        requires { Nests self.now.room (F.pre self.now.phrase) (F.post self.now.phrase) }
        ensures { Reads (spec.function (phrase self.now.room) cursor.old) result cursor.new }
    {
        cursor.expect(Sign::OpenParen)?;
        let names = parameters(self.alloc, cursor)?;
        cursor.expect(Sign::OpenCurly)?;
        let found = self.body(cursor)?;
        Ok((names, found))
    }
}

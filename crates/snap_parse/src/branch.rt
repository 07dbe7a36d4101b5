//! Branches and loops, each behind its first token, which stands at a place.

ghost use Rattle.snap_parse.specs.Nests.{Nests};
ghost use Rattle.snap_cursor.specs.Reads.{Reads};
ghost use Rattle.spec_grammar.specs.Read.{phrase};
ghost use Rattle.spec_grammar.specs.ReadStatements as spec;

use crate::grammar::Grammar;
use snap_cursor::{Cursor, ReadFault, begins_declaration};
use snap_phrase::{Phrase, if_else_node, if_node, while_node};
use spec_grammar::{Sign, Start};
use std::alloc::Global;

impl<F: Fn(Global, &mut Cursor<'_>, u32, Start) -> Result<Phrase, ReadFault>> Grammar<F> {
    /// A condition in parentheses.
    #[tactic(auto, unfolding(spec_grammar::specs::ReadStatements::condition))]
    fn condition(&self, cursor: &mut Cursor<'_>) -> Result<Phrase, ReadFault>
        requires { Nests self.now.room (F.pre self.now.phrase) (F.post self.now.phrase) }
        ensures { Reads (spec.condition (phrase self.now.room) cursor.old) result cursor.new }
    {
        cursor.expect(Sign::OpenParen)?;
        let value = self.below(cursor, Start::Expression)?;
        cursor.expect(Sign::CloseParen)?;
        Ok(value)
    }

    /// A statement that is no declaration.
    #[tactic(auto, unfolding(spec_grammar::specs::ReadStatements::branch, spec_grammar::specs::Outcome::check))]
    pub fn branch(&self, cursor: &mut Cursor<'_>) -> Result<Phrase, ReadFault>
        requires { Nests self.now.room (F.pre self.now.phrase) (F.post self.now.phrase) }
        ensures { Reads (spec.branch (phrase self.now.room) cursor.old) result cursor.new }
    {
        if begins_declaration(cursor.sign()) {
            return Err(ReadFault::Syntax);
        }
        self.below(cursor, Start::Statement)
    }

    /// An `if`, which takes the `else` behind it.
    #[tactic(auto, unfolding(spec_grammar::specs::ReadStatements::if_statement))]
    pub fn if_statement(&self, cursor: &mut Cursor<'_>, at: u32) -> Result<Phrase, ReadFault>
        requires { Nests self.now.room (F.pre self.now.phrase) (F.post self.now.phrase) }
        ensures { Reads (spec.if_statement (phrase self.now.room) at cursor.old) result cursor.new }
    {
        let test = self.condition(cursor)?;
        let chosen = self.branch(cursor)?;
        if !cursor.sees(Sign::Else) {
            return Ok(if_node(at, test, chosen)?);
        }
        cursor.skip();
        let otherwise = self.branch(cursor)?;
        Ok(if_else_node(at, test, chosen, otherwise)?)
    }

    /// A `while`.
    #[tactic(auto, unfolding(spec_grammar::specs::ReadStatements::while_statement))]
    pub fn while_statement(&self, cursor: &mut Cursor<'_>, at: u32) -> Result<Phrase, ReadFault>
        requires { Nests self.now.room (F.pre self.now.phrase) (F.post self.now.phrase) }
        ensures { Reads (spec.while_statement (phrase self.now.room) at cursor.old) result cursor.new }
    {
        let test = self.condition(cursor)?;
        let body = self.branch(cursor)?;
        Ok(while_node(at, test, body)?)
    }
}

//! `try` and what handles it, behind its first token, which stands at a place.

ghost use Rattle.snap_parse.specs.Nests.{Nests};
ghost use Rattle.snap_cursor.specs.Reads.{Reads};
ghost use Rattle.spec_grammar.specs.Read.{phrase};
ghost use Rattle.spec_grammar.specs.ReadStatements as spec;

use crate::grammar::Grammar;
use snap_cursor::{Cursor, ReadFault, name};
use snap_phrase::{Below, Optional, Phrase, try_catch_name_node, try_catch_node, try_finally_node};
use spec_grammar::{Sign, Start};
use std::alloc::Global;

impl<F: Fn(Global, &mut Cursor<'_>, u32, Start) -> Result<Phrase, ReadFault>> Grammar<F> {
    /// A `finally` that may be there.
    #[tactic(auto, unfolding(spec_grammar::specs::ReadStatements::finalizer))]
    fn finalizer(&self, cursor: &mut Cursor<'_>, before: Below) -> Result<Optional, ReadFault>
        requires { Nests self.now.room (F.pre self.now.phrase) (F.post self.now.phrase) }
        ensures { Reads (spec.finalizer (phrase self.now.room) before cursor.old) result cursor.new }
    {
        if !cursor.sees(Sign::Finally) {
            return Ok(Optional::absent(before));
        }
        cursor.skip();
        let found = self.below(cursor, Start::Block)?;
        Ok(Optional::present(before, found)?)
    }

    /// A `catch` without a name, behind its first token.
    #[tactic(auto, unfolding(spec_grammar::specs::ReadStatements::catch))]
    fn catch(&self, cursor: &mut Cursor<'_>, at: u32, tried: Phrase) -> Result<Phrase, ReadFault>
        requires { Nests self.now.room (F.pre self.now.phrase) (F.post self.now.phrase) }
        ensures { Reads (spec.catch (phrase self.now.room) at tried cursor.old) result cursor.new }
    {
        let handler = self.below(cursor, Start::Block)?;
        let before = tried.under();
        let number = before.number()?;
        let last = self.finalizer(cursor, before.with(handler)?)?;
        Ok(try_catch_node(at, number, last)?)
    }

    /// A `catch` with a name, behind its first token.
    #[tactic(auto, unfolding(spec_grammar::specs::ReadStatements::catch_name))]
    fn catch_name(
        &self,
        cursor: &mut Cursor<'_>,
        at: u32,
        tried: Phrase,
    ) -> Result<Phrase, ReadFault>
        requires { Nests self.now.room (F.pre self.now.phrase) (F.post self.now.phrase) }
        ensures { Reads (spec.catch_name (phrase self.now.room) at tried cursor.old) result cursor.new }
    {
        cursor.skip();
        let named = name(self.alloc, cursor)?;
        cursor.expect(Sign::CloseParen)?;
        let handler = self.below(cursor, Start::Block)?;
        let before = tried.under();
        let number = before.number()?;
        let last = self.finalizer(cursor, before.with(handler)?)?;
        Ok(try_catch_name_node(at, named, number, last)?)
    }

    /// A `finally` without a `catch`.
    #[tactic(auto, unfolding(spec_grammar::specs::ReadStatements::finally))]
    fn finally(&self, cursor: &mut Cursor<'_>, at: u32, tried: Phrase) -> Result<Phrase, ReadFault>
        requires { Nests self.now.room (F.pre self.now.phrase) (F.post self.now.phrase) }
        ensures { Reads (spec.finally (phrase self.now.room) at tried cursor.old) result cursor.new }
    {
        cursor.expect(Sign::Finally)?;
        let last = self.below(cursor, Start::Block)?;
        Ok(try_finally_node(at, tried, last)?)
    }

    /// What stands behind the first block.
    #[tactic(auto, unfolding(spec_grammar::specs::ReadStatements::handled))]
    fn handled(&self, cursor: &mut Cursor<'_>, at: u32, tried: Phrase) -> Result<Phrase, ReadFault>
        requires { Nests self.now.room (F.pre self.now.phrase) (F.post self.now.phrase) }
        ensures { Reads (spec.handled (phrase self.now.room) at tried cursor.old) result cursor.new }
    {
        if !cursor.sees(Sign::Catch) {
            return self.finally(cursor, at, tried);
        }
        let has_name = cursor.sees_second(Sign::OpenParen);
        cursor.skip();
        if has_name {
            self.catch_name(cursor, at, tried)
        } else {
            self.catch(cursor, at, tried)
        }
    }

    /// A `try`.
    #[tactic(auto, unfolding(spec_grammar::specs::ReadStatements::try_statement))]
    pub fn try_statement(&self, cursor: &mut Cursor<'_>, at: u32) -> Result<Phrase, ReadFault>
        requires { Nests self.now.room (F.pre self.now.phrase) (F.post self.now.phrase) }
        ensures { Reads (spec.try_statement (phrase self.now.room) at cursor.old) result cursor.new }
    {
        let tried = self.below(cursor, Start::Block)?;
        self.handled(cursor, at, tried)
    }
}

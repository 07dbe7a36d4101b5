//! The loops that begin with `for`.

ghost use Rattle.snap_parse.specs.Nests.{Nests};
ghost use Rattle.snap_cursor.specs.Reads.{Reads};
ghost use Rattle.spec_grammar.specs.Read.{phrase};
ghost use Rattle.spec_grammar.specs.ReadStatements as spec;

use crate::grammar::Grammar;
use snap_cursor::{Cursor, OfHead, ReadFault, of_head};
use snap_phrase::{Below, Optional, Phrase, for_let_node, for_node, for_of_node};
use spec_grammar::{Sign, Start};
use std::alloc::Global;

impl<F: Fn(Global, &mut Cursor<'_>, u32, Start) -> Result<Phrase, ReadFault>> Grammar<F> {
    /// An expression that may be there, and the closing sign.
    #[tactic(auto, unfolding(spec_grammar::specs::ReadStatements::optional))]
    fn optional(
        &self,
        cursor: &mut Cursor<'_>,
        close: Sign,
        before: Below,
    ) -> Result<Optional, ReadFault>
        requires { Nests self.now.room (F.pre self.now.phrase) (F.post self.now.phrase) }
        ensures { Reads (spec.optional (phrase self.now.room) close before cursor.old) result cursor.new }
    {
        if cursor.sees(close) {
            cursor.skip();
            return Ok(Optional::absent(before));
        }
        let value = self.below(cursor, Start::Expression)?;
        cursor.expect(close)?;
        Ok(Optional::present(before, value)?)
    }

    /// A `for..of`, whose head is read already.
    #[tactic(auto, unfolding(spec_grammar::specs::ReadStatements::for_of))]
    fn for_of<'a>(
        &self,
        cursor: &mut Cursor<'a>,
        at: u32,
        head: OfHead<'a>,
    ) -> Result<Phrase, ReadFault>
        requires { Nests self.now.room (F.pre self.now.phrase) (F.post self.now.phrase) }
        ensures { Reads (spec.for_of (phrase self.now.room) at head.entry head.entry.behind) result cursor.new }
    {
        let (is_constant, named, behind) = head.into_parts();
        *cursor = behind;
        let values = self.below(cursor, Start::Expression)?;
        cursor.expect(Sign::CloseParen)?;
        let body = self.branch(cursor)?;
        Ok(for_of_node(at, is_constant, named, values, body)?)
    }

    /// A `for` with a `let`.
    #[tactic(auto, unfolding(spec_grammar::specs::ReadStatements::for_let))]
    fn for_let(&self, cursor: &mut Cursor<'_>, at: u32) -> Result<Phrase, ReadFault>
        requires { Nests self.now.room (F.pre self.now.phrase) (F.post self.now.phrase) }
        ensures { Reads (spec.for_let (phrase self.now.room) at cursor.old) result cursor.new }
    {
        cursor.skip();
        let (bindings, before) = self.bindings(cursor)?.into_parts();
        cursor.expect(Sign::Semicolon)?;
        let (test, before) = self.optional(cursor, Sign::Semicolon, before)?.into_parts();
        let update = self.optional(cursor, Sign::CloseParen, before)?;
        let body = self.branch(cursor)?;
        Ok(for_let_node(at, bindings, test, update, body)?)
    }

    /// A `for` that declares nothing.
    #[tactic(auto, unfolding(spec_grammar::specs::ReadStatements::for_plain))]
    fn for_plain(&self, cursor: &mut Cursor<'_>, at: u32) -> Result<Phrase, ReadFault>
        requires { Nests self.now.room (F.pre self.now.phrase) (F.post self.now.phrase) }
        ensures { Reads (spec.for_plain (phrase self.now.room) at cursor.old) result cursor.new }
    {
        let nothing = Below::new(self.alloc);
        let (start, before) = self
            .optional(cursor, Sign::Semicolon, nothing)?
            .into_parts();
        let (test, before) = self.optional(cursor, Sign::Semicolon, before)?.into_parts();
        let update = self.optional(cursor, Sign::CloseParen, before)?;
        let body = self.branch(cursor)?;
        Ok(for_node(at, start, test, update, body)?)
    }

    /// A `for`, behind its first token, which stands at a place.
    #[tactic(auto, unfolding(spec_grammar::specs::ReadStatements::for_statement, spec_grammar::specs::ReadStatements::for_head))]
    pub fn for_statement(&self, cursor: &mut Cursor<'_>, at: u32) -> Result<Phrase, ReadFault>
        requires { Nests self.now.room (F.pre self.now.phrase) (F.post self.now.phrase) }
        ensures { Reads (spec.for_statement (phrase self.now.room) at cursor.old) result cursor.new }
    {
        cursor.expect(Sign::OpenParen)?;
        match of_head(self.alloc, cursor)? {
            Some(head) => self.for_of(cursor, at, head),
            None => {
                if cursor.sees(Sign::Let) {
                    self.for_let(cursor, at)
                } else {
                    self.for_plain(cursor, at)
                }
            }
        }
    }
}

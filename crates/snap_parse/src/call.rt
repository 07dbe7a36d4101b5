//! Members, calls and `new`.

ghost use Rattle.std.specs.Prelude.{◌≡◌, true};
ghost use Rattle.snap_parse.specs.Nests.{Nests};
ghost use Rattle.snap_cursor.specs.Reads.{Reads};
ghost use Rattle.snap_cursor.specs.Steps.{tail_in};
ghost use Rattle.spec_grammar.specs.Read.{phrase};
ghost use Rattle.spec_grammar.specs.ReadExpressions as spec;

use crate::grammar::Grammar;
use snap_cursor::{Cursor, ReadFault, Tail, is_tail, tail_of, word};
use snap_phrase::{Phrase, Row, call_node, index_node, member_node, new_node};
use spec_grammar::{Sign, Start};
use std::alloc::Global;

impl<F: Fn(Global, &mut Cursor<'_>, u32, Start) -> Result<Phrase, ReadFault>> Grammar<F> {
    /// The phrase may stand below a node.
    #[tactic(auto, unfolding(spec_grammar::specs::ReadExpressions::fits))]
    pub fn fits(&self, left: &Phrase, cursor: &Cursor<'_>) -> Result<(), ReadFault>
        ensures { Reads (spec.fits (phrase self.now.room) self.now.room left.now cursor.now) result cursor.now }
    {
        if left.height() <= self.room as usize {
            Ok(())
        } else {
            Err(ReadFault::Nested)
        }
    }

    /// A phrase with a member of it.
    fn member_tail(&self, cursor: &mut Cursor<'_>, left: Phrase) -> Result<Phrase, ReadFault>
        requires { Nests self.now.room (F.pre self.now.phrase) (F.post self.now.phrase) }
        ensures { Reads (spec.tail_step (phrase self.now.room) self.now.room (tail_in Tail.Dot) left cursor.old) result cursor.new }
    {
        self.fits(&left, cursor)?;
        cursor.skip();
        let text = word(self.alloc, cursor)?;
        Ok(member_node(left, text)?)
    }

    /// A phrase with an index.
    fn index_tail(&self, cursor: &mut Cursor<'_>, left: Phrase) -> Result<Phrase, ReadFault>
        requires { Nests self.now.room (F.pre self.now.phrase) (F.post self.now.phrase) }
        ensures { Reads (spec.tail_step (phrase self.now.room) self.now.room (tail_in Tail.Bracket) left cursor.old) result cursor.new }
    {
        self.fits(&left, cursor)?;
        cursor.skip();
        let key = self.below(cursor, Start::Expression)?;
        cursor.expect(Sign::CloseSquare)?;
        Ok(index_node(left, key)?)
    }

    /// A phrase with arguments.
    fn call_tail(&self, cursor: &mut Cursor<'_>, left: Phrase) -> Result<Phrase, ReadFault>
        requires { Nests self.now.room (F.pre self.now.phrase) (F.post self.now.phrase) }
        ensures { Reads (spec.tail_step (phrase self.now.room) self.now.room (tail_in Tail.Arguments) left cursor.old) result cursor.new }
    {
        self.fits(&left, cursor)?;
        cursor.skip();
        let at = left.at();
        let row = Row::on(self.alloc, left.under());
        let found = self.list(cursor, Sign::CloseParen, row)?;
        Ok(call_node(at, found)?)
    }

    /// A phrase with what stands behind it.
    fn tail_step(
        &self,
        cursor: &mut Cursor<'_>,
        tail: Tail,
        left: Phrase,
    ) -> Result<Phrase, ReadFault>
        requires { Nests self.now.room (F.pre self.now.phrase) (F.post self.now.phrase) }
        ensures { Reads (spec.tail_step (phrase self.now.room) self.now.room (tail_in tail) left cursor.old) result cursor.new }
    {
        match tail {
            Tail::NoTail => Ok(left),
            Tail::Dot => self.member_tail(cursor, left),
            Tail::Bracket => self.index_tail(cursor, left),
            Tail::Arguments => self.call_tail(cursor, left),
        }
    }

    /// What a phrase becomes with what stands behind it. Each turn makes a node above it.
    pub fn tail(
        &self,
        cursor: &mut Cursor<'_>,
        calls: bool,
        mut left: Phrase,
    ) -> Result<Phrase, ReadFault>
        requires { Nests self.now.room (F.pre self.now.phrase) (F.post self.now.phrase) }
        ensures { Reads (spec.tail (phrase self.now.room) self.now.room calls left cursor.old) result cursor.new }
    {
        for _turn in 0..self.room as usize + 1 {
            let tail = tail_of(calls, cursor.sign());
            if !is_tail(tail) {
                return Ok(left);
            }
            left = self.tail_step(cursor, tail, left)?;
        }
        Err(ReadFault::Nested)
    }

    /// A `new`.
    #[tactic(auto, unfolding(spec_grammar::specs::ReadExpressions::new, spec_grammar::specs::ReadExpressions::new_with))]
    fn new(&self, cursor: &mut Cursor<'_>) -> Result<Phrase, ReadFault>
        requires { Nests self.now.room (F.pre self.now.phrase) (F.post self.now.phrase) }
        ensures { Reads (spec.new (phrase self.now.room) self.now.room cursor.old) result cursor.new }
    {
        let at = cursor.start();
        cursor.skip();
        let callee = self.below(cursor, Start::Member)?;
        let row = Row::on(self.alloc, callee.under());
        if !cursor.sees(Sign::OpenParen) {
            return Ok(new_node(at, row)?);
        }
        cursor.skip();
        let found = self.list(cursor, Sign::CloseParen, row)?;
        Ok(new_node(at, found)?)
    }

    /// A New or a Primary, but for one in parentheses.
    #[tactic(auto, unfolding(spec_grammar::specs::ReadExpressions::base))]
    pub fn base(&self, cursor: &mut Cursor<'_>) -> Result<Phrase, ReadFault>
        requires { Nests self.now.room (F.pre self.now.phrase) (F.post self.now.phrase) }
        ensures { Reads (spec.base (phrase self.now.room) self.now.room cursor.old) result cursor.new }
    {
        if cursor.sees(Sign::New) {
            self.new(cursor)
        } else {
            self.primary(cursor)
        }
    }
}

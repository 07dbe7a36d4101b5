//! Expressions and operands, and the parentheses that they begin with, which are counted first: they
//! take no level and no memory.

ghost use Rattle.std.specs.Prelude.{◌≡◌, ◌<◌};
ghost use Rattle.snap_parse.specs.Groups.{closing, finished};
ghost use Rattle.snap_parse.specs.Nests.{Nests};
ghost use Rattle.snap_cursor.specs.Reads.{Reads};
ghost use Rattle.spec_grammar.specs.Read.{phrase};
ghost use Rattle.spec_grammar.specs.ReadExpressions as spec;

use crate::grammar::Grammar;
use snap_cursor::{Cursor, ReadFault, arrow_head, parens};
use snap_phrase::Phrase;
use spec_grammar::{Sign, Start};
use std::alloc::Global;

/// The closing parenthesis, and the phrase in the two, the first of which stands at a place.
#[tactic(auto, unfolding(crate::specs::Groups::closing))]
fn close(cursor: &mut Cursor<'_>, at: u32, inner: Phrase) -> Result<Phrase, ReadFault>
    ensures { Reads (closing at inner cursor.old) result cursor.new }
{
    cursor.expect(Sign::CloseParen)?;
    Ok(inner.wrapped(at))
}

impl<F: Fn(Global, &mut Cursor<'_>, u32, Start) -> Result<Phrase, ReadFault>> Grammar<F> {
    /// An expression that begins with a base, behind it.
    #[tactic(auto, unfolding(crate::specs::Groups::finished))]
    fn finished(&self, cursor: &mut Cursor<'_>, left: Phrase) -> Result<Phrase, ReadFault>
        requires { Nests self.now.room (F.pre self.now.phrase) (F.post self.now.phrase) }
        ensures { Reads (finished (phrase self.now.room) self.now.room left cursor.old) result cursor.new }
    {
        let value = self.call(cursor, left)?;
        let whole = self.climb(cursor, 10, value)?;
        self.sequel(cursor, whole)
    }

    /// An operand that begins with no parenthesis.
    #[tactic(auto, unfolding(spec_grammar::specs::ReadExpressions::operand_with))]
    fn plain_operand(&self, cursor: &mut Cursor<'_>, level: u8) -> Result<Phrase, ReadFault>
        requires { Nests self.now.room (F.pre self.now.phrase) (F.post self.now.phrase) }
        ensures { Reads (spec.operand_with (phrase self.now.room) self.now.room (spec.base (phrase self.now.room) self.now.room) level cursor.old) result cursor.new }
    {
        let value = self.unary(cursor)?;
        self.climb(cursor, level, value)
    }

    /// An expression that is an arrow or begins with no parenthesis.
    #[tactic(auto, unfolding(spec_grammar::specs::ReadExpressions::expression_with))]
    fn plain_expression(&self, cursor: &mut Cursor<'_>) -> Result<Phrase, ReadFault>
        requires { Nests self.now.room (F.pre self.now.phrase) (F.post self.now.phrase) }
        ensures { Reads (spec.expression_with (phrase self.now.room) self.now.room (spec.base (phrase self.now.room) self.now.room) cursor.old) result cursor.new }
    {
        match arrow_head(self.alloc, cursor)? {
            Some(head) => self.arrow_of(cursor, head),
            None => {
                let left = self.plain_operand(cursor, 10)?;
                self.sequel(cursor, left)
            }
        }
    }

    /// A base that begins with so many parentheses: the phrase in the innermost, and then what
    /// stands behind it, from the inside out.
    fn group(&self, cursor: &mut Cursor<'_>, count: usize) -> Result<Phrase, ReadFault>
        requires nests { Nests self.now.room (F.pre self.now.phrase) (F.post self.now.phrase) }
        requires some { 0 < count }
        requires counted { count ≡ spec.parens cursor.old }
        ensures { Reads (spec.base_at (phrase self.now.room) self.now.room count cursor.old) result cursor.new }
    {
        let opened = cursor.twin();
        cursor.skip_all(count);
        let mut inner = self.plain_expression(cursor)?;
        for closed in 1..count {
            let outer = close(cursor, opened.start_behind(count - closed), inner)?;
            inner = self.finished(cursor, outer)?;
        }
        close(cursor, opened.start(), inner)
    }

    /// An operand.
    #[tactic(auto, unfolding(spec_grammar::specs::ReadExpressions::operand, spec_grammar::specs::ReadExpressions::operand_with, spec_grammar::specs::ReadExpressions::base_at))]
    pub fn operand(&self, cursor: &mut Cursor<'_>, level: u8) -> Result<Phrase, ReadFault>
        requires { Nests self.now.room (F.pre self.now.phrase) (F.post self.now.phrase) }
        ensures { Reads (spec.operand (phrase self.now.room) self.now.room level cursor.old) result cursor.new }
    {
        let count = parens(self.alloc, cursor)?;
        if count == 0 {
            return self.plain_operand(cursor, level);
        }
        let left = self.group(cursor, count)?;
        let value = self.call(cursor, left)?;
        self.climb(cursor, level, value)
    }

    /// An expression.
    #[tactic(auto, unfolding(spec_grammar::specs::ReadExpressions::expression, spec_grammar::specs::ReadExpressions::expression_with, spec_grammar::specs::ReadExpressions::operand))]
    pub fn expression(&self, cursor: &mut Cursor<'_>) -> Result<Phrase, ReadFault>
        requires { Nests self.now.room (F.pre self.now.phrase) (F.post self.now.phrase) }
        ensures { Reads (spec.expression (phrase self.now.room) self.now.room cursor.old) result cursor.new }
    {
        match arrow_head(self.alloc, cursor)? {
            Some(head) => self.arrow_of(cursor, head),
            None => {
                let left = self.operand(cursor, 10)?;
                self.sequel(cursor, left)
            }
        }
    }

    /// What stands behind `new`.
    #[tactic(auto, unfolding(spec_grammar::specs::ReadExpressions::member, spec_grammar::specs::ReadExpressions::base_at))]
    pub fn member(&self, cursor: &mut Cursor<'_>) -> Result<Phrase, ReadFault>
        requires { Nests self.now.room (F.pre self.now.phrase) (F.post self.now.phrase) }
        ensures { Reads (spec.member (phrase self.now.room) self.now.room cursor.old) result cursor.new }
    {
        let count = parens(self.alloc, cursor)?;
        if count == 0 {
            let first = self.primary(cursor)?;
            return self.tail(cursor, false, first);
        }
        let first = self.group(cursor, count)?;
        self.tail(cursor, false, first)
    }
}

//! Assignments, conditionals and arrows.

ghost use Rattle.snap_parse.specs.Nests.{Nests};
ghost use Rattle.snap_cursor.specs.Reads.{Reads};
ghost use Rattle.spec_grammar.specs.Operators.{Assignment, Choice};
ghost use Rattle.spec_grammar.specs.Read.{phrase};
ghost use Rattle.spec_grammar.specs.ReadExpressions as spec;
ghost use Rattle.spec_grammar.specs.Sign.{start_at};

use crate::grammar::Grammar;
use snap_ast::{AssignOperator, Items, Named};
use snap_cursor::{ArrowHead, Cursor, ReadFault, Sequel, sequel_of};
use snap_phrase::{Phrase, arrow_body, arrow_value, assign_node, conditional_node};
use spec_grammar::{Sign, Start};
use std::alloc::Global;

impl<F: Fn(Global, &mut Cursor<'_>, u32, Start) -> Result<Phrase, ReadFault>> Grammar<F> {
    /// A condition with the two values behind it.
    fn choice(&self, cursor: &mut Cursor<'_>, left: Phrase) -> Result<Phrase, ReadFault>
        requires { Nests self.now.room (F.pre self.now.phrase) (F.post self.now.phrase) }
        ensures { Reads (spec.sequel_by (phrase self.now.room) self.now.room left Choice cursor.old) result cursor.new }
    {
        self.fits(&left, cursor)?;
        cursor.skip();
        let chosen = self.below(cursor, Start::Expression)?;
        cursor.expect(Sign::Colon)?;
        let otherwise = self.below(cursor, Start::Expression)?;
        Ok(conditional_node(left, chosen, otherwise)?)
    }

    /// A target with the value that it is assigned behind it.
    #[tactic(auto, unfolding(spec_grammar::specs::Outcome::check))]
    fn assignment(
        &self,
        cursor: &mut Cursor<'_>,
        left: Phrase,
        operator: AssignOperator,
    ) -> Result<Phrase, ReadFault>
        requires { Nests self.now.room (F.pre self.now.phrase) (F.post self.now.phrase) }
        ensures { Reads (spec.sequel_by (phrase self.now.room) self.now.room left (Assignment operator) cursor.old) result cursor.new }
    {
        if left.is_wrapped() {
            return Err(ReadFault::Syntax);
        }
        self.fits_target(&left, cursor)?;
        cursor.skip();
        let value = self.below(cursor, Start::Expression)?;
        Ok(assign_node(self.alloc, operator, left, value)?)
    }

    /// What an Or becomes with what stands behind it.
    #[tactic(auto, unfolding(spec_grammar::specs::ReadExpressions::sequel))]
    pub fn sequel(&self, cursor: &mut Cursor<'_>, left: Phrase) -> Result<Phrase, ReadFault>
        requires { Nests self.now.room (F.pre self.now.phrase) (F.post self.now.phrase) }
        ensures { Reads (spec.sequel (phrase self.now.room) self.now.room left cursor.old) result cursor.new }
    {
        match sequel_of(cursor.sign()) {
            Sequel::NoSequel => Ok(left),
            Sequel::Choice => self.choice(cursor, left),
            Sequel::Assignment(operator) => self.assignment(cursor, left, operator),
        }
    }

    /// An arrow that begins at a place, behind its head.
    #[tactic(auto, unfolding(spec_grammar::specs::ReadExpressions::arrow, spec_grammar::specs::ReadExpressions::arrow_body, spec_grammar::specs::ReadExpressions::arrow_value))]
    fn arrow(
        &self,
        cursor: &mut Cursor<'_>,
        at: u32,
        names: Items<Named>,
    ) -> Result<Phrase, ReadFault>
        requires { Nests self.now.room (F.pre self.now.phrase) (F.post self.now.phrase) }
        ensures { Reads (spec.arrow (phrase self.now.room) self.now.room at names cursor.old) result cursor.new }
    {
        if cursor.sees(Sign::OpenCurly) {
            cursor.skip();
            let found = self.body(cursor)?;
            return Ok(arrow_body(at, names, found)?);
        }
        let value = self.below(cursor, Start::Expression)?;
        Ok(arrow_value(at, names, value)?)
    }

    /// An arrow that stands next, whose head is read already.
    pub fn arrow_of<'a>(
        &self,
        cursor: &mut Cursor<'a>,
        head: ArrowHead<'a>,
    ) -> Result<Phrase, ReadFault>
        requires { Nests self.now.room (F.pre self.now.phrase) (F.post self.now.phrase) }
        ensures { Reads (spec.arrow (phrase self.now.room) self.now.room (start_at cursor.old) head.entry.names head.entry.behind) result cursor.new }
    {
        let at = cursor.start();
        let (names, behind) = head.into_parts();
        *cursor = behind;
        self.arrow(cursor, at, names)
    }
}

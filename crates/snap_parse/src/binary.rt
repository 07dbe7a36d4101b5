//! Operators with two operands.

ghost use Rattle.std.specs.Prelude.{◌+◌};
ghost use Rattle.snap_parse.specs.Nests.{Nests};
ghost use Rattle.snap_cursor.specs.Reads.{Reads};
ghost use Rattle.spec_grammar.specs.Read.{phrase};
ghost use Rattle.spec_grammar.specs.ReadExpressions as spec;

use crate::grammar::Grammar;
use snap_ast::BinaryOperator;
use snap_cursor::{Cursor, ReadFault, operator_at};
use snap_phrase::{Phrase, binary_node};
use spec_grammar::Start;
use std::alloc::Global;

impl<F: Fn(Global, &mut Cursor<'_>, u32, Start) -> Result<Phrase, ReadFault>> Grammar<F> {
    /// An operand with an operator of a level, which is next, and the right operand.
    #[tactic(auto, unfolding(spec_grammar::specs::ReadExpressions::link))]
    fn link(
        &self,
        cursor: &mut Cursor<'_>,
        level: u8,
        left: Phrase,
        operator: BinaryOperator,
    ) -> Result<Phrase, ReadFault>
        requires { Nests self.now.room (F.pre self.now.phrase) (F.post self.now.phrase) }
        ensures { Reads (spec.link (phrase self.now.room) self.now.room level left operator cursor.old) result cursor.new }
    {
        self.fits(&left, cursor)?;
        cursor.skip();
        let right = self.below(cursor, Start::Operand(level))?;
        Ok(binary_node(operator, left, right)?)
    }

    /// What an operand becomes with the operators of a level behind it. Each turn makes a node
    /// above it.
    fn chain(
        &self,
        cursor: &mut Cursor<'_>,
        level: u8,
        mut left: Phrase,
    ) -> Result<Phrase, ReadFault>
        requires { Nests self.now.room (F.pre self.now.phrase) (F.post self.now.phrase) }
        ensures { Reads (spec.chain_from (phrase self.now.room) self.now.room level (self.now.room + 1) left cursor.old) result cursor.new }
    {
        for _turn in 0..self.room as usize + 1 {
            let Some(operator) = operator_at(level, cursor.sign()) else {
                return Ok(left);
            };
            left = self.link(cursor, level, left, operator)?;
        }
        Err(ReadFault::Nested)
    }

    /// What a Unary becomes with the operators of all levels below one behind it.
    pub fn climb(
        &self,
        cursor: &mut Cursor<'_>,
        levels: u8,
        mut left: Phrase,
    ) -> Result<Phrase, ReadFault>
        requires { Nests self.now.room (F.pre self.now.phrase) (F.post self.now.phrase) }
        ensures { Reads (spec.climb (phrase self.now.room) self.now.room levels left cursor.old) result cursor.new }
    {
        for level in 0..levels {
            left = self.chain(cursor, level, left)?;
        }
        Ok(left)
    }
}

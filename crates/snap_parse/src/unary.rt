//! Operators with one operand.

ghost use Rattle.std.specs.Prelude.{true};
ghost use Rattle.snap_parse.specs.Nests.{Nests};
ghost use Rattle.snap_cursor.specs.Reads.{Reads};
ghost use Rattle.spec_grammar.specs.Operators.{BeforeTarget, BeforeUnary};
ghost use Rattle.spec_grammar.specs.Outcome.{and_then};
ghost use Rattle.spec_grammar.specs.Read.{phrase};
ghost use Rattle.spec_grammar.specs.ReadExpressions as spec;

use crate::grammar::Grammar;
use snap_ast::{UnaryOperator, UpdateOperator};
use snap_cursor::{Cursor, Lead, ReadFault, is_lone_name, lead_of, named_at, postfix_at};
use snap_phrase::{Phrase, postfix_node, unary_node, update_name, update_node};
use spec_grammar::Start;
use std::alloc::Global;

impl<F: Fn(Global, &mut Cursor<'_>, u32, Start) -> Result<Phrase, ReadFault>> Grammar<F> {
    /// The phrase is a name or may stand below a node.
    #[tactic(auto, unfolding(spec_grammar::specs::ReadExpressions::fits_target))]
    pub fn fits_target(&self, target: &Phrase, cursor: &Cursor<'_>) -> Result<(), ReadFault>
        ensures { Reads (spec.fits_target (phrase self.now.room) self.now.room target.now cursor.now) result cursor.now }
    {
        match target.name(self.alloc)? {
            Some(_) => Ok(()),
            None => self.fits(target, cursor),
        }
    }

    /// What a Call becomes with an update behind it.
    #[tactic(auto, unfolding(spec_grammar::specs::ReadExpressions::postfix, spec_grammar::specs::Outcome::check))]
    fn postfix(&self, cursor: &mut Cursor<'_>, target: Phrase) -> Result<Phrase, ReadFault>
        ensures { Reads (spec.postfix (phrase self.now.room) self.now.room target cursor.old) result cursor.new }
    {
        let Some(operator) = postfix_at(cursor) else {
            return Ok(target);
        };
        if target.is_wrapped() {
            return Err(ReadFault::Syntax);
        }
        self.fits_target(&target, cursor)?;
        cursor.skip();
        Ok(postfix_node(self.alloc, operator, target)?)
    }

    /// A base with what stands behind it, up to an update.
    pub fn call(&self, cursor: &mut Cursor<'_>, left: Phrase) -> Result<Phrase, ReadFault>
        requires { Nests self.now.room (F.pre self.now.phrase) (F.post self.now.phrase) }
        ensures { Reads (and_then (spec.tail (phrase self.now.room) self.now.room true left cursor.old) (spec.postfix (phrase self.now.room) self.now.room)) result cursor.new }
    {
        let whole = self.tail(cursor, true, left)?;
        self.postfix(cursor, whole)
    }

    /// What an operator stands before, which is next.
    #[tactic(auto, unfolding(spec_grammar::specs::Outcome::check))]
    fn operation(
        &self,
        cursor: &mut Cursor<'_>,
        operator: UnaryOperator,
    ) -> Result<Phrase, ReadFault>
        requires { Nests self.now.room (F.pre self.now.phrase) (F.post self.now.phrase) }
        ensures { Reads (spec.unary_by (phrase self.now.room) self.now.room (spec.base (phrase self.now.room) self.now.room) (BeforeUnary operator) cursor.old) result cursor.new }
    {
        let at = cursor.start();
        cursor.skip();
        let operand = self.below(cursor, Start::Operand(0))?;
        if !operand.is_taken_by(operator) {
            return Err(ReadFault::Syntax);
        }
        Ok(unary_node(at, operator, operand)?)
    }

    /// What an update stands before, behind the operator.
    #[tactic(auto, unfolding(spec_grammar::specs::ReadExpressions::update_target, spec_grammar::specs::Outcome::check))]
    fn update_target(
        &self,
        cursor: &mut Cursor<'_>,
        operator: UpdateOperator,
        at: u32,
    ) -> Result<Phrase, ReadFault>
        requires { Nests self.now.room (F.pre self.now.phrase) (F.post self.now.phrase) }
        ensures { Reads (spec.update_target (phrase self.now.room) self.now.room operator at cursor.old) result cursor.new }
    {
        let target = self.below(cursor, Start::Operand(0))?;
        if target.is_wrapped() {
            return Err(ReadFault::Syntax);
        }
        Ok(update_node(at, operator, true, target)?)
    }

    /// The name that an update stands before, behind the operator.
    #[tactic(auto, unfolding(spec_grammar::specs::ReadExpressions::update_single))]
    fn update_single(
        &self,
        cursor: &mut Cursor<'_>,
        operator: UpdateOperator,
        at: u32,
    ) -> Result<Phrase, ReadFault>
        ensures { Reads (spec.update_single (phrase self.now.room) self.now.room operator at cursor.old) result cursor.new }
    {
        let named = named_at(self.alloc, cursor)?;
        cursor.skip();
        Ok(update_name(self.alloc, at, operator, true, named)?)
    }

    /// What an update stands before, which is next.
    fn update(&self, cursor: &mut Cursor<'_>, operator: UpdateOperator) -> Result<Phrase, ReadFault>
        requires { Nests self.now.room (F.pre self.now.phrase) (F.post self.now.phrase) }
        ensures { Reads (spec.unary_by (phrase self.now.room) self.now.room (spec.base (phrase self.now.room) self.now.room) (BeforeTarget operator) cursor.old) result cursor.new }
    {
        let at = cursor.start();
        cursor.skip();
        if is_lone_name(cursor) {
            self.update_single(cursor, operator, at)
        } else {
            self.update_target(cursor, operator, at)
        }
    }

    /// A Unary that begins with no parenthesis.
    #[tactic(auto, unfolding(spec_grammar::specs::ReadExpressions::unary_with, spec_grammar::specs::ReadExpressions::call_with))]
    pub fn unary(&self, cursor: &mut Cursor<'_>) -> Result<Phrase, ReadFault>
        requires { Nests self.now.room (F.pre self.now.phrase) (F.post self.now.phrase) }
        ensures { Reads (spec.unary_with (phrase self.now.room) self.now.room (spec.base (phrase self.now.room) self.now.room) cursor.old) result cursor.new }
    {
        match lead_of(cursor.sign()) {
            Lead::BeforeUnary(operator) => self.operation(cursor, operator),
            Lead::BeforeTarget(operator) => self.update(cursor, operator),
            Lead::NoLead => {
                let left = self.base(cursor)?;
                self.call(cursor, left)
            }
        }
    }
}

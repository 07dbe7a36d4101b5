//! Jumps, each behind its first token, which stands at a place.

ghost use Rattle.snap_parse.specs.Nests.{Nests};
ghost use Rattle.snap_cursor.specs.Reads.{Reads};
ghost use Rattle.spec_grammar.specs.Read.{phrase};
ghost use Rattle.spec_grammar.specs.ReadStatements as spec;

use crate::grammar::Grammar;
use snap_ast::Form;
use snap_cursor::{Cursor, ReadFault, is_over, semicolon};
use snap_phrase::{Below, Optional, Phrase, leaf, return_node, throw_node};
use spec_grammar::Start;
use std::alloc::Global;

impl<F: Fn(Global, &mut Cursor<'_>, u32, Start) -> Result<Phrase, ReadFault>> Grammar<F> {
    /// A jump that is a form by itself.
    #[tactic(auto, unfolding(spec_grammar::specs::ReadStatements::jump))]
    pub fn jump(&self, cursor: &mut Cursor<'_>, at: u32, form: Form) -> Result<Phrase, ReadFault>
        ensures { Reads (spec.jump (phrase self.now.room) at form cursor.old) result cursor.new }
    {
        semicolon(cursor)?;
        Ok(leaf(self.alloc, at, form)?)
    }

    /// A `return`.
    #[tactic(auto, unfolding(spec_grammar::specs::ReadStatements::return_statement))]
    pub fn return_statement(&self, cursor: &mut Cursor<'_>, at: u32) -> Result<Phrase, ReadFault>
        requires { Nests self.now.room (F.pre self.now.phrase) (F.post self.now.phrase) }
        ensures { Reads (spec.return_statement (phrase self.now.room) at cursor.old) result cursor.new }
    {
        let nothing = Below::new(self.alloc);
        if is_over(cursor) {
            semicolon(cursor)?;
            return Ok(return_node(at, Optional::absent(nothing))?);
        }
        let value = self.below(cursor, Start::Expression)?;
        semicolon(cursor)?;
        Ok(return_node(at, Optional::present(nothing, value)?)?)
    }

    /// A `throw`.
    #[tactic(auto, unfolding(spec_grammar::specs::ReadStatements::throw_statement, spec_grammar::specs::Outcome::check))]
    pub fn throw_statement(&self, cursor: &mut Cursor<'_>, at: u32) -> Result<Phrase, ReadFault>
        requires { Nests self.now.room (F.pre self.now.phrase) (F.post self.now.phrase) }
        ensures { Reads (spec.throw_statement (phrase self.now.room) at cursor.old) result cursor.new }
    {
        if cursor.is_after_newline() {
            return Err(ReadFault::Syntax);
        }
        let value = self.below(cursor, Start::Expression)?;
        semicolon(cursor)?;
        Ok(throw_node(at, value)?)
    }
}

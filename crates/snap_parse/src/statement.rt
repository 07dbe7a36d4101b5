//! All statements.

ghost use Rattle.snap_parse.specs.Nests.{Nests};
ghost use Rattle.snap_cursor.specs.Reads.{Reads};
ghost use Rattle.spec_grammar.specs.Read.{phrase};
ghost use Rattle.spec_grammar.specs.ReadStatements as spec;

use crate::grammar::Grammar;
use snap_ast::Form;
use snap_cursor::{Cursor, ReadFault, semicolon};
use snap_phrase::{Phrase, expression_node, leaf};
use spec_grammar::{Sign, Start};
use std::alloc::Global;

impl<F: Fn(Global, &mut Cursor<'_>, u32, Start) -> Result<Phrase, ReadFault>> Grammar<F> {
    /// An expression as a statement.
    #[tactic(auto, unfolding(spec_grammar::specs::ReadStatements::expression_statement))]
    fn expression_statement(&self, cursor: &mut Cursor<'_>) -> Result<Phrase, ReadFault>
        requires { Nests self.now.room (F.pre self.now.phrase) (F.post self.now.phrase) }
        ensures { Reads (spec.expression_statement (phrase self.now.room) cursor.old) result cursor.new }
    {
        let value = self.below(cursor, Start::Expression)?;
        semicolon(cursor)?;
        Ok(expression_node(value)?)
    }

    /// An empty statement.
    #[tactic(auto, unfolding(spec_grammar::specs::ReadStatements::statement_by))]
    fn empty(&self, cursor: &mut Cursor<'_>, at: u32) -> Result<Phrase, ReadFault>
        ensures { Reads (spec.statement_by (phrase self.now.room) Sign.Semicolon at cursor.old) result cursor.new }
    {
        cursor.skip();
        Ok(leaf(self.alloc, at, Form::Empty)?)
    }

    /// A statement, by its first token.
    #[tactic(auto, unfolding(spec_grammar::specs::ReadStatements::statement, spec_grammar::specs::ReadStatements::statement_by))]
    pub fn statement(&self, cursor: &mut Cursor<'_>) -> Result<Phrase, ReadFault>
        requires { Nests self.now.room (F.pre self.now.phrase) (F.post self.now.phrase) }
        ensures { Reads (spec.statement (phrase self.now.room) cursor.old) result cursor.new }
    {
        let at = cursor.start();
        match cursor.sign() {
            Sign::Let => {
                cursor.skip();
                self.let_statement(cursor, at)
            }
            Sign::Const => {
                cursor.skip();
                self.const_statement(cursor, at)
            }
            Sign::Function => {
                cursor.skip();
                self.function_statement(cursor, at)
            }
            Sign::OpenCurly => self.block(cursor),
            Sign::Semicolon => self.empty(cursor, at),
            Sign::If => {
                cursor.skip();
                self.if_statement(cursor, at)
            }
            Sign::While => {
                cursor.skip();
                self.while_statement(cursor, at)
            }
            Sign::For => {
                cursor.skip();
                self.for_statement(cursor, at)
            }
            Sign::Break => {
                cursor.skip();
                self.jump(cursor, at, Form::Break)
            }
            Sign::Continue => {
                cursor.skip();
                self.jump(cursor, at, Form::Continue)
            }
            Sign::Return => {
                cursor.skip();
                self.return_statement(cursor, at)
            }
            Sign::Throw => {
                cursor.skip();
                self.throw_statement(cursor, at)
            }
            Sign::Try => {
                cursor.skip();
                self.try_statement(cursor, at)
            }
            _ => self.expression_statement(cursor),
        }
    }
}

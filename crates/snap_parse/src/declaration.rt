//! Declarations.

ghost use Rattle.snap_parse.specs.Nests.{Nests};
ghost use Rattle.snap_cursor.specs.Reads.{Reads};
ghost use Rattle.spec_grammar.specs.Read.{phrase};
ghost use Rattle.spec_grammar.specs.ReadStatements as spec;

use crate::grammar::Grammar;
use snap_ast::{Binding, ConstBinding};
use snap_cursor::{Cursor, ReadFault, name, pattern, semicolon};
use snap_phrase::{
    Below, Phrase, Row, const_node, function_node, let_node, with_constant, with_name,
    with_pattern, with_value,
};
use spec_grammar::{Sign, Start};
use std::alloc::Global;

impl<F: Fn(Global, &mut Cursor<'_>, u32, Start) -> Result<Phrase, ReadFault>> Grammar<F> {
    /// A name of a `let`.
    #[tactic(auto, unfolding(spec_grammar::specs::ReadStatements::binding))]
    fn binding(&self, cursor: &mut Cursor<'_>, row: Row<Binding>) -> Result<Row<Binding>, ReadFault>
        requires { Nests self.now.room (F.pre self.now.phrase) (F.post self.now.phrase) }
        ensures { Reads (spec.binding (phrase self.now.room) row cursor.old) result cursor.new }
    {
        let named = name(self.alloc, cursor)?;
        if !cursor.sees(Sign::Assign) {
            return Ok(with_name(row, named)?);
        }
        cursor.skip();
        let value = self.below(cursor, Start::Expression)?;
        Ok(with_value(row, named, value)?)
    }

    /// The names of a `let`.
    pub fn bindings(&self, cursor: &mut Cursor<'_>) -> Result<Row<Binding>, ReadFault>
        requires { Nests self.now.room (F.pre self.now.phrase) (F.post self.now.phrase) }
        ensures { Reads (spec.bindings (phrase self.now.room) cursor.old) result cursor.new }
    {
        let mut row = Row::on(self.alloc, Below::new(self.alloc));
        for _turn in 0..cursor.len() {
            row = self.binding(cursor, row)?;
            if !cursor.sees(Sign::Comma) {
                return Ok(row);
            }
            cursor.skip();
        }
        Err(ReadFault::Syntax)
    }

    /// A name of a `const`.
    #[tactic(auto, unfolding(spec_grammar::specs::ReadStatements::constant))]
    fn constant(
        &self,
        cursor: &mut Cursor<'_>,
        row: Row<ConstBinding>,
    ) -> Result<Row<ConstBinding>, ReadFault>
        requires { Nests self.now.room (F.pre self.now.phrase) (F.post self.now.phrase) }
        ensures { Reads (spec.constant (phrase self.now.room) row cursor.old) result cursor.new }
    {
        let named = name(self.alloc, cursor)?;
        cursor.expect(Sign::Assign)?;
        let value = self.below(cursor, Start::Expression)?;
        Ok(with_constant(row, named, value)?)
    }

    /// A pattern of a `const`.
    #[tactic(auto, unfolding(spec_grammar::specs::ReadStatements::destructured))]
    fn destructured(
        &self,
        cursor: &mut Cursor<'_>,
        row: Row<ConstBinding>,
    ) -> Result<Row<ConstBinding>, ReadFault>
        requires { Nests self.now.room (F.pre self.now.phrase) (F.post self.now.phrase) }
        ensures { Reads (spec.destructured (phrase self.now.room) row cursor.old) result cursor.new }
    {
        cursor.skip();
        let names = pattern(self.alloc, cursor)?;
        cursor.expect(Sign::Assign)?;
        let value = self.below(cursor, Start::Expression)?;
        Ok(with_pattern(row, names, value)?)
    }

    /// A name or a pattern of a `const`.
    #[tactic(auto, unfolding(spec_grammar::specs::ReadStatements::const_binding))]
    fn const_binding(
        &self,
        cursor: &mut Cursor<'_>,
        row: Row<ConstBinding>,
    ) -> Result<Row<ConstBinding>, ReadFault>
        requires { Nests self.now.room (F.pre self.now.phrase) (F.post self.now.phrase) }
        ensures { Reads (spec.const_binding (phrase self.now.room) row cursor.old) result cursor.new }
    {
        if cursor.sees(Sign::OpenCurly) {
            self.destructured(cursor, row)
        } else {
            self.constant(cursor, row)
        }
    }

    /// The names and patterns of a `const`.
    fn const_bindings(&self, cursor: &mut Cursor<'_>) -> Result<Row<ConstBinding>, ReadFault>
        requires { Nests self.now.room (F.pre self.now.phrase) (F.post self.now.phrase) }
        ensures { Reads (spec.const_bindings (phrase self.now.room) cursor.old) result cursor.new }
    {
        let mut row = Row::on(self.alloc, Below::new(self.alloc));
        for _turn in 0..cursor.len() {
            row = self.const_binding(cursor, row)?;
            if !cursor.sees(Sign::Comma) {
                return Ok(row);
            }
            cursor.skip();
        }
        Err(ReadFault::Syntax)
    }

    /// A `let` that begins at a place, behind its first token.
    #[tactic(auto, unfolding(spec_grammar::specs::ReadStatements::let_statement))]
    pub fn let_statement(&self, cursor: &mut Cursor<'_>, at: u32) -> Result<Phrase, ReadFault>
        requires { Nests self.now.room (F.pre self.now.phrase) (F.post self.now.phrase) }
        ensures { Reads (spec.let_statement (phrase self.now.room) at cursor.old) result cursor.new }
    {
        let found = self.bindings(cursor)?;
        semicolon(cursor)?;
        Ok(let_node(at, found)?)
    }

    /// A `const` that begins at a place, behind its first token.
    #[tactic(auto, unfolding(spec_grammar::specs::ReadStatements::const_statement))]
    pub fn const_statement(&self, cursor: &mut Cursor<'_>, at: u32) -> Result<Phrase, ReadFault>
        requires { Nests self.now.room (F.pre self.now.phrase) (F.post self.now.phrase) }
        ensures { Reads (spec.const_statement (phrase self.now.room) at cursor.old) result cursor.new }
    {
        let found = self.const_bindings(cursor)?;
        semicolon(cursor)?;
        Ok(const_node(at, found)?)
    }

    /// A function that begins at a place, behind its first token.
    #[tactic(auto, unfolding(spec_grammar::specs::ReadStatements::function_statement))]
    pub fn function_statement(&self, cursor: &mut Cursor<'_>, at: u32) -> Result<Phrase, ReadFault>
        requires { Nests self.now.room (F.pre self.now.phrase) (F.post self.now.phrase) }
        ensures { Reads (spec.function_statement (phrase self.now.room) at cursor.old) result cursor.new }
    {
        let named = name(self.alloc, cursor)?;
        let (names, found) = self.function(cursor)?;
        Ok(function_node(self.alloc, at, named, names, found)?)
    }
}

//! What an expression is made of that holds no operator.

ghost use Rattle.std.specs.Prelude.{◌≡◌};
ghost use Rattle.snap_parse.specs.Nests.{Nests};
ghost use Rattle.snap_cursor.specs.Reads.{Reads};
ghost use Rattle.spec_grammar.specs.Nodes as node;
ghost use Rattle.spec_grammar.specs.Outcome.{and_then, pure, skip};
ghost use Rattle.spec_grammar.specs.Parts.{named_at};
ghost use Rattle.spec_grammar.specs.Read.{phrase};
ghost use Rattle.spec_grammar.specs.ReadExpressions as spec;
ghost use Rattle.spec_grammar.specs.Sign.{sign_at, start_at, text_at};

use crate::grammar::Grammar;
use snap_ast::Form;
use snap_cursor::{Cursor, ReadFault, named_at};
use snap_phrase::{Below, Phrase, Row, array_node, function_value, leaf, name_node};
use spec_grammar::{Sign, Start};
use std::alloc::Global;

/// A token that is a node by itself.
fn single(alloc: Global, cursor: &mut Cursor<'_>, form: Form) -> Result<Phrase, ReadFault>
    ensures { Reads (and_then (skip cursor.old) (λ _. pure (node.leaf (start_at cursor.old) form))) result cursor.new }
{
    let found = leaf(alloc, cursor.start(), form)?;
    cursor.skip();
    Ok(found)
}

impl<F: Fn(Global, &mut Cursor<'_>, u32, Start) -> Result<Phrase, ReadFault>> Grammar<F> {
    /// An array literal.
    #[tactic(auto, unfolding(spec_grammar::specs::ReadExpressions::array))]
    fn array(&self, cursor: &mut Cursor<'_>) -> Result<Phrase, ReadFault>
        requires { Nests self.now.room (F.pre self.now.phrase) (F.post self.now.phrase) }
        ensures { Reads (spec.array (phrase self.now.room) self.now.room cursor.old) result cursor.new }
    {
        let at = cursor.start();
        cursor.skip();
        let row = Row::on(self.alloc, Below::new(self.alloc));
        let elements = self.list(cursor, Sign::CloseSquare, row)?;
        Ok(array_node(at, elements)?)
    }

    /// A function as an expression.
    #[tactic(auto, unfolding(spec_grammar::specs::ReadExpressions::function_value))]
    fn function_value(&self, cursor: &mut Cursor<'_>) -> Result<Phrase, ReadFault>
        requires { Nests self.now.room (F.pre self.now.phrase) (F.post self.now.phrase) }
        ensures { Reads (spec.function_value (phrase self.now.room) self.now.room cursor.old) result cursor.new }
    {
        let at = cursor.start();
        cursor.skip();
        let (names, found) = self.function(cursor)?;
        Ok(function_value(at, names, found)?)
    }

    /// A name that is read.
    #[tactic(auto, unfolding(spec_grammar::specs::ReadExpressions::single))]
    fn name(&self, cursor: &mut Cursor<'_>) -> Result<Phrase, ReadFault>
        ensures { Reads (spec.single (phrase self.now.room) self.now.room (λ input. node.name_node (named_at input)) cursor.old) result cursor.new }
    {
        let found = name_node(self.alloc, named_at(self.alloc, cursor)?)?;
        cursor.skip();
        Ok(found)
    }

    /// A number.
    #[tactic(auto, unfolding(spec_grammar::specs::ReadExpressions::single))]
    fn number(&self, cursor: &mut Cursor<'_>) -> Result<Phrase, ReadFault>
        requires { sign_at cursor.old ≡ Sign.Number }
        ensures { Reads (spec.single (phrase self.now.room) self.now.room (λ input. node.number_node (start_at input) (text_at input)) cursor.old) result cursor.new }
    {
        let value = cursor.number();
        single(self.alloc, cursor, Form::Number { value })
    }

    /// A text.
    #[tactic(auto, unfolding(spec_grammar::specs::ReadExpressions::single))]
    fn text(&self, cursor: &mut Cursor<'_>) -> Result<Phrase, ReadFault>
        requires { sign_at cursor.old ≡ Sign.Text }
        ensures { Reads (spec.single (phrase self.now.room) self.now.room (λ input. node.text_node (start_at input) (text_at input)) cursor.old) result cursor.new }
    {
        let units = cursor.units(self.alloc)?;
        single(self.alloc, cursor, Form::Text { units })
    }

    /// A Primary, but for one in parentheses.
    #[tactic(auto, unfolding(spec_grammar::specs::ReadExpressions::primary, spec_grammar::specs::ReadExpressions::primary_by, spec_grammar::specs::ReadExpressions::single))]
    pub fn primary(&self, cursor: &mut Cursor<'_>) -> Result<Phrase, ReadFault>
        requires { Nests self.now.room (F.pre self.now.phrase) (F.post self.now.phrase) }
        ensures { Reads (spec.primary (phrase self.now.room) self.now.room cursor.old) result cursor.new }
    {
        match cursor.sign() {
            Sign::Name => self.name(cursor),
            Sign::Number => self.number(cursor),
            Sign::Text => self.text(cursor),
            Sign::True => single(self.alloc, cursor, Form::Bool { value: true }),
            Sign::False => single(self.alloc, cursor, Form::Bool { value: false }),
            Sign::Null => single(self.alloc, cursor, Form::Null),
            Sign::Undefined => single(self.alloc, cursor, Form::Undefined),
            Sign::OpenSquare => self.array(cursor),
            Sign::OpenCurly => self.object(cursor),
            Sign::Function => self.function_value(cursor),
            _ => Err(ReadFault::Syntax),
        }
    }
}

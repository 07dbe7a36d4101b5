//! Object literals.

ghost use Rattle.snap_parse.specs.Nests.{Nests};
ghost use Rattle.snap_cursor.specs.Reads.{Reads};
ghost use Rattle.spec_grammar.specs.Read.{phrase};
ghost use Rattle.spec_grammar.specs.ReadExpressions as spec;

use crate::grammar::Grammar;
use snap_ast::Property;
use snap_cursor::{Cursor, ReadFault, key_at, named_at};
use snap_phrase::{Below, Phrase, Row, object_node, with_computed, with_property, with_shorthand};
use spec_grammar::{Sign, Start};
use std::alloc::Global;

impl<F: Fn(Global, &mut Cursor<'_>, u32, Start) -> Result<Phrase, ReadFault>> Grammar<F> {
    /// A property with a key that is not computed.
    #[tactic(auto, unfolding(spec_grammar::specs::ReadExpressions::keyed, spec_grammar::specs::ReadExpressions::key_by))]
    fn keyed(&self, cursor: &mut Cursor<'_>, row: Row<Property>) -> Result<Row<Property>, ReadFault>
        requires { Nests self.now.room (F.pre self.now.phrase) (F.post self.now.phrase) }
        ensures { Reads (spec.keyed (phrase self.now.room) self.now.room row cursor.old) result cursor.new }
    {
        let Some(key) = key_at(self.alloc, cursor)? else {
            return Err(ReadFault::Syntax);
        };
        cursor.skip();
        cursor.skip();
        let value = self.below(cursor, Start::Expression)?;
        Ok(with_property(row, key, value)?)
    }

    /// A property that is a name, whose value is a node of its own.
    #[tactic(auto, unfolding(spec_grammar::specs::ReadExpressions::shorthand, spec_grammar::specs::ReadExpressions::fits, spec_grammar::specs::Outcome::check))]
    fn shorthand(
        &self,
        cursor: &mut Cursor<'_>,
        row: Row<Property>,
    ) -> Result<Row<Property>, ReadFault>
        requires { Nests self.now.room (F.pre self.now.phrase) (F.post self.now.phrase) }
        ensures { Reads (spec.shorthand (phrase self.now.room) self.now.room row cursor.old) result cursor.new }
    {
        let named = named_at(self.alloc, cursor)?;
        if !cursor.sees(Sign::Name) {
            return Err(ReadFault::Syntax);
        }
        if self.room < 1 {
            return Err(ReadFault::Nested);
        }
        cursor.skip();
        Ok(with_shorthand(self.alloc, row, named)?)
    }

    /// A property with a computed key.
    #[tactic(auto, unfolding(spec_grammar::specs::ReadExpressions::computed))]
    fn computed(
        &self,
        cursor: &mut Cursor<'_>,
        row: Row<Property>,
    ) -> Result<Row<Property>, ReadFault>
        requires { Nests self.now.room (F.pre self.now.phrase) (F.post self.now.phrase) }
        ensures { Reads (spec.computed (phrase self.now.room) self.now.room row cursor.old) result cursor.new }
    {
        cursor.skip();
        let key = self.below(cursor, Start::Expression)?;
        cursor.expect(Sign::CloseSquare)?;
        cursor.expect(Sign::Colon)?;
        let value = self.below(cursor, Start::Expression)?;
        Ok(with_computed(row, key, value)?)
    }

    /// A property.
    #[tactic(auto, unfolding(spec_grammar::specs::ReadExpressions::property))]
    fn property(
        &self,
        cursor: &mut Cursor<'_>,
        row: Row<Property>,
    ) -> Result<Row<Property>, ReadFault>
        requires { Nests self.now.room (F.pre self.now.phrase) (F.post self.now.phrase) }
        ensures { Reads (spec.property (phrase self.now.room) self.now.room row cursor.old) result cursor.new }
    {
        if cursor.sees(Sign::OpenSquare) {
            return self.computed(cursor, row);
        }
        if cursor.sees_second(Sign::Colon) {
            self.keyed(cursor, row)
        } else {
            self.shorthand(cursor, row)
        }
    }

    /// Properties with commas between and the closing brace.
    fn properties(&self, cursor: &mut Cursor<'_>) -> Result<Row<Property>, ReadFault>
        requires { Nests self.now.room (F.pre self.now.phrase) (F.post self.now.phrase) }
        ensures { Reads (spec.properties (phrase self.now.room) self.now.room cursor.old) result cursor.new }
    {
        let mut row = Row::on(self.alloc, Below::new(self.alloc));
        for _turn in 0..cursor.len() {
            if cursor.sees(Sign::CloseCurly) {
                cursor.skip();
                return Ok(row);
            }
            row = self.property(cursor, row)?;
            if !cursor.sees(Sign::Comma) {
                cursor.expect(Sign::CloseCurly)?;
                return Ok(row);
            }
            cursor.skip();
        }
        Err(ReadFault::Syntax)
    }

    /// An object literal.
    #[tactic(auto, unfolding(spec_grammar::specs::ReadExpressions::object))]
    pub fn object(&self, cursor: &mut Cursor<'_>) -> Result<Phrase, ReadFault>
        requires { Nests self.now.room (F.pre self.now.phrase) (F.post self.now.phrase) }
        ensures { Reads (spec.object (phrase self.now.room) self.now.room cursor.old) result cursor.new }
    {
        let at = cursor.start();
        cursor.skip();
        let found = self.properties(cursor)?;
        Ok(object_node(at, found)?)
    }
}

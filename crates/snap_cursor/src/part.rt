//! The parts of productions that hold no phrase: names, keys, the end of a statement.

ghost use Rattle.std.specs.Prelude.{◌≡◌, IfOk};
ghost use Rattle.snap_cursor.specs.Reads.{Reads};
ghost use Rattle.spec_grammar.specs.Parts.{ends_line, is_lone_name, is_over, key_at, named_at, postfix_at, semicolon};
ghost use Rattle.spec_grammar.specs.ReadExpressions.{word};
ghost use Rattle.spec_grammar.specs.ReadStatements.{name};
ghost use Rattle.spec_grammar.specs.Sign.{text_at};

use crate::cursor::Cursor;
use crate::fault::ReadFault;
use crate::operator::{Tail, is_tail, tail_of, update_of};
use snap_ast::{Named, PropertyKey, UpdateOperator};
use snap_text::{NoMemory, StrView, Units};
use spec_grammar::Sign;
use std::alloc::{AllocError, Global};

/// The text that the next token is, a unit a byte.
fn copied_text(alloc: Global, cursor: &Cursor<'_>) -> Result<Units, AllocError>
    ensures { IfOk result (λ text. text ≡ text_at cursor.now) }
{
    match StrView::One(cursor.text()).copy(alloc) {
        Ok(text) => Ok(text),
        Err(NoMemory) => Err(AllocError),
    }
}

/// The next token as a name.
#[tactic(auto, unfolding(spec_grammar::specs::Parts::named_at))]
pub fn named_at(alloc: Global, cursor: &Cursor<'_>) -> Result<Named, AllocError>
    ensures { IfOk result (λ named. named ≡ named_at cursor.now) }
{
    Ok(Named {
        name: copied_text(alloc, cursor)?,
        at: cursor.start(),
    })
}

/// The name that stands next.
#[tactic(auto, unfolding(spec_grammar::specs::ReadStatements::name))]
pub fn name(alloc: Global, cursor: &mut Cursor<'_>) -> Result<Named, ReadFault>
    ensures { Reads (name cursor.old) result cursor.new }
{
    let named = named_at(alloc, cursor)?;
    cursor.expect(Sign::Name)?;
    Ok(named)
}

/// The word that stands next.
#[tactic(auto, unfolding(spec_grammar::specs::ReadExpressions::word, spec_grammar::specs::Outcome::check))]
pub fn word(alloc: Global, cursor: &mut Cursor<'_>) -> Result<Units, ReadFault>
    ensures { Reads (word cursor.old) result cursor.new }
{
    if !cursor.sees_word() {
        return Err(ReadFault::Syntax);
    }
    let text = copied_text(alloc, cursor)?;
    cursor.skip();
    Ok(text)
}

/// A key of a property that is not computed.
#[tactic(auto, unfolding(spec_grammar::specs::Parts::key_at))]
pub fn key_at(alloc: Global, cursor: &Cursor<'_>) -> Result<Option<PropertyKey>, AllocError>
    ensures { IfOk result (λ key. key ≡ key_at cursor.now) }
{
    match cursor.sign() {
        Sign::Text => Ok(Some(PropertyKey::Text(cursor.units(alloc)?))),
        Sign::Number => Ok(Some(PropertyKey::Number(cursor.number()))),
        _ => {
            if cursor.sees_word() {
                Ok(Some(PropertyKey::Word(copied_text(alloc, cursor)?)))
            } else {
                Ok(None)
            }
        }
    }
}

/// A statement may end here without a semicolon.
#[tactic(auto, unfolding(spec_grammar::specs::Parts::ends_line))]
fn ends_line(cursor: &Cursor<'_>) -> bool
    ensures { result ≡ ends_line cursor.now }
{
    cursor.is_after_newline() || cursor.sees(Sign::CloseCurly)
}

/// The semicolon at the end of a statement, which is inserted before a line end, a `}` and the end
/// of the source: ECMA-262, Automatic Semicolon Insertion.
#[tactic(auto, unfolding(spec_grammar::specs::Parts::semicolon))]
pub fn semicolon(cursor: &mut Cursor<'_>) -> Result<(), ReadFault>
    ensures { Reads (semicolon cursor.old) result cursor.new }
{
    if cursor.sees(Sign::Semicolon) {
        cursor.skip();
        return Ok(());
    }
    if ends_line(cursor) {
        Ok(())
    } else {
        Err(ReadFault::Syntax)
    }
}

/// Nothing that belongs to a `return` stands here.
#[tactic(auto, unfolding(spec_grammar::specs::Parts::is_over))]
pub fn is_over(cursor: &Cursor<'_>) -> bool
    ensures { result ≡ is_over cursor.now }
{
    cursor.sees(Sign::Semicolon) || ends_line(cursor)
}

/// `++` or `--` with no line end before it.
#[tactic(auto, unfolding(spec_grammar::specs::Parts::postfix_at))]
pub fn postfix_at(cursor: &Cursor<'_>) -> Option<UpdateOperator>
    ensures { result ≡ postfix_at cursor.now }
{
    if cursor.is_after_newline() {
        None
    } else {
        update_of(cursor.sign())
    }
}

/// A name that is a whole Unary.
#[tactic(auto, unfolding(spec_grammar::specs::Parts::is_lone_name))]
pub fn is_lone_name(cursor: &Cursor<'_>) -> bool
    ensures { result ≡ is_lone_name cursor.now }
{
    if !cursor.sees(Sign::Name) {
        return false;
    }
    let mut behind = cursor.twin();
    behind.skip();
    if is_tail(tail_of(true, behind.sign())) {
        return false;
    }
    postfix_at(&behind).is_none()
}

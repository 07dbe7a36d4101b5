//! Names with commas between.

ghost use Rattle.std.specs.Prelude.{◌≡◌, [], false, true};
ghost use Rattle.snap_cursor.specs.Reads.{Reads};
ghost use Rattle.spec_grammar.specs.Parts.{names_from, parameters, pattern};
ghost use Rattle.spec_grammar.specs.Sign.{sees};

use crate::cursor::Cursor;
use crate::fault::ReadFault;
use crate::part::named_at;
use snap_ast::{Items, Named};
use spec_grammar::Sign;
use std::alloc::Global;

/// Names up to a closing sign, of which there may be none where the flag says so.
fn names(
    alloc: Global,
    cursor: &mut Cursor<'_>,
    close: Sign,
    may_lack: bool,
) -> Result<Items<Named>, ReadFault>
    requires { sees close [] ≡ false }
    ensures { Reads (names_from close may_lack false [] cursor.old) result cursor.new }
{
    let mut found = Vec::new(alloc);
    let mut is_behind = false;
    'names: while !cursor.is_empty() {
        if is_behind {
            if cursor.sees(close) {
                cursor.skip();
                return Ok(Items::from_vec(found));
            }
            cursor.expect(Sign::Comma)?;
            is_behind = false;
        } else if cursor.sees(Sign::Name) {
            found.push(named_at(alloc, cursor)?)?;
            cursor.skip();
            is_behind = true;
        } else {
            if !may_lack && found.is_empty() {
                return Err(ReadFault::Syntax);
            }
            cursor.expect(close)?;
            return Ok(Items::from_vec(found));
        }
    }
    Err(ReadFault::Syntax)
}

/// The parameters of a function and the closing parenthesis, behind the opening one.
#[tactic(auto, unfolding(spec_grammar::specs::Parts::parameters, spec_grammar::specs::Sign::sees, spec_grammar::specs::Sign::sign_at, spec_grammar::specs::Sign::same_sign))]
pub fn parameters(alloc: Global, cursor: &mut Cursor<'_>) -> Result<Items<Named>, ReadFault>
    ensures { Reads (parameters cursor.old) result cursor.new }
{
    names(alloc, cursor, Sign::CloseParen, true)
}

/// The names of a pattern and the closing brace, behind the opening one.
#[tactic(auto, unfolding(spec_grammar::specs::Parts::pattern, spec_grammar::specs::Sign::sees, spec_grammar::specs::Sign::sign_at, spec_grammar::specs::Sign::same_sign))]
pub fn pattern(alloc: Global, cursor: &mut Cursor<'_>) -> Result<Items<Named>, ReadFault>
    ensures { Reads (pattern cursor.old) result cursor.new }
{
    names(alloc, cursor, Sign::CloseCurly, false)
}

//! The heads of arrows and of `for..of`, which are read before it is known that they are some.

ghost use Rattle.std.specs.Prelude.{◌≡◌, ◌≤◌, ◌&&◌, ◌||◌, [], ◌∷◌, length, IfOk};
ghost use Rattle.std.specs.Str.{bytes_eq};
ghost use Rattle.spec_grammar.specs.Parts.{arrow_head, arrow_of, behind_arrow, is_of, named_at, of_head, parameters};
ghost use Rattle.spec_grammar.specs.ReadExpressions.{is_no_arrow, parens, parens_from};
ghost use Rattle.spec_grammar.specs.Sign.{next, sees};

use crate::cursor::Cursor;
use crate::fault::ReadFault;
use crate::names::parameters;
use crate::part::named_at;
use snap_ast::{Items, Named};
use spec_grammar::Sign;
use std::alloc::{AllocError, Global};
use std::marker::Model;

/// The parameters of an arrow, and what stands behind its `=>`.
#[derive(Drop)]
pub struct ArrowHead<'a> {
    names: Items<Named>,
    behind: Cursor<'a>,
}

impl<'a> Model for ArrowHead<'a> {
    ghost use Rattle.spec_grammar.specs.Parts.{ArrowHead};

    ghost Value = { ArrowHead };

    ghost view = { λ h. record { names = h.names; behind = h.behind } };
}

impl<'a> ArrowHead<'a> {
    /// The parameters, and the cursor behind the `=>`.
    pub fn into_parts(self) -> (Items<Named>, Cursor<'a>)
        ensures { result ≡ (self.entry.names, self.entry.behind) }
    {
        let ArrowHead { names, behind } = self;
        (names, behind)
    }
}

/// Whether a `for..of` declares a constant, its name, and what stands behind its `of`.
#[derive(Drop)]
pub struct OfHead<'a> {
    is_constant: bool,
    named: Named,
    behind: Cursor<'a>,
}

impl<'a> Model for OfHead<'a> {
    ghost use Rattle.spec_grammar.specs.Parts.{OfHead};

    ghost Value = { OfHead };

    ghost view = { λ h. record { is_constant = h.is_constant; named = h.named; behind = h.behind } };
}

impl<'a> OfHead<'a> {
    /// Whether it declares a constant, the name, and the cursor behind the `of`.
    pub fn into_parts(self) -> (bool, Named, Cursor<'a>)
        ensures { result ≡ (self.entry.is_constant, self.entry.named, self.entry.behind) }
    {
        let OfHead {
            is_constant,
            named,
            behind,
        } = self;
        (is_constant, named, behind)
    }
}

/// The head of an arrow with these parameters, where `=>` stands next with no line end before it.
#[tactic(auto, unfolding(spec_grammar::specs::Parts::behind_arrow))]
fn behind_arrow<'a>(names: Items<Named>, cursor: &Cursor<'a>) -> Option<ArrowHead<'a>>
    ensures { result ≡ behind_arrow names cursor.now }
{
    if cursor.sees(Sign::Arrow) && !cursor.is_after_newline() {
        let mut behind = cursor.twin();
        behind.skip();
        Some(ArrowHead { names, behind })
    } else {
        None
    }
}

/// The head of an arrow with one parameter, which stands next.
#[tactic(auto, unfolding(spec_grammar::specs::Parts::behind_arrow))]
fn single_head<'a>(alloc: Global, cursor: &Cursor<'a>) -> Result<Option<ArrowHead<'a>>, AllocError>
    ensures { IfOk result (λ head. head ≡ behind_arrow (named_at cursor.now ∷ []) (next cursor.now)) }
{
    if !cursor.sees_second(Sign::Arrow) {
        return Ok(None);
    }
    let mut names = Vec::new(alloc);
    names.push(named_at(alloc, cursor)?)?;
    let mut behind = cursor.twin();
    behind.skip();
    Ok(behind_arrow(Items::from_vec(names), &behind))
}

/// The head of an arrow with its parameters in parentheses, behind the opening one.
fn listed_head<'a>(
    alloc: Global,
    mut cursor: Cursor<'a>,
) -> Result<Option<ArrowHead<'a>>, AllocError>
    ensures { IfOk result (λ head. head ≡ arrow_of (parameters cursor.entry)) }
{
    match parameters(alloc, &mut cursor) {
        Ok(names) => Ok(behind_arrow(names, &cursor)),
        Err(fault) => match fault {
            ReadFault::NoMemory => Err(AllocError),
            ReadFault::Syntax | ReadFault::Nested => Ok(None),
        },
    }
}

/// The head of an arrow that stands next.
#[tactic(auto, unfolding(spec_grammar::specs::Parts::arrow_head))]
pub fn arrow_head<'a>(
    alloc: Global,
    cursor: &Cursor<'a>,
) -> Result<Option<ArrowHead<'a>>, AllocError>
    ensures { IfOk result (λ head. head ≡ arrow_head cursor.now) }
{
    if cursor.sees(Sign::Name) {
        return single_head(alloc, cursor);
    }
    if !cursor.sees(Sign::OpenParen) {
        return Ok(None);
    }
    let mut inner = cursor.twin();
    inner.skip();
    listed_head(alloc, inner)
}

/// The next token is the name `of`.
#[tactic(auto, unfolding(spec_grammar::specs::Parts::is_of))]
fn is_of(cursor: &Cursor<'_>) -> bool
    ensures { result ≡ is_of cursor.now }
{
    cursor.sees(Sign::Name) && is_text(cursor.text(), b"of")
}

/// The text is this word.
fn is_text(text: &[u8], word: &[u8]) -> bool
    ensures { result ≡ bytes_eq text.now word.now }
{
    text == word
}

/// `let` or `const`, a name and `of` stand next.
fn begins_of(cursor: &Cursor<'_>) -> bool
    ensures { result ≡ ((sees Sign.Let cursor.now || sees Sign.Const cursor.now) && sees Sign.Name (next cursor.now) && is_of (next (next cursor.now))) }
{
    if !cursor.sees(Sign::Let) && !cursor.sees(Sign::Const) {
        return false;
    }
    if !cursor.sees_second(Sign::Name) {
        return false;
    }
    let mut behind = cursor.twin();
    behind.skip();
    behind.skip();
    is_of(&behind)
}

/// The head of a `for..of` that stands next.
#[tactic(auto, unfolding(spec_grammar::specs::Parts::of_head))]
pub fn of_head<'a>(alloc: Global, cursor: &Cursor<'a>) -> Result<Option<OfHead<'a>>, AllocError>
    ensures { IfOk result (λ head. head ≡ of_head cursor.now) }
{
    if !begins_of(cursor) {
        return Ok(None);
    }
    let is_constant = cursor.sees(Sign::Const);
    let mut behind = cursor.twin();
    behind.skip();
    let named = named_at(alloc, &behind)?;
    behind.skip();
    behind.skip();
    Ok(Some(OfHead {
        is_constant,
        named,
        behind,
    }))
}

/// A parenthesis stands next, and no arrow begins with it.
fn opens(alloc: Global, cursor: &Cursor<'_>) -> Result<bool, AllocError>
    ensures { IfOk result (λ opens. opens ≡ (sees Sign.OpenParen cursor.now && is_no_arrow (arrow_head cursor.now))) }
{
    if !cursor.sees(Sign::OpenParen) {
        return Ok(false);
    }
    match arrow_head(alloc, cursor)? {
        None => Ok(true),
        Some(_) => Ok(false),
    }
}

/// How many parentheses an expression begins with.
fn parens_from(alloc: Global, mut cursor: Cursor<'_>) -> Result<usize, AllocError>
    ensures value { IfOk result (λ count. count ≡ parens_from cursor.entry) }
    ensures within { IfOk result (λ count. count ≤ length cursor.entry) }
{
    let len = cursor.len();
    for count in 0..len {
        if !opens(alloc, &cursor)? {
            return Ok(count);
        }
        cursor.skip();
    }
    Ok(len)
}

/// How many parentheses an operand begins with, which is no arrow.
#[tactic(auto, using(crate::proofs::Opening::taken), unfolding(spec_grammar::specs::ReadExpressions::parens))]
pub fn parens(alloc: Global, cursor: &Cursor<'_>) -> Result<usize, AllocError>
    ensures { IfOk result (λ count. count ≡ parens cursor.now) }
{
    if !cursor.sees(Sign::OpenParen) {
        return Ok(0);
    }
    let most = cursor.len();
    let mut inner = cursor.twin();
    inner.skip();
    let count = parens_from(alloc, inner)?;
    prove!(count < most);
    Ok(count + 1)
}

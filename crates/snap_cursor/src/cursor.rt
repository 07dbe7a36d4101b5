//! A cursor over the tokens of a source.

ghost use Rattle.std.specs.Prelude.{◌≡◌, ◌==◌, length, IfOk};
ghost use Rattle.spec_tokens.specs.Number.{number_value};
ghost use Rattle.spec_tokens.specs.Text.{text_units};
ghost use Rattle.snap_cursor.specs.Read.{AreRead};
ghost use Rattle.snap_lex.specs.View.{views};
ghost use Rattle.snap_cursor.specs.Past.{past};
ghost use Rattle.snap_cursor.specs.Reads.{Reads};
ghost use Rattle.spec_grammar.specs.Outcome.{expect};
ghost use Rattle.spec_grammar.specs.Source.{place_at};
ghost use Rattle.spec_grammar.specs.Sign.{is_word_at, newline_at, next, sees, sign_at, start_at, text_at};

use crate::fault::ReadFault;
use crate::sign::{same_sign, sign_of};
use snap_lex::{Token, TokenKind, number_of, text_units};
use snap_text::Units;
use spec_grammar::Sign;
use sqlite_items::at;
use std::alloc::{AllocError, Global};
use std::marker::Model;

/// What the first of some tokens is.
#[tactic(auto, unfolding(spec_grammar::specs::Sign::sign_at))]
fn first_sign(tokens: &[Token<'_>]) -> Sign
    ensures { result ≡ sign_at (views tokens.now) }
{
    match tokens {
        [] => Sign::End,
        [first, ..] => sign_of(first.kind, first.text),
    }
}

/// The tokens behind the first.
#[tactic(auto, unfolding(spec_grammar::specs::Sign::next))]
fn behind<'s, 'a>(tokens: &'s [Token<'a>]) -> &'s [Token<'a>]
    ensures rest { views result.now ≡ next (views tokens.now) }
    ensures read { AreRead (views tokens.now) → AreRead (views result.now) }
{
    match tokens {
        [] => tokens,
        [_, rest @ ..] => rest,
    }
}

/// The tokens that are left.
#[derive(Drop)]
pub struct Cursor<'a> {
    rest: &'a [Token<'a>],
    /// What the next token is, and the one behind it.
    sign: Sign,
    second: Sign,
}

impl<'a> Model for Cursor<'a> {
    ghost use Rattle.std.specs.Prelude.{◌≡◌, List};
    ghost use Rattle.spec_tokens.specs.Tokens.{Lexeme};

    ghost Value = { List Lexeme };

    ghost use Rattle.snap_lex.specs.View.{views};
    ghost use Rattle.snap_cursor.specs.Read.{AreRead};
    ghost use Rattle.spec_grammar.specs.Sign.{next, sign_at};

    ghost view = { λ c. views c.rest.now };

    ghost invariant = { λ c. AreRead (views c.rest.now) × (c.sign ≡ sign_at (views c.rest.now)) × (c.second ≡ sign_at (next (views c.rest.now))) };
}

impl<'a> Cursor<'a> {
    /// At the front of some tokens.
    pub fn new(rest: &'a [Token<'a>]) -> Cursor<'a>
        requires { AreRead (views rest.now) }
        ensures { result ≡ views rest.now }
    {
        let sign = first_sign(rest);
        let second = first_sign(behind(rest));
        Cursor { rest, sign, second }
    }

    /// Another one that stands there.
    pub fn twin(&self) -> Cursor<'a>
        ensures { result ≡ self.now }
    {
        Cursor {
            rest: self.rest,
            sign: self.sign,
            second: self.second,
        }
    }

    /// How many tokens are left.
    pub fn len(&self) -> usize
        ensures { result ≡ length self.now }
    {
        self.rest.len()
    }

    /// No token is left.
    pub fn is_empty(&self) -> bool
        ensures { result ≡ (length self.now == 0) }
    {
        self.rest.is_empty()
    }

    /// What the next token is.
    pub fn sign(&self) -> Sign
        ensures { result ≡ sign_at self.now }
    {
        self.sign
    }

    /// What the token behind the next one is.
    pub fn second(&self) -> Sign
        ensures { result ≡ sign_at (next self.now) }
    {
        self.second
    }

    /// The next token is this one.
    #[tactic(auto, unfolding(spec_grammar::specs::Sign::sees))]
    pub fn sees(&self, sign: Sign) -> bool
        ensures { result ≡ sees sign self.now }
    {
        same_sign(self.sign, sign)
    }

    /// The token behind the next one is this one.
    #[tactic(auto, unfolding(spec_grammar::specs::Sign::sees))]
    pub fn sees_second(&self, sign: Sign) -> bool
        ensures { result ≡ sees sign (next self.now) }
    {
        same_sign(self.second, sign)
    }

    /// Goes behind the next token.
    pub fn skip(&mut self)
        ensures { self.new ≡ next self.old }
    {
        self.rest = behind(self.rest);
        self.sign = self.second;
        self.second = first_sign(behind(self.rest));
    }

    /// Goes behind so many tokens.
    pub fn skip_all(&mut self, count: usize)
        ensures { self.new ≡ past count self.old }
    {
        for _taken in 0..count {
            self.skip();
        }
    }

    /// The place of the token behind so many.
    #[tactic(auto, using(crate::proofs::Past::start_past, crate::proofs::Past::start_end), unfolding(spec_grammar::specs::Sign::start_at))]
    pub fn start_behind(&self, count: usize) -> u32
        ensures { result ≡ start_at (past count self.now) }
    {
        match at(self.rest, count) {
            None => 0,
            Some(token) => token.at,
        }
    }

    /// Goes behind the next token, which is this one.
    #[tactic(auto, unfolding(spec_grammar::specs::Outcome::expect))]
    pub fn expect(&mut self, sign: Sign) -> Result<(), ReadFault>
        ensures { Reads (expect sign self.old) result self.new }
    {
        if self.sees(sign) {
            self.skip();
            Ok(())
        } else {
            Err(ReadFault::Syntax)
        }
    }

    /// The place of the next token.
    #[tactic(auto, unfolding(spec_grammar::specs::Sign::start_at))]
    pub fn start(&self) -> u32
        ensures { result ≡ start_at self.now }
    {
        match self.rest {
            [] => 0,
            [first, ..] => first.at,
        }
    }

    /// The place of the next token, where the source ends at another.
    pub fn place(&self, end: u32) -> u32
        ensures { result ≡ place_at end self.now }
    {
        match self.rest {
            [] => end,
            [first, ..] => first.at,
        }
    }

    /// The bytes of the next token.
    #[tactic(auto, unfolding(spec_grammar::specs::Sign::text_at))]
    pub fn text(&self) -> &'a [u8]
        ensures { result.now ≡ text_at self.now }
    {
        match self.rest {
            [] => b"",
            [first, ..] => first.text,
        }
    }

    /// A line end stands before the next token, or there is none.
    #[tactic(auto, unfolding(spec_grammar::specs::Sign::newline_at))]
    pub fn is_after_newline(&self) -> bool
        ensures { result ≡ newline_at self.now }
    {
        match self.rest {
            [] => true,
            [first, ..] => first.after_newline,
        }
    }

    /// The next token is a name or a reserved word.
    #[tactic(auto, unfolding(spec_grammar::specs::Sign::is_word_at))]
    pub fn sees_word(&self) -> bool
        ensures { result ≡ is_word_at self.now }
    {
        match self.rest {
            [] => false,
            [first, ..] => match first.kind {
                TokenKind::Name | TokenKind::Word => true,
                _ => false,
            },
        }
    }

    /// What the next token stands for, which is a number.
    #[tactic(auto, unfolding(spec_grammar::specs::Sign::sign_at, spec_grammar::specs::Sign::text_at))]
    pub fn number(&self) -> u64
        requires { sign_at self.now ≡ Sign.Number }
        ensures { result ≡ number_value (text_at self.now) }
    {
        match self.rest {
            [] => 0,
            [first, ..] => number_of(first.text),
        }
    }

    /// The units of the next token, which is a text.
    #[tactic(auto, unfolding(spec_grammar::specs::Sign::sign_at, spec_grammar::specs::Sign::text_at))]
    pub fn units(&self, alloc: Global) -> Result<Units, AllocError>
        requires { sign_at self.now ≡ Sign.Text }
        ensures { IfOk result (λ units. units ≡ text_units (text_at self.now)) }
    {
        match self.rest {
            [] => Err(AllocError),
            [first, ..] => Ok(Units::from_vec(text_units(alloc, first.text)?)),
        }
    }
}

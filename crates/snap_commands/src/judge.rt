//! Which sources are thin scripts.

ghost use Rattle.std.specs.Prelude.{◌≡◌, ◌≤◌, Ok, ℕ, List, length, slice_range, None, Some, Err, IfOk};
ghost use Rattle.std.specs.List.{list_all, list_any};
ghost use Rattle.std.specs.Str.{bytes_eq};
ghost use Rattle.std.specs.Option.{option_map};
ghost use Rattle.spec_tokens.specs.Byte.{is_digit};
ghost use Rattle.spec_tokens.specs.Tokens.{lexemes};
ghost use Rattle.snap_lex.specs.View.{views};
ghost use Rattle.snap_commands.specs.Judged.{left, literal_left, name_left, statement_left, thin_list};
ghost use Rattle.snap_commands.specs.Refusals.{refusal};
ghost use Rattle.snap_commands.specs.Answers.{ran};
ghost use Rattle.snap_commands.specs.declared.fault.Fault.{Fault};
ghost use Rattle.snap_ast.specs.declared.tree.Tree.{Tree};
ghost use Rattle.snap_ast.specs.Lawful.{Lawful};
ghost use Rattle.spec_grammar.specs.Source.{HasTree};
ghost use Rattle.spec_scopes.specs.EarlyErrors.{HasFault};
ghost use Rattle.spec_scopes.specs.Told.{early_error};
ghost use Rattle.spec_scopes.specs.declared.fault.ScopeFault.{ScopeFault};
ghost use Rattle.snap_commands.specs.declared.refused.SourceRefused.{SourceRefused};
ghost use Rattle.snap_commands.specs.Thin.{Globals, thin_of, value_of};
ghost use Rattle.snap_commands.specs.ThinSource.{argument, assign_statement, closed, decimal_value, expect, free_name, global_name, is_free_name, is_parting, literal, literal_value, log_statement, own_names, plain_text_value, parts_by_blanks, statements_of, thin_script, thin_statement, thin_statements, word_value};

use crate::refused::SourceRefused;
use crate::statement::{Literal, Statement};
use snap_base::MOST_SOURCE_BYTES;
use snap_lex::{LexFault, Token, TokenKind, safe_number, tokens};
use snap_parse::{Parsed, SourceFault, parse_with_tokens};
use snap_scope::{ScopeFault, resolve};
use std::alloc::{AllocError, Global};

/// Why a source has no statements.
#[derive(Clone, Copy, Debug, PartialEq, Eq)]
pub(crate) enum Unjudged {
    /// It is refused.
    Refused(SourceRefused),
    /// Memory ran out.
    NoMemory,
}

// The statements of a source that has these tokens and this tree.
#[tactic(auto, unfolding(crate::specs::ThinSource::thin_script))]
fn judge_parsed<'s>(
    alloc: Global,
    source: &[u8],
    parsed: &Parsed<'s>,
) -> Result<Option<Vec<Statement<'s>>>, Unjudged>
    requires short { length source.now ≤ MOST_SOURCE_BYTES }
    requires cut { lexemes source.now ≡ Ok (views parsed.now.tokens.items) }
    requires lawful { Lawful parsed.now.tree }
    ensures judged { IfOk result (λ o. thin_list o ≡ thin_script source.now) }
    ensures accepted { IfOk result (λ o. early_error parsed.now.tree ≡ None) }
    ensures refused { (why : SourceRefused) → result ≡ Err (Unjudged.Refused why) → option_map (λ fault. SourceRefused.Scope fault) (early_error parsed.now.tree) ≡ Some why }
{
    match resolve(alloc, &parsed.tree) {
        Ok(_) => match statements_of(alloc, source, &parsed.tokens) {
            Ok(found) => Ok(found),
            Err(_) => Err(Unjudged::NoMemory),
        },
        Err(ScopeFault::NoMemory) => Err(Unjudged::NoMemory),
        Err(fault) => Err(Unjudged::Refused(SourceRefused::Scope(fault))),
    }
}

/// The statements of a source that has a tree without early errors; none where it is no thin script.
#[tactic(auto, unfolding(crate::specs::Refusals::refusal))]
pub(crate) fn judge(alloc: Global, source: &[u8]) -> Result<Option<Vec<Statement<'_>>>, Unjudged>
    ensures judged { IfOk result (λ o. thin_list o ≡ thin_script source.now) }
    ensures accepted { IfOk result (λ o. refusal source.now ≡ None) }
    ensures refused { (why : SourceRefused) → result ≡ Err (Unjudged.Refused why) → refusal source.now ≡ Some why }
{
    match parse_with_tokens(alloc, source) {
        Ok(parsed) => judge_parsed(alloc, source, &parsed),
        Err(SourceFault::NoMemory) => Err(Unjudged::NoMemory),
        Err(fault) => Err(Unjudged::Refused(SourceRefused::Parse(fault))),
    }
}

/// A source that is not built has a tree, and that has no early error.
pub fn unbuilt_has_a_right_tree()
    ensures { (number : ℕ) (source : List ℕ) (globals : Globals) → ran number source globals ≡ Err Fault.NotBuilt
        → (tree : Tree) × HasTree source tree × ((fault : ScopeFault) → HasFault tree fault → ⊥) }
{}

/// The statements of a thin script; none where the source is no thin script.
#[tactic(auto, unfolding(crate::specs::ThinSource::thin_script))]
pub(crate) fn thin_script(
    alloc: Global,
    source: &[u8],
) -> Result<Option<Vec<Statement<'_>>>, AllocError>
    ensures { IfOk result (λ o. thin_list o ≡ thin_script source.now) }
{
    if source.len() > MOST_SOURCE_BYTES as usize {
        return Ok(None);
    }
    match tokens(alloc, source) {
        Ok(list) => statements_of(alloc, source, &list),
        Err(LexFault::NoMemory) => Err(AllocError),
        Err(_) => Ok(None),
    }
}

// The statements of the tokens of a source.
#[tactic(auto, unfolding(crate::specs::ThinSource::statements_of))]
fn statements_of<'s>(
    alloc: Global,
    source: &[u8],
    tokens: &[Token<'s>],
) -> Result<Option<Vec<Statement<'s>>>, AllocError>
    ensures { IfOk result (λ o. thin_list o ≡ statements_of source.now (views tokens.now)) }
{
    match statements(alloc, tokens)? {
        Some(list) => {
            if parts_by_blanks(source, tokens) {
                Ok(Some(list))
            } else {
                Ok(None)
            }
        }
        None => Ok(None),
    }
}

// Nothing but blanks and line ends stands between the tokens: no comment does.
#[tactic(auto, unfolding(crate::specs::ThinSource::parts_by_blanks))]
fn parts_by_blanks(source: &[u8], tokens: &[Token<'_>]) -> bool
    ensures { result ≡ parts_by_blanks source.now 0 (views tokens.now) }
{
    let mut from = 0;
    for token in tokens {
        let at = token.at as usize;
        if !are_blanks(part(source, from, at)) {
            return false;
        }
        from = at + token.text.len();
    }
    are_blanks(part(source, from, source.len()))
}

#[tactic(auto, unfolding(spec_tokens::specs::Byte::is_blank, spec_tokens::specs::Byte::is_line_end))]
fn are_blanks(bytes: &[u8]) -> bool
    ensures { result ≡ list_all is_parting bytes.now }
{
    bytes
        .iter()
        .all(|b| *b == 9 || *b == 32 || *b == 10 || *b == 13)
}

// Statements to the end.
fn statements<'t, 's>(
    alloc: Global,
    tokens: &'t [Token<'s>],
) -> Result<Option<Vec<Statement<'s>>>, AllocError>
    ensures { IfOk result (λ o. thin_list o ≡ thin_statements (length tokens.now) (views tokens.now)) }
{
    let mut list = Vec::new(alloc);
    let mut at = 0;
    for _ in 0..tokens.len() {
        if at == tokens.len() {
            return Ok(Some(list));
        }
        let rest = &tokens[at..];
        let Some((statement, behind)) = statement(rest) else {
            return Ok(None);
        };
        list.push(statement)?;
        at = tokens.len() - behind.len();
    }
    if at < tokens.len() {
        return Ok(None);
    }
    Ok(Some(list))
}

// A statement at the front, and the tokens behind it.
#[tactic(auto, unfolding(crate::specs::ThinSource::thin_statement))]
pub(crate) fn statement<'t, 's>(tokens: &'t [Token<'s>]) -> Option<(Statement<'s>, &'t [Token<'s>])>
    ensures { statement_left result ≡ thin_statement (views tokens.now) }
{
    match log_statement(tokens) {
        Some(found) => Some(found),
        None => assign_statement(tokens),
    }
}

#[tactic(auto, unfolding(crate::specs::ThinSource::log_statement))]
fn log_statement<'t, 's>(tokens: &'t [Token<'s>]) -> Option<(Statement<'s>, &'t [Token<'s>])>
    ensures { statement_left result ≡ log_statement (views tokens.now) }
{
    let rest = expect(tokens, "console")?;
    let rest = expect(rest, ".")?;
    let rest = expect(rest, "log")?;
    let rest = expect(rest, "(")?;
    let (statement, rest) = argument(rest)?;
    let rest = closed(rest)?;
    Some((statement, rest))
}

#[tactic(auto, unfolding(crate::specs::ThinSource::argument))]
fn argument<'t, 's>(tokens: &'t [Token<'s>]) -> Option<(Statement<'s>, &'t [Token<'s>])>
    ensures { statement_left result ≡ argument (views tokens.now) }
{
    if let Some((value, rest)) = literal(tokens) {
        return Some((Statement::Log(value), rest));
    }
    let (name, rest) = global_name(tokens)?;
    Some((Statement::LogGlobal(name), rest))
}

#[tactic(auto, unfolding(crate::specs::ThinSource::assign_statement))]
fn assign_statement<'t, 's>(tokens: &'t [Token<'s>]) -> Option<(Statement<'s>, &'t [Token<'s>])>
    ensures { statement_left result ≡ assign_statement (views tokens.now) }
{
    let (name, rest) = global_name(tokens)?;
    let rest = expect(rest, "=")?;
    let (value, rest) = literal(rest)?;
    let rest = expect(rest, ";")?;
    Some((Statement::Assign(name, value), rest))
}

#[tactic(auto, unfolding(crate::specs::ThinSource::closed))]
fn closed<'t, 's>(tokens: &'t [Token<'s>]) -> Option<&'t [Token<'s>]>
    ensures { left result ≡ closed (views tokens.now) }
{
    let rest = expect(tokens, ")")?;
    expect(rest, ";")
}

#[tactic(auto, unfolding(crate::specs::ThinSource::global_name))]
fn global_name<'t, 's>(tokens: &'t [Token<'s>]) -> Option<(&'s [u8], &'t [Token<'s>])>
    ensures { name_left result ≡ global_name (views tokens.now) }
{
    let rest = expect(tokens, "globalThis")?;
    let rest = expect(rest, ".")?;
    free_name(rest)
}

#[tactic(auto, unfolding(crate::specs::ThinSource::free_name, crate::specs::ThinSource::is_name_token))]
fn free_name<'t, 's>(tokens: &'t [Token<'s>]) -> Option<(&'s [u8], &'t [Token<'s>])>
    ensures { name_left result ≡ free_name (views tokens.now) }
{
    let (token, rest) = tokens.split_first()?;
    match token.kind {
        TokenKind::Name if is_free_name(token.text) => Some((token.text, rest)),
        _ => None,
    }
}

#[tactic(auto, unfolding(crate::specs::ThinSource::literal))]
fn literal<'t, 's>(tokens: &'t [Token<'s>]) -> Option<(Literal<'s>, &'t [Token<'s>])>
    ensures { literal_left result ≡ literal (views tokens.now) }
{
    let (token, rest) = tokens.split_first()?;
    let value = literal_value(token.kind, token.text)?;
    Some((value, rest))
}

#[tactic(auto, unfolding(crate::specs::ThinSource::literal_value))]
fn literal_value(kind: TokenKind, text: &[u8]) -> Option<Literal<'_>>
    ensures { option_map value_of result ≡ literal_value kind text.now }
{
    match kind {
        TokenKind::Word => word_value(text),
        TokenKind::Number => decimal_value(text),
        TokenKind::Text => plain_text_value(text),
        TokenKind::Name | TokenKind::Mark => None,
    }
}

#[tactic(auto, unfolding(crate::specs::ThinSource::word_value))]
fn word_value(text: &[u8]) -> Option<Literal<'_>>
    ensures { option_map value_of result ≡ word_value text.now }
{
    if is(text, "true") {
        return Some(Literal::Bool(true));
    }
    if is(text, "false") {
        return Some(Literal::Bool(false));
    }
    if is(text, "null") {
        return Some(Literal::Null);
    }
    if is(text, "undefined") {
        return Some(Literal::Undefined);
    }
    None
}

// The tokens behind one of this text.
#[tactic(auto, unfolding(crate::specs::ThinSource::expect))]
fn expect<'t, 's>(tokens: &'t [Token<'s>], text: &str) -> Option<&'t [Token<'s>]>
    ensures { left result ≡ expect text.now (views tokens.now) }
{
    let (token, rest) = tokens.split_first()?;
    if is(token.text, text) {
        Some(rest)
    } else {
        None
    }
}

fn is(bytes: &[u8], text: &str) -> bool
    ensures { result ≡ bytes_eq bytes.now text.now }
{
    bytes == text.as_bytes()
}

#[tactic(auto, unfolding(crate::specs::ThinSource::plain_text_value))]
fn plain_text_value(text: &[u8]) -> Option<Literal<'_>>
    ensures { option_map value_of result ≡ plain_text_value text.now }
{
    if text.contains(&b'\\') {
        return None;
    }
    Some(Literal::Text(part(text, 1, text.len().saturating_sub(1))))
}

// The bytes from a place to another, as far as there are any.
fn part(bytes: &[u8], from: usize, to: usize) -> &[u8]
    ensures { result.now ≡ slice_range bytes.now from to }
{
    let to = to.min(bytes.len());
    let from = from.min(to);
    &bytes[from..to]
}

#[tactic(auto, unfolding(crate::specs::ThinSource::decimal_value))]
fn decimal_value(text: &[u8]) -> Option<Literal<'_>>
    ensures { option_map value_of result ≡ decimal_value text.now }
{
    if !are_digits(text) {
        return None;
    }
    let value = safe_number(text)?;
    Some(Literal::Int(value as i64))
}

#[tactic(auto, unfolding(spec_tokens::specs::Byte::is_digit))]
fn are_digits(bytes: &[u8]) -> bool
    ensures { result ≡ list_all is_digit bytes.now }
{
    bytes.iter().all(|b| *b >= b'0' && *b <= b'9')
}

#[tactic(auto, unfolding(crate::specs::ThinSource::is_free_name))]
pub(crate) fn is_free_name(text: &[u8]) -> bool
    ensures { result ≡ is_free_name text.now }
{
    !is_own_name(text)
        && !is(text, "__proto__")
        && !is(text, "constructor")
        && !is(text, "hasOwnProperty")
}

fn is_own_name(text: &[u8]) -> bool
    ensures { result ≡ list_any (bytes_eq text.now) own_names }
{
    is(text, "globalThis")
        || is(text, "Object")
        || is(text, "Array")
        || is(text, "String")
        || is(text, "Map")
        || is(text, "Set")
        || is(text, "Error")
        || is(text, "TypeError")
        || is(text, "ReferenceError")
        || is(text, "RangeError")
        || is(text, "console")
        || is(text, "host")
        || is(text, "require")
}

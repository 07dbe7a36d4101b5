//! The tree of a source, or why it has none.

ghost use Rattle.std.specs.Prelude.{◌≡◌, ◌≤◌, ◌<◌, ◌↔◌, ◌⊎◌, List, length, Err, Ok, IfErr, IfOk};
ghost use Rattle.snap_lex.specs.View.{views};
ghost use Rattle.snap_parse.specs.Answers.{Answers, GivesRefusal, GivesTree, HasCause, IsNested, IsRefusal, fault_of, tree_in};
ghost use Rattle.snap_cursor.specs.Read.{AreRead};
ghost use Rattle.spec_grammar.specs.Read.{script};
ghost use Rattle.spec_grammar.specs.Source.{HasDeepTree, HasTree, NoTokens, Refused, read_tree, tree_by};
ghost use Rattle.spec_tokens.specs.Faults.{HasFault};
ghost use Rattle.spec_tokens.specs.Tokens.{lexemes};
ghost use Rattle.spec_tokens.specs.declared.fault.LexFault.{LexFault};
ghost use Rattle.snap_ast.specs.Lawful.{Lawful};
ghost use Rattle.snap_ast.specs.declared.tree.Tree.{Tree};

use crate::fault::SourceFault;
use crate::reader::script;
use snap_ast::Tree;
use snap_base::MOST_SOURCE_BYTES;
use snap_cursor::{Cursor, ReadFault};
use snap_lex::{LexFault, Token, tokens};
use snap_phrase::tree_of;
use std::alloc::Global;

/// A source that has a tree.
#[derive(Drop)]
pub struct Parsed<'s> {
    /// Its tokens, in order.
    pub tokens: Vec<Token<'s>>,
    /// Its tree.
    pub tree: Tree,
}

/// Why there is no tree, with the place.
fn at_place(fault: ReadFault, at: u32) -> SourceFault
    ensures { result ≡ fault_of fault at }
{
    match fault {
        ReadFault::Syntax => SourceFault::Syntax(at),
        ReadFault::Nested => SourceFault::Nested(at),
        ReadFault::NoMemory => SourceFault::NoMemory,
    }
}

/// The tree of some tokens of a source that ends at a place.
fn read_tokens(alloc: Global, list: &[Token<'_>], end: u32) -> Result<Tree, SourceFault>
    requires { AreRead (views list.now) }
    ensures { Answers (tree_by end (script (views list.now))) result }
{
    let mut cursor = Cursor::new(list);
    match script(alloc, &mut cursor) {
        Ok(row) => match tree_of(alloc, row) {
            Ok(tree) => Ok(tree),
            Err(_) => Err(SourceFault::NoMemory),
        },
        Err(fault) => Err(at_place(fault, cursor.place(end))),
    }
}

/// Some tokens of a source that ends at a place, with their tree.
fn with_tokens<'s>(alloc: Global, list: Vec<Token<'s>>, end: u32) -> Result<Parsed<'s>, SourceFault>
    requires { AreRead (views list.items) }
    ensures answers { Answers (tree_by end (script (views list.entry.items))) (tree_in result) }
    ensures tokens { IfOk result (λ parsed. parsed.tokens.items ≡ list.entry.items) }
{
    match read_tokens(alloc, list.as_slice(), end) {
        Ok(tree) => Ok(Parsed { tokens: list, tree }),
        Err(fault) => Err(fault),
    }
}

/// The tokens and the tree of a source that is not too long.
#[tactic(auto, using(crate::proofs::Tokens::are_read), unfolding(spec_grammar::specs::Source::read_tree))]
fn read_source(alloc: Global, source: &[u8]) -> Result<Parsed<'_>, SourceFault>
    requires { length source.now ≤ MOST_SOURCE_BYTES }
    ensures answers { Answers (read_tree source.now) (tree_in result) }
    ensures tokens { IfOk result (λ parsed. lexemes source.now ≡ Ok (views parsed.tokens.items)) }
{
    match tokens(alloc, source) {
        Ok(list) => with_tokens(alloc, list, source.len() as u32),
        Err(fault) => match fault {
            LexFault::NoMemory => Err(SourceFault::NoMemory),
            other => Err(SourceFault::Lex(other)),
        },
    }
}

/// The tokens of a source and the tree that it is read as, or why it is read as none.
fn read(alloc: Global, source: &[u8]) -> Result<Parsed<'_>, SourceFault>
    ensures too_long { (result ≡ Err SourceFault.TooLong) ↔ (MOST_SOURCE_BYTES < length source.now) }
    ensures tokens { IfOk result (λ parsed. lexemes source.now ≡ Ok (views parsed.tokens.items)) }
    ensures found { IfOk result (λ parsed. read_tree source.now ≡ Ok parsed.tree) }
    ensures given { (tree : Tree) → length source.now ≤ MOST_SOURCE_BYTES → read_tree source.now ≡ Ok tree → GivesTree (tree_in result) tree }
    ensures refused { IfErr result (λ fault. IsRefusal source.now fault) }
    ensures told { (fault : Refused) → length source.now ≤ MOST_SOURCE_BYTES → read_tree source.now ≡ Err fault → GivesRefusal (tree_in result) fault }
{
    if source.len() > MOST_SOURCE_BYTES as usize {
        return Err(SourceFault::TooLong);
    }
    read_source(alloc, source)
}

/// The tree of a source (ECMA-262, 11 to 16) with the tokens that it was read from, or why it has none. What
/// memory it takes is given back but for both.
///
/// # Errors
///
/// As `parse`.
pub fn parse_with_tokens(alloc: Global, source: &[u8]) -> Result<Parsed<'_>, SourceFault>
    // It is too long exactly past this many bytes.
    ensures too_long { (result ≡ Err SourceFault.TooLong) ↔ (MOST_SOURCE_BYTES < length source.now) }

    // A tree is answered exactly where the source has it, unless memory runs out, and it is lawful.
    ensures ok { IfOk result (λ parsed. HasTree source.now parsed.tree) }
    ensures some { (tree : Tree) → length source.now ≤ MOST_SOURCE_BYTES → HasTree source.now tree → GivesTree (tree_in result) tree }
    ensures lawful { IfOk result (λ parsed. Lawful parsed.tree) }

    // With it come the tokens of the source.
    ensures tokens { IfOk result (λ parsed. lexemes source.now ≡ Ok (views parsed.tokens.items)) }

    // A refusal has its cause; a source without tokens is refused by its fault, and one whose tree is
    // too high as nested.
    ensures cause { IfErr result (λ fault. (fault ≡ SourceFault.NoMemory) ⊎ HasCause source.now fault) }
    ensures lex { (fault : LexFault) → length source.now ≤ MOST_SOURCE_BYTES → HasFault source.now fault → GivesRefusal (tree_in result) (NoTokens fault) }
    ensures deep { (tree : Tree) → length source.now ≤ MOST_SOURCE_BYTES → HasDeepTree source.now tree → GivesTree (tree_in result) tree ⊎ IsNested (tree_in result) }

    // The same by reading from the front, which gives the place of a refusal.
    ensures found { IfOk result (λ parsed. read_tree source.now ≡ Ok parsed.tree) }
    ensures refused { IfErr result (λ fault. IsRefusal source.now fault) }
    ensures told { (fault : Refused) → length source.now ≤ MOST_SOURCE_BYTES → read_tree source.now ≡ Err fault → GivesRefusal (tree_in result) fault }
{
    read(alloc, source)
}

/// The tree of a source (ECMA-262, 11 to 16), or why it has none. What memory it takes is given back but
/// for the tree.
///
/// # Errors
///
/// `TooLong` past `MOST_SOURCE_BYTES`, 1,048,576 bytes; `Lex` where the source has no tokens; `Syntax` where it has no tree; `Nested`
/// where each tree of it has a node with more than 100 nodes round it; `NoMemory` where memory runs out.
pub fn parse(alloc: Global, source: &[u8]) -> Result<Tree, SourceFault>
    // It is too long exactly past this many bytes.
    ensures too_long { (result ≡ Err SourceFault.TooLong) ↔ (MOST_SOURCE_BYTES < length source.now) }

    // A tree is answered exactly where the source has it, unless memory runs out, and it is lawful.
    ensures ok { IfOk result (λ tree. HasTree source.now tree) }
    ensures some { (tree : Tree) → length source.now ≤ MOST_SOURCE_BYTES → HasTree source.now tree → GivesTree result tree }
    ensures lawful { IfOk result Lawful }

    // A refusal has its cause; a source without tokens is refused by its fault, and one whose tree is
    // too high as nested.
    ensures cause { IfErr result (λ fault. (fault ≡ SourceFault.NoMemory) ⊎ HasCause source.now fault) }
    ensures lex { (fault : LexFault) → length source.now ≤ MOST_SOURCE_BYTES → HasFault source.now fault → GivesRefusal result (NoTokens fault) }
    ensures deep { (tree : Tree) → length source.now ≤ MOST_SOURCE_BYTES → HasDeepTree source.now tree → GivesTree result tree ⊎ IsNested result }

    // The same by reading from the front, which gives the place of a refusal.
    ensures found { IfOk result (λ tree. read_tree source.now ≡ Ok tree) }
    ensures refused { IfErr result (λ fault. IsRefusal source.now fault) }
    ensures told { (fault : Refused) → length source.now ≤ MOST_SOURCE_BYTES → read_tree source.now ≡ Err fault → GivesRefusal result fault }
{
    match parse_with_tokens(alloc, source) {
        Ok(parsed) => {
            let Parsed { tree, .. } = parsed;
            Ok(tree)
        }
        Err(fault) => Err(fault),
    }
}

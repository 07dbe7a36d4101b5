//! Sources beside their tokens, and beside what the parser answers of each. These are the tests of `snap_lex`, `snap_ast` and
//! `snap_parse`; they stand apart so that the proofs of those are done once.
#![tactic(auto)]

#[cfg(test)]
mod tests;

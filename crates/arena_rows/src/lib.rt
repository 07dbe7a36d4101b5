//! Texts that are held, joined and cut, and views of texts. These are the tests of `snap_arena`; they stand apart so that the
//! proofs of that are done once.
#![tactic(auto)]

#[cfg(test)]
mod tests;

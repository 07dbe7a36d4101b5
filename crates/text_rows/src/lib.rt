//! Texts, keys and hashes beside what Unicode and other programs give. These are the tests of `snap_base` and `snap_text`; they
//! stand apart so that the proofs of those are done once.
#![tactic(auto)]

#[cfg(test)]
mod tests;

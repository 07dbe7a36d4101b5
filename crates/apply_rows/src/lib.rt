//! What operators give of values and of what a store holds, beside Node.js and by single cases, and what comes of texts that a
//! store holds. These are the tests of `snap_oper` and `snap_apply`; they stand apart so that the proofs of those are done once.
#![tactic(auto)]

#[cfg(test)]
mod tests;

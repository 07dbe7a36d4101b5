//! Sources beside the scopes that `snap_scope` gives of each, or the early error. These are its tests; they stand
//! apart from it so that its proofs are done once, and need no parser.
#![tactic(auto)]

#[cfg(test)]
mod tests;

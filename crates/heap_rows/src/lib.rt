//! What stores hold and what property access comes to, beside Node.js and by single cases. These are the tests of `snap_graph`,
//! `snap_store`, `snap_action` and `snap_object`; they stand apart so that the proofs of those are done once.
#![tactic(auto)]

#[cfg(test)]
mod tests;

//! What the commands print over files in memory. These are the tests of `snap_commands`, which cross all crates below it;
//! they stand apart so that its proofs are done once.
#![tactic(auto)]

#[cfg(test)]
mod tests;

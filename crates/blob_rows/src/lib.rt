//! Blobs byte by byte. These are the tests of `snap_bytes`, `snap_blob` and `snap_ctxfmt`; they stand apart so that the proofs
//! of those are done once.
#![tactic(auto)]

#[cfg(test)]
mod tests;

//! What a call of the program comes to.

use crate::fault::Fault;

/// What a call of the program comes to: the status that it ends with, and why it isn't 0.
#[derive(Clone, Copy, Debug, PartialEq, Eq)]
pub struct Outcome {
    /// The exit status.
    pub status: u8,
    /// What was refused, or `None` where all was done and told.
    pub fault: Option<Fault>,
}

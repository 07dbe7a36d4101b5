//! What the commands of `snap` do, over any files and any sink.
#![tactic(auto)]

mod build;
mod building;
mod evaluate;
mod fault;
mod judge;
mod keeping;
mod kept;
mod line;
mod load;
mod names;
mod outcome;
mod own;
mod parts;
mod properties;
mod refused;
mod running;
mod said;
mod serial;
mod shapes;
mod statement;
mod strings;
mod texts;
mod verify;
mod words;

pub use fault::Fault;
pub use judge::unbuilt_has_a_right_tree;
pub use load::{built_is_found, one_loading};
pub use outcome::Outcome;
pub use refused::SourceRefused;
pub use serial::{one_answer, snap_serial};

//! The container of a blob and its list of strings, read in place over borrowed bytes and written,
//! and the startup section.
#![tactic(auto)]

mod container;
mod field;
mod put;
mod ro_strings;
mod sealing;
mod shape_walk;
mod shapes;
mod startup_reader;
mod startups;
mod strings;
mod visits;

pub use container::Container;
pub use put::put_number;
pub use ro_strings::{RoStrings, node_count};
pub use sealing::{SealFault, seal};
pub use shapes::are_lawful;
pub use spec_format::{BlobFault, BlobKind};
pub use startup_reader::{Startup, read_startup};
pub use startups::{ShapeStep, write_startup};
pub use strings::write_strings;

//! The outside as traits: files and a sink, by what they hold or have written and by how often they
//! failed. Beside them stand the implementations: over memory for tests, and the thin trusted edge
//! over real files and a writer.
#![tactic(auto)]

mod answers;
mod files;
mod honest_files;
mod honest_sink;
mod mem_files;
mod mem_sink;
mod named;
mod os_files;
mod plan;
mod sink;
mod std_sink;
mod transfer;

pub use answers::{ReadAnswer, WriteAnswer};
pub use files::Files;
pub use honest_files::HonestFiles;
pub use honest_sink::HonestSink;
pub use mem_files::MemFiles;
pub use mem_sink::MemSink;
pub use named::NamedFile;
pub use os_files::OsFiles;
pub use sink::Sink;
pub use std_sink::StdSink;

#[cfg(test)]
mod tests;

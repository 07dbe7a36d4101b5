//! Context sections, written and read: the global object and the values that it has in each context.
#![tactic(auto)]

mod fields;
mod layout;
mod reading;
mod shape_keys;
mod texts;
mod value_reader;
mod values;
mod writing;

pub use reading::read_global;
pub use texts::text_number;
pub use writing::write_global;

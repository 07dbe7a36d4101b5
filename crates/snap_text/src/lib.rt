//! Texts of 16-bit code units: views of them in borrowed bytes, texts of their own, their decimal
//! and UTF-8 forms, and keys that stand for them.
#![tactic(auto)]

mod key;
mod keys;
mod no_memory;
mod number;
mod own_keys;
mod print;
mod units;
mod view;

pub use key::{Key, Texts};
pub use keys::Keys;
pub use no_memory::NoMemory;
pub use number::decimal;
pub use own_keys::OwnKeys;
pub use print::{print_units, print_utf8};
pub use units::Units;
pub use view::StrView;

//! Property access over any store.
#![tactic(auto)]

mod deleting;
mod errors;
mod globals;
mod indices;
mod names;
mod outside;
mod owning;
mod reading;
mod search;
mod sizes;
mod texts;
mod words;
mod writing;

pub use deleting::{delete, delete_by_key, delete_by_name};
pub use globals::{FoundGlobal, find_global, set_global};
pub use owning::{has_own, has_own_by_key, has_own_by_name};
pub use reading::{get, get_by_key, get_by_name};
pub use snap_action::{Abrupt, Name};
pub use writing::{set, set_by_key, set_by_name};

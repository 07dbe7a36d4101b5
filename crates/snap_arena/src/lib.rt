//! Texts that are held in buffers which only grow at their ends, and views of texts.
#![tactic(auto)]

mod arena;
mod buffers;
mod fault;
mod held;
mod laws;
mod view;

pub use arena::Arena;
pub use fault::JoinFault;
pub use held::HeldText;
pub use laws::texts_stay;
pub use view::TextView;

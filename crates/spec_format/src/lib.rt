//! The definitions of the blob format, and the laws that they meet. There is no code here but the
//! fault type, which readers and definitions share.
#![tactic(auto)]

mod fault;
mod key_laws;
mod laws;
mod shape_laws;
mod varint_laws;

pub use fault::{BlobFault, BlobKind};
pub use key_laws::one_key_list;
pub use laws::{
    container_is_read, container_is_spelled, one_container_fault, one_string_fault,
    strings_are_read, strings_are_spelled,
};
pub use shape_laws::chain_is_lawful;
pub use varint_laws::{every_number, one_varint, varint_spells};

//! Texts, keys and hashes.

mod hash;
mod key;
mod number;
mod own_keys;
mod print;
mod units;
mod view;

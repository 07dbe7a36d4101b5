//! Heaps, stores and property access.

mod access;
mod nodes;
mod stores;
mod told_keys;

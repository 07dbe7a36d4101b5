//! Fields, blobs and sections, byte by byte.

mod blobs;
mod fields;
mod sections;

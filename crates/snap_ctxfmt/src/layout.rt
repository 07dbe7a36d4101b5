//! The bytes that stand for something in a section.

/// The value undefined.
pub const UNDEFINED: u8 = 0x00;

/// The value null.
pub const NULL: u8 = 0x01;

/// The value false.
pub const FALSE: u8 = 0x02;

/// The value true.
pub const TRUE: u8 = 0x03;

/// The mark of an empty slot.
pub const EMPTY: u8 = 0x04;

/// An integer, whose zigzag number follows.
pub const INTEGER: u8 = 0x05;

/// A text, whose number among the strings follows.
pub const TEXT: u8 = 0x06;

/// An intrinsic, whose number follows.
pub const READ_ONLY_NODE: u8 = 0x07;

/// A private node that was brought in before, whose number follows.
pub const PRIVATE_NODE: u8 = 0x08;

/// One private node, brought in as the global object: a plain object that is not frozen, whose
/// prototype is the read-only node 0, and whose properties have a shape.
pub const HEAD: [u8; 7] = [0x01, 0x09, 0x10, 0x00, 0x07, 0x00, 0x20];

/// No elements, no callbacks and no main function.
pub const END: [u8; 4] = [0x00, 0x00, 0x00, 0x00];

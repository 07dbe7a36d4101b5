//! The properties that the global object has of its own.

ghost use Rattle.std.specs.Prelude.{◌≡◌};

use snap_graph::intrinsic;

/// Their names and the nodes that they hold: the global object itself, and
/// intrinsics.
pub(crate) const OWN: [(&str, u32); 13] = [
    ("globalThis", intrinsic::GLOBAL_OBJECT),
    ("Object", intrinsic::OBJECT),
    ("Array", intrinsic::ARRAY),
    ("String", intrinsic::STRING),
    ("Map", intrinsic::MAP),
    ("Set", intrinsic::SET),
    ("Error", intrinsic::ERROR),
    ("TypeError", intrinsic::TYPE_ERROR),
    ("ReferenceError", intrinsic::REFERENCE_ERROR),
    ("RangeError", intrinsic::RANGE_ERROR),
    ("console", intrinsic::CONSOLE),
    ("host", intrinsic::HOST),
    ("require", intrinsic::REQUIRE),
];

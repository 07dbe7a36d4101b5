//! Values, appended to bytes.

ghost use Rattle.std.specs.Prelude.{◌≡◌, ◌∷◌, [], ◌++◌, OnOk};
ghost use Rattle.spec_format.specs.Strings.{IsAscending};
ghost use Rattle.spec_format.specs.Varint.{varint};
ghost use Rattle.spec_sections.specs.Global.{zigzag, value_bytes};
ghost use Rattle.spec_sections.specs.Texts.{HasText};

use crate::layout::{
    EMPTY, FALSE, INTEGER, NULL, PRIVATE_NODE, READ_ONLY_NODE, TEXT, TRUE, UNDEFINED,
};
use crate::texts::text_number;
use snap_base::NoMemory;
use snap_blob::put_number;
use snap_graph::Value;
use snap_graph::intrinsic::GLOBAL_OBJECT;
use snap_text::Units;

/// An integer as a number that is small where the integer is near 0: n from 0 on becomes 2n, and n
/// below 0 becomes -2n - 1.
fn zigzag(n: i64) -> u64
    ensures { result ≡ zigzag n }
{
    if n < 0 {
        2 * (-(n + 1)) as u64 + 1
    } else {
        2 * n as u64
    }
}

/// Appends a value.
pub fn put_value(out: &mut Vec<u8>, value: &Value, strings: &[Units]) -> Result<(), NoMemory>
    requires ascending { IsAscending strings.now }
    requires text { HasText strings.now value.now }
    ensures { OnOk result (out.new.items ≡ out.old.items ++ value_bytes strings.now value.now) }
{
    match value {
        Value::Undefined => put_byte(out, UNDEFINED),
        Value::Null => put_byte(out, NULL),
        Value::Bool(false) => put_byte(out, FALSE),
        Value::Bool(true) => put_byte(out, TRUE),
        Value::Int(n) => put_tagged(out, INTEGER, zigzag(*n)),
        Value::Text(text) => put_tagged(out, TEXT, text_number(strings, text)),
        Value::Node(GLOBAL_OBJECT) => put_tagged(out, PRIVATE_NODE, 0),
        Value::Node(node) => put_tagged(out, READ_ONLY_NODE, u64::from(*node)),
        Value::Empty => put_byte(out, EMPTY),
    }
}

/// Appends bytes.
pub fn put_bytes(out: &mut Vec<u8>, bytes: &[u8]) -> Result<(), NoMemory>
    ensures { OnOk result (out.new.items ≡ out.old.items ++ bytes.now) }
{
    out.extend_from_slice(bytes).map_err(|_| NoMemory)
}

fn put_byte(out: &mut Vec<u8>, byte: u8) -> Result<(), NoMemory>
    ensures { OnOk result (out.new.items ≡ out.old.items ++ byte ∷ []) }
{
    out.push(byte).map_err(|_| NoMemory)
}

fn put_tagged(out: &mut Vec<u8>, tag: u8, n: u64) -> Result<(), NoMemory>
    ensures { OnOk result (out.new.items ≡ out.old.items ++ tag ∷ varint n) }
{
    put_byte(out, tag)?;
    put_number(out, n)
}

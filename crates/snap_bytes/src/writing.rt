//! A varint, written behind some bytes.

ghost use Rattle.std.specs.Prelude.{◌≡◌, ℕ, List, ◌++◌, take, length, OnOk, OnErr};
ghost use Rattle.spec_format.specs.Varint.{IsVarint, varint};

use crate::fault::NoMemory;
use std::alloc::AllocError;

/// Appends the one spelling of the number. Where memory runs out, the bytes are as they were.
pub fn put_varint(out: &mut Vec<u8>, n: u64) -> Result<(), NoMemory>
    ensures ok { OnOk result ((text : List ℕ) × IsVarint text n × (out.new.items ≡ out.old.items ++ text)) }
    ensures number { OnOk result (out.new.items ≡ out.old.items ++ varint n) }
    ensures err { OnErr result (out.new.items ≡ out.old.items) }
{
    let len = out.len();
    match push_varint(out, n) {
        Ok(()) => Ok(()),
        Err(_) => {
            out.truncate(len);
            Err(NoMemory)
        }
    }
}

/// Appends the one spelling of the number, or a part of it where memory runs out.
fn push_varint(out: &mut Vec<u8>, n: u64) -> Result<(), AllocError>
    ensures ok { OnOk result ((text : List ℕ) × IsVarint text n × (out.new.items ≡ out.old.items ++ text)) }
    ensures kept { take (length out.old.items) out.new.items ≡ out.old.items }
{
    let mut high = n;
    while high >= 128 {
        out.push((high % 128 + 128) as u8)?;
        high /= 128;
    }
    out.push(high as u8)?;
    Ok(())
}

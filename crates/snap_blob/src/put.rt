//! Numbers, written behind some bytes.

ghost use Rattle.std.specs.Prelude.{◌≡◌, ◌++◌, OnOk, OnErr};
ghost use Rattle.spec_format.specs.Number.{spelled32, spelled64};
ghost use Rattle.spec_format.specs.Varint.{varint};

use snap_base::NoMemory;
use snap_bytes::put_varint;
use std::alloc::AllocError;

/// Appends the four bytes of a number.
#[tactic(auto, unfolding(spec_format::specs::Number::spelled32))]
pub(crate) fn put32(out: &mut Vec<u8>, n: u32) -> Result<(), AllocError>
    ensures { OnOk result (out.new.items ≡ out.old.items ++ spelled32 n) }
{
    out.extend_from_slice(&n.to_le_bytes())?;
    Ok(())
}

/// Appends the eight bytes of a number.
#[tactic(auto, unfolding(spec_format::specs::Number::spelled64))]
pub(crate) fn put64(out: &mut Vec<u8>, n: u64) -> Result<(), AllocError>
    ensures { OnOk result (out.new.items ≡ out.old.items ++ spelled64 n) }
{
    out.extend_from_slice(&n.to_le_bytes())?;
    Ok(())
}

/// Appends the one spelling of a number. Where memory runs out, the bytes are as they were.
pub fn put_number(out: &mut Vec<u8>, n: u64) -> Result<(), NoMemory>
    ensures ok { OnOk result (out.new.items ≡ out.old.items ++ varint n) }
    ensures err { OnErr result (out.new.items ≡ out.old.items) }
{
    match put_varint(out, n) {
        Ok(()) => Ok(()),
        Err(_) => Err(NoMemory),
    }
}

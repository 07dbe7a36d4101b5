//! A reader of bytes that knows its place.

ghost use Rattle.std.specs.Prelude.{◌≡◌, ℕ, ◌+◌, ◌^◌, ◌<◌, ◌≤◌, List, ◌++◌, length, drop, IfOk, OnOk, IfErr, OnErr, IsErrOf};
ghost use Rattle.spec_format.specs.Number.{number32, number64};
ghost use Rattle.spec_format.specs.Varint.{IsVarint, HasNoLastByte, IsBadVarint};

use crate::fault::ByteFault;
use crate::reading::front_of;
use byteorder::{ByteOrder, LittleEndian};
use std::marker::Model;

/// Reads bytes from front to back. The front of the bytes has a place of its own, the base, so that
/// a fault's place is one in the whole that the bytes are a part of. A read that is refused leaves
/// the cursor where it was.
#[derive(Debug, Drop)]
pub struct Cursor<'a> {
    bytes: &'a [u8],
    at: u32,
}

impl<'a> Model for Cursor<'a> {
    ghost use Rattle.std.specs.Prelude.{◌+◌, ◌^◌, ◌<◌, length};
    ghost use Rattle.snap_bytes.specs.Place.{Place};

    ghost Value = { Place };

    ghost view = { λ c. record { at = c.at; left = c.bytes.now } };

    ghost invariant = { λ c. c.at + length c.bytes.now < 2 ^ 32 };
}

impl<'a> Cursor<'a> {
    ghost use Rattle.snap_bytes.specs.Reading.{IsVarintFault};

    /// A cursor at the front of the bytes, the first of which stands at the base.
    pub fn new(bytes: &'a [u8], base: u32) -> Cursor<'a>
        requires { base + length bytes.now < 2 ^ 32 }
        ensures at { result.at ≡ base }
        ensures left { result.left ≡ bytes.now }
    {
        Cursor { bytes, at: base }
    }

    /// The place of the next byte, or of the end.
    pub fn at(&self) -> u32
        ensures place { result ≡ self.now.at }
        ensures fits { self.now.at + length self.now.left < 2 ^ 32 }
    {
        self.at
    }

    /// How many bytes are left.
    pub fn left(&self) -> u32
        ensures { result ≡ length self.now.left }
    {
        self.bytes.len() as u32
    }

    /// The next bytes, of the given number. The fault is `Truncated` where fewer are left.
    pub fn take(&mut self, n: u32) -> Result<&'a [u8], ByteFault>
        ensures taken { IfOk result (λ s. (self.old.left ≡ s.now ++ self.new.left) × (length s.now ≡ n) × (self.new.at ≡ self.old.at + n)) }
        ensures truncated { IfErr result (λ fault. (length self.old.left < n) × (fault ≡ ByteFault.Truncated self.old.at)) }
        ensures err { OnErr result (self.new ≡ self.old) }
    {
        if self.left() < n {
            return Err(ByteFault::Truncated(self.at));
        }
        let (field, rest) = self.bytes.split_at(n as usize);
        self.bytes = rest;
        self.at += n;
        Ok(field)
    }

    /// The next four bytes as a number, with its low byte first. The fault is `Truncated` where
    /// fewer are left.
    #[tactic(auto, unfolding(spec_format::specs::Number::number32))]
    pub fn le32(&mut self) -> Result<u32, ByteFault>
        ensures number { IfOk result (λ n. (4 ≤ length self.old.left) × (n ≡ number32 self.old.left 0)) }
        ensures behind { OnOk result ((self.new.left ≡ drop 4 self.old.left) × (self.new.at ≡ self.old.at + 4)) }
        ensures truncated { IfErr result (λ fault. (length self.old.left < 4) × (fault ≡ ByteFault.Truncated self.old.at)) }
        ensures err { OnErr result (self.new ≡ self.old) }
    {
        let field = self.take(4)?;
        Ok(LittleEndian::read_u32(field))
    }

    /// The next eight bytes as a number, with its low byte first. The fault is `Truncated` where
    /// fewer are left.
    #[tactic(auto, unfolding(spec_format::specs::Number::number64))]
    pub fn le64(&mut self) -> Result<u64, ByteFault>
        ensures number { IfOk result (λ n. (8 ≤ length self.old.left) × (n ≡ number64 self.old.left 0)) }
        ensures behind { OnOk result ((self.new.left ≡ drop 8 self.old.left) × (self.new.at ≡ self.old.at + 8)) }
        ensures truncated { IfErr result (λ fault. (length self.old.left < 8) × (fault ≡ ByteFault.Truncated self.old.at)) }
        ensures err { OnErr result (self.new ≡ self.old) }
    {
        let field = self.take(8)?;
        Ok(LittleEndian::read_u64(field))
    }

    /// The varint at the front. The fault is `Truncated` where the bytes that are left have no last
    /// byte of a varint, and `BadNumber` where they have one and the varint is not the one spelling
    /// of a number below 2^64.
    pub fn varint(&mut self) -> Result<u64, ByteFault>
        ensures number { IfOk result (λ n. (text : List ℕ) × IsVarint text n × (self.old.left ≡ text ++ self.new.left) × (self.new.at ≡ self.old.at + length text)) }
        ensures only { (text rest : List ℕ) (n : ℕ) → n < 2 ^ 64 → IsVarint text n → self.old.left ≡ text ++ rest → (result ≡ Ok n) × (self.new.left ≡ rest) }
        ensures fault { IfErr result (IsVarintFault self.old) }
        ensures truncated { HasNoLastByte self.old.left → IsErrOf result (ByteFault.Truncated self.old.at) }
        ensures bad_number { IsBadVarint self.old.left → IsErrOf result (ByteFault.BadNumber self.old.at) }
        ensures err { OnErr result (self.new ≡ self.old) }
    {
        let (n, rest) = front_of(self.bytes, self.at)?;
        self.at += (self.bytes.len() - rest.len()) as u32;
        self.bytes = rest;
        Ok(n)
    }
}

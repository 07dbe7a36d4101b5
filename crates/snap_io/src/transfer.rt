//! Bytes in and out: a reader to its end, up to a limit, and a piece into a writer.

ghost use Rattle.std.specs.Prelude.{◌≡◌, ◌≢◌, ◌↔◌, ◌+◌, ◌-◌, ◌^◌, ◌<◌, ◌≤◌, length, take, drop, vec_len, IfOk, IfSome, OnOk, IsErrOf, IsOkUnless};
ghost use Rattle.std.specs.IoError.{error_kind};
ghost use Rattle.std.specs.Io.KnownBytes.{Appends, Consumes, IsAtEnd};
ghost use Rattle.snap_io.specs.Taken.{Takes, TakesAtMost};

use crate::answers::{ReadAnswer, WriteAnswer};
use std::io;
use std::io::{ErrorKind, Read, Write};

// By how many bytes the room grows where a file gives more than it said.
const MORE: usize = 65536;

// What an error of the outside is to a reader of files.
pub(crate) fn read_answer(error: io::Error) -> ReadAnswer
    ensures memory { result ≡ ReadAnswer.NoMemory ↔ (error_kind error ≡ ErrorKind.OutOfMemory) }
    ensures other { error_kind error ≢ ErrorKind.OutOfMemory → result ≡ ReadAnswer.Failed }
{
    match error.kind() {
        ErrorKind::OutOfMemory => ReadAnswer::NoMemory,
        _ => ReadAnswer::Failed,
    }
}

// Reads once, into a part.
fn read_part<R: Read>(reader: &mut R, part: &mut [u8]) -> Result<usize, ReadAnswer>
    requires { 0 < length part.old }
    ensures most { IfOk result (λ taken. taken ≤ length part.new) }
    ensures read { IfOk result (λ taken. Consumes (R.remaining reader.old) (R.remaining reader.new) (take taken part.new)) }
    ensures end { IfOk result (λ taken. taken ≡ 0 → IsAtEnd (R.remaining reader.new)) }
    ensures bounded { TakesAtMost (R.remaining reader.old) (R.remaining reader.new) (length part.old) }
    ensures no_other { result ≢ Err ReadAnswer.TooLong }
{
    let taken = reader.read(part).map_err(read_answer)?;
    Ok(taken)
}

// Reads once, behind the first bytes up to the end of the list.
fn read_behind<R: Read>(reader: &mut R, bytes: &mut [u8], len: usize) -> Result<usize, ReadAnswer>
    requires { len < length bytes.old }
    ensures front { take len bytes.new ≡ take len bytes.old }
    ensures most { IfOk result (λ taken. len + taken ≤ length bytes.new) }
    ensures read { IfOk result (λ taken. Consumes (R.remaining reader.old) (R.remaining reader.new) (take taken (drop len bytes.new))) }
    ensures end { IfOk result (λ taken. taken ≡ 0 → IsAtEnd (R.remaining reader.new)) }
    ensures bounded { TakesAtMost (R.remaining reader.old) (R.remaining reader.new) (length bytes.old - len) }
    ensures no_other { result ≢ Err ReadAnswer.TooLong }
{
    read_part(reader, &mut bytes[len..])
}

// Makes room for one byte more than the first ones, up to one byte past the limit.
fn make_room(bytes: &mut Vec<u8>, len: usize, limit: usize) -> Result<(), ReadAnswer>
    requires filled { len ≤ vec_len bytes.old }
    requires within { len ≤ limit }
    requires fits { vec_len bytes.old ≤ limit + 1 }
    requires small { limit < 2 ^ 32 }
    ensures room { OnOk result (len < vec_len bytes.new) }
    ensures fits { OnOk result (vec_len bytes.new ≤ limit + 1) }
    ensures front { OnOk result (take len bytes.new.items ≡ take len bytes.old.items) }
    ensures no_other { result ≢ Err ReadAnswer.TooLong }
{
    if len < bytes.len() {
        return Ok(());
    }
    bytes.resize((limit + 1).min(len + MORE), 0)?;
    Ok(())
}

// Reads once, and puts what came behind the first bytes.
fn read_more<R: Read>(
    reader: &mut R,
    bytes: &mut Vec<u8>,
    len: usize,
    limit: usize,
) -> Result<usize, ReadAnswer>
    requires filled { len ≤ vec_len bytes.old }
    requires within { len ≤ limit }
    requires fits { vec_len bytes.old ≤ limit + 1 }
    requires small { limit < 2 ^ 32 }
    ensures takes { IfOk result (λ taken. Takes (R.remaining reader.old) (R.remaining reader.new)
        (take len bytes.old.items) (take (len + taken) bytes.new.items)) }
    ensures most { IfOk result (λ taken. len + taken ≤ vec_len bytes.new) }
    ensures fits { OnOk result (vec_len bytes.new ≤ limit + 1) }
    ensures end { IfOk result (λ taken. taken ≡ 0 → IsAtEnd (R.remaining reader.new)) }
    ensures bounded { TakesAtMost (R.remaining reader.old) (R.remaining reader.new) (limit + 1 - len) }
    ensures no_other { result ≢ Err ReadAnswer.TooLong }
{
    make_room(bytes, len, limit)?;
    read_behind(reader, bytes.as_mut_slice(), len)
}

// Reads to the end, and takes in at most one byte more than the limit. The bytes that are given are room for what
// is read: where they are one more than the reader has left, it is read in as few calls as it allows.
pub(crate) fn read_up_to<R: Read>(
    reader: &mut R,
    mut bytes: Vec<u8>,
    limit: u32,
) -> Result<Vec<u8>, ReadAnswer>
    requires { vec_len bytes ≤ limit + 1 }
    ensures whole { IfOk result (λ whole. IfSome (R.remaining reader.old)
        (λ left. whole.items ≡ left)) }
    ensures fits { IfOk result (λ whole. length whole.items ≤ limit) }
    ensures too_long { IsErrOf result ReadAnswer.TooLong
        → IfSome (R.remaining reader.old) (λ left. limit < length left) }
    ensures bounded { TakesAtMost (R.remaining reader.old) (R.remaining reader.new) (limit + 1) }
{
    let limit = limit as usize;
    let mut len = 0;
    for _turn in 0..u64::MAX {
        let taken = read_more(reader, &mut bytes, len, limit)?;
        if taken == 0 {
            bytes.truncate(len);
            return Ok(bytes);
        }
        len += taken;
        if len > limit {
            return Err(ReadAnswer::TooLong);
        }
    }
    unreachable!()
}

// Writes the whole piece and flushes it. A write that takes nothing of what is left is a failure.
pub(crate) fn write_whole<W: Write>(writer: &mut W, bytes: &[u8]) -> Result<(), WriteAnswer>
    ensures ok { OnOk result (Appends (W.contents writer.old) (W.contents writer.new) bytes.now) }
    ensures no_other { IsOkUnless result WriteAnswer.Failed }
{
    let mut at = 0;
    for _turn in 0..u64::MAX {
        if at >= bytes.len() {
            return writer.flush().map_err(|_| WriteAnswer::Failed);
        }
        match writer.write(&bytes[at..]) {
            Ok(0) => return Err(WriteAnswer::Failed),
            Ok(taken) => at += taken,
            Err(_) => return Err(WriteAnswer::Failed),
        }
    }
    unreachable!()
}

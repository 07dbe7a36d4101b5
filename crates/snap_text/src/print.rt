//! The UTF-8 form of a text.

ghost use Rattle.std.specs.Prelude.{◌≡◌, ◌+◌, ◌<◌, ◌++◌, ◌↔◌, length, take, drop, vec_len, encode_utf8, IsTrue, IfOk, OnOk, OnErr};
ghost use Rattle.snap_text.specs.Utf8.{first_character, first_width, is_lead, is_trail, lone_character, pair_character, utf8_of};

use crate::no_memory::NoMemory;
use crate::units::Units;

/// Appends the UTF-8 form of a text, of at most three bytes a unit. A lead surrogate, D800 to DBFF,
/// and the trail surrogate behind it, DC00 to DFFF, are one character (ECMA-262, 11.1.4), and a
/// surrogate without its partner is printed as U+FFFD, the bytes EF BF BD. Where memory is refused,
/// the bytes are as they were.
pub fn print_utf8(text: &Units, out: &mut Vec<u8>) -> Result<(), NoMemory>
    ensures ok { OnOk result (out.new.items ≡ out.old.items ++ utf8_of text.now) }
    ensures err { OnErr result (out.new.items ≡ out.old.items) }
{
    print_units(text.units(), out)
}

/// Appends the UTF-8 form of the text that these units are, as `print_utf8` does.
pub fn print_units(units: &[u16], out: &mut Vec<u8>) -> Result<(), NoMemory>
    ensures ok { OnOk result (out.new.items ≡ out.old.items ++ utf8_of units.now) }
    ensures err { OnErr result (out.new.items ≡ out.old.items) }
{
    let length = out.len();
    let printed = append(units, out);
    if printed.is_err() {
        out.truncate(length);
    }
    printed
}

// Appends the UTF-8 form of the units, and leaves part of it where memory is refused.
fn append(units: &[u16], out: &mut Vec<u8>) -> Result<(), NoMemory>
    ensures ok { OnOk result (out.new.items ≡ out.old.items ++ utf8_of units.now) }
    ensures err { OnErr result (take (vec_len out.old) out.new.items ≡ out.old.items) }
{
    out.reserve(units.len())?;
    let mut at = 0;
    while at < units.len() {
        at += append_at(units, at, out)?;
    }
    Ok(())
}

// Appends the character that begins at a place, and gives how many units it takes.
fn append_at(units: &[u16], at: usize, out: &mut Vec<u8>) -> Result<usize, NoMemory>
    requires { at < length units.now }
    ensures bytes { OnOk result
        (out.new.items ≡ out.old.items ++ encode_utf8 (first_character (drop at units.now))) }
    ensures width { IfOk result (λ width. width ≡ first_width (drop at units.now)) }
    ensures err { OnErr result (out.new.items ≡ out.old.items) }
{
    let unit = units[at];
    if unit < 0x80 {
        out.push(unit as u8)?;
        return Ok(1);
    }
    let (character, width) = character_at(units, at);
    let mut buffer = [0; 4];
    out.extend_from_slice(character.encode_utf8(&mut buffer).as_bytes())?;
    Ok(width)
}

// The character that begins at a place, and how many units it takes.
fn character_at(units: &[u16], at: usize) -> (char, usize)
    requires { at < length units.now }
    ensures character { result.0 ≡ first_character (drop at units.now) }
    ensures width { result.1 ≡ first_width (drop at units.now) }
{
    let unit = units[at];
    if at + 1 < units.len() && is_lead(unit) && is_trail(units[at + 1]) {
        (pair_character(unit, units[at + 1]), 2)
    } else {
        (lone_character(unit), 1)
    }
}

fn is_lead(unit: u16) -> bool
    ensures { result ≡ is_lead unit }
{
    (0xD800..0xDC00).contains(&unit)
}

fn is_trail(unit: u16) -> bool
    ensures { result ≡ is_trail unit }
{
    (0xDC00..0xE000).contains(&unit)
}

fn pair_character(lead: u16, trail: u16) -> char
    requires lead { IsTrue (is_lead lead) }
    requires trail { IsTrue (is_trail trail) }
    ensures { result ≡ pair_character lead trail }
{
    let high = u32::from(lead) - 0xD800;
    let low = u32::from(trail) - 0xDC00;
    char::from_u32(0x1_0000 + 0x400 * high + low).unwrap()
}

fn lone_character(unit: u16) -> char
    ensures { result ≡ lone_character unit }
{
    char::from_u32(u32::from(unit)).unwrap_or(char::REPLACEMENT_CHARACTER)
}

//! The list of strings of a read-only section, written.

ghost use Rattle.std.specs.Prelude.{◌≡◌, [], ◌++◌, length, IfOk, OnOk};
ghost use Rattle.std.specs.List.{concat, flat_map};
ghost use Rattle.spec_format.specs.Number.{AreBytes, ends_from, spelled32};
ghost use Rattle.spec_format.specs.Strings.{AreStrings, string_list};

use crate::put::put32;
use snap_base::NoMemory;
use snap_text::Units;
use std::alloc::{AllocError, Global};

/// The read-only section of these strings, with no nodes.
pub fn write_strings(alloc: Global, strings: &[Units]) -> Result<Vec<u8>, NoMemory>
    requires { AreStrings strings.now }
    ensures { IfOk result (λ section. section.items ≡ string_list strings.now [] []) }
{
    let mut section = Vec::new(alloc);
    match put_list(&mut section, strings) {
        Ok(()) => Ok(section),
        Err(_) => Err(NoMemory),
    }
}

fn put_list(section: &mut Vec<u8>, strings: &[Units]) -> Result<(), AllocError>
    requires { AreStrings strings.now }
    ensures { OnOk result (section.new.items ≡ section.old.items ++ string_list strings.now [] []) }
{
    put32(section, strings.len() as u32)?;
    put32(section, 0)?;
    put_string_ends(section, strings)?;
    put_all(section, strings)?;
    Ok(())
}

// Where each string ends.
fn put_string_ends(section: &mut Vec<u8>, strings: &[Units]) -> Result<(), AllocError>
    requires { AreStrings strings.now }
    ensures { OnOk result (section.new.items ≡ section.old.items ++ flat_map spelled32 (ends_from 0 strings.now)) }
{
    let mut end = 0;
    for string in strings {
        end += string.units().len() as u32;
        put32(section, end)?;
    }
    Ok(())
}

// The strings, one behind the other.
fn put_all(section: &mut Vec<u8>, strings: &[Units]) -> Result<(), AllocError>
    requires { AreStrings strings.now }
    ensures { OnOk result (section.new.items ≡ section.old.items ++ concat strings.now) }
{
    for string in strings {
        put_string(section, string.units())?;
    }
    Ok(())
}

// The units of a string, one byte a unit.
fn put_string(section: &mut Vec<u8>, units: &[u16]) -> Result<(), AllocError>
    requires { AreBytes units.now }
    ensures { OnOk result (section.new.items ≡ section.old.items ++ units.now) }
{
    for unit in units {
        section.push(*unit as u8)?;
    }
    Ok(())
}

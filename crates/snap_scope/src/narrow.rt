//! Texts as bytes.

ghost use Rattle.std.specs.Prelude.{◌≡◌, OnOk};
ghost use Rattle.snap_scope.specs.Names.{IsNarrow};

use snap_text::NoMemory;

/// Puts the units of a text as bytes into a list that is lent, in place of what is there.
pub(crate) fn narrow(units: &[u16], bytes: &mut Vec<u8>) -> Result<(), NoMemory>
    requires { IsNarrow units.now }
    ensures { OnOk result (bytes.new.items ≡ units.now) }
{
    bytes.clear();
    for unit in units {
        bytes.push(*unit as u8)?;
    }
    Ok(())
}

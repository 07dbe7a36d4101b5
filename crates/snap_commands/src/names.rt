//! Names of the language.

ghost use Rattle.std.specs.Prelude.{◌≡◌};
ghost use Rattle.std.specs.List.{list_all};
ghost use Rattle.spec_tokens.specs.Byte.{is_part};
ghost use Rattle.snap_commands.specs.ThinBlob.{is_name};

use snap_lex::{is_part, is_reserved, is_start};

/// A letter, `_` or `$`, then letters, digits, `_` and `$`, and no reserved word.
pub(crate) fn is_name(bytes: &[u8]) -> bool
    ensures { result ≡ is_name bytes.now }
{
    let Some((first, rest)) = bytes.split_first() else {
        return false;
    };
    is_start(*first) && are_parts(rest) && !is_reserved(bytes)
}

fn are_parts(bytes: &[u8]) -> bool
    ensures { result ≡ list_all is_part bytes.now }
{
    bytes.iter().all(|b| is_part(*b))
}

//! The numbers of texts among the strings.

ghost use Rattle.std.specs.Prelude.{◌≡◌, Contains, position};
ghost use Rattle.std.specs.Cmp.Lexicographic.{slice_cmp};
ghost use Rattle.std.specs.Ordering.{nat_cmp};
ghost use Rattle.std.specs.Str.{bytes_eq};
ghost use Rattle.spec_format.specs.Strings.{IsAscending};
ghost use Rattle.spec_sections.specs.Global.{text_number};

use snap_text::Units;
use std::cmp::Ordering;

/// The number of a text that is one of the strings.
pub fn text_number(strings: &[Units], text: &Units) -> u64
    requires ascending { IsAscending strings.now }
    requires among { Contains strings.now text.now }
    ensures { result ≡ text_number strings.now text.now }
{
    place_of(strings, text).unwrap() as u64
}

/// The place of a text among the strings, in a number of steps that grows as the logarithm of
/// theirs.
fn place_of(strings: &[Units], text: &Units) -> Option<usize>
    requires { IsAscending strings.now }
    ensures { result ≡ position (bytes_eq text.now) strings.now }
{
    strings.binary_search_by(|string| order(string, text)).ok()
}

/// The order of two texts by their units, from the first differing one on.
fn order(left: &Units, right: &Units) -> Ordering
    ensures { result ≡ slice_cmp nat_cmp left.now right.now }
{
    left.units().cmp(right.units())
}

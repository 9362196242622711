//! Comparing keys in a time that tells nothing of them.

ghost use Rattle.std.specs.Prelude.{◌≡◌, ◌≤◌, bytes_eq, get_or, length};
ghost use Rattle.terms.specs.declared.limits.TheConstants.{LONGEST_CARD_KEY as LONGEST};

use terms::LONGEST_CARD_KEY;

/// Returns the byte at a place, and 0 behind the end.
fn byte_at(bytes: &[u8], place: usize) -> u8
    ensures { result ≡ get_or bytes.now place 0 }
{
    match bytes.get(place) {
        Some(byte) => *byte,
        None => 0,
    }
}

/// Compares two keys. Looks at as many bytes whatever they are: no byte that differs ends it early.
pub(crate) fn are_same(one: &[u8], other: &[u8]) -> bool
    requires one { length one.now ≤ LONGEST }
    requires other { length other.now ≤ LONGEST }
    ensures { result ≡ bytes_eq one.now other.now }
{
    let mut are_same = one.len() == other.len();
    'places: for place in 0..LONGEST_CARD_KEY {
        are_same &= byte_at(one, place) == byte_at(other, place);
    }
    are_same
}

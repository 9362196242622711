//! Checking numbers against their limits.

ghost use Rattle.std.specs.Prelude.{◌≡◌};
ghost use Rattle.model.specs.Checks.{is_small_number, is_large_number};

use terms::{LAST_LARGE_NUMBER, LAST_SMALL_NUMBER};

/// Returns whether this is the number of a branch or a kind.
pub(crate) fn is_small(number: u32) -> bool
    ensures { result ≡ is_small_number number }
{
    1 <= number && number <= LAST_SMALL_NUMBER
}

/// Returns whether this is the number of a patron, a title or a copy.
pub(crate) fn is_large(number: u32) -> bool
    ensures { result ≡ is_large_number number }
{
    1 <= number && number <= LAST_LARGE_NUMBER
}

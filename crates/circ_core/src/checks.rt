//! Tables of checks.

ghost use Rattle.std.specs.Prelude.{◌≡◌};
ghost use Rattle.model.specs.Checks.{first_failing};

use terms::Refusal;

/// Returns the refusal of the first failed check.
pub fn first_refusal(checks: &[(Refusal, bool)]) -> Option<Refusal>
    ensures { result ≡ first_failing checks.now }
{
    for (refusal, fails) in checks {
        if *fails {
            return Some(*refusal);
        }
    }
    None
}

//! Amounts of money.

ghost use Rattle.std.specs.Prelude.{◌≡◌};
ghost use Rattle.terms.specs.Money.{fine_for};

use crate::number::{Cents, Days};

/// Returns the fine for this many open days late: none within the grace days; otherwise the rate in
/// cents for each day late, up to the cap.
pub fn fine(days: u32, rate: Cents, cap: Cents, grace: Days) -> Cents
    ensures { result ≡ fine_for days rate cap grace }
{
    if days <= grace.number() {
        return Cents::new(0);
    }
    let most = cap.number();
    match u64::from(days).checked_mul(rate.number()) {
        Some(amount) => Cents::new(amount.min(most)),
        None => cap,
    }
}

//! A patron's debt, against the kind's limit.

ghost use Rattle.std.specs.Prelude.{◌≡◌, nat_lt};
ghost use Rattle.circ_core.specs.Debt.{debt_allowed, owed_by};

use terms::{KindRow, PatronRow};

/// Returns whether the patron owes more than the kind allows at check-out.
pub(crate) fn owes_too_much(kind: &Option<KindRow>, patron: &Option<PatronRow>) -> bool
    ensures { result ≡ nat_lt (debt_allowed kind.now) (owed_by patron.now) }
{
    let owed = match patron {
        Some(row) => row.owed.number(),
        None => 0,
    };
    match kind {
        Some(row) => row.debt.number() < owed,
        None => 0 < owed,
    }
}

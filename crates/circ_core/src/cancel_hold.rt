//! `cancel-hold`: cancels a waiting hold.

ghost use Rattle.std.specs.Prelude.{◌≡◌, ◌++◌, ◌+◌, ◌≤◌, length};
ghost use Rattle.terms.specs.declared.reply.Reply.TheVariants.{Done};
ghost use Rattle.circ_core.specs.Decided.{Decided};
ghost use Rattle.circ_core.specs.CancelHold.{waits, cancel_hold_checks, cancelled_rows};
ghost use Rattle.circ_core.specs.CancelHold.{let_go_rows, cancel_hold_rows};

use crate::changes::{Changes, Decision, RowChange, done};
use crate::checks::first_refusal;
use crate::holds::finish;
use crate::views::View;
use terms::{HoldRow, HoldState, Refusal, TransitRow};

/// Returns whether the hold waits.
fn is_waiting(hold: &Option<HoldRow>) -> bool
    ensures { result ≡ waits hold.now }
{
    match hold {
        Some(row) => row.state == HoldState::Waiting,
        None => false,
    }
}

/// Cancels the hold.
fn cancelled_changes<'a>(hold: &Option<HoldRow>) -> Changes<'a>
    ensures rows { result ≡ cancelled_rows hold.now }
    ensures few { length result ≤ 1 }
{
    match hold {
        Some(row) => Changes::one(RowChange::PutHold(finish(*row, HoldState::Cancelled))),
        None => Changes::none(),
    }
}

/// Adds the change that makes a copy's transit serve no hold.
fn with_let_go<'a>(changes: Changes<'a>, transit: &Option<TransitRow>) -> Changes<'a>
    requires { length changes ≤ 5 }
    ensures { result ≡ changes.entry ++ let_go_rows transit.now }
{
    match transit {
        Some(row) => {
            let mut on = *row;
            on.hold = None;
            changes.with(RowChange::PutTransit(on))
        }
        None => changes,
    }
}

/// `cancel-hold`: refusals 15, 53.
pub(crate) fn cancel_hold<'a>(view: &View) -> Result<Decision<'a>, Refusal>
    ensures { Decided (cancel_hold_checks view.now) Done (cancel_hold_rows view.now) result }
{
    let refusal = first_refusal(&[
        (Refusal::UnknownHold, view.hold.is_none()),
        (Refusal::WrongHoldState, !is_waiting(&view.hold)),
    ]);
    if let Some(first) = refusal {
        return Err(first);
    }
    Ok(done(with_let_go(cancelled_changes(&view.hold), &view.transit)))
}

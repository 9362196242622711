//! `missing`: declares a copy missing.

ghost use Rattle.std.specs.Prelude.{◌≡◌, ◌++◌, ◌+◌, ◌≤◌, length};
ghost use Rattle.circ_core.specs.Decided.{Decided};
ghost use Rattle.circ_core.specs.Missing.{price_due, missing_checks, lost_reply, missing_reply};
ghost use Rattle.circ_core.specs.Missing.{waiting_again, release_rows, missing_rows};

use crate::changes::{Changes, Decision, RowChange};
use crate::checks::first_refusal;
use crate::condition::{copy_changes, is_missing, is_withdrawn};
use crate::ending::{fine_of, needs_more_numbers, with_charges, with_end};
use crate::routing::limit_day;
use crate::views::View;
use terms::{Cents, Condition, CopyRow, Day, HoldRow, HoldState, LoanRow, Refusal, Reply};

/// Returns the price to charge for a copy, in cents; 0 if it isn't on loan.
fn price_of(loan: &Option<LoanRow>, copy: &Option<CopyRow>) -> Cents
    ensures { result ≡ price_due loan.now copy.now }
{
    match loan {
        Some(_) => match copy {
            Some(row) => row.price,
            None => Cents::new(0),
        },
        None => Cents::new(0),
    }
}

/// Makes a hold wait again.
fn wait_again(hold: &HoldRow) -> HoldRow
    ensures { result ≡ waiting_again hold.now }
{
    let mut row = *hold;
    row.state = HoldState::Waiting;
    row.copy = None;
    row.limit_day = None;
    row
}

/// Adds the release of what the copy was bound to.
fn with_release<'a>(changes: Changes<'a>, view: &View, today: Day) -> Changes<'a>
    requires { length changes ≤ 1 }
    ensures rows { result ≡ changes.entry
        ++ release_rows view.now.loan view.now.hold view.now.transit today }
    ensures few { length result ≤ 2 }
{
    match &view.loan {
        Some(_) => with_end(changes, &view.loan, today),
        None => match &view.hold {
            Some(hold) => changes.with(RowChange::PutHold(wait_again(hold))),
            None => match &view.transit {
                Some(transit) => changes.with(RowChange::TakeTransit(transit.copy)),
                None => changes,
            },
        },
    }
}

fn reply_of(loan: &Option<LoanRow>, fine: Cents, price: Cents) -> Reply
    ensures { result ≡ lost_reply loan.now fine price }
{
    match loan {
        Some(_) => Reply::Lost { fine, price },
        None => Reply::Done,
    }
}

/// `missing`: refusals 13, 35, 34, 70, in this order.
pub(crate) fn declare_missing<'a>(view: &'a View) -> Result<Decision<'a>, Refusal>
    ensures { Decided (missing_checks view.now) (missing_reply view.now)
        (missing_rows view.now) result }
{
    let today = view.meta.today;
    let fine = fine_of(&view.loan, &view.lender, today);
    let price = price_of(&view.loan, &view.copy);
    let refusal = first_refusal(&[
        (Refusal::UnknownCopy, view.copy.is_none()),
        (Refusal::CopyWithdrawn, is_withdrawn(&view.copy)),
        (Refusal::CopyMissing, is_missing(&view.copy)),
    ]);
    if let Some(first) = refusal {
        return Err(first);
    }
    if needs_more_numbers(&view.meta, fine, price) {
        return Err(Refusal::NumbersUsedUp);
    }
    let freed = with_release(copy_changes(&view.copy, Condition::Missing), view, today);
    Ok(Decision {
        reply: reply_of(&view.loan, fine, price),
        changes: with_charges(freed, &view.meta, &view.patron, &view.loan, fine, price),
    })
}

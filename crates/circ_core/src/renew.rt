//! `renew`: gives a loan its next due day.

ghost use Rattle.std.specs.Prelude.{◌≡◌, is_none};
ghost use Rattle.circ_core.specs.Decided.{Decided};
ghost use Rattle.terms.specs.declared.reply.Reply.TheVariants.{Lent};
ghost use Rattle.model.specs.Checks.{first_failing};
ghost use Rattle.circ_core.specs.Renew.{is_over, is_late, is_renewed_out, renew_checks};
ghost use Rattle.circ_core.specs.Renew.{renewed_rows, renewed_due_day, renewed_due_in};

use crate::changes::{Changes, Decision, RowChange};
use crate::checks::first_refusal;
use crate::debt::owes_too_much;
use crate::due_day::due_day;
use crate::views::View;
use terms::{Count, Day, LoanId, LoanRow, Refusal, Reply};

fn has_ended(loan: &Option<LoanRow>) -> bool
    ensures { result ≡ is_over loan.now }
{
    match loan {
        Some(row) => row.ended.is_some(),
        None => false,
    }
}

fn is_overdue(loan: &Option<LoanRow>, today: Day) -> bool
    ensures { result ≡ is_late loan.now today }
{
    match loan {
        Some(row) => row.due.number() < today.number(),
        None => false,
    }
}

fn has_no_renewals(loan: &Option<LoanRow>) -> bool
    ensures { result ≡ is_renewed_out loan.now }
{
    match loan {
        Some(row) => row.renewals_left.number() == 0,
        None => true,
    }
}

/// Returns the refusal of a renewal, from its table of checks.
fn renew_refusal(view: &View, is_late: bool) -> Option<Refusal>
    requires { is_late ≡ is_none (renewed_due_day view.now) }
    ensures { result ≡ first_failing (renew_checks view.now) }
{
    first_refusal(&[
        (Refusal::UnknownLoan, view.loan.is_none()),
        (Refusal::LoanEnded, has_ended(&view.loan)),
        (Refusal::Overdue, is_overdue(&view.loan, view.meta.today)),
        (Refusal::HoldWaits, view.first.is_some()),
        (Refusal::NoRenewalsLeft, has_no_renewals(&view.loan)),
        (
            Refusal::OwesTooMuch,
            owes_too_much(&view.kind, &view.patron),
        ),
        (Refusal::PastCalendar, is_late),
    ])
}

/// Returns the loan's due day after a renewal, if the calendar has one.
fn next_due_day(view: &View) -> Option<Day>
    ensures { result ≡ renewed_due_day view.now }
{
    match &view.loan {
        Some(row) => due_day(&view.lender, row.due, row.period),
        None => None,
    }
}

/// Gives the loan its new due day and one renewal fewer.
fn renewed<'a>(loan: &Option<LoanRow>, due: Day) -> Changes<'a>
    ensures { result ≡ renewed_rows loan.now due }
{
    match loan {
        Some(row) => {
            let mut renewed = *row;
            renewed.due = due;
            renewed.renewals_left = Count::new(row.renewals_left.number().saturating_sub(1));
            Changes::one(RowChange::PutLoan(renewed))
        }
        None => Changes::none(),
    }
}

/// `renew`: refusals 14, 40, 41, 36, 42, 38, 39, in this order. The new period begins on the old
/// due day.
pub(crate) fn renew<'a>(view: &View, loan: LoanId) -> Result<Decision<'a>, Refusal>
    ensures { Decided (renew_checks view.now) (Lent loan (renewed_due_in view.now))
        (renewed_rows view.now.loan (renewed_due_in view.now)) result }
{
    let found = next_due_day(view);
    if let Some(refusal) = renew_refusal(view, found.is_none()) {
        return Err(refusal);
    }
    let due = found.unwrap_or(view.meta.today);
    Ok(Decision {
        reply: Reply::Lent { loan, due },
        changes: renewed(&view.loan, due),
    })
}

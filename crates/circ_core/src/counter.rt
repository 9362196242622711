//! `charge` and `pay-at`: what a patron is charged, and pays, at the counter of a branch.

ghost use Rattle.std.specs.Prelude.{◌≡◌, ◌-◌, Some};
ghost use Rattle.terms.specs.declared.reply.Reply.TheVariants.{Owed};
ghost use Rattle.circ_core.specs.Decided.{Decided};
ghost use Rattle.circ_core.specs.Debt.{owed_by};
ghost use Rattle.circ_core.specs.Counter.{owed_after, charge_checks, charge_rows};
ghost use Rattle.circ_core.specs.Counter.{pay_at_checks, pay_at_rows};

use crate::changes::{Decision, RowChange};
use crate::pay_and_waive::{post, settle_debt};
use crate::views::View;
use terms::{
    BranchId, Cents, HIGHEST_CHARGE, LARGEST_SUM, LAST_NUMBER, Name, NotePut, PatronId, PatronRow,
    Refusal, Reply, Sort,
};

/// `pay-at`: refusals 11, 10, 60, 70.
pub(crate) fn pay_at<'a>(
    view: &'a View,
    patron: PatronId,
    amount: Cents,
    branch: BranchId,
) -> Result<Decision<'a>, Refusal>
    ensures { Decided (pay_at_checks view.now amount) (Owed (owed_by view.now.patron - amount))
        (pay_at_rows view.now patron amount branch) result }
{
    let Some(row) = &view.patron else {
        return Err(Refusal::UnknownPatron);
    };
    if view.branch.is_none() {
        return Err(Refusal::UnknownBranch);
    }
    match settle_debt(&view.meta, row, patron, Sort::Payment, amount) {
        Ok(Decision { reply, changes }) => {
            let note = NotePut {
                line: view.meta.next_line,
                branch,
                text: None,
            };
            Ok(Decision {
                reply,
                changes: changes.with(RowChange::PutNote(note)),
            })
        }
        Err(refusal) => Err(refusal),
    }
}

/// Returns what a patron owes after a charge, at most the largest sum.
fn owed_then(row: &PatronRow, amount: Cents) -> Cents
    ensures { result ≡ owed_after (Some row.now) amount }
{
    let owed = row.owed.number() + amount.number();
    Cents::new(owed.min(LARGEST_SUM))
}

/// `charge`: refusals 21, 11, 10, 60, 70.
pub(crate) fn charge<'a>(
    view: &'a View,
    patron: PatronId,
    amount: Cents,
    branch: BranchId,
    text: &'a Name,
) -> Result<Decision<'a>, Refusal>
    ensures { Decided (charge_checks view.now patron amount branch text.now)
        (Owed (owed_after view.now.patron amount))
        (charge_rows view.now patron amount branch text.now) result }
{
    if amount.number() > HIGHEST_CHARGE {
        return Err(Refusal::OutOfLimits);
    }
    let Some(row) = &view.patron else {
        return Err(Refusal::UnknownPatron);
    };
    if view.branch.is_none() {
        return Err(Refusal::UnknownBranch);
    }
    if amount.number() == 0 {
        return Err(Refusal::BadAmount);
    }
    let line = view.meta.next_line;
    if LAST_NUMBER < line.number() {
        return Err(Refusal::NumbersUsedUp);
    }
    let owed = owed_then(row, amount);
    let made = post(&view.meta, row, patron, Sort::Charge, owed, amount);
    let note = NotePut {
        line,
        branch,
        text: Some(text),
    };
    Ok(Decision {
        reply: Reply::Owed { owed },
        changes: made.with(RowChange::PutNote(note)),
    })
}

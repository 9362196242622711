//! `withdraw`: removes a copy from the library.

ghost use Rattle.terms.specs.declared.reply.Reply.TheVariants.{Done};
ghost use Rattle.circ_core.specs.Decided.{Decided};
ghost use Rattle.circ_core.specs.Withdraw.{withdraw_checks, withdraw_rows};

use crate::changes::{Decision, done};
use crate::checks::first_refusal;
use crate::condition::{copy_changes, is_withdrawn};
use crate::views::View;
use terms::{Condition, Refusal};

/// `withdraw`: refusals 13, 35, 31, 32, 33, in this order.
pub(crate) fn withdraw<'a>(view: &View) -> Result<Decision<'a>, Refusal>
    ensures { Decided (withdraw_checks view.now) Done (withdraw_rows view.now) result }
{
    let refusal = first_refusal(&[
        (Refusal::UnknownCopy, view.copy.is_none()),
        (Refusal::CopyWithdrawn, is_withdrawn(&view.copy)),
        (Refusal::OnLoan, view.loan.is_some()),
        (Refusal::InTransit, view.transit.is_some()),
        (Refusal::OnHoldShelf, view.hold.is_some()),
    ]);
    if let Some(first) = refusal {
        return Err(first);
    }
    Ok(done(copy_changes(&view.copy, Condition::Withdrawn)))
}

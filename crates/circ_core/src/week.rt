//! `week`: sets a branch's closed weekdays.

ghost use Rattle.terms.specs.declared.reply.Reply.TheVariants.{Done};
ghost use Rattle.circ_core.specs.Decided.{Decided};
ghost use Rattle.circ_core.specs.Week.{week_checks, week_rows};

use crate::changes::{Changes, Decision, RowChange, done};
use terms::{BranchPut, BranchRow, Mask, Refusal};

/// `week`: refusals 10, 22.
pub(crate) fn set_week<'a>(row: &'a Option<BranchRow>, week: Mask) -> Result<Decision<'a>, Refusal>
    ensures { Decided (week_checks row.now week) Done (week_rows row.now week) result }
{
    let Some(old) = row else {
        return Err(Refusal::UnknownBranch);
    };
    let Some(week) = week.weekdays() else {
        return Err(Refusal::AllWeekdaysClosed);
    };
    let put = BranchPut {
        branch: old.branch,
        pickup: old.pickup,
        week,
        name: &old.name,
    };
    Ok(done(Changes::one(RowChange::PutBranch(put))))
}

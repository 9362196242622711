//! `close-day` and `open-day`: set and clear single closed days.

ghost use Rattle.std.specs.Prelude.{◌≡◌};
ghost use Rattle.terms.specs.declared.reply.Reply.TheVariants.{Done};
ghost use Rattle.circ_core.specs.Decided.{Decided};
ghost use Rattle.circ_core.specs.CloseDay.{is_closed_day, has_all_days, close_day_checks};
ghost use Rattle.circ_core.specs.CloseDay.{close_day_rows, open_day_checks, open_day_rows};

use crate::changes::{Changes, Decision, RowChange, done};
use crate::checks::first_refusal;
use crate::views::View;
use calendar::Calendar;
use terms::{BranchId, Day, Refusal};

/// Returns whether the day is closed singly.
fn is_closed(calendar: &Option<Calendar>, day: Day) -> bool
    ensures { result ≡ is_closed_day calendar.now day }
{
    match calendar {
        Some(days) => days.is_closed_singly(day),
        None => false,
    }
}

/// Returns whether 400 days are closed singly.
fn is_full(calendar: &Option<Calendar>) -> bool
    ensures { result ≡ has_all_days calendar.now }
{
    match calendar {
        Some(days) => days.is_full(),
        None => false,
    }
}

/// `close-day`: refusals 10, 23, 24, 21.
pub(crate) fn close_day<'a>(
    view: &View,
    branch: BranchId,
    day: Day,
) -> Result<Decision<'a>, Refusal>
    ensures { Decided (close_day_checks view.now day) Done (close_day_rows branch day) result }
{
    let is_late = day.number() <= view.meta.today.number();
    if let Some(refusal) = first_refusal(&[
        (Refusal::UnknownBranch, view.calendar.is_none()),
        (Refusal::BadDay, is_late),
        (Refusal::AlreadyClosed, is_closed(&view.calendar, day)),
        (Refusal::OutOfLimits, is_full(&view.calendar)),
    ]) {
        return Err(refusal);
    }
    Ok(done(Changes::one(RowChange::PutClosedDay(branch, day))))
}

/// `open-day`: refusals 10, 23, 25.
pub(crate) fn open_day<'a>(view: &View, branch: BranchId, day: Day) -> Result<Decision<'a>, Refusal>
    ensures { Decided (open_day_checks view.now day) Done (open_day_rows branch day) result }
{
    let is_late = day.number() <= view.meta.today.number();
    if let Some(refusal) = first_refusal(&[
        (Refusal::UnknownBranch, view.calendar.is_none()),
        (Refusal::BadDay, is_late),
        (Refusal::NotClosed, !is_closed(&view.calendar, day)),
    ]) {
        return Err(refusal);
    }
    Ok(done(Changes::one(RowChange::TakeClosedDay(branch, day))))
}

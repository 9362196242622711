//! The due day of a loan, and the limit day of a hold shelf.

ghost use Rattle.std.specs.Prelude.{◌≡◌, ◌+◌, IfSome, IfNone};
ghost use Rattle.circ_core.specs.DueDay.{due_from, IsDueFrom, IsShutFrom};

use calendar::{Calendar, Day};
use terms::Days;

/// Finds the least open day from `period` days after a day, if the calendar has one.
fn search(calendar: &Option<Calendar>, today: Day, period: Days) -> Option<Day>
    ensures some { IfSome result (IsDueFrom calendar.now (today + period)) }
    ensures none { IfNone result (IsShutFrom calendar.now (today + period)) }
{
    let Some(days) = calendar else {
        return None;
    };
    let Some(end) = today.number().checked_add(period.number()) else {
        return None;
    };
    let Some(from) = Day::new(end) else {
        return None;
    };
    days.least_open(from)
}

/// Returns the least open day from `period` days after a day, if the calendar has one.
#[tactic(auto, using(crate::proofs::DueDays::found_by))]
pub(crate) fn due_day(calendar: &Option<Calendar>, today: Day, period: Days) -> Option<Day>
    ensures { result ≡ due_from calendar.now (today + period) }
{
    search(calendar, today, period)
}

//! Uncounted looks: each has its own counter, dropped with the answer. No other file of the crate
//! makes a counter.
ghost use Rattle.std.specs.Prelude.{◌≡◌, ◌+◌, ◌<◌, ◌≤◌, ℕ, true, false, length, IfOk, IfErr};
ghost use Rattle.std.specs.Prelude.{IfSome, IfNone, IsSome};
ghost use Rattle.calendar.specs.Openings.{IsLeastOpen, has_day, is_open, open_days_after};
ghost use Rattle.calendar.specs.Weeks.{IsPlaceFor, IsPlaceOf, IsRising};
ghost use Rattle.calendar.specs.declared.limits.TheConstants.{LAST_DAY, MOST_CLOSED_DAYS};

use crate::day::Day;
use crate::opening::Calendar;
use crate::search::place_of;
use crate::singles::Singles;
use crate::steps::Steps;
use std::sync::ledger::{Blank, Ledger};

/// Finds a day among the single closed days, or where it would be inserted.
pub fn uncounted_place<L: Ledger>(singles: &Singles, day: Day, blank: Blank) -> Result<usize, usize>
    requires rising { IsRising singles.now }
    requires few { length singles.now ≤ MOST_CLOSED_DAYS }
    requires name { blank.name ≡ L.name }
    requires parts { blank.parts ≡ L.parts }
    requires some { 0 < blank.parts }
    ensures ok { IfOk result (IsPlaceOf singles.now day) }
    ensures found { IfOk result (λ _. has_day singles.now day ≡ true) }
    ensures err { IfErr result (IsPlaceFor singles.now day) }
    ensures missing { IfErr result (λ _. has_day singles.now day ≡ false) }
{
    place_of(&singles.counted(), day, &mut Steps::<L>::new(blank))
}

/// Returns the least open day from `day` on, if the calendar has one.
pub fn uncounted_least_open<L: Ledger>(calendar: &Calendar, day: Day, blank: Blank) -> Option<Day>
    requires name { blank.name ≡ L.name }
    requires parts { blank.parts ≡ L.parts }
    requires some { 0 < blank.parts }
    ensures some { IfSome result (IsLeastOpen calendar.now day) }
    ensures none { IfNone result ((k : ℕ) → day ≤ k → is_open calendar.now k ≡ false) }
    ensures near { IfSome result (λ e. e ≤ day + 2806) }
    ensures found { day + 2806 ≤ LAST_DAY → IsSome result }
{
    calendar.counted_least_open(day, &mut Steps::<L>::new(blank))
}

/// Counts the open days after `due`, up to `today`.
pub fn uncounted_open_days<L: Ledger>(
    calendar: &Calendar,
    due: Day,
    today: Day,
    blank: Blank,
) -> u32
    requires name { blank.name ≡ L.name }
    requires parts { blank.parts ≡ L.parts }
    requires some { 0 < blank.parts }
    ensures { result ≡ open_days_after calendar.now due today }
{
    calendar.counted_open_days_after(due, today, &mut Steps::<L>::new(blank))
}

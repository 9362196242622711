//! Searches of the single closed days, each look one step of the counter passed in.
ghost use Rattle.std.specs.Prelude.{◌≡◌, ◌+◌, ◌-◌, ◌<◌, ◌≤◌, true, false, length, IfOk, IfErr};
ghost use Rattle.calendar.specs.Openings.{has_day};
ghost use Rattle.calendar.specs.declared.limits.TheConstants.{MOST_CLOSED_DAYS};
ghost use Rattle.calendar.specs.Weeks.{IsCountBelow, IsOpenFrom, IsPlaceFor, IsPlaceOf, IsRising};
ghost use Rattle.calendar.specs.Weeks.{singles_among};

use crate::day::Day;
use crate::singles::CountedSingles;
use crate::steps::Steps;
use crate::weekdays::Weekdays;
use std::sync::ledger::Ledger;

/// Counts the single closed days before a day number.
pub fn count_below<L: Ledger>(
    singles: &CountedSingles<'_, L>,
    number: u32,
    steps: &mut Steps<L>,
) -> usize
    requires rising { IsRising singles.now }
    requires few { length singles.now ≤ MOST_CLOSED_DAYS }
    ensures below { IsCountBelow singles.now number result }
    ensures cost { steps.new ≤ steps.old + 9 }
{
    let mut low = 0;
    let mut high = singles.len();
    while low < high {
        let middle = low + (high - low) / 2;
        if singles.at(middle, steps).number() < number {
            low = middle + 1;
        } else {
            high = middle;
        }
    }
    low
}

/// Finds a day among the single closed days, or where it would be inserted.
pub fn place_of<L: Ledger>(
    singles: &CountedSingles<'_, L>,
    day: Day,
    steps: &mut Steps<L>,
) -> Result<usize, usize>
    requires rising { IsRising singles.now }
    requires few { length singles.now ≤ MOST_CLOSED_DAYS }
    ensures ok { IfOk result (IsPlaceOf singles.now day) }
    ensures found { IfOk result (λ _. has_day singles.now day ≡ true) }
    ensures err { IfErr result (IsPlaceFor singles.now day) }
    ensures missing { IfErr result (λ _. has_day singles.now day ≡ false) }
    ensures cost { steps.new ≤ steps.old + 10 }
{
    let place = count_below(singles, day.number(), steps);
    if place < singles.len() && singles.at(place, steps) == day {
        Ok(place)
    } else {
        Err(place)
    }
}

/// Counts the single closed days after `due`, up to `today`, that fall on open weekdays.
pub fn count_between<L: Ledger>(
    weekly: Weekdays,
    singles: &CountedSingles<'_, L>,
    due: Day,
    today: Day,
    steps: &mut Steps<L>,
) -> u32
    requires rising { IsRising singles.now }
    requires few { length singles.now ≤ MOST_CLOSED_DAYS }
    ensures count { result ≡ singles_among weekly singles.now due (today - due) }
    ensures cost { steps.new ≤ steps.old + 418 }
{
    let from = count_below(singles, due.number() + 1, steps);
    let to = count_below(singles, today.number() + 1, steps);
    let mut count = 0;
    for index in from..to {
        if !weekly.is_closed_on(singles.at(index, steps).number()) {
            count += 1;
        }
    }
    count
}

/// Returns the first day number from `day` on not closed by weekday or singly.
pub fn first_open<L: Ledger>(
    weekly: Weekdays,
    singles: &CountedSingles<'_, L>,
    day: Day,
    steps: &mut Steps<L>,
) -> u32
    requires rising { IsRising singles.now }
    requires few { length singles.now ≤ MOST_CLOSED_DAYS }
    ensures first { IsOpenFrom (record { weekly = weekly; single = singles.now }) day result }
    ensures cost { steps.new ≤ steps.old + 409 }
{
    let from = count_below(singles, day.number(), steps);
    let mut open = weekly.open_from(day.number());
    for index in from..singles.len() {
        let single = singles.at(index, steps).number();
        if open < single {
            return open;
        }
        if single == open {
            open = weekly.open_from(open + 1);
        }
    }
    open
}

//! The counted calls of `calendar`, with their counts.
ghost use Rattle.std.specs.Prelude.{◌≡◌, ◌<◌};

use calendar::{Calendar, Day, Steps};
use std::marker::Brand;
use std::sync::ledger::{Blank, Ledger};

fn count_in<L: Ledger>(calendar: &Calendar, due: Day, today: Day, blank: Blank) -> (u32, u64)
    requires name { blank.name ≡ L.name }
    requires parts { blank.parts ≡ L.parts }
    requires some { 0 < blank.parts }
{
    let mut steps = Steps::<L>::new(blank);
    let count = calendar.counted_open_days_after(due, today, &mut steps);
    (count, steps.taken())
}

fn find_in<L: Ledger>(calendar: &Calendar, day: Day, blank: Blank) -> (Option<Day>, u64)
    requires name { blank.name ≡ L.name }
    requires parts { blank.parts ≡ L.parts }
    requires some { 0 < blank.parts }
{
    let mut steps = Steps::<L>::new(blank);
    let least = calendar.counted_least_open(day, &mut steps);
    (least, steps.taken())
}

/// The number of open days after `due`, up to `today`, and of single closed days that the call
/// looked at.
pub fn count_open_days(calendar: &Calendar, due: Day, today: Day) -> (u32, u64) {
    count_in::<Brand>(calendar, due, today, Blank::new(1))
}

/// The least open day from `day` on, and how many single closed days the call looked at.
pub fn find_open_day(calendar: &Calendar, day: Day) -> (Option<Day>, u64) {
    find_in::<Brand>(calendar, day, Blank::new(1))
}

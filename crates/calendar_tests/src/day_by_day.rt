//! The calls of `calendar`, day by day, for comparison.
use calendar::{Calendar, Day};

/// The number of open days after `due`, up to `today`.
pub fn open_days_after(calendar: &Calendar, due: Day, today: Day) -> u32 {
    let mut count = 0u32;
    for number in due.number() + 1..today.number() + 1 {
        if Day::new(number).is_some_and(|day| calendar.is_open(day)) {
            count = count.wrapping_add(1);
        }
    }
    count
}

/// The least open day from `day` on.
pub fn least_open(calendar: &Calendar, day: Day) -> Option<Day> {
    for number in day.number()..calendar::LAST_DAY + 1 {
        let day = Day::new(number)?;
        if calendar.is_open(day) {
            return Some(day);
        }
    }
    None
}

//! Limits of days, with one name each for code and definitions.

/// The first day of the calendar: 2000-01-01.
pub const FIRST_DAY: u32 = 10957;

/// The last day of the calendar: 2199-12-31.
pub const LAST_DAY: u32 = 84005;

/// The most days on which a branch can be closed singly.
pub const MOST_CLOSED_DAYS: usize = 400;

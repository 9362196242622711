//! Limits of numbers, amounts and texts, with one name each for code and definitions.

/// The newest schema of a library, which new tables have.
pub const SCHEMA: u32 = 4;

/// The greatest number of a branch, a kind of patron or a kind of copy. The least is 1, as for all
/// numbers below.
pub const LAST_SMALL_NUMBER: u32 = 99;

/// The greatest number of a patron, a title or a copy.
pub const LAST_LARGE_NUMBER: u32 = 9_999_999;

/// The greatest number of a loan, a hold or a line.
pub const LAST_NUMBER: u32 = 2_147_483_647;

/// The greatest next number of a loan, a hold or a line. It means that they are used up.
pub const LAST_NEXT_NUMBER: u32 = 2_147_483_648;

/// The last day that can be today: 2190-12-31.
pub const LAST_TODAY: u32 = 80718;

/// The longest loan period, in days. The shortest is 1.
pub const LONGEST_PERIOD: u32 = 365;

/// The most grace days in a circulation rule.
pub const MOST_GRACE: u32 = 365;

/// The longest pick-up period, in days.
pub const LONGEST_PICKUP: u32 = 60;

/// The most renewals in a circulation rule.
pub const MOST_RENEWALS: u32 = 99;

/// The most rows in one answer to a question.
pub const MOST_ROWS: u32 = 100;

/// The most rows that one answer to a search looks at.
pub const MOST_LOOKED_AT: u32 = 5_000;

/// The most open loans, and the most active holds, for a kind of patron.
pub const MOST_ALLOWED: u32 = 200;

/// The highest rate of a fine, in cents per day.
pub const HIGHEST_RATE: u64 = 10_000;

/// The highest cap of a fine, in cents.
pub const HIGHEST_CAP: u64 = 100_000;

/// The highest price of a copy, in cents.
pub const HIGHEST_PRICE: u64 = 1_000_000;

/// The most that a kind of patron may owe at check-out, in cents.
pub const HIGHEST_DEBT: u64 = 1_000_000;

/// The highest single charge, in cents.
pub const HIGHEST_CHARGE: u64 = 1_000_000;

/// The largest amount of money, and the largest sum of amounts, in cents: 2^52 - 1.
pub const LARGEST_SUM: u64 = 4_503_599_627_370_495;

/// The longest name or title's text, in bytes.
pub const LONGEST_NAME: usize = 120;

/// The length of the shortest card key or desk key.
pub const SHORTEST_CARD_KEY: usize = 8;

/// The length of the longest card key or desk key.
pub const LONGEST_CARD_KEY: usize = 32;

/// The length of the longest request key from outside.
pub const LONGEST_KEY: usize = 40;

/// The length of the longest clerk's name.
pub const LONGEST_CLERK_NAME: usize = 16;

/// The length of the longest barcode.
pub const LONGEST_BARCODE: usize = 24;

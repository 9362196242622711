//! The numbers of loans, holds and lines.

ghost use Rattle.std.specs.Prelude.{◌≡◌, ◌+◌, ◌<◌, ◌≤◌, ℕ, nat_lt, length, slice_index_or};
ghost use Rattle.std.specs.Prelude.{MatchOption, option_map, slice_get};
ghost use Rattle.terms.specs.Orders.{Rise};
ghost use Rattle.circ_audit.specs.Numbers.{begins_with_zero, next_of, IsPlaceOf, IsBeforeGap};
ghost use Rattle.circ_audit.specs.Numbers.{IsGiven, IsNumbered, place_of_series};
ghost use Rattle.circ_audit.specs.Sound.{FailsFirst};
ghost use Rattle.circ_audit.specs.Spans.{FailsAfter};

use crate::rows::Numbered;
use terms::{Rows, Tables};

/// A table whose rows are numbered as they are made, in the order of the audit.
#[derive(Clone, Copy, Debug, PartialEq, Eq)]
pub enum Series {
    /// `loans3`.
    Loans,
    /// `holds2`.
    Holds,
    /// `lines`.
    Lines,
}

impl Series {
    /// Returns the next one in the order of the audit.
    pub(crate) fn next(self) -> Option<Series>
        ensures { MatchOption result (place_of_series self ≡ 2)
            (λ next. place_of_series next ≡ place_of_series self + 1) }
    {
        match self {
            Series::Loans => Some(Series::Holds),
            Series::Holds => Some(Series::Lines),
            Series::Lines => None,
        }
    }
}

/// Returns whether the first row has number 0, which is never given.
fn begins_with_zero<R: Numbered>(rows: &[R]) -> bool
    ensures { result ≡ begins_with_zero R.last_of rows.now }
{
    match rows.first() {
        Some(row) => row.last() == 0,
        None => false,
    }
}

/// Returns the least number from 1 on after the other.
fn next_of(after: Option<u32>) -> u64
    ensures { result ≡ next_of after }
{
    match after {
        Some(number) => u64::from(number) + 1,
        None => 1,
    }
}

/// Returns the place of the first row with a number from this one on.
fn place_of<R: Numbered>(rows: &Rows<R>, from: u64) -> usize
    ensures { IsPlaceOf R.last_of rows.now from result }
{
    let before = |row: &R| -> bool
        ensures { result ≡ nat_lt (R.last_of row.now) from }
    { u64::from(row.last()) < from };
    rows.as_slice().partition_point(before)
}

/// Counts the rows before the first gap: those numbered from this number on, one by one.
fn before_gap<R: Numbered>(rows: &[R], from: u64) -> usize
    ensures { IsBeforeGap R.last_of from rows.now result }
{
    for (place, row) in rows.iter().enumerate() {
        if u64::from(row.last()) != from.saturating_add(place as u64) {
            return place;
        }
    }
    rows.len()
}

/// Returns the number of a row, if there is one.
fn number_at<R: Numbered>(rows: &[R], place: usize) -> Option<u32>
    ensures { result ≡ option_map R.last_of (slice_get rows.now place) }
{
    match rows.get(place) {
        Some(row) => Some(row.last()),
        None => None,
    }
}

/// Returns the least number from this one on that is below the next one and has no row, or else
/// that isn't and has one. The rows are those from this number on.
fn first_misgiven_in<R: Numbered>(rows: &[R], next: u32, from: u64) -> Option<u32>
    requires rise { Rise R.last_of rows.now }
    requires above { (k : ℕ) (d : R) → k < length rows.now
        → from ≤ R.last_of (slice_index_or rows.now k d) }
    requires positive { 1 ≤ from }
    ensures { FailsFirst (λ n. from ≤ n → IsGiven R.last_of next rows.now n) result }
{
    let given = u64::from(next).saturating_sub(from) as usize;
    let found = before_gap(rows, from);
    if found < given {
        return Some((from + found as u64) as u32);
    }
    number_at(rows, given)
}

/// Returns the least number after the other that is below the next one and has no row, or else that
/// isn't and has one.
fn first_misgiven<R: Numbered>(rows: &Rows<R>, next: u32, after: Option<u32>) -> Option<u32>
    ensures { FailsAfter after (IsGiven R.last_of next rows.now) result }
{
    if after.is_none() && begins_with_zero(rows.as_slice()) {
        return Some(0);
    }
    let from = next_of(after);
    let place = place_of(rows, from);
    first_misgiven_in(&rows.as_slice()[place..], next, from)
}

/// Returns the least misnumbered row of a series after the other, or the least number that lacks
/// its row.
pub fn first_in(tables: &Tables, series: Series, after: Option<u32>) -> Option<u32>
    ensures { FailsAfter after (IsNumbered tables.now series) result }
{
    match series {
        Series::Loans => first_misgiven(&tables.loans, tables.meta.next_loan.number(), after),
        Series::Holds => first_misgiven(&tables.holds, tables.meta.next_hold.number(), after),
        Series::Lines => first_misgiven(&tables.lines, tables.meta.next_line.number(), after),
    }
}

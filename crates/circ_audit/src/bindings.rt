//! Bindings between holds and copies.

ghost use Rattle.std.specs.Prelude.{◌≡◌};
ghost use Rattle.circ_audit.specs.Rows.{copy_row, hold_row, is_copy_of, is_fit, serves};
ghost use Rattle.circ_audit.specs.Spans.{first_after, first_named, earlier_of, is_passed};
ghost use Rattle.circ_audit.specs.Spans.{FailsAfter};
ghost use Rattle.circ_audit.specs.Sound.{IsServedOnce, IsRightlyBound, IsFit, IsServed};

use crate::counters::{Names, SpanCounters};
use crate::rows::{is_ready, is_waiting};
use crate::spans::{Law, SpanLook, first_broken, is_after, lesser};
use terms::{CopyId, CopyRow, HoldId, HoldRow, Rows, Tables, TitleId, TransitRow};

/// Finds the row of a copy.
fn copy_row(copies: &Rows<CopyRow>, copy: CopyId) -> Option<CopyRow>
    ensures { result ≡ copy_row copies.now copy }
{
    let rows = copies.as_slice();
    match rows.binary_search_by_key(&copy.number(), |row| row.copy.number()) {
        Ok(place) => Some(rows[place]),
        Err(_) => None,
    }
}

/// Finds the row of a hold.
fn hold_row(holds: &Rows<HoldRow>, hold: HoldId) -> Option<HoldRow>
    ensures { result ≡ hold_row holds.now hold }
{
    let rows = holds.as_slice();
    match rows.binary_search_by_key(&hold.number(), |row| row.hold.number()) {
        Ok(place) => Some(rows[place]),
        Err(_) => None,
    }
}

/// Returns whether a copy is named and its row has the title.
fn is_copy_of(copies: &Rows<CopyRow>, copy: Option<CopyId>, title: TitleId) -> bool
    ensures { result ≡ is_copy_of copies.now copy title }
{
    let Some(copy) = copy else {
        return false;
    };
    match copy_row(copies, copy) {
        Some(row) => row.title.number() == title.number(),
        None => false,
    }
}

/// Returns whether the row names a shelf limit and a copy of its title if the hold is ready, and
/// neither otherwise.
fn is_fit(copies: &Rows<CopyRow>, row: &HoldRow) -> bool
    ensures { result ≡ is_fit copies.now row.now }
{
    if is_ready(row.state) {
        row.limit_day.is_some() && is_copy_of(copies, row.copy, row.title)
    } else {
        row.copy.is_none() && row.limit_day.is_none()
    }
}

/// Returns whether the transit serves the hold: it waits, the destination is its pick-up branch,
/// and the copy has its title.
fn serves(copies: &Rows<CopyRow>, row: &TransitRow, hold: Option<HoldRow>) -> bool
    ensures { result ≡ serves copies.now row.now hold }
{
    let Some(hold) = hold else {
        return false;
    };
    is_waiting(hold.state)
        && hold.branch.number() == row.goal.number()
        && is_copy_of(copies, Some(row.copy), hold.title)
}

/// Returns the least hold that comes after the other and whose row doesn't fit its state, with one
/// more row.
fn unfit_with(tables: &Tables, row: &HoldRow, after: Option<u32>, first: Option<u32>) -> Option<u32>
    ensures { result ≡ first_after
        (is_passed after row.now.hold (is_fit tables.now.copies row.now)) row.now.hold first }
{
    if is_fit(&tables.copies, row) || !is_after(row.hold.number(), after) {
        first
    } else {
        lesser(first, row.hold.number())
    }
}

/// Returns the least hold that comes after the other and whose row doesn't fit its state.
fn first_unfit(tables: &Tables, after: Option<u32>) -> Option<u32>
    ensures { FailsAfter after (IsFit tables.now) result }
{
    let mut first = None;
    for row in tables.holds.as_slice() {
        first = unfit_with(tables, row, after, first);
    }
    first
}

/// Returns the least hold that comes after the other and that a transit names without serving it,
/// with one more row.
fn unserved_with(
    tables: &Tables,
    row: &TransitRow,
    after: Option<u32>,
    first: Option<u32>,
) -> Option<u32>
    ensures { result ≡ first_named
        (λ h. is_passed after h (serves tables.now.copies row.now (hold_row tables.now.holds h)))
        row.now.hold first }
{
    let Some(hold) = row.hold else {
        return first;
    };
    let found = hold_row(&tables.holds, hold);
    if serves(&tables.copies, row, found) || !is_after(hold.number(), after) {
        first
    } else {
        lesser(first, hold.number())
    }
}

/// Returns the least hold that comes after the other and that a transit names without serving it.
fn first_unserved(tables: &Tables, after: Option<u32>) -> Option<u32>
    ensures { FailsAfter after (IsServed tables.now) result }
{
    let mut first = None;
    for row in tables.transits.as_slice() {
        first = unserved_with(tables, row, after, first);
    }
    first
}

/// A transit names its hold.
impl Names<HoldId> for TransitRow {
    ghost named = { λ r. r.hold };

    fn named(&self) -> Option<u32> {
        self.hold.map(HoldId::number)
    }
}

/// At most one transit names each hold.
struct ServedOnce;

impl Law for ServedOnce {
    ghost keeps = { IsServedOnce };

    fn look(tables: &Tables, span: u16, after: Option<u32>) -> SpanLook {
        let mut counters = SpanCounters::new(span);
        counters.tally::<HoldId, TransitRow>(tables.transits.as_slice());
        counters.look(after)
    }
}

/// Returns the lesser of two optional numbers.
fn earlier(first: Option<u32>, other: Option<u32>) -> Option<u32>
    ensures { result ≡ earlier_of first other }
{
    match other {
        Some(number) => lesser(first, number),
        None => first,
    }
}

/// Returns the least hold that comes after the other and isn't correctly bound.
pub fn first_unbound(tables: &Tables, after: Option<u32>) -> Option<u32>
    ensures { FailsAfter after (IsRightlyBound tables.now) result }
{
    let alone = earlier(first_unfit(tables, after), first_unserved(tables, after));
    earlier(alone, first_broken::<ServedOnce>(tables, after))
}

//! The order of the rows in each table.

ghost use Rattle.std.specs.Prelude.{◌≡◌, ◌↔◌, ◌<◌, IsTrue};
ghost use Rattle.terms.specs.Callers.{owner_number};
ghost use Rattle.terms.specs.Orders.{IsPairBefore, IsKeptBefore};
ghost use Rattle.terms.specs.Orders.{rise-on, pair-on, kept-on};
ghost use Rattle.terms.specs.Things.{thing_sort, thing_number};

use crate::command::Owner;
use crate::row::{
    BarcodeRow, BranchRow, ClosedDayRow, CopyRow, HoldRow, HoldRow1, KeptRow, KindRow, LineRow,
    LoanRow, LoanRow1, NoteRow, PatronRow, RuleRow, TitleRow, TransitRow,
};

/// Rows of a table, ordered by key.
pub trait Ordered: Drop {
    ghost use Rattle.std.specs.Prelude.{◌↔◌, IsTrue};

    ghost comes_before: { Self → Self → Type 0 };

    /// Returns whether the row comes before another.
    fn comes_before(&self, other: &Self) -> bool
        ensures { IsTrue result ↔ comes_before self.now other.now };

    ghost goes_on: { (r s t : Self) → comes_before r s → comes_before s t → comes_before r t };
}

/// Returns 0 for the desk, else the patron's number.
pub fn owner_number(owner: Owner) -> u32
    ensures { result ≡ owner_number owner }
{
    match owner {
        Owner::Desk => 0,
        Owner::Patron(patron) => patron.number(),
    }
}

/// Returns whether a pair of numbers comes before another.
fn is_pair_before(a: u32, b: u32, next_a: u32, next_b: u32) -> bool
    ensures { IsTrue result ↔ IsPairBefore (a, b) (next_a, next_b) }
{
    a < next_a || (a == next_a && b < next_b)
}

/// Branches are ordered by number.
impl Ordered for BranchRow {
    ghost comes_before = { λ r s. r.branch < s.branch };

    fn comes_before(&self, other: &BranchRow) -> bool {
        self.branch.number() < other.branch.number()
    }

    ghost goes_on = { rise-on (λ r. r.branch) };
}

/// Kinds of patrons are ordered by number.
impl Ordered for KindRow {
    ghost comes_before = { λ r s. r.kind < s.kind };

    fn comes_before(&self, other: &KindRow) -> bool {
        self.kind.number() < other.kind.number()
    }

    ghost goes_on = { rise-on (λ r. r.kind) };
}

/// Patrons are ordered by number.
impl Ordered for PatronRow {
    ghost comes_before = { λ r s. r.patron < s.patron };

    fn comes_before(&self, other: &PatronRow) -> bool {
        self.patron.number() < other.patron.number()
    }

    ghost goes_on = { rise-on (λ r. r.patron) };
}

/// Titles are ordered by number.
impl Ordered for TitleRow {
    ghost comes_before = { λ r s. r.title < s.title };

    fn comes_before(&self, other: &TitleRow) -> bool {
        self.title.number() < other.title.number()
    }

    ghost goes_on = { rise-on (λ r. r.title) };
}

/// Copies are ordered by number.
impl Ordered for CopyRow {
    ghost comes_before = { λ r s. r.copy < s.copy };

    fn comes_before(&self, other: &CopyRow) -> bool {
        self.copy.number() < other.copy.number()
    }

    ghost goes_on = { rise-on (λ r. r.copy) };
}

/// Loans are ordered by number.
impl Ordered for LoanRow {
    ghost comes_before = { λ r s. r.loan < s.loan };

    fn comes_before(&self, other: &LoanRow) -> bool {
        self.loan.number() < other.loan.number()
    }

    ghost goes_on = { rise-on (λ r. r.loan) };
}

/// Loans of schemas 1 and 2 are ordered by number.
impl Ordered for LoanRow1 {
    ghost comes_before = { λ r s. r.loan < s.loan };

    fn comes_before(&self, other: &LoanRow1) -> bool {
        self.loan.number() < other.loan.number()
    }

    ghost goes_on = { rise-on (λ r. r.loan) };
}

/// Holds are ordered by number.
impl Ordered for HoldRow {
    ghost comes_before = { λ r s. r.hold < s.hold };

    fn comes_before(&self, other: &HoldRow) -> bool {
        self.hold.number() < other.hold.number()
    }

    ghost goes_on = { rise-on (λ r. r.hold) };
}

/// Holds of schema 1 are ordered by number.
impl Ordered for HoldRow1 {
    ghost comes_before = { λ r s. r.hold < s.hold };

    fn comes_before(&self, other: &HoldRow1) -> bool {
        self.hold.number() < other.hold.number()
    }

    ghost goes_on = { rise-on (λ r. r.hold) };
}

/// Transits are ordered by copy number.
impl Ordered for TransitRow {
    ghost comes_before = { λ r s. r.copy < s.copy };

    fn comes_before(&self, other: &TransitRow) -> bool {
        self.copy.number() < other.copy.number()
    }

    ghost goes_on = { rise-on (λ r. r.copy) };
}

/// Lines are ordered by number.
impl Ordered for LineRow {
    ghost comes_before = { λ r s. r.line < s.line };

    fn comes_before(&self, other: &LineRow) -> bool {
        self.line.number() < other.line.number()
    }

    ghost goes_on = { rise-on (λ r. r.line) };
}

/// Circulation rules are ordered by kind of patron, then by kind of copy.
impl Ordered for RuleRow {
    ghost comes_before = { λ r s. IsPairBefore (r.kind, r.copy_kind) (s.kind, s.copy_kind) };

    fn comes_before(&self, other: &RuleRow) -> bool {
        is_pair_before(
            self.kind.number(),
            self.copy_kind.number(),
            other.kind.number(),
            other.copy_kind.number(),
        )
    }

    ghost goes_on = { pair-on (λ r. (r.kind, r.copy_kind)) };
}

/// Closed days are ordered by branch, then by day.
impl Ordered for ClosedDayRow {
    ghost comes_before = { λ r s. IsPairBefore (r.branch, r.day) (s.branch, s.day) };

    fn comes_before(&self, other: &ClosedDayRow) -> bool {
        is_pair_before(
            self.branch.number(),
            self.day.number(),
            other.branch.number(),
            other.day.number(),
        )
    }

    ghost goes_on = { pair-on (λ r. (r.branch, r.day)) };
}

/// Kept requests are ordered by owner, the desk first, then by key, bytewise.
impl Ordered for KeptRow {
    ghost comes_before = { IsKeptBefore };

    fn comes_before(&self, other: &KeptRow) -> bool {
        let number = owner_number(self.caller);
        let other_number = owner_number(other.caller);
        let is_next_key = self.key.as_str() < other.key.as_str();
        number < other_number || (self.caller == other.caller && is_next_key)
    }

    ghost goes_on = { kept-on };
}

/// Barcodes are ordered by the sort of their thing, then by its number.
impl Ordered for BarcodeRow {
    ghost comes_before = { λ r s. IsPairBefore (thing_sort r.thing, thing_number r.thing)
        (thing_sort s.thing, thing_number s.thing) };

    fn comes_before(&self, other: &BarcodeRow) -> bool {
        is_pair_before(
            self.thing.sort_number(),
            self.thing.number(),
            other.thing.sort_number(),
            other.thing.number(),
        )
    }

    ghost goes_on = { pair-on (λ r. (thing_sort r.thing, thing_number r.thing)) };
}

/// Notes are ordered by line.
impl Ordered for NoteRow {
    ghost comes_before = { λ r s. r.line < s.line };

    fn comes_before(&self, other: &NoteRow) -> bool {
        self.line.number() < other.line.number()
    }

    ghost goes_on = { rise-on (λ r. r.line) };
}

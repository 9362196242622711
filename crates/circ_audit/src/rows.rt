//! Facts of single rows.

ghost use Rattle.std.specs.Prelude.{◌≡◌};
ghost use Rattle.circ_audit.specs.Rows.{is_present, is_ready, is_waiting, is_charge};

use terms::{
    BarcodeRow, BranchRow, ClosedDayRow, Condition, CopyRow, HoldRow, HoldState, KeptRow, KindRow,
    LineRow, LoanRow, NoteRow, Ordered, PatronRow, RuleRow, Sort, TitleRow, TransitRow,
    owner_number,
};

/// Rows with numbers in their keys.
pub trait Keyed {
    ghost use Rattle.std.specs.Prelude.{ℕ};

    ghost last_of: { Self → ℕ };

    /// Returns the last number of the row's key.
    fn last(&self) -> u32
        ensures { result ≡ last_of self.now };
}

/// Rows ordered by one number, their key.
pub trait Numbered: Keyed + Ordered {
    ghost use Rattle.std.specs.Prelude.{◌<◌};

    ghost by_number: { (r s : Self) → Self.comes_before r s → Self.last_of r < Self.last_of s };
}

/// Returns whether the copy is in the library's keeping.
pub fn is_present(condition: Condition) -> bool
    ensures { result ≡ is_present condition }
{
    matches!(condition, Condition::Present)
}

/// Returns whether the hold is ready.
pub fn is_ready(state: HoldState) -> bool
    ensures { result ≡ is_ready state }
{
    matches!(state, HoldState::Ready)
}

/// Returns whether the hold waits.
pub fn is_waiting(state: HoldState) -> bool
    ensures { result ≡ is_waiting state }
{
    matches!(state, HoldState::Waiting)
}

/// Returns whether lines of the sort add to what is owed: fines, prices and charges.
pub fn is_charge(sort: Sort) -> bool
    ensures { result ≡ is_charge sort }
{
    matches!(sort, Sort::Fine | Sort::Price | Sort::Charge)
}

/// Branches are numbered.
impl Keyed for BranchRow {
    ghost last_of = { λ r. r.branch };

    fn last(&self) -> u32 {
        self.branch.number()
    }
}

impl Numbered for BranchRow {
    ghost by_number = { λ r s less. less };
}

/// Kinds of patrons are numbered.
impl Keyed for KindRow {
    ghost last_of = { λ r. r.kind };

    fn last(&self) -> u32 {
        self.kind.number()
    }
}

impl Numbered for KindRow {
    ghost by_number = { λ r s less. less };
}

/// Patrons are numbered.
impl Keyed for PatronRow {
    ghost last_of = { λ r. r.patron };

    fn last(&self) -> u32 {
        self.patron.number()
    }
}

impl Numbered for PatronRow {
    ghost by_number = { λ r s less. less };
}

/// Titles are numbered.
impl Keyed for TitleRow {
    ghost last_of = { λ r. r.title };

    fn last(&self) -> u32 {
        self.title.number()
    }
}

impl Numbered for TitleRow {
    ghost by_number = { λ r s less. less };
}

/// Copies are numbered.
impl Keyed for CopyRow {
    ghost last_of = { λ r. r.copy };

    fn last(&self) -> u32 {
        self.copy.number()
    }
}

impl Numbered for CopyRow {
    ghost by_number = { λ r s less. less };
}

/// Loans are numbered.
impl Keyed for LoanRow {
    ghost last_of = { λ r. r.loan };

    fn last(&self) -> u32 {
        self.loan.number()
    }
}

impl Numbered for LoanRow {
    ghost by_number = { λ r s less. less };
}

/// Holds are numbered.
impl Keyed for HoldRow {
    ghost last_of = { λ r. r.hold };

    fn last(&self) -> u32 {
        self.hold.number()
    }
}

impl Numbered for HoldRow {
    ghost by_number = { λ r s less. less };
}

/// Lines are numbered.
impl Keyed for LineRow {
    ghost last_of = { λ r. r.line };

    fn last(&self) -> u32 {
        self.line.number()
    }
}

impl Numbered for LineRow {
    ghost by_number = { λ r s less. less };
}

/// Notes are numbered by their lines.
impl Keyed for NoteRow {
    ghost last_of = { λ r. r.line };

    fn last(&self) -> u32 {
        self.line.number()
    }
}

/// Transits are numbered by their copies.
impl Keyed for TransitRow {
    ghost last_of = { λ r. r.copy };

    fn last(&self) -> u32 {
        self.copy.number()
    }
}

/// Single closed days are keyed by branch and day.
impl Keyed for ClosedDayRow {
    ghost last_of = { λ r. r.day };

    fn last(&self) -> u32 {
        self.day.number()
    }
}

/// Circulation rules are keyed by kind of patron and kind of copy.
impl Keyed for RuleRow {
    ghost last_of = { λ r. r.copy_kind };

    fn last(&self) -> u32 {
        self.copy_kind.number()
    }
}

/// Kept requests are keyed by caller and by key. Only the caller is a number: 0 for the desk, else
/// the patron's.
impl Keyed for KeptRow {
    ghost use Rattle.terms.specs.Callers.{owner_number};

    ghost last_of = { λ r. owner_number r.caller };

    fn last(&self) -> u32 {
        owner_number(self.caller)
    }
}

/// Barcodes are keyed by sort and number of what they are on.
impl Keyed for BarcodeRow {
    ghost use Rattle.terms.specs.Things.{thing_number};

    ghost last_of = { λ r. thing_number r.thing };

    fn last(&self) -> u32 {
        self.thing.number()
    }
}

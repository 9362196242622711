//! References from rows to rows of other tables.

ghost use Rattle.std.specs.Prelude.{◌≡◌, ◌+◌, MatchOption};
ghost use Rattle.circ_audit.specs.References.{has, has_named, has_branch, has_kind, has_patron};
ghost use Rattle.circ_audit.specs.References.{has_title, has_copy, has_thing, has_caller};
ghost use Rattle.circ_audit.specs.References.{closed_day_refers, rule_refers, patron_refers};
ghost use Rattle.circ_audit.specs.References.{copy_refers, loan_refers, hold_refers};
ghost use Rattle.circ_audit.specs.References.{transit_refers, line_refers, kept_refers};
ghost use Rattle.circ_audit.specs.References.{barcode_refers, note_refers};
ghost use Rattle.circ_audit.specs.References.{ArePassed, IsReferred, place_of_table};
ghost use Rattle.circ_audit.specs.Spans.{first_after, is_passed, FailsAfter};

use crate::rows::{Keyed, Numbered};
use crate::spans::{is_after, lesser};
use terms::{
    BarcodeRow, BranchId, ClosedDayRow, CopyId, CopyRow, HoldId, HoldRow, KeptRow, LineRow, LoanId,
    LoanRow, NoteRow, Owner, PatronId, PatronKind, PatronRow, Rows, RuleRow, Tables, Thing,
    TitleId, TransitRow,
};

/// A table whose rows name rows of others, in the order of the audit.
#[derive(Clone, Copy, Debug, PartialEq, Eq)]
pub enum Table {
    /// `closed_days`, by day.
    ClosedDays,
    /// `rules3`, by kind of copy.
    Rules,
    /// `patrons`.
    Patrons,
    /// `copies`.
    Copies,
    /// `loans3`.
    Loans,
    /// `holds2`.
    Holds,
    /// `transits`, by copy.
    Transits,
    /// `lines`.
    Lines,
    /// `kept`, by caller.
    Kept,
    /// `barcodes`, by patron or copy.
    Barcodes,
    /// `notes`, by line.
    Notes,
}

impl Table {
    /// Returns the next table in the order of the audit.
    pub(crate) fn next(self) -> Option<Table>
        ensures { MatchOption result (place_of_table self ≡ 10)
            (λ next. place_of_table next ≡ place_of_table self + 1) }
    {
        match self {
            Table::ClosedDays => Some(Table::Rules),
            Table::Rules => Some(Table::Patrons),
            Table::Patrons => Some(Table::Copies),
            Table::Copies => Some(Table::Loans),
            Table::Loans => Some(Table::Holds),
            Table::Holds => Some(Table::Transits),
            Table::Transits => Some(Table::Lines),
            Table::Lines => Some(Table::Kept),
            Table::Kept => Some(Table::Barcodes),
            Table::Barcodes => Some(Table::Notes),
            Table::Notes => None,
        }
    }
}

/// Returns whether a row has the number.
pub fn has<R: Numbered>(rows: &Rows<R>, number: u32) -> bool
    ensures { result ≡ has R.last_of rows.now number }
{
    let rows = rows.as_slice();
    rows.binary_search_by_key(&number, |row| row.last()).is_ok()
}

/// Returns whether a row has the number, if one is named.
fn has_named<R: Numbered>(rows: &Rows<R>, number: Option<u32>) -> bool
    ensures { result ≡ has_named R.last_of rows.now number }
{
    match number {
        Some(number) => has(rows, number),
        None => true,
    }
}

/// Returns whether the branch exists.
fn has_branch(tables: &Tables, branch: BranchId) -> bool
    ensures { result ≡ has_branch tables.now branch }
{
    has(&tables.branches, branch.number())
}

/// Returns whether the kind of patrons exists.
fn has_kind(tables: &Tables, kind: PatronKind) -> bool
    ensures { result ≡ has_kind tables.now kind }
{
    has(&tables.kinds, kind.number())
}

/// Returns whether the patron exists.
fn has_patron(tables: &Tables, patron: PatronId) -> bool
    ensures { result ≡ has_patron tables.now patron }
{
    has(&tables.patrons, patron.number())
}

/// Returns whether the title exists.
fn has_title(tables: &Tables, title: TitleId) -> bool
    ensures { result ≡ has_title tables.now title }
{
    has(&tables.titles, title.number())
}

/// Returns whether the copy exists.
fn has_copy(tables: &Tables, copy: CopyId) -> bool
    ensures { result ≡ has_copy tables.now copy }
{
    has(&tables.copies, copy.number())
}

/// Returns whether the patron or the copy exists.
fn has_thing(tables: &Tables, thing: Thing) -> bool
    ensures { result ≡ has_thing tables.now thing }
{
    match thing {
        Thing::Patron(patron) => has_patron(tables, patron),
        Thing::Copy(copy) => has_copy(tables, copy),
    }
}

/// Returns whether the caller exists, as the desk always does.
fn has_caller(tables: &Tables, caller: Owner) -> bool
    ensures { result ≡ has_caller tables.now caller }
{
    match caller {
        Owner::Desk => true,
        Owner::Patron(patron) => has_patron(tables, patron),
    }
}

/// Rows that name rows of other tables.
trait Refers: Keyed {
    ghost use Rattle.std.specs.Prelude.{Bool};
    ghost use Rattle.terms.specs.declared.tables.Tables.{Tables};

    ghost refers: { Tables → Self → Bool };

    /// Returns whether each row that this one names exists.
    fn refers(&self, tables: &Tables) -> bool
        ensures { result ≡ refers tables.now self.now };
}

/// The branch of a single closed day.
impl Refers for ClosedDayRow {
    ghost refers = { closed_day_refers };

    fn refers(&self, tables: &Tables) -> bool {
        has_branch(tables, self.branch)
    }
}

/// The kind of patrons of a circulation rule.
impl Refers for RuleRow {
    ghost refers = { rule_refers };

    fn refers(&self, tables: &Tables) -> bool {
        has_kind(tables, self.kind)
    }
}

/// The kind of a patron.
impl Refers for PatronRow {
    ghost refers = { patron_refers };

    fn refers(&self, tables: &Tables) -> bool {
        has_kind(tables, self.kind)
    }
}

/// The title and the home of a copy.
impl Refers for CopyRow {
    ghost refers = { copy_refers };

    fn refers(&self, tables: &Tables) -> bool {
        has_title(tables, self.title) && has_branch(tables, self.home)
    }
}

/// The copy, the patron and the branch of a loan.
impl Refers for LoanRow {
    ghost refers = { loan_refers };

    fn refers(&self, tables: &Tables) -> bool {
        has_copy(tables, self.copy)
            && has_patron(tables, self.patron)
            && has_branch(tables, self.branch)
    }
}

/// The patron, the title, the pick-up branch and the copy, if any, of a hold.
impl Refers for HoldRow {
    ghost refers = { hold_refers };

    fn refers(&self, tables: &Tables) -> bool {
        has_patron(tables, self.patron)
            && has_title(tables, self.title)
            && has_branch(tables, self.branch)
            && has_named(&tables.copies, self.copy.map(CopyId::number))
    }
}

/// The copy, the goal and the hold, if any, of a transit.
impl Refers for TransitRow {
    ghost refers = { transit_refers };

    fn refers(&self, tables: &Tables) -> bool {
        has_copy(tables, self.copy)
            && has_branch(tables, self.goal)
            && has_named(&tables.holds, self.hold.map(HoldId::number))
    }
}

/// The patron and the loan, if any, of a line.
impl Refers for LineRow {
    ghost refers = { line_refers };

    fn refers(&self, tables: &Tables) -> bool {
        has_patron(tables, self.patron) && has_named(&tables.loans, self.loan.map(LoanId::number))
    }
}

/// The patron who sent a kept request, unless the desk did.
impl Refers for KeptRow {
    ghost refers = { kept_refers };

    fn refers(&self, tables: &Tables) -> bool {
        has_caller(tables, self.caller)
    }
}

/// The patron or the copy of a barcode.
impl Refers for BarcodeRow {
    ghost refers = { barcode_refers };

    fn refers(&self, tables: &Tables) -> bool {
        has_thing(tables, self.thing)
    }
}

/// The line and the branch of a note.
impl Refers for NoteRow {
    ghost refers = { note_refers };

    fn refers(&self, tables: &Tables) -> bool {
        has(&tables.lines, self.line.number()) && has_branch(tables, self.branch)
    }
}

/// Returns the least last number of a key after the other whose row names a missing one, with one
/// more row.
fn unreferred_with<R: Refers>(
    tables: &Tables,
    row: &R,
    after: Option<u32>,
    first: Option<u32>,
) -> Option<u32>
    ensures { result ≡ first_after
        (is_passed after (R.last_of row.now) (R.refers tables.now row.now))
        (R.last_of row.now) first }
{
    if row.refers(tables) || !is_after(row.last(), after) {
        first
    } else {
        lesser(first, row.last())
    }
}

/// Returns the least last number of a key after the other whose row names a missing one.
fn first_unreferred<R: Refers>(tables: &Tables, rows: &[R], after: Option<u32>) -> Option<u32>
    ensures { FailsAfter after (ArePassed R.last_of (R.refers tables.now) rows.now) result }
{
    let mut first = None;
    for row in rows {
        first = unreferred_with(tables, row, after, first);
    }
    first
}

/// Returns the least last number of a key after the other whose row in this table names a missing
/// one.
pub fn first_of(tables: &Tables, table: Table, after: Option<u32>) -> Option<u32>
    ensures { FailsAfter after (IsReferred tables.now table) result }
{
    match table {
        Table::ClosedDays => first_unreferred(tables, tables.closed_days.as_slice(), after),
        Table::Rules => first_unreferred(tables, tables.rules.as_slice(), after),
        Table::Patrons => first_unreferred(tables, tables.patrons.as_slice(), after),
        Table::Copies => first_unreferred(tables, tables.copies.as_slice(), after),
        Table::Loans => first_unreferred(tables, tables.loans.as_slice(), after),
        Table::Holds => first_unreferred(tables, tables.holds.as_slice(), after),
        Table::Transits => first_unreferred(tables, tables.transits.as_slice(), after),
        Table::Lines => first_unreferred(tables, tables.lines.as_slice(), after),
        Table::Kept => first_unreferred(tables, tables.kept.as_slice(), after),
        Table::Barcodes => first_unreferred(tables, tables.barcodes.as_slice(), after),
        Table::Notes => first_unreferred(tables, tables.notes.as_slice(), after),
    }
}

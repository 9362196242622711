//! The rows of the tables, as read.

ghost use Rattle.std.specs.Prelude.{◌≡◌};
ghost use Rattle.terms.specs.Things.{thing_sort, thing_number};

use crate::command::Owner;
use crate::number::{
    BranchId, Cents, CopyId, CopyKind, Count, Days, HoldId, LineId, LoanId, PatronId, PatronKind,
    TitleId,
};
use crate::text::{Barcode, CardKey, Key, Name, Text};
use calendar::{Day, Weekdays};

/// The one row of `meta`: the schema, today, and the next numbers.
#[derive(Clone, Copy, Debug, PartialEq, Eq)]
pub struct MetaRow {
    pub schema: u32,
    pub today: Day,
    pub next_loan: LoanId,
    pub next_hold: HoldId,
    pub next_line: LineId,
}

/// A row of `branches`.
#[derive(Drop)]
pub struct BranchRow {
    pub branch: BranchId,
    pub pickup: Days,
    pub week: Weekdays,
    pub name: Name,
}

/// A row of `closed_days`: the branch is closed on that single day.
#[derive(Clone, Copy, Debug, PartialEq, Eq)]
pub struct ClosedDayRow {
    pub branch: BranchId,
    pub day: Day,
}

/// A row of `kinds`.
#[derive(Clone, Copy, Debug, PartialEq, Eq)]
pub struct KindRow {
    pub kind: PatronKind,
    pub loans: Count,
    pub holds: Count,
    pub debt: Cents,
}

/// A row of `rules3`.
#[derive(Clone, Copy, Debug, PartialEq, Eq)]
pub struct RuleRow {
    pub kind: PatronKind,
    pub copy_kind: CopyKind,
    pub period: Days,
    pub renewals: Count,
    pub rate: Cents,
    pub cap: Cents,
    pub grace: Days,
}

/// A row of `rules`: a rule in schema 1 or 2. Schema 3 has none.
#[derive(Clone, Copy, Debug, PartialEq, Eq)]
pub struct RuleRow1 {
    pub kind: PatronKind,
    pub copy_kind: CopyKind,
    pub period: Days,
    pub renewals: Count,
    pub rate: Cents,
    pub cap: Cents,
}

/// A row of `patrons`.
#[derive(Drop)]
pub struct PatronRow {
    pub patron: PatronId,
    pub kind: PatronKind,
    pub card_key: CardKey,
    pub name: Name,
    pub owed: Cents,
}

/// A row of `titles`.
#[derive(Drop)]
pub struct TitleRow {
    pub title: TitleId,
    pub text: Name,
}

/// Whether a copy is in the library's keeping: 0 present, 1 missing, 2 withdrawn.
#[derive(Clone, Copy, Debug, PartialEq, Eq)]
pub enum Condition {
    Present,
    Missing,
    Withdrawn,
}

/// A row of `copies`.
#[derive(Clone, Copy, Debug, PartialEq, Eq)]
pub struct CopyRow {
    pub copy: CopyId,
    pub title: TitleId,
    pub kind: CopyKind,
    pub home: BranchId,
    pub price: Cents,
    pub condition: Condition,
}

/// A row of `loans3`. A loan is open until it has an end day.
#[derive(Clone, Copy, Debug, PartialEq, Eq)]
pub struct LoanRow {
    pub loan: LoanId,
    pub copy: CopyId,
    pub patron: PatronId,
    pub branch: BranchId,
    pub made: Day,
    pub due: Day,
    pub period: Days,
    pub renewals_left: Count,
    pub rate: Cents,
    pub cap: Cents,
    pub ended: Option<Day>,
    pub grace: Days,
}

/// A row of `loans`: a loan in schema 1 or 2. Schema 3 has none.
#[derive(Clone, Copy, Debug, PartialEq, Eq)]
pub struct LoanRow1 {
    pub loan: LoanId,
    pub copy: CopyId,
    pub patron: PatronId,
    pub branch: BranchId,
    pub made: Day,
    pub due: Day,
    pub period: Days,
    pub renewals_left: Count,
    pub rate: Cents,
    pub cap: Cents,
    pub ended: Option<Day>,
}

/// The state of a hold: 0 waiting, 1 ready, 2 filled, 3 cancelled, 4 expired. The last three are
/// final.
#[derive(Clone, Copy, Debug, PartialEq, Eq)]
pub enum HoldState {
    Waiting,
    Ready,
    Filled,
    Cancelled,
    Expired,
}

/// A row of `holds2`. It has a copy and a shelf limit only while ready, and then both.
#[derive(Clone, Copy, Debug, PartialEq, Eq)]
pub struct HoldRow {
    pub hold: HoldId,
    pub patron: PatronId,
    pub title: TitleId,
    pub branch: BranchId,
    pub state: HoldState,
    pub copy: Option<CopyId>,
    pub limit_day: Option<Day>,
    pub first_day: Option<Day>,
}

/// A row of `holds`: a hold in schema 1. Later schemas have none.
#[derive(Clone, Copy, Debug, PartialEq, Eq)]
pub struct HoldRow1 {
    pub hold: HoldId,
    pub patron: PatronId,
    pub title: TitleId,
    pub branch: BranchId,
    pub state: HoldState,
    pub copy: Option<CopyId>,
    pub limit_day: Option<Day>,
}

/// A row of `transits`: a copy in transit to a branch, for a hold or for none.
#[derive(Clone, Copy, Debug, PartialEq, Eq)]
pub struct TransitRow {
    pub copy: CopyId,
    pub goal: BranchId,
    pub hold: Option<HoldId>,
}

/// The sort of a line: 0 fine, 1 price, 2 payment, 3 waiver, 4 charge.
#[derive(Clone, Copy, Debug, PartialEq, Eq)]
pub enum Sort {
    Fine,
    Price,
    Payment,
    Waiver,
    Charge,
}

/// A row of `lines`: one line of a patron's account. Fines and prices name their loan.
#[derive(Clone, Copy, Debug, PartialEq, Eq)]
pub struct LineRow {
    pub line: LineId,
    pub patron: PatronId,
    pub day: Day,
    pub sort: Sort,
    pub amount: Cents,
    pub loan: Option<LoanId>,
}

/// A row of `kept`: an accepted request, with its reply.
#[derive(Drop)]
pub struct KeptRow {
    pub caller: Owner,
    pub key: Key,
    pub text: Text,
    pub reply: Text,
}

/// What a barcode is of. Patrons are of sort 0, copies of sort 1.
#[derive(Clone, Copy, Debug, PartialEq, Eq)]
pub enum Thing {
    Patron(PatronId),
    Copy(CopyId),
}

impl Thing {
    /// Returns the number of the thing's sort: 0 for a patron, 1 for a copy.
    pub fn sort_number(self) -> u32
        ensures { result ≡ thing_sort self }
    {
        match self {
            Thing::Patron(_) => 0,
            Thing::Copy(_) => 1,
        }
    }

    /// Returns the number of the patron or the copy.
    pub fn number(self) -> u32
        ensures { result ≡ thing_number self }
    {
        match self {
            Thing::Patron(patron) => patron.number(),
            Thing::Copy(copy) => copy.number(),
        }
    }
}

/// A row of `barcodes`: the barcode of a patron or a copy.
#[derive(Drop)]
pub struct BarcodeRow {
    pub thing: Thing,
    pub barcode: Barcode,
}

/// A row of `notes`: where a charge, or a payment at a counter, was made. A charge alone has a text,
/// what it is for.
#[derive(Drop)]
pub struct NoteRow {
    pub line: LineId,
    pub branch: BranchId,
    pub text: Option<Name>,
}

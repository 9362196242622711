//! The rows that a command needs.

ghost use Rattle.std.specs.Prelude.{◌≡◌};
ghost use Rattle.circ_core.specs.Views.{empty_view};

use calendar::Calendar;
use terms::{
    BranchRow, CopyRow, Count, Day, HoldId, HoldRow, KindRow, LineId, LoanId, LoanRow, MetaRow,
    PatronRow, RuleRow, Thing, TitleRow, TransitRow,
};

/// The rows that a command needs: at most two calendars, twelve rows and three counts, and never a
/// whole queue of holds. Places not needed are as in `View::empty`.
#[derive(Drop)]
pub struct View {
    /// Today and the next numbers.
    pub meta: MetaRow,
    /// The branch that is named: where a copy is lent, returned or acquired, or a hold is picked
    /// up.
    pub branch: Option<BranchRow>,
    /// The calendar of that branch.
    pub calendar: Option<Calendar>,
    /// The kind of patron that is named, or the patron's present kind.
    pub kind: Option<KindRow>,
    /// The rule named by its two kinds, or the one for the patron's kind and the copy's.
    pub rule: Option<RuleRow>,
    /// The patron who is named, or the borrower of the loan.
    pub patron: Option<PatronRow>,
    pub title: Option<TitleRow>,
    /// The copy that is named, or that of the loan or the hold.
    pub copy: Option<CopyRow>,
    /// The loan that is named, or the open loan of the copy.
    pub loan: Option<LoanRow>,
    /// The calendar of the branch that made the loan.
    pub lender: Option<Calendar>,
    /// The transit of the copy, or the one for the hold.
    pub transit: Option<TransitRow>,
    /// The hold that is named, or the one on whose shelf the copy stands.
    pub hold: Option<HoldRow>,
    /// The hold that the copy travels for.
    pub coming: Option<HoldRow>,
    /// The first hold in the queue for the copy's title.
    pub first: Option<HoldRow>,
    /// The copy or the patron that has the barcode that is named.
    pub labelled: Option<Thing>,
    /// The number of the patron's open loans.
    pub open_loans: Count,
    /// The number of the patron's active holds on the title.
    pub own_holds: Count,
    /// The number of the patron's active holds.
    pub active_holds: Count,
}

impl View {
    /// Makes a view without rows, whose numbers are 0 and whose day is the calendar's first.
    pub fn empty() -> View
        ensures { result ≡ empty_view }
    {
        View {
            meta: MetaRow {
                schema: 0,
                today: Day::FIRST,
                next_loan: LoanId::new(0),
                next_hold: HoldId::new(0),
                next_line: LineId::new(0),
            },
            branch: None,
            calendar: None,
            kind: None,
            rule: None,
            patron: None,
            title: None,
            copy: None,
            loan: None,
            lender: None,
            transit: None,
            hold: None,
            coming: None,
            first: None,
            labelled: None,
            open_loans: Count::new(0),
            own_holds: Count::new(0),
            active_holds: Count::new(0),
        }
    }
}

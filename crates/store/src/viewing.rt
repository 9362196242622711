//! The rows that a command needs.

ghost use Rattle.calendar.specs.declared.limits.TheConstants.{MOST_CLOSED_DAYS};
ghost use Rattle.std.specs.Prelude.{◌≡◌, ◌≢◌, ◌≤◌, ℕ, false, List, Err, length, IfOk, IfSome};
ghost use Rattle.std.specs.Prelude.{None, option_and_then};
ghost use Rattle.calendar.specs.Openings.{AreWeekdays, has_day, has_repeat};
ghost use Rattle.circ_core.specs.Views.{IsCalendarOf, IsLenderOf, IsFirstFor, AreHoldsFor};
ghost use Rattle.circ_core.specs.Views.{IsPatronView, IsAcquireView, IsCopyView, IsCheckOutView};
ghost use Rattle.circ_core.specs.Views.{IsClosedDayView, IsAccountView, IsRenewView};
ghost use Rattle.circ_core.specs.Views.{IsPlaceHoldView, IsCancelHoldView, IsBranchView};
ghost use Rattle.circ_core.specs.Views.{IsPickupView, IsCheckInView, IsUnshelveView, IsRehomeView};
ghost use Rattle.circ_core.specs.Views.{IsCounterView, IsCopyBarcodeView, IsPatronBarcodeView};
ghost use Rattle.circ_core.specs.Views.{IsMissingView, IsViewOf, HasOnly, rule_in, kind_in};
ghost use Rattle.circ_core.specs.Views.{borrower_in, named_copy_in, coming_in, IsCount, IsOpenBy};
ghost use Rattle.circ_core.specs.Views.{IsActiveOn, IsActiveBy, IsLoanOfTitle, copy_in};
ghost use Rattle.circ_tables.specs.Reading.{IsSoundIn, Views};
ghost use Rattle.terms.specs.Limits.{InLimits};
ghost use Rattle.terms.specs.declared.command.Command.TheVariants.{CloseDay, Patron, Acquire};
ghost use Rattle.terms.specs.declared.command.Command.TheVariants.{CheckOut, CopyBarcode};
ghost use Rattle.terms.specs.declared.command.Command.TheVariants.{CheckIn, Renew, PlaceHold};
ghost use Rattle.terms.specs.declared.command.Command.TheVariants.{CancelHold, Unshelve, Missing};
ghost use Rattle.terms.specs.declared.command.Command.TheVariants.{Withdraw, Pay, PayAt, Rehome};
ghost use Rattle.terms.specs.declared.command.Command.TheVariants.{PatronBarcode};

use crate::one_row::{
    branch_row_view, copy_row_view, kind_view, labelled, labelled_view, meta_view, page_view,
    rule_view, title_view,
};
use calendar::{Calendar, CloseError, Day, Weekdays};
use circ_core::View;
use circ_tables::{
    closed_days_of, count_active_holds, count_active_holds_on, count_open_loans, first_in_line,
    get_meta, get_row, get_rule, open_loan_of, open_loan_of_title, ready_hold_of, transit_for,
};
use sqlite::{Alter, Connection};
use std::alloc::Global;
use terms::{
    Barcode, BranchId, BranchRow, Command, CopyId, CopyRow, Count, Fault, HoldId, HoldRow, KindRow,
    LoanId, LoanRow, PatronId, PatronKind, PatronRow, RuleRow, TitleId, TitleRow, TransitRow,
};

/// Makes a calendar with these closed weekdays and single closed days. Fault 90; 93 if a day occurs
/// twice or there are more than 400.
fn calendar_with(alloc: Global, week: Weekdays, days: &[Day]) -> Result<Calendar, Fault>
    ensures made { IfOk result (λ c. (c.weekly ≡ week) × AreWeekdays c.weekly
        × ((d : ℕ) → has_day c.single d ≡ has_day days.now d) × (has_repeat c.single ≡ false)) }
    ensures sound { has_repeat days.now ≡ false → length days.now ≤ MOST_CLOSED_DAYS
        → result ≢ Err Fault.Stored }
{
    match Calendar::with_closed_days(alloc, week, days) {
        Ok(calendar) => Ok(calendar),
        Err(CloseError::Memory) => Err(Fault::Memory),
        Err(_) => Err(Fault::Stored),
    }
}

/// Reads the calendar of the branch with this row, if there is one.
fn calendar_from<S: Alter>(
    conn: &mut Connection<S>,
    alloc: Global,
    branch: BranchId,
    row: &Option<BranchRow>,
) -> Result<Option<Calendar>, Fault>
    ensures { Views (λ P calendar. row.now ≡ P.branches branch → IsCalendarOf P branch calendar
        × IfSome calendar (λ c. has_repeat c.single ≡ false)) S.Store conn.old conn.new result }
{
    match row {
        Some(row) => {
            let days = closed_days_of(conn, alloc, branch)?;
            let calendar = calendar_with(alloc, row.week, &days)?;
            Ok(Some(calendar))
        }
        None => Ok(None),
    }
}

/// Reads the calendar of a branch, if it exists.
pub(crate) fn calendar_of<S: Alter>(
    conn: &mut Connection<S>,
    alloc: Global,
    branch: BranchId,
) -> Result<Option<Calendar>, Fault>
    ensures { Views (λ P calendar. IsCalendarOf P branch calendar
        × IfSome calendar (λ c. has_repeat c.single ≡ false)) S.Store conn.old conn.new result }
{
    let row = get_row::<BranchRow, S>(conn, alloc, branch)?;
    let calendar = calendar_from(conn, alloc, branch, &row)?;
    Ok(calendar)
}

/// The branch at which a copy is shelved.
struct Shelf {
    branch: Option<BranchRow>,
    calendar: Option<Calendar>,
}

/// Reads a branch and its calendar.
fn shelf_at<S: Alter>(
    conn: &mut Connection<S>,
    alloc: Global,
    number: BranchId,
) -> Result<Shelf, Fault>
    ensures { Views (λ P it. IsBranchView P number it.branch it.calendar)
        S.Store conn.old conn.new result }
{
    let branch = get_row::<BranchRow, S>(conn, alloc, number)?;
    let calendar = calendar_from(conn, alloc, number, &branch)?;
    Ok(Shelf { branch, calendar })
}

/// Reads the calendar of the loan's branch.
fn lender_calendar<S: Alter>(
    conn: &mut Connection<S>,
    alloc: Global,
    loan: &Option<LoanRow>,
) -> Result<Option<Calendar>, Fault>
    ensures { Views (λ P calendar. IsLenderOf P loan.now calendar)
        S.Store conn.old conn.new result }
{
    match loan {
        Some(row) => calendar_of(conn, alloc, row.branch),
        None => Ok(None),
    }
}

/// Reads a hold's pick-up branch and its calendar.
fn shelf_of<S: Alter>(
    conn: &mut Connection<S>,
    alloc: Global,
    hold: &Option<HoldRow>,
) -> Result<Shelf, Fault>
    ensures { Views (λ P it. IsPickupView P hold.now it.branch it.calendar)
        S.Store conn.old conn.new result }
{
    match hold {
        Some(row) => shelf_at(conn, alloc, row.branch),
        None => Ok(Shelf {
            branch: None,
            calendar: None,
        }),
    }
}

/// Reads a patron's present kind.
fn kind_of<S: Alter>(
    conn: &mut Connection<S>,
    patron: &Option<PatronRow>,
) -> Result<Option<KindRow>, Fault>
    ensures { Views (λ P row. row ≡ kind_in P patron.now) S.Store conn.old conn.new result }
{
    match patron {
        Some(row) => get_row::<KindRow, S>(conn, (), row.kind),
        None => Ok(None),
    }
}

/// Reads the rule for a patron and a copy.
fn rule_for<S: Alter>(
    conn: &mut Connection<S>,
    patron: &Option<PatronRow>,
    copy: &Option<CopyRow>,
) -> Result<Option<RuleRow>, Fault>
    ensures { Views (λ P row. row ≡ rule_in P patron.now copy.now)
        S.Store conn.old conn.new result }
{
    match patron {
        Some(borrower) => match copy {
            Some(row) => get_rule(conn, borrower.kind, row.kind),
            None => Ok(None),
        },
        None => Ok(None),
    }
}

/// Reads the first hold in the queue for a copy's title, if today is this day.
fn first_for<S: Alter>(
    conn: &mut Connection<S>,
    copy: &Option<CopyRow>,
    today: Day,
) -> Result<Option<HoldRow>, Fault>
    ensures { Views (λ P first. today ≡ P.meta.today → IsFirstFor P copy.now first)
        S.Store conn.old conn.new result }
{
    match copy {
        Some(row) => first_in_line(conn, row.title, today),
        None => Ok(None),
    }
}

/// Counts a patron's active holds on a copy's title.
fn holds_for<S: Alter>(
    conn: &mut Connection<S>,
    patron: PatronId,
    copy: &Option<CopyRow>,
) -> Result<Count, Fault>
    ensures { Views (λ P n. AreHoldsFor P patron copy.now n) S.Store conn.old conn.new result }
{
    match copy {
        Some(row) => count_active_holds_on(conn, patron, row.title),
        None => Ok(Count::new(0)),
    }
}

/// Reads the lent copy.
fn lent_copy<S: Alter>(
    conn: &mut Connection<S>,
    loan: &Option<LoanRow>,
) -> Result<Option<CopyRow>, Fault>
    ensures { Views (λ P row. row ≡ copy_in P loan.now) S.Store conn.old conn.new result }
{
    match loan {
        Some(row) => get_row::<CopyRow, S>(conn, (), row.copy),
        None => Ok(None),
    }
}

/// Reads the borrower.
fn borrower_of<S: Alter>(
    conn: &mut Connection<S>,
    alloc: Global,
    loan: &Option<LoanRow>,
) -> Result<Option<PatronRow>, Fault>
    ensures { Views (λ P row. row ≡ borrower_in P loan.now) S.Store conn.old conn.new result }
{
    match loan {
        Some(row) => get_row::<PatronRow, S>(conn, alloc, row.patron),
        None => Ok(None),
    }
}

/// Reads the copy, given a number.
fn copy_if<S: Alter>(
    conn: &mut Connection<S>,
    copy: Option<CopyId>,
) -> Result<Option<CopyRow>, Fault>
    ensures { Views (λ P row. row ≡ option_and_then P.copies copy)
        S.Store conn.old conn.new result }
{
    match copy {
        Some(number) => get_row::<CopyRow, S>(conn, (), number),
        None => Ok(None),
    }
}

/// Reads the hold, given a number.
fn hold_if<S: Alter>(
    conn: &mut Connection<S>,
    hold: Option<HoldId>,
) -> Result<Option<HoldRow>, Fault>
    ensures { Views (λ P row. row ≡ option_and_then P.holds hold) S.Store conn.old conn.new result }
{
    match hold {
        Some(number) => get_row::<HoldRow, S>(conn, (), number),
        None => Ok(None),
    }
}

/// Reads the copy that the hold names.
fn named_copy<S: Alter>(
    conn: &mut Connection<S>,
    hold: &Option<HoldRow>,
) -> Result<Option<CopyRow>, Fault>
    ensures { Views (λ P row. row ≡ named_copy_in P hold.now) S.Store conn.old conn.new result }
{
    match hold {
        Some(row) => copy_if(conn, row.copy),
        None => Ok(None),
    }
}

/// Reads the hold that the copy travels for.
fn coming_hold<S: Alter>(
    conn: &mut Connection<S>,
    transit: &Option<TransitRow>,
) -> Result<Option<HoldRow>, Fault>
    ensures { Views (λ P row. row ≡ coming_in P transit.now) S.Store conn.old conn.new result }
{
    match transit {
        Some(row) => hold_if(conn, row.hold),
        None => Ok(None),
    }
}

/// Reads a copy and the rows that claim it.
pub(crate) fn copy_view<S: Alter>(conn: &mut Connection<S>, number: CopyId) -> Result<View, Fault>
    ensures view { Views (λ P rows. IsCopyView P number rows) S.Store conn.old conn.new result }
    ensures only { IfOk result (HasOnly (Withdraw number)) }
    ensures sound { IsSoundIn InLimits S.Store conn.old conn.new result }
{
    let copy = get_row::<CopyRow, S>(conn, (), number)?;
    let loan = open_loan_of(conn, number)?;
    let transit = get_row::<TransitRow, S>(conn, (), number)?;
    let hold = ready_hold_of(conn, number)?;
    Ok(View {
        copy,
        loan,
        transit,
        hold,
        ..View::empty()
    })
}

/// What the end of a loan needs.
struct LoanEnd {
    lender: Option<Calendar>,
    patron: Option<PatronRow>,
}

/// Reads the calendar of the branch that made the loan, and the borrower.
fn lender_of<S: Alter>(
    conn: &mut Connection<S>,
    alloc: Global,
    loan: &Option<LoanRow>,
) -> Result<LoanEnd, Fault>
    ensures { Views (λ P it. IsLenderOf P loan.now it.lender
        × (it.patron ≡ borrower_in P loan.now)) S.Store conn.old conn.new result }
{
    let lender = lender_calendar(conn, alloc, loan)?;
    let patron = borrower_of(conn, alloc, loan)?;
    Ok(LoanEnd { lender, patron })
}

fn patron_view<S: Alter>(
    conn: &mut Connection<S>,
    alloc: Global,
    number: PatronId,
    kind: PatronKind,
) -> Result<View, Fault>
    ensures view { Views (λ P rows. IsPatronView P number kind rows)
        S.Store conn.old conn.new result }
    ensures only { (card_key name : List ℕ)
        → IfOk result (HasOnly (Patron number kind card_key name)) }
{
    let kind = get_row::<KindRow, S>(conn, (), kind)?;
    let patron = get_row::<PatronRow, S>(conn, alloc, number)?;
    Ok(View {
        kind,
        patron,
        ..View::empty()
    })
}

fn acquire_view<S: Alter>(
    conn: &mut Connection<S>,
    alloc: Global,
    number: CopyId,
    of: TitleId,
    home: BranchId,
) -> Result<View, Fault>
    ensures view { Views (λ P rows. IsAcquireView P number of home rows)
        S.Store conn.old conn.new result }
    ensures only { (kind price : ℕ) (text : List ℕ)
        → IfOk result (HasOnly (Acquire number of kind home price text)) }
{
    let branch = get_row::<BranchRow, S>(conn, alloc, home)?;
    let title = get_row::<TitleRow, S>(conn, alloc, of)?;
    let copy = get_row::<CopyRow, S>(conn, (), number)?;
    Ok(View {
        branch,
        title,
        copy,
        ..View::empty()
    })
}

fn closed_day_view<S: Alter>(
    conn: &mut Connection<S>,
    alloc: Global,
    branch: BranchId,
) -> Result<View, Fault>
    ensures view { Views (λ P rows. IsClosedDayView P branch rows)
        S.Store conn.old conn.new result }
    ensures only { (day : ℕ) → IfOk result (HasOnly (CloseDay branch day)) }
{
    let meta = get_meta(conn)?;
    let calendar = calendar_of(conn, alloc, branch)?;
    Ok(View {
        meta,
        calendar,
        ..View::empty()
    })
}

fn account_view<S: Alter>(
    conn: &mut Connection<S>,
    alloc: Global,
    number: PatronId,
) -> Result<View, Fault>
    ensures view { Views (λ P rows. IsAccountView P number rows) S.Store conn.old conn.new result }
    ensures only { (amount : ℕ) → IfOk result (HasOnly (Pay number amount)) }
{
    let meta = get_meta(conn)?;
    let patron = get_row::<PatronRow, S>(conn, alloc, number)?;
    Ok(View {
        meta,
        patron,
        ..View::empty()
    })
}

fn cancel_hold_view<S: Alter>(conn: &mut Connection<S>, number: HoldId) -> Result<View, Fault>
    ensures view { Views (λ P rows. IsCancelHoldView P number rows)
        S.Store conn.old conn.new result }
    ensures only { IfOk result (HasOnly (CancelHold number)) }
{
    let hold = get_row::<HoldRow, S>(conn, (), number)?;
    let transit = transit_for(conn, number)?;
    Ok(View {
        hold,
        transit,
        ..View::empty()
    })
}

/// What lending needs beside the patron's and the copy's rows.
struct Lending {
    rule: Option<RuleRow>,
    first: Option<HoldRow>,
    open_loans: Count,
    own_holds: Count,
}

/// Reads the rule for a patron and a copy, the first in the queue, and how much the patron has.
fn lending_of<S: Alter>(
    conn: &mut Connection<S>,
    number: PatronId,
    patron: &Option<PatronRow>,
    copy: &Option<CopyRow>,
    today: Day,
) -> Result<Lending, Fault>
    ensures { Views (λ P it. (it.rule ≡ rule_in P patron.now copy.now)
        × (today ≡ P.meta.today → IsFirstFor P copy.now it.first)
        × IsCount (IsOpenBy P number) it.open_loans
        × AreHoldsFor P number copy.now it.own_holds) S.Store conn.old conn.new result }
{
    let rule = rule_for(conn, patron, copy)?;
    let first = first_for(conn, copy, today)?;
    let open_loans = count_open_loans(conn, number)?;
    let own_holds = holds_for(conn, number, copy)?;
    Ok(Lending {
        rule,
        first,
        open_loans,
        own_holds,
    })
}

fn check_out_view<S: Alter>(
    conn: &mut Connection<S>,
    alloc: Global,
    number: PatronId,
    copy: CopyId,
    branch: BranchId,
) -> Result<View, Fault>
    ensures view { Views (λ P rows. IsCheckOutView P number copy branch rows)
        S.Store conn.old conn.new result }
    ensures only { IfOk result (HasOnly (CheckOut number copy branch)) }
{
    let meta = get_meta(conn)?;
    let calendar = calendar_of(conn, alloc, branch)?;
    let patron = get_row::<PatronRow, S>(conn, alloc, number)?;
    let kind = kind_of(conn, &patron)?;
    let at = copy_view(conn, copy)?;
    let lending = lending_of(conn, number, &patron, &at.copy, meta.today)?;
    let Lending {
        rule,
        first,
        open_loans,
        own_holds,
    } = lending;
    Ok(View {
        meta,
        calendar,
        patron,
        kind,
        rule,
        first,
        open_loans,
        own_holds,
        ..at
    })
}

fn renew_view<S: Alter>(
    conn: &mut Connection<S>,
    alloc: Global,
    number: LoanId,
) -> Result<View, Fault>
    ensures view { Views (λ P rows. IsRenewView P number rows) S.Store conn.old conn.new result }
    ensures only { IfOk result (HasOnly (Renew number)) }
{
    let meta = get_meta(conn)?;
    let loan = get_row::<LoanRow, S>(conn, (), number)?;
    let copy = lent_copy(conn, &loan)?;
    let first = first_for(conn, &copy, meta.today)?;
    let patron = borrower_of(conn, alloc, &loan)?;
    let kind = kind_of(conn, &patron)?;
    let lender = lender_calendar(conn, alloc, &loan)?;
    Ok(View {
        meta,
        loan,
        copy,
        first,
        patron,
        kind,
        lender,
        ..View::empty()
    })
}

/// What may stand against a patron's new hold on a title.
struct Obstacles {
    own_holds: Count,
    loan: Option<LoanRow>,
    active_holds: Count,
}

/// Counts a patron's holds on the title and in all, and reads the loan of it.
fn obstacles_of<S: Alter>(
    conn: &mut Connection<S>,
    number: PatronId,
    wanted: TitleId,
) -> Result<Obstacles, Fault>
    ensures { Views (λ P it. IsCount (IsActiveOn P number wanted) it.own_holds
        × IsLoanOfTitle P number wanted it.loan × IsCount (IsActiveBy P number) it.active_holds)
        S.Store conn.old conn.new result }
{
    let own_holds = count_active_holds_on(conn, number, wanted)?;
    let loan = open_loan_of_title(conn, number, wanted)?;
    let active_holds = count_active_holds(conn, number)?;
    Ok(Obstacles {
        own_holds,
        loan,
        active_holds,
    })
}

fn place_hold_view<S: Alter>(
    conn: &mut Connection<S>,
    alloc: Global,
    number: PatronId,
    wanted: TitleId,
    pickup: BranchId,
) -> Result<View, Fault>
    ensures view { Views (λ P rows. IsPlaceHoldView P number wanted pickup rows)
        S.Store conn.old conn.new result }
    ensures only { IfOk result (HasOnly (PlaceHold number wanted pickup None)) }
{
    let meta = get_meta(conn)?;
    let patron = get_row::<PatronRow, S>(conn, alloc, number)?;
    let kind = kind_of(conn, &patron)?;
    let title = get_row::<TitleRow, S>(conn, alloc, wanted)?;
    let branch = get_row::<BranchRow, S>(conn, alloc, pickup)?;
    let obstacles = obstacles_of(conn, number, wanted)?;
    let Obstacles {
        own_holds,
        loan,
        active_holds,
    } = obstacles;
    Ok(View {
        meta,
        patron,
        kind,
        title,
        branch,
        own_holds,
        loan,
        active_holds,
        ..View::empty()
    })
}

fn check_in_view<S: Alter>(
    conn: &mut Connection<S>,
    alloc: Global,
    copy: CopyId,
    number: BranchId,
) -> Result<View, Fault>
    ensures view { Views (λ P rows. IsCheckInView P copy number rows)
        S.Store conn.old conn.new result }
    ensures only { IfOk result (HasOnly (CheckIn copy number)) }
{
    let meta = get_meta(conn)?;
    let branch = get_row::<BranchRow, S>(conn, alloc, number)?;
    let calendar = calendar_from(conn, alloc, number, &branch)?;
    let at = copy_view(conn, copy)?;
    let end = lender_of(conn, alloc, &at.loan)?;
    let LoanEnd { lender, patron } = end;
    let coming = coming_hold(conn, &at.transit)?;
    let first = first_for(conn, &at.copy, meta.today)?;
    Ok(View {
        meta,
        branch,
        calendar,
        lender,
        patron,
        coming,
        first,
        ..at
    })
}

fn unshelve_view<S: Alter>(
    conn: &mut Connection<S>,
    alloc: Global,
    number: HoldId,
) -> Result<View, Fault>
    ensures view { Views (λ P rows. IsUnshelveView P number rows) S.Store conn.old conn.new result }
    ensures only { IfOk result (HasOnly (Unshelve number)) }
{
    let meta = get_meta(conn)?;
    let hold = get_row::<HoldRow, S>(conn, (), number)?;
    let copy = named_copy(conn, &hold)?;
    let here = shelf_of(conn, alloc, &hold)?;
    let Shelf { branch, calendar } = here;
    let first = first_for(conn, &copy, meta.today)?;
    Ok(View {
        meta,
        hold,
        copy,
        branch,
        calendar,
        first,
        ..View::empty()
    })
}

fn missing_view<S: Alter>(
    conn: &mut Connection<S>,
    alloc: Global,
    copy: CopyId,
) -> Result<View, Fault>
    ensures view { Views (λ P rows. IsMissingView P copy rows) S.Store conn.old conn.new result }
    ensures only { IfOk result (HasOnly (Missing copy)) }
{
    let meta = get_meta(conn)?;
    let at = copy_view(conn, copy)?;
    let end = lender_of(conn, alloc, &at.loan)?;
    let LoanEnd { lender, patron } = end;
    Ok(View {
        meta,
        lender,
        patron,
        ..at
    })
}

/// Reads a branch, a copy, and the rows that claim the copy.
fn rehome_view<S: Alter>(
    conn: &mut Connection<S>,
    alloc: Global,
    number: CopyId,
    home: BranchId,
) -> Result<View, Fault>
    ensures view { Views (λ P rows. IsRehomeView P number home rows)
        S.Store conn.old conn.new result }
    ensures only { IfOk result (HasOnly (Rehome number home)) }
{
    let branch = get_row::<BranchRow, S>(conn, alloc, home)?;
    let at = copy_view(conn, number)?;
    Ok(View { branch, ..at })
}

/// Reads a patron, a branch and the next numbers.
fn counter_view<S: Alter>(
    conn: &mut Connection<S>,
    alloc: Global,
    number: PatronId,
    at: BranchId,
) -> Result<View, Fault>
    ensures view { Views (λ P rows. IsCounterView P number at rows)
        S.Store conn.old conn.new result }
    ensures only { (amount : ℕ) → IfOk result (HasOnly (PayAt number amount at)) }
{
    let meta = get_meta(conn)?;
    let patron = get_row::<PatronRow, S>(conn, alloc, number)?;
    let branch = get_row::<BranchRow, S>(conn, alloc, at)?;
    Ok(View {
        meta,
        patron,
        branch,
        ..View::empty()
    })
}

/// Reads a copy, and what has the barcode.
fn copy_barcode_view<S: Alter>(
    conn: &mut Connection<S>,
    alloc: Global,
    number: CopyId,
    barcode: &Barcode,
) -> Result<View, Fault>
    ensures view { Views (λ P rows. IsCopyBarcodeView P number barcode.now rows)
        S.Store conn.old conn.new result }
    ensures only { IfOk result (HasOnly (CopyBarcode number barcode.now)) }
{
    let copy = get_row::<CopyRow, S>(conn, (), number)?;
    let labelled = labelled(conn, alloc, barcode)?;
    Ok(View {
        copy,
        labelled,
        ..View::empty()
    })
}

/// Reads a patron, and what has the barcode.
fn patron_barcode_view<S: Alter>(
    conn: &mut Connection<S>,
    alloc: Global,
    number: PatronId,
    barcode: &Barcode,
) -> Result<View, Fault>
    ensures view { Views (λ P rows. IsPatronBarcodeView P number barcode.now rows)
        S.Store conn.old conn.new result }
    ensures only { IfOk result (HasOnly (PatronBarcode number barcode.now)) }
{
    let patron = get_row::<PatronRow, S>(conn, alloc, number)?;
    let labelled = labelled(conn, alloc, barcode)?;
    Ok(View {
        patron,
        labelled,
        ..View::empty()
    })
}

/// Reads exactly the rows that the command needs.
pub(crate) fn view_for<S: Alter>(
    conn: &mut Connection<S>,
    alloc: Global,
    command: &Command,
) -> Result<View, Fault>
    ensures view { Views (λ P view. IsViewOf P command.now view) S.Store conn.old conn.new result }
    ensures only { IfOk result (HasOnly command.now) }
{
    match command {
        Command::BeginDay { .. } => meta_view(conn),
        Command::Branch { branch, .. } => branch_row_view(conn, alloc, *branch),
        Command::Week { branch, .. } => branch_row_view(conn, alloc, *branch),
        Command::CloseDay { branch, .. } => closed_day_view(conn, alloc, *branch),
        Command::OpenDay { branch, .. } => closed_day_view(conn, alloc, *branch),
        Command::Kind { .. } => Ok(View::empty()),
        Command::Rule { kind, .. } => kind_view(conn, *kind),
        Command::Grace {
            kind,
            copy_kind,
            ..
        } => rule_view(conn, *kind, *copy_kind),
        Command::Patron { patron, kind, .. } => patron_view(conn, alloc, *patron, *kind),
        Command::Acquire {
            copy,
            title,
            home,
            ..
        } => acquire_view(conn, alloc, *copy, *title, *home),
        Command::SetCardKey { patron, .. } => page_view(conn, alloc, *patron),
        Command::AmendPatron { patron, kind, .. } => patron_view(conn, alloc, *patron, *kind),
        Command::AmendBranch { branch, .. } => branch_row_view(conn, alloc, *branch),
        Command::AmendTitle { title, .. } => title_view(conn, alloc, *title),
        Command::AmendCopy { copy, .. } => copy_row_view(conn, *copy),
        Command::Rehome { copy, branch } => rehome_view(conn, alloc, *copy, *branch),
        Command::CopyBarcode { copy, barcode } => copy_barcode_view(conn, alloc, *copy, barcode),
        Command::PatronBarcode { patron, barcode } => {
            patron_barcode_view(conn, alloc, *patron, barcode)
        }
        Command::DropBarcode { barcode } => labelled_view(conn, alloc, barcode),
        Command::CheckOut {
            patron,
            copy,
            branch,
        } => check_out_view(conn, alloc, *patron, *copy, *branch),
        Command::CheckIn { copy, branch } => check_in_view(conn, alloc, *copy, *branch),
        Command::Renew { loan } => renew_view(conn, alloc, *loan),
        Command::PlaceHold {
            patron,
            title,
            branch,
            ..
        } => place_hold_view(conn, alloc, *patron, *title, *branch),
        Command::CancelHold { hold } => cancel_hold_view(conn, *hold),
        Command::Unshelve { hold } => unshelve_view(conn, alloc, *hold),
        Command::UnshelveCancelled { hold } => unshelve_view(conn, alloc, *hold),
        Command::Missing { copy } => missing_view(conn, alloc, *copy),
        Command::Withdraw { copy } => copy_view(conn, *copy),
        Command::Pay { patron, .. } => account_view(conn, alloc, *patron),
        Command::Waive { patron, .. } => account_view(conn, alloc, *patron),
        Command::Charge { patron, branch, .. } => counter_view(conn, alloc, *patron, *branch),
        Command::PayAt { patron, branch, .. } => counter_view(conn, alloc, *patron, *branch),
        Command::Page { patron } => page_view(conn, alloc, *patron),
        Command::Ask(_) => Ok(View::empty()),
    }
}

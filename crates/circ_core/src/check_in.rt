//! `check-in`: takes a copy back.

ghost use Rattle.std.specs.Prelude.{◌≡◌, ◌≤◌, length};
ghost use Rattle.circ_core.specs.Decided.{Decided};
ghost use Rattle.circ_core.specs.CheckIn.{check_in_course, over_rows, found_rows, left_rows};
ghost use Rattle.circ_core.specs.CheckIn.{check_in_checks, check_in_limit, check_in_reply};
ghost use Rattle.circ_core.specs.CheckIn.{check_in_rows};

use crate::changes::{Changes, Decision, RowChange};
use crate::checks::first_refusal;
use crate::condition::is_withdrawn;
use crate::ending::{fine_of, needs_more_numbers, with_charges, with_end};
use crate::routing::{Course, home_branch, limit_day, route, told, with_arrival};
use crate::views::View;
use terms::{BranchId, Cents, Condition, CopyId, CopyRow, Day, Refusal, Reply};

/// Removes a finished transit; a continuing one is put anew by the arrival.
fn end_travel<'a>(course: &Course, copy: CopyId) -> Changes<'a>
    ensures rows { result ≡ over_rows course.now copy }
    ensures few { length result ≤ 1 }
{
    match course {
        Course::Transit(_, _) => Changes::none(),
        Course::HoldShelf(_) => Changes::one(RowChange::TakeTransit(copy)),
        Course::Shelf => Changes::one(RowChange::TakeTransit(copy)),
    }
}

/// Makes a missing copy present again.
fn find_again<'a>(copy: &Option<CopyRow>) -> Changes<'a>
    ensures rows { result ≡ found_rows copy.now }
    ensures few { length result ≤ 1 }
{
    match copy {
        Some(row) => match row.condition {
            Condition::Missing => {
                let mut found = *row;
                found.condition = Condition::Present;
                Changes::one(RowChange::PutCopy(found))
            }
            Condition::Present => Changes::none(),
            Condition::Withdrawn => Changes::none(),
        },
        None => Changes::none(),
    }
}

/// Changes the row for where the copy was: a loan, a transit, or among the missing.
fn leave<'a>(view: &View, course: &Course, copy: CopyId, today: Day) -> Changes<'a>
    ensures rows { result
        ≡ left_rows view.now.loan view.now.transit view.now.copy course.now copy today }
    ensures few { length result ≤ 1 }
{
    match &view.loan {
        Some(_) => with_end(Changes::none(), &view.loan, today),
        None => match &view.transit {
            Some(_) => end_travel(course, copy),
            None => find_again(&view.copy),
        },
    }
}

/// Returns where the copy goes.
fn next_place(view: &View, branch: BranchId) -> Course
    ensures { result ≡ check_in_course view.now branch }
{
    route(home_branch(&view.copy), &view.coming, &view.first, branch)
}

/// `check-in`: refusals 10, 13, 35, 33, 70, in this order; 39 if the calendar has no open day left
/// for the limit of the hold that becomes ready, which never happens with rows the desk made.
pub(crate) fn check_in<'a>(
    view: &'a View,
    copy: CopyId,
    branch: BranchId,
) -> Result<Decision<'a>, Refusal>
    ensures { Decided (check_in_checks view.now branch)
        (check_in_reply view.now branch (check_in_limit view.now branch))
        (check_in_rows view.now copy branch (check_in_limit view.now branch)) result }
{
    let today = view.meta.today;
    let fine = fine_of(&view.loan, &view.lender, today);
    let nothing = Cents::new(0);
    let refusal = first_refusal(&[
        (Refusal::UnknownBranch, view.branch.is_none()),
        (Refusal::UnknownCopy, view.copy.is_none()),
        (Refusal::CopyWithdrawn, is_withdrawn(&view.copy)),
        (Refusal::OnHoldShelf, view.hold.is_some()),
    ]);
    if let Some(first) = refusal {
        return Err(first);
    }
    if needs_more_numbers(&view.meta, fine, nothing) {
        return Err(Refusal::NumbersUsedUp);
    }
    let course = next_place(view, branch);
    let Some(until) = limit_day(&course, view) else {
        return Err(Refusal::PastCalendar);
    };
    let moved = with_arrival(leave(view, &course, copy, today), &course, copy, until);
    Ok(Decision {
        reply: Reply::CheckedIn {
            fine,
            routed: told(&course, branch, until),
        },
        changes: with_charges(moved, &view.meta, &view.patron, &view.loan, fine, nothing),
    })
}

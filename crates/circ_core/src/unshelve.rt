//! `unshelve` and `unshelve-cancelled`: end a ready hold and route its copy.

ghost use Rattle.std.specs.Prelude.{◌≡◌, ◌≤◌, length};
ghost use Rattle.circ_core.specs.Decided.{Decided};
ghost use Rattle.terms.specs.declared.row.HoldState.TheVariants.{Cancelled, Expired};
ghost use Rattle.circ_core.specs.Unshelve.{is_ready_row, limit_in, pickup_branch, unshelve_checks};
ghost use Rattle.circ_core.specs.Unshelve.{unshelve_cancelled_checks, unshelve_reply};
ghost use Rattle.circ_core.specs.Unshelve.{unshelve_rows, course_unshelved, ended_hold, next_limit};

use crate::changes::{Changes, Decision, RowChange};
use crate::checks::first_refusal;
use crate::holds::finish;
use crate::routing::{Course, copy_number, home_branch, limit_day, route, told, with_arrival};
use crate::views::View;
use terms::{BranchId, Day, HoldRow, HoldState, Refusal, Reply};

fn is_on_shelf(hold: &Option<HoldRow>) -> bool
    ensures { result ≡ is_ready_row hold.now }
{
    match hold {
        Some(row) => row.state == HoldState::Ready,
        None => false,
    }
}

/// Returns the hold's shelf limit as a day number, or 0.
fn shelf_limit_of(hold: &Option<HoldRow>) -> u32
    ensures { result ≡ limit_in hold.now }
{
    match hold {
        Some(row) => match row.limit_day {
            Some(day) => day.number(),
            None => 0,
        },
        None => 0,
    }
}

/// Returns the hold's pick-up branch.
fn picked_up_at(hold: &Option<HoldRow>) -> BranchId
    ensures { result ≡ pickup_branch hold.now }
{
    match hold {
        Some(row) => row.branch,
        None => BranchId::new(0),
    }
}

/// Returns where the copy goes from the hold shelf.
fn next_course(view: &View) -> Course
    ensures { result ≡ course_unshelved view.now }
{
    route(
        home_branch(&view.copy),
        &None,
        &view.first,
        picked_up_at(&view.hold),
    )
}

/// Ends the hold.
fn end_hold<'a>(hold: &Option<HoldRow>, ends: HoldState) -> Changes<'a>
    ensures rows { result ≡ ended_hold hold.now ends }
    ensures few { length result ≤ 1 }
{
    match hold {
        Some(row) => Changes::one(RowChange::PutHold(finish(*row, ends))),
        None => Changes::none(),
    }
}

/// Ends a ready hold in this state and routes its copy from the pick-up branch.
fn take_off<'a>(view: &View, ends: HoldState, course: &Course, until: Day) -> Decision<'a>
    requires { course.now ≡ course_unshelved view.now }
    ensures reply { result.reply ≡ unshelve_reply view.now until }
    ensures rows { result.changes ≡ unshelve_rows view.now ends until }
{
    Decision {
        reply: Reply::Moved {
            routed: told(course, picked_up_at(&view.hold), until),
        },
        changes: with_arrival(
            end_hold(&view.hold, ends),
            course,
            copy_number(&view.copy),
            until,
        ),
    }
}

/// `unshelve`: refusals 15, 53, 54, in this order; 39 if the calendar has no open day left for the
/// limit of the next hold, which never happens with rows the desk made.
pub(crate) fn unshelve<'a>(view: &View) -> Result<Decision<'a>, Refusal>
    ensures { Decided (unshelve_checks view.now) (unshelve_reply view.now (next_limit view.now))
        (unshelve_rows view.now Expired (next_limit view.now)) result }
{
    let course = next_course(view);
    let limit = limit_day(&course, view);
    let may_be_taken = view.meta.today.number() <= shelf_limit_of(&view.hold);
    if let Some(refusal) = first_refusal(&[
        (Refusal::UnknownHold, view.hold.is_none()),
        (Refusal::WrongHoldState, !is_on_shelf(&view.hold)),
        (Refusal::LimitNotPassed, may_be_taken),
        (Refusal::PastCalendar, limit.is_none()),
    ]) {
        return Err(refusal);
    }
    let until = limit.unwrap_or(view.meta.today);
    Ok(take_off(view, HoldState::Expired, &course, until))
}

/// `unshelve-cancelled`: refusals 15, 53; 39 as for `unshelve`.
pub(crate) fn unshelve_cancelled<'a>(view: &View) -> Result<Decision<'a>, Refusal>
    ensures { Decided (unshelve_cancelled_checks view.now)
        (unshelve_reply view.now (next_limit view.now))
        (unshelve_rows view.now Cancelled (next_limit view.now)) result }
{
    let course = next_course(view);
    let limit = limit_day(&course, view);
    if let Some(refusal) = first_refusal(&[
        (Refusal::UnknownHold, view.hold.is_none()),
        (Refusal::WrongHoldState, !is_on_shelf(&view.hold)),
        (Refusal::PastCalendar, limit.is_none()),
    ]) {
        return Err(refusal);
    }
    let until = limit.unwrap_or(view.meta.today);
    Ok(take_off(view, HoldState::Cancelled, &course, until))
}

//! Routing a returned copy.

ghost use Rattle.std.specs.Prelude.{◌≡◌, ◌≤◌, ◌++◌, length};
ghost use Rattle.circ_core.specs.Routing.{served, course_of, pickup_of, home_in, number_in};
ghost use Rattle.circ_core.specs.Routing.{routed_by, readied, arrival_rows, shelf_limit};

use crate::changes::{Changes, RowChange};
use crate::due_day::due_day;
use crate::views::View;
use terms::{
    BranchId, BranchRow, CopyId, CopyRow, Day, Days, HoldId, HoldRow, HoldState, Routed, TransitRow,
};

/// Where a copy goes from the branch that took it back.
#[derive(Clone, Copy)]
pub enum Course {
    /// To the hold shelf for a hold, which becomes ready.
    HoldShelf(HoldRow),
    /// To the shelf of this branch, its home.
    Shelf,
    /// In transit to a branch, for a hold or for none.
    Transit(BranchId, Option<HoldId>),
}

/// Returns the hold that the copy serves, if any.
fn hold_to_serve(coming: &Option<HoldRow>, first: &Option<HoldRow>) -> Option<HoldRow>
    ensures { result ≡ served coming.now first.now }
{
    match coming {
        Some(hold) => Some(*hold),
        None => *first,
    }
}

/// Routes the copy: to the hold it travels for, else to the first in the queue, else home.
pub(crate) fn route(
    home: BranchId,
    coming: &Option<HoldRow>,
    first: &Option<HoldRow>,
    branch: BranchId,
) -> Course
    ensures { result ≡ course_of home coming.now first.now branch }
{
    match hold_to_serve(coming, first) {
        Some(hold) => {
            if hold.branch.number() == branch.number() {
                Course::HoldShelf(hold)
            } else {
                Course::Transit(hold.branch, Some(hold.hold))
            }
        }
        None => {
            if home.number() == branch.number() {
                Course::Shelf
            } else {
                Course::Transit(home, None)
            }
        }
    }
}

/// Returns the pick-up period of the branch.
fn pickup_days(branch: &Option<BranchRow>) -> Days
    ensures { result ≡ pickup_of branch.now }
{
    match branch {
        Some(row) => row.pickup,
        None => Days::new(0),
    }
}

/// Returns the home branch of a copy, or 0 without a copy.
pub(crate) fn home_branch(copy: &Option<CopyRow>) -> BranchId
    ensures { result ≡ home_in copy.now }
{
    match copy {
        Some(row) => row.home,
        None => BranchId::new(0),
    }
}

/// Returns the number of a copy, or 0 without a copy.
pub(crate) fn copy_number(copy: &Option<CopyRow>) -> CopyId
    ensures { result ≡ number_in copy.now }
{
    match copy {
        Some(row) => row.copy,
        None => CopyId::new(0),
    }
}

/// Returns the shelf limit of a hold that becomes ready: the least open day from the end of the
/// pick-up period, if the calendar has one. Other courses need none; today stands in for it.
#[tactic(auto, unfolding(crate::specs::Routing::shelf_limit))]
pub(crate) fn limit_day(course: &Course, view: &View) -> Option<Day>
    ensures { result ≡ shelf_limit course.now view.now }
{
    let today = view.meta.today;
    match course {
        Course::HoldShelf(_) => due_day(&view.calendar, today, pickup_days(&view.branch)),
        Course::Shelf => Some(today),
        Course::Transit(_, _) => Some(today),
    }
}

/// Returns the place given in the reply.
pub(crate) fn told(course: &Course, branch: BranchId, until: Day) -> Routed
    ensures { result ≡ routed_by course.now branch until }
{
    match course {
        Course::HoldShelf(hold) => Routed::HoldShelf {
            hold: hold.hold,
            branch,
            until,
        },
        Course::Shelf => Routed::Shelf { branch },
        Course::Transit(goal, hold) => Routed::Transit {
            goal: *goal,
            hold: *hold,
        },
    }
}

/// Makes a hold ready.
fn make_ready(hold: &HoldRow, copy: CopyId, until: Day) -> HoldRow
    ensures { result ≡ readied hold.now copy until }
{
    let mut row = *hold;
    row.state = HoldState::Ready;
    row.copy = Some(copy);
    row.limit_day = Some(until);
    row
}

/// Adds the row for where the copy arrives.
pub(crate) fn with_arrival<'a>(
    changes: Changes<'a>,
    course: &Course,
    copy: CopyId,
    until: Day,
) -> Changes<'a>
    requires { length changes ≤ 1 }
    ensures rows { result ≡ changes.entry ++ arrival_rows course.now copy until }
    ensures few { length result ≤ 2 }
{
    match course {
        Course::HoldShelf(hold) => {
            changes.with(RowChange::PutHold(make_ready(hold, copy, until)))
        }
        Course::Shelf => changes,
        Course::Transit(goal, hold) => changes.with(RowChange::PutTransit(TransitRow {
            copy,
            goal: *goal,
            hold: *hold,
        })),
    }
}

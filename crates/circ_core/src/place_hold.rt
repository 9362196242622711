//! `place-hold` and `place-hold-from`: put a patron in a title's queue, at once or from a later day
//! on.

ghost use Rattle.std.specs.Prelude.{◌≡◌, nat_le};
ghost use Rattle.circ_core.specs.Decided.{Decided};
ghost use Rattle.model.specs.Checks.{first_failing};
ghost use Rattle.terms.specs.declared.reply.Reply.TheVariants.{Held};
ghost use Rattle.circ_core.specs.PlaceHold.{holds_allowed, is_bad_first_day, place_hold_checks};
ghost use Rattle.circ_core.specs.PlaceHold.{place_hold_rows};

use crate::begin_day::is_bad_day;
use crate::changes::{Changes, Decision, RowChange};
use crate::checks::first_refusal;
use crate::routing::limit_day;
use crate::views::View;
use terms::{
    BranchId, Count, Day, HoldId, HoldRow, HoldState, KindRow, LAST_NUMBER, MetaRow, PatronId,
    Refusal, Reply, TitleId,
};

/// Returns whether the patron has all the active holds the kind allows.
fn has_all_holds(kind: &Option<KindRow>, active_holds: Count) -> bool
    ensures { result ≡ nat_le (holds_allowed kind.now) active_holds }
{
    match kind {
        Some(row) => row.holds.number() <= active_holds.number(),
        None => true,
    }
}

/// Returns whether there is a first day and it isn't a later day.
fn is_bad_first_day(meta: &MetaRow, first_day: &Option<Day>) -> bool
    ensures { result ≡ is_bad_first_day meta.now first_day.now }
{
    match first_day {
        Some(day) => is_bad_day(meta, *day),
        None => false,
    }
}

/// Returns the refusal of a new hold, from its table of checks.
fn place_hold_refusal(view: &View, first_day: &Option<Day>) -> Option<Refusal>
    ensures { result ≡ first_failing (place_hold_checks view.now first_day.now) }
{
    first_refusal(&[
        (Refusal::UnknownPatron, view.patron.is_none()),
        (Refusal::UnknownTitle, view.title.is_none()),
        (Refusal::UnknownBranch, view.branch.is_none()),
        (Refusal::BadDay, is_bad_first_day(&view.meta, first_day)),
        (Refusal::AlreadyHolds, 0 < view.own_holds.number()),
        (Refusal::HasOnLoan, view.loan.is_some()),
        (
            Refusal::TooManyHolds,
            has_all_holds(&view.kind, view.active_holds),
        ),
        (
            Refusal::NumbersUsedUp,
            LAST_NUMBER < view.meta.next_hold.number(),
        ),
    ])
}

/// `place-hold`, and `place-hold-from` with a first day: refusals 11, 12, 10, 23 (only with a first
/// day), 50, 52, 51, 70, in this order.
pub(crate) fn place_hold<'a>(
    view: &View,
    patron: PatronId,
    title: TitleId,
    branch: BranchId,
    first_day: Option<Day>,
) -> Result<Decision<'a>, Refusal>
    ensures { Decided (place_hold_checks view.now first_day) (Held view.now.meta.next_hold)
        (place_hold_rows view.now patron title branch first_day) result }
{
    if let Some(refusal) = place_hold_refusal(view, &first_day) {
        return Err(refusal);
    }
    let hold = view.meta.next_hold;
    let mut meta = view.meta;
    meta.next_hold = HoldId::new(hold.number() + 1);
    let row = HoldRow {
        hold,
        patron,
        title,
        branch,
        state: HoldState::Waiting,
        copy: None,
        limit_day: None,
        first_day,
    };
    Ok(Decision {
        reply: Reply::Held { hold },
        changes: Changes::two(RowChange::PutMeta(meta), RowChange::PutHold(row)),
    })
}

//! `rehome`: gives a copy another home branch.

ghost use Rattle.std.specs.Prelude.{◌≡◌};
ghost use Rattle.terms.specs.declared.reply.Reply.TheVariants.{Done};
ghost use Rattle.circ_core.specs.Decided.{Decided};
ghost use Rattle.circ_core.specs.Rehome.{is_on_shelf, has_other_home, rehomed_rows};
ghost use Rattle.circ_core.specs.Rehome.{rehome_checks, rehome_rows};

use crate::changes::{Changes, Decision, RowChange, done};
use crate::checks::first_refusal;
use crate::condition::{is_missing, is_withdrawn};
use crate::views::View;
use terms::{BranchId, CopyRow, Refusal, TransitRow};

/// Returns whether a copy that isn't withdrawn is on the shelf of its home: it isn't missing, and no
/// row claims it.
fn is_on_shelf(view: &View) -> bool
    ensures { result ≡ is_on_shelf view.now }
{
    !is_missing(&view.copy) && view.loan.is_none() && view.transit.is_none() && view.hold.is_none()
}

/// Returns whether the copy has another home than this branch.
fn has_other_home(copy: &Option<CopyRow>, branch: BranchId) -> bool
    ensures { result ≡ has_other_home copy.now branch }
{
    match copy {
        Some(row) => row.home.number() != branch.number(),
        None => false,
    }
}

/// Gives the copy its new home, and sends it there if it is to leave its shelf.
fn rehomed<'a>(copy: &Option<CopyRow>, is_sent: bool, branch: BranchId) -> Changes<'a>
    ensures { result ≡ rehomed_rows copy.now is_sent branch }
{
    match copy {
        Some(row) => {
            let mut put = *row;
            put.home = branch;
            let home = RowChange::PutCopy(put);
            if is_sent {
                let transit = TransitRow {
                    copy: row.copy,
                    goal: branch,
                    hold: None,
                };
                Changes::two(home, RowChange::PutTransit(transit))
            } else {
                Changes::one(home)
            }
        }
        None => Changes::none(),
    }
}

/// `rehome`: refusals 10, 13, 35.
pub(crate) fn rehome<'a>(view: &View, branch: BranchId) -> Result<Decision<'a>, Refusal>
    ensures { Decided (rehome_checks view.now) Done (rehome_rows view.now branch) result }
{
    if let Some(refusal) = first_refusal(&[
        (Refusal::UnknownBranch, view.branch.is_none()),
        (Refusal::UnknownCopy, view.copy.is_none()),
        (Refusal::CopyWithdrawn, is_withdrawn(&view.copy)),
    ]) {
        return Err(refusal);
    }
    let is_sent = is_on_shelf(view) && has_other_home(&view.copy, branch);
    Ok(done(rehomed(&view.copy, is_sent, branch)))
}

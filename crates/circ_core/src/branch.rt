//! `branch`: makes a branch.

ghost use Rattle.std.specs.Prelude.{◌≡◌};
ghost use Rattle.terms.specs.declared.reply.Reply.TheVariants.{Done};
ghost use Rattle.circ_core.specs.Decided.{Decided};
ghost use Rattle.circ_core.specs.Branch.{branch_differs, branch_checks, branch_rows};

use crate::changes::{Changes, Decision, RowChange, done};
use crate::checks::first_refusal;
use crate::limits::is_small;
use calendar::Weekdays;
use terms::{BranchId, BranchPut, BranchRow, Days, LONGEST_PICKUP, Name, Refusal};

fn differs_branch(row: &Option<BranchRow>, pickup: Days, name: &Name) -> bool
    ensures { result ≡ branch_differs row.now pickup name.now }
{
    match row {
        Some(old) => !(old.pickup.number() == pickup.number() && old.name.is_same(name)),
        None => false,
    }
}

/// `branch`: refusals 21, 20.
pub(crate) fn add_branch<'a>(
    row: &Option<BranchRow>,
    branch: BranchId,
    pickup: Days,
    name: &'a Name,
) -> Result<Decision<'a>, Refusal>
    ensures { Decided (branch_checks row.now branch pickup name.now) Done
        (branch_rows row.now branch pickup name.now) result }
{
    let fits = is_small(branch.number()) && pickup.number() <= LONGEST_PICKUP;
    let differs = differs_branch(row, pickup, name);
    if let Some(refusal) = first_refusal(&[
        (Refusal::OutOfLimits, !fits),
        (Refusal::OtherContent, differs),
    ]) {
        return Err(refusal);
    }
    match row {
        Some(_) => Ok(done(Changes::none())),
        None => {
            let week = Weekdays::all_open();
            let put = BranchPut {
                branch,
                pickup,
                week,
                name,
            };
            Ok(done(Changes::one(RowChange::PutBranch(put))))
        }
    }
}

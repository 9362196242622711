//! `amend-branch`: changes a branch's pick-up period and name.

ghost use Rattle.std.specs.Prelude.{◌≡◌};
ghost use Rattle.terms.specs.declared.reply.Reply.TheVariants.{Done};
ghost use Rattle.circ_core.specs.Decided.{Decided};
ghost use Rattle.circ_core.specs.AmendBranch.{amend_branch_checks, amend_branch_rows};

use crate::changes::{Changes, Decision, RowChange, done};
use crate::checks::first_refusal;
use crate::limits::is_small;
use terms::{BranchId, BranchPut, BranchRow, Days, LONGEST_PICKUP, Name, Refusal};

/// Gives the branch this pick-up period and name; no change without a branch.
fn amended<'a>(row: &'a Option<BranchRow>, pickup: Days, name: &'a Name) -> Changes<'a>
    ensures { result ≡ amend_branch_rows row.now pickup name.now }
{
    match row {
        Some(old) => {
            let put = BranchPut {
                branch: old.branch,
                pickup,
                week: old.week,
                name,
            };
            Changes::one(RowChange::PutBranch(put))
        }
        None => Changes::none(),
    }
}

/// `amend-branch`: refusals 21, 10.
pub(crate) fn amend_branch<'a>(
    row: &'a Option<BranchRow>,
    branch: BranchId,
    pickup: Days,
    name: &'a Name,
) -> Result<Decision<'a>, Refusal>
    ensures { Decided (amend_branch_checks row.now branch pickup name.now) Done
        (amend_branch_rows row.now pickup name.now) result }
{
    let fits = is_small(branch.number()) && pickup.number() <= LONGEST_PICKUP;
    if let Some(refusal) = first_refusal(&[
        (Refusal::OutOfLimits, !fits),
        (Refusal::UnknownBranch, row.is_none()),
    ]) {
        return Err(refusal);
    }
    Ok(done(amended(row, pickup, name)))
}

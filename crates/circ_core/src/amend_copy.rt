//! `amend-copy`: changes a copy's kind and price.

ghost use Rattle.std.specs.Prelude.{◌≡◌};
ghost use Rattle.terms.specs.declared.reply.Reply.TheVariants.{Done};
ghost use Rattle.circ_core.specs.Decided.{Decided};
ghost use Rattle.circ_core.specs.AmendCopy.{amend_copy_checks, amend_copy_rows};

use crate::changes::{Changes, Decision, RowChange, done};
use crate::checks::first_refusal;
use crate::limits::is_small;
use terms::{Cents, CopyKind, CopyRow, HIGHEST_PRICE, Refusal};

/// Gives the copy this kind and price; no change without a copy.
fn amended<'a>(row: &Option<CopyRow>, kind: CopyKind, price: Cents) -> Changes<'a>
    ensures { result ≡ amend_copy_rows row.now kind price }
{
    match row {
        Some(old) => {
            let mut copy = *old;
            copy.kind = kind;
            copy.price = price;
            Changes::one(RowChange::PutCopy(copy))
        }
        None => Changes::none(),
    }
}

/// `amend-copy`: refusals 21, 13.
pub(crate) fn amend_copy<'a>(
    row: &Option<CopyRow>,
    kind: CopyKind,
    price: Cents,
) -> Result<Decision<'a>, Refusal>
    ensures { Decided (amend_copy_checks row.now kind price) Done
        (amend_copy_rows row.now kind price) result }
{
    let fits = is_small(kind.number()) && price.number() <= HIGHEST_PRICE;
    if let Some(refusal) = first_refusal(&[
        (Refusal::OutOfLimits, !fits),
        (Refusal::UnknownCopy, row.is_none()),
    ]) {
        return Err(refusal);
    }
    Ok(done(amended(row, kind, price)))
}

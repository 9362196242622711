//! `kind`: sets a kind of patron.

ghost use Rattle.terms.specs.declared.reply.Reply.TheVariants.{Done};
ghost use Rattle.circ_core.specs.Decided.{Decided};
ghost use Rattle.circ_core.specs.Kind.{kind_checks, kind_rows};

use crate::changes::{Changes, Decision, RowChange, done};
use crate::checks::first_refusal;
use crate::limits::is_small;
use terms::{Cents, Count, HIGHEST_DEBT, KindRow, MOST_ALLOWED, PatronKind, Refusal};

/// `kind`: refusal 21.
pub(crate) fn set_kind<'a>(
    kind: PatronKind,
    loans: Count,
    holds: Count,
    debt: Cents,
) -> Result<Decision<'a>, Refusal>
    ensures { Decided (kind_checks kind loans holds debt) Done
        (kind_rows kind loans holds debt) result }
{
    let fits = is_small(kind.number())
        && loans.number() <= MOST_ALLOWED
        && holds.number() <= MOST_ALLOWED
        && debt.number() <= HIGHEST_DEBT;
    if let Some(refusal) = first_refusal(&[(Refusal::OutOfLimits, !fits)]) {
        return Err(refusal);
    }
    let row = KindRow {
        kind,
        loans,
        holds,
        debt,
    };
    Ok(done(Changes::one(RowChange::PutKind(row))))
}

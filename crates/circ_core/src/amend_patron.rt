//! `card-key` and `amend-patron`: change a patron's row.

ghost use Rattle.std.specs.Prelude.{◌≡◌};
ghost use Rattle.terms.specs.declared.reply.Reply.TheVariants.{Done};
ghost use Rattle.circ_core.specs.Decided.{Decided};
ghost use Rattle.circ_core.specs.AmendPatron.{card_key_checks, card_key_rows};
ghost use Rattle.circ_core.specs.AmendPatron.{amend_patron_checks, amend_patron_rows};

use crate::changes::{Changes, Decision, RowChange, done};
use crate::checks::first_refusal;
use crate::limits::is_small;
use crate::views::View;
use terms::{CardKey, Name, PatronKind, PatronPut, PatronRow, Refusal};

/// `card-key`: refusal 11.
pub(crate) fn set_card_key<'a>(
    row: &'a Option<PatronRow>,
    card_key: &'a CardKey,
) -> Result<Decision<'a>, Refusal>
    ensures { Decided (card_key_checks row.now) Done (card_key_rows row.now card_key.now) result }
{
    let Some(old) = row else {
        return Err(Refusal::UnknownPatron);
    };
    let put = PatronPut {
        patron: old.patron,
        kind: old.kind,
        card_key,
        name: &old.name,
        owed: old.owed,
    };
    Ok(done(Changes::one(RowChange::PutPatron(put))))
}

/// Gives the patron this kind and name; no change without a patron.
fn amended<'a>(row: &'a Option<PatronRow>, kind: PatronKind, name: &'a Name) -> Changes<'a>
    ensures { result ≡ amend_patron_rows row.now kind name.now }
{
    match row {
        Some(old) => {
            let put = PatronPut {
                patron: old.patron,
                kind,
                card_key: &old.card_key,
                name,
                owed: old.owed,
            };
            Changes::one(RowChange::PutPatron(put))
        }
        None => Changes::none(),
    }
}

/// `amend-patron`: refusals 21, 11, 17.
pub(crate) fn amend_patron<'a>(
    view: &'a View,
    kind: PatronKind,
    name: &'a Name,
) -> Result<Decision<'a>, Refusal>
    ensures { Decided (amend_patron_checks view.now kind) Done
        (amend_patron_rows view.now.patron kind name.now) result }
{
    if let Some(refusal) = first_refusal(&[
        (Refusal::OutOfLimits, !is_small(kind.number())),
        (Refusal::UnknownPatron, view.patron.is_none()),
        (Refusal::UnknownKind, view.kind.is_none()),
    ]) {
        return Err(refusal);
    }
    Ok(done(amended(&view.patron, kind, name)))
}

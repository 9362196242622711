//! `patron`: enrols a patron.

ghost use Rattle.std.specs.Prelude.{◌≡◌};
ghost use Rattle.terms.specs.declared.reply.Reply.TheVariants.{Done};
ghost use Rattle.circ_core.specs.Decided.{Decided};
ghost use Rattle.circ_core.specs.Patron.{patron_differs, patron_checks, patron_rows};

use crate::changes::{Changes, Decision, RowChange, done};
use crate::checks::first_refusal;
use crate::limits::{is_large, is_small};
use crate::views::View;
use terms::{CardKey, Cents, Name, PatronId, PatronKind, PatronPut, PatronRow, Refusal};

fn differs_patron(
    row: &Option<PatronRow>,
    kind: PatronKind,
    card_key: &CardKey,
    name: &Name,
) -> bool
    ensures { result ≡ patron_differs row.now kind card_key.now name.now }
{
    match row {
        Some(old) => {
            !(old.kind.number() == kind.number()
                && old.card_key.is_same(card_key)
                && old.name.is_same(name))
        }
        None => false,
    }
}

/// `patron`: refusals 21, 17, 20.
pub(crate) fn enrol<'a>(
    view: &View,
    patron: PatronId,
    kind: PatronKind,
    card_key: &'a CardKey,
    name: &'a Name,
) -> Result<Decision<'a>, Refusal>
    ensures { Decided (patron_checks view.now patron kind card_key.now name.now) Done
        (patron_rows view.now patron kind card_key.now name.now) result }
{
    let fits = is_large(patron.number()) && is_small(kind.number());
    let differs = differs_patron(&view.patron, kind, card_key, name);
    if let Some(refusal) = first_refusal(&[
        (Refusal::OutOfLimits, !fits),
        (Refusal::UnknownKind, view.kind.is_none()),
        (Refusal::OtherContent, differs),
    ]) {
        return Err(refusal);
    }
    match view.patron {
        Some(_) => Ok(done(Changes::none())),
        None => {
            let put = PatronPut {
                patron,
                kind,
                card_key,
                name,
                owed: Cents::new(0),
            };
            Ok(done(Changes::one(RowChange::PutPatron(put))))
        }
    }
}

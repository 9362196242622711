//! `copy-barcode`, `patron-barcode` and `drop-barcode`: which copy or patron has a barcode.

ghost use Rattle.std.specs.Prelude.{◌≡◌};
ghost use Rattle.terms.specs.Pictures.{same_thing};
ghost use Rattle.terms.specs.declared.reply.Reply.TheVariants.{Done};
ghost use Rattle.terms.specs.declared.row.Thing.TheVariants as thing;
ghost use Rattle.circ_core.specs.Decided.{Decided};
ghost use Rattle.circ_core.specs.Barcode.{is_others, barcode_rows, drop_barcode_rows};
ghost use Rattle.circ_core.specs.Barcode.{copy_barcode_checks, patron_barcode_checks};
ghost use Rattle.circ_core.specs.Barcode.{drop_barcode_checks};

use crate::changes::{Changes, Decision, RowChange, done};
use crate::views::View;
use terms::{Barcode, BarcodePut, CopyId, PatronId, Refusal, Thing};

/// Returns whether the two are the same copy or the same patron.
fn is_same(one: Thing, other: Thing) -> bool
    ensures { result ≡ same_thing one other }
{
    match one {
        Thing::Patron(patron) => match other {
            Thing::Patron(second) => patron.number() == second.number(),
            Thing::Copy(_) => false,
        },
        Thing::Copy(copy) => match other {
            Thing::Patron(_) => false,
            Thing::Copy(second) => copy.number() == second.number(),
        },
    }
}

/// Returns whether what has the barcode is another copy or patron than this one.
fn is_another(thing: Thing, labelled: &Option<Thing>) -> bool
    ensures { result ≡ is_others thing labelled.now }
{
    match labelled {
        Some(found) => !is_same(*found, thing),
        None => false,
    }
}

/// Makes the change that gives a copy or a patron its barcode.
fn given<'a>(thing: Thing, barcode: &'a Barcode) -> Changes<'a>
    ensures { result ≡ barcode_rows thing barcode.now }
{
    Changes::one(RowChange::PutBarcode(BarcodePut { thing, barcode }))
}

/// `copy-barcode`: refusals 13, 26.
pub(crate) fn copy_barcode<'a>(
    view: &View,
    copy: CopyId,
    barcode: &'a Barcode,
) -> Result<Decision<'a>, Refusal>
    ensures { Decided (copy_barcode_checks view.now copy) Done
        (barcode_rows (thing.Copy copy) barcode.now) result }
{
    if view.copy.is_none() {
        return Err(Refusal::UnknownCopy);
    }
    if is_another(Thing::Copy(copy), &view.labelled) {
        return Err(Refusal::BarcodeTaken);
    }
    Ok(done(given(Thing::Copy(copy), barcode)))
}

/// `patron-barcode`: refusals 11, 26.
pub(crate) fn patron_barcode<'a>(
    view: &View,
    patron: PatronId,
    barcode: &'a Barcode,
) -> Result<Decision<'a>, Refusal>
    ensures { Decided (patron_barcode_checks view.now patron) Done
        (barcode_rows (thing.Patron patron) barcode.now) result }
{
    if view.patron.is_none() {
        return Err(Refusal::UnknownPatron);
    }
    if is_another(Thing::Patron(patron), &view.labelled) {
        return Err(Refusal::BarcodeTaken);
    }
    Ok(done(given(Thing::Patron(patron), barcode)))
}

/// `drop-barcode`: refusal 18.
pub(crate) fn drop_barcode<'a>(view: &View) -> Result<Decision<'a>, Refusal>
    ensures { Decided (drop_barcode_checks view.now) Done
        (drop_barcode_rows view.now.labelled) result }
{
    match &view.labelled {
        Some(thing) => Ok(done(Changes::one(RowChange::TakeBarcode(*thing)))),
        None => Err(Refusal::UnknownBarcode),
    }
}

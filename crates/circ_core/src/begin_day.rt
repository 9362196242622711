//! `begin-day`.

ghost use Rattle.std.specs.Prelude.{◌≡◌};
ghost use Rattle.terms.specs.declared.reply.Reply.TheVariants.{Done};
ghost use Rattle.circ_core.specs.Decided.{Decided};
ghost use Rattle.circ_core.specs.BeginDay.{begin_day_checks, begin_day_rows, is_bad_day};

use crate::changes::{Changes, Decision, RowChange, done};
use crate::checks::first_refusal;
use terms::{Day, LAST_TODAY, MetaRow, Refusal};

/// Returns whether the day isn't after today, or can never be today.
pub(crate) fn is_bad_day(meta: &MetaRow, day: Day) -> bool
    ensures { result ≡ is_bad_day meta.now day }
{
    let fits = meta.today.number() < day.number() && day.number() <= LAST_TODAY;
    !fits
}

/// `begin-day`: refusal 23.
pub(crate) fn begin_day<'a>(meta: &MetaRow, day: Day) -> Result<Decision<'a>, Refusal>
    ensures { Decided (begin_day_checks meta.now day) Done (begin_day_rows meta.now day) result }
{
    if let Some(refusal) = first_refusal(&[(Refusal::BadDay, is_bad_day(meta, day))]) {
        return Err(refusal);
    }
    let mut row = *meta;
    row.today = day;
    Ok(done(Changes::one(RowChange::PutMeta(row))))
}

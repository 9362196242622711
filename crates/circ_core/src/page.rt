//! `page`.

ghost use Rattle.std.specs.Prelude.{[]};
ghost use Rattle.terms.specs.declared.reply.Reply.TheVariants.{Done};
ghost use Rattle.circ_core.specs.Decided.{Decided};
ghost use Rattle.circ_core.specs.Page.{page_checks};

use crate::changes::{Changes, Decision, done};
use terms::{PatronRow, Refusal};

/// `page`: refusal 11. Changes nothing; the page itself is made elsewhere.
pub(crate) fn page<'a>(patron: &Option<PatronRow>) -> Result<Decision<'a>, Refusal>
    ensures { Decided (page_checks patron.now) Done [] result }
{
    match patron {
        Some(_) => Ok(done(Changes::none())),
        None => Err(Refusal::UnknownPatron),
    }
}

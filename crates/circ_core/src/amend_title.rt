//! `amend-title`: changes the text of a title.

ghost use Rattle.terms.specs.declared.reply.Reply.TheVariants.{Done};
ghost use Rattle.circ_core.specs.Decided.{Decided};
ghost use Rattle.circ_core.specs.AmendTitle.{amend_title_checks, amend_title_rows};

use crate::changes::{Changes, Decision, RowChange, done};
use terms::{Name, Refusal, TitlePut, TitleRow};

/// `amend-title`: refusal 12.
pub(crate) fn amend_title<'a>(
    row: &Option<TitleRow>,
    text: &'a Name,
) -> Result<Decision<'a>, Refusal>
    ensures { Decided (amend_title_checks row.now) Done (amend_title_rows row.now text.now) result }
{
    let Some(old) = row else {
        return Err(Refusal::UnknownTitle);
    };
    let put = TitlePut {
        title: old.title,
        text,
    };
    Ok(done(Changes::one(RowChange::PutTitle(put))))
}

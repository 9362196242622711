//! `acquire`: adds a copy and its title.

ghost use Rattle.std.specs.Prelude.{◌≡◌, [], ◌∷◌, ◌++◌, ◌+◌};
ghost use Rattle.terms.specs.declared.reply.Reply.TheVariants.{Done};
ghost use Rattle.circ_core.specs.declared.changes.RowChange.TheVariants.{PutTitle, PutCopy};
ghost use Rattle.circ_core.specs.Decided.{Decided};
ghost use Rattle.circ_core.specs.Acquire.{title_differs, copy_differs, acquire_checks};
ghost use Rattle.circ_core.specs.Acquire.{acquire_rows};
ghost use Rattle.circ_core.specs.Tables.{rows_unless};

use crate::changes::{Changes, Decision, RowChange, done};
use crate::checks::first_refusal;
use crate::limits::{is_large, is_small};
use crate::views::View;
use terms::{
    BranchId, Cents, Condition, CopyId, CopyKind, CopyRow, HIGHEST_PRICE, Name, Refusal, TitleId,
    TitlePut, TitleRow,
};

fn differs_title(row: &Option<TitleRow>, text: &Name) -> bool
    ensures { result ≡ title_differs row.now text.now }
{
    match row {
        Some(old) => !old.text.is_same(text),
        None => false,
    }
}

fn differs_copy(row: &Option<CopyRow>, new: &CopyRow) -> bool
    ensures { result ≡ copy_differs row.now new.now.title new.now.kind new.now.home new.now.price }
{
    match row {
        Some(old) => {
            !(old.title.number() == new.title.number()
                && old.kind.number() == new.kind.number()
                && old.home.number() == new.home.number()
                && old.price.number() == new.price.number())
        }
        None => false,
    }
}

/// Puts a new title and a new copy, each unless it exists.
fn acquired<'a>(view: &View, copy: CopyRow, text: &'a Name) -> Changes<'a>
    ensures { result ≡
        rows_unless view.now.title (PutTitle (record { title = copy.title; text = text.now }) ∷ [])
        ++ rows_unless view.now.copy (PutCopy copy ∷ []) }
{
    let title = copy.title;
    match &view.title {
        Some(_) => match &view.copy {
            Some(_) => Changes::none(),
            None => Changes::one(RowChange::PutCopy(copy)),
        },
        None => {
            let put = TitlePut { title, text };
            match &view.copy {
                Some(_) => Changes::one(RowChange::PutTitle(put)),
                None => Changes::two(RowChange::PutTitle(put), RowChange::PutCopy(copy)),
            }
        }
    }
}

/// `acquire`: refusals 21, 10, 20.
pub(crate) fn acquire<'a>(
    view: &View,
    copy: CopyId,
    title: TitleId,
    kind: CopyKind,
    home: BranchId,
    price: Cents,
    text: &'a Name,
) -> Result<Decision<'a>, Refusal>
    ensures { Decided (acquire_checks view.now copy title kind home price text.now) Done
        (acquire_rows view.now copy title kind home price text.now) result }
{
    let fits = is_large(copy.number())
        && is_large(title.number())
        && is_small(kind.number())
        && price.number() <= HIGHEST_PRICE;
    let row = CopyRow {
        copy,
        title,
        kind,
        home,
        price,
        condition: Condition::Present,
    };
    let differs = differs_title(&view.title, text) || differs_copy(&view.copy, &row);
    if let Some(refusal) = first_refusal(&[
        (Refusal::OutOfLimits, !fits),
        (Refusal::UnknownBranch, view.branch.is_none()),
        (Refusal::OtherContent, differs),
    ]) {
        return Err(refusal);
    }
    Ok(done(acquired(view, row, text)))
}

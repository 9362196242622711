//! The numbers that a command gives to new loans, holds and lines.

ghost use Rattle.std.specs.Prelude.{◌≡◌, unwrap_or};
ghost use Rattle.terms.specs.Limits.{IsMeta};
ghost use Rattle.terms.specs.Pictures.{Picture};
ghost use Rattle.circ_core.specs.Tables.{changed};
ghost use Rattle.store.specs.Numbers.{AreUnused, AreFree, LooksInside, put_after as put_after_of};

use circ_core::{Changes, RowChange};
use circ_tables::{Numbered, get_meta_inside, has_row_inside};
use sqlite::{Alter, Transaction};
use terms::{Fault, HoldRow, LineRow, LoanRow, MetaRow};

/// Returns the row of `meta` that a change puts, otherwise the one that was put before.
fn put_after(change: &RowChange<'_>, before: Option<MetaRow>) -> Option<MetaRow>
    ensures { result ≡ put_after_of change.now before }
{
    match change {
        RowChange::PutMeta(row) => Some(*row),
        _ => before,
    }
}

/// Returns the row of `meta` that the changes put, if they put one.
fn meta_put(changes: &Changes<'_>) -> Option<MetaRow>
    ensures { (P : Picture) → (changed changes.now P).meta ≡ unwrap_or result P.meta }
{
    let mut put = None;
    'places: for place in 0..Changes::PLACES {
        match changes.get(place) {
            Some(change) => put = put_after(change, put),
            None => return put,
        }
    }
    put
}

/// Reads the row of `meta`. Fault 91; 93 unless it is one row within its limits.
fn meta_inside<S: Alter>(tx: &mut Transaction<'_, S>) -> Result<MetaRow, Fault>
    ensures { LooksInside (λ P row. row ≡ P.meta) (λ P. IsMeta P.meta)
        S.Store tx.old tx.new result }
{
    match get_meta_inside(tx) {
        Ok(row) => Ok(row),
        Err(Fault::Stored) => Err(Fault::Stored),
        Err(_) => Err(Fault::Database),
    }
}

/// Looks whether a table has no row with a number from the first to before the last. Fault 91; 93
/// if it has one.
fn are_unused<T: Numbered, S: Alter>(
    tx: &mut Transaction<'_, S>,
    first: u32,
    last: u32,
) -> Result<(), Fault>
    ensures { LooksInside (λ P _. AreUnused (T.table.rows P) first last)
        (λ P. AreUnused (T.table.rows P) first last) S.Store tx.old tx.new result }
{
    'numbers: for number in first..last {
        if has_row_inside::<T, S>(tx, number)? {
            return Err(Fault::Stored);
        }
    }
    Ok(())
}

/// Looks whether the numbers that are given are free if the row of `meta` becomes this one. Fault
/// 91; 93 if one isn't, or `meta` can't be read.
fn are_free<S: Alter>(tx: &mut Transaction<'_, S>, after: &MetaRow) -> Result<(), Fault>
    ensures { LooksInside (λ P _. AreFree P after.now) (λ P. IsMeta P.meta × AreFree P after.now)
        S.Store tx.old tx.new result }
{
    let meta = meta_inside(tx)?;
    are_unused::<LoanRow, S>(tx, meta.next_loan.number(), after.next_loan.number())?;
    are_unused::<HoldRow, S>(tx, meta.next_hold.number(), after.next_hold.number())?;
    are_unused::<LineRow, S>(tx, meta.next_line.number(), after.next_line.number())
}

/// Looks whether the numbers that the changes give are free. Only changes that put `meta` give any.
/// Fault 91; 93 if one isn't free, or `meta` can't be read.
pub(crate) fn numbers_are_free<S: Alter>(
    tx: &mut Transaction<'_, S>,
    changes: &Changes<'_>,
) -> Result<(), Fault>
    ensures { LooksInside (λ P _. AreFree P (changed changes.now P).meta)
        (λ P. IsMeta P.meta × AreFree P (changed changes.now P).meta)
        S.Store tx.old tx.new result }
{
    match meta_put(changes) {
        Some(after) => are_free(tx, &after),
        None => Ok(()),
    }
}

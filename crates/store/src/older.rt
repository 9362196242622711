//! Rows in the tables of older schemas, which the newest leaves empty.

ghost use Rattle.std.specs.Prelude.{◌≡◌, option_map, slice_get};
ghost use Rattle.circ_tables.specs.Shape.{rules1_place};
ghost use Rattle.terms.specs.Limits.{InLimits};
ghost use Rattle.store.specs.Older.{IsFirstOldRow, IsLeastNumber, IsLeastPair};
ghost use Rattle.store.specs.Older.{FindsFirst, FindsOldRow, TellsOldRows};
ghost use Rattle.store.specs.Reads.{Looked, IsReadable};

use crate::idle::committed_is_held;
use crate::store::Store;
use circ_tables::{Numbered, first_old_rules, next_rows};
use sqlite::{Alter, Connection};
use std::alloc::Global;
use terms::{CopyKind, Fault, HoldId, HoldRow1, LoanId, LoanRow1, RuleRow1};

/// A row in a table of older schemas, by the last number of its key.
#[derive(Clone, Copy, Debug, PartialEq, Eq)]
pub enum OldRow {
    /// In `rules`, for this kind of copy.
    Rule(CopyKind),
    /// In `loans`.
    Loan(LoanId),
    /// In `holds`.
    Hold(HoldId),
}

/// Returns the number of the first row of a batch, if any.
fn first_of<R: Numbered>(batch: &[R]) -> Option<u32>
    ensures { result ≡ option_map R.number_of (slice_get batch.now 0) }
{
    match batch.first() {
        Some(row) => Some(row.number()),
        None => None,
    }
}

/// Returns the least number of a table. Faults 90, 91, 93.
fn least_number<R: Numbered, S: Alter>(
    conn: &mut Connection<S>,
    alloc: Global,
    memory: R::Memory,
) -> Result<Option<u32>, Fault>
    ensures { FindsFirst (λ P. IsLeastNumber (R.table.rows P)) R.table.place
        S.Store conn.old conn.new result }
{
    let batch = next_rows::<R, S>(conn, alloc, memory, None)?;
    Ok(first_of(batch.as_slice()))
}

/// Returns the kind of copy of the first row of a batch, if any.
fn first_kind(batch: &[RuleRow1]) -> Option<CopyKind>
    ensures { result ≡ option_map (λ r. r.copy_kind) (slice_get batch.now 0) }
{
    match batch.first() {
        Some(row) => Some(row.copy_kind),
        None => None,
    }
}

/// Returns the kind of copy of the first row of `rules`. Faults 90, 91, 93.
fn least_rule<S: Alter>(conn: &mut Connection<S>, alloc: Global) -> Result<Option<CopyKind>, Fault>
    ensures { FindsFirst (λ P. IsLeastPair P.rules1) rules1_place S.Store conn.old conn.new result }
{
    let batch = first_old_rules(conn, alloc)?;
    Ok(first_kind(batch.as_slice()))
}

/// Finds the first row of the tables of older schemas. Faults 90, 91, 93.
fn old_row<S: Alter>(conn: &mut Connection<S>, alloc: Global) -> Result<Option<OldRow>, Fault>
    ensures { FindsOldRow S.Store conn.old conn.new result }
{
    let rule = least_rule(conn, alloc)?;
    if let Some(kind) = rule {
        return Ok(Some(OldRow::Rule(kind)));
    }
    let loan = least_number::<LoanRow1, S>(conn, alloc, ())?;
    if let Some(loan) = loan {
        return Ok(Some(OldRow::Loan(LoanId::new(loan))));
    }
    let hold = least_number::<HoldRow1, S>(conn, alloc, ())?;
    match hold {
        Some(hold) => Ok(Some(OldRow::Hold(HoldId::new(hold)))),
        None => Ok(None),
    }
}

impl<S: Alter> Store<S> {
    /// Finds the first row of the tables that older schemas have and the newest leaves empty: of
    /// `rules`, else of `loans`, else of `holds`. Faults 90, 91, 93.
    ///
    /// Reads the first batch of each and keeps none.
    pub fn old_row(&mut self, alloc: Global) -> Result<Option<OldRow>, Fault>
        ensures looked { Looked InLimits IsFirstOldRow IsReadable S.Store self.old self.new result }
        ensures tells { TellsOldRows S.Store self.old self.new result }
    {
        committed_is_held(&self.conn);
        old_row(&mut self.conn, alloc)
    }
}

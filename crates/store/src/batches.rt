//! Reading tables that grow with the library, in batches.

ghost use Rattle.std.specs.Prelude.{◌≡◌, ◌++◌, option_map, slice_get, length};
ghost use Rattle.std.specs.Prelude.{◌-◌, OnOk, IfErr};
ghost use Rattle.circ_tables.specs.Kept.{kept};
ghost use Rattle.circ_tables.specs.Reading.{Views};
ghost use Rattle.store.specs.Lists.{AreRows, AllPass, AreKeptByCaller};
ghost use Rattle.store.specs.Legal.{HasLegal, Reviews, OverMaps, IsKeptBatch};
ghost use Rattle.store.specs.Batches.{IsPassedOver, ends_with_caller, with_caller, with_callers};

use circ_tables::{Numbered, first_kept, kept_after, kept_past, next_rows};
use sqlite::{Alter, Connection};
use std::alloc::Global;
use terms::{Fault, KeptRow, Rows, owner_number};

/// Returns the number of the last row of a batch, if any.
pub(crate) fn last_of<R: Numbered>(batch: &[R]) -> Option<u32>
    ensures { result ≡ option_map R.number_of (slice_get batch.now (length batch.now - 1)) }
{
    match batch.last() {
        Some(row) => Some(row.number()),
        None => None,
    }
}

/// Appends the rows of a batch. Fault 90.
fn add_batch<R: Numbered>(rows: &mut Vec<R>, batch: Vec<R>) -> Result<(), Fault>
    ensures rows { OnOk result (rows.new.items ≡ rows.old.items ++ batch.items) }
    ensures fault { IfErr result (λ fault. fault ≡ Fault.Memory) }
{
    for row in batch {
        rows.push(row)?;
    }
    Ok(())
}

/// Reads all rows of a table in batches, by number. Faults 90, 91, 93.
pub(crate) fn read_batches<R: Numbered, S: Alter>(
    conn: &mut Connection<S>,
    alloc: Global,
    memory: R::Memory,
) -> Result<Rows<R>, Fault>
    ensures { Reviews (λ P rows. AreRows (R.table.rows P) R.number_of AllPass rows)
        (HasLegal R.table) S.Store conn.old conn.new result }
{
    let mut rows = Vec::new(alloc);
    let mut after = None;
    'batches: for _batch in 0..u64::MAX {
        let batch = next_rows::<R, S>(conn, alloc, memory, after)?;
        match last_of(batch.as_slice()) {
            Some(last) => after = Some(last),
            None => return Rows::new(rows),
        }
        add_batch(&mut rows, batch)?;
    }
    Rows::new(rows)
}

/// Reads the batch of kept requests after this row. Faults 90, 91, 93.
fn next_kept<S: Alter>(
    conn: &mut Connection<S>,
    alloc: Global,
    last: &KeptRow,
) -> Result<Vec<KeptRow>, Fault>
    ensures view { Views IsPassedOver S.Store conn.old conn.new result }
    ensures batch { OverMaps (λ batch. IsKeptBatch last.now batch.items)
        S.Store conn.old conn.new result }
{
    let more = kept_after(conn, alloc, last.caller, &last.key)?;
    if more.is_empty() {
        kept_past(conn, alloc, last.caller)
    } else {
        Ok(more)
    }
}

/// Returns whether the last of the rows is of the same caller as this one.
fn ends_with_caller(rows: &[KeptRow], row: &KeptRow) -> bool
    ensures { result ≡ ends_with_caller rows.now row.now.caller }
{
    match rows.last() {
        Some(last) => owner_number(last.caller) == owner_number(row.caller),
        None => false,
    }
}

/// Appends a kept request, unless the last one is of the same caller. Fault 90.
fn add_caller(rows: &mut Vec<KeptRow>, row: KeptRow) -> Result<(), Fault>
    ensures rows { OnOk result (rows.new.items ≡ with_caller rows.old.items row) }
    ensures fault { IfErr result (λ fault. fault ≡ Fault.Memory) }
{
    if !ends_with_caller(rows.as_slice(), &row) {
        rows.push(row)?;
    }
    Ok(())
}

/// Appends the first kept request of each caller of a batch, unless the last one is of the same
/// caller. Fault 90.
fn add_callers(rows: &mut Vec<KeptRow>, batch: Vec<KeptRow>) -> Result<(), Fault>
    ensures rows { OnOk result (rows.new.items ≡ with_callers rows.old.items batch.items) }
    ensures fault { IfErr result (λ fault. fault ≡ Fault.Memory) }
{
    for request in batch {
        add_caller(rows, request)?;
    }
    Ok(())
}

/// Reads all kept requests in batches, and keeps the first of each caller in memory. Faults 90, 91,
/// 93. Gives up with 91 after 2^64 - 1 batches: nothing says that no table has as many.
pub(crate) fn kept_by_caller<S: Alter>(
    conn: &mut Connection<S>,
    alloc: Global,
) -> Result<Rows<KeptRow>, Fault>
    ensures { Reviews AreKeptByCaller (HasLegal kept) S.Store conn.old conn.new result }
{
    let mut rows = Vec::new(alloc);
    let mut batch = first_kept(conn, alloc)?;
    'kept: for _batch in 0..u64::MAX {
        let Some(last) = batch.last() else {
            return Rows::new(rows);
        };
        let next = next_kept(conn, alloc, last)?;
        add_callers(&mut rows, batch)?;
        batch = next;
    }
    Err(Fault::Database)
}

//! Reading lists of rows.

ghost use Rattle.std.specs.Prelude.{◌≡◌, ◌≢◌, map, Err, IfOk};
ghost use Rattle.sqlite.specs.Values.{bound};
ghost use Rattle.circ_tables.specs.Reading.{AllEntries, EntriesInside, FirstEntry, CountShown};
ghost use Rattle.std.specs.List.{All};
ghost use Rattle.sqlite.specs.Order.{Row as SqlRow};
ghost use Rattle.sqlite_rules.specs.Lists.{Has};
ghost use Rattle.circ_tables.specs.Reading.{Table as Typed};

use crate::cell::number_at;
use crate::sql_calls::{all_rows, all_rows_inside, first_row};
use sqlite::{Alter, Connection, Row, Transaction};
use sqlite_value::value::ValueRef;
use std::alloc::Global;
use terms::{Count, Fault, Key};

/// A row of one table.
pub trait Table: Drop {
    /// The key of a row.
    type Key: Drop;

    /// What reading a row needs: the allocator if it has texts, else nothing.
    type Memory: Copy;

    ghost table: { Typed Self.Key Self };

    /// Reads a row, within its limits. Faults 90, 91, 93.
    fn read(row: &Row, memory: Self::Memory) -> Result<Self, Fault>
        ensures cells { IfOk result (λ r. row.now ≡ table.cells r) }
        ensures limits { IfOk result (λ r. table.IsLegal r) }
        ensures stored { result ≡ Err Fault.Stored → (r : Self) → table.IsLegal r
            → row.now ≢ table.cells r };
}

/// Reads the rows, each within its limits. Faults 90, 91, 93.
pub fn entries<T: Table>(alloc: Global, memory: T::Memory, rows: &[Row]) -> Result<Vec<T>, Fault>
    ensures cells { IfOk result (λ list. map T.table.cells list.items ≡ rows.now) }
    ensures limits { IfOk result (λ list. All T.table.IsLegal list.items) }
    ensures stored { result ≡ Err Fault.Stored
        → ¬ ((v : SqlRow) → Has rows.now v → (r : T) × T.table.IsLegal r × (v ≡ T.table.cells r)) }
{
    let mut list = Vec::new(alloc);
    'rows: for row in rows {
        let entry = T::read(row, memory)?;
        list.push(entry)?;
    }
    Ok(list)
}

/// Reads the first row of a query, within its limits, if any. Faults 90, 91, 93.
pub fn row_of<T: Table, S: Alter>(
    conn: &mut Connection<S>,
    memory: T::Memory,
    sql: &str,
    params: &[ValueRef<'_>],
) -> Result<Option<T>, Fault>
    ensures { FirstEntry T.table.cells T.table.IsLegal sql.now (bound params.now)
        S.Store conn.old conn.new result }
{
    match &first_row(conn, sql, params)? {
        Some(row) => Ok(Some(T::read(row, memory)?)),
        None => Ok(None),
    }
}

/// Reads all rows of a query, each within its limits. Faults 90, 91, 93.
pub fn rows_of<T: Table, S: Alter>(
    conn: &mut Connection<S>,
    alloc: Global,
    memory: T::Memory,
    sql: &str,
    params: &[ValueRef<'_>],
) -> Result<Vec<T>, Fault>
    ensures { AllEntries (λ l. l.items) T.table.cells T.table.IsLegal sql.now (bound params.now)
        S.Store conn.old conn.new result }
{
    let rows = all_rows(conn, sql, params)?;
    entries(alloc, memory, rows.as_slice())
}

/// Reads all rows of a query inside a transaction, each within its limits. Faults 90, 91, 93.
pub fn rows_inside<T: Table, S: Alter>(
    tx: &mut Transaction<'_, S>,
    alloc: Global,
    memory: T::Memory,
    sql: &str,
    params: &[ValueRef<'_>],
) -> Result<Vec<T>, Fault>
    ensures { EntriesInside (λ l. l.items) T.table.cells T.table.IsLegal sql.now
        (bound params.now) S.Store tx.old tx.new result }
{
    let rows = all_rows_inside(tx, sql, params)?;
    entries(alloc, memory, rows.as_slice())
}

/// Returns the count from a query. Fault 91; 93 from 2^32 on.
pub fn counted<S: Alter>(
    conn: &mut Connection<S>,
    sql: &str,
    params: &[ValueRef<'_>],
) -> Result<Count, Fault>
    ensures { CountShown sql.now (bound params.now) S.Store conn.old conn.new result }
{
    match &first_row(conn, sql, params)? {
        Some(row) => Ok(Count::new(number_at(row, 0, 0, u32::MAX)?)),
        None => Err(Fault::Database),
    }
}

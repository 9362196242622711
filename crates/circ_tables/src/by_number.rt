//! Tables keyed by one number: what each must provide, and the calls built on that.

ghost use Rattle.std.specs.Option.{option_to_list};
ghost use Rattle.std.specs.Prelude.{◌≡◌, ◌<◌, ◌^◌, ℕ};
ghost use Rattle.sqlite.specs.Values.{bound};
ghost use Rattle.sql_maps.specs.Maps.{Listed};
ghost use Rattle.sql_maps.specs.Batches.{FirstRows};
ghost use Rattle.circ_tables.specs.Numbered.{AreTexts, IsNumberTable, next_text, next_given};
ghost use Rattle.circ_tables.specs.Puts.{Runs, PutsRow, TakesRow};
ghost use Rattle.circ_tables.specs.Reading.{Gets, Lists, ListsInside, TellsRowInside};
ghost use Rattle.circ_tables.specs.Selections.{is_any, is_next, least_after};
ghost use Rattle.circ_tables.specs.declared.by_number.TheConstants.{BATCH_ROWS};

use crate::sql_calls::{all_rows_inside, run};
use crate::table::{Table, row_of, rows_inside, rows_of};
use sqlite::types::ToSql;
use sqlite::{Alter, Connection, Transaction, params};
use sqlite_value::value::ValueRef;
use std::alloc::Global;
use terms::{Fault, Number, Ordered};

/// The key of a row: a number, typed by what it numbers.
pub trait RowNumber: Copy {
    ghost value: { Self → ℕ };

    /// Returns the plain number.
    fn row_number(self) -> u32
        ensures { result ≡ value self };
}

impl<T> RowNumber for Number<T> {
    ghost value = { λ n. n };

    fn row_number(self) -> u32 {
        self.number()
    }
}

/// The SQL of a table by its key: put, take or get one row; all rows; the first rows, and those
/// from a key on.
#[derive(Clone, Copy, Debug)]
pub struct Texts {
    pub put: &'static str,
    pub take: &'static str,
    pub get: &'static str,
    pub all: &'static str,
    pub first: &'static str,
    pub batch: &'static str,
}

/// A table keyed by one number, its first column.
pub trait Numbered: Table<Key = u32> + Ordered {
    /// The key of a row.
    type Id: RowNumber;

    ghost number_of: { Self → ℕ };

    /// Returns the row's number.
    fn number(&self) -> u32
        ensures { result ≡ number_of self.now };

    /// Returns the table's SQL.
    fn texts() -> Texts
        ensures { AreTexts Self.table.shape result };

    ghost sound: { IsNumberTable Self.table number_of };

    ghost by_number: { (r s : Self) → number_of r < number_of s → Self.comes_before r s };
}

/// A row of such a table, as written.
pub trait Put {
    type Row: Numbered;

    ghost entry: { Self → Self.Row };

    /// Runs a text with the row's columns as parameters. Fault 91.
    fn run_with<S: Alter>(&self, tx: &mut Transaction<'_, S>, sql: &str) -> Result<(), Fault>
        ensures { Runs sql.now (Self.Row.table.cells (entry self.now))
            S.Store tx.old tx.new result };
}

/// Puts a row. Fault 91, also if it violates a constraint of the table.
pub fn put_row<P: Put, S: Alter>(tx: &mut Transaction<'_, S>, row: &P) -> Result<(), Fault>
    ensures { PutsRow P.Row.table (P.Row.number_of (P.entry row.now)) (P.entry row.now)
        S.Store tx.old tx.new result }
{
    row.run_with(tx, P::Row::texts().put)
}

/// Removes a row, if there is one. Fault 91.
pub fn take_row<T: Numbered, S: Alter>(
    tx: &mut Transaction<'_, S>,
    number: T::Id,
) -> Result<(), Fault>
    ensures { TakesRow T.table (T.Id.value number) S.Store tx.old tx.new result }
{
    run(tx, T::texts().take, params![number.row_number()])
}

/// Reads the row with this number, if there is one. Faults 90 (with texts), 91, 93.
pub fn get_row<T: Numbered, S: Alter>(
    conn: &mut Connection<S>,
    memory: T::Memory,
    number: T::Id,
) -> Result<Option<T>, Fault>
    ensures { Gets T.table (T.Id.value number) S.Store conn.old conn.new result }
{
    row_of(conn, memory, T::texts().get, params![number.row_number()])
}

/// Returns whether a row has this number, inside a transaction, which goes on. Fault 91.
pub fn has_row_inside<T: Numbered, S: Alter>(
    tx: &mut Transaction<'_, S>,
    number: u32,
) -> Result<bool, Fault>
    ensures { TellsRowInside T.table number S.Store tx.old tx.new result }
{
    let rows = all_rows_inside(tx, T::texts().get, params![number])?;
    Ok(!rows.is_empty())
}

/// Reads all rows, by number. Faults 90, 91, 93.
pub fn every_row<T: Numbered, S: Alter>(
    conn: &mut Connection<S>,
    alloc: Global,
    memory: T::Memory,
) -> Result<Vec<T>, Fault>
    ensures { Lists T.table (λ l. l.items) (λ m. Listed m is_any) S.Store conn.old conn.new result }
{
    rows_of(conn, alloc, memory, T::texts().all, &[])
}

/// The number of rows in every batch of a list but the last: the hundred that one answer to a
/// question shows, `terms::MOST_ROWS`, and one more, which tells whether there are more. The SQL of
/// batches names it too.
pub const BATCH_ROWS: usize = 101;

/// Returns the least number after this one. The clause also says that this one has 32 bits, since
/// the result then fits 64.
fn least_after(after: u32) -> i64
    ensures least { result ≡ least_after after }
    ensures range { after < 2 ^ 32 }
{
    i64::from(after) + 1
}

/// The query of a batch: its SQL, and the least number of its rows, if it takes one.
#[derive(Clone, Copy)]
struct Asked {
    text: &'static str,
    least: Option<ValueRef<'static>>,
}

/// Returns the query of the first batch, or of the one after a number. The first takes no number,
/// so that no row is skipped whatever its number.
fn next_batch<T: Numbered>(after: Option<u32>) -> Asked
    ensures text { result.text.now ≡ next_text T.table.shape after }
    ensures given { bound (option_to_list result.least) ≡ next_given after }
{
    match after {
        Some(number) => Asked {
            text: T::texts().batch,
            least: Some(least_after(number).to_sql()),
        },
        None => Asked {
            text: T::texts().first,
            least: None,
        },
    }
}

/// Reads a batch of rows by number, the first or from above this number. Faults 90, 91, 93.
pub fn next_rows<T: Numbered, S: Alter>(
    conn: &mut Connection<S>,
    alloc: Global,
    memory: T::Memory,
    after: Option<u32>,
) -> Result<Vec<T>, Fault>
    ensures { Lists T.table (λ l. l.items) (λ m. FirstRows BATCH_ROWS m (is_next after))
        S.Store conn.old conn.new result }
{
    let asked = next_batch::<T>(after);
    rows_of(conn, alloc, memory, asked.text, asked.least.as_slice())
}

/// The same inside a transaction, which goes on. Faults 90, 91, 93.
pub fn next_rows_inside<T: Numbered, S: Alter>(
    tx: &mut Transaction<'_, S>,
    alloc: Global,
    memory: T::Memory,
    after: Option<u32>,
) -> Result<Vec<T>, Fault>
    ensures { ListsInside T.table (λ l. l.items) (λ m. FirstRows BATCH_ROWS m (is_next after))
        S.Store tx.old tx.new result }
{
    let asked = next_batch::<T>(after);
    rows_inside(tx, alloc, memory, asked.text, asked.least.as_slice())
}

//! The table of single closed days.

ghost use Rattle.std.specs.Prelude.{◌≡◌, ◌≢◌, Err, IfOk, [], map};
ghost use Rattle.sql_maps.specs.Batches.{FirstRowsBy};
ghost use Rattle.sql_maps.specs.Maps.{ListedBy, PairBelow};
ghost use Rattle.circ_tables.specs.ClosedDays.{closed_days};
ghost use Rattle.circ_tables.specs.Puts.{PutsRow, TakesRow};
ghost use Rattle.circ_tables.specs.Reading.{Lists, ListsDays};
ghost use Rattle.circ_tables.specs.Selections.{is_any, is_second_after};
ghost use Rattle.circ_tables.specs.declared.by_number.TheConstants.{BATCH_ROWS};

use crate::cell::{branch_at, day_at, has_width};
use crate::sql_calls::run;
use crate::table::{Table, rows_of};
use calendar::Day;
use sqlite::{Alter, Connection, Row, Transaction, params};
use std::alloc::Global;
use terms::{BranchId, ClosedDayRow, DayNumber, Fault};

impl Table for ClosedDayRow {
    type Key = (u32, u32);

    type Memory = ();

    ghost table = { closed_days };

    /// Reads a row of `closed_days`. Faults 91, 93.
    fn read(row: &Row, _memory: ()) -> Result<ClosedDayRow, Fault> {
        has_width(row, 2)?;
        Ok(ClosedDayRow {
            branch: branch_at(row, 0)?,
            day: day_at(row, 1)?,
        })
    }
}

/// Puts a row of `closed_days`. Fault 91.
pub fn put_closed_day<S: Alter>(
    tx: &mut Transaction<'_, S>,
    branch: BranchId,
    day: Day,
) -> Result<(), Fault>
    ensures { PutsRow closed_days (branch, day) (record { branch = branch; day = day })
        S.Store tx.old tx.new result }
{
    run(
        tx,
        "INSERT INTO closed_days VALUES (?1, ?2) ON CONFLICT (branch, day) DO UPDATE SET day = ?2",
        params![branch.number(), day.number()],
    )
}

/// Removes the row of a branch's closed day, if there is one. Fault 91.
pub fn take_closed_day<S: Alter>(
    tx: &mut Transaction<'_, S>,
    branch: BranchId,
    day: Day,
) -> Result<(), Fault>
    ensures { TakesRow closed_days (branch, day) S.Store tx.old tx.new result }
{
    run(
        tx,
        "DELETE FROM closed_days WHERE branch = ?1 AND day = ?2",
        params![branch.number(), day.number()],
    )
}

/// Reads all rows of `closed_days`, by branch, then by day. Faults 90, 91, 93.
pub fn all_closed_days<S: Alter>(
    conn: &mut Connection<S>,
    alloc: Global,
) -> Result<Vec<ClosedDayRow>, Fault>
    ensures { Lists closed_days (λ l. l.items) (λ m. ListedBy PairBelow m is_any)
        S.Store conn.old conn.new result }
{
    rows_of(
        conn,
        alloc,
        (),
        "SELECT * FROM closed_days ORDER BY branch, day",
        &[],
    )
}

/// The SQL of `closed_days_after`.
pub const CLOSED_DAYS_AFTER_TEXT: &str =
    "SELECT * FROM closed_days WHERE branch = ?1 AND day > ?2 ORDER BY branch, day LIMIT 101";

/// Reads a batch of a branch's single closed days after this one, by day. Faults 90, 91, 93.
pub fn closed_days_after<S: Alter>(
    conn: &mut Connection<S>,
    alloc: Global,
    branch: BranchId,
    after: DayNumber,
) -> Result<Vec<ClosedDayRow>, Fault>
    ensures { Lists closed_days (λ l. l.items)
        (λ m. FirstRowsBy PairBelow BATCH_ROWS m (is_second_after branch after))
        S.Store conn.old conn.new result }
{
    rows_of(
        conn,
        alloc,
        (),
        CLOSED_DAYS_AFTER_TEXT,
        params![branch.number(), after.number()],
    )
}

/// Returns the days of the rows. Fault 90.
fn days_of(alloc: Global, rows: &[ClosedDayRow]) -> Result<Vec<Day>, Fault>
    ensures days { IfOk result (λ days. days.items ≡ map (λ c. c.day) rows.now) }
    ensures fault { result ≢ Err Fault.Stored }
{
    Ok(rows.iter().map(|row| row.day).collect(alloc)?)
}

/// The SQL of `closed_days_of`.
pub const CLOSED_DAYS_OF_TEXT: &str = "SELECT * FROM closed_days WHERE branch = ?1 ORDER BY day";

/// Reads the single closed days of a branch, earliest first. Faults 90, 91, 93.
pub fn closed_days_of<S: Alter>(
    conn: &mut Connection<S>,
    alloc: Global,
    branch: BranchId,
) -> Result<Vec<Day>, Fault>
    ensures { ListsDays (λ l. l.items) branch S.Store conn.old conn.new result }
{
    let closed: Vec<ClosedDayRow> = rows_of(
        conn,
        alloc,
        (),
        CLOSED_DAYS_OF_TEXT,
        params![branch.number()],
    )?;
    days_of(alloc, closed.as_slice())
}

//! The table of copies in transit.

ghost use Rattle.sql_maps.specs.Maps.{First};
ghost use Rattle.sql_maps.specs.Batches.{FirstRows};
ghost use Rattle.circ_tables.specs.Copies.{copies};
ghost use Rattle.circ_tables.specs.Reading.{Lists, Selects};
ghost use Rattle.circ_tables.specs.Selections.{is_transit_to_after, travels_for};
ghost use Rattle.circ_tables.specs.Shape.{transits_place};
ghost use Rattle.circ_tables.specs.Transits.{transits, transits_are};
ghost use Rattle.circ_tables.specs.declared.by_number.TheConstants.{BATCH_ROWS};

use crate::by_number::{Numbered, Put, Texts};
use crate::cell::{branch_at, copy_at, has_width, hold_or_none_at, hold_or_null};
use crate::sql_calls::run;
use crate::table::{Table, row_of, rows_of};
use sqlite::{Alter, Connection, Row, Transaction, params};
use std::alloc::Global;
use terms::{BranchId, CopyId, Fault, HoldId, TransitRow};

impl Table for TransitRow {
    type Key = u32;

    type Memory = ();

    ghost table = { transits };

    /// Reads a row of `transits`. Faults 91, 93.
    fn read(row: &Row, _memory: ()) -> Result<TransitRow, Fault> {
        has_width(row, 3)?;
        Ok(TransitRow {
            copy: copy_at(row, 0)?,
            goal: branch_at(row, 1)?,
            hold: hold_or_none_at(row, 2)?,
        })
    }
}

impl Numbered for TransitRow {
    type Id = CopyId;

    ghost number_of = { λ r. r.copy };

    fn number(&self) -> u32 {
        self.copy.number()
    }

    fn texts() -> Texts {
        Texts {
            put: "INSERT INTO transits VALUES (?1, ?2, ?3) \
                  ON CONFLICT (copy) DO UPDATE SET goal = ?2, hold = ?3",
            take: "DELETE FROM transits WHERE copy = ?1",
            get: "SELECT * FROM transits WHERE copy = ?1",
            all: "SELECT * FROM transits ORDER BY copy",
            first: "SELECT * FROM transits ORDER BY copy LIMIT 101",
            batch: "SELECT * FROM transits WHERE copy >= ?1 ORDER BY copy LIMIT 101",
        }
    }

    ghost sound = { transits_are };

    ghost by_number = { λ r s less. less };
}

impl Put for TransitRow {
    type Row = TransitRow;

    ghost entry = { λ r. r };

    fn run_with<S: Alter>(&self, tx: &mut Transaction<'_, S>, sql: &str) -> Result<(), Fault> {
        run(
            tx,
            sql,
            params![
                self.copy.number(),
                self.goal.number(),
                hold_or_null(self.hold),
            ],
        )
    }
}

/// The SQL of `transit_for`.
pub const TRANSIT_FOR_TEXT: &str = "SELECT * FROM transits WHERE hold = ?1 ORDER BY copy LIMIT 1";

/// Reads the transit for a hold, if any. Faults 91, 93.
pub fn transit_for<S: Alter>(
    conn: &mut Connection<S>,
    hold: HoldId,
) -> Result<Option<TransitRow>, Fault>
    ensures { Selects transits (λ maps. First (maps transits_place) (travels_for hold))
        S.Store conn.old conn.new result }
{
    row_of(conn, (), TRANSIT_FOR_TEXT, params![hold.number()])
}

/// The SQL of `transits_to_after`.
pub const TRANSITS_TO_AFTER_TEXT: &str =
    "SELECT * FROM transits WHERE goal = ?1 AND copy > ?2 ORDER BY copy LIMIT 101";

/// Reads a batch of transits to a branch with copies above this number, by number. Faults 90, 91,
/// 93.
pub fn transits_to_after<S: Alter>(
    conn: &mut Connection<S>,
    alloc: Global,
    branch: BranchId,
    after: CopyId,
) -> Result<Vec<TransitRow>, Fault>
    ensures { Lists transits (λ l. l.items)
        (λ m. FirstRows BATCH_ROWS m (is_transit_to_after branch after))
        S.Store conn.old conn.new result }
{
    rows_of(
        conn,
        alloc,
        (),
        TRANSITS_TO_AFTER_TEXT,
        params![branch.number(), after.number()],
    )
}

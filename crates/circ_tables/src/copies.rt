//! The table of copies.

ghost use Rattle.sql_maps.specs.Maps.{FirstOf, Listed};
ghost use Rattle.sql_maps.specs.Batches.{FirstRows};
ghost use Rattle.circ_tables.specs.Copies.{copies, copies_are};
ghost use Rattle.circ_tables.specs.Reading.{Lists, Selects};
ghost use Rattle.circ_tables.specs.Selections.{StandsFree, is_copy_of, is_copy_of_after};
ghost use Rattle.circ_tables.specs.Selections.{is_missing_after};
ghost use Rattle.circ_tables.specs.Shape.{copies_place, holds_place, loans_place, transits_place};
ghost use Rattle.circ_tables.specs.declared.by_number.TheConstants.{BATCH_ROWS};

use crate::by_number::{Numbered, Put, Texts};
use crate::cell::{
    branch_at, cents_at, condition_at, condition_number, copy_at, copy_kind_at, has_width, money,
    title_at,
};
use crate::sql_calls::run;
use crate::table::{Table, row_of, rows_of};
use sqlite::{Alter, Connection, Row, Transaction, params};
use std::alloc::Global;
use terms::{BranchId, CopyId, CopyRow, Fault, HIGHEST_PRICE, TitleId};

impl Table for CopyRow {
    type Key = u32;

    type Memory = ();

    ghost table = { copies };

    /// Reads a row of `copies`: a price up to 1,000,000 cents. Faults 91, 93.
    fn read(row: &Row, _memory: ()) -> Result<CopyRow, Fault> {
        has_width(row, 6)?;
        Ok(CopyRow {
            copy: copy_at(row, 0)?,
            title: title_at(row, 1)?,
            kind: copy_kind_at(row, 2)?,
            home: branch_at(row, 3)?,
            price: cents_at(row, 4, HIGHEST_PRICE)?,
            condition: condition_at(row, 5)?,
        })
    }
}

impl Numbered for CopyRow {
    type Id = CopyId;

    ghost number_of = { λ r. r.copy };

    fn number(&self) -> u32 {
        self.copy.number()
    }

    fn texts() -> Texts {
        Texts {
            put: "INSERT INTO copies VALUES (?1, ?2, ?3, ?4, ?5, ?6) \
                  ON CONFLICT (copy) DO UPDATE SET title = ?2, kind = ?3, home = ?4, price = ?5, \
                  condition = ?6",
            take: "DELETE FROM copies WHERE copy = ?1",
            get: "SELECT * FROM copies WHERE copy = ?1",
            all: "SELECT * FROM copies ORDER BY copy",
            first: "SELECT * FROM copies ORDER BY copy LIMIT 101",
            batch: "SELECT * FROM copies WHERE copy >= ?1 ORDER BY copy LIMIT 101",
        }
    }

    ghost sound = { copies_are };

    ghost by_number = { λ r s less. less };
}

impl Put for CopyRow {
    type Row = CopyRow;

    ghost entry = { λ r. r };

    fn run_with<S: Alter>(&self, tx: &mut Transaction<'_, S>, sql: &str) -> Result<(), Fault> {
        let price = money(self.price);
        run(
            tx,
            sql,
            params![
                self.copy.number(),
                self.title.number(),
                self.kind.number(),
                self.home.number(),
                price,
                condition_number(self.condition),
            ],
        )
    }
}

/// The SQL of `copies_of_title`.
pub const COPIES_OF_TITLE_TEXT: &str = "SELECT * FROM copies WHERE title = ?1 ORDER BY copy";

/// Reads a title's copies, by number. Faults 90, 91, 93.
pub fn copies_of_title<S: Alter>(
    conn: &mut Connection<S>,
    alloc: Global,
    title: TitleId,
) -> Result<Vec<CopyRow>, Fault>
    ensures { Lists copies (λ l. l.items) (λ m. Listed m (is_copy_of title))
        S.Store conn.old conn.new result }
{
    rows_of(
        conn,
        alloc,
        (),
        COPIES_OF_TITLE_TEXT,
        params![title.number()],
    )
}

/// The SQL of `copies_of_title_after`.
pub const COPIES_OF_TITLE_AFTER_TEXT: &str =
    "SELECT * FROM copies WHERE title = ?1 AND copy > ?2 ORDER BY copy LIMIT 101";

/// Reads a batch of a title's copies above this number, by number. Faults 90, 91, 93.
pub fn copies_of_title_after<S: Alter>(
    conn: &mut Connection<S>,
    alloc: Global,
    title: TitleId,
    after: CopyId,
) -> Result<Vec<CopyRow>, Fault>
    ensures { Lists copies (λ l. l.items)
        (λ m. FirstRows BATCH_ROWS m (is_copy_of_after title after))
        S.Store conn.old conn.new result }
{
    rows_of(
        conn,
        alloc,
        (),
        COPIES_OF_TITLE_AFTER_TEXT,
        params![title.number(), after.number()],
    )
}

/// The SQL of `missing_copies_after`.
pub const MISSING_COPIES_AFTER_TEXT: &str =
    "SELECT * FROM copies WHERE condition = 1 AND copy > ?1 ORDER BY copy LIMIT 101";

/// Reads a batch of missing copies above this number, by number. Faults 90, 91, 93.
pub fn missing_copies_after<S: Alter>(
    conn: &mut Connection<S>,
    alloc: Global,
    after: CopyId,
) -> Result<Vec<CopyRow>, Fault>
    ensures { Lists copies (λ l. l.items) (λ m. FirstRows BATCH_ROWS m (is_missing_after after))
        S.Store conn.old conn.new result }
{
    rows_of(
        conn,
        alloc,
        (),
        MISSING_COPIES_AFTER_TEXT,
        params![after.number()],
    )
}

/// The SQL of `least_shelved`.
pub const LEAST_SHELVED_TEXT: &str =
    "SELECT * FROM copies WHERE title = ?1 AND home = ?2 AND condition = 0 \
     AND NOT EXISTS (SELECT * FROM transits WHERE transits.copy = copies.copy) \
     AND NOT EXISTS (SELECT * FROM holds2 WHERE holds2.copy = copies.copy) \
     AND NOT EXISTS (SELECT * FROM loans3 WHERE loans3.copy = copies.copy \
     AND loans3.ended IS NULL) ORDER BY copy LIMIT 1";

/// Reads the least copy of a title on the shelf of a branch, its home: those present and not
/// claimed by a transit, a hold or an open loan. Faults 91, 93.
pub fn least_shelved<S: Alter>(
    conn: &mut Connection<S>,
    title: TitleId,
    branch: BranchId,
) -> Result<Option<CopyRow>, Fault>
    ensures { Selects copies
        (λ maps. FirstOf (maps copies_place)
        (StandsFree (maps transits_place) (maps holds_place) (maps loans_place) title branch))
        S.Store conn.old conn.new result }
{
    row_of(
        conn,
        (),
        LEAST_SHELVED_TEXT,
        params![title.number(), branch.number()],
    )
}

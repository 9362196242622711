//! The table of patrons.

ghost use Rattle.std.specs.Prelude.{◌^◌};
ghost use Rattle.sql_maps.specs.Batches.{FirstRows};
ghost use Rattle.circ_tables.specs.Patrons.{patrons, patrons_are};
ghost use Rattle.circ_tables.specs.Reading.{Lists};
ghost use Rattle.circ_tables.specs.Selections.{is_debtor_after};
ghost use Rattle.circ_tables.specs.declared.by_number.TheConstants.{BATCH_ROWS};

use crate::by_number::{Numbered, Put, Texts};
use crate::cell::{card_key_at, cents_at, has_width, money, name_at, patron_at, patron_kind_at};
use crate::sql_calls::run;
use crate::table::{Table, rows_of};
use sqlite::{Alter, Connection, Row, Transaction, params};
use std::alloc::Global;
use terms::{Fault, LARGEST_SUM, PatronId, PatronPut, PatronRow};

impl Table for PatronRow {
    type Key = u32;

    type Memory = Global;

    ghost table = { patrons };

    /// Reads a row of `patrons`: a debt below 2^52 cents. Faults 90, 91, 93.
    fn read(row: &Row, alloc: Global) -> Result<PatronRow, Fault> {
        has_width(row, 5)?;
        Ok(PatronRow {
            patron: patron_at(row, 0)?,
            kind: patron_kind_at(row, 1)?,
            card_key: card_key_at(row, alloc, 2)?,
            name: name_at(row, alloc, 3)?,
            owed: cents_at(row, 4, LARGEST_SUM)?,
        })
    }
}

impl Numbered for PatronRow {
    type Id = PatronId;

    ghost number_of = { λ r. r.patron };

    fn number(&self) -> u32 {
        self.patron.number()
    }

    fn texts() -> Texts {
        Texts {
            put: "INSERT INTO patrons VALUES (?1, ?2, ?3, ?4, ?5) \
                  ON CONFLICT (patron) DO UPDATE SET kind = ?2, card_key = ?3, name = ?4, \
                  owed = ?5",
            take: "DELETE FROM patrons WHERE patron = ?1",
            get: "SELECT * FROM patrons WHERE patron = ?1",
            all: "SELECT * FROM patrons ORDER BY patron",
            first: "SELECT * FROM patrons ORDER BY patron LIMIT 101",
            batch: "SELECT * FROM patrons WHERE patron >= ?1 ORDER BY patron LIMIT 101",
        }
    }

    ghost sound = { patrons_are };

    ghost by_number = { λ r s less. less };
}

impl<'a> Put for PatronPut<'a> {
    type Row = PatronRow;

    ghost entry = { λ r. r };

    fn run_with<S: Alter>(&self, tx: &mut Transaction<'_, S>, sql: &str) -> Result<(), Fault> {
        let owed = money(self.owed);
        run(
            tx,
            sql,
            params![
                self.patron.number(),
                self.kind.number(),
                self.card_key.as_str(),
                self.name.as_str(),
                owed,
            ],
        )
    }
}

/// The SQL of `debtors_after`.
pub const DEBTORS_AFTER_TEXT: &str =
    "SELECT * FROM patrons WHERE owed > 0 AND patron > ?1 ORDER BY patron LIMIT 101";

/// Reads a batch of patrons who owe something, above this number, by number. Faults 90, 91, 93.
pub fn debtors_after<S: Alter>(
    conn: &mut Connection<S>,
    alloc: Global,
    after: PatronId,
) -> Result<Vec<PatronRow>, Fault>
    ensures { Lists patrons (λ l. l.items) (λ m. FirstRows BATCH_ROWS m (is_debtor_after after))
        S.Store conn.old conn.new result }
{
    rows_of(
        conn,
        alloc,
        alloc,
        DEBTORS_AFTER_TEXT,
        params![after.number()],
    )
}

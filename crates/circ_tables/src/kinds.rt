//! The table of kinds of patrons.

ghost use Rattle.circ_tables.specs.Holds.{holds};
ghost use Rattle.circ_tables.specs.Kinds.{kinds, kinds_are};
ghost use Rattle.circ_tables.specs.Loans.{loans};
ghost use Rattle.circ_tables.specs.Patrons.{patrons};

use crate::by_number::{Numbered, Put, Texts};
use crate::cell::{cents_at, count_at, has_width, money, patron_kind_at};
use crate::sql_calls::run;
use crate::table::Table;
use sqlite::{Alter, Row, Transaction, params};
use terms::{Fault, HIGHEST_DEBT, KindRow, MOST_ALLOWED, PatronKind};

impl Table for KindRow {
    type Key = u32;

    type Memory = ();

    ghost table = { kinds };

    /// Reads a row of `kinds`: up to 200 loans and 200 holds, and a debt limit up to 1,000,000
    /// cents. Faults 91, 93.
    fn read(row: &Row, _memory: ()) -> Result<KindRow, Fault> {
        has_width(row, 4)?;
        Ok(KindRow {
            kind: patron_kind_at(row, 0)?,
            loans: count_at(row, 1, MOST_ALLOWED)?,
            holds: count_at(row, 2, MOST_ALLOWED)?,
            debt: cents_at(row, 3, HIGHEST_DEBT)?,
        })
    }
}

impl Numbered for KindRow {
    type Id = PatronKind;

    ghost number_of = { λ r. r.kind };

    fn number(&self) -> u32 {
        self.kind.number()
    }

    fn texts() -> Texts {
        Texts {
            put: "INSERT INTO kinds VALUES (?1, ?2, ?3, ?4) \
                  ON CONFLICT (kind) DO UPDATE SET loans = ?2, holds = ?3, debt = ?4",
            take: "DELETE FROM kinds WHERE kind = ?1",
            get: "SELECT * FROM kinds WHERE kind = ?1",
            all: "SELECT * FROM kinds ORDER BY kind",
            first: "SELECT * FROM kinds ORDER BY kind LIMIT 101",
            batch: "SELECT * FROM kinds WHERE kind >= ?1 ORDER BY kind LIMIT 101",
        }
    }

    ghost sound = { kinds_are };

    ghost by_number = { λ r s less. less };
}

impl Put for KindRow {
    type Row = KindRow;

    ghost entry = { λ r. r };

    fn run_with<S: Alter>(&self, tx: &mut Transaction<'_, S>, sql: &str) -> Result<(), Fault> {
        let debt = money(self.debt);
        run(
            tx,
            sql,
            params![
                self.kind.number(),
                self.loans.number(),
                self.holds.number(),
                debt,
            ],
        )
    }
}

//! The table of branches.

ghost use Rattle.circ_tables.specs.Branches.{branches, branches_are};

use crate::by_number::{Numbered, Put, Texts};
use crate::cell::{branch_at, days_at, has_width, letters, mask_of, name_at, week_at};
use crate::sql_calls::run;
use crate::table::Table;
use sqlite::{Alter, Row, Transaction, params};
use std::alloc::Global;
use terms::{BranchId, BranchPut, BranchRow, Fault, LONGEST_PICKUP};

impl Table for BranchRow {
    type Key = u32;

    type Memory = Global;

    ghost table = { branches };

    /// Reads a row of `branches`: a pick-up period of 0 to 60 days. Faults 90, 91, 93.
    fn read(row: &Row, alloc: Global) -> Result<BranchRow, Fault> {
        has_width(row, 4)?;
        Ok(BranchRow {
            branch: branch_at(row, 0)?,
            pickup: days_at(row, 1, 0, LONGEST_PICKUP)?,
            week: week_at(row, 2)?,
            name: name_at(row, alloc, 3)?,
        })
    }
}

impl Numbered for BranchRow {
    type Id = BranchId;

    ghost number_of = { λ r. r.branch };

    fn number(&self) -> u32 {
        self.branch.number()
    }

    fn texts() -> Texts {
        Texts {
            put: "INSERT INTO branches VALUES (?1, ?2, ?3, ?4) \
                  ON CONFLICT (branch) DO UPDATE SET pickup = ?2, week = ?3, name = ?4",
            take: "DELETE FROM branches WHERE branch = ?1",
            get: "SELECT * FROM branches WHERE branch = ?1",
            all: "SELECT * FROM branches ORDER BY branch",
            first: "SELECT * FROM branches ORDER BY branch LIMIT 101",
            batch: "SELECT * FROM branches WHERE branch >= ?1 ORDER BY branch LIMIT 101",
        }
    }

    ghost sound = { branches_are };

    ghost by_number = { λ r s less. less };
}

impl<'a> Put for BranchPut<'a> {
    type Row = BranchRow;

    ghost entry = { λ r. r };

    fn run_with<S: Alter>(&self, tx: &mut Transaction<'_, S>, sql: &str) -> Result<(), Fault> {
        let letters = letters(self.week);
        let week = mask_of(&letters)?;
        run(
            tx,
            sql,
            params![
                self.branch.number(),
                self.pickup.number(),
                week,
                self.name.as_str(),
            ],
        )
    }
}

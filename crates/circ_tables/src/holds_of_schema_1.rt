//! The table of holds in schema 1; empty from schema 2 on.

ghost use Rattle.circ_tables.specs.HoldsOfSchema1.{holds1, holds1_are};

use crate::by_number::{Numbered, Texts};
use crate::cell::{
    branch_at, copy_or_none_at, day_or_none_at, has_width, hold_at, patron_at, state_at, title_at,
};
use crate::table::Table;
use sqlite::Row;
use terms::{Fault, HoldId, HoldRow1, LAST_NUMBER};

impl Table for HoldRow1 {
    type Key = u32;

    type Memory = ();

    ghost table = { holds1 };

    /// Reads a row of `holds`. Faults 91, 93.
    fn read(row: &Row, _memory: ()) -> Result<HoldRow1, Fault> {
        has_width(row, 7)?;
        Ok(HoldRow1 {
            hold: hold_at(row, 0, LAST_NUMBER)?,
            patron: patron_at(row, 1)?,
            title: title_at(row, 2)?,
            branch: branch_at(row, 3)?,
            state: state_at(row, 4)?,
            copy: copy_or_none_at(row, 5)?,
            limit_day: day_or_none_at(row, 6)?,
        })
    }
}

impl Numbered for HoldRow1 {
    type Id = HoldId;

    ghost number_of = { λ r. r.hold };

    fn number(&self) -> u32 {
        self.hold.number()
    }

    fn texts() -> Texts {
        Texts {
            put: "INSERT INTO holds VALUES (?1, ?2, ?3, ?4, ?5, ?6, ?7) \
                  ON CONFLICT (hold) DO UPDATE SET patron = ?2, title = ?3, branch = ?4, \
                  state = ?5, copy = ?6, limit_day = ?7",
            take: "DELETE FROM holds WHERE hold = ?1",
            get: "SELECT * FROM holds WHERE hold = ?1",
            all: "SELECT * FROM holds ORDER BY hold",
            first: "SELECT * FROM holds ORDER BY hold LIMIT 101",
            batch: "SELECT * FROM holds WHERE hold >= ?1 ORDER BY hold LIMIT 101",
        }
    }

    ghost sound = { holds1_are };

    ghost by_number = { λ r s less. less };
}

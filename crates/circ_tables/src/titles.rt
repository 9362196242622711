//! The table of titles.

ghost use Rattle.circ_tables.specs.Titles.{titles, titles_are};

use crate::by_number::{Numbered, Put, Texts};
use crate::cell::{has_width, name_at, title_at};
use crate::sql_calls::run;
use crate::table::Table;
use sqlite::{Alter, Row, Transaction, params};
use std::alloc::Global;
use terms::{Fault, TitleId, TitlePut, TitleRow};

impl Table for TitleRow {
    type Key = u32;

    type Memory = Global;

    ghost table = { titles };

    /// Reads a row of `titles`. Faults 90, 91, 93.
    fn read(row: &Row, alloc: Global) -> Result<TitleRow, Fault> {
        has_width(row, 2)?;
        Ok(TitleRow {
            title: title_at(row, 0)?,
            text: name_at(row, alloc, 1)?,
        })
    }
}

impl Numbered for TitleRow {
    type Id = TitleId;

    ghost number_of = { λ r. r.title };

    fn number(&self) -> u32 {
        self.title.number()
    }

    fn texts() -> Texts {
        Texts {
            put: "INSERT INTO titles VALUES (?1, ?2) ON CONFLICT (title) DO UPDATE SET text = ?2",
            take: "DELETE FROM titles WHERE title = ?1",
            get: "SELECT * FROM titles WHERE title = ?1",
            all: "SELECT * FROM titles ORDER BY title",
            first: "SELECT * FROM titles ORDER BY title LIMIT 101",
            batch: "SELECT * FROM titles WHERE title >= ?1 ORDER BY title LIMIT 101",
        }
    }

    ghost sound = { titles_are };

    ghost by_number = { λ r s less. less };
}

impl<'a> Put for TitlePut<'a> {
    type Row = TitleRow;

    ghost entry = { λ r. r };

    fn run_with<S: Alter>(&self, tx: &mut Transaction<'_, S>, sql: &str) -> Result<(), Fault> {
        run(tx, sql, params![self.title.number(), self.text.as_str()])
    }
}

//! The table of notes, from schema 4 on: where a line was made.

ghost use Rattle.std.specs.Prelude.{◌^◌};
ghost use Rattle.circ_tables.specs.Notes.{notes, notes_are};

use crate::by_number::{Numbered, Put, Texts};
use crate::cell::{branch_at, has_width, line_at, name_or_none_at, name_or_null};
use crate::sql_calls::run;
use crate::table::Table;
use sqlite::{Alter, Row, Transaction, params};
use std::alloc::Global;
use terms::{Fault, LAST_NUMBER, LineId, NotePut, NoteRow};

impl Table for NoteRow {
    type Key = u32;

    type Memory = Global;

    ghost table = { notes };

    /// Reads a row of `notes`. Faults 90, 91, 93.
    fn read(row: &Row, alloc: Global) -> Result<NoteRow, Fault> {
        has_width(row, 3)?;
        Ok(NoteRow {
            line: line_at(row, 0, LAST_NUMBER)?,
            branch: branch_at(row, 1)?,
            text: name_or_none_at(row, alloc, 2)?,
        })
    }
}

impl Numbered for NoteRow {
    type Id = LineId;

    ghost number_of = { λ r. r.line };

    fn number(&self) -> u32 {
        self.line.number()
    }

    fn texts() -> Texts {
        Texts {
            put: "INSERT INTO notes VALUES (?1, ?2, ?3) \
                  ON CONFLICT (line) DO UPDATE SET branch = ?2, text = ?3",
            take: "DELETE FROM notes WHERE line = ?1",
            get: "SELECT * FROM notes WHERE line = ?1",
            all: "SELECT * FROM notes ORDER BY line",
            first: "SELECT * FROM notes ORDER BY line LIMIT 101",
            batch: "SELECT * FROM notes WHERE line >= ?1 ORDER BY line LIMIT 101",
        }
    }

    ghost sound = { notes_are };

    ghost by_number = { λ r s less. less };
}

impl<'a> Put for NotePut<'a> {
    type Row = NoteRow;

    ghost entry = { λ r. r };

    fn run_with<S: Alter>(&self, tx: &mut Transaction<'_, S>, sql: &str) -> Result<(), Fault> {
        run(
            tx,
            sql,
            params![
                self.line.number(),
                self.branch.number(),
                name_or_null(self.text),
            ],
        )
    }
}

//! The table of account lines.

ghost use Rattle.std.specs.Prelude.{◌^◌};
ghost use Rattle.sql_maps.specs.Batches.{FirstRows};
ghost use Rattle.circ_tables.specs.Lines.{lines, lines_are};
ghost use Rattle.circ_tables.specs.Reading.{Lists};
ghost use Rattle.circ_tables.specs.Selections.{is_account_line_after, is_line_after};
ghost use Rattle.circ_tables.specs.declared.by_number.TheConstants.{BATCH_ROWS};

use crate::by_number::{Numbered, Put, Texts};
use crate::cell::{
    cents_at, day_at, has_width, line_at, loan_or_none_at, loan_or_null, money, patron_at, sort_at,
    sort_number,
};
use crate::sql_calls::run;
use crate::table::{Table, rows_of};
use calendar::Day;
use sqlite::{Alter, Connection, Row, Transaction, params};
use std::alloc::Global;
use terms::{Fault, LARGEST_SUM, LAST_NUMBER, LineId, LineRow, PatronId};

impl Table for LineRow {
    type Key = u32;

    type Memory = ();

    ghost table = { lines };

    /// Reads a row of `lines`: an amount below 2^52 cents. Faults 91, 93.
    fn read(row: &Row, _memory: ()) -> Result<LineRow, Fault> {
        has_width(row, 6)?;
        Ok(LineRow {
            line: line_at(row, 0, LAST_NUMBER)?,
            patron: patron_at(row, 1)?,
            day: day_at(row, 2)?,
            sort: sort_at(row, 3)?,
            amount: cents_at(row, 4, LARGEST_SUM)?,
            loan: loan_or_none_at(row, 5)?,
        })
    }
}

impl Numbered for LineRow {
    type Id = LineId;

    ghost number_of = { λ r. r.line };

    fn number(&self) -> u32 {
        self.line.number()
    }

    fn texts() -> Texts {
        Texts {
            put: "INSERT INTO lines VALUES (?1, ?2, ?3, ?4, ?5, ?6) \
                  ON CONFLICT (line) DO UPDATE SET patron = ?2, day = ?3, sort = ?4, amount = ?5, \
                  loan = ?6",
            take: "DELETE FROM lines WHERE line = ?1",
            get: "SELECT * FROM lines WHERE line = ?1",
            all: "SELECT * FROM lines ORDER BY line",
            first: "SELECT * FROM lines ORDER BY line LIMIT 101",
            batch: "SELECT * FROM lines WHERE line >= ?1 ORDER BY line LIMIT 101",
        }
    }

    ghost sound = { lines_are };

    ghost by_number = { λ r s less. less };
}

impl Put for LineRow {
    type Row = LineRow;

    ghost entry = { λ r. r };

    fn run_with<S: Alter>(&self, tx: &mut Transaction<'_, S>, sql: &str) -> Result<(), Fault> {
        let amount = money(self.amount);
        run(
            tx,
            sql,
            params![
                self.line.number(),
                self.patron.number(),
                self.day.number(),
                sort_number(self.sort),
                amount,
                loan_or_null(self.loan),
            ],
        )
    }
}

/// The SQL of `lines_after`.
pub const LINES_AFTER_TEXT: &str =
    "SELECT * FROM lines WHERE day = ?1 AND line > ?2 ORDER BY line LIMIT 101";

/// Reads a batch of a day's lines, of all sorts, above this number, by number. Faults 90, 91, 93.
pub fn lines_after<S: Alter>(
    conn: &mut Connection<S>,
    alloc: Global,
    day: Day,
    after: LineId,
) -> Result<Vec<LineRow>, Fault>
    ensures { Lists lines (λ l. l.items) (λ m. FirstRows BATCH_ROWS m (is_line_after day after))
        S.Store conn.old conn.new result }
{
    rows_of(
        conn,
        alloc,
        (),
        LINES_AFTER_TEXT,
        params![day.number(), after.number()],
    )
}

/// The SQL of `account_lines_after`.
pub const ACCOUNT_LINES_AFTER_TEXT: &str =
    "SELECT * FROM lines WHERE patron = ?1 AND line > ?2 ORDER BY line LIMIT 101";

/// Reads a batch of a patron's account lines above this number, by number. Faults 90, 91, 93.
pub fn account_lines_after<S: Alter>(
    conn: &mut Connection<S>,
    alloc: Global,
    patron: PatronId,
    after: LineId,
) -> Result<Vec<LineRow>, Fault>
    ensures { Lists lines (λ l. l.items)
        (λ m. FirstRows BATCH_ROWS m (is_account_line_after patron after))
        S.Store conn.old conn.new result }
{
    rows_of(
        conn,
        alloc,
        (),
        ACCOUNT_LINES_AFTER_TEXT,
        params![patron.number(), after.number()],
    )
}

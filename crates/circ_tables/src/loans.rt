//! The table of loans, from schema 3 on.

ghost use Rattle.sql_maps.specs.Maps.{First, FirstOf, Listed};
ghost use Rattle.sql_maps.specs.Batches.{FirstRows};
ghost use Rattle.circ_tables.specs.Copies.{copies};
ghost use Rattle.circ_tables.specs.Loans.{loans, loans_are};
ghost use Rattle.circ_tables.specs.Reading.{Counts, Lists, Selects};
ghost use Rattle.circ_tables.specs.Selections.{LendsTitle, is_open_by, is_open_of};
ghost use Rattle.circ_tables.specs.Selections.{is_loan_of_after, is_overdue_after};
ghost use Rattle.circ_tables.specs.Shape.{copies_place, loans_place};
ghost use Rattle.circ_tables.specs.declared.by_number.TheConstants.{BATCH_ROWS};

use crate::by_number::{Numbered, Put, Texts};
use crate::cell::{
    branch_at, cents_at, copy_at, count_at, day_at, day_or_none_at, day_or_null, days_at,
    has_width, loan_at, money, patron_at,
};
use crate::sql_calls::run;
use crate::table::{Table, counted, row_of, rows_of};
use calendar::Day;
use sqlite::{Alter, Connection, Row, Transaction, params};
use std::alloc::Global;
use terms::{
    BranchId, CopyId, Count, Fault, HIGHEST_CAP, HIGHEST_RATE, LAST_NUMBER, LONGEST_PERIOD, LoanId,
    LoanRow, MOST_GRACE, MOST_RENEWALS, PatronId, TitleId,
};

impl Table for LoanRow {
    type Key = u32;

    type Memory = ();

    ghost table = { loans };

    /// Reads a row of `loans3`, within the limits of its rule. Faults 91, 93.
    fn read(row: &Row, _memory: ()) -> Result<LoanRow, Fault> {
        has_width(row, 12)?;
        Ok(LoanRow {
            loan: loan_at(row, 0, LAST_NUMBER)?,
            copy: copy_at(row, 1)?,
            patron: patron_at(row, 2)?,
            branch: branch_at(row, 3)?,
            made: day_at(row, 4)?,
            due: day_at(row, 5)?,
            period: days_at(row, 6, 1, LONGEST_PERIOD)?,
            renewals_left: count_at(row, 7, MOST_RENEWALS)?,
            rate: cents_at(row, 8, HIGHEST_RATE)?,
            cap: cents_at(row, 9, HIGHEST_CAP)?,
            ended: day_or_none_at(row, 10)?,
            grace: days_at(row, 11, 0, MOST_GRACE)?,
        })
    }
}

impl Numbered for LoanRow {
    type Id = LoanId;

    ghost number_of = { λ r. r.loan };

    fn number(&self) -> u32 {
        self.loan.number()
    }

    fn texts() -> Texts {
        Texts {
            put: "INSERT INTO loans3 VALUES (?1, ?2, ?3, ?4, ?5, ?6, ?7, ?8, ?9, ?10, ?11, ?12) \
                  ON CONFLICT (loan) DO UPDATE SET copy = ?2, patron = ?3, branch = ?4, made = ?5, \
                  due = ?6, period = ?7, renewals_left = ?8, rate = ?9, cap = ?10, ended = ?11, \
                  grace = ?12",
            take: "DELETE FROM loans3 WHERE loan = ?1",
            get: "SELECT * FROM loans3 WHERE loan = ?1",
            all: "SELECT * FROM loans3 ORDER BY loan",
            first: "SELECT * FROM loans3 ORDER BY loan LIMIT 101",
            batch: "SELECT * FROM loans3 WHERE loan >= ?1 ORDER BY loan LIMIT 101",
        }
    }

    ghost sound = { loans_are };

    ghost by_number = { λ r s less. less };
}

impl Put for LoanRow {
    type Row = LoanRow;

    ghost entry = { λ r. r };

    fn run_with<S: Alter>(&self, tx: &mut Transaction<'_, S>, sql: &str) -> Result<(), Fault> {
        let rate = money(self.rate);
        let cap = money(self.cap);
        run(
            tx,
            sql,
            params![
                self.loan.number(),
                self.copy.number(),
                self.patron.number(),
                self.branch.number(),
                self.made.number(),
                self.due.number(),
                self.period.number(),
                self.renewals_left.number(),
                rate,
                cap,
                day_or_null(self.ended),
                self.grace.number(),
            ],
        )
    }
}

/// The SQL of `open_loan_of`.
pub const OPEN_LOAN_OF_TEXT: &str =
    "SELECT * FROM loans3 WHERE copy = ?1 AND ended IS NULL ORDER BY loan LIMIT 1";

/// Reads the open loan of a copy, if it is on loan. Faults 91, 93.
pub fn open_loan_of<S: Alter>(
    conn: &mut Connection<S>,
    copy: CopyId,
) -> Result<Option<LoanRow>, Fault>
    ensures { Selects loans (λ maps. First (maps loans_place) (is_open_of copy))
        S.Store conn.old conn.new result }
{
    row_of(conn, (), OPEN_LOAN_OF_TEXT, params![copy.number()])
}

/// The SQL of `open_loan_of_title`.
pub const OPEN_LOAN_OF_TITLE_TEXT: &str =
    "SELECT * FROM loans3 WHERE patron = ?1 AND ended IS NULL AND EXISTS (SELECT * FROM copies \
     WHERE copies.copy = loans3.copy AND copies.title = ?2) ORDER BY loan LIMIT 1";

/// Reads a patron's least open loan of a copy of the title, if any. Faults 91, 93.
pub fn open_loan_of_title<S: Alter>(
    conn: &mut Connection<S>,
    patron: PatronId,
    title: TitleId,
) -> Result<Option<LoanRow>, Fault>
    ensures { Selects loans
        (λ maps. FirstOf (maps loans_place) (LendsTitle (maps copies_place) patron title))
        S.Store conn.old conn.new result }
{
    row_of(
        conn,
        (),
        OPEN_LOAN_OF_TITLE_TEXT,
        params![patron.number(), title.number()],
    )
}

/// The SQL of `count_open_loans`.
pub const COUNT_OPEN_LOANS_TEXT: &str =
    "SELECT COUNT(*) FROM loans3 WHERE patron = ?1 AND ended IS NULL";

/// Counts the patron's open loans. Fault 91; 93 from 2^32 on.
pub fn count_open_loans<S: Alter>(
    conn: &mut Connection<S>,
    patron: PatronId,
) -> Result<Count, Fault>
    ensures { Counts loans (is_open_by patron) S.Store conn.old conn.new result }
{
    counted(conn, COUNT_OPEN_LOANS_TEXT, params![patron.number()])
}

/// The SQL of `open_loans_by`.
pub const OPEN_LOANS_BY_TEXT: &str =
    "SELECT * FROM loans3 WHERE patron = ?1 AND ended IS NULL ORDER BY loan";

/// Reads a patron's open loans, by number. Faults 90, 91, 93.
pub fn open_loans_by<S: Alter>(
    conn: &mut Connection<S>,
    alloc: Global,
    patron: PatronId,
) -> Result<Vec<LoanRow>, Fault>
    ensures { Lists loans (λ l. l.items) (λ m. Listed m (is_open_by patron))
        S.Store conn.old conn.new result }
{
    rows_of(
        conn,
        alloc,
        (),
        OPEN_LOANS_BY_TEXT,
        params![patron.number()],
    )
}

/// The SQL of `overdue_loans_after`.
pub const OVERDUE_LOANS_AFTER_TEXT: &str =
    "SELECT * FROM loans3 WHERE branch = ?1 AND ended IS NULL AND due < ?2 AND loan > ?3 \
     ORDER BY loan LIMIT 101";

/// Reads a batch of open loans that the branch made, due before the day, above this number, by
/// number. Faults 90, 91, 93.
pub fn overdue_loans_after<S: Alter>(
    conn: &mut Connection<S>,
    alloc: Global,
    branch: BranchId,
    day: Day,
    after: LoanId,
) -> Result<Vec<LoanRow>, Fault>
    ensures { Lists loans (λ l. l.items)
        (λ m. FirstRows BATCH_ROWS m (is_overdue_after branch day after))
        S.Store conn.old conn.new result }
{
    rows_of(
        conn,
        alloc,
        (),
        OVERDUE_LOANS_AFTER_TEXT,
        params![branch.number(), day.number(), after.number()],
    )
}

/// The SQL of `loans_of_copy_after`.
pub const LOANS_OF_COPY_AFTER_TEXT: &str =
    "SELECT * FROM loans3 WHERE copy = ?1 AND loan > ?2 ORDER BY loan LIMIT 101";

/// Reads a batch of the loans ever made of a copy, above this number, by number. Faults 90, 91, 93.
pub fn loans_of_copy_after<S: Alter>(
    conn: &mut Connection<S>,
    alloc: Global,
    copy: CopyId,
    after: LoanId,
) -> Result<Vec<LoanRow>, Fault>
    ensures { Lists loans (λ l. l.items)
        (λ m. FirstRows BATCH_ROWS m (is_loan_of_after copy after))
        S.Store conn.old conn.new result }
{
    rows_of(
        conn,
        alloc,
        (),
        LOANS_OF_COPY_AFTER_TEXT,
        params![copy.number(), after.number()],
    )
}

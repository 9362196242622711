//! The table of loans in schemas 1 and 2; empty from schema 3 on.

ghost use Rattle.circ_tables.specs.LoansOfSchema1.{loans1, loans1_are};

use crate::by_number::{Numbered, Texts};
use crate::cell::{
    branch_at, cents_at, copy_at, count_at, day_at, day_or_none_at, days_at, has_width, loan_at,
    patron_at,
};
use crate::table::Table;
use sqlite::Row;
use terms::{
    Fault, HIGHEST_CAP, HIGHEST_RATE, LAST_NUMBER, LONGEST_PERIOD, LoanId, LoanRow1, MOST_RENEWALS,
};

impl Table for LoanRow1 {
    type Key = u32;

    type Memory = ();

    ghost table = { loans1 };

    /// Reads a row of `loans`. Faults 91, 93.
    fn read(row: &Row, _memory: ()) -> Result<LoanRow1, Fault> {
        has_width(row, 11)?;
        Ok(LoanRow1 {
            loan: loan_at(row, 0, LAST_NUMBER)?,
            copy: copy_at(row, 1)?,
            patron: patron_at(row, 2)?,
            branch: branch_at(row, 3)?,
            made: day_at(row, 4)?,
            due: day_at(row, 5)?,
            period: days_at(row, 6, 1, LONGEST_PERIOD)?,
            renewals_left: count_at(row, 7, MOST_RENEWALS)?,
            rate: cents_at(row, 8, HIGHEST_RATE)?,
            cap: cents_at(row, 9, HIGHEST_CAP)?,
            ended: day_or_none_at(row, 10)?,
        })
    }
}

impl Numbered for LoanRow1 {
    type Id = LoanId;

    ghost number_of = { λ r. r.loan };

    fn number(&self) -> u32 {
        self.loan.number()
    }

    fn texts() -> Texts {
        Texts {
            put: "INSERT INTO loans VALUES (?1, ?2, ?3, ?4, ?5, ?6, ?7, ?8, ?9, ?10, ?11) \
                  ON CONFLICT (loan) DO UPDATE SET copy = ?2, patron = ?3, branch = ?4, made = ?5, \
                  due = ?6, period = ?7, renewals_left = ?8, rate = ?9, cap = ?10, ended = ?11",
            take: "DELETE FROM loans WHERE loan = ?1",
            get: "SELECT * FROM loans WHERE loan = ?1",
            all: "SELECT * FROM loans ORDER BY loan",
            first: "SELECT * FROM loans ORDER BY loan LIMIT 101",
            batch: "SELECT * FROM loans WHERE loan >= ?1 ORDER BY loan LIMIT 101",
        }
    }

    ghost sound = { loans1_are };

    ghost by_number = { λ r s less. less };
}

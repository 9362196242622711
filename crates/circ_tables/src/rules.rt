//! The table of circulation rules, from schema 3 on.

ghost use Rattle.std.specs.Prelude.{[]};
ghost use Rattle.sql_maps.specs.Batches.{FirstRowsBy};
ghost use Rattle.sql_maps.specs.Maps.{ListedBy, PairBelow};
ghost use Rattle.circ_tables.specs.Puts.{PutsRow};
ghost use Rattle.circ_tables.specs.Reading.{Gets, Lists};
ghost use Rattle.circ_tables.specs.Rules.{rules};
ghost use Rattle.circ_tables.specs.Selections.{is_any, is_second_after};
ghost use Rattle.circ_tables.specs.declared.by_number.TheConstants.{BATCH_ROWS};

use crate::cell::{cents_at, copy_kind_at, count_at, days_at, has_width, money, patron_kind_at};
use crate::sql_calls::run;
use crate::table::{Table, row_of, rows_of};
use sqlite::{Alter, Connection, Row, Transaction, params};
use std::alloc::Global;
use terms::{
    CopyKind, Fault, HIGHEST_CAP, HIGHEST_RATE, LONGEST_PERIOD, MOST_GRACE, MOST_RENEWALS,
    PatronKind, RuleRow,
};

impl Table for RuleRow {
    type Key = (u32, u32);

    type Memory = ();

    ghost table = { rules };

    /// Reads a row of `rules3`: a period of 1 to 365 days, up to 99 renewals, a rate up to 10,000
    /// and a cap up to 100,000 cents, and up to 365 grace days. Faults 91, 93.
    fn read(row: &Row, _memory: ()) -> Result<RuleRow, Fault> {
        has_width(row, 7)?;
        Ok(RuleRow {
            kind: patron_kind_at(row, 0)?,
            copy_kind: copy_kind_at(row, 1)?,
            period: days_at(row, 2, 1, LONGEST_PERIOD)?,
            renewals: count_at(row, 3, MOST_RENEWALS)?,
            rate: cents_at(row, 4, HIGHEST_RATE)?,
            cap: cents_at(row, 5, HIGHEST_CAP)?,
            grace: days_at(row, 6, 0, MOST_GRACE)?,
        })
    }
}

/// Puts a row of `rules3`. Fault 91.
pub fn put_rule<S: Alter>(tx: &mut Transaction<'_, S>, row: &RuleRow) -> Result<(), Fault>
    ensures { PutsRow rules (row.now.kind, row.now.copy_kind) row.now S.Store tx.old tx.new result }
{
    let rate = money(row.rate);
    let cap = money(row.cap);
    run(
        tx,
        "INSERT INTO rules3 VALUES (?1, ?2, ?3, ?4, ?5, ?6, ?7) ON CONFLICT (kind, \
         copy_kind) DO UPDATE SET period = ?3, renewals = ?4, rate = ?5, cap = ?6, grace = ?7",
        params![
            row.kind.number(),
            row.copy_kind.number(),
            row.period.number(),
            row.renewals.number(),
            rate,
            cap,
            row.grace.number(),
        ],
    )
}

/// Reads the circulation rule of a kind of patron and a kind of copy, if any. Faults 91, 93.
pub fn get_rule<S: Alter>(
    conn: &mut Connection<S>,
    kind: PatronKind,
    copy_kind: CopyKind,
) -> Result<Option<RuleRow>, Fault>
    ensures { Gets rules (kind, copy_kind) S.Store conn.old conn.new result }
{
    row_of(
        conn,
        (),
        "SELECT * FROM rules3 WHERE kind = ?1 AND copy_kind = ?2",
        params![kind.number(), copy_kind.number()],
    )
}

/// Reads all rows of `rules3`, by kind of patron, then by kind of copy. Faults 90, 91, 93.
pub fn all_rules<S: Alter>(conn: &mut Connection<S>, alloc: Global) -> Result<Vec<RuleRow>, Fault>
    ensures { Lists rules (λ l. l.items) (λ m. ListedBy PairBelow m is_any)
        S.Store conn.old conn.new result }
{
    rows_of(
        conn,
        alloc,
        (),
        "SELECT * FROM rules3 ORDER BY kind, copy_kind",
        &[],
    )
}

/// The SQL of `rules_after`.
pub const RULES_AFTER_TEXT: &str =
    "SELECT * FROM rules3 WHERE kind = ?1 AND copy_kind > ?2 ORDER BY kind, copy_kind LIMIT 101";

/// Reads a batch of the rules of a kind of patron for kinds of copy above this one, by kind of
/// copy. Faults 90, 91, 93.
pub fn rules_after<S: Alter>(
    conn: &mut Connection<S>,
    alloc: Global,
    kind: PatronKind,
    after: CopyKind,
) -> Result<Vec<RuleRow>, Fault>
    ensures { Lists rules (λ l. l.items)
        (λ m. FirstRowsBy PairBelow BATCH_ROWS m (is_second_after kind after))
        S.Store conn.old conn.new result }
{
    rows_of(
        conn,
        alloc,
        (),
        RULES_AFTER_TEXT,
        params![kind.number(), after.number()],
    )
}

//! The table of circulation rules in schemas 1 and 2; empty from schema 3 on.

ghost use Rattle.std.specs.Prelude.{[]};
ghost use Rattle.sql_maps.specs.Batches.{FirstRowsBy};
ghost use Rattle.sql_maps.specs.Maps.{ListedBy, PairBelow};
ghost use Rattle.circ_tables.specs.Puts.{TakesRow};
ghost use Rattle.circ_tables.specs.Reading.{Lists, ListsInside};
ghost use Rattle.circ_tables.specs.RulesOfSchema1.{rules1};
ghost use Rattle.circ_tables.specs.Selections.{is_any};
ghost use Rattle.circ_tables.specs.declared.by_number.TheConstants.{BATCH_ROWS};

use crate::cell::{cents_at, copy_kind_at, count_at, days_at, has_width, patron_kind_at};
use crate::sql_calls::run;
use crate::table::{Table, rows_inside, rows_of};
use sqlite::{Alter, Connection, Row, Transaction, params};
use std::alloc::Global;
use terms::{
    CopyKind, Fault, HIGHEST_CAP, HIGHEST_RATE, LONGEST_PERIOD, MOST_RENEWALS, PatronKind, RuleRow1,
};

impl Table for RuleRow1 {
    type Key = (u32, u32);

    type Memory = ();

    ghost table = { rules1 };

    /// Reads a row of `rules`. Faults 91, 93.
    fn read(row: &Row, _memory: ()) -> Result<RuleRow1, Fault> {
        has_width(row, 6)?;
        Ok(RuleRow1 {
            kind: patron_kind_at(row, 0)?,
            copy_kind: copy_kind_at(row, 1)?,
            period: days_at(row, 2, 1, LONGEST_PERIOD)?,
            renewals: count_at(row, 3, MOST_RENEWALS)?,
            rate: cents_at(row, 4, HIGHEST_RATE)?,
            cap: cents_at(row, 5, HIGHEST_CAP)?,
        })
    }
}

/// Reads all rows of `rules` inside a transaction, which goes on: by kind of patron, then by kind
/// of copy. Faults 90, 91, 93.
pub fn rules_inside<S: Alter>(
    tx: &mut Transaction<'_, S>,
    alloc: Global,
) -> Result<Vec<RuleRow1>, Fault>
    ensures { ListsInside rules1 (λ l. l.items) (λ m. ListedBy PairBelow m is_any)
        S.Store tx.old tx.new result }
{
    rows_inside(
        tx,
        alloc,
        (),
        "SELECT * FROM rules ORDER BY kind, copy_kind",
        &[],
    )
}

/// The SQL of `first_old_rules`.
pub const FIRST_OLD_RULES_TEXT: &str = "SELECT * FROM rules ORDER BY kind, copy_kind LIMIT 101";

/// Reads the first batch of `rules`, by kind of patron, then by kind of copy. Faults 90, 91, 93.
pub fn first_old_rules<S: Alter>(
    conn: &mut Connection<S>,
    alloc: Global,
) -> Result<Vec<RuleRow1>, Fault>
    ensures { Lists rules1 (λ l. l.items) (λ m. FirstRowsBy PairBelow BATCH_ROWS m is_any)
        S.Store conn.old conn.new result }
{
    rows_of(conn, alloc, (), FIRST_OLD_RULES_TEXT, &[])
}

/// Removes the row of `rules` for a kind of patron and a kind of copy, if there is one. Fault 91.
pub fn take_old_rule<S: Alter>(
    tx: &mut Transaction<'_, S>,
    kind: PatronKind,
    copy_kind: CopyKind,
) -> Result<(), Fault>
    ensures { TakesRow rules1 (kind, copy_kind) S.Store tx.old tx.new result }
{
    run(
        tx,
        "DELETE FROM rules WHERE kind = ?1 AND copy_kind = ?2",
        params![kind.number(), copy_kind.number()],
    )
}

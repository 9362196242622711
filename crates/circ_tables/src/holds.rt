//! The table of holds, from schema 2 on.

ghost use Rattle.std.specs.Prelude.{◌≡◌, ◌⊎◌, ◌<◌, ◌≤◌, true, MatchBool, MatchOption};
ghost use Rattle.sql_maps.specs.Maps.{First, FirstOf, FirstOfBy, Listed};
ghost use Rattle.sql_maps.specs.Batches.{FirstRows};
ghost use Rattle.circ_tables.specs.Holds.{holds, holds_are};
ghost use Rattle.circ_tables.specs.Reading.{Counts, Lists, Selects};
ghost use Rattle.circ_tables.specs.Selections.{BeginsBefore, StandsInLine, Waits, WaitsSince};
ghost use Rattle.circ_tables.specs.Selections.{is_active_by, is_active_for, is_active_on};
ghost use Rattle.circ_tables.specs.Selections.{is_ready_after};
ghost use Rattle.circ_tables.specs.Selections.{is_waiting_after, is_waiting_for_after, names_copy};
ghost use Rattle.circ_tables.specs.Shape.{holds_place, transits_place};
ghost use Rattle.circ_tables.specs.Transits.{transits};
ghost use Rattle.circ_tables.specs.declared.by_number.TheConstants.{BATCH_ROWS};

use crate::by_number::{Numbered, Put, Texts};
use crate::cell::{
    branch_at, copy_or_none_at, copy_or_null, day_or_none_at, day_or_null, has_width, hold_at,
    patron_at, state_at, state_number, title_at,
};
use crate::sql_calls::run;
use crate::table::{Table, counted, row_of, rows_of};
use calendar::Day;
use sqlite::{Alter, Connection, Row, Transaction, params};
use std::alloc::Global;
use terms::{BranchId, CopyId, Count, Fault, HoldId, HoldRow, LAST_NUMBER, PatronId, TitleId};

impl Table for HoldRow {
    type Key = u32;

    type Memory = ();

    ghost table = { holds };

    /// Reads a row of `holds2`. Faults 91, 93.
    fn read(row: &Row, _memory: ()) -> Result<HoldRow, Fault> {
        has_width(row, 8)?;
        Ok(HoldRow {
            hold: hold_at(row, 0, LAST_NUMBER)?,
            patron: patron_at(row, 1)?,
            title: title_at(row, 2)?,
            branch: branch_at(row, 3)?,
            state: state_at(row, 4)?,
            copy: copy_or_none_at(row, 5)?,
            limit_day: day_or_none_at(row, 6)?,
            first_day: day_or_none_at(row, 7)?,
        })
    }
}

impl Numbered for HoldRow {
    type Id = HoldId;

    ghost number_of = { λ r. r.hold };

    fn number(&self) -> u32 {
        self.hold.number()
    }

    fn texts() -> Texts {
        Texts {
            put: "INSERT INTO holds2 VALUES (?1, ?2, ?3, ?4, ?5, ?6, ?7, ?8) \
                  ON CONFLICT (hold) DO UPDATE SET patron = ?2, title = ?3, branch = ?4, \
                  state = ?5, copy = ?6, limit_day = ?7, first_day = ?8",
            take: "DELETE FROM holds2 WHERE hold = ?1",
            get: "SELECT * FROM holds2 WHERE hold = ?1",
            all: "SELECT * FROM holds2 ORDER BY hold",
            first: "SELECT * FROM holds2 ORDER BY hold LIMIT 101",
            batch: "SELECT * FROM holds2 WHERE hold >= ?1 ORDER BY hold LIMIT 101",
        }
    }

    ghost sound = { holds_are };

    ghost by_number = { λ r s less. less };
}

impl Put for HoldRow {
    type Row = HoldRow;

    ghost entry = { λ r. r };

    fn run_with<S: Alter>(&self, tx: &mut Transaction<'_, S>, sql: &str) -> Result<(), Fault> {
        run(
            tx,
            sql,
            params![
                self.hold.number(),
                self.patron.number(),
                self.title.number(),
                self.branch.number(),
                state_number(self.state),
                copy_or_null(self.copy),
                day_or_null(self.limit_day),
                day_or_null(self.first_day),
            ],
        )
    }
}

/// The SQL of `ready_hold_of`.
pub const READY_HOLD_OF_TEXT: &str = "SELECT * FROM holds2 WHERE copy = ?1 ORDER BY hold LIMIT 1";

/// Reads the hold that names the copy, if any. Faults 91, 93.
pub fn ready_hold_of<S: Alter>(
    conn: &mut Connection<S>,
    copy: CopyId,
) -> Result<Option<HoldRow>, Fault>
    ensures { Selects holds (λ maps. First (maps holds_place) (names_copy copy))
        S.Store conn.old conn.new result }
{
    row_of(conn, (), READY_HOLD_OF_TEXT, params![copy.number()])
}

/// The SQL of `first_waiting`.
pub const FIRST_WAITING_TEXT: &str =
    "SELECT * FROM holds2 WHERE title = ?1 AND state = 0 AND NOT EXISTS (SELECT * FROM transits \
     WHERE transits.hold = holds2.hold) ORDER BY first_day, hold LIMIT 1";

/// Reads the waiting hold for a title, without a travelling copy, that begins first: those without
/// a first day, then by earliest first day; among equals the least number. Faults 91, 93.
///
/// This is the order of the index, where NULL comes first, so no row is read after it.
fn first_waiting<S: Alter>(
    conn: &mut Connection<S>,
    title: TitleId,
) -> Result<Option<HoldRow>, Fault>
    ensures { Selects holds
        (λ maps. FirstOfBy BeginsBefore (maps holds_place) (Waits (maps transits_place) title))
        S.Store conn.old conn.new result }
{
    row_of(conn, (), FIRST_WAITING_TEXT, params![title.number()])
}

/// The SQL of `first_begun`.
pub const FIRST_BEGUN_TEXT: &str =
    "SELECT * FROM holds2 WHERE title = ?1 AND state = 0 AND first_day >= 0 AND first_day <= ?2 \
     AND NOT EXISTS (SELECT * FROM transits WHERE transits.hold = holds2.hold) \
     ORDER BY hold LIMIT 1";

/// Reads the least waiting hold for a title, without a travelling copy, whose first day has come.
/// Faults 91, 93.
///
/// The days are a range of the index. It names the lower end too, since a plan without one starts
/// at the holds without a first day, and there may be many.
fn first_begun<S: Alter>(
    conn: &mut Connection<S>,
    title: TitleId,
    today: Day,
) -> Result<Option<HoldRow>, Fault>
    ensures { Selects holds
        (λ maps. FirstOf (maps holds_place) (WaitsSince (maps transits_place) title today))
        S.Store conn.old conn.new result }
{
    row_of(
        conn,
        (),
        FIRST_BEGUN_TEXT,
        params![title.number(), today.number()],
    )
}

/// Returns whether the hold has no first day, or one not after this day.
fn has_begun(hold: &HoldRow, today: Day) -> bool
    ensures { MatchOption hold.now.first_day (result ≡ true)
        (λ day. MatchBool result (day ≤ today) (today < day)) }
{
    match hold.first_day {
        Some(day) => day.number() <= today.number(),
        None => true,
    }
}

/// Returns the hold with the lesser number.
fn lesser(hold: HoldRow, other: Option<HoldRow>) -> HoldRow
    ensures { MatchOption other (result ≡ hold)
        (λ row. ((result ≡ hold) × (hold.hold < row.hold))
        ⊎ ((result ≡ row) × (row.hold ≤ hold.hold))) }
{
    match other {
        Some(row) => {
            if hold.hold.number() < row.hold.number() {
                hold
            } else {
                row
            }
        },
        None => hold,
    }
}

/// Reads the first in a title's queue: the least waiting hold without a travelling copy and without
/// a first day after today. Faults 91, 93.
///
/// Looks at two rows. If even the hold that begins first hasn't begun, none has. Otherwise the
/// first in the queue is that hold or the least of those whose first day has come; these include
/// the former if it has a first day.
pub fn first_in_line<S: Alter>(
    conn: &mut Connection<S>,
    title: TitleId,
    today: Day,
) -> Result<Option<HoldRow>, Fault>
    ensures { Selects holds
        (λ maps. FirstOf (maps holds_place) (StandsInLine (maps transits_place) title today))
        S.Store conn.old conn.new result }
{
    let Some(waiting) = first_waiting(conn, title)? else {
        return Ok(None);
    };
    if !has_begun(&waiting, today) {
        return Ok(None);
    }
    let begun = first_begun(conn, title, today)?;
    Ok(Some(lesser(waiting, begun)))
}

/// The SQL of `count_active_holds`.
pub const COUNT_ACTIVE_HOLDS_TEXT: &str =
    "SELECT COUNT(*) FROM holds2 WHERE patron = ?1 AND state <= 1";

/// Counts the patron's waiting and ready holds. Fault 91; 93 from 2^32 on.
pub fn count_active_holds<S: Alter>(
    conn: &mut Connection<S>,
    patron: PatronId,
) -> Result<Count, Fault>
    ensures { Counts holds (is_active_by patron) S.Store conn.old conn.new result }
{
    counted(conn, COUNT_ACTIVE_HOLDS_TEXT, params![patron.number()])
}

/// The SQL of `count_active_holds_on`.
pub const COUNT_ACTIVE_HOLDS_ON_TEXT: &str =
    "SELECT COUNT(*) FROM holds2 WHERE patron = ?1 AND title = ?2 AND state <= 1";

/// Counts the patron's waiting and ready holds on the title. Fault 91; 93 from 2^32 on.
pub fn count_active_holds_on<S: Alter>(
    conn: &mut Connection<S>,
    patron: PatronId,
    title: TitleId,
) -> Result<Count, Fault>
    ensures { Counts holds (is_active_on patron title) S.Store conn.old conn.new result }
{
    counted(
        conn,
        COUNT_ACTIVE_HOLDS_ON_TEXT,
        params![patron.number(), title.number()],
    )
}

/// The SQL of `active_holds_by`.
pub const ACTIVE_HOLDS_BY_TEXT: &str =
    "SELECT * FROM holds2 WHERE patron = ?1 AND state <= 1 ORDER BY hold";

/// Reads a patron's waiting and ready holds, by number. Faults 90, 91, 93.
pub fn active_holds_by<S: Alter>(
    conn: &mut Connection<S>,
    alloc: Global,
    patron: PatronId,
) -> Result<Vec<HoldRow>, Fault>
    ensures { Lists holds (λ l. l.items) (λ m. Listed m (is_active_by patron))
        S.Store conn.old conn.new result }
{
    rows_of(
        conn,
        alloc,
        (),
        ACTIVE_HOLDS_BY_TEXT,
        params![patron.number()],
    )
}

/// The SQL of `active_holds_for`.
pub const ACTIVE_HOLDS_FOR_TEXT: &str =
    "SELECT * FROM holds2 WHERE title = ?1 AND state <= 1 ORDER BY hold";

/// Reads the waiting and ready holds on a title, by number. Faults 90, 91, 93.
pub fn active_holds_for<S: Alter>(
    conn: &mut Connection<S>,
    alloc: Global,
    title: TitleId,
) -> Result<Vec<HoldRow>, Fault>
    ensures { Lists holds (λ l. l.items) (λ m. Listed m (is_active_for title))
        S.Store conn.old conn.new result }
{
    rows_of(
        conn,
        alloc,
        (),
        ACTIVE_HOLDS_FOR_TEXT,
        params![title.number()],
    )
}

/// The SQL of `ready_holds_after`.
pub const READY_HOLDS_AFTER_TEXT: &str =
    "SELECT * FROM holds2 WHERE branch = ?1 AND state = 1 AND hold > ?2 ORDER BY hold LIMIT 101";

/// Reads a batch of ready holds with this pick-up branch above this number, by number. Faults 90,
/// 91, 93.
pub fn ready_holds_after<S: Alter>(
    conn: &mut Connection<S>,
    alloc: Global,
    branch: BranchId,
    after: HoldId,
) -> Result<Vec<HoldRow>, Fault>
    ensures { Lists holds (λ l. l.items)
        (λ m. FirstRows BATCH_ROWS m (is_ready_after branch after))
        S.Store conn.old conn.new result }
{
    rows_of(
        conn,
        alloc,
        (),
        READY_HOLDS_AFTER_TEXT,
        params![branch.number(), after.number()],
    )
}

/// The SQL of `waiting_holds_for_after`.
pub const WAITING_HOLDS_FOR_AFTER_TEXT: &str =
    "SELECT * FROM holds2 WHERE title = ?1 AND state = 0 AND hold > ?2 ORDER BY hold LIMIT 101";

/// Reads a batch of waiting holds for a title above this number, by number. Faults 90, 91, 93.
pub fn waiting_holds_for_after<S: Alter>(
    conn: &mut Connection<S>,
    alloc: Global,
    title: TitleId,
    after: HoldId,
) -> Result<Vec<HoldRow>, Fault>
    ensures { Lists holds (λ l. l.items)
        (λ m. FirstRows BATCH_ROWS m (is_waiting_for_after title after))
        S.Store conn.old conn.new result }
{
    rows_of(
        conn,
        alloc,
        (),
        WAITING_HOLDS_FOR_AFTER_TEXT,
        params![title.number(), after.number()],
    )
}

/// The SQL of `waiting_holds_after`.
pub const WAITING_HOLDS_AFTER_TEXT: &str =
    "SELECT * FROM holds2 WHERE state = 0 AND hold > ?1 ORDER BY hold LIMIT 101";

/// Reads a batch of waiting holds above this number, by number. Faults 90, 91, 93.
pub fn waiting_holds_after<S: Alter>(
    conn: &mut Connection<S>,
    alloc: Global,
    after: HoldId,
) -> Result<Vec<HoldRow>, Fault>
    ensures { Lists holds (λ l. l.items) (λ m. FirstRows BATCH_ROWS m (is_waiting_after after))
        S.Store conn.old conn.new result }
{
    rows_of(
        conn,
        alloc,
        (),
        WAITING_HOLDS_AFTER_TEXT,
        params![after.number()],
    )
}

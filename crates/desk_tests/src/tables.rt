//! Selections and lists over a small library, with answers worked out by hand, and rows damaged
//! behind the calls' back. All other calls are the program's, and are tested with it. The owner of
//! the connection has few exits, since each would drop it: functions that borrow it do the work.

use crate::table_calls::*;
use calendar::Day;
use sqlite::{Alter, Connection, Error, MemStore, Transaction};
use std::alloc::Global;
use std::process::Abort;
use std::test::Fail;
use terms::{
    BranchId, CopyId, CopyRow, Fault, HoldId, HoldRow, HoldRow1, LineRow, LoanRow, LoanRow1, Owner,
    PatronId, PatronRow, TitleRow, TransitRow,
};

/// Rows of the tables that are asked, highest key first. Of copy 10's loans one is over, and two
/// are open; in title 100's line the first hold's copy travels.
const ROWS: &str = "\
INSERT INTO closed_days VALUES (3, 20795), (2, 20800), (1, 20810), (1, 20801), (1, 20795);\
INSERT INTO copies VALUES (15, 100, 4, 1, 2500, 0), (14, 101, 4, 1, 2500, 0), (13, 102, 4, 1, 2500, 0), (12, 101, 4, 1, 2500, 0), (11, 100, 4, 1, 2500, 0), (10, 100, 4, 1, 2500, 2);\
INSERT INTO loans3 VALUES (9, 11, 1, 1, 20700, 20708, 21, 3, 20, 1000, NULL, 0), (8, 13, 2, 1, 20700, 20709, 21, 3, 20, 1000, 20704, 0), (7, 13, 2, 2, 20700, 20712, 21, 3, 20, 1000, NULL, 0), (6, 12, 1, 1, 20700, 20711, 21, 3, 20, 1000, NULL, 0), (5, 12, 2, 2, 20700, 20711, 21, 3, 20, 1000, 20711, 0), (4, 11, 1, 1, 20700, 20710, 21, 3, 20, 1000, NULL, 0), (3, 10, 1, 2, 20700, 20706, 21, 3, 20, 1000, NULL, 0), (2, 10, 2, 1, 20700, 20705, 21, 3, 20, 1000, NULL, 0), (1, 10, 1, 1, 20700, 20705, 21, 3, 20, 1000, 20706, 0);\
INSERT INTO loans VALUES (3, 12, 2, 1, 20700, 20708, 21, 3, 20, 1000, NULL), (2, 11, 1, 1, 20690, 20700, 21, 3, 20, 1000, 20699), (1, 10, 1, 2, 20700, 20708, 21, 3, 20, 1000, NULL);\
INSERT INTO rules3 VALUES (1, 1, 21, 3, 20, 1000, 2);\
INSERT INTO rules VALUES (2, 1, 14, 2, 20, 1000), (1, 2, 7, 0, 50, 2000), (1, 1, 21, 3, 20, 1000);\
INSERT INTO holds2 VALUES (11, 3, 102, 2, 1, 13, 20760, NULL), (10, 2, 100, 2, 0, NULL, NULL, 20790), (9, 1, 102, 2, 0, NULL, NULL, NULL), (8, 1, 102, 1, 2, NULL, NULL, NULL), (7, 2, 101, 1, 0, NULL, NULL, NULL), (6, 2, 101, 1, 3, NULL, NULL, NULL), (5, 1, 101, 2, 1, 14, 20760, NULL), (4, 1, 100, 2, 0, NULL, NULL, 20790), (3, 2, 100, 2, 0, NULL, NULL, NULL), (2, 2, 100, 1, 1, 15, 20760, NULL), (1, 1, 100, 1, 4, NULL, NULL, NULL);\
INSERT INTO holds VALUES (3, 2, 101, 1, 0, NULL, NULL), (2, 1, 102, 1, 1, 13, 20760), (1, 1, 100, 1, 4, NULL, NULL);\
INSERT INTO transits VALUES (19, 1, NULL), (18, 2, 9), (17, 1, NULL), (16, 2, 3);\
INSERT INTO patrons VALUES (3, 1, 'cardkey00003', 'Cy Dunn', 150), (2, 1, 'cardkey00002', 'Bo Carr', 0), (1, 1, 'cardkey00001', 'Ann Bell', 70);\
INSERT INTO titles VALUES (102, 'Night Ferries'), (101, 'Salt Roads'), (100, 'Rivers of the North');\
INSERT INTO kept VALUES (2, 'cccccc', 'page 2', 'ok'), (2, 'bbbbb', 'page 2', 'ok'), (1, 'aaaa', 'page 1', 'ok'), (0, 'eee', 'page 1', 'ok'), (0, 'dd', 'page 1', 'ok'), (0, 'c', 'page 1', 'ok');\
INSERT INTO lines VALUES (6, 2, 20704, 2, 150, NULL), (5, 1, 20706, 3, 150, NULL), (4, 1, 20705, 3, 150, NULL), (3, 1, 20706, 2, 150, NULL), (2, 1, 20704, 1, 150, 8), (1, 1, 20706, 0, 150, 1)";

fn database(_error: Error) -> Fault {
    Fault::Database
}

fn begin<S: Alter>(conn: &mut Connection<S>) -> Result<Transaction<'_, S>, Fault> {
    if conn.is_autocommit() {
        Ok(conn.transaction())
    } else {
        Err(Fault::Database)
    }
}

/// Runs the texts, which semicolons separate.
fn write<S: Alter>(conn: &mut Connection<S>, texts: &str) -> Result<(), Fault> {
    for text in texts.split(';') {
        conn.execute(text, &[]).map_err(database)?;
    }
    Ok(())
}

fn make<S: Alter>(conn: &mut Connection<S>) -> Result<(), Fault> {
    let mut tx = begin(conn)?;
    make_tables(&mut tx)?;
    tx.commit().map_err(database)
}

/// A library with the rows.
fn filled(alloc: Global) -> Result<Connection<MemStore>, Fault> {
    let mut conn = Connection::open_in_memory(alloc)?;
    make(&mut conn)?;
    write(&mut conn, ROWS)?;
    Ok(conn)
}

fn day(number: u32) -> Result<Day, Fault> {
    Day::new(number).ok_or(Fault::Stored)
}

/// The list has these numbers in this order.
fn lists(rt: &impl Abort, found: Vec<u32>, wanted: &[u32]) {
    assert!(rt; found.as_slice() == wanted);
}

fn finds_loans<S: Alter>(
    rt: &impl Abort,
    conn: &mut Connection<S>,
    alloc: Global,
) -> Result<(), Fail> {
    assert!(rt; open_loan_of(conn, 10)? == Some(2));
    assert!(rt; open_loan_of(conn, 15)? == None);
    assert!(rt; open_loan_of_title(conn, 1, 100)? == Some(3));
    assert!(rt; open_loan_of_title(conn, 2, 101)? == None);
    assert!(rt; count_open_loans(conn, 1)? == 4);
    lists(rt, open_loans_by(conn, alloc, 1)?, &[3, 4, 6, 9]);
    let today = day(20_711)?;
    let first = overdue_loans_after(conn, alloc, 1, today, 0)?;
    lists(rt, first, &[2, 4, 9]);
    let later = overdue_loans_after(conn, alloc, 1, today, 2)?;
    lists(rt, later, &[4, 9]);
    Ok(())
}

fn finds_holds<S: Alter>(
    rt: &impl Abort,
    conn: &mut Connection<S>,
    alloc: Global,
) -> Result<(), Fail> {
    assert!(rt; ready_hold_of(conn, 14)? == Some(5));
    assert!(rt; ready_hold_of(conn, 10)? == None);
    assert!(rt; first_in_line(conn, 100, day(20_790)?)? == Some(4));
    assert!(rt; first_in_line(conn, 101, day(20_789)?)? == Some(7));
    assert!(rt; transit_for(conn, 3)? == Some(16));
    assert!(rt; transit_for(conn, 4)? == None);
    assert!(rt; count_active_holds(conn, 1)? == 3);
    assert!(rt; count_active_holds_on(conn, 2, 100)? == 3);
    lists(rt, active_holds_by(conn, alloc, 1)?, &[4, 5, 9]);
    lists(rt, ready_holds_after(conn, alloc, 2, 0)?, &[5, 11]);
    lists(rt, ready_holds_after(conn, alloc, 2, 5)?, &[11]);
    Ok(())
}

fn finds_pages<S: Alter>(
    rt: &impl Abort,
    conn: &mut Connection<S>,
    alloc: Global,
) -> Result<(), Fail> {
    let all = next_rows::<PatronRow, S>(conn, alloc, alloc, None)?;
    lists(rt, all, &[1, 2, 3]);
    let patrons = next_rows::<PatronRow, S>(conn, alloc, alloc, Some(1))?;
    lists(rt, patrons, &[2, 3]);
    let titles = next_rows::<TitleRow, S>(conn, alloc, alloc, Some(100))?;
    lists(rt, titles, &[101, 102]);
    let copies = next_rows::<CopyRow, S>(conn, alloc, (), Some(13))?;
    lists(rt, copies, &[14, 15]);
    let loans = next_rows::<LoanRow, S>(conn, alloc, (), Some(7))?;
    lists(rt, loans, &[8, 9]);
    let holds = next_rows::<HoldRow, S>(conn, alloc, (), Some(9))?;
    lists(rt, holds, &[10, 11]);
    let old_loans = next_rows::<LoanRow1, S>(conn, alloc, (), Some(1))?;
    lists(rt, old_loans, &[2, 3]);
    let old_holds = next_rows::<HoldRow1, S>(conn, alloc, (), Some(1))?;
    lists(rt, old_holds, &[2, 3]);
    let transits = next_rows::<TransitRow, S>(conn, alloc, (), Some(17))?;
    lists(rt, transits, &[18, 19]);
    let lines = next_rows::<LineRow, S>(conn, alloc, (), Some(4))?;
    lists(rt, lines, &[5, 6]);
    let none = next_rows::<LineRow, S>(conn, alloc, (), Some(6))?;
    lists(rt, none, &[]);
    let past = next_rows::<LineRow, S>(conn, alloc, (), Some(u32::MAX))?;
    lists(rt, past, &[]);
    Ok(())
}

fn finds_lists<S: Alter>(
    rt: &impl Abort,
    conn: &mut Connection<S>,
    alloc: Global,
) -> Result<(), Fail> {
    lists(rt, copies_of_title_after(conn, alloc, 100, 10)?, &[11, 15]);
    lists(rt, waiting_holds_for_after(conn, alloc, 100, 3)?, &[4, 10]);
    lists(rt, waiting_holds_after(conn, alloc, 4)?, &[7, 9, 10]);
    lists(rt, account_lines_after(conn, alloc, 1, 2)?, &[3, 4, 5]);
    lists(rt, debtors_after(conn, alloc, 0)?, &[1, 3]);
    lists(rt, debtors_after(conn, alloc, 1)?, &[3]);
    lists(rt, transits_to_after(conn, alloc, 1, 0)?, &[17, 19]);
    Ok(())
}

/// The keys of what is kept, by length.
fn finds_kept<S: Alter>(
    rt: &impl Abort,
    conn: &mut Connection<S>,
    alloc: Global,
) -> Result<(), Fail> {
    let first = Owner::Patron(PatronId::new(1));
    let second = Owner::Patron(PatronId::new(2));
    lists(rt, first_kept(conn, alloc)?, &[1, 2, 3, 4, 5, 6]);
    lists(rt, kept_after(conn, alloc, Owner::Desk, "c")?, &[2, 3]);
    lists(rt, kept_after(conn, alloc, Owner::Desk, "eee")?, &[]);
    lists(rt, kept_after(conn, alloc, second, "bbbbb")?, &[6]);
    lists(rt, kept_past(conn, alloc, Owner::Desk)?, &[4, 5, 6]);
    lists(rt, kept_past(conn, alloc, first)?, &[5, 6]);
    lists(rt, kept_past(conn, alloc, second)?, &[]);
    Ok(())
}

/// The database refuses a second transit for another's hold.
fn refuses_a_second<S: Alter>(conn: &mut Connection<S>) -> Result<bool, Fault> {
    let second = TransitRow {
        copy: CopyId::new(17),
        goal: BranchId::new(2),
        hold: Some(HoldId::new(9)),
    };
    let mut tx = begin(conn)?;
    let is_refused = put_transit(&mut tx, &second) == Err(Fault::Database);
    tx.commit().map_err(database)?;
    Ok(is_refused)
}

/// The old tables' rows are read inside a transaction and taken out one by one; the new tables'
/// rows stay.
fn empties_the_old_tables<S: Alter>(
    rt: &impl Abort,
    conn: &mut Connection<S>,
    alloc: Global,
) -> Result<(), Fail> {
    let mut tx = begin(conn)?;
    let all = next_old_holds(&mut tx, alloc, None)?;
    let after = next_old_holds(&mut tx, alloc, Some(2))?;
    take_old_hold(&mut tx, 2)?;
    let fewer = next_old_holds(&mut tx, alloc, None)?;
    take_old_hold(&mut tx, 1)?;
    take_old_hold(&mut tx, 3)?;
    let none = next_old_holds(&mut tx, alloc, None)?;
    tx.commit().map_err(database)?;
    lists(rt, all, &[1, 2, 3]);
    lists(rt, after, &[3]);
    lists(rt, fewer, &[1, 3]);
    lists(rt, none, &[]);
    assert!(rt; count_active_holds(conn, 1)? == 3);
    empties_the_old_loans(rt, conn, alloc)?;
    empties_the_old_rules(rt, conn, alloc)
}

fn empties_the_old_loans<S: Alter>(
    rt: &impl Abort,
    conn: &mut Connection<S>,
    alloc: Global,
) -> Result<(), Fail> {
    let mut tx = begin(conn)?;
    let all = next_old_loans(&mut tx, alloc, None)?;
    take_old_loan(&mut tx, 2)?;
    let fewer = next_old_loans(&mut tx, alloc, None)?;
    take_old_loan(&mut tx, 1)?;
    take_old_loan(&mut tx, 3)?;
    let none = next_old_loans(&mut tx, alloc, None)?;
    tx.commit().map_err(database)?;
    lists(rt, all, &[1, 2, 3]);
    lists(rt, fewer, &[1, 3]);
    lists(rt, none, &[]);
    assert!(rt; count_open_loans(conn, 1)? == 4);
    Ok(())
}

/// The old rules by their periods.
fn empties_the_old_rules<S: Alter>(
    rt: &impl Abort,
    conn: &mut Connection<S>,
    alloc: Global,
) -> Result<(), Fail> {
    let mut tx = begin(conn)?;
    let all = old_rules(&mut tx, alloc)?;
    take_old_rule(&mut tx, 1, 2)?;
    let fewer = old_rules(&mut tx, alloc)?;
    take_old_rule(&mut tx, 1, 1)?;
    take_old_rule(&mut tx, 2, 1)?;
    let none = old_rules(&mut tx, alloc)?;
    tx.commit().map_err(database)?;
    lists(rt, all, &[21, 7, 14]);
    lists(rt, fewer, &[21, 14]);
    lists(rt, none, &[]);
    assert!(rt; grace_of(conn, 1, 1)? == Some(2));
    assert!(rt; grace_of(conn, 2, 1)? == None);
    Ok(())
}

fn finds_days<S: Alter>(
    rt: &impl Abort,
    conn: &mut Connection<S>,
    alloc: Global,
) -> Result<(), Fail> {
    lists(rt, lines_after(conn, alloc, day(20_706)?, 0)?, &[1, 3, 5]);
    lists(rt, lines_after(conn, alloc, day(20_706)?, 3)?, &[5]);
    assert!(rt; get_line(conn, 4)? == Some(4));
    assert!(rt; get_line(conn, 7)? == None);
    lists(
        rt,
        closed_days_of(conn, alloc, 1)?,
        &[20_795, 20_801, 20_810],
    );
    lists(rt, closed_days_of(conn, alloc, 2)?, &[20_800]);
    Ok(())
}

/// Lines of titles. In 103, hold 23 has no first day, but a copy travels for it; 24 has none
/// either. In 104 each hold has one; that of 105 no longer waits.
const LINES: &str = "\
INSERT INTO holds2 VALUES (25, 4, 103, 1, 0, NULL, NULL, 20790), (24, 4, 103, 1, 0, NULL, NULL, NULL), (23, 4, 103, 1, 0, NULL, NULL, NULL), (22, 4, 103, 1, 0, NULL, NULL, 20795), (21, 4, 103, 1, 0, NULL, NULL, 20800);\
INSERT INTO holds2 VALUES (34, 4, 104, 1, 0, NULL, NULL, 20796), (33, 4, 104, 1, 0, NULL, NULL, 20795), (32, 4, 104, 1, 0, NULL, NULL, 20795), (31, 4, 104, 1, 0, NULL, NULL, 20800);\
INSERT INTO holds2 VALUES (41, 4, 105, 1, 2, NULL, NULL, 20790);\
INSERT INTO transits VALUES (14, 1, 23)";

/// The first in line before a first day, on it and after it.
fn finds_the_first<S: Alter>(rt: &impl Abort, conn: &mut Connection<S>) -> Result<(), Fail> {
    write(conn, LINES)?;
    assert!(rt; first_in_line(conn, 103, day(20_789)?)? == Some(24));
    assert!(rt; first_in_line(conn, 103, day(20_790)?)? == Some(24));
    assert!(rt; first_in_line(conn, 103, day(20_795)?)? == Some(22));
    assert!(rt; first_in_line(conn, 103, day(20_799)?)? == Some(22));
    assert!(rt; first_in_line(conn, 103, day(20_800)?)? == Some(21));
    assert!(rt; first_in_line(conn, 104, day(20_794)?)? == None);
    assert!(rt; first_in_line(conn, 104, day(20_795)?)? == Some(32));
    assert!(rt; first_in_line(conn, 104, day(20_801)?)? == Some(31));
    assert!(rt; first_in_line(conn, 105, day(20_801)?)? == None);
    assert!(rt; first_in_line(conn, 100, day(20_789)?)? == None);
    Ok(())
}

/// Copies of a title. Of those at home at branch 1, copy 19 travels, a hold names 20, 21 is on loan
/// and 22 is missing; nothing claims 24, which has been lent, and 25.
const SHELF: &str = "\
INSERT INTO copies VALUES (25, 106, 4, 1, 2500, 0), (24, 106, 4, 1, 2500, 0), (23, 106, 4, 2, 2500, 0), (22, 106, 4, 1, 2500, 1), (21, 106, 4, 1, 2500, 0), (20, 106, 4, 1, 2500, 0), (19, 106, 4, 1, 2500, 0);\
INSERT INTO loans3 VALUES (12, 24, 4, 1, 20700, 20708, 21, 3, 20, 1000, 20704, 0), (11, 21, 4, 1, 20700, 20708, 21, 3, 20, 1000, NULL, 0);\
INSERT INTO holds2 VALUES (51, 4, 106, 1, 1, 20, 20760, NULL)";

fn finds_the_shelf<S: Alter>(rt: &impl Abort, conn: &mut Connection<S>) -> Result<(), Fail> {
    write(conn, SHELF)?;
    assert!(rt; least_shelved(conn, 106, 1)? == Some(24));
    assert!(rt; least_shelved(conn, 106, 2)? == Some(23));
    assert!(rt; least_shelved(conn, 106, 3)? == None);
    assert!(rt; least_shelved(conn, 100, 1)? == None);
    Ok(())
}

/// Days past their limits: of a loan, a ready hold and a closed day; and the grace days of a rule.
const DAMAGE: &str = "UPDATE loans3 SET due = 84006 WHERE loan = 2;\
UPDATE holds2 SET limit_day = 84006 WHERE hold = 5;UPDATE closed_days SET day = 10956 WHERE branch = 2;\
UPDATE rules3 SET grace = 366 WHERE kind = 1";

fn tells_damage<S: Alter>(
    rt: &impl Abort,
    conn: &mut Connection<S>,
    alloc: Global,
) -> Result<(), Fail> {
    write(conn, DAMAGE)?;
    assert!(rt; open_loan_of(conn, 10) == Err(Fault::Stored));
    assert!(rt; ready_hold_of(conn, 14) == Err(Fault::Stored));
    assert!(rt; open_loans_by(conn, alloc, 2).err() == Some(Fault::Stored));
    assert!(rt; closed_days_of(conn, alloc, 2).err() == Some(Fault::Stored));
    assert!(rt; grace_of(conn, 1, 1) == Err(Fault::Stored));
    assert!(rt; count_open_loans(conn, 2)? == 2);
    Ok(())
}

/// All looks, the damage last.
fn looks<S: Alter>(rt: &impl Abort, conn: &mut Connection<S>, alloc: Global) -> Result<(), Fail> {
    finds_loans(rt, conn, alloc)?;
    finds_holds(rt, conn, alloc)?;
    finds_days(rt, conn, alloc)?;
    finds_pages(rt, conn, alloc)?;
    finds_lists(rt, conn, alloc)?;
    finds_kept(rt, conn, alloc)?;
    empties_the_old_tables(rt, conn, alloc)?;
    assert!(rt; refuses_a_second(conn)?);
    assert!(rt; transit_for(conn, 9)? == Some(18));
    finds_the_first(rt, conn)?;
    finds_the_shelf(rt, conn)?;
    tells_damage(rt, conn, alloc)
}

#[test]
fn selects_rows_and_tells_damaged_ones(rt: HostRuntime) -> Result<(), Fail> {
    looks(&rt, &mut filled(rt.alloc())?, rt.alloc())
}

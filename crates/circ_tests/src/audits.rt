//! Audits of tables in memory: a desk's, and some that no database would hold.

use crate::calls::{audit, audit_all, laws, tables_of};
use circ::{Exit, WriteFault};
use circ_audit::Finding;
use desk::Desk;
use sqlite::{Alter, MemStore};
use std::alloc::Global;
use std::process::Abort;
use std::test::Fail;
use store::Store;
use terms::{BranchId, CopyId, Fault, HoldId, Rows, Tables, TransitRow};
use test_bytes::Narrow;
use test_library::{check, connection, desk_over, ground, open, rows, store_of};

/// Holds that are ready and coming, a loan, a lost copy and an account.
const BUSY: &str = "desk b1 check-out 1 11 1 -> loan 1 due 2026-03-09
desk b2 place-hold 2 200 1 -> hold 1
desk b3 check-in 20 2 -> fine 0 transit 1 for 1
desk b4 place-hold 3 300 1 -> hold 2
desk b5 check-in 30 1 -> fine 0 ready 2 at 1 until 2026-03-07
desk b6 missing 11 -> fine 0 price 2500
desk b7 pay 1 500 -> owed 2000
desk b8 waive 1 1000 -> owed 1000
desk b9 check-out 2 10 1 -> loan 2 due 2026-03-09";

/// A store's audit is this line, and the program ends so.
fn tells<S: Alter>(
    rt: &impl Abort,
    alloc: Global,
    store: &mut Store<S>,
    (line, exit): (&str, Exit),
) -> Result<(), Fail> {
    let mut bytes: Vec<u8> = Vec::new(alloc);
    assert!(rt; audit(store, alloc, &mut bytes) == Ok(exit), "{line}");
    assert!(rt; bytes.as_slice() == line.as_bytes(), "{line}");
    Ok(())
}

/// The same of an audit of all findings.
fn tells_all<S: Alter>(
    rt: &impl Abort,
    alloc: Global,
    store: &mut Store<S>,
    (lines, exit): (&str, Exit),
) -> Result<(), Fail> {
    let mut bytes: Vec<u8> = Vec::new(alloc);
    assert!(rt; audit_all(store, alloc, &mut bytes) == Ok(exit), "{lines}");
    assert!(rt; bytes.as_slice() == lines.as_bytes(), "{lines}");
    Ok(())
}

/// The small library's desk after more requests.
fn busy(alloc: Global) -> Result<Desk<MemStore>, Fail> {
    let mut desk = ground(alloc)?;
    check(alloc, &mut desk, BUSY)?;
    Ok(desk)
}

#[test]
fn tells_that_tables_are_sound(rt: HostRuntime) -> Result<(), Fail> {
    let alloc = rt.alloc();
    let mut conn = connection(busy(alloc)?);
    let before = rows(alloc, &mut conn)?;
    let mut store = open(conn)?;
    tells(&rt, alloc, &mut store, ("sound\n", Exit::Done))?;
    let after = rows(alloc, &mut connection(desk_over(store)?))?;
    assert!(rt; after.as_str() == before.as_str());
    Ok(())
}

#[test]
fn tells_what_is_broken(rt: HostRuntime) -> Result<(), Fail> {
    let alloc = rt.alloc();
    let mut conn = connection(busy(alloc)?);
    conn.execute("UPDATE copies SET condition = 2 WHERE copy = 30", &[])?;
    let mut store = open(conn)?;
    let line = ("unsound claims 30\n", Exit::Refused);
    tells(&rt, alloc, &mut store, line)
}

#[test]
fn tells_a_row_of_an_older_schema(rt: HostRuntime) -> Result<(), Fail> {
    let alloc = rt.alloc();
    let mut conn = connection(busy(alloc)?);
    conn.execute(
        "INSERT INTO holds VALUES (8, 1, 100, 1, 3, NULL, NULL)",
        &[],
    )?;
    let mut store = open(conn)?;
    let line = ("unsound numbers holds 8\n", Exit::Refused);
    tells(&rt, alloc, &mut store, line)
}

#[test]
fn tells_a_fault_of_the_database(rt: HostRuntime) -> Result<(), Fail> {
    let alloc = rt.alloc();
    let mut store = store_of(busy(alloc)?);
    store.limit_steps(Some(1));
    tells(&rt, alloc, &mut store, ("fault 91\n", Exit::Faulted))?;
    store.limit_steps(None);
    tells(&rt, alloc, &mut store, ("sound\n", Exit::Done))
}

#[test]
fn the_line_of_an_audit_is_cut(rt: HostRuntime) -> Result<(), Fail> {
    let alloc = rt.alloc();
    let mut store = store_of(busy(alloc)?);
    let line = "sound\n";
    for room in 0..line.len() {
        let mut writer = Narrow::new(alloc, room);
        assert!(rt;
            audit(&mut store, alloc, &mut writer) == Err(WriteFault),
            "at {room}"
        );
        let is_beginning = line.as_bytes().starts_with(writer.taken());
        assert!(rt; is_beginning && writer.taken().len() == room, "at {room}");
    }
    Ok(())
}

/// The lines of the library with what is damaged below.
const DAMAGED: &str = "unsound claims 30
unsound balance 1
unsound balance 2
unsound balance 3
unsound reference closed_days 20600
unsound reference barcodes 3
unsound numbers holds 8
";

/// The busy library after another hand.
fn damaged(alloc: Global) -> Result<Store<MemStore>, Fail> {
    let mut conn = connection(busy(alloc)?);
    conn.execute("UPDATE copies SET condition = 2 WHERE copy = 30", &[])?;
    conn.execute("UPDATE patrons SET owed = 1", &[])?;
    conn.execute("INSERT INTO closed_days VALUES (9, 20600)", &[])?;
    conn.execute("INSERT INTO barcodes VALUES (0, 2, 'A1')", &[])?;
    conn.execute("INSERT INTO barcodes VALUES (0, 3, 'A1')", &[])?;
    conn.execute(
        "INSERT INTO holds VALUES (8, 1, 100, 1, 3, NULL, NULL)",
        &[],
    )?;
    Ok(open(conn)?)
}

#[test]
fn tells_all_that_is_broken(rt: HostRuntime) -> Result<(), Fail> {
    let alloc = rt.alloc();
    let mut store = store_of(busy(alloc)?);
    tells_all(&rt, alloc, &mut store, ("sound\n", Exit::Done))?;
    store.limit_steps(Some(1));
    tells_all(&rt, alloc, &mut store, ("fault 91\n", Exit::Faulted))?;
    let mut store = damaged(alloc)?;
    tells_all(&rt, alloc, &mut store, (DAMAGED, Exit::Refused))
}

#[test]
fn the_lines_of_all_findings_are_cut(rt: HostRuntime) -> Result<(), Fail> {
    let alloc = rt.alloc();
    let mut store = damaged(alloc)?;
    for room in 0..DAMAGED.len() {
        let mut writer = Narrow::new(alloc, room);
        assert!(rt;
            audit_all(&mut store, alloc, &mut writer) == Err(WriteFault),
            "at {room}"
        );
        let is_beginning = DAMAGED.as_bytes().starts_with(writer.taken());
        assert!(rt; is_beginning && writer.taken().len() == room, "at {room}");
    }
    Ok(())
}

/// The rows of a busy desk.
fn tables(alloc: Global) -> Result<Tables, Fail> {
    Ok(tables_of(&mut store_of(busy(alloc)?), alloc)?)
}

#[test]
fn finds_two_transits_for_one_hold(rt: HostRuntime) -> Result<(), Fail> {
    let alloc = rt.alloc();
    let mut tables = tables(alloc)?;
    let mut transits = Vec::new(alloc);
    for copy in [20u32, 21] {
        transits.push(TransitRow {
            copy: CopyId::new(copy),
            goal: BranchId::new(1),
            hold: Some(HoldId::new(1)),
        })?;
    }
    let mut copies = Vec::new(alloc);
    for row in tables.copies.as_slice() {
        let mut twin = *row;
        copies.push(*row)?;
        if row.copy == CopyId::new(20) {
            twin.copy = CopyId::new(21);
            copies.push(twin)?;
        }
    }
    assert!(rt; laws(&tables) == Ok(()));
    tables.transits = Rows::new(transits)?;
    tables.copies = Rows::new(copies)?;
    assert!(rt; laws(&tables) == Err(Finding::Binding(HoldId::new(1))));
    Ok(())
}

/// The transits of two copies, in this order.
fn transits(alloc: Global, copies: [u32; 2]) -> Result<Vec<TransitRow>, Fail> {
    let mut rows = Vec::new(alloc);
    for copy in copies {
        rows.push(TransitRow {
            copy: CopyId::new(copy),
            goal: BranchId::new(1),
            hold: None,
        })?;
    }
    Ok(rows)
}

#[test]
fn refuses_rows_out_of_order(rt: HostRuntime) -> Result<(), Fail> {
    let alloc = rt.alloc();
    assert!(rt; Rows::new(transits(alloc, [20, 21])?).is_ok());
    assert!(rt; Rows::new(transits(alloc, [21, 20])?).err() == Some(Fault::Stored));
    assert!(rt; Rows::new(transits(alloc, [20, 20])?).err() == Some(Fault::Stored));
    Ok(())
}

//! Stops: a fuse in one of a library's two files blows during a check-out.

use crate::calls::{connection_of, restart};
use sqlite::{Alter, Connection, Files};
use sqlite_disk::{Crash, Disk, Fuse, Memory};
use std::alloc::Global;
use std::process::Abort;
use std::test::Fail;
use store::Store;
use terms::{Fault, Reply};
use test_library::{
    calls_of_open, check, desk_over, filled, fused, handle, into_files, left, open_files, opened,
    options, request, rows, store_of,
};

/// The small library's rows, table by table, with the three that a check-out changes: a part of
/// `meta`, the last of `kept`, which is followed by no holds, and the loans.
fn tables(alloc: Global, next: &str, loans: &str, kept: &str) -> Result<String, Fail> {
    Ok(format!(in alloc;
        "\n1|4|20514|{next}|1|1|;\
        \n1|5|ooooooc|Main|;2|3|coooooc|Harbour|;\
        \n\
        \n1|5|5|500|;\
        \n\
        \n1|1|cardkey00001|Ann Bell|0|;2|1|cardkey00002|Bo Carr|0|;3|1|cardkey00003|Cy Dunn|0|;\
        \n100|Rivers of the North|;200|Salt Roads|;300|Night Ferries|;\
        \n10|100|1|1|2500|0|;11|100|1|1|2500|0|;20|200|1|2|1200|0|;30|300|2|1|800|0|;\
        \n\
        \n\
        \n\
        \n\
        \n0|g1|begin-day 2026-03-02|ok|;0|g2|branch 1 5 Main|ok|;0|g3|branch 2 3 Harbour|ok|;\
        0|g4|week 1 ooooooc|ok|;0|g5|week 2 coooooc|ok|;0|g6|kind 1 5 5 500|ok|;\
        0|g7|rule 1 1 6 1 20 100|ok|;0|g8|rule 1 2 12 1 20 100|ok|;\
        0|g9|patron 1 1 cardkey00001 Ann Bell|ok|;0|g10|patron 2 1 cardkey00002 Bo Carr|ok|;\
        0|g11|patron 3 1 cardkey00003 Cy Dunn|ok|;0|g12|acquire 10 100 1 1 2500 Rivers of the North|ok|;\
        0|g13|acquire 11 100 1 1 2500 Rivers of the North|ok|;0|g14|acquire 20 200 1 2 1200 Salt Roads|ok|;\
        0|g15|acquire 30 300 2 1 800 Night Ferries|ok|;{kept}\
        \n\
        \n1|1|6|1|20|100|0|;1|2|12|1|20|100|0|;\
        \n{loans}\
        \n\
        \n"
    )?)
}

/// The tables before the check-out.
fn before(alloc: Global) -> Result<String, Fail> {
    tables(alloc, "1", "", "")
}

/// The tables after the check-out.
fn after(alloc: Global) -> Result<String, Fail> {
    tables(
        alloc,
        "2",
        "1|10|1|1|20514|20521|6|1|20|100|none|0|;",
        "0|k1|check-out 1 10 1|loan 1 due 2026-03-09|;",
    )
}

/// The text of an answer.
fn text_of(alloc: Global, answer: &Result<Reply, Fault>) -> Result<String, Fail> {
    Ok(match answer {
        Ok(reply) => format!(in alloc; "{reply}")?,
        Err(fault) => format!(in alloc; "fault {fault}")?,
    })
}

/// The answer to the check-out, and the store as it is left.
fn lent<S: Alter + Drop>(alloc: Global, store: Store<S>) -> Result<(String, Store<S>), Fail> {
    let mut desk = desk_over(store)?;
    let lending = request(alloc, "desk k1 check-out 1 10 1")?;
    let told = text_of(alloc, &handle(&mut desk, alloc, &lending))?;
    Ok((told, store_of(desk)))
}

/// All rows of a store.
fn shown<S: Alter + Drop>(alloc: Global, store: Store<S>) -> Result<String, Fail> {
    rows(alloc, &mut connection_of(store))
}

/// The answer was the loan or fault 91, and the rows are those after it, or before if it wasn't
/// given.
fn judge(rt: &impl Abort, alloc: Global, told: &str, found: &str) -> Result<bool, Fail> {
    let is_lent = told == "loan 1 due 2026-03-09";
    assert!(rt; is_lent || told == "fault 91", "{told}");
    let (before, after) = (before(alloc)?, after(alloc)?);
    assert!(rt;
        found == after.as_str() || (!is_lent && found == before.as_str()),
        "{told} {found}"
    );
    Ok(is_lent)
}

/// The answer to the check-out, and the files as written.
fn lent_in<D: Disk + Drop>(alloc: Global, files: Files<D>) -> Result<(String, Files<D>), Fail> {
    let (told, store) = lent(alloc, open_files(alloc, files, options())?)?;
    Ok((told, into_files(store)))
}

/// All rows in two files.
fn shown_in<D: Disk + Drop>(alloc: Global, files: Files<D>) -> Result<String, Fail> {
    shown(alloc, open_files(alloc, files, options())?)
}

/// The desk is dropped with its files as written, except that each may lose what wasn't synced.
fn dropped(
    rt: &impl Abort,
    alloc: Global,
    files: Files<Fuse<Memory>>,
    loses: (bool, bool),
) -> Result<bool, Fail> {
    let (told, files) = lent_in(alloc, files)?;
    let found = shown_in(alloc, left(alloc, files, loses)?)?;
    judge(rt, alloc, &told, &found)
}

/// The same request with the same key gets the loan, and is done once.
fn repeated<S: Alter + Drop>(
    rt: &impl Abort,
    alloc: Global,
    conn: Connection<S>,
) -> Result<(), Fail> {
    let mut desk = opened(conn)?;
    let lending = "desk k1 check-out 1 10 1 -> loan 1 due 2026-03-09";
    check(alloc, &mut desk, lending)?;
    let (found, after) = (shown(alloc, store_of(desk))?, after(alloc)?);
    assert!(rt; found.as_str() == after.as_str());
    Ok(())
}

/// The rows are those of what was answered; then the same request with the same key gets the loan,
/// and is done once.
fn is_repeated<S: Alter + Drop>(
    rt: &impl Abort,
    alloc: Global,
    told: &str,
    store: Store<S>,
) -> Result<bool, Fail> {
    let mut conn = connection_of(store);
    let found = rows(alloc, &mut conn)?;
    let is_lent = judge(rt, alloc, told, &found)?;
    repeated(rt, alloc, conn)?;
    Ok(is_lent)
}

/// The machine stops after the check-out.
fn restarted<D: Crash + Drop>(
    rt: &impl Abort,
    alloc: Global,
    files: Files<D>,
) -> Result<bool, Fail> {
    let (told, store) = lent(alloc, open_files(alloc, files, options())?)?;
    is_repeated(rt, alloc, &told, restart(store, alloc, options())?)
}

/// Every way to leave the files at one stop; whether the check-out was answered.
fn every_end(
    rt: &impl Abort,
    alloc: Global,
    base: &Files<Memory>,
    fuse: (bool, u64),
) -> Result<bool, Fail> {
    for loses in [(false, false), (true, false), (false, true)] {
        dropped(rt, alloc, fused(alloc, base, fuse)?, loses)?;
    }
    restarted(rt, alloc, fused(alloc, base, fuse)?)
}

/// The fuse blows at each call of the check-out in turn, until the loan is answered; how many stops
/// came before.
fn stops(rt: &impl Abort, alloc: Global, is_log: bool) -> Result<u64, Fail> {
    let base = filled(alloc)?;
    let open = calls_of_open(alloc, &base, is_log)?;
    for at in 1..200u64 {
        if every_end(rt, alloc, &base, (is_log, open.saturating_add(at)))? {
            return Ok(at);
        }
    }
    Err("the loan was never told".into())
}

#[test]
fn a_stop_at_each_call_of_the_log_leaves_all_or_nothing(rt: HostRuntime) -> Result<(), Fail> {
    let stops = stops(&rt, rt.alloc(), true)?;
    assert!(rt; stops > 1, "{stops}");
    Ok(())
}

#[test]
fn a_stop_at_each_call_of_the_database_leaves_all_or_nothing(rt: HostRuntime) -> Result<(), Fail> {
    let stops = stops(&rt, rt.alloc(), false)?;
    assert!(rt; stops > 1, "{stops}");
    Ok(())
}

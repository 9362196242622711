//! Stops of scripts: a fuse in one of a library's two files blows at each call in turn, and what
//! wasn't synced is lost, or not.

use crate::calls::connection_of;
use crate::limits::shown;
use sqlite::{Alter, Connection, Files};
use sqlite_disk::{Disk, Fuse, Memory};
use std::alloc::Global;
use std::process::Abort;
use std::test::Fail;
use store::Store;
use terms::Fault;
use test_library::{
    GRACE, HOLDS, LATE, LOST, PAID, RENEWED, REOPENED, RETURNED, calls_of_open, check, desk_over,
    filled, fused, ground, into_files, left, open_files, opened, options, rows, runs, store_of,
};

/// The rows of the small library before a script and after each request, in memory.
fn pictures(alloc: Global, script: &str) -> Result<Vec<String>, Fail> {
    let mut all = Vec::new(alloc);
    let (mut desk, first) = shown(alloc, ground(alloc)?)?;
    all.push(first)?;
    for line in script.split('\n') {
        check(alloc, &mut desk, line)?;
        let (next, text) = shown(alloc, desk)?;
        desk = next;
        all.push(text)?;
    }
    Ok(all)
}

/// A script: how many requests were answered before the database's fault, and the store as it is
/// left.
fn stopped<S: Alter + Drop>(
    rt: &impl Abort,
    alloc: Global,
    store: Store<S>,
    script: &str,
) -> Result<(usize, Store<S>), Fail> {
    let mut desk = desk_over(store)?;
    let (answered, fault) = runs(alloc, &mut desk, script)?;
    let is_whole = answered == script.split('\n').count();
    let due = if is_whole {
        None
    } else {
        Some(Fault::Database)
    };
    assert!(rt; fault == due);
    Ok((answered, store_of(desk)))
}

/// A script over two files: how many requests were answered, and the files as written.
fn stopped_in<D: Disk + Drop>(
    rt: &impl Abort,
    alloc: Global,
    files: Files<D>,
    script: &str,
) -> Result<(usize, Files<D>), Fail> {
    let (answered, store) = stopped(rt, alloc, open_files(alloc, files, options())?, script)?;
    Ok((answered, into_files(store)))
}

/// The script's requests from the first unanswered one on are asked again, with the same keys: they
/// are answered as usual, and the rows are then these.
fn finished<S: Alter + Drop>(
    rt: &impl Abort,
    alloc: Global,
    conn: Connection<S>,
    (script, answered): (&str, usize),
    last: &str,
) -> Result<(), Fail> {
    let mut desk = opened(conn)?;
    for (number, line) in script.split('\n').enumerate() {
        if number >= answered {
            check(alloc, &mut desk, line)?;
        }
    }
    let found = rows(alloc, &mut connection_of(store_of(desk)))?;
    assert!(rt; found.as_str() == last);
    Ok(())
}

/// After a stop the rows are those of what was accepted, or of that and the request in progress;
/// the rest of the script is answered afterwards.
fn is_finished<S: Alter + Drop>(
    rt: &impl Abort,
    alloc: Global,
    store: Store<S>,
    (script, answered): (&str, usize),
    pictures: &[String],
) -> Result<(), Fail> {
    let mut conn = connection_of(store);
    let found = rows(alloc, &mut conn)?;
    let before = pictures.get(answered).ok_or("a picture")?;
    let after = pictures.get(answered.saturating_add(1)).unwrap_or(before);
    assert!(rt;
        found.as_str() == before.as_str() || found.as_str() == after.as_str(),
        "after {answered}"
    );
    let last = pictures.last().ok_or("a picture")?;
    finished(rt, alloc, conn, (script, answered), last)
}

/// How often the script was stopped before it was fully answered, and how often something unsynced
/// was lost then.
#[derive(Clone, Copy)]
struct Hits {
    stops: u64,
    losses: u64,
}

/// One stop, after which each file may lose what wasn't synced; whether the script was fully
/// answered, and whether something was lost.
fn is_left_right(
    rt: &impl Abort,
    alloc: Global,
    files: Files<Fuse<Memory>>,
    loses: (bool, bool),
    (script, pictures): (&str, &[String]),
) -> Result<(bool, bool), Fail> {
    let (answered, files) = stopped_in(rt, alloc, files, script)?;
    let log = files.log.inner().bytes().len();
    let db = files.db.inner().bytes().len();
    let files = left(alloc, files, loses)?;
    let is_lost = files.log.bytes().len() != log || files.db.bytes().len() != db;
    let store = open_files(alloc, files, options())?;
    is_finished(rt, alloc, store, (script, answered), pictures)?;
    Ok((answered.saturating_add(1) == pictures.len(), is_lost))
}

/// The machine stops, and both files may lose what wasn't synced.
fn is_restarted(
    rt: &impl Abort,
    alloc: Global,
    files: Files<Fuse<Memory>>,
    (script, pictures): (&str, &[String]),
) -> Result<(), Fail> {
    let (answered, store) = stopped(rt, alloc, open_files(alloc, files, options())?, script)?;
    let store = crate::calls::restart(store, alloc, options())?;
    is_finished(rt, alloc, store, (script, answered), pictures)
}

/// Every way to leave the files at one stop; whether the script was fully answered, and how often
/// something was lost.
fn every_end(
    rt: &impl Abort,
    alloc: Global,
    base: &Files<Memory>,
    fuse: (bool, u64),
    script: (&str, &[String]),
) -> Result<(bool, u64), Fail> {
    let (mut is_whole, mut losses) = (true, 0u64);
    for loses in [(false, false), (true, false), (false, true)] {
        let files = fused(alloc, base, fuse)?;
        let (answered, is_lost) = is_left_right(rt, alloc, files, loses, script)?;
        is_whole = is_whole && answered;
        losses = losses.saturating_add(u64::from(is_lost));
    }
    is_restarted(rt, alloc, fused(alloc, base, fuse)?, script)?;
    Ok((is_whole, losses))
}

/// The fuse blows at each call of the script in turn, until it is fully answered; how many stops
/// came before.
fn stops_in(
    rt: &impl Abort,
    alloc: Global,
    base: &Files<Memory>,
    is_log: bool,
    script: (&str, &[String]),
) -> Result<Hits, Fail> {
    let open = calls_of_open(alloc, base, is_log)?;
    let mut losses = 0u64;
    for at in 1..5_000u64 {
        let fuse = (is_log, open.saturating_add(at));
        let (is_whole, lost) = every_end(rt, alloc, base, fuse, script)?;
        losses = losses.saturating_add(lost);
        if is_whole {
            return Ok(Hits { stops: at, losses });
        }
    }
    Err("the script was never answered".into())
}

/// A script is stopped at each call of one file, then at each of the other.
fn withstands_stops(rt: &impl Abort, alloc: Global, script: &str) -> Result<(), Fail> {
    let base = filled(alloc)?;
    let pictures = pictures(alloc, script)?;
    let mut losses = 0u64;
    for is_log in [true, false] {
        let hits = stops_in(rt, alloc, &base, is_log, (script, pictures.as_slice()))?;
        let stops = hits.stops;
        assert!(rt; stops > 1, "{is_log} {stops}");
        losses = losses.saturating_add(hits.losses);
    }
    assert!(rt; losses > 0, "nothing was lost");
    Ok(())
}

#[test]
fn a_stop_of_two_holds(rt: HostRuntime) -> Result<(), Fail> {
    withstands_stops(&rt, rt.alloc(), HOLDS)
}

#[test]
fn a_stop_of_a_lost_copy(rt: HostRuntime) -> Result<(), Fail> {
    withstands_stops(&rt, rt.alloc(), LOST)
}

#[test]
fn a_stop_of_a_payment(rt: HostRuntime) -> Result<(), Fail> {
    withstands_stops(&rt, rt.alloc(), PAID)
}

#[test]
fn a_stop_of_a_day_that_is_opened_again(rt: HostRuntime) -> Result<(), Fail> {
    withstands_stops(&rt, rt.alloc(), REOPENED)
}

#[test]
fn a_stop_of_a_renewal_that_is_refused(rt: HostRuntime) -> Result<(), Fail> {
    withstands_stops(&rt, rt.alloc(), RENEWED)
}

#[test]
fn a_stop_of_a_loan_that_ended(rt: HostRuntime) -> Result<(), Fail> {
    withstands_stops(&rt, rt.alloc(), RETURNED)
}

#[test]
fn a_stop_of_loans_with_grace_days_and_without(rt: HostRuntime) -> Result<(), Fail> {
    withstands_stops(&rt, rt.alloc(), GRACE)
}

/// The line, if any, and the loan, as rows of a picture, and the patron's debt.
fn tells(picture: &str, (line, loan, owed): (&str, &str, &str)) -> bool {
    picture.contains(line) && picture.contains(loan) && picture.contains(owed)
}

/// The loan is open and nothing is owed, or it has ended and its fine is owed, by one line.
#[test]
fn a_stop_of_a_late_check_in(rt: HostRuntime) -> Result<(), Fail> {
    let pictures = pictures(rt.alloc(), LATE)?;
    let no_line = ";\n\n\n\n\n0|g1|";
    let open = "\n1|10|1|1|20514|20521|6|1|20|100|none|0|;";
    let before = pictures.get(2).ok_or("a picture")?;
    assert!(&rt; tells(before, (no_line, open, "|Ann Bell|0|;")));
    let line = ";\n\n\n\n1|1|20529|0|100|1|;\n0|g1|";
    let ended = "\n1|10|1|1|20514|20521|6|1|20|100|20529|0|;";
    let after = pictures.get(3).ok_or("a picture")?;
    assert!(&rt; tells(after, (line, ended, "|Ann Bell|100|;")));
    withstands_stops(&rt, rt.alloc(), LATE)
}

//! Halls over a library in two files, which are reopened afterwards: nothing stops them, or a fuse
//! in one file blows at each call in turn.

use crate::calls::connection;
use crate::reopened::{Faults, Lending};
use crate::visits::{Tried, run_over};
use sqlite::{FileStore, Files};
use sqlite_disk::{Disk, Fuse, Memory};
use std::alloc::Global;
use std::process::Abort;
use std::sync::Wait;
use std::test::Fail;
use std::thread::Threads;
use terms::{Fault, ServiceFault};
use test_library::{
    calls_of_open, check, desk_over, filled, fused, ground, into_files, left, open_files, opened,
    options, rows, store_of,
};

/// What the hall's desk is asked for, in order, by lines.
const LINES: [&str; 2] = [
    "desk k1 check-out 1 10 1 -> loan 1 due 2026-03-09",
    "desk k2 renew 1 -> loan 1 due 2026-03-16",
];

/// The rows of the small library before the two requests and after each, in memory and without a
/// hall.
fn pictures(alloc: Global) -> Result<[String; 3], Fail> {
    let mut conn = connection(ground(alloc)?);
    let ground = rows(alloc, &mut conn)?;
    let mut desk = opened(conn)?;
    check(alloc, &mut desk, LINES[0])?;
    let mut conn = connection(desk);
    let lent = rows(alloc, &mut conn)?;
    let mut desk = opened(conn)?;
    check(alloc, &mut desk, LINES[1])?;
    Ok([ground, lent, rows(alloc, &mut connection(desk))?])
}

/// A hall of two workers over two files.
fn run_in<D: Disk + Drop, R: Threads + Wait + Abort + Copy + Send + 'static>(
    rt: R,
    alloc: Global,
    files: Files<D>,
) -> Result<Tried<FileStore<D>, Faults>, Fail> {
    let desk = desk_over(open_files(alloc, files, options())?)?;
    run_over(rt, alloc, desk, None, Lending)
}

/// How many of the two requests were answered: once the files have stopped each gets a fault, 92
/// after the first, and the board still shows its page.
fn answered(rt: &impl Abort, faults: Option<Faults>) -> Result<usize, Fail> {
    let (lending, renewing, page) = faults.ok_or("an answer")?;
    assert!(rt; page == None, "{page:?}");
    if lending == None {
        return Ok(if renewing == None { 2 } else { 1 });
    }
    assert!(rt; renewing == Some(92), "{renewing:?}");
    Ok(0)
}

/// The rows in the files are those of what was answered, or of that and the request in progress;
/// and an unstopped hall over them answers both requests, each done once.
fn goes_on<R: Threads + Wait + Abort + Copy + Send + 'static>(
    rt: R,
    alloc: Global,
    files: Files<Memory>,
    count: usize,
    pictures: &[String; 3],
) -> Result<(), Fail> {
    let mut conn = connection(desk_over(open_files(alloc, files, options())?)?);
    let found = rows(alloc, &mut conn)?;
    let before = pictures.get(count).ok_or("a picture")?;
    let after = pictures.get(count.saturating_add(1)).unwrap_or(before);
    assert!(&rt;
        found.as_str() == before.as_str() || found.as_str() == after.as_str(),
        "after {count}"
    );
    let Ok((faults, desk, _, fault)) = run_over(rt, alloc, opened(conn)?, None, Lending)? else {
        return Err("a hall".into());
    };
    assert!(&rt;
        faults == Some((None, None, None)) && fault == None,
        "{faults:?} {fault:?}"
    );
    let last = rows(alloc, &mut connection(desk))?;
    assert!(&rt; last.as_str() == pictures[2].as_str());
    Ok(())
}

/// The fault that closes a hall after it answered this many of the two requests.
fn fault_after(count: usize) -> Option<ServiceFault> {
    if count == 2 {
        None
    } else {
        Some(ServiceFault::Met(Fault::Database))
    }
}

/// The files after a stop, and whether something unsynced was lost.
fn kept(
    alloc: Global,
    files: Files<Fuse<Memory>>,
    loses: bool,
) -> Result<(Files<Memory>, bool), Fail> {
    let log = files.log.inner().bytes().len();
    let db = files.db.inner().bytes().len();
    let files = left(alloc, files, (loses, loses))?;
    let is_lost = files.log.bytes().len() != log || files.db.bytes().len() != db;
    Ok((files, is_lost))
}

/// One stop, after which the files may have lost what wasn't synced: how many requests were
/// answered, and whether something was lost. A hall whose pages can't be read isn't opened.
fn stopped<R: Threads + Wait + Abort + Copy + Send + 'static>(
    rt: R,
    alloc: Global,
    files: Files<Fuse<Memory>>,
    loses: bool,
    pictures: &[String; 3],
) -> Result<(usize, bool), Fail> {
    let (count, desk) = match run_in(rt, alloc, files)? {
        Ok((faults, desk, _, fault)) => {
            let count = answered(&rt, faults)?;
            assert!(&rt; fault == fault_after(count), "{fault:?}");
            (count, desk)
        }
        Err((number, desk)) => {
            assert!(&rt; number == 91, "{number}");
            (0, desk)
        }
    };
    let (files, is_lost) = kept(alloc, into_files(store_of(desk)), loses)?;
    goes_on(rt, alloc, files, count, pictures)?;
    Ok((count, is_lost))
}

/// The fuse blows at each call of the hall in turn, until all is answered: how many stops left each
/// number of requests answered, and how many lost something.
fn stops_in<R: Threads + Wait + Abort + Copy + Send + 'static>(
    rt: R,
    alloc: Global,
    base: &Files<Memory>,
    is_log: bool,
    pictures: &[String; 3],
) -> Result<([u64; 3], u64), Fail> {
    let mut counts = [0u64; 3];
    let mut losses = 0u64;
    let open = calls_of_open(alloc, base, is_log)?;
    for at in 1..2_000u64 {
        let fuse = (is_log, open.saturating_add(at));
        for loses in [false, true] {
            let files = fused(alloc, base, fuse)?;
            let (count, is_lost) = stopped(rt, alloc, files, loses, pictures)?;
            losses = losses.saturating_add(u64::from(is_lost));
            let place = counts.get_mut(count).ok_or("a count")?;
            *place = place.wrapping_add(1);
        }
        if counts[2] == 2 {
            return Ok((counts, losses));
        }
    }
    Err("the hall was always stopped".into())
}

#[test]
fn a_hall_over_files_leaves_its_rows_there(rt: HostRuntime) -> Result<(), Fail> {
    let alloc = rt.alloc();
    let Ok((faults, desk, _, fault)) = run_in(rt, alloc, filled(alloc)?)? else {
        return Err("a hall".into());
    };
    assert!(&rt;
        faults == Some((None, None, None)) && fault == None,
        "{faults:?} {fault:?}"
    );
    let files = into_files(store_of(desk));
    let found = rows(
        alloc,
        &mut connection(desk_over(open_files(alloc, files, options())?)?),
    )?;
    assert!(&rt; found.as_str() == pictures(alloc)?[2].as_str(), "{found}");
    Ok(())
}

#[test]
fn a_stopped_hall_leaves_what_it_answered(rt: HostRuntime) -> Result<(), Fail> {
    let alloc = rt.alloc();
    let base = filled(alloc)?;
    let pictures = pictures(alloc)?;
    let (mut between, mut lost) = (0u64, 0u64);
    for is_log in [true, false] {
        let (counts, losses) = stops_in(rt, alloc, &base, is_log, &pictures)?;
        assert!(&rt; counts[0] > 0, "{is_log} {counts:?}");
        between = between.wrapping_add(counts[1]);
        lost = lost.wrapping_add(losses);
    }
    assert!(&rt; between > 0 && lost > 0, "{between} {lost}");
    Ok(())
}

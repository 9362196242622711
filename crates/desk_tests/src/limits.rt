//! Limits on the database's steps, in memory: one request is refused, and the next are answered as
//! usual.

use desk::Desk;
use sqlite::MemStore;
use std::alloc::Global;
use std::process::Abort;
use std::test::Fail;
use terms::Fault;
use test_library::{SCRIPTS, asked, check, connection, ground, handle, opened, rows};

/// Loans and holds that a check-out has to count: patron 1 is first in line for title 100.
const BUSY: &str = "desk b1 check-out 1 30 1 -> loan 1 due 2026-03-14
desk b2 check-out 1 20 2 -> loan 2 due 2026-03-10
desk b3 place-hold 1 100 1 -> hold 1
desk b4 place-hold 2 100 1 -> hold 2";

/// The check-out after them.
const LENDING: &str = "desk k1 check-out 1 10 1 -> loan 3 due 2026-03-09";

/// All rows, without a limit on steps, and the desk over them.
pub fn shown(alloc: Global, mut desk: Desk<MemStore>) -> Result<(Desk<MemStore>, String), Fail> {
    desk.limit_steps(None);
    let mut conn = connection(desk);
    let text = rows(alloc, &mut conn)?;
    Ok((opened(conn)?, text))
}

/// The fault of a request with limited steps, and the desk and its rows afterwards.
fn limited(
    alloc: Global,
    mut desk: Desk<MemStore>,
    line: &str,
    limit: u64,
) -> Result<(Desk<MemStore>, Option<Fault>, String), Fail> {
    let asked = asked(alloc, line)?;
    desk.limit_steps(Some(limit));
    let fault = handle(&mut desk, alloc, &asked).err();
    let (desk, text) = shown(alloc, desk)?;
    Ok((desk, fault, text))
}

#[test]
fn a_limit_on_steps_refuses_and_changes_nothing(rt: HostRuntime) -> Result<(), Fail> {
    let alloc = rt.alloc();
    let mut desk = ground(alloc)?;
    check(alloc, &mut desk, BUSY)?;
    let (mut desk, before) = shown(alloc, desk)?;
    let mut stops = 0u64;
    for limit in 1..200u64 {
        let (next, fault, text) = limited(alloc, desk, LENDING, limit)?;
        desk = next;
        let is_lent = fault.is_none();
        assert!(rt; is_lent || fault == Some(Fault::Database), "at {limit}");
        assert!(rt; (text.as_str() == before.as_str()) != is_lent, "at {limit}");
        if is_lent {
            break;
        }
        stops = limit;
    }
    assert!(rt; stops > 0 && stops < 199, "{stops}");
    let (mut desk, after) = shown(alloc, desk)?;
    check(alloc, &mut desk, LENDING)?;
    let (_, repeated) = shown(alloc, desk)?;
    assert!(rt; repeated.as_str() == after.as_str());
    Ok(())
}

/// One request under a limit: if it meets a fault, it is the database's, and no row is changed.
/// Returns the desk without a limit, and whether there was a fault.
fn is_stopped(
    rt: &impl Abort,
    alloc: Global,
    desk: Desk<MemStore>,
    line: &str,
    limit: u64,
) -> Result<(Desk<MemStore>, bool), Fail> {
    let (desk, before) = shown(alloc, desk)?;
    let (desk, fault, after) = limited(alloc, desk, line, limit)?;
    if fault.is_none() {
        return Ok((desk, false));
    }
    assert!(rt; fault == Some(Fault::Database), "{line} at {limit}");
    assert!(rt; before.as_str() == after.as_str(), "{line} at {limit}");
    Ok((desk, true))
}

/// A script on a new library, one request of which is first asked under a limit: every answer and
/// all rows are those without it. Returns whether that request met a fault.
fn is_stopped_once(
    rt: &impl Abort,
    alloc: Global,
    script: &str,
    (at, limit): (usize, u64),
    wanted: &str,
) -> Result<bool, Fail> {
    let mut desk = ground(alloc)?;
    let mut stopped = false;
    for (number, line) in script.split('\n').enumerate() {
        if number == at {
            (desk, stopped) = is_stopped(rt, alloc, desk, line, limit)?;
        }
        check(alloc, &mut desk, line)?;
    }
    let (_, rows) = shown(alloc, desk)?;
    assert!(rt; rows.as_str() == wanted, "line {at} at {limit}");
    Ok(stopped)
}

/// One request of a script under each limit, from 1 up to the first under which it meets no fault:
/// how many there were.
fn stops(
    rt: &impl Abort,
    alloc: Global,
    script: &str,
    at: usize,
    wanted: &str,
) -> Result<u64, Fail> {
    for limit in 1..1_000u64 {
        if !is_stopped_once(rt, alloc, script, (at, limit), wanted)? {
            return Ok(limit - 1);
        }
    }
    Err("a limit under which the request is answered".into())
}

/// Each request of a script: none is answered in one database step.
fn withstands_limits(rt: &impl Abort, alloc: Global, script: &str) -> Result<(), Fail> {
    let mut desk = ground(alloc)?;
    check(alloc, &mut desk, script)?;
    let (_, wanted) = shown(alloc, desk)?;
    for at in 0..script.split('\n').count() {
        let stopped = stops(rt, alloc, script, at, wanted.as_str())?;
        assert!(rt; stopped > 0, "line {at}");
    }
    Ok(())
}

#[test]
fn each_request_is_refused_under_each_limit_and_answered_after_it(
    rt: HostRuntime,
) -> Result<(), Fail> {
    for script in &SCRIPTS {
        withstands_limits(&rt, rt.alloc(), script)?;
    }
    Ok(())
}

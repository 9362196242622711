//! Limits on the database's steps, in memory: how a copies file and a report tell the fault.

use crate::calls::{import, report};
use circ::{Exit, Report};
use desk::Desk;
use sqlite::MemStore;
use std::alloc::Global;
use std::process::Abort;
use std::test::Fail;
use terms::BranchId;
use test_library::{check, ground};

#[test]
fn a_fault_ends_a_copies_file(rt: HostRuntime) -> Result<(), Fail> {
    let alloc = rt.alloc();
    let mut desk = ground(alloc)?;
    desk.limit_steps(Some(1));
    let file = "copy,title,text,kind,home,price,end\n50,500,Maps,1,1,1500,end\n";
    let mut bytes: Vec<u8> = Vec::new(alloc);
    let ended = import(&mut desk, alloc, file.as_bytes(), &mut bytes)?;
    assert!(rt; ended == Exit::Faulted);
    assert!(rt; bytes.as_slice() == "fault 91\naccepted 0 refused 0\n".as_bytes());
    Ok(())
}

/// The report with limited steps: how it ended, and its bytes.
fn limited_report(
    alloc: Global,
    desk: &mut Desk<MemStore>,
    limit: u64,
) -> Result<(Exit, Vec<u8>), Fail> {
    desk.limit_steps(Some(limit));
    let mut bytes: Vec<u8> = Vec::new(alloc);
    let ended = report(desk, alloc, &Report::Overdue(BranchId::new(1)), &mut bytes)?;
    Ok((ended, bytes))
}

/// The bytes are a beginning of the report, then the fault's line. Returns the beginning's length.
fn is_cut(rt: &impl Abort, bytes: &[u8], limit: u64) -> usize {
    let front = bytes.strip_suffix(b"fault 91\n").unwrap_or(b"?");
    assert!(rt; LATE.as_bytes().starts_with(front), "at {limit}");
    front.len()
}

/// Two overdue loans, and their report.
const LATE: &str = "      loan  patron    copy due         late title
         1       1      10 2026-03-09     7 Rivers of the North
         2       2      11 2026-03-09     7 Rivers of the North
overdue 2
";

#[test]
fn a_fault_follows_a_beginning_of_a_report(rt: HostRuntime) -> Result<(), Fail> {
    let alloc = rt.alloc();
    let mut desk = ground(alloc)?;
    let lines =
        "desk b1 check-out 1 10 1 -> loan 1 due 2026-03-09\ndesk b2 check-out 2 11 1 -> loan 2 due 2026-03-09\ndesk b3 begin-day 2026-03-17 -> ok";
    check(alloc, &mut desk, lines)?;
    let mut longest = 0;
    for limit in 1..200u64 {
        let (ended, bytes) = limited_report(alloc, &mut desk, limit)?;
        if ended == Exit::Done {
            assert!(rt; bytes.as_slice() == LATE.as_bytes(), "at {limit}");
            break;
        }
        assert!(rt; ended == Exit::Faulted && limit < 199, "at {limit}");
        longest = is_cut(&rt, &bytes, limit);
    }
    assert!(rt; longest > 0);
    Ok(())
}

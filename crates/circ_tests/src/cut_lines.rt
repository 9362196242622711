//! Writers that take some bytes and then fail, and a failing reader.

use crate::calls::{import, one, report};
use circ::{Exit, Report, WriteFault, out_of_memory, unreadable};
use desk::Desk;
use sqlite::{Alter, MemStore};
use std::alloc::Global;
use std::process::Abort;
use std::test::Fail;
use terms::{BranchId, Day};
use test_bytes::{Drip, Narrow};
use test_library::{check, connection, ground, key, opened, rows, words_of};

/// A header and three rows of copies, of two titles.
pub const BEES: &str =
    "copy,title,text,kind,home,price,end\n50,500,\"Maps, Old and New\",1,1,1500,end\n51,500,\"Maps, Old and New\",1,2,1500,end\n52,501,Winter Bees,2,1,700,end\n";

/// The write failed, and what was taken is the beginning of the text.
fn was_cut(
    rt: &impl Abort,
    told: Result<Exit, WriteFault>,
    writer: &Narrow,
    text: &str,
    room: usize,
) {
    assert!(rt; told == Err(WriteFault), "at {text}");
    let is_beginning = text.as_bytes().starts_with(writer.taken());
    assert!(rt; is_beginning && writer.taken().len() == room, "at {text}");
}

/// The line that answers the words is cut after this many bytes.
fn cut<S: Alter>(
    rt: &impl Abort,
    alloc: Global,
    desk: &mut Desk<S>,
    (text, line): (&str, &str),
    room: usize,
) -> Result<(), Fail> {
    let words = words_of(alloc, text)?;
    let mut writer = Narrow::new(alloc, room);
    let told = one(desk, alloc, key(alloc, "k1")?, &words, &mut writer);
    was_cut(rt, told, &writer, line, room);
    Ok(())
}

/// The desk opened again, and the number of rows a text counts.
fn counted(desk: Desk<MemStore>, text: &str) -> Result<(Desk<MemStore>, u32), Fail> {
    let mut conn = connection(desk);
    let count = conn.query_row(text, &[])?.get(0)?;
    Ok((opened(conn)?, count))
}

/// A check-out whose line is cut is done once, even if it is sent again.
fn lends(rt: &impl Abort, alloc: Global, line: &str, room: usize) -> Result<(), Fail> {
    let mut desk = ground(alloc)?;
    cut(rt, alloc, &mut desk, ("check-out 1 10 1", line), room)?;
    let (mut desk, loans) = counted(desk, "SELECT COUNT(*) FROM loans3")?;
    assert!(rt; loans == 1, "at {room}");
    let lending = "desk k1 check-out 1 10 1 -> loan 1 due 2026-03-09";
    check(alloc, &mut desk, lending)?;
    let (_, loans) = counted(desk, "SELECT COUNT(*) FROM loans3")?;
    assert!(rt; loans == 1, "at {room}");
    Ok(())
}

#[test]
fn lends_though_the_line_is_cut(rt: HostRuntime) -> Result<(), Fail> {
    let line = "loan 1 due 2026-03-09\n";
    for room in 0..line.len() {
        lends(&rt, rt.alloc(), line, room)?;
    }
    Ok(())
}

/// Words, and the line that answers them.
const LINES: &str = "check-out 1 99 1 -> refused 13
check-out 1 99 -> words not understood
page 1 -> patron 1 owed 0 name Ann Bell
begin-day 2026-03-03 -> ok";

/// A line is cut at each byte; the last cut is before its end.
fn cuts_line<S: Alter>(
    rt: &impl Abort,
    alloc: Global,
    desk: &mut Desk<S>,
    row: &str,
) -> Result<(), Fail> {
    let (text, line) = row.split_once(" -> ").ok_or("an arrow")?;
    for room in 0..=line.len() {
        cut(rt, alloc, desk, (text, line), room)?;
    }
    Ok(())
}

/// Each line is cut at each byte.
fn cuts<S: Alter>(rt: &impl Abort, alloc: Global, desk: &mut Desk<S>) -> Result<(), Fail> {
    for row in LINES.split('\n') {
        cuts_line(rt, alloc, desk, row)?;
    }
    Ok(())
}

#[test]
fn cuts_each_kind_of_line(rt: HostRuntime) -> Result<(), Fail> {
    let mut desk = ground(rt.alloc())?;
    cuts(&rt, rt.alloc(), &mut desk)
}

/// A report is cut at each byte.
fn cuts_report<S: Alter>(
    rt: &impl Abort,
    alloc: Global,
    desk: &mut Desk<S>,
    wanted: &Report,
    text: &str,
) {
    for room in 0..text.len() {
        let mut writer = Narrow::new(alloc, room);
        let told = report(desk, alloc, wanted, &mut writer);
        was_cut(rt, told, &writer, text, room);
    }
}

#[test]
fn cuts_reports(rt: HostRuntime) -> Result<(), Fail> {
    let alloc = rt.alloc();
    let (main, day) = (BranchId::new(1), Day::read("2026-03-02").ok_or("a day")?);
    let till =
        "till 2026-03-02\nfines                  0\nprices                 0\npayments               0\nwaivers                0\n";
    let shelf = "      hold    copy  patron until      title\nready 0\n";
    let overdue = "      loan  patron    copy due         late title\noverdue 0\n";
    let mut desk = ground(alloc)?;
    cuts_report(&rt, alloc, &mut desk, &Report::Overdue(main), overdue);
    cuts_report(&rt, alloc, &mut desk, &Report::Till(day), till);
    cuts_report(&rt, alloc, &mut desk, &Report::Shelf(main), shelf);
    let unknown = Report::Shelf(BranchId::new(9));
    cuts_report(&rt, alloc, &mut desk, &unknown, "refused 10\n");
    Ok(())
}

/// A report after some requests is cut at each byte, and the tables stay the same.
fn cuts_report_after(
    rt: &impl Abort,
    alloc: Global,
    lines: &str,
    wanted: &Report,
    text: &str,
) -> Result<(), Fail> {
    let mut desk = ground(alloc)?;
    check(alloc, &mut desk, lines)?;
    let mut conn = connection(desk);
    let before = rows(alloc, &mut conn)?;
    let mut desk = opened(conn)?;
    cuts_report(rt, alloc, &mut desk, wanted, text);
    let mut writer = Narrow::new(alloc, text.len());
    assert!(rt; report(&mut desk, alloc, wanted, &mut writer)? == Exit::Done);
    assert!(rt; writer.taken() == text.as_bytes());
    assert!(rt; rows(alloc, &mut connection(desk))? == before);
    Ok(())
}

/// For a branch and a day: an overdue loan, a fine, and a ready hold.
#[test]
fn cuts_reports_of_rows(rt: HostRuntime) -> Result<(), Fail> {
    let (main, day) = (BranchId::new(1), Day::read("2026-03-17").ok_or("a day")?);
    cuts_report_after(
        &rt,
        rt.alloc(),
        "desk k1 check-out 1 10 1 -> loan 1 due 2026-03-09\ndesk k2 begin-day 2026-03-17 -> ok",
        &Report::Overdue(main),
        "      loan  patron    copy due         late title\n         1       1      10 2026-03-09     7 Rivers of the North\noverdue 1\n",
    )?;
    cuts_report_after(
        &rt,
        rt.alloc(),
        "desk k1 close-day 1 2026-03-09 -> ok\ndesk k2 check-out 1 10 1 -> loan 1 due 2026-03-10\ndesk k3 begin-day 2026-03-17 -> ok\ndesk k4 check-in 10 1 -> fine 100 shelf 1",
        &Report::Till(day),
        "till 2026-03-17\nfines                100\nprices                 0\npayments               0\nwaivers                0\n",
    )?;
    cuts_report_after(
        &rt,
        rt.alloc(),
        "desk k1 place-hold 2 100 1 -> hold 1\ndesk k2 place-hold 3 100 1 -> hold 2\ndesk k3 check-in 10 1 -> fine 0 ready 1 at 1 until 2026-03-07",
        &Report::Shelf(main),
        "      hold    copy  patron until      title\n         1      10       2 2026-03-07 Rivers of the North\nready 1\n",
    )
}

/// A copies file's lines are cut after this many bytes; then this many copies are there.
fn cuts_rows(rt: &impl Abort, alloc: Global, room: usize, copies: u32) -> Result<(), Fail> {
    let lines = "row 1 ok\nrow 2 ok\nrow 3 ok\naccepted 3 refused 0\n";
    let mut desk = ground(alloc)?;
    let mut writer = Narrow::new(alloc, room);
    let told = import(&mut desk, alloc, BEES.as_bytes(), &mut writer);
    was_cut(rt, told, &writer, lines, room);
    let (_, found) = counted(desk, "SELECT COUNT(*) FROM copies WHERE copy >= 50")?;
    assert!(rt; found == copies, "at {room}");
    Ok(())
}

#[test]
fn cuts_the_lines_of_rows(rt: HostRuntime) -> Result<(), Fail> {
    for (room, copies) in [(0, 1), (8, 1), (9, 2), (17, 2), (18, 3), (27, 3), (47, 3)] {
        cuts_rows(&rt, rt.alloc(), room, copies)?;
    }
    Ok(())
}

/// What is reported for a reader that fails, a file that can't be opened, and no memory.
fn tells<S: Alter>(desk: &mut Desk<S>, alloc: Global, bytes: &mut Vec<u8>) -> Result<bool, Fail> {
    let reader = Drip::failing(BEES.as_bytes());
    let ends = (import(desk, alloc, reader, bytes)?, unreadable(bytes)?);
    let status = out_of_memory(bytes)?.status();
    Ok(ends == (Exit::Faulted, Exit::Faulted) && status == 3)
}

#[test]
fn tells_what_cannot_be_read(rt: HostRuntime) -> Result<(), Fail> {
    let mut bytes: Vec<u8> = Vec::new(rt.alloc());
    assert!(rt; tells(&mut ground(rt.alloc())?, rt.alloc(), &mut bytes)?);
    let lines =
        "row 1 ok\nrow 2 ok\nrow 3 ok\nfault reading\naccepted 3 refused 0\nfault reading\naccepted 0 refused 0\nfault 90\n";
    assert!(rt; bytes.as_slice() == lines.as_bytes());
    Ok(())
}

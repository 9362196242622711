//! Copies files as the desk takes them in: whole, and by reads that fail at each byte.

use crate::calls::{check, import};
use crate::cut_lines::BEES;
use circ::{Exit, unchecked};
use desk::Desk;
use sqlite::{Alter, MemStore};
use std::alloc::Global;
use std::process::Abort;
use std::test::Fail;
use test_bytes::Drip;
use test_library::{counts, ground, store_of};

/// How many lines have ended.
fn ended_lines(bytes: &[u8]) -> usize {
    bytes.iter().filter(|byte| **byte == b'\n').count()
}

/// The rows that a reader gave before it failed are imported and reported.
fn tells_rows<S: Alter>(
    rt: &impl Abort,
    alloc: Global,
    desk: &mut Desk<S>,
    front: &'static [u8],
) -> Result<(), Fail> {
    let rows = ended_lines(front).saturating_sub(1);
    let mut wanted = String::new(alloc);
    for row in 1..rows.wrapping_add(1) {
        wanted.push_str(format!(in alloc; "row {row} ok\n")?.as_str())?;
    }
    wanted.push_str(format!(in alloc; "fault reading\naccepted {rows} refused 0\n")?.as_str())?;
    let mut told: Vec<u8> = Vec::new(alloc);
    let exit = import(desk, alloc, Drip::failing(front), &mut told)?;
    assert!(rt; exit == Exit::Faulted);
    assert!(rt; told.as_slice() == wanted.as_bytes(), "{wanted}");
    Ok(())
}

#[test]
fn a_read_that_fails_ends_a_file(rt: HostRuntime) -> Result<(), Fail> {
    let alloc = rt.alloc();
    let mut desk = ground(alloc)?;
    let bytes = BEES.as_bytes();
    for size in 0..bytes.len() + 1 {
        tells_rows(&rt, alloc, &mut desk, &bytes[..size])?;
    }
    Ok(())
}

/// A check writes these lines and ends so.
fn checks(
    rt: &impl Abort,
    alloc: Global,
    file: &'static [u8],
    lines: &str,
    end: Exit,
) -> Result<(), Fail> {
    let mut told: Vec<u8> = Vec::new(alloc);
    let exit = check(alloc, file, &mut told)?;
    assert!(rt; exit == end);
    assert!(rt; told.as_slice() == lines.as_bytes(), "{lines}");
    Ok(())
}

#[test]
fn checks_a_copies_file(rt: HostRuntime) -> Result<(), Fail> {
    let alloc = rt.alloc();
    checks(&rt, alloc, BEES.as_bytes(), "good 3 bad 0\n", Exit::Done)?;
    checks(
        &rt,
        alloc,
        b"",
        "row 0 bad\ngood 0 bad 1\n",
        Exit::NotUnderstood,
    )?;
    checks(
        &rt,
        alloc,
        b"copy,title\n50,500,Maps,1,1,1500,end\n51,500,Maps,1,1,end\n",
        "row 0 bad\nrow 2 bad\ngood 1 bad 2\n",
        Exit::NotUnderstood,
    )
}

#[test]
fn a_read_that_fails_ends_a_check(rt: HostRuntime) -> Result<(), Fail> {
    let alloc = rt.alloc();
    let mut told: Vec<u8> = Vec::new(alloc);
    let ends = (
        check(alloc, Drip::failing(BEES.as_bytes()), &mut told)?,
        unchecked(&mut told)?,
    );
    assert!(rt; ends == (Exit::Faulted, Exit::Faulted));
    let lines = "fault reading\ngood 3 bad 0\nfault reading\ngood 0 bad 0\n";
    assert!(rt; told.as_slice() == lines.as_bytes());
    Ok(())
}

/// The small library's contents after a copies file was imported.
fn counts_with_rows(alloc: Global, mut desk: Desk<MemStore>) -> Result<[usize; 16], Fail> {
    let mut told: Vec<u8> = Vec::new(alloc);
    import(&mut desk, alloc, BEES.as_bytes(), &mut told)?;
    Ok(counts(&mut store_of(desk), alloc)?)
}

#[test]
fn gives_all_rows_with_the_keys_of_a_copies_file(rt: HostRuntime) -> Result<(), Fail> {
    let found = counts_with_rows(rt.alloc(), ground(rt.alloc())?)?;
    assert!(rt; found == [1, 2, 0, 1, 2, 3, 5, 7, 0, 0, 0, 0, 0, 0, 18, 0]);
    Ok(())
}

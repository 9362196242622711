//! Copies files as readers bring them: bad rows, a row too many, and reads that fail at each byte.

use front::{BadRow, CheckEnd, CopyEnd, RowFlaw, check_copies, read_copies};
use std::alloc::Global;
use std::io::Read;
use std::process::Abort;
use std::test::Fail;
use test_bytes::Drip;

/// Reads a copies file: its number of rows, and how the reading ended.
fn copies<R: Read + Drop>(alloc: Global, reader: R) -> (usize, CopyEnd) {
    let (rows, end) = read_copies(alloc, reader);
    (rows.len(), end)
}

/// A header and a good row.
const BEGUN: &str = "copy,title,text,kind,home,price,end\n50,500,Maps,1,1,1500,end\n";

/// Bad rows: a field too few, a number with a leading zero, another closing word, and no title.
const BAD: [&str; 4] = [
    "51,500,Maps,1,1500,end\n",
    "062,500,Maps,1,1,1500,end\n",
    "51,500,Maps,1,1,1500,END\n",
    "51,501,,1,1,1500,end\n",
];

/// How many lines have ended.
fn ended_lines(bytes: &[u8]) -> usize {
    bytes.iter().filter(|byte| **byte == b'\n').count()
}

/// Reads a file whose second row is bad, with a reader that fails after some of its bytes: the
/// first row is there once its line has ended, and the end is reported once the bad line has ended,
/// if a line's end ends it at all.
fn breaks(rt: &impl Abort, alloc: Global, bytes: &[u8], lines: usize) {
    for size in 0..bytes.len() + 1 {
        let front = &bytes[..size];
        let told = copies(alloc, Drip::failing(front));
        let ended = ended_lines(front);
        let end = if ended < lines {
            CopyEnd::Read
        } else {
            CopyEnd::Bad(2)
        };
        let rows = if ended < 2 { 0 } else { 1 };
        assert!(rt; told == (rows, end), "{size} {told:?}");
    }
}

/// A bad row after a good one ends the reading, even if good rows follow.
fn is_bad(rt: &impl Abort, alloc: Global, row: &[u8], lines: usize) -> Result<(), Fail> {
    let mut bytes: Vec<u8> = Vec::new(alloc);
    bytes.extend_from_slice(BEGUN.as_bytes())?;
    bytes.extend_from_slice(row)?;
    breaks(rt, alloc, &bytes, lines);
    let told = copies(alloc, bytes.as_slice());
    assert!(rt; told == (1, CopyEnd::Bad(2)), "{told:?}");
    bytes.extend_from_slice(b"52,502,Bees,1,1,700,end\n")?;
    let told = copies(alloc, bytes.as_slice());
    assert!(rt; told == (1, CopyEnd::Bad(2)), "{told:?}");
    Ok(())
}

#[test]
fn bad_rows_end_a_file(rt: HostRuntime) -> Result<(), Fail> {
    let alloc = rt.alloc();
    for row in BAD {
        is_bad(&rt, alloc, row.as_bytes(), 3)?;
    }
    is_bad(&rt, alloc, b"51,501,M\xe4rz,1,1,1500,end\n", 3)?;
    // an unclosed quote spans lines, so no line ends that row
    is_bad(&rt, alloc, b"51,501,\"Maps,1,1,1500,end\n", 4)
}

/// The flaws of those rows.
const FLAWS: [RowFlaw; 4] = [
    RowFlaw::Count(6),
    RowFlaw::NotNumber(0),
    RowFlaw::Closing,
    RowFlaw::Text(0),
];

#[test]
fn a_check_finds_all_bad_rows(rt: HostRuntime) -> Result<(), Fail> {
    let alloc = rt.alloc();
    let mut bytes: Vec<u8> = Vec::new(alloc);
    bytes.extend_from_slice(BEGUN.as_bytes())?;
    for row in BAD {
        bytes.extend_from_slice(row.as_bytes())?;
        bytes.extend_from_slice(GOOD)?;
    }
    let found = check_copies(alloc, bytes.as_slice());
    assert!(&rt; (found.header, found.good, found.end) == (None, 5, CheckEnd::Whole));
    let mut number = 0u64;
    for (row, flaw) in found.bad.as_slice().iter().zip(FLAWS) {
        number = number.wrapping_add(2);
        assert!(&rt; *row == BadRow { number, flaw }, "{row:?}");
    }
    assert!(&rt; number == 8);
    Ok(())
}

#[test]
fn a_check_goes_up_to_a_failed_read(rt: HostRuntime) -> Result<(), Fail> {
    let alloc = rt.alloc();
    let found = check_copies(alloc, Drip::failing(BEGUN.as_bytes()));
    assert!(&rt; (found.header, found.good, found.end) == (None, 1, CheckEnd::Read));
    let found = check_copies(alloc, Drip::failing(b"copy,"));
    assert!(&rt; (found.header, found.good, found.end) == (None, 0, CheckEnd::Read));
    let found = check_copies(alloc, b"copy;title\n".as_slice());
    assert!(&rt; (found.header, found.good) == (Some(RowFlaw::Separator), 0));
    Ok(())
}

/// A good row.
const GOOD: &[u8] = b"50,500,Maps,1,1,1500,end\n";

/// A file of this many good rows.
fn rows_of(alloc: Global, count: u32) -> Result<Vec<u8>, Fail> {
    let mut bytes: Vec<u8> = Vec::new(alloc);
    bytes.extend_from_slice(b"copy,title,text,kind,home,price,end\n")?;
    for _ in 0..count {
        bytes.extend_from_slice(GOOD)?;
    }
    Ok(bytes)
}

#[test]
fn a_file_has_100_000_rows(rt: HostRuntime) -> Result<(), Fail> {
    let alloc = rt.alloc();
    let bytes = rows_of(alloc, 100_000)?;
    let told = copies(alloc, bytes.as_slice());
    assert!(&rt; told == (100_000, CopyEnd::Whole), "{told:?}");
    let bytes = rows_of(alloc, 100_001)?;
    let told = copies(alloc, bytes.as_slice());
    assert!(&rt; told == (100_000, CopyEnd::Bad(100_001)), "{told:?}");
    Ok(())
}

/// A reader that fails within row 100,001, or before it, says that it failed after 100,000 rows;
/// once that row's line has ended, it is a row too many.
#[test]
fn a_read_that_fails_in_row_100_001(rt: HostRuntime) -> Result<(), Fail> {
    let alloc = rt.alloc();
    let bytes = rows_of(alloc, 100_001)?;
    let (mut failed, mut bad) = (0usize, 0usize);
    for size in bytes.len().saturating_sub(GOOD.len())..bytes.len() + 1 {
        let told = copies(alloc, Drip::failing(&bytes[..size]));
        if told == (100_000, CopyEnd::Read) {
            failed = failed.wrapping_add(1);
        }
        if told == (100_000, CopyEnd::Bad(100_001)) && size == bytes.len() {
            bad = bad.wrapping_add(1);
        }
    }
    assert!(&rt; (failed, bad) == (GOOD.len(), 1), "{failed} {bad}");
    Ok(())
}

//! Checking a copies file, without a library.

ghost use Rattle.std.specs.Prelude.{◌≡◌, ◌++◌, [], length, None};
ghost use Rattle.front.specs.declared.checking.CheckEnd.TheVariants.{Read as NotRead};
ghost use Rattle.terms.specs.Writing.{Writes};
ghost use Rattle.circ.specs.Importing.{end_line};
ghost use Rattle.circ.specs.Checking.{header_line, bad_row_lines, reading_end, bad_count};
ghost use Rattle.circ.specs.Checking.{checked_line, check_lines, check_exit, TellsCheck, Checks};
ghost use Rattle.circ.specs.Lines.{EndsWith};

use crate::importing::{write_bad_row, write_end};
use crate::lines::{Exit, WriteFault};
use front::{BadRow, CheckEnd, CopyCheck, CopyEnd, RowFlaw, check_copies};
use itoa::Buffer;
use std::alloc::Global;
use std::io::{Read, Write};
use terms::{write_bytes, write_pieces};

/// Writes the line of the header if it is bad. Takes no memory.
fn write_header<W: Write>(writer: &mut W, header: Option<RowFlaw>) -> Result<(), WriteFault>
    ensures { Writes (header_line header) (W.contents writer.old) (W.contents writer.new) result }
{
    match header {
        None => write_bytes(writer, b""),
        Some(_) => write_bad_row(writer, 0),
    }
}

/// Writes the lines of bad rows. Takes no memory.
fn write_bad_rows<W: Write>(writer: &mut W, bad: &[BadRow]) -> Result<(), WriteFault>
    ensures { Writes (bad_row_lines bad.now) (W.contents writer.old) (W.contents writer.new) result }
{
    for row in bad {
        write_bad_row(writer, row.number)?;
    }
    Ok(())
}

/// Writes the lines of the header and of bad rows. Takes no memory.
fn write_all_bad<W: Write>(
    writer: &mut W,
    header: Option<RowFlaw>,
    bad: &[BadRow],
) -> Result<(), WriteFault>
    ensures { Writes (header_line header ++ bad_row_lines bad.now)
        (W.contents writer.old) (W.contents writer.new) result }
{
    write_header(writer, header)?;
    write_bad_rows(writer, bad)
}

/// Returns the end of a reading that ends like this check.
fn end_of(end: CheckEnd) -> CopyEnd
    ensures { result ≡ reading_end end }
{
    match end {
        CheckEnd::Whole => CopyEnd::Whole,
        CheckEnd::Read => CopyEnd::Read,
        CheckEnd::Memory => CopyEnd::Memory,
    }
}

/// Writes the last line: the numbers of good and bad rows. Takes no memory.
fn write_checked<W: Write>(writer: &mut W, good: u32, bad: u64) -> Result<(), WriteFault>
    ensures { Writes (checked_line good bad)
        (W.contents writer.old) (W.contents writer.new) result }
{
    write_pieces(
        writer,
        &[
            b"good ",
            Buffer::new().format(good).as_bytes(),
            b" bad ",
            Buffer::new().format(bad).as_bytes(),
            b"\n",
        ],
    )
}

/// Writes how the check ended and the numbers of rows. Takes no memory.
fn write_check_end<W: Write>(
    writer: &mut W,
    end: CheckEnd,
    good: u32,
    bad: u64,
) -> Result<(), WriteFault>
    ensures { Writes (end_line (reading_end end) ++ checked_line good bad)
        (W.contents writer.old) (W.contents writer.new) result }
{
    write_end(writer, end_of(end))?;
    write_checked(writer, good, bad)
}

/// Returns how many rows are bad, with the header.
fn count_of(header: Option<RowFlaw>, bad: &[BadRow]) -> u64
    ensures { result ≡ bad_count header bad.now }
{
    let rows = bad.len() as u64;
    match header {
        None => rows,
        Some(_) => rows + 1,
    }
}

/// Returns the exit after a check that found so many bad rows.
fn exit_after(end: CheckEnd, bad: u64) -> Exit
    ensures { result ≡ check_exit end bad }
{
    match end {
        CheckEnd::Whole => {
            if bad == 0 {
                Exit::Done
            } else {
                Exit::NotUnderstood
            }
        }
        CheckEnd::Read => Exit::Faulted,
        CheckEnd::Memory => Exit::Faulted,
    }
}

/// Writes all lines of a check. Takes no memory.
fn tell_parts<W: Write>(
    writer: &mut W,
    header: Option<RowFlaw>,
    bad: &[BadRow],
    good: u32,
    end: CheckEnd,
) -> Result<Exit, WriteFault>
    ensures { EndsWith (check_exit end (bad_count header bad.now))
        (check_lines header bad.now good end)
        (W.contents writer.old) (W.contents writer.new) result }
{
    let count = count_of(header, bad);
    write_all_bad(writer, header, bad)?;
    write_check_end(writer, end, good, count)?;
    Ok(exit_after(end, count))
}

/// Writes what a check found. Takes no memory.
fn tell_check<W: Write>(writer: &mut W, found: &CopyCheck) -> Result<Exit, WriteFault>
    ensures { TellsCheck found.now (W.contents writer.old) (W.contents writer.new) result }
{
    tell_parts(
        writer,
        found.header,
        found.bad.as_slice(),
        found.good,
        found.end,
    )
}

/// Checks a copies file and returns what was found. Writes a line for each bad row, `row N bad`, where
/// the header is row 0; then `fault reading` or `fault 90` if the reading broke off; last the
/// numbers of good and bad rows.
pub fn check<R: Read + Drop, W: Write>(
    alloc: Global,
    reader: R,
    writer: &mut W,
) -> (CopyCheck, Result<Exit, WriteFault>)
    ensures { Checks (R.remaining reader) result.0
        (W.contents writer.old) (W.contents writer.new) result.1 }
{
    let found = check_copies(alloc, reader);
    let told = tell_check(writer, &found);
    (found, told)
}

/// Writes the lines for a copies file that can't be opened, as if reading failed at once. Takes no
/// memory.
pub fn unchecked<W: Write>(writer: &mut W) -> Result<Exit, WriteFault>
    ensures { EndsWith Exit.Faulted (check_lines None [] 0 NotRead)
        (W.contents writer.old) (W.contents writer.new) result }
{
    tell_parts(writer, None, &[], 0, CheckEnd::Read)
}

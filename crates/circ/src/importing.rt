//! Copies files: acquiring many copies, one per row.

ghost use Rattle.front.specs.declared.copies.TheConstants.{MOST_ROWS};
ghost use Rattle.std.specs.Prelude.{◌≡◌, ◌+◌, ◌<◌, ◌≤◌, ◌++◌, [], length};
ghost use Rattle.front.specs.declared.copies.CopyEnd.TheVariants.{Read as NotRead};
ghost use Rattle.desk.specs.Answering.{Handled};
ghost use Rattle.circ.specs.Importing.{request_of, row_line, bad_row_line, end_line, end_exit, counts_line};
ghost use Rattle.circ.specs.Importing.{import_lines, with_row, ImportsRow, ImportsRows, Imports};
ghost use Rattle.terms.specs.Writing.{Writes};
ghost use Rattle.terms.specs.Texts.{fault_number};
ghost use Rattle.circ.specs.Lines.{fault_line, EndsWith};

use crate::lines::{Exit, WriteFault, tell_fault};
use desk::Desk;
use front::{CopyEnd, FileRow, read_copies};
use itoa::Buffer;
use sqlite::Alter;
use std::alloc::Global;
use std::io::{Read, Write};
use terms::{Caller, Command, Fault, Key, Reply, Request, write_bytes, write_pieces};

/// The numbers of rows accepted and refused.
#[derive(Clone, Copy, Debug, PartialEq, Eq)]
struct Tally {
    accepted: u32,
    refused: u32,
}

/// Before the first row.
const NO_ROWS: Tally = Tally {
    accepted: 0,
    refused: 0,
};

/// Counts one more row.
fn counted(counts: Tally, reply: &Reply) -> Tally
    requires room { counts.accepted + counts.refused < MOST_ROWS }
    ensures { result ≡ with_row counts reply.now }
{
    match reply {
        Reply::Refused(_) => Tally {
            refused: counts.refused + 1,
            ..counts
        },
        _ => Tally {
            accepted: counts.accepted + 1,
            ..counts
        },
    }
}

/// Writes the line of a row. Takes no memory.
fn write_row<W: Write>(writer: &mut W, number: u32, reply: &Reply) -> Result<(), WriteFault>
    ensures { Writes (row_line number reply.now)
        (W.contents writer.old) (W.contents writer.new) result }
{
    match reply {
        Reply::Refused(refusal) => write_pieces(
            writer,
            &[
                b"row ",
                Buffer::new().format(number).as_bytes(),
                b" refused ",
                Buffer::new().format(refusal.number()).as_bytes(),
                b"\n",
            ],
        ),
        _ => write_pieces(
            writer,
            &[b"row ", Buffer::new().format(number).as_bytes(), b" ok\n"],
        ),
    }
}

/// Writes the line of a bad row. Takes no memory.
pub(crate) fn write_bad_row<W: Write>(writer: &mut W, number: u64) -> Result<(), WriteFault>
    ensures { Writes (bad_row_line number) (W.contents writer.old) (W.contents writer.new) result }
{
    write_pieces(
        writer,
        &[b"row ", Buffer::new().format(number).as_bytes(), b" bad\n"],
    )
}

/// Writes the line for how the reading ended, if it wasn't the end of the file. Takes no memory.
pub(crate) fn write_end<W: Write>(writer: &mut W, end: CopyEnd) -> Result<(), WriteFault>
    ensures { Writes (end_line end) (W.contents writer.old) (W.contents writer.new) result }
{
    match end {
        CopyEnd::Whole => write_bytes(writer, b""),
        CopyEnd::Bad(number) => write_bad_row(writer, u64::from(number)),
        CopyEnd::Read => write_bytes(writer, b"fault reading\n"),
        CopyEnd::Memory => match tell_fault(writer, Fault::Memory) {
            Ok(_) => Ok(()),
            Err(fault) => Err(fault),
        },
    }
}

/// Writes the last line: the numbers of rows accepted and refused. Takes no memory.
fn write_counts<W: Write>(writer: &mut W, counts: Tally) -> Result<(), WriteFault>
    ensures { Writes (counts_line counts.accepted counts.refused)
        (W.contents writer.old) (W.contents writer.new) result }
{
    write_pieces(
        writer,
        &[
            b"accepted ",
            Buffer::new().format(counts.accepted).as_bytes(),
            b" refused ",
            Buffer::new().format(counts.refused).as_bytes(),
            b"\n",
        ],
    )
}

/// Returns the exit after all rows.
fn exit_at(end: CopyEnd, refused: u32) -> Exit
    ensures { result ≡ end_exit end refused }
{
    match end {
        CopyEnd::Whole => {
            if refused == 0 {
                Exit::Done
            } else {
                Exit::Refused
            }
        }
        CopyEnd::Bad(_) => Exit::NotUnderstood,
        CopyEnd::Read => Exit::Faulted,
        CopyEnd::Memory => Exit::Faulted,
    }
}

/// Writes how the reading ended and the numbers of rows. Takes no memory.
fn tell_end<W: Write>(writer: &mut W, end: CopyEnd, counts: Tally) -> Result<Exit, WriteFault>
    ensures { EndsWith (end_exit end counts.refused)
        (end_line end ++ counts_line counts.accepted counts.refused)
        (W.contents writer.old) (W.contents writer.new) result }
{
    write_end(writer, end)?;
    write_counts(writer, counts)?;
    Ok(exit_at(end, counts.refused))
}

/// Writes a fault and the numbers of rows before it. Takes no memory.
fn tell_stop<W: Write>(writer: &mut W, fault: Fault, counts: Tally) -> Result<Exit, WriteFault>
    ensures { EndsWith Exit.Faulted
        (fault_line (fault_number fault) ++ counts_line counts.accepted counts.refused)
        (W.contents writer.old) (W.contents writer.new) result }
{
    tell_fault(writer, fault)?;
    write_counts(writer, counts)?;
    Ok(Exit::Faulted)
}

/// Handles the request of a row. Faults 90, 91, 93.
fn handle_row<S: Alter>(desk: &mut Desk<S>, alloc: Global, row: FileRow) -> Result<Reply, Fault>
    ensures { Handled (request_of row) S.Store desk.old desk.new result }
{
    let command = Command::from(row);
    let key = Key::of_row(alloc, &command)?;
    let request = Request {
        caller: Caller::Desk,
        key,
        command,
    };
    desk.handle(alloc, &request)
}

/// Handles a row, counts it and writes its line, taking no memory between the two. If the desk
/// faults, returns the fault and counts and writes nothing.
fn import_row<S: Alter, W: Write>(
    desk: &mut Desk<S>,
    alloc: Global,
    row: FileRow,
    counts: &mut Tally,
    writer: &mut W,
) -> Result<Option<Fault>, WriteFault>
    requires room { counts.old.accepted + counts.old.refused < MOST_ROWS }
    ensures { ImportsRow row counts.old counts.new S.Store desk.old desk.new
        (W.contents writer.old) (W.contents writer.new) result }
{
    match handle_row(desk, alloc, row) {
        Ok(reply) => {
            let number = counts.accepted + counts.refused + 1;
            *counts = counted(*counts, &reply);
            write_row(writer, number, &reply)?;
            Ok(None)
        }
        Err(fault) => Ok(Some(fault)),
    }
}

/// Handles the rows in order and writes their lines, the end and the counts.
fn import_rows<S: Alter, W: Write>(
    desk: &mut Desk<S>,
    alloc: Global,
    rows: Vec<FileRow>,
    end: CopyEnd,
    writer: &mut W,
) -> Result<Exit, WriteFault>
    requires few { length rows.items ≤ MOST_ROWS }
    ensures { ImportsRows rows.items end S.Store desk.old desk.new
        (W.contents writer.old) (W.contents writer.new) result }
{
    let mut counts = NO_ROWS;
    'rows: for row in rows {
        if let Some(fault) = import_row(desk, alloc, row, &mut counts, writer)? {
            return tell_stop(writer, fault, counts);
        }
    }
    tell_end(writer, end, counts)
}

/// Imports a copies file: reads it, then handles the rows before its end, whatever the end, in
/// order. Each row is a request of the desk keyed by its own text, so a file imported twice acts
/// once. Writes a line after each row: `row N ok` or `row N refused M`; then `row N bad`,
/// `fault reading` or `fault N` if the reading ended so, or `fault N` at once if the desk faults;
/// last the numbers of rows accepted and refused.
///
/// `specs/Importing` states the output, the exit and what the tables show. If a write fails, a
/// prefix of the output went out and no later row was handled.
pub fn import<S: Alter, R: Read + Drop, W: Write>(
    desk: &mut Desk<S>,
    alloc: Global,
    reader: R,
    writer: &mut W,
) -> Result<Exit, WriteFault>
    ensures { Imports (R.remaining reader) S.Store desk.old desk.new
        (W.contents writer.old) (W.contents writer.new) result }
{
    let (rows, end) = read_copies(alloc, reader);
    import_rows(desk, alloc, rows, end, writer)
}

/// Writes the lines for a copies file that can't be opened, as if reading failed at once. Takes no
/// memory.
pub fn unreadable<W: Write>(writer: &mut W) -> Result<Exit, WriteFault>
    ensures { EndsWith Exit.Faulted (import_lines [] (end_line NotRead))
        (W.contents writer.old) (W.contents writer.new) result }
{
    tell_end(writer, CopyEnd::Read, NO_ROWS)
}

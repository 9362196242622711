//! What is wrong with the bad rows of a copies file.

use front::{BadRow, CopyCheck, RowFlaw};
use itoa::Buffer;
use std::io::Write;
use terms::{WriteFault, write_bytes, write_pieces};

/// Returns the name of the field at this place.
fn field_name(place: usize) -> &'static str {
    match place {
        0 => "copy",
        1 => "title",
        2 => "text",
        3 => "kind",
        4 => "home",
        5 => "price",
        _ => "end",
    }
}

/// Writes how many fields there are.
fn write_count<W: Write>(writer: &mut W, count: usize) -> Result<(), WriteFault> {
    write_bytes(writer, Buffer::new().format(count).as_bytes())?;
    if count == 1 {
        write_bytes(writer, b" field instead of 7")
    } else {
        write_bytes(writer, b" fields instead of 7")
    }
}

/// Writes what is wrong with the field at this place.
fn write_field<W: Write>(writer: &mut W, place: usize, text: &str) -> Result<(), WriteFault> {
    write_bytes(writer, b"the field ")?;
    write_bytes(writer, field_name(place).as_bytes())?;
    write_bytes(writer, b" is not ")?;
    write_bytes(writer, text.as_bytes())
}

/// Writes what is wrong with a text of so many bytes.
fn write_text<W: Write>(writer: &mut W, size: usize) -> Result<(), WriteFault> {
    write_bytes(
        writer,
        b"the text is not 1 to 120 bytes without control characters and without a space at either \
          end: it has ",
    )?;
    write_bytes(writer, Buffer::new().format(size).as_bytes())?;
    if size == 1 {
        write_bytes(writer, b" byte")
    } else {
        write_bytes(writer, b" bytes")
    }
}

/// Writes what is wrong with a row.
fn write_flaw<W: Write>(writer: &mut W, flaw: RowFlaw) -> Result<(), WriteFault> {
    match flaw {
        RowFlaw::Header => {
            write_bytes(
                writer,
                b"the header is not copy,title,text,kind,home,price,end",
            )
        }
        RowFlaw::TooMany => write_bytes(writer, b"more than 100,000 rows"),
        RowFlaw::Separator => {
            write_count(writer, 1)?;
            write_bytes(
                writer,
                b": the separator must be a comma, not a semicolon or a tab",
            )
        }
        RowFlaw::Count(count) => write_count(writer, count),
        RowFlaw::Unclosed(count) => {
            write_count(writer, count)?;
            write_bytes(
                writer,
                b", with a line break in the last: perhaps a quote is not closed",
            )
        }
        RowFlaw::Closing => {
            write_bytes(
                writer,
                b"the last field is not end: perhaps a quote is not closed",
            )
        }
        RowFlaw::NotUtf8(place) => write_field(writer, place, "UTF-8"),
        RowFlaw::NotNumber(place) => write_field(
            writer,
            place,
            "a number up to 4294967295 without a leading zero",
        ),
        RowFlaw::Text(size) => write_text(writer, size),
    }
}

/// Writes the start of the line about a row.
fn write_number<W: Write>(writer: &mut W, number: u64) -> Result<(), WriteFault> {
    write_pieces(
        writer,
        &[
            b"circ: row ",
            Buffer::new().format(number).as_bytes(),
            b": ",
        ],
    )
}

/// Writes a line with what is wrong with a row. The header is row 0.
pub fn write_bad_row<W: Write>(writer: &mut W, row: BadRow) -> Result<(), WriteFault> {
    write_number(writer, row.number)?;
    write_flaw(writer, row.flaw)?;
    write_bytes(writer, b"\n")
}

/// Writes a line for each bad row that a check found.
pub fn write_bad_rows<W: Write>(writer: &mut W, found: &CopyCheck) -> Result<(), WriteFault> {
    if let Some(flaw) = found.header {
        write_bad_row(writer, BadRow { number: 0, flaw })?;
    }
    for row in found.bad.as_slice() {
        write_bad_row(writer, *row)?;
    }
    Ok(())
}

/// Writes a line for a bad row that isn't found again.
pub fn write_lost_row<W: Write>(writer: &mut W, number: u64) -> Result<(), WriteFault> {
    write_number(writer, number)?;
    write_bytes(
        writer,
        b"it is bad, and why can't be told, as the file can't be read again\n",
    )
}

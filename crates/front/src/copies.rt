//! Copies files: acquiring many copies, one per row.

ghost use Rattle.front.specs.declared.copies.TheConstants.{MOST_ROWS};
ghost use Rattle.std.specs.Prelude.{◌≡◌, ◌≢◌, ◌≤◌, ◌↔◌, Some, List, ℕ, true, false, length, IfOk};
ghost use Rattle.std.specs.Prelude.{IfSome, IfNone, IsUtf8, option_map};
ghost use Rattle.csv.specs.Reading.{error_kind, is_io, reader_state, source_of, strip_bom};
ghost use Rattle.csv.specs.declared.parser.State.TheVariants.{StartRecord};
ghost use Rattle.csv.specs.Records.{field_at, fields_of};
ghost use Rattle.front.specs.Copies.{IsRow, IsNoRow, IsReading, FilesReadOnce};
ghost use Rattle.terms.specs.Commands.{texts};
ghost use Rattle.front.specs.CopyReading.{HasNumber, HasNumbers, Takes, IsPlain, IsRestReading};
ghost use Rattle.front.specs.declared.copies.CopyEnd.TheVariants.{Read as NotRead};
ghost use Rattle.front.specs.declared.copies.CopyEnd.TheVariants.{Memory as NoMemory};

use csv::{ByteRecord, Error, Reader, ReaderBuilder};
use std::alloc::{AllocError, Global};
use std::io::Read;
use std::str;
use terms::{BranchId, Cents, Command, CopyId, CopyKind, Name, TitleId, read_number};

/// The fields of the first record.
pub(crate) const HEADER: [&str; 7] = ["copy", "title", "text", "kind", "home", "price", "end"];

/// The last word of each row, so that a truncated row is noticed.
pub(crate) const CLOSING: &str = "end";

/// The most rows in a file.
pub const MOST_ROWS: u32 = 100_000;

/// A good row of a copies file: a copy to acquire. The desk checks its numbers' limits.
#[derive(Drop)]
pub struct FileRow {
    pub copy: CopyId,
    pub title: TitleId,
    pub text: Name,
    pub kind: CopyKind,
    pub home: BranchId,
    pub price: Cents,
}

impl From<FileRow> for Command {
    ghost use Rattle.front.specs.Copies.{command_of};

    ghost from_gives = { λ row command. command ≡ command_of row };

    fn from(row: FileRow) -> Command {
        Command::Acquire {
            copy: row.copy,
            title: row.title,
            kind: row.kind,
            home: row.home,
            price: row.price,
            text: row.text,
        }
    }
}

/// How the reading of a copies file ended.
#[derive(Clone, Copy, Debug, PartialEq, Eq)]
pub enum CopyEnd {
    /// After the last row of the file.
    Whole,
    /// At the row with this number, from 1, which is malformed or one too many, or at the header,
    /// number 0.
    Bad(u32),
    /// At a failed read.
    Read,
    /// Out of memory.
    Memory,
}

/// Returns a field's text, if it exists and is UTF-8.
pub(crate) fn text_at(fields: &ByteRecord, place: usize) -> Option<&str>
    ensures some { IfSome result (λ text. field_at (fields_of fields.now) place ≡ Some text.now) }
    ensures none { IfNone result ((text : List ℕ) → IsUtf8 text
        → field_at (fields_of fields.now) place ≢ Some text) }
{
    match str::from_utf8(fields.get(place)?) {
        Ok(text) => Some(text),
        Err(_) => None,
    }
}

/// Reads the number in a field.
pub(crate) fn number_at(fields: &ByteRecord, place: usize) -> Option<u32>
    ensures some { IfSome result (λ n. HasNumber (fields_of fields.now) place n) }
    ensures none { IfNone result ((n : ℕ) → HasNumber (fields_of fields.now) place n → ⊥) }
{
    read_number(text_at(fields, place)?)
}

/// Returns whether a field is this word.
pub(crate) fn is_word_at(fields: &ByteRecord, place: usize, word: &str) -> bool
    ensures { ((result ≡ true) ↔ (field_at (fields_of fields.now) place ≡ Some word.now)) }
{
    match text_at(fields, place) {
        Some(text) => text == word,
        None => false,
    }
}

/// Returns whether the fields are these words.
pub(crate) fn are_words(fields: &ByteRecord, words: &[&str]) -> bool
    ensures { ((result ≡ true) ↔ (fields_of fields.now ≡ texts words.now)) }
{
    if fields.len() != words.len() {
        return false;
    }
    for place in 0..words.len() {
        if !is_word_at(fields, place, words[place]) {
            return false;
        }
    }
    true
}

/// Makes a row with this text from the record's numbers.
fn row_with(fields: &ByteRecord, text: Name) -> Option<FileRow>
    ensures text { IfSome result (λ row. row.text ≡ text) }
    ensures numbers { IfSome result (λ row. HasNumbers (fields_of fields.now) row) }
    ensures none { IfNone result (IsNoRow (fields_of fields.now)) }
{
    let copy = CopyId::new(number_at(fields, 0)?);
    let title = TitleId::new(number_at(fields, 1)?);
    let kind = CopyKind::new(number_at(fields, 3)?);
    let home = BranchId::new(number_at(fields, 4)?);
    let price = Cents::new(u64::from(number_at(fields, 5)?));
    Some(FileRow {
        copy,
        title,
        text,
        kind,
        home,
        price,
    })
}

/// Reads a row from a record.
pub(crate) fn read_row(alloc: Global, fields: &ByteRecord) -> Result<Option<FileRow>, AllocError>
    ensures good { IfOk result (λ found. IfSome found (λ row. IsRow (fields_of fields.now) row)) }
    ensures bad { IfOk result (λ found. IfNone found (IsNoRow (fields_of fields.now))) }
{
    if fields.len() != HEADER.len() {
        return Ok(None);
    }
    if !is_word_at(fields, 6, CLOSING) {
        return Ok(None);
    }
    let Some(text) = text_at(fields, 2) else {
        return Ok(None);
    };
    match Name::new(alloc, text)? {
        Some(text) => Ok(row_with(fields, text)),
        None => Ok(None),
    }
}

/// Reads one record after the header: adds its row, unless the reading ends there.
fn take_row(alloc: Global, rows: &mut Vec<FileRow>, fields: &ByteRecord) -> Option<CopyEnd>
    requires few { length rows.old.items ≤ MOST_ROWS }
    ensures { Takes (fields_of fields.now) rows.old.items rows.new.items result }
{
    let number = rows.len() as u32 + 1;
    if number > MOST_ROWS {
        return Some(CopyEnd::Bad(number));
    }
    match read_row(alloc, fields) {
        Ok(Some(row)) => match rows.push(row) {
            Ok(()) => None,
            Err(_) => Some(CopyEnd::Memory),
        },
        Ok(None) => Some(CopyEnd::Bad(number)),
        Err(_) => Some(CopyEnd::Memory),
    }
}

/// Returns how an error ends the reading. Records of any length and bytes are readable, so only the
/// reader and memory can fail.
fn end_at(error: &Error) -> CopyEnd
    ensures failed { is_io (error_kind error.now) ≡ true → result ≡ NotRead }
    ensures memory { is_io (error_kind error.now) ≡ false → result ≡ NoMemory }
{
    if error.is_io_error() {
        CopyEnd::Read
    } else {
        CopyEnd::Memory
    }
}

/// Reads the rows after the header.
fn read_rows<R: Read + Drop>(alloc: Global, file: Reader<R>) -> (Vec<FileRow>, CopyEnd)
    requires plain { IsPlain file }
    ensures told { IsRestReading file.state (source_of R.remaining file) result.0.items result.1 }
    ensures few { length result.0.items ≤ MOST_ROWS }
{
    let mut rows = Vec::new(alloc);
    for record in file.into_byte_records() {
        let record = match record {
            Ok(record) => record,
            Err(error) => return (rows, end_at(&error)),
        };
        if let Some(end) = take_row(alloc, &mut rows, &record) {
            return (rows, end);
        }
    }
    (rows, CopyEnd::Whole)
}

/// Makes a reader of records of any length that treats the first like any other.
pub(crate) fn record_reader<R: Read>(alloc: Global, reader: R) -> Reader<R>
    ensures plain { IsPlain result }
    ensures start { reader_state result ≡ StartRecord }
    ensures source { source_of R.remaining result ≡ option_map strip_bom (R.remaining reader) }
{
    ReaderBuilder::new()
        .has_headers(false)
        .flexible(true)
        .from_reader(alloc, reader)
}

/// Reads a copies file: returns the rows before the first bad one, and how the reading ended.
///
/// A file is comma-separated, with double quotes and no trimming. Its first record is the header:
/// the fields `copy`, `title`, `text`, `kind`, `home`, `price` and `end`. A row has a field for
/// each: the third is the text of a title, the last is the word `end`, and the others are numbers.
/// A record after 100,000 rows ends the reading.
pub fn read_copies<R: Read + Drop>(alloc: Global, reader: R) -> (Vec<FileRow>, CopyEnd)
    ensures told { IsReading (R.remaining reader) result.0.items result.1 }
    ensures few { length result.0.items ≤ MOST_ROWS }
{
    let mut file = record_reader(alloc, reader);
    let mut header = ByteRecord::new(alloc);
    match file.read_byte_record(&mut header) {
        Ok(true) => {
            if are_words(&header, &HEADER) {
                read_rows(alloc, file)
            } else {
                (Vec::new(alloc), CopyEnd::Bad(0))
            }
        }
        Ok(false) => (Vec::new(alloc), CopyEnd::Bad(0)),
        Err(error) => (Vec::new(alloc), end_at(&error)),
    }
}

/// A file has only one list of rows and one end.
pub fn files_read_once()
    ensures { FilesReadOnce }
{}

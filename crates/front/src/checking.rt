//! Checking a copies file: which rows are bad, and what is wrong with each.

ghost use Rattle.front.specs.declared.copies.TheConstants.{MOST_ROWS};
ghost use Rattle.std.specs.Prelude.{◌≡◌, ◌≢◌, ◌≤◌, ◌+◌, ℕ, [], true, false, length, Some, None};
ghost use Rattle.std.specs.Prelude.{IfOk, IfErr, IfSome, IfNone, MatchOption};
ghost use Rattle.csv.specs.Reading.{error_kind, is_io, source_of};
ghost use Rattle.csv.specs.Records.{fields_of};
ghost use Rattle.front.specs.Copies.{IsNoRow};
ghost use Rattle.front.specs.CopyReading.{HasNumber, IsPlain};
ghost use Rattle.front.specs.Checking.{HaveNumbers, IsFlawIn, IsFlaw, IsBad, IsGood, Counts};
ghost use Rattle.front.specs.Checking.{HasHeader, IsRestChecking, IsChecking, ChecksAgree};
ghost use Rattle.front.specs.declared.checking.CheckEnd.TheVariants.{Read as NotRead};
ghost use Rattle.front.specs.declared.checking.CheckEnd.TheVariants.{Memory as NoMemory};

use crate::copies::{
    CLOSING, HEADER, MOST_ROWS, are_words, is_word_at, number_at, read_row, record_reader, text_at,
};
use csv::{ByteRecord, Error, Reader};
use std::alloc::{AllocError, Global};
use std::io::Read;

/// What is wrong with a record of a copies file.
#[derive(Clone, Copy, Debug, PartialEq, Eq)]
pub enum RowFlaw {
    /// It is the first one and isn't the header, or there is none.
    Header,
    /// It comes after 100,000 others.
    TooMany,
    /// It has one field, with semicolons or tabs in it: other separators than commas.
    Separator,
    /// It has so many fields, which aren't seven.
    Count(usize),
    /// It has so many fields, which aren't seven, and the last has a line break in it: perhaps a
    /// quote isn't closed.
    Unclosed(usize),
    /// Its last field isn't `end`.
    Closing,
    /// The field at this place, from 0, isn't UTF-8.
    NotUtf8(usize),
    /// The field at this place, from 0, isn't a number.
    NotNumber(usize),
    /// Its text, which has so many bytes, isn't that of a title.
    Text(usize),
}

/// A bad row of a copies file.
#[derive(Clone, Copy, Debug, PartialEq, Eq)]
pub struct BadRow {
    /// From 1: the records after the header are numbered.
    pub number: u64,
    pub flaw: RowFlaw,
}

/// How the check of a copies file ended.
#[derive(Clone, Copy, Debug, PartialEq, Eq)]
pub enum CheckEnd {
    /// After the last record of the file.
    Whole,
    /// At a failed read.
    Read,
    /// Out of memory.
    Memory,
}

/// What the check of a copies file found.
#[derive(Drop)]
pub struct CopyCheck {
    /// What is wrong with the header, if anything.
    pub header: Option<RowFlaw>,
    /// The bad rows, in order.
    pub bad: Vec<BadRow>,
    /// The number of good rows.
    pub good: u32,
    pub end: CheckEnd,
}

/// Returns whether a field has one of these bytes.
fn has_any(field: Option<&[u8]>, bytes: &[u8]) -> bool {
    match field {
        Some(field) => field.iter().any(|byte| bytes.contains(byte)),
        None => false,
    }
}

/// Returns whether a record is one field that has other separators than commas in it.
fn has_other_separator(fields: &ByteRecord) -> bool
    ensures { result ≡ true → length (fields_of fields.now) ≡ 1 }
{
    fields.len() == 1 && has_any(fields.get(0), b";\t")
}

/// Returns what is wrong with a record that hasn't seven fields.
fn flaw_of_count(fields: &ByteRecord) -> RowFlaw
    requires other { length (fields_of fields.now) ≢ 7 }
    ensures { IsFlawIn (fields_of fields.now) result }
{
    let count = fields.len();
    if has_other_separator(fields) {
        return RowFlaw::Separator;
    }
    if count > 0 && has_any(fields.get(count - 1), b"\r\n") {
        return RowFlaw::Unclosed(count);
    }
    RowFlaw::Count(count)
}

/// Finds the first field that ought to be a number and isn't.
fn wrong_number(fields: &ByteRecord) -> Option<usize>
    ensures some { IfSome result (λ place. (n : ℕ) → HasNumber (fields_of fields.now) place n → ⊥) }
    ensures none { IfNone result (HaveNumbers (fields_of fields.now)) }
{
    if number_at(fields, 0).is_none() {
        return Some(0);
    }
    if number_at(fields, 1).is_none() {
        return Some(1);
    }
    if number_at(fields, 3).is_none() {
        return Some(3);
    }
    if number_at(fields, 4).is_none() {
        return Some(4);
    }
    if number_at(fields, 5).is_none() {
        return Some(5);
    }
    None
}

/// Returns what is wrong with a field that isn't a number.
fn flaw_of_number(fields: &ByteRecord, place: usize) -> RowFlaw
    requires other { (n : ℕ) → HasNumber (fields_of fields.now) place n → ⊥ }
    ensures { IsFlawIn (fields_of fields.now) result }
{
    match text_at(fields, place) {
        Some(_) => RowFlaw::NotNumber(place),
        None => RowFlaw::NotUtf8(place),
    }
}

/// Returns what is wrong with a record that is no row.
fn flaw_in(fields: &ByteRecord) -> RowFlaw
    requires bad { IsNoRow (fields_of fields.now) }
    ensures { IsFlawIn (fields_of fields.now) result }
{
    if fields.len() != HEADER.len() {
        return flaw_of_count(fields);
    }
    if !is_word_at(fields, 6, CLOSING) {
        return RowFlaw::Closing;
    }
    if let Some(place) = wrong_number(fields) {
        return flaw_of_number(fields, place);
    }
    match text_at(fields, 2) {
        Some(text) => RowFlaw::Text(text.len()),
        None => RowFlaw::NotUtf8(2),
    }
}

/// Returns what is wrong with a record after so many others; none if it is a row.
fn flaw_after(
    alloc: Global,
    before: u64,
    fields: &ByteRecord,
) -> Result<Option<RowFlaw>, AllocError>
    ensures { IfOk result (λ found. MatchOption found (IsGood before (fields_of fields.now))
        (λ flaw. IsBad before (fields_of fields.now) × IsFlaw before (fields_of fields.now) flaw)) }
{
    if before >= u64::from(MOST_ROWS) {
        return Ok(Some(RowFlaw::TooMany));
    }
    match read_row(alloc, fields)? {
        Some(_) => Ok(None),
        None => Ok(Some(flaw_in(fields))),
    }
}

/// Checks one record after the header and those that are counted, and lists it if it is bad.
/// Returns the number of good rows.
fn check_record(
    alloc: Global,
    bad: &mut Vec<BadRow>,
    good: u32,
    fields: &ByteRecord,
) -> Result<u32, AllocError>
    requires few { good ≤ MOST_ROWS }
    ensures counted { IfOk result (λ now. Counts (fields_of fields.now) good bad.old.items
        now bad.new.items) }
    ensures few { IfOk result (λ now. now ≤ MOST_ROWS) }
    ensures same { IfErr result (λ _. bad.new.items ≡ bad.old.items) }
{
    let before = u64::from(good) + bad.len() as u64;
    match flaw_after(alloc, before, fields)? {
        None => Ok(good + 1),
        Some(flaw) => {
            let number = before + 1;
            bad.push(BadRow { number, flaw })?;
            Ok(good)
        }
    }
}

/// Returns how an error ends the check, as it ends a reading.
fn end_at(error: &Error) -> CheckEnd
    ensures failed { is_io (error_kind error.now) ≡ true → result ≡ NotRead }
    ensures memory { is_io (error_kind error.now) ≡ false → result ≡ NoMemory }
{
    if error.is_io_error() {
        CheckEnd::Read
    } else {
        CheckEnd::Memory
    }
}

/// Checks the records after the header: returns the bad ones and the number of good ones.
fn check_rows<R: Read + Drop>(alloc: Global, file: Reader<R>) -> (Vec<BadRow>, u32, CheckEnd)
    requires plain { IsPlain file }
    ensures told { IsRestChecking file.state (source_of R.remaining file)
        result.0.items result.1 result.2 }
    ensures few { result.1 ≤ MOST_ROWS }
{
    let mut bad = Vec::new(alloc);
    let mut good = 0;
    for record in file.into_byte_records() {
        let record = match record {
            Ok(record) => record,
            Err(error) => return (bad, good, end_at(&error)),
        };
        match check_record(alloc, &mut bad, good, &record) {
            Ok(now) => good = now,
            Err(_) => return (bad, good, CheckEnd::Memory),
        }
    }
    (bad, good, CheckEnd::Whole)
}

/// Returns what is wrong with the first record; none if it is the header.
fn flaw_of_header(fields: &ByteRecord) -> Option<RowFlaw>
    ensures { HasHeader (fields_of fields.now) result }
{
    if are_words(fields, &HEADER) {
        return None;
    }
    if has_other_separator(fields) {
        return Some(RowFlaw::Separator);
    }
    Some(RowFlaw::Header)
}

/// The check of a file without records, or of one whose first record can't be read.
fn without_records(alloc: Global, header: Option<RowFlaw>, end: CheckEnd) -> CopyCheck
    ensures header { result.header ≡ header }
    ensures bad { result.bad.items ≡ [] }
    ensures good { result.good ≡ 0 }
    ensures end { result.end ≡ end }
{
    CopyCheck {
        header,
        bad: Vec::new(alloc),
        good: 0,
        end,
    }
}

/// Checks a copies file to its end: returns all its bad rows, each with what is wrong with it. What
/// a row is says `read_copies`.
pub fn check_copies<R: Read + Drop>(alloc: Global, reader: R) -> CopyCheck
    ensures told { IsChecking (R.remaining reader) result }
    ensures few { result.good ≤ MOST_ROWS }
{
    let mut file = record_reader(alloc, reader);
    let mut first = ByteRecord::new(alloc);
    match file.read_byte_record(&mut first) {
        Ok(true) => {
            let header = flaw_of_header(&first);
            let (bad, good, end) = check_rows(alloc, file);
            CopyCheck {
                header,
                bad,
                good,
                end,
            }
        }
        Ok(false) => without_records(alloc, Some(RowFlaw::Header), CheckEnd::Whole),
        Err(error) => without_records(alloc, None, end_at(&error)),
    }
}

/// A reading ends at the first bad row of a check.
pub fn checks_agree()
    ensures { ChecksAgree }
{}

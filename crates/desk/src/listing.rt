//! Lists, read batch by batch and told row by row: a hundred rows from a number on with an end that
//! says if there are more, or all rows of a report.

ghost use Rattle.std.specs.Prelude.{◌≡◌, ◌++◌, ℕ, map, IfOk, string_bytes};
ghost use Rattle.std.specs.List.{Contains};
ghost use Rattle.model.specs.Asking.{listed, last_of, above};
ghost use Rattle.model.specs.Reports.{report_lines};
ghost use Rattle.desk.specs.Answering.{LearnsIf};
ghost use Rattle.desk.specs.Listing.{HasBatch, PutsRow, IsTold, IsRowCut, HasTold, GoesOn, IsCut};
ghost use Rattle.desk.specs.Listing.{IsNext, end_words, lines_of};
ghost use Rattle.desk.specs.Parts.{WritesPart, IsFront};

use crate::page::Page;
use crate::report_fault::ReportFault;
use sqlite::Alter;
use std::alloc::Global;
use std::io::Write;
use store::{BATCH_ROWS, Store};
use terms::{Fault, MOST_ROWS, Memory, write_pieces};

/// A list that can be asked for.
pub(crate) trait Listed {
    ghost use Rattle.std.specs.Prelude.{◌≡◌, ℕ};
    ghost use Rattle.model.specs.History.{History};
    ghost use Rattle.model.specs.Asking.{Listing};
    ghost use Rattle.desk.specs.Answering.{LearnsIf};
    ghost use Rattle.desk.specs.Listing.{HasBatch, IsRowText};

    /// A row as read, perhaps one of the list.
    type Row: Drop;

    /// The list after a history that meets `Needs`.
    ghost list: { Self → History → Listing };

    ghost Needs: { Self → History → Type 0 };

    ghost number_of: { Self.Row → ℕ };

    ghost IsRow: { Self → Self.Row → History → Type 0 };

    /// Returns a row's number.
    fn number(row: &Self::Row) -> u32
        ensures { result ≡ number_of row.now };

    /// Reads a batch of rows above a number, in order. Faults 90, 91, 93.
    fn batch<S: Alter>(
        &self,
        store: &mut Store<S>,
        alloc: Global,
        after: u32,
    ) -> Result<Vec<Self::Row>, Fault>
        ensures { LearnsIf (Needs self.now)
            (λ H rows. HasBatch number_of (λ r. IsRow self.now r H) (list self.now H) after
            rows.items) S.Store store.old store.new result };

    /// Makes the text of a row, if it is one of the list. Faults 90, 91, 93.
    fn row_text<S: Alter>(
        &self,
        store: &mut Store<S>,
        alloc: Global,
        row: &Self::Row,
    ) -> Result<Option<String>, Fault>
        ensures { LearnsIf (λ H. Needs self.now H × IsRow self.now row.now H)
            (λ H text. IsRowText (list self.now H) (number_of row.now) text)
            S.Store store.old store.new result };
}

/// How far the rows of a list were told.
#[derive(Clone, Copy)]
pub(crate) struct Told {
    /// The number of rows.
    pub(crate) rows: u32,
    /// The number of the last one.
    last: u32,
    /// Whether there are more.
    more: bool,
}

/// Adds a row, or after as many as wanted notes that there are more.
fn put_row<W: Write>(
    told: Told,
    most: u32,
    number: u32,
    row: &str,
    writer: &mut W,
) -> Result<Told, ReportFault>
    ensures { PutsRow most number row.now told (W.contents writer.old) (W.contents writer.new) result }
{
    if told.rows >= most {
        return Ok(Told { more: true, ..told });
    }
    write_pieces(writer, &[row.as_bytes(), b"\n"])?;
    Ok(Told {
        rows: told.rows + 1,
        last: number,
        more: told.more,
    })
}

/// Adds a row, if it is one of the list. Faults 90, 91, 93.
fn tell_row<L: Listed, S: Alter, W: Write>(
    store: &mut Store<S>,
    alloc: Global,
    list: &L,
    row: &L::Row,
    most: u32,
    told: Told,
    writer: &mut W,
) -> Result<Told, ReportFault>
    ensures { WritesPart (λ H. L.Needs list.now H × L.IsRow list.now row.now H)
        (λ H next sent. IsTold (L.list list.now H) most (L.number_of row.now) told next sent)
        (λ H sent. IsRowCut (L.list list.now H) most (L.number_of row.now) told sent)
        S.Store store.old store.new (W.contents writer.old) (W.contents writer.new) result }
{
    match list.row_text(store, alloc, row)? {
        Some(text) => put_row(told, most, L::number(row), &text, writer),
        None => Ok(told),
    }
}

/// Adds the rows of a batch in order. Faults 90, 91, 93.
fn tell_rows<L: Listed, S: Alter, W: Write>(
    store: &mut Store<S>,
    alloc: Global,
    list: &L,
    rows: &[L::Row],
    most: u32,
    told: Told,
    writer: &mut W,
) -> Result<Told, ReportFault>
    ensures { WritesPart
        (λ H. L.Needs list.now H × ((r : L.Row) → Contains rows.now r → L.IsRow list.now r H))
        (λ H next sent. (at : ℕ)
        → HasBatch L.number_of (λ r. L.IsRow list.now r H) (L.list list.now H) at rows.now
        → GoesOn (L.list list.now H) most at (last_of at (map L.number_of rows.now)) told next sent)
        (λ H sent. (at : ℕ)
        → HasBatch L.number_of (λ r. L.IsRow list.now r H) (L.list list.now H) at rows.now
        → IsCut (L.list list.now H) most at told sent)
        S.Store store.old store.new (W.contents writer.old) (W.contents writer.new) result }
{
    let mut next = told;
    'rows: for row in rows {
        next = tell_row(store, alloc, list, row, most, next, writer)?;
    }
    Ok(next)
}

/// Returns the last row's number in a batch, if more is to be read after it.
fn next_from<L: Listed>(batch: &[L::Row], told: Told) -> Option<u32>
    ensures { IsNext L.number_of batch.now told result }
{
    if told.more || batch.len() < BATCH_ROWS {
        return None;
    }
    match batch.last() {
        Some(row) => Some(L::number(row)),
        None => None,
    }
}

/// Adds a list's rows above this number, batch by batch, until there are more than are wanted.
/// Faults 90, 91, 93, or a write failed: then a prefix of the rows may have gone out.
pub(crate) fn tell<L: Listed, S: Alter, W: Write>(
    store: &mut Store<S>,
    alloc: Global,
    list: &L,
    after: u32,
    most: u32,
    writer: &mut W,
) -> Result<Told, ReportFault>
    ensures { WritesPart (L.Needs list.now)
        (λ H told sent. HasTold (L.list list.now H) most (above after (L.list list.now H).numbers)
        told sent)
        (λ H sent. IsFront sent (lines_of (L.list list.now H) most after))
        S.Store store.old store.new (W.contents writer.old) (W.contents writer.new) result }
{
    let mut told = Told {
        rows: 0,
        last: 0,
        more: false,
    };
    let mut at = after;
    'batches: for _batch in 0..u64::MAX {
        let batch = list.batch(store, alloc, at)?;
        let rows = batch.as_slice();
        told = tell_rows(store, alloc, list, rows, most, told, writer)?;
        match next_from::<L>(rows, told) {
            Some(last) => at = last,
            None => return Ok(told),
        }
    }
    Ok(told)
}

/// Adds the end of an answer.
fn with_end(mut text: String, alloc: Global, told: Told) -> Result<String, Memory>
    ensures { IfOk result
        (λ all. string_bytes all ≡ string_bytes text ++ end_words told) }
{
    if told.more {
        let last = told.last;
        let end = format!(in alloc; "after {last}")?;
        text.push_str(&end)?;
    } else {
        text.push_str("end")?;
    }
    Ok(text)
}

/// Returns the text of a list from a number on, under its head. Faults 90, 91, 93.
pub(crate) fn list_text<L: Listed, S: Alter>(
    store: &mut Store<S>,
    alloc: Global,
    list: &L,
    head: String,
    after: u32,
) -> Result<String, Fault>
    ensures { LearnsIf
        (λ H. L.Needs list.now H × (string_bytes head ≡ report_lines (L.list list.now H).head))
        (λ H text. string_bytes text ≡ listed (L.list list.now H) after)
        S.Store store.old store.new result }
{
    let mut page = Page { text: head };
    match tell(store, alloc, list, after, MOST_ROWS, &mut page) {
        Ok(told) => Ok(with_end(page.text, alloc, told)?),
        Err(why) => Err(why.of_text()),
    }
}

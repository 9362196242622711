//! Barcodes and notes in the desk's answers.

ghost use Rattle.std.specs.Prelude.{◌≡◌, ◌++◌, IfOk, string_bytes};
ghost use Rattle.model.specs.Asking.{note_words};
ghost use Rattle.model.specs.History.{barcode_of};
ghost use Rattle.desk.specs.Answering.{Learns};
ghost use Rattle.std.specs.Prelude.{Some};
ghost use Rattle.desk.specs.Labelling.{barcode_tail, barcode_words, note_at, words_of_note};
ghost use Rattle.desk.specs.Labelling.{words_of_thing};
ghost use Rattle.desk.specs.Placing.{after_space};

use crate::patron_page::add_line;
use sqlite::Alter;
use std::alloc::Global;
use store::Store;
use terms::{BarcodeRow, Fault, LineId, Memory, NoteRow, Thing};

/// Makes the line of a barcode.
#[tactic(auto, unfolding(crate::specs::Labelling::barcode_words))]
fn barcode_line(alloc: Global, row: &BarcodeRow) -> Result<String, Memory>
    ensures { IfOk result (λ text. string_bytes text ≡ barcode_words row.now.barcode) }
{
    let barcode = &row.barcode;
    format!(in alloc; "barcode {barcode}")
}

/// Makes the words for what a barcode is of.
#[tactic(auto, unfolding(crate::specs::Labelling::words_of_thing))]
pub(crate) fn thing_text(alloc: Global, thing: Thing) -> Result<String, Memory>
    ensures { IfOk result (λ text. string_bytes text ≡ words_of_thing thing) }
{
    match thing {
        Thing::Patron(patron) => format!(in alloc; "patron {patron}"),
        Thing::Copy(copy) => format!(in alloc; "copy {copy}"),
    }
}

/// Adds the line of its barcode to the lines of a copy or a patron that has one. Faults 90, 91, 93.
pub(crate) fn with_barcode<S: Alter>(
    store: &mut Store<S>,
    alloc: Global,
    lines: String,
    thing: Thing,
) -> Result<String, Fault>
    ensures { Learns
        (λ H text. string_bytes text ≡ string_bytes lines ++ barcode_tail (barcode_of H thing))
        S.Store store.old store.new result }
{
    let mut text = lines;
    if let Some(row) = store.barcode(alloc, thing)? {
        let line = barcode_line(alloc, &row)?;
        add_line(&mut text, &line)?;
    }
    Ok(text)
}

/// Makes the words for where a line was made, after a space.
#[tactic(auto, unfolding(crate::specs::Placing::after_space))]
fn after_line(alloc: Global, row: &NoteRow) -> Result<String, Memory>
    ensures { IfOk result (λ text. string_bytes text ≡ after_space (words_of_note (Some row.now))) }
{
    let branch = row.branch;
    match &row.text {
        Some(text) => format!(in alloc; " at {branch} for {text}"),
        None => format!(in alloc; " at {branch}"),
    }
}

/// Reads the words of a line's note, after a space; nothing if it has none. Faults 90, 91, 93.
pub(crate) fn note_text<S: Alter>(
    store: &mut Store<S>,
    alloc: Global,
    line: LineId,
) -> Result<String, Fault>
    ensures { Learns
        (λ H text. string_bytes text ≡ after_space (note_words (note_at H line)))
        S.Store store.old store.new result }
{
    match store.note(alloc, line)? {
        Some(row) => Ok(after_line(alloc, &row)?),
        None => Ok(String::new(alloc)),
    }
}

//! What is wrong with words that aren't a command.

use crate::usage::write_form;
use itoa::Buffer;
use std::alloc::Global;
use std::io::Write;
use terms::{
    Barcode, CardKey, Day, Mask, Name, PartForm, PartKind, WriteFault, parts_for, read_number,
    write_bytes, write_pieces,
};

/// The run that was given the words.
#[derive(Clone, Copy)]
pub enum Handler {
    /// `circ file`.
    File,
    /// `circ send`.
    Send,
}

impl Handler {
    /// Returns its usage, up to the words.
    fn usage(self) -> &'static str {
        match self {
            Handler::File => "usage: circ file LIBRARY KEY ",
            Handler::Send => "usage: circ send PORT DESKKEY KEY ",
        }
    }
}

/// Describes the words of this kind.
pub fn wanted(kind: PartKind) -> &'static str {
    match kind {
        PartKind::Number => "a number up to 4294967295, without a leading zero",
        PartKind::Amount => "an amount in cents up to 4294967295, without a leading zero",
        PartKind::Day => "a day from 2000-01-01 to 2199-12-31, such as 2026-03-02",
        PartKind::Mask => "seven letters, Monday to Sunday: o for open, c for closed",
        PartKind::CardKey => "8 to 32 ASCII letters and digits",
        PartKind::Barcode => "1 to 24 ASCII letters and digits",
        PartKind::Name => { "1 to 120 bytes, with no control character and no space at either end" }
    }
}

/// Returns whether the word can be of this kind; true if memory runs out.
fn can_be(alloc: Global, kind: PartKind, word: &str) -> bool {
    match kind {
        PartKind::Number | PartKind::Amount => read_number(word).is_some(),
        PartKind::Day => Day::read(word).is_some(),
        PartKind::Mask => Mask::read(word).is_some(),
        PartKind::CardKey => match CardKey::new(alloc, word) {
            Ok(read) => read.is_some(),
            Err(_) => true,
        },
        PartKind::Barcode => match Barcode::new(alloc, word) {
            Ok(read) => read.is_some(),
            Err(_) => true,
        },
        PartKind::Name => match Name::new(alloc, word) {
            Ok(read) => read.is_some(),
            Err(_) => true,
        },
    }
}

/// Finds the first part whose word can't be of its kind.
fn wrong_part<'a>(alloc: Global, parts: &'a [PartForm], words: &[String]) -> Option<&'a PartForm> {
    for (part, word) in parts.iter().zip(words) {
        if !can_be(alloc, part.kind, word.as_str()) {
            return Some(part);
        }
    }
    None
}

fn has_hyphen(words: &[String]) -> bool {
    for word in words {
        if word.as_bytes().starts_with(b"-") {
            return true;
        }
    }
    false
}

/// Writes what a word must be.
pub fn write_wanted<W: Write>(writer: &mut W, name: &str, wanted: &str) -> Result<(), WriteFault> {
    write_pieces(
        writer,
        &[
            b"circ: ",
            name.as_bytes(),
            b" must be ",
            wanted.as_bytes(),
            b"\n",
        ],
    )
}

/// Writes what is wrong with the words after a command's name, if anything.
fn write_wrong<W: Write>(
    writer: &mut W,
    alloc: Global,
    name: &str,
    parts: &[PartForm],
    words: &[String],
) -> Result<(), WriteFault> {
    if has_hyphen(words) {
        return write_bytes(writer, b"circ: no word may begin with a hyphen\n");
    }
    if words.len() != parts.len() {
        return write_pieces(
            writer,
            &[
                b"circ: words after ",
                name.as_bytes(),
                b": ",
                Buffer::new().format(words.len()).as_bytes(),
                b" instead of ",
                Buffer::new().format(parts.len()).as_bytes(),
                b"\n",
            ],
        );
    }
    match wrong_part(alloc, parts, words) {
        Some(part) => write_wanted(writer, part.name, wanted(part.kind)),
        None => Ok(()),
    }
}

/// Writes what is wrong with words that aren't a command, and the usage of the command meant.
pub fn explain_words<W: Write>(
    writer: &mut W,
    alloc: Global,
    handler: Handler,
    words: &[String],
) -> Result<(), WriteFault> {
    let [name, others @ ..] = words else {
        return Ok(());
    };
    let Some(parts) = parts_for(name.as_str()) else {
        return write_pieces(
            writer,
            &[
                b"circ: unknown command ",
                name.as_bytes(),
                b"; circ without words lists them all\n",
            ],
        );
    };
    write_wrong(writer, alloc, name.as_str(), parts, others)?;
    write_bytes(writer, handler.usage().as_bytes())?;
    write_form(writer, name.as_str(), parts)
}

//! What an output line means.

use crate::meanings::{meaning, saying};
use crate::noting::ToldLine;
use std::io::Write;
use terms::{WriteFault, write_pieces};

/// Returns the last number in the line, or 0.
fn last_number(line: &[u8]) -> u32 {
    let mut number = 0u32;
    let mut inside = false;
    for byte in line {
        if byte.is_ascii_digit() {
            let before = if inside { number } else { 0 };
            number = before
                .saturating_mul(10)
                .saturating_add(u32::from(*byte - b'0'));
            inside = true;
        } else {
            inside = false;
        }
    }
    number
}

/// Returns the number of the bad row that the line is about, if it is.
pub fn bad_row_in(line: &ToldLine) -> Option<u32> {
    let line = line.as_bytes();
    if line.ends_with(b" bad") {
        Some(last_number(line))
    } else {
        None
    }
}

/// Returns the meaning of a refusal or fault line, if there is more to say.
fn text_of(line: &[u8]) -> Option<&'static str> {
    if line.ends_with(b" bad") {
        return None;
    }
    match saying(line) {
        Some(text) => Some(text),
        None => meaning(last_number(line)),
    }
}

/// Writes one line that explains a refusal or a fault.
pub fn explain<W: Write>(writer: &mut W, line: &ToldLine) -> Result<(), WriteFault> {
    match text_of(line.as_bytes()) {
        Some(text) => write_pieces(writer, &[b"circ: ", text.as_bytes(), b"\n"]),
        None => Ok(()),
    }
}

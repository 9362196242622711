//! What the findings of an audit mean.

use crate::meanings::{BALANCE, BARCODES, BINDING, CLAIMS, NUMBERS, OLD_ROW, REFERENCE};
use circ_audit::{Finding, Table};
use itoa::Buffer;
use std::io::Write;
use terms::{WriteFault, write_pieces};

/// Explains a finding.
fn text_of(finding: &Finding) -> &'static str {
    match finding {
        Finding::Claims(_) => CLAIMS,
        Finding::Binding(_) => BINDING,
        Finding::Balance(_) => BALANCE,
        Finding::Reference(Table::Barcodes, _) => BARCODES,
        Finding::Reference(_, _) => REFERENCE,
        Finding::Numbers(_, _) => NUMBERS,
    }
}

/// Writes a line with what the breach of a law means for a number.
fn write_meaning<W: Write>(
    writer: &mut W,
    law: &[u8],
    number: u32,
    text: &str,
) -> Result<(), WriteFault> {
    write_pieces(
        writer,
        &[
            b"circ: ",
            law,
            Buffer::new().format(number).as_bytes(),
            b": ",
            text.as_bytes(),
            b"\n",
        ],
    )
}

/// Writes a line with what a finding means, behind the words of its law and its number.
pub fn write_finding<W: Write>(
    writer: &mut W,
    law: &[u8],
    number: u32,
    finding: &Finding,
) -> Result<(), WriteFault> {
    write_meaning(writer, law, number, text_of(finding))
}

/// Writes the same for a row in a table of older schemas.
pub fn write_old_row<W: Write>(writer: &mut W, law: &[u8], number: u32) -> Result<(), WriteFault> {
    write_meaning(writer, law, number, OLD_ROW)
}

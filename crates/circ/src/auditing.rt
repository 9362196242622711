//! Auditing a library.

ghost use Rattle.std.specs.Prelude.{◌≡◌};
ghost use Rattle.circ.specs.Auditing.{LegalTablesAreSound, SaysAudit};
ghost use Rattle.circ.specs.Auditing.{told_row, Searches, SaysAuditAll};

use crate::lines::{
    Exit, WriteFault, tell_all, tell_fault, tell_finding, tell_old_row, tell_sound,
};
use circ_audit::{Finding, MOST_FINDINGS, Table, doubled_barcode, doubled_barcodes};
use sqlite::Alter;
use std::alloc::Global;
use std::io::Write;
use store::{OldRow, Store};
use terms::Fault;

/// The audited rows of tables left by a list of accepted requests keep the laws of sound tables.
fn legal_tables_are_sound()
    ensures { LegalTablesAreSound }
{}

/// Audits a library and writes one line: `sound`; `unsound claims N`, `unsound binding N`,
/// `unsound balance N`, `unsound reference TABLE N` or `unsound numbers TABLE N` for the first
/// broken law and its least number; `unsound reference barcodes N` if these laws hold and the thing
/// with this number has the barcode of another; `unsound numbers TABLE N` if besides a table of older
/// schemas, `rules`, `loans` or `holds`, has a row; or `fault N`. Changes nothing.
///
/// Reads all rows in batches and keeps those the laws speak of: all but those of `kept`, of which it
/// keeps the first of each caller. Takes memory for barcodes, and none for the laws. Then reads the
/// first batch of each table of older schemas.
///
/// `specs/Auditing` states the line, the exit and what the tables show. If they show a list of
/// accepted requests, the line is `sound` or a fault other than 93. If a write fails, a prefix of
/// the line went out.
pub fn audit<S: Alter, W: Write>(
    store: &mut Store<S>,
    alloc: Global,
    writer: &mut W,
) -> Result<Exit, WriteFault>
    ensures { SaysAudit S.Store store.old store.new
        (W.contents writer.old) (W.contents writer.new) result }
{
    legal_tables_are_sound();
    let tables = match store.audit_tables(alloc) {
        Ok(tables) => tables,
        Err(fault) => return tell_fault(writer, fault),
    };
    match circ_audit::audit(&tables) {
        Ok(()) => {}
        Err(finding) => return tell_finding(writer, finding),
    }
    match doubled_barcode(alloc, &tables) {
        Ok(None) => {}
        Ok(Some(thing)) => {
            return tell_finding(writer, Finding::Reference(Table::Barcodes, thing));
        }
        Err(_) => return tell_fault(writer, Fault::Memory),
    }
    match store.old_row(alloc) {
        Ok(None) => tell_sound(writer),
        Ok(Some(row)) => tell_old_row(writer, row),
        Err(fault) => tell_fault(writer, fault),
    }
}

/// What an audit that goes on to its end found.
#[derive(Drop)]
pub struct Findings {
    /// The numbers for which a law fails, in the order of the audit.
    pub broken: Vec<Finding>,
    /// The patrons and copies, patrons before copies, with the barcode of another one before.
    pub doubled: Vec<u32>,
    /// The first row in a table of older schemas.
    pub old: Option<OldRow>,
}

/// Returns the row, if a line can be told after so many others.
fn told_row(lines: usize, old: Option<OldRow>) -> Option<OldRow>
    ensures { result ≡ told_row lines old }
{
    if lines < MOST_FINDINGS { old } else { None }
}

/// Reads the tables, and finds all that an audit tells.
fn find_all<S: Alter>(store: &mut Store<S>, alloc: Global) -> Result<Findings, Fault>
    ensures { Searches S.Store store.old store.new result }
{
    legal_tables_are_sound();
    let tables = match store.audit_tables(alloc) {
        Ok(tables) => tables,
        Err(fault) => return Err(fault),
    };
    let broken = match circ_audit::audit_all(alloc, &tables) {
        Ok(broken) => broken,
        Err(_) => return Err(Fault::Memory),
    };
    let doubled = match doubled_barcodes(alloc, &tables, MOST_FINDINGS - broken.len()) {
        Ok(doubled) => doubled,
        Err(_) => return Err(Fault::Memory),
    };
    match store.old_row(alloc) {
        Ok(row) => {
            let old = told_row(broken.len() + doubled.len(), row);
            Ok(Findings {
                broken,
                doubled,
                old,
            })
        }
        Err(fault) => Err(fault),
    }
}

/// Audits a library to its end and returns what it found. Writes `sound`; or the line of each number
/// for which a law fails, as `audit` writes the first, in the order of the laws, of their tables and
/// of the numbers, then of each thing with the barcode of another one before it, then of the first
/// row in a table of older schemas, but no more than 1,000 lines; or `fault N`. Changes nothing.
///
/// Reads what `audit` reads, and the tables of older schemas whatever else is found. A law's rows are
/// looked at again after each finding, in memory.
///
/// `specs/Auditing` states the lines, the exit and what the tables show. If they show a list of
/// accepted requests, the line is `sound` or a fault other than 93. If a write fails, a prefix of
/// the lines went out.
pub fn audit_all<S: Alter, W: Write>(
    store: &mut Store<S>,
    alloc: Global,
    writer: &mut W,
) -> (Option<Findings>, Result<Exit, WriteFault>)
    ensures { SaysAuditAll S.Store store.old store.new result.0
        (W.contents writer.old) (W.contents writer.new) result.1 }
{
    match find_all(store, alloc) {
        Ok(found) => {
            let told = tell_all(
                writer,
                found.broken.as_slice(),
                found.doubled.as_slice(),
                &found.old,
            );
            (Some(found), told)
        }
        Err(fault) => (None, tell_fault(writer, fault)),
    }
}

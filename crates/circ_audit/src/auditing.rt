//! Auditing tables.

ghost use Rattle.std.specs.Prelude.{◌≡◌, ◌+◌, IfOk, OnOk};
ghost use Rattle.circ_audit.specs.Findings.{finding_of, first_of, place_of_part};
ghost use Rattle.circ_audit.specs.Findings.{AreFindings, AreFindingsBefore};
ghost use Rattle.circ_audit.specs.Sound.{Audits};

use crate::numbers::Series;
use crate::parts::{Part, first_wrong};
use crate::references::Table;
use std::alloc::Global;
use terms::{CopyId, HoldId, Memory, PatronId, Tables};

/// The most findings of an audit that goes on after the first.
pub const MOST_FINDINGS: usize = 1_000;

/// A number for which a law fails.
#[derive(Clone, Copy, Debug, PartialEq, Eq)]
pub enum Finding {
    /// The copy has more than one claim.
    Claims(CopyId),
    /// The hold isn't correctly bound to a copy.
    Binding(HoldId),
    /// The patron's debt isn't the charges less payments and waivers.
    Balance(PatronId),
    /// A row of the table, its key's last number this one, names a missing row.
    Reference(Table, u32),
    /// A number below the next one has no row, or else one that isn't below it has one.
    Numbers(Series, u32),
}

/// Returns what a part finds of a number.
fn finding_of(part: Part, number: u32) -> Finding
    ensures { result ≡ finding_of part number }
{
    match part {
        Part::Claims => Finding::Claims(CopyId::new(number)),
        Part::Bindings => Finding::Binding(HoldId::new(number)),
        Part::Balances => Finding::Balance(PatronId::new(number)),
        Part::References(table) => Finding::Reference(table, number),
        Part::Numbers(series) => Finding::Numbers(series, number),
    }
}

/// Checks the five laws of sound tables (`specs/Sound.antt`): at most one claim on each copy, ready
/// and coming holds bound to copies one to one, the balance of each patron, each row that another
/// names, and the numbers of loans, holds and lines. Returns the first broken law with its least
/// number. Takes no memory; time is linear in the rows, once per 65,536 numbers of copies, holds and
/// patrons, and a search for each reference.
pub fn audit(tables: &Tables) -> Result<(), Finding>
    ensures { Audits tables.now result }
{
    let mut part = Part::Claims;
    loop {
        if let Some(number) = first_wrong(tables, part, None) {
            return Err(finding_of(part, number));
        }
        match part.next() {
            Some(next) => part = next,
            None => return Ok(()),
        }
    }
}

/// Adds the findings of a part to those of the parts before it, up to the most that there may be.
fn add_findings(tables: &Tables, part: Part, found: &mut Vec<Finding>) -> Result<(), Memory>
    requires { AreFindingsBefore tables.now (place_of_part part) 0 found.old.items }
    ensures { OnOk result
        (AreFindingsBefore tables.now (place_of_part part + 1) 0 found.new.items) }
{
    let mut after = None;
    while found.len() < MOST_FINDINGS {
        let Some(number) = first_wrong(tables, part, after) else {
            return Ok(());
        };
        found.push(finding_of(part, number))?;
        after = Some(number);
    }
    Ok(())
}

/// Checks the same laws and goes on after the first finding: returns each number for which a law
/// fails, in the order of the audit, and no more than 1,000. The head of the list is what an audit
/// that ends at the first finding gives. Reads the rows of a law once more for each finding.
pub fn audit_all(alloc: Global, tables: &Tables) -> Result<Vec<Finding>, Memory>
    ensures findings { IfOk result (λ found. AreFindings tables.now found.items) }
    ensures first { IfOk result (λ found. Audits tables.now (first_of found.items)) }
{
    let mut found = Vec::new(alloc);
    let mut part = Part::Claims;
    loop {
        add_findings(tables, part, &mut found)?;
        match part.next() {
            Some(next) => part = next,
            None => return Ok(found),
        }
    }
}

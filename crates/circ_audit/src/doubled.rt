//! Barcodes that stand on two things.

ghost use Rattle.std.specs.Prelude.{◌≡◌, ◌++◌, [], IfOk, OnOk, MatchOption};
ghost use Rattle.circ_audit.specs.Barcodes.{AreDistinct, IsFirstDoubled, AreDoubled, with_doubled};

use std::alloc::Global;
use std::collections::BTreeMap;
use terms::{BarcodeRow, Memory, Tables};

/// Adds a number, if it is doubled.
fn add_doubled(found: &mut Vec<u32>, doubled: bool, number: u32) -> Result<(), Memory>
    ensures { OnOk result (found.new.items ≡ found.old.items ++ with_doubled doubled number []) }
{
    if doubled {
        found.push(number)?;
    }
    Ok(())
}

/// Returns the numbers of the patrons and copies, patrons before copies, whose barcode another one
/// before has too: of the first ones, at most so many. Takes memory for each row.
fn doubled_in(alloc: Global, rows: &[BarcodeRow], most: usize) -> Result<Vec<u32>, Memory>
    ensures { IfOk result (λ found. AreDoubled rows.now most found.items) }
{
    let mut seen = BTreeMap::new(alloc);
    let mut found = Vec::new(alloc);
    for row in rows {
        if found.len() == most {
            return Ok(found);
        }
        let barcode = row.barcode.as_str();
        let before = seen.insert(barcode, ())?;
        add_doubled(&mut found, before.is_some(), row.thing.number())?;
    }
    Ok(found)
}

/// The same for the tables.
pub fn doubled_barcodes(alloc: Global, tables: &Tables, most: usize) -> Result<Vec<u32>, Memory>
    ensures { IfOk result (λ found. AreDoubled tables.now.barcodes most found.items) }
{
    doubled_in(alloc, tables.barcodes.as_slice(), most)
}

/// Returns the first of them.
pub fn doubled_barcode(alloc: Global, tables: &Tables) -> Result<Option<u32>, Memory>
    ensures { IfOk result (λ found. MatchOption found
        (AreDistinct tables.now.barcodes) (IsFirstDoubled tables.now.barcodes)) }
{
    let found = doubled_barcodes(alloc, tables, 1)?;
    Ok(found.first().copied())
}

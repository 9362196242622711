//! The table of barcodes, from schema 4 on.

ghost use Rattle.std.specs.Prelude.{◌≡◌, [], true};
ghost use Rattle.sql_maps.specs.Batches.{FirstRowsBy};
ghost use Rattle.sql_maps.specs.Maps.{FirstOfBy, ListedBy, PairBelow};
ghost use Rattle.circ_tables.specs.Barcodes.{IsFoundBy, barcodes};
ghost use Rattle.circ_tables.specs.Cells.{thing_number, thing_sort};
ghost use Rattle.circ_tables.specs.Puts.{PutsRow, TakesRow};
ghost use Rattle.circ_tables.specs.Reading.{Gets, Lists, Selects, Views};
ghost use Rattle.circ_tables.specs.Selections.{has_barcode, is_after, is_any, is_second_after};
ghost use Rattle.circ_tables.specs.Shape.{barcodes_place};
ghost use Rattle.circ_tables.specs.declared.by_number.TheConstants.{BATCH_ROWS};

use crate::cell::{barcode_at, has_width, thing_at, thing_numbers};
use crate::sql_calls::run;
use crate::table::{Table, row_of, rows_of};
use sqlite::{Alter, Connection, Row, Transaction, params};
use std::alloc::Global;
use terms::{Barcode, BarcodePut, BarcodeRow, Fault, Thing};

impl Table for BarcodeRow {
    type Key = Thing;

    type Memory = Global;

    ghost table = { barcodes };

    /// Reads a row of `barcodes`. Faults 90, 91, 93.
    fn read(row: &Row, alloc: Global) -> Result<BarcodeRow, Fault> {
        has_width(row, 3)?;
        Ok(BarcodeRow {
            thing: thing_at(row)?,
            barcode: barcode_at(row, alloc, 2)?,
        })
    }
}

/// Puts a row of `barcodes`. Fault 91.
pub fn put_barcode<S: Alter>(tx: &mut Transaction<'_, S>, row: &BarcodePut<'_>) -> Result<(), Fault>
    ensures { PutsRow barcodes row.now.thing row.now S.Store tx.old tx.new result }
{
    let (sort, number) = thing_numbers(row.thing);
    run(
        tx,
        "INSERT INTO barcodes VALUES (?1, ?2, ?3) ON CONFLICT (sort, \
         number) DO UPDATE SET barcode = ?3",
        params![sort, number, row.barcode.as_str()],
    )
}

/// Removes the barcode of a copy or a patron, if there is one. Fault 91.
pub fn take_barcode<S: Alter>(tx: &mut Transaction<'_, S>, thing: Thing) -> Result<(), Fault>
    ensures { TakesRow barcodes thing S.Store tx.old tx.new result }
{
    let (sort, number) = thing_numbers(thing);
    run(
        tx,
        "DELETE FROM barcodes WHERE sort = ?1 AND number = ?2",
        params![sort, number],
    )
}

/// Reads the barcode of a copy or a patron, if there is one. Faults 90, 91, 93.
pub fn get_barcode<S: Alter>(
    conn: &mut Connection<S>,
    alloc: Global,
    thing: Thing,
) -> Result<Option<BarcodeRow>, Fault>
    ensures { Gets barcodes thing S.Store conn.old conn.new result }
{
    let (sort, number) = thing_numbers(thing);
    row_of(
        conn,
        alloc,
        "SELECT * FROM barcodes WHERE sort = ?1 AND number = ?2",
        params![sort, number],
    )
}

/// The SQL of `find_barcode`.
pub const FIND_BARCODE_TEXT: &str =
    "SELECT * FROM barcodes WHERE barcode = ?1 ORDER BY sort, number LIMIT 1";

/// Reads the row with this barcode, if there is one: the first, if there were several. Faults 90,
/// 91, 93.
pub fn find_barcode<S: Alter>(
    conn: &mut Connection<S>,
    alloc: Global,
    barcode: &Barcode,
) -> Result<Option<BarcodeRow>, Fault>
    ensures selects { Selects barcodes
        (λ maps. FirstOfBy PairBelow (maps barcodes_place) (λ v. has_barcode barcode.now v ≡ true))
        S.Store conn.old conn.new result }
    ensures view { Views (IsFoundBy barcode.now) S.Store conn.old conn.new result }
{
    row_of(conn, alloc, FIND_BARCODE_TEXT, params![barcode.as_str()])
}

/// Reads all rows of `barcodes`, by sort, then by number. Faults 90, 91, 93.
pub fn all_barcodes<S: Alter>(
    conn: &mut Connection<S>,
    alloc: Global,
) -> Result<Vec<BarcodeRow>, Fault>
    ensures { Lists barcodes (λ l. l.items) (λ m. ListedBy PairBelow m is_any)
        S.Store conn.old conn.new result }
{
    rows_of(
        conn,
        alloc,
        alloc,
        "SELECT * FROM barcodes ORDER BY sort, number",
        &[],
    )
}

/// The SQL of `first_barcodes`.
pub const FIRST_BARCODES_TEXT: &str = "SELECT * FROM barcodes ORDER BY sort, number LIMIT 101";

/// Reads the first batch of `barcodes`, by sort, then by number. Faults 90, 91, 93.
pub fn first_barcodes<S: Alter>(
    conn: &mut Connection<S>,
    alloc: Global,
) -> Result<Vec<BarcodeRow>, Fault>
    ensures { Lists barcodes (λ l. l.items) (λ m. FirstRowsBy PairBelow BATCH_ROWS m is_any)
        S.Store conn.old conn.new result }
{
    rows_of(conn, alloc, alloc, FIRST_BARCODES_TEXT, &[])
}

/// The SQL of `barcodes_after`.
pub const BARCODES_AFTER_TEXT: &str =
    "SELECT * FROM barcodes WHERE sort = ?1 AND number > ?2 ORDER BY sort, number LIMIT 101";

/// Reads a batch of the rows of the thing's sort with numbers above its own, by number. Faults 90,
/// 91, 93.
pub fn barcodes_after<S: Alter>(
    conn: &mut Connection<S>,
    alloc: Global,
    thing: Thing,
) -> Result<Vec<BarcodeRow>, Fault>
    ensures { Lists barcodes (λ l. l.items) (λ m. FirstRowsBy PairBelow BATCH_ROWS m
        (is_second_after (thing_sort thing) (thing_number thing))) S.Store conn.old conn.new result }
{
    let (sort, number) = thing_numbers(thing);
    rows_of(
        conn,
        alloc,
        alloc,
        BARCODES_AFTER_TEXT,
        params![sort, number],
    )
}

/// The SQL of `barcodes_past`.
pub const BARCODES_PAST_TEXT: &str =
    "SELECT * FROM barcodes WHERE sort > ?1 ORDER BY sort, number LIMIT 101";

/// Reads a batch of the rows of sorts after the thing's, by sort, then by number. Faults 90, 91, 93.
pub fn barcodes_past<S: Alter>(
    conn: &mut Connection<S>,
    alloc: Global,
    thing: Thing,
) -> Result<Vec<BarcodeRow>, Fault>
    ensures { Lists barcodes (λ l. l.items)
        (λ m. FirstRowsBy PairBelow BATCH_ROWS m (is_after (thing_sort thing)))
        S.Store conn.old conn.new result }
{
    rows_of(
        conn,
        alloc,
        alloc,
        BARCODES_PAST_TEXT,
        params![thing.sort_number()],
    )
}

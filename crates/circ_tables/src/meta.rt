//! The table of one row: the schema, today, and the next numbers.

ghost use Rattle.std.specs.Prelude.{◌∷◌, ◌≡◌, ◌≢◌, Err, IfOk, OnErr, [], length};
ghost use Rattle.terms.specs.Limits.{IsMeta};
ghost use Rattle.terms.specs.declared.row.MetaRow.{MetaRow as MetaRecord};
ghost use Rattle.circ_tables.specs.Cells.{meta_cells};
ghost use Rattle.circ_tables.specs.Puts.{PutsMeta};
ghost use Rattle.circ_tables.specs.Reading.{GetsMeta, GetsMetaInside};

use crate::cell::{day_at, has_width, hold_at, line_at, loan_at, number_at};
use crate::sql_calls::{all_rows, all_rows_inside, run};
use sqlite::{Alter, Connection, Row, Transaction, params};
use terms::{Fault, LAST_NEXT_NUMBER, MetaRow};

/// Selects all rows of `meta`.
pub const ALL_META: &str = "SELECT * FROM meta ORDER BY id";

/// Returns the only row. 93 if there are none, or several.
pub fn one_of(rows: &[Row]) -> Result<&Row, Fault>
    ensures ok { IfOk result (λ row. rows.now ≡ row.now ∷ []) }
    ensures err { OnErr result (length rows.now ≢ 1) }
{
    if rows.len() == 1 {
        Ok(&rows[0])
    } else {
        Err(Fault::Stored)
    }
}

/// Reads the row of `meta`: id 1, any 32-bit schema, and next numbers up to 2,147,483,648. Faults
/// 91, 93.
pub fn meta_row(row: &Row) -> Result<MetaRow, Fault>
    ensures cells { IfOk result (λ r. row.now ≡ meta_cells r) }
    ensures limits { IfOk result IsMeta }
    ensures stored { result ≡ Err Fault.Stored → (r : MetaRecord) → IsMeta r
        → row.now ≢ meta_cells r }
{
    has_width(row, 6)?;
    number_at(row, 0, 1, 1)?;
    Ok(MetaRow {
        schema: number_at(row, 1, 0, u32::MAX)?,
        today: day_at(row, 2)?,
        next_loan: loan_at(row, 3, LAST_NEXT_NUMBER)?,
        next_hold: hold_at(row, 4, LAST_NEXT_NUMBER)?,
        next_line: line_at(row, 5, LAST_NEXT_NUMBER)?,
    })
}

/// Reads the row of `meta` from its rows. Fault 91; 93 unless it is one row of id 1, within its
/// limits.
fn lone_row(rows: &[Row]) -> Result<MetaRow, Fault>
    ensures cells { IfOk result (λ r. rows.now ≡ meta_cells r ∷ []) }
    ensures limits { IfOk result IsMeta }
    ensures stored { result ≡ Err Fault.Stored → (r : MetaRecord) → IsMeta r
        → rows.now ≢ meta_cells r ∷ [] }
{
    meta_row(one_of(rows)?)
}

/// Reads the one row of `meta`. Fault 91; 93 unless it is one row of id 1, within its limits.
pub fn get_meta<S: Alter>(conn: &mut Connection<S>) -> Result<MetaRow, Fault>
    ensures { GetsMeta S.Store conn.old conn.new result }
{
    let rows = all_rows(conn, ALL_META, &[])?;
    lone_row(rows.as_slice())
}

/// Reads the one row of `meta` inside a transaction, which goes on. Fault 91; 93 unless it is one
/// row of id 1, within its limits.
pub fn get_meta_inside<S: Alter>(tx: &mut Transaction<'_, S>) -> Result<MetaRow, Fault>
    ensures { GetsMetaInside S.Store tx.old tx.new result }
{
    let rows = all_rows_inside(tx, ALL_META, &[])?;
    lone_row(rows.as_slice())
}

/// Puts the row of `meta`. Fault 91.
pub fn put_meta<S: Alter>(tx: &mut Transaction<'_, S>, row: &MetaRow) -> Result<(), Fault>
    ensures { PutsMeta row.now S.Store tx.old tx.new result }
{
    run(
        tx,
        "INSERT INTO meta VALUES (?1, ?2, ?3, ?4, ?5, ?6) \
         ON CONFLICT (id) DO UPDATE SET schema = ?2, today = ?3, next_loan = ?4, next_hold = ?5, \
         next_line = ?6",
        params![
            1u32,
            row.schema,
            row.today.number(),
            row.next_loan.number(),
            row.next_hold.number(),
            row.next_line.number(),
        ],
    )
}

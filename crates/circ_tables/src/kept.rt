//! The table of requests kept under callers' keys.

ghost use Rattle.std.specs.Prelude.{◌≡◌, ◌≢◌, Err, IfOk, IsUtf8, [], length};
ghost use Rattle.sqlite.specs.Order.{column};
ghost use Rattle.sqlite.specs.declared.types.Value.TheVariants.{Text as SqlText};
ghost use Rattle.sql_maps.specs.Maps.{ListedBy, PairBelow};
ghost use Rattle.sql_maps.specs.Batches.{FirstRowsBy};
ghost use Rattle.terms.specs.declared.row.KeptRow.{KeptRow as KeptRecord};
ghost use Rattle.circ_tables.specs.Cells.{kept_cells, owner_number};
ghost use Rattle.circ_tables.specs.Kept.{kept};
ghost use Rattle.circ_tables.specs.Puts.{PutsKept};
ghost use Rattle.circ_tables.specs.Reading.{GetsKept, Lists};
ghost use Rattle.circ_tables.specs.Selections.{is_after, is_any, is_kept_after};
ghost use Rattle.circ_tables.specs.declared.by_number.TheConstants.{BATCH_ROWS};

use crate::cell::{has_width, key_at, owner_at, text_at};
use crate::sql_calls::{first_row, run};
use crate::table::{Table, rows_of};
use sqlite::{Alter, Connection, Row, Transaction, params};
use std::alloc::Global;
use terms::{Fault, KeptPut, KeptRow, Key, Owner, Text, owner_number};

/// What is kept under a key: the request text and its reply.
#[derive(Drop)]
pub struct KeptReply {
    pub text: Text,
    pub reply: Text,
}

impl Table for KeptRow {
    type Key = (Owner, Key);

    type Memory = Global;

    ghost table = { kept };

    /// Reads a row of `kept`, whatever its key's origin. Faults 90, 91, 93.
    fn read(row: &Row, alloc: Global) -> Result<KeptRow, Fault> {
        has_width(row, 4)?;
        Ok(KeptRow {
            caller: owner_at(row, 0)?,
            key: key_at(row, alloc, 1)?,
            text: text_at(row, 2)?,
            reply: text_at(row, 3)?,
        })
    }
}

/// Puts a row of `kept`. Fault 91.
pub fn put_kept<S: Alter>(tx: &mut Transaction<'_, S>, row: &KeptPut<'_>) -> Result<(), Fault>
    ensures { PutsKept row.now S.Store tx.old tx.new result }
{
    run(
        tx,
        "INSERT INTO kept VALUES (?1, ?2, ?3, ?4) ON CONFLICT (caller, \
         key) DO UPDATE SET text = ?3, reply = ?4",
        params![
            owner_number(row.caller),
            row.key.as_str(),
            row.text.as_str(),
            row.reply.as_str(),
        ],
    )
}

fn kept_reply(row: &Row) -> Result<KeptReply, Fault>
    ensures columns { IfOk result (λ kept. (length row.now ≡ 4)
        × (column row.now 2 ≡ SqlText kept.text) × (column row.now 3 ≡ SqlText kept.reply)) }
    ensures stored { result ≡ Err Fault.Stored → (r : KeptRecord) → IsUtf8 r.text → IsUtf8 r.reply
        → row.now ≢ kept_cells r }
{
    has_width(row, 4)?;
    Ok(KeptReply {
        text: text_at(row, 2)?,
        reply: text_at(row, 3)?,
    })
}

/// Reads what is kept under a caller's key, if anything. Faults 91, 93.
pub fn get_kept<S: Alter>(
    conn: &mut Connection<S>,
    owner: Owner,
    key: &Key,
) -> Result<Option<KeptReply>, Fault>
    ensures { GetsKept owner key.now S.Store conn.old conn.new result }
{
    let row = first_row(
        conn,
        "SELECT * FROM kept WHERE caller = ?1 AND key = ?2",
        params![owner_number(owner), key.as_str()],
    )?;
    match &row {
        Some(row) => Ok(Some(kept_reply(row)?)),
        None => Ok(None),
    }
}

/// Reads all rows of `kept`, by owner, then by key. Faults 90, 91, 93.
pub fn all_kept<S: Alter>(conn: &mut Connection<S>, alloc: Global) -> Result<Vec<KeptRow>, Fault>
    ensures { Lists kept (λ l. l.items) (λ m. ListedBy PairBelow m is_any)
        S.Store conn.old conn.new result }
{
    rows_of(
        conn,
        alloc,
        alloc,
        "SELECT * FROM kept ORDER BY caller, key",
        &[],
    )
}

/// The SQL of `first_kept`.
pub const FIRST_KEPT_TEXT: &str = "SELECT * FROM kept ORDER BY caller, key LIMIT 101";

/// Reads the first batch of `kept`, by owner, then by key. Faults 90, 91, 93.
pub fn first_kept<S: Alter>(conn: &mut Connection<S>, alloc: Global) -> Result<Vec<KeptRow>, Fault>
    ensures { Lists kept (λ l. l.items) (λ m. FirstRowsBy PairBelow BATCH_ROWS m is_any)
        S.Store conn.old conn.new result }
{
    rows_of(conn, alloc, alloc, FIRST_KEPT_TEXT, &[])
}

/// The SQL of `kept_after`.
pub const KEPT_AFTER_TEXT: &str =
    "SELECT * FROM kept WHERE caller = ?1 AND key > ?2 ORDER BY caller, key LIMIT 101";

/// Reads a batch of a caller's rows with keys after this one, by key. Faults 90, 91, 93.
pub fn kept_after<S: Alter>(
    conn: &mut Connection<S>,
    alloc: Global,
    owner: Owner,
    key: &Key,
) -> Result<Vec<KeptRow>, Fault>
    ensures { Lists kept (λ l. l.items)
        (λ m. FirstRowsBy PairBelow BATCH_ROWS m (is_kept_after (owner_number owner) key.now))
        S.Store conn.old conn.new result }
{
    rows_of(
        conn,
        alloc,
        alloc,
        KEPT_AFTER_TEXT,
        params![owner_number(owner), key.as_str()],
    )
}

/// The SQL of `kept_past`.
pub const KEPT_PAST_TEXT: &str =
    "SELECT * FROM kept WHERE caller > ?1 ORDER BY caller, key LIMIT 101";

/// Reads a batch of the rows of later callers, by owner, then by key. Faults 90, 91, 93.
pub fn kept_past<S: Alter>(
    conn: &mut Connection<S>,
    alloc: Global,
    owner: Owner,
) -> Result<Vec<KeptRow>, Fault>
    ensures { Lists kept (λ l. l.items)
        (λ m. FirstRowsBy PairBelow BATCH_ROWS m (is_after (owner_number owner)))
        S.Store conn.old conn.new result }
{
    rows_of(
        conn,
        alloc,
        alloc,
        KEPT_PAST_TEXT,
        params![owner_number(owner)],
    )
}

//! All rows of each table.

ghost use Rattle.terms.specs.Limits.{InLimits};
ghost use Rattle.store.specs.Lists.{AreRows, AllPass, AreRuleRows, AreClosedDayRows, AreKeptRows};
ghost use Rattle.store.specs.Lists.{AreRegisters, AreHoldings, AreDealings, AreTables};
ghost use Rattle.store.specs.Lists.{AreAuditTables, AreBarcodeRows, AreLabels};
ghost use Rattle.store.specs.Reads.{Looked, IsReadable};
ghost use Rattle.store.specs.Legal.{HasLegal, HasLegalRegisters, HasLegalHoldings};
ghost use Rattle.store.specs.Legal.{HasLegalDealings, HasLegalLabels, HasLegalTables, Reviews};
ghost use Rattle.store.specs.Legal.{AnswersLegal};
ghost use Rattle.circ_tables.specs.Barcodes.{barcodes};
ghost use Rattle.circ_tables.specs.Branches.{branches};
ghost use Rattle.circ_tables.specs.ClosedDays.{closed_days};
ghost use Rattle.circ_tables.specs.Kept.{kept};
ghost use Rattle.circ_tables.specs.Kinds.{kinds};
ghost use Rattle.circ_tables.specs.Rules.{rules};

use crate::batches::{kept_by_caller, read_batches};
use crate::idle::committed_is_held;
use crate::store::Store;
use circ_tables::{all_barcodes, all_closed_days, all_kept, all_rules, every_row, get_meta};
use sqlite::{Alter, Connection};
use std::alloc::Global;
use terms::{
    BarcodeRow, BranchRow, ClosedDayRow, CopyRow, Fault, HoldRow, KeptRow, KindRow, LineRow,
    LoanRow, MetaRow, NoteRow, PatronRow, Rows, RuleRow, Tables, TitleRow, TransitRow,
};

/// The tables that the desk sets.
#[derive(Drop)]
struct Registers {
    meta: MetaRow,
    branches: Rows<BranchRow>,
    closed_days: Rows<ClosedDayRow>,
    kinds: Rows<KindRow>,
    rules: Rows<RuleRow>,
}

/// Patrons, titles and copies.
#[derive(Drop)]
struct Holdings {
    patrons: Rows<PatronRow>,
    titles: Rows<TitleRow>,
    copies: Rows<CopyRow>,
}

/// What was done with them.
#[derive(Drop)]
struct Dealings {
    loans: Rows<LoanRow>,
    holds: Rows<HoldRow>,
    transits: Rows<TransitRow>,
    lines: Rows<LineRow>,
}

/// Barcodes, and the notes of lines.
#[derive(Drop)]
struct Labels {
    barcodes: Rows<BarcodeRow>,
    notes: Rows<NoteRow>,
}

/// Reads all rows of `branches`. Faults 90, 91, 93.
fn branches<S: Alter>(conn: &mut Connection<S>, alloc: Global) -> Result<Rows<BranchRow>, Fault>
    ensures { Reviews (λ P rows. AreRows P.branches (λ r. r.branch) AllPass rows)
        (HasLegal branches) S.Store conn.old conn.new result }
{
    let found = every_row::<BranchRow, S>(conn, alloc, alloc)?;
    Rows::new(found)
}

/// Reads all rows of `kinds`. Faults 90, 91, 93.
fn kinds<S: Alter>(conn: &mut Connection<S>, alloc: Global) -> Result<Rows<KindRow>, Fault>
    ensures { Reviews (λ P rows. AreRows P.kinds (λ r. r.kind) AllPass rows) (HasLegal kinds)
        S.Store conn.old conn.new result }
{
    let found = every_row::<KindRow, S>(conn, alloc, ())?;
    Rows::new(found)
}

/// Reads all rows of `rules`. Faults 90, 91, 93.
fn rules<S: Alter>(conn: &mut Connection<S>, alloc: Global) -> Result<Rows<RuleRow>, Fault>
    ensures { Reviews (λ P rows. AreRuleRows P rows) (HasLegal rules)
        S.Store conn.old conn.new result }
{
    let found = all_rules(conn, alloc)?;
    Rows::new(found)
}

/// Reads all rows of `closed_days`. Faults 90, 91, 93.
fn closed_days<S: Alter>(
    conn: &mut Connection<S>,
    alloc: Global,
) -> Result<Rows<ClosedDayRow>, Fault>
    ensures { Reviews (λ P rows. AreClosedDayRows P rows) (HasLegal closed_days)
        S.Store conn.old conn.new result }
{
    let found = all_closed_days(conn, alloc)?;
    Rows::new(found)
}

/// Reads all rows of `kept`. Faults 90, 91, 93.
fn kept<S: Alter>(conn: &mut Connection<S>, alloc: Global) -> Result<Rows<KeptRow>, Fault>
    ensures { Reviews (λ P rows. AreKeptRows P rows) (HasLegal kept)
        S.Store conn.old conn.new result }
{
    let found = all_kept(conn, alloc)?;
    Rows::new(found)
}

/// Reads all rows of `barcodes`. Faults 90, 91, 93.
fn barcodes<S: Alter>(conn: &mut Connection<S>, alloc: Global) -> Result<Rows<BarcodeRow>, Fault>
    ensures { Reviews (λ P rows. AreBarcodeRows P rows) (HasLegal barcodes)
        S.Store conn.old conn.new result }
{
    let found = all_barcodes(conn, alloc)?;
    Rows::new(found)
}

/// Reads the tables that the desk sets. Faults 90, 91, 93.
fn read_registers<S: Alter>(conn: &mut Connection<S>, alloc: Global) -> Result<Registers, Fault>
    ensures { Reviews AreRegisters HasLegalRegisters S.Store conn.old conn.new result }
{
    let meta = get_meta(conn)?;
    let branches = branches(conn, alloc)?;
    let closed_days = closed_days(conn, alloc)?;
    let kinds = kinds(conn, alloc)?;
    let rules = rules(conn, alloc)?;
    Ok(Registers {
        meta,
        branches,
        closed_days,
        kinds,
        rules,
    })
}

/// Reads patrons, titles and copies. Faults 90, 91, 93.
fn read_holdings<S: Alter>(conn: &mut Connection<S>, alloc: Global) -> Result<Holdings, Fault>
    ensures { Reviews AreHoldings HasLegalHoldings S.Store conn.old conn.new result }
{
    let patrons = read_batches::<PatronRow, S>(conn, alloc, alloc)?;
    let titles = read_batches::<TitleRow, S>(conn, alloc, alloc)?;
    let copies = read_batches::<CopyRow, S>(conn, alloc, ())?;
    Ok(Holdings {
        patrons,
        titles,
        copies,
    })
}

/// Reads loans, holds, transits and lines. Faults 90, 91, 93.
fn read_dealings<S: Alter>(conn: &mut Connection<S>, alloc: Global) -> Result<Dealings, Fault>
    ensures { Reviews AreDealings HasLegalDealings S.Store conn.old conn.new result }
{
    let loans = read_batches::<LoanRow, S>(conn, alloc, ())?;
    let holds = read_batches::<HoldRow, S>(conn, alloc, ())?;
    let transits = read_batches::<TransitRow, S>(conn, alloc, ())?;
    let lines = read_batches::<LineRow, S>(conn, alloc, ())?;
    Ok(Dealings {
        loans,
        holds,
        transits,
        lines,
    })
}

/// Reads barcodes and notes. Faults 90, 91, 93.
fn read_labels<S: Alter>(conn: &mut Connection<S>, alloc: Global) -> Result<Labels, Fault>
    ensures { Reviews AreLabels HasLegalLabels S.Store conn.old conn.new result }
{
    let barcodes = barcodes(conn, alloc)?;
    let notes = read_batches::<NoteRow, S>(conn, alloc, alloc)?;
    Ok(Labels { barcodes, notes })
}

/// Reads all rows of each table. Faults 90, 91, 93.
fn all_tables<S: Alter>(conn: &mut Connection<S>, alloc: Global) -> Result<Tables, Fault>
    ensures { Reviews AreTables HasLegalTables S.Store conn.old conn.new result }
{
    let set = read_registers(conn, alloc)?;
    let owned = read_holdings(conn, alloc)?;
    let done = read_dealings(conn, alloc)?;
    let labels = read_labels(conn, alloc)?;
    let kept = kept(conn, alloc)?;
    Ok(Tables {
        meta: set.meta,
        branches: set.branches,
        closed_days: set.closed_days,
        kinds: set.kinds,
        rules: set.rules,
        patrons: owned.patrons,
        titles: owned.titles,
        copies: owned.copies,
        loans: done.loans,
        holds: done.holds,
        transits: done.transits,
        lines: done.lines,
        kept,
        barcodes: labels.barcodes,
        notes: labels.notes,
    })
}

/// Reads the rows that an audit checks. Faults 90, 91, 93.
fn audit_tables<S: Alter>(conn: &mut Connection<S>, alloc: Global) -> Result<Tables, Fault>
    ensures { Reviews AreAuditTables HasLegalTables S.Store conn.old conn.new result }
{
    let set = read_registers(conn, alloc)?;
    let owned = read_holdings(conn, alloc)?;
    let done = read_dealings(conn, alloc)?;
    let labels = read_labels(conn, alloc)?;
    let kept = kept_by_caller(conn, alloc)?;
    Ok(Tables {
        meta: set.meta,
        branches: set.branches,
        closed_days: set.closed_days,
        kinds: set.kinds,
        rules: set.rules,
        patrons: owned.patrons,
        titles: owned.titles,
        copies: owned.copies,
        loans: done.loans,
        holds: done.holds,
        transits: done.transits,
        lines: done.lines,
        kept,
        barcodes: labels.barcodes,
        notes: labels.notes,
    })
}

impl<S: Alter> Store<S> {
    /// Reads all rows of each table, in ascending key order. Faults 90, 91, 93.
    pub fn tables(&mut self, alloc: Global) -> Result<Tables, Fault>
        ensures looked { Looked InLimits AreTables IsReadable S.Store self.old self.new result }
        ensures legal { AnswersLegal S.Store self.old self.new result }
    {
        committed_is_held(&self.conn);
        all_tables(&mut self.conn, alloc)
    }

    /// Reads the rows that the laws of sound tables speak of: all rows of all tables but `kept`, and
    /// the first of each caller in `kept`. Faults 90, 91, 93.
    ///
    /// Reads all rows of `kept`, but memory grows only with their callers.
    pub fn audit_tables(&mut self, alloc: Global) -> Result<Tables, Fault>
        ensures looked { Looked InLimits AreAuditTables IsReadable
            S.Store self.old self.new result }
        ensures legal { AnswersLegal S.Store self.old self.new result }
    {
        committed_is_held(&self.conn);
        audit_tables(&mut self.conn, alloc)
    }

    /// Reads all rows of `patrons`, by number. Faults 90, 91, 93.
    pub fn patrons(&mut self, alloc: Global) -> Result<Rows<PatronRow>, Fault>
        ensures { Looked InLimits (λ P rows. AreRows P.patrons (λ r. r.patron) AllPass rows)
            IsReadable S.Store self.old self.new result }
    {
        committed_is_held(&self.conn);
        read_batches::<PatronRow, S>(&mut self.conn, alloc, alloc)
    }
}

//! Migrating a library of an older schema to the newest.

ghost use Rattle.std.specs.Prelude.{◌≡◌, false, refl, IfOk};
ghost use Rattle.circ_tables.specs.RulesOfSchema1.{rules1};
ghost use Rattle.circ_tables.specs.Rules.{rules};
ghost use Rattle.store.specs.Carrying.{Transfer, IsTransfer, MovesRow, MovesBatch, CarriesAll};
ghost use Rattle.store.specs.Migrating.{NamesInside, MigratesFrom, MigratesOnInside, StepsOn};
ghost use Rattle.store.specs.Migrating.{TellsSchema};
ghost use Rattle.store.specs.Transfers.{holds_transfer, holds_carried, loans_transfer};
ghost use Rattle.store.specs.Transfers.{loans_carried, rules_transfer, rules_carried};
ghost use Rattle.store.specs.Schemas.{IsKnown};

use crate::batches::last_of;
use crate::idle::committed_is_held;
use circ_tables::{
    Numbered, Table, get_meta_inside, make_absent_indexes, make_fourth, make_second, make_third,
    next_rows_inside, put_meta, put_row, put_rule, rules_inside, schema_inside, schema_of,
    take_old_rule, take_row,
};
use sqlite::{Alter, Connection, Transaction};
use std::alloc::Global;
use terms::{
    Days, Fault, HoldRow, HoldRow1, LoanRow, LoanRow1, MetaRow, RuleRow, RuleRow1, SCHEMA,
};

/// A row of a table whose form changes in the next schema.
pub(crate) trait Carried: Table {
    /// The row in the next schema.
    type Next: Table<Key = Self::Key>;

    ghost transfer: { Transfer Self.Key Self Self.Next };

    /// Moves the row into the table of the next schema. Fault 91.
    fn carry<S: Alter>(&self, tx: &mut Transaction<'_, S>) -> Result<(), Fault>
        ensures { MovesRow Self.table Self.Next.table transfer self.now
            S.Store tx.old tx.new result };

    ghost over: { IsTransfer Self.table Self.Next.table transfer };
}

/// Such a row with a number, so that the rows can be read in batches.
pub(crate) trait CarriedByNumber: Carried + Numbered {
    ghost by_key: { (r : Self) → Self.Numbered.number_of r ≡ Self.Carried.transfer.key_of r };
}

/// Schema 2 has holds with a first day; those of schema 1 have none.
impl Carried for HoldRow1 {
    type Next = HoldRow;

    ghost transfer = { holds_transfer };

    fn carry<S: Alter>(&self, tx: &mut Transaction<'_, S>) -> Result<(), Fault> {
        let next = HoldRow {
            hold: self.hold,
            patron: self.patron,
            title: self.title,
            branch: self.branch,
            state: self.state,
            copy: self.copy,
            limit_day: self.limit_day,
            first_day: None,
        };
        put_row(tx, &next)?;
        take_row::<HoldRow1, S>(tx, self.hold)
    }

    ghost over = { holds_carried };
}

impl CarriedByNumber for HoldRow1 {
    ghost by_key = { λ r. refl };
}

/// Schema 3 has loans with grace days; those of earlier schemas have none.
impl Carried for LoanRow1 {
    type Next = LoanRow;

    ghost transfer = { loans_transfer };

    fn carry<S: Alter>(&self, tx: &mut Transaction<'_, S>) -> Result<(), Fault> {
        let next = LoanRow {
            loan: self.loan,
            copy: self.copy,
            patron: self.patron,
            branch: self.branch,
            made: self.made,
            due: self.due,
            period: self.period,
            renewals_left: self.renewals_left,
            rate: self.rate,
            cap: self.cap,
            ended: self.ended,
            grace: Days::new(0),
        };
        put_row(tx, &next)?;
        take_row::<LoanRow1, S>(tx, self.loan)
    }

    ghost over = { loans_carried };
}

impl CarriedByNumber for LoanRow1 {
    ghost by_key = { λ r. refl };
}

/// Schema 3 has rules with grace days; those of earlier schemas have none.
impl Carried for RuleRow1 {
    type Next = RuleRow;

    ghost transfer = { rules_transfer };

    fn carry<S: Alter>(&self, tx: &mut Transaction<'_, S>) -> Result<(), Fault> {
        let next = RuleRow {
            kind: self.kind,
            copy_kind: self.copy_kind,
            period: self.period,
            renewals: self.renewals,
            rate: self.rate,
            cap: self.cap,
            grace: Days::new(0),
        };
        put_rule(tx, &next)?;
        take_old_rule(tx, self.kind, self.copy_kind)
    }

    ghost over = { rules_carried };
}

/// Moves the rows of a batch. Fault 91.
fn carry_batch<R: Carried, S: Alter>(tx: &mut Transaction<'_, S>, batch: &[R]) -> Result<(), Fault>
    ensures { MovesBatch R.table R.Next.table R.transfer batch.now S.Store tx.old tx.new result }
{
    'rows: for row in batch {
        row.carry(tx)?;
    }
    Ok(())
}

/// Moves all rows of a table, in batches. Faults 90, 91, 93.
fn carry_all<R: CarriedByNumber, S: Alter>(
    tx: &mut Transaction<'_, S>,
    alloc: Global,
    memory: R::Memory,
) -> Result<(), Fault>
    ensures { CarriesAll R.table R.Next.table R.transfer S.Store tx.old tx.new result }
{
    let mut after = None;
    'batches: for _batch in 0..u64::MAX {
        let batch = next_rows_inside::<R, S>(tx, alloc, memory, after)?;
        match last_of(batch.as_slice()) {
            Some(last) => after = Some(last),
            None => return Ok(()),
        }
        carry_batch(tx, batch.as_slice())?;
    }
    Ok(())
}

/// Moves all rules, at most the kinds of patrons times the kinds of copies. Faults 90, 91, 93.
fn carry_rules<S: Alter>(tx: &mut Transaction<'_, S>, alloc: Global) -> Result<(), Fault>
    ensures { CarriesAll rules1 rules rules_transfer S.Store tx.old tx.new result }
{
    let old = rules_inside(tx, alloc)?;
    carry_batch(tx, old.as_slice())
}

/// Writes the schema into the row of `meta`. Faults 91, 93.
fn name_schema<S: Alter>(tx: &mut Transaction<'_, S>, schema: u32) -> Result<u32, Fault>
    requires { IsKnown schema }
    ensures named { NamesInside schema S.Store tx.old tx.new result }
    ensures told { IfOk result (λ told. told ≡ schema) }
{
    let meta = get_meta_inside(tx)?;
    put_meta(tx, &MetaRow { schema, ..meta })?;
    Ok(schema)
}

/// Migrates tables from schema 1 to 2, which has holds with a first day. Faults 90, 91, 93.
fn migrate_to_2<S: Alter>(tx: &mut Transaction<'_, S>, alloc: Global) -> Result<u32, Fault>
    ensures migrates { MigratesFrom 1 S.Store tx.old tx.new result }
    ensures told { IfOk result (λ told. told ≡ 2) }
{
    make_second(tx)?;
    carry_all::<HoldRow1, S>(tx, alloc, ())?;
    name_schema(tx, 2)
}

/// Migrates tables from schema 2 to 3, which has rules and loans with grace days. Faults 90, 91,
/// 93.
fn migrate_to_3<S: Alter>(tx: &mut Transaction<'_, S>, alloc: Global) -> Result<u32, Fault>
    ensures migrates { MigratesFrom 2 S.Store tx.old tx.new result }
    ensures told { IfOk result (λ told. told ≡ 3) }
{
    make_third(tx)?;
    carry_rules(tx, alloc)?;
    carry_all::<LoanRow1, S>(tx, alloc, ())?;
    name_schema(tx, 3)
}

/// Migrates tables from schema 3 to 4, which has barcodes and notes. Adds the last indexes of schema
/// 3 where an earlier program left them out. Faults 91, 93.
fn migrate_to_4<S: Alter>(tx: &mut Transaction<'_, S>) -> Result<u32, Fault>
    ensures migrates { MigratesFrom 3 S.Store tx.old tx.new result }
    ensures told { IfOk result (λ told. told ≡ 4) }
{
    make_absent_indexes(tx)?;
    make_fourth(tx)?;
    name_schema(tx, 4)
}

/// Makes the next step from the tables' schema and returns the resulting one; leaves the newest as
/// it is. Faults 90, 91; 93 also for an unknown schema.
fn migrate_on<S: Alter>(tx: &mut Transaction<'_, S>, alloc: Global) -> Result<u32, Fault>
    ensures { MigratesOnInside S.Store tx.old tx.new result }
{
    match schema_inside(tx)? {
        1 => migrate_to_2(tx, alloc),
        2 => migrate_to_3(tx, alloc),
        3 => migrate_to_4(tx),
        SCHEMA => Ok(SCHEMA),
        _ => Err(Fault::Stored),
    }
}

/// Makes one step in one transaction, all or nothing, and returns the resulting schema. Faults 90,
/// 91, 93.
pub(crate) fn step<S: Alter>(conn: &mut Connection<S>, alloc: Global) -> Result<u32, Fault>
    requires { conn.old.in_transaction ≡ false }
    ensures { StepsOn S.Store conn.old conn.new result }
{
    committed_is_held(conn);
    let mut tx = conn.transaction();
    let schema = migrate_on(&mut tx, alloc)?;
    match tx.commit() {
        Ok(()) => Ok(schema),
        Err(_) => Err(Fault::Database),
    }
}

/// Reads the schema number. Fault 91; 93 if there is no table `meta` of one row, or its number
/// doesn't fit 32 bits.
pub(crate) fn schema<S: Alter>(conn: &mut Connection<S>) -> Result<u32, Fault>
    requires { conn.old.in_transaction ≡ false }
    ensures { TellsSchema S.Store conn.old conn.new result }
{
    committed_is_held(conn);
    schema_of(conn)
}

//! The store: tables without a transaction between calls.

ghost use Rattle.std.specs.Prelude.{◌≡◌, ◌↔◌, Err, IsTrue, false, IfOk, IfErr};
ghost use Rattle.terms.specs.Limits.{InLimits};
ghost use Rattle.circ_core.specs.Views.{IsViewOf, HasOnly};
ghost use Rattle.store.specs.Commit.{Commits, CreatesLibrary, OpensLibrary, RefusesLibrary};
ghost use Rattle.store.specs.Limits.{limit_of};
ghost use Rattle.store.specs.Migrating.{Migrates, TellsSchema};
ghost use Rattle.store.specs.Schemas.{IsKnown};
ghost use Rattle.store.specs.Reads.{Looked, LooksUpKept, Finds, IsReadable};
ghost use Rattle.circ_tables.specs.Patrons.{patrons};
ghost use Rattle.circ_tables.specs.Loans.{loans};
ghost use Rattle.circ_tables.specs.Holds.{holds};

use crate::idle::committed_is_held;
use crate::{changing, migrating, viewing};
use circ_core::{Changes, View};
use circ_tables::{KeptReply, get_kept, get_row, schema_of, second_begin};
use sqlite::{Alter, Connection};
use std::alloc::Global;
use std::marker::Model;
use terms::{
    Command, Fault, HoldId, HoldRow, KeptPut, Key, LoanId, LoanRow, Owner, PatronId, PatronRow,
    SCHEMA,
};

/// The tables of the desk, without a transaction between calls.
pub struct Store<S: Alter> {
    pub(crate) conn: Connection<S>,
}

impl<S: Alter> Model for Store<S> {
    ghost use Rattle.std.specs.Prelude.{◌≡◌, false};
    ghost use Rattle.sqlite.specs.Held.{Held, held_code};

    ghost Value = { Held S };

    ghost coded = { held_code S.code };

    ghost view = { λ s. s.conn };

    ghost invariant = { λ s. s.conn.in_transaction ≡ false };
}

impl<S: Alter + Drop> Drop for Store<S> {
    fn drop(self) {
        let Store { conn: _ } = self;
    }
}

/// Returns whether a library of this schema can be opened: the newest, or an earlier one that can
/// be migrated.
fn is_known(schema: u32) -> bool
    ensures { IsTrue result ↔ IsKnown schema }
{
    1 <= schema && schema <= SCHEMA
}

impl<S: Alter + Drop> Store<S> {
    /// Creates the eighteen tables of a new library in one transaction: all empty, except the first
    /// row of `meta`. Fault 91, also if a name is taken or a transaction is under way.
    pub fn create(mut conn: Connection<S>) -> Result<Store<S>, Fault>
        ensures created { IfOk result (CreatesLibrary S.Store conn) }
        ensures fault { IfErr result (λ fault. fault ≡ Fault.Database) }
        ensures begun { IsTrue conn.in_transaction → result ≡ Err Fault.Database }
    {
        if !conn.is_autocommit() {
            return Err(second_begin(&mut conn));
        }
        changing::create(&mut conn)?;
        Ok(Store { conn })
    }

    /// Opens existing tables, of the newest or an older schema. Fault 91, also if a transaction is
    /// under way; 93 if there is no table `meta` of one row or its schema is unknown, never for
    /// tables of a known one.
    pub fn open(mut conn: Connection<S>) -> Result<Store<S>, Fault>
        ensures opened { IfOk result (OpensLibrary S.Store conn) }
        ensures stored { result ≡ Err Fault.Stored → RefusesLibrary S.Store conn }
        ensures begun { IsTrue conn.in_transaction → result ≡ Err Fault.Database }
    {
        if !conn.is_autocommit() {
            return Err(second_begin(&mut conn));
        }
        if !is_known(schema_of(&mut conn)?) {
            return Err(Fault::Stored);
        }
        Ok(Store { conn })
    }
}

impl<S: Alter> Store<S> {
    /// Reads exactly the rows that the command needs. Faults 90, 91, 93.
    pub fn view_for(&mut self, alloc: Global, command: &Command) -> Result<View, Fault>
        ensures view { Looked InLimits (λ P view. IsViewOf P command.now view) IsReadable
            S.Store self.old self.new result }
        ensures only { IfOk result (HasOnly command.now) }
    {
        committed_is_held(&self.conn);
        viewing::view_for(&mut self.conn, alloc, command)
    }

    /// Makes a decision's changes and keeps its request's row in one transaction: all or nothing.
    /// Faults 91; 93 if a new loan, hold or line would get a number that has a row, or `meta` can't
    /// be read.
    pub fn commit(&mut self, changes: &Changes<'_>, kept: &KeptPut<'_>) -> Result<(), Fault>
        ensures { Commits changes.now kept.now S.Store self.old self.new result }
    {
        changing::commit(&mut self.conn, changes, kept)
    }

    /// Reads the schema number. Fault 91; 93 if there is no table `meta` of one row, or its number
    /// doesn't fit 32 bits.
    pub fn schema(&mut self) -> Result<u32, Fault>
        ensures { TellsSchema S.Store self.old self.new result }
    {
        migrating::schema(&mut self.conn)
    }

    /// Migrates a library to the newest schema, in one transaction per schema step; the newest
    /// stays as it is. Faults 90, 91; 93 if the schema is unknown, or a stored row is out of its
    /// limits. After a fault the completed steps remain, and the one that met it changed nothing.
    /// Memory doesn't grow with the library, beyond what the database needs for a transaction's
    /// changes.
    pub fn migrate(&mut self, alloc: Global) -> Result<(), Fault>
        ensures { Migrates S.Store self.old self.new result }
    {
        committed_is_held(&self.conn);
        if migrating::step(&mut self.conn, alloc)? < SCHEMA
            && migrating::step(&mut self.conn, alloc)? < SCHEMA
        {
            migrating::step(&mut self.conn, alloc)?;
        }
        Ok(())
    }

    /// Reads what is kept under a caller's key. Faults 91, 93.
    pub fn kept(&mut self, owner: Owner, key: &Key) -> Result<Option<KeptReply>, Fault>
        ensures { LooksUpKept owner key.now S.Store self.old self.new result }
    {
        committed_is_held(&self.conn);
        get_kept(&mut self.conn, owner, key)
    }

    /// Reads the row of a patron. Faults 90, 91, 93.
    pub fn patron(&mut self, alloc: Global, patron: PatronId) -> Result<Option<PatronRow>, Fault>
        ensures { Finds patrons patron S.Store self.old self.new result }
    {
        committed_is_held(&self.conn);
        get_row::<PatronRow, S>(&mut self.conn, alloc, patron)
    }

    /// Reads the row of a loan. Faults 91, 93.
    pub fn loan(&mut self, loan: LoanId) -> Result<Option<LoanRow>, Fault>
        ensures { Finds loans loan S.Store self.old self.new result }
    {
        committed_is_held(&self.conn);
        get_row::<LoanRow, S>(&mut self.conn, (), loan)
    }

    /// Reads the row of a hold. Faults 91, 93.
    pub fn hold(&mut self, hold: HoldId) -> Result<Option<HoldRow>, Fault>
        ensures { Finds holds hold S.Store self.old self.new result }
    {
        committed_is_held(&self.conn);
        get_row::<HoldRow, S>(&mut self.conn, (), hold)
    }

    /// Limits the steps of each later database call; `None` means no limit, and 0 counts as 1.
    pub fn limit_steps(&mut self, limit: Option<u64>)
        ensures { self.new ≡ record self.old { step_limit = limit_of limit } }
    {
        let steps = match limit {
            Some(0) => Some(1),
            _ => limit,
        };
        self.conn.set_step_limit(steps);
    }

    /// Returns the connection.
    pub fn into_connection(self) -> Connection<S>
        ensures same { result ≡ self }
        ensures idle { result.in_transaction ≡ false }
    {
        let Store { conn } = self;
        conn
    }
}

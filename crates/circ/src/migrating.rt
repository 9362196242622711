//! Migrating a library of an older schema.

ghost use Rattle.circ.specs.Migrating.{SaysMigration};

use crate::lines::{Exit, WriteFault, tell_fault, tell_schema};
use sqlite::Alter;
use std::alloc::Global;
use std::io::Write;
use store::Store;

/// Brings a library to the newest schema and writes one line: `schema N`, even if it already had
/// that schema, or `fault N`.
///
/// `specs/Migrating` states the line, the exit and what the tables show. After a fault they show
/// what they did before, as long as the database is open. If the program is stopped, they show that
/// or the same list of accepted requests in the newest schema. If a write fails, a prefix of the
/// line went out.
pub fn migrate<S: Alter, W: Write>(
    store: &mut Store<S>,
    alloc: Global,
    writer: &mut W,
) -> Result<Exit, WriteFault>
    ensures { SaysMigration S.Store store.old store.new
        (W.contents writer.old) (W.contents writer.new) result }
{
    match store.migrate(alloc) {
        Ok(()) => tell_schema(writer),
        Err(fault) => tell_fault(writer, fault),
    }
}

//! Calls into the layers below, without clauses, so that no proof at the program's own types carries
//! theirs: there they are many times as long.

use circ::{Exit, WriteFault};
use sqlite::{Alter, Connection, Error, FileFrom, FileStore, Start};
use sqlite_disk::Disk;
use std::io::Write;
use store::Store;
use terms::Fault;

/// The tables of a library file.
pub type FileTables<S> = Store<FileStore<FileFrom<S>>>;

/// Creates the tables of a new library in the file.
pub fn create<S: Start>(rt: &HostRuntime, path: &str, start: S) -> Result<FileTables<S>, Fault> {
    Store::create_from(rt, path, start)
}

/// Opens the tables of the library, whatever their schema.
pub fn open<S: Start>(rt: &HostRuntime, path: &str, start: S) -> Result<FileTables<S>, Fault> {
    Store::open_from(rt, path, start)
}

/// Copies the database's log into the file, so that the file alone is the library. If that fails,
/// the log stays beside it and nothing is lost.
pub fn close_tables<D: Disk + Drop>(store: Store<FileStore<D>>) {
    let _ = store.close();
}

/// Reads the schema number, if the tables have one.
fn schema_of<S: Alter + Drop>(mut conn: Connection<S>) -> Option<u32> {
    circ_tables::schema_of(&mut conn).ok()
}

/// Opens a database in the file.
fn connected<S: Start>(
    rt: &HostRuntime,
    path: &str,
    start: S,
) -> Result<Connection<FileStore<FileFrom<S>>>, Error> {
    match Connection::open_from(rt, path, false, start) {
        Ok(conn) => Ok(conn),
        Err((error, _)) => Err(error),
    }
}

/// Reads the schema number of the library in the file, if it has one.
pub fn schema_in<S: Start>(rt: &HostRuntime, path: &str, start: S) -> Result<Option<u32>, Error> {
    Ok(schema_of(connected(rt, path, start)?))
}

/// Writes the line of a fault.
pub fn tell_fault<W: Write>(writer: &mut W, fault: Fault) -> Result<Exit, WriteFault> {
    circ::tell_fault(writer, fault)
}

/// Writes that the words were not understood.
pub fn not_understood<W: Write>(writer: &mut W) -> Result<Exit, WriteFault> {
    circ::not_understood(writer)
}

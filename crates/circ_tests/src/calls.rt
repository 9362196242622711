//! The calls under test, without clauses, so that a test with many of them is proved fast. Each is
//! generic over the database's store, so that its premises stay small.

use circ::{Connections, Exit, Report, WriteFault};
use circ_audit::Finding;
use clerks::Clerks;
use desk::Desk;
use hall::{Left, Opening, Worker};
use sqlite::Alter;
use std::alloc::Global;
use std::io::{Read, Write};
use std::sync::Wait;
use store::Store;
use terms::{Fault, Key, Tables};

/// Handles one request given as words, and writes its line.
pub fn one<S: Alter, W: Write>(
    desk: &mut Desk<S>,
    alloc: Global,
    key: Key,
    words: &[String],
    writer: &mut W,
) -> Result<Exit, WriteFault> {
    circ::one(desk, alloc, key, words, writer)
}

/// Writes a report.
pub fn report<S: Alter, W: Write>(
    desk: &mut Desk<S>,
    alloc: Global,
    wanted: &Report,
    writer: &mut W,
) -> Result<Exit, WriteFault> {
    circ::report(desk, alloc, wanted, writer)
}

/// Audits a library, and writes the line.
pub fn audit<S: Alter, W: Write>(
    store: &mut Store<S>,
    alloc: Global,
    writer: &mut W,
) -> Result<Exit, WriteFault> {
    circ::audit(store, alloc, writer)
}

/// Audits a library to its end, and writes the lines.
pub fn audit_all<S: Alter, W: Write>(
    store: &mut Store<S>,
    alloc: Global,
    writer: &mut W,
) -> Result<Exit, WriteFault> {
    circ::audit_all(store, alloc, writer).1
}

/// All rows of a store.
pub fn tables_of<S: Alter>(store: &mut Store<S>, alloc: Global) -> Result<Tables, Fault> {
    store.tables(alloc)
}

/// The audit of rows.
pub fn laws(tables: &Tables) -> Result<(), Finding> {
    circ_audit::audit(tables)
}

/// Imports a copies file, and writes its lines.
pub fn import<S: Alter, R: Read + Drop, W: Write>(
    desk: &mut Desk<S>,
    alloc: Global,
    reader: R,
    writer: &mut W,
) -> Result<Exit, WriteFault> {
    circ::import(desk, alloc, reader, writer)
}

/// Checks a copies file, and writes its lines.
pub fn check<R: Read + Drop, W: Write>(
    alloc: Global,
    reader: R,
    writer: &mut W,
) -> Result<Exit, WriteFault> {
    circ::check(alloc, reader, writer).1
}

/// A worker serves this many connections, and leaves.
pub fn serve_many<J: Opening, C: Connections, R: Wait>(
    rt: &R,
    alloc: Global,
    connections: &mut C,
    clerks: &Clerks,
    worker: Worker<J>,
    each: u32,
) -> Left<J> {
    circ::work(rt, alloc, connections, clerks, worker, each)
}

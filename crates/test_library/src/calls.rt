//! Calls of the layers below, without clauses, so that a test with many of them is proved fast.
//! Each is generic over the database's store, so that its premises stay small.

use desk::Desk;
use sqlite::{Alter, Connection, FileStore, Files, MemStore, Options};
use sqlite_disk::Disk;
use std::alloc::Global;
use store::Store;
use terms::{Fault, Owner, Reply, Request};

/// Handles a request.
pub fn handle<S: Alter>(
    desk: &mut Desk<S>,
    alloc: Global,
    request: &Request,
) -> Result<Reply, Fault> {
    desk.handle(alloc, request)
}

/// Handles a list of requests: the replies, and the fault that ended it.
pub fn run<S: Alter>(
    desk: &mut Desk<S>,
    alloc: Global,
    requests: &[Request],
) -> (Vec<Reply>, Option<Fault>) {
    match desk.run(alloc, requests) {
        Ok(replies) => (replies, None),
        Err((replies, fault)) => (replies, Some(fault)),
    }
}

/// The store under a desk.
pub fn store_of<S: Alter>(desk: Desk<S>) -> Store<S> {
    desk.into_store()
}

/// The database under a desk.
pub fn connection<S: Alter>(desk: Desk<S>) -> Connection<S> {
    desk.into_store().into_connection()
}

/// The store over existing tables.
pub fn open<S: Alter + Drop>(conn: Connection<S>) -> Result<Store<S>, Fault> {
    Store::open(conn)
}

/// The store over two files.
pub fn open_files<D: Disk + Drop>(
    alloc: Global,
    files: Files<D>,
    options: Options,
) -> Result<Store<FileStore<D>>, Fault> {
    Store::open_files(alloc, files, options)
}

/// The store over new tables in two files.
pub fn create_files<D: Disk + Drop>(
    alloc: Global,
    files: Files<D>,
    options: Options,
) -> Result<Store<FileStore<D>>, Fault> {
    Store::create_files(alloc, files, options)
}

/// A store's two files, as written.
pub fn into_files<D: Disk + Drop>(store: Store<FileStore<D>>) -> Files<D> {
    store.into_files()
}

/// A store's two files, with the log copied into the database; none if that fails.
pub fn close<D: Disk + Drop>(store: Store<FileStore<D>>) -> Option<Files<D>> {
    store.close()
}

/// The desk of a new library in memory.
pub fn in_memory(alloc: Global) -> Result<Desk<MemStore>, Fault> {
    Desk::in_memory(alloc)
}

/// The desk over a store.
pub fn desk_over<S: Alter + Drop>(store: Store<S>) -> Result<Desk<S>, Fault> {
    Desk::new(store)
}

/// The next loan number, the number of rows in each other table, in schema order, and how many kept
/// ones are patrons'.
pub fn counts<S: Alter>(store: &mut Store<S>, alloc: Global) -> Result<[usize; 16], Fault> {
    let all = store.tables(alloc)?;
    let kept = all.kept.as_slice();
    let by_patrons = kept.iter().filter(|it| it.caller != Owner::Desk).count();
    Ok([
        all.meta.next_loan.number() as usize,
        all.branches.as_slice().len(),
        all.closed_days.as_slice().len(),
        all.kinds.as_slice().len(),
        all.rules.as_slice().len(),
        all.patrons.as_slice().len(),
        all.titles.as_slice().len(),
        all.copies.as_slice().len(),
        all.loans.as_slice().len(),
        all.holds.as_slice().len(),
        all.transits.as_slice().len(),
        all.lines.as_slice().len(),
        all.barcodes.as_slice().len(),
        all.notes.as_slice().len(),
        kept.len(),
        by_patrons,
    ])
}

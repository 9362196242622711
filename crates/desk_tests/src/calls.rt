//! The calls under test, without clauses, so that a test with many of them is proved fast. Each is
//! generic over the database's store, so that its premises stay small.

use desk::Desk;
use sqlite::{Alter, Connection, FileStore, Options};
use sqlite_disk::Crash;
use std::alloc::Global;
use store::Store;
use terms::{CardKey, Fault, PatronId, Reply};

/// What a patron who shows a card key is shown.
pub fn page<S: Alter>(
    desk: &mut Desk<S>,
    alloc: Global,
    patron: PatronId,
    card_key: &CardKey,
) -> Result<Reply, Fault> {
    desk.page(alloc, patron, card_key)
}

/// The store over new tables.
pub fn create<S: Alter + Drop>(conn: Connection<S>) -> Result<Store<S>, Fault> {
    Store::create(conn)
}

/// The database under a store.
pub fn connection_of<S: Alter>(store: Store<S>) -> Connection<S> {
    store.into_connection()
}

/// The store over two files that lost what wasn't synced.
pub fn restart<D: Crash + Drop>(
    store: Store<FileStore<D>>,
    alloc: Global,
    options: Options,
) -> Result<Store<FileStore<D>>, Fault> {
    store.restart(alloc, options)
}

/// Migrates a library to the newest schema.
pub fn migrate<S: Alter>(store: &mut Store<S>, alloc: Global) -> Result<(), Fault> {
    store.migrate(alloc)
}

/// Limits the steps of each later database call.
pub fn limit_steps<S: Alter>(store: &mut Store<S>, limit: Option<u64>) {
    store.limit_steps(limit);
}

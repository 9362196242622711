//! The small library over two files in memory, one of which can stop at a call.

use crate::calls::{close, create_files, desk_over, into_files, open_files, store_of};
use crate::lines::fill;
use sqlite::{Alter, Files, Options};
use sqlite_disk::{Crash, Disk, Fuse, Memory};
use std::alloc::Global;
use std::io;
use std::test::Fail;
use store::Store;

/// How the files are opened. Little is cached, so that a check-out reads and writes the files early
/// and copies the log at its end.
pub fn options() -> Options {
    Options {
        cache_pages: 4,
        spill_pages: 2,
        checkpoint_frames: 4,
        seed: 1,
    }
}

/// A file with these bytes, all of them synced.
fn copy(alloc: Global, bytes: &[u8]) -> io::Result<Memory> {
    let mut made = Memory::new(alloc);
    made.write_at(0, bytes)?;
    made.sync()?;
    Ok(made)
}

/// A new store, with the small library.
fn with_library<S: Alter + Drop>(alloc: Global, store: Store<S>) -> Result<Store<S>, Fail> {
    let mut desk = desk_over(store)?;
    fill(alloc, &mut desk)?;
    Ok(store_of(desk))
}

/// The two files of the small library.
pub fn filled(alloc: Global) -> Result<Files<Memory>, Fail> {
    let files = Files {
        log: Memory::new(alloc),
        db: Memory::new(alloc),
    };
    let store = with_library(alloc, create_files(alloc, files, options())?)?;
    Ok(close(store).ok_or("a close")?)
}

/// Copies of the files, one with a fuse that blows after this many calls.
pub fn fused(
    alloc: Global,
    base: &Files<Memory>,
    (is_log, calls): (bool, u64),
) -> io::Result<Files<Fuse<Memory>>> {
    let (log_calls, db_calls) = if is_log {
        (calls, u64::MAX)
    } else {
        (u64::MAX, calls)
    };
    Ok(Files {
        log: Fuse::new(copy(alloc, base.log.bytes())?, log_calls),
        db: Fuse::new(copy(alloc, base.db.bytes())?, db_calls),
    })
}

/// The files behind the fuses, each of which may have lost what wasn't synced.
pub fn left(
    alloc: Global,
    mut files: Files<Fuse<Memory>>,
    loses: (bool, bool),
) -> io::Result<Files<Memory>> {
    if loses.0 {
        files.log.crash();
    }
    if loses.1 {
        files.db.crash();
    }
    Ok(Files {
        log: copy(alloc, files.log.inner().bytes())?,
        db: copy(alloc, files.db.inner().bytes())?,
    })
}

/// Whether the files are opened.
fn opens<D: Disk + Drop>(alloc: Global, files: Files<D>) -> bool {
    match open_files(alloc, files, options()) {
        Ok(store) => {
            into_files(store);
            true
        }
        Err(_) => false,
    }
}

/// The most calls after which opening the library is still stopped.
pub fn calls_of_open(alloc: Global, base: &Files<Memory>, is_log: bool) -> Result<u64, Fail> {
    let mut calls = 0u64;
    for bit in [512u64, 256, 128, 64, 32, 16, 8, 4, 2, 1] {
        let more = calls | bit;
        let files = fused(alloc, base, (is_log, more))?;
        if !opens(alloc, files) {
            calls = more;
        }
    }
    Ok(calls)
}

//! The library file: what it looks like before opening, and why opening failed.

use crate::calls::schema_in;
use sqlite::{Error, ErrorCode, Wary};
use sqlite_std_file::OpenError;
use std::fs::{self, File};
use std::io::{self, ErrorKind, Read};
use std::os::unix::fs::PermissionsExt;
use terms::SCHEMA;

/// The first bytes of a database file.
const HEADER: [u8; 16] = *b"SQLite format 3\0";

/// The first bytes if the process stopped before writing the first page.
const BLANK: [u8; 16] = [0; 16];

/// The first bytes if the process stopped during the first page's write, as byte 0 is written last.
const BEGUN: [u8; 16] = *b"\0QLite format 3\0";

/// Reads the first 16 bytes, zero-padded; none if the file can't be read.
fn header_of(rt: &HostRuntime, path: &str) -> Option<[u8; 16]> {
    let mut header = BLANK;
    let mut file = File::open(rt, path).ok()?;
    file.read(&mut header).ok()?;
    Some(header)
}

/// Returns whether the file is missing or empty.
pub fn is_new(rt: &HostRuntime, path: &str) -> bool {
    match fs::metadata(rt, path) {
        Ok(file) => file.len() == 0,
        Err(error) => error.kind() == ErrorKind::NotFound,
    }
}

/// Returns whether the file starts like a database.
pub fn is_database(rt: &HostRuntime, path: &str) -> bool {
    header_of(rt, path) == Some(HEADER)
}

/// Returns whether this may be a library file. Others are left alone.
pub fn may_be_library(rt: &HostRuntime, path: &str) -> bool {
    match header_of(rt, path) {
        Some(header) => header == HEADER || header == BLANK || header == BEGUN,
        None => false,
    }
}

/// Returns whether another process holds the file.
pub fn is_held(rt: &HostRuntime, path: &str) -> bool {
    match sqlite_std_file::open(rt, path, Wary) {
        Err(OpenError::Busy) => true,
        _ => false,
    }
}

/// The permission of all other users to read.
const OTHERS_READ: u32 = 0o004;

/// Returns whether every user may read the file.
pub fn are_keys_open(rt: &HostRuntime, path: &str) -> bool {
    match fs::metadata(rt, path) {
        Ok(file) => file.permissions().mode() & OTHERS_READ != 0,
        Err(_) => false,
    }
}

/// The smallest log that holds a page, in bytes.
const LEAST_LOG: u64 = 512;

/// Returns the path of the log, which lies beside the file that a link leads to.
fn log_of(rt: &HostRuntime, path: &str) -> io::Result<String> {
    let real = match fs::canonicalize(rt, path) {
        Ok(real) => real,
        Err(error) if error.kind() == ErrorKind::NotFound => {
            return Ok(format!(in rt.alloc(); "{}-wal", path)?);
        }
        Err(error) => return Err(error),
    };
    Ok(format!(in rt.alloc(); "{}-wal", real.as_str())?)
}

/// Returns the length of the log beside the file, in bytes; none if there is no log or it is
/// inaccessible. An error means that there was no memory to look.
fn length_of_log(rt: &HostRuntime, path: &str) -> io::Result<Option<u64>> {
    let found = match log_of(rt, path) {
        Ok(log) => fs::metadata(rt, log.as_str()),
        Err(error) => Err(error),
    };
    match found {
        Ok(file) if file.is_file() => Ok(Some(file.len())),
        Ok(_) => Ok(None),
        Err(error) if error.kind() == ErrorKind::OutOfMemory => Err(error),
        Err(_) => Ok(None),
    }
}

/// Returns whether there is a log beside the file, also if there was no memory to look.
pub fn has_log(rt: &HostRuntime, path: &str) -> bool {
    match length_of_log(rt, path) {
        Ok(length) => length.is_some(),
        Err(_) => true,
    }
}

/// Returns whether the log beside the file has a page, also if there was no memory to look.
fn has_page_in_log(rt: &HostRuntime, path: &str) -> bool {
    match length_of_log(rt, path) {
        Ok(Some(length)) => length >= LEAST_LOG,
        Ok(None) => false,
        Err(_) => true,
    }
}

/// Returns whether the file is missing or empty and the log beside it has a page. A new library
/// there would overwrite the log, which may hold a whole one.
pub fn is_log_alone(rt: &HostRuntime, path: &str) -> bool {
    // The log first: a process that makes a library writes a page of the file before one of the log.
    has_page_in_log(rt, path) && is_new(rt, path)
}

/// Removes a log without a page, which a failed opening left if none was there before. Holds the
/// file meanwhile, so no other process has it.
pub fn drop_log(rt: &HostRuntime, path: &str) {
    let (Ok(files), Ok(log)) = (sqlite_std_file::open(rt, path, Wary), log_of(rt, path)) else {
        return;
    };
    if !has_page_in_log(rt, path) {
        let _ = fs::remove_file(rt, log.as_str());
    }
    drop(files);
}

/// Said of a log whose library file is missing or empty.
const LOG_ALONE: &str = "the file is missing or empty, but the log beside it may hold a library: \
                         put the library's file back beside it, or move the log away";

/// Explains why the system can't open a database file.
fn cause_of_kind(kind: ErrorKind) -> &'static str {
    match kind {
        ErrorKind::PermissionDenied => {
            "no permission to write the file, its log or the folder: circ opens a library for \
             writing even to read it; use a copy for that"
        }
        ErrorKind::ReadOnlyFilesystem => {
            "the file system is read-only: circ opens a library for writing even to read it; use a \
             copy elsewhere for that"
        }
        ErrorKind::StorageFull => "the disk is full",
        _ => "the file or the log beside it can't be opened",
    }
}

/// Explains why the database can't be opened.
fn cause_of_code(code: ErrorCode, has_log: bool) -> &'static str {
    match code {
        ErrorCode::DatabaseBusy => "another process has the file",
        ErrorCode::DiskFull => "the disk is full",
        ErrorCode::OutOfMemory => "there was no memory to open it",
        ErrorCode::NotADatabase | ErrorCode::DatabaseCorrupt if has_log => {
            "the file is damaged or truncated, or the log beside it belongs to another file: restore \
             a backup of both"
        }
        ErrorCode::NotADatabase | ErrorCode::DatabaseCorrupt => {
            "the file is damaged or truncated: restore a backup"
        }
        _ => "the disk is full or failed",
    }
}

/// Explains what is wrong with a library that opens.
fn cause_of_schema(schema: Option<u32>, is_damaged: bool, migrates: bool) -> &'static str {
    match schema {
        None | Some(0) => "not a library: it has no table meta with one row that names its schema",
        Some(schema) if schema > SCHEMA => {
            "the library has a later schema: it needs a later version of this program"
        }
        Some(schema) if schema < SCHEMA && !migrates => {
            "the library has an older schema: make a backup first, then run circ migrate FILE"
        }
        Some(_) if is_damaged => "a row of the library is damaged: restore a backup",
        Some(_) => "it opens now: another process had the file, or the disk was full or failed",
    }
}

/// Explains why the file and its log can't be held; none if they can.
fn cause_of_hold(rt: &HostRuntime, path: &str) -> Option<&'static str> {
    match sqlite_std_file::open(rt, path, Wary) {
        Ok(files) => {
            drop(files);
            None
        }
        Err(OpenError::Busy) => Some("another process has the file"),
        Err(OpenError::HotJournal) => Some(
            "another program left a rollback journal beside the file: open it with sqlite3 first",
        ),
        Err(OpenError::Io(error)) => Some(cause_of_kind(error.kind())),
        Err(OpenError::OutOfMemory) => Some("there was no memory to open it"),
    }
}

/// Explains a fault of the database by opening the file once more, since the run has released it.
fn cause_inside(rt: &HostRuntime, path: &str, is_damaged: bool, migrates: bool) -> &'static str {
    if let Some(cause) = cause_of_hold(rt, path) {
        return cause;
    }
    match schema_in(rt, path, Wary) {
        Ok(schema) => cause_of_schema(schema, is_damaged, migrates),
        Err(Error::SqliteFailure(code)) => cause_of_code(code, has_page_in_log(rt, path)),
        Err(_) => "the file can't be opened",
    }
}

/// Explains fault 91 or 93 of a run on a library file; `is_damaged` means 93.
pub fn cause(rt: &HostRuntime, path: &str, is_damaged: bool, migrates: bool) -> &'static str {
    if is_log_alone(rt, path) {
        return LOG_ALONE;
    }
    match fs::metadata(rt, path) {
        Err(error) if error.kind() == ErrorKind::NotFound => "no such file or directory",
        Err(_) => "the file can't be looked at",
        Ok(file) if file.is_dir() => "this is a directory",
        Ok(file) if file.len() == 0 => "the file has no bytes",
        Ok(_) if File::open(rt, path).is_err() => "this user may not read the file",
        Ok(_) if !may_be_library(rt, path) => "not a library: the file is not a database",
        Ok(_) => cause_inside(rt, path, is_damaged, migrates),
    }
}

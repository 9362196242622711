//! What a run does on its library.

use circ::{Report, Web};
use terms::Key;

/// What a run does at the desk of a library.
#[derive(Drop)]
pub enum DeskWork<'a> {
    Request {
        key: Key,
        words: &'a [String],
    },
    Import {
        copies: &'a str,
    },
    Report(Report),
    Audit,
    AuditAll,
    Serve {
        path: &'a str,
        workers: usize,
        web: Web,
    },
}

/// What a run does on a library.
#[derive(Drop)]
pub enum Work<'a> {
    /// Work that wants the newest schema.
    Desk(DeskWork<'a>),
    Migration { path: &'a str },
}

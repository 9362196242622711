//! Messages to people on standard error.

use crate::files::{are_keys_open, cause, is_database};
use circ::{
    ArgumentForm, Exit, Findings, Run, Watch, law_words, number_of, old_number, old_words,
    wrong_argument,
};
use circ_audit::{Finding, Table};
use front::{BadRow, CopyCheck, KeysFault, check_copies, checks_agree};
use itoa::Buffer;
use messages::{
    Handler, ToldLine, bad_row_in, explain, explain_words, meaning, wanted, write_bad_row,
    write_bad_rows, write_finding, write_lost_row, write_old_row, write_usage, write_usage_of,
    write_wanted,
};
use std::fs::File;
use std::io::{IsTerminal, Write};
use terms::{SCHEMA, ServiceFault, WriteFault, write_bytes, write_pieces};

/// What the messages at the end of a run need to know of it.
#[derive(Clone, Copy)]
pub enum Topic<'a> {
    /// A command on the library in a file.
    Command { path: &'a str, words: &'a [String] },
    /// A command sent over the web.
    Sent { words: &'a [String] },
    /// A copies file for a library.
    Copies { path: &'a str, copies: &'a str },
    /// A copies file that is checked.
    Checked { copies: &'a str },
    /// A library that is migrated to the newest schema.
    Migration { path: &'a str },
    /// A library that is audited to the end.
    Findings { path: &'a str },
    /// Any other run on a library.
    Library { path: &'a str },
}

impl<'a> Topic<'a> {
    /// Returns the topic of a run.
    pub fn of(asked: &Run<'a>) -> Topic<'a> {
        match asked {
            Run::File { path, words, .. } => Topic::Command {
                path: *path,
                words: *words,
            },
            Run::Send { words, .. } => Topic::Sent { words: *words },
            Run::Import { path, copies } => Topic::Copies {
                path: *path,
                copies: *copies,
            },
            Run::Check { copies } => Topic::Checked { copies: *copies },
            Run::Migrate { path } => Topic::Migration { path: *path },
            Run::AuditAll { path } => Topic::Findings { path: *path },
            Run::Report { path, .. } | Run::Audit { path } | Run::Serve { path, .. } => {
                Topic::Library { path: *path }
            }
        }
    }

    /// Returns the path of its library, if it has one.
    pub fn library(self) -> Option<&'a str> {
        match self {
            Topic::Command { path, .. }
            | Topic::Copies { path, .. }
            | Topic::Migration { path }
            | Topic::Findings { path }
            | Topic::Library { path } => Some(path),
            Topic::Sent { .. } | Topic::Checked { .. } => None,
        }
    }

    fn is_migration(self) -> bool {
        match self {
            Topic::Migration { .. } => true,
            _ => false,
        }
    }
}

/// Returns whether the line is a finding that was explained as it was found.
fn is_explained(told: &ToldLine, topic: Topic<'_>) -> bool {
    match topic {
        Topic::Findings { .. } => told.as_bytes().starts_with(b"unsound "),
        _ => false,
    }
}

/// Writes a line about a file.
fn write_note<W: Write>(writer: &mut W, path: &str, note: &str) -> Result<(), WriteFault> {
    write_pieces(
        writer,
        &[b"circ: ", path.as_bytes(), b": ", note.as_bytes(), b"\n"],
    )
}

/// Explains words that weren't understood.
fn say_wrong_words(rt: &HostRuntime, topic: Topic<'_>) -> Result<(), WriteFault> {
    match topic {
        Topic::Command { words, .. } => {
            explain_words(&mut rt.stderr(), rt.alloc(), Handler::File, words)
        }
        Topic::Sent { words } => explain_words(&mut rt.stderr(), rt.alloc(), Handler::Send, words),
        _ => Ok(()),
    }
}

/// Explains a line. For a fault of the database, adds what is known of the library file.
fn say_line(rt: &HostRuntime, told: &ToldLine, topic: Topic<'_>) -> Result<(), WriteFault> {
    if is_explained(told, topic) {
        return Ok(());
    }
    let mut writer = rt.stderr();
    explain(&mut writer, told)?;
    let is_damaged = told.as_bytes().starts_with(b"fault 93");
    let is_refused = told.as_bytes().starts_with(b"fault 91");
    match topic.library() {
        Some(path) if is_damaged || is_refused => write_note(
            &mut writer,
            path,
            cause(rt, path, is_damaged, topic.is_migration()),
        ),
        _ => Ok(()),
    }
}

/// Says so if a copies file is a library: the two may have been swapped.
fn say_swapped(rt: &HostRuntime, topic: Topic<'_>) -> Result<(), WriteFault> {
    match topic {
        Topic::Copies { copies, .. } if is_database(rt, copies) => write_note(
            &mut rt.stderr(),
            copies,
            "this is a database, not a copies file: circ import LIBRARY COPIES",
        ),
        Topic::Checked { copies } if is_database(rt, copies) => write_note(
            &mut rt.stderr(),
            copies,
            "this is a database, not a copies file",
        ),
        _ => Ok(()),
    }
}

/// Says what is wrong with the bad rows of a copies file.
pub fn say_bad_rows(rt: &HostRuntime, found: &CopyCheck) -> Result<(), WriteFault> {
    write_bad_rows(&mut rt.stderr(), found)
}

/// Says what a finding means.
fn say_finding(rt: &HostRuntime, finding: &Finding) -> Result<(), WriteFault> {
    write_finding(
        &mut rt.stderr(),
        law_words(finding),
        number_of(finding),
        finding,
    )
}

/// Says what each finding of an audit means.
pub fn say_findings(rt: &HostRuntime, found: &Findings) -> Result<(), WriteFault> {
    for finding in found.broken.as_slice() {
        say_finding(rt, finding)?;
    }
    for thing in found.doubled.as_slice() {
        say_finding(rt, &Finding::Reference(Table::Barcodes, *thing))?;
    }
    match &found.old {
        Some(row) => write_old_row(&mut rt.stderr(), old_words(row), old_number(row)),
        None => Ok(()),
    }
}

/// Returns the first bad row that a check found.
fn first_bad(found: &CopyCheck) -> Option<BadRow> {
    match found.header {
        Some(flaw) => Some(BadRow { number: 0, flaw }),
        None => found.bad.as_slice().first().copied(),
    }
}

/// Checks a copies file once more: its first bad row is the one at which its reading ended.
fn bad_row_of(rt: &HostRuntime, copies: &str) -> Option<BadRow> {
    checks_agree();
    first_bad(&check_copies(rt.alloc(), File::open(rt, copies).ok()?))
}

/// Says what is wrong with the row at which an import ended.
fn say_bad_row(rt: &HostRuntime, told: &ToldLine, topic: Topic<'_>) -> Result<(), WriteFault> {
    let (Some(number), Topic::Copies { copies, .. }) = (bad_row_in(told), topic) else {
        return Ok(());
    };
    let number = u64::from(number);
    match bad_row_of(rt, copies) {
        Some(row) if row.number == number => write_bad_row(&mut rt.stderr(), row),
        _ => write_lost_row(&mut rt.stderr(), number),
    }
}

/// Writes the messages at the end of a run.
pub fn say(
    rt: &HostRuntime,
    told: &ToldLine,
    topic: Topic<'_>,
    exit: Exit,
) -> Result<(), WriteFault> {
    say_line(rt, told, topic)?;
    say_bad_row(rt, told, topic)?;
    if exit == Exit::NotUnderstood {
        say_wrong_words(rt, topic)?;
    }
    if exit == Exit::Done {
        return Ok(());
    }
    say_swapped(rt, topic)
}

/// Explains why the first words aren't a run: which one is wrong, or the usage.
pub fn say_misread(rt: &HostRuntime, words: &[String]) -> Result<(), WriteFault> {
    let mut writer = rt.stderr();
    if let Ok(Some(wrong)) = wrong_argument(rt.alloc(), words) {
        let text = match wrong.form {
            ArgumentForm::Part(kind) => wanted(kind),
            ArgumentForm::Other(text) => text,
        };
        write_wanted(&mut writer, wrong.name, text)?;
    }
    match words.first() {
        Some(run) if write_usage_of(&mut writer, run.as_str())? => Ok(()),
        _ => write_usage(&mut writer, SCHEMA),
    }
}

/// On a terminal, announces work on the library that may take long, since nothing else is printed
/// meanwhile.
pub fn say_begun(rt: &HostRuntime, path: &str, begun: &str) -> Result<(), WriteFault> {
    let mut writer = rt.stderr();
    if !writer.is_terminal() {
        return Ok(());
    }
    write_note(&mut writer, path, begun)
}

/// Says that a new library was made, as the file had none.
pub fn say_new(rt: &HostRuntime, path: &str) -> Result<(), WriteFault> {
    write_note(
        &mut rt.stderr(),
        path,
        "there was no library; a new one was made",
    )
}

/// Says why a file gives no clerks.
pub fn say_unread_keys(rt: &HostRuntime, path: &str, fault: KeysFault) -> Result<(), WriteFault> {
    let line = match fault {
        KeysFault::Line(line) => line,
        KeysFault::Read => return write_note(&mut rt.stderr(), path, "the file can't be read"),
        KeysFault::Memory => return Ok(()),
    };
    write_pieces(
        &mut rt.stderr(),
        &[
            b"circ: ",
            path.as_bytes(),
            b": line ",
            Buffer::new().format(line).as_bytes(),
            b": wanted is NAME ROLE KEY, parted by single spaces: a name of 1 to 16 ASCII letters and \
              digits, desk or lending, and a key of 8 to 32; no name and no key twice, at most 99 lines, \
              and a newline at the end of each\n",
        ],
    )
}

/// Says so if others than the owner of a file of keys may read it.
pub fn say_unsafe_keys(rt: &HostRuntime, path: &str) -> Result<(), WriteFault> {
    if !are_keys_open(rt, path) {
        return Ok(());
    }
    write_note(
        &mut rt.stderr(),
        path,
        "other users may read these keys: take that from them with chmod o-r",
    )
}

/// Says that output failed.
pub fn say_unwritten(rt: &HostRuntime) -> Result<(), WriteFault> {
    write_bytes(
        &mut rt.stderr(),
        b"circ: standard output can't be written\n",
    )
}

/// Announces on standard error that a serving desk has closed.
#[derive(Drop)]
pub struct Console<'a> {
    pub rt: &'a HostRuntime,
}

impl<'a> Console<'a> {
    fn say_closed(&self, fault: ServiceFault) -> Result<(), WriteFault> {
        let text = meaning(fault.number()).unwrap_or("");
        write_pieces(
            &mut self.rt.stderr(),
            &[
                b"circ: the desk is closed: ",
                text.as_bytes(),
                b"\ncirc: pages are still answered, and every other request gets fault 92; fix the \
                  cause and restart the program\n",
            ],
        )
    }
}

impl<'a> Watch for Console<'a> {
    fn closed(&mut self, fault: ServiceFault) {
        // Ignored: a failed note changes nothing.
        let _ = self.say_closed(fault);
    }
}

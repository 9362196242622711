//! The surroundings of the program: the files and ports of this machine.

ghost use Rattle.std.specs.Prelude.{IfSome};
ghost use Rattle.front.specs.Understood.{texts_of};
ghost use Rattle.circ_runs.specs.Hosting.{Exchanges, SendsTo, ReadsClerksAt};

use crate::absent::Absent;
use crate::calls::{FileTables, close_tables, create, open};
use crate::files::{is_held, is_log_alone, is_new, may_be_library};
use crate::notes::{
    Console, say_bad_rows, say_begun, say_findings, say_new, say_unread_keys, say_unsafe_keys,
};
use crate::surroundings::Surroundings;
use circ::{Exit, Findings, WriteFault, no_network, send};
use clerks::Clerks;
use front::{CopyCheck, KeysFault, keys_read_once, read_clerks};
use sqlite::{Start, Wary};
use std::alloc::Global;
use std::fs::File;
use std::io::{Read, Write};
use std::net::{Ipv4Addr, TcpListener, TcpStream};
use std::thread;
use std::time::Duration;
use terms::{CardKey, Fault, Key};

/// A marker for the file's content, made anew for each opening, which consumes it.
trait Content: Start {
    fn again() -> Self;
}

impl Content for Wary {
    fn again() -> Wary {
        Wary
    }
}

/// The most tries to open a library that another process holds: two seconds in all.
const MOST_TRIES: u32 = 40;

/// The pause between two tries, in milliseconds.
const PAUSE: u64 = 50;

/// Returns whether to try again: another process has the file, or may just have had it.
fn may_be_freed(rt: &HostRuntime, path: &str, is_first: bool) -> bool {
    if is_log_alone(rt, path) || !is_new(rt, path) && !may_be_library(rt, path) {
        return false;
    }
    is_held(rt, path) || is_first
}

/// Opens the tables of a library once. A file that isn't a database is left alone, and so is a log
/// whose file is missing or empty: 91.
fn open_once<S: Content>(
    rt: &HostRuntime,
    path: &str,
    absent: Absent,
) -> Result<FileTables<S>, Fault> {
    if is_new(rt, path) {
        let Absent::Made = absent else {
            return Err(Fault::Stored);
        };
        if is_log_alone(rt, path) {
            return Err(Fault::Database);
        }
        let tables = create(rt, path, S::again())?;
        // Ignored: a failed note doesn't stop the run.
        let _ = say_new(rt, path);
        return Ok(tables);
    }
    if !may_be_library(rt, path) {
        return Err(Fault::Database);
    }
    open(rt, path, S::again())
}

/// Opens the tables of a library, retrying for two seconds while another process has the file.
fn tables_in<S: Content>(
    rt: &HostRuntime,
    path: &str,
    absent: Absent,
) -> Result<FileTables<S>, Fault> {
    for count in 0..MOST_TRIES {
        match open_once(rt, path, absent) {
            Err(Fault::Database) => {
                if !may_be_freed(rt, path, count == 0) {
                    return Err(Fault::Database);
                }
                thread::sleep(rt, Duration::from_millis(PAUSE));
            }
            opened => return opened,
        }
    }
    Err(Fault::Database)
}

/// The ports of a machine. Of a stream no more is known than which port was asked for.
trait Ports {
    ghost use Rattle.std.specs.Prelude.{ℕ};
    ghost use Rattle.std.specs.declared.net.tcp.TcpStream.{TcpStream};

    /// Says that the stream leads to this port.
    ghost leads: { ℕ → TcpStream → Type 0 };

    /// Connects to this machine's port.
    fn connect(&self, port: u16) -> Option<TcpStream>
        ensures { IfSome result (leads port) };
}

/// Sends one request over a stream that is shared, and writes its line.
fn exchange<T: Read + Write + Copy, W: Write>(
    alloc: Global,
    stream: T,
    desk_key: &CardKey,
    key: &Key,
    words: &[String],
    writer: &mut W,
) -> Result<Exit, WriteFault>
    ensures { Exchanges desk_key.now key.now (texts_of words.now)
        (T.Read.remaining stream) (T.Write.contents stream)
        (W.contents writer.old) (W.contents writer.new) result }
{
    let mut input = stream;
    let mut output = stream;
    send(alloc, &mut input, &mut output, desk_key, key, words, writer)
}

/// Sends one request of the desk to the program that serves this machine's port.
fn send_to<P: Ports, W: Write>(
    ports: &P,
    alloc: Global,
    port: u16,
    desk_key: &CardKey,
    key: &Key,
    words: &[String],
    writer: &mut W,
) -> Result<Exit, WriteFault>
    ensures { SendsTo P.leads port desk_key.now key.now (texts_of words.now)
        (W.contents writer.old) (W.contents writer.new) result }
{
    match ports.connect(port) {
        Some(stream) => exchange(alloc, &stream, desk_key, key, words, writer),
        None => no_network(writer),
    }
}

/// The files of a machine. Of a file no more is known than the path at which it was opened.
trait Files {
    ghost use Rattle.std.specs.Prelude.{ℕ, List};

    /// A file that is open.
    type File: Read + Drop;

    /// Says that the file was opened at this path.
    ghost opened: { List ℕ → Self.File → Type 0 };

    /// Opens the file at the path for reading.
    fn open_file(&self, path: &str) -> Option<Self::File>
        ensures { IfSome result (opened path.now) };
}

/// Reads the clerks' keys in the file at the path.
fn clerks_in<F: Files>(files: &F, alloc: Global, path: &str) -> Result<Clerks, KeysFault>
    ensures { ReadsClerksAt F.File.Read.remaining F.opened path.now result }
{
    keys_read_once();
    match files.open_file(path) {
        Some(file) => read_clerks(alloc, file),
        None => Err(KeysFault::Read),
    }
}

/// The machine on which the program runs.
#[derive(Drop)]
pub struct Host<'a> {
    pub rt: &'a HostRuntime,
}

impl<'a> Ports for Host<'a> {
    ghost leads = { λ _ _. Unit {0} };

    fn connect(&self, port: u16) -> Option<TcpStream> {
        TcpStream::connect(self.rt, (Ipv4Addr::LOCALHOST, port)).ok()
    }
}

impl<'a> Files for Host<'a> {
    type File = File;

    ghost opened = { λ _ _. Unit {0} };

    fn open_file(&self, path: &str) -> Option<File> {
        File::open(self.rt, path).ok()
    }
}

impl<'a> Surroundings for Host<'a> {
    ghost use Rattle.circ_runs.specs.Hosting.{SendsTo, ReadsClerksAt};

    type Tables = FileTables<Wary>;

    type Copies = File;

    type Watcher = Console<'a>;

    ghost outside = { record {
      opens = λ _ _ _. Unit {0};
      refuses = λ _ _ _. Unit {0};
      copies = λ _ _. Unit {0};
      no_copies = λ _. Unit {0};
      clerks = ReadsClerksAt ⟦<File as Read>⟧.remaining ⟦<Host<'static> as Files>⟧.opened;
      listens = λ _ _. Unit {0};
      deaf = λ _. Unit {0};
      sends = SendsTo ⟦<Host<'static> as Ports>⟧.leads;
    } };

    fn alloc(&self) -> Global {
        self.rt.alloc()
    }

    fn note(&self, path: &str, begun: &str) {
        // Ignored: a failed note doesn't stop the run.
        let _ = say_begun(self.rt, path, begun);
    }

    fn note_bad_rows(&self, found: &CopyCheck) {
        // Ignored: a failed note changes nothing.
        let _ = say_bad_rows(self.rt, found);
    }

    fn note_findings(&self, found: &Option<Findings>) {
        if let Some(found) = found {
            // Ignored: a failed note changes nothing.
            let _ = say_findings(self.rt, found);
        }
    }

    fn watcher(&self) -> Console<'a> {
        Console { rt: self.rt }
    }

    fn open(&self, path: &str, absent: Absent) -> Result<FileTables<Wary>, Fault> {
        tables_in(self.rt, path, absent)
    }

    fn close(&self, tables: FileTables<Wary>) {
        close_tables(tables);
    }

    fn open_copies(&self, path: &str) -> Option<File> {
        self.open_file(path)
    }

    fn read_clerks(&self, path: &str) -> Result<Clerks, KeysFault> {
        let clerks = clerks_in(self, self.rt.alloc(), path);
        // Ignored: a failed note doesn't stop the run.
        let _ = match &clerks {
            Ok(_) => say_unsafe_keys(self.rt, path),
            Err(fault) => say_unread_keys(self.rt, path, *fault),
        };
        clerks
    }

    fn bind(&self, port: u16) -> Option<TcpListener> {
        TcpListener::bind(self.rt, (Ipv4Addr::LOCALHOST, port)).ok()
    }

    fn send<W: Write>(
        &self,
        port: u16,
        desk_key: &CardKey,
        key: &Key,
        words: &[String],
        writer: &mut W,
    ) -> Result<Exit, WriteFault> {
        send_to(self, self.rt.alloc(), port, desk_key, key, words, writer)
    }
}

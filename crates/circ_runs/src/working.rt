//! From a run to its work: which library is opened, and what is done on it.

ghost use Rattle.circ_runs.specs.Running.{ImportsFrom, ChecksFrom, ServesAt, DoesAtDesk, OpensDesk, Does, Leaves};
ghost use Rattle.circ_runs.specs.Running.{WorksIn, WithClerks, Opens, SendsAs, ServesFor, Runs, Answers};
ghost use Rattle.circ_runs.specs.Running.{keys_fault_line};
ghost use Rattle.circ.specs.Lines.{EndsWith};
ghost use Rattle.front.specs.Understood.{texts_of};

use crate::absent::Absent;
use crate::surroundings::{Serving, Surroundings};
use crate::work::{DeskWork, Work};
use circ::{
    DeskKeys, Exit, Port, Run, Web, WriteFault, audit, audit_all, check, import, migrate, no_keys,
    no_network, one, out_of_memory, report, serve, tell_fault, unchecked, unreadable,
};
use clerks::Clerks;
use desk::Desk;
use front::KeysFault;
use sqlite::Alter;
use std::io::Write;
use std::sync::Wait;
use std::thread::Threads;
use store::Store;
use terms::{Key, Memory};

/// Printed while all holds and loans of an older library are rewritten.
const MIGRATES: &str = "the library is being brought to the newest schema";

/// Printed while a library is opened for serving, before the line with the port.
const OPENS: &str = "the library is being opened, and the pages of its patrons are made";

/// Imports a copies file, or writes the lines for one that can't be opened.
fn import_file<S: Alter, M: Surroundings<Tables = Store<S>>, W: Write>(
    machine: &M,
    desk: &mut Desk<S>,
    copies: &str,
    writer: &mut W,
) -> Result<Exit, WriteFault>
    ensures { ImportsFrom S.Store M.Copies.Read.remaining M.outside
        (⟦<Port as Serving>⟧.serves S S.Store) copies.now desk.old desk.new
        (W.contents writer.old) (W.contents writer.new) result }
{
    match machine.open_copies(copies) {
        Some(file) => import(desk, machine.alloc(), file, writer),
        None => unreadable(writer),
    }
}

/// Checks a copies file and explains its bad rows, or writes the lines for one that can't be opened.
fn check_file<S: Alter, M: Surroundings<Tables = Store<S>>, W: Write>(
    machine: &M,
    copies: &str,
    writer: &mut W,
) -> Result<Exit, WriteFault>
    ensures { ChecksFrom S.Store M.Copies.Read.remaining M.outside
        (⟦<Port as Serving>⟧.serves S S.Store) copies.now
        (W.contents writer.old) (W.contents writer.new) result }
{
    match machine.open_copies(copies) {
        Some(file) => {
            let (found, told) = check(machine.alloc(), file, writer);
            machine.note_bad_rows(&found);
            told
        }
        None => unchecked(writer),
    }
}

/// Serves the web with so many workers on this machine's port only, and returns the desk.
fn serve_port<
    S: Alter,
    M: Surroundings<Tables = Store<S>>,
    W: Write,
    R: Threads + Wait + Copy + Send + 'static,
>(
    machine: &M,
    threads: R,
    desk: Desk<S>,
    workers: usize,
    web: Web,
    writer: &mut W,
) -> (Desk<S>, Result<Exit, WriteFault>)
    ensures { ServesAt S.Store M.Copies.Read.remaining M.outside
        (⟦<Port as Serving>⟧.serves S S.Store) web workers desk result.0
        (W.contents writer.old) (W.contents writer.new) result.1 }
{
    match machine.bind(web.port) {
        Some(listener) => {
            let mut watcher = machine.watcher();
            serve(
                threads,
                machine.alloc(),
                &mut watcher,
                desk,
                listener,
                workers,
                web,
                writer,
            )
        }
        None => (desk, no_network(writer)),
    }
}

/// Does work at the desk of a library, and returns the tables.
fn work_at<
    S: Alter,
    M: Surroundings<Tables = Store<S>>,
    W: Write,
    R: Threads + Wait + Copy + Send + 'static,
>(
    machine: &M,
    threads: R,
    mut desk: Desk<S>,
    work: DeskWork<'_>,
    writer: &mut W,
) -> (Store<S>, Result<Exit, WriteFault>)
    ensures { DoesAtDesk S.Store M.Copies.Read.remaining M.outside
        (⟦<Port as Serving>⟧.serves S S.Store) work.entry desk result.0
        (W.contents writer.old) (W.contents writer.new) result.1 }
{
    match work {
        DeskWork::Request { key, words } => {
            let told = one(&mut desk, machine.alloc(), key, words, writer);
            (desk.into_store(), told)
        }
        DeskWork::Import { copies } => {
            let told = import_file(machine, &mut desk, copies, writer);
            (desk.into_store(), told)
        }
        DeskWork::Report(wanted) => {
            let told = report(&mut desk, machine.alloc(), &wanted, writer);
            (desk.into_store(), told)
        }
        DeskWork::Audit => {
            let mut tables = desk.into_store();
            let told = audit(&mut tables, machine.alloc(), writer);
            (tables, told)
        }
        DeskWork::AuditAll => {
            let mut store = desk.into_store();
            let (found, told) = audit_all(&mut store, machine.alloc(), writer);
            machine.note_findings(&found);
            (store, told)
        }
        DeskWork::Serve { path, workers, web } => {
            machine.note(path, OPENS);
            let (desk, told) = serve_port(machine, threads, desk, workers, web, writer);
            (desk.into_store(), told)
        }
    }
}

/// Opens a desk on the tables and does work there. Returns the tables, or none if there can be no
/// desk on them.
fn on_desk<
    S: Alter + Drop,
    M: Surroundings<Tables = Store<S>>,
    W: Write,
    R: Threads + Wait + Copy + Send + 'static,
>(
    machine: &M,
    threads: R,
    tables: Store<S>,
    work: DeskWork<'_>,
    writer: &mut W,
) -> (Option<Store<S>>, Result<Exit, WriteFault>)
    ensures { Leaves tables result.0 (OpensDesk S.Store M.Copies.Read.remaining M.outside
        (⟦<Port as Serving>⟧.serves S S.Store) work.entry)
        (W.contents writer.old) (W.contents writer.new) result.1 }
{
    match Desk::new(tables) {
        Ok(desk) => {
            let (tables, told) = work_at(machine, threads, desk, work, writer);
            (Some(tables), told)
        }
        Err(fault) => (None, tell_fault(writer, fault)),
    }
}

/// Does work on the tables of a library, and returns them; none if there can be no desk on them.
fn work_on<
    S: Alter + Drop,
    M: Surroundings<Tables = Store<S>>,
    W: Write,
    R: Threads + Wait + Copy + Send + 'static,
>(
    machine: &M,
    threads: R,
    mut tables: Store<S>,
    work: Work<'_>,
    writer: &mut W,
) -> (Option<Store<S>>, Result<Exit, WriteFault>)
    ensures { Leaves tables result.0 (Does S.Store M.Copies.Read.remaining M.outside
        (⟦<Port as Serving>⟧.serves S S.Store) work.entry)
        (W.contents writer.old) (W.contents writer.new) result.1 }
{
    match work {
        Work::Desk(work) => on_desk(machine, threads, tables, work, writer),
        Work::Migration { path } => {
            machine.note(path, MIGRATES);
            let told = migrate(&mut tables, machine.alloc(), writer);
            (Some(tables), told)
        }
    }
}

/// Opens a library, does the work, and closes it.
fn work_in<
    S: Alter + Drop,
    M: Surroundings<Tables = Store<S>>,
    W: Write,
    R: Threads + Wait + Copy + Send + 'static,
>(
    machine: &M,
    threads: R,
    path: &str,
    absent: Absent,
    work: Work<'_>,
    writer: &mut W,
) -> Result<Exit, WriteFault>
    ensures { WorksIn S.Store M.Copies.Read.remaining M.outside
        (⟦<Port as Serving>⟧.serves S S.Store) path.now absent work.entry
        (W.contents writer.old) (W.contents writer.new) result }
{
    let tables = match machine.open(path, absent) {
        Ok(tables) => tables,
        Err(fault) => return tell_fault(writer, fault),
    };
    let (tables, told) = work_on(machine, threads, tables, work, writer);
    if let Some(tables) = tables {
        machine.close(tables);
    }
    told
}

/// Reads who opens the desk: everybody with the one key, or the clerks of the file.
fn clerks_of<S: Alter, M: Surroundings<Tables = Store<S>>>(
    machine: &M,
    keys: DeskKeys<'_>,
) -> Result<Clerks, KeysFault>
    ensures { Opens S.Store M.Copies.Read.remaining M.outside
        (⟦<Port as Serving>⟧.serves S S.Store) keys.entry result }
{
    match keys {
        DeskKeys::One(key) => match Clerks::sole(machine.alloc(), key) {
            Ok(clerks) => Ok(clerks),
            Err(Memory) => Err(KeysFault::Memory),
        },
        DeskKeys::File(path) => machine.read_clerks(path),
    }
}

/// Writes the line for keys that could not be read.
fn tell_unread_keys<W: Write>(writer: &mut W, fault: KeysFault) -> Result<Exit, WriteFault>
    ensures { EndsWith Exit.Faulted (keys_fault_line fault)
        (W.contents writer.old) (W.contents writer.new) result }
{
    match fault {
        KeysFault::Memory => out_of_memory(writer),
        KeysFault::Line(_) | KeysFault::Read => no_keys(writer),
    }
}

/// Serves the web from a library, for the clerks with these keys.
fn serve_with<
    S: Alter + Drop,
    M: Surroundings<Tables = Store<S>>,
    W: Write,
    R: Threads + Wait + Copy + Send + 'static,
>(
    machine: &M,
    threads: R,
    path: &str,
    port: u16,
    workers: usize,
    each: u32,
    keys: DeskKeys<'_>,
    writer: &mut W,
) -> Result<Exit, WriteFault>
    ensures { WithClerks S.Store M.Copies.Read.remaining M.outside
        (⟦<Port as Serving>⟧.serves S S.Store) keys.entry
        (ServesFor S.Store M.Copies.Read.remaining M.outside
        (⟦<Port as Serving>⟧.serves S S.Store) path.entry port workers each)
        (W.contents writer.old) (W.contents writer.new) result }
{
    let clerks = match clerks_of(machine, keys) {
        Ok(clerks) => clerks,
        Err(fault) => return tell_unread_keys(writer, fault),
    };
    let web = Web { port, each, clerks };
    let work = Work::Desk(DeskWork::Serve { path, workers, web });
    work_in(machine, threads, path, Absent::Made, work, writer)
}

/// Sends one request with the key of the first clerk.
fn send_with<S: Alter, M: Surroundings<Tables = Store<S>>, W: Write>(
    machine: &M,
    port: u16,
    keys: DeskKeys<'_>,
    key: &Key,
    words: &[String],
    writer: &mut W,
) -> Result<Exit, WriteFault>
    ensures { WithClerks S.Store M.Copies.Read.remaining M.outside
        (⟦<Port as Serving>⟧.serves S S.Store) keys.entry
        (SendsAs S.Store M.Copies.Read.remaining M.outside
        (⟦<Port as Serving>⟧.serves S S.Store) port key.now (texts_of words.now))
        (W.contents writer.old) (W.contents writer.new) result }
{
    let clerks = match clerks_of(machine, keys) {
        Ok(clerks) => clerks,
        Err(fault) => return tell_unread_keys(writer, fault),
    };
    match clerks.as_slice().first() {
        Some(clerk) => machine.send(port, &clerk.key, key, words, writer),
        None => no_keys(writer),
    }
}

/// Runs what was asked for and writes its lines.
fn do_run<
    S: Alter + Drop,
    M: Surroundings<Tables = Store<S>>,
    W: Write,
    R: Threads + Wait + Copy + Send + 'static,
>(machine: &M, threads: R, asked: Run<'_>, writer: &mut W) -> Result<Exit, WriteFault>
    ensures { Runs S.Store M.Copies.Read.remaining M.outside
        (⟦<Port as Serving>⟧.serves S S.Store) asked.entry
        (W.contents writer.old) (W.contents writer.new) result }
{
    let (path, absent, work) = match asked {
        Run::File { path, key, words } => {
            (
                path,
                Absent::Made,
                Work::Desk(DeskWork::Request { key, words }),
            )
        }
        Run::Import { path, copies } => {
            (path, Absent::Made, Work::Desk(DeskWork::Import { copies }))
        }
        Run::Check { copies } => return check_file(machine, copies, writer),
        Run::Report { path, report } => {
            (path, Absent::Refused, Work::Desk(DeskWork::Report(report)))
        }
        Run::Audit { path } => (path, Absent::Refused, Work::Desk(DeskWork::Audit)),
        Run::AuditAll { path } => (path, Absent::Refused, Work::Desk(DeskWork::AuditAll)),
        Run::Migrate { path } => (path, Absent::Refused, Work::Migration { path }),
        Run::Serve {
            path,
            port,
            workers,
            each,
            keys,
        } => return serve_with(machine, threads, path, port, workers, each, keys, writer),
        Run::Send {
            port,
            keys,
            key,
            words,
        } => return send_with(machine, port, keys, &key, words, writer),
    };
    work_in(machine, threads, path, absent, work, writer)
}

/// The same, and flushes the output.
pub fn answer<
    S: Alter + Drop,
    M: Surroundings<Tables = Store<S>>,
    W: Write,
    R: Threads + Wait + Copy + Send + 'static,
>(machine: &M, threads: R, asked: Run<'_>, writer: &mut W) -> Result<Exit, WriteFault>
    ensures { Answers S.Store M.Copies.Read.remaining M.outside
        (⟦<Port as Serving>⟧.serves S S.Store) asked.entry
        (W.contents writer.old) (W.contents writer.new) result }
{
    let exit = do_run(machine, threads, asked, writer)?;
    match writer.flush() {
        Ok(()) => Ok(exit),
        Err(_) => Err(WriteFault),
    }
}

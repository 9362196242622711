//! Runs the program from its words to its end.

ghost use Rattle.std.specs.Prelude.{◌≡◌};
ghost use Rattle.circ_runs.specs.Running.{ended, Ran};

use crate::calls::{not_understood, tell_fault};
use crate::files::{drop_log, has_log, is_new, may_be_library};
use crate::host::Host;
use crate::notes::{Topic, say, say_misread, say_unwritten};
use crate::surroundings::{Serving, Surroundings};
use crate::working::answer;
use circ::{Exit, Port, Run, WriteFault, read_run};
use messages::{Noting, ToldLine, write_usage, write_version};
use sqlite::Alter;
use std::io::{BufWriter, ErrorKind, Write};
use std::sync::Wait;
use std::thread::Threads;
use std::{env, io};
use store::Store;
use terms::{Fault, SCHEMA};

/// Returns the words after the program's name. An argument that isn't UTF-8 gives no words, which
/// are not understood.
fn words_of(rt: &HostRuntime) -> Result<Vec<String>, Fault> {
    let mut words = Vec::new(rt.alloc());
    match env::args(rt) {
        Ok(arguments) => {
            for word in arguments.skip(1) {
                words.push(word)?;
            }
            Ok(words)
        }
        Err(error) if error.kind() == ErrorKind::OutOfMemory => Err(Fault::Memory),
        Err(_) => Ok(words),
    }
}

/// Returns whether the library has no log yet, so that one found after a fault is this run's.
fn is_without_log(rt: &HostRuntime, topic: Topic<'_>) -> bool {
    match topic.library() {
        Some(path) => !has_log(rt, path),
        None => false,
    }
}

/// After a fault, removes the log that the run made.
fn leave(rt: &HostRuntime, topic: Topic<'_>) {
    if let Some(path) = topic.library() {
        if !is_new(rt, path) && may_be_library(rt, path) {
            drop_log(rt, path);
        }
    }
}

/// Ends a run and explains its result on standard error. If that can't be written, the lines and
/// the status say enough.
fn end(rt: &HostRuntime, told: &ToldLine, topic: Topic<'_>, exit: Result<Exit, WriteFault>) -> Exit
    ensures { result ≡ ended exit }
{
    let Ok(exit) = exit else {
        let _ = say_unwritten(rt);
        return Exit::Faulted;
    };
    let _ = say(rt, told, topic, exit);
    exit
}

/// Runs with this writer.
fn run_into<
    S: Alter + Drop,
    M: Surroundings<Tables = Store<S>>,
    W: Write + Drop,
    R: Threads + Wait + Copy + Send + 'static,
>(rt: &HostRuntime, machine: &M, threads: R, asked: Run<'_>, writer: W) -> Exit
    ensures { Ran S.Store M.Copies.Read.remaining M.outside
        (⟦<Port as Serving>⟧.serves S S.Store) asked.entry
        (W.contents writer) result }
{
    let topic = Topic::of(&asked);
    let is_without_log = is_without_log(rt, topic);
    let mut writer = Noting::new(writer);
    let exit = answer(machine, threads, asked, &mut writer);
    let exit = end(rt, &writer.told(), topic, exit);
    if is_without_log && exit == Exit::Faulted {
        leave(rt, topic);
    }
    exit
}

/// The same on this machine, without clauses: at the program's own types they are many times as
/// long.
fn run_here<W: Write + Drop, R: Threads + Wait + Copy + Send + 'static>(
    rt: &HostRuntime,
    threads: R,
    asked: Run<'_>,
    writer: W,
) -> Exit {
    run_into(rt, &Host { rt }, threads, asked, writer)
}

/// Runs with buffered output: lines go out together at the end, those of a report whenever the
/// buffer is full.
fn run_together<R: Threads + Wait + Copy + Send + 'static>(
    rt: &HostRuntime,
    threads: R,
    asked: Run<'_>,
) -> Exit {
    match BufWriter::new(rt.alloc(), io::writer(rt)) {
        Ok(writer) => run_here(rt, threads, asked, writer),
        Err(_) => without_memory(rt),
    }
}

/// Writes the usage or the version on standard output, if the words ask for it.
fn tell_asked(rt: &HostRuntime, words: &[String]) -> Option<Result<(), WriteFault>> {
    let [word] = words else {
        return None;
    };
    match word.as_str() {
        "help" | "--help" | "-h" => Some(write_usage(&mut io::writer(rt), SCHEMA)),
        "--version" | "-V" => Some(write_version(&mut io::writer(rt), SCHEMA)),
        _ => None,
    }
}

/// Answers words that aren't a run.
fn without_run(rt: &HostRuntime, words: &[String]) -> Exit {
    match tell_asked(rt, words) {
        Some(Ok(())) => Exit::Done,
        Some(Err(_)) => {
            let _ = say_unwritten(rt);
            Exit::Faulted
        }
        None => without_meaning(rt, words),
    }
}

/// Answers words that mean nothing.
fn without_meaning(rt: &HostRuntime, words: &[String]) -> Exit {
    match not_understood(&mut io::writer(rt)) {
        Ok(exit) => {
            let _ = say_misread(rt, words);
            exit
        }
        Err(_) => {
            let _ = say_unwritten(rt);
            Exit::Faulted
        }
    }
}

/// Ends a run that had no memory to begin.
fn without_memory(rt: &HostRuntime) -> Exit {
    tell_fault(&mut io::writer(rt), Fault::Memory).unwrap_or(Exit::Faulted)
}

/// Runs the program with the words of the process, and returns its exit.
pub fn run<R: Threads + Wait + Copy + Send + 'static>(rt: &HostRuntime, threads: R) -> Exit {
    let Ok(words) = words_of(rt) else {
        return without_memory(rt);
    };
    match read_run(rt.alloc(), words.as_slice()) {
        Ok(Some(asked)) if asked.tells_at_once() => { run_here(rt, threads, asked, io::writer(rt)) }
        Ok(Some(asked)) => run_together(rt, threads, asked),
        Ok(None) => without_run(rt, words.as_slice()),
        Err(_) => without_memory(rt),
    }
}

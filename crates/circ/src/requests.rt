//! One request of the desk, given as words.

ghost use Rattle.front.specs.Understood.{texts_of};
ghost use Rattle.circ.specs.Saying.{Understands, SaysLine};

use crate::lines::{Exit, WriteFault, not_understood, out_of_memory, tell_fault, tell_reply};
use desk::Desk;
use front::{WordFault, read_words};
use sqlite::Alter;
use std::alloc::Global;
use std::io::Write;
use terms::laws::request_texts_differ;
use terms::{Caller, Command, Key, Request};

/// Reads the command that the words spell. No two commands have the same words.
fn read_command(alloc: Global, words: &[String]) -> Result<Command, WordFault>
    ensures { Understands (texts_of words.now) result }
{
    request_texts_differ();
    read_words(alloc, words)
}

/// Handles the request in the words under this key, and writes one line: the reply's text, `refused
/// N`, `fault N` or `words not understood`. Takes no memory between handling and line.
///
/// `specs/Saying` states the line, the exit and what the tables show. If a write fails, a prefix of
/// the line went out and the tables are those of the whole line; the same key gets the line again.
pub fn one<S: Alter, W: Write>(
    desk: &mut Desk<S>,
    alloc: Global,
    key: Key,
    words: &[String],
    writer: &mut W,
) -> Result<Exit, WriteFault>
    ensures { SaysLine key (texts_of words.now) S.Store desk.old desk.new
        (W.contents writer.old) (W.contents writer.new) result }
{
    let command = match read_command(alloc, words) {
        Ok(command) => command,
        Err(WordFault::NotUnderstood) => return not_understood(writer),
        Err(WordFault::Memory) => return out_of_memory(writer),
    };
    let request = Request {
        caller: Caller::Desk,
        key,
        command,
    };
    match desk.handle(alloc, &request) {
        Ok(reply) => tell_reply(writer, &reply),
        Err(fault) => tell_fault(writer, fault),
    }
}

//! One request of the desk, sent to a serving program.

ghost use Rattle.std.specs.Prelude.{◌≡◌, ◌++◌, ◌∷◌, []};
ghost use Rattle.circ.specs.Exits.{exit_for};
ghost use Rattle.circ.specs.Lines.{EndsWith};
ghost use Rattle.circ.specs.Sending.{TellsReceived, TellsSent, WritesLine};
ghost use Rattle.front.specs.Understood.{texts_of};
ghost use Rattle.web.specs.Sending.{send_bytes};

use crate::lines::{Exit, WriteFault, no_network, out_of_memory};
use std::alloc::Global;
use std::io::{Read, Write};
use terms::{CardKey, Key, write_pieces};
use web::{AnswerFault, SendFault, read_answer, write_send};

/// Returns the exit for an answer's status.
fn exit_of_status(status: u16) -> Exit
    ensures { result ≡ exit_for status }
{
    match status {
        200 => Exit::Done,
        403 | 409 => Exit::Refused,
        400 | 404 | 405 | 413 => Exit::NotUnderstood,
        _ => Exit::Faulted,
    }
}

/// Writes the body of an answer. Takes no memory.
fn tell_answer<W: Write>(writer: &mut W, status: u16, body: &str) -> Result<Exit, WriteFault>
    ensures { EndsWith (exit_for status) (body.now ++ 10 ∷ [])
        (W.contents writer.old) (W.contents writer.new) result }
{
    write_pieces(writer, &[body.as_bytes(), b"\n"])?;
    Ok(exit_of_status(status))
}

/// Reads the answer and writes one line: its body, or that no answer came or that there was no
/// memory.
fn receive<I: Read, W: Write>(
    alloc: Global,
    input: &mut I,
    writer: &mut W,
) -> Result<Exit, WriteFault>
    ensures { WritesLine (TellsReceived (I.remaining input.old))
        (W.contents writer.old) (W.contents writer.new) result }
{
    match read_answer(alloc, input) {
        Ok(answer) => tell_answer(writer, answer.status, answer.body.as_str()),
        Err(AnswerFault::Memory) => out_of_memory(writer),
        Err(AnswerFault::Malformed | AnswerFault::Read) => no_network(writer),
    }
}

/// Sends the words as a request of the desk and writes one line: the body of the answer, or that
/// there was no network or no memory. Sends through `output` and reads the answer from `input`.
pub fn send<I: Read, O: Write, W: Write>(
    alloc: Global,
    input: &mut I,
    output: &mut O,
    desk_key: &CardKey,
    key: &Key,
    words: &[String],
    writer: &mut W,
) -> Result<Exit, WriteFault>
    ensures { WritesLine (TellsSent (send_bytes desk_key.now key.now (texts_of words.now))
        (I.remaining input.old) (O.contents output.old) (O.contents output.new))
        (W.contents writer.old) (W.contents writer.new) result }
{
    match write_send(alloc, output, desk_key, key, words) {
        Ok(()) => receive(alloc, input, writer),
        Err(SendFault::Memory) => out_of_memory(writer),
        Err(SendFault::Write) => no_network(writer),
    }
}

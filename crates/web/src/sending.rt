//! Requests, as the client sends them.

ghost use Rattle.std.specs.Prelude.{◌≡◌, ◌++◌, length, Err};
ghost use Rattle.front.specs.Understood.{texts_of};
ghost use Rattle.terms.specs.Writing.{Writes};
ghost use Rattle.web.specs.Answers.{fields_text};
ghost use Rattle.web.specs.Sending.{send_start, send_bytes};
ghost use Rattle.web.specs.declared.sending.SendFault.TheVariants.{Memory as NoMemory};
ghost use Rattle.web.specs.declared.sending.SendFault.TheVariants.{Write as NotWritten};

use crate::answer::write_fields;
use crate::written::Json;
use std::alloc::{AllocError, Global};
use std::io::Write;
use terms::{CardKey, Key, WriteFault, write_bytes, write_pieces};

/// Why a request can't be sent.
#[derive(Clone, Copy, Debug, PartialEq, Eq)]
pub enum SendFault {
    /// A write failed.
    Write,
    /// No memory was left. Nothing went out.
    Memory,
}

impl From<AllocError> for SendFault {
    ghost from_gives = { λ _ fault. fault ≡ NoMemory };

    fn from(_error: AllocError) -> SendFault {
        SendFault::Memory
    }
}

impl From<WriteFault> for SendFault {
    ghost from_gives = { λ _ fault. fault ≡ NotWritten };

    fn from(_fault: WriteFault) -> SendFault {
        SendFault::Write
    }
}

/// Writes the request line, the host and the two keys.
#[tactic(auto, unfolding(crate::specs::Sending::send_start))]
fn write_start<W: Write>(writer: &mut W, desk_key: &CardKey, key: &Key) -> Result<(), WriteFault>
    ensures { Writes (send_start desk_key.now key.now)
        (W.contents writer.old) (W.contents writer.new) result }
{
    write_pieces(
        writer,
        &[
            b"POST /desk HTTP/1.1\r\nHost: 127.0.0.1\r\nDesk-Key: ",
            desk_key.as_str().as_bytes(),
            b"\r\nRequest-Key: ",
            key.as_str().as_bytes(),
            b"\r\n",
        ],
    )
}

/// Writes the request with this body.
fn write_request<W: Write>(
    writer: &mut W,
    desk_key: &CardKey,
    key: &Key,
    body: &str,
) -> Result<(), WriteFault>
    ensures { Writes (send_start desk_key.now key.now
        ++ (fields_text (length body.now) ++ body.now))
        (W.contents writer.old) (W.contents writer.new) result }
{
    write_start(writer, desk_key, key)?;
    write_fields(writer, body.len())?;
    write_bytes(writer, body.as_bytes())
}

/// Writes the request that gives the desk the words: POST `/desk` with the two keys and a JSON list
/// of the words. The words are sent as they are, a command or not. If a write fails, a prefix of
/// the bytes went out.
pub fn write_send<W: Write>(
    alloc: Global,
    writer: &mut W,
    desk_key: &CardKey,
    key: &Key,
    words: &[String],
) -> Result<(), SendFault>
    ensures writes { Writes (send_bytes desk_key.now key.now (texts_of words.now))
        (W.contents writer.old) (W.contents writer.new) result }
    ensures unsent { result ≡ Err NoMemory → W.contents writer.new ≡ W.contents writer.old }
{
    let body = Json::words(alloc, words)?;
    write_request(writer, desk_key, key, body.as_str())?;
    Ok(())
}

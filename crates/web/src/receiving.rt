//! Answers, as the client reads them.

ghost use Rattle.std.specs.Prelude.{◌≡◌, ◌≤◌, ◌++◌, IfOk, IfErr, IfSome};
ghost use Rattle.std.specs.Prelude.{length, take, drop, map, string_bytes};
ghost use Rattle.std.specs.Io.KnownBytes.{Consumes};
ghost use Rattle.httparse.specs.Spans.{IsResponseOf, IsResponseWithin, header_bytes};
ghost use Rattle.web.specs.Faults.{IsOwnFault};
ghost use Rattle.web.specs.Receiving.{TellsLength, HasToldBody, IsAnswer, fault_for};
ghost use Rattle.web.specs.declared.receiving.AnswerFault.TheVariants.{Memory as NoMemory};

use crate::body::read_body;
use crate::fault::WebFault;
use crate::fields::{Fields, Found, read_length};
use crate::head::fill;
use crate::limits::{ANSWER_BYTES, HEAD_BYTES, HEAD_FIELDS};
use crate::request::{room_for_bytes, room_for_fields};
use httparse::Status;
use httparse::spans::{HeaderSpan, ResponseSpans, parse_response};
use std::alloc::{AllocError, Global};
use std::io::Read;

/// An answer that the client received.
#[derive(Drop)]
pub struct ReceivedAnswer {
    /// The status number.
    pub status: u16,
    /// The body.
    pub body: String,
}

/// Why an answer can't be read.
#[derive(Clone, Copy, Debug, PartialEq, Eq)]
pub enum AnswerFault {
    /// The input is not a head that gives the body's length, followed by a UTF-8 body of that
    /// length; or it ended too soon.
    Malformed,
    /// A read failed.
    Read,
    /// No memory was left.
    Memory,
}

impl From<AllocError> for AnswerFault {
    ghost from_gives = { λ _ fault. fault ≡ NoMemory };

    fn from(_error: AllocError) -> AnswerFault {
        AnswerFault::Memory
    }
}

impl From<WebFault> for AnswerFault {
    ghost from_gives = { λ from fault. fault ≡ fault_for from };

    fn from(fault: WebFault) -> AnswerFault {
        match fault {
            WebFault::Status(_) => AnswerFault::Malformed,
            WebFault::Read => AnswerFault::Read,
            WebFault::Memory => AnswerFault::Memory,
        }
    }
}

/// Reads until the head of an answer is complete. Returns its parts and the number of bytes read
/// into the buffer, or `None` if there is no such head.
fn read_answer_head<R: Read>(
    reader: &mut R,
    buf: &mut [u8],
    headers: &mut [HeaderSpan],
) -> Result<Option<(ResponseSpans, usize)>, WebFault>
    ensures own { IfErr result IsOwnFault }
    ensures filled { IfOk result (λ o. IfSome o (λ p. (p.1 ≤ length buf.new)
        × Consumes (R.remaining reader.old) (R.remaining reader.new) (take p.1 buf.new))) }
    ensures head { IfOk result (λ o. IfSome o
        (λ p. IsResponseOf (take p.1 buf.new) headers.new p.0)) }
    ensures within { IfOk result (λ o. IfSome o
        (λ p. IsResponseWithin (take p.1 buf.new) headers.new p.0)) }
{
    let mut filled = 0;
    while filled < buf.len() {
        let n = fill(reader, buf, filled)?;
        if n == 0 {
            return Ok(None);
        }
        filled += n;
        match parse_response(&buf[..filled], headers) {
            Ok(Status::Complete(head)) => return Ok(Some((head, filled))),
            Ok(Status::Partial) => {}
            Err(_) => return Ok(None),
        }
    }
    Ok(None)
}

/// Returns the length of an answer's body, if the fields give one within the limit and no transfer
/// coding.
fn told_length(fields: &Fields<'_>) -> Option<usize>
    ensures { IfSome result (TellsLength fields.now) }
{
    let Found::Nothing = fields.values(b"Transfer-Encoding") else {
        return None;
    };
    let Found::One(value) = fields.values(b"Content-Length") else {
        return None;
    };
    let length = read_length(value)?;
    if length > ANSWER_BYTES {
        return None;
    }
    Some(length as usize)
}

/// Reads the body, whose beginning came with the head. Returns `None` if the fields give no length
/// or the input ends early.
fn read_told_body<R: Read>(
    alloc: Global,
    reader: &mut R,
    fields: &Fields<'_>,
    front: &[u8],
) -> Result<Option<Vec<u8>>, WebFault>
    ensures { IfOk result (λ o. IfSome o (λ body. IfSome (R.remaining reader.old)
        (λ left. HasToldBody fields.now (front.now ++ left) body.items))) }
{
    let Some(size) = told_length(fields) else {
        return Ok(None);
    };
    read_body(alloc, reader, front, size)
}

/// Reads the rest of an answer, after the head described by the spans.
fn read_rest<R: Read>(
    alloc: Global,
    reader: &mut R,
    bytes: &[u8],
    headers: &[HeaderSpan],
    spans: ResponseSpans,
) -> Result<ReceivedAnswer, AnswerFault>
    requires { IsResponseWithin bytes.now headers.now spans }
    ensures status { IfOk result (λ answer. answer.status ≡ spans.code) }
    ensures body { IfOk result (λ answer. IfSome (R.remaining reader.old) (λ left. HasToldBody
        (map (header_bytes bytes.now) (take spans.headers headers.now))
        (drop spans.len bytes.now ++ left) (string_bytes answer.body))) }
{
    let fields = Fields::new(bytes, &headers[..spans.headers]);
    let Some(body) = read_told_body(alloc, reader, &fields, &bytes[spans.len..])? else {
        return Err(AnswerFault::Malformed);
    };
    match String::from_utf8(body) {
        Ok(body) => Ok(ReceivedAnswer {
            status: spans.code,
            body,
        }),
        Err(_) => Err(AnswerFault::Malformed),
    }
}

/// Reads an answer, with buffers for its head.
fn read_answer_with<R: Read>(
    alloc: Global,
    reader: &mut R,
    buf: &mut [u8],
    headers: &mut [HeaderSpan],
) -> Result<ReceivedAnswer, AnswerFault>
    ensures { IfOk result (λ answer. IfSome (R.remaining reader.old)
        (λ bytes. IsAnswer bytes answer.status (string_bytes answer.body))) }
{
    let Some((spans, filled)) = read_answer_head(reader, buf, headers)? else {
        return Err(AnswerFault::Malformed);
    };
    read_rest(alloc, reader, &buf[..filled], headers, spans)
}

/// Reads one answer: its head, within the limits of a request's head, and a body of the stated
/// length. Reads nothing past the body.
pub fn read_answer<R: Read>(alloc: Global, reader: &mut R) -> Result<ReceivedAnswer, AnswerFault>
    ensures { IfOk result (λ answer. IfSome (R.remaining reader.old)
        (λ bytes. IsAnswer bytes answer.status (string_bytes answer.body))) }
{
    let mut buf = room_for_bytes(alloc, HEAD_BYTES)?;
    let mut headers = room_for_fields(alloc, HEAD_FIELDS)?;
    read_answer_with(alloc, reader, &mut buf, &mut headers)
}

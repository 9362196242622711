//! Answers and their bytes.

ghost use Rattle.std.specs.Prelude.{◌≡◌, ◌++◌, ◌∷◌, ◌≤◌, [], IfOk, decimal, unwrap_or, length};
ghost use Rattle.http.specs.StatusCode.{reason_phrase};
ghost use Rattle.terms.specs.Writing.{Writes, joined};
ghost use Rattle.web.specs.Answers.{start_text, fields_text, parts_text, answer_text};
ghost use Rattle.web.specs.Answers.{answer_bytes, answer_for, refusal_status};
ghost use Rattle.web.specs.declared.answer.Answer.TheVariants as answer;

use crate::fault::WebStatus;
use crate::written::Json;
use http::StatusCode;
use itoa::Buffer;
use std::alloc::Global;
use std::io::Write;
use terms::{Memory, Refusal, Reply, ServiceFault, WriteFault, reply_text, write_pieces};

/// The answer to a request.
#[derive(Drop)]
pub enum Answer {
    /// 200: accepted, with the reply.
    Accepted(Json),
    /// 403 for a wrong key or a request that is not allowed, otherwise 409: refused.
    Refused(Refusal),
    /// 503: the service failed.
    Faulted(ServiceFault),
    /// 400, 404, 405 or 413: a check failed.
    Failed(WebStatus),
}

impl Answer {
    /// Makes the answer that carries a reply.
    pub fn reply(alloc: Global, reply: &Reply) -> Result<Answer, Memory>
        ensures { IfOk result (λ answer. answer ≡ answer_for reply.now) }
    {
        match reply {
            Reply::Refused(refusal) => Ok(Answer::Refused(*refusal)),
            _ => {
                let text = reply_text(alloc, reply)?;
                Ok(Answer::Accepted(Json::reply(alloc, text.as_str())?))
            }
        }
    }
}

/// Returns the reason phrase of a status.
fn phrase_of(status: StatusCode) -> &'static str
    ensures { result.now ≡ unwrap_or (reason_phrase status) [] }
{
    match status.canonical_reason() {
        Some(phrase) => phrase,
        None => "",
    }
}

/// Writes the status line.
#[tactic(auto, unfolding(crate::specs::Answers::start_text))]
fn write_start<W: Write>(writer: &mut W, status: StatusCode) -> Result<(), WriteFault>
    ensures { Writes (start_text status)
        (W.contents writer.old) (W.contents writer.new) result }
{
    write_pieces(
        writer,
        &[
            b"HTTP/1.1 ",
            Buffer::new().format(status.as_u16()).as_bytes(),
            b" ",
            phrase_of(status).as_bytes(),
            b"\r\n",
        ],
    )
}

/// Writes the header fields common to all messages with a body of this size, and the empty line.
#[tactic(auto, unfolding(crate::specs::Answers::fields_text))]
pub(crate) fn write_fields<W: Write>(writer: &mut W, size: usize) -> Result<(), WriteFault>
    ensures { Writes (fields_text size)
        (W.contents writer.old) (W.contents writer.new) result }
{
    write_pieces(
        writer,
        &[
            b"Content-Type: application/json\r\nContent-Length: ",
            Buffer::new().format(size).as_bytes(),
            b"\r\nConnection: close\r\n\r\n",
        ],
    )
}

/// Writes an answer, with `line` after the status line. `size` is the total length of `body`.
fn write_parts<W: Write>(
    writer: &mut W,
    status: StatusCode,
    line: &[&[u8]],
    size: usize,
    body: &[&[u8]],
) -> Result<(), WriteFault>
    ensures { Writes (parts_text status (joined line.now) size (joined body.now))
        (W.contents writer.old) (W.contents writer.new) result }
{
    write_start(writer, status)?;
    write_pieces(writer, line)?;
    write_fields(writer, size)?;
    write_pieces(writer, body)
}

/// Writes an answer whose body has one member, a number. `before` is short.
fn write_number<W: Write>(
    writer: &mut W,
    status: StatusCode,
    line: &[&[u8]],
    before: &str,
    number: u32,
) -> Result<(), WriteFault>
    requires { length before.now ≤ 32 }
    ensures { Writes (answer_text status (joined line.now)
        (before.now ++ (decimal number ++ (125 ∷ []))))
        (W.contents writer.old) (W.contents writer.new) result }
{
    let mut buffer = Buffer::new();
    let digits = buffer.format(number);
    let size = before.len() + digits.len() + 1;
    write_parts(
        writer,
        status,
        line,
        size,
        &[before.as_bytes(), digits.as_bytes(), b"}"],
    )
}

/// Returns the status for a refusal of the desk: 403 or 409.
fn status_of_refusal(refusal: Refusal) -> StatusCode
    ensures { result ≡ refusal_status refusal }
{
    match refusal {
        Refusal::NotAllowed => StatusCode::FORBIDDEN,
        _ => StatusCode::CONFLICT,
    }
}

/// Writes the answer to a request that fails a check. 405 adds a line with the allowed method.
fn write_failed<W: Write>(writer: &mut W, status: &WebStatus) -> Result<(), WriteFault>
    ensures { Writes (answer_bytes (answer.Failed status.now))
        (W.contents writer.old) (W.contents writer.new) result }
{
    let code = status.code();
    let number = u32::from(code.as_u16());
    match status {
        WebStatus::MethodNotAllowed(method) => write_number(
            writer,
            code,
            &[b"Allow: ", method.as_str().as_bytes(), b"\r\n"],
            "{\"status\":",
            number,
        ),
        _ => write_number(writer, code, &[], "{\"status\":", number),
    }
}

/// Writes the bytes of an answer. If a write fails, a prefix of them went out. Takes no memory.
pub fn write_answer<W: Write>(writer: &mut W, answer: &Answer) -> Result<(), WriteFault>
    ensures { Writes (answer_bytes answer.now)
        (W.contents writer.old) (W.contents writer.new) result }
{
    match answer {
        Answer::Accepted(json) => {
            let text = json.as_str();
            write_parts(writer, StatusCode::OK, &[], text.len(), &[text.as_bytes()])
        }
        Answer::Refused(refusal) => write_number(
            writer,
            status_of_refusal(*refusal),
            &[],
            "{\"refusal\":",
            refusal.number(),
        ),
        Answer::Faulted(fault) => write_number(
            writer,
            StatusCode::SERVICE_UNAVAILABLE,
            &[],
            "{\"fault\":",
            fault.number(),
        ),
        Answer::Failed(status) => write_failed(writer, status),
    }
}

//! The head of a request.

ghost use Rattle.std.specs.Prelude.{◌≡◌, ◌-◌, ◌≤◌, IfOk, IfErr, IfSome, IfNone, length, take};
ghost use Rattle.std.specs.Prelude.{None, MatchResult};
ghost use Rattle.std.specs.Io.KnownBytes.{Consumes};
ghost use Rattle.httparse.specs.Spans.{IsRequestOf, IsRequestWithin};
ghost use Rattle.web.specs.Faults.{IsOwnFault};
ghost use Rattle.web.specs.Heads.{HasNoHead, ReadsMore};
ghost use Rattle.web.specs.Taking.{ReadsPiece, ReadsInto, TakesHead};
ghost use Rattle.web.specs.declared.limits.TheConstants.{HEAD_BYTES, HEAD_FIELDS};

use crate::fault::WebFault;
use crate::source::Source;
use httparse::Status;
use httparse::spans::{HeaderSpan, RequestSpans, parse_request};
use std::io;

/// Reads until the head of a request is complete. Returns its parts and the number of bytes read
/// into the buffer, or `None` if the input doesn't begin with a head.
pub(crate) fn read_head<R: Source>(
    reader: &mut R,
    buf: &mut [u8],
    headers: &mut [HeaderSpan],
) -> Result<Option<(RequestSpans, usize)>, WebFault>
    requires size { length buf.old ≡ HEAD_BYTES }
    requires room { length headers.old ≡ HEAD_FIELDS }
    ensures own { IfErr result IsOwnFault }
    ensures filled { IfOk result (λ o. IfSome o (λ p. (p.1 ≤ HEAD_BYTES)
        × Consumes (R.Read.remaining reader.old) (R.Read.remaining reader.new) (take p.1 buf.new))) }
    ensures head { IfOk result (λ o. IfSome o
        (λ p. IsRequestOf (take p.1 buf.new) headers.new p.0)) }
    ensures within { IfOk result (λ o. IfSome o
        (λ p. IsRequestWithin (take p.1 buf.new) headers.new p.0)) }
    ensures none { IfOk result (λ o. IfNone o (IfSome (R.Read.remaining reader.old) HasNoHead)) }
    ensures takes { TakesHead R.reads R.Read.remaining reader.old reader.new buf.new result }
{
    let mut filled = 0;
    while filled < buf.len() {
        let n = fill(reader, buf, filled)?;
        if n == 0 {
            return Ok(None);
        }
        filled += n;
        match parse_request(&buf[..filled], headers) {
            Ok(Status::Complete(head)) => return Ok(Some((head, filled))),
            Ok(Status::Partial) => {}
            Err(_) => return Ok(None),
        }
    }
    Ok(None)
}

/// Reads once into the unfilled part of the buffer.
pub(crate) fn fill<R: Source>(reader: &mut R, buf: &mut [u8], filled: usize) -> io::Result<usize>
    requires { filled ≤ length buf.old }
    ensures more { IfOk result (ReadsMore (R.Read.remaining reader.old)
        (R.Read.remaining reader.new) buf.old buf.new filled) }
    ensures once { MatchResult result
        (ReadsInto R.reads R.Read.remaining reader.old reader.new buf.old buf.new filled)
        (λ _. ReadsPiece R.reads R.Read.remaining (length buf.old - filled) None
        reader.old reader.new) }
{
    reader.read_once(&mut buf[filled..])
}

//! Reading message bodies.

ghost use Rattle.std.specs.Prelude.{◌≤◌, ◌++◌, length, IfOk, IfErr, IfSome};
ghost use Rattle.web.specs.Faults.{IsOwnFault};
ghost use Rattle.web.specs.Bodies.{FillsAll, HasBody};
ghost use Rattle.web.specs.Taking.{Takes, EndsFull, EndsWith, WantsRest};

use crate::fault::WebFault;
use crate::head::fill;
use crate::source::Source;
use std::alloc::Global;

/// Reads until the buffer is full; its first `start` bytes already are. Returns false if the input
/// ends first.
fn fill_all<R: Source>(reader: &mut R, buf: &mut [u8], start: usize) -> Result<bool, WebFault>
    requires { start ≤ length buf.old }
    ensures own { IfErr result IsOwnFault }
    ensures fills { IfOk result
        (FillsAll (R.Read.remaining reader.old) (R.Read.remaining reader.new) buf.old buf.new
        start) }
    ensures takes { Takes R.reads R.Read.remaining (WantsRest start (length buf.old))
        (λ got mid new. EndsFull R.reads R.Read.remaining (WantsRest start (length buf.old))
        got mid new result) reader.old reader.new }
{
    let mut filled = start;
    while filled < buf.len() {
        let n = fill(reader, buf, filled)?;
        if n == 0 {
            return Ok(false);
        }
        filled += n;
    }
    Ok(true)
}

/// Reads a body of this size, whose beginning came with the head. Returns `None` if the input ends
/// early, and reads nothing past the body.
pub(crate) fn read_body<R: Source>(
    alloc: Global,
    reader: &mut R,
    front: &[u8],
    size: usize,
) -> Result<Option<Vec<u8>>, WebFault>
    ensures own { IfErr result IsOwnFault }
    ensures body { IfOk result (λ body. IfSome (R.Read.remaining reader.old)
        (λ left. HasBody (front.now ++ left) size body)) }
    ensures takes { Takes R.reads R.Read.remaining (WantsRest (length front.now) size)
        (λ got mid new. EndsWith R.reads R.Read.remaining (WantsRest (length front.now) size)
        got mid new result) reader.old reader.new }
{
    let kept = front.len().min(size);
    let mut body = Vec::from_slice(alloc, &front[..kept])?;
    body.resize(size, 0)?;
    if !fill_all(reader, &mut body, kept)? {
        return Ok(None);
    }
    Ok(Some(body))
}

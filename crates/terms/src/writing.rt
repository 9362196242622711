//! Writing bytes.

ghost use Rattle.terms.specs.Writing.{Writes, joined};

use std::io::Write;

/// A write failed; a prefix of the bytes may have gone out.
#[derive(Clone, Copy, Debug, PartialEq, Eq)]
pub struct WriteFault;

/// Writes the bytes. If a write fails or accepts nothing, a prefix of them went out. Takes no
/// memory.
pub fn write_bytes<W: Write>(writer: &mut W, bytes: &[u8]) -> Result<(), WriteFault>
    ensures { Writes bytes.now (W.contents writer.old) (W.contents writer.new) result }
{
    let mut written = 0;
    while written < bytes.len() {
        match writer.write(&bytes[written..]) {
            Ok(0) => return Err(WriteFault),
            Ok(taken) => written += taken,
            Err(_) => return Err(WriteFault),
        }
    }
    Ok(())
}

/// Writes the pieces in order. If a write fails, a prefix of them went out. Takes no memory.
pub fn write_pieces<W: Write>(writer: &mut W, pieces: &[&[u8]]) -> Result<(), WriteFault>
    ensures { Writes (joined pieces.now) (W.contents writer.old) (W.contents writer.new) result }
{
    for piece in pieces {
        write_bytes(writer, piece)?;
    }
    Ok(())
}

//! A text that is made by writing it.

use std::io::{ErrorKind, Result, Write};

/// A text to which whole characters are written.
#[derive(Drop)]
pub(crate) struct Page {
    pub(crate) text: String,
}

impl Write for Page {
    ghost use Rattle.std.specs.Prelude.{Some, string_bytes};

    ghost contents = { λ p. Some (string_bytes p.text) };

    fn write(&mut self, buf: &[u8]) -> Result<usize> {
        match str::from_utf8(buf) {
            Ok(piece) => {
                self.text.push_str(piece)?;
                Ok(buf.len())
            }
            Err(_) => Err(ErrorKind::InvalidData.into()),
        }
    }

    fn flush(&mut self) -> Result<()> {
        Ok(())
    }
}

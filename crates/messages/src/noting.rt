//! A writer that remembers one of the lines written.

ghost use Rattle.std.specs.Prelude.{◌≡◌};
ghost use Rattle.messages.specs.Noting.{writer_of};

use std::io::{self, Write};

/// How many bytes of a line are kept.
const KEPT: usize = 40;

/// The start of a line.
#[derive(Clone, Copy)]
pub struct ToldLine {
    bytes: [u8; KEPT],
    length: usize,
}

impl ToldLine {
    fn new() -> ToldLine {
        ToldLine {
            bytes: [0; KEPT],
            length: 0,
        }
    }

    /// Returns the part of the line that is kept.
    pub fn as_bytes(&self) -> &[u8] {
        self.bytes.get(..self.length).unwrap_or(&[])
    }

    fn push(&mut self, byte: u8) {
        if let Some(place) = self.bytes.get_mut(self.length) {
            *place = byte;
            self.length += 1;
        }
    }

    /// Returns whether the line reports more than success.
    fn tells(&self) -> bool {
        let line = self.as_bytes();
        let is_row = line.starts_with(b"row ") && !line.ends_with(b" ok");
        is_row
            || line.starts_with(b"refused ")
            || line.starts_with(b"fault ")
            || line.starts_with(b"words ")
            || line.starts_with(b"unsound ")
            || line.starts_with(b"{\"refusal\":")
            || line.starts_with(b"{\"fault\":")
    }
}

/// The lines of what went out.
#[derive(Drop)]
struct Notes {
    /// The one that has not ended.
    line: ToldLine,
    /// The last one about a refusal, a fault or words not understood.
    told: ToldLine,
}

impl Notes {
    fn new() -> Notes {
        Notes {
            line: ToldLine::new(),
            told: ToldLine::new(),
        }
    }

    fn note(&mut self, bytes: &[u8]) {
        for byte in bytes {
            if *byte == b'\n' {
                if self.line.tells() {
                    self.told = self.line;
                }
                self.line = ToldLine::new();
            } else {
                self.line.push(*byte);
            }
        }
    }
}

/// A writer that keeps the last line about a refusal, a fault or words not understood. What it
/// holds is what the other writer holds.
#[derive(Drop)]
pub struct Noting<W> {
    writer: W,
    notes: Notes,
}

impl<W> Noting<W> {
    /// Makes a writer that has kept nothing.
    pub fn new(writer: W) -> Noting<W>
        ensures { writer_of result ≡ writer }
    {
        Noting {
            writer,
            notes: Notes::new(),
        }
    }

    /// Returns the kept line, or an empty one.
    pub fn told(&self) -> ToldLine {
        self.notes.told
    }
}

impl<W: Write> Write for Noting<W> {
    ghost contents = { λ noting. W.contents (writer_of noting) };

    fn write(&mut self, buf: &[u8]) -> io::Result<usize> {
        let count = self.writer.write(buf)?;
        self.notes.note(buf.get(..count).unwrap_or(buf));
        Ok(count)
    }

    fn flush(&mut self) -> io::Result<()> {
        self.writer.flush()
    }
}

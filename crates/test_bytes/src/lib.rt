//! An in-memory reader and writer for tests: they give and take bytes in pieces, and fail after
//! them. They tell the proof nothing, like a socket.
#![tactic(auto)]

use std::alloc::Global;
use std::io::{self, Read, Write};

/// A reader that gives its bytes in pieces, the first and the others of these sizes. After the last
/// byte it ends, or fails.
#[derive(Drop)]
pub struct Drip<'a> {
    pub bytes: &'a [u8],
    pub first: usize,
    pub others: usize,
    pub fails: bool,
}

impl<'a> Drip<'a> {
    /// A reader that gives its bytes on demand, and then fails.
    pub fn failing(bytes: &'a [u8]) -> Drip<'a> {
        Drip {
            bytes,
            first: usize::MAX,
            others: usize::MAX,
            fails: true,
        }
    }
}

impl Read for Drip<'_> {
    fn read(&mut self, buf: &mut [u8]) -> io::Result<usize> {
        if self.bytes.is_empty() && self.fails {
            return Err(io::ErrorKind::Other.into());
        }
        let end = buf.len().min(self.first);
        self.first = self.others;
        let taken = self.bytes.read(&mut buf[..end])?;
        Ok(taken)
    }
}

/// A writer with room for this many bytes, which it keeps. It fails when full.
#[derive(Drop)]
pub struct Narrow {
    taken: Vec<u8>,
    room: usize,
}

impl Narrow {
    /// A writer that has taken nothing.
    pub fn new(alloc: Global, room: usize) -> Narrow {
        Narrow {
            taken: Vec::new(alloc),
            room,
        }
    }

    /// What was taken.
    pub fn taken(&self) -> &[u8] {
        self.taken.as_slice()
    }

    /// What was taken, when there is no more to write.
    pub fn into_taken(self) -> Vec<u8> {
        self.taken
    }
}

impl Write for Narrow {
    fn write(&mut self, buf: &[u8]) -> io::Result<usize> {
        let count = buf.len().min(self.room);
        if count == 0 {
            return Err(io::ErrorKind::Other.into());
        }
        self.taken.extend_from_slice(&buf[..count])?;
        self.room -= count;
        Ok(count)
    }

    fn flush(&mut self) -> io::Result<()> {
        Ok(())
    }
}

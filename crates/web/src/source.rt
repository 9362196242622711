//! What requests are read from.

ghost use Rattle.std.specs.Prelude.{Some, None, MatchResult, length, take};
ghost use Rattle.std.specs.Io.{ReadsAtMost};
ghost use Rattle.std.specs.Io.KnownBytes.{ReadConsumes};

use std::io;
use std::io::Read;

/// A reader whose reads are told one by one. Any reader is one; of most no more is told than their
/// bytes.
pub trait Source: Read {
    ghost use Rattle.std.specs.Prelude.{ℕ, List, Option};

    /// Says that one read for at most this many bytes gave these, or failed, between the first
    /// state and the last.
    ghost reads: { Self → ℕ → Option (List ℕ) → Self → Type 0 };

    /// Reads once.
    fn read_once(&mut self, buf: &mut [u8]) -> io::Result<usize>
        ensures bound { ReadsAtMost result buf.new }
        ensures bytes { ReadConsumes (Self.remaining self.old) (Self.remaining self.new)
            result buf.new }
        ensures read { MatchResult result
            (λ n. reads self.old (length buf.old) (Some (take n buf.new)) self.new)
            (λ _. reads self.old (length buf.old) None self.new) };
}

impl<R: Read> Source for R {
    ghost reads = { λ _ _ _ _. Unit {0} };

    fn read_once(&mut self, buf: &mut [u8]) -> io::Result<usize> {
        self.read(buf)
    }
}

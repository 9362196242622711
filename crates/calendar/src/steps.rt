//! Counting steps.
ghost use Rattle.std.specs.Prelude.{◌≡◌, ◌+◌, ◌-◌, ◌<◌, ◌^◌, min};

use std::marker::Model;
use std::sync::ledger::{Blank, Book, Ledger, Share};

/// The number of steps taken. Only `tick` changes it.
#[derive(Drop)]
pub struct Steps<L: Ledger> {
    book: Book<L>,
    share: Share<L>,
    count: u64,
}

impl<L: Ledger> Model for Steps<L> {
    ghost use Rattle.std.specs.Prelude.{◌≡◌, ◌<◌, ◌^◌, ◌-◌, ℕ, min};

    ghost Value = { ℕ };

    ghost view = { λ s. s.book.total };

    ghost invariant = { λ s. (0 < s.share.parts) × (s.count ≡ min s.book.total (2 ^ 64 - 1)) };
}

impl<L: Ledger> Steps<L> {
    /// Starts at zero, with its own ledger.
    pub fn new(blank: Blank) -> Steps<L>
        requires name { blank.name ≡ L.name }
        requires parts { blank.parts ≡ L.parts }
        requires some { 0 < blank.parts }
        ensures { result ≡ 0 }
    {
        let (book, share) = blank.open::<L>();
        Steps {
            book,
            share,
            count: 0,
        }
    }

    /// Counts one step.
    pub fn tick(&mut self)
        ensures { self.new ≡ self.old + 1 }
    {
        self.book.add(&mut self.share, 1);
        self.count = self.count.saturating_add(1);
    }

    /// Returns the number of steps taken, capped at 2^64 - 1.
    pub fn taken(&self) -> u64
        ensures { result ≡ min self.now (2 ^ 64 - 1) }
    {
        self.count
    }
}

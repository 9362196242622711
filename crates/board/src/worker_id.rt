//! Worker numbers.

ghost use Rattle.std.specs.Prelude.{◌≡◌, true, false, MatchOption};
ghost use Rattle.board.specs.Workers.{is_worker};

use hall_schedule::WORKERS;
use std::marker::Model;

/// The number of a worker in a hall, 1 to 8.
#[derive(Clone, Copy, Debug, PartialEq, Eq)]
pub struct WorkerId {
    number: u64,
}

impl Model for WorkerId {
    ghost use Rattle.std.specs.Prelude.{◌≡◌, ℕ, true};
    ghost use Rattle.std.specs.Coded.{coded_ℕ};
    ghost use Rattle.board.specs.Workers.{is_worker};

    ghost Value = { ℕ };

    ghost coded = { coded_ℕ };

    ghost view = { λ w. w.number };

    ghost invariant = { λ w. is_worker w.number ≡ true };

    ghost inverse = { λ n. record { number = n } };
}

impl WorkerId {
    /// Makes a worker number; none outside 1 to 8.
    pub fn new(number: u64) -> Option<WorkerId>
        ensures { MatchOption result (is_worker number ≡ false)
            (λ worker. (is_worker number ≡ true) × (worker ≡ number)) }
    {
        if 1 <= number && number <= WORKERS {
            Some(WorkerId { number })
        } else {
            None
        }
    }

    /// Returns the number.
    pub fn number(self) -> u64
        ensures value { result ≡ self }
        ensures limits { is_worker self ≡ true }
    {
        let WorkerId { number } = self;
        number
    }
}

//! The weekdays a branch is open.
ghost use Rattle.std.specs.Prelude.{◌≡◌, ◌+◌, ◌^◌, ◌<◌, ◌≤◌, [], ◌∷◌, ℕ, true, false};
ghost use Rattle.std.specs.Option.{SomeIff};
ghost use Rattle.calendar.specs.Openings.{AreWeekdays, has_open_weekday};
ghost use Rattle.calendar.specs.Weeks.{is_closed_weekday, open_weekdays_among};

use std::marker::Model;

/// The closed weekdays, Monday first, never all seven.
#[derive(Clone, Copy, Debug, PartialEq, Eq)]
pub struct Weekdays {
    closed: [bool; 7],
}

impl Model for Weekdays {
    ghost use Rattle.std.specs.Prelude.{List, Bool};
    ghost use Rattle.calendar.specs.Openings.{AreWeekdays};

    ghost Value = { List Bool };

    ghost view = { λ a. a.closed };

    ghost invariant = { λ a. AreWeekdays a.closed };

    ghost inverse = { λ ds. record { closed = ds } };
}

impl Weekdays {
    /// Makes a set of closed weekdays, Monday first, unless it is all seven.
    pub fn new(closed: [bool; 7]) -> Option<Weekdays>
        ensures { SomeIff result (has_open_weekday closed ≡ true) closed }
    {
        if closed.contains(&false) {
            Some(Weekdays { closed })
        } else {
            None
        }
    }

    /// Makes a week without closed days.
    pub fn all_open() -> Weekdays
        ensures { result ≡ false ∷ false ∷ false ∷ false ∷ false ∷ false ∷ false ∷ [] }
    {
        Weekdays { closed: [false; 7] }
    }

    /// Returns whether each weekday is closed, Monday first.
    pub fn closed(self) -> [bool; 7]
        ensures value { result ≡ self }
        ensures weekdays { AreWeekdays result }
    {
        self.closed
    }

    /// Returns whether the weekday of a day number is closed.
    pub(crate) fn is_closed_on(self, number: u32) -> bool
        requires { number + 3 < 2 ^ 32 }
        ensures { result ≡ is_closed_weekday self number }
    {
        let weekday = (number + 3) % 7;
        self.closed[weekday as usize]
    }

    /// Counts the days on open weekdays among that many after a day number.
    pub(crate) fn open_among(self, number: u32, days: u32) -> u32
        requires { number + days + 3 < 2 ^ 32 }
        ensures { result ≡ open_weekdays_among self number days }
    {
        let mut count = 0;
        for after in 0..days {
            if !self.is_closed_on(number + after + 1) {
                count += 1;
            }
        }
        count
    }

    /// Returns the first day number from that one on whose weekday is open.
    pub(crate) fn open_from(self, number: u32) -> u32
        requires { number + 9 < 2 ^ 32 }
        ensures from { number ≤ result }
        ensures near { result ≤ number + 6 }
        ensures open { is_closed_weekday self result ≡ false }
        ensures closed { (k : ℕ) → number ≤ k → k < result → is_closed_weekday self k ≡ true }
    {
        // Reading the mask shows the prover that some weekday is open.
        let _closed = self.closed();
        let mut next = number;
        while self.is_closed_on(next) {
            next += 1;
        }
        next
    }
}

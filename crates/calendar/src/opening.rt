//! The days a branch is open.
ghost use Rattle.std.specs.Prelude.{◌≡◌, ◌+◌, ◌<◌, ◌≤◌, ◌↔◌, [], ◌∷◌, ℕ, true, false, IsTrue, IfOk};
ghost use Rattle.std.specs.Prelude.{IfSome, IfNone, IsSome, OnOk, OnErr, length, slice_index_or};
ghost use Rattle.std.specs.Option.{SomeIff};
ghost use Rattle.calendar.specs.Days.{IsDayNumber};
ghost use Rattle.calendar.specs.declared.limits.TheConstants.{LAST_DAY, MOST_CLOSED_DAYS};
ghost use Rattle.calendar.specs.Openings.{Closings, AreClosings, AreWeekdays, ClosesExactly};
ghost use Rattle.calendar.specs.Openings.{ClosesOnly, ReopensOnly, IsLeastOpen, has_day};
ghost use Rattle.calendar.specs.Openings.{has_open_weekday, has_repeat, is_open, is_single};
ghost use Rattle.calendar.specs.Openings.{open_days_after};

use crate::day::Day;
use crate::limits::MOST_CLOSED_DAYS;
use crate::search::{count_between, first_open};
use crate::singles::Singles;
use crate::steps::Steps;
use crate::uncounted::{uncounted_least_open, uncounted_open_days, uncounted_place};
use crate::weekdays::Weekdays;
use std::alloc::Global;
use std::marker::{Brand, Model};
use std::sync::ledger::{Blank, Ledger};

/// Why a day can't be closed, in the order of the checks.
#[derive(Clone, Copy, Debug, PartialEq, Eq)]
pub enum CloseError {
    /// Refusal 24: the day is already closed singly.
    AlreadyClosed,
    /// Refusal 21: 400 single days are already closed.
    Full,
    /// No memory was left.
    Memory,
}

/// Why a day can't be reopened.
#[derive(Clone, Copy, Debug, PartialEq, Eq)]
pub enum ReopenError {
    /// Refusal 25: the day is not closed singly.
    NotClosed,
}

/// The closed days of a branch: weekdays, and at most 400 single days.
#[derive(Drop)]
pub struct Calendar {
    weekly: Weekdays,
    single: Singles,
}

impl Model for Calendar {
    ghost use Rattle.calendar.specs.Openings.{AreClosings, Closings};
    ghost use Rattle.calendar.specs.Weeks.{IsRising};

    ghost Value = { Closings };

    ghost view = { λ a. record { weekly = a.weekly; single = a.single } };

    ghost invariant = { λ a. AreClosings (record { weekly = a.weekly; single = a.single })
        × IsRising a.single };
}

impl Calendar {
    /// Makes a calendar without single closed days.
    pub fn new(alloc: Global, weekly: Weekdays) -> Calendar
        ensures value { result ≡ record { weekly = weekly; single = [] } }
        ensures closings { AreClosings result }
    {
        // Reading the mask shows the prover that some weekday is open.
        let _closed = weekly.closed();
        Calendar {
            weekly,
            single: Singles::new(alloc),
        }
    }

    /// Makes a calendar with these single closed days, in any order: refusal 24 if one occurs
    /// twice, otherwise 21 if there are more than 400.
    pub fn with_closed_days(
        alloc: Global,
        weekly: Weekdays,
        days: &[Day],
    ) -> Result<Calendar, CloseError>
        ensures already { (result ≡ Err CloseError.AlreadyClosed) ↔ (has_repeat days.now ≡ true) }
        ensures full { (result ≡ Err CloseError.Full)
            ↔ ((has_repeat days.now ≡ false) × (MOST_CLOSED_DAYS < length days.now)) }
        ensures ok { IfOk result (λ c. ClosesExactly c weekly days.now) }
        ensures closings { IfOk result AreClosings }
    {
        if has_repeat(days) {
            return Err(CloseError::AlreadyClosed);
        }
        if days.len() > MOST_CLOSED_DAYS {
            return Err(CloseError::Full);
        }
        let mut calendar = Calendar::new(alloc, weekly);
        for day in days {
            calendar.close(*day)?;
        }
        Ok(calendar)
    }

    /// Returns whether a day is open.
    pub fn is_open(&self, day: Day) -> bool
        ensures { result ≡ is_open self.now day }
    {
        !self.weekly.is_closed_on(day.number()) && !self.is_closed_singly(day)
    }

    /// Returns whether a day is closed singly.
    pub fn is_closed_singly(&self, day: Day) -> bool
        ensures { result ≡ is_single self.now day }
    {
        uncounted_place::<Brand>(&self.single, day, Blank::new(1)).is_ok()
    }

    /// Returns whether 400 single days are closed, the most allowed.
    pub fn is_full(&self) -> bool
        ensures full { IsTrue result ↔ (length self.now.single ≡ MOST_CLOSED_DAYS) }
        ensures closings { AreClosings self.now }
    {
        self.single.len() == MOST_CLOSED_DAYS
    }

    /// Returns the least open day from `day` on, if the calendar has one. It is at most 2806 days
    /// later: 400 single days cannot close an open weekday for 401 weeks.
    pub fn least_open(&self, day: Day) -> Option<Day>
        ensures some { IfSome result (IsLeastOpen self.now day) }
        ensures none { IfNone result ((k : ℕ) → day ≤ k → is_open self.now k ≡ false) }
        ensures near { IfSome result (λ e. e ≤ day + 2806) }
        ensures found { day + 2806 ≤ LAST_DAY → IsSome result }
    {
        uncounted_least_open::<Brand>(self, day, Blank::new(1))
    }

    /// Like `least_open`; `steps` counts the single closed days looked at: at most 409, 9 in a
    /// search and 400 in sequence.
    pub fn counted_least_open<L: Ledger>(&self, day: Day, steps: &mut Steps<L>) -> Option<Day>
        ensures some { IfSome result (IsLeastOpen self.now day) }
        ensures none { IfNone result ((k : ℕ) → day ≤ k → is_open self.now k ≡ false) }
        ensures near { IfSome result (λ e. e ≤ day + 2806) }
        ensures found { day + 2806 ≤ LAST_DAY → IsSome result }
        ensures cost { steps.new ≤ steps.old + 409 }
    {
        // Reading the number shows the prover that the day is in the calendar.
        let _number = day.number();
        let open = first_open(self.weekly, &self.single.counted(), day, steps);
        Day::new(open)
    }

    /// Counts the open days after `due`, up to `today`.
    pub fn open_days_after(&self, due: Day, today: Day) -> u32
        ensures { result ≡ open_days_after self.now due today }
    {
        uncounted_open_days::<Brand>(self, due, today, Blank::new(1))
    }

    /// Like `open_days_after`; `steps` counts the single closed days looked at: at most 418, 9 in
    /// each of two searches and 400 in sequence.
    pub fn counted_open_days_after<L: Ledger>(
        &self,
        due: Day,
        today: Day,
        steps: &mut Steps<L>,
    ) -> u32
        ensures count { result ≡ open_days_after self.now due today }
        ensures cost { steps.new ≤ steps.old + 418 }
    {
        let first = due.number();
        let days = today.number().saturating_sub(first);
        let week = self.weekly.open_among(first, 7);
        let rest = self.weekly.open_among(first, days % 7);
        let closed = count_between(self.weekly, &self.single.counted(), due, today, steps);
        days / 7 * week + rest - closed
    }

    /// Closes a single day. Changes nothing if refused or out of memory.
    pub fn close(&mut self, day: Day) -> Result<(), CloseError>
        ensures already { (result ≡ Err CloseError.AlreadyClosed)
            ↔ (is_single self.old day ≡ true) }
        ensures full { (result ≡ Err CloseError.Full)
            ↔ ((is_single self.old day ≡ false) × (length self.old.single ≡ MOST_CLOSED_DAYS)) }
        ensures ok { OnOk result (ClosesOnly self.old self.new day) }
        ensures err { OnErr result (self.new ≡ self.old) }
        ensures closings { AreClosings self.new }
    {
        // Reading the number shows the prover that the day is in the calendar.
        let _number = day.number();
        let Err(place) = uncounted_place::<Brand>(&self.single, day, Blank::new(1)) else {
            return Err(CloseError::AlreadyClosed);
        };
        if self.is_full() {
            return Err(CloseError::Full);
        }
        let Ok(()) = self.single.insert(place, day) else {
            return Err(CloseError::Memory);
        };
        Ok(())
    }

    /// Reopens a single closed day. Changes nothing if refused.
    pub fn reopen(&mut self, day: Day) -> Result<(), ReopenError>
        ensures refused { (result ≡ Err ReopenError.NotClosed) ↔ (is_single self.old day ≡ false) }
        ensures ok { OnOk result (ReopensOnly self.old self.new day) }
        ensures err { OnErr result (self.new ≡ self.old) }
        ensures closings { AreClosings self.new }
    {
        let Ok(place) = uncounted_place::<Brand>(&self.single, day, Blank::new(1)) else {
            return Err(ReopenError::NotClosed);
        };
        self.single.remove(place);
        Ok(())
    }
}

/// Returns whether a day occurs twice.
fn has_repeat(days: &[Day]) -> bool
    ensures { result ≡ has_repeat days.now }
{
    let mut rest = days;
    while let [first, others @ ..] = rest {
        if others.contains(first) {
            return true;
        }
        rest = others;
    }
    false
}

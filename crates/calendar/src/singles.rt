//! The single closed days of a branch.
ghost use Rattle.std.specs.Prelude.{◌≡◌, ◌+◌, ◌<◌, ◌≤◌, [], length, OnOk, OnErr};
ghost use Rattle.std.specs.Prelude.{slice_index, insert, remove};

use crate::Memory;
use crate::day::Day;
use crate::steps::Steps;
use std::alloc::Global;
use std::marker::{Model, PhantomData};
use std::sync::ledger::Ledger;

/// The single closed days, earliest first. They are read only through `counted`.
#[derive(Drop)]
pub struct Singles {
    days: Vec<Day>,
}

impl Model for Singles {
    ghost use Rattle.std.specs.Prelude.{List, ℕ};

    ghost Value = { List ℕ };

    ghost view = { λ a. a.days.items };
}

impl Singles {
    /// Makes an empty list.
    pub fn new(alloc: Global) -> Singles
        ensures { result ≡ [] }
    {
        Singles {
            days: Vec::new(alloc),
        }
    }

    /// Returns the number of days.
    pub fn len(&self) -> usize
        ensures { result ≡ length self.now }
    {
        self.days.len()
    }

    /// Returns the same days for a counted call.
    pub fn counted<L: Ledger>(&self) -> CountedSingles<'_, L>
        ensures { result ≡ self.now }
    {
        CountedSingles {
            singles: self,
            ledger: PhantomData,
        }
    }

    /// Inserts a day at an index. Changes nothing if memory runs out.
    pub fn insert(&mut self, index: usize, day: Day) -> Result<(), Memory>
        requires { index ≤ length self.old }
        ensures ok { OnOk result (self.new ≡ insert self.old index day) }
        ensures err { OnErr result (self.new ≡ self.old) }
    {
        self.days.insert(index, day)?;
        Ok(())
    }

    /// Removes the day at an index.
    pub fn remove(&mut self, index: usize)
        requires { index < length self.old }
        ensures { self.new ≡ remove self.old index }
    {
        self.days.remove(index);
    }
}

/// The single closed days in a call counted by the ledger `L`. Looking at one of them is a step of
/// that ledger, and a call generic in the ledger can't make a counter for it.
#[derive(Drop)]
pub struct CountedSingles<'a, L: Ledger> {
    singles: &'a Singles,
    ledger: PhantomData<L>,
}

impl<'a, L: Ledger> Model for CountedSingles<'a, L> {
    ghost use Rattle.std.specs.Prelude.{List, ℕ};

    ghost Value = { List ℕ };

    ghost view = { λ a. a.singles.now };
}

impl<L: Ledger> CountedSingles<'_, L> {
    /// Returns the number of days.
    pub fn len(&self) -> usize
        ensures { result ≡ length self.now }
    {
        self.singles.len()
    }

    /// Returns the day at an index, in one step.
    pub fn at(&self, index: usize, steps: &mut Steps<L>) -> Day
        requires { index < length self.now }
        ensures day { result ≡ slice_index self.now index }
        ensures ticked { steps.new ≡ steps.old + 1 }
    {
        steps.tick();
        let singles = self.singles;
        singles.days[index]
    }
}

//! Numbers, typed by what they number.

ghost use Rattle.std.specs.Prelude.{◌≡◌, ◌<◌, ◌≤◌, ◌^◌, ℕ};
ghost use Rattle.terms.specs.declared.limits.TheConstants.{LARGEST_SUM};

use std::fmt;
use std::marker::{Model, PhantomData};

/// A number of something; `T` says of what.
#[derive_where(Clone, Copy, Debug, PartialEq, Eq)]
pub struct Number<T> {
    number: u32,
    of: PhantomData<T>,
}

impl<T> Model for Number<T> {
    ghost Value = { ℕ };

    ghost view = { λ x. x.number };

    ghost inverse = { λ n. record { number = n; of = record {} } };
}

impl<T> Number<T> {
    /// Makes a number, within its limits or not.
    pub const fn new(number: u32) -> Self
        ensures { result ≡ number }
    {
        Number {
            number,
            of: PhantomData,
        }
    }

    /// Returns the number.
    pub const fn number(self) -> u32
        ensures value { result ≡ self }
        ensures fits { self < 2 ^ 32 }
    {
        let Number { number, of: _ } = self;
        number
    }
}

/// The content of an unused place: 0, which numbers nothing.
impl<T> Default for Number<T> {
    fn default() -> Self {
        Number::new(0)
    }
}

impl<T> fmt::Display for Number<T> {
    ghost use Rattle.std.specs.Prelude.{Some};
    ghost use Rattle.std.specs.Fmt.{decimal};

    ghost output = { λ x. Some (decimal x) };

    fn fmt<W: fmt::Write>(&self, f: &mut fmt::Formatter<W>) -> fmt::Result {
        let number = self.number;
        write!(f, "{number}")
    }
}

// What numbers are of. These types have no values: they keep numbers of different things apart.

/// A branch of the library.
pub enum OfBranch {}

/// A patron.
pub enum OfPatron {}

/// A title.
pub enum OfTitle {}

/// A copy of a title.
pub enum OfCopy {}

/// A loan.
pub enum OfLoan {}

/// A hold.
pub enum OfHold {}

/// A line of an account.
pub enum OfLine {}

/// A kind of patron.
pub enum OfPatronKind {}

/// A kind of copy.
pub enum OfCopyKind {}

/// A day of a period.
pub enum OfDay {}

/// A day, counted from 1970-01-01.
pub enum OfCalendar {}

/// A loan, a hold or a renewal, when only counted.
pub enum OfCount {}

/// A branch number.
pub type BranchId = Number<OfBranch>;

/// A patron number.
pub type PatronId = Number<OfPatron>;

/// A title number.
pub type TitleId = Number<OfTitle>;

/// A copy number.
pub type CopyId = Number<OfCopy>;

/// A loan number. Loans are numbered from 1 in the order they are made.
pub type LoanId = Number<OfLoan>;

/// A hold number. Holds are numbered from 1 in the order they are placed.
pub type HoldId = Number<OfHold>;

/// The number of an account line. Lines are numbered from 1 across all patrons.
pub type LineId = Number<OfLine>;

/// The number of a kind of patron.
pub type PatronKind = Number<OfPatronKind>;

/// The number of a kind of copy.
pub type CopyKind = Number<OfCopyKind>;

/// A number of days: a loan period or a pick-up period.
pub type Days = Number<OfDay>;

/// The number of a day, counted from 1970-01-01. Unlike a `Day`, it can lie outside the calendar.
pub type DayNumber = Number<OfCalendar>;

/// The number of loans, holds or renewals allowed or left.
pub type Count = Number<OfCount>;

/// An amount of money in whole cents, small enough for a column of the tables.
#[derive(Clone, Copy, Debug, PartialEq, Eq)]
pub struct Cents(u64);

impl Model for Cents {
    ghost use Rattle.std.specs.Prelude.{◌≤◌, ℕ};
    ghost use Rattle.terms.specs.declared.limits.TheConstants.{LARGEST_SUM};

    ghost Value = { ℕ };

    ghost view = { λ x. x.0 };

    ghost invariant = { λ x. x.0 ≤ LARGEST_SUM };

    ghost inverse = { λ n. record { 0 = n } };
}

impl Cents {
    /// Makes an amount of cents, within the limits of its kind or not.
    pub const fn new(number: u64) -> Self
        requires { number ≤ LARGEST_SUM }
        ensures { result ≡ number }
    {
        Cents(number)
    }

    /// Returns the number.
    pub const fn number(self) -> u64
        ensures value { result ≡ self }
        ensures fits { self ≤ LARGEST_SUM }
    {
        let Cents(number) = self;
        number
    }
}

impl fmt::Display for Cents {
    ghost use Rattle.std.specs.Prelude.{Some};
    ghost use Rattle.std.specs.Fmt.{decimal};

    ghost output = { λ x. Some (decimal x) };

    fn fmt<W: fmt::Write>(&self, f: &mut fmt::Formatter<W>) -> fmt::Result {
        let number = self.0;
        write!(f, "{number}")
    }
}

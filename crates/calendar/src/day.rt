//! Days, their numbers and their texts.
ghost use Rattle.std.specs.Prelude.{◌≡◌, ◌≢◌, ◌-◌, ◌<◌, ◌≤◌, ◌∷◌, [], pos, IfSome, IfOk, ℕ, IfNone};
ghost use Rattle.std.specs.Prelude.{string_bytes};
ghost use Rattle.std.specs.Option.{SomeIff};
ghost use Rattle.jiff_core.specs.Calendar.{IsCivilDate, days_from_civil};
ghost use Rattle.calendar.specs.Days.{IsDayNumber, IsDateOf, two_digits, date_text, day_text};
ghost use Rattle.calendar.specs.Days.{civil_of};

use crate::Memory;
use crate::limits::{FIRST_DAY, LAST_DAY};
use jiff::civil::Date;
use std::alloc::Global;
use std::fmt;
use std::marker::Model;

/// A day from 2000-01-01 to 2199-12-31.
#[derive(Clone, Copy, Debug, PartialEq, Eq, PartialOrd, Ord)]
pub struct Day {
    number: u32,
}

impl Model for Day {
    ghost use Rattle.std.specs.Prelude.{ℕ};
    ghost use Rattle.std.specs.Coded.{coded_ℕ};
    ghost use Rattle.calendar.specs.Days.{IsDayNumber};

    ghost Value = { ℕ };

    ghost coded = { coded_ℕ };

    ghost view = { λ a. a.number };

    ghost invariant = { λ a. IsDayNumber a.number };

    ghost inverse = { λ n. record { number = n } };
}

impl Day {
    /// 2000-01-01.
    pub const FIRST: Day = Day { number: FIRST_DAY };

    /// 2199-12-31.
    pub const LAST: Day = Day { number: LAST_DAY };

    /// Makes the day with this number, if the calendar has it.
    pub fn new(number: u32) -> Option<Day>
        ensures { SomeIff result (IsDayNumber number) number }
    {
        if FIRST_DAY <= number && number <= LAST_DAY {
            Some(Day { number })
        } else {
            None
        }
    }

    /// Returns the number of days since 1970-01-01.
    pub fn number(self) -> u32
        ensures value { result ≡ self }
        ensures bound { IsDayNumber result }
    {
        self.number
    }

    /// Reads a date `YYYY-MM-DD`, in exactly ten characters. Reads back what `text` writes.
    pub fn read(text: &str) -> Option<Day>
        ensures some { IfSome result (λ d. text.now ≡ day_text d) }
        ensures none { IfNone result ((n : ℕ) → IsDayNumber n → text.now ≢ day_text n) }
        ensures text_of_a_day { (n : ℕ) → IsDayNumber n → text.now ≡ day_text n → result ≡ Some n }
        ensures in_range { IfSome result IsDayNumber }

        // The same in terms of `jiff`'s calendar.
        ensures date { IfSome result (IsDateOf text.now) }
        ensures date_of_a_day { (n : ℕ) → IsDayNumber n → IsDateOf text.now n → result ≡ Some n }
    {
        let Some(number) = number_of(text) else {
            return None;
        };
        Day::new(number)
    }

    /// Writes a day as `YYYY-MM-DD`.
    pub fn text(self, alloc: Global) -> Result<String, Memory>
        ensures text { IfOk result (λ s. string_bytes s ≡ day_text self) }
        ensures date { IsDateOf (day_text self) self }
    {
        // Reading the field shows the prover that the day is in the calendar.
        let _ = &self.number;
        format!(in alloc; "{self}")
    }

    /// Writes a day as `YYYY-MM-DD` in ASCII. Takes no memory.
    pub fn ascii(self) -> [u8; 10]
        ensures { result ≡ day_text self }
    {
        let (year, month, day) = parts(self.number);
        let century = (year / 100) as u8;
        let rest = (year % 100) as u8;
        [
            b'0' + century / 10,
            b'0' + century % 10,
            b'0' + rest / 10,
            b'0' + rest % 10,
            b'-',
            b'0' + month / 10,
            b'0' + month % 10,
            b'-',
            b'0' + day / 10,
            b'0' + day % 10,
        ]
    }
}

impl fmt::Display for Day {
    ghost use Rattle.std.specs.Prelude.{Some};
    ghost use Rattle.calendar.specs.Days.{day_text};

    ghost output = { λ day. Some (day_text day) };

    fn fmt<W: fmt::Write>(&self, f: &mut fmt::Formatter<W>) -> fmt::Result {
        let (year, month, day) = parts(self.number);
        let century = (year / 100) as u8;
        let rest = (year % 100) as u8;
        let thousands = century / 10;
        let hundreds = century % 10;
        let tens = rest / 10;
        let ones = rest % 10;
        let month_tens = month / 10;
        let month_ones = month % 10;
        let day_tens = day / 10;
        let day_ones = day % 10;
        write!(
            f,
            "{thousands}{hundreds}{tens}{ones}-{month_tens}{month_ones}-{day_tens}{day_ones}"
        )
    }
}

/// Returns the day number of a date from 1970 on.
fn number_of(text: &str) -> Option<u32>
    ensures some { IfSome result (λ n. IsDateOf text.now n) }
    ensures none { IfNone result ((n : ℕ) → IsDateOf text.now n → ⊥) }
{
    let (year, month, day) = cut(text)?;
    civil_day(year, month, day)
}

/// Returns the year, month and day of a day number.
fn parts(number: u32) -> (u16, u8, u8)
    requires { number ≤ 2_932_896 }
    ensures year { (result.0 ≡ (civil_of number).year) × (result.0 ≤ 9999) }
    ensures month { (result.1 ≡ (civil_of number).month) × (result.1 ≤ 12) }
    ensures day { (result.2 ≡ (civil_of number).day) × (result.2 ≤ 31) }
{
    let date = jiff_core::civil::Date::from_unix_epoch_day(number as i64).unwrap();
    (date.year as u16, date.month, date.day)
}

/// Returns the day number of a date from 1970 on, if the date exists.
fn civil_day(year: u16, month: u8, day: u8) -> Option<u32>
    requires four { year ≤ 9999 }
    requires two { (month < 100) × (day < 100) }
    ensures some { IfSome result (λ n. IsCivilDate (pos year) month day
        × (days_from_civil (pos year) month day ≡ pos n)) }
    ensures none { IfNone result ((n : ℕ) → IsCivilDate (pos year) month day
        → days_from_civil (pos year) month day ≡ pos n → ⊥) }
{
    let Ok(date) = Date::new(year as i16, month as i8, day as i8) else {
        return None;
    };
    let number = date.to_plain().to_unix_epoch_day();
    if number < 0 {
        None
    } else {
        Some(number as u32)
    }
}

/// Returns a digit's value.
fn digit(byte: u8) -> Option<u8>
    ensures { SomeIff result ((48 ≤ byte) × (byte ≤ 57)) (byte - 48) }
{
    if byte.is_ascii_digit() {
        Some(byte - b'0')
    } else {
        None
    }
}

/// Reads a number of two digits.
fn pair(high: u8, low: u8) -> Option<u8>
    ensures some { IfSome result (λ n. (n < 100) × (two_digits n ≡ high ∷ low ∷ [])) }
    ensures none { IfNone result ((n : ℕ) → n < 100 → two_digits n ≡ high ∷ low ∷ [] → ⊥) }
{
    Some(digit(high)? * 10 + digit(low)?)
}

/// Splits a date text into year, month and day.
fn cut(text: &str) -> Option<(u16, u8, u8)>
    ensures some { IfSome result (λ p. (p.0 ≤ 9999) × (p.1 < 100) × (p.2 < 100)
        × (text.now ≡ date_text p.0 p.1 p.2)) }
    ensures none { IfNone result ((y m d : ℕ) → y ≤ 9999 → m < 100 → d < 100
        → text.now ≡ date_text y m d → ⊥) }
{
    let [a, b, c, d, b'-', e, f, b'-', g, h] = text.as_bytes() else {
        return None;
    };
    let century = pair(*a, *b)?;
    let year = pair(*c, *d)?;
    Some((
        century as u16 * 100 + year as u16,
        pair(*e, *f)?,
        pair(*g, *h)?,
    ))
}

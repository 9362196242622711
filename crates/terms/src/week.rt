//! Closed weekdays, as the desk writes them.

ghost use Rattle.std.specs.Prelude.{◌≡◌, ◌≢◌, Bool, List, length, not, true, Some, IfSome, IfNone};
ghost use Rattle.std.specs.Prelude.{if◌then◌else◌, ◌∷◌, []};
ghost use Rattle.std.specs.List.{list_any};
ghost use Rattle.std.specs.Option.{SomeIff};
ghost use Rattle.terms.specs.Texts.{mask_text};

use calendar::Weekdays;
use std::fmt;
use std::marker::Model;

/// A mask of closed weekdays, Monday first, possibly all seven: the argument of the `week` command.
#[derive(Clone, Copy, PartialEq, Eq)]
pub struct Mask {
    closed: [bool; 7],
}

impl Model for Mask {
    ghost use Rattle.std.specs.Prelude.{List, Bool};

    ghost Value = { List Bool };

    ghost view = { λ a. a.closed };

    ghost inverse = { λ days. record { closed = days } };
}

impl Mask {
    /// Makes the mask with these weekdays closed, Monday first.
    pub fn new(closed: [bool; 7]) -> Mask
        ensures { result ≡ closed }
    {
        Mask { closed }
    }

    /// Reads a mask of seven letters, `o` for open and `c` for closed.
    pub fn read(text: &str) -> Option<Mask>
        ensures some { IfSome result (λ m. text.now ≡ mask_text m) }
        ensures none { IfNone result ((closed : List Bool) → length closed ≡ 7
            → text.now ≢ mask_text closed) }
    {
        let [a, b, c, d, e, f, g] = text.as_bytes() else {
            return None;
        };
        let closed = [
            is_closed(*a)?,
            is_closed(*b)?,
            is_closed(*c)?,
            is_closed(*d)?,
            is_closed(*e)?,
            is_closed(*f)?,
            is_closed(*g)?,
        ];
        Some(Mask { closed })
    }

    /// Returns whether each weekday is closed, Monday first.
    pub fn closed(self) -> [bool; 7]
        ensures value { result ≡ self }
        ensures seven { length self ≡ 7 }
    {
        self.closed
    }

    /// Returns the closed weekdays, unless all seven are closed.
    pub fn weekdays(self) -> Option<Weekdays>
        ensures { SomeIff result (list_any (λ b. not b) self ≡ true) self }
    {
        let closed = self.closed;
        Weekdays::new(closed)
    }
}

/// Reads a weekday's letter: closed or not.
fn is_closed(letter: u8) -> Option<bool>
    ensures some { IfSome result (λ closed. letter ≡ (if closed then 99 else 111)) }
    ensures none { IfNone result ((closed : Bool) → letter ≢ (if closed then 99 else 111)) }
{
    match letter {
        b'c' => Some(true),
        b'o' => Some(false),
        _ => None,
    }
}

/// Returns the letter of a weekday.
fn letter(closed: bool) -> &'static str
    ensures { result.now ≡ (if closed then 99 else 111) ∷ [] }
{
    if closed { "c" } else { "o" }
}

impl From<Weekdays> for Mask {
    ghost from_gives = { λ days mask. mask ≡ days };

    fn from(days: Weekdays) -> Mask {
        let closed = days.closed();
        Mask::new(closed)
    }
}

impl fmt::Display for Mask {
    ghost use Rattle.std.specs.Prelude.{Some};
    ghost use Rattle.terms.specs.Texts.{mask_text};

    ghost output = { λ mask. Some (mask_text mask) };

    fn fmt<W: fmt::Write>(&self, f: &mut fmt::Formatter<W>) -> fmt::Result {
        let closed = self.closed;
        let (monday, tuesday) = (letter(closed[0]), letter(closed[1]));
        let (wednesday, thursday) = (letter(closed[2]), letter(closed[3]));
        let (friday, saturday) = (letter(closed[4]), letter(closed[5]));
        let sunday = letter(closed[6]);
        write!(
            f,
            "{monday}{tuesday}{wednesday}{thursday}{friday}{saturday}{sunday}"
        )
    }
}

//! Beginnings of the list.

ghost use Rattle.std.specs.Prelude.{◌≡◌, ◌<◌, IsTrue, IsFalse, length};
ghost use mathlib.Core.List.{IsPrefix};
ghost use Rattle.chronicle.specs.Growing.{known};

use crate::law::LengthRule;
use logbook::Seen;
use std::marker::Model;

/// A beginning of a list, as seen. Contracts see which list it is, and its items.
#[derive(Drop)]
pub struct Beginning<E> {
    count: u64,
    pub(crate) seen: Seen<E, (), LengthRule>,
}

impl<E> Model for Beginning<E> {
    ghost use Rattle.std.specs.Prelude.{◌≡◌, length};
    ghost use Rattle.chronicle.specs.Growing.{Known, known};

    ghost Value = { Known E };

    ghost view = { λ b. known b.seen.book b.seen.log };

    ghost invariant = { λ b. b.count ≡ length b.seen.log };
}

impl<E> Beginning<E> {
    /// Makes it from what was seen, with the number of items.
    pub(crate) fn over(seen: Seen<E, (), LengthRule>, count: u64) -> Beginning<E>
        requires { count ≡ length seen.log }
        ensures { result ≡ known seen.book seen.log }
    {
        Beginning { count, seen }
    }

    /// Returns the number of items.
    pub fn len(&self) -> u64
        ensures { result ≡ length self.now.items }
    {
        self.count
    }

    /// Returns a copy.
    pub fn again(&self) -> Beginning<E>
        ensures { result ≡ self.now }
    {
        Beginning {
            count: self.count,
            seen: self.seen.again(),
        }
    }

    /// Returns whether the other beginning of the same list has at least as many items: then it
    /// extends this one.
    pub fn begins(&self, other: &Beginning<E>) -> bool
        requires { self.now.book ≡ other.now.book }
        ensures yes { IsTrue result → IsPrefix self.now.items other.now.items }
        ensures no { IsFalse result → length other.now.items < length self.now.items }
    {
        let mut both = self.seen.again();
        both.learn(&other.seen);
        self.count <= other.count
    }
}

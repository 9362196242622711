//! The side that adds to the list.

ghost use Rattle.std.specs.Prelude.{◌≡◌, ◌+◌, ◌++◌, ◌∷◌, ◌<◌, ◌^◌, [], length, MatchBool};
ghost use Rattle.chronicle.specs.Growing.{known};

use crate::beginning::Beginning;
use crate::law::{Add, LengthRule, Nothing};
use logbook::{Offer, Plain, Seen, Start, Word};
use std::marker::{Model, PhantomData};
use std::sync::Wait;

/// The item that a value adds to the list.
pub trait Item<X, E> {
    ghost item: { X → E };
}

/// Asks for this item in a step.
struct Asking<I> {
    of: PhantomData<I>,
}

impl<X, E, I: Item<X, E>> Plain<X, E, ()> for Asking<I> {
    ghost use Rattle.std.specs.Prelude.{None};

    ghost ask = { I.item };

    ghost state = { λ about. None };
}

/// The list: a counter of its items. Contracts see which list it is.
#[derive(Drop)]
pub struct Chronicle<E> {
    head: Word<E, (), LengthRule>,
}

impl<E> Model for Chronicle<E> {
    ghost use Rattle.std.specs.Prelude.{◌≡◌};
    ghost use Rattle.logbook.specs.Pages.{Book, book_coded};
    ghost use Rattle.chronicle.specs.Growing.{head_of};

    ghost Value = { Book };

    ghost coded = { book_coded };

    ghost view = { λ c. c.head.book };

    ghost invariant = { λ c. c.head ≡ head_of c.head.book };
}

impl<E> Chronicle<E> {
    /// Makes a new list, with its empty beginning.
    pub fn new() -> (Chronicle<E>, Beginning<E>)
        ensures { result.1 ≡ known result.0 [] }
    {
        let (seen, mut first, _second) = Seen::open(Start::alone(), 0, 0);
        let head = Word::tracked(0, &mut first);
        (Chronicle { head }, Beginning::over(seen, 0))
    }

    /// Adds an item to a beginning, if that is the whole list.
    fn try_add<X, I: Item<X, E>>(&self, whole: &mut Beginning<E>, about: &X) -> bool
        requires list { whole.old.book ≡ self.now }
        requires room { length whole.old.items + 1 < 2 ^ 64 }
        ensures { MatchBool result
            (whole.new ≡ known self.now (whole.old.items ++ I.item about.now ∷ []))
            (whole.new ≡ whole.old) }
    {
        let count = whole.len();
        let mut seen = whole.seen.again();
        let mut offer: Offer<E, (), LengthRule, Nothing> = seen.plain::<Nothing, X, Asking<I>>(
            about,
        );
        let mut pen = seen.no_pen();
        let found = self
            .head
            .compare_exchange::<Add, Nothing>(count, count + 1, &mut seen, &mut offer, &mut pen);
        if found != count {
            return false;
        }
        *whole = Beginning::over(seen, count + 1);
        true
    }

    /// Adds an item to a beginning that is the whole list. The adding side knows the whole list; if
    /// not, this waits forever.
    pub fn add<X, I: Item<X, E>, R: Wait>(&self, rt: &R, whole: &mut Beginning<E>, about: &X)
        requires list { whole.old.book ≡ self.now }
        requires room { length whole.old.items + 1 < 2 ^ 64 }
        ensures { whole.new ≡ known self.now (whole.old.items ++ I.item about.now ∷ []) }
    {
        'tries: for _ in rt.forever() {
            if self.try_add::<X, I>(whole, about) {
                break;
            }
        }
    }
}

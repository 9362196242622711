//! The rule of the board: it shows the result of all that was shown, which only grows.

use crate::board::Board;
use crate::entry::Sight;
use crossbeam_utils::rule::{Outcome, Protocol};
use std::marker::{Brand, PhantomData};

/// The identity of a board: it names what is shown, so that two boards can't be mixed. Open and use
/// a board inside one function generic in this, and call that with `Brand`.
pub trait Naming {
    ghost use Rattle.logbook.specs.Pages.{Book};

    ghost book: { Book };
}

impl Naming for Brand {
    ghost use Rattle.board.specs.Rule.{no_book};

    ghost book = { no_book };
}

/// The rule of the board with this name.
pub struct OneList<J> {
    of: PhantomData<J>,
}

impl<J: Naming> Protocol<Board, Sight> for OneList<J> {
    ghost use Rattle.board.specs.Rule.{KeepsBoard, no_look};

    ghost holds = { KeepsBoard J.book };

    ghost first = { no_look };
}

/// A reader looks at the board.
pub struct Look<J> {
    of: PhantomData<J>,
}

impl<J: Naming> Outcome<Board, Sight> for Look<J> {
    ghost use Rattle.board.specs.Rule.{LooksAtBoard};

    ghost then = { LooksAtBoard J.book };
}

/// One more frame is shown.
pub struct Publish;

impl Outcome<Board, Sight> for Publish {
    ghost use Rattle.board.specs.Rule.{Publishes};

    ghost then = { Publishes };
}

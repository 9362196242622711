//! What workers are told of the submission at which a hall closes.

ghost use Rattle.std.specs.Prelude.{◌≡◌, ◌<◌, ◌∷◌, [], IsTrue, IsFalse, Some, length};
ghost use Rattle.board.specs.Showing.{StartsWith};
ghost use Rattle.chronicle.specs.Growing.{known};
ghost use Rattle.hall.specs.Closings.{told_of};

use crate::opening::Opening;
use board::WorkerId;
use chronicle::{Beginning, Chronicle, Item};
use std::marker::{Model, PhantomData};
use std::sync::Wait;
use terms::ServiceFault;

/// The submission at which a hall closes. It has no reply; its worker is told this fault.
#[derive(Clone, Copy)]
pub struct Closing {
    pub worker: WorkerId,
    pub number: u64,
    pub fault: ServiceFault,
}

/// Someone to notify when a hall closes, besides the submitters.
pub trait Watch {
    /// Called when this fault has closed the hall.
    fn closed(&mut self, fault: ServiceFault);
}

impl Closing {
    /// Returns the fault for a submission after the hall has closed: this fault for this
    /// submission, else 92.
    pub(crate) fn fault_of(&self, worker: WorkerId, number: u64) -> ServiceFault
        ensures { told_of (self.now ∷ []) worker number ≡ Some result }
    {
        if self.worker.number() == worker.number() && self.number == number {
            self.fault
        } else {
            ServiceFault::Closed
        }
    }
}

/// What is known of a hall's closing. Contracts see the submission at which it closed, if known; at
/// run time it is a counter.
#[derive(Drop)]
pub struct KnownClosing<J: Opening> {
    list: Beginning<Closing>,
    of: PhantomData<J>,
}

impl<J: Opening> Model for KnownClosing<J> {
    ghost use Rattle.std.specs.Prelude.{◌≡◌, List};
    ghost use Rattle.hall.specs.declared.closing.Closing.{Closing};

    ghost Value = { List Closing };

    ghost view = { λ k. k.list.items };

    ghost invariant = { λ k. k.list.book ≡ J.name.closings };
}

impl<J: Opening> KnownClosing<J> {
    /// Returns a copy.
    pub(crate) fn again(&self) -> KnownClosing<J>
        ensures { result ≡ self.now }
    {
        KnownClosing {
            list: self.list.again(),
            of: PhantomData,
        }
    }

    /// Returns whether the other knows at least as much: then it extends this.
    pub(crate) fn begins(&self, other: &KnownClosing<J>) -> bool
        ensures yes { IsTrue result → StartsWith other.now self.now }
        ensures no { IsFalse result → length other.now < length self.now }
    {
        self.list.begins(&other.list)
    }
}

/// A closing is itself the item added to the list.
struct Closes;

impl Item<Closing, Closing> for Closes {
    ghost item = { λ c. c };
}

/// The desk's side of the list of closings, which has at most one. Contracts see the list.
#[derive(Drop)]
pub(crate) struct Closings<J: Opening> {
    chronicle: Chronicle<Closing>,
    list: Beginning<Closing>,
    of: PhantomData<J>,
}

impl<J: Opening> Model for Closings<J> {
    ghost use Rattle.std.specs.Prelude.{◌≡◌, List};
    ghost use Rattle.hall.specs.declared.closing.Closing.{Closing};

    ghost Value = { List Closing };

    ghost view = { λ c. c.list.items };

    ghost invariant = { λ c. (c.chronicle ≡ J.name.closings) × (c.list.book ≡ J.name.closings) };
}

impl<J: Opening> Closings<J> {
    /// Makes the side of an open hall.
    pub(crate) fn over(chronicle: Chronicle<Closing>, list: Beginning<Closing>) -> Closings<J>
        requires name { chronicle ≡ J.name.closings }
        requires none { list ≡ known J.name.closings [] }
        ensures { result ≡ [] }
    {
        Closings {
            chronicle,
            list,
            of: PhantomData,
        }
    }

    /// Returns what is known of it.
    pub(crate) fn known(&self) -> KnownClosing<J>
        ensures { result ≡ self.now }
    {
        KnownClosing {
            list: self.list.again(),
            of: PhantomData,
        }
    }

    /// Closes the hall.
    pub(crate) fn close<R: Wait>(&mut self, rt: &R, closing: &Closing)
        requires { self.old ≡ [] }
        ensures { self.new ≡ closing.now ∷ [] }
    {
        self.chronicle
            .add::<Closing, Closes, R>(rt, &mut self.list, closing);
    }
}

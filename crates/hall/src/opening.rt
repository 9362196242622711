//! The identity of a hall.

use board::Naming;
use std::marker::Brand;

/// The identity of a hall: it names the queue and the board of one opening, so that parts of two
/// halls can't be mixed, and the lists of accepted requests that the desk's tables show at the
/// opening. Open and run a hall inside one function generic in this, and call that with `Brand`.
pub trait Opening: Naming {
    ghost use Rattle.hall.specs.Names.{QueueName};
    ghost use Rattle.model.specs.History.{History};

    /// The name of its queue.
    ghost name: { QueueName };

    /// Says which lists of accepted requests the tables show when the hall is opened.
    ghost shows: { History → Type 0 };
}

impl Opening for Brand {
    ghost use Rattle.hall.specs.Names.{no_name};

    ghost name = { no_name };

    ghost shows = { λ _. ⊥ };
}

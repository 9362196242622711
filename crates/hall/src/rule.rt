//! The rule of the queue: what was received from a worker, followed by what is queued, is what it
//! sent, in order.

ghost use Rattle.std.specs.Prelude.{◌≡◌, ◌≤◌, ◌+◌, ◌++◌};
ghost use Rattle.hall.specs.Queue.{Carries, from, IsNext, AreHeard, desk_view, worker_view, spent};
ghost use Rattle.hall.specs.Queue.{joined, taken_in, sent_more, got_more};

use crate::messages::{Message, View};
use crossbeam_channel::protocol::{Join, Lesson, Outcome, Protocol, Split};

/// The rule itself.
pub struct InTurn;

impl Protocol<Message, View> for InTurn {
    ghost holds = { Carries };

    ghost first = { desk_view };
}

/// A worker's end is made.
pub struct Hires;

impl Split<View> for Hires {
    ghost left = { joined };

    ghost right = { λ v. worker_view (v.made + 1) };
}

/// The end of a departed worker is taken in.
pub struct TakesIn;

impl Join<View> for TakesIn {
    ghost both = { taken_in };

    ghost spent = { spent };
}

/// A message was sent.
pub struct Sends;

impl Outcome<Message, View> for Sends {
    ghost then = { λ v x w. w ≡ sent_more v x };
}

impl Lesson<Message, View> for Sends {
    ghost fact = { λ v items. Unit {0} };
}

/// A message was received.
pub struct Receives;

impl Outcome<Message, View> for Receives {
    ghost then = { λ v x w. (w ≡ got_more v x) × IsNext v.got x × (from x ≤ v.made) };
}

impl Lesson<Message, View> for Receives {
    ghost fact = { λ v items. Unit {0} };
}

/// What the workers whose ends were taken in had sent.
pub struct Total;

impl Lesson<Message, View> for Total {
    ghost fact = { λ v items. AreHeard (v.got ++ items) v.heard };
}

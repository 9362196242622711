//! The rule of the list.

use logbook::{Gain, Play, Rule};

/// The rule: the stored word is the list's length.
pub struct LengthRule;

impl<E> Rule<E, ()> for LengthRule {
    ghost use Rattle.std.specs.Prelude.{[]};
    ghost use base.Fml.{ftrue};
    ghost use Rattle.chronicle.specs.Growing.{IsCounted};

    ghost holds = { λ cells log. IsCounted cells log };

    ghost first = { [] };

    ghost hinted = { λ n log. Unit {0} };

    ghost shows = { λ log. [] };

    ghost keeps = { λ names log. ftrue };

    ghost moves = { λ ask before after answer. Unit {0} };
}

/// Nothing is traded.
pub(crate) struct Nothing;

impl<E> Gain<E, ()> for Nothing {
    ghost use base.Fml.{ftrue};

    ghost after = { λ names about answer. ftrue };
}

/// A step that adds an item, if the whole list was known.
pub(crate) struct Add;

impl<E> Play<E, ()> for Add {
    ghost use Rattle.chronicle.specs.Growing.{Adds};

    ghost then = { Adds };
}

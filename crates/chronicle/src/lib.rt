//! A list that only grows, for proofs: only they know its items, and at run time it is a counter.
//! One side adds to it; threads hold beginnings of it.
#![tactic(auto)]

mod beginning;
mod chronicle;
mod law;

pub use beginning::Beginning;
pub use chronicle::{Chronicle, Item};
pub use law::LengthRule;

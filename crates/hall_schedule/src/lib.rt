//! The state of the hall's queue, handled list and board after any schedule of steps.
#![tactic(auto)]

mod schedule;
#[cfg(test)]
mod tests;

pub use schedule::{Act, Item, PLACES, WORKERS, World, replay};

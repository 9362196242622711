//! Finding texts by words of theirs, whatever the case and the marks of their letters.
#![tactic(auto)]

mod folding;
mod searching;

pub use folding::LETTERS;
pub use searching::is_found;

//! The board of a hall: the last handled submission of each worker, and the page of each patron.
//! Workers read it without a lock while the desk works.
#![tactic(auto)]

mod board;
mod entry;
mod first;
mod pages;
mod publisher;
mod request;
mod rule;
mod stopped;
mod window;
mod worker_id;

pub use board::{Board, Update};
pub use entry::{Entry, Frame, Seen, Sight};
pub use first::First;
pub use publisher::{Blank, Publisher};
pub use request::SharedRequest;
pub use rule::Naming;
pub use stopped::StoppedBoard;
pub use window::{LastSeen, ReadError, Window};
pub use worker_id::WorkerId;

//! The hall: workers that submit requests, a queue, and the desk that handles them in turn.
#![tactic(auto)]

mod closing;
mod desk_side;
mod ended;
mod hall;
mod messages;
mod notices;
mod opening;
mod queue_ends;
mod rule;
mod worker;

pub use closing::{Closing, KnownClosing, Watch};
pub use desk_side::DeskSide;
pub use ended::Ended;
pub use hall::{Hall, HallFault, Why};
pub use messages::{LAST_SUBMISSION, Message, Sent, Submission, View};
pub use opening::Opening;
pub use queue_ends::{Heard, Inbox, Opened, Post};
pub use web::Routes;
pub use worker::{Left, Worker};

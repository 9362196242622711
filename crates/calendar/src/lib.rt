//! Days, and the days a branch is open.
#![tactic(auto)]

mod day;
mod limits;
mod opening;
mod search;
mod singles;
mod steps;
mod uncounted;
mod weekdays;

pub use day::Day;
pub use limits::{FIRST_DAY, LAST_DAY, MOST_CLOSED_DAYS};
pub use opening::{Calendar, CloseError, ReopenError};
pub use steps::Steps;
pub use weekdays::Weekdays;

/// The error when memory runs out.
pub type Memory = std::alloc::AllocError;

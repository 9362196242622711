//! The clerks of a desk: whose keys open it, and what each may send.
#![tactic(auto)]

mod clerk;
mod comparing;
mod list;

pub use clerk::{Clerk, Role};
pub use list::{Clerks, MOST_CLERKS};

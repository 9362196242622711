//! Messages for people, beside the lines that scripts read: the meaning of refusals and faults, and
//! usage.
#![tactic(auto)]

mod explaining;
mod findings;
mod meanings;
mod misread;
mod noting;
mod rows;
mod usage;

pub use explaining::{bad_row_in, explain};
pub use findings::{write_finding, write_old_row};
pub use meanings::meaning;
pub use misread::{Handler, explain_words, wanted, write_wanted};
pub use noting::{Noting, ToldLine};
pub use rows::{write_bad_row, write_bad_rows, write_lost_row};
pub use usage::{VERSION, write_usage, write_usage_of, write_version};

//! The work of each run: words or copies files in, lines out.
#![tactic(auto)]

mod arguments;
mod auditing;
mod checking;
mod connections;
mod importing;
mod lines;
mod listening;
mod migrating;
mod reports;
mod requests;
mod sending;
mod serving;
mod writing;

pub use arguments::{ArgumentForm, DeskKeys, Run, WrongArgument, read_run, wrong_argument};
pub use auditing::{Findings, audit, audit_all};
pub use checking::{check, unchecked};
pub use connections::{Connections, work};
pub use desk::Report;
pub use hall::Watch;
pub use importing::{import, unreadable};
pub use lines::{
    Exit, WriteFault, law_words, no_keys, no_network, not_understood, number_of, old_number,
    old_words, out_of_memory, tell_fault,
};
pub use listening::{Outgoing, Port};
pub use migrating::migrate;
pub use reports::report;
pub use requests::one;
pub use sending::send;
pub use serving::{Web, serve, serve_connections};

//! From words and files to commands.
#![tactic(auto)]

mod checking;
mod copies;
mod keys;
mod parser;
mod words;

pub use checking::{BadRow, CheckEnd, CopyCheck, RowFlaw, check_copies, checks_agree};
pub use copies::{CopyEnd, FileRow, MOST_ROWS, files_read_once, read_copies};
pub use keys::{KeysFault, keys_read_once, read_clerks};
pub use terms::WordFault;
pub use words::read_words;

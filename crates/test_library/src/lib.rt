//! What tests of the desk and the hall start from: a small library, requests by lines, and looks at
//! all rows.
#![tactic(auto)]

mod calls;
mod files;
mod lines;
mod scripts;

pub use calls::{
    connection, counts, desk_over, handle, in_memory, into_files, open, open_files, run, store_of,
};
pub use files::{calls_of_open, filled, fused, left, options};
pub use lines::{
    GROUND, asked, check, fill, ground, key, opened, request, rows, rows_of, runs, words_of,
};
pub use scripts::{GRACE, HOLDS, LATE, LOST, PAID, RENEWED, REOPENED, RETURNED, SCRIPTS};

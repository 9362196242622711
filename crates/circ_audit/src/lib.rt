//! The audit of a library's tables: five laws of all rows read, and the first of them that is
//! broken, or all numbers for which one is.
#![tactic(auto)]

mod auditing;
mod balance;
mod bindings;
mod claims;
mod counters;
mod doubled;
mod numbers;
mod parts;
mod references;
mod rows;
mod spans;

pub use auditing::{Finding, MOST_FINDINGS, audit, audit_all};
pub use doubled::{doubled_barcode, doubled_barcodes};
pub use numbers::Series;
pub use references::Table;

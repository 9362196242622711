//! Decisions: from the rows that a command needs to its refusal, or its reply and the changed rows.
//! Each command has a module of its name, here, in the definitions and in the proofs.
#![tactic(auto)]

mod acquire;
mod amend_branch;
mod amend_copy;
mod amend_patron;
mod amend_title;
mod barcode;
mod begin_day;
mod branch;
mod cancel_hold;
mod changes;
mod check_in;
mod check_out;
mod checks;
mod close_day;
mod condition;
mod counter;
mod debt;
mod deciding;
mod due_day;
mod ending;
mod grace;
mod holds;
mod kind;
mod limits;
mod missing;
mod owners;
mod page;
mod patron;
mod pay_and_waive;
mod place_hold;
mod rehome;
mod renew;
mod routing;
mod rule;
mod unshelve;
mod views;
mod week;
mod withdraw;

pub use changes::{Changes, Decision, RowChange};
pub use deciding::decide;
pub use owners::owners_law;
pub use views::View;

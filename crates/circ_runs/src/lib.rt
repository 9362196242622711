//! The runs of the program `circ`: each opens its library, does its work and writes lines for
//! scripts. What a person should know goes to standard error.
#![tactic(auto)]

mod absent;
mod calls;
mod files;
mod host;
mod notes;
mod running;
mod surroundings;
mod work;
mod working;

pub use running::run;

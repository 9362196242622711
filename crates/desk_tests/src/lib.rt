//! Tests of the desk and of its tables that the program on files cannot show, in their own crate so
//! that the crates below are proved once: lists of requests, patrons as callers, all rows, limits on
//! steps, refused memory, stops, and migrations; selections and lists of each table.
#![tactic(auto)]

#[cfg(test)]
mod calls;
#[cfg(test)]
mod limits;
#[cfg(test)]
mod lists;
#[cfg(test)]
mod migrations;
#[cfg(test)]
mod refusals;
#[cfg(test)]
mod script_stops;
#[cfg(test)]
mod stops;
#[cfg(test)]
mod table_calls;
#[cfg(test)]
mod tables;

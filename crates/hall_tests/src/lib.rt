//! Tests of the hall in threads and of the board below it, in their own crate so that the crates
//! below are proved once: workers and a desk over the queue, and what the tables show afterwards;
//! comparing requests, boards from opening to end, and beginnings of a list.
#![tactic(auto)]

#[cfg(test)]
mod boards;
#[cfg(test)]
mod bytes;
#[cfg(test)]
mod calls;
#[cfg(test)]
mod connections;
#[cfg(test)]
mod files;
#[cfg(test)]
mod library;
#[cfg(test)]
mod lists;
#[cfg(test)]
mod new_library;
#[cfg(test)]
mod reopened;
#[cfg(test)]
mod tests;
#[cfg(test)]
mod visits;

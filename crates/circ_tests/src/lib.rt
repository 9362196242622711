//! Tests of `circ`'s lines, reports, audits and copies files that the program on files cannot show,
//! in their own crate so that the crates below are proved once: failing readers and writers, limits
//! on steps, audits of any rows, and a worker's loop over connections in memory.
#![tactic(auto)]

#[cfg(test)]
mod audits;
#[cfg(test)]
mod calls;
#[cfg(test)]
mod connections;
#[cfg(test)]
mod copies;
#[cfg(test)]
mod cut_lines;
#[cfg(test)]
mod limits;

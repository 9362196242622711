//! Tests of the web and of copies files, in their own crate so that `web` and `front` are proved
//! once: requests as connections bring them, answers as connections take them, and files as readers
//! bring them.
#![tactic(auto)]

#[cfg(test)]
mod copies;
#[cfg(test)]
mod examples;
#[cfg(test)]
mod keys;
#[cfg(test)]
mod messages;

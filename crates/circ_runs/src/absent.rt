//! What is done about a library that isn't there.

/// What is done about a library that isn't there.
#[derive(Clone, Copy)]
pub enum Absent {
    /// A new one is made.
    Made,
    /// 93: a missing or empty file is no library.
    Refused,
}

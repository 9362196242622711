//! Limits of web requests, with one name each for code and definitions.

/// The longest head in bytes: first line, fields and the empty line after them.
pub const HEAD_BYTES: usize = 8192;

/// The most fields in a head.
pub const HEAD_FIELDS: usize = 32;

/// The most digits in the length of a body.
pub const LENGTH_DIGITS: usize = 10;

/// The longest request body, in bytes.
pub const BODY_BYTES: u64 = 65_536;

/// The longest answer body that the client accepts, in bytes. The longest that the desk sends is a
/// page of 200 loans and 200 holds, which is shorter.
pub const ANSWER_BYTES: u64 = 1_048_576;

/// The most texts in a list of the desk's words. It has at least one.
pub const MOST_WORDS: usize = 12;

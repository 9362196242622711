//! The header fields.

ghost use Rattle.std.specs.Prelude.{◌≡◌, ◌++◌, ◌∷◌, [], ℕ, List, All, length, map};
ghost use Rattle.std.specs.Prelude.{IfSome, IfNone, true, false};
ghost use Rattle.std.specs.Char.{is_ascii_digit};
ghost use Rattle.std.specs.List.{list_all};
ghost use Rattle.std.specs.Str.Parse.{digits_value};
ghost use Rattle.httparse.specs.Spans.{IsHeaderWithin, header_bytes};
ghost use Rattle.web.specs.Fields.{same_name, values_of, is_length, length_in, body_length};
ghost use Rattle.web.specs.Found.{Tells};

use crate::fault::WebStatus;
use crate::limits::{BODY_BYTES, LENGTH_DIGITS};
use httparse::spans::HeaderSpan;
use std::marker::Model;
use std::str;

/// The header fields, as spans of the head's bytes.
#[derive(Drop)]
pub(crate) struct Fields<'a> {
    bytes: &'a [u8],
    headers: &'a [HeaderSpan],
}

impl<'a> Model for Fields<'a> {
    ghost use Rattle.std.specs.Prelude.{List, All, length, map};
    ghost use Rattle.httparse.specs.Spans.{IsHeaderWithin, header_bytes};
    ghost use Rattle.web.specs.Fields.{NamedValue};

    ghost Value = { List NamedValue };

    ghost view = { λ a. map (header_bytes a.bytes.now) a.headers.now };

    ghost invariant = { λ a. All (IsHeaderWithin (length a.bytes.now)) a.headers.now };
}

/// The values of the fields with one name.
#[derive(Clone, Copy)]
pub(crate) enum Found<'a> {
    /// No field has this name.
    Nothing,
    /// One field has it, with this value.
    One(&'a [u8]),
    /// Two or more fields have it.
    Several,
}

/// Compares two field names, ignoring case.
fn is_same_name(a: &[u8], b: &[u8]) -> bool
    ensures { result ≡ same_name a.now b.now }
{
    a.eq_ignore_ascii_case(b)
}

impl<'a> Found<'a> {
    /// Adds a value.
    fn and(self, value: &'a [u8]) -> Found<'a>
        ensures { (values : List (List ℕ)) → Tells self.entry values
            → Tells result (values ++ (value.entry.now ∷ [])) }
    {
        match self {
            Found::Nothing => Found::One(value),
            Found::One(_) => Found::Several,
            Found::Several => Found::Several,
        }
    }
}

/// Finds the values of the fields with this name.
fn values_in<'a>(bytes: &'a [u8], headers: &[HeaderSpan], name: &[u8]) -> Found<'a>
    requires { All (IsHeaderWithin (length bytes.now)) headers.now }
    ensures { Tells result (values_of name.now (map (header_bytes bytes.entry.now) headers.now)) }
{
    let mut found = Found::Nothing;
    for header in headers {
        if is_same_name(header.name.of(bytes), name) {
            found = found.and(header.value.of(bytes));
        }
    }
    found
}

impl<'a> Fields<'a> {
    /// Makes the fields that the spans cover in these bytes.
    pub fn new(bytes: &'a [u8], headers: &'a [HeaderSpan]) -> Fields<'a>
        requires { All (IsHeaderWithin (length bytes.now)) headers.now }
        ensures { result ≡ map (header_bytes bytes.entry.now) headers.entry.now }
    {
        Fields { bytes, headers }
    }

    /// Finds the values of the fields with this name.
    pub fn values(&self, name: &[u8]) -> Found<'a>
        ensures { Tells result (values_of name.now self.now) }
    {
        let Fields { bytes, headers } = self;
        values_in(bytes, headers, name)
    }
}

fn all_digits(bytes: &[u8]) -> bool
    ensures { result ≡ list_all is_ascii_digit bytes.now }
{
    bytes.iter().all(|b| b.is_ascii_digit())
}

/// Returns whether a value is 1 to 10 plain digits.
#[tactic(auto, unfolding(crate::specs::Fields::is_length))]
fn has_length_form(value: &[u8]) -> bool
    ensures { result ≡ is_length value.now }
{
    let len = value.len();
    if len < 1 {
        return false;
    }
    if len > LENGTH_DIGITS {
        return false;
    }
    all_digits(value)
}

/// Reads a number of 1 to 10 plain digits.
pub(crate) fn read_length(value: &[u8]) -> Option<u64>
    ensures some { IfSome result
        (λ n. (is_length value.now ≡ true) × (n ≡ digits_value 10 value.now)) }
    ensures none { IfNone result (is_length value.now ≡ false) }
{
    if !has_length_form(value) {
        return None;
    }
    let Ok(text) = str::from_utf8(value) else {
        return None;
    };
    match text.parse::<u64>() {
        Ok(length) => Some(length),
        Err(_) => None,
    }
}

/// Reads a Content-Length value.
pub(crate) fn length_of(value: &[u8]) -> Result<usize, WebStatus>
    ensures { result ≡ length_in (value.now ∷ []) }
{
    let Some(length) = read_length(value) else {
        return Err(WebStatus::BadRequest);
    };
    if length <= BODY_BYTES {
        Ok(length as usize)
    } else {
        Err(WebStatus::PayloadTooLarge)
    }
}

/// Returns the length of the body, or the status that refuses the fields.
pub(crate) fn body_length(fields: &Fields<'_>) -> Result<usize, WebStatus>
    ensures { result ≡ body_length fields.now }
{
    let Found::Nothing = fields.values(b"Transfer-Encoding") else {
        return Err(WebStatus::BadRequest);
    };
    match fields.values(b"Content-Length") {
        Found::Nothing => Ok(0),
        Found::One(value) => length_of(value),
        Found::Several => Err(WebStatus::BadRequest),
    }
}

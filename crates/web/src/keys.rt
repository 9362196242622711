//! Keys in header fields.

ghost use Rattle.std.specs.Prelude.{◌≡◌, IfOk, true, false, MatchOption};
ghost use Rattle.terms.specs.Forms.{is_card_key, is_outside_key};

use std::alloc::Global;
use std::str;
use terms::{CardKey, Key, Memory};

/// Reads a value as a card key or desk key, if it has that form.
pub(crate) fn card_key(alloc: Global, value: &[u8]) -> Result<Option<CardKey>, Memory>
    ensures { IfOk result (λ o. MatchOption o (is_card_key value.now ≡ false)
        (λ k. (is_card_key value.now ≡ true) × (k ≡ value.now))) }
{
    match str::from_utf8(value) {
        Ok(text) => CardKey::new(alloc, text),
        Err(_) => Ok(None),
    }
}

/// Reads a value as a request key from outside, if it has that form.
pub(crate) fn outside_key(alloc: Global, value: &[u8]) -> Result<Option<Key>, Memory>
    ensures { IfOk result (λ o. MatchOption o (is_outside_key value.now ≡ false)
        (λ k. (is_outside_key value.now ≡ true) × (k ≡ value.now))) }
{
    match str::from_utf8(value) {
        Ok(text) => Key::new(alloc, text),
        Err(_) => Ok(None),
    }
}

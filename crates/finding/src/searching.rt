//! Words that occur in texts.

ghost use Rattle.std.specs.Prelude.{◌≡◌};
ghost use Rattle.finding.specs.Finding.{folded, begins_with, occurs_in, finds};

use crate::folding::take_letter;

/// Says whether a text begins with a word.
fn begins(word: &str, text: &str) -> bool
    ensures { result ≡ begins_with (folded word.now) (folded text.now) }
{
    let mut word_left = word;
    let mut text_left = text;
    while let Some((letter, rest_of_word)) = take_letter(word_left) {
        match take_letter(text_left) {
            Some((other, rest_of_text)) => {
                if letter != other {
                    return false;
                }
                word_left = rest_of_word;
                text_left = rest_of_text;
            }
            None => return false,
        }
    }
    true
}

/// Says whether a word occurs in a text.
fn occurs(word: &str, text: &str) -> bool
    ensures { result ≡ occurs_in (folded word.now) (folded text.now) }
{
    let mut text_left = text;
    while !begins(word, text_left) {
        match take_letter(text_left) {
            Some((_first, rest)) => text_left = rest,
            None => return false,
        }
    }
    true
}

/// Says whether a query finds a text.
pub fn is_found(query: &str, text: &str) -> bool
    ensures { result ≡ finds query.now text.now }
{
    let mut query_left = query;
    while let Some((word, rest)) = query_left.split_once(' ') {
        if !occurs(word, text) {
            return false;
        }
        query_left = rest;
    }
    occurs(query_left, text)
}

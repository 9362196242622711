//! Texts with their own forms.

ghost use Rattle.std.specs.Prelude.{◌≡◌, IfOk, true, false, string_bytes, Some, MatchOption};
ghost use Rattle.std.specs.Prelude.{bytes_eq, IsUtf8};
ghost use Rattle.std.specs.List.{list_all};
ghost use Rattle.terms.specs.Forms.{is_name, IsName, is_plain_byte, is_card_key, is_alphanumeric};
ghost use Rattle.terms.specs.Forms.{is_outside_key, is_key_byte, has_no_space, is_key, IsKey};
ghost use Rattle.terms.specs.Forms.{is_clerk_name, is_clerk_key, clerk_key, is_barcode};
ghost use Rattle.terms.specs.Texts.{request_text};

use crate::command::{Command, joined_words};
use crate::limits::{
    LONGEST_BARCODE, LONGEST_CARD_KEY, LONGEST_CLERK_NAME, LONGEST_KEY, LONGEST_NAME,
    SHORTEST_CARD_KEY,
};
use calendar::Memory;
use std::alloc::Global;
use std::fmt;
use std::marker::Model;

/// A name, or the text of a title: 1 to 120 bytes of UTF-8, with no control character and no space
/// at either end.
#[derive(Drop)]
pub struct Name {
    text: String,
}

impl Model for Name {
    ghost use Rattle.std.specs.Prelude.{◌≡◌, ℕ, List, true, string_bytes};
    ghost use Rattle.terms.specs.Forms.{is_name};

    ghost Value = { List ℕ };

    ghost view = { λ a. string_bytes a.text };

    ghost invariant = { λ a. is_name (string_bytes a.text) ≡ true };
}

fn all_plain(bytes: &[u8]) -> bool
    ensures { result ≡ list_all is_plain_byte bytes.now }
{
    bytes.iter().all(|b| 32 <= *b && *b != 127)
}

#[tactic(auto, unfolding(crate::specs::Forms::is_name))]
fn has_name_form(text: &str) -> bool
    ensures { result ≡ is_name text.now }
{
    let bytes = text.as_bytes();
    let len = bytes.len();
    if len < 1 {
        return false;
    }
    if len > LONGEST_NAME {
        return false;
    }
    if !all_plain(bytes) {
        return false;
    }
    if bytes[0] == b' ' {
        return false;
    }
    bytes[len - 1] != b' '
}

impl Name {
    /// Reads a name, if the text is well-formed.
    pub fn new(alloc: Global, text: &str) -> Result<Option<Name>, Memory>
        ensures { IfOk result (λ o. MatchOption o (is_name text.now ≡ false)
            (λ n. (is_name text.now ≡ true) × (n ≡ text.now))) }
    {
        if has_name_form(text) {
            let text = String::from_str(alloc, text)?;
            Ok(Some(Name { text }))
        } else {
            Ok(None)
        }
    }

    /// Returns the text.
    pub fn as_str(&self) -> &str
        ensures value { result.now ≡ self.now }
        ensures form { IsName result.now }
    {
        let Name { text } = self;
        text.as_str()
    }

    /// Compares two names.
    pub fn is_same(&self, other: &Name) -> bool
        ensures { result ≡ bytes_eq self.now other.now }
    {
        let Name { text } = other;
        self.text == *text
    }
}

impl fmt::Display for Name {
    ghost use Rattle.std.specs.Prelude.{Some};

    ghost output = { λ x. Some x };

    fn fmt<W: fmt::Write>(&self, f: &mut fmt::Formatter<W>) -> fmt::Result {
        f.write_str(self.text.as_str())
    }
}

/// A patron's card key or the desk's key: 8 to 32 ASCII letters and digits.
#[derive(Drop)]
pub struct CardKey {
    text: String,
}

impl Model for CardKey {
    ghost use Rattle.std.specs.Prelude.{◌≡◌, ℕ, List, true, string_bytes};
    ghost use Rattle.terms.specs.Forms.{is_card_key};

    ghost Value = { List ℕ };

    ghost view = { λ a. string_bytes a.text };

    ghost invariant = { λ a. is_card_key (string_bytes a.text) ≡ true };
}

fn is_letter_or_digit(byte: u8) -> bool
    ensures { result ≡ is_alphanumeric byte }
{
    (48 <= byte && byte <= 57) || (65 <= byte && byte <= 90) || (97 <= byte && byte <= 122)
}

fn all_alphanumeric(bytes: &[u8]) -> bool
    ensures { result ≡ list_all is_alphanumeric bytes.now }
{
    bytes.iter().all(|b| is_letter_or_digit(*b))
}

#[tactic(auto, unfolding(crate::specs::Forms::is_card_key))]
fn has_card_key_form(text: &str) -> bool
    ensures { result ≡ is_card_key text.now }
{
    let bytes = text.as_bytes();
    let len = bytes.len();
    if len < SHORTEST_CARD_KEY {
        return false;
    }
    if len > LONGEST_CARD_KEY {
        return false;
    }
    all_alphanumeric(bytes)
}

impl CardKey {
    /// Reads a card key, if the text is well-formed.
    pub fn new(alloc: Global, text: &str) -> Result<Option<CardKey>, Memory>
        ensures { IfOk result (λ o. MatchOption o (is_card_key text.now ≡ false)
            (λ k. (is_card_key text.now ≡ true) × (k ≡ text.now))) }
    {
        if has_card_key_form(text) {
            let text = String::from_str(alloc, text)?;
            Ok(Some(CardKey { text }))
        } else {
            Ok(None)
        }
    }

    /// Returns the text.
    pub fn as_str(&self) -> &str
        ensures value { result.now ≡ self.now }
        ensures form { is_card_key result.now ≡ true }
    {
        let CardKey { text } = self;
        text.as_str()
    }

    /// Compares two keys.
    pub fn is_same(&self, other: &CardKey) -> bool
        ensures { result ≡ bytes_eq self.now other.now }
    {
        let CardKey { text } = other;
        self.text == *text
    }
}

impl fmt::Display for CardKey {
    ghost use Rattle.std.specs.Prelude.{Some};

    ghost output = { λ x. Some x };

    fn fmt<W: fmt::Write>(&self, f: &mut fmt::Formatter<W>) -> fmt::Result {
        f.write_str(self.text.as_str())
    }
}

/// A clerk's name: 1 to 16 ASCII letters and digits.
#[derive(Drop)]
pub struct ClerkName {
    text: String,
}

impl Model for ClerkName {
    ghost use Rattle.std.specs.Prelude.{◌≡◌, ℕ, List, true, string_bytes};
    ghost use Rattle.terms.specs.Forms.{is_clerk_name};

    ghost Value = { List ℕ };

    ghost view = { λ a. string_bytes a.text };

    ghost invariant = { λ a. is_clerk_name (string_bytes a.text) ≡ true };
}

#[tactic(auto, unfolding(crate::specs::Forms::is_clerk_name))]
fn has_clerk_name_form(text: &str) -> bool
    ensures { result ≡ is_clerk_name text.now }
{
    let bytes = text.as_bytes();
    let len = bytes.len();
    if len < 1 {
        return false;
    }
    if len > LONGEST_CLERK_NAME {
        return false;
    }
    all_alphanumeric(bytes)
}

impl ClerkName {
    /// Reads a clerk's name, if the text is well-formed.
    pub fn new(alloc: Global, text: &str) -> Result<Option<ClerkName>, Memory>
        ensures { IfOk result (λ o. MatchOption o (is_clerk_name text.now ≡ false)
            (λ n. (is_clerk_name text.now ≡ true) × (n ≡ text.now))) }
    {
        if has_clerk_name_form(text) {
            let text = String::from_str(alloc, text)?;
            Ok(Some(ClerkName { text }))
        } else {
            Ok(None)
        }
    }

    /// Returns the text.
    pub fn as_str(&self) -> &str
        ensures value { result.now ≡ self.now }
        ensures form { is_clerk_name result.now ≡ true }
    {
        let ClerkName { text } = self;
        text.as_str()
    }

    /// Compares two names.
    pub fn is_same(&self, other: &ClerkName) -> bool
        ensures { result ≡ bytes_eq self.now other.now }
    {
        let ClerkName { text } = other;
        self.text == *text
    }
}

/// A barcode, as labels and cards have it: 1 to 24 ASCII letters and digits. Case and leading zeros
/// count.
#[derive(Drop)]
pub struct Barcode {
    text: String,
}

impl Model for Barcode {
    ghost use Rattle.std.specs.Prelude.{◌≡◌, ℕ, List, true, string_bytes};
    ghost use Rattle.terms.specs.Forms.{is_barcode};

    ghost Value = { List ℕ };

    ghost view = { λ a. string_bytes a.text };

    ghost invariant = { λ a. is_barcode (string_bytes a.text) ≡ true };
}

#[tactic(auto, unfolding(crate::specs::Forms::is_barcode))]
fn has_barcode_form(text: &str) -> bool
    ensures { result ≡ is_barcode text.now }
{
    let bytes = text.as_bytes();
    let len = bytes.len();
    if len < 1 {
        return false;
    }
    if len > LONGEST_BARCODE {
        return false;
    }
    all_alphanumeric(bytes)
}

impl Barcode {
    /// Reads a barcode, if the text is well-formed.
    pub fn new(alloc: Global, text: &str) -> Result<Option<Barcode>, Memory>
        ensures { IfOk result (λ o. MatchOption o (is_barcode text.now ≡ false)
            (λ b. (is_barcode text.now ≡ true) × (b ≡ text.now))) }
    {
        if has_barcode_form(text) {
            let text = String::from_str(alloc, text)?;
            Ok(Some(Barcode { text }))
        } else {
            Ok(None)
        }
    }

    /// Returns the text.
    pub fn as_str(&self) -> &str
        ensures value { result.now ≡ self.now }
        ensures form { is_barcode result.now ≡ true }
    {
        let Barcode { text } = self;
        text.as_str()
    }

    /// Compares two barcodes.
    pub fn is_same(&self, other: &Barcode) -> bool
        ensures { result ≡ bytes_eq self.now other.now }
    {
        let Barcode { text } = other;
        self.text == *text
    }
}

impl fmt::Display for Barcode {
    ghost use Rattle.std.specs.Prelude.{Some};

    ghost output = { λ x. Some x };

    fn fmt<W: fmt::Write>(&self, f: &mut fmt::Formatter<W>) -> fmt::Result {
        f.write_str(self.text.as_str())
    }
}

/// The key of a request. A key from outside has 1 to 40 ASCII letters, digits and hyphens. The key
/// of a clerk's request has the clerk's name and a slash before it. A row of a copies file has its
/// own request text as key, which has spaces. So none of these is ever another.
#[derive(Drop)]
pub struct Key {
    text: String,
}

impl Model for Key {
    ghost use Rattle.std.specs.Prelude.{◌≡◌, ℕ, List, true, string_bytes};
    ghost use Rattle.terms.specs.Forms.{is_key};

    ghost Value = { List ℕ };

    ghost view = { λ a. string_bytes a.text };

    ghost invariant = { λ a. is_key (string_bytes a.text) ≡ true };
}

fn is_key_letter(byte: u8) -> bool
    ensures { result ≡ is_key_byte byte }
{
    is_letter_or_digit(byte) || byte == b'-'
}

fn all_key_letters(bytes: &[u8]) -> bool
    ensures { result ≡ list_all is_key_byte bytes.now }
{
    bytes.iter().all(|b| is_key_letter(*b))
}

#[tactic(auto, unfolding(crate::specs::Forms::is_outside_key))]
fn has_key_form(text: &str) -> bool
    ensures { result ≡ is_outside_key text.now }
{
    let bytes = text.as_bytes();
    let len = bytes.len();
    if len < 1 {
        return false;
    }
    if len > LONGEST_KEY {
        return false;
    }
    all_key_letters(bytes)
}

/// Returns whether a text is the key of a clerk's request.
fn has_clerk_key_form(text: &str) -> bool
    ensures { result ≡ is_clerk_key text.now }
{
    match text.split_once('/') {
        Some((name, key)) => has_clerk_name_form(name) && has_key_form(key),
        None => false,
    }
}

fn all_without_space(bytes: &[u8]) -> bool
    ensures { result ≡ has_no_space bytes.now }
{
    bytes.iter().all(|b| *b != b' ')
}

impl Key {
    /// Reads a key from outside, if the text is well-formed.
    pub fn new(alloc: Global, text: &str) -> Result<Option<Key>, Memory>
        ensures { IfOk result (λ o. MatchOption o (is_outside_key text.now ≡ false)
            (λ k. (is_outside_key text.now ≡ true) × (k ≡ text.now))) }
    {
        if has_key_form(text) {
            let text = String::from_str(alloc, text)?;
            Ok(Some(Key { text }))
        } else {
            Ok(None)
        }
    }

    /// Makes the key of a copies file's row: the request text of its command.
    pub fn of_row(alloc: Global, command: &Command) -> Result<Key, Memory>
        ensures { IfOk result (λ key. key ≡ request_text command.now) }
    {
        let text = joined_words(alloc, command)?;
        Ok(Key { text })
    }

    /// Makes the key of a clerk's request from the key that was given; none if that isn't a key from
    /// outside.
    pub fn of_clerk(alloc: Global, name: &ClerkName, key: &Key) -> Result<Option<Key>, Memory>
        ensures { IfOk result (λ o. MatchOption o (is_outside_key key.now ≡ false)
            (λ k. (is_outside_key key.now ≡ true) × (k ≡ clerk_key name.now key.now))) }
    {
        if has_key_form(key.text.as_str()) {
            let text = format!(in alloc; "{}/{}", name.text.as_str(), key.text.as_str())?;
            Ok(Some(Key { text }))
        } else {
            Ok(None)
        }
    }

    /// Reads a stored key, if the text can be one: a key from outside, that of a clerk's request, or
    /// a text with a space, like the key of a copies file's row.
    pub fn read(alloc: Global, text: &str) -> Result<Option<Key>, Memory>
        ensures { IfOk result (λ o. MatchOption o (is_key text.now ≡ false)
            (λ k. (is_key text.now ≡ true) × (k ≡ text.now))) }
    {
        if has_key_form(text) || has_clerk_key_form(text) || !all_without_space(text.as_bytes()) {
            let text = String::from_str(alloc, text)?;
            Ok(Some(Key { text }))
        } else {
            Ok(None)
        }
    }

    /// Returns the text.
    pub fn as_str(&self) -> &str
        ensures value { result.now ≡ self.now }
        ensures form { IsKey result.now }
    {
        let Key { text } = self;
        text.as_str()
    }
}

/// A request text, a reply text or a page, as kept or shown.
#[derive(Drop)]
pub struct Text {
    text: String,
}

impl Model for Text {
    ghost use Rattle.std.specs.Prelude.{ℕ, List, string_bytes};

    ghost Value = { List ℕ };

    ghost view = { λ a. string_bytes a.text };
}

impl Text {
    /// Makes a text from a string.
    pub fn new(text: String) -> Text
        ensures { result ≡ string_bytes text }
    {
        Text { text }
    }

    /// Returns the text.
    pub fn as_str(&self) -> &str
        ensures value { result.now ≡ self.now }
        ensures form { IsUtf8 result.now }
    {
        let Text { text } = self;
        text.as_str()
    }

    /// Compares two texts.
    pub fn is_same(&self, other: &Text) -> bool
        ensures { result ≡ bytes_eq self.now other.now }
    {
        let Text { text } = other;
        self.text == *text
    }
}

impl fmt::Display for Text {
    ghost use Rattle.std.specs.Prelude.{Some};

    ghost output = { λ x. Some x };

    fn fmt<W: fmt::Write>(&self, f: &mut fmt::Formatter<W>) -> fmt::Result {
        f.write_str(self.text.as_str())
    }
}

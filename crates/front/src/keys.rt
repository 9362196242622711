//! Files of keys: the clerks of a desk, one per line.

ghost use Rattle.std.specs.Prelude.{◌≡◌, ◌≢◌, ◌≤◌, ◌+◌, ◌↔◌, ℕ, true, Some, None, Err};
ghost use Rattle.std.specs.Prelude.{length, take, All, IfOk, IfSome, IfNone, MatchOption};
ghost use Rattle.std.specs.IoError.{error_kind};
ghost use Rattle.clerks.specs.declared.clerk.Role.{Role as ItsRole};
ghost use Rattle.front.specs.Keys.{role_word, line_of, IsClerk, Differ, ReadsKeys, IsWrongAfter};
ghost use Rattle.front.specs.Keys.{KeysReadOnce};
ghost use Rattle.front.specs.KeyReading.{HasParts, IsCut, IsNoLine, Takes, Reads};
ghost use Rattle.front.specs.declared.keys.TheConstants.{LONGEST_FILE};
ghost use Rattle.front.specs.declared.keys.KeysFault.TheVariants.{Line, Read as NotRead};
ghost use Rattle.front.specs.declared.keys.KeysFault.TheVariants.{Memory as NoMemory};

use clerks::{Clerk, Clerks, MOST_CLERKS, Role};
use std::alloc::{AllocError, Global};
use std::io::{ErrorKind, Read};
use std::{io, str};
use terms::{CardKey, ClerkName, LONGEST_CARD_KEY, LONGEST_CLERK_NAME};

/// The most bytes of a line: a name, the word `lending`, a key, two spaces and a newline.
const LONGEST_LINE: usize = LONGEST_CLERK_NAME + 7 + LONGEST_CARD_KEY + 3;

/// The most bytes of a file.
const LONGEST_FILE: usize = MOST_CLERKS * LONGEST_LINE;

/// Why a file of keys gives no clerks.
#[derive(Clone, Copy, Debug, PartialEq, Eq)]
pub enum KeysFault {
    /// The line with this number, from 1, is malformed, has a name or a key of a line above, is one
    /// too many, or isn't there or isn't ended.
    Line(u32),
    /// A read failed.
    Read,
    /// Out of memory.
    Memory,
}

impl From<AllocError> for KeysFault {
    ghost from_gives = { λ _ fault. fault ≡ NoMemory };

    fn from(_error: AllocError) -> KeysFault {
        KeysFault::Memory
    }
}

/// Reads a role's word.
fn read_role(word: &str) -> Option<Role>
    ensures { MatchOption result ((role : ItsRole) → word.now ≢ role_word role)
        (λ role. word.now ≡ role_word role) }
{
    match word {
        "desk" => Some(Role::Desk),
        "lending" => Some(Role::Lending),
        _ => None,
    }
}

/// Splits a line at its first two spaces, if there is a role's word between them.
fn parts_of(line: &str) -> Option<(&str, Role, &str)>
    ensures some { IfSome result (λ parts. HasParts line.now parts.0.now parts.1 parts.2.now) }
    ensures none { IfNone result (IsNoLine line.now) }
{
    let (name, rest) = line.split_once(' ')?;
    let (word, key) = rest.split_once(' ')?;
    Some((name, read_role(word)?, key))
}

/// Reads the clerk of a line, given without its newline.
fn read_clerk(alloc: Global, line: &[u8]) -> Result<Option<Clerk>, AllocError>
    ensures { IfOk result (λ found. MatchOption found (IsNoLine line.now)
        (λ clerk. IsClerk clerk × (line.now ≡ line_of clerk))) }
{
    let Ok(line) = str::from_utf8(line) else {
        return Ok(None);
    };
    let Some((name, role, key)) = parts_of(line) else {
        return Ok(None);
    };
    let Some(name) = ClerkName::new(alloc, name)? else {
        return Ok(None);
    };
    let Some(key) = CardKey::new(alloc, key)? else {
        return Ok(None);
    };
    Ok(Some(Clerk {
        name: Some(name),
        role,
        key,
    }))
}

/// Returns whether two clerks have the same name.
fn have_same_name(one: &Clerk, other: &Clerk) -> bool
    ensures { (result ≡ true) ↔ (one.now.name ≡ other.now.name) }
{
    match (&one.name, &other.name) {
        (Some(one), Some(other)) => one.is_same(other),
        (None, None) => true,
        _ => false,
    }
}

/// Returns whether both the names and the keys of two clerks differ.
fn differ(one: &Clerk, other: &Clerk) -> bool
    ensures { (result ≡ true) ↔ Differ one.now other.now }
{
    !have_same_name(one, other) && !one.key.is_same(&other.key)
}

/// Returns whether a clerk's name and key are those of none of these clerks.
fn is_new(clerks: &[Clerk], clerk: &Clerk) -> bool
    ensures { (result ≡ true) ↔ All (λ one. Differ one clerk.now) clerks.now }
{
    clerks.iter().all(|one| differ(one, clerk))
}

/// Splits bytes at the first newline, which goes away.
fn cut_line(bytes: &[u8]) -> Option<(&[u8], &[u8])>
    ensures { MatchOption result (IsCut bytes.now None)
        (λ cut. IsCut bytes.now (Some (cut.0.now, cut.1.now))) }
{
    let end = bytes.iter().position(|byte| *byte == b'\n')?;
    Some((&bytes[..end], &bytes[end + 1..]))
}

/// Reads the first line: adds its clerk to those of the lines above, and returns the bytes after it.
fn take_line<'a>(
    alloc: Global,
    clerks: &mut Vec<Clerk>,
    bytes: &'a [u8],
) -> Result<&'a [u8], KeysFault>
    requires few { length clerks.old.items ≤ MOST_CLERKS }
    ensures taken { IfOk result (λ rest. Takes clerks.old.items bytes.now clerks.new.items rest.now) }
    ensures wrong { (n : ℕ) → result ≡ Err (Line n) → (n ≡ length clerks.old.items + 1)
        × IsWrongAfter clerks.old.items bytes.now }
    ensures read { result ≢ Err NotRead }
{
    let wrong = KeysFault::Line(clerks.len() as u32 + 1);
    if clerks.len() == MOST_CLERKS {
        return Err(wrong);
    }
    let Some((line, rest)) = cut_line(bytes) else {
        return Err(wrong);
    };
    let Some(clerk) = read_clerk(alloc, line)? else {
        return Err(wrong);
    };
    if !is_new(clerks, &clerk) {
        return Err(wrong);
    }
    match clerks.push(clerk) {
        Ok(()) => Ok(rest),
        Err(_) => Err(KeysFault::Memory),
    }
}

/// Reads the lines of a file, of which there is at least one.
fn read_lines(alloc: Global, bytes: &[u8]) -> Result<Clerks, KeysFault>
    ensures { Reads bytes.now result }
{
    let mut clerks = Vec::new(alloc);
    let mut rest = take_line(alloc, &mut clerks, bytes)?;
    while !rest.is_empty() {
        rest = take_line(alloc, &mut clerks, rest)?;
    }
    Ok(Clerks::new(clerks))
}

/// Returns the fault for an error of reading to the end.
fn fault_of(error: &io::Error) -> KeysFault
    ensures memory { error_kind error.now ≡ ErrorKind.OutOfMemory → result ≡ NoMemory }
    ensures failed { error_kind error.now ≢ ErrorKind.OutOfMemory → result ≡ NotRead }
{
    match error.kind() {
        ErrorKind::OutOfMemory => KeysFault::Memory,
        _ => KeysFault::Read,
    }
}

/// Reads all bytes, or if there are more than a file can have, its first ones and one more.
fn read_start<R: Read + Drop>(alloc: Global, reader: R) -> Result<Vec<u8>, KeysFault>
    ensures read { IfOk result (λ bytes. IfSome (R.remaining reader)
        (λ all. bytes.items ≡ take (LONGEST_FILE + 1) all)) }
    ensures failed { (n : ℕ) → result ≢ Err (Line n) }
{
    let mut bytes = Vec::new(alloc);
    let mut start = reader.take(LONGEST_FILE as u64 + 1);
    match start.read_to_end(&mut bytes) {
        Ok(_) => Ok(bytes),
        Err(error) => Err(fault_of(&error)),
    }
}

/// Reads a file of the clerks' keys.
///
/// It has 1 to 99 lines, each ended by a newline. A line is a clerk's name, role and key with single
/// spaces between them. The role is `desk` or `lending`. No two lines have the same name or the same
/// key. Of a file that is too long no more is read than its first bytes, as many as the longest file
/// has and one more.
pub fn read_clerks<R: Read + Drop>(alloc: Global, reader: R) -> Result<Clerks, KeysFault>
    ensures { ReadsKeys (R.remaining reader) result }
{
    let bytes = read_start(alloc, reader)?;
    read_lines(alloc, &bytes)
}

/// A file of keys has only one list of clerks, and anything else only one first line that is wrong.
pub fn keys_read_once()
    ensures { KeysReadOnce }
{}

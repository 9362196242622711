//! Reading the desk's words.

ghost use Rattle.std.specs.Prelude.{◌≡◌, ◌≢◌, List, map, Some, true, IfOk, IfSome, IfNone};
ghost use Rattle.std.specs.List.{list_any};
ghost use Rattle.clap.specs.Words.{Text, first_value, found_of, kind_of, subcommand_of};
ghost use Rattle.clap.specs.Words.{subcommand_rows_of, takes};
ghost use Rattle.terms.specs.declared.command.Command.{Command as Said};
ghost use Rattle.front.specs.Understood.{IsUnderstoodAs, begins_with_hyphen, texts_of};
ghost use Rattle.front.specs.Line.{HasShape, IsAfterName, desk_app, names_in};
ghost use Rattle.terms.specs.Commands.{column, texts};
ghost use Rattle.terms.specs.declared.words.WordFault.TheVariants.{Memory as NoMemory};
ghost use Rattle.terms.specs.declared.words.WordFault.TheVariants.{NotUnderstood as Refused};

use crate::parser::desk_line;
use clap::error::ErrorKind;
use clap::{ArgMatches, Error};
use std::alloc::{AllocError, Global};
use terms::laws::commands_are_listed;
use terms::{Command, PartForm, WordFault, parts_for, read_command};

fn has_hyphen(word: &str) -> bool
    ensures { result ≡ begins_with_hyphen word.now }
{
    match word.as_bytes() {
        [first, ..] => *first == b'-',
        [] => false,
    }
}

fn any_has_hyphen(words: &[String]) -> bool
    ensures { result ≡ list_any begins_with_hyphen (texts_of words.now) }
{
    for word in words {
        if has_hyphen(word.as_str()) {
            return true;
        }
    }
    false
}

/// Returns the command's name and parts, if the words have its shape: its name, one word per part,
/// and no leading hyphens.
fn form_of_words<'a>(words: &'a [String]) -> Option<(&'a str, &'static [PartForm])>
    ensures some { IfSome result (λ form. HasShape (texts_of words.entry.now)
        (form.0.now, map column form.1.now)) }
    ensures none { IfNone result ((said : Said) → IsUnderstoodAs (texts_of words.entry.now) said
        → ⊥) }
{
    commands_are_listed();
    let [first, others @ ..] = words else {
        return None;
    };
    let name = first.as_str();
    let parts = parts_for(name)?;
    if parts.len() != others.len() {
        return None;
    }
    if any_has_hyphen(words) {
        return None;
    }
    Some((name, parts))
}

fn fault_of(error: &Error) -> WordFault
    ensures { kind_of error.now ≡ ErrorKind.OutOfMemory → result ≡ NoMemory }
{
    match error.kind() {
        ErrorKind::OutOfMemory => WordFault::Memory,
        _ => WordFault::NotUnderstood,
    }
}

/// Parses the words with `clap`, as those of this command.
fn matches_of<'a>(
    alloc: Global,
    words: &'a [String],
    name: &'a str,
    parts: &[PartForm],
) -> Result<ArgMatches<'a>, WordFault>
    ensures read { IfOk result (λ matches. HasShape (texts_of words.entry.now)
        (name.entry.now, map column parts.now) → subcommand_rows_of matches
        ≡ subcommand_of (desk_app (name.entry.now, map column parts.now))
        (texts_of words.entry.now)) }
    ensures refused { result ≡ Err Refused
        → takes (desk_app (name.entry.now, map column parts.now)) (texts_of words.entry.now)
        ≢ true }
{
    let line = desk_line(alloc, name, parts)?;
    match line.try_get_matches_from(words) {
        Ok(matches) => Ok(matches),
        Err(error) => Err(fault_of(&error)),
    }
}

/// Returns the words given for a command's parts, unless one is missing.
fn words_given<'a>(
    alloc: Global,
    given: &ArgMatches<'a>,
    parts: &[PartForm],
) -> Result<Option<Vec<&'a str>>, AllocError>
    ensures read { IfOk result (λ some. IfSome some
        (λ found. map Some (texts found.items) ≡ map (first_value (found_of given.now))
        (names_in (map column parts.now)))) }
    ensures refused { IfOk result (λ some. IfNone some ((found : List Text)
        → map Some found ≢ map (first_value (found_of given.now))
        (names_in (map column parts.now)))) }
{
    let mut words = Vec::new(alloc);
    for part in parts {
        let Some(word) = given.get_str(part.name) else {
            return Ok(None);
        };
        words.push(word)?;
    }
    Ok(Some(words))
}

/// Returns the words after the command's name, as `clap` assigns them.
fn words_after_name<'a>(
    alloc: Global,
    words: &'a [String],
    name: &'a str,
    parts: &[PartForm],
) -> Result<Vec<&'a str>, WordFault>
    ensures read { IfOk result (λ given_words. HasShape (texts_of words.entry.now)
        (name.entry.now, map column parts.now)
        → IsAfterName (texts_of words.entry.now) (texts given_words.items)) }
    ensures refused { result ≡ Err Refused
        → HasShape (texts_of words.entry.now) (name.entry.now, map column parts.now) → ⊥ }
{
    let matches = matches_of(alloc, words, name, parts)?;
    let Some((_, given)) = matches.subcommand() else {
        return Err(WordFault::NotUnderstood);
    };
    match words_given(alloc, given, parts)? {
        Some(found) => Ok(found),
        None => Err(WordFault::NotUnderstood),
    }
}

/// Reads the words as a command: its name and arguments, each in its form and without a leading
/// hyphen. Anything else is not understood.
pub fn read_words(alloc: Global, words: &[String]) -> Result<Command, WordFault>
    ensures understood { IfOk result (λ command. IsUnderstoodAs (texts_of words.now) command) }
    ensures refused { result ≡ Err Refused → (said : Said)
        → IsUnderstoodAs (texts_of words.now) said → ⊥ }
{
    let Some((name, parts)) = form_of_words(words) else {
        return Err(WordFault::NotUnderstood);
    };
    let given = words_after_name(alloc, words, name, parts)?;
    read_command(alloc, name, &given)
}

//! A small library, lists of requests by lines, and looks at rows. Expected answers are worked out
//! by hand from the rules.

use crate::calls::{desk_over, in_memory, open, run};
use desk::Desk;
use front::read_words;
use sqlite::types::ValueRef;
use sqlite::{Alter, Connection, MemStore};
use std::alloc::Global;
use std::test::Fail;
use terms::{Caller, CardKey, Fault, Key, PatronId, Reply, Request, read_number};

/// Fifteen requests that make a small library: three patrons, two branches, four copies of three
/// titles. Each line has the caller, the key, the words, with a bar before a last word with blanks,
/// and after the arrow the answer.
pub const GROUND: &str = "desk g1 begin-day 2026-03-02 -> ok
desk g2 branch 1 5|Main -> ok
desk g3 branch 2 3|Harbour -> ok
desk g4 week 1 ooooooc -> ok
desk g5 week 2 coooooc -> ok
desk g6 kind 1 5 5 500 -> ok
desk g7 rule 1 1 6 1 20 100 -> ok
desk g8 rule 1 2 12 1 20 100 -> ok
desk g9 patron 1 1 cardkey00001|Ann Bell -> ok
desk g10 patron 2 1 cardkey00002|Bo Carr -> ok
desk g11 patron 3 1 cardkey00003|Cy Dunn -> ok
desk g12 acquire 10 100 1 1 2500|Rivers of the North -> ok
desk g13 acquire 11 100 1 1 2500|Rivers of the North -> ok
desk g14 acquire 20 200 1 2 1200|Salt Roads -> ok
desk g15 acquire 30 300 2 1 800|Night Ferries -> ok";

/// The eighteen tables, in the order in which a new library gets them.
const TABLES: &str =
    "meta branches closed_days kinds rules patrons titles copies loans holds transits lines kept holds2 rules3 loans3 barcodes notes";

/// A text's words, separated by single spaces, and the one after the bar whole.
pub fn words_of(alloc: Global, text: &str) -> Result<Vec<String>, Fail> {
    let mut words = Vec::new(alloc);
    let (front, last) = match text.split_once('|') {
        Some((front, last)) => (front, Some(last)),
        None => (text, None),
    };
    for word in front.split(' ') {
        words.push(String::from_str(alloc, word)?)?;
    }
    if let Some(word) = last {
        words.push(String::from_str(alloc, word)?)?;
    }
    Ok(words)
}

/// The text as a key.
pub fn key(alloc: Global, text: &str) -> Result<Key, Fail> {
    Ok(Key::new(alloc, text)?.ok_or("a key")?)
}

/// The desk, or the patron whose number and card key are separated by a slash.
fn caller(alloc: Global, text: &str) -> Result<Caller, Fail> {
    match text.split_once('/') {
        Some((number, card_key)) => {
            let number = read_number(number).ok_or("a number")?;
            let card_key = CardKey::new(alloc, card_key)?.ok_or("a card key")?;
            Ok(Caller::Patron(PatronId::new(number), card_key))
        }
        None => Ok(Caller::Desk),
    }
}

/// The request from a caller, a key and words.
pub fn request(alloc: Global, text: &str) -> Result<Request, Fail> {
    let (who, rest) = text.split_once(' ').ok_or("a caller")?;
    let (name, text) = rest.split_once(' ').ok_or("words")?;
    let words = words_of(alloc, text)?;
    let Ok(command) = read_words(alloc, &words) else {
        return Err("words that are understood".into());
    };
    Ok(Request {
        caller: caller(alloc, who)?,
        key: key(alloc, name)?,
        command,
    })
}

/// The request of a line, before the arrow.
pub fn asked(alloc: Global, line: &str) -> Result<Request, Fail> {
    let (said, _) = line.split_once(" -> ").ok_or("an arrow")?;
    request(alloc, said)
}

/// The requests of lines.
fn requests(alloc: Global, lines: &str) -> Result<Vec<Request>, Fail> {
    let mut list = Vec::new(alloc);
    for line in lines.split('\n') {
        list.push(asked(alloc, line)?)?;
    }
    Ok(list)
}

/// The reply's text is the one after the arrow, where a semicolon stands for a line end.
fn tells(alloc: Global, reply: &Reply, line: &str) -> Result<(), Fail> {
    let (_, wanted) = line.split_once(" -> ").ok_or("an arrow")?;
    let told = format!(in alloc; "{reply}")?.replace(alloc, '\n', "; ")?;
    if told.as_str() == wanted {
        Ok(())
    } else {
        Err(format!(in alloc; "{line}: {told}")?.into())
    }
}

/// Runs the lines as one list: each answer is the expected one. Returns the fault that ended the
/// list, and the number of answers before it.
pub fn runs<S: Alter>(
    alloc: Global,
    desk: &mut Desk<S>,
    lines: &str,
) -> Result<(usize, Option<Fault>), Fail> {
    let (replies, fault) = run(desk, alloc, &requests(alloc, lines)?);
    for (reply, line) in replies.iter().zip(lines.split('\n')) {
        tells(alloc, reply, line)?;
    }
    Ok((replies.len(), fault))
}

/// All lines get the expected answers.
pub fn check<S: Alter>(alloc: Global, desk: &mut Desk<S>, lines: &str) -> Result<(), Fail> {
    match runs(alloc, desk, lines)? {
        (answered, None) if answered == lines.split('\n').count() => Ok(()),
        (_, Some(fault)) => Err(fault.into()),
        _ => Err("an answer to each line".into()),
    }
}

/// Handles the small library's requests.
pub fn fill<S: Alter>(alloc: Global, desk: &mut Desk<S>) -> Result<(), Fail> {
    check(alloc, desk, GROUND)
}

/// The desk of the small library.
pub fn ground(alloc: Global) -> Result<Desk<MemStore>, Fail> {
    let mut desk = in_memory(alloc)?;
    fill(alloc, &mut desk)?;
    Ok(desk)
}

/// The desk over the same tables, reopened.
pub fn opened<S: Alter + Drop>(conn: Connection<S>) -> Result<Desk<S>, Fail> {
    Ok(desk_over(open(conn)?)?)
}

/// Adds a value and a bar to a text.
fn add_value(alloc: Global, text: &mut String, value: ValueRef<'_>) -> Result<(), Fail> {
    match value {
        ValueRef::Int(number) => text.push_str(format!(in alloc; "{number}")?.as_str())?,
        ValueRef::Text(bytes) => text.push_str(std::str::from_utf8(bytes)?)?,
        ValueRef::Null => text.push_str("none")?,
        _ => return Err("a value of no column".into()),
    }
    text.push('|')?;
    Ok(())
}

/// Adds all rows of a table to a text.
fn add_rows<S: Alter>(
    alloc: Global,
    text: &mut String,
    conn: &mut Connection<S>,
    table: &str,
) -> Result<(), Fail> {
    text.push('\n')?;
    let sql = format!(in alloc; "SELECT * FROM {table}")?;
    for row in &conn.query_all(&sql, &[])? {
        for at in 0..row.column_count() {
            add_value(alloc, text, row.get_ref(at)?)?;
        }
        text.push(';')?;
    }
    Ok(())
}

/// All rows of these tables, as one text.
pub fn rows_of<S: Alter>(
    alloc: Global,
    conn: &mut Connection<S>,
    tables: &str,
) -> Result<String, Fail> {
    let mut text = String::new(alloc);
    for table in tables.split(' ') {
        add_rows(alloc, &mut text, conn, table)?;
    }
    Ok(text)
}

/// All rows of all tables, as one text.
pub fn rows<S: Alter>(alloc: Global, conn: &mut Connection<S>) -> Result<String, Fail> {
    rows_of(alloc, conn, TABLES)
}

//! What is asked for at the desk, by the key that is shown; and files of keys.

use clerks::{Clerk, Clerks, Role};
use front::{KeysFault, read_clerks};
use std::alloc::Global;
use std::io::Read;
use std::test::Fail;
use terms::{Caller, CardKey, ClerkName, Command, Day, Key, PatronId, Question, Request};
use test_bytes::Drip;
use web::{Asked, WebRequest};

/// A key of a desk.
fn key_of(alloc: Global, text: &str) -> Result<CardKey, Fail> {
    match CardKey::new(alloc, text)? {
        Some(key) => Ok(key),
        None => Err("no key".into()),
    }
}

/// A clerk with a name.
fn clerk(alloc: Global, name: &str, role: Role, key: &str) -> Result<Clerk, Fail> {
    let Some(name) = ClerkName::new(alloc, name)? else {
        return Err("no name".into());
    };
    Ok(Clerk {
        name: Some(name),
        role,
        key: key_of(alloc, key)?,
    })
}

/// Two clerks, and a machine that only lends.
fn three(alloc: Global) -> Result<Clerks, Fail> {
    let mut each = Vec::new(alloc);
    each.push(clerk(alloc, "ann", Role::Desk, "annkey000001")?)?;
    each.push(clerk(alloc, "bo", Role::Desk, "bokey0000001")?)?;
    each.push(clerk(alloc, "kiosk", Role::Lending, "kioskkey0001")?)?;
    Ok(Clerks::new(each))
}

/// Under which key the desk is asked for this, where this key is shown; `-` if nothing is asked for.
fn asked(alloc: Global, clerks: &Clerks, shown: &str, command: Command) -> Result<String, Fail> {
    let request = WebRequest {
        patron: None,
        shown: Some(key_of(alloc, shown)?),
        key: Key::new(alloc, "r1")?,
        command,
    };
    match request.asked(alloc, clerks)? {
        Asked::Request(
            Request {
                caller: Caller::Desk,
                key,
                ..
            },
        ) => Ok(String::from_str(alloc, key.as_str())?),
        _ => Ok(String::from_str(alloc, "-")?),
    }
}

/// Each clerk's request has a key of its own. A machine that only lends is asked for a page, and may
/// not begin a day; a key that is nobody's opens nothing.
#[test]
fn a_clerk_is_known_by_the_key(rt: HostRuntime) -> Result<(), Fail> {
    let alloc = rt.alloc();
    let clerks = three(alloc)?;
    assert!(&rt; clerks.as_slice().len() == 3);
    for (shown, page, begun) in [
        ("annkey000001", "ann/r1", "ann/r1"),
        ("bokey0000001", "bo/r1", "bo/r1"),
        ("kioskkey0001", "kiosk/r1", "-"),
        ("annkey00001", "-", "-"),
        ("annkey0000011", "-", "-"),
        ("annkey000002", "-", "-"),
    ] {
        let patron = PatronId::new(1);
        let found = asked(alloc, &clerks, shown, Command::Page { patron })?;
        assert_eq!(&rt; found.as_str(), page);
        let found = asked(alloc, &clerks, shown, Command::BeginDay { day: Day::FIRST })?;
        assert_eq!(&rt; found.as_str(), begun);
        let found = asked(alloc, &clerks, shown, Command::Ask(Question::Today))?;
        assert_eq!(&rt; found.as_str(), page);
    }
    Ok(())
}

/// One key without a name opens the desk for everything, under the key that was given.
#[test]
fn one_key_opens_the_desk(rt: HostRuntime) -> Result<(), Fail> {
    let alloc = rt.alloc();
    let clerks = Clerks::sole(alloc, key_of(alloc, "deskkey00001")?)?;
    let begun = Command::BeginDay { day: Day::FIRST };
    assert_eq!(&rt;
        asked(alloc, &clerks, "deskkey00001", begun)?.as_str(),
        "r1"
    );
    let begun = Command::BeginDay { day: Day::FIRST };
    assert_eq!(&rt; asked(alloc, &clerks, "deskkey00002", begun)?.as_str(), "-");
    Ok(())
}

/// Reads a file of keys: the number of its clerks, or why it gives none.
fn clerks_in<R: Read + Drop>(alloc: Global, reader: R) -> Result<usize, KeysFault> {
    Ok(read_clerks(alloc, reader)?.as_slice().len())
}

/// Files of keys, and what they give.
const FILES: [(&str, Result<usize, KeysFault>); 12] = [
    ("ann desk annkey000001\n", Ok(1)),
    ("ann desk annkey000001\nkiosk lending kioskkey0001\n", Ok(2)),
    ("", Err(KeysFault::Line(1))),
    ("ann desk annkey000001", Err(KeysFault::Line(1))),
    ("ann  desk annkey000001\n", Err(KeysFault::Line(1))),
    ("ann clerk annkey000001\n", Err(KeysFault::Line(1))),
    ("ann desk annkey\n", Err(KeysFault::Line(1))),
    ("ann desk annkey000001\r\n", Err(KeysFault::Line(1))),
    ("# clerks\nann desk annkey000001\n", Err(KeysFault::Line(1))),
    (
        "ann desk annkey000001\nann desk bokey0000001\n",
        Err(KeysFault::Line(2)),
    ),
    (
        "ann desk annkey000001\nbo desk annkey000001\n",
        Err(KeysFault::Line(2)),
    ),
    ("ann desk annkey000001\n\n", Err(KeysFault::Line(2))),
];

/// A file of keys gives its clerks, or the number of its first wrong line; and a failed read is told,
/// wherever it fails.
#[test]
fn files_of_keys_are_read(rt: HostRuntime) -> Result<(), Fail> {
    let alloc = rt.alloc();
    for (text, want) in FILES {
        let told = clerks_in(alloc, text.as_bytes());
        assert!(&rt; told == want, "{text}");
        let told = clerks_in(alloc, Drip::failing(text.as_bytes()));
        assert!(&rt; told == Err(KeysFault::Read), "{text}");
    }
    Ok(())
}

//! Command-line arguments: what the program is asked to do.

ghost use Rattle.std.specs.Prelude.{◌≡◌, ◌<◌, ◌∷◌, [], ℕ, codes, IfOk, IfSome, IfNone};
ghost use Rattle.std.specs.Prelude.{MatchOption};
ghost use Rattle.std.specs.Fmt.{decimal};
ghost use Rattle.front.specs.Understood.{texts_of};
ghost use Rattle.circ.specs.Arguments.{HasArgument, report_words, IsPort, IsRun, IsNoRun};
ghost use Rattle.circ.specs.Arguments.{IsWorkers, IsEach, AreKeys, AreNoKeys};
ghost use Rattle.desk.specs.declared.reports.Report.{Report as Asked};

use desk::Report;
use hall_schedule::WORKERS;
use std::alloc::Global;
use terms::{BranchId, CardKey, Day, Key, Memory, PartKind, read_number};

/// What opens the desk.
#[derive(Drop)]
pub enum DeskKeys<'a> {
    /// One key for everybody.
    One(CardKey),
    /// `@FILE`: the clerks' keys, in a file.
    File(&'a str),
}

/// What the program is asked to do.
#[derive(Drop)]
pub enum Run<'a> {
    /// `file FILE KEY WORDS..`: handle one request of the desk on a library.
    File {
        path: &'a str,
        key: Key,
        words: &'a [String],
    },
    /// `import FILE COPIES`: import a copies file into a library.
    Import {
        path: &'a str,
        copies: &'a str,
    },
    /// `import --check COPIES`: check a copies file, without a library.
    Check {
        copies: &'a str,
    },
    /// `report FILE overdue B`, `report FILE till DAY`, `report FILE shelf B`: write a report on a
    /// library.
    Report {
        path: &'a str,
        report: Report,
    },
    /// `audit FILE`: check the laws of sound tables on a library.
    Audit {
        path: &'a str,
    },
    /// `audit FILE all`: the same to the end, with all findings.
    AuditAll {
        path: &'a str,
    },
    /// `migrate FILE`: bring a library to the newest schema.
    Migrate {
        path: &'a str,
    },
    /// `serve FILE PORT WORKERS EACH DESKKEY`: serve the web from a library with this many workers,
    /// each serving this many connections.
    Serve {
        path: &'a str,
        port: u16,
        workers: usize,
        each: u32,
        keys: DeskKeys<'a>,
    },
    /// `send PORT DESKKEY KEY WORDS..`: send one request of the desk to a serving program.
    Send {
        port: u16,
        keys: DeskKeys<'a>,
        key: Key,
        words: &'a [String],
    },
}

impl<'a> Run<'a> {
    /// Returns the library's path, if the run has one.
    pub fn library(&self) -> Option<&'a str> {
        match self {
            Run::File { path, .. }
            | Run::Import { path, .. }
            | Run::Report { path, .. }
            | Run::Audit { path }
            | Run::AuditAll { path }
            | Run::Migrate { path }
            | Run::Serve { path, .. } => Some(*path),
            Run::Check { .. } | Run::Send { .. } => None,
        }
    }

    /// Returns whether lines go out at once, so that what was reported was done: true for import
    /// and serve.
    pub fn tells_at_once(&self) -> bool {
        match self {
            Run::Import { .. } | Run::Serve { .. } => true,
            _ => false,
        }
    }
}

/// What an argument has to be.
#[derive(Clone, Copy)]
pub enum ArgumentForm {
    /// A word as in commands.
    Part(PartKind),
    /// As the text says.
    Other(&'static str),
}

/// An argument that isn't what it has to be.
#[derive(Clone, Copy)]
pub struct WrongArgument {
    /// Its name in the usage.
    pub name: &'static str,
    pub form: ArgumentForm,
}

/// Makes an error: the argument has to be what the text says.
fn other(name: &'static str, text: &'static str) -> WrongArgument {
    WrongArgument {
        name,
        form: ArgumentForm::Other(text),
    }
}

/// Makes an error: the argument has to be of this kind.
fn part(name: &'static str, kind: PartKind) -> WrongArgument {
    WrongArgument {
        name,
        form: ArgumentForm::Part(kind),
    }
}

/// Makes the error for a bad port.
fn wrong_port() -> WrongArgument {
    other("PORT", "a number from 1 to 65535, without a leading zero")
}

/// Reads a request on a file: a well-formed key and at least one word.
fn read_file<'a>(alloc: Global, words: &'a [String]) -> Result<Option<Run<'a>>, Memory>
    ensures { let asked = codes "file" ∷ texts_of words.now in
        IfOk result (λ o. MatchOption o (IsNoRun asked) (IsRun asked)) }
{
    let [path, key, words @ ..] = words else {
        return Ok(None);
    };
    if words.is_empty() {
        return Ok(None);
    }
    match Key::new(alloc, key.as_str())? {
        Some(key) => Ok(Some(Run::File {
            path: path.as_str(),
            key,
            words,
        })),
        None => Ok(None),
    }
}

/// The word in place of a library's path if a copies file is only checked.
const CHECK: &str = "--check";

/// Returns the check of a copies file, if the path is the word for it, or an import into the library
/// there.
fn import_or_check<'a>(path: &'a str, copies: &'a str) -> Run<'a>
    ensures { IsRun (codes "import" ∷ path.now ∷ copies.now ∷ []) result }
{
    if path == CHECK {
        Run::Check { copies }
    } else {
        Run::Import { path, copies }
    }
}

/// Reads an import or a check: exactly two words, the second the path of a copies file.
fn read_import_run<'a>(words: &'a [String]) -> Option<Run<'a>>
    ensures { let asked = codes "import" ∷ texts_of words.now in
        MatchOption result (IsNoRun asked) (IsRun asked) }
{
    let [path, copies] = words else {
        return None;
    };
    Some(import_or_check(path.as_str(), copies.as_str()))
}

/// Reads a report by name, with its day or branch.
fn read_report(name: &str, argument: &str) -> Option<Report>
    ensures forms { IfSome result HasArgument }
    ensures written { IfSome result
        (λ report. name.now ∷ argument.now ∷ [] ≡ report_words report) }
    ensures none { IfNone result ((report : Asked) → HasArgument report
        → name.now ∷ argument.now ∷ [] ≡ report_words report → ⊥) }
{
    match name {
        "overdue" => Some(Report::Overdue(BranchId::new(read_number(argument)?))),
        "till" => Some(Report::Till(Day::read(argument)?)),
        "shelf" => Some(Report::Shelf(BranchId::new(read_number(argument)?))),
        _ => None,
    }
}

/// Reads a report on a file: exactly its path, its name and one argument.
fn read_report_run<'a>(words: &'a [String]) -> Option<Run<'a>>
    ensures { let asked = codes "report" ∷ texts_of words.now in
        MatchOption result (IsNoRun asked) (IsRun asked) }
{
    let [path, name, argument] = words else {
        return None;
    };
    let report = read_report(name.as_str(), argument.as_str())?;
    Some(Run::Report {
        path: path.as_str(),
        report,
    })
}

/// The word behind a library's path if an audit goes on to all findings.
const ALL: &str = "all";

/// Returns the audit of all findings of the library there, if that is the word for it.
fn audit_with<'a>(path: &'a str, word: &str) -> Option<Run<'a>>
    ensures { let asked = codes "audit" ∷ path.now ∷ word.now ∷ [] in
        MatchOption result (IsNoRun asked) (IsRun asked) }
{
    if word == ALL {
        Some(Run::AuditAll { path })
    } else {
        None
    }
}

/// Reads an audit: exactly one path, or a path and the word for all findings.
fn read_audit_run<'a>(words: &'a [String]) -> Option<Run<'a>>
    ensures { let asked = codes "audit" ∷ texts_of words.now in
        MatchOption result (IsNoRun asked) (IsRun asked) }
{
    match words {
        [path] => Some(Run::Audit {
            path: path.as_str(),
        }),
        [path, word] => audit_with(path.as_str(), word.as_str()),
        _ => None,
    }
}

/// Reads a migration: exactly one path.
fn read_migrate_run<'a>(words: &'a [String]) -> Option<Run<'a>>
    ensures { let asked = codes "migrate" ∷ texts_of words.now in
        MatchOption result (IsNoRun asked) (IsRun asked) }
{
    let [path] = words else {
        return None;
    };
    Some(Run::Migrate {
        path: path.as_str(),
    })
}

/// Reads a port: a number from 1 on.
fn read_port(text: &str) -> Option<u16>
    ensures port { IfSome result IsPort }
    ensures written { IfSome result (λ port. text.now ≡ decimal port) }
    ensures none { IfNone result ((port : ℕ) → IsPort port → text.now ≡ decimal port → ⊥) }
{
    match u16::try_from(read_number(text)?) {
        Ok(0) | Err(_) => None,
        Ok(port) => Some(port),
    }
}

/// Reads the number of workers: 1 to 8.
fn read_workers(text: &str) -> Option<usize>
    ensures workers { IfSome result IsWorkers }
    ensures written { IfSome result (λ workers. text.now ≡ decimal workers) }
    ensures none { IfNone result ((workers : ℕ) → IsWorkers workers
        → text.now ≡ decimal workers → ⊥) }
{
    let workers = read_number(text)?;
    if workers == 0 || u64::from(workers) > WORKERS {
        return None;
    }
    Some(workers as usize)
}

/// The most connections that a worker serves.
const MOST_CONNECTIONS: u32 = 1_000_000;

/// Reads how many connections a worker serves: at least one.
fn read_each(text: &str) -> Option<u32>
    ensures each { IfSome result IsEach }
    ensures written { IfSome result (λ each. text.now ≡ decimal each) }
    ensures none { IfNone result ((each : ℕ) → IsEach each → text.now ≡ decimal each → ⊥) }
{
    let each = read_number(text)?;
    if each == 0 || each > MOST_CONNECTIONS {
        return None;
    }
    Some(each)
}

/// Reads what opens the desk: a key, or a file's path behind `@`.
fn read_keys<'a>(alloc: Global, word: &'a str) -> Result<Option<DeskKeys<'a>>, Memory>
    ensures { IfOk result (λ o. MatchOption o (AreNoKeys word.now) (AreKeys word.now)) }
{
    match word.strip_prefix('@') {
        Some(path) if path.is_empty() => Ok(None),
        Some(path) => Ok(Some(DeskKeys::File(path))),
        None => match CardKey::new(alloc, word)? {
            Some(key) => Ok(Some(DeskKeys::One(key))),
            None => Ok(None),
        },
    }
}

/// Reads a serve run from its five words.
fn read_settings<'a>(
    alloc: Global,
    path: &'a str,
    port: &str,
    workers: &str,
    each: &str,
    keys: &'a str,
) -> Result<Option<Run<'a>>, Memory>
    ensures { let asked = codes "serve" ∷ path.now ∷ port.now ∷ workers.now ∷ each.now
        ∷ keys.now ∷ [] in
        IfOk result (λ o. MatchOption o (IsNoRun asked) (IsRun asked)) }
{
    let Some(port) = read_port(port) else {
        return Ok(None);
    };
    let Some(workers) = read_workers(workers) else {
        return Ok(None);
    };
    let Some(each) = read_each(each) else {
        return Ok(None);
    };
    match read_keys(alloc, keys)? {
        Some(keys) => Ok(Some(Run::Serve {
            path,
            port,
            workers,
            each,
            keys,
        })),
        None => Ok(None),
    }
}

/// Reads a serve run: exactly a path and four more words.
fn read_serve<'a>(alloc: Global, words: &'a [String]) -> Result<Option<Run<'a>>, Memory>
    ensures { let asked = codes "serve" ∷ texts_of words.now in
        IfOk result (λ o. MatchOption o (IsNoRun asked) (IsRun asked)) }
{
    let [path, port, workers, each, keys] = words else {
        return Ok(None);
    };
    read_settings(
        alloc,
        path.as_str(),
        port.as_str(),
        workers.as_str(),
        each.as_str(),
        keys.as_str(),
    )
}

/// Reads a send run: well-formed keys and at least one word.
fn read_send<'a>(alloc: Global, words: &'a [String]) -> Result<Option<Run<'a>>, Memory>
    ensures { let asked = codes "send" ∷ texts_of words.now in
        IfOk result (λ o. MatchOption o (IsNoRun asked) (IsRun asked)) }
{
    let [port, keys, key, words @ ..] = words else {
        return Ok(None);
    };
    if words.is_empty() {
        return Ok(None);
    }
    let Some(port) = read_port(port.as_str()) else {
        return Ok(None);
    };
    let Some(keys) = read_keys(alloc, keys.as_str())? else {
        return Ok(None);
    };
    match Key::new(alloc, key.as_str())? {
        Some(key) => Ok(Some(Run::Send {
            port,
            keys,
            key,
            words,
        })),
        None => Ok(None),
    }
}

/// Returns the error if the request key is malformed.
fn wrong_key(alloc: Global, key: &str) -> Result<Option<WrongArgument>, Memory> {
    match Key::new(alloc, key)? {
        Some(_) => Ok(None),
        None => Ok(Some(other("KEY", "1 to 40 ASCII letters, digits and hyphens"))),
    }
}

/// Returns the error if it is neither a desk key nor `@` and a path.
fn wrong_keys(alloc: Global, word: &str) -> Result<Option<WrongArgument>, Memory> {
    match read_keys(alloc, word)? {
        Some(_) => Ok(None),
        None => Ok(Some(other(
            "DESKKEY",
            "8 to 32 ASCII letters and digits, or @ and the path of a file of keys",
        ))),
    }
}

/// Finds the first wrong argument of a report.
fn wrong_report(name: &str, argument: &str) -> Option<WrongArgument> {
    match name {
        "overdue" | "shelf" if read_number(argument).is_none() => {
            Some(part("BRANCH", PartKind::Number))
        }
        "till" if Day::read(argument).is_none() => Some(part("DAY", PartKind::Day)),
        "overdue" | "shelf" | "till" => None,
        _ => Some(other("the report", "overdue, till or shelf")),
    }
}

/// Finds the first wrong argument of a serve run.
fn wrong_serve(
    alloc: Global,
    port: &str,
    workers: &str,
    each: &str,
    keys: &str,
) -> Result<Option<WrongArgument>, Memory> {
    if read_port(port).is_none() {
        return Ok(Some(wrong_port()));
    }
    if read_workers(workers).is_none() {
        return Ok(Some(other("WORKERS", "a number from 1 to 8")));
    }
    if read_each(each).is_none() {
        return Ok(Some(other("EACH", "a number from 1 to 1000000, without a leading zero")));
    }
    wrong_keys(alloc, keys)
}

/// Finds the first wrong argument when `read_run` doesn't understand the words. None if their
/// number is wrong or the first word is no run.
pub fn wrong_argument(alloc: Global, words: &[String]) -> Result<Option<WrongArgument>, Memory> {
    let [run, words @ ..] = words else {
        return Ok(None);
    };
    match (run.as_str(), words) {
        ("file", [_, key, _, ..]) => wrong_key(alloc, key.as_str()),
        ("report", [_, name, argument]) => Ok(wrong_report(name.as_str(), argument.as_str())),
        ("audit", [_, _]) => Ok(Some(other("the word after LIBRARY", "all"))),
        ("serve", [_, port, workers, each, keys]) => wrong_serve(
            alloc,
            port.as_str(),
            workers.as_str(),
            each.as_str(),
            keys.as_str(),
        ),
        ("send", [port, _, _, _, ..]) if read_port(port.as_str()).is_none() => Ok(Some(
            wrong_port(),
        )),
        ("send", [_, keys, key, _, ..]) => {
            match wrong_keys(alloc, keys.as_str())? {
                Some(wrong) => Ok(Some(wrong)),
                None => wrong_key(alloc, key.as_str()),
            }
        }
        _ => Ok(None),
    }
}

/// Reads the run that the words ask for; None if not understood. A request's own words are read
/// later.
pub fn read_run<'a>(alloc: Global, words: &'a [String]) -> Result<Option<Run<'a>>, Memory>
    ensures { IfOk result
        (λ o. MatchOption o (IsNoRun (texts_of words.now)) (IsRun (texts_of words.now))) }
{
    let [first, words @ ..] = words else {
        return Ok(None);
    };
    match first.as_str() {
        "file" => read_file(alloc, words),
        "import" => Ok(read_import_run(words)),
        "report" => Ok(read_report_run(words)),
        "audit" => Ok(read_audit_run(words)),
        "migrate" => Ok(read_migrate_run(words)),
        "serve" => read_serve(alloc, words),
        "send" => read_send(alloc, words),
        _ => Ok(None),
    }
}

//! A hall over a new library in memory, whose tables show the empty list: each reply and page
//! follows the rules.

ghost use Rattle.std.specs.Prelude.{◌≡◌, []};
ghost use Rattle.model.specs.History.{History};

use crate::bytes::gets;
use crate::calls::{close, handle_all, leave, open_in_memory, open_queue};
use crate::visits::{Visit, meet};
use hall::{Opened, Opening, Worker};
use std::alloc::Global;
use std::marker::Brand;
use std::process::Abort;
use std::sync::Wait;
use std::test::Fail;
use std::thread::Threads;

/// What is asked for.
#[derive(Clone, Copy)]
enum Asks {
    /// The desk, with a key: words separated by bars.
    Desk(&'static str, &'static str),
    /// A patron, with a key: a route below the patron's own, with a body.
    Patron(u32, &'static str, &'static str, &'static str),
    /// A patron's page, with this patron's card key.
    Page(u32, u32),
}

const OK: &str = "200 OK {\"reply\":\"ok\"}";

const NOT_ALLOWED: &str = "403 Forbidden {\"refusal\":81}";

const LENT: &str =
    "200 OK {\"reply\":\"patron 1 owed 0 name Ann Bell\\nloan 1 due 2026-03-09 renewals 1 title 100 Rivers of the North\"}";

/// The number of requests.
const COUNT: usize = 34;

/// Successive requests, each with the status and body of its answer by the rules.
const STORY: [(Asks, &str); COUNT] = [
    // nobody is enrolled
    (Asks::Page(1, 1), NOT_ALLOWED),
    (Asks::Desk("g0", "page|1"), "409 Conflict {\"refusal\":11}"),
    (Asks::Desk("g1", "begin-day|2026-03-02"), OK),
    (Asks::Desk("g2", "branch|1|5|Main"), OK),
    (Asks::Desk("g3", "week|1|ooooooc"), OK),
    (Asks::Desk("g4", "kind|1|5|5|500"), OK),
    (Asks::Desk("g5", "rule|1|1|6|1|20|100"), OK),
    (Asks::Desk("g6", "patron|1|1|cardkey00001|Ann Bell"), OK),
    (Asks::Desk("g7", "patron|2|1|cardkey00002|Bo Carr"), OK),
    (
        Asks::Desk("g8", "acquire|10|100|1|1|2500|Rivers of the North"),
        OK,
    ),
    (
        Asks::Page(1, 1),
        "200 OK {\"reply\":\"patron 1 owed 0 name Ann Bell\"}",
    ),
    // six days on is a Sunday
    (
        Asks::Desk("k1", "check-out|1|10|1"),
        "200 OK {\"reply\":\"loan 1 due 2026-03-09\"}",
    ),
    (Asks::Page(1, 1), LENT),
    (Asks::Page(1, 2), NOT_ALLOWED),
    (
        Asks::Patron(2, "h1", "/holds", "{\"branch\":1,\"title\":100}"),
        "200 OK {\"reply\":\"hold 1\"}",
    ),
    (
        Asks::Page(2, 2),
        "200 OK {\"reply\":\"patron 2 owed 0 name Bo Carr\\nhold 1 at 1 waiting title 100 Rivers of the North\"}",
    ),
    // another's hold is in line
    (
        Asks::Patron(1, "r1", "/loans/1/renew", ""),
        "409 Conflict {\"refusal\":36}",
    ),
    (Asks::Page(1, 1), LENT),
    (
        Asks::Desk("k2", "check-in|10|1"),
        "200 OK {\"reply\":\"fine 0 ready 1 at 1 until 2026-03-07\"}",
    ),
    (
        Asks::Page(2, 2),
        "200 OK {\"reply\":\"patron 2 owed 0 name Bo Carr\\nhold 1 at 1 ready title 100 Rivers of the North\"}",
    ),
    (
        Asks::Page(1, 1),
        "200 OK {\"reply\":\"patron 1 owed 0 name Ann Bell\"}",
    ),
    (
        Asks::Desk("k3", "check-out|1|10|1"),
        "409 Conflict {\"refusal\":33}",
    ),
    (
        Asks::Desk("k4", "check-out|2|10|1"),
        "200 OK {\"reply\":\"loan 2 due 2026-03-09\"}",
    ),
    (
        Asks::Page(2, 2),
        "200 OK {\"reply\":\"patron 2 owed 0 name Bo Carr\\nloan 2 due 2026-03-09 renewals 1 title 100 Rivers of the North\"}",
    ),
    (Asks::Desk("g9", "begin-day|2026-03-17"), OK),
    (
        Asks::Patron(2, "r1", "/loans/2/renew", ""),
        "409 Conflict {\"refusal\":41}",
    ),
    // seven open days late; five reach the cap
    (
        Asks::Desk("k5", "check-in|10|1"),
        "200 OK {\"reply\":\"fine 100 shelf 1\"}",
    ),
    (
        Asks::Page(2, 2),
        "200 OK {\"reply\":\"patron 2 owed 100 name Bo Carr\"}",
    ),
    (
        Asks::Desk("k6", "pay|2|60"),
        "200 OK {\"reply\":\"owed 40\"}",
    ),
    // the same key again pays nothing
    (
        Asks::Desk("k6", "pay|2|60"),
        "200 OK {\"reply\":\"owed 40\"}",
    ),
    (
        Asks::Desk("k6", "pay|2|40"),
        "409 Conflict {\"refusal\":80}",
    ),
    (
        Asks::Desk("g0", "page|2"),
        "200 OK {\"reply\":\"patron 2 owed 40 name Bo Carr\"}",
    ),
    (
        Asks::Page(2, 2),
        "200 OK {\"reply\":\"patron 2 owed 40 name Bo Carr\"}",
    ),
    (Asks::Page(3, 2), NOT_ALLOWED),
];

/// The bytes of a request. None if memory ran out.
fn bytes_of(alloc: Global, asks: Asks) -> Option<String> {
    match asks {
        Asks::Desk(key, words) => {
            let words = words.replace(alloc, "|", "\",\"").ok()?;
            let body = format!(in alloc; "[\"{words}\"]").ok()?;
            let size = body.len();
            format!(in alloc;
                "POST /desk HTTP/1.1\r\nDesk-Key: deskkey00001\r\nRequest-Key: {key}\r\nContent-Length: {size}\r\n\r\n{body}"
            ).ok()
        }
        Asks::Patron(patron, key, route, body) => {
            let size = body.len();
            format!(in alloc;
                "POST /patrons/{patron}{route} HTTP/1.1\r\nCard-Key: cardkey0000{patron}\r\nRequest-Key: {key}\r\nContent-Length: {size}\r\n\r\n{body}"
            ).ok()
        }
        Asks::Page(patron, by) => {
            format!(in alloc;
                "GET /patrons/{patron} HTTP/1.1\r\nCard-Key: cardkey0000{by}\r\n\r\n"
            ).ok()
        }
    }
}

/// The requests, asked of the two workers in turn.
#[derive(Clone, Copy)]
struct InTurn;

impl Visit for InTurn {
    /// How many answers are right.
    type Found = usize;

    fn ask<J: Opening, R: Wait>(
        self,
        rt: &R,
        alloc: Global,
        one: &mut Worker<J>,
        two: &mut Worker<J>,
    ) -> Option<usize> {
        let mut count = 0usize;
        let mut is_first = true;
        for (asks, text) in STORY {
            let worker = if is_first { &mut *one } else { &mut *two };
            if gets(rt, alloc, worker, &bytes_of(alloc, asks)?, text)? {
                count = count.wrapping_add(1);
            }
            is_first = !is_first;
        }
        Some(count)
    }
}

/// A hall of two over a new library: how many answers were right, and how many submissions were
/// handled.
fn run_in_turn<
    J: Opening + Send + Sync + 'static,
    R: Threads + Wait + Abort + Copy + Send + 'static,
>(rt: R, alloc: Global, opened: Opened) -> Result<(Option<usize>, u64), Fail>
    requires name { (opened.queue ≡ J.name) × (opened.blank ≡ J.book) }
    requires shows { (H : History) → J.shows H → H ≡ [] }
{
    let Ok((side, all)) = open_in_memory::<J, R>(&rt, alloc, opened, 2) else {
        return Err("a hall".into());
    };
    let (count, _desk, handled, fault) = meet(rt, alloc, side, all, InTurn);
    assert!(&rt; fault == None);
    Ok((count, handled))
}

/// Each reply and page follows the rules, and what was submitted was handled.
#[test]
fn a_new_library_in_memory(rt: HostRuntime) -> Result<(), Fail> {
    let alloc = rt.alloc();
    let met = run_in_turn::<Brand, _>(rt, alloc, open_queue(alloc)?)?;
    assert!(&rt; met == (Some(COUNT), 20), "{met:?}");
    Ok(())
}

/// A hall over a new library can't have this many workers.
fn refuse<J: Opening, R: Wait + Abort>(
    rt: &R,
    alloc: Global,
    opened: Opened,
    workers: usize,
) -> Result<(), Fail>
    requires name { (opened.queue ≡ J.name) × (opened.blank ≡ J.book) }
    requires shows { (H : History) → J.shows H → H ≡ [] }
{
    match open_in_memory::<J, _>(rt, alloc, opened, workers) {
        Ok((side, all)) => {
            for worker in all {
                let _ = leave(rt, worker);
            }
            let (_, ended, _) = handle_all(rt, alloc, side);
            close(rt, ended);
            Err("no hall".into())
        }
        Err(number) => {
            assert!(rt; number == 21);
            Ok(())
        }
    }
}

#[test]
fn no_new_library_for_none_or_nine(rt: HostRuntime) -> Result<(), Fail> {
    let alloc = rt.alloc();
    refuse::<Brand, _>(&rt, alloc, open_queue(alloc)?, 0)?;
    refuse::<Brand, _>(&rt, alloc, open_queue(alloc)?, 9)
}

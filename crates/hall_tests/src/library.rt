//! A library of eight patrons with their holds, as requests and as bytes of connections.

use desk::Desk;
use sqlite::types::ValueRef;
use sqlite::{Connection, MemStore};
use std::alloc::Global;
use std::test::Fail;
use terms::Request;
use test_library::{in_memory, request, run};

/// The requests that make the library: the desk, a key, words, and after a bar a last word with
/// blanks. There are eight patrons, with up to fifty holds each, and three titles.
const GROUND: &str = "desk g1 begin-day 2026-03-02
desk g2 branch 1 5|Main
desk g3 week 1 ooooooc
desk g4 kind 1 5 50 500
desk g5 rule 1 1 6 1 20 100
desk p1 patron 1 1 cardkey00001|Ann Bell
desk p2 patron 2 1 cardkey00002|Bo Carr
desk p3 patron 3 1 cardkey00003|Cy Dunn
desk p4 patron 4 1 cardkey00004|Di East
desk p5 patron 5 1 cardkey00005|Ed Ford
desk p6 patron 6 1 cardkey00006|Flo Gray
desk p7 patron 7 1 cardkey00007|Gus Hale
desk p8 patron 8 1 cardkey00008|Hal Ives
desk c1 acquire 10 100 1 1 2500|Rivers of the North
desk c2 acquire 20 200 1 1 1200|Salt Roads
desk c3 acquire 30 300 1 1 800|Night Ferries";

/// How many holds each worker's patron places by default.
pub const HOLDS: u64 = 3;

/// The title of the hold with this number; from the fourth on, also the copy acquired for it.
fn title(number: u64) -> u64 {
    if number <= HOLDS {
        number.wrapping_mul(100)
    } else {
        number.wrapping_add(400)
    }
}

/// What the desk is asked for each title from the fourth up to this one.
fn add_titles(alloc: Global, list: &mut Vec<Request>, titles: u64) -> Result<(), Fail> {
    for number in HOLDS + 1..titles.saturating_add(1) {
        let title = title(number);
        let text = format!(in alloc;
            "desk t{number} acquire {title} {title} 1 1 800|Book {number}"
        )?;
        list.push(request(alloc, &text)?)?;
    }
    Ok(())
}

/// The desk of the small library.
pub fn library(alloc: Global) -> Result<Desk<MemStore>, Fail> {
    library_of(alloc, HOLDS)
}

/// The same with this many titles.
pub fn library_of(alloc: Global, titles: u64) -> Result<Desk<MemStore>, Fail> {
    let mut desk = in_memory(alloc)?;
    let mut list = Vec::new(alloc);
    for line in GROUND.split('\n') {
        list.push(request(alloc, line)?)?;
    }
    add_titles(alloc, &mut list, titles)?;
    let (replies, fault) = run(&mut desk, alloc, &list);
    if replies.len() != list.len() || fault.is_some() {
        return Err("a library".into());
    }
    Ok(desk)
}

/// The hold of a worker's patron on the title with this number, as a request.
pub fn hold(alloc: Global, worker: u64, number: u64) -> Result<Request, Fail> {
    let title = title(number);
    let text = format!(in alloc;
        "{worker}/cardkey0000{worker} h{number} place-hold {worker} {title} 1"
    )?;
    request(alloc, &text)
}

/// The holds of a worker's patron.
pub fn holds(alloc: Global, worker: u64) -> Result<Vec<Request>, Fail> {
    let mut list = Vec::new(alloc);
    for number in 1..HOLDS + 1 {
        list.push(hold(alloc, worker, number)?)?;
    }
    Ok(list)
}

/// The same hold as a connection's bytes. None if memory ran out.
pub fn hold_bytes(alloc: Global, worker: u64, number: u64) -> Option<String> {
    let title = title(number);
    format!(in alloc;
        "POST /patrons/{worker}/holds HTTP/1.1\r\nCard-Key: cardkey0000{worker}\r\nRequest-Key: h{number}\r\nContent-Length: 24\r\n\r\n{{\"branch\":1,\"title\":{title}}}"
    ).ok()
}

/// A look at the page of a worker's patron, as a connection's bytes.
pub fn page_bytes(alloc: Global, worker: u64) -> Option<String> {
    format!(in alloc;
        "GET /patrons/{worker} HTTP/1.1\r\nCard-Key: cardkey0000{worker}\r\n\r\n"
    ).ok()
}

/// The patrons of the holds, by number: since each hold gets the next number, this is the order in
/// which the requests were handled.
pub fn order(alloc: Global, conn: &mut Connection<MemStore>) -> Result<Vec<i64>, Fail> {
    let mut patrons = Vec::new(alloc);
    for row in &conn.query_all("SELECT patron FROM holds2 ORDER BY hold", &[])? {
        match row.get_ref(0)? {
            ValueRef::Int(patron) => patrons.push(patron)?,
            _ => return Err("a patron".into()),
        }
    }
    Ok(patrons)
}

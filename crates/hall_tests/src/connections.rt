//! Connections of two workers, with readers that fail after some bytes and writers that take only
//! some.

use crate::bytes::{answer, gets, served};
use crate::calls::connection;
use crate::library::{HOLDS, library};
use crate::tests::rows_of_run;
use crate::visits::{Visit, run_over};
use hall::{Opening, Worker};
use std::alloc::Global;
use std::process::Abort;
use std::sync::Wait;
use std::test::Fail;
use std::thread::Threads;
use test_bytes::Drip;
use test_library::rows;

const HOLD: &str =
    "POST /patrons/2/holds HTTP/1.1\r\nCard-Key: cardkey00002\r\nRequest-Key: h1\r\nContent-Length: 24\r\n\r\n{\"branch\":1,\"title\":100}";

const HELD: &str = "200 OK {\"reply\":\"hold 1\"}";

const ANNS_PAGE: &str = "200 OK {\"reply\":\"patron 1 owed 0 name Ann Bell\"}";

/// A request, with the status and the body of its answer.
type Asked = (&'static str, &'static str);

/// A patron's page with that hold.
const BO_LOOKS: Asked = (
    "GET /patrons/2 HTTP/1.1\r\nCard-Key: cardkey00002\r\n\r\n",
    "200 OK {\"reply\":\"patron 2 owed 0 name Bo Carr\\nhold 1 at 1 waiting title 100 Rivers of the North\"}",
);

/// The page of another patron, which is the same before and after.
const ANN_LOOKS: Asked = (
    "GET /patrons/1 HTTP/1.1\r\nCard-Key: cardkey00001\r\n\r\n",
    ANNS_PAGE,
);

/// A head that is cut in its middle.
const CUT_HEAD: Asked = ("GET /patrons/1 HT", "400 Bad Request {\"status\":400}");

/// Successive requests.
const ANSWERED: [Asked; 14] = [
    (HOLD, HELD),
    BO_LOOKS,
    ANN_LOOKS,
    (
        "GET /patrons/2 HTTP/1.1\r\nCard-Key: cardkey00001\r\n\r\n",
        "403 Forbidden {\"refusal\":81}",
    ),
    (
        "GET /patrons/9 HTTP/1.1\r\nCard-Key: cardkey00001\r\n\r\n",
        "403 Forbidden {\"refusal\":81}",
    ),
    (
        "POST /desk HTTP/1.1\r\nDesk-Key: deskkey00002\r\nRequest-Key: d1\r\nContent-Length: 26\r\n\r\n[\"check-out\",\"1\",\"10\",\"1\"]",
        "403 Forbidden {\"refusal\":81}",
    ),
    (
        "POST /desk HTTP/1.1\r\nDesk-Key: deskkey00001\r\nRequest-Key: d1\r\nContent-Length: 26\r\n\r\n[\"check-out\",\"3\",\"30\",\"1\"]",
        "200 OK {\"reply\":\"loan 1 due 2026-03-09\"}",
    ),
    (
        "POST /patrons/1/loans/1/renew HTTP/1.1\r\nCard-Key: cardkey00001\r\nRequest-Key: r1\r\n\r\n",
        "409 Conflict {\"refusal\":14}",
    ),
    (
        "POST /desk HTTP/1.1\r\nDesk-Key: deskkey00001\r\nRequest-Key: d2\r\nContent-Length: 12\r\n\r\n[\"page\",\"1\"]",
        ANNS_PAGE,
    ),
    (
        "POST /desk HTTP/1.1\r\nDesk-Key: deskkey00001\r\nRequest-Key: d3\r\nContent-Length: 12\r\n\r\n[\"page\",\"9\"]",
        "409 Conflict {\"refusal\":11}",
    ),
    (
        "POST /patrons/5/holds HTTP/1.1\r\nCard-Key: cardkey00005\r\nRequest-Key: h1\r\nContent-Length: 44\r\n\r\n{\"branch\":1,\"from\":\"2026-03-05\",\"title\":100}",
        "200 OK {\"reply\":\"hold 2\"}",
    ),
    (
        "GET /patrons/5 HTTP/1.1\r\nCard-Key: cardkey00005\r\n\r\n",
        "200 OK {\"reply\":\"patron 5 owed 0 name Ed Ford\\nhold 2 at 1 waiting from 2026-03-05 title 100 Rivers of the North\"}",
    ),
    (
        "POST /patrons/4/holds HTTP/1.1\r\nCard-Key: cardkey00004\r\nRequest-Key: h1\r\nContent-Length: 44\r\n\r\n{\"branch\":1,\"from\":\"2026-03-02\",\"title\":100}",
        "409 Conflict {\"refusal\":23}",
    ),
    CUT_HEAD,
];

/// What the first of two workers is asked for: a hold between looks at pages.
const ASKED_OF_ONE: [Asked; 4] = [ANN_LOOKS, (HOLD, HELD), BO_LOOKS, ANN_LOOKS];

/// What the second is asked for after that.
const ASKED_OF_TWO: [Asked; 3] = [CUT_HEAD, BO_LOOKS, ANN_LOOKS];

/// What is done with two workers.
#[derive(Clone, Copy)]
enum Deed {
    /// Each kind of request is answered by the first.
    Answers,
    /// The first answers a hold and shows it; the second gets a truncated head, and shows the hold
    /// too.
    Shares,
    /// A hold's answer is cut after each byte, then received whole.
    Cuts,
    /// Reads fail after each byte of a hold; another hold is the first. No read is made after the
    /// last byte.
    Breaks,
}

/// How many of these requests get their answers.
fn answers<J: Opening, R: Wait>(
    rt: &R,
    alloc: Global,
    worker: &mut Worker<J>,
    asked: &[Asked],
) -> Option<usize> {
    let mut count = 0usize;
    for (request, text) in asked {
        if gets(rt, alloc, worker, request, text)? {
            count = count.wrapping_add(1);
        }
    }
    Some(count)
}

/// How many requests to one worker, and then to the other, get their answers.
fn shares<J: Opening, R: Wait>(
    rt: &R,
    alloc: Global,
    one: &mut Worker<J>,
    two: &mut Worker<J>,
) -> Option<usize> {
    let first = answers(rt, alloc, one, &ASKED_OF_ONE)?;
    let second = answers(rt, alloc, two, &ASKED_OF_TWO)?;
    Some(first.saturating_add(second))
}

/// How often a hold's answer is cut where the writer stops; and whether it is received then.
fn cuts<J: Opening, R: Wait>(rt: &R, alloc: Global, worker: &mut Worker<J>) -> Option<usize> {
    let text = answer(alloc, HELD)?;
    let mut count = 0usize;
    for room in 0..text.len() {
        let (taken, is_whole) = served(rt, alloc, worker, HOLD.as_bytes(), room)?;
        let is_beginning = text.as_bytes().starts_with(taken.as_slice());
        if !is_whole && is_beginning && taken.len() == room {
            count = count.wrapping_add(1);
        }
    }
    if gets(rt, alloc, worker, HOLD, HELD)? {
        count = count.wrapping_add(1);
    }
    Some(count)
}

/// How often a failed read gives no answer, and then another hold is the first.
fn breaks<J: Opening, R: Wait>(rt: &R, alloc: Global, worker: &mut Worker<J>) -> Option<usize> {
    let bytes = HOLD.as_bytes();
    let mut count = 0usize;
    for size in 0..bytes.len() {
        let reader = Drip::failing(&bytes[..size]);
        let (taken, is_whole) = served(rt, alloc, worker, reader, 100_000)?;
        if !is_whole && taken.is_empty() {
            count = count.wrapping_add(1);
        }
    }
    let other = HOLD.replace(alloc, "h1", "h2").ok()?;
    if gets(rt, alloc, worker, other.as_str(), HELD)? {
        count = count.wrapping_add(1);
    }
    let (_, is_whole) = served(rt, alloc, worker, Drip::failing(bytes), 100_000)?;
    if is_whole {
        count = count.wrapping_add(1);
    }
    Some(count)
}

impl Visit for Deed {
    /// How often it succeeded.
    type Found = usize;

    fn ask<J: Opening, R: Wait>(
        self,
        rt: &R,
        alloc: Global,
        one: &mut Worker<J>,
        two: &mut Worker<J>,
    ) -> Option<usize> {
        match self {
            Deed::Answers => answers(rt, alloc, one, &ANSWERED),
            Deed::Shares => shares(rt, alloc, one, two),
            Deed::Cuts => cuts(rt, alloc, one),
            Deed::Breaks => breaks(rt, alloc, one),
        }
    }
}

/// How often it succeeded, how many submissions were handled, and all rows at the end.
fn done<R: Threads + Wait + Abort + Copy + Send + 'static>(
    rt: R,
    alloc: Global,
    deed: Deed,
) -> Result<(usize, u64, String), Fail> {
    let Ok((count, desk, handled, fault)) = run_over(rt, alloc, library(alloc)?, None, deed)? else {
        return Err("a hall".into());
    };
    assert!(&rt; fault == None);
    let text = rows(alloc, &mut connection(desk))?;
    Ok((count.ok_or("answers")?, handled, text))
}

/// A worker that answers some kind of request with a fault, or breaks each connection, fails here:
/// no clause says when memory runs out.
#[test]
fn answers_each_kind_of_request(rt: HostRuntime) -> Result<(), Fail> {
    let alloc = rt.alloc();
    let (count, handled, _) = done(rt, alloc, Deed::Answers)?;
    assert!(&rt;
        count == ANSWERED.len() && handled == 5,
        "{count} {handled}"
    );
    Ok(())
}

/// One worker's hold is on its patron's page at both, another's page is unchanged, and a truncated
/// head at the other worker changes nothing: the rows are those with that hold.
#[test]
fn two_workers_show_one_hold(rt: HostRuntime) -> Result<(), Fail> {
    let alloc = rt.alloc();
    let (count, handled, text) = done(rt, alloc, Deed::Shares)?;
    assert!(&rt; count == 7 && handled == 1, "{count} {handled}");
    let wanted = rows_of_run(&rt, alloc, &[2], HOLDS)?;
    assert!(&rt; text.as_str() == wanted.as_str());
    Ok(())
}

/// However often its answer is cut, the hold is placed once, and its key gets the reply.
#[test]
fn a_cut_answer_can_be_had_again(rt: HostRuntime) -> Result<(), Fail> {
    let alloc = rt.alloc();
    let size = answer(alloc, HELD)
        .ok_or("an answer")?
        .len()
        .wrapping_add(1);
    let (count, handled, _) = done(rt, alloc, Deed::Cuts)?;
    assert!(&rt;
        count == size && handled == size as u64,
        "{count} {handled}"
    );
    Ok(())
}

/// A failed read asks for nothing.
#[test]
fn a_request_that_is_not_whole_is_none(rt: HostRuntime) -> Result<(), Fail> {
    let alloc = rt.alloc();
    let size = HOLD.len().wrapping_add(2);
    let (count, handled, _) = done(rt, alloc, Deed::Breaks)?;
    assert!(&rt; count == size && handled == 2, "{count} {handled}");
    Ok(())
}

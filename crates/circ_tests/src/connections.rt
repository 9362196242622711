//! A worker's loop, over connections from a list.

ghost use Rattle.std.specs.Prelude.{◌≡◌, []};
ghost use Rattle.store.specs.Library.{over_memory};
ghost use Rattle.model.specs.History.{History};
ghost use Rattle.hall.specs.Openings.{OpensWith};

use crate::calls::serve_many;
use circ::{Connections, Watch};
use clerks::Clerks;
use hall::{DeskSide, Hall, Left, Opened, Opening};
use sqlite::MemStore;
use std::alloc::Global;
use std::marker::Brand;
use std::process::Abort;
use std::sync::Wait;
use std::test::Fail;
use terms::{CardKey, ServiceFault};
use test_bytes::{Drip, Narrow};

/// What each connection sends, and how its answer begins. None of it is submitted, since nobody
/// would handle it.
const SENT: [(&str, &str); 5] = [
    ("GET /patrons/1 HT", "HTTP/1.1 400 "),
    (
        "GET /patrons/1 HTTP/1.1\r\nCard-Key: cardkey00001\r\n\r\n",
        "HTTP/1.1 403 ",
    ),
    ("GET /nowhere HTTP/1.1\r\n\r\n", "HTTP/1.1 404 "),
    (
        "POST /desk HTTP/1.1\r\nDesk-Key: deskkey00001\r\nRequest-Key: d1\r\nContent-Length: 12\r\n\r\n[\"page\",\"1\"]",
        "HTTP/1.1 409 ",
    ),
    (
        "POST /desk HTTP/1.1\r\nDesk-Key: deskkey00002\r\nRequest-Key: d2\r\nContent-Length: 12\r\n\r\n[\"page\",\"1\"]",
        "HTTP/1.1 403 ",
    ),
];

/// A list's connections, after which there are none, and what went out to those that ended.
#[derive(Drop)]
struct List {
    place: usize,
    /// How many bytes of an answer go out before its connection breaks.
    room: usize,
    ended: Vec<(Vec<u8>, bool)>,
}

impl Connections for List {
    type Reader = Drip<'static>;

    type Writer = Narrow;

    ghost comes = { λ _ _ _ _. Unit {0} };

    ghost goes = { λ _ _ _ _. Unit {0} };

    ghost misses = { λ _. Unit {0} };

    fn accept(&mut self, alloc: Global) -> Option<(Drip<'static>, Narrow)> {
        let (sent, _) = SENT.get(self.place)?;
        self.place = self.place.wrapping_add(1);
        let reader = Drip {
            bytes: sent.as_bytes(),
            first: usize::MAX,
            others: usize::MAX,
            fails: false,
        };
        Some((reader, Narrow::new(alloc, self.room)))
    }

    fn end(&mut self, _reader: Drip<'static>, writer: Narrow, is_answered: bool) {
        let _ = self.ended.push((writer.into_taken(), is_answered));
    }
}

/// How many ended connections got the right answer, whole.
fn count_right(list: &List) -> usize {
    let mut count: usize = 0;
    for (place, (answer, is_answered)) in list.ended.iter().enumerate() {
        if let Some((_, due)) = SENT.get(place) {
            if *is_answered && answer.as_slice().starts_with(due.as_bytes()) {
                count = count.wrapping_add(1);
            }
        }
    }
    count
}

/// Whether a hall was closed.
#[derive(Drop)]
struct Heard {
    is_closed: bool,
}

impl Watch for Heard {
    fn closed(&mut self, _fault: ServiceFault) {
        self.is_closed = true;
    }
}

/// Ends a hall of one worker, which has left: whether the desk was told so, and how many
/// submissions were handled.
fn end_hall<J: Opening, R: Wait>(
    rt: &R,
    alloc: Global,
    side: DeskSide<J, MemStore>,
    left: Option<Left<J>>,
) -> (bool, u64)
    requires { OpensWith J.shows over_memory side.desk side.publisher.shown }
{
    let mut heard = Heard { is_closed: false };
    let (_, mut ended, _) = side.desk_loop(rt, alloc, &mut heard);
    let is_told = match left {
        Some(left) => {
            let is_told = left.is_told;
            ended.take_in(left) && is_told
        }
        None => false,
    };
    let handled = ended.handled();
    ended.close(rt);
    (is_told && !heard.is_closed, handled)
}

/// One worker serves this many of the list's connections, and this many bytes of each answer go
/// out: how many were ended, answered whole, and answered right; the desk was told that the worker
/// left, and had nothing to handle.
fn serve_list<J: Opening, R: Wait + Abort>(
    rt: &R,
    alloc: Global,
    opened: Opened,
    clerks: &Clerks,
    each: u32,
    room: usize,
) -> Result<(usize, usize), Fail>
    requires name { (opened.queue ≡ J.name) × (opened.blank ≡ J.book) }
    requires shows { (H : History) → J.shows H → H ≡ [] }
{
    let Ok((side, mut workers)) = Hall::in_memory::<J, R>(rt, alloc, opened, 1) else {
        return Err("no hall".into());
    };
    let mut list = List {
        place: 0,
        room,
        ended: Vec::new(alloc),
    };
    let left = match workers.pop() {
        Some(worker) => Some(serve_many(rt, alloc, &mut list, clerks, worker, each)),
        None => None,
    };
    let told = end_hall(rt, alloc, side, left);
    assert!(rt; told == (true, 0), "{told:?}");
    Ok((list.ended.len(), count_right(&list)))
}

/// As many connections are served as are asked for; each is answered right, and one that can't be
/// accepted counts; if nothing goes out whole nothing counts as answered.
#[test]
fn a_worker_serves_a_list(rt: HostRuntime) -> Result<(), Fail> {
    let alloc = rt.alloc();
    let Some(key) = CardKey::new(alloc, "deskkey00001")? else {
        return Err("no key".into());
    };
    let clerks = Clerks::sole(alloc, key)?;
    for (each, room, met) in [
        (0, 4096, (0, 0)),
        (3, 4096, (3, 3)),
        (5, 4096, (5, 5)),
        (9, 4096, (5, 5)),
        (5, 12, (5, 0)),
    ] {
        let found = serve_list::<Brand, _>(&rt, alloc, Opened::new(alloc)?, &clerks, each, room)?;
        assert!(&rt; found == met, "{each} {room}: {found:?}");
    }
    Ok(())
}

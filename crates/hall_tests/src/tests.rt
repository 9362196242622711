//! Workers and a desk, in threads.

ghost use Rattle.std.specs.Prelude.{◌≡◌};
ghost use Rattle.store.specs.Library.{over_memory};
ghost use Rattle.model.specs.History.{History};
ghost use Rattle.hall.specs.Openings.{OpensWith};

use crate::bytes::{answer, gets, told};
use crate::calls::{
    close, connection, handle_all, handle_and_look, leave, open_hall, open_queue, take_in,
};
use crate::library::{HOLDS, hold, hold_bytes, holds, library, library_of, order, page_bytes};
use crate::visits::{Visit, run_over};
use desk::Desk;
use hall::{DeskSide, Ended, Left, Opened, Opening, Worker};
use sqlite::MemStore;
use std::alloc::Global;
use std::marker::Brand;
use std::process::Abort;
use std::sync::Wait;
use std::test::Fail;
use std::thread;
use std::thread::{JoinHandle, Threads};
use terms::{PatronId, ServiceFault};
use test_library::{rows, run};

/// How many holds a page shows.
fn held(page: &str) -> usize {
    page.split("\\nhold ").count().saturating_sub(1)
}

/// Places this many holds of the patron, and looks at the page after each: how many were answered,
/// and shown at once.
fn place_all<J: Opening, R: Wait>(
    rt: &R,
    alloc: Global,
    worker: &mut Worker<J>,
    patron: u64,
    each: u64,
) -> Option<u64> {
    let page = page_bytes(alloc, patron)?;
    let mut count = 0u64;
    for title in 1..each.saturating_add(1) {
        let text = told(rt, alloc, worker, &hold_bytes(alloc, patron, title)?)?;
        let page = told(rt, alloc, worker, &page)?;
        if text.starts_with("HTTP/1.1 200 OK") && held(&page) as u64 == title {
            count = count.wrapping_add(1);
        }
    }
    Some(count)
}

/// Places all, and leaves.
fn work<J: Opening, R: Wait>(
    rt: &R,
    alloc: Global,
    mut worker: Worker<J>,
    patron: u64,
    each: u64,
) -> (Left<J>, Option<u64>) {
    let count = place_all(rt, alloc, &mut worker, patron, each);
    (leave(rt, worker), count)
}

/// A worker's thread.
type Working<J> = JoinHandle<(Left<J>, Option<u64>)>;

/// Each worker in its own thread, with the patron of its number.
fn start_all<J: Opening + Send + Sync + 'static, R: Threads + Wait + Abort + Copy + Send + 'static>(
    rt: R,
    alloc: Global,
    workers: Vec<Worker<J>>,
    each: u64,
) -> Option<Vec<Working<J>>> {
    let mut threads = Vec::with_capacity(alloc, workers.len()).ok()?;
    let mut patron = 0u64;
    for worker in workers {
        patron = patron.wrapping_add(1);
        let thread = thread::spawn(&rt, move || work(&rt, alloc, worker, patron, each)).ok();
        // the desk would wait forever for a worker without a thread
        assert!(&rt; thread.is_some(), "no thread");
        threads.push(thread?).ok()?;
    }
    Some(threads)
}

/// For each worker, whether the desk was told that it left, and how many of its holds were answered
/// and shown.
type Told = Vec<(bool, Option<u64>)>;

/// The outcome of a hall.
#[derive(Drop)]
struct Met {
    told: Option<Told>,
    desk: Desk<MemStore>,
    handled: u64,
    fault: Option<ServiceFault>,
}

/// Waits for the threads, and takes in the workers' ends.
fn join_all<J: Opening, R: Threads>(
    rt: &R,
    alloc: Global,
    ended: &mut Ended<J>,
    threads: Vec<Working<J>>,
) -> Option<Told> {
    let mut told = Vec::new(alloc);
    for thread in threads {
        let (left, count) = thread.join(rt);
        told.push((take_in(ended, left), count)).ok()?;
    }
    Some(told)
}

/// The workers in threads, and the desk in this one.
fn meet<J: Opening + Send + Sync + 'static, R: Threads + Wait + Abort + Copy + Send + 'static>(
    rt: R,
    alloc: Global,
    side: DeskSide<J, MemStore>,
    workers: Vec<Worker<J>>,
    each: u64,
) -> Met
    requires { OpensWith J.shows over_memory side.desk side.publisher.shown }
{
    let started = start_all(rt, alloc, workers, each);
    let (desk, mut ended, fault) = handle_all(&rt, alloc, side);
    let told = match started {
        Some(threads) => join_all(&rt, alloc, &mut ended, threads),
        None => None,
    };
    let handled = close(&rt, ended);
    Met {
        told,
        desk,
        handled,
        fault,
    }
}

/// The rows of a library whose desk handles one list: each worker's requests in turn, in the order
/// that these numbers give.
pub fn rows_of_run(
    rt: &impl Abort,
    alloc: Global,
    order: &[i64],
    titles: u64,
) -> Result<String, Fail> {
    let mut desk = library_of(alloc, titles)?;
    let mut next = [1u64; 9];
    let mut list = Vec::new(alloc);
    for worker in order {
        let worker = u64::try_from(*worker)?;
        let number = next.get(worker as usize).ok_or("a worker")?;
        list.push(hold(alloc, worker, *number)?)?;
        let place = next.get_mut(worker as usize).ok_or("a worker")?;
        *place = place.wrapping_add(1);
    }
    let (replies, fault) = run(&mut desk, alloc, &list);
    assert!(rt; replies.len() == list.len() && fault == None);
    rows(alloc, &mut connection(desk))
}

/// All is handled, each worker's in order, and the tables are those of one list.
fn check_whole(
    rt: &impl Abort,
    alloc: Global,
    met: Met,
    workers: u64,
    each: u64,
) -> Result<(), Fail> {
    let Met {
        told,
        desk,
        handled,
        fault,
    } = met;
    let told = told.ok_or("threads")?;
    assert!(rt; fault == None && told.len() as u64 == workers);
    for (is_told, count) in &told {
        assert!(rt; *is_told && *count == Some(each));
    }
    assert!(rt; handled == workers.wrapping_mul(each));
    let mut conn = connection(desk);
    let order = order(alloc, &mut conn)?;
    assert!(rt; order.len() as u64 == workers.wrapping_mul(each));
    let text = rows(alloc, &mut conn)?;
    assert!(rt; text.as_str() == rows_of_run(rt, alloc, &order, each)?.as_str());
    Ok(())
}

/// A hall of this many workers, each of whose patrons places this many holds.
fn run_hall<J: Opening + Send + Sync + 'static, R: Threads + Wait + Abort + Copy + Send + 'static>(
    rt: R,
    alloc: Global,
    opened: Opened,
    workers: u64,
    each: u64,
) -> Result<(), Fail>
    requires name { (opened.queue ≡ J.name) × (opened.blank ≡ J.book) }
    requires none { (H : History) → J.shows H → ⊥ }
{
    let desk = library_of(alloc, each)?;
    let Ok((side, all)) = open_hall::<J, _, R>(&rt, alloc, opened, desk, workers as usize) else {
        return Err("a hall".into());
    };
    let met = meet(rt, alloc, side, all, each);
    check_whole(&rt, alloc, met, workers, each)
}

#[test]
fn two_workers(rt: HostRuntime) -> Result<(), Fail> {
    run_hall::<Brand, _>(rt, rt.alloc(), open_queue(rt.alloc())?, 2, HOLDS)
}

/// Each of eight workers has fifty holds placed.
#[test]
fn eight_workers(rt: HostRuntime) -> Result<(), Fail> {
    run_hall::<Brand, _>(rt, rt.alloc(), open_queue(rt.alloc())?, 8, 50)
}

/// Where the first worker's list ends with limited steps: how many of its requests are shown, how
/// many are handled, what the worker is told of the next one, and the fault that closes the hall.
#[derive(Clone, Copy)]
struct Cut {
    shown: usize,
    handled: u64,
    told: ServiceFault,
    fault: ServiceFault,
}

/// Where it ends, and all rows after it.
#[derive(Drop)]
struct Wanted {
    cut: Cut,
    text: String,
}

/// Where the first worker's list ends, at a request or at the page after it; none if no fault
/// comes. For a page that can't be had the worker is told 92.
fn run_limited(alloc: Global, limit: u64) -> Result<Option<Wanted>, Fail> {
    let mut desk = library(alloc)?;
    let mut shown = 0usize;
    for request in &holds(alloc, 1)? {
        let patron = PatronId::new(1);
        let (is_handled, fault) = handle_and_look(&mut desk, alloc, request, patron, limit);
        if let Some(met) = fault {
            let fault = ServiceFault::Met(met);
            let told = if is_handled {
                ServiceFault::Closed
            } else {
                fault
            };
            let handled = (shown as u64).wrapping_add(u64::from(is_handled));
            let text = rows(alloc, &mut connection(desk))?;
            return Ok(Some(Wanted {
                cut: Cut {
                    shown,
                    handled,
                    told,
                    fault,
                },
                text,
            }));
        }
        shown = shown.wrapping_add(1);
    }
    Ok(None)
}

/// The answer to the worker's patron for the hold on this title, from 1 on: the reply for those
/// shown, then the fault for the next, then 92.
fn is_answered(alloc: Global, cut: Cut, title: u64, text: &str) -> Option<bool> {
    let shown = cut.shown as u64;
    if title <= shown {
        return Some(text.starts_with("HTTP/1.1 200 OK"));
    }
    let fault = if title == shown.wrapping_add(1) {
        cut.told
    } else {
        ServiceFault::Closed
    };
    let number = fault.number();
    let line = format!(in alloc; "503 Service Unavailable {{\"fault\":{number}}}").ok()?;
    Some(text == answer(alloc, &line)?.as_str())
}

/// How many of the first worker's answers are right: its holds, and the page after them.
fn right_of_one<J: Opening, R: Wait>(
    rt: &R,
    alloc: Global,
    worker: &mut Worker<J>,
    cut: Cut,
) -> Option<u64> {
    let mut count = 0u64;
    for title in 1..HOLDS + 1 {
        let text = told(rt, alloc, worker, &hold_bytes(alloc, 1, title)?)?;
        if is_answered(alloc, cut, title, &text)? {
            count = count.wrapping_add(1);
        }
    }
    if held(&told(rt, alloc, worker, &page_bytes(alloc, 1)?)?) == cut.shown {
        count = count.wrapping_add(1);
    }
    Some(count)
}

/// How many of the second worker's answers are right, once the hall is closed: 92 for its hold, and
/// the first one's page as last shown.
fn right_of_two<J: Opening, R: Wait>(
    rt: &R,
    alloc: Global,
    worker: &mut Worker<J>,
    cut: Cut,
) -> Option<u64> {
    let mut count = 0u64;
    let closed = "503 Service Unavailable {\"fault\":92}";
    if gets(rt, alloc, worker, &hold_bytes(alloc, 2, 1)?, closed)? {
        count = count.wrapping_add(1);
    }
    if held(&told(rt, alloc, worker, &page_bytes(alloc, 1)?)?) == cut.shown {
        count = count.wrapping_add(1);
    }
    Some(count)
}

impl Visit for Cut {
    /// How many of each one's answers are right.
    type Found = (u64, u64);

    /// The second worker is asked once the first has been.
    fn ask<J: Opening, R: Wait>(
        self,
        rt: &R,
        alloc: Global,
        one: &mut Worker<J>,
        two: &mut Worker<J>,
    ) -> Option<(u64, u64)> {
        let first = right_of_one(rt, alloc, one, self)?;
        Some((first, right_of_two(rt, alloc, two, self)?))
    }
}

/// The hall closes where the list ends, and both workers are told.
fn check_closed<R: Threads + Wait + Abort + Copy + Send + 'static>(
    rt: R,
    alloc: Global,
    limit: u64,
    wanted: &Wanted,
) -> Result<(), Fail> {
    let cut = wanted.cut;
    let closed = run_over(rt, alloc, library(alloc)?, Some(limit), cut)?;
    let Ok((counts, desk, handled, fault)) = closed else {
        return Err("a hall".into());
    };
    assert!(&rt; fault == Some(cut.fault), "{limit}");
    assert!(&rt; counts == Some((4, 2)), "{limit}");
    assert!(&rt; handled == cut.handled, "{limit}");
    let text = rows(alloc, &mut connection(desk))?;
    assert!(&rt; text.as_str() == wanted.text.as_str());
    Ok(())
}

#[test]
fn a_fault_closes_the_hall(rt: HostRuntime) -> Result<(), Fail> {
    let alloc = rt.alloc();
    let mut places = [0u64; 3];
    let mut pages = 0u64;
    for limit in 1..200u64 {
        let Some(wanted) = run_limited(alloc, limit)? else {
            break;
        };
        check_closed(rt, alloc, limit, &wanted)?;
        let place = places.get_mut(wanted.cut.shown).ok_or("a place")?;
        *place = place.wrapping_add(1);
        if wanted.cut.handled > wanted.cut.shown as u64 {
            pages = pages.wrapping_add(1);
        }
    }
    assert!(&rt; places[0] > 0 && pages > 0, "{places:?} {pages}");
    Ok(())
}

/// A hall can't have this many workers, and its desk comes back.
fn refuse<J: Opening, R: Wait + Abort>(
    rt: &R,
    alloc: Global,
    opened: Opened,
    workers: usize,
) -> Result<(), Fail>
    requires name { (opened.queue ≡ J.name) × (opened.blank ≡ J.book) }
    requires none { (H : History) → J.shows H → ⊥ }
{
    match open_hall::<J, _, _>(rt, alloc, opened, library(alloc)?, workers) {
        Ok((side, all)) => {
            for worker in all {
                let _ = leave(rt, worker);
            }
            let (_, ended, _) = handle_all(rt, alloc, side);
            close(rt, ended);
            Err("no hall".into())
        }
        Err((number, desk)) => {
            assert!(rt; number == 21);
            let text = rows(alloc, &mut connection(desk))?;
            assert!(rt; text.as_str() == rows_of_run(rt, alloc, &[], HOLDS)?.as_str());
            Ok(())
        }
    }
}

#[test]
fn no_workers_and_nine_are_refused(rt: HostRuntime) -> Result<(), Fail> {
    let alloc = rt.alloc();
    refuse::<Brand, _>(&rt, alloc, open_queue(alloc)?, 0)?;
    refuse::<Brand, _>(&rt, alloc, open_queue(alloc)?, 9)
}

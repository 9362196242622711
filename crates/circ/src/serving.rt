//! Serving the web: the workers of a hall, one thread each.

ghost use Rattle.std.specs.Prelude.{◌≡◌, ◌≤◌, MatchResult, IfSome, IsTrue, true, length, vec_capacity};
ghost use Rattle.std.specs.Arc.{arc_value};
ghost use Rattle.store.specs.Library.{state};
ghost use Rattle.model.specs.History.{History};
ghost use Rattle.desk.specs.Answering.{Shows};
ghost use Rattle.hall.specs.Openings.{OpensWith, ToldBy};
ghost use Rattle.hall.specs.Handling.{Finishes};
ghost use Rattle.hall.specs.Serving.{GivesReplies, AreWorkers};
ghost use Rattle.circ.specs.Connections.{Works, WorksOrLeaves};
ghost use Rattle.circ.specs.Lines.{EndsWith};
ghost use Rattle.circ.specs.Serving.{AllInTurn, TakesPart, ServesWorkers, ServesHall, ServesPort};
ghost use Rattle.circ.specs.Serving.{ServesListener};
ghost use Rattle.circ.specs.Serving.{end_text, exit_after, why_line, exit_of_why};

use crate::connections::{Connections, work};
use crate::lines::{
    Exit, WriteFault, not_understood, out_of_memory, tell_port, tell_service_fault, tell_threads,
};
use crate::listening::{Outgoing, Port, ports};
use clerks::Clerks;
use desk::Desk;
use hall::{DeskSide, Ended, Hall, HallFault, Left, Opened, Opening, Watch, Why, Worker};
use sqlite::Alter;
use std::alloc::Global;
use std::io::{Read, Write};
use std::marker::Brand;
use std::net::{TcpListener, TcpStream};
use std::snapshot::Snapshot;
use std::sync::atomic::{AtomicBool, Ordering};
use std::sync::{Arc, Wait};
use std::thread;
use std::thread::{Promise, PromisedHandle, Threads};
use terms::ServiceFault;

/// The settings for serving.
#[derive(Drop)]
pub struct Web {
    /// The port, printed once the hall is open.
    pub port: u16,
    /// The number of connections each worker serves.
    pub each: u32,
    /// The clerks whose keys mark a request as the desk's.
    pub clerks: Clerks,
}

/// What a worker's thread gives back.
#[derive(Drop)]
struct Served<J: Opening, C> {
    left: Left<J>,
    /// Its connections, after those that it served.
    connections: C,
    /// How many it served.
    count: u32,
}

/// What a worker's thread is to do.
#[derive(Drop)]
struct Task<J: Opening, C: Connections> {
    worker: Snapshot<Worker<J>>,
    connections: Snapshot<C>,
    clerks: Snapshot<Clerks>,
    each: u32,
}

impl<J: Opening, C: Connections> Promise<Served<J, C>> for Task<J, C> {
    ghost use Rattle.circ.specs.Connections.{WorksOrLeaves};

    ghost kept_by = { λ t r. WorksOrLeaves C.comes C.goes C.misses C.Reader.Read.remaining
        C.Writer.Write.contents t.clerks.value t.each r.count t.connections.value r.connections
        t.worker.value (record {
          post = r.left.post;
          seen = r.left.sight;
          closing = r.left.closing;
          looks = 0;
        }) };
}

/// The thread of a worker, or what a worker without a thread gives back.
type Started<J, C> = Result<PromisedHandle<Served<J, C>, Task<J, C>>, Served<J, C>>;

/// Lets a worker serve so many of its connections and leave.
fn serve_own<J: Opening, C: Connections, R: Wait>(
    rt: &R,
    alloc: Global,
    connections: C,
    clerks: &Clerks,
    worker: Worker<J>,
    count: u32,
) -> Served<J, C>
    ensures count { result.count ≡ count }
    ensures works { Works C.comes C.goes C.misses C.Reader.Read.remaining
        C.Writer.Write.contents clerks.now count connections result.connections worker (record {
          post = result.left.post;
          seen = result.left.sight;
          closing = result.left.closing;
          looks = 0;
        }) }
{
    let mut connections = connections;
    let left = work(rt, alloc, &mut connections, clerks, worker, count);
    Served {
        left,
        connections,
        count,
    }
}

/// The same for `each` connections, or for none if the worker has no thread.
fn serve_or_leave<J: Opening, C: Connections, R: Wait>(
    rt: &R,
    alloc: Global,
    connections: C,
    clerks: &Clerks,
    worker: Worker<J>,
    each: u32,
    has_thread: &AtomicBool,
) -> Served<J, C>
    ensures { WorksOrLeaves C.comes C.goes C.misses C.Reader.Read.remaining
        C.Writer.Write.contents clerks.now each result.count connections result.connections
        worker (record {
          post = result.left.post;
          seen = result.left.sight;
          closing = result.left.closing;
          looks = 0;
        }) }
{
    let count = if has_thread.load(Ordering::SeqCst) {
        each
    } else {
        0
    };
    serve_own(rt, alloc, connections, clerks, worker, count)
}

/// What a worker's thread shares with this one: the clerks, and whether the worker has a thread.
struct Shared {
    clerks: Arc<Clerks, Global>,
    has_thread: Arc<AtomicBool, Global>,
    theirs: Arc<AtomicBool, Global>,
}

/// Makes what a worker's thread shares with this one. None if there is no memory.
fn share(alloc: Global, clerks: &Arc<Clerks, Global>) -> Option<Shared>
    ensures { IfSome result (λ s. arc_value s.clerks ≡ arc_value clerks.now) }
{
    let clerks = Arc::try_clone(clerks).ok()?;
    let has_thread = Arc::new(alloc, AtomicBool::new(true)).ok()?;
    let theirs = Arc::try_clone(&has_thread).ok()?;
    Some(Shared {
        clerks,
        has_thread,
        theirs,
    })
}

/// Spawns a thread for a worker. If none can be made, the worker leaves at once.
fn spawn<
    J: Opening + Send + Sync + 'static,
    C: Connections + Send + Drop + 'static,
    R: Threads + Wait + Copy + Send + 'static,
>(
    rt: R,
    alloc: Global,
    connections: C,
    shared: Shared,
    worker: Worker<J>,
    each: u32,
) -> Started<J, C>
    ensures { MatchResult result
        (λ h. (h.promise.worker.value ≡ worker) × (h.promise.connections.value ≡ connections)
        × (h.promise.clerks.value ≡ arc_value shared.clerks) × (h.promise.each ≡ each))
        (λ s. WorksOrLeaves C.comes C.goes C.misses C.Reader.Read.remaining
        C.Writer.Write.contents (arc_value shared.clerks) each s.count connections s.connections
        worker (record {
          post = s.left.post;
          seen = s.left.sight;
          closing = s.left.closing;
          looks = 0;
        })) }
{
    let Shared {
        clerks,
        has_thread,
        theirs,
    } = shared;
    let task = Task {
        worker: Snapshot::of(&worker),
        connections: Snapshot::of(&connections),
        clerks: Snapshot::of(&clerks),
        each,
    };
    let body = move || -> Served<J, C>
        ensures { WorksOrLeaves C.comes C.goes C.misses C.Reader.Read.remaining
            C.Writer.Write.contents (arc_value clerks) each result.count connections
            result.connections worker (record {
              post = result.left.post;
              seen = result.left.sight;
              closing = result.left.closing;
              looks = 0;
            }) }
    {
        let own = connections;
        let worker = worker;
        serve_or_leave(&rt, alloc, own, &clerks, worker, each, &theirs)
    };
    match thread::spawn_with(&rt, task, body) {
        Ok(handle) => Ok(handle),
        Err(refused) => {
            has_thread.store(false, Ordering::SeqCst);
            Err((refused.value)())
        }
    }
}

/// The same, but without memory for what they share the worker leaves at once.
fn start<
    J: Opening + Send + Sync + 'static,
    C: Connections + Send + Drop + 'static,
    R: Threads + Wait + Copy + Send + 'static,
>(
    rt: R,
    alloc: Global,
    connections: C,
    clerks: &Arc<Clerks, Global>,
    worker: Worker<J>,
    each: u32,
) -> Started<J, C>
    ensures { MatchResult result
        (λ h. (h.promise.worker.value ≡ worker) × (h.promise.connections.value ≡ connections)
        × (h.promise.clerks.value ≡ arc_value clerks.now) × (h.promise.each ≡ each))
        (λ s. WorksOrLeaves C.comes C.goes C.misses C.Reader.Read.remaining
        C.Writer.Write.contents (arc_value clerks.now) each s.count connections s.connections
        worker (record {
          post = s.left.post;
          seen = s.left.sight;
          closing = s.left.closing;
          looks = 0;
        })) }
{
    match share(alloc, clerks) {
        Some(shared) => spawn(rt, alloc, connections, shared, worker, each),
        None => Err(serve_own(&rt, alloc, connections, clerks, worker, 0)),
    }
}

/// Waits for a worker's thread.
fn finish<J: Opening, C: Connections, R: Threads>(rt: &R, started: Started<J, C>) -> Served<J, C>
    ensures { MatchResult started
        (λ h. WorksOrLeaves C.comes C.goes C.misses C.Reader.Read.remaining
        C.Writer.Write.contents h.promise.clerks.value h.promise.each result.count
        h.promise.connections.value result.connections h.promise.worker.value (record {
          post = result.left.post;
          seen = result.left.sight;
          closing = result.left.closing;
          looks = 0;
        }))
        (λ s. result ≡ s) }
{
    match started {
        Ok(handle) => handle.join(rt),
        Err(served) => served,
    }
}

/// The outcome of a hall.
struct Met<J: Opening, S: Alter> {
    desk: Desk<S>,
    ended: Ended<J>,
    /// The fault that closed it.
    fault: Option<ServiceFault>,
    /// Whether each worker had a thread and took part to the end.
    are_whole: bool,
}

/// Returns whether a worker took part and served all of its connections, and the others did.
fn is_whole(others: bool, took_part: bool, count: u32, each: u32) -> bool
    ensures { IsTrue result → (others ≡ true) × (took_part ≡ true) × (count ≡ each) }
{
    others && took_part && count == each
}

/// Runs a hall: a thread per worker, and this thread for the desk. Each worker gets the last of the
/// connections, and they are put back in the same order.
fn run<
    J: Opening + Send + Sync + 'static,
    C: Connections + Send + Drop + 'static,
    S: Alter,
    R: Threads + Wait + Copy + Send + 'static,
    N: Watch,
>(
    rt: R,
    alloc: Global,
    watch: &mut N,
    side: DeskSide<J, S>,
    workers: Vec<Worker<J>>,
    connections: &mut Vec<C>,
    clerks: &Arc<Clerks, Global>,
    each: u32,
) -> Met<J, S>
    requires opens { OpensWith J.shows S.Store side.desk side.publisher.shown }
    requires fellows { length workers.items ≡ length connections.old.items }
    requires workers { AreWorkers (length workers.items) workers.items }
    requires within { length workers.items ≤ side.workers }
    ensures finishes { Finishes side.workers result.ended.handled result.ended.heard.got
        result.ended.board.shown.entries S.Store side.desk result.desk result.fault }
    ensures told { ToldBy J.shows S.Store result.desk result.ended.board.shown }
    ensures replies { GivesReplies J.shows S.Store result.desk result.ended.board.shown }
    ensures capacity { vec_capacity connections.old ≤ vec_capacity connections.new }
    ensures parts { AllInTurn (TakesPart C.comes C.goes C.misses C.Reader.Read.remaining
        C.Writer.Write.contents (arc_value clerks.now) each result.ended.handled
        result.ended.heard.got result.ended.board.shown result.are_whole) 0
        connections.old.items connections.new.items }
{
    let mut workers = workers;
    let (Some(worker), Some(own)) = (workers.pop(), connections.pop()) else {
        let (desk, ended, fault) = side.desk_loop(&rt, alloc, watch);
        return Met {
            desk,
            ended,
            fault,
            are_whole: true,
        };
    };
    let started = start(rt, alloc, own, clerks, worker, each);
    let Met {
        desk,
        mut ended,
        fault,
        are_whole,
    } = run(rt, alloc, watch, side, workers, connections, clerks, each);
    let Served {
        left,
        connections: own,
        count,
    } = finish(&rt, started);
    let _ = connections.push(own);
    let took_part = ended.take_in(left);
    Met {
        desk,
        ended,
        fault,
        are_whole: is_whole(are_whole, took_part, count, each),
    }
}

/// Runs a hall to its end. Returns the desk, the fault that closed it, and whether each worker had a
/// thread and took part to the end.
fn run_all<
    J: Opening + Send + Sync + 'static,
    C: Connections + Send + Drop + 'static,
    S: Alter,
    R: Threads + Wait + Copy + Send + 'static,
    N: Watch,
>(
    rt: R,
    alloc: Global,
    watch: &mut N,
    side: DeskSide<J, S>,
    workers: Vec<Worker<J>>,
    connections: &mut Vec<C>,
    clerks: &Arc<Clerks, Global>,
    each: u32,
) -> (Desk<S>, Option<ServiceFault>, bool)
    requires opens { OpensWith J.shows S.Store side.desk side.publisher.shown }
    requires workers { AreWorkers (length connections.old.items) workers.items }
    requires within { side.workers ≡ length connections.old.items }
    ensures { ServesWorkers C.comes C.goes C.misses C.Reader.Read.remaining
        C.Writer.Write.contents (arc_value clerks.now) each connections.old.items
        connections.new.items result.2 J.shows S.Store side.desk result.0 result.1 }
{
    let Met {
        desk,
        ended,
        fault,
        are_whole,
    } = run(rt, alloc, watch, side, workers, connections, clerks, each);
    ended.close(&rt);
    (desk, fault, are_whole)
}

/// Writes how it ended: a missing thread, and the fault that closed the hall.
fn tell_end<W: Write>(
    writer: &mut W,
    are_whole: bool,
    fault: Option<ServiceFault>,
) -> Result<Exit, WriteFault>
    ensures { EndsWith (exit_after are_whole fault) (end_text are_whole fault)
        (W.contents writer.old) (W.contents writer.new) result }
{
    match (are_whole, fault) {
        (true, None) => Ok(Exit::Done),
        (true, Some(fault)) => tell_service_fault(writer, fault),
        (false, None) => tell_threads(writer),
        (false, Some(fault)) => {
            tell_threads(writer)?;
            tell_service_fault(writer, fault)
        }
    }
}

/// Writes the port, runs the hall and writes how it ended. If the port can't be written, nobody is
/// served and nothing more is written.
fn serve_hall<
    J: Opening + Send + Sync + 'static,
    C: Connections + Send + Drop + 'static,
    S: Alter,
    W: Write,
    R: Threads + Wait + Copy + Send + 'static,
    N: Watch,
>(
    rt: R,
    alloc: Global,
    watch: &mut N,
    side: DeskSide<J, S>,
    workers: Vec<Worker<J>>,
    connections: &mut Vec<C>,
    clerks: &Arc<Clerks, Global>,
    each: u32,
    port: u16,
    writer: &mut W,
) -> (Desk<S>, Result<Exit, WriteFault>)
    requires opens { OpensWith J.shows S.Store side.desk side.publisher.shown }
    requires workers { AreWorkers (length connections.old.items) workers.items }
    requires within { side.workers ≡ length connections.old.items }
    ensures { ServesHall C.comes C.goes C.misses C.Reader.Read.remaining
        C.Writer.Write.contents (arc_value clerks.now) each port connections.old.items
        connections.new.items J.shows S.Store side.desk result.0
        (W.contents writer.old) (W.contents writer.new) result.1 }
{
    match tell_port(writer, port) {
        Ok(()) => {
            let (desk, fault, are_whole) = run_all(
                rt,
                alloc,
                watch,
                side,
                workers,
                connections,
                clerks,
                each,
            );
            (desk, tell_end(writer, are_whole, fault))
        }
        Err(fault) => {
            let (desk, _, _) = run_all(rt, alloc, watch, side, workers, connections, clerks, 0);
            (desk, Err(fault))
        }
    }
}

/// Writes why a hall can't be opened.
fn tell_why<W: Write>(writer: &mut W, why: Why) -> Result<Exit, WriteFault>
    ensures { EndsWith (exit_of_why why) (why_line why)
        (W.contents writer.old) (W.contents writer.new) result }
{
    match why {
        Why::Refused(_) => not_understood(writer),
        Why::Faulted(fault) => tell_service_fault(writer, fault),
    }
}

/// The same, but opens the hall first, on a newly opened queue.
fn open_and_serve<
    J: Opening + Send + Sync + 'static,
    C: Connections + Send + Drop + 'static,
    S: Alter,
    W: Write,
    R: Threads + Wait + Copy + Send + 'static,
    N: Watch,
>(
    rt: R,
    alloc: Global,
    watch: &mut N,
    opened: Opened,
    desk: Desk<S>,
    connections: &mut Vec<C>,
    web: Web,
    writer: &mut W,
) -> (Desk<S>, Result<Exit, WriteFault>)
    requires name { (opened.queue ≡ J.name) × (opened.blank ≡ J.book) }
    requires shows { (H : History) → J.shows H → Shows (state S.Store desk) H }
    requires every { (H : History) → Shows (state S.Store desk) H → J.shows H }
    ensures { ServesPort C.comes C.goes C.misses C.Reader.Read.remaining
        C.Writer.Write.contents web.clerks web.each web.port connections.old.items
        connections.new.items S.Store desk result.0
        (W.contents writer.old) (W.contents writer.new) result.1 }
{
    let Web { port, each, clerks } = web;
    let clerks = match Arc::new(alloc, clerks) {
        Ok(clerks) => clerks,
        Err(_) => return (desk, out_of_memory(writer)),
    };
    match Hall::new::<J, S, R>(&rt, alloc, opened, desk, connections.len()) {
        Ok((side, workers)) => serve_hall(
            rt,
            alloc,
            watch,
            side,
            workers,
            connections,
            &clerks,
            each,
            port,
            writer,
        ),
        Err(HallFault { why, desk }) => (desk, tell_why(writer, why)),
    }
}

/// Serves the web with one worker for each of the connections, in a thread of its own: writes the
/// port once the hall is open, has each worker serve its connections, and returns the desk. A failed
/// connection counts as one.
///
/// At the end one line reports a thread that could not be made, whose worker left at once, or a
/// worker's end that could not be taken in; the last reports the fault that closed the hall. What
/// was handled is what the workers submitted, each for its own connections, and they answered what
/// every list of accepted requests that the tables showed gives. If the hall can't be opened, that
/// fault is the only line; for another number of workers than 1 to 8 the line is that of words not
/// understood. The watch is told when the hall closes, while the workers still answer.
pub fn serve_connections<
    C: Connections + Send + Drop + 'static,
    S: Alter,
    W: Write,
    R: Threads + Wait + Copy + Send + 'static,
    N: Watch,
>(
    rt: R,
    alloc: Global,
    watch: &mut N,
    desk: Desk<S>,
    connections: &mut Vec<C>,
    web: Web,
    writer: &mut W,
) -> (Desk<S>, Result<Exit, WriteFault>)
    ensures { ServesPort C.comes C.goes C.misses C.Reader.Read.remaining
        C.Writer.Write.contents web.clerks web.each web.port connections.old.items
        connections.new.items S.Store desk result.0
        (W.contents writer.old) (W.contents writer.new) result.1 }
{
    match Opened::new(alloc) {
        Ok(opened) => {
            open_and_serve::<Brand, C, S, W, R, N>(
                rt,
                alloc,
                watch,
                opened,
                desk,
                connections,
                web,
                writer,
            )
        }
        Err(_) => (desk, out_of_memory(writer)),
    }
}

/// Serves the web on a listener with so many workers, 1 to 8, which take connections from it by
/// turns, as `serve_connections` does. Without memory for what they share nobody is served, and
/// fault 90 is the only line.
pub fn serve<S: Alter, W: Write, R: Threads + Wait + Copy + Send + 'static, N: Watch>(
    rt: R,
    alloc: Global,
    watch: &mut N,
    desk: Desk<S>,
    listener: TcpListener,
    workers: usize,
    web: Web,
    writer: &mut W,
) -> (Desk<S>, Result<Exit, WriteFault>)
    ensures { ServesListener ⟦<Port as Connections>⟧.comes ⟦<Port as Connections>⟧.goes
        ⟦<Port as Connections>⟧.misses ⟦<TcpStream as Read>⟧.remaining
        ⟦<Outgoing as Write>⟧.contents web.clerks web.each web.port workers S.Store
        desk result.0 (W.contents writer.old) (W.contents writer.new) result.1 }
{
    match ports(alloc, listener, workers) {
        Ok(ports) => {
            let mut ports = ports;
            serve_connections(rt, alloc, watch, desk, &mut ports, web, writer)
        }
        Err(_) => (desk, out_of_memory(writer)),
    }
}

//! The calls under test, without clauses, so that a test with many of them is proved fast.

ghost use Rattle.std.specs.Prelude.{◌≡◌, [], IfOk};
ghost use Rattle.store.specs.Library.{over_memory};
ghost use Rattle.model.specs.History.{History};
ghost use Rattle.hall.specs.Openings.{OpensWith};

use clerks::Clerks;
use desk::Desk;
use hall::{DeskSide, Ended, Hall, HallFault, Left, Opened, Opening, Routes, Watch, Worker};
use sqlite::{Alter, Connection, MemStore};
use std::alloc::Global;
use std::io::{Read, Write};
use std::sync::Wait;
use terms::{Fault, Memory, PatronId, Request, ServiceFault};

/// What a hall is opened or given back as.
pub type Side<J, S> = (DeskSide<J, S>, Vec<Worker<J>>);

/// A queue.
pub fn open_queue(alloc: Global) -> Result<Opened, Memory> {
    Opened::new(alloc)
}

/// The hall of this many workers, whose opening names no list of accepted requests; or the number
/// of the reason why there is none, and the desk.
pub fn open_hall<J: Opening, S: Alter, R: Wait>(
    rt: &R,
    alloc: Global,
    opened: Opened,
    desk: Desk<S>,
    workers: usize,
) -> Result<Side<J, S>, (u32, Desk<S>)>
    requires name { (opened.queue ≡ J.name) × (opened.blank ≡ J.book) }
    requires none { (H : History) → J.shows H → ⊥ }
    ensures { IfOk result (λ r. OpensWith J.shows S.Store r.0.desk r.0.publisher.shown) }
{
    match Hall::new::<J, S, R>(rt, alloc, opened, desk, workers) {
        Ok(side) => Ok(side),
        Err(HallFault { why, desk }) => Err((why.number(), desk)),
    }
}

/// The same over a new library in memory.
pub fn open_in_memory<J: Opening, R: Wait>(
    rt: &R,
    alloc: Global,
    opened: Opened,
    workers: usize,
) -> Result<Side<J, MemStore>, u32>
    requires name { (opened.queue ≡ J.name) × (opened.blank ≡ J.book) }
    requires shows { (H : History) → J.shows H → H ≡ [] }
    ensures { IfOk result (λ r. OpensWith J.shows over_memory r.0.desk r.0.publisher.shown) }
{
    match Hall::in_memory::<J, R>(rt, alloc, opened, workers) {
        Ok(side) => Ok(side),
        Err(why) => Err(why.number()),
    }
}

/// Limits the steps of each database call, if there is a limit, in a hall whose opening names no
/// list of accepted requests.
pub fn limit_side<J: Opening, S: Alter>(side: &mut DeskSide<J, S>, limit: Option<u64>)
    requires { (H : History) → J.shows H → ⊥ }
    ensures { OpensWith J.shows S.Store side.new.desk side.new.publisher.shown }
{
    side.limit_steps(limit);
}

/// What was told of a hall's closing.
#[derive(Drop)]
struct Heard {
    fault: Option<ServiceFault>,
    times: u32,
}

impl Heard {
    /// Nothing yet.
    fn nothing() -> Heard {
        Heard {
            fault: None,
            times: 0,
        }
    }

    /// The fault that closed the hall, if it was told once; none if there was none and nothing was
    /// told; else 92, which closes no hall here.
    fn agreed(&self, fault: Option<ServiceFault>) -> Option<ServiceFault> {
        if self.fault == fault && self.times == u32::from(fault.is_some()) {
            fault
        } else {
            Some(ServiceFault::Closed)
        }
    }
}

impl Watch for Heard {
    fn closed(&mut self, fault: ServiceFault) {
        self.fault = Some(fault);
        self.times = self.times.wrapping_add(1);
    }
}

/// Handles what comes.
pub fn handle_all<J: Opening, S: Alter, R: Wait>(
    rt: &R,
    alloc: Global,
    side: DeskSide<J, S>,
) -> (Desk<S>, Ended<J>, Option<ServiceFault>)
    requires { OpensWith J.shows S.Store side.desk side.publisher.shown }
{
    let mut heard = Heard::nothing();
    let (desk, ended, fault) = side.desk_loop(rt, alloc, &mut heard);
    (desk, ended, heard.agreed(fault))
}

/// Serves a connection; whether an answer went out whole.
pub fn serve<J: Opening, R: Wait, I: Read, O: Write>(
    rt: &R,
    alloc: Global,
    worker: &mut Worker<J>,
    clerks: &Clerks,
    reader: &mut I,
    writer: &mut O,
) -> bool {
    let routes = Routes::new(alloc).ok();
    match worker.serve(rt, alloc, routes.as_ref(), clerks, reader, writer) {
        Ok(()) => true,
        Err(_) => false,
    }
}

/// Leaves.
pub fn leave<J: Opening, R: Wait>(rt: &R, worker: Worker<J>) -> Left<J> {
    worker.leave(rt)
}

/// Takes in a worker's end; whether the desk was told that it left, and it took part in the hall.
pub fn take_in<J: Opening>(ended: &mut Ended<J>, left: Left<J>) -> bool {
    let is_told = left.is_told;
    let took_part = ended.take_in(left);
    is_told && took_part
}

/// Ends what is left of a desk's side, and returns the number of handled submissions.
pub fn close<J: Opening, R: Wait>(rt: &R, ended: Ended<J>) -> u64 {
    let handled = ended.handled();
    ended.close(rt);
    handled
}

/// Handles a request, then looks up a patron's page, each with limited steps for each database
/// call: whether the request was handled, and the fault that came.
pub fn handle_and_look(
    desk: &mut Desk<MemStore>,
    alloc: Global,
    request: &Request,
    patron: PatronId,
    limit: u64,
) -> (bool, Option<Fault>) {
    desk.limit_steps(Some(limit));
    let met = match desk.handle(alloc, request) {
        Ok(_) => match desk.own_page(alloc, patron) {
            Ok(_) => (true, None),
            Err(fault) => (true, Some(fault)),
        },
        Err(fault) => (false, Some(fault)),
    };
    desk.limit_steps(None);
    met
}

/// The database under a desk, without a limit.
pub fn connection<S: Alter>(mut desk: Desk<S>) -> Connection<S> {
    desk.limit_steps(None);
    desk.into_store().into_connection()
}

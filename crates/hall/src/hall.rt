//! Opening a hall.

ghost use Rattle.std.specs.Prelude.{◌≡◌, ◌+◌, ◌≤◌, ◌⊎◌, ℕ, true, [], None, Ok, IfErr, IfOk, OnOk};
ghost use Rattle.std.specs.Prelude.{All, MatchResult};
ghost use Rattle.hall_schedule.specs.declared.schedule.TheConstants.{WORKERS as most};
ghost use Rattle.terms.specs.declared.fault.Fault.TheVariants.{Memory as NoMemory};
ghost use Rattle.terms.specs.declared.fault.ServiceFault.TheVariants.{Met, Closed};
ghost use Rattle.model.specs.History.{History};
ghost use Rattle.store.specs.Library.{over_memory, state};
ghost use Rattle.desk.specs.Answering.{Learns, Shows};
ghost use Rattle.desk.specs.Showing.{own_page};
ghost use Rattle.board.specs.Rule.{no_look};
ghost use Rattle.board.specs.Showing.{page_at};
ghost use Rattle.hall.specs.Queue.{IsHearing, worker_view};
ghost use Rattle.hall.specs.Openings.{why_number, can_be_workers, IsUnopened, IsUnmade, LooksOnly};
ghost use Rattle.hall.specs.Openings.{MeetsFaultOf, AreFirstPages, OpensBoard, OpensWith};
ghost use Rattle.hall.specs.Serving.{AreWorkers, IsNew};

use crate::closing::KnownClosing;
use crate::desk_side::DeskSide;
use crate::notices::{Notices, Teller};
use crate::opening::Opening;
use crate::queue_ends::{Hiring, Inbox, Opened, Post, Queue};
use crate::worker::Worker;
use board::{Blank, First, Publisher, Window, WorkerId};
use crossbeam_utils::sync::Parker;
use desk::Desk;
use hall_schedule::WORKERS;
use sqlite::{Alter, MemStore};
use std::alloc::Global;
use std::sync::{Arc, Wait};
use terms::{Fault, Memory, PatronId, Refusal, ServiceFault};

/// Why a hall can't be opened.
#[derive(Clone, Copy, Debug, PartialEq, Eq)]
pub enum Why {
    /// 21: the number of workers is zero or above 8.
    Refused(Refusal),
    /// 90, 91 or 93: a page could not be had, or memory ran out; 92: the board has no place for a
    /// reader.
    Faulted(ServiceFault),
}

impl Why {
    /// Returns its number.
    pub fn number(self) -> u32
        ensures { result ≡ why_number self }
    {
        match self {
            Why::Refused(refusal) => refusal.number(),
            Why::Faulted(fault) => fault.number(),
        }
    }
}

/// Why a hall can't be opened, with the desk meant for it.
pub struct HallFault<S: Alter> {
    pub why: Why,
    pub desk: Desk<S>,
}

/// A hall: a desk, workers that submit requests to it, one thread each, and the queue between them.
pub struct Hall;

/// Reads these patrons' pages from the desk. Faults 90, 91, 93.
fn pages_of<S: Alter>(
    alloc: Global,
    desk: &mut Desk<S>,
    patrons: &[PatronId],
) -> Result<First, Fault>
    ensures { Learns (AreFirstPages patrons.now) S.Store desk.old desk.new result }
{
    let mut first = First::new(alloc);
    'patrons: for patron in patrons {
        if let Some(page) = desk.own_page(alloc, *patron)? {
            first = first.with(alloc, *patron, page)?;
        }
    }
    Ok(first)
}

/// Reads all patrons' pages from the desk. Faults 90, 91, 93.
fn first_pages<S: Alter>(alloc: Global, desk: &mut Desk<S>) -> Result<First, Fault>
    ensures { Learns (λ H first. (p : ℕ) → page_at first p ≡ own_page H p)
        S.Store desk.old desk.new result }
{
    let patrons = desk.patrons(alloc)?;
    pages_of(alloc, desk, patrons.as_slice())
}

/// Hires the worker with this number.
fn hire_one<J: Opening, R: Wait>(
    rt: &R,
    alloc: Global,
    post: Post<J>,
    window: Window<J>,
    worker: WorkerId,
    closing: KnownClosing<J>,
    notices: &Arc<Notices<J>, Global>,
) -> Result<Worker<J>, Memory>
    requires { post ≡ worker_view worker }
    ensures post { IfOk result (λ w. w.post ≡ worker_view worker) }
    ensures new { window ≡ no_look → IfOk result (IsNew closing) }
{
    let parker = Parker::new(alloc)?;
    notices.hang(rt, worker, parker.unparker().clone()?);
    let notices = Arc::try_clone(notices)?;
    Ok(Worker::new(post, window, worker, closing, notices, parker))
}

/// Hires the workers, numbered from 1. Fault 90; 92 if the board has no place for a reader.
fn hire_all<J: Opening, R: Wait>(
    rt: &R,
    alloc: Global,
    hiring: &Hiring<J>,
    inbox: &mut Inbox<J>,
    publisher: &Publisher<J>,
    closing: &KnownClosing<J>,
    notices: &Arc<Notices<J>, Global>,
    workers: usize,
) -> Result<Vec<Worker<J>>, ServiceFault>
    requires inbox { IsHearing inbox.old × (inbox.old.got ≡ []) × (inbox.old.made ≡ 0) }
    requires limits { workers ≤ most }
    ensures inbox { IsHearing inbox.new × (inbox.new.got ≡ []) }
    ensures made { OnOk result (inbox.new.made ≡ workers) }
    ensures workers { IfOk result (λ all. AreWorkers workers all.items) }
    ensures new { IfOk result (λ all. All (IsNew closing.now) all.items) }
    ensures fault { IfErr result (λ fault. (fault ≡ Met NoMemory) ⊎ (fault ≡ Closed)) }
{
    let mut all = Vec::with_capacity(alloc, workers)?;
    for k in 0..workers {
        let worker = WorkerId::new(k as u64 + 1).unwrap();
        let Ok(window) = publisher.window() else {
            return Err(ServiceFault::Closed);
        };
        let post = hiring.hire(inbox)?;
        let hired = hire_one(rt, alloc, post, window, worker, closing.again(), notices)?;
        all.push(hired)?;
    }
    Ok(all)
}

/// The result of `Hall::new` without the desk and the board.
type Hired<J> = (Inbox<J>, Teller<J>, Vec<Worker<J>>);

/// Hires the workers and makes what they share with the desk. Fault 90; 92 if the board has no
/// place for a reader.
fn hire<J: Opening, R: Wait>(
    rt: &R,
    alloc: Global,
    queue: Queue,
    publisher: &Publisher<J>,
    workers: usize,
) -> Result<Hired<J>, ServiceFault>
    requires name { queue ≡ J.name }
    requires limits { workers ≤ most }
    ensures inbox { IfOk result (λ r. IsHearing r.0 × (r.0.got ≡ []) × (r.0.made ≡ workers)) }
    ensures untold { IfOk result (λ r. r.1 ≡ []) }
    ensures workers { IfOk result (λ r. AreWorkers workers r.2.items) }
    ensures new { IfOk result (λ r. All (IsNew []) r.2.items) }
    ensures fault { IfErr result (λ fault. (fault ≡ Met NoMemory) ⊎ (fault ≡ Closed)) }
{
    let (hiring, mut inbox, closings) = queue.ends::<J>();
    let notices = Arc::new(alloc, Notices::new())?;
    let all = hire_all(
        rt,
        alloc,
        &hiring,
        &mut inbox,
        publisher,
        &closings.known(),
        &notices,
        workers,
    )?;
    Ok((inbox, Teller::new(notices, closings), all))
}

/// Makes a board with all patrons' pages. Faults 90, 91, 93.
fn open_board<J: Opening, S: Alter, R: Wait>(
    rt: &R,
    alloc: Global,
    blank: Blank,
    desk: &mut Desk<S>,
    workers: usize,
) -> Result<Publisher<J>, Fault>
    requires name { blank ≡ J.book }
    requires limits { (1 ≤ workers) × (workers ≤ most) }
    ensures board { IfOk result (OpensBoard S.Store desk.old desk.new) }
    ensures looks { MatchResult result (λ _. LooksOnly S.Store desk.old desk.new (Ok tt))
        (MeetsFaultOf S.Store desk.old desk.new) }
{
    let first = first_pages(alloc, desk)?;
    Ok(Publisher::new(rt, alloc, blank, first, workers)?)
}

/// Returns whether this number of workers is allowed.
fn can_be(workers: usize) -> bool
    ensures { result ≡ can_be_workers workers }
{
    workers >= 1 && workers <= WORKERS as usize
}

impl Hall {
    /// Opens a hall of 1 to 8 workers on a newly made queue and board. Returns the desk's side and
    /// the workers, numbered from 1, which have sent, seen and been told nothing. The board shows
    /// all patrons' pages.
    ///
    /// 21 for another number of workers; 90, 91 or 93 if a page can't be had or memory runs out; 92
    /// if the board has no reader's place for a worker. Then the desk is returned, with the tables
    /// it showed. The places where workers are told a fault are made here.
    ///
    /// The tables must show each list of accepted requests that the opening names.
    pub fn new<J: Opening, S: Alter, R: Wait>(
        rt: &R,
        alloc: Global,
        opened: Opened,
        desk: Desk<S>,
        workers: usize,
    ) -> Result<(DeskSide<J, S>, Vec<Worker<J>>), HallFault<S>>
        requires name { (opened.queue ≡ J.name) × (opened.blank ≡ J.book) }
        requires shows { (H : History) → J.shows H → Shows (state S.Store desk) H }
        ensures side { IfOk result (λ r. LooksOnly S.Store desk r.0.desk (Ok tt)
            × (r.0.workers ≡ workers)) }
        ensures opens { IfOk result (λ r. OpensWith J.shows S.Store r.0.desk r.0.publisher.shown) }
        ensures pages { IfOk result (λ r. OpensBoard S.Store desk r.0.desk r.0.publisher) }
        ensures workers { IfOk result (λ r. AreWorkers workers r.1.items) }
        ensures new { IfOk result (λ r. All (IsNew []) r.1.items) }
        ensures limits { OnOk result (can_be_workers workers ≡ true) }
        ensures fault { IfErr result (λ f. IsUnopened workers S.Store desk f.desk f.why) }
    {
        if !can_be(workers) {
            let why = Why::Refused(Refusal::OutOfLimits);
            return Err(HallFault { why, desk });
        }
        let Opened { queue, blank } = opened;
        let mut desk = desk;
        let publisher = match open_board::<J, S, R>(rt, alloc, blank, &mut desk, workers) {
            Ok(publisher) => publisher,
            Err(fault) => {
                let why = Why::Faulted(ServiceFault::from(fault));
                return Err(HallFault { why, desk });
            }
        };
        match hire(rt, alloc, queue, &publisher, workers) {
            Ok((inbox, teller, all)) => {
                let side = DeskSide {
                    inbox,
                    desk,
                    publisher,
                    teller,
                    workers,
                };
                Ok((side, all))
            }
            Err(fault) => {
                publisher.close(rt);
                let why = Why::Faulted(fault);
                Err(HallFault { why, desk })
            }
        }
    }

    /// Opens a hall of 1 to 8 workers on the desk of a new library in memory, with a newly made
    /// queue and board. Its tables show the empty list of accepted requests, and nobody has a page.
    ///
    /// 21 for another number of workers; else 90 or 91 if the library can't be made, and 90 to 92
    /// as for `new`.
    pub fn in_memory<J: Opening, R: Wait>(
        rt: &R,
        alloc: Global,
        opened: Opened,
        workers: usize,
    ) -> Result<(DeskSide<J, MemStore>, Vec<Worker<J>>), Why>
        requires name { (opened.queue ≡ J.name) × (opened.blank ≡ J.book) }
        requires shows { (H : History) → J.shows H → H ≡ [] }
        ensures side { IfOk result (λ r. r.0.workers ≡ workers) }
        ensures opens { IfOk result (λ r. Shows (state over_memory r.0.desk) []
            × OpensWith J.shows over_memory r.0.desk r.0.publisher.shown) }
        ensures pages { IfOk result (λ r. (patron : ℕ)
            → page_at r.0.publisher.board.pages patron ≡ None) }
        ensures workers { IfOk result (λ r. AreWorkers workers r.1.items) }
        ensures new { IfOk result (λ r. All (IsNew []) r.1.items) }
        ensures limits { OnOk result (can_be_workers workers ≡ true) }
        ensures fault { IfErr result (IsUnmade workers) }
    {
        if !can_be(workers) {
            return Err(Why::Refused(Refusal::OutOfLimits));
        }
        let desk = match Desk::in_memory(alloc) {
            Ok(desk) => desk,
            Err(fault) => return Err(Why::Faulted(ServiceFault::from(fault))),
        };
        match Hall::new::<J, MemStore, R>(rt, alloc, opened, desk, workers) {
            Ok(hall) => Ok(hall),
            Err(HallFault { why, desk: _ }) => Err(why),
        }
    }
}

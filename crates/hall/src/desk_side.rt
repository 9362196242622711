//! The desk's side.

ghost use Rattle.std.specs.Prelude.{◌≡◌, ◌+◌, ◌++◌, ◌∷◌, ◌<◌, ◌≤◌, ◌⊎◌, ℕ, true, false, [], map};
ghost use Rattle.std.specs.Prelude.{None, Some, Ok, Err, IsSome, IsTrue, slice_index_or};
ghost use Rattle.std.specs.Prelude.{MatchResult, MatchOption, MatchBool};
ghost use Rattle.desk.specs.Answering.{Learns};
ghost use Rattle.hall_schedule.specs.declared.schedule.TheConstants.{WORKERS};
ghost use Rattle.store.specs.Limits.{limit_of};
ghost use Rattle.board.specs.Rule.{ShowsAll};
ghost use Rattle.board.specs.Showing.{LeavesOpen};
ghost use Rattle.model.specs.Requests.{only_asks};
ghost use Rattle.hall.specs.Queue.{IsHearing};
ghost use Rattle.hall.specs.Openings.{LooksOnly, MeetsFaultOf, ToldBy, OpensWith};
ghost use Rattle.hall.specs.Handling.{TakesNext, IsUnhandled, Finishes, PutsPages, IsDue};
ghost use Rattle.hall.specs.Handling.{MayBeNext, ShowsNext, AreShown, submission_of, shown_by};
ghost use Rattle.hall.specs.Handling.{MayHandle, MayTake, TakesMessage, AnswersTouching};
ghost use Rattle.hall.specs.Closings.{TellsClosing, TellsNext, TellsMessage, HasTold};
ghost use Rattle.hall.specs.Serving.{GivesReplies};
ghost use Rattle.hall.specs.declared.messages.Message.TheVariants.{Leave};

use crate::closing::Watch;
use crate::ended::Ended;
use crate::messages::{Message, Submission};
use crate::notices::Teller;
use crate::opening::Opening;
use crate::queue_ends::{Inbox, sender};
use board::{Entry, Publisher, StoppedBoard, WorkerId};
use desk::{Desk, Touched};
use hall_schedule::WORKERS;
use sqlite::Alter;
use std::alloc::Global;
use std::sync::Wait;
use std::thread;
use terms::{Command, Fault, PatronId, Reply, Request, ServiceFault};

/// The desk's side of a hall, for the thread that owns the database. It is not `Drop`: end it with
/// `desk_loop`.
pub struct DeskSide<J: Opening, S: Alter> {
    pub(crate) inbox: Inbox<J>,
    pub(crate) desk: Desk<S>,
    pub(crate) publisher: Publisher<J>,
    pub(crate) teller: Teller<J>,
    pub(crate) workers: usize,
    pub(crate) ghost few: { workers ≤ WORKERS },
    pub(crate) ghost hearing: { IsHearing inbox },
    pub(crate) ghost staffed: { inbox.made ≡ workers },
    pub(crate) ghost fresh: { inbox.got ≡ [] },
    pub(crate) ghost untold: { teller ≡ [] },
    pub(crate) ghost blank: { (publisher.shown.entries ≡ []) × (publisher.pages ≡ []) },
}

/// The board; once the hall has closed it shows nothing more.
type BoardSide<J> = Result<Publisher<J>, StoppedBoard<J>>;

/// The state of the desk's thread.
struct Handling<J: Opening, S: Alter> {
    desk: Desk<S>,
    teller: Teller<J>,
    /// The number of submissions handled.
    handled: u64,
    /// The fault that closed the hall.
    fault: Option<ServiceFault>,
}

/// Returns whether all workers have left.
fn have_left(gone: &[bool; 8], workers: usize) -> bool
    requires { workers ≤ WORKERS }
    ensures { IsTrue result → (k : ℕ) → k < workers → slice_index_or gone.now k false ≡ true }
{
    for k in 0..workers {
        if !gone[k] {
            return false;
        }
    }
    true
}

/// Notes that a worker has left.
fn note(gone: &mut [bool; 8], worker: WorkerId)
    ensures { (k : ℕ) → slice_index_or gone.new k false ≡ true
        → (slice_index_or gone.old k false ≡ true) ⊎ (k + 1 ≡ worker) }
{
    gone[(worker.number() - 1) as usize] = true;
}

/// Looks up these patrons' pages, to show with the next entry. Faults 90, 91, 93.
fn put_pages<J: Opening, S: Alter>(
    alloc: Global,
    desk: &mut Desk<S>,
    publisher: &mut Publisher<J>,
    patrons: &[PatronId],
) -> Result<(), Fault>
    ensures same { publisher.new.shown ≡ publisher.old.shown }
    ensures pages { Learns
        (λ H _. PutsPages patrons.now publisher.old.pages publisher.new.pages H)
        S.Store desk.old desk.new result }
{
    'patrons: for patron in patrons {
        if let Some(page) = desk.own_page(alloc, *patron)? {
            publisher.put(alloc, *patron, page)?;
        }
    }
    Ok(())
}

/// Returns whether a command only asks, and so changes nothing.
fn only_asks(command: &Command) -> bool
    ensures { result ≡ only_asks command.now }
{
    matches!(command, Command::Page { .. } | Command::Ask(_))
}

/// Returns whether more may be handled after this fault: 93 to a request that only asks.
fn stays_open(request: &Request, met: Fault) -> bool
    ensures { MatchBool result
        (LeavesOpen request.now (Err met)) (¬ LeavesOpen request.now (Err met)) }
{
    matches!(met, Fault::Stored) && only_asks(&request.command)
}

/// Shows a handled submission, with the pages that it may have changed.
fn show<J: Opening, S: Alter, R: Wait>(
    rt: &R,
    alloc: Global,
    desk: &mut Desk<S>,
    publisher: Publisher<J>,
    submission: Submission,
    answer: Result<Reply, Fault>,
    touched: &Touched,
) -> Result<Publisher<J>, (StoppedBoard<J>, Fault)>
    requires blank { publisher.pages ≡ [] }
    requires due { IsDue J.shows S.Store desk.old publisher.shown submission answer
        touched.now }
    ensures { MatchResult result
        (λ p. (p.shown.entries ≡ publisher.shown.entries ++ (record {
          worker = submission.worker;
          number = submission.number;
          request = submission.request;
          answer = answer;
        }) ∷ [])
        × (p.pages ≡ []) × LooksOnly S.Store desk.old desk.new (Ok tt)
        × ToldBy J.shows S.Store desk.new p.shown)
        (λ e. (e.0.shown ≡ publisher.shown) × MeetsFaultOf S.Store desk.old desk.new e.1) }
{
    let mut publisher = publisher;
    if let Err(fault) = put_pages(alloc, desk, &mut publisher, touched.as_slice()) {
        return Err((publisher.stop(), fault));
    }
    let Submission {
        worker,
        number,
        request,
    } = submission;
    let _in_limits = worker.number();
    let entry = Entry {
        worker,
        number,
        request,
        answer,
    };
    match publisher.publish(rt, alloc, entry) {
        Ok(publisher) => Ok(publisher),
        Err(stopped) => Err((stopped, Fault::Memory)),
    }
}

impl<J: Opening, S: Alter> Handling<J, S> {
    /// Handles a request and counts it. The answer is the reply, or 93 to a request that only asks
    /// and met a damaged row: no other one's. Other faults: 90, 91 and 93 as the desk gives them; 92
    /// after 2^64 - 1 requests, and then the desk is not asked.
    fn handle(
        &mut self,
        alloc: Global,
        request: &Request,
    ) -> Result<(Result<Reply, Fault>, Touched), ServiceFault>
        ensures same { (self.new.teller ≡ self.old.teller) × (self.new.fault ≡ self.old.fault) }
        ensures handles { MatchResult result
            (λ made. (self.new.handled ≡ self.old.handled + 1) × AnswersTouching request.now
            S.Store self.old.desk self.new.desk made.0 made.1)
            (λ fault. (self.new.handled ≡ self.old.handled) × IsUnhandled request.now
            S.Store self.old.desk self.new.desk self.old.handled fault) }
    {
        if self.handled == u64::MAX {
            return Err(ServiceFault::Closed);
        }
        match self.desk.handle_touching(alloc, request) {
            Ok((reply, touched)) => {
                self.handled += 1;
                Ok((Ok(reply), touched))
            }
            Err(met) => {
                if stays_open(request, met) {
                    self.handled += 1;
                    Ok((Err(met), Touched::none(alloc)))
                } else {
                    Err(ServiceFault::Met(met))
                }
            }
        }
    }

    /// Closes the hall at this submission of a worker. Tells the worker one fault, and the watch the
    /// one that closed the hall.
    fn close<R: Wait, N: Watch>(
        &mut self,
        rt: &R,
        watch: &mut N,
        worker: WorkerId,
        number: u64,
        told: ServiceFault,
        fault: ServiceFault,
    )
        requires { self.old.teller ≡ [] }
        ensures { self.new ≡ record self.old {
          fault = Some fault;
          teller = (record { worker = worker; number = number; fault = told }) ∷ [];
        } }
    {
        self.teller.close(rt, worker, number, told);
        watch.closed(fault);
        self.fault = Some(fault);
    }

    /// Handles and shows a submission. A fault that isn't shown as its answer closes the hall: the
    /// worker is told why the submission has no answer, and the watch is told of the closing.
    fn handle_next<R: Wait, N: Watch>(
        &mut self,
        rt: &R,
        alloc: Global,
        watch: &mut N,
        publisher: Publisher<J>,
        submission: Submission,
    ) -> BoardSide<J>
        requires open { self.old.fault ≡ None }
        requires untold { self.old.teller ≡ [] }
        requires next { MayBeNext J.shows S.Store self.old.desk publisher submission }
        ensures next { TakesNext submission.request S.Store self.old.desk self.new.desk
            self.old.handled self.new.handled self.old.fault self.new.fault }
        ensures shown { MatchResult result
            (λ p. (self.new.fault ≡ None) × (p.pages ≡ [])
            × AreShown p.shown.entries
            (map submission_of publisher.shown.entries ++ submission ∷ [])
            × ToldBy J.shows S.Store self.new.desk p.shown)
            (λ b. IsSome self.new.fault × (b.shown ≡ publisher.shown)) }
        ensures told { MatchOption self.new.fault (self.new.teller ≡ []) (λ fault. TellsClosing
            submission self.old.handled self.new.handled fault self.new.teller) }
    {
        let worker = submission.worker;
        let number = submission.number;
        let (answer, touched) = match self.handle(alloc, submission.request.get()) {
            Ok(made) => made,
            Err(fault) => {
                self.close(rt, watch, worker, number, fault, fault);
                return Err(publisher.stop());
            }
        };
        let desk = &mut self.desk;
        match show(rt, alloc, desk, publisher, submission, answer, &touched) {
            Ok(publisher) => {
                self.teller.wake(worker);
                Ok(publisher)
            }
            Err((stopped, met)) => {
                let fault = ServiceFault::Met(met);
                self.close(rt, watch, worker, number, ServiceFault::Closed, fault);
                Err(stopped)
            }
        }
    }

    /// Handles and shows a submission, unless the hall is closed.
    fn take_next<R: Wait, N: Watch>(
        &mut self,
        rt: &R,
        alloc: Global,
        watch: &mut N,
        board: BoardSide<J>,
        submission: Submission,
    ) -> BoardSide<J>
        requires next { MayHandle J.shows S.Store self.old.desk self.old.fault board submission }
        requires untold { self.old.fault ≡ None → self.old.teller ≡ [] }
        ensures next { TakesNext submission.request S.Store self.old.desk self.new.desk
            self.old.handled self.new.handled self.old.fault self.new.fault }
        ensures shown { ShowsNext J.shows S.Store self.new.desk board result submission
            self.new.fault }
        ensures told { TellsNext submission self.old.handled self.new.handled
            self.old.fault self.new.fault self.old.teller self.new.teller }
    {
        match board {
            Ok(publisher) => self.handle_next(rt, alloc, watch, publisher, submission),
            Err(stopped) => {
                self.teller.tell(rt, submission.worker, submission.number);
                Err(stopped)
            }
        }
    }

    /// Takes a worker's message: handles and shows a submission, or notes that the worker has left.
    fn take_message<R: Wait, N: Watch>(
        &mut self,
        rt: &R,
        alloc: Global,
        watch: &mut N,
        gone: &mut [bool; 8],
        board: BoardSide<J>,
        message: Message,
    ) -> BoardSide<J>
        requires next { MayTake J.shows S.Store self.old.desk self.old.fault board message }
        requires untold { self.old.fault ≡ None → self.old.teller ≡ [] }
        ensures next { TakesMessage J.shows message S.Store self.old.desk self.new.desk
            self.old.handled self.new.handled self.old.fault self.new.fault
            board result }
        ensures told { TellsMessage message self.old.handled self.new.handled
            self.old.fault self.new.fault self.old.teller self.new.teller }
        ensures gone { (k : ℕ) → slice_index_or gone.new k false ≡ true
            → (slice_index_or gone.old k false ≡ true) ⊎ (message ≡ Leave (k + 1)) }
    {
        match message {
            Message::Leave(worker) => {
                note(gone, worker);
                board
            }
            Message::Submit(submission) => self.take_next(rt, alloc, watch, board, submission),
        }
    }
}

/// Stops the board, which shows nothing more.
fn stop<J: Opening>(board: BoardSide<J>) -> StoppedBoard<J>
    ensures same { result.shown ≡ shown_by board }
    ensures all { ShowsAll result.shown result.board }
{
    let stopped = match board {
        Ok(publisher) => publisher.stop(),
        Err(stopped) => stopped,
    };
    stopped.shows_its_list();
    stopped
}

impl<J: Opening, S: Alter> DeskSide<J, S> {
    /// Limits the steps of each later database call; `None` means no limit, and 0 counts as 1.
    pub fn limit_steps(&mut self, limit: Option<u64>)
        ensures desk { self.new.desk ≡ record self.old.desk { step_limit = limit_of limit } }
        ensures same { (self.new.inbox ≡ self.old.inbox) × (self.new.publisher ≡ self.old.publisher)
            × (self.new.teller ≡ self.old.teller) × (self.new.workers ≡ self.old.workers) }
    {
        self.desk.limit_steps(limit);
    }

    /// Handles the workers' submissions in the order they arrive until every worker has left, and
    /// returns the desk. Each handled submission is shown on the board, with the pages that it may
    /// have changed, before the next is handled.
    ///
    /// A request that only asks and meets a damaged row is answered 93, and the next is handled. Any
    /// other fault of the desk closes the hall: the worker whose request met it is told that fault, and
    /// for every other submission, waiting or later, its worker is told 92. So does a board that
    /// can't show what was handled, because memory ran out or a page could not be had: then all are
    /// told 92. The loop still runs until every worker has left, and returns the fault. So the hall
    /// was closed if and only if there is a fault; without one, every submission was handled.
    /// Faults 90, 91 and 93 come from the desk; 92 if a submission follows 2^64 - 1 handled ones.
    /// Closing takes no memory, and the board, part of the result, stays as last shown. If the disk
    /// returned what was written to it, all that was shown follows from each list of accepted
    /// requests named by the opening: each reply at its place, and the pages with each prefix. So
    /// does the answer of a worker that has seen a prefix of it. The watch is told once, when the
    /// hall closes.
    pub fn desk_loop<R: Wait, N: Watch>(
        self,
        rt: &R,
        alloc: Global,
        watch: &mut N,
    ) -> (Desk<S>, Ended<J>, Option<ServiceFault>)
        requires { OpensWith J.shows S.Store self.desk self.publisher.shown }
        ensures finishes { Finishes self.workers result.1.handled result.1.heard.got
            result.1.board.shown.entries S.Store self.desk result.0 result.2 }
        ensures closing { HasTold result.1.handled result.1.heard.got
            result.1.board.shown.entries result.2 result.1.closing }
        ensures board { ShowsAll result.1.board.shown result.1.board.board }
        ensures told { ToldBy J.shows S.Store result.0 result.1.board.shown }
        ensures replies { GivesReplies J.shows S.Store result.0 result.1.board.shown }
    {
        let DeskSide {
            mut inbox,
            desk,
            publisher,
            teller,
            workers,
        } = self;
        let mut board: BoardSide<J> = Ok(publisher);
        let mut gone = [false; 8];
        let mut handling = Handling {
            desk,
            teller,
            handled: 0,
            fault: None,
        };
        'work: for _ in rt.forever() {
            if have_left(&gone, workers) {
                break;
            }
            match inbox.receive(rt) {
                Ok(message) => {
                    let _in_limits = sender(&message);
                    board = handling.take_message(rt, alloc, watch, &mut gone, board, message);
                }
                Err(_) => thread::yield_now(),
            }
        }
        let Handling {
            desk,
            teller,
            handled,
            fault,
        } = handling;
        let ended = Ended {
            heard: inbox.end(),
            board: stop(board),
            closing: teller.known(),
            handled,
            workers,
        };
        (desk, ended, fault)
    }
}

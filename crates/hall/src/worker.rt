//! The worker's side.

ghost use Rattle.std.specs.Prelude.{◌≡◌, ◌<◌, length, MatchResult, MatchBool, IfOk, IfErr, IfSome};
ghost use Rattle.std.specs.Prelude.{OnOk, Some};
ghost use Rattle.std.specs.Prelude.{option_map};
ghost use Rattle.std.specs.Arc.{arc_value};
ghost use Rattle.terms.specs.Writing.{Writes};
ghost use Rattle.web.specs.Answers.{answer_bytes, answer_for};
ghost use Rattle.board.specs.Showing.{StartsWith, GoesOn, IsAnswer, count_own};
ghost use Rattle.hall.specs.declared.messages.Message.TheVariants.{Leave};
ghost use Rattle.terms.specs.declared.fault.ServiceFault.TheVariants.{Closed};
ghost use Rattle.hall.specs.Closings.{told_of};
ghost use Rattle.hall.specs.Queue.{IsSending, sent_more, worker_view};
ghost use Rattle.hall.specs.Serving.{Submits, SubmitsOnce, page_asked, MeetsAsked, ServesFrom};
ghost use Rattle.hall.specs.Serving.{IsAnswered, TellsSubmitted, TellsPage, shown_page};
ghost use Rattle.hall.specs.Serving.{IfTold, IsFaultOf, answer_to, outcome_of};

use crate::closing::KnownClosing;
use crate::messages::{LAST_SUBMISSION, Message, Submission};
use crate::notices::Notices;
use crate::opening::Opening;
use crate::queue_ends::Post;
use board::{Entry, LastSeen, ReadError, SharedRequest, Window, WorkerId};
use clerks::Clerks;
use crossbeam_utils::sync::Parker;
use desk::OwnPage;
use std::alloc::Global;
use std::io::Write;
use std::marker::Model;
use std::sync::{Arc, Wait};
use terms::{Caller, CardKey, Command, Fault, Memory, PatronId, Refusal, Request, ServiceFault};
use web::{Answer, Asked, Routes, Source, WebFault, read_request, write_answer};

/// A worker of a hall. Contracts see what it sent, what it has seen of the handled list, what it was
/// told of the closing, and how many times it looked at the board.
#[derive(Drop)]
pub struct Worker<J: Opening> {
    post: Post<J>,
    window: Window<J>,
    worker: WorkerId,
    number: u64,
    /// Its last submission.
    last: Option<SharedRequest>,
    /// What it was told of the hall's closing.
    closing: KnownClosing<J>,
    notices: Arc<Notices<J>, Global>,
    parker: Parker,
}

impl<J: Opening> Model for Worker<J> {
    ghost use Rattle.std.specs.Prelude.{◌≡◌, true, length};
    ghost use Rattle.hall.specs.Queue.{IsSending, is_open};
    ghost use Rattle.hall.specs.Serving.{Working};

    ghost Value = { Working };

    ghost view = { λ w. record {
      post = w.post;
      seen = w.window.seen;
      closing = w.closing;
      looks = w.window.looks;
    } };

    ghost invariant = { λ w. IsSending w.post
        × (w.post.worker ≡ w.worker)
        × (is_open w.post.sent ≡ true)
        × (length w.post.sent ≡ w.number) };
}

/// The end of a departed worker.
#[derive(Drop)]
pub struct Left<J: Opening> {
    pub(crate) post: Post<J>,
    pub(crate) worker: WorkerId,
    /// What it had seen.
    pub(crate) sight: LastSeen<J>,
    /// What it was told of the hall's closing.
    pub(crate) closing: KnownClosing<J>,
    /// Whether its Leave is in the queue; false if the desk is gone.
    pub is_told: bool,
    pub(crate) ghost sending: { IsSending post },
    pub(crate) ghost named: { post.worker ≡ worker },
}

/// No whole answer went out: a read or write failed, no memory was left for the answer, or the
/// board was gone.
#[derive(Clone, Copy, Debug, PartialEq, Eq)]
pub struct ServeFault;

/// Why a worker has no reply.
#[derive(Clone, Copy)]
enum NoReply {
    /// This fault came instead.
    Told(ServiceFault),
    /// The board is gone, or doesn't show what the worker submitted.
    Gone,
    /// No memory is left for the reply.
    Untold,
}

/// Waits until the board shows a submission's entry, or the worker is told a fault.
fn await_entry<J: Opening, R: Wait>(
    rt: &R,
    window: &mut Window<J>,
    closing: &mut KnownClosing<J>,
    notices: &Notices<J>,
    parker: &Parker,
    worker: WorkerId,
    number: u64,
    request: &SharedRequest,
) -> Result<Arc<Entry, Global>, NoReply>
    ensures on { GoesOn window.new.seen window.old.seen }
    ensures closing { StartsWith closing.new closing.old }
    ensures told { IfErr result (IfTold
        (λ fault. told_of closing.new worker number ≡ Some fault)) }
    ensures found { IfOk result (λ entry. IsAnswer window.new.seen.entries worker number request.now
        (arc_value entry).answer) }
{
    'looks: for _ in rt.forever() {
        match window.entry(worker, number, request) {
            Ok(Some(entry)) => return Ok(entry),
            Ok(None) => {}
            Err(ReadError::Memory) => return Err(NoReply::Untold),
            Err(ReadError::Gone) => return Err(NoReply::Gone),
        }
        if let Some((fault, told)) = notices.fault_of(worker, number) {
            if !closing.begins(&told) {
                return Err(NoReply::Gone);
            }
            *closing = told;
            return Err(NoReply::Told(fault));
        }
        parker.park(rt);
    }
    unreachable!()
}

/// Returns the patron whose page the desk asks for, if any.
fn page_by_desk(request: &Request) -> Option<PatronId>
    ensures { result ≡ page_asked request.now }
{
    match (&request.caller, &request.command) {
        (Caller::Desk, Command::Page { patron }) => Some(*patron),
        _ => None,
    }
}

/// The answer to a look at a page, as the board shows it: to the desk, or by the card key that is
/// shown.
fn page_answer(
    alloc: Global,
    page: Option<Arc<OwnPage, Global>>,
    shown: Option<&CardKey>,
) -> Result<Answer, Memory>
    ensures { IfOk result (λ answer. answer ≡ answer_for
        (shown_page (option_map arc_value page) (option_map (λ k. k.now) shown.entry))) }
{
    match (page, shown) {
        (Some(page), Some(card_key)) => {
            if page.card_key.is_same(card_key) {
                Answer::reply(alloc, &page.reply)
            } else {
                Ok(Answer::Refused(Refusal::NotAllowed))
            }
        }
        (None, Some(_)) => Ok(Answer::Refused(Refusal::NotAllowed)),
        (Some(page), None) => Answer::reply(alloc, &page.reply),
        (None, None) => Ok(Answer::Refused(Refusal::UnknownPatron)),
    }
}

/// Makes the answer that an entry shows. None if no memory is left for it.
fn answer_of(alloc: Global, entry: &Entry) -> Option<Answer>
    ensures { IfSome result (λ answer. answer ≡ answer_to (outcome_of entry.now.answer)) }
{
    match &entry.answer {
        Ok(reply) => match Answer::reply(alloc, reply) {
            Ok(answer) => Some(answer),
            Err(_) => None,
        },
        Err(met) => Some(Answer::Faulted(ServiceFault::Met(*met))),
    }
}

/// Writes an answer. Takes no memory.
fn send<W: Write>(writer: &mut W, answer: &Answer) -> Result<(), ServeFault>
    ensures { Writes (answer_bytes answer.now)
        (W.contents writer.old) (W.contents writer.new) result }
{
    match write_answer(writer, answer) {
        Ok(()) => Ok(()),
        Err(_) => Err(ServeFault),
    }
}

impl<J: Opening> Worker<J> {
    /// Makes a worker that has submitted nothing.
    pub(crate) fn new(
        post: Post<J>,
        window: Window<J>,
        worker: WorkerId,
        closing: KnownClosing<J>,
        notices: Arc<Notices<J>, Global>,
        parker: Parker,
    ) -> Worker<J>
        requires { post ≡ worker_view worker }
        ensures { (result.post ≡ worker_view worker) × (result.seen ≡ window.seen)
            × (result.looks ≡ window.looks) × (result.closing ≡ closing) }
    {
        Worker {
            post,
            window,
            worker,
            number: 0,
            last: None,
            closing,
            notices,
            parker,
        }
    }

    /// Before the first submission, checks that the board shows none of this worker. 92 if it does.
    fn begin(&mut self) -> Result<(), NoReply>
        ensures same { self.new.post ≡ self.old.post }
        ensures on { GoesOn self.new.seen self.old.seen }
        ensures closing { self.new.closing ≡ self.old.closing }
        ensures none { OnOk result (count_own self.old.post.worker self.new.seen.entries ≡ 0) }
    {
        match self.window.shows_none_of(self.worker) {
            Ok(true) => Ok(()),
            Ok(false) => Err(NoReply::Gone),
            Err(ReadError::Memory) => Err(NoReply::Untold),
            Err(ReadError::Gone) => Err(NoReply::Gone),
        }
    }

    /// Waits until the last submission is on the board: then the worker has seen all it submitted.
    /// A fault means that it never will be.
    fn catch_up<R: Wait>(&mut self, rt: &R) -> Result<(), NoReply>
        ensures same { self.new.post ≡ self.old.post }
        ensures on { GoesOn self.new.seen self.old.seen }
        ensures closing { StartsWith self.new.closing self.old.closing }
        ensures all { OnOk result
            (count_own self.old.post.worker self.new.seen.entries ≡ length self.old.post.sent) }
    {
        if self.number == 0 {
            return self.begin();
        }
        let Some(last) = &self.last else {
            return Err(NoReply::Gone);
        };
        match await_entry(
            rt,
            &mut self.window,
            &mut self.closing,
            &self.notices,
            &self.parker,
            self.worker,
            self.number,
            last,
        ) {
            Ok(_) => Ok(()),
            Err(lost) => Err(lost),
        }
    }

    /// Submits a request under the worker's next number, from 1 to 2^50, waiting for a free place
    /// in the queue. 92, with nothing submitted, if the numbers are used up or the desk is gone.
    fn submit<R: Wait>(&mut self, rt: &R, request: SharedRequest) -> Result<(), ServiceFault>
        ensures same { (self.new.seen ≡ self.old.seen) × (self.new.closing ≡ self.old.closing) }
        ensures once { MatchResult result
            (λ _. Submits self.old.post self.new.post request)
            (λ fault. (fault ≡ Closed) × (self.new.post ≡ self.old.post)) }
    {
        if self.number >= LAST_SUBMISSION {
            return Err(ServiceFault::Closed);
        }
        let number = self.number + 1;
        let submission = Submission {
            worker: self.worker,
            number,
            request,
        };
        match self.post.send(rt, Message::Submit(submission)) {
            Ok(()) => {
                self.number = number;
                Ok(())
            }
            Err(_) => Err(ServiceFault::Closed),
        }
    }

    /// Waits for the reply to the last submission, of this request.
    fn await_reply<R: Wait>(
        &mut self,
        rt: &R,
        request: SharedRequest,
    ) -> Result<Arc<Entry, Global>, NoReply>
        ensures same { self.new.post ≡ self.old.post }
        ensures on { GoesOn self.new.seen self.old.seen }
        ensures closing { StartsWith self.new.closing self.old.closing }
        ensures told { IfErr result (IfTold (λ fault. told_of self.new.closing
            self.old.post.worker (length self.old.post.sent) ≡ Some fault)) }
        ensures found { IfOk result (λ entry. IsAnswer self.new.seen.entries
            self.old.post.worker (length self.old.post.sent) request (arc_value entry).answer) }
    {
        let found = await_entry(
            rt,
            &mut self.window,
            &mut self.closing,
            &self.notices,
            &self.parker,
            self.worker,
            self.number,
            &request,
        );
        self.last = Some(request);
        found
    }

    /// Submits a request and waits for its reply.
    fn ask<R: Wait>(
        &mut self,
        rt: &R,
        alloc: Global,
        request: Request,
    ) -> Result<Arc<Entry, Global>, NoReply>
        ensures on { GoesOn self.new.seen self.old.seen }
        ensures closing { StartsWith self.new.closing self.old.closing }
        ensures once { SubmitsOnce self.old.post self.new.post request }
        ensures found { IfOk result (λ entry. IsAnswered request self.old self.new
            (arc_value entry).answer) }
        ensures fault { IfErr result (IfTold (IsFaultOf request self.old self.new)) }
    {
        match self.catch_up(rt) {
            Ok(()) => {}
            Err(NoReply::Told(_)) | Err(NoReply::Gone) => return Err(NoReply::Told(
                ServiceFault::Closed,
            )),
            Err(NoReply::Untold) => return Err(NoReply::Told(ServiceFault::Met(Fault::Memory))),
        }
        let Ok(own) = SharedRequest::new(alloc, request) else {
            return Err(NoReply::Told(ServiceFault::Met(Fault::Memory)));
        };
        let Ok(other) = own.try_clone() else {
            return Err(NoReply::Told(ServiceFault::Met(Fault::Memory)));
        };
        match self.submit(rt, other) {
            Ok(()) => self.await_reply(rt, own),
            Err(fault) => Err(NoReply::Told(fault)),
        }
    }

    /// Gets the desk's answer to a request. None if no memory is left for it or the board is gone.
    fn answer_from_desk<R: Wait>(
        &mut self,
        rt: &R,
        alloc: Global,
        request: Request,
    ) -> Option<Answer>
        ensures on { GoesOn self.new.seen self.old.seen }
        ensures closing { StartsWith self.new.closing self.old.closing }
        ensures once { SubmitsOnce self.old.post self.new.post request }
        ensures told { IfSome result (TellsSubmitted request self.old self.new) }
    {
        match self.ask(rt, alloc, request) {
            Ok(entry) => answer_of(alloc, &entry),
            Err(NoReply::Told(fault)) => Some(Answer::Faulted(fault)),
            Err(NoReply::Gone) | Err(NoReply::Untold) => None,
        }
    }

    /// Answers a look at a patron's page from the board, by the card key shown or by the desk.
    /// Faults 90, 92.
    fn answer_from_board(
        &mut self,
        alloc: Global,
        patron: PatronId,
        shown: Option<&CardKey>,
    ) -> Answer
        ensures same { (self.new.post ≡ self.old.post) × (self.new.closing ≡ self.old.closing) }
        ensures on { GoesOn self.new.seen self.old.seen }
        ensures told { TellsPage patron (option_map (λ k. k.now) shown.entry)
            self.old self.new result }
    {
        match self.window.page(patron) {
            Ok(page) => match page_answer(alloc, page, shown) {
                Ok(answer) => answer,
                Err(_) => Answer::Faulted(ServiceFault::Met(Fault::Memory)),
            },
            Err(ReadError::Memory) => Answer::Faulted(ServiceFault::Met(Fault::Memory)),
            Err(ReadError::Gone) => Answer::Faulted(ServiceFault::Closed),
        }
    }

    /// Answers what is asked for. None if no memory is left for it or the board is gone.
    fn answer<R: Wait>(&mut self, rt: &R, alloc: Global, asked: Asked) -> Option<Answer>
        ensures { MeetsAsked asked self.old self.new result }
    {
        match asked {
            Asked::Nothing => Some(Answer::Refused(Refusal::NotAllowed)),
            Asked::Page(patron, card_key) => {
                Some(self.answer_from_board(alloc, patron, Some(&card_key)))
            }
            Asked::Request(request) => match page_by_desk(&request) {
                Some(patron) => Some(self.answer_from_board(alloc, patron, None)),
                None => self.answer_from_desk(rt, alloc, request),
            },
        }
    }

    /// Serves one connection: reads its request and writes its answer.
    ///
    /// The answer is that of the request in the bytes, or the status of the first failed check. A
    /// page comes from the board, without waiting for the desk; 90 if no memory is left to look at
    /// it, and 92 if the board is gone. Any other request is submitted, and its reply comes from
    /// the board once the desk has handled it. If it wasn't submitted, the answer is 90 or 92: no
    /// memory was left before, or the hall is closed, or the worker's numbers are used up. Once
    /// submitted, 90 to 93: the fault that it met, which is 93 where it only asks and the hall stays
    /// open, or 92 if the hall closed at another one or can't show it. The connection breaks if a read or write fails, no memory is left for the answer,
    /// or the board is gone after submitting: then nothing or a prefix of the answer went out. If
    /// there is no memory to read the request, or there was none for the routes, the answer is
    /// fault 90. Nothing is read after the request, the end of the input or a failed read.
    pub fn serve<I: Source, O: Write, R: Wait>(
        &mut self,
        rt: &R,
        alloc: Global,
        routes: Option<&Routes>,
        clerks: &Clerks,
        reader: &mut I,
        writer: &mut O,
    ) -> Result<(), ServeFault>
        ensures { ServesFrom I.reads I.Read.remaining clerks.now reader.old reader.new
            self.old self.new (O.contents writer.old) (O.contents writer.new) result }
    {
        let answer = match read_request(alloc, routes, reader) {
            Ok(request) => match request.asked(alloc, clerks) {
                Ok(asked) => self.answer(rt, alloc, asked),
                Err(Memory) => Some(Answer::Faulted(ServiceFault::Met(Fault::Memory))),
            },
            Err(WebFault::Status(status)) => Some(Answer::Failed(status)),
            Err(WebFault::Memory) => Some(Answer::Faulted(ServiceFault::Met(Fault::Memory))),
            Err(WebFault::Read) => None,
        };
        match answer {
            Some(answer) => send(writer, &answer),
            None => Err(ServeFault),
        }
    }

    /// Leaves the hall; the desk waits for every worker to do so. Returns its end of the queue,
    /// which tells what it submitted, and what it had seen.
    pub fn leave<R: Wait>(self, rt: &R) -> Left<J>
        ensures seen { (result.sight ≡ self.seen) × (result.closing ≡ self.closing) }
        ensures told { MatchBool result.is_told
            (result.post ≡ sent_more self.post (Leave self.post.worker)) (result.post ≡ self.post) }
    {
        let Worker {
            mut post,
            window,
            worker,
            number: _,
            last: _,
            closing,
            notices: _,
            parker: _,
        } = self;
        let is_told = match post.send(rt, Message::Leave(worker)) {
            Ok(()) => true,
            Err(_) => false,
        };
        Left {
            post,
            worker,
            sight: window.leave(),
            closing,
            is_told,
        }
    }
}

//! The ends of the queue.

ghost use Rattle.std.specs.Prelude.{◌≡◌, ◌≤◌, ◌+◌, [], true, false, length, MatchResult};
ghost use Rattle.crossbeam_channel.specs.Claims.{IsKeyed};
ghost use Rattle.crossbeam_channel.specs.Ends.{sends_on};
ghost use Rattle.crossbeam_channel.specs.Err.{send_message};
ghost use Rattle.hall.specs.Queue.{from, of, is_open, HasNumber, IsNext, IsHearing, IsSending};
ghost use Rattle.hall.specs.Queue.{desk_view, worker_view, joined, taken_in, sent_more, got_more};

use crate::closing::{Closing, Closings};
use crate::messages::{Message, View};
use crate::opening::Opening;
use crate::rule::{Hires, InTurn, Receives, Sends, TakesIn, Total};
use board::Blank;
use chronicle::{Beginning, Chronicle};
use crossbeam_channel::{Pass, RecvError, RuledReceiver, RuledSender, SendError, bounded_with};
use hall_schedule::PLACES;
use std::alloc::Global;
use std::marker::{Model, PhantomData};
use std::sync::Wait;
use terms::Memory;

/// The parts of a hall that isn't open yet: a queue of 8 places, and a board that has shown
/// nothing.
#[derive(Drop)]
pub struct Opened {
    pub(crate) queue: Queue,
    pub(crate) blank: Blank,
}

impl Opened {
    /// Makes the queue and the board for `Hall::new`.
    pub fn new(alloc: Global) -> Result<Opened, Memory> {
        Ok(Opened {
            queue: Queue::new(alloc)?,
            blank: Blank::new(),
        })
    }
}

/// A queue of 8 places that belongs to no hall yet, with a list of closings.
#[derive(Drop)]
pub(crate) struct Queue {
    sender: RuledSender<Message, View, InTurn>,
    receiver: RuledReceiver<Message, View, InTurn>,
    pass: Pass<Message, View>,
    chronicle: Chronicle<Closing>,
    none: Beginning<Closing>,
}

impl Model for Queue {
    ghost use Rattle.std.specs.Prelude.{◌≡◌, []};
    ghost use Rattle.chronicle.specs.Growing.{known};
    ghost use Rattle.crossbeam_channel.specs.Claims.{view as knows, IsSeatAt};
    ghost use Rattle.crossbeam_channel.specs.Ends.{sends_on, receives_on, ruled_capacity};
    ghost use Rattle.hall_schedule.specs.declared.schedule.TheConstants.{PLACES};
    ghost use Rattle.hall.specs.Queue.{desk_view};
    ghost use Rattle.hall.specs.Names.{QueueName};

    ghost Value = { QueueName };

    ghost view = { λ o. record {
      queue = o.pass.table_id;
      key = o.pass.me.0.of;
      closings = o.chronicle;
    } };

    ghost invariant = { λ o. (receives_on o.receiver ≡ sends_on o.sender)
        × (ruled_capacity (sends_on o.sender) ≡ PLACES)
        × IsSeatAt (sends_on o.sender) o.pass
        × (knows o.pass ≡ desk_view) × (o.none ≡ known o.chronicle []) };
}

impl Queue {
    /// Makes a queue of 8 places; nothing was sent or received.
    fn new(alloc: Global) -> Result<Queue, Memory> {
        let (sender, receiver, pass) = bounded_with::<Message, View, InTurn, Global>(
            alloc, PLACES,
        )?;
        let (chronicle, none) = Chronicle::new();
        Ok(Queue {
            sender,
            receiver,
            pass,
            chronicle,
            none,
        })
    }

    /// Returns the desk's end, the maker of workers' ends, and the empty list of closings.
    pub(crate) fn ends<J: Opening>(self) -> (Hiring<J>, Inbox<J>, Closings<J>)
        requires { self ≡ J.name }
        ensures desk { result.1 ≡ desk_view }
        ensures untold { result.2 ≡ [] }
    {
        let Queue {
            sender,
            receiver,
            pass,
            chronicle,
            none,
        } = self;
        (
            Hiring {
                sender,
                of: PhantomData,
            },
            Inbox {
                receiver,
                pass,
                of: PhantomData,
            },
            Closings::over(chronicle, none),
        )
    }
}

/// A worker's end.
#[derive(Drop)]
pub struct Post<J: Opening> {
    sender: RuledSender<Message, View, InTurn>,
    pass: Pass<Message, View>,
    of: PhantomData<J>,
}

impl<J: Opening> Model for Post<J> {
    ghost use Rattle.std.specs.Prelude.{◌≡◌};
    ghost use Rattle.crossbeam_channel.specs.Claims.{view as knows, IsSeatAt};
    ghost use Rattle.crossbeam_channel.specs.Ends.{sends_on};
    ghost use Rattle.hall.specs.declared.messages.View.{View};

    ghost Value = { View };

    ghost view = { λ p. knows p.pass };

    ghost invariant = { λ p. IsSeatAt (sends_on p.sender) p.pass
        × ((sends_on p.sender).stamps.shared.table_id ≡ J.name.queue)
        × ((sends_on p.sender).stamps.shared.key ≡ J.name.key) };
}

impl<J: Opening> Post<J> {
    /// Sends a message, waiting for a free place. An error returns it: the desk is gone.
    pub(crate) fn send<R: Wait>(
        &mut self,
        rt: &R,
        message: Message,
    ) -> Result<(), SendError<Message>>
        requires sends { self.old.sends ≡ true }
        requires mine { from message ≡ self.old.worker }
        requires stays { is_open self.old.sent ≡ true }
        requires next { HasNumber (length self.old.sent + 1) message }
        ensures { MatchResult result (λ _. self.new ≡ sent_more self.old message)
            (λ e. (send_message e ≡ message) × (self.new ≡ self.old)) }
    {
        self.sender.send_as::<Sends, R>(rt, &mut self.pass, message)
    }
}

/// Returns the worker that sent the message.
pub(crate) fn sender(message: &Message) -> u64
    ensures value { result ≡ from message.now }
    ensures least { 1 ≤ result }
{
    let worker = match message {
        Message::Submit(submission) => submission.worker,
        Message::Leave(worker) => *worker,
    };
    worker.number()
}

/// The desk's end.
#[derive(Drop)]
pub struct Inbox<J: Opening> {
    receiver: RuledReceiver<Message, View, InTurn>,
    pass: Pass<Message, View>,
    of: PhantomData<J>,
}

impl<J: Opening> Model for Inbox<J> {
    ghost use Rattle.std.specs.Prelude.{◌≡◌};
    ghost use Rattle.crossbeam_channel.specs.Claims.{view as knows, IsSeatAt};
    ghost use Rattle.crossbeam_channel.specs.Ends.{receives_on};
    ghost use Rattle.hall.specs.declared.messages.View.{View};

    ghost Value = { View };

    ghost view = { λ p. knows p.pass };

    ghost invariant = { λ p. IsSeatAt (receives_on p.receiver) p.pass
        × ((receives_on p.receiver).stamps.shared.table_id ≡ J.name.queue)
        × ((receives_on p.receiver).stamps.shared.key ≡ J.name.key) };
}

impl<J: Opening> Inbox<J> {
    /// Takes the first message. An error isn't the end: the queue was empty for a moment.
    pub(crate) fn receive<R: Wait>(&mut self, rt: &R) -> Result<Message, RecvError>
        requires { self.old.gets ≡ true }
        ensures { MatchResult result (λ x. (self.new ≡ got_more self.old x) × IsNext self.old.got x
            × (from x ≤ self.old.made)) (λ _. self.new ≡ self.old) }
    {
        self.receiver.recv_as::<Receives, R>(rt, &mut self.pass)
    }

    /// Ends receiving and returns what was received.
    pub(crate) fn end(self) -> Heard<J>
        ensures { result ≡ self }
    {
        let Inbox {
            receiver,
            pass,
            of: _,
        } = self;
        drop(receiver);
        Heard {
            pass,
            of: PhantomData,
        }
    }
}

/// What the desk received by the end.
#[derive(Drop)]
pub struct Heard<J: Opening> {
    pass: Pass<Message, View>,
    of: PhantomData<J>,
}

impl<J: Opening> Model for Heard<J> {
    ghost use Rattle.std.specs.Prelude.{◌≡◌, []};
    ghost use Rattle.crossbeam_channel.specs.Claims.{view as knows};
    ghost use Rattle.hall.specs.declared.messages.View.{View};

    ghost Value = { View };

    ghost view = { λ p. knows p.pass };

    ghost invariant = { λ p. (p.pass.table_id ≡ J.name.queue)
        × (p.pass.me.0.of ≡ J.name.key)
        × (p.pass.me.1 ≡ []) };
}

impl<J: Opening> Heard<J> {
    /// Takes in a worker's end. If its Leave was received, so was all that it sent.
    pub(crate) fn take_in(&mut self, post: Post<J>)
        requires desk { IsHearing self.old }
        requires worker { IsSending post }
        ensures heard { self.new ≡ taken_in self.old post }
        ensures whole { is_open (of post.worker self.old.got) ≡ false
            → of post.worker self.old.got ≡ post.sent }
    {
        let Post {
            sender,
            pass,
            of: _,
        } = post;
        sender.absorb::<TakesIn>(&mut self.pass, pass);
        sender.learn_as::<Total>(&mut self.pass);
    }
}

/// Makes workers' ends.
#[derive(Drop)]
pub(crate) struct Hiring<J: Opening> {
    sender: RuledSender<Message, View, InTurn>,
    of: PhantomData<J>,
    ghost keyed: { IsKeyed (sends_on sender)
        × ((sends_on sender).stamps.shared.table_id ≡ J.name.queue)
        × ((sends_on sender).stamps.shared.key ≡ J.name.key) },
}

impl<J: Opening> Hiring<J> {
    /// Makes the end of the next worker, with the next number.
    pub(crate) fn hire(&self, inbox: &mut Inbox<J>) -> Result<Post<J>, Memory>
        requires { IsHearing inbox.old }
        ensures { MatchResult result
            (λ p. (p ≡ worker_view (inbox.old.made + 1)) × (inbox.new ≡ joined inbox.old))
            (λ _. inbox.new ≡ inbox.old) }
    {
        let sender = self.sender.try_clone()?;
        let pass = sender.another::<Hires>(&mut inbox.pass);
        Ok(Post {
            sender,
            pass,
            of: PhantomData,
        })
    }
}

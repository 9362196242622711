//! The messages in the queue, and what each side knows of it.

use board::{SharedRequest, WorkerId};
use std::collections::LinkedList;

/// The number of the last submission that a worker may make.
pub const LAST_SUBMISSION: u64 = 1 << 50;

/// A request, with the worker that submits it and its number among that worker's submissions, from
/// 1 to 2^50 without gaps.
#[derive(Drop)]
pub struct Submission {
    pub worker: WorkerId,
    pub number: u64,
    pub request: SharedRequest,
}

/// What a worker sends to the desk.
#[derive(Drop)]
pub enum Message {
    Submit(Submission),
    /// This worker has left and sends nothing more.
    Leave(WorkerId),
}

/// What a departed worker had sent. No value of it is made.
pub struct Sent {
    pub worker: u64,
    pub messages: LinkedList<Message>,
}

/// What an end of the queue knows. No value of it is made.
pub struct View {
    /// It may send, for this worker.
    pub sends: bool,
    /// It may receive.
    pub gets: bool,
    pub worker: u64,
    /// What it sent, in order.
    pub sent: LinkedList<Message>,
    /// What it received, in order.
    pub got: LinkedList<Message>,
    /// The number of workers' ends made.
    pub made: u64,
    /// What the workers whose ends were taken in had sent, the last one first.
    pub heard: LinkedList<Sent>,
}

//! Handled submissions, and what is seen of them.

use crate::request::SharedRequest;
use crate::worker_id::WorkerId;
use desk::OwnPage;
use std::collections::LinkedList;
use terms::{Fault, Reply};

/// An entry of the handled list: a worker's submission with its number, and its answer: a reply, or
/// fault 93 if it only asks and met a damaged row.
#[derive(Drop)]
pub struct Entry {
    pub worker: WorkerId,
    pub number: u64,
    pub request: SharedRequest,
    pub answer: Result<Reply, Fault>,
}

/// What the board shows between two entries: the first of them (none in the first frame) and all
/// pages. No value of it is made.
pub struct Frame {
    pub entry: Option<Entry>,
    pub pages: LinkedList<(u32, OwnPage)>,
}

/// What a side of the board has seen: a beginning of the handled list, and the pages shown with it,
/// first without entries and then with each. No value of it is made.
pub struct Seen {
    pub entries: LinkedList<Entry>,
    pub pages: LinkedList<LinkedList<(u32, OwnPage)>>,
}

/// What a worker's side knows: what it has seen, and how many times it looked at the board. No
/// value of it is made.
pub struct Sight {
    pub seen: Seen,
    pub looks: u64,
}

//! The hall's steps, in sequence, and their result.

ghost use Rattle.std.specs.Prelude.{◌≡◌, ◌++◌, ◌∷◌, ◌<◌, ◌^◌, OnErr, OnOk};
ghost use Rattle.std.specs.Prelude.{[], count_by, length, set, slice_index_or, take, true};
ghost use Rattle.hall_schedule.specs.Schedules.{lists_of, state_of, list_at, seen_at, is_of};
ghost use Rattle.hall_schedule.specs.Schedules.{is_worker, may_submit, submitted_by};
ghost use Rattle.hall_schedule.specs.Schedules.{start, step, run, IsLawful};

use std::alloc::{AllocError, Global};
use std::collections::VecDeque;

/// The most workers.
pub const WORKERS: u64 = 8;

/// The capacity of the queue.
pub const PLACES: usize = 8;

/// One step of a worker or the desk.
#[derive(Clone, Copy, Debug, PartialEq, Eq)]
pub enum Act {
    /// This worker, 1 to 8, appends this request to the queue.
    Submit(u64, u64),
    /// The desk handles the first request in the queue.
    Handle,
    /// The board shows what has been handled.
    Publish,
    /// This worker looks at the board.
    Look(u64),
}

/// A submission.
#[derive(Clone, Copy, Debug, PartialEq, Eq)]
pub struct Item {
    pub worker: u64,
    pub request: u64,
    /// The number of handled submissions the worker had seen when submitting this one.
    pub seen: usize,
}

/// The result of a schedule.
#[derive(Drop)]
pub struct World {
    /// The number of acts taken.
    pub taken: usize,
    /// What each worker submitted, in order; worker 1 first.
    pub submitted: [Vec<u64>; 8],
    /// What waits for the desk, the next first.
    pub queue: VecDeque<Item>,
    /// What was handled, in order.
    pub handled: Vec<Item>,
    /// The number of handled submissions on the board.
    pub published: usize,
    /// The number of them each worker has seen; worker 1 first.
    pub seen: [usize; 8],
}

/// Returns whether there is such a worker.
fn has_worker(worker: u64) -> bool
    ensures { result ≡ is_worker worker }
{
    1 <= worker && worker <= WORKERS
}

/// Adds a request to one of the lists.
fn put(lists: &mut [Vec<u64>], place: usize, request: u64) -> Result<(), AllocError>
    requires { place < length lists.old }
    ensures ok { OnOk result (lists_of lists.new
        ≡ set (lists_of lists.old) place
        (slice_index_or (lists_of lists.old) place [] ++ request ∷ [])) }
    ensures err { OnErr result (lists_of lists.new ≡ lists_of lists.old) }
{
    let list = &mut lists[place];
    list.reserve(1)?;
    list.push_reserved(request);
    Ok(())
}

impl World {
    /// Makes the world before the first act.
    fn new(alloc: Global) -> World
        ensures { state_of result ≡ start }
    {
        World {
            taken: 0,
            submitted: [
                Vec::new(alloc),
                Vec::new(alloc),
                Vec::new(alloc),
                Vec::new(alloc),
                Vec::new(alloc),
                Vec::new(alloc),
                Vec::new(alloc),
                Vec::new(alloc),
            ],
            queue: VecDeque::new(alloc),
            handled: Vec::new(alloc),
            published: 0,
            seen: [0; 8],
        }
    }

    /// Returns how many of its own submissions the worker has seen handled.
    fn seen_handled(&self, worker: u64) -> usize
        requires { is_worker worker ≡ true }
        ensures { result ≡ count_by (is_of worker)
            (take (seen_at (state_of self.now) worker) self.now.handled.items) }
    {
        let seen = self.seen[(worker - 1) as usize];
        self.handled
            .iter()
            .take(seen)
            .filter(|item| item.worker == worker)
            .count()
    }

    /// Returns how many requests the worker submitted.
    fn count_submitted(&self, worker: u64) -> usize
        requires { is_worker worker ≡ true }
        ensures { result ≡ length (list_at (state_of self.now) worker) }
    {
        self.submitted[(worker - 1) as usize].len()
    }

    /// Returns whether there is such a worker and a free place, and the worker has seen all its
    /// submissions handled.
    fn may_submit(&self, worker: u64) -> bool
        ensures { result ≡ may_submit (state_of self.now) worker }
    {
        has_worker(worker)
            && self.queue.len() < PLACES
            && self.seen_handled(worker) == self.count_submitted(worker)
    }

    /// Appends a worker's request to the queue. Changes nothing on `Err`.
    fn submit(&mut self, worker: u64, request: u64) -> Result<(), AllocError>
        requires worker { is_worker worker ≡ true }
        requires room { self.old.taken < 2 ^ 63 }
        ensures ok { OnOk result
            (state_of self.new ≡ submitted_by (state_of self.old) worker request) }
        ensures err { OnErr result (state_of self.new ≡ state_of self.old) }
    {
        let place = (worker - 1) as usize;
        let seen = self.seen[place];
        self.queue.reserve(1)?;
        put(&mut self.submitted, place, request)?;
        self.queue.push_back_reserved(Item {
            worker,
            request,
            seen,
        });
        self.taken += 1;
        Ok(())
    }

    /// Moves the front of the queue to the end of the handled list. Changes nothing on `Err`.
    fn handle(&mut self) -> Result<(), AllocError>
        requires room { self.old.taken < 2 ^ 63 }
        ensures ok { OnOk result (state_of self.new ≡ step (state_of self.old) Act.Handle) }
        ensures err { OnErr result (state_of self.new ≡ state_of self.old) }
    {
        self.handled.reserve(1)?;
        if let Some(item) = self.queue.pop_front() {
            self.handled.push_reserved(item);
        }
        self.taken += 1;
        Ok(())
    }

    /// Takes one act. An impossible one changes only the count of acts taken. Changes nothing on
    /// `Err`.
    fn take(&mut self, act: Act) -> Result<(), AllocError>
        requires room { self.old.taken < 2 ^ 63 }
        ensures ok { OnOk result (state_of self.new ≡ step (state_of self.old) act) }
        ensures err { OnErr result (state_of self.new ≡ state_of self.old) }
    {
        match act {
            Act::Submit(worker, request) => {
                if self.may_submit(worker) {
                    return self.submit(worker, request);
                }
            }
            Act::Handle => return self.handle(),
            Act::Publish => self.published = self.handled.len(),
            Act::Look(worker) => {
                if has_worker(worker) {
                    self.seen[(worker - 1) as usize] = self.published;
                }
            }
        }
        self.taken += 1;
        Ok(())
    }
}

/// Replays the first `taken` acts of the schedule: all of them unless memory runs out.
///
/// For any schedule, the handled and then the queued requests form one list in which each worker's
/// submissions stand in the order it made them; see `specs/Schedules`.
pub fn replay(alloc: Global, acts: &[Act]) -> World
    ensures world { state_of result ≡ run (take result.taken acts.now) }
    ensures lawful { IsLawful (state_of result) }
{
    let mut world = World::new(alloc);
    for act in acts {
        match world.take(*act) {
            Ok(()) => {}
            Err(_) => return world,
        }
    }
    world
}

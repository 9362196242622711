//! Where workers are woken to look at the board, and told why the desk didn't handle their
//! submissions.

ghost use Rattle.std.specs.Prelude.{◌≡◌, ◌∷◌, [], Some, IfSome};
ghost use Rattle.hall.specs.Closings.{told_of};

use crate::closing::{Closing, Closings, KnownClosing};
use crate::opening::Opening;
use board::WorkerId;
use crossbeam_utils::sync::Unparker;
use std::alloc::Global;
use std::marker::Model;
use std::sync::{Arc, OnceLock, Wait};
use terms::ServiceFault;

/// Why a worker's submissions have no reply.
#[derive(Drop)]
struct Notice<J: Opening> {
    /// The first one without a reply.
    number: u64,
    closing: Closing,
    known: KnownClosing<J>,
    ghost closed: { known ≡ closing ∷ [] },
}

/// A worker's place.
#[derive(Drop)]
struct WorkerPlace<J: Opening> {
    notice: OnceLock<Notice<J>>,
    bell: OnceLock<Unparker>,
}

impl<J: Opening> WorkerPlace<J> {
    fn new() -> WorkerPlace<J> {
        WorkerPlace {
            notice: OnceLock::new(),
            bell: OnceLock::new(),
        }
    }
}

/// A place for each worker, made with the hall so that closing it takes no memory.
#[derive(Drop)]
pub(crate) struct Notices<J: Opening> {
    places: [WorkerPlace<J>; 8],
}

impl<J: Opening> Notices<J> {
    pub(crate) fn new() -> Notices<J> {
        Notices {
            places: [
                WorkerPlace::new(),
                WorkerPlace::new(),
                WorkerPlace::new(),
                WorkerPlace::new(),
                WorkerPlace::new(),
                WorkerPlace::new(),
                WorkerPlace::new(),
                WorkerPlace::new(),
            ],
        }
    }

    /// Returns a worker's place.
    fn place(&self, worker: WorkerId) -> &WorkerPlace<J> {
        &self.places[(worker.number() - 1) as usize]
    }

    /// Registers what wakes the worker.
    pub(crate) fn hang<R: Wait>(&self, rt: &R, worker: WorkerId, bell: Unparker) {
        let _ = self.place(worker).bell.set(rt, bell);
    }

    /// Wakes a worker: there is something to see.
    pub(crate) fn wake(&self, worker: WorkerId) {
        if let Some(bell) = self.place(worker).bell.get() {
            bell.unpark();
        }
    }

    /// Stores why a worker's submissions have no reply. Keeps only the first, since later ones
    /// aren't handled because the hall is closed.
    fn put<R: Wait>(&self, rt: &R, worker: WorkerId, notice: Notice<J>) {
        let _ = self.place(worker).notice.set(rt, notice);
    }

    /// Returns why this submission has no reply, if the worker was told, with the closing that says
    /// so: the fault that it met, or 92.
    pub(crate) fn fault_of(
        &self,
        worker: WorkerId,
        number: u64,
    ) -> Option<(ServiceFault, KnownClosing<J>)>
        ensures { IfSome result (λ told. told_of told.1 worker number ≡ Some told.0) }
    {
        let notice = self.place(worker).notice.get()?;
        if number < notice.number {
            return None;
        }
        let fault = notice.closing.fault_of(worker, number);
        Some((fault, notice.known.again()))
    }
}

/// The desk's side: wakes workers and tells them that the hall has closed. Contracts see the
/// submission at which it closed, once it has.
#[derive(Drop)]
pub(crate) struct Teller<J: Opening> {
    notices: Arc<Notices<J>, Global>,
    closings: Closings<J>,
    closing: Option<Closing>,
}

impl<J: Opening> Model for Teller<J> {
    ghost use Rattle.std.specs.Prelude.{◌≡◌, ◌∷◌, [], List, IfSome};
    ghost use Rattle.hall.specs.declared.closing.Closing.{Closing};

    ghost Value = { List Closing };

    ghost view = { λ t. t.closings };

    ghost invariant = { λ t. IfSome t.closing (λ c. t.closings ≡ c ∷ []) };
}

impl<J: Opening> Teller<J> {
    /// Makes the side of an open hall.
    pub(crate) fn new(notices: Arc<Notices<J>, Global>, closings: Closings<J>) -> Teller<J>
        requires { closings ≡ [] }
        ensures { result ≡ [] }
    {
        Teller {
            notices,
            closings,
            closing: None,
        }
    }

    /// Wakes a worker: there is something to see.
    pub(crate) fn wake(&self, worker: WorkerId) {
        self.notices.wake(worker);
    }

    /// Returns what it told.
    pub(crate) fn known(&self) -> KnownClosing<J>
        ensures { result ≡ self.now }
    {
        self.closings.known()
    }

    /// Closes the hall at this submission, and tells and wakes its worker.
    pub(crate) fn close<R: Wait>(
        &mut self,
        rt: &R,
        worker: WorkerId,
        number: u64,
        fault: ServiceFault,
    )
        requires { self.old ≡ [] }
        ensures { self.new ≡ (record { worker = worker; number = number; fault = fault }) ∷ [] }
    {
        let closing = Closing {
            worker,
            number,
            fault,
        };
        self.closings.close(rt, &closing);
        self.closing = Some(closing);
        self.tell(rt, worker, number);
    }

    /// Tells a worker that its submissions from this one on have no reply, since the hall is
    /// closed, and wakes it.
    pub(crate) fn tell<R: Wait>(&self, rt: &R, worker: WorkerId, number: u64) {
        if let Some(closing) = self.closing {
            let notice = Notice {
                number,
                closing,
                known: self.closings.known(),
            };
            self.notices.put(rt, worker, notice);
        }
        self.notices.wake(worker);
    }
}

//! The desk: many requests in sequence.

ghost use Rattle.std.specs.Prelude.{◌≡◌, ◌≢◌, [], IfOk, IfErr};
ghost use Rattle.store.specs.Library.{state, over_memory, IsClean, IsOpen};
ghost use Rattle.store.specs.Limits.{limit_of};
ghost use Rattle.model.specs.Reports.{overdue as overdue_of, shelf as shelf_of};
ghost use Rattle.desk.specs.Answering.{Shows, Learns};
ghost use Rattle.desk.specs.Written.{WritesTill, WritesReport};
ghost use Rattle.desk.specs.Running.{Begins, Handles, HandlesTouching, Ran, ShowsPage};
ghost use Rattle.desk.specs.Showing.{own_page as own_page_of, AreEnrolled};

use crate::handling::{handle, handle_touching};
use crate::overdue::overdue;
use crate::patron_page::show_own;
use crate::report_fault::ReportFault;
use crate::shelf::shelf;
use crate::showing::{OwnPage, own_page, patrons};
use crate::till::till;
use crate::touching::Touched;
use sqlite::{Alter, MemStore};
use std::alloc::Global;
use std::io::Write;
use std::marker::Model;
use store::Store;
use terms::{BranchId, CardKey, Day, Fault, PatronId, Reply, Request, SCHEMA};

/// The desk, working on the tables of a store.
pub struct Desk<S: Alter> {
    store: Store<S>,
}

impl<S: Alter> Model for Desk<S> {
    ghost use Rattle.store.specs.Library.{Held, held_code};

    ghost Value = { Held S };

    ghost coded = { held_code S.code };

    ghost view = { λ d. d.store };
}

impl<S: Alter + Drop> Drop for Desk<S> {
    fn drop(self) {
        let Desk { store: _ } = self;
    }
}

impl<S: Alter + Drop> Desk<S> {
    /// Opens the desk on these tables. Fault 91; 93 for an older schema, but never if they show a
    /// list of accepted requests. Tables from `Store::create` show the empty list.
    pub fn new(mut store: Store<S>) -> Result<Desk<S>, Fault>
        ensures { Begins S.Store store result }
    {
        if store.schema()? != SCHEMA {
            return Err(Fault::Stored);
        }
        Ok(Desk { store })
    }
}

impl<S: Alter> Desk<S> {
    /// Handles a request and returns its reply, or fault 90, 91 or 93. On a file, drop and reopen a
    /// desk that gave 90 or 91.
    ///
    /// If the tables show a list of accepted requests, the reply is the one that list gives, and
    /// they then show the list with the request added, if accepted. After a fault they show what
    /// they did before, as long as the database is open. If the program is stopped, they show one
    /// or the other. The headline holds of the resulting list: see `specs/Headline`.
    pub fn handle(&mut self, alloc: Global, request: &Request) -> Result<Reply, Fault>
        ensures { Handles request.now S.Store self.old self.new result }
    {
        handle(&mut self.store, alloc, request)
    }

    /// Handles a request like `handle`, and also returns the patrons whose pages it may have
    /// changed; all other pages and card keys are unchanged. None are named if the request was
    /// refused or repeated, or was for a page or a question. Faults 90, 91, 93.
    pub fn handle_touching(
        &mut self,
        alloc: Global,
        request: &Request,
    ) -> Result<(Reply, Touched), Fault>
        ensures { HandlesTouching request.now S.Store self.old self.new result }
    {
        let mut touched = Touched::none(alloc);
        let reply = handle_touching(&mut self.store, alloc, request, &mut touched)?;
        Ok((reply, touched))
    }

    /// Handles the requests in order and returns their replies; on a fault, the replies before it
    /// and the fault.
    ///
    /// After any list of requests by any callers, accepted, refused or repeated, the tables show
    /// the headline: see `specs/Headline`.
    pub fn run(
        &mut self,
        alloc: Global,
        requests: &[Request],
    ) -> Result<Vec<Reply>, (Vec<Reply>, Fault)>
        ensures { Ran requests.now S.Store self.old self.new result }
    {
        run(&mut self.store, alloc, requests)
    }

    /// Returns the page of a patron who shows their card key; 81 for a wrong key or an unknown
    /// patron. Faults 90, 91, 93.
    pub fn page(
        &mut self,
        alloc: Global,
        patron: PatronId,
        card_key: &CardKey,
    ) -> Result<Reply, Fault>
        ensures { ShowsPage patron card_key.now S.Store self.old self.new result }
    {
        show_own(&mut self.store, alloc, patron, card_key)
    }

    /// Lists the enrolled patrons by number. Faults 90, 91; never 93 if the tables show a list of
    /// accepted requests.
    pub fn patrons(&mut self, alloc: Global) -> Result<Vec<PatronId>, Fault>
        ensures { Learns (λ H patrons. AreEnrolled H patrons.items)
            S.Store self.old self.new result }
    {
        patrons(&mut self.store, alloc)
    }

    /// Returns a patron's page with the card key that opens it; none for an unknown patron. Faults
    /// 90, 91; never 93 if the tables show a list of accepted requests.
    pub fn own_page(&mut self, alloc: Global, patron: PatronId) -> Result<Option<OwnPage>, Fault>
        ensures { Learns (λ H page. page ≡ own_page_of H patron)
            S.Store self.old self.new result }
    {
        own_page(&mut self.store, alloc, patron)
    }

    /// Writes the till report of a day: the sums of its fines, prices, payments and waivers, in
    /// cents. Never refused. Fails with 90, 91 or a failed write, and then a prefix may have gone
    /// out; 93 only if a row is out of its limits.
    pub fn till<W: Write>(
        &mut self,
        alloc: Global,
        day: Day,
        writer: &mut W,
    ) -> Result<(), ReportFault>
        ensures { WritesTill day
            S.Store self.old self.new (W.contents writer.old) (W.contents writer.new) result }
    {
        till(&mut self.store, alloc, day, writer)
    }

    /// Writes the shelf report of a branch: its ready holds by number, in batches; 10, with nothing
    /// written, for an unknown branch. Fails with 90, 91, 93 or a failed write: then a prefix may
    /// have gone out.
    pub fn shelf<W: Write>(
        &mut self,
        alloc: Global,
        branch: BranchId,
        writer: &mut W,
    ) -> Result<(), ReportFault>
        ensures { WritesReport (λ H. shelf_of H branch) branch S.Store self.old self.new
            (W.contents writer.old) (W.contents writer.new) result }
    {
        shelf(&mut self.store, alloc, branch, writer)
    }

    /// Writes the overdue report of a branch: its open loans due before today, by number, each with
    /// the open days it is late, in batches; 10, with nothing written, for an unknown branch. Fails
    /// with 90, 91, 93 or a failed write: then a prefix may have gone out.
    pub fn overdue<W: Write>(
        &mut self,
        alloc: Global,
        branch: BranchId,
        writer: &mut W,
    ) -> Result<(), ReportFault>
        ensures { WritesReport (λ H. overdue_of H branch) branch S.Store self.old self.new
            (W.contents writer.old) (W.contents writer.new) result }
    {
        overdue(&mut self.store, alloc, branch, writer)
    }

    /// Limits the steps of each later database call; `None` means no limit, and 0 counts as 1.
    pub fn limit_steps(&mut self, limit: Option<u64>)
        ensures { self.new ≡ record self.old { step_limit = limit_of limit } }
    {
        self.store.limit_steps(limit);
    }

    /// Returns the store.
    pub fn into_store(self) -> Store<S>
        ensures { result ≡ self }
    {
        let Desk { store } = self;
        store
    }
}

impl Desk<MemStore> {
    /// Makes a desk on a new library in memory, whose tables show the empty list of accepted
    /// requests. Faults 90, 91.
    pub fn in_memory(alloc: Global) -> Result<Desk<MemStore>, Fault>
        ensures shows { IfOk result (λ desk. Shows (state over_memory desk) []) }
        ensures open { IfOk result (λ desk. IsClean over_memory desk × IsOpen over_memory desk) }
        ensures fault { IfErr result (λ fault. fault ≢ Fault.Stored) }
    {
        let store = Store::in_memory(alloc)?;
        let desk = Desk::new(store)?;
        Ok(desk)
    }
}

fn run<S: Alter>(
    store: &mut Store<S>,
    alloc: Global,
    requests: &[Request],
) -> Result<Vec<Reply>, (Vec<Reply>, Fault)>
    ensures { Ran requests.now S.Store store.old store.new result }
{
    let Ok(mut replies) = Vec::with_capacity(alloc, requests.len()) else {
        return Err((Vec::new(alloc), Fault::Memory));
    };
    'requests: for request in requests {
        match handle(store, alloc, request) {
            Ok(reply) => {
                let pushed = replies.push(reply).is_ok();
                prove!(pushed);
            }
            Err(fault) => return Err((replies, fault)),
        }
    }
    Ok(replies)
}

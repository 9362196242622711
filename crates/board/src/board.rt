//! The contents of the board.

ghost use Rattle.std.specs.Prelude.{◌≡◌, None, map, IsTrue, IsFalse, IsSome, MatchResult};
ghost use Rattle.std.specs.Prelude.{MatchOption, IfOk, option_map};
ghost use Rattle.std.specs.Arc.{arc_value};
ghost use Rattle.board.specs.Showing.{blank, page_at, with_page, with_last, with_entry, last_on};
ghost use Rattle.board.specs.Showing.{ShowsEntry};
ghost use Rattle.board.specs.declared.entry.Entry.{Entry};

use crate::entry::{Entry, Frame};
use crate::pages::Pages;
use crate::request::SharedRequest;
use crate::worker_id::WorkerId;
use chronicle::Beginning;
use desk::OwnPage;
use left_right::Absorb;
use std::alloc::{AllocError, Global};
use std::marker::Model;
use std::sync::Arc;
use terms::PatronId;

/// A change on the board.
#[derive(Drop)]
pub enum Update {
    /// The page of the patron with this number.
    Page(u32, Arc<OwnPage, Global>),
    /// One more handled submission, and all that has then been shown.
    Entry(Arc<Entry, Global>, Beginning<Frame>),
}

/// The page of each patron and the last entry of each worker; and all that was shown so far, which
/// takes no memory.
#[derive(Drop)]
pub struct Board {
    pages: Pages,
    last: [Option<Arc<Entry, Global>>; 8],
    frames: Beginning<Frame>,
}

impl Model for Board {
    ghost use Rattle.std.specs.Prelude.{◌≡◌, length, map, option_map};
    ghost use Rattle.std.specs.Arc.{arc_value};
    ghost use Rattle.board.specs.Showing.{Showing};

    ghost Value = { Showing };

    ghost view = { λ b. record {
      pages = b.pages;
      last = map (option_map arc_value) b.last;
      frames = b.frames;
    } };
}

/// Sets the last entry of its worker.
fn set_last(last: &mut [Option<Arc<Entry, Global>>; 8], entry: Arc<Entry, Global>)
    ensures { map (option_map arc_value) last.new
        ≡ with_last (map (option_map arc_value) last.old) (arc_value entry) }
{
    let worker = entry.worker.number();
    last[(worker - 1) as usize] = Some(entry);
}

impl Board {
    /// Makes a board with pages only, and what was shown with them.
    pub(crate) fn new(pages: Pages, frames: Beginning<Frame>) -> Board
        ensures { result ≡ blank pages frames }
    {
        Board {
            pages,
            last: [None, None, None, None, None, None, None, None],
            frames,
        }
    }

    /// Puts a patron's page, replacing the old one.
    fn put(&mut self, patron: u32, page: &Arc<OwnPage, Global>) -> Result<(), AllocError>
        ensures { MatchResult result
            (λ _. self.new ≡ with_page self.old patron (arc_value page.now))
            (λ _. self.new ≡ self.old) }
    {
        self.pages.put(patron, page)
    }

    /// Adds an entry, and all that is shown with it.
    fn add(
        &mut self,
        entry: &Arc<Entry, Global>,
        frames: &Beginning<Frame>,
    ) -> Result<(), AllocError>
        ensures { MatchResult result
            (λ _. self.new ≡ with_entry self.old (arc_value entry.now) frames.now)
            (λ _. self.new ≡ self.old) }
    {
        let entry = Arc::try_clone(entry)?;
        set_last(&mut self.last, entry);
        self.frames = frames.again();
        Ok(())
    }

    /// Returns all that was shown.
    pub(crate) fn frames(&self) -> Beginning<Frame>
        ensures { result ≡ self.now.frames }
    {
        self.frames.again()
    }

    /// Returns a patron's page, if there is one.
    pub(crate) fn page(&self, patron: PatronId) -> Result<Option<Arc<OwnPage, Global>>, AllocError>
        ensures { IfOk result (λ page. option_map arc_value page ≡ page_at self.now.pages patron) }
    {
        self.pages.page(patron)
    }

    /// Returns a worker's last entry, if any.
    fn last(&self, worker: WorkerId) -> Option<&Arc<Entry, Global>>
        ensures { option_map (λ entry. arc_value entry.now) result ≡ last_on worker self.now }
    {
        self.last[(worker.number() - 1) as usize].as_ref()
    }

    /// Returns whether a worker has an entry.
    pub(crate) fn has_entry(&self, worker: WorkerId) -> bool
        ensures yes { IsTrue result → IsSome (last_on worker self.now) }
        ensures no { IsFalse result → last_on worker self.now ≡ None }
    {
        self.last(worker).is_some()
    }

    /// Returns a worker's last entry, if it has this number and request.
    pub(crate) fn entry(
        &self,
        worker: WorkerId,
        number: u64,
        request: &SharedRequest,
    ) -> Result<Option<Arc<Entry, Global>>, AllocError>
        ensures { IfOk result (λ found. MatchOption found
            ((e : Entry) → ¬ ShowsEntry self.now worker number request.now e)
            (λ entry. ShowsEntry self.now worker number request.now (arc_value entry))) }
    {
        let Some(entry) = self.last(worker) else {
            return Ok(None);
        };
        if entry.number != number || !entry.request.is_same(request) {
            return Ok(None);
        }
        Ok(Some(Arc::try_clone(entry)?))
    }
}

impl Absorb<Update> for Board {
    ghost use Rattle.board.specs.Showing.{updated};

    type State = Board;

    ghost state = { λ b. b };

    ghost applied = { updated };

    fn absorb_first(&mut self, operation: &Update, _other: &Board) -> Result<(), AllocError> {
        match operation {
            Update::Page(patron, page) => self.put(*patron, page),
            Update::Entry(entry, frames) => self.add(entry, frames),
        }
    }
}

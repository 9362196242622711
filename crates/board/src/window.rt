//! A worker's side of the board.

ghost use Rattle.std.specs.Prelude.{◌≡◌, ◌≢◌, ◌+◌, IfOk, IfSome, IsTrue, IsFalse, MatchOption, OnOk, option_map, Result};
ghost use Rattle.std.specs.Arc.{arc_value};
ghost use Rattle.left_right.specs.Sides.{view as knows};
ghost use Rattle.board.specs.declared.entry.Sight.{Sight};
ghost use Rattle.terms.specs.declared.fault.Fault.{Fault};
ghost use Rattle.terms.specs.declared.reply.Reply.{Reply};
ghost use Rattle.board.specs.Showing.{GoesOn, HasLooked, page_of, seen_of, count_own, IsAnswer};

use crate::board::Board;
use crate::entry::{Entry, Frame, Sight};
use crate::request::SharedRequest;
use crate::rule::{Look, Naming, OneList};
use crate::worker_id::WorkerId;
use chronicle::Beginning;
use desk::OwnPage;
use left_right::reader::Reader;
use std::alloc::Global;
use std::marker::{Model, PhantomData};
use std::sync::Arc;
use terms::PatronId;

type BoardReader<J> = Reader<Board, Sight, OneList<J>>;

/// Why the board can't be read.
#[derive(Clone, Copy, Debug, PartialEq, Eq)]
pub enum ReadError {
    /// The value has as many holders as can be counted.
    Memory,
    /// The desk is gone.
    Gone,
}

/// A worker's side. Contracts see what it has seen, a beginning of the handled list with its pages,
/// and how many times it looked at the board.
#[derive(Drop)]
pub struct Window<J: Naming> {
    reader: Option<BoardReader<J>>,
    frames: Beginning<Frame>,
}

impl<J: Naming> Model for Window<J> {
    ghost use Rattle.std.specs.Prelude.{◌≡◌, IfSome};
    ghost use Rattle.std.specs.Option.{option_map_or};
    ghost use Rattle.left_right.specs.Sides.{view as knows};
    ghost use Rattle.board.specs.declared.entry.Sight.{Sight};
    ghost use Rattle.board.specs.Showing.{seen_of};

    ghost Value = { Sight };

    ghost view = { λ w. record {
      seen = seen_of w.frames.items;
      looks = option_map_or (λ r. (knows {V = Sight} r.place).looks) w.reader 0;
    } };

    ghost invariant = { λ w. (w.frames.book ≡ J.book)
        × IfSome w.reader (λ r. (knows {V = Sight} r.place).seen ≡ seen_of w.frames.items) };
}

/// What a worker had seen when it left.
#[derive(Drop)]
pub struct LastSeen<J: Naming> {
    pub(crate) frames: Beginning<Frame>,
    of: PhantomData<J>,
}

impl<J: Naming> Model for LastSeen<J> {
    ghost use Rattle.std.specs.Prelude.{◌≡◌};
    ghost use Rattle.board.specs.declared.entry.Seen.{Seen};
    ghost use Rattle.board.specs.Showing.{seen_of};

    ghost Value = { Seen };

    ghost view = { λ s. seen_of s.frames.items };

    ghost invariant = { λ s. s.frames.book ≡ J.book };
}

impl<J: Naming> Window<J> {
    /// Makes a side that has seen this.
    pub(crate) fn over(reader: BoardReader<J>, frames: Beginning<Frame>) -> Window<J>
        requires name { frames.book ≡ J.book }
        requires seen { (knows {V = Sight} reader.place).seen ≡ seen_of frames.items }
        ensures { result ≡ knows {V = Sight} reader.place }
    {
        Window {
            reader: Some(reader),
            frames,
        }
    }

    /// Stops looking.
    pub fn leave(self) -> LastSeen<J>
        ensures { result ≡ self.seen }
    {
        let Window { reader: _, frames } = self;
        LastSeen {
            frames,
            of: PhantomData,
        }
    }

    /// Returns a patron's page as the board shows it now, if there is such a patron.
    pub fn page(&mut self, patron: PatronId) -> Result<Option<Arc<OwnPage, Global>>, ReadError>
        ensures on { GoesOn self.new.seen self.old.seen }
        ensures look { OnOk result (self.new.looks ≡ self.old.looks + 1) }
        ensures looked { OnOk result (HasLooked self.new.seen) }
        ensures page { IfOk result (λ page. option_map arc_value page ≡ page_of self.new.seen patron) }
    {
        let Some(idle) = self.reader.take() else {
            return Err(ReadError::Gone);
        };
        match idle.enter_as::<Look<J>>() {
            Ok(reading) => {
                let page = reading.get().page(patron);
                self.frames = reading.get().frames();
                self.reader = Some(reading.leave());
                page.map_err(|_| ReadError::Memory)
            }
            Err(idle) => {
                self.reader = Some(idle);
                Err(ReadError::Gone)
            }
        }
    }

    /// Returns whether the board shows no entry of the worker.
    pub fn shows_none_of(&mut self, worker: WorkerId) -> Result<bool, ReadError>
        ensures on { GoesOn self.new.seen self.old.seen }
        ensures look { OnOk result (self.new.looks ≡ self.old.looks + 1) }
        ensures none { IfOk result (λ none. IsTrue none → count_own worker self.new.seen.entries ≡ 0) }
        ensures some { IfOk result (λ none. IsFalse none → count_own worker self.new.seen.entries ≢ 0) }
    {
        let _in_limits = worker.number();
        let Some(reader) = self.reader.take() else {
            return Err(ReadError::Gone);
        };
        match reader.enter_as::<Look<J>>() {
            Ok(reading) => {
                let none = !reading.get().has_entry(worker);
                self.frames = reading.get().frames();
                self.reader = Some(reading.leave());
                Ok(none)
            }
            Err(reader) => {
                self.reader = Some(reader);
                Err(ReadError::Gone)
            }
        }
    }

    /// Returns the worker's entry with this number, if the board shows it for this request.
    pub fn entry(
        &mut self,
        worker: WorkerId,
        number: u64,
        request: &SharedRequest,
    ) -> Result<Option<Arc<Entry, Global>>, ReadError>
        ensures on { GoesOn self.new.seen self.old.seen }
        ensures look { OnOk result (self.new.looks ≡ self.old.looks + 1) }
        ensures found { IfOk result (λ found. MatchOption found
            ((answer : Result Reply Fault)
            → ¬ IsAnswer self.new.seen.entries worker number request.now answer)
            (λ entry. IsAnswer self.new.seen.entries worker number request.now
            (arc_value entry).answer)) }
    {
        let Some(reader) = self.reader.take() else {
            return Err(ReadError::Gone);
        };
        match reader.enter_as::<Look<J>>() {
            Ok(reading) => {
                let entry = reading.get().entry(worker, number, request);
                self.frames = reading.get().frames();
                self.reader = Some(reading.leave());
                match entry {
                    Ok(found) => Ok(found),
                    Err(_) => Err(ReadError::Memory),
                }
            }
            Err(reader) => {
                self.reader = Some(reader);
                Err(ReadError::Gone)
            }
        }
    }
}

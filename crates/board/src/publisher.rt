//! The desk's side of the board.

ghost use Rattle.std.specs.Prelude.{◌≡◌, ◌++◌, ◌<◌, ◌^◌, [], ◌∷◌, MatchResult, IfOk};
ghost use Rattle.board.specs.Showing.{first_seen, IsNextEntry, ShowsMore};
ghost use Rattle.board.specs.Rule.{no_look, as_stopped, opening};

use crate::board::{Board, Update};
use crate::entry::{Entry, Frame, Sight};
use crate::first::First;
use crate::rule::{Naming, OneList, Publish};
use crate::stopped::StoppedBoard;
use crate::window::Window;
use chronicle::{Beginning, Chronicle, Item};
use desk::OwnPage;
use left_right::writer::Writer;
use std::alloc::{AllocError, Global};
use std::marker::Model;
use std::sync::{Arc, Wait};
use terms::{Memory, PatronId};

/// The writer of the board.
pub(crate) type BoardWriter<J> = Writer<Board, Update, Sight, OneList<J>>;

/// The most frames shown, so that their count fits. A hall never reaches it: each worker submits at
/// most 2^50 requests.
const MOST_FRAMES: u64 = u64::MAX - 1;

/// The start of a board: nothing was shown. Contracts see which board it will be.
#[derive(Drop)]
pub struct Blank {
    chronicle: Chronicle<Frame>,
    none: Beginning<Frame>,
}

impl Model for Blank {
    ghost use Rattle.std.specs.Prelude.{◌≡◌, []};
    ghost use Rattle.logbook.specs.Pages.{Book, book_coded};
    ghost use Rattle.chronicle.specs.Growing.{known};

    ghost Value = { Book };

    ghost coded = { book_coded };

    ghost view = { λ b. b.chronicle };

    ghost invariant = { λ b. b.none ≡ known b.chronicle [] };
}

impl Blank {
    /// Makes the start of a new board.
    pub fn new() -> Blank {
        let (chronicle, none) = Chronicle::new();
        Blank { chronicle, none }
    }
}

/// The first frame: pages.
struct Opens;

impl Item<First, Frame> for Opens {
    ghost use Rattle.board.specs.Showing.{first_frame};

    ghost item = { first_frame };
}

/// The next frame: an entry, over what is written.
#[derive(Clone, Copy)]
struct Turn<'a, J: Naming> {
    writer: &'a BoardWriter<J>,
    entry: &'a Arc<Entry, Global>,
}

/// Adds a frame with the pages to be shown with it.
struct Turns;

impl<'a, J: Naming> Item<Turn<'a, J>, Frame> for Turns {
    ghost use Rattle.std.specs.Prelude.{drop};
    ghost use Rattle.std.specs.Arc.{arc_value};
    ghost use Rattle.board.specs.Showing.{next_frame};

    ghost item = { λ t. next_frame t.writer.now.desk.shown.value
        (drop t.writer.now.behind t.writer.now.log.items) (arc_value t.entry.now) };
}

/// The desk's side. Contracts see all that was shown, what workers see of it, and the pages to show
/// with the next entry. It is not `Drop`: end it with `close`.
pub struct Publisher<J: Naming> {
    writer: BoardWriter<J>,
    chronicle: Chronicle<Frame>,
    /// All that was shown.
    frames: Beginning<Frame>,
    /// Nothing: where windows begin.
    none: Beginning<Frame>,
}

impl<J: Naming> Model for Publisher<J> {
    ghost use Rattle.std.specs.Prelude.{◌≡◌, true, drop, []};
    ghost use Rattle.chronicle.specs.Growing.{known};
    ghost use Rattle.board.specs.Rule.{Publishing, ShowsAll, pages_of, are_pages};
    ghost use Rattle.board.specs.Showing.{seen_of};

    ghost Value = { Publishing };

    ghost view = { λ p. record {
      shown = seen_of p.frames.items;
      board = p.writer.desk.shown.value;
      pages = pages_of (drop p.writer.behind p.writer.log.items);
    } };

    ghost invariant = { λ p. ShowsAll (seen_of p.frames.items) p.writer.desk.shown.value
        × (p.writer.desk.shown.value.frames ≡ p.frames)
        × (are_pages (drop p.writer.behind p.writer.log.items) ≡ true)
        × (p.chronicle ≡ J.book) × (p.frames.book ≡ J.book) × (p.none ≡ known J.book []) };
}

impl<J: Naming> Publisher<J> {
    /// Makes a board with these pages, for this many readers. Nothing was shown before.
    pub fn new<R: Wait>(
        rt: &R,
        alloc: Global,
        blank: Blank,
        first: First,
        readers: usize,
    ) -> Result<Publisher<J>, Memory>
        requires name { blank ≡ J.book }
        requires readers { (0 < readers) × (readers < 2 ^ 32) }
        ensures { IfOk result (λ p. (p.shown ≡ first_seen first) × (p.pages ≡ [])
            × (p.board ≡ opening J.book first)) }
    {
        let Blank { chronicle, none } = blank;
        let mut frames = none.again();
        chronicle.add::<First, Opens, R>(rt, &mut frames, &first);
        let First { pages, copy } = first;
        let board = Board::new(pages, frames.again());
        let copy = Board::new(copy, frames.again());
        let writer = BoardWriter::<J>::new(alloc, board, copy, readers)?;
        Ok(Publisher {
            writer,
            chronicle,
            frames,
            none,
        })
    }

    /// Makes a window that has seen nothing. An error means no reader's place is left.
    pub fn window(&self) -> Result<Window<J>, Memory>
        ensures { IfOk result (λ w. w ≡ no_look) }
    {
        let reader = self.writer.factory().reader()?;
        Ok(Window::over(reader, self.none.again()))
    }

    /// Puts a patron's page, to be shown with the next entry.
    pub fn put(&mut self, alloc: Global, patron: PatronId, page: OwnPage) -> Result<(), Memory>
        ensures { MatchResult result
            (λ _. self.new ≡ record self.old { pages = self.old.pages ++ (patron, page) ∷ [] })
            (λ _. self.new ≡ self.old) }
    {
        let page = Arc::new(alloc, page)?;
        match self.writer.append(Update::Page(patron.number(), page)) {
            Ok(()) => Ok(()),
            Err(_) => Err(AllocError),
        }
    }

    /// Shows one more entry. After an error the board shows nothing more: readers keep what they
    /// saw.
    pub fn publish<R: Wait>(
        self,
        rt: &R,
        alloc: Global,
        entry: Entry,
    ) -> Result<Publisher<J>, StoppedBoard<J>>
        requires { IsNextEntry self.shown.entries entry }
        ensures { MatchResult result
            (λ p. ShowsMore self.shown self.pages entry p.shown × (p.pages ≡ []))
            (λ b. b ≡ as_stopped self) }
    {
        let Publisher {
            mut writer,
            chronicle,
            frames,
            none,
        } = self;
        if frames.len() >= MOST_FRAMES {
            return Err(StoppedBoard::over(writer, frames));
        }
        let Ok(entry) = Arc::new(alloc, entry) else {
            return Err(StoppedBoard::over(writer, frames));
        };
        let mut next = frames.again();
        let turn = Turn {
            writer: &writer,
            entry: &entry,
        };
        chronicle.add::<Turn<'_, J>, Turns, R>(rt, &mut next, &turn);
        match writer.append(Update::Entry(entry, next.again())) {
            Ok(()) => {}
            Err(_) => return Err(StoppedBoard::over(writer, frames)),
        }
        let (writer, met) = writer.publish_as::<Publish, R>(rt);
        match met {
            Ok(()) => Ok(Publisher {
                writer,
                chronicle,
                frames: next,
                none,
            }),
            Err(_) => Err(StoppedBoard::over(writer, frames)),
        }
    }

    /// Ends the board, once its readers are done.
    pub fn close<R: Wait>(self, rt: &R) {
        self.stop().close(rt);
    }

    /// Stops the board, which shows nothing more. Readers keep what they see.
    pub fn stop(self) -> StoppedBoard<J>
        ensures { result ≡ as_stopped self }
    {
        let Publisher {
            writer,
            chronicle: _,
            frames,
            none: _,
        } = self;
        StoppedBoard::over(writer, frames)
    }
}

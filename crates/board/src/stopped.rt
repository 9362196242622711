//! A stopped board.

ghost use Rattle.std.specs.Prelude.{◌≡◌, ◌<◌, IsTrue, IsFalse, length};
ghost use Rattle.board.specs.Rule.{ShowsAll};
ghost use Rattle.board.specs.Showing.{GoesOn, seen_of};

use crate::entry::Frame;
use crate::publisher::BoardWriter;
use crate::rule::Naming;
use crate::window::LastSeen;
use chronicle::Beginning;
use std::marker::Model;
use std::sync::Wait;

/// A board that shows nothing more: workers keep what they see. Contracts see all that was shown
/// and what workers see of it. It is not `Drop`: end it with `close`.
pub struct StoppedBoard<J: Naming> {
    writer: BoardWriter<J>,
    frames: Beginning<Frame>,
}

impl<J: Naming> Model for StoppedBoard<J> {
    ghost use Rattle.std.specs.Prelude.{◌≡◌};
    ghost use Rattle.board.specs.Rule.{Stopped, ShowsAll};
    ghost use Rattle.board.specs.Showing.{seen_of};

    ghost Value = { Stopped };

    ghost view = { λ b. record {
      shown = seen_of b.frames.items;
      board = b.writer.desk.shown.value;
    } };

    ghost invariant = { λ b. (b.frames.book ≡ J.book)
        × ShowsAll (seen_of b.frames.items) b.writer.desk.shown.value };
}

impl<J: Naming> StoppedBoard<J> {
    /// Makes it from a writer and what that has shown.
    pub(crate) fn over(writer: BoardWriter<J>, frames: Beginning<Frame>) -> StoppedBoard<J>
        requires name { frames.book ≡ J.book }
        requires shows { ShowsAll (seen_of frames.items) writer.desk.shown.value }
        ensures { result ≡ record {
          shown = seen_of frames.items;
          board = writer.desk.shown.value;
        } }
    {
        StoppedBoard { writer, frames }
    }

    /// Workers see the result of all that was shown: each worker's last entry, and the last pages.
    pub fn shows_its_list(&self)
        ensures { ShowsAll self.now.shown self.now.board }
    {
        let _ = &self.writer;
    }

    /// Returns whether what a worker had seen is a beginning of what was shown: it is unless it is
    /// longer.
    pub fn has_shown(&self, sight: &LastSeen<J>) -> bool
        ensures yes { IsTrue result → GoesOn self.now.shown sight.now }
        ensures no { IsFalse result → length self.now.shown.pages < length sight.now.pages }
    {
        sight.frames.begins(&self.frames)
    }

    /// Ends the board, once its readers are done.
    pub fn close<R: Wait>(self, rt: &R) {
        let StoppedBoard { writer, frames: _ } = self;
        drop(writer.take(rt));
    }
}

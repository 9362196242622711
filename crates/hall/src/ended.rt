//! What remains of the desk's side.

ghost use Rattle.std.specs.Prelude.{◌≡◌, ◌+◌, ◌<◌, ◌≤◌, ℕ, false, length, IsTrue};
ghost use Rattle.board.specs.Showing.{StartsWith};
ghost use Rattle.hall.specs.Serving.{TookPart};
ghost use Rattle.hall.specs.Queue.{AreFirst, IsHearing, of, is_open, submissions};

use crate::closing::KnownClosing;
use crate::opening::Opening;
use crate::queue_ends::Heard;
use crate::worker::Left;
use board::StoppedBoard;
use std::sync::Wait;

/// What remains of the desk's side once all workers have left: everything received, the number of
/// submissions handled, the board as last shown, and the submission at which the hall closed, if it
/// did. The handled list is the first of those received. It is not `Drop`: end it with `close`.
pub struct Ended<J: Opening> {
    pub(crate) heard: Heard<J>,
    pub(crate) board: StoppedBoard<J>,
    pub(crate) closing: KnownClosing<J>,
    pub(crate) handled: u64,
    pub(crate) workers: usize,
    pub(crate) ghost hearing: { IsHearing heard },
    pub(crate) ghost counted: { handled ≤ length (submissions heard.got) },
    pub(crate) ghost gone: { (k : ℕ) → k < workers → is_open (of (k + 1) heard.got) ≡ false },
}

impl<J: Opening> Ended<J> {
    /// Returns the number of submissions handled, refused ones included.
    pub fn handled(&self) -> u64
        ensures { result ≡ self.now.handled }
    {
        self.handled
    }

    /// Takes in the end of a worker that has left. Never refuses and never waits. If the desk
    /// received the worker's Leave, the worker's handled submissions are a prefix of what it
    /// submitted, and all of it if everything received was handled.
    ///
    /// Returns whether the worker took part in this hall, as each of its workers did: then the desk
    /// received its Leave, what it had seen is a prefix of what was shown, and the closing it was
    /// told of is the hall's.
    pub fn take_in(&mut self, left: Left<J>) -> bool
        ensures same { (self.new.handled ≡ self.old.handled)
            × (self.new.heard.got ≡ self.old.heard.got) × (self.new.board ≡ self.old.board)
            × (self.new.closing ≡ self.old.closing) }
        ensures first { is_open (of left.post.worker self.old.heard.got) ≡ false
            → AreFirst left.post.worker self.old.handled self.old.heard.got left.post.sent }
        ensures part { IsTrue result → TookPart self.old.handled self.old.heard.got
            self.old.board.shown (record {
              post = left.post;
              seen = left.sight;
              closing = left.closing;
              looks = 0;
            }) }
        ensures closing { IsTrue result → StartsWith self.old.closing left.closing }
    {
        let Left {
            post,
            worker,
            sight,
            closing,
            is_told: _,
        } = left;
        self.heard.take_in(post);
        if worker.number() > self.workers as u64 {
            return false;
        }
        if !closing.begins(&self.closing) {
            return false;
        }
        self.board.has_shown(&sight)
    }

    /// Ends it, once no worker looks at the board any more.
    pub fn close<R: Wait>(self, rt: &R) {
        let Ended {
            heard: _,
            board,
            closing: _,
            handled: _,
            workers: _,
        } = self;
        board.close(rt);
    }
}

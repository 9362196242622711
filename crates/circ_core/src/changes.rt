//! The changes of a decision: a few rows.

ghost use Rattle.std.specs.Prelude.{◌≡◌, List, [], ◌∷◌, ◌++◌, ◌≤◌, length, slice_get};
ghost use Rattle.std.specs.Option.{option_copied};
ghost use Rattle.terms.specs.declared.reply.Reply.TheVariants.{Done};
ghost use Rattle.circ_core.specs.declared.changes.RowChange.{RowChange};

use arrayvec::ArrayVec;
use std::marker::Model;
use terms::{
    BarcodePut, BranchId, BranchPut, CopyId, CopyRow, Day, HoldRow, KindRow, LineRow, LoanRow,
    MetaRow, NotePut, PatronPut, Reply, RuleRow, Thing, TitlePut, TransitRow,
};

/// A row change: put or removed by its key.
#[derive(Drop)]
pub enum RowChange<'a> {
    PutMeta(MetaRow),
    PutBranch(BranchPut<'a>),
    PutClosedDay(BranchId, Day),
    TakeClosedDay(BranchId, Day),
    PutKind(KindRow),
    PutRule(RuleRow),
    PutPatron(PatronPut<'a>),
    PutTitle(TitlePut<'a>),
    PutCopy(CopyRow),
    PutLoan(LoanRow),
    PutHold(HoldRow),
    PutTransit(TransitRow),
    TakeTransit(CopyId),
    PutLine(LineRow),
    PutBarcode(BarcodePut<'a>),
    TakeBarcode(Thing),
    PutNote(NotePut<'a>),
}

/// The content of an unused place.
impl<'a> Default for RowChange<'a> {
    fn default() -> Self {
        RowChange::TakeTransit(CopyId::new(0))
    }
}

/// The changes of one command, in order; at most six.
#[derive(Drop)]
pub struct Changes<'a> {
    rows: ArrayVec<RowChange<'a>, 6>,
}

impl<'a> Model for Changes<'a> {
    ghost Value = { List RowChange };

    ghost view = { λ c. c.rows.items };
}

impl<'a> Changes<'a> {
    /// The number of places.
    pub const PLACES: usize = 6;

    /// Makes an empty list.
    pub fn none() -> Self
        ensures { result ≡ [] }
    {
        Changes {
            rows: ArrayVec::new(),
        }
    }

    /// Makes a list of one change.
    pub fn one(first: RowChange<'a>) -> Self
        ensures { result ≡ first.entry ∷ [] }
    {
        Changes::none().with(first)
    }

    /// Makes a list of two changes.
    pub fn two(first: RowChange<'a>, second: RowChange<'a>) -> Self
        ensures { result ≡ first.entry ∷ second.entry ∷ [] }
    {
        Changes::one(first).with(second)
    }

    /// Makes a list of three changes.
    pub fn three(first: RowChange<'a>, second: RowChange<'a>, third: RowChange<'a>) -> Self
        ensures { result ≡ first.entry ∷ second.entry ∷ third.entry ∷ [] }
    {
        Changes::two(first, second).with(third)
    }

    /// Adds a change at the end, up to six.
    pub(crate) fn with(self, change: RowChange<'a>) -> Self
        requires { length self ≤ 5 }
        ensures { result ≡ self.entry ++ change.entry ∷ [] }
    {
        let Changes { mut rows } = self;
        rows.push(change);
        Changes { rows }
    }

    /// Returns the change at a place below `PLACES`, if there is one.
    pub fn get(&self, place: usize) -> Option<&RowChange<'a>>
        ensures value { option_copied result ≡ slice_get self.now place }
        ensures few { length self.now ≤ 6 }
    {
        let rows = self.rows.as_slice();
        rows.get(place)
    }
}

/// The outcome of an accepted command.
#[derive(Drop)]
pub struct Decision<'a> {
    pub reply: Reply,
    pub changes: Changes<'a>,
}

/// Makes the decision with these changes and the reply that it is done.
pub(crate) fn done<'a>(changes: Changes<'a>) -> Decision<'a>
    ensures reply { result.reply ≡ Done }
    ensures changes { result.changes ≡ changes.entry }
{
    Decision {
        reply: Reply::Done,
        changes,
    }
}

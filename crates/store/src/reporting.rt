//! Rows for patrons' pages and reports.

ghost use Rattle.std.specs.Prelude.{◌≡◌};
ghost use Rattle.terms.specs.Limits.{InLimits};
ghost use Rattle.circ_core.specs.Views.{IsCalendarOf};
ghost use Rattle.store.specs.Lists.{AreLoansBy, AreHoldsBy, AreCopiesOf, AreHoldsOn};
ghost use Rattle.store.specs.Batches.{AreReadyAfter, AreOverdueAfter, AreLinesAfter};
ghost use Rattle.store.specs.Reads.{Looked, IsReadable};

use crate::idle::committed_is_held;
use crate::store::Store;
use crate::viewing::calendar_of;
use calendar::{Calendar, Day};
use circ_tables::{
    active_holds_by, active_holds_for, copies_of_title, get_meta, get_row, lines_after,
    open_loans_by, overdue_loans_after, ready_holds_after,
};
use sqlite::Alter;
use std::alloc::Global;
use terms::{
    BranchId, BranchRow, CopyId, CopyRow, Fault, HoldId, HoldRow, LineId, LineRow, LoanId, LoanRow,
    MetaRow, PatronId, TitleId, TitleRow,
};

impl<S: Alter> Store<S> {
    /// Reads a patron's open loans, by number. Faults 90, 91, 93.
    pub fn open_loans(&mut self, alloc: Global, patron: PatronId) -> Result<Vec<LoanRow>, Fault>
        ensures { Looked InLimits (λ P rows. AreLoansBy P patron rows.items) InLimits
            S.Store self.old self.new result }
    {
        committed_is_held(&self.conn);
        open_loans_by(&mut self.conn, alloc, patron)
    }

    /// Reads a patron's waiting and ready holds, by number. Faults 90, 91, 93.
    pub fn active_holds(&mut self, alloc: Global, patron: PatronId) -> Result<Vec<HoldRow>, Fault>
        ensures { Looked InLimits (λ P rows. AreHoldsBy P patron rows.items) InLimits
            S.Store self.old self.new result }
    {
        committed_is_held(&self.conn);
        active_holds_by(&mut self.conn, alloc, patron)
    }

    /// Reads the copies of a title, by number. Faults 90, 91, 93.
    pub fn title_copies(&mut self, alloc: Global, title: TitleId) -> Result<Vec<CopyRow>, Fault>
        ensures { Looked InLimits (λ P rows. AreCopiesOf P title rows.items) InLimits
            S.Store self.old self.new result }
    {
        committed_is_held(&self.conn);
        copies_of_title(&mut self.conn, alloc, title)
    }

    /// Reads the waiting and ready holds on a title, by number. Faults 90, 91, 93.
    pub fn title_holds(&mut self, alloc: Global, title: TitleId) -> Result<Vec<HoldRow>, Fault>
        ensures { Looked InLimits (λ P rows. AreHoldsOn P title rows.items) InLimits
            S.Store self.old self.new result }
    {
        committed_is_held(&self.conn);
        active_holds_for(&mut self.conn, alloc, title)
    }

    /// Reads a batch of ready holds with this pick-up branch above this number, by number. Holds
    /// are numbered from 1. Faults 90, 91, 93.
    pub fn ready_holds(
        &mut self,
        alloc: Global,
        branch: BranchId,
        after: HoldId,
    ) -> Result<Vec<HoldRow>, Fault>
        ensures { Looked InLimits (λ P rows. AreReadyAfter P branch after rows.items) InLimits
            S.Store self.old self.new result }
    {
        committed_is_held(&self.conn);
        ready_holds_after(&mut self.conn, alloc, branch, after)
    }

    /// Reads a batch of open loans that the branch made, due before the day, above this number, by
    /// number. Loans are numbered from 1. Faults 90, 91, 93.
    pub fn overdue_loans(
        &mut self,
        alloc: Global,
        branch: BranchId,
        day: Day,
        after: LoanId,
    ) -> Result<Vec<LoanRow>, Fault>
        ensures { Looked InLimits (λ P rows. AreOverdueAfter P branch day after rows.items) InLimits
            S.Store self.old self.new result }
    {
        committed_is_held(&self.conn);
        overdue_loans_after(&mut self.conn, alloc, branch, day, after)
    }

    /// Reads a batch of a day's lines, of all sorts, above this number, by number. Lines are
    /// numbered from 1. Faults 90, 91, 93.
    pub fn lines(&mut self, alloc: Global, day: Day, after: LineId) -> Result<Vec<LineRow>, Fault>
        ensures { Looked InLimits (λ P rows. AreLinesAfter P day after rows.items) InLimits
            S.Store self.old self.new result }
    {
        committed_is_held(&self.conn);
        lines_after(&mut self.conn, alloc, day, after)
    }

    /// Reads the one row of `meta`: today, and the next numbers. Faults 91, 93.
    pub fn meta(&mut self) -> Result<MetaRow, Fault>
        ensures { Looked InLimits (λ P row. row ≡ P.meta) InLimits
            S.Store self.old self.new result }
    {
        committed_is_held(&self.conn);
        get_meta(&mut self.conn)
    }

    /// Reads the row of a branch. Faults 90, 91, 93.
    pub fn branch(&mut self, alloc: Global, branch: BranchId) -> Result<Option<BranchRow>, Fault>
        ensures { Looked InLimits (λ P row. row ≡ P.branches branch) InLimits
            S.Store self.old self.new result }
    {
        committed_is_held(&self.conn);
        get_row::<BranchRow, S>(&mut self.conn, alloc, branch)
    }

    /// Reads the row of a title. Faults 90, 91, 93.
    pub fn title(&mut self, alloc: Global, title: TitleId) -> Result<Option<TitleRow>, Fault>
        ensures { Looked InLimits (λ P row. row ≡ P.titles title) InLimits
            S.Store self.old self.new result }
    {
        committed_is_held(&self.conn);
        get_row::<TitleRow, S>(&mut self.conn, alloc, title)
    }

    /// Reads the row of a copy. Faults 91, 93.
    pub fn copy(&mut self, copy: CopyId) -> Result<Option<CopyRow>, Fault>
        ensures { Looked InLimits (λ P row. row ≡ P.copies copy) InLimits
            S.Store self.old self.new result }
    {
        committed_is_held(&self.conn);
        get_row::<CopyRow, S>(&mut self.conn, (), copy)
    }

    /// Reads the calendar of a branch, if it exists. Faults 90, 91, 93.
    pub fn calendar(&mut self, alloc: Global, branch: BranchId) -> Result<Option<Calendar>, Fault>
        ensures { Looked InLimits (λ P calendar. IsCalendarOf P branch calendar) IsReadable
            S.Store self.old self.new result }
    {
        committed_is_held(&self.conn);
        calendar_of(&mut self.conn, alloc, branch)
    }
}

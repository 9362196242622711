//! Rows for the desk's questions: batches of lists, and single rows found by another's number.

ghost use Rattle.std.specs.Prelude.{◌≡◌};
ghost use Rattle.terms.specs.Limits.{InLimits};
ghost use Rattle.circ_core.specs.Views.{IsCopyView, IsFirstOf, IsLoanOf, IsThingOf, IsTravelFor};
ghost use Rattle.store.specs.Batches.{AreAccountLinesAfter, AreCopiesAfter, AreDebtorsAfter};
ghost use Rattle.store.specs.Batches.{AreLoansOfAfter, AreMissingAfter};
ghost use Rattle.store.specs.Batches.{AreTransitsAfter, AreWaitingAfter, AreWaitingForAfter};
ghost use Rattle.store.specs.Batches.{AreRowsAfter, AreClosedDaysAfter, IsLeastShelved};
ghost use Rattle.store.specs.Reads.{Looked};

use crate::idle::committed_is_held;
use crate::one_row::labelled;
use crate::store::Store;
use crate::viewing::copy_view;
use calendar::Day;
use circ_core::View;
use circ_tables::{
    account_lines_after, closed_days_after, copies_of_title_after, debtors_after, first_in_line,
    get_barcode, get_row, least_shelved, loans_of_copy_after, missing_copies_after, next_rows,
    open_loan_of, rules_after, transit_for, transits_to_after, waiting_holds_after,
    waiting_holds_for_after,
};
use sqlite::Alter;
use std::alloc::Global;
use terms::{
    Barcode, BarcodeRow, BranchId, BranchRow, ClosedDayRow, CopyId, CopyKind, CopyRow, DayNumber,
    Fault, HoldId, HoldRow, KindRow, LineId, LineRow, LoanId, LoanRow, NoteRow, PatronId,
    PatronKind, PatronRow, RuleRow, Thing, TitleId, TitleRow, TransitRow,
};

impl<S: Alter> Store<S> {
    /// Reads which copy or patron has the barcode, if any has. Faults 90, 91, 93.
    pub fn find_barcode(&mut self, alloc: Global, barcode: &Barcode) -> Result<Option<Thing>, Fault>
        ensures { Looked InLimits (λ P thing. IsThingOf P barcode.now thing) InLimits
            S.Store self.old self.new result }
    {
        committed_is_held(&self.conn);
        labelled(&mut self.conn, alloc, barcode)
    }

    /// Reads the barcode of a copy or a patron, if it has one. Faults 90, 91, 93.
    pub fn barcode(&mut self, alloc: Global, thing: Thing) -> Result<Option<BarcodeRow>, Fault>
        ensures { Looked InLimits (λ P row. row ≡ P.barcodes thing) InLimits
            S.Store self.old self.new result }
    {
        committed_is_held(&self.conn);
        get_barcode(&mut self.conn, alloc, thing)
    }

    /// Reads the note of a line, if it has one. Faults 90, 91, 93.
    pub fn note(&mut self, alloc: Global, line: LineId) -> Result<Option<NoteRow>, Fault>
        ensures { Looked InLimits (λ P row. row ≡ P.notes line) InLimits
            S.Store self.old self.new result }
    {
        committed_is_held(&self.conn);
        get_row::<NoteRow, S>(&mut self.conn, alloc, line)
    }

    /// Reads a batch of a title's copies above this number, by number. Faults 90, 91, 93.
    pub fn copies_of_title(
        &mut self,
        alloc: Global,
        title: TitleId,
        after: CopyId,
    ) -> Result<Vec<CopyRow>, Fault>
        ensures { Looked InLimits (λ P rows. AreCopiesAfter P title after rows.items) InLimits
            S.Store self.old self.new result }
    {
        committed_is_held(&self.conn);
        copies_of_title_after(&mut self.conn, alloc, title, after)
    }

    /// Reads a batch of missing copies above this number, by number. Faults 90, 91, 93.
    pub fn missing_copies(&mut self, alloc: Global, after: CopyId) -> Result<Vec<CopyRow>, Fault>
        ensures { Looked InLimits (λ P rows. AreMissingAfter P after rows.items) InLimits
            S.Store self.old self.new result }
    {
        committed_is_held(&self.conn);
        missing_copies_after(&mut self.conn, alloc, after)
    }

    /// Reads a batch of the loans ever made of a copy, above this number, by number. Faults 90, 91,
    /// 93.
    pub fn loans_of_copy(
        &mut self,
        alloc: Global,
        copy: CopyId,
        after: LoanId,
    ) -> Result<Vec<LoanRow>, Fault>
        ensures { Looked InLimits (λ P rows. AreLoansOfAfter P copy after rows.items) InLimits
            S.Store self.old self.new result }
    {
        committed_is_held(&self.conn);
        loans_of_copy_after(&mut self.conn, alloc, copy, after)
    }

    /// Reads a batch of waiting holds for a title above this number, by number. Faults 90, 91, 93.
    pub fn waiting_holds_for(
        &mut self,
        alloc: Global,
        title: TitleId,
        after: HoldId,
    ) -> Result<Vec<HoldRow>, Fault>
        ensures { Looked InLimits (λ P rows. AreWaitingForAfter P title after rows.items) InLimits
            S.Store self.old self.new result }
    {
        committed_is_held(&self.conn);
        waiting_holds_for_after(&mut self.conn, alloc, title, after)
    }

    /// Reads a batch of waiting holds above this number, by number. Faults 90, 91, 93.
    pub fn waiting_holds(&mut self, alloc: Global, after: HoldId) -> Result<Vec<HoldRow>, Fault>
        ensures { Looked InLimits (λ P rows. AreWaitingAfter P after rows.items) InLimits
            S.Store self.old self.new result }
    {
        committed_is_held(&self.conn);
        waiting_holds_after(&mut self.conn, alloc, after)
    }

    /// Reads a batch of a patron's account lines above this number, by number. Faults 90, 91, 93.
    pub fn account_lines(
        &mut self,
        alloc: Global,
        patron: PatronId,
        after: LineId,
    ) -> Result<Vec<LineRow>, Fault>
        ensures { Looked InLimits (λ P rows. AreAccountLinesAfter P patron after rows.items)
            InLimits S.Store self.old self.new result }
    {
        committed_is_held(&self.conn);
        account_lines_after(&mut self.conn, alloc, patron, after)
    }

    /// Reads a batch of patrons who owe something, above this number, by number. Faults 90, 91, 93.
    pub fn debtors(&mut self, alloc: Global, after: PatronId) -> Result<Vec<PatronRow>, Fault>
        ensures { Looked InLimits (λ P rows. AreDebtorsAfter P after rows.items) InLimits
            S.Store self.old self.new result }
    {
        committed_is_held(&self.conn);
        debtors_after(&mut self.conn, alloc, after)
    }

    /// Reads a batch of patrons above this number, by number. Faults 90, 91, 93.
    pub fn patrons_after(&mut self, alloc: Global, after: PatronId) -> Result<Vec<PatronRow>, Fault>
        ensures { Looked InLimits (λ P rows. AreRowsAfter P.patrons (λ r. r.patron) after
            rows.items) InLimits S.Store self.old self.new result }
    {
        committed_is_held(&self.conn);
        next_rows(&mut self.conn, alloc, alloc, Some(after.number()))
    }

    /// Reads a batch of titles above this number, by number. Faults 90, 91, 93.
    pub fn titles_after(&mut self, alloc: Global, after: TitleId) -> Result<Vec<TitleRow>, Fault>
        ensures { Looked InLimits (λ P rows. AreRowsAfter P.titles (λ r. r.title) after rows.items)
            InLimits S.Store self.old self.new result }
    {
        committed_is_held(&self.conn);
        next_rows(&mut self.conn, alloc, alloc, Some(after.number()))
    }

    /// Reads a batch of branches above this number, by number. Faults 90, 91, 93.
    pub fn branches_after(
        &mut self,
        alloc: Global,
        after: BranchId,
    ) -> Result<Vec<BranchRow>, Fault>
        ensures { Looked InLimits (λ P rows. AreRowsAfter P.branches (λ r. r.branch) after
            rows.items) InLimits S.Store self.old self.new result }
    {
        committed_is_held(&self.conn);
        next_rows(&mut self.conn, alloc, alloc, Some(after.number()))
    }

    /// Reads a batch of the single closed days of a branch after this day, by day. Faults 90, 91,
    /// 93.
    pub fn closed_days_after(
        &mut self,
        alloc: Global,
        branch: BranchId,
        after: DayNumber,
    ) -> Result<Vec<ClosedDayRow>, Fault>
        ensures { Looked InLimits (λ P rows. AreClosedDaysAfter P branch after rows.items) InLimits
            S.Store self.old self.new result }
    {
        committed_is_held(&self.conn);
        closed_days_after(&mut self.conn, alloc, branch, after)
    }

    /// Reads the row of a kind of patron. Faults 91, 93.
    pub fn kind(&mut self, kind: PatronKind) -> Result<Option<KindRow>, Fault>
        ensures { Looked InLimits (λ P row. row ≡ P.kinds kind) InLimits
            S.Store self.old self.new result }
    {
        committed_is_held(&self.conn);
        get_row::<KindRow, S>(&mut self.conn, (), kind)
    }

    /// Reads a batch of kinds of patrons above this number, by number. Faults 90, 91, 93.
    pub fn kinds_after(&mut self, alloc: Global, after: PatronKind) -> Result<Vec<KindRow>, Fault>
        ensures { Looked InLimits (λ P rows. AreRowsAfter P.kinds (λ r. r.kind) after rows.items)
            InLimits S.Store self.old self.new result }
    {
        committed_is_held(&self.conn);
        next_rows(&mut self.conn, alloc, (), Some(after.number()))
    }

    /// Reads a batch of the rules of a kind of patron for kinds of copies above this number, by
    /// number. Faults 90, 91, 93.
    pub fn rules_after(
        &mut self,
        alloc: Global,
        kind: PatronKind,
        after: CopyKind,
    ) -> Result<Vec<RuleRow>, Fault>
        ensures { Looked InLimits (λ P rows. AreRowsAfter (P.rules kind) (λ r. r.copy_kind) after
            rows.items) InLimits S.Store self.old self.new result }
    {
        committed_is_held(&self.conn);
        rules_after(&mut self.conn, alloc, kind, after)
    }

    /// Reads a batch of transits to a branch with copies above this number, by number. Faults 90,
    /// 91, 93.
    pub fn transits_to(
        &mut self,
        alloc: Global,
        branch: BranchId,
        after: CopyId,
    ) -> Result<Vec<TransitRow>, Fault>
        ensures { Looked InLimits (λ P rows. AreTransitsAfter P branch after rows.items) InLimits
            S.Store self.old self.new result }
    {
        committed_is_held(&self.conn);
        transits_to_after(&mut self.conn, alloc, branch, after)
    }

    /// Reads a copy and the rows that claim it. Faults 91, 93.
    pub fn copy_and_claims(&mut self, copy: CopyId) -> Result<View, Fault>
        ensures { Looked InLimits (λ P rows. IsCopyView P copy rows) InLimits
            S.Store self.old self.new result }
    {
        committed_is_held(&self.conn);
        copy_view(&mut self.conn, copy)
    }

    /// Reads the open loan of a copy, if it is on loan. Faults 91, 93.
    pub fn open_loan(&mut self, copy: CopyId) -> Result<Option<LoanRow>, Fault>
        ensures { Looked InLimits (λ P loan. IsLoanOf P copy loan) InLimits
            S.Store self.old self.new result }
    {
        committed_is_held(&self.conn);
        open_loan_of(&mut self.conn, copy)
    }

    /// Reads the first hold in a title's queue, if today is this day. Faults 91, 93.
    pub fn first_in_line(&mut self, title: TitleId, today: Day) -> Result<Option<HoldRow>, Fault>
        ensures { Looked InLimits (λ P first. today ≡ P.meta.today → IsFirstOf P title first)
            InLimits S.Store self.old self.new result }
    {
        committed_is_held(&self.conn);
        first_in_line(&mut self.conn, title, today)
    }

    /// Reads the transit for a hold, if any. Faults 91, 93.
    pub fn transit_for(&mut self, hold: HoldId) -> Result<Option<TransitRow>, Fault>
        ensures { Looked InLimits (λ P row. IsTravelFor P hold row) InLimits
            S.Store self.old self.new result }
    {
        committed_is_held(&self.conn);
        transit_for(&mut self.conn, hold)
    }

    /// Reads the least copy of a title on the shelf of a branch. Faults 91, 93.
    pub fn least_shelved(
        &mut self,
        title: TitleId,
        branch: BranchId,
    ) -> Result<Option<CopyRow>, Fault>
        ensures { Looked InLimits (λ P row. IsLeastShelved P title branch row) InLimits
            S.Store self.old self.new result }
    {
        committed_is_held(&self.conn);
        least_shelved(&mut self.conn, title, branch)
    }
}

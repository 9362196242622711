//! The lists of copies, loans, holds, accounts and debts.

ghost use Rattle.std.specs.Prelude.{◌≡◌, ◌==◌, Some, true, is_some, IfOk, string_bytes};
ghost use Rattle.model.specs.History.{today, has_begun};
ghost use Rattle.model.specs.Asking.{loan_words, sort_word, pulled_for};
ghost use Rattle.model.specs.Picture.{picture};
ghost use Rattle.model.specs.RowLaws.{missing_copy_words, loan_row_words};
ghost use Rattle.desk.specs.Answering.{LearnsIf};
ghost use Rattle.desk.specs.Asking.{queue_words, account_words, line_words, charge_words};
ghost use Rattle.desk.specs.Asking.{pull_words};
ghost use Rattle.desk.specs.Asking.{words_of_loan, IsTitleOfLoan};
ghost use Rattle.desk.specs.Placing.{after_space};

use crate::labelling::note_text;
use crate::listing::Listed;
use crate::patron_page::{patron_line, title_of_copy, title_row};
use crate::placing::{copy_row, place_of, travel_row};
use sqlite::Alter;
use std::alloc::Global;
use store::Store;
use terms::{
    BranchId, CopyId, CopyRow, Day, Fault, HoldId, HoldRow, LineId, LineRow, LoanId, LoanRow,
    Memory, PatronId, PatronRow, Sort, TitleId, TitleRow, TransitRow,
};

/// The copies of a title.
#[derive(Clone, Copy)]
pub(crate) struct CopiesOf {
    pub(crate) title: TitleId,
}

impl Listed for CopiesOf {
    ghost use Rattle.std.specs.Prelude.{◌≡◌, Some};
    ghost use Rattle.model.specs.Asking.{copies_list};
    ghost use Rattle.model.specs.Picture.{picture};

    type Row = CopyRow;

    ghost list = { λ s H. copies_list H s.title };

    ghost Needs = { λ s H. Unit {0} };

    ghost number_of = { λ r. r.copy };

    ghost IsRow = { λ s r H. ((picture H).copies r.copy ≡ Some r) × (r.title ≡ s.title) };

    fn number(row: &CopyRow) -> u32 {
        row.copy.number()
    }

    fn batch<S: Alter>(
        &self,
        store: &mut Store<S>,
        alloc: Global,
        after: u32,
    ) -> Result<Vec<CopyRow>, Fault> {
        store.copies_of_title(alloc, self.title, CopyId::new(after))
    }

    fn row_text<S: Alter>(
        &self,
        store: &mut Store<S>,
        alloc: Global,
        row: &CopyRow,
    ) -> Result<Option<String>, Fault> {
        let rows = store.copy_and_claims(row.copy)?;
        let Some(place) = place_of(&rows, row) else {
            return Err(Fault::Stored);
        };
        Ok(Some(copy_row(alloc, row.copy, &place)?))
    }
}

/// The copies on their way to a branch.
#[derive(Clone, Copy)]
pub(crate) struct TransitsTo {
    pub(crate) branch: BranchId,
}

impl Listed for TransitsTo {
    ghost use Rattle.std.specs.Prelude.{◌≡◌, Some};
    ghost use Rattle.model.specs.Asking.{transits_list};
    ghost use Rattle.model.specs.Picture.{picture};

    type Row = TransitRow;

    ghost list = { λ s H. transits_list H s.branch };

    ghost Needs = { λ s H. Unit {0} };

    ghost number_of = { λ r. r.copy };

    ghost IsRow = { λ s r H. ((picture H).transits r.copy ≡ Some r) × (r.goal ≡ s.branch) };

    fn number(row: &TransitRow) -> u32 {
        row.copy.number()
    }

    fn batch<S: Alter>(
        &self,
        store: &mut Store<S>,
        alloc: Global,
        after: u32,
    ) -> Result<Vec<TransitRow>, Fault> {
        store.transits_to(alloc, self.branch, CopyId::new(after))
    }

    fn row_text<S: Alter>(
        &self,
        store: &mut Store<S>,
        alloc: Global,
        row: &TransitRow,
    ) -> Result<Option<String>, Fault> {
        let title = title_of_copy(store, alloc, row.copy)?;
        Ok(Some(travel_row(alloc, row, &title)?))
    }
}

/// The queue of a title today.
#[derive(Clone, Copy)]
pub(crate) struct QueueFor {
    pub(crate) title: TitleId,
    pub(crate) today: Day,
}

/// Returns whether a hold has no first day, or one that has come.
fn has_begun(hold: &HoldRow, today: Day) -> bool
    ensures { result ≡ has_begun today hold.now.first_day }
{
    match hold.first_day {
        Some(day) => day.number() <= today.number(),
        None => true,
    }
}

/// Makes the row of a queued hold.
#[tactic(auto, unfolding(crate::specs::Asking::queue_words))]
fn queue_row(alloc: Global, row: &HoldRow) -> Result<String, Memory>
    ensures { IfOk result (λ text. string_bytes text ≡ queue_words row.now) }
{
    let HoldRow {
        hold,
        patron,
        branch,
        ..
    } = row;
    match row.first_day {
        Some(day) => format!(in alloc; "hold {hold} patron {patron} at {branch} from {day}"),
        None => format!(in alloc; "hold {hold} patron {patron} at {branch}"),
    }
}

impl Listed for QueueFor {
    ghost use Rattle.std.specs.Prelude.{◌≡◌, Some};
    ghost use Rattle.terms.specs.declared.row.HoldState.TheVariants.{Waiting};
    ghost use Rattle.model.specs.History.{today};
    ghost use Rattle.model.specs.Asking.{queue_list};
    ghost use Rattle.model.specs.Picture.{picture};

    type Row = HoldRow;

    ghost list = { λ s H. queue_list H s.title };

    ghost Needs = { λ s H. s.today ≡ today H };

    ghost number_of = { λ r. r.hold };

    ghost IsRow = { λ s r H. ((picture H).holds r.hold ≡ Some r) × ((r.title ≡ s.title)
        × (r.state ≡ Waiting)) };

    fn number(row: &HoldRow) -> u32 {
        row.hold.number()
    }

    fn batch<S: Alter>(
        &self,
        store: &mut Store<S>,
        alloc: Global,
        after: u32,
    ) -> Result<Vec<HoldRow>, Fault> {
        store.waiting_holds_for(alloc, self.title, HoldId::new(after))
    }

    fn row_text<S: Alter>(
        &self,
        store: &mut Store<S>,
        alloc: Global,
        row: &HoldRow,
    ) -> Result<Option<String>, Fault> {
        if !has_begun(row, self.today) {
            return Ok(None);
        }
        match store.transit_for(row.hold)? {
            Some(_transit) => Ok(None),
            None => Ok(Some(queue_row(alloc, row)?)),
        }
    }
}

/// The account of a patron.
#[derive(Clone, Copy)]
pub(crate) struct AccountOf {
    pub(crate) patron: PatronId,
}

/// Returns the word for a sort of lines.
fn sort_word(sort: Sort) -> &'static str
    ensures { result.now ≡ sort_word sort }
{
    match sort {
        Sort::Fine => "fine",
        Sort::Price => "price",
        Sort::Payment => "payment",
        Sort::Waiver => "waiver",
        Sort::Charge => "charge",
    }
}

/// Makes the row of an account line without a loan.
#[tactic(auto, unfolding(crate::specs::Asking::line_words))]
fn payment_row(alloc: Global, row: &LineRow) -> Result<String, Memory>
    ensures { IfOk result (λ text. string_bytes text ≡ line_words row.now) }
{
    let LineRow {
        line,
        day,
        amount,
        ..
    } = row;
    let sort = sort_word(row.sort);
    format!(in alloc; "line {line} {day} {sort} {amount}")
}

/// Makes the words for a loan and its title, after a space.
#[tactic(auto, unfolding(crate::specs::Placing::after_space))]
fn after_line(alloc: Global, loan: LoanId, title: &TitleRow) -> Result<String, Memory>
    ensures { IfOk result (λ text. string_bytes text ≡ after_space (words_of_loan loan title.now)) }
{
    let TitleRow { title, text } = title;
    format!(in alloc; " loan {loan} title {title} {text}")
}

/// Makes the row of an account line for a loan, with the title.
fn charge_row(
    alloc: Global,
    row: &LineRow,
    loan: LoanId,
    title: &TitleRow,
) -> Result<String, Memory>
    ensures { IfOk result (λ text. string_bytes text ≡ charge_words row.now loan title.now) }
{
    let mut text = payment_row(alloc, row)?;
    let charged = after_line(alloc, loan, title)?;
    text.push_str(&charged)?;
    Ok(text)
}

/// Returns the title of the copy lent. Faults 90, 91; 93, also if a row is missing.
fn title_of_loan<S: Alter>(
    store: &mut Store<S>,
    alloc: Global,
    loan: LoanId,
) -> Result<TitleRow, Fault>
    ensures { LearnsIf (λ H. is_some ((picture H).loans loan) ≡ true)
        (λ H title. IsTitleOfLoan loan H title) S.Store store.old store.new result }
{
    match store.loan(loan)? {
        Some(row) => title_of_copy(store, alloc, row.copy),
        None => Err(Fault::Stored),
    }
}

/// Makes the row of an account line, with its loan and title if it has one. Faults 90, 91; 93, also
/// if a row is missing.
fn account_row<S: Alter>(
    store: &mut Store<S>,
    alloc: Global,
    row: &LineRow,
) -> Result<String, Fault>
    ensures { LearnsIf (λ H. (picture H).lines row.now.line ≡ Some row.now)
        (λ H text. string_bytes text ≡ account_words row.now (loan_words H row.now.loan))
        S.Store store.old store.new result }
{
    match row.loan {
        Some(loan) => {
            let title = title_of_loan(store, alloc, loan)?;
            Ok(charge_row(alloc, row, loan, &title)?)
        }
        None => Ok(payment_row(alloc, row)?),
    }
}

impl Listed for AccountOf {
    ghost use Rattle.std.specs.Prelude.{◌≡◌, Some};
    ghost use Rattle.model.specs.Asking.{account_list};
    ghost use Rattle.model.specs.Picture.{picture};

    type Row = LineRow;

    ghost list = { λ s H. account_list H s.patron };

    ghost Needs = { λ s H. Unit {0} };

    ghost number_of = { λ r. r.line };

    ghost IsRow = { λ s r H. ((picture H).lines r.line ≡ Some r) × (r.patron ≡ s.patron) };

    fn number(row: &LineRow) -> u32 {
        row.line.number()
    }

    fn batch<S: Alter>(
        &self,
        store: &mut Store<S>,
        alloc: Global,
        after: u32,
    ) -> Result<Vec<LineRow>, Fault> {
        store.account_lines(alloc, self.patron, LineId::new(after))
    }

    fn row_text<S: Alter>(
        &self,
        store: &mut Store<S>,
        alloc: Global,
        row: &LineRow,
    ) -> Result<Option<String>, Fault> {
        let mut text = account_row(store, alloc, row)?;
        let note = note_text(store, alloc, row.line)?;
        text.push_str(&note)?;
        Ok(Some(text))
    }
}

/// The patrons who owe something.
#[derive(Clone, Copy)]
pub(crate) struct Debtors;

impl Listed for Debtors {
    ghost use Rattle.std.specs.Prelude.{◌≡◌, ◌<◌, Some};
    ghost use Rattle.model.specs.Asking.{debts_list};
    ghost use Rattle.model.specs.Picture.{picture};

    type Row = PatronRow;

    ghost list = { λ _ H. debts_list H };

    ghost Needs = { λ _ H. Unit {0} };

    ghost number_of = { λ r. r.patron };

    ghost IsRow = { λ _ r H. ((picture H).patrons r.patron ≡ Some r) × (0 < r.owed) };

    fn number(row: &PatronRow) -> u32 {
        row.patron.number()
    }

    fn batch<S: Alter>(
        &self,
        store: &mut Store<S>,
        alloc: Global,
        after: u32,
    ) -> Result<Vec<PatronRow>, Fault> {
        store.debtors(alloc, PatronId::new(after))
    }

    fn row_text<S: Alter>(
        &self,
        _store: &mut Store<S>,
        alloc: Global,
        row: &PatronRow,
    ) -> Result<Option<String>, Fault> {
        Ok(Some(patron_line(alloc, row)?))
    }
}

/// The copies to take from a branch's shelves, by the holds they are for.
#[derive(Clone, Copy)]
pub(crate) struct PullsAt {
    pub(crate) branch: BranchId,
    pub(crate) today: Day,
}

/// Makes the row of a copy to take from its shelf for a hold.
#[tactic(auto, unfolding(crate::specs::Asking::pull_words))]
fn pull_row(alloc: Global, hold: HoldId, copy: CopyId, title: &TitleRow) -> Result<String, Memory>
    ensures { IfOk result (λ text. string_bytes text ≡ pull_words hold copy title.now) }
{
    let TitleRow { title, text } = title;
    format!(in alloc; "hold {hold} copy {copy} title {title} {text}")
}

/// Returns whether the row is that of the hold.
fn is_of(row: &HoldRow, hold: HoldId) -> bool
    ensures { result ≡ (row.now.hold == hold) }
{
    row.hold.number() == hold.number()
}

/// Returns the copy to take from the branch's shelves for a waiting hold: if it is first in line
/// for its title, the copy with the least number there. Faults 91, 93.
fn copy_to_pull<S: Alter>(
    store: &mut Store<S>,
    row: &HoldRow,
    pulls: &PullsAt,
) -> Result<Option<CopyId>, Fault>
    ensures { LearnsIf
        (λ H. (pulls.now.today ≡ today H) × ((picture H).holds row.now.hold ≡ Some row.now))
        (λ H copy. copy ≡ pulled_for H pulls.now.branch row.now.hold)
        S.Store store.old store.new result }
{
    let Some(first) = store.first_in_line(row.title, pulls.today)? else {
        return Ok(None);
    };
    if !is_of(&first, row.hold) {
        return Ok(None);
    }
    match store.least_shelved(row.title, pulls.branch)? {
        Some(copy) => Ok(Some(copy.copy)),
        None => Ok(None),
    }
}

impl Listed for PullsAt {
    ghost use Rattle.std.specs.Prelude.{◌≡◌, Some};
    ghost use Rattle.terms.specs.declared.row.HoldState.TheVariants.{Waiting};
    ghost use Rattle.model.specs.History.{today};
    ghost use Rattle.model.specs.Asking.{pulls_list};
    ghost use Rattle.model.specs.Picture.{picture};

    type Row = HoldRow;

    ghost list = { λ s H. pulls_list H s.branch };

    ghost Needs = { λ s H. s.today ≡ today H };

    ghost number_of = { λ r. r.hold };

    ghost IsRow = { λ s r H. ((picture H).holds r.hold ≡ Some r) × (r.state ≡ Waiting) };

    fn number(row: &HoldRow) -> u32 {
        row.hold.number()
    }

    fn batch<S: Alter>(
        &self,
        store: &mut Store<S>,
        alloc: Global,
        after: u32,
    ) -> Result<Vec<HoldRow>, Fault> {
        store.waiting_holds(alloc, HoldId::new(after))
    }

    fn row_text<S: Alter>(
        &self,
        store: &mut Store<S>,
        alloc: Global,
        row: &HoldRow,
    ) -> Result<Option<String>, Fault> {
        let Some(copy) = copy_to_pull(store, row, self)? else {
            return Ok(None);
        };
        let title = title_row(store, alloc, row.title)?;
        Ok(Some(pull_row(alloc, row.hold, copy, &title)?))
    }
}

/// The missing copies.
#[derive(Clone, Copy)]
pub(crate) struct MissingCopies;

/// Makes the row of a missing copy, with its title.
#[tactic(auto, unfolding(model::specs::RowLaws::missing_copy_words))]
fn missing_copy_row(alloc: Global, row: &CopyRow, title: &TitleRow) -> Result<String, Memory>
    ensures { IfOk result (λ text. string_bytes text ≡ missing_copy_words row.now title.now) }
{
    let CopyRow { copy, home, .. } = row;
    let TitleRow { title, text } = title;
    format!(in alloc; "copy {copy} home {home} title {title} {text}")
}

impl Listed for MissingCopies {
    ghost use Rattle.std.specs.Prelude.{◌≡◌, Some};
    ghost use Rattle.terms.specs.declared.row.Condition.TheVariants.{Missing};
    ghost use Rattle.model.specs.Asking.{missing_copies_list};
    ghost use Rattle.model.specs.Picture.{picture};

    type Row = CopyRow;

    ghost list = { λ _ H. missing_copies_list H };

    ghost Needs = { λ _ H. Unit {0} };

    ghost number_of = { λ r. r.copy };

    ghost IsRow = { λ _ r H. ((picture H).copies r.copy ≡ Some r) × (r.condition ≡ Missing) };

    fn number(row: &CopyRow) -> u32 {
        row.copy.number()
    }

    fn batch<S: Alter>(
        &self,
        store: &mut Store<S>,
        alloc: Global,
        after: u32,
    ) -> Result<Vec<CopyRow>, Fault> {
        store.missing_copies(alloc, CopyId::new(after))
    }

    fn row_text<S: Alter>(
        &self,
        store: &mut Store<S>,
        alloc: Global,
        row: &CopyRow,
    ) -> Result<Option<String>, Fault> {
        let title = title_row(store, alloc, row.title)?;
        Ok(Some(missing_copy_row(alloc, row, &title)?))
    }
}

/// The loans ever made of a copy.
#[derive(Clone, Copy)]
pub(crate) struct LoansOf {
    pub(crate) copy: CopyId,
}

/// Makes the row of a loan, with the day it ended, if any.
#[tactic(auto, unfolding(model::specs::RowLaws::loan_row_words))]
fn loan_row(alloc: Global, row: &LoanRow) -> Result<String, Memory>
    ensures { IfOk result (λ text. string_bytes text ≡ loan_row_words row.now) }
{
    let LoanRow {
        loan,
        patron,
        made,
        due,
        ..
    } = row;
    match row.ended {
        Some(ended) => {
            format!(in alloc; "loan {loan} patron {patron} made {made} due {due} ended {ended}")
        }
        None => format!(in alloc; "loan {loan} patron {patron} made {made} due {due}"),
    }
}

impl Listed for LoansOf {
    ghost use Rattle.std.specs.Prelude.{◌≡◌, Some};
    ghost use Rattle.model.specs.Asking.{loans_list};
    ghost use Rattle.model.specs.Picture.{picture};

    type Row = LoanRow;

    ghost list = { λ s H. loans_list H s.copy };

    ghost Needs = { λ s H. Unit {0} };

    ghost number_of = { λ r. r.loan };

    ghost IsRow = { λ s r H. ((picture H).loans r.loan ≡ Some r) × (r.copy ≡ s.copy) };

    fn number(row: &LoanRow) -> u32 {
        row.loan.number()
    }

    fn batch<S: Alter>(
        &self,
        store: &mut Store<S>,
        alloc: Global,
        after: u32,
    ) -> Result<Vec<LoanRow>, Fault> {
        store.loans_of_copy(alloc, self.copy, LoanId::new(after))
    }

    fn row_text<S: Alter>(
        &self,
        _store: &mut Store<S>,
        alloc: Global,
        row: &LoanRow,
    ) -> Result<Option<String>, Fault> {
        Ok(Some(loan_row(alloc, row)?))
    }
}

//! The desk's questions: each is answered from the tables and changes nothing.

ghost use Rattle.std.specs.Prelude.{◌≡◌, ◌∷◌, ◌++◌, [], is_some, IfOk, string_bytes};
ghost use Rattle.terms.specs.declared.question.Question.TheVariants as question;
ghost use Rattle.terms.specs.declared.refusal.Refusal.TheVariants.{UnknownBranch, UnknownCopy};
ghost use Rattle.terms.specs.declared.refusal.Refusal.TheVariants.{UnknownTitle};
ghost use Rattle.circ_core.specs.Views.{IsCopyView};
ghost use Rattle.terms.specs.declared.reply.Reply.TheVariants.{Shown};
ghost use Rattle.model.specs.History.{title_of};
ghost use Rattle.model.specs.Picture.{picture};
ghost use Rattle.model.specs.Refusals.{has_branch, has_copy};
ghost use Rattle.model.specs.Asking.{asked, listed};
ghost use Rattle.model.specs.Pages.{spaced, title_words};
ghost use Rattle.model.specs.Reports.{report_lines};
ghost use Rattle.desk.specs.Answering.{Learns, LearnsIf};
ghost use Rattle.desk.specs.Asking.{IsAnswer, reply_if, title_words_of};
ghost use Rattle.desk.specs.Asking.{today_words, kind_words};
ghost use Rattle.desk.specs.Paging.{patron_words};

use crate::labelling::{thing_text, with_barcode};
use crate::listing::{Listed, list_text};
use crate::lists::{
    AccountOf, CopiesOf, Debtors, LoansOf, MissingCopies, PullsAt, QueueFor, TransitsTo,
};
use crate::overdue::{OVERDUE_HEADER, lender_of};
use crate::patron_page::patron_line;
use crate::placing::copy_text;
use crate::reports::with_newline;
use crate::searches::{PatronsByName, TitlesByText};
use crate::searching::search_text;
use crate::settings::{Branches, ClosedDaysOf, Kinds, RulesOf};
use crate::shelf::{SHELF_HEADER, ShelfAt};
use crate::till::{till_text, till_text_at};
use circ_core::View;
use sqlite::Alter;
use std::alloc::Global;
use store::Store;
use terms::{
    Barcode, BranchId, CopyId, CopyKind, Day, DayNumber, Fault, HoldId, LineId, LoanId, Memory,
    Name, PatronId, PatronKind, PatronRow, Question, Refusal, Reply, Text, Thing, TitleId,
    TitleRow,
};

/// Makes the reply that shows a text.
fn shown(text: String) -> Reply
    ensures { result ≡ Shown (string_bytes text) }
{
    Reply::Shown {
        page: Text::new(text),
    }
}

/// Makes a title's line, the head of its lists.
#[tactic(auto, unfolding(crate::specs::Asking::title_words_of))]
pub(crate) fn title_line(alloc: Global, row: &TitleRow) -> Result<String, Memory>
    ensures { IfOk result (λ text. string_bytes text ≡ title_words_of row.now) }
{
    let TitleRow { title, text } = row;
    format!(in alloc; "title {title} {text}")
}

/// Makes the line for today.
#[tactic(auto, unfolding(crate::specs::Asking::today_words))]
fn today_line(alloc: Global, day: Day) -> Result<String, Memory>
    ensures { IfOk result (λ text. string_bytes text ≡ today_words day) }
{
    format!(in alloc; "today {day}")
}

/// Makes the line for the kind of a patron.
#[tactic(auto, unfolding(crate::specs::Asking::kind_words))]
fn kind_line(alloc: Global, kind: PatronKind) -> Result<String, Memory>
    ensures { IfOk result (λ text. string_bytes text ≡ kind_words kind) }
{
    format!(in alloc; "kind {kind}")
}

/// Makes the lines for a patron: the debt and the name, and the kind.
fn borrower_text(alloc: Global, row: &PatronRow) -> Result<String, Memory>
    ensures { IfOk result (λ text. string_bytes text
        ≡ patron_words row.now ++ (10 ∷ kind_words row.now.kind)) }
{
    let mut text = patron_line(alloc, row)?;
    let kind = kind_line(alloc, row.kind)?;
    text.push('\n')?;
    text.push_str(&kind)?;
    Ok(text)
}

/// Shows a list of a title from a number on, or 12. Faults 90, 91, 93.
fn show_of_title<L: Listed, S: Alter>(
    store: &mut Store<S>,
    alloc: Global,
    title: TitleId,
    list: &L,
    after: u32,
) -> Result<Reply, Fault>
    ensures { LearnsIf
        (λ H. L.Needs list.now H
        × ((L.list list.now H).head ≡ spaced (title_words H title) ∷ []))
        (λ H reply. reply ≡ reply_if (is_some (title_of H title)) UnknownTitle
        (listed (L.list list.now H) after))
        S.Store store.old store.new result }
{
    match store.title(alloc, title)? {
        Some(row) => {
            let line = title_line(alloc, &row)?;
            let head = with_newline(line)?;
            let text = list_text(store, alloc, list, head, after)?;
            Ok(shown(text))
        }
        None => Ok(Reply::Refused(Refusal::UnknownTitle)),
    }
}

/// Shows a list of a branch from a number on, or 10. Faults 90, 91, 93.
fn show_of_branch<L: Listed, S: Alter>(
    store: &mut Store<S>,
    alloc: Global,
    branch: BranchId,
    list: &L,
    head: &str,
    after: u32,
) -> Result<Reply, Fault>
    ensures { LearnsIf
        (λ H. L.Needs list.now H × (head.now ≡ report_lines (L.list list.now H).head))
        (λ H reply. reply ≡ reply_if (has_branch H branch) UnknownBranch
        (listed (L.list list.now H) after))
        S.Store store.old store.new result }
{
    match store.branch(alloc, branch)? {
        Some(_row) => {
            let start = String::from_str(alloc, head)?;
            let text = list_text(store, alloc, list, start, after)?;
            Ok(shown(text))
        }
        None => Ok(Reply::Refused(Refusal::UnknownBranch)),
    }
}

/// Answers a question about a copy from its view; 13 if unknown. Faults 90, 91; 93, also if a row
/// that another names is missing.
fn reply_for_copy<S: Alter>(
    store: &mut Store<S>,
    alloc: Global,
    copy: CopyId,
    rows: &View,
) -> Result<Reply, Fault>
    ensures { LearnsIf (λ H. IsCopyView (picture H) copy rows.now)
        (λ H reply. reply ≡ reply_if (has_copy H copy) UnknownCopy (asked H (question.Copy copy)))
        S.Store store.old store.new result }
{
    match &rows.copy {
        Some(row) => {
            let lines = copy_text(store, alloc, row, rows)?;
            let text = with_barcode(store, alloc, lines, Thing::Copy(copy))?;
            Ok(shown(text))
        }
        None => Ok(Reply::Refused(Refusal::UnknownCopy)),
    }
}

/// Shows a copy, where it is and its barcode, or 13. Faults 90, 91, 93.
fn show_copy<S: Alter>(store: &mut Store<S>, alloc: Global, copy: CopyId) -> Result<Reply, Fault>
    ensures { Learns (IsAnswer (question.Copy copy))
        S.Store store.old store.new result }
{
    let rows = store.copy_and_claims(copy)?;
    reply_for_copy(store, alloc, copy, &rows)
}

/// Shows the queue of a title, or 12. Faults 90, 91, 93.
fn show_queue<S: Alter>(
    store: &mut Store<S>,
    alloc: Global,
    title: TitleId,
    after: HoldId,
) -> Result<Reply, Fault>
    ensures { Learns (IsAnswer (question.Queue title after))
        S.Store store.old store.new result }
{
    let meta = store.meta()?;
    let list = QueueFor {
        title,
        today: meta.today,
    };
    show_of_title(store, alloc, title, &list, after.number())
}

/// Shows a patron's account, or 11. Faults 90, 91, 93.
fn show_account<S: Alter>(
    store: &mut Store<S>,
    alloc: Global,
    patron: PatronId,
    after: LineId,
) -> Result<Reply, Fault>
    ensures { Learns (IsAnswer (question.Account patron after))
        S.Store store.old store.new result }
{
    match store.patron(alloc, patron)? {
        Some(row) => {
            let line = patron_line(alloc, &row)?;
            let head = with_newline(line)?;
            let text = list_text(store, alloc, &AccountOf { patron }, head, after.number())?;
            Ok(shown(text))
        }
        None => Ok(Reply::Refused(Refusal::UnknownPatron)),
    }
}

/// Shows the patrons who owe something. Faults 90, 91, 93.
fn show_debts<S: Alter>(
    store: &mut Store<S>,
    alloc: Global,
    after: PatronId,
) -> Result<Reply, Fault>
    ensures { Learns (IsAnswer (question.Debts after))
        S.Store store.old store.new result }
{
    let text = list_text(store, alloc, &Debtors, String::new(alloc), after.number())?;
    Ok(shown(text))
}

/// Shows today. Faults 91, 93.
fn show_today<S: Alter>(store: &mut Store<S>, alloc: Global) -> Result<Reply, Fault>
    ensures { Learns (IsAnswer question.Today)
        S.Store store.old store.new result }
{
    let meta = store.meta()?;
    let text = today_line(alloc, meta.today)?;
    Ok(shown(text))
}

/// Shows what a patron owes, the kind and the barcode, or 11. Faults 90, 91, 93.
fn show_borrower<S: Alter>(
    store: &mut Store<S>,
    alloc: Global,
    patron: PatronId,
) -> Result<Reply, Fault>
    ensures { Learns (IsAnswer (question.Borrower patron))
        S.Store store.old store.new result }
{
    match store.patron(alloc, patron)? {
        Some(row) => {
            let lines = borrower_text(alloc, &row)?;
            let text = with_barcode(store, alloc, lines, Thing::Patron(patron))?;
            Ok(shown(text))
        }
        None => Ok(Reply::Refused(Refusal::UnknownPatron)),
    }
}

/// Shows what has the barcode, or 18. Faults 90, 91, 93.
fn show_barcode<S: Alter>(
    store: &mut Store<S>,
    alloc: Global,
    barcode: &Barcode,
) -> Result<Reply, Fault>
    ensures { Learns (IsAnswer (question.FindBarcode barcode.now))
        S.Store store.old store.new result }
{
    match store.find_barcode(alloc, barcode)? {
        Some(thing) => {
            let text = thing_text(alloc, thing)?;
            Ok(shown(text))
        }
        None => Ok(Reply::Refused(Refusal::UnknownBarcode)),
    }
}

/// Shows the patrons whose names a text finds. Faults 90, 91, 93.
fn show_found_patrons<S: Alter>(
    store: &mut Store<S>,
    alloc: Global,
    after: PatronId,
    query: &Name,
) -> Result<Reply, Fault>
    ensures { Learns (IsAnswer (question.FindPatrons after query.now))
        S.Store store.old store.new result }
{
    let text = search_text::<PatronsByName, S>(store, alloc, query.as_str(), after.number())?;
    Ok(shown(text))
}

/// Shows the titles that a text finds. Faults 90, 91, 93.
fn show_found_titles<S: Alter>(
    store: &mut Store<S>,
    alloc: Global,
    after: TitleId,
    query: &Name,
) -> Result<Reply, Fault>
    ensures { Learns (IsAnswer (question.FindTitles after query.now))
        S.Store store.old store.new result }
{
    let text = search_text::<TitlesByText, S>(store, alloc, query.as_str(), after.number())?;
    Ok(shown(text))
}

/// Shows the overdue loans of a branch, or 10. Faults 90, 91, 93.
fn show_overdue<S: Alter>(
    store: &mut Store<S>,
    alloc: Global,
    branch: BranchId,
    after: LoanId,
) -> Result<Reply, Fault>
    ensures { Learns (IsAnswer (question.Overdue branch after))
        S.Store store.old store.new result }
{
    match lender_of(store, alloc, branch)? {
        Some(lender) => {
            show_of_branch(
                store,
                alloc,
                branch,
                &lender,
                OVERDUE_HEADER,
                after.number(),
            )
        }
        None => Ok(Reply::Refused(Refusal::UnknownBranch)),
    }
}

/// Shows the copies to take from a branch's shelves, or 10. Faults 90, 91, 93.
fn show_pulls<S: Alter>(
    store: &mut Store<S>,
    alloc: Global,
    branch: BranchId,
    after: HoldId,
) -> Result<Reply, Fault>
    ensures { Learns (IsAnswer (question.Pulls branch after))
        S.Store store.old store.new result }
{
    let meta = store.meta()?;
    let list = PullsAt {
        branch,
        today: meta.today,
    };
    show_of_branch(store, alloc, branch, &list, "", after.number())
}

/// Shows the sums of a day. Faults 90, 91, 93.
fn show_till<S: Alter>(store: &mut Store<S>, alloc: Global, day: Day) -> Result<Reply, Fault>
    ensures { Learns (IsAnswer (question.Till day))
        S.Store store.old store.new result }
{
    let text = till_text(store, alloc, day)?;
    Ok(shown(text))
}

/// Shows the sums of a branch's counter on a day, or 10. Faults 90, 91, 93.
fn show_till_at<S: Alter>(
    store: &mut Store<S>,
    alloc: Global,
    branch: BranchId,
    day: Day,
) -> Result<Reply, Fault>
    ensures { Learns (IsAnswer (question.TillAt branch day))
        S.Store store.old store.new result }
{
    match store.branch(alloc, branch)? {
        Some(_row) => {
            let text = till_text_at(store, alloc, branch, day)?;
            Ok(shown(text))
        }
        None => Ok(Reply::Refused(Refusal::UnknownBranch)),
    }
}

/// Shows the branches. Faults 90, 91, 93.
fn show_branches<S: Alter>(
    store: &mut Store<S>,
    alloc: Global,
    after: BranchId,
) -> Result<Reply, Fault>
    ensures { Learns (IsAnswer (question.Branches after))
        S.Store store.old store.new result }
{
    let text = list_text(store, alloc, &Branches, String::new(alloc), after.number())?;
    Ok(shown(text))
}

/// Shows the single closed days of a branch that come after today, or 10. Faults 90, 91, 93.
fn show_closed_days<S: Alter>(
    store: &mut Store<S>,
    alloc: Global,
    branch: BranchId,
    after: DayNumber,
) -> Result<Reply, Fault>
    ensures { Learns (IsAnswer (question.ClosedDays branch after))
        S.Store store.old store.new result }
{
    let meta = store.meta()?;
    let list = ClosedDaysOf {
        branch,
        today: meta.today,
    };
    show_of_branch(store, alloc, branch, &list, "", after.number())
}

/// Shows the kinds of patrons. Faults 90, 91, 93.
fn show_kinds<S: Alter>(
    store: &mut Store<S>,
    alloc: Global,
    after: PatronKind,
) -> Result<Reply, Fault>
    ensures { Learns (IsAnswer (question.Kinds after))
        S.Store store.old store.new result }
{
    let text = list_text(store, alloc, &Kinds, String::new(alloc), after.number())?;
    Ok(shown(text))
}

/// Shows the rules of a kind of patron, or 17. Faults 90, 91, 93.
fn show_rules<S: Alter>(
    store: &mut Store<S>,
    alloc: Global,
    kind: PatronKind,
    after: CopyKind,
) -> Result<Reply, Fault>
    ensures { Learns (IsAnswer (question.Rules kind after))
        S.Store store.old store.new result }
{
    match store.kind(kind)? {
        Some(_row) => {
            let head = String::new(alloc);
            let text = list_text(store, alloc, &RulesOf { kind }, head, after.number())?;
            Ok(shown(text))
        }
        None => Ok(Reply::Refused(Refusal::UnknownKind)),
    }
}

/// Shows the missing copies. Faults 90, 91, 93.
fn show_missing_copies<S: Alter>(
    store: &mut Store<S>,
    alloc: Global,
    after: CopyId,
) -> Result<Reply, Fault>
    ensures { Learns (IsAnswer (question.MissingCopies after))
        S.Store store.old store.new result }
{
    let text = list_text(
        store,
        alloc,
        &MissingCopies,
        String::new(alloc),
        after.number(),
    )?;
    Ok(shown(text))
}

/// Shows the loans ever made of a copy, or 13. Faults 90, 91, 93.
fn show_loans<S: Alter>(
    store: &mut Store<S>,
    alloc: Global,
    copy: CopyId,
    after: LoanId,
) -> Result<Reply, Fault>
    ensures { Learns (IsAnswer (question.Loans copy after))
        S.Store store.old store.new result }
{
    match store.copy(copy)? {
        Some(_row) => {
            let head = String::new(alloc);
            let text = list_text(store, alloc, &LoansOf { copy }, head, after.number())?;
            Ok(shown(text))
        }
        None => Ok(Reply::Refused(Refusal::UnknownCopy)),
    }
}

/// Answers a question, or refuses it. Faults 90, 91, 93.
pub(crate) fn reply_to_question<S: Alter>(
    store: &mut Store<S>,
    alloc: Global,
    question: &Question,
) -> Result<Reply, Fault>
    ensures { Learns (IsAnswer question.now)
        S.Store store.old store.new result }
{
    match question {
        Question::Copy { copy } => show_copy(store, alloc, *copy),
        Question::Copies { title, after } => {
            let list = CopiesOf { title: *title };
            show_of_title(store, alloc, *title, &list, after.number())
        }
        Question::Queue { title, after } => show_queue(store, alloc, *title, *after),
        Question::Account { patron, after } => show_account(store, alloc, *patron, *after),
        Question::Debts { after } => show_debts(store, alloc, *after),
        Question::Overdue { branch, after } => show_overdue(store, alloc, *branch, *after),
        Question::Shelf { branch, after } => {
            let list = ShelfAt { branch: *branch };
            show_of_branch(store, alloc, *branch, &list, SHELF_HEADER, after.number())
        }
        Question::Pulls { branch, after } => show_pulls(store, alloc, *branch, *after),
        Question::Transits { branch, after } => {
            let list = TransitsTo { branch: *branch };
            show_of_branch(store, alloc, *branch, &list, "", after.number())
        }
        Question::Till { day } => show_till(store, alloc, *day),
        Question::Today => show_today(store, alloc),
        Question::Borrower { patron } => show_borrower(store, alloc, *patron),
        Question::FindPatrons { after, text } => show_found_patrons(store, alloc, *after, text),
        Question::FindTitles { after, text } => show_found_titles(store, alloc, *after, text),
        Question::Branches { after } => show_branches(store, alloc, *after),
        Question::ClosedDays { branch, after } => show_closed_days(store, alloc, *branch, *after),
        Question::Kinds { after } => show_kinds(store, alloc, *after),
        Question::Rules { kind, after } => show_rules(store, alloc, *kind, *after),
        Question::MissingCopies { after } => show_missing_copies(store, alloc, *after),
        Question::Loans { copy, after } => show_loans(store, alloc, *copy, *after),
        Question::FindBarcode { barcode } => show_barcode(store, alloc, barcode),
        Question::TillAt { branch, day } => show_till_at(store, alloc, *branch, *day),
    }
}

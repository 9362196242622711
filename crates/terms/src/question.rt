//! Questions the desk can be asked about its tables.

ghost use Rattle.std.specs.Prelude.{◌≡◌, IfOk, string_bytes};
ghost use Rattle.terms.specs.Texts.{request_text};
ghost use Rattle.terms.specs.declared.command.Command.TheVariants.{Ask};

use crate::number::{
    BranchId, CopyId, CopyKind, DayNumber, HoldId, LineId, LoanId, PatronId, PatronKind, TitleId,
};
use crate::text::{Barcode, Name};
use calendar::{Day, Memory};
use std::alloc::Global;

/// A question, which changes nothing. A list shows the rows with numbers above `after`.
#[derive(Drop)]
pub enum Question {
    /// A copy, and where it is.
    Copy { copy: CopyId },
    /// The copies of a title, and where each is.
    Copies { title: TitleId, after: CopyId },
    /// The queue of a title.
    Queue { title: TitleId, after: HoldId },
    /// The lines of a patron's account.
    Account { patron: PatronId, after: LineId },
    /// The patrons who owe something.
    Debts { after: PatronId },
    /// The overdue loans of a branch.
    Overdue { branch: BranchId, after: LoanId },
    /// The ready holds of a branch.
    Shelf { branch: BranchId, after: HoldId },
    /// The copies to take from a branch's shelves, each for the hold whose turn it is.
    Pulls { branch: BranchId, after: HoldId },
    /// The copies on their way to a branch.
    Transits { branch: BranchId, after: CopyId },
    /// The sums of a day.
    Till { day: Day },
    /// Today.
    Today,
    /// A patron's kind, and what the patron owes.
    Borrower { patron: PatronId },
    /// The patrons whose names a text finds.
    FindPatrons { after: PatronId, text: Name },
    /// The titles that a text finds.
    FindTitles { after: TitleId, text: Name },
    /// The branches, and how each works.
    Branches { after: BranchId },
    /// The single closed days of a branch that are still to come.
    ClosedDays { branch: BranchId, after: DayNumber },
    /// The kinds of patrons, and what each allows.
    Kinds { after: PatronKind },
    /// The circulation rules of a kind of patron.
    Rules { kind: PatronKind, after: CopyKind },
    /// The missing copies.
    MissingCopies { after: CopyId },
    /// The loans ever made of a copy.
    Loans { copy: CopyId, after: LoanId },
    /// The copy or the patron that has a barcode.
    FindBarcode { barcode: Barcode },
    /// The sums of a day at a branch.
    TillAt { branch: BranchId, day: Day },
}

/// Joins the words of a question with single spaces.
#[tactic(auto, unfolding(crate::specs::Texts::request_text, crate::specs::Texts::command_words))]
pub(crate) fn joined_question(alloc: Global, question: &Question) -> Result<String, Memory>
    ensures { IfOk result (λ text. string_bytes text ≡ request_text (Ask question.now)) }
{
    match question {
        Question::Copy { copy } => format!(in alloc; "copy {copy}"),
        Question::Copies { title, after } => format!(in alloc; "copies {title} {after}"),
        Question::Queue { title, after } => format!(in alloc; "queue {title} {after}"),
        Question::Account { patron, after } => format!(in alloc; "account {patron} {after}"),
        Question::Debts { after } => format!(in alloc; "debts {after}"),
        Question::Overdue { branch, after } => format!(in alloc; "overdue {branch} {after}"),
        Question::Shelf { branch, after } => format!(in alloc; "shelf {branch} {after}"),
        Question::Pulls { branch, after } => format!(in alloc; "pulls {branch} {after}"),
        Question::Transits { branch, after } => format!(in alloc; "transits {branch} {after}"),
        Question::Till { day } => format!(in alloc; "till {day}"),
        Question::Today => format!(in alloc; "today"),
        Question::Borrower { patron } => format!(in alloc; "borrower {patron}"),
        Question::FindPatrons { after, text } => format!(in alloc; "find-patrons {after} {text}"),
        Question::FindTitles { after, text } => format!(in alloc; "find-titles {after} {text}"),
        Question::Branches { after } => format!(in alloc; "branches {after}"),
        Question::ClosedDays { branch, after } => format!(in alloc; "closed-days {branch} {after}"),
        Question::Kinds { after } => format!(in alloc; "kinds {after}"),
        Question::Rules { kind, after } => format!(in alloc; "rules {kind} {after}"),
        Question::MissingCopies { after } => format!(in alloc; "missing-copies {after}"),
        Question::Loans { copy, after } => format!(in alloc; "loans {copy} {after}"),
        Question::FindBarcode { barcode } => format!(in alloc; "find-barcode {barcode}"),
        Question::TillAt { branch, day } => format!(in alloc; "till-at {branch} {day}"),
    }
}

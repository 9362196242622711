//! Laws of texts. Each law is the contract of a function that does nothing.

ghost use Rattle.std.specs.Prelude.{◌≡◌, true, false};
ghost use Rattle.terms.specs.Laws.{IsCommand, IsRouted, IsKept, RequestTextsDiffer};
ghost use Rattle.terms.specs.Laws.{ReplyTextsDiffer, RequestTextsUtf8, ReplyTextsUtf8};
ghost use Rattle.terms.specs.Laws.{ClerkKeysDiffer};
ghost use Rattle.terms.specs.Commands.{CommandsAreListed};
ghost use Rattle.terms.specs.declared.command.Command.TheVariants.{Ask};

use crate::command::Command;
use crate::question::Question;
use crate::reply::{Reply, Routed};

/// Every command is in the table of commands, with parts of these kinds.
pub fn commands_are_listed()
    ensures { CommandsAreListed }
{}

/// Commands with the same request text are equal.
pub fn request_texts_differ()
    ensures { RequestTextsDiffer }
{}

/// Kept replies with the same reply text are equal.
pub fn reply_texts_differ()
    ensures { ReplyTextsDiffer }
{}

/// Equal keys of clerks' requests are of the same clerk, and none is a key from outside.
pub fn clerk_keys_differ()
    ensures { ClerkKeysDiffer }
{}

/// The request text of every command is UTF-8.
pub fn request_texts_are_utf8()
    ensures { RequestTextsUtf8 }
{}

/// The reply text of every reply that can be kept is UTF-8.
pub fn reply_texts_are_utf8()
    ensures { ReplyTextsUtf8 }
{}

/// The numbers and day of a question are well-formed.
fn question_has_forms(question: &Question)
    ensures { IsCommand (Ask question.now) }
{
    match question {
        Question::Copy { copy } => {
            let _copy = copy.number();
        }
        Question::Copies { title, after } => {
            let _title = title.number();
            let _after = after.number();
        }
        Question::Queue { title, after } => {
            let _title = title.number();
            let _after = after.number();
        }
        Question::Account { patron, after } => {
            let _patron = patron.number();
            let _after = after.number();
        }
        Question::Debts { after } => {
            let _after = after.number();
        }
        Question::Overdue { branch, after } => {
            let _branch = branch.number();
            let _after = after.number();
        }
        Question::Shelf { branch, after } => {
            let _branch = branch.number();
            let _after = after.number();
        }
        Question::Pulls { branch, after } => {
            let _branch = branch.number();
            let _after = after.number();
        }
        Question::Transits { branch, after } => {
            let _branch = branch.number();
            let _after = after.number();
        }
        Question::Till { day } => {
            let _day = day.number();
        }
        Question::Today => {}
        Question::Borrower { patron } => {
            let _patron = patron.number();
        }
        Question::FindPatrons { after, text } => {
            let _after = after.number();
            let _text = text.as_str();
        }
        Question::FindTitles { after, text } => {
            let _after = after.number();
            let _text = text.as_str();
        }
        Question::Branches { after } => {
            let _after = after.number();
        }
        Question::ClosedDays { branch, after } => {
            let _branch = branch.number();
            let _after = after.number();
        }
        Question::Kinds { after } => {
            let _after = after.number();
        }
        Question::Rules { kind, after } => {
            let _kind = kind.number();
            let _after = after.number();
        }
        Question::MissingCopies { after } => {
            let _after = after.number();
        }
        Question::Loans { copy, after } => {
            let _copy = copy.number();
            let _after = after.number();
        }
        Question::FindBarcode { barcode } => {
            let _barcode = barcode.as_str();
        }
        Question::TillAt { branch, day } => {
            let _branch = branch.number();
            let _day = day.number();
        }
    }
}

/// The numbers, days, masks and texts of a command are well-formed.
pub fn command_has_forms(command: &Command)
    ensures { IsCommand command.now }
{
    match command {
        Command::BeginDay { day } => {
            let _day = day.number();
        }
        Command::Branch {
            branch,
            pickup,
            name,
        } => {
            let _branch = branch.number();
            let _pickup = pickup.number();
            let _name = name.as_str();
        }
        Command::Week { branch, week } => {
            let _branch = branch.number();
            let _week = week.closed();
        }
        Command::CloseDay { branch, day } => {
            let _branch = branch.number();
            let _day = day.number();
        }
        Command::OpenDay { branch, day } => {
            let _branch = branch.number();
            let _day = day.number();
        }
        Command::Kind {
            kind,
            loans,
            holds,
            debt,
        } => {
            let _kind = kind.number();
            let _loans = loans.number();
            let _holds = holds.number();
            let _debt = debt.number();
        }
        Command::Rule {
            kind,
            copy_kind,
            period,
            renewals,
            rate,
            cap,
        } => {
            let _kind = kind.number();
            let _copy_kind = copy_kind.number();
            let _period = period.number();
            let _renewals = renewals.number();
            let _rate = rate.number();
            let _cap = cap.number();
        }
        Command::Grace {
            kind,
            copy_kind,
            days,
        } => {
            let _kind = kind.number();
            let _copy_kind = copy_kind.number();
            let _days = days.number();
        }
        Command::Patron {
            patron,
            kind,
            card_key,
            name,
        } => {
            let _patron = patron.number();
            let _kind = kind.number();
            let _card_key = card_key.as_str();
            let _name = name.as_str();
        }
        Command::Acquire {
            copy,
            title,
            kind,
            home,
            price,
            text,
        } => {
            let _copy = copy.number();
            let _title = title.number();
            let _kind = kind.number();
            let _home = home.number();
            let _price = price.number();
            let _text = text.as_str();
        }
        Command::SetCardKey { patron, card_key } => {
            let _patron = patron.number();
            let _card_key = card_key.as_str();
        }
        Command::AmendPatron { patron, kind, name } => {
            let _patron = patron.number();
            let _kind = kind.number();
            let _name = name.as_str();
        }
        Command::AmendBranch {
            branch,
            pickup,
            name,
        } => {
            let _branch = branch.number();
            let _pickup = pickup.number();
            let _name = name.as_str();
        }
        Command::AmendTitle { title, text } => {
            let _title = title.number();
            let _text = text.as_str();
        }
        Command::AmendCopy { copy, kind, price } => {
            let _copy = copy.number();
            let _kind = kind.number();
            let _price = price.number();
        }
        Command::Rehome { copy, branch } => {
            let _copy = copy.number();
            let _branch = branch.number();
        }
        Command::CopyBarcode { copy, barcode } => {
            let _copy = copy.number();
            let _barcode = barcode.as_str();
        }
        Command::PatronBarcode { patron, barcode } => {
            let _patron = patron.number();
            let _barcode = barcode.as_str();
        }
        Command::DropBarcode { barcode } => {
            let _barcode = barcode.as_str();
        }
        Command::CheckOut {
            patron,
            copy,
            branch,
        } => {
            let _patron = patron.number();
            let _copy = copy.number();
            let _branch = branch.number();
        }
        Command::CheckIn { copy, branch } => {
            let _copy = copy.number();
            let _branch = branch.number();
        }
        Command::Renew { loan } => {
            let _loan = loan.number();
        }
        Command::PlaceHold {
            patron,
            title,
            branch,
            first_day,
        } => {
            let _patron = patron.number();
            let _title = title.number();
            let _branch = branch.number();
            if let Some(day) = first_day {
                let _day = day.number();
            }
        }
        Command::CancelHold { hold } => {
            let _hold = hold.number();
        }
        Command::Unshelve { hold } => {
            let _hold = hold.number();
        }
        Command::UnshelveCancelled { hold } => {
            let _hold = hold.number();
        }
        Command::Missing { copy } => {
            let _copy = copy.number();
        }
        Command::Withdraw { copy } => {
            let _copy = copy.number();
        }
        Command::Pay { patron, amount } => {
            let _patron = patron.number();
            let _amount = amount.number();
        }
        Command::Waive { patron, amount } => {
            let _patron = patron.number();
            let _amount = amount.number();
        }
        Command::Charge {
            patron,
            amount,
            branch,
            text,
        } => {
            let _patron = patron.number();
            let _amount = amount.number();
            let _branch = branch.number();
            let _text = text.as_str();
        }
        Command::PayAt {
            patron,
            amount,
            branch,
        } => {
            let _patron = patron.number();
            let _amount = amount.number();
            let _branch = branch.number();
        }
        Command::Page { patron } => {
            let _patron = patron.number();
        }
        Command::Ask(question) => question_has_forms(question),
    }
}

/// The numbers and day of a copy's destination are in their ranges.
fn routed_has_forms(routed: &Routed)
    ensures { IsRouted routed.now }
{
    match routed {
        Routed::Shelf { branch } => {
            let _branch = branch.number();
        }
        Routed::HoldShelf {
            hold,
            branch,
            until,
        } => {
            let _hold = hold.number();
            let _branch = branch.number();
            let _until = until.number();
        }
        Routed::Transit {
            goal,
            hold: Some(hold),
        } => {
            let _goal = goal.number();
            let _hold = hold.number();
        }
        Routed::Transit { goal, hold: None } => {
            let _goal = goal.number();
        }
    }
}

/// Returns whether a reply can be kept: neither a page nor a refusal. Its numbers, amounts and days
/// are then in range, as in every reply.
pub fn can_be_kept(reply: &Reply) -> bool
    ensures kept { result ≡ true → IsKept reply.now }
    ensures other { result ≡ false → IsKept reply.now → ⊥ }
{
    match reply {
        Reply::Done => true,
        Reply::Lent { loan, due } => {
            let _loan = loan.number();
            let _due = due.number();
            true
        }
        Reply::CheckedIn { fine, routed } => {
            let _fine = fine.number();
            routed_has_forms(routed);
            true
        }
        Reply::Held { hold } => {
            let _hold = hold.number();
            true
        }
        Reply::Moved { routed } => {
            routed_has_forms(routed);
            true
        }
        Reply::Lost { fine, price } => {
            let _fine = fine.number();
            let _price = price.number();
            true
        }
        Reply::Owed { owed } => {
            let _owed = owed.number();
            true
        }
        Reply::Shown { .. } => false,
        Reply::Refused(_) => false,
    }
}

//! Commands of the desk.

ghost use Rattle.std.specs.Prelude.{◌≡◌, IfOk, string_bytes};
ghost use Rattle.terms.specs.Callers.{owner_of};
ghost use Rattle.terms.specs.Texts.{request_text};

use crate::number::{
    BranchId, Cents, CopyId, CopyKind, Count, Days, HoldId, LoanId, PatronId, PatronKind, TitleId,
};
use crate::question::{Question, joined_question};
use crate::text::{Barcode, CardKey, Key, Name, Text};
use crate::week::Mask;
use calendar::{Day, Memory};
use std::alloc::Global;

/// A command of the desk. A patron may send `PlaceHold`, `CancelHold`, `Renew` and `Page`.
#[derive(Drop)]
pub enum Command {
    /// Makes this later day today.
    BeginDay {
        day: Day,
    },
    /// Sets up a branch, with the days a copy waits on its hold shelf.
    Branch {
        branch: BranchId,
        pickup: Days,
        name: Name,
    },
    /// Sets the weekdays on which a branch is closed.
    Week {
        branch: BranchId,
        week: Mask,
    },
    /// Closes a branch on a later day.
    CloseDay {
        branch: BranchId,
        day: Day,
    },
    /// Reopens a branch on a later day that was closed singly.
    OpenDay {
        branch: BranchId,
        day: Day,
    },
    /// Sets what a kind of patron may have: open loans, active holds, and debt at check-out.
    Kind {
        kind: PatronKind,
        loans: Count,
        holds: Count,
        debt: Cents,
    },
    /// Sets the circulation rule for a kind of patron and a kind of copy.
    Rule {
        kind: PatronKind,
        copy_kind: CopyKind,
        period: Days,
        renewals: Count,
        rate: Cents,
        cap: Cents,
    },
    /// Sets the grace days of a circulation rule: a loan under it that ends at most this many open
    /// days late costs no fine.
    Grace {
        kind: PatronKind,
        copy_kind: CopyKind,
        days: Days,
    },
    /// Enrols a patron.
    Patron {
        patron: PatronId,
        kind: PatronKind,
        card_key: CardKey,
        name: Name,
    },
    /// Acquires a copy, and its title with it.
    Acquire {
        copy: CopyId,
        title: TitleId,
        kind: CopyKind,
        home: BranchId,
        price: Cents,
        text: Name,
    },
    /// Gives a patron another card key. The old one is void from then on.
    SetCardKey {
        patron: PatronId,
        card_key: CardKey,
    },
    /// Changes a patron's kind and name.
    AmendPatron {
        patron: PatronId,
        kind: PatronKind,
        name: Name,
    },
    /// Changes a branch's pick-up period and name.
    AmendBranch {
        branch: BranchId,
        pickup: Days,
        name: Name,
    },
    /// Changes the text of a title.
    AmendTitle {
        title: TitleId,
        text: Name,
    },
    /// Changes a copy's kind and price.
    AmendCopy {
        copy: CopyId,
        kind: CopyKind,
        price: Cents,
    },
    /// Gives a copy another home branch. On the shelf of another branch it is then in transit to its
    /// new home; everywhere else it stays where it is.
    Rehome {
        copy: CopyId,
        branch: BranchId,
    },
    /// Gives a copy this barcode, in the place of the one that it had.
    CopyBarcode {
        copy: CopyId,
        barcode: Barcode,
    },
    /// Gives a patron this barcode, in the place of the one that the patron had.
    PatronBarcode {
        patron: PatronId,
        barcode: Barcode,
    },
    /// Takes a barcode from the copy or the patron that has it.
    DropBarcode {
        barcode: Barcode,
    },
    /// Lends a copy to a patron at a branch.
    CheckOut {
        patron: PatronId,
        copy: CopyId,
        branch: BranchId,
    },
    /// Takes back a copy at a branch.
    CheckIn {
        copy: CopyId,
        branch: BranchId,
    },
    /// Extends a loan.
    Renew {
        loan: LoanId,
    },
    /// Places a patron's hold on a title, for pick-up at a branch: at once (`place-hold`), or from
    /// a later day on (`place-hold-from`).
    PlaceHold {
        patron: PatronId,
        title: TitleId,
        branch: BranchId,
        first_day: Option<Day>,
    },
    /// Cancels a waiting hold.
    CancelHold {
        hold: HoldId,
    },
    /// Expires a ready hold whose shelf limit has passed.
    Unshelve {
        hold: HoldId,
    },
    /// Cancels a ready hold.
    UnshelveCancelled {
        hold: HoldId,
    },
    /// Declares a copy missing.
    Missing {
        copy: CopyId,
    },
    /// Withdraws a copy for good.
    Withdraw {
        copy: CopyId,
    },
    /// Takes a patron's payment.
    Pay {
        patron: PatronId,
        amount: Cents,
    },
    /// Waives an amount for a patron.
    Waive {
        patron: PatronId,
        amount: Cents,
    },
    /// Charges a patron an amount at a branch, for what the text says.
    Charge {
        patron: PatronId,
        amount: Cents,
        branch: BranchId,
        text: Name,
    },
    /// Takes a patron's payment at a branch.
    PayAt {
        patron: PatronId,
        amount: Cents,
        branch: BranchId,
    },
    /// Shows what a patron owes, has on loan and holds. Changes nothing.
    Page {
        patron: PatronId,
    },
    /// Asks a question; changes nothing.
    Ask(Question),
}

/// Who sends a request: the desk, or a patron who shows a card key.
#[derive(Drop)]
pub enum Caller {
    Desk,
    Patron(PatronId, CardKey),
}

/// Whose key a kept request has: all desks share one set of keys, and each patron has their own.
#[derive(Clone, Copy, Debug, PartialEq, Eq)]
pub enum Owner {
    Desk,
    Patron(PatronId),
}

impl Caller {
    /// Returns whose keys the caller's requests have.
    pub fn owner(&self) -> Owner
        ensures { result ≡ owner_of self.now }
    {
        match self {
            Caller::Desk => Owner::Desk,
            Caller::Patron(patron, _) => Owner::Patron(*patron),
        }
    }
}

/// One request.
#[derive(Drop)]
pub struct Request {
    pub caller: Caller,
    pub key: Key,
    pub command: Command,
}

/// Joins the words of a command with single spaces.
#[tactic(auto, unfolding(crate::specs::Texts::request_text, crate::specs::Texts::command_words))]
pub(crate) fn joined_words(alloc: Global, command: &Command) -> Result<String, Memory>
    ensures { IfOk result (λ text. string_bytes text ≡ request_text command.now) }
{
    match command {
        Command::BeginDay { day } => format!(in alloc; "begin-day {day}"),
        Command::Branch {
            branch,
            pickup,
            name,
        } => format!(in alloc; "branch {branch} {pickup} {name}"),
        Command::Week { branch, week } => format!(in alloc; "week {branch} {week}"),
        Command::CloseDay { branch, day } => format!(in alloc; "close-day {branch} {day}"),
        Command::OpenDay { branch, day } => format!(in alloc; "open-day {branch} {day}"),
        Command::Kind {
            kind,
            loans,
            holds,
            debt,
        } => format!(in alloc; "kind {kind} {loans} {holds} {debt}"),
        Command::Rule {
            kind,
            copy_kind,
            period,
            renewals,
            rate,
            cap,
        } => format!(in alloc; "rule {kind} {copy_kind} {period} {renewals} {rate} {cap}"),
        Command::Grace {
            kind,
            copy_kind,
            days,
        } => format!(in alloc; "grace {kind} {copy_kind} {days}"),
        Command::Patron {
            patron,
            kind,
            card_key,
            name,
        } => format!(in alloc; "patron {patron} {kind} {card_key} {name}"),
        Command::Acquire {
            copy,
            title,
            kind,
            home,
            price,
            text,
        } => format!(in alloc; "acquire {copy} {title} {kind} {home} {price} {text}"),
        Command::SetCardKey { patron, card_key } => {
            format!(in alloc; "card-key {patron} {card_key}")
        }
        Command::AmendPatron { patron, kind, name } => {
            format!(in alloc; "amend-patron {patron} {kind} {name}")
        }
        Command::AmendBranch {
            branch,
            pickup,
            name,
        } => format!(in alloc; "amend-branch {branch} {pickup} {name}"),
        Command::AmendTitle { title, text } => format!(in alloc; "amend-title {title} {text}"),
        Command::AmendCopy { copy, kind, price } => {
            format!(in alloc; "amend-copy {copy} {kind} {price}")
        }
        Command::Rehome { copy, branch } => format!(in alloc; "rehome {copy} {branch}"),
        Command::CopyBarcode { copy, barcode } => {
            format!(in alloc; "copy-barcode {copy} {barcode}")
        }
        Command::PatronBarcode { patron, barcode } => {
            format!(in alloc; "patron-barcode {patron} {barcode}")
        }
        Command::DropBarcode { barcode } => format!(in alloc; "drop-barcode {barcode}"),
        Command::CheckOut {
            patron,
            copy,
            branch,
        } => format!(in alloc; "check-out {patron} {copy} {branch}"),
        Command::CheckIn { copy, branch } => format!(in alloc; "check-in {copy} {branch}"),
        Command::Renew { loan } => format!(in alloc; "renew {loan}"),
        Command::PlaceHold {
            patron,
            title,
            branch,
            first_day: None,
        } => format!(in alloc; "place-hold {patron} {title} {branch}"),
        Command::PlaceHold {
            patron,
            title,
            branch,
            first_day: Some(day),
        } => format!(in alloc; "place-hold-from {patron} {title} {branch} {day}"),
        Command::CancelHold { hold } => format!(in alloc; "cancel-hold {hold}"),
        Command::Unshelve { hold } => format!(in alloc; "unshelve {hold}"),
        Command::UnshelveCancelled { hold } => format!(in alloc; "unshelve-cancelled {hold}"),
        Command::Missing { copy } => format!(in alloc; "missing {copy}"),
        Command::Withdraw { copy } => format!(in alloc; "withdraw {copy}"),
        Command::Pay { patron, amount } => format!(in alloc; "pay {patron} {amount}"),
        Command::Waive { patron, amount } => format!(in alloc; "waive {patron} {amount}"),
        Command::Charge {
            patron,
            amount,
            branch,
            text,
        } => format!(in alloc; "charge {patron} {amount} {branch} {text}"),
        Command::PayAt {
            patron,
            amount,
            branch,
        } => format!(in alloc; "pay-at {patron} {amount} {branch}"),
        Command::Page { patron } => format!(in alloc; "page {patron}"),
        Command::Ask(question) => joined_question(alloc, question),
    }
}

/// Makes the request text of a command: its words, joined by single spaces. Each command has one
/// spelling.
pub fn request_text(alloc: Global, command: &Command) -> Result<Text, Memory>
    ensures { IfOk result (λ text. text ≡ request_text command.now) }
{
    let text = joined_words(alloc, command)?;
    Ok(Text::new(text))
}

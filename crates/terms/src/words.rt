//! Reading commands from their name and words.

ghost use Rattle.std.specs.Prelude.{◌≡◌, ◌<◌, ◌^◌, codes, length, true, IfOk};
ghost use Rattle.std.specs.Fmt.{decimal};
ghost use Rattle.calendar.specs.Days.{IsDayNumber, day_text};
ghost use Rattle.terms.specs.Forms.{IsName, is_card_key, is_barcode};
ghost use Rattle.terms.specs.Texts.{mask_text};
ghost use Rattle.terms.specs.Commands.{IsReadAs, IsNoCommand, IsNoNumber, IsNoDay, IsNoMask};
ghost use Rattle.terms.specs.Commands.{IsNoName, IsNoCardKey, IsNoBarcode, texts};
ghost use Rattle.terms.specs.declared.words.WordFault.TheVariants.{Memory as NoMemory};
ghost use Rattle.terms.specs.declared.words.WordFault.TheVariants.{NotUnderstood as Refused};

use crate::command::Command;
use crate::number::{
    BranchId, Cents, CopyId, CopyKind, Count, Days, HoldId, LoanId, PatronId, PatronKind, TitleId,
};
use crate::question_words::{
    account, borrower, branches, closed_days, copies, copy, debts, find_barcode, find_patrons,
    find_titles, kinds, loans, missing_copies, overdue, pulls, queue, rules, shelf, till, till_at,
    today, transits,
};
use crate::reading::read_number;
use crate::text::{Barcode, CardKey, Name};
use crate::week::Mask;
use calendar::Day;
use std::alloc::{AllocError, Global};

/// Why words can't be read.
#[derive(Clone, Copy, Debug, PartialEq, Eq)]
pub enum WordFault {
    /// They aren't a command.
    NotUnderstood,
    /// No memory was left.
    Memory,
}

impl From<AllocError> for WordFault {
    ghost from_gives = { λ _ fault. fault ≡ NoMemory };

    fn from(_error: AllocError) -> WordFault {
        WordFault::Memory
    }
}

/// Reads a number.
pub(crate) fn number(word: &str) -> Result<u32, WordFault>
    ensures read { IfOk result (λ n. (n < 2 ^ 32) × (word.now ≡ decimal n)) }
    ensures refused { result ≡ Err Refused → IsNoNumber word.now }
{
    read_number(word).ok_or(WordFault::NotUnderstood)
}

/// Reads a day.
pub(crate) fn read_day(word: &str) -> Result<Day, WordFault>
    ensures read { IfOk result (λ n. IsDayNumber n × (word.now ≡ day_text n)) }
    ensures refused { result ≡ Err Refused → IsNoDay word.now }
{
    Day::read(word).ok_or(WordFault::NotUnderstood)
}

/// Reads a mask of closed weekdays.
fn read_mask(word: &str) -> Result<Mask, WordFault>
    ensures read { IfOk result (λ closed. (length closed ≡ 7) × (word.now ≡ mask_text closed)) }
    ensures refused { result ≡ Err Refused → IsNoMask word.now }
{
    let mask = Mask::read(word).ok_or(WordFault::NotUnderstood)?;
    // Calling `closed` shows the prover that there are seven weekdays.
    let _ = mask.closed();
    Ok(mask)
}

/// Reads a name.
pub(crate) fn read_name(alloc: Global, word: &str) -> Result<Name, WordFault>
    ensures read { IfOk result (λ name. IsName name × (word.now ≡ name)) }
    ensures refused { result ≡ Err Refused → IsNoName word.now }
{
    let name = Name::new(alloc, word)?;
    name.ok_or(WordFault::NotUnderstood)
}

/// Reads a card key.
fn read_card_key(alloc: Global, word: &str) -> Result<CardKey, WordFault>
    ensures read { IfOk result (λ key. (is_card_key key ≡ true) × (word.now ≡ key)) }
    ensures refused { result ≡ Err Refused → IsNoCardKey word.now }
{
    let key = CardKey::new(alloc, word)?;
    key.ok_or(WordFault::NotUnderstood)
}

/// Reads a barcode.
pub(crate) fn read_barcode(alloc: Global, word: &str) -> Result<Barcode, WordFault>
    ensures read { IfOk result (λ barcode. (is_barcode barcode ≡ true) × (word.now ≡ barcode)) }
    ensures refused { result ≡ Err Refused → IsNoBarcode word.now }
{
    let barcode = Barcode::new(alloc, word)?;
    barcode.ok_or(WordFault::NotUnderstood)
}

/// Reads an amount, below 2^32 cents like every number.
fn read_amount(word: &str) -> Result<Cents, WordFault>
    ensures read { IfOk result (λ n. (n < 2 ^ 32) × (word.now ≡ decimal n)) }
    ensures refused { result ≡ Err Refused → IsNoNumber word.now }
{
    Ok(Cents::new(u64::from(number(word)?)))
}

#[tactic(auto, unfolding(crate::specs::Texts::command_words))]
fn begin_day(values: &[&str]) -> Result<Command, WordFault>
    ensures read { IfOk result (IsReadAs (codes "begin-day") (texts values.now)) }
    ensures refused { result ≡ Err Refused → IsNoCommand (codes "begin-day") (texts values.now) }
{
    let [day] = values else {
        return Err(WordFault::NotUnderstood);
    };
    let day = read_day(day)?;
    Ok(Command::BeginDay { day })
}

#[tactic(auto, unfolding(crate::specs::Texts::command_words))]
fn branch(alloc: Global, values: &[&str]) -> Result<Command, WordFault>
    ensures read { IfOk result (IsReadAs (codes "branch") (texts values.now)) }
    ensures refused { result ≡ Err Refused → IsNoCommand (codes "branch") (texts values.now) }
{
    let [branch, pickup, name] = values else {
        return Err(WordFault::NotUnderstood);
    };
    let branch = BranchId::new(number(branch)?);
    let pickup = Days::new(number(pickup)?);
    let name = read_name(alloc, name)?;
    Ok(Command::Branch {
        branch,
        pickup,
        name,
    })
}

#[tactic(auto, unfolding(crate::specs::Texts::command_words))]
fn week(values: &[&str]) -> Result<Command, WordFault>
    ensures read { IfOk result (IsReadAs (codes "week") (texts values.now)) }
    ensures refused { result ≡ Err Refused → IsNoCommand (codes "week") (texts values.now) }
{
    let [branch, mask] = values else {
        return Err(WordFault::NotUnderstood);
    };
    let branch = BranchId::new(number(branch)?);
    let week = read_mask(mask)?;
    Ok(Command::Week { branch, week })
}

#[tactic(auto, unfolding(crate::specs::Texts::command_words))]
fn close_day(values: &[&str]) -> Result<Command, WordFault>
    ensures read { IfOk result (IsReadAs (codes "close-day") (texts values.now)) }
    ensures refused { result ≡ Err Refused → IsNoCommand (codes "close-day") (texts values.now) }
{
    let [branch, day] = values else {
        return Err(WordFault::NotUnderstood);
    };
    let branch = BranchId::new(number(branch)?);
    let day = read_day(day)?;
    Ok(Command::CloseDay { branch, day })
}

#[tactic(auto, unfolding(crate::specs::Texts::command_words))]
fn open_day(values: &[&str]) -> Result<Command, WordFault>
    ensures read { IfOk result (IsReadAs (codes "open-day") (texts values.now)) }
    ensures refused { result ≡ Err Refused → IsNoCommand (codes "open-day") (texts values.now) }
{
    let [branch, day] = values else {
        return Err(WordFault::NotUnderstood);
    };
    let branch = BranchId::new(number(branch)?);
    let day = read_day(day)?;
    Ok(Command::OpenDay { branch, day })
}

#[tactic(auto, unfolding(crate::specs::Texts::command_words))]
fn kind(values: &[&str]) -> Result<Command, WordFault>
    ensures read { IfOk result (IsReadAs (codes "kind") (texts values.now)) }
    ensures refused { result ≡ Err Refused → IsNoCommand (codes "kind") (texts values.now) }
{
    let [kind, loans, holds, debt] = values else {
        return Err(WordFault::NotUnderstood);
    };
    let kind = PatronKind::new(number(kind)?);
    let loans = Count::new(number(loans)?);
    let holds = Count::new(number(holds)?);
    let debt = read_amount(debt)?;
    Ok(Command::Kind {
        kind,
        loans,
        holds,
        debt,
    })
}

#[tactic(auto, unfolding(crate::specs::Texts::command_words))]
fn rule(values: &[&str]) -> Result<Command, WordFault>
    ensures read { IfOk result (IsReadAs (codes "rule") (texts values.now)) }
    ensures refused { result ≡ Err Refused → IsNoCommand (codes "rule") (texts values.now) }
{
    let [kind, copy_kind, period, renewals, rate, cap] = values else {
        return Err(WordFault::NotUnderstood);
    };
    let kind = PatronKind::new(number(kind)?);
    let copy_kind = CopyKind::new(number(copy_kind)?);
    let period = Days::new(number(period)?);
    let renewals = Count::new(number(renewals)?);
    let rate = read_amount(rate)?;
    let cap = read_amount(cap)?;
    Ok(Command::Rule {
        kind,
        copy_kind,
        period,
        renewals,
        rate,
        cap,
    })
}

#[tactic(auto, unfolding(crate::specs::Texts::command_words))]
fn grace(values: &[&str]) -> Result<Command, WordFault>
    ensures read { IfOk result (IsReadAs (codes "grace") (texts values.now)) }
    ensures refused { result ≡ Err Refused → IsNoCommand (codes "grace") (texts values.now) }
{
    let [kind, copy_kind, days] = values else {
        return Err(WordFault::NotUnderstood);
    };
    let kind = PatronKind::new(number(kind)?);
    let copy_kind = CopyKind::new(number(copy_kind)?);
    let days = Days::new(number(days)?);
    Ok(Command::Grace {
        kind,
        copy_kind,
        days,
    })
}

#[tactic(auto, unfolding(crate::specs::Texts::command_words))]
fn patron(alloc: Global, values: &[&str]) -> Result<Command, WordFault>
    ensures read { IfOk result (IsReadAs (codes "patron") (texts values.now)) }
    ensures refused { result ≡ Err Refused → IsNoCommand (codes "patron") (texts values.now) }
{
    let [patron, kind, card_key, name] = values else {
        return Err(WordFault::NotUnderstood);
    };
    let patron = PatronId::new(number(patron)?);
    let kind = PatronKind::new(number(kind)?);
    let card_key = read_card_key(alloc, card_key)?;
    let name = read_name(alloc, name)?;
    Ok(Command::Patron {
        patron,
        kind,
        card_key,
        name,
    })
}

#[tactic(auto, unfolding(crate::specs::Texts::command_words))]
fn acquire(alloc: Global, values: &[&str]) -> Result<Command, WordFault>
    ensures read { IfOk result (IsReadAs (codes "acquire") (texts values.now)) }
    ensures refused { result ≡ Err Refused → IsNoCommand (codes "acquire") (texts values.now) }
{
    let [copy, title, kind, home, price, text] = values else {
        return Err(WordFault::NotUnderstood);
    };
    let copy = CopyId::new(number(copy)?);
    let title = TitleId::new(number(title)?);
    let kind = CopyKind::new(number(kind)?);
    let home = BranchId::new(number(home)?);
    let price = read_amount(price)?;
    let text = read_name(alloc, text)?;
    Ok(Command::Acquire {
        copy,
        title,
        kind,
        home,
        price,
        text,
    })
}

#[tactic(auto, unfolding(crate::specs::Texts::command_words))]
fn card_key(alloc: Global, values: &[&str]) -> Result<Command, WordFault>
    ensures read { IfOk result (IsReadAs (codes "card-key") (texts values.now)) }
    ensures refused { result ≡ Err Refused → IsNoCommand (codes "card-key") (texts values.now) }
{
    let [patron, card_key] = values else {
        return Err(WordFault::NotUnderstood);
    };
    let patron = PatronId::new(number(patron)?);
    let card_key = read_card_key(alloc, card_key)?;
    Ok(Command::SetCardKey { patron, card_key })
}

#[tactic(auto, unfolding(crate::specs::Texts::command_words))]
fn amend_patron(alloc: Global, values: &[&str]) -> Result<Command, WordFault>
    ensures read { IfOk result (IsReadAs (codes "amend-patron") (texts values.now)) }
    ensures refused { result ≡ Err Refused → IsNoCommand (codes "amend-patron") (texts values.now) }
{
    let [patron, kind, name] = values else {
        return Err(WordFault::NotUnderstood);
    };
    let patron = PatronId::new(number(patron)?);
    let kind = PatronKind::new(number(kind)?);
    let name = read_name(alloc, name)?;
    Ok(Command::AmendPatron { patron, kind, name })
}

#[tactic(auto, unfolding(crate::specs::Texts::command_words))]
fn amend_branch(alloc: Global, values: &[&str]) -> Result<Command, WordFault>
    ensures read { IfOk result (IsReadAs (codes "amend-branch") (texts values.now)) }
    ensures refused { result ≡ Err Refused → IsNoCommand (codes "amend-branch") (texts values.now) }
{
    let [branch, pickup, name] = values else {
        return Err(WordFault::NotUnderstood);
    };
    let branch = BranchId::new(number(branch)?);
    let pickup = Days::new(number(pickup)?);
    let name = read_name(alloc, name)?;
    Ok(Command::AmendBranch {
        branch,
        pickup,
        name,
    })
}

#[tactic(auto, unfolding(crate::specs::Texts::command_words))]
fn amend_title(alloc: Global, values: &[&str]) -> Result<Command, WordFault>
    ensures read { IfOk result (IsReadAs (codes "amend-title") (texts values.now)) }
    ensures refused { result ≡ Err Refused → IsNoCommand (codes "amend-title") (texts values.now) }
{
    let [title, text] = values else {
        return Err(WordFault::NotUnderstood);
    };
    let title = TitleId::new(number(title)?);
    let text = read_name(alloc, text)?;
    Ok(Command::AmendTitle { title, text })
}

#[tactic(auto, unfolding(crate::specs::Texts::command_words))]
fn amend_copy(values: &[&str]) -> Result<Command, WordFault>
    ensures read { IfOk result (IsReadAs (codes "amend-copy") (texts values.now)) }
    ensures refused { result ≡ Err Refused → IsNoCommand (codes "amend-copy") (texts values.now) }
{
    let [copy, kind, price] = values else {
        return Err(WordFault::NotUnderstood);
    };
    let copy = CopyId::new(number(copy)?);
    let kind = CopyKind::new(number(kind)?);
    let price = read_amount(price)?;
    Ok(Command::AmendCopy { copy, kind, price })
}

#[tactic(auto, unfolding(crate::specs::Texts::command_words))]
fn rehome(values: &[&str]) -> Result<Command, WordFault>
    ensures read { IfOk result (IsReadAs (codes "rehome") (texts values.now)) }
    ensures refused { result ≡ Err Refused → IsNoCommand (codes "rehome") (texts values.now) }
{
    let [copy, branch] = values else {
        return Err(WordFault::NotUnderstood);
    };
    let copy = CopyId::new(number(copy)?);
    let branch = BranchId::new(number(branch)?);
    Ok(Command::Rehome { copy, branch })
}

#[tactic(auto, unfolding(crate::specs::Texts::command_words))]
fn copy_barcode(alloc: Global, values: &[&str]) -> Result<Command, WordFault>
    ensures read { IfOk result (IsReadAs (codes "copy-barcode") (texts values.now)) }
    ensures refused { result ≡ Err Refused → IsNoCommand (codes "copy-barcode") (texts values.now) }
{
    let [copy, barcode] = values else {
        return Err(WordFault::NotUnderstood);
    };
    let copy = CopyId::new(number(copy)?);
    let barcode = read_barcode(alloc, barcode)?;
    Ok(Command::CopyBarcode { copy, barcode })
}

#[tactic(auto, unfolding(crate::specs::Texts::command_words))]
fn patron_barcode(alloc: Global, values: &[&str]) -> Result<Command, WordFault>
    ensures read { IfOk result (IsReadAs (codes "patron-barcode") (texts values.now)) }
    ensures refused { result ≡ Err Refused
        → IsNoCommand (codes "patron-barcode") (texts values.now) }
{
    let [patron, barcode] = values else {
        return Err(WordFault::NotUnderstood);
    };
    let patron = PatronId::new(number(patron)?);
    let barcode = read_barcode(alloc, barcode)?;
    Ok(Command::PatronBarcode { patron, barcode })
}

#[tactic(auto, unfolding(crate::specs::Texts::command_words))]
fn drop_barcode(alloc: Global, values: &[&str]) -> Result<Command, WordFault>
    ensures read { IfOk result (IsReadAs (codes "drop-barcode") (texts values.now)) }
    ensures refused { result ≡ Err Refused → IsNoCommand (codes "drop-barcode") (texts values.now) }
{
    let [barcode] = values else {
        return Err(WordFault::NotUnderstood);
    };
    let barcode = read_barcode(alloc, barcode)?;
    Ok(Command::DropBarcode { barcode })
}

#[tactic(auto, unfolding(crate::specs::Texts::command_words))]
fn check_out(values: &[&str]) -> Result<Command, WordFault>
    ensures read { IfOk result (IsReadAs (codes "check-out") (texts values.now)) }
    ensures refused { result ≡ Err Refused → IsNoCommand (codes "check-out") (texts values.now) }
{
    let [patron, copy, branch] = values else {
        return Err(WordFault::NotUnderstood);
    };
    let patron = PatronId::new(number(patron)?);
    let copy = CopyId::new(number(copy)?);
    let branch = BranchId::new(number(branch)?);
    Ok(Command::CheckOut {
        patron,
        copy,
        branch,
    })
}

#[tactic(auto, unfolding(crate::specs::Texts::command_words))]
fn check_in(values: &[&str]) -> Result<Command, WordFault>
    ensures read { IfOk result (IsReadAs (codes "check-in") (texts values.now)) }
    ensures refused { result ≡ Err Refused → IsNoCommand (codes "check-in") (texts values.now) }
{
    let [copy, branch] = values else {
        return Err(WordFault::NotUnderstood);
    };
    let copy = CopyId::new(number(copy)?);
    let branch = BranchId::new(number(branch)?);
    Ok(Command::CheckIn { copy, branch })
}

#[tactic(auto, unfolding(crate::specs::Texts::command_words))]
fn renew(values: &[&str]) -> Result<Command, WordFault>
    ensures read { IfOk result (IsReadAs (codes "renew") (texts values.now)) }
    ensures refused { result ≡ Err Refused → IsNoCommand (codes "renew") (texts values.now) }
{
    let [loan] = values else {
        return Err(WordFault::NotUnderstood);
    };
    let loan = LoanId::new(number(loan)?);
    Ok(Command::Renew { loan })
}

#[tactic(auto, unfolding(crate::specs::Texts::command_words))]
fn place_hold(values: &[&str]) -> Result<Command, WordFault>
    ensures read { IfOk result (IsReadAs (codes "place-hold") (texts values.now)) }
    ensures refused { result ≡ Err Refused → IsNoCommand (codes "place-hold") (texts values.now) }
{
    let [patron, title, branch] = values else {
        return Err(WordFault::NotUnderstood);
    };
    let patron = PatronId::new(number(patron)?);
    let title = TitleId::new(number(title)?);
    let branch = BranchId::new(number(branch)?);
    Ok(Command::PlaceHold {
        patron,
        title,
        branch,
        first_day: None,
    })
}

#[tactic(auto, unfolding(crate::specs::Texts::command_words))]
fn place_hold_from(values: &[&str]) -> Result<Command, WordFault>
    ensures read { IfOk result (IsReadAs (codes "place-hold-from") (texts values.now)) }
    ensures refused { result ≡ Err Refused
        → IsNoCommand (codes "place-hold-from") (texts values.now) }
{
    let [patron, title, branch, day] = values else {
        return Err(WordFault::NotUnderstood);
    };
    let patron = PatronId::new(number(patron)?);
    let title = TitleId::new(number(title)?);
    let branch = BranchId::new(number(branch)?);
    let day = read_day(day)?;
    Ok(Command::PlaceHold {
        patron,
        title,
        branch,
        first_day: Some(day),
    })
}

#[tactic(auto, unfolding(crate::specs::Texts::command_words))]
fn cancel_hold(values: &[&str]) -> Result<Command, WordFault>
    ensures read { IfOk result (IsReadAs (codes "cancel-hold") (texts values.now)) }
    ensures refused { result ≡ Err Refused → IsNoCommand (codes "cancel-hold") (texts values.now) }
{
    let [hold] = values else {
        return Err(WordFault::NotUnderstood);
    };
    let hold = HoldId::new(number(hold)?);
    Ok(Command::CancelHold { hold })
}

#[tactic(auto, unfolding(crate::specs::Texts::command_words))]
fn unshelve(values: &[&str]) -> Result<Command, WordFault>
    ensures read { IfOk result (IsReadAs (codes "unshelve") (texts values.now)) }
    ensures refused { result ≡ Err Refused → IsNoCommand (codes "unshelve") (texts values.now) }
{
    let [hold] = values else {
        return Err(WordFault::NotUnderstood);
    };
    let hold = HoldId::new(number(hold)?);
    Ok(Command::Unshelve { hold })
}

#[tactic(auto, unfolding(crate::specs::Texts::command_words))]
fn unshelve_cancelled(values: &[&str]) -> Result<Command, WordFault>
    ensures read { IfOk result (IsReadAs (codes "unshelve-cancelled") (texts values.now)) }
    ensures refused { result ≡ Err Refused
        → IsNoCommand (codes "unshelve-cancelled") (texts values.now) }
{
    let [hold] = values else {
        return Err(WordFault::NotUnderstood);
    };
    let hold = HoldId::new(number(hold)?);
    Ok(Command::UnshelveCancelled { hold })
}

#[tactic(auto, unfolding(crate::specs::Texts::command_words))]
fn missing(values: &[&str]) -> Result<Command, WordFault>
    ensures read { IfOk result (IsReadAs (codes "missing") (texts values.now)) }
    ensures refused { result ≡ Err Refused → IsNoCommand (codes "missing") (texts values.now) }
{
    let [copy] = values else {
        return Err(WordFault::NotUnderstood);
    };
    let copy = CopyId::new(number(copy)?);
    Ok(Command::Missing { copy })
}

#[tactic(auto, unfolding(crate::specs::Texts::command_words))]
fn withdraw(values: &[&str]) -> Result<Command, WordFault>
    ensures read { IfOk result (IsReadAs (codes "withdraw") (texts values.now)) }
    ensures refused { result ≡ Err Refused → IsNoCommand (codes "withdraw") (texts values.now) }
{
    let [copy] = values else {
        return Err(WordFault::NotUnderstood);
    };
    let copy = CopyId::new(number(copy)?);
    Ok(Command::Withdraw { copy })
}

#[tactic(auto, unfolding(crate::specs::Texts::command_words))]
fn pay(values: &[&str]) -> Result<Command, WordFault>
    ensures read { IfOk result (IsReadAs (codes "pay") (texts values.now)) }
    ensures refused { result ≡ Err Refused → IsNoCommand (codes "pay") (texts values.now) }
{
    let [patron, amount] = values else {
        return Err(WordFault::NotUnderstood);
    };
    let patron = PatronId::new(number(patron)?);
    let amount = read_amount(amount)?;
    Ok(Command::Pay { patron, amount })
}

#[tactic(auto, unfolding(crate::specs::Texts::command_words))]
fn waive(values: &[&str]) -> Result<Command, WordFault>
    ensures read { IfOk result (IsReadAs (codes "waive") (texts values.now)) }
    ensures refused { result ≡ Err Refused → IsNoCommand (codes "waive") (texts values.now) }
{
    let [patron, amount] = values else {
        return Err(WordFault::NotUnderstood);
    };
    let patron = PatronId::new(number(patron)?);
    let amount = read_amount(amount)?;
    Ok(Command::Waive { patron, amount })
}

#[tactic(auto, unfolding(crate::specs::Texts::command_words))]
fn charge(alloc: Global, values: &[&str]) -> Result<Command, WordFault>
    ensures read { IfOk result (IsReadAs (codes "charge") (texts values.now)) }
    ensures refused { result ≡ Err Refused → IsNoCommand (codes "charge") (texts values.now) }
{
    let [patron, amount, branch, text] = values else {
        return Err(WordFault::NotUnderstood);
    };
    let patron = PatronId::new(number(patron)?);
    let amount = read_amount(amount)?;
    let branch = BranchId::new(number(branch)?);
    let text = read_name(alloc, text)?;
    Ok(Command::Charge {
        patron,
        amount,
        branch,
        text,
    })
}

#[tactic(auto, unfolding(crate::specs::Texts::command_words))]
fn pay_at(values: &[&str]) -> Result<Command, WordFault>
    ensures read { IfOk result (IsReadAs (codes "pay-at") (texts values.now)) }
    ensures refused { result ≡ Err Refused → IsNoCommand (codes "pay-at") (texts values.now) }
{
    let [patron, amount, branch] = values else {
        return Err(WordFault::NotUnderstood);
    };
    let patron = PatronId::new(number(patron)?);
    let amount = read_amount(amount)?;
    let branch = BranchId::new(number(branch)?);
    Ok(Command::PayAt {
        patron,
        amount,
        branch,
    })
}

#[tactic(auto, unfolding(crate::specs::Texts::command_words))]
fn page(values: &[&str]) -> Result<Command, WordFault>
    ensures read { IfOk result (IsReadAs (codes "page") (texts values.now)) }
    ensures refused { result ≡ Err Refused → IsNoCommand (codes "page") (texts values.now) }
{
    let [patron] = values else {
        return Err(WordFault::NotUnderstood);
    };
    let patron = PatronId::new(number(patron)?);
    Ok(Command::Page { patron })
}

/// Reads the command with this name from its words, each in its form. Anything else is
/// `NotUnderstood`.
#[tactic(auto, unfolding(crate::specs::Texts::command_words))]
pub fn read_command(alloc: Global, name: &str, values: &[&str]) -> Result<Command, WordFault>
    ensures read { IfOk result (IsReadAs name.now (texts values.now)) }
    ensures refused { result ≡ Err Refused → IsNoCommand name.now (texts values.now) }
{
    match name {
        "begin-day" => begin_day(values),
        "branch" => branch(alloc, values),
        "week" => week(values),
        "close-day" => close_day(values),
        "open-day" => open_day(values),
        "kind" => kind(values),
        "rule" => rule(values),
        "grace" => grace(values),
        "patron" => patron(alloc, values),
        "acquire" => acquire(alloc, values),
        "card-key" => card_key(alloc, values),
        "amend-patron" => amend_patron(alloc, values),
        "amend-branch" => amend_branch(alloc, values),
        "amend-title" => amend_title(alloc, values),
        "amend-copy" => amend_copy(values),
        "rehome" => rehome(values),
        "copy-barcode" => copy_barcode(alloc, values),
        "patron-barcode" => patron_barcode(alloc, values),
        "drop-barcode" => drop_barcode(alloc, values),
        "check-out" => check_out(values),
        "check-in" => check_in(values),
        "renew" => renew(values),
        "place-hold" => place_hold(values),
        "place-hold-from" => place_hold_from(values),
        "cancel-hold" => cancel_hold(values),
        "unshelve" => unshelve(values),
        "unshelve-cancelled" => unshelve_cancelled(values),
        "missing" => missing(values),
        "withdraw" => withdraw(values),
        "pay" => pay(values),
        "waive" => waive(values),
        "charge" => charge(alloc, values),
        "pay-at" => pay_at(values),
        "page" => page(values),
        "copy" => copy(values),
        "copies" => copies(values),
        "queue" => queue(values),
        "account" => account(values),
        "debts" => debts(values),
        "overdue" => overdue(values),
        "shelf" => shelf(values),
        "pulls" => pulls(values),
        "transits" => transits(values),
        "till" => till(values),
        "today" => today(values),
        "borrower" => borrower(values),
        "find-patrons" => find_patrons(alloc, values),
        "find-titles" => find_titles(alloc, values),
        "branches" => branches(values),
        "closed-days" => closed_days(values),
        "kinds" => kinds(values),
        "rules" => rules(values),
        "missing-copies" => missing_copies(values),
        "loans" => loans(values),
        "find-barcode" => find_barcode(alloc, values),
        "till-at" => till_at(values),
        _ => Err(WordFault::NotUnderstood),
    }
}

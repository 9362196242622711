//! Reading questions from their words.

ghost use Rattle.std.specs.Prelude.{◌≡◌, codes, IfOk};
ghost use Rattle.terms.specs.Commands.{IsReadAs, IsNoCommand, texts};
ghost use Rattle.terms.specs.declared.words.WordFault.TheVariants.{NotUnderstood as Refused};

use crate::command::Command;
use crate::number::{
    BranchId, CopyId, CopyKind, DayNumber, HoldId, LineId, LoanId, PatronId, PatronKind, TitleId,
};
use crate::question::Question;
use crate::words::{WordFault, number, read_barcode, read_day, read_name};
use std::alloc::Global;

#[tactic(auto, unfolding(crate::specs::Texts::command_words))]
pub(crate) fn copy(values: &[&str]) -> Result<Command, WordFault>
    ensures read { IfOk result (IsReadAs (codes "copy") (texts values.now)) }
    ensures refused { result ≡ Err Refused → IsNoCommand (codes "copy") (texts values.now) }
{
    let [copy] = values else {
        return Err(WordFault::NotUnderstood);
    };
    let copy = CopyId::new(number(copy)?);
    Ok(Command::Ask(Question::Copy { copy }))
}

#[tactic(auto, unfolding(crate::specs::Texts::command_words))]
pub(crate) fn copies(values: &[&str]) -> Result<Command, WordFault>
    ensures read { IfOk result (IsReadAs (codes "copies") (texts values.now)) }
    ensures refused { result ≡ Err Refused → IsNoCommand (codes "copies") (texts values.now) }
{
    let [title, after] = values else {
        return Err(WordFault::NotUnderstood);
    };
    let title = TitleId::new(number(title)?);
    let after = CopyId::new(number(after)?);
    Ok(Command::Ask(Question::Copies { title, after }))
}

#[tactic(auto, unfolding(crate::specs::Texts::command_words))]
pub(crate) fn queue(values: &[&str]) -> Result<Command, WordFault>
    ensures read { IfOk result (IsReadAs (codes "queue") (texts values.now)) }
    ensures refused { result ≡ Err Refused → IsNoCommand (codes "queue") (texts values.now) }
{
    let [title, after] = values else {
        return Err(WordFault::NotUnderstood);
    };
    let title = TitleId::new(number(title)?);
    let after = HoldId::new(number(after)?);
    Ok(Command::Ask(Question::Queue { title, after }))
}

#[tactic(auto, unfolding(crate::specs::Texts::command_words))]
pub(crate) fn account(values: &[&str]) -> Result<Command, WordFault>
    ensures read { IfOk result (IsReadAs (codes "account") (texts values.now)) }
    ensures refused { result ≡ Err Refused → IsNoCommand (codes "account") (texts values.now) }
{
    let [patron, after] = values else {
        return Err(WordFault::NotUnderstood);
    };
    let patron = PatronId::new(number(patron)?);
    let after = LineId::new(number(after)?);
    Ok(Command::Ask(Question::Account { patron, after }))
}

#[tactic(auto, unfolding(crate::specs::Texts::command_words))]
pub(crate) fn debts(values: &[&str]) -> Result<Command, WordFault>
    ensures read { IfOk result (IsReadAs (codes "debts") (texts values.now)) }
    ensures refused { result ≡ Err Refused → IsNoCommand (codes "debts") (texts values.now) }
{
    let [after] = values else {
        return Err(WordFault::NotUnderstood);
    };
    let after = PatronId::new(number(after)?);
    Ok(Command::Ask(Question::Debts { after }))
}

#[tactic(auto, unfolding(crate::specs::Texts::command_words))]
pub(crate) fn overdue(values: &[&str]) -> Result<Command, WordFault>
    ensures read { IfOk result (IsReadAs (codes "overdue") (texts values.now)) }
    ensures refused { result ≡ Err Refused → IsNoCommand (codes "overdue") (texts values.now) }
{
    let [branch, after] = values else {
        return Err(WordFault::NotUnderstood);
    };
    let branch = BranchId::new(number(branch)?);
    let after = LoanId::new(number(after)?);
    Ok(Command::Ask(Question::Overdue { branch, after }))
}

#[tactic(auto, unfolding(crate::specs::Texts::command_words))]
pub(crate) fn shelf(values: &[&str]) -> Result<Command, WordFault>
    ensures read { IfOk result (IsReadAs (codes "shelf") (texts values.now)) }
    ensures refused { result ≡ Err Refused → IsNoCommand (codes "shelf") (texts values.now) }
{
    let [branch, after] = values else {
        return Err(WordFault::NotUnderstood);
    };
    let branch = BranchId::new(number(branch)?);
    let after = HoldId::new(number(after)?);
    Ok(Command::Ask(Question::Shelf { branch, after }))
}

#[tactic(auto, unfolding(crate::specs::Texts::command_words))]
pub(crate) fn pulls(values: &[&str]) -> Result<Command, WordFault>
    ensures read { IfOk result (IsReadAs (codes "pulls") (texts values.now)) }
    ensures refused { result ≡ Err Refused → IsNoCommand (codes "pulls") (texts values.now) }
{
    let [branch, after] = values else {
        return Err(WordFault::NotUnderstood);
    };
    let branch = BranchId::new(number(branch)?);
    let after = HoldId::new(number(after)?);
    Ok(Command::Ask(Question::Pulls { branch, after }))
}

#[tactic(auto, unfolding(crate::specs::Texts::command_words))]
pub(crate) fn transits(values: &[&str]) -> Result<Command, WordFault>
    ensures read { IfOk result (IsReadAs (codes "transits") (texts values.now)) }
    ensures refused { result ≡ Err Refused → IsNoCommand (codes "transits") (texts values.now) }
{
    let [branch, after] = values else {
        return Err(WordFault::NotUnderstood);
    };
    let branch = BranchId::new(number(branch)?);
    let after = CopyId::new(number(after)?);
    Ok(Command::Ask(Question::Transits { branch, after }))
}

#[tactic(auto, unfolding(crate::specs::Texts::command_words))]
pub(crate) fn till(values: &[&str]) -> Result<Command, WordFault>
    ensures read { IfOk result (IsReadAs (codes "till") (texts values.now)) }
    ensures refused { result ≡ Err Refused → IsNoCommand (codes "till") (texts values.now) }
{
    let [day] = values else {
        return Err(WordFault::NotUnderstood);
    };
    let day = read_day(day)?;
    Ok(Command::Ask(Question::Till { day }))
}

#[tactic(auto, unfolding(crate::specs::Texts::command_words))]
pub(crate) fn today(values: &[&str]) -> Result<Command, WordFault>
    ensures read { IfOk result (IsReadAs (codes "today") (texts values.now)) }
    ensures refused { result ≡ Err Refused → IsNoCommand (codes "today") (texts values.now) }
{
    let [] = values else {
        return Err(WordFault::NotUnderstood);
    };
    Ok(Command::Ask(Question::Today))
}

#[tactic(auto, unfolding(crate::specs::Texts::command_words))]
pub(crate) fn borrower(values: &[&str]) -> Result<Command, WordFault>
    ensures read { IfOk result (IsReadAs (codes "borrower") (texts values.now)) }
    ensures refused { result ≡ Err Refused → IsNoCommand (codes "borrower") (texts values.now) }
{
    let [patron] = values else {
        return Err(WordFault::NotUnderstood);
    };
    let patron = PatronId::new(number(patron)?);
    Ok(Command::Ask(Question::Borrower { patron }))
}

#[tactic(auto, unfolding(crate::specs::Texts::command_words))]
pub(crate) fn find_patrons(alloc: Global, values: &[&str]) -> Result<Command, WordFault>
    ensures read { IfOk result (IsReadAs (codes "find-patrons") (texts values.now)) }
    ensures refused { result ≡ Err Refused → IsNoCommand (codes "find-patrons") (texts values.now) }
{
    let [after, text] = values else {
        return Err(WordFault::NotUnderstood);
    };
    let after = PatronId::new(number(after)?);
    let text = read_name(alloc, text)?;
    Ok(Command::Ask(Question::FindPatrons { after, text }))
}

#[tactic(auto, unfolding(crate::specs::Texts::command_words))]
pub(crate) fn find_titles(alloc: Global, values: &[&str]) -> Result<Command, WordFault>
    ensures read { IfOk result (IsReadAs (codes "find-titles") (texts values.now)) }
    ensures refused { result ≡ Err Refused → IsNoCommand (codes "find-titles") (texts values.now) }
{
    let [after, text] = values else {
        return Err(WordFault::NotUnderstood);
    };
    let after = TitleId::new(number(after)?);
    let text = read_name(alloc, text)?;
    Ok(Command::Ask(Question::FindTitles { after, text }))
}

#[tactic(auto, unfolding(crate::specs::Texts::command_words))]
pub(crate) fn branches(values: &[&str]) -> Result<Command, WordFault>
    ensures read { IfOk result (IsReadAs (codes "branches") (texts values.now)) }
    ensures refused { result ≡ Err Refused → IsNoCommand (codes "branches") (texts values.now) }
{
    let [after] = values else {
        return Err(WordFault::NotUnderstood);
    };
    let after = BranchId::new(number(after)?);
    Ok(Command::Ask(Question::Branches { after }))
}

#[tactic(auto, unfolding(crate::specs::Texts::command_words))]
pub(crate) fn closed_days(values: &[&str]) -> Result<Command, WordFault>
    ensures read { IfOk result (IsReadAs (codes "closed-days") (texts values.now)) }
    ensures refused { result ≡ Err Refused → IsNoCommand (codes "closed-days") (texts values.now) }
{
    let [branch, after] = values else {
        return Err(WordFault::NotUnderstood);
    };
    let branch = BranchId::new(number(branch)?);
    let after = DayNumber::new(number(after)?);
    Ok(Command::Ask(Question::ClosedDays { branch, after }))
}

#[tactic(auto, unfolding(crate::specs::Texts::command_words))]
pub(crate) fn kinds(values: &[&str]) -> Result<Command, WordFault>
    ensures read { IfOk result (IsReadAs (codes "kinds") (texts values.now)) }
    ensures refused { result ≡ Err Refused → IsNoCommand (codes "kinds") (texts values.now) }
{
    let [after] = values else {
        return Err(WordFault::NotUnderstood);
    };
    let after = PatronKind::new(number(after)?);
    Ok(Command::Ask(Question::Kinds { after }))
}

#[tactic(auto, unfolding(crate::specs::Texts::command_words))]
pub(crate) fn rules(values: &[&str]) -> Result<Command, WordFault>
    ensures read { IfOk result (IsReadAs (codes "rules") (texts values.now)) }
    ensures refused { result ≡ Err Refused → IsNoCommand (codes "rules") (texts values.now) }
{
    let [kind, after] = values else {
        return Err(WordFault::NotUnderstood);
    };
    let kind = PatronKind::new(number(kind)?);
    let after = CopyKind::new(number(after)?);
    Ok(Command::Ask(Question::Rules { kind, after }))
}

#[tactic(auto, unfolding(crate::specs::Texts::command_words))]
pub(crate) fn missing_copies(values: &[&str]) -> Result<Command, WordFault>
    ensures read { IfOk result (IsReadAs (codes "missing-copies") (texts values.now)) }
    ensures refused { result ≡ Err Refused → IsNoCommand (codes "missing-copies") (texts values.now) }
{
    let [after] = values else {
        return Err(WordFault::NotUnderstood);
    };
    let after = CopyId::new(number(after)?);
    Ok(Command::Ask(Question::MissingCopies { after }))
}

#[tactic(auto, unfolding(crate::specs::Texts::command_words))]
pub(crate) fn loans(values: &[&str]) -> Result<Command, WordFault>
    ensures read { IfOk result (IsReadAs (codes "loans") (texts values.now)) }
    ensures refused { result ≡ Err Refused → IsNoCommand (codes "loans") (texts values.now) }
{
    let [copy, after] = values else {
        return Err(WordFault::NotUnderstood);
    };
    let copy = CopyId::new(number(copy)?);
    let after = LoanId::new(number(after)?);
    Ok(Command::Ask(Question::Loans { copy, after }))
}

#[tactic(auto, unfolding(crate::specs::Texts::command_words))]
pub(crate) fn find_barcode(alloc: Global, values: &[&str]) -> Result<Command, WordFault>
    ensures read { IfOk result (IsReadAs (codes "find-barcode") (texts values.now)) }
    ensures refused { result ≡ Err Refused → IsNoCommand (codes "find-barcode") (texts values.now) }
{
    let [barcode] = values else {
        return Err(WordFault::NotUnderstood);
    };
    let barcode = read_barcode(alloc, barcode)?;
    Ok(Command::Ask(Question::FindBarcode { barcode }))
}

#[tactic(auto, unfolding(crate::specs::Texts::command_words))]
pub(crate) fn till_at(values: &[&str]) -> Result<Command, WordFault>
    ensures read { IfOk result (IsReadAs (codes "till-at") (texts values.now)) }
    ensures refused { result ≡ Err Refused → IsNoCommand (codes "till-at") (texts values.now) }
{
    let [branch, day] = values else {
        return Err(WordFault::NotUnderstood);
    };
    let branch = BranchId::new(number(branch)?);
    let day = read_day(day)?;
    Ok(Command::Ask(Question::TillAt { branch, day }))
}

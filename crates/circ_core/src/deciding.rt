//! Deciding commands.

ghost use Rattle.model.specs.History.{History};
ghost use Rattle.std.specs.Prelude.{◌≡◌, false};
ghost use Rattle.model.specs.Requests.{IsLegal, is_question};
ghost use Rattle.model.specs.Picture.{picture};
ghost use Rattle.circ_core.specs.Deciding.{DecidesOn};
ghost use Rattle.circ_core.specs.Views.{IsViewOf};
ghost use Rattle.circ_core.specs.Decides.{Decides};

use crate::acquire::acquire;
use crate::amend_branch::amend_branch;
use crate::amend_copy::amend_copy;
use crate::amend_patron::{amend_patron, set_card_key};
use crate::amend_title::amend_title;
use crate::barcode::{copy_barcode, drop_barcode, patron_barcode};
use crate::begin_day::begin_day;
use crate::branch::add_branch;
use crate::cancel_hold::cancel_hold;
use crate::changes::{Changes, Decision, done};
use crate::check_in::check_in;
use crate::check_out::check_out;
use crate::close_day::{close_day, open_day};
use crate::counter::{charge, pay_at};
use crate::grace::set_grace;
use crate::kind::set_kind;
use crate::missing::declare_missing;
use crate::page::page;
use crate::patron::enrol;
use crate::pay_and_waive::settle;
use crate::place_hold::place_hold;
use crate::rehome::rehome;
use crate::renew::renew;
use crate::rule::set_rule;
use crate::unshelve::{unshelve, unshelve_cancelled};
use crate::views::View;
use crate::week::set_week;
use crate::withdraw::withdraw;
use terms::{Command, Days, Refusal, RuleRow, Sort};

/// Decides a command of the desk: its refusal, or its reply with the changed rows. The view has the
/// rows that the command needs. Takes no memory.
///
/// On the view of tables left by a legal list of accepted events, it gives the refusal or the reply
/// that the list gives the command, and the changed rows make the tables those of the list with the
/// command added. Questions aren't decided: they change nothing, and are answered from the tables.
#[tactic(auto, using(crate::proofs::Decisions::decides))]
pub fn decide<'a>(view: &'a View, command: &'a Command) -> Result<Decision<'a>, Refusal>
    ensures on_rows { DecidesOn view.now command.now result }
    ensures meets { (H : History) → IsLegal H → is_question command.now ≡ false
        → IsViewOf (picture H) command.now view.now → Decides H command.now result }
{
    decide_on_rows(view, command)
}

/// Calls the command's own function on the rows of the view.
fn decide_on_rows<'a>(view: &'a View, command: &'a Command) -> Result<Decision<'a>, Refusal>
    ensures { DecidesOn view.now command.now result }
{
    match command {
        Command::BeginDay { day } => begin_day(&view.meta, *day),
        Command::Branch {
            branch,
            pickup,
            name,
        } => add_branch(&view.branch, *branch, *pickup, name),
        Command::Week { week, .. } => set_week(&view.branch, *week),
        Command::CloseDay { branch, day } => close_day(view, *branch, *day),
        Command::OpenDay { branch, day } => open_day(view, *branch, *day),
        Command::Kind {
            kind,
            loans,
            holds,
            debt,
        } => set_kind(*kind, *loans, *holds, *debt),
        Command::Rule {
            kind,
            copy_kind,
            period,
            renewals,
            rate,
            cap,
        } => {
            let rule = RuleRow {
                kind: *kind,
                copy_kind: *copy_kind,
                period: *period,
                renewals: *renewals,
                rate: *rate,
                cap: *cap,
                grace: Days::new(0),
            };
            set_rule(&view.kind, &rule)
        }
        Command::Grace {
            kind,
            copy_kind,
            days,
        } => set_grace(&view.rule, *kind, *copy_kind, *days),
        Command::Patron {
            patron,
            kind,
            card_key,
            name,
        } => enrol(view, *patron, *kind, card_key, name),
        Command::Acquire {
            copy,
            title,
            kind,
            home,
            price,
            text,
        } => acquire(view, *copy, *title, *kind, *home, *price, text),
        Command::SetCardKey { card_key, .. } => set_card_key(&view.patron, card_key),
        Command::AmendPatron { kind, name, .. } => amend_patron(view, *kind, name),
        Command::AmendBranch {
            branch,
            pickup,
            name,
        } => amend_branch(&view.branch, *branch, *pickup, name),
        Command::AmendTitle { text, .. } => amend_title(&view.title, text),
        Command::AmendCopy { kind, price, .. } => amend_copy(&view.copy, *kind, *price),
        Command::Rehome { branch, .. } => rehome(view, *branch),
        Command::CopyBarcode { copy, barcode } => copy_barcode(view, *copy, barcode),
        Command::PatronBarcode { patron, barcode } => patron_barcode(view, *patron, barcode),
        Command::DropBarcode { .. } => drop_barcode(view),
        Command::CheckOut {
            patron,
            copy,
            branch,
        } => check_out(view, *patron, *copy, *branch),
        Command::CheckIn { copy, branch } => check_in(view, *copy, *branch),
        Command::Renew { loan } => renew(view, *loan),
        Command::PlaceHold {
            patron,
            title,
            branch,
            first_day,
        } => place_hold(view, *patron, *title, *branch, *first_day),
        Command::CancelHold { .. } => cancel_hold(view),
        Command::Unshelve { .. } => unshelve(view),
        Command::UnshelveCancelled { .. } => unshelve_cancelled(view),
        Command::Missing { .. } => declare_missing(view),
        Command::Withdraw { .. } => withdraw(view),
        Command::Pay { patron, amount } => settle(view, *patron, Sort::Payment, *amount),
        Command::Waive { patron, amount } => settle(view, *patron, Sort::Waiver, *amount),
        Command::Charge {
            patron,
            amount,
            branch,
            text,
        } => charge(view, *patron, *amount, *branch, text),
        Command::PayAt {
            patron,
            amount,
            branch,
        } => pay_at(view, *patron, *amount, *branch),
        Command::Page { .. } => page(&view.patron),
        Command::Ask(_) => Ok(done(Changes::none())),
    }
}

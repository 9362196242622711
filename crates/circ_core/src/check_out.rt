//! `check-out`: lends a copy.

ghost use Rattle.std.specs.Prelude.{◌≡◌, ◌≤◌, ◌==◌, nat_le, nat_lt, is_none};
ghost use Rattle.circ_core.specs.Decided.{Decided};
ghost use Rattle.terms.specs.declared.limits.TheConstants.{LAST_NUMBER};
ghost use Rattle.terms.specs.declared.reply.Reply.TheVariants.{Lent};
ghost use Rattle.model.specs.Checks.{first_failing};
ghost use Rattle.circ_core.specs.CheckOut.{stands_at, is_of_other, filled_hold, is_wanted};
ghost use Rattle.circ_core.specs.CheckOut.{has_more, loans_allowed, check_out_checks, period_of};
ghost use Rattle.circ_core.specs.CheckOut.{renewals_of, rate_of, cap_of, grace_in, loan_due};
ghost use Rattle.circ_core.specs.CheckOut.{due_in};
ghost use Rattle.circ_core.specs.CheckOut.{check_out_rows, new_loan};
ghost use Rattle.circ_core.specs.Renew.{is_late};

use crate::changes::{Changes, Decision, RowChange};
use crate::checks::first_refusal;
use crate::condition::{is_missing, is_withdrawn};
use crate::debt::owes_too_much;
use crate::due_day::due_day;
use crate::holds::finish;
use crate::views::View;
use terms::{
    BranchId, Cents, CopyId, CopyKind, CopyRow, Count, Day, Days, HoldRow, HoldState, KindRow,
    LAST_NUMBER, LoanId, LoanRow, PatronId, PatronKind, Refusal, Reply, RuleRow,
};

/// Returns whether a copy that is neither lent nor in transit is at the branch.
fn is_at(hold: &Option<HoldRow>, copy: &Option<CopyRow>, branch: BranchId) -> bool
    ensures { result ≡ (stands_at hold.now copy.now == branch) }
{
    match hold {
        Some(row) => row.branch.number() == branch.number(),
        None => match copy {
            Some(row) => row.home.number() == branch.number(),
            None => branch.number() == 0,
        },
    }
}

fn is_anothers(hold: &Option<HoldRow>, patron: PatronId) -> bool
    ensures { result ≡ is_of_other hold.now patron }
{
    match hold {
        Some(row) => row.patron.number() != patron.number(),
        None => false,
    }
}

/// Returns the hold that the check-out fills, if any.
fn hold_to_fill(hold: &Option<HoldRow>, first: &Option<HoldRow>) -> Option<HoldRow>
    ensures { result ≡ filled_hold hold.now first.now }
{
    match hold {
        Some(row) => Some(*row),
        None => *first,
    }
}

/// Returns whether the shelved copy is for another patron, first in the queue.
fn is_for_another(hold: &Option<HoldRow>, first: &Option<HoldRow>, patron: PatronId) -> bool
    ensures { result ≡ is_wanted hold.now first.now patron }
{
    match hold {
        Some(_) => false,
        None => is_anothers(first, patron),
    }
}

fn holds_more(filled: &Option<HoldRow>, own_holds: Count) -> bool
    ensures { result ≡ has_more filled.now own_holds }
{
    match filled {
        Some(_) => 1 < own_holds.number(),
        None => 0 < own_holds.number(),
    }
}

/// Returns whether the patron has all the open loans the kind allows.
fn has_all_loans(kind: &Option<KindRow>, open_loans: Count) -> bool
    ensures { result ≡ nat_le (loans_allowed kind.now) open_loans }
{
    match kind {
        Some(row) => row.loans.number() <= open_loans.number(),
        None => true,
    }
}

/// Returns whether no loan number is left.
fn is_used_up(next_loan: LoanId) -> bool
    ensures { result ≡ nat_lt LAST_NUMBER next_loan }
{
    LAST_NUMBER < next_loan.number()
}

/// Returns the refusal of a check-out, from its table of checks.
fn check_out_refusal(
    view: &View,
    patron: PatronId,
    branch: BranchId,
    is_late: bool,
) -> Option<Refusal>
    requires { is_late ≡ is_none (loan_due view.now) }
    ensures { result ≡ first_failing (check_out_checks view.now patron branch) }
{
    let filled = hold_to_fill(&view.hold, &view.first);
    first_refusal(&[
        (Refusal::UnknownBranch, view.calendar.is_none()),
        (Refusal::UnknownPatron, view.patron.is_none()),
        (Refusal::UnknownCopy, view.copy.is_none()),
        (Refusal::CopyWithdrawn, is_withdrawn(&view.copy)),
        (Refusal::CopyMissing, is_missing(&view.copy)),
        (Refusal::OnLoan, view.loan.is_some()),
        (Refusal::InTransit, view.transit.is_some()),
        (Refusal::Elsewhere, !is_at(&view.hold, &view.copy, branch)),
        (Refusal::OnHoldShelf, is_anothers(&view.hold, patron)),
        (
            Refusal::HoldWaits,
            is_for_another(&view.hold, &view.first, patron),
        ),
        (Refusal::AlreadyHolds, holds_more(&filled, view.own_holds)),
        (Refusal::NoRule, view.rule.is_none()),
        (
            Refusal::TooManyLoans,
            has_all_loans(&view.kind, view.open_loans),
        ),
        (
            Refusal::OwesTooMuch,
            owes_too_much(&view.kind, &view.patron),
        ),
        (Refusal::NumbersUsedUp, is_used_up(view.meta.next_loan)),
        (Refusal::PastCalendar, is_late),
    ])
}

/// Returns the rule's terms; all 0 without a rule, which a check refuses.
fn terms_of(rule: &Option<RuleRow>) -> RuleRow
    ensures period { result.period ≡ period_of rule.now }
    ensures renewals { result.renewals ≡ renewals_of rule.now }
    ensures rate { result.rate ≡ rate_of rule.now }
    ensures cap { result.cap ≡ cap_of rule.now }
    ensures grace { result.grace ≡ grace_in rule.now }
{
    match rule {
        Some(row) => *row,
        None => RuleRow {
            kind: PatronKind::new(0),
            copy_kind: CopyKind::new(0),
            period: Days::new(0),
            renewals: Count::new(0),
            rate: Cents::new(0),
            cap: Cents::new(0),
            grace: Days::new(0),
        },
    }
}

/// Makes the new loan.
fn loan_for(view: &View, patron: PatronId, copy: CopyId, branch: BranchId, due: Day) -> LoanRow
    ensures { result ≡ new_loan view.now patron copy branch due }
{
    let rule = terms_of(&view.rule);
    LoanRow {
        loan: view.meta.next_loan,
        copy,
        patron,
        branch,
        made: view.meta.today,
        due,
        period: rule.period,
        renewals_left: rule.renewals,
        rate: rule.rate,
        cap: rule.cap,
        ended: None,
        grace: rule.grace,
    }
}

/// Changes the next number, the loan, and the hold it fills.
fn check_out_changes<'a>(
    view: &View,
    patron: PatronId,
    copy: CopyId,
    branch: BranchId,
    due: Day,
) -> Changes<'a>
    requires { view.now.meta.next_loan ≤ LAST_NUMBER }
    ensures { result ≡ check_out_rows view.now patron copy branch due }
{
    let loan = loan_for(view, patron, copy, branch, due);
    let mut meta = view.meta;
    meta.next_loan = LoanId::new(meta.next_loan.number() + 1);
    match hold_to_fill(&view.hold, &view.first) {
        Some(hold) => Changes::three(
            RowChange::PutMeta(meta),
            RowChange::PutLoan(loan),
            RowChange::PutHold(finish(hold, HoldState::Filled)),
        ),
        None => Changes::two(RowChange::PutMeta(meta), RowChange::PutLoan(loan)),
    }
}

/// `check-out`: refusals 10, 11, 13, 35, 34, 31, 32, 30, 33, 36, 50, 16, 37, 38, 70, in this order;
/// 39 if the calendar has no open day left, which never happens with rows the desk made.
pub(crate) fn check_out<'a>(
    view: &View,
    patron: PatronId,
    copy: CopyId,
    branch: BranchId,
) -> Result<Decision<'a>, Refusal>
    ensures { Decided (check_out_checks view.now patron branch)
        (Lent view.now.meta.next_loan (due_in view.now))
        (check_out_rows view.now patron copy branch (due_in view.now)) result }
{
    let found = due_day(&view.calendar, view.meta.today, terms_of(&view.rule).period);
    if let Some(refusal) = check_out_refusal(view, patron, branch, found.is_none()) {
        return Err(refusal);
    }
    let due = found.unwrap_or(view.meta.today);
    let loan = view.meta.next_loan;
    Ok(Decision {
        reply: Reply::Lent { loan, due },
        changes: check_out_changes(view, patron, copy, branch, due),
    })
}

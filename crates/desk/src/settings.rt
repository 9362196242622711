//! The lists of settings: branches and their closed days, kinds of patrons and their rules.

ghost use Rattle.std.specs.Prelude.{◌≡◌, ◌<◌, ◌≤◌, ℕ, IfOk, string_bytes};
ghost use Rattle.model.specs.RowLaws.{branch_row_words, kind_row_words, rule_row_words};
ghost use Rattle.desk.specs.Asking.{closed_day_words, lending_words, fine_words};
ghost use Rattle.desk.specs.Placing.{after_space};

use crate::listing::Listed;
use sqlite::Alter;
use std::alloc::Global;
use store::Store;
use terms::{
    BranchId, BranchRow, ClosedDayRow, CopyKind, Day, DayNumber, Fault, KindRow, Mask, Memory,
    PatronKind, RuleRow,
};

/// All branches.
#[derive(Clone, Copy)]
pub(crate) struct Branches;

/// Makes the row of a branch.
#[tactic(auto, unfolding(model::specs::RowLaws::branch_row_words))]
fn branch_row(alloc: Global, row: &BranchRow) -> Result<String, Memory>
    ensures { IfOk result (λ text. string_bytes text ≡ branch_row_words row.now) }
{
    let branch = row.branch;
    let pickup = row.pickup;
    let week = Mask::from(row.week);
    let name = &row.name;
    format!(in alloc; "branch {branch} pickup {pickup} week {week} name {name}")
}

impl Listed for Branches {
    ghost use Rattle.std.specs.Prelude.{◌≡◌, Some};
    ghost use Rattle.model.specs.Asking.{branches_list};
    ghost use Rattle.model.specs.Picture.{picture};

    type Row = BranchRow;

    ghost list = { λ _ H. branches_list H };

    ghost Needs = { λ _ H. Unit {0} };

    ghost number_of = { λ r. r.branch };

    ghost IsRow = { λ _ r H. (picture H).branches r.branch ≡ Some r };

    fn number(row: &BranchRow) -> u32 {
        row.branch.number()
    }

    fn batch<S: Alter>(
        &self,
        store: &mut Store<S>,
        alloc: Global,
        after: u32,
    ) -> Result<Vec<BranchRow>, Fault> {
        store.branches_after(alloc, BranchId::new(after))
    }

    fn row_text<S: Alter>(
        &self,
        _store: &mut Store<S>,
        alloc: Global,
        row: &BranchRow,
    ) -> Result<Option<String>, Fault> {
        Ok(Some(branch_row(alloc, row)?))
    }
}

/// The single closed days of a branch that come after today.
#[derive(Clone, Copy)]
pub(crate) struct ClosedDaysOf {
    pub(crate) branch: BranchId,
    pub(crate) today: Day,
}

/// Makes the row of a closed day.
#[tactic(auto, unfolding(crate::specs::Asking::closed_day_words))]
fn closed_day_row(alloc: Global, day: Day) -> Result<String, Memory>
    ensures { IfOk result (λ text. string_bytes text ≡ closed_day_words day) }
{
    format!(in alloc; "day {day}")
}

/// Returns the later of a day's number and today.
fn later_of(after: u32, today: Day) -> DayNumber
    ensures after { after ≤ result }
    ensures today { today ≤ result }
    ensures least { (day : ℕ) → after < day → today < day → result < day }
{
    if after < today.number() {
        DayNumber::new(today.number())
    } else {
        DayNumber::new(after)
    }
}

impl Listed for ClosedDaysOf {
    ghost use Rattle.std.specs.Prelude.{◌≡◌, ◌<◌, Some};
    ghost use Rattle.circ_tables.specs.ClosedDays.{closed_days};
    ghost use Rattle.model.specs.History.{today};
    ghost use Rattle.model.specs.Asking.{closed_days_list};
    ghost use Rattle.model.specs.Picture.{picture};

    type Row = ClosedDayRow;

    ghost list = { λ s H. closed_days_list H s.branch };

    ghost Needs = { λ s H. s.today ≡ today H };

    ghost number_of = { λ r. r.day };

    ghost IsRow = { λ s r H. (closed_days.rows (picture H) (s.branch, r.day) ≡ Some r)
        × (s.today < r.day) };

    fn number(row: &ClosedDayRow) -> u32 {
        row.day.number()
    }

    fn batch<S: Alter>(
        &self,
        store: &mut Store<S>,
        alloc: Global,
        after: u32,
    ) -> Result<Vec<ClosedDayRow>, Fault> {
        let from = later_of(after, self.today);
        store.closed_days_after(alloc, self.branch, from)
    }

    fn row_text<S: Alter>(
        &self,
        _store: &mut Store<S>,
        alloc: Global,
        row: &ClosedDayRow,
    ) -> Result<Option<String>, Fault> {
        Ok(Some(closed_day_row(alloc, row.day)?))
    }
}

/// All kinds of patrons.
#[derive(Clone, Copy)]
pub(crate) struct Kinds;

/// Makes the row of a kind of patron.
#[tactic(auto, unfolding(model::specs::RowLaws::kind_row_words))]
fn kind_row(alloc: Global, row: &KindRow) -> Result<String, Memory>
    ensures { IfOk result (λ text. string_bytes text ≡ kind_row_words row.now) }
{
    let KindRow {
        kind,
        loans,
        holds,
        debt,
    } = row;
    format!(in alloc; "kind {kind} loans {loans} holds {holds} debt {debt}")
}

impl Listed for Kinds {
    ghost use Rattle.std.specs.Prelude.{◌≡◌, Some};
    ghost use Rattle.model.specs.Asking.{kinds_list};
    ghost use Rattle.model.specs.Picture.{picture};

    type Row = KindRow;

    ghost list = { λ _ H. kinds_list H };

    ghost Needs = { λ _ H. Unit {0} };

    ghost number_of = { λ r. r.kind };

    ghost IsRow = { λ _ r H. (picture H).kinds r.kind ≡ Some r };

    fn number(row: &KindRow) -> u32 {
        row.kind.number()
    }

    fn batch<S: Alter>(
        &self,
        store: &mut Store<S>,
        alloc: Global,
        after: u32,
    ) -> Result<Vec<KindRow>, Fault> {
        store.kinds_after(alloc, PatronKind::new(after))
    }

    fn row_text<S: Alter>(
        &self,
        _store: &mut Store<S>,
        alloc: Global,
        row: &KindRow,
    ) -> Result<Option<String>, Fault> {
        Ok(Some(kind_row(alloc, row)?))
    }
}

/// The rules of a kind of patron.
#[derive(Clone, Copy)]
pub(crate) struct RulesOf {
    pub(crate) kind: PatronKind,
}

/// Makes the words for the loans of a rule: its kinds, its period and its renewals.
#[tactic(auto, unfolding(crate::specs::Asking::lending_words))]
fn lending_terms(alloc: Global, row: &RuleRow) -> Result<String, Memory>
    ensures { IfOk result (λ text. string_bytes text ≡ lending_words row.now) }
{
    let RuleRow {
        kind,
        copy_kind,
        period,
        renewals,
        ..
    } = row;
    format!(in alloc; "rule {kind} {copy_kind} period {period} renewals {renewals}")
}

/// Makes the words for the fines of a rule, after a space.
#[tactic(auto, unfolding(crate::specs::Placing::after_space))]
fn fine_terms(alloc: Global, row: &RuleRow) -> Result<String, Memory>
    ensures { IfOk result (λ text. string_bytes text ≡ after_space (fine_words row.now)) }
{
    let RuleRow {
        rate,
        cap,
        grace,
        ..
    } = row;
    format!(in alloc; " rate {rate} cap {cap} grace {grace}")
}

/// Makes the row of a rule.
fn rule_row(alloc: Global, row: &RuleRow) -> Result<String, Memory>
    ensures { IfOk result (λ text. string_bytes text ≡ rule_row_words row.now) }
{
    let mut text = lending_terms(alloc, row)?;
    let fines = fine_terms(alloc, row)?;
    text.push_str(&fines)?;
    Ok(text)
}

impl Listed for RulesOf {
    ghost use Rattle.std.specs.Prelude.{◌≡◌, Some};
    ghost use Rattle.model.specs.Asking.{rules_list};
    ghost use Rattle.model.specs.Picture.{picture};

    type Row = RuleRow;

    ghost list = { λ s H. rules_list H s.kind };

    ghost Needs = { λ s H. Unit {0} };

    ghost number_of = { λ r. r.copy_kind };

    ghost IsRow = { λ s r H. (picture H).rules s.kind r.copy_kind ≡ Some r };

    fn number(row: &RuleRow) -> u32 {
        row.copy_kind.number()
    }

    fn batch<S: Alter>(
        &self,
        store: &mut Store<S>,
        alloc: Global,
        after: u32,
    ) -> Result<Vec<RuleRow>, Fault> {
        store.rules_after(alloc, self.kind, CopyKind::new(after))
    }

    fn row_text<S: Alter>(
        &self,
        _store: &mut Store<S>,
        alloc: Global,
        row: &RuleRow,
    ) -> Result<Option<String>, Fault> {
        Ok(Some(rule_row(alloc, row)?))
    }
}

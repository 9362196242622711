//! `pay` and `waive`: settle part of a patron's debt.

ghost use Rattle.std.specs.Prelude.{◌≡◌, ◌≤◌, ◌-◌, Some};
ghost use Rattle.terms.specs.declared.limits.TheConstants.{LAST_NUMBER};
ghost use Rattle.terms.specs.declared.reply.Reply.TheVariants.{Owed};
ghost use Rattle.circ_core.specs.Decided.{Decided};
ghost use Rattle.circ_core.specs.Debt.{owed_by};
ghost use Rattle.circ_core.specs.PayAndWaive.{amount_checks, posted, settled};
ghost use Rattle.circ_core.specs.PayAndWaive.{settle_checks, settle_rows};

use crate::changes::{Changes, Decision, RowChange};
use crate::views::View;
use terms::{
    Cents, LAST_NUMBER, LineId, LineRow, MetaRow, PatronId, PatronPut, PatronRow, Refusal, Reply,
    Sort,
};

/// Makes the changes of a new line: its number is given, the patron owes this amount now, and the
/// line is made.
pub(crate) fn post<'a>(
    meta: &MetaRow,
    row: &'a PatronRow,
    patron: PatronId,
    sort: Sort,
    owed: Cents,
    amount: Cents,
) -> Changes<'a>
    requires { meta.now.next_line ≤ LAST_NUMBER }
    ensures { result ≡ posted meta.now row.now patron sort owed amount }
{
    let line = meta.next_line;
    let mut next = *meta;
    next.next_line = LineId::new(line.number() + 1);
    let put = PatronPut {
        patron: row.patron,
        kind: row.kind,
        card_key: &row.card_key,
        name: &row.name,
        owed,
    };
    let made = LineRow {
        line,
        patron,
        day: meta.today,
        sort,
        amount,
        loan: None,
    };
    Changes::three(
        RowChange::PutMeta(next),
        RowChange::PutPatron(put),
        RowChange::PutLine(made),
    )
}

/// Settles an amount of what a patron owes: refusals 60, 70.
pub(crate) fn settle_debt<'a>(
    meta: &MetaRow,
    row: &'a PatronRow,
    patron: PatronId,
    sort: Sort,
    amount: Cents,
) -> Result<Decision<'a>, Refusal>
    ensures { Decided (amount_checks meta.now row.now.owed amount) (Owed (row.now.owed - amount))
        (settled meta.now (Some row.now) patron sort amount) result }
{
    if amount.number() == 0 || row.owed.number() < amount.number() {
        return Err(Refusal::BadAmount);
    }
    if LAST_NUMBER < meta.next_line.number() {
        return Err(Refusal::NumbersUsedUp);
    }
    let owed = Cents::new(row.owed.number() - amount.number());
    Ok(Decision {
        reply: Reply::Owed { owed },
        changes: post(meta, row, patron, sort, owed, amount),
    })
}

/// `pay` and `waive`, by the sort of the new line: refusals 11, 60, 70.
pub(crate) fn settle<'a>(
    view: &'a View,
    patron: PatronId,
    sort: Sort,
    amount: Cents,
) -> Result<Decision<'a>, Refusal>
    ensures { Decided (settle_checks view.now amount) (Owed (owed_by view.now.patron - amount))
        (settle_rows view.now patron sort amount) result }
{
    match &view.patron {
        Some(row) => settle_debt(&view.meta, row, patron, sort, amount),
        None => Err(Refusal::UnknownPatron),
    }
}

//! Ending a copy's loan, with its fine.

ghost use Rattle.std.specs.Prelude.{◌≡◌, ◌≤◌, ◌+◌, ◌++◌, false, length};
ghost use Rattle.circ_core.specs.Ending.{fine_due, lines_for, lacks_numbers, end_rows, charged};
ghost use Rattle.circ_core.specs.Ending.{line_rows, account_rows, charge_rows};

use crate::changes::{Changes, RowChange};
use calendar::{Calendar, Day};
use terms::{
    Cents, LARGEST_SUM, LAST_NUMBER, LineId, LineRow, LoanRow, MetaRow, PatronPut, PatronRow, Sort,
};

/// Returns the fine if the loan ends today, in cents; 0 if the copy isn't on loan.
pub(crate) fn fine_of(loan: &Option<LoanRow>, calendar: &Option<Calendar>, today: Day) -> Cents
    ensures { result ≡ fine_due loan.now calendar.now today }
{
    match loan {
        Some(row) => match calendar {
            Some(days) => {
                let late = days.open_days_after(row.due, today);
                terms::fine(late, row.rate, row.cap, row.grace)
            }
            None => Cents::new(0),
        },
        None => Cents::new(0),
    }
}

/// Returns how many lines the charge needs.
fn line_count(amount: Cents) -> u32
    ensures { result ≡ lines_for amount }
{
    if amount.number() == 0 { 0 } else { 1 }
}

/// Returns whether too few line numbers are left for the fine and the price.
pub(crate) fn needs_more_numbers(meta: &MetaRow, fine: Cents, price: Cents) -> bool
    ensures { result ≡ lacks_numbers meta.now fine price }
{
    let after = u64::from(meta.next_line.number())
        + u64::from(line_count(fine))
        + u64::from(line_count(price));
    u64::from(LAST_NUMBER) + 1 < after
}

/// Adds the loan's end.
pub(crate) fn with_end<'a>(changes: Changes<'a>, loan: &Option<LoanRow>, today: Day) -> Changes<'a>
    requires { length changes ≤ 5 }
    ensures { result ≡ changes.entry ++ end_rows loan.now today }
{
    match loan {
        Some(row) => {
            let mut over = *row;
            over.ended = Some(today);
            changes.with(RowChange::PutLoan(over))
        }
        None => changes,
    }
}

/// Adds the line of a charge for the loan.
fn with_line<'a>(
    changes: Changes<'a>,
    meta: &MetaRow,
    line: LineId,
    loan: &LoanRow,
    sort: Sort,
    amount: Cents,
) -> Changes<'a>
    requires { length changes ≤ 5 }
    ensures { result ≡ changes.entry ++ line_rows meta.now line loan.now sort amount }
{
    if amount.number() == 0 {
        return changes;
    }
    changes.with(RowChange::PutLine(LineRow {
        line,
        patron: loan.patron,
        day: meta.today,
        sort,
        amount,
        loan: Some(loan.loan),
    }))
}

/// Charges the fine and the price to the patron's row.
fn charge<'a>(patron: &'a PatronRow, fine: Cents, price: Cents) -> PatronPut<'a>
    ensures { result ≡ charged patron.now fine price }
{
    let owed = patron.owed.number() + fine.number() + price.number();
    PatronPut {
        patron: patron.patron,
        kind: patron.kind,
        card_key: &patron.card_key,
        name: &patron.name,
        owed: Cents::new(owed.min(LARGEST_SUM)),
    }
}

/// Adds the changes of a borrower's account.
fn with_account<'a>(
    changes: Changes<'a>,
    meta: &MetaRow,
    patron: &'a PatronRow,
    loan: &LoanRow,
    fine: Cents,
    price: Cents,
) -> Changes<'a>
    requires room { length changes ≤ 2 }
    requires numbers { lacks_numbers meta.now fine price ≡ false }
    ensures { result ≡ changes.entry ++ account_rows meta.now patron.now loan.now fine price }
{
    if fine.number() == 0 && price.number() == 0 {
        return changes;
    }
    let first = meta.next_line;
    let second = LineId::new(first.number() + line_count(fine));
    let mut next = *meta;
    next.next_line = LineId::new(second.number() + line_count(price));
    let put = changes
        .with(RowChange::PutMeta(next))
        .with(RowChange::PutPatron(charge(patron, fine, price)));
    let fined = with_line(put, meta, first, loan, Sort::Fine, fine);
    with_line(fined, meta, second, loan, Sort::Price, price)
}

/// Adds the changes that charge the loan's borrower the fine and the price.
pub(crate) fn with_charges<'a>(
    changes: Changes<'a>,
    meta: &MetaRow,
    borrower: &'a Option<PatronRow>,
    loan: &Option<LoanRow>,
    fine: Cents,
    price: Cents,
) -> Changes<'a>
    requires room { length changes ≤ 2 }
    requires numbers { lacks_numbers meta.now fine price ≡ false }
    ensures { result ≡ changes.entry ++ charge_rows meta.now borrower.now loan.now fine price }
{
    match borrower {
        Some(patron) => match loan {
            Some(row) => with_account(changes, meta, patron, row, fine, price),
            None => changes,
        },
        None => changes,
    }
}

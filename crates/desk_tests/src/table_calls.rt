//! The calls under test, without clauses, so that a test with many of them is proved fast. Each is
//! generic over the database's store, and gives numbers instead of rows, so that its premises stay
//! small.

use calendar::Day;
use circ_tables as tables;
use circ_tables::Numbered;
use sqlite::{Alter, Connection, Transaction};
use std::alloc::Global;
use terms::{
    BranchId, CopyId, CopyKind, Fault, HoldId, HoldRow1, KeptRow, Key, LineId, LineRow, LoanId,
    LoanRow1, Owner, PatronId, PatronKind, TitleId, TransitRow,
};

pub fn make_tables<S: Alter>(tx: &mut Transaction<'_, S>) -> Result<(), Fault> {
    tables::make_tables(tx)
}

pub fn put_transit<S: Alter>(tx: &mut Transaction<'_, S>, row: &TransitRow) -> Result<(), Fault> {
    tables::put_row(tx, row)
}

/// The numbers of a page of the old holds, inside a transaction.
pub fn next_old_holds<S: Alter>(
    tx: &mut Transaction<'_, S>,
    alloc: Global,
    after: Option<u32>,
) -> Result<Vec<u32>, Fault> {
    let mut numbers = Vec::new(alloc);
    for row in &tables::next_rows_inside::<HoldRow1, S>(tx, alloc, (), after)? {
        numbers.push(row.hold.number())?;
    }
    Ok(numbers)
}

pub fn take_old_hold<S: Alter>(tx: &mut Transaction<'_, S>, hold: u32) -> Result<(), Fault> {
    tables::take_row::<HoldRow1, S>(tx, HoldId::new(hold))
}

/// The numbers of a page of the old loans, inside a transaction.
pub fn next_old_loans<S: Alter>(
    tx: &mut Transaction<'_, S>,
    alloc: Global,
    after: Option<u32>,
) -> Result<Vec<u32>, Fault> {
    let mut numbers = Vec::new(alloc);
    for row in &tables::next_rows_inside::<LoanRow1, S>(tx, alloc, (), after)? {
        numbers.push(row.loan.number())?;
    }
    Ok(numbers)
}

pub fn take_old_loan<S: Alter>(tx: &mut Transaction<'_, S>, loan: u32) -> Result<(), Fault> {
    tables::take_row::<LoanRow1, S>(tx, LoanId::new(loan))
}

/// The periods of the old rules, inside a transaction.
pub fn old_rules<S: Alter>(tx: &mut Transaction<'_, S>, alloc: Global) -> Result<Vec<u32>, Fault> {
    let mut periods = Vec::new(alloc);
    for row in &tables::rules_inside(tx, alloc)? {
        periods.push(row.period.number())?;
    }
    Ok(periods)
}

pub fn take_old_rule<S: Alter>(
    tx: &mut Transaction<'_, S>,
    kind: u32,
    copy_kind: u32,
) -> Result<(), Fault> {
    tables::take_old_rule(tx, PatronKind::new(kind), CopyKind::new(copy_kind))
}

/// The grace days of a rule.
pub fn grace_of<S: Alter>(
    conn: &mut Connection<S>,
    kind: u32,
    copy_kind: u32,
) -> Result<Option<u32>, Fault> {
    match tables::get_rule(conn, PatronKind::new(kind), CopyKind::new(copy_kind))? {
        Some(row) => Ok(Some(row.grace.number())),
        None => Ok(None),
    }
}

pub fn get_line<S: Alter>(conn: &mut Connection<S>, line: u32) -> Result<Option<u32>, Fault> {
    match tables::get_row::<LineRow, S>(conn, (), LineId::new(line))? {
        Some(row) => Ok(Some(row.line.number())),
        None => Ok(None),
    }
}

pub fn open_loan_of<S: Alter>(conn: &mut Connection<S>, copy: u32) -> Result<Option<u32>, Fault> {
    match tables::open_loan_of(conn, CopyId::new(copy))? {
        Some(row) => Ok(Some(row.loan.number())),
        None => Ok(None),
    }
}

pub fn ready_hold_of<S: Alter>(conn: &mut Connection<S>, copy: u32) -> Result<Option<u32>, Fault> {
    match tables::ready_hold_of(conn, CopyId::new(copy))? {
        Some(row) => Ok(Some(row.hold.number())),
        None => Ok(None),
    }
}

pub fn transit_for<S: Alter>(conn: &mut Connection<S>, hold: u32) -> Result<Option<u32>, Fault> {
    match tables::transit_for(conn, HoldId::new(hold))? {
        Some(row) => Ok(Some(row.copy.number())),
        None => Ok(None),
    }
}

pub fn first_in_line<S: Alter>(
    conn: &mut Connection<S>,
    title: u32,
    today: Day,
) -> Result<Option<u32>, Fault> {
    match tables::first_in_line(conn, TitleId::new(title), today)? {
        Some(row) => Ok(Some(row.hold.number())),
        None => Ok(None),
    }
}

pub fn open_loan_of_title<S: Alter>(
    conn: &mut Connection<S>,
    patron: u32,
    title: u32,
) -> Result<Option<u32>, Fault> {
    match tables::open_loan_of_title(conn, PatronId::new(patron), TitleId::new(title))? {
        Some(row) => Ok(Some(row.loan.number())),
        None => Ok(None),
    }
}

pub fn count_open_loans<S: Alter>(conn: &mut Connection<S>, patron: u32) -> Result<u32, Fault> {
    Ok(tables::count_open_loans(conn, PatronId::new(patron))?.number())
}

pub fn count_active_holds<S: Alter>(conn: &mut Connection<S>, patron: u32) -> Result<u32, Fault> {
    Ok(tables::count_active_holds(conn, PatronId::new(patron))?.number())
}

pub fn count_active_holds_on<S: Alter>(
    conn: &mut Connection<S>,
    patron: u32,
    title: u32,
) -> Result<u32, Fault> {
    Ok(tables::count_active_holds_on(conn, PatronId::new(patron), TitleId::new(title))?.number())
}

pub fn closed_days_of<S: Alter>(
    conn: &mut Connection<S>,
    alloc: Global,
    branch: u32,
) -> Result<Vec<u32>, Fault> {
    let mut numbers = Vec::new(alloc);
    for row in &tables::closed_days_of(conn, alloc, BranchId::new(branch))? {
        numbers.push(row.number())?;
    }
    Ok(numbers)
}

pub fn open_loans_by<S: Alter>(
    conn: &mut Connection<S>,
    alloc: Global,
    patron: u32,
) -> Result<Vec<u32>, Fault> {
    let mut numbers = Vec::new(alloc);
    for row in &tables::open_loans_by(conn, alloc, PatronId::new(patron))? {
        numbers.push(row.loan.number())?;
    }
    Ok(numbers)
}

pub fn active_holds_by<S: Alter>(
    conn: &mut Connection<S>,
    alloc: Global,
    patron: u32,
) -> Result<Vec<u32>, Fault> {
    let mut numbers = Vec::new(alloc);
    for row in &tables::active_holds_by(conn, alloc, PatronId::new(patron))? {
        numbers.push(row.hold.number())?;
    }
    Ok(numbers)
}

pub fn ready_holds_after<S: Alter>(
    conn: &mut Connection<S>,
    alloc: Global,
    branch: u32,
    after: u32,
) -> Result<Vec<u32>, Fault> {
    let mut numbers = Vec::new(alloc);
    let after = HoldId::new(after);
    for row in &tables::ready_holds_after(conn, alloc, BranchId::new(branch), after)? {
        numbers.push(row.hold.number())?;
    }
    Ok(numbers)
}

pub fn overdue_loans_after<S: Alter>(
    conn: &mut Connection<S>,
    alloc: Global,
    branch: u32,
    day: Day,
    after: u32,
) -> Result<Vec<u32>, Fault> {
    let mut numbers = Vec::new(alloc);
    let after = LoanId::new(after);
    for row in &tables::overdue_loans_after(conn, alloc, BranchId::new(branch), day, after)? {
        numbers.push(row.loan.number())?;
    }
    Ok(numbers)
}

pub fn lines_after<S: Alter>(
    conn: &mut Connection<S>,
    alloc: Global,
    day: Day,
    after: u32,
) -> Result<Vec<u32>, Fault> {
    let mut numbers = Vec::new(alloc);
    for row in &tables::lines_after(conn, alloc, day, LineId::new(after))? {
        numbers.push(row.line.number())?;
    }
    Ok(numbers)
}

pub fn account_lines_after<S: Alter>(
    conn: &mut Connection<S>,
    alloc: Global,
    patron: u32,
    after: u32,
) -> Result<Vec<u32>, Fault> {
    let mut numbers = Vec::new(alloc);
    let after = LineId::new(after);
    for row in &tables::account_lines_after(conn, alloc, PatronId::new(patron), after)? {
        numbers.push(row.line.number())?;
    }
    Ok(numbers)
}

pub fn copies_of_title_after<S: Alter>(
    conn: &mut Connection<S>,
    alloc: Global,
    title: u32,
    after: u32,
) -> Result<Vec<u32>, Fault> {
    let mut numbers = Vec::new(alloc);
    let after = CopyId::new(after);
    for row in &tables::copies_of_title_after(conn, alloc, TitleId::new(title), after)? {
        numbers.push(row.copy.number())?;
    }
    Ok(numbers)
}

pub fn waiting_holds_for_after<S: Alter>(
    conn: &mut Connection<S>,
    alloc: Global,
    title: u32,
    after: u32,
) -> Result<Vec<u32>, Fault> {
    let mut numbers = Vec::new(alloc);
    let after = HoldId::new(after);
    for row in &tables::waiting_holds_for_after(conn, alloc, TitleId::new(title), after)? {
        numbers.push(row.hold.number())?;
    }
    Ok(numbers)
}

pub fn waiting_holds_after<S: Alter>(
    conn: &mut Connection<S>,
    alloc: Global,
    after: u32,
) -> Result<Vec<u32>, Fault> {
    let mut numbers = Vec::new(alloc);
    for row in &tables::waiting_holds_after(conn, alloc, HoldId::new(after))? {
        numbers.push(row.hold.number())?;
    }
    Ok(numbers)
}

pub fn debtors_after<S: Alter>(
    conn: &mut Connection<S>,
    alloc: Global,
    after: u32,
) -> Result<Vec<u32>, Fault> {
    let mut numbers = Vec::new(alloc);
    for row in &tables::debtors_after(conn, alloc, PatronId::new(after))? {
        numbers.push(row.patron.number())?;
    }
    Ok(numbers)
}

pub fn transits_to_after<S: Alter>(
    conn: &mut Connection<S>,
    alloc: Global,
    branch: u32,
    after: u32,
) -> Result<Vec<u32>, Fault> {
    let mut numbers = Vec::new(alloc);
    let after = CopyId::new(after);
    for row in &tables::transits_to_after(conn, alloc, BranchId::new(branch), after)? {
        numbers.push(row.copy.number())?;
    }
    Ok(numbers)
}

pub fn least_shelved<S: Alter>(
    conn: &mut Connection<S>,
    title: u32,
    branch: u32,
) -> Result<Option<u32>, Fault> {
    match tables::least_shelved(conn, TitleId::new(title), BranchId::new(branch))? {
        Some(row) => Ok(Some(row.copy.number())),
        None => Ok(None),
    }
}

/// The numbers of a page.
pub fn next_rows<T: Numbered, S: Alter>(
    conn: &mut Connection<S>,
    alloc: Global,
    memory: T::Memory,
    after: Option<u32>,
) -> Result<Vec<u32>, Fault> {
    let mut numbers = Vec::new(alloc);
    for row in &tables::next_rows::<T, S>(conn, alloc, memory, after)? {
        numbers.push(row.number())?;
    }
    Ok(numbers)
}

/// The lengths of the keys.
fn lengths(alloc: Global, rows: &[KeptRow]) -> Result<Vec<u32>, Fault> {
    let mut lengths = Vec::new(alloc);
    for row in rows {
        match u32::try_from(row.key.as_str().len()) {
            Ok(length) => lengths.push(length)?,
            Err(_) => return Err(Fault::Stored),
        }
    }
    Ok(lengths)
}

pub fn first_kept<S: Alter>(conn: &mut Connection<S>, alloc: Global) -> Result<Vec<u32>, Fault> {
    lengths(alloc, tables::first_kept(conn, alloc)?.as_slice())
}

pub fn kept_after<S: Alter>(
    conn: &mut Connection<S>,
    alloc: Global,
    owner: Owner,
    key: &str,
) -> Result<Vec<u32>, Fault> {
    let Some(key) = Key::new(alloc, key)? else {
        return Err(Fault::Stored);
    };
    lengths(
        alloc,
        tables::kept_after(conn, alloc, owner, &key)?.as_slice(),
    )
}

pub fn kept_past<S: Alter>(
    conn: &mut Connection<S>,
    alloc: Global,
    owner: Owner,
) -> Result<Vec<u32>, Fault> {
    lengths(alloc, tables::kept_past(conn, alloc, owner)?.as_slice())
}

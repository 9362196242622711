//! The till of a day: the report, and the sums of one branch's counter.

ghost use Rattle.std.specs.Prelude.{◌≡◌, ◌++◌, ◌^◌, ◌-◌, ◌+◌, cond, min, List, IfOk};
ghost use Rattle.std.specs.Prelude.{codes, string_bytes};
ghost use Rattle.terms.specs.declared.row.LineRow.{LineRow as AnyLine};
ghost use Rattle.terms.specs.Limits.{InLimits};
ghost use Rattle.store.specs.Reads.{Looked};
ghost use Rattle.model.specs.Reports.{is_sort};
ghost use Rattle.desk.specs.Parts.{IsLast};
ghost use Rattle.desk.specs.Written.{WritesTill};
ghost use Rattle.model.specs.Reports.{till_line};
ghost use Rattle.desk.specs.Reporting.{rows_sum, capped_sums, AreSumsOf, sums_words, till_words};
ghost use Rattle.desk.specs.Reporting.{IsTillText};
ghost use Rattle.desk.specs.Reporting.{IsTillReport, ArePicked, is_noted, till_at_words};
ghost use Rattle.desk.specs.Reporting.{IsTillTextAt};

use crate::patron_page::add_line;
use crate::report_fault::ReportFault;
use crate::reports::with_newline;
use sqlite::Alter;
use std::alloc::Global;
use std::io::Write;
use store::{BATCH_ROWS, Store};
use terms::{BranchId, Day, Fault, LineId, LineRow, Memory, NoteRow, Sort, write_bytes};

/// The sums of a day's lines by sort, in cents. There are fewer than 2^32 lines, each below 2^52
/// cents, so no sum comes near 2^128.
#[derive(Clone, Copy, Debug, PartialEq, Eq)]
struct Sums {
    fines: u128,
    prices: u128,
    payments: u128,
    waivers: u128,
    charges: u128,
}

/// Returns the line's amount if it is of this sort, else 0.
fn amount_of(row: &LineRow, sort: Sort) -> u128
    ensures { result ≡ cond (is_sort row.now.sort sort) row.now.amount 0 }
{
    if row.sort == sort {
        u128::from(row.amount.number())
    } else {
        0
    }
}

/// Adds the lines of one sort to the sum.
fn added(sum: u128, rows: &[LineRow], sort: Sort) -> u128
    ensures { result ≡ min (sum + rows_sum sort rows.now) (2 ^ 128 - 1) }
{
    let mut total = sum;
    'rows: for row in rows {
        total = total.saturating_add(amount_of(row, sort));
    }
    total
}

/// Adds a batch of lines to the sums.
fn add_lines(sums: Sums, rows: &[LineRow]) -> Sums
    ensures { (before : List AnyLine) → sums ≡ capped_sums before
        → result ≡ capped_sums (before ++ rows.now) }
{
    Sums {
        fines: added(sums.fines, rows, Sort::Fine),
        prices: added(sums.prices, rows, Sort::Price),
        payments: added(sums.payments, rows, Sort::Payment),
        waivers: added(sums.waivers, rows, Sort::Waiver),
        charges: added(sums.charges, rows, Sort::Charge),
    }
}

/// Returns the last line of a full batch, which more may follow.
fn last_line(rows: &[LineRow]) -> Option<u32>
    ensures { IsLast (λ r. r.line) rows.now result }
{
    if rows.len() < BATCH_ROWS {
        return None;
    }
    match rows.last() {
        Some(row) => Some(row.line.number()),
        None => None,
    }
}

/// Which lines of a day are summed.
trait Picked {
    ghost use Rattle.std.specs.Prelude.{Bool};
    ghost use Rattle.terms.specs.Pictures.{Picture};
    ghost use Rattle.terms.specs.declared.row.LineRow.{LineRow as AnyLine};

    ghost test: { Self → Picture → AnyLine → Bool };

    /// Returns the rows that are summed. Faults 90, 91; 93, but never if all rows are within their
    /// limits.
    fn pick<S: Alter>(
        &self,
        store: &mut Store<S>,
        alloc: Global,
        rows: Vec<LineRow>,
    ) -> Result<Vec<LineRow>, Fault>
        ensures { Looked InLimits (λ P picked. ArePicked (test self.now P) rows.items picked.items)
            InLimits S.Store store.old store.new result };
}

/// All of them.
#[derive(Clone, Copy)]
struct EachLine;

impl Picked for EachLine {
    ghost use Rattle.std.specs.Prelude.{true};

    ghost test = { λ _ P r. true };

    fn pick<S: Alter>(
        &self,
        _store: &mut Store<S>,
        _alloc: Global,
        rows: Vec<LineRow>,
    ) -> Result<Vec<LineRow>, Fault> {
        Ok(rows)
    }
}

/// Those made at a branch.
#[derive(Clone, Copy)]
struct MadeAt {
    branch: BranchId,
}

/// Returns whether the note says that its line was made at the branch.
fn is_noted(branch: BranchId, note: &Option<NoteRow>) -> bool
    ensures { result ≡ is_noted branch note.now }
{
    match note {
        Some(note) => note.branch == branch,
        None => false,
    }
}

/// Returns the rows of lines that were made at the branch. Faults 90, 91; 93, but never if all rows
/// are within their limits.
fn made_at<S: Alter>(
    store: &mut Store<S>,
    alloc: Global,
    rows: &[LineRow],
    branch: BranchId,
) -> Result<Vec<LineRow>, Fault>
    ensures { Looked InLimits
        (λ P picked. ArePicked (λ r. is_noted branch (P.notes r.line)) rows.now picked.items)
        InLimits S.Store store.old store.new result }
{
    let mut picked = Vec::new(alloc);
    'rows: for row in rows {
        let note = store.note(alloc, row.line)?;
        if is_noted(branch, &note) {
            picked.push(*row)?;
        }
    }
    Ok(picked)
}

impl Picked for MadeAt {
    ghost test = { λ s P r. is_noted s.branch (P.notes r.line) };

    fn pick<S: Alter>(
        &self,
        store: &mut Store<S>,
        alloc: Global,
        rows: Vec<LineRow>,
    ) -> Result<Vec<LineRow>, Fault> {
        made_at(store, alloc, rows.as_slice(), self.branch)
    }
}

/// Sums the lines of a day that are picked, read in batches. Faults 90, 91; 93, but never if all
/// rows are within their limits.
fn sum_day<L: Picked, S: Alter>(
    store: &mut Store<S>,
    alloc: Global,
    day: Day,
    lines: &L,
) -> Result<Sums, Fault>
    ensures { Looked InLimits (λ P sums. AreSumsOf P (L.test lines.now P) day sums) InLimits
        S.Store store.old store.new result }
{
    let mut sums = Sums {
        fines: 0,
        prices: 0,
        payments: 0,
        waivers: 0,
        charges: 0,
    };
    let mut after = LineId::new(0);
    'batches: for _batch in 0..u64::MAX {
        let rows = store.lines(alloc, day, after)?;
        let last = last_line(rows.as_slice());
        let picked = lines.pick(store, alloc, rows)?;
        sums = add_lines(sums, picked.as_slice());
        match last {
            Some(last) => after = LineId::new(last),
            None => return Ok(sums),
        }
    }
    Err(Fault::Stored)
}

/// Makes the lines of the till report but that of charges.
fn till_lines(alloc: Global, day: Day, sums: Sums) -> Result<String, Memory>
    ensures { IfOk result (λ text. string_bytes text ≡ sums_words day sums) }
{
    let Sums {
        fines,
        prices,
        payments,
        waivers,
        ..
    } = sums;
    format!(in alloc;
        "till {day}\nfines    {fines:>15}\nprices   {prices:>15}\n\
         payments {payments:>15}\nwaivers  {waivers:>15}"
    )
}

/// Makes the row of charges.
fn charges_line(alloc: Global, charges: u128) -> Result<String, Memory>
    ensures { IfOk result (λ text. string_bytes text ≡ till_line (codes "charges") charges) }
{
    format!(in alloc; "charges  {charges:>15}")
}

/// Makes the lines of the till report, with the row of charges if there are any.
fn all_till_lines(alloc: Global, day: Day, sums: Sums) -> Result<String, Memory>
    ensures { IfOk result (λ text. string_bytes text ≡ till_words day sums) }
{
    let mut text = till_lines(alloc, day, sums)?;
    if 0 < sums.charges {
        let line = charges_line(alloc, sums.charges)?;
        add_line(&mut text, &line)?;
    }
    Ok(text)
}

/// Makes the lines of a branch's till.
fn till_at_lines(alloc: Global, branch: BranchId, day: Day, sums: Sums) -> Result<String, Memory>
    ensures { IfOk result (λ text. string_bytes text ≡ till_at_words branch day sums) }
{
    let Sums {
        payments,
        charges,
        ..
    } = sums;
    format!(in alloc; "till {day} at {branch}\npayments {payments:>15}\ncharges  {charges:>15}")
}

/// Makes the lines of the till of a branch on a day. Faults 90, 91; 93, but never if all rows are
/// within their limits.
pub(crate) fn till_text_at<S: Alter>(
    store: &mut Store<S>,
    alloc: Global,
    branch: BranchId,
    day: Day,
) -> Result<String, Fault>
    ensures { Looked InLimits (λ P text. IsTillTextAt P branch day (string_bytes text)) InLimits
        S.Store store.old store.new result }
{
    let sums = sum_day(store, alloc, day, &MadeAt { branch })?;
    Ok(till_at_lines(alloc, branch, day, sums)?)
}

/// Makes the lines of a day's till report. Faults 90, 91; 93, but never if all rows are within
/// their limits.
pub(crate) fn till_text<S: Alter>(
    store: &mut Store<S>,
    alloc: Global,
    day: Day,
) -> Result<String, Fault>
    ensures { Looked InLimits (λ P text. IsTillText P day (string_bytes text)) InLimits
        S.Store store.old store.new result }
{
    let sums = sum_day(store, alloc, day, &EachLine)?;
    Ok(all_till_lines(alloc, day, sums)?)
}

/// Makes the till report of a day. Faults 90, 91; 93, but never if all rows are within their
/// limits.
fn till_report<S: Alter>(store: &mut Store<S>, alloc: Global, day: Day) -> Result<String, Fault>
    ensures { Looked InLimits (λ P text. IsTillReport P day (string_bytes text)) InLimits
        S.Store store.old store.new result }
{
    Ok(with_newline(till_text(store, alloc, day)?)?)
}

/// Writes the till report of a day. Fails with 90, 91, 93 or a failed write: then a prefix may have
/// gone out.
pub(crate) fn till<S: Alter, W: Write>(
    store: &mut Store<S>,
    alloc: Global,
    day: Day,
    writer: &mut W,
) -> Result<(), ReportFault>
    ensures { WritesTill day
        S.Store store.old store.new (W.contents writer.old) (W.contents writer.new) result }
{
    let text = till_report(store, alloc, day)?;
    write_bytes(writer, text.as_bytes())?;
    Ok(())
}

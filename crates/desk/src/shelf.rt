//! The report of a branch's ready holds.

ghost use Rattle.std.specs.Prelude.{◌≡◌, IfOk, string_bytes};
ghost use Rattle.model.specs.Reports.{shelf as shelf_of};
ghost use Rattle.desk.specs.Written.{WritesReport};
ghost use Rattle.desk.specs.Reporting.{ready_words};

use crate::listing::Listed;
use crate::patron_page::title_row;
use crate::report_fault::ReportFault;
use crate::reported::{Reported, write_report};
use sqlite::Alter;
use std::alloc::Global;
use std::io::Write;
use store::Store;
use terms::{BranchId, CopyId, Day, Fault, HoldId, HoldRow, Memory, Refusal, TitleRow};

/// The header of the shelf report.
pub(crate) const SHELF_HEADER: &str = "      hold    copy  patron until      title\n";

/// Makes the row of a ready hold, with its copy, shelf limit and title.
fn shelf_row(
    alloc: Global,
    row: &HoldRow,
    copy: CopyId,
    limit_day: Day,
    title: &TitleRow,
) -> Result<String, Memory>
    ensures { IfOk result (λ text. string_bytes text
        ≡ ready_words row.now copy limit_day title.now.text) }
{
    let hold = row.hold.number();
    let copy = copy.number();
    let patron = row.patron.number();
    let text = &title.text;
    format!(in alloc; "{hold:>10} {copy:>7} {patron:>7} {limit_day} {text}")
}

/// The ready holds of a branch.
#[derive(Clone, Copy)]
pub(crate) struct ShelfAt {
    pub(crate) branch: BranchId,
}

impl Listed for ShelfAt {
    ghost use Rattle.std.specs.Prelude.{◌≡◌, Some};
    ghost use Rattle.terms.specs.declared.row.HoldState.TheVariants.{Ready};
    ghost use Rattle.model.specs.Asking.{shelf_list};
    ghost use Rattle.model.specs.Picture.{picture};

    type Row = HoldRow;

    ghost list = { λ s H. shelf_list H s.branch };

    ghost Needs = { λ s H. Unit {0} };

    ghost number_of = { λ r. r.hold };

    ghost IsRow = { λ s r H. ((picture H).holds r.hold ≡ Some r) × ((r.branch ≡ s.branch)
        × (r.state ≡ Ready)) };

    fn number(row: &HoldRow) -> u32 {
        row.hold.number()
    }

    fn batch<S: Alter>(
        &self,
        store: &mut Store<S>,
        alloc: Global,
        after: u32,
    ) -> Result<Vec<HoldRow>, Fault> {
        store.ready_holds(alloc, self.branch, HoldId::new(after))
    }

    fn row_text<S: Alter>(
        &self,
        store: &mut Store<S>,
        alloc: Global,
        row: &HoldRow,
    ) -> Result<Option<String>, Fault> {
        let Some(copy) = row.copy else {
            return Err(Fault::Stored);
        };
        let Some(limit_day) = row.limit_day else {
            return Err(Fault::Stored);
        };
        let title = title_row(store, alloc, row.title)?;
        Ok(Some(shelf_row(alloc, row, copy, limit_day, &title)?))
    }
}

impl Reported for ShelfAt {
    ghost use Rattle.desk.specs.Reporting.{ready_count};

    ghost count_words = { ready_count };

    fn count_line(alloc: Global, count: u32) -> Result<String, Memory> {
        format!(in alloc; "ready {count}\n")
    }
}

/// Writes the shelf report of a branch; 10 where there is no such branch. 90, 91, 93, or a write
/// failed: then a prefix of it may have gone out.
pub(crate) fn shelf<S: Alter, W: Write>(
    store: &mut Store<S>,
    alloc: Global,
    branch: BranchId,
    writer: &mut W,
) -> Result<(), ReportFault>
    ensures { WritesReport (λ H. shelf_of H branch) branch S.Store store.old store.new
        (W.contents writer.old) (W.contents writer.new) result }
{
    match store.branch(alloc, branch)? {
        Some(_row) => {
            let list = ShelfAt { branch };
            write_report(store, alloc, &list, SHELF_HEADER, writer)
        }
        None => Err(ReportFault::Refused(Refusal::UnknownBranch)),
    }
}

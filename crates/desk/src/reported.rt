//! Reports of lists: a header, all rows, and their number.
//!
//! Rows are read and written in batches, so that memory doesn't grow with the report.

ghost use Rattle.std.specs.Prelude.{◌≡◌};
ghost use Rattle.model.specs.Reports.{report_lines};
ghost use Rattle.desk.specs.Parts.{WritesText};
ghost use Rattle.desk.specs.Listing.{IsCounted, report_of};

use crate::listing::{Listed, tell};
use crate::report_fault::ReportFault;
use sqlite::Alter;
use std::alloc::Global;
use std::io::Write;
use store::Store;
use terms::{Memory, write_bytes};

/// A list that is a report too.
pub(crate) trait Reported: Listed {
    ghost use Rattle.std.specs.Prelude.{◌≡◌, ℕ, List, ◌++◌, ◌∷◌, [], IfOk, string_bytes};

    /// The last line of the report of so many rows.
    ghost count_words: { ℕ → List ℕ };

    /// Makes that line, with a newline.
    fn count_line(alloc: Global, count: u32) -> Result<String, Memory>
        ensures { IfOk result (λ text. string_bytes text ≡ count_words count ++ (10 ∷ [])) };
}

/// Writes the report of a list: the header, all rows, and their number. Faults 90, 91, 93, or a
/// write failed: then a prefix of it may have gone out.
pub(crate) fn write_report<L: Reported, S: Alter, W: Write>(
    store: &mut Store<S>,
    alloc: Global,
    list: &L,
    header: &str,
    writer: &mut W,
) -> Result<(), ReportFault>
    ensures { WritesText
        (λ H. L.Needs list.now H × IsCounted (L.list list.now H)
        × (header.now ≡ report_lines (L.list list.now H).head))
        (λ H. report_of (L.list list.now H) L.count_words)
        S.Store store.old store.new (W.contents writer.old) (W.contents writer.new) result }
{
    write_bytes(writer, header.as_bytes())?;
    let told = tell(store, alloc, list, 0, u32::MAX, writer)?;
    let last = L::count_line(alloc, told.rows)?;
    write_bytes(writer, last.as_bytes())?;
    Ok(())
}

//! The desk's reports, through one call.

ghost use Rattle.std.specs.Prelude.{◌≡◌, ◌++◌, ◌∷◌, [], IfOk, string_bytes};
ghost use Rattle.desk.specs.Reports.{WritesAnyReport};

use crate::desk::Desk;
use crate::report_fault::ReportFault;
use sqlite::Alter;
use std::alloc::Global;
use std::io::Write;
use terms::{BranchId, Day, Memory};

/// A report of the desk.
#[derive(Clone, Copy, Debug, PartialEq, Eq)]
pub enum Report {
    /// The overdue loans of a branch.
    Overdue(BranchId),
    /// The sums of a day's account lines.
    Till(Day),
    /// The ready holds of a branch.
    Shelf(BranchId),
}

/// Adds a newline to a line.
pub(crate) fn with_newline(mut text: String) -> Result<String, Memory>
    ensures { IfOk result (λ line. string_bytes line ≡ string_bytes text ++ (10 ∷ [])) }
{
    text.push('\n')?;
    Ok(text)
}

impl<S: Alter> Desk<S> {
    /// Writes a report; 10, with nothing written, for an unknown branch. Fails with 90, 91, 93 or a
    /// failed write: then a prefix may have gone out. The branch number is arbitrary.
    pub fn report<W: Write>(
        &mut self,
        alloc: Global,
        report: &Report,
        writer: &mut W,
    ) -> Result<(), ReportFault>
        ensures { WritesAnyReport report.now S.Store self.old self.new
            (W.contents writer.old) (W.contents writer.new) result }
    {
        match report {
            Report::Overdue(branch) => self.overdue(alloc, *branch, writer),
            Report::Till(day) => self.till(alloc, *day, writer),
            Report::Shelf(branch) => self.shelf(alloc, *branch, writer),
        }
    }
}

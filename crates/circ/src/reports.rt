//! Reports on a library.

ghost use Rattle.circ.specs.Reporting.{TellsAnyReport};

use crate::lines::{Exit, WriteFault, tell_fault, tell_reply};
use desk::{Desk, Report, ReportFault};
use sqlite::Alter;
use std::alloc::Global;
use std::io::Write;
use terms::Reply;

/// Writes a report, or `refused 10` for an unknown branch. A fault adds the line `fault N` after
/// whatever went out of the report, possibly nothing. The branch number is arbitrary.
///
/// `specs/Reporting` states the output, the exit and what the tables show. If a write fails, a
/// prefix of the output went out. If the program is stopped, the tables show what they did before.
pub fn report<S: Alter, W: Write>(
    desk: &mut Desk<S>,
    alloc: Global,
    report: &Report,
    writer: &mut W,
) -> Result<Exit, WriteFault>
    ensures { TellsAnyReport report.now S.Store desk.old desk.new
        (W.contents writer.old) (W.contents writer.new) result }
{
    match desk.report(alloc, report, writer) {
        Ok(()) => Ok(Exit::Done),
        Err(ReportFault::Refused(refusal)) => tell_reply(writer, &Reply::Refused(refusal)),
        Err(ReportFault::Faulted(fault)) => tell_fault(writer, fault),
        Err(ReportFault::NotWritten) => Err(WriteFault),
    }
}

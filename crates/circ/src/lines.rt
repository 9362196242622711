//! Output lines and exit statuses.

ghost use Rattle.std.specs.Prelude.{◌≡◌, ◌++◌};
ghost use Rattle.terms.specs.Texts.{fault_number, service_fault_number};
ghost use Rattle.terms.specs.declared.fault.Fault.TheVariants.{Memory};
ghost use Rattle.circ.specs.Exits.{status_of, exit_of};
ghost use Rattle.circ.specs.Lines.{reply_line, fault_line, not_understood_line};
ghost use Rattle.circ.specs.Lines.{no_network_line, port_line, threads_line, EndsWith};
ghost use Rattle.circ.specs.Lines.{schema_line, sound_line, unsound_line, finding_line};
ghost use Rattle.circ.specs.Lines.{old_row_line, no_keys_line, reference_words, number_words};
ghost use Rattle.circ.specs.Lines.{law_words, old_words, old_number};
ghost use Rattle.circ.specs.Lines.{finding_lines, doubled_lines, old_lines, is_nothing};
ghost use Rattle.circ_audit.specs.Findings.{number_of};
ghost use Rattle.circ.specs.Lines.{all_lines, all_exit};
ghost use Rattle.terms.specs.Writing.{Writes};

use crate::writing::write_reply;
use circ_audit::{Finding, Series, Table};
use itoa::Buffer;
use std::io::Write;
use store::OldRow;
pub use terms::WriteFault;
use terms::{Fault, Reply, SCHEMA, ServiceFault, write_bytes, write_pieces};

/// How a program ends.
#[derive(Clone, Copy, Debug, PartialEq, Eq)]
pub enum Exit {
    /// 0: done.
    Done,
    /// 2: refused, or an audit found a broken law.
    Refused,
    /// 3: a fault, or a failed write.
    Faulted,
    /// 4: words not understood.
    NotUnderstood,
}

impl Exit {
    /// Returns the exit status of the process.
    pub fn status(self) -> u8
        ensures { result ≡ status_of self }
    {
        match self {
            Exit::Done => 0,
            Exit::Refused => 2,
            Exit::Faulted => 3,
            Exit::NotUnderstood => 4,
        }
    }
}

/// Writes that the words were not understood. Takes no memory.
pub fn not_understood<W: Write>(writer: &mut W) -> Result<Exit, WriteFault>
    ensures { EndsWith Exit.NotUnderstood not_understood_line
        (W.contents writer.old) (W.contents writer.new) result }
{
    write_bytes(writer, b"words not understood\n")?;
    Ok(Exit::NotUnderstood)
}

/// Writes the line of this fault number. Takes no memory.
fn tell_number<W: Write>(writer: &mut W, fault: u32) -> Result<Exit, WriteFault>
    ensures { EndsWith Exit.Faulted (fault_line fault)
        (W.contents writer.old) (W.contents writer.new) result }
{
    write_pieces(
        writer,
        &[b"fault ", Buffer::new().format(fault).as_bytes(), b"\n"],
    )?;
    Ok(Exit::Faulted)
}

/// Writes the line of a fault. Takes no memory.
pub fn tell_fault<W: Write>(writer: &mut W, fault: Fault) -> Result<Exit, WriteFault>
    ensures { EndsWith Exit.Faulted (fault_line (fault_number fault))
        (W.contents writer.old) (W.contents writer.new) result }
{
    tell_number(writer, fault.number())
}

/// Writes the line of a hall's fault. Takes no memory.
pub(crate) fn tell_service_fault<W: Write>(
    writer: &mut W,
    fault: ServiceFault,
) -> Result<Exit, WriteFault>
    ensures { EndsWith Exit.Faulted (fault_line (service_fault_number fault))
        (W.contents writer.old) (W.contents writer.new) result }
{
    tell_number(writer, fault.number())
}

/// Writes fault 90: out of memory. Takes none.
pub fn out_of_memory<W: Write>(writer: &mut W) -> Result<Exit, WriteFault>
    ensures { EndsWith Exit.Faulted (fault_line (fault_number Memory))
        (W.contents writer.old) (W.contents writer.new) result }
{
    tell_fault(writer, Fault::Memory)
}

/// Writes that a port can't be had or no answer came. Takes no memory.
pub fn no_network<W: Write>(writer: &mut W) -> Result<Exit, WriteFault>
    ensures { EndsWith Exit.Faulted no_network_line
        (W.contents writer.old) (W.contents writer.new) result }
{
    write_bytes(writer, b"fault network\n")?;
    Ok(Exit::Faulted)
}

/// Writes that a file of keys can't be read, or is none. Takes no memory.
pub fn no_keys<W: Write>(writer: &mut W) -> Result<Exit, WriteFault>
    ensures { EndsWith Exit.Faulted no_keys_line
        (W.contents writer.old) (W.contents writer.new) result }
{
    write_bytes(writer, b"fault keys\n")?;
    Ok(Exit::Faulted)
}

/// Writes that a thread could not be made. Takes no memory.
pub(crate) fn tell_threads<W: Write>(writer: &mut W) -> Result<Exit, WriteFault>
    ensures { EndsWith Exit.Faulted threads_line
        (W.contents writer.old) (W.contents writer.new) result }
{
    write_bytes(writer, b"fault threads\n")?;
    Ok(Exit::Faulted)
}

/// Writes the port. Takes no memory.
pub(crate) fn tell_port<W: Write>(writer: &mut W, port: u16) -> Result<(), WriteFault>
    ensures { Writes (port_line port) (W.contents writer.old) (W.contents writer.new) result }
{
    write_pieces(
        writer,
        &[
            b"listening on ",
            Buffer::new().format(port).as_bytes(),
            b"\n",
        ],
    )
}

/// Writes the text of a reply. Takes no memory.
pub(crate) fn tell_reply<W: Write>(writer: &mut W, reply: &Reply) -> Result<Exit, WriteFault>
    ensures { EndsWith (exit_of reply.now) (reply_line reply.now)
        (W.contents writer.old) (W.contents writer.new) result }
{
    write_reply(writer, reply)?;
    write_bytes(writer, b"\n")?;
    match reply {
        Reply::Refused(_) => Ok(Exit::Refused),
        _ => Ok(Exit::Done),
    }
}

/// Writes that the tables are sound. Takes no memory.
pub(crate) fn tell_sound<W: Write>(writer: &mut W) -> Result<Exit, WriteFault>
    ensures { EndsWith Exit.Done sound_line
        (W.contents writer.old) (W.contents writer.new) result }
{
    write_bytes(writer, b"sound\n")?;
    Ok(Exit::Done)
}

/// Writes the newest schema, which the library has. Takes no memory.
pub(crate) fn tell_schema<W: Write>(writer: &mut W) -> Result<Exit, WriteFault>
    ensures { EndsWith Exit.Done schema_line
        (W.contents writer.old) (W.contents writer.new) result }
{
    write_pieces(
        writer,
        &[b"schema ", Buffer::new().format(SCHEMA).as_bytes(), b"\n"],
    )?;
    Ok(Exit::Done)
}

/// Writes which law is broken, and the number. Takes no memory.
fn tell_unsound<W: Write>(writer: &mut W, law: &[u8], number: u32) -> Result<Exit, WriteFault>
    ensures { EndsWith Exit.Refused (unsound_line law.now number)
        (W.contents writer.old) (W.contents writer.new) result }
{
    write_pieces(
        writer,
        &[
            b"unsound ",
            law,
            Buffer::new().format(number).as_bytes(),
            b"\n",
        ],
    )?;
    Ok(Exit::Refused)
}

/// Returns the words of a law: a row of the table names a missing one.
fn reference_words(table: Table) -> &'static [u8]
    ensures { result.now ≡ reference_words table }
{
    match table {
        Table::ClosedDays => b"reference closed_days ",
        Table::Rules => b"reference rules3 ",
        Table::Patrons => b"reference patrons ",
        Table::Copies => b"reference copies ",
        Table::Loans => b"reference loans3 ",
        Table::Holds => b"reference holds2 ",
        Table::Transits => b"reference transits ",
        Table::Lines => b"reference lines ",
        Table::Kept => b"reference kept ",
        Table::Barcodes => b"reference barcodes ",
        Table::Notes => b"reference notes ",
    }
}

/// Returns the words of a law: a number of the table is wrong.
fn number_words(series: Series) -> &'static [u8]
    ensures { result.now ≡ number_words series }
{
    match series {
        Series::Loans => b"numbers loans3 ",
        Series::Holds => b"numbers holds2 ",
        Series::Lines => b"numbers lines ",
    }
}

/// Returns the words of the law that a finding breaks.
pub fn law_words(finding: &Finding) -> &'static [u8]
    ensures { result.now ≡ law_words finding.now }
{
    match finding {
        Finding::Claims(_) => b"claims ",
        Finding::Binding(_) => b"binding ",
        Finding::Balance(_) => b"balance ",
        Finding::Reference(table, _) => reference_words(*table),
        Finding::Numbers(series, _) => number_words(*series),
    }
}

/// Returns the number that a finding is of.
pub fn number_of(finding: &Finding) -> u32
    ensures { result ≡ number_of finding.now }
{
    match finding {
        Finding::Claims(copy) => copy.number(),
        Finding::Binding(hold) => hold.number(),
        Finding::Balance(patron) => patron.number(),
        Finding::Reference(_, number) => *number,
        Finding::Numbers(_, number) => *number,
    }
}

/// Writes the finding of an audit. Takes no memory.
pub(crate) fn tell_finding<W: Write>(writer: &mut W, finding: Finding) -> Result<Exit, WriteFault>
    ensures { EndsWith Exit.Refused (finding_line finding)
        (W.contents writer.old) (W.contents writer.new) result }
{
    tell_unsound(writer, law_words(&finding), number_of(&finding))
}

/// Returns the words of the law that a row in a table of older schemas breaks.
pub fn old_words(row: &OldRow) -> &'static [u8]
    ensures { result.now ≡ old_words row.now }
{
    match row {
        OldRow::Rule(_) => b"numbers rules ",
        OldRow::Loan(_) => b"numbers loans ",
        OldRow::Hold(_) => b"numbers holds ",
    }
}

/// Returns the last number of its key.
pub fn old_number(row: &OldRow) -> u32
    ensures { result ≡ old_number row.now }
{
    match row {
        OldRow::Rule(kind) => kind.number(),
        OldRow::Loan(loan) => loan.number(),
        OldRow::Hold(hold) => hold.number(),
    }
}

/// Writes that a row stands in a table of older schemas. Takes no memory.
pub(crate) fn tell_old_row<W: Write>(writer: &mut W, row: OldRow) -> Result<Exit, WriteFault>
    ensures { EndsWith Exit.Refused (old_row_line row)
        (W.contents writer.old) (W.contents writer.new) result }
{
    tell_unsound(writer, old_words(&row), old_number(&row))
}

/// Writes the lines of findings. Takes no memory.
fn write_findings<W: Write>(writer: &mut W, broken: &[Finding]) -> Result<(), WriteFault>
    ensures { Writes (finding_lines broken.now) (W.contents writer.old) (W.contents writer.new) result }
{
    for finding in broken {
        tell_finding(writer, *finding)?;
    }
    Ok(())
}

/// Writes the lines of patrons and copies with the barcode of another one before. Takes no memory.
fn write_doubled<W: Write>(writer: &mut W, doubled: &[u32]) -> Result<(), WriteFault>
    ensures { Writes (doubled_lines doubled.now) (W.contents writer.old) (W.contents writer.new) result }
{
    for thing in doubled {
        tell_finding(writer, Finding::Reference(Table::Barcodes, *thing))?;
    }
    Ok(())
}

/// Writes the lines of both. Takes no memory.
fn write_all_broken<W: Write>(
    writer: &mut W,
    broken: &[Finding],
    doubled: &[u32],
) -> Result<(), WriteFault>
    ensures { Writes (finding_lines broken.now ++ doubled_lines doubled.now)
        (W.contents writer.old) (W.contents writer.new) result }
{
    write_findings(writer, broken)?;
    write_doubled(writer, doubled)
}

/// Writes the line of a row in a table of older schemas, if there is one. Takes no memory.
fn write_old<W: Write>(writer: &mut W, old: &Option<OldRow>) -> Result<(), WriteFault>
    ensures { Writes (old_lines old.now) (W.contents writer.old) (W.contents writer.new) result }
{
    match old {
        None => write_bytes(writer, b""),
        Some(row) => match tell_old_row(writer, *row) {
            Ok(_) => Ok(()),
            Err(fault) => Err(fault),
        },
    }
}

/// Returns whether nothing was found.
fn is_nothing(broken: &[Finding], doubled: &[u32], old: &Option<OldRow>) -> bool
    ensures { result ≡ is_nothing broken.now doubled.now old.now }
{
    broken.is_empty() && doubled.is_empty() && old.is_none()
}

/// Writes the lines of all that an audit found, or that the tables are sound. Takes no memory.
pub(crate) fn tell_all<W: Write>(
    writer: &mut W,
    broken: &[Finding],
    doubled: &[u32],
    old: &Option<OldRow>,
) -> Result<Exit, WriteFault>
    ensures { EndsWith (all_exit broken.now doubled.now old.now)
        (all_lines broken.now doubled.now old.now)
        (W.contents writer.old) (W.contents writer.new) result }
{
    if is_nothing(broken, doubled, old) {
        return tell_sound(writer);
    }
    write_all_broken(writer, broken, doubled)?;
    write_old(writer, old)?;
    Ok(Exit::Refused)
}

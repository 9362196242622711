//! Why a report wasn't written.

ghost use Rattle.std.specs.Prelude.{◌≡◌};
ghost use Rattle.desk.specs.Parts.{fault_of_text};

use terms::{Fault, Memory, Refusal, WriteFault};

/// Why a report wasn't written.
#[derive(Clone, Copy, Debug, PartialEq, Eq)]
pub enum ReportFault {
    /// It was refused, with nothing written.
    Refused(Refusal),
    /// A fault came; a prefix of the report may have gone out.
    Faulted(Fault),
    /// A write failed; a prefix of the report may have gone out.
    NotWritten,
}

impl ReportFault {
    /// Returns the fault of a text, which only want of memory keeps from growing.
    pub(crate) fn of_text(self) -> Fault
        ensures { result ≡ fault_of_text self }
    {
        match self {
            ReportFault::Faulted(fault) => fault,
            _ => Fault::Memory,
        }
    }
}

impl From<Fault> for ReportFault {
    ghost use Rattle.std.specs.Prelude.{◌≡◌};
    ghost use Rattle.desk.specs.declared.report_fault.ReportFault.TheVariants.{Faulted};

    ghost from_gives = { λ fault why. why ≡ Faulted fault };

    fn from(fault: Fault) -> ReportFault {
        ReportFault::Faulted(fault)
    }
}

impl From<Memory> for ReportFault {
    ghost use Rattle.std.specs.Prelude.{◌≡◌};
    ghost use Rattle.terms.specs.declared.fault.Fault.TheVariants.{Memory as NoMemory};
    ghost use Rattle.desk.specs.declared.report_fault.ReportFault.TheVariants.{Faulted};

    ghost from_gives = { λ _ why. why ≡ Faulted NoMemory };

    fn from(_memory: Memory) -> ReportFault {
        ReportFault::Faulted(Fault::Memory)
    }
}

impl From<WriteFault> for ReportFault {
    ghost use Rattle.std.specs.Prelude.{◌≡◌};
    ghost use Rattle.desk.specs.declared.report_fault.ReportFault.TheVariants.{NotWritten};

    ghost from_gives = { λ _ why. why ≡ NotWritten };

    fn from(_fault: WriteFault) -> ReportFault {
        ReportFault::NotWritten
    }
}

//! Why a request couldn't be answered.

ghost use Rattle.std.specs.Prelude.{◌≡◌};
ghost use Rattle.terms.specs.Texts.{fault_number, service_fault_number};
ghost use Rattle.terms.specs.declared.fault.Fault.TheVariants.{Memory as NoMemory};
ghost use Rattle.terms.specs.declared.fault.ServiceFault.TheVariants.{Met};

use std::alloc::{AllocError, AllocFailed};
use std::fmt;

/// Why a request couldn't be answered.
#[derive(Clone, Copy, Debug, PartialEq, Eq)]
pub enum Fault {
    /// 90: out of memory outside the database.
    Memory,
    /// 91: the database refused a call, for any reason.
    Database,
    /// 93: the schema is unknown, or a stored row is outside its columns or limits.
    Stored,
}

impl Fault {
    /// Returns the fault's number in replies.
    pub fn number(self) -> u32
        ensures { result ≡ fault_number self }
    {
        match self {
            Fault::Memory => 90,
            Fault::Database => 91,
            Fault::Stored => 93,
        }
    }
}

impl fmt::Display for Fault {
    ghost use Rattle.std.specs.Prelude.{Some};
    ghost use Rattle.std.specs.Fmt.{decimal};
    ghost use Rattle.terms.specs.Texts.{fault_number};

    ghost output = { λ fault. Some (decimal (fault_number fault)) };

    fn fmt<W: fmt::Write>(&self, f: &mut fmt::Formatter<W>) -> fmt::Result {
        let number = self.number();
        write!(f, "{number}")
    }
}

impl From<AllocError> for Fault {
    ghost from_gives = { λ _ fault. fault ≡ NoMemory };

    fn from(_error: AllocError) -> Fault {
        Fault::Memory
    }
}

impl<T: Drop> From<AllocFailed<T>> for Fault {
    ghost from_gives = { λ _ fault. fault ≡ NoMemory };

    fn from(_error: AllocFailed<T>) -> Fault {
        Fault::Memory
    }
}

/// Why a request to a hall has no reply.
#[derive(Clone, Copy, Debug, PartialEq, Eq)]
pub enum ServiceFault {
    /// 90, 91 or 93: this fault.
    Met(Fault),
    /// 92: the hall is closed or was not opened, or a worker's numbers are used up.
    Closed,
}

impl ServiceFault {
    /// Returns the fault's number in answers.
    pub fn number(self) -> u32
        ensures { result ≡ service_fault_number self }
    {
        match self {
            ServiceFault::Met(fault) => fault.number(),
            ServiceFault::Closed => 92,
        }
    }
}

impl From<Fault> for ServiceFault {
    ghost from_gives = { λ fault service. service ≡ Met fault };

    fn from(fault: Fault) -> ServiceFault {
        ServiceFault::Met(fault)
    }
}

impl From<AllocError> for ServiceFault {
    ghost from_gives = { λ _ service. service ≡ Met NoMemory };

    fn from(_error: AllocError) -> ServiceFault {
        ServiceFault::Met(Fault::Memory)
    }
}

impl<T: Drop> From<AllocFailed<T>> for ServiceFault {
    ghost from_gives = { λ _ service. service ≡ Met NoMemory };

    fn from(_error: AllocFailed<T>) -> ServiceFault {
        ServiceFault::Met(Fault::Memory)
    }
}

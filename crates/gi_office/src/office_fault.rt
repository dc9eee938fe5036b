ghost use Rattle.std.specs.Prelude.{◌≡◌, Some};

use std::alloc::{AllocError, AllocFailed};
use std::error::Error;
use std::fmt;

/// Why a call did not come to the desk, which is as it was.
#[derive(Clone, Copy, Debug, PartialEq, Eq)]
pub enum OfficeFault {
    /// The seat has noted 4,000,000 calls.
    SeatFull,
    /// Memory ran out.
    OutOfMemory,
}

impl From<AllocError> for OfficeFault {
    ghost use Rattle.gi_office.specs.declared.office_fault.OfficeFault.TheVariants.{OutOfMemory};

    ghost from_gives = { λ _ e. e ≡ OutOfMemory };

    fn from(_refused: AllocError) -> OfficeFault {
        OfficeFault::OutOfMemory
    }
}

impl<T: Drop> From<AllocFailed<T>> for OfficeFault {
    ghost use Rattle.gi_office.specs.declared.office_fault.OfficeFault.TheVariants.{OutOfMemory};

    ghost from_gives = { λ _ e. e ≡ OutOfMemory };

    fn from(_refused: AllocFailed<T>) -> OfficeFault {
        OfficeFault::OutOfMemory
    }
}

impl fmt::Display for OfficeFault {
    ghost use Rattle.gi_office.specs.FaultText.{office_fault_text};

    ghost output = { λ fault. Some (office_fault_text fault) };

    fn fmt<W: fmt::Write>(&self, f: &mut fmt::Formatter<W>) -> fmt::Result {
        match self {
            OfficeFault::SeatFull => f.write_str("SeatFull"),
            OfficeFault::OutOfMemory => f.write_str("OutOfMemory"),
        }
    }
}

impl Error for OfficeFault {}

ghost use Rattle.std.specs.Prelude.{◌≡◌, Some};

use std::alloc::{AllocError, AllocFailed};
use std::error::Error;
use std::fmt;

/// Why there is no office.
#[derive(Clone, Copy, Debug, PartialEq, Eq)]
pub enum OpenFault {
    /// Not 1 to 16 seats.
    SeatCount,
    /// Memory ran out.
    OutOfMemory,
}

impl From<AllocError> for OpenFault {
    ghost use Rattle.gi_office.specs.declared.open_fault.OpenFault.TheVariants.{OutOfMemory};

    ghost from_gives = { λ _ e. e ≡ OutOfMemory };

    fn from(_refused: AllocError) -> OpenFault {
        OpenFault::OutOfMemory
    }
}

impl<T: Drop> From<AllocFailed<T>> for OpenFault {
    ghost use Rattle.gi_office.specs.declared.open_fault.OpenFault.TheVariants.{OutOfMemory};

    ghost from_gives = { λ _ e. e ≡ OutOfMemory };

    fn from(_refused: AllocFailed<T>) -> OpenFault {
        OpenFault::OutOfMemory
    }
}

impl fmt::Display for OpenFault {
    ghost use Rattle.gi_office.specs.FaultText.{open_fault_text};

    ghost output = { λ fault. Some (open_fault_text fault) };

    fn fmt<W: fmt::Write>(&self, f: &mut fmt::Formatter<W>) -> fmt::Result {
        match self {
            OpenFault::SeatCount => f.write_str("SeatCount"),
            OpenFault::OutOfMemory => f.write_str("OutOfMemory"),
        }
    }
}

impl Error for OpenFault {}

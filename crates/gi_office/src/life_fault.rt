ghost use Rattle.std.specs.Prelude.{◌≡◌, Some};

use std::alloc::{AllocError, AllocFailed};
use std::error::Error;
use std::fmt;

/// Why the lives of two offices do not join.
#[derive(Clone, Copy, Debug, PartialEq, Eq)]
pub enum LifeFault {
    /// The number of the first fact that the later office was opened with and the former one did not
    /// have so at its end, or had saved and the later one was not opened with; 0 where they are of two
    /// interconnection points.
    LifeBroken(u32),
    /// Memory ran out.
    OutOfMemory,
}

impl From<AllocError> for LifeFault {
    ghost use Rattle.gi_office.specs.declared.life_fault.LifeFault.TheVariants.{OutOfMemory};

    ghost from_gives = { λ _ e. e ≡ OutOfMemory };

    fn from(_refused: AllocError) -> LifeFault {
        LifeFault::OutOfMemory
    }
}

impl<T: Drop> From<AllocFailed<T>> for LifeFault {
    ghost use Rattle.gi_office.specs.declared.life_fault.LifeFault.TheVariants.{OutOfMemory};

    ghost from_gives = { λ _ e. e ≡ OutOfMemory };

    fn from(_refused: AllocFailed<T>) -> LifeFault {
        LifeFault::OutOfMemory
    }
}

impl fmt::Display for LifeFault {
    ghost use Rattle.gi_office.specs.FaultText.{life_fault_text};

    ghost output = { λ fault. Some (life_fault_text fault) };

    fn fmt<W: fmt::Write>(&self, f: &mut fmt::Formatter<W>) -> fmt::Result {
        match self {
            LifeFault::LifeBroken(n) => write!(f, "LifeBroken {}", n),
            LifeFault::OutOfMemory => f.write_str("OutOfMemory"),
        }
    }
}

impl Error for LifeFault {}

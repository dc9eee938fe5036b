ghost use Rattle.std.specs.Prelude.{◌≡◌};

use gi_day::CalendarFault;
use std::alloc::AllocError;
use std::error::Error;
use std::fmt;

/// Why there is no world or no run. No call answers `Calendar`, as a calendar is always had; a world
/// without facts wants no memory.
#[derive(Clone, Copy, Debug, PartialEq, Eq)]
pub enum StartFault {
    /// There is no calendar.
    Calendar(CalendarFault),
    /// Memory ran out.
    OutOfMemory,
}

impl From<CalendarFault> for StartFault {
    ghost use Rattle.gi_world.specs.declared.start_fault.StartFault.TheVariants.{Calendar};

    ghost from_gives = { λ fault e. e ≡ Calendar fault };

    fn from(fault: CalendarFault) -> StartFault {
        StartFault::Calendar(fault)
    }
}

impl From<AllocError> for StartFault {
    ghost use Rattle.gi_world.specs.declared.start_fault.StartFault.TheVariants.{OutOfMemory};

    ghost from_gives = { λ _ e. e ≡ OutOfMemory };

    fn from(_refused: AllocError) -> StartFault {
        StartFault::OutOfMemory
    }
}

impl fmt::Display for StartFault {
    ghost use Rattle.std.specs.Prelude.{Some};
    ghost use Rattle.gi_world.specs.FaultText.{start_fault_text};

    ghost output = { λ fault. Some (start_fault_text fault) };

    fn fmt<W: fmt::Write>(&self, f: &mut fmt::Formatter<W>) -> fmt::Result {
        match self {
            StartFault::Calendar(fault) => write!(f, "Calendar {fault}"),
            StartFault::OutOfMemory => f.write_str("OutOfMemory"),
        }
    }
}

impl Error for StartFault {}

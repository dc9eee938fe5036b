ghost use Rattle.std.specs.Prelude.{◌≡◌, Some};

use std::alloc::AllocError;
use std::error::Error;
use std::fmt;

/// Why bytes are no script.
#[derive(Clone, Copy, Debug, PartialEq, Eq)]
pub enum ScriptFault {
    /// The first line that is not empty is not `point` and a code, or there is none.
    Point,
    /// The line of this number, from 1, is the first further one that is of no form.
    Unreadable(u64),
    /// Memory ran out.
    OutOfMemory,
}

impl From<AllocError> for ScriptFault {
    ghost use Rattle.gi_script.specs.declared.fault.ScriptFault.TheVariants.{OutOfMemory};

    ghost from_gives = { λ _ e. e ≡ OutOfMemory };

    fn from(_refused: AllocError) -> ScriptFault {
        ScriptFault::OutOfMemory
    }
}

impl fmt::Display for ScriptFault {
    ghost use Rattle.gi_script.specs.FaultText.{fault_text};

    ghost output = { λ fault. Some (fault_text fault) };

    fn fmt<W: fmt::Write>(&self, f: &mut fmt::Formatter<W>) -> fmt::Result {
        match self {
            ScriptFault::Point => f.write_str("Point"),
            ScriptFault::Unreadable(number) => write!(f, "line {number}: Unreadable"),
            ScriptFault::OutOfMemory => f.write_str("OutOfMemory"),
        }
    }
}

impl Error for ScriptFault {}

/// Why a line is no instruction, or no request.
#[derive(Clone, Copy, Debug, PartialEq, Eq)]
pub enum LineFault {
    /// The line is of no form.
    Unreadable,
    /// Memory ran out.
    OutOfMemory,
}

impl From<AllocError> for LineFault {
    ghost use Rattle.gi_script.specs.declared.fault.LineFault.TheVariants.{OutOfMemory};

    ghost from_gives = { λ _ e. e ≡ OutOfMemory };

    fn from(_refused: AllocError) -> LineFault {
        LineFault::OutOfMemory
    }
}

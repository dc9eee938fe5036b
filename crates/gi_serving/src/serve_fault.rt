ghost use Rattle.std.specs.Prelude.{◌≡◌, Some};

use gi_office::{SaveFault, Unreconciled, Unsettled};
use std::alloc::AllocError;
use std::error::Error;
use std::fmt;

/// Why two offices did not serve a script to its end, or not well.
#[derive(Clone, Copy, Debug, PartialEq, Eq)]
pub enum ServeFault {
    /// A turn that saves ended by this fault.
    Turn(SaveFault),
    /// What a seat noted is not what stands in the trail.
    Unsettled(Unsettled),
    /// The two offices are not reconciled.
    Unreconciled(Unreconciled),
    /// The writer failed.
    Write,
    /// Memory ran out.
    OutOfMemory,
}

impl From<AllocError> for ServeFault {
    ghost use Rattle.gi_serving.specs.declared.serve_fault.ServeFault.TheVariants.{OutOfMemory};

    ghost from_gives = { λ _ e. e ≡ OutOfMemory };

    fn from(_refused: AllocError) -> ServeFault {
        ServeFault::OutOfMemory
    }
}

impl fmt::Display for ServeFault {
    ghost use Rattle.gi_serving.specs.FaultText.{serve_fault_text};

    ghost output = { λ fault. Some (serve_fault_text fault) };

    fn fmt<W: fmt::Write>(&self, f: &mut fmt::Formatter<W>) -> fmt::Result {
        match self {
            ServeFault::Turn(fault) => fmt::Display::fmt(fault, f),
            ServeFault::Unsettled(fault) => fmt::Display::fmt(fault, f),
            ServeFault::Unreconciled(fault) => fmt::Display::fmt(fault, f),
            ServeFault::Write => f.write_str("Write"),
            ServeFault::OutOfMemory => f.write_str("OutOfMemory"),
        }
    }
}

impl Error for ServeFault {}

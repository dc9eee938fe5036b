ghost use Rattle.std.specs.Prelude.{Some};

use gi_office::{SaveFault, Unsettled};
use std::error::Error;
use std::fmt;

/// Why a run came to an end before its lines did, or not well.
#[derive(Clone, Copy, Debug, PartialEq, Eq)]
pub enum LiveFault {
    /// The reader failed, or has had more lines than a run takes.
    Read,
    /// The writer failed.
    Write,
    /// A turn did not save all that it had to.
    Turn(SaveFault),
    /// A line recorded a fact that was not saved.
    Unsaved,
    /// The seat has noted 4,000,000 calls.
    SeatFull,
    /// What the seat noted is not what stands in the office's trail.
    Unsettled(Unsettled),
    /// Memory ran out.
    OutOfMemory,
}

impl fmt::Display for LiveFault {
    ghost use Rattle.gi_live.specs.FaultText.{live_fault_text};

    ghost output = { λ fault. Some (live_fault_text fault) };

    fn fmt<W: fmt::Write>(&self, f: &mut fmt::Formatter<W>) -> fmt::Result {
        match self {
            LiveFault::Read => f.write_str("Read"),
            LiveFault::Write => f.write_str("Write"),
            LiveFault::Turn(fault) => fmt::Display::fmt(fault, f),
            LiveFault::Unsaved => f.write_str("Unsaved"),
            LiveFault::SeatFull => f.write_str("SeatFull"),
            LiveFault::Unsettled(fault) => fmt::Display::fmt(fault, f),
            LiveFault::OutOfMemory => f.write_str("OutOfMemory"),
        }
    }
}

impl Error for LiveFault {}

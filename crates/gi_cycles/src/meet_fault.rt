use std::error::Error;
use std::fmt;

/// Why a frozen table does not meet the peer's.
#[derive(Clone, Copy, Debug, PartialEq, Eq)]
pub enum MeetFault {
    /// The tables are for other hours.
    ShapeDiffers,
    /// Memory ran out.
    OutOfMemory,
}

impl fmt::Display for MeetFault {
    ghost use Rattle.std.specs.Prelude.{Some};
    ghost use Rattle.gi_cycles.specs.FaultText.{meet_fault_text};

    ghost output = { λ fault. Some (meet_fault_text fault) };

    fn fmt<W: fmt::Write>(&self, f: &mut fmt::Formatter<W>) -> fmt::Result {
        f.write_str(match self {
            MeetFault::ShapeDiffers => "ShapeDiffers",
            MeetFault::OutOfMemory => "OutOfMemory",
        })
    }
}

impl Error for MeetFault {}

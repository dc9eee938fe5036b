use std::error::Error;
use std::fmt;

/// Why a nomination is refused, in the order in which this is judged.
#[derive(Clone, Copy, Debug, PartialEq, Eq)]
pub enum NominationFault {
    /// It is for another interconnection point.
    WrongPoint,
    /// Its portfolio has no contract for its gas day.
    UnknownPortfolio,
    /// A line has not as many hours as the gas day, which has 23, 24 or 25.
    HourCount,
    /// It has more than 64 lines.
    TooManyLines,
    /// Two of its lines are of one counterparty and direction, whatever their priorities.
    DuplicateLine,
    /// The last cycle of its gas day is closed.
    DayOver,
    /// Its version is below `held`, the version of the one in force, from 1 to 999,999,999.
    Stale { held: u32 },
    /// Its version is `held`, that of the one in force, from 1 to 999,999,999, and its lines are
    /// others.
    Conflict { held: u32 },
}

impl fmt::Display for NominationFault {
    ghost use Rattle.std.specs.Prelude.{Some};
    ghost use Rattle.gi_nominations.specs.FaultText.{fault_text};

    ghost output = { λ fault. Some (fault_text fault) };

    fn fmt<W: fmt::Write>(&self, f: &mut fmt::Formatter<W>) -> fmt::Result {
        f.write_str(match self {
            NominationFault::WrongPoint => "WrongPoint",
            NominationFault::UnknownPortfolio => "UnknownPortfolio",
            NominationFault::HourCount => "HourCount",
            NominationFault::TooManyLines => "TooManyLines",
            NominationFault::DuplicateLine => "DuplicateLine",
            NominationFault::DayOver => "DayOver",
            NominationFault::Stale { held } => return write!(f, "Stale {held}"),
            NominationFault::Conflict { held } => return write!(f, "Conflict {held}"),
        })
    }
}

impl Error for NominationFault {}

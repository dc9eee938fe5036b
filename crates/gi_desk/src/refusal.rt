use gi_day::CalendarFault;
use gi_messages::MessageFault;
use gi_nominations::NominationFault;
use std::error::Error;
use std::fmt;

/// Why a desk refuses a call.
#[derive(Clone, Copy, Debug, PartialEq, Eq)]
pub enum Refusal {
    /// The desk is halted.
    Halted,
    /// The portfolio has no contract on any day, and 64 others have one.
    TooManyPortfolios,
    /// The calendar gives no frame of the gas day. No call answers it.
    Calendar(CalendarFault),
    /// Not 1 <= first <= last <= the gas day's hours.
    NoticeRange,
    /// A number over 1000 per mille.
    PermilleRange,
    /// The bytes are no message.
    Message(MessageFault),
    /// A message of a kind that is not for this call.
    WrongKind,
    /// The nomination is refused.
    Nomination(NominationFault),
    /// The gas day has no such cycle.
    NoSuchCycle,
    /// The cycle is closed already.
    AlreadyClosed,
    /// A later cycle of the gas day is closed: the one closed last has this number.
    OutOfOrder { last: u8 },
    /// The message is for another interconnection point.
    WrongPoint,
    /// The cycle is not closed here; for a resending, its closing is not saved.
    NotClosed,
    /// The table is for other hours than the frozen one.
    ShapeDiffers,
    /// This part does not go with one that is kept of the cycle: that is one of another number of parts,
    /// or the same part with other rows.
    PartDiffers { part: u8 },
    /// The last part that was missing: all together have a pair and direction twice, in either array.
    PartsOverlap,
    /// The last part that was missing: all together have more than 4,096 processed rows, or 8,192
    /// confirmed ones.
    TooManyRows,
    /// The confirmed table is not the lesser of the two: they differ first at this row, from 1.
    NotTheLesser { row: u32 },
    /// The cycle met another table.
    Conflict,
    /// The next fact to save has this number.
    NotNext { expected: u32 },
    /// The fact of that number is another one, or is not there.
    OtherFact,
    /// 1,000,000 facts are recorded.
    Full,
    /// Memory ran out.
    OutOfMemory,
}

impl fmt::Display for Refusal {
    ghost use Rattle.std.specs.Prelude.{Some};
    ghost use Rattle.gi_desk.specs.FaultText.{refusal_text};

    ghost output = { λ refusal. Some (refusal_text refusal) };

    fn fmt<W: fmt::Write>(&self, f: &mut fmt::Formatter<W>) -> fmt::Result {
        f.write_str(match self {
            Refusal::Halted => "Halted",
            Refusal::TooManyPortfolios => "TooManyPortfolios",
            Refusal::Calendar(fault) => return write!(f, "Calendar {fault}"),
            Refusal::NoticeRange => "NoticeRange",
            Refusal::PermilleRange => "PermilleRange",
            Refusal::Message(fault) => return write!(f, "Message {fault}"),
            Refusal::WrongKind => "WrongKind",
            Refusal::Nomination(fault) => return fmt::Display::fmt(fault, f),
            Refusal::NoSuchCycle => "NoSuchCycle",
            Refusal::AlreadyClosed => "AlreadyClosed",
            Refusal::OutOfOrder { last } => return write!(f, "OutOfOrder {last}"),
            Refusal::WrongPoint => "WrongPoint",
            Refusal::NotClosed => "NotClosed",
            Refusal::ShapeDiffers => "ShapeDiffers",
            Refusal::PartDiffers { part } => return write!(f, "PartDiffers {part}"),
            Refusal::PartsOverlap => "PartsOverlap",
            Refusal::TooManyRows => "TooManyRows",
            Refusal::NotTheLesser { row } => return write!(f, "NotTheLesser {row}"),
            Refusal::Conflict => "Conflict",
            Refusal::NotNext { expected } => return write!(f, "NotNext {expected}"),
            Refusal::OtherFact => "OtherFact",
            Refusal::Full => "Full",
            Refusal::OutOfMemory => "OutOfMemory",
        })
    }
}

impl Error for Refusal {}

ghost use Rattle.std.specs.Prelude.{◌≡◌, ◌≢◌};

use gi_day::{CalendarFault, DayFault};
use gi_messages::MessageFault;
use std::fmt;
use thiserror::Error;

/// A line of the input of `match`.
#[derive(Clone, Copy, Debug, PartialEq, Eq)]
pub enum Line {
    /// The first, the initiating operator's order.
    Order,
    /// The second, the matching operator's own table.
    Own,
}

impl fmt::Display for Line {
    ghost use Rattle.std.specs.Prelude.{Some};
    ghost use Rattle.gi_table_commands.specs.LineText.{line_text};

    ghost output = { λ line. Some (line_text line) };

    fn fmt<W: fmt::Write>(&self, f: &mut fmt::Formatter<W>) -> fmt::Result {
        f.write_str(match self {
            Line::Order => "order",
            Line::Own => "own",
        })
    }
}

/// Why `match`, `hours` or the reading of words gave up.
#[derive(Debug, Drop, PartialEq, Eq, Error)]
pub enum Fault {
    /// The words are no command of the program.
    #[error("CommandLine")]
    CommandLine,
    /// The reader failed, or was called as often as a command calls it.
    #[error("Read")]
    Read,
    /// The input has more than 67,108,864 bytes.
    #[error("TooLarge")]
    TooLarge,
    /// The input has not exactly two lines.
    #[error("Lines")]
    Lines,
    /// The line is no message.
    #[error("{0}: {1}")]
    Message(Line, MessageFault),
    /// The line is a message of another kind than DELORD.
    #[error("{0}: WrongKind")]
    WrongKind(Line),
    /// The line is a DELORD that is one part of several, and only whole ones are taken.
    #[error("{0}: Parts")]
    Parts(Line),
    /// The tables are for another point, day or cycle, or for other hours.
    #[error("ShapeDiffers")]
    ShapeDiffers,
    /// The word is no gas day.
    #[error(transparent)]
    Day(DayFault),
    /// There is no calendar or no frame of the day: no run answers it.
    #[error("Calendar {0}")]
    Calendar(CalendarFault),
    /// A writer failed. It comes after all other faults.
    #[error("Write")]
    Write,
    /// An allocation was refused.
    #[error("OutOfMemory")]
    OutOfMemory,
}

impl From<CalendarFault> for Fault {
    fn from(fault: CalendarFault) -> Fault
        ensures memory { fault ≡ CalendarFault.OutOfMemory → result ≡ Fault.OutOfMemory }
        ensures other { fault ≢ CalendarFault.OutOfMemory → result ≡ Fault.Calendar fault }
    {
        match fault {
            CalendarFault::OutOfMemory => Fault::OutOfMemory,
            _ => Fault::Calendar(fault),
        }
    }
}

impl Fault {
    ghost use Rattle.gi_table_commands.specs.Fault.{status_of};

    /// The exit status of the program: 2 for a wrong command line, 4 for want of memory, else 1.
    pub fn status(&self) -> u8
        ensures { result ≡ status_of self.now }
    {
        match self {
            Fault::CommandLine => 2,
            Fault::OutOfMemory => 4,
            _ => 1,
        }
    }
}

ghost use Rattle.std.specs.Prelude.{◌≡◌, ◌≢◌};
ghost use Rattle.gi_commands.specs.Fault.{replay_fault, script_fault, start_fault, store_fault, table_fault};

use gi_day::{CalendarFault, DayFault, GasDay};
use gi_desk::ReplayFault;
use gi_messages::MessageFault;
use gi_pairs::{CodeText, Side};
use gi_script::ScriptFault;
use gi_store::StoreFault;
use gi_table_commands::{Fault as TableFault, Line};
use gi_world::StartFault;
use std::alloc::AllocError;
use thiserror::Error;

/// Why a command gave up.
#[derive(Debug, Drop, PartialEq, Eq, Error)]
pub enum Fault {
    /// The words are no command of the program.
    #[error("CommandLine")]
    CommandLine,
    /// The reader failed, or was called as often as a command calls it.
    #[error("Read")]
    Read,
    /// The input has more than 67,108,864 bytes.
    #[error("TooLarge")]
    TooLarge,
    /// The input has not exactly two lines.
    #[error("Lines")]
    Lines,
    /// The line is no message.
    #[error("{0}: {1}")]
    Message(Line, MessageFault),
    /// The line is a message of another kind than DELORD.
    #[error("{0}: WrongKind")]
    WrongKind(Line),
    /// The line is a DELORD that is one part of several, and only whole ones are taken.
    #[error("{0}: Parts")]
    Parts(Line),
    /// The tables are for another point, day or cycle, or for other hours.
    #[error("ShapeDiffers")]
    ShapeDiffers,
    /// The word is no gas day.
    #[error(transparent)]
    Day(DayFault),
    /// There is no calendar or no frame of the day: no run answers it.
    #[error("Calendar {0}")]
    Calendar(CalendarFault),
    /// The input is no script.
    #[error(transparent)]
    Script(ScriptFault),
    /// The point of a book, or a portfolio of `explain`, is no code.
    #[error(transparent)]
    Code(CodeText),
    /// The book is none, is another's, is in use, lost facts, or failed.
    #[error(transparent)]
    Store(StoreFault),
    /// Of the two books of `serve` the one of this side is not there, and the other one has facts or cannot be
    /// read, or no book is to be made.
    #[error("MissingBook {0}")]
    MissingBook(Side),
    /// No desk records the book's fact of this number after those before it.
    #[error("BadFact {0}")]
    BadFact(u32),
    /// The books of `serve` have two pasts: this is the first cycle of which a table differs. `audit` tells what does.
    #[error("TwoPasts {0} {1}")]
    TwoPasts(GasDay, u8),
    /// The first facts of a book are not those that were expected, or it has fewer. What it has is written.
    #[error("Unexpected")]
    Unexpected,
    /// Two books differ. What differs is written.
    #[error("Differs")]
    Differs,
    /// Neither book closes a cycle. That is written.
    #[error("Empty")]
    Empty,
    /// A writer failed. It comes after all other faults, but want of memory in a script's step,
    /// `Unexpected`, `Differs` and `Empty`; what writes as it goes ends by it where its writer fails.
    #[error("Write")]
    Write,
    /// An allocation was refused.
    #[error("OutOfMemory")]
    OutOfMemory,
}

impl From<TableFault> for Fault {
    ghost from_gives = { λ fault e. e ≡ table_fault fault };

    fn from(fault: TableFault) -> Fault {
        match fault {
            TableFault::CommandLine => Fault::CommandLine,
            TableFault::Read => Fault::Read,
            TableFault::TooLarge => Fault::TooLarge,
            TableFault::Lines => Fault::Lines,
            TableFault::Message(line, fault) => Fault::Message(line, fault),
            TableFault::WrongKind(line) => Fault::WrongKind(line),
            TableFault::Parts(line) => Fault::Parts(line),
            TableFault::ShapeDiffers => Fault::ShapeDiffers,
            TableFault::Day(fault) => Fault::Day(fault),
            TableFault::Calendar(fault) => Fault::Calendar(fault),
            TableFault::Write => Fault::Write,
            TableFault::OutOfMemory => Fault::OutOfMemory,
        }
    }
}

impl From<CalendarFault> for Fault {
    fn from(fault: CalendarFault) -> Fault
        ensures memory { fault ≡ CalendarFault.OutOfMemory → result ≡ Fault.OutOfMemory }
        ensures other { fault ≢ CalendarFault.OutOfMemory → result ≡ Fault.Calendar fault }
    {
        match fault {
            CalendarFault::OutOfMemory => Fault::OutOfMemory,
            _ => Fault::Calendar(fault),
        }
    }
}

impl From<StartFault> for Fault {
    ghost from_gives = { λ fault e. e ≡ start_fault fault };

    fn from(fault: StartFault) -> Fault {
        match fault {
            StartFault::Calendar(fault) => Fault::from(fault),
            StartFault::OutOfMemory => Fault::OutOfMemory,
        }
    }
}

impl From<ScriptFault> for Fault {
    ghost from_gives = { λ fault e. e ≡ script_fault fault };

    fn from(fault: ScriptFault) -> Fault {
        match fault {
            ScriptFault::OutOfMemory => Fault::OutOfMemory,
            _ => Fault::Script(fault),
        }
    }
}

impl From<StoreFault> for Fault {
    ghost from_gives = { λ fault e. e ≡ store_fault fault };

    fn from(fault: StoreFault) -> Fault {
        match fault {
            StoreFault::OutOfMemory => Fault::OutOfMemory,
            _ => Fault::Store(fault),
        }
    }
}

impl From<ReplayFault> for Fault {
    ghost from_gives = { λ fault e. e ≡ replay_fault fault };

    fn from(fault: ReplayFault) -> Fault {
        match fault {
            ReplayFault::BadFact(n) => Fault::BadFact(n),
            ReplayFault::OutOfMemory => Fault::OutOfMemory,
        }
    }
}

impl From<CodeText> for Fault {
    ghost use Rattle.gi_commands.specs.declared.fault.Fault.TheVariants.{Code};

    ghost from_gives = { λ fault e. e ≡ Code fault };

    fn from(fault: CodeText) -> Fault {
        Fault::Code(fault)
    }
}

impl From<AllocError> for Fault {
    ghost use Rattle.gi_commands.specs.declared.fault.Fault.TheVariants.{OutOfMemory};

    ghost from_gives = { λ refused e. e ≡ OutOfMemory };

    fn from(_refused: AllocError) -> Fault {
        Fault::OutOfMemory
    }
}

impl Fault {
    ghost use Rattle.gi_commands.specs.Fault.{status_of};

    /// The exit status of the program: 2 for a wrong command line, 3 for a book that failed, is
    /// none or is missing, 4 for want of memory, else 1.
    pub fn status(&self) -> u8
        ensures { result ≡ status_of self.now }
    {
        match self {
            Fault::CommandLine => 2,
            Fault::Store(_) | Fault::MissingBook(_) | Fault::BadFact(_) => 3,
            Fault::OutOfMemory => 4,
            _ => 1,
        }
    }
}

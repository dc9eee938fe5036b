ghost use Rattle.std.specs.Prelude.{◌≡◌};
ghost use Rattle.gi_service.specs.Status.{live_status, program_status, serve_status, turn_status};

use gi_commands::Fault;
use gi_desk::Refusal;
use gi_live::LiveFault;
use gi_office::{OfficeFault, SaveFault, Unreconciled};
use gi_serving::ServeFault;
use gi_store::StoreFault;
use gi_table_commands::Fault as TableFault;
use thiserror::Error;

/// Why the program gave up.
#[derive(Debug, Drop, PartialEq, Eq, Error)]
pub enum ProgramFault {
    /// A command gave up before, or as, its text was written.
    #[error(transparent)]
    Command(Fault),
    /// Two running offices did not serve their script to its end, or not well.
    #[error(transparent)]
    Served(ServeFault),
    /// One running office came to an end before its lines did, or not well.
    #[error(transparent)]
    Live(LiveFault),
    /// What had a book in a file ended well, and then the book could not be closed.
    #[error(transparent)]
    Closed(StoreFault),
    /// What was asked for strictly was done, and so many steps were refused.
    #[error("{0} refused")]
    Refused(u64),
}

impl From<TableFault> for ProgramFault {
    ghost use Rattle.gi_commands.specs.Fault.{table_fault};
    ghost use Rattle.gi_service.specs.declared.program_fault.ProgramFault.TheVariants.{Command};

    ghost from_gives = { λ fault e. e ≡ Command (table_fault fault) };

    fn from(fault: TableFault) -> ProgramFault {
        ProgramFault::Command(Fault::from(fault))
    }
}

fn status_of_turn(fault: &SaveFault) -> u8
    ensures { result ≡ turn_status fault.now }
{
    match fault {
        SaveFault::Store(StoreFault::OutOfMemory) => 4,
        SaveFault::Store(_) => 3,
        SaveFault::Office(OfficeFault::OutOfMemory) => 4,
        SaveFault::Marked(Refusal::OutOfMemory) => 4,
        _ => 1,
    }
}

fn status_of_live(fault: &LiveFault) -> u8
    ensures { result ≡ live_status fault.now }
{
    match fault {
        LiveFault::Turn(fault) => status_of_turn(fault),
        LiveFault::OutOfMemory => 4,
        _ => 1,
    }
}

fn status_of_served(fault: &ServeFault) -> u8
    ensures { result ≡ serve_status fault.now }
{
    match fault {
        ServeFault::Turn(fault) => status_of_turn(fault),
        ServeFault::Unreconciled(Unreconciled::OutOfMemory) => 4,
        ServeFault::OutOfMemory => 4,
        _ => 1,
    }
}

impl ProgramFault {
    /// The exit status of the program: 2 for a wrong command line, 3 for a book that failed or is
    /// none, 4 for want of memory, else 1.
    pub fn status(&self) -> u8
        ensures { result ≡ program_status self.now }
    {
        match self {
            ProgramFault::Command(fault) => fault.status(),
            ProgramFault::Served(fault) => status_of_served(fault),
            ProgramFault::Live(fault) => status_of_live(fault),
            ProgramFault::Closed(StoreFault::OutOfMemory) => 4,
            ProgramFault::Closed(_) => 3,
            ProgramFault::Refused(_) => 1,
        }
    }
}

ghost use Rattle.std.specs.Prelude.{◌≡◌, Some};
ghost use Rattle.gi_facts.specs.Fault.{fault_text};

use gi_messages::parts::FieldFault;
use std::alloc::AllocError;
use std::error::Error;
use std::fmt;

/// Why bytes are read as no fact.
#[derive(Clone, Copy, Debug, PartialEq, Eq)]
pub enum FactFault {
    /// The bytes are no JSON text of a fact.
    NotAFact,
    /// Memory ran out.
    OutOfMemory,
}

impl From<FieldFault> for FactFault {
    ghost use Rattle.gi_facts.specs.Fault.{fault_of};

    ghost from_gives = { λ fault e. e ≡ fault_of fault };

    fn from(fault: FieldFault) -> FactFault {
        match fault {
            FieldFault::Wrong(_) => FactFault::NotAFact,
            FieldFault::OutOfMemory => FactFault::OutOfMemory,
        }
    }
}

impl From<AllocError> for FactFault {
    ghost use Rattle.gi_facts.specs.declared.fact_fault.FactFault.TheVariants.{OutOfMemory};

    ghost from_gives = { λ _ e. e ≡ OutOfMemory };

    fn from(_refused: AllocError) -> FactFault {
        FactFault::OutOfMemory
    }
}

impl fmt::Display for FactFault {
    ghost output = { λ fault. Some (fault_text fault) };

    fn fmt<W: fmt::Write>(&self, f: &mut fmt::Formatter<W>) -> fmt::Result {
        f.write_str(match self {
            FactFault::NotAFact => "NotAFact",
            FactFault::OutOfMemory => "OutOfMemory",
        })
    }
}

impl Error for FactFault {}

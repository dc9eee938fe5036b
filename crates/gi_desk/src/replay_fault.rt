ghost use Rattle.std.specs.Prelude.{◌≡◌};

use std::alloc::AllocError;
use std::error::Error;
use std::fmt;

/// Why facts make no desk.
#[derive(Clone, Copy, Debug, PartialEq, Eq)]
pub enum ReplayFault {
    /// Fact number `n`, from 1, is not one that a desk would record after those before it, or it is
    /// the 1,000,001st.
    BadFact(u32),
    /// Memory ran out.
    OutOfMemory,
}

impl From<AllocError> for ReplayFault {
    ghost use Rattle.gi_desk.specs.declared.replay_fault.ReplayFault.TheVariants.{OutOfMemory};

    ghost from_gives = { λ _ e. e ≡ OutOfMemory };

    fn from(_refused: AllocError) -> ReplayFault {
        ReplayFault::OutOfMemory
    }
}

impl fmt::Display for ReplayFault {
    ghost use Rattle.std.specs.Prelude.{Some};
    ghost use Rattle.gi_desk.specs.FaultText.{replay_fault_text};

    ghost output = { λ fault. Some (replay_fault_text fault) };

    fn fmt<W: fmt::Write>(&self, f: &mut fmt::Formatter<W>) -> fmt::Result {
        match self {
            ReplayFault::BadFact(n) => write!(f, "BadFact {n}"),
            ReplayFault::OutOfMemory => f.write_str("OutOfMemory"),
        }
    }
}

impl Error for ReplayFault {}

ghost use Rattle.std.specs.Prelude.{◌≡◌, Some};

use gi_pairs::Side;
use std::alloc::AllocError;
use std::error::Error;
use std::fmt;

/// Why two offices are not reconciled.
#[derive(Clone, Copy, Debug, PartialEq, Eq)]
pub enum Unreconciled {
    /// They are of two interconnection points.
    NotAPair,
    /// The first delivery to this side that the other one did not send, the initiating side's before
    /// the matching side's; its place counts through the side's lives, from 1.
    Stranger { side: Side, place: u64 },
    /// Memory ran out.
    OutOfMemory,
}

impl From<AllocError> for Unreconciled {
    ghost use Rattle.gi_office.specs.declared.unreconciled.Unreconciled.TheVariants.{OutOfMemory};

    ghost from_gives = { λ _ e. e ≡ OutOfMemory };

    fn from(_refused: AllocError) -> Unreconciled {
        Unreconciled::OutOfMemory
    }
}

impl fmt::Display for Unreconciled {
    ghost use Rattle.gi_office.specs.FaultText.{unreconciled_text};

    ghost output = { λ fault. Some (unreconciled_text fault) };

    fn fmt<W: fmt::Write>(&self, f: &mut fmt::Formatter<W>) -> fmt::Result {
        match self {
            Unreconciled::NotAPair => f.write_str("NotAPair"),
            Unreconciled::Stranger { side, place } => write!(f, "Stranger {} {}", side, place),
            Unreconciled::OutOfMemory => f.write_str("OutOfMemory"),
        }
    }
}

impl Error for Unreconciled {}

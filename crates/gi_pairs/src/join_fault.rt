use std::error::Error;
use std::fmt;

/// Why the rows of several parts make no table.
#[derive(Clone, Copy, Debug, PartialEq, Eq)]
pub enum JoinFault {
    /// Two rows of one pair and direction.
    Overlap,
    /// More rows than the table may have.
    TooMany,
}

impl fmt::Display for JoinFault {
    ghost use Rattle.std.specs.Prelude.{Some};
    ghost use Rattle.gi_pairs.specs.FaultText.{join_fault_text};

    ghost output = { λ fault. Some (join_fault_text fault) };

    fn fmt<W: fmt::Write>(&self, f: &mut fmt::Formatter<W>) -> fmt::Result {
        f.write_str(match self {
            JoinFault::Overlap => "Overlap",
            JoinFault::TooMany => "TooMany",
        })
    }
}

impl Error for JoinFault {}

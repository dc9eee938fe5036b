ghost use Rattle.std.specs.Prelude.{◌≡◌, Some, codes};

use std::error::Error;
use std::fmt;
use std::str::FromStr;

/// A text that is no side's.
#[derive(Clone, Copy, Debug, PartialEq, Eq)]
pub struct SideText;

impl fmt::Display for SideText {
    ghost output = { λ _. Some (codes "SideText") };

    fn fmt<W: fmt::Write>(&self, f: &mut fmt::Formatter<W>) -> fmt::Result {
        f.write_str("SideText")
    }
}

impl Error for SideText {}

/// One of the two operators at the interconnection point.
#[derive(Clone, Copy, Debug, PartialEq, Eq)]
pub enum Side {
    /// The initiating operator.
    I,
    /// The matching operator.
    M,
}

impl Side {
    ghost use Rattle.gi_pairs.specs.Side.{other};

    /// The other operator.
    pub fn other(self) -> Side
        ensures { result ≡ other self }
    {
        match self {
            Side::I => Side::M,
            Side::M => Side::I,
        }
    }
}

/// Reads `I` or `M`.
impl FromStr for Side {
    type Err = SideText;

    ghost use Rattle.std.specs.Result.{result_ok};
    ghost use Rattle.gi_pairs.specs.Side.{side_named};

    ghost from_str_gives = { λ text result. result_ok result ≡ side_named text };

    #[tactic(auto, unfolding(crate::specs::Side::side_named))]
    fn from_str(text: &str) -> Result<Side, SideText> {
        match text {
            "I" => Ok(Side::I),
            "M" => Ok(Side::M),
            _ => Err(SideText),
        }
    }
}

impl fmt::Display for Side {
    ghost use Rattle.gi_pairs.specs.Side.{side_text};

    ghost output = { λ side. Some (side_text side) };

    fn fmt<W: fmt::Write>(&self, f: &mut fmt::Formatter<W>) -> fmt::Result {
        f.write_str(match self {
            Side::I => "I",
            Side::M => "M",
        })
    }
}

ghost use Rattle.std.specs.Prelude.{Some, codes};
ghost use Rattle.std.proofs.Common.{rules};
ghost use Rattle.std.specs.Cmp.{partial_order_from_own_ties};
ghost use Rattle.std.specs.Cmp.Rules.{comparing};
ghost use Rattle.std.specs.Ordering.{nat_cmp, on, as_partial_cmp};

use std::cmp::Ordering;
use std::error::Error;
use std::fmt;
use std::str::FromStr;

/// A text that is no direction's.
#[derive(Clone, Copy, Debug, PartialEq, Eq)]
pub struct DirectionText;

impl fmt::Display for DirectionText {
    ghost output = { λ _. Some (codes "DirectionText") };

    fn fmt<W: fmt::Write>(&self, f: &mut fmt::Formatter<W>) -> fmt::Result {
        f.write_str("DirectionText")
    }
}

impl Error for DirectionText {}

/// The way that gas goes; `IM` comes before `MI`.
#[derive(Clone, Copy, Debug, PartialEq, Eq)]
pub enum Direction {
    /// Out of the initiating operator's system, into the matching one's.
    IM,
    /// Out of the matching operator's system, into the initiating one's.
    MI,
}

impl Direction {
    ghost use Rattle.std.specs.Prelude.{◌≡◌};
    ghost use Rattle.gi_pairs.specs.Direction.{place_of, direction_text};

    fn place(self) -> u8
        ensures { result ≡ place_of self }
    {
        match self {
            Direction::IM => 0,
            Direction::MI => 1,
        }
    }

    /// `IM` or `MI`.
    pub fn as_str(self) -> &'static str
        ensures { result.now ≡ direction_text self }
    {
        match self {
            Direction::IM => "IM",
            Direction::MI => "MI",
        }
    }
}

/// Reads `IM` or `MI`.
impl FromStr for Direction {
    type Err = DirectionText;

    ghost use Rattle.std.specs.Prelude.{◌≡◌};
    ghost use Rattle.std.specs.Result.{result_ok};
    ghost use Rattle.gi_pairs.specs.Direction.{direction_named};

    ghost from_str_gives = { λ text result. result_ok result ≡ direction_named text };

    #[tactic(auto, unfolding(crate::specs::Direction::direction_named))]
    fn from_str(text: &str) -> Result<Direction, DirectionText> {
        match text {
            "IM" => Ok(Direction::IM),
            "MI" => Ok(Direction::MI),
            _ => Err(DirectionText),
        }
    }
}

impl fmt::Display for Direction {
    ghost use Rattle.gi_pairs.specs.Direction.{direction_text};

    ghost output = { λ direction. Some (direction_text direction) };

    fn fmt<W: fmt::Write>(&self, f: &mut fmt::Formatter<W>) -> fmt::Result {
        f.write_str(self.as_str())
    }
}

impl PartialOrd for Direction {
    ghost use Rattle.gi_pairs.specs.Direction.{place_of};

    ghost partial_cmp = { as_partial_cmp (on place_of nat_cmp) };

    ghost laws = { partial_order_from_own_ties (Prim.search (comparing, rules)) (Prim.search (comparing, rules)) };

    fn partial_cmp(&self, other: &Direction) -> Option<Ordering> {
        Some(self.cmp(other))
    }
}

impl Ord for Direction {
    ghost use Rattle.gi_pairs.specs.Direction.{place_of};

    ghost cmp = { on place_of nat_cmp };

    ghost total = { Prim.search (comparing, rules) };

    ghost matches_partial_cmp = { Prim.search (comparing, rules) };

    ghost matches_eq = { Prim.search (comparing, rules) };

    fn cmp(&self, other: &Direction) -> Ordering {
        self.place().cmp(&other.place())
    }
}

ghost use Rattle.std.specs.Prelude.{◌≡◌};
ghost use Rattle.gi_pairs.specs.Pair.{code_at, pair_of};

use crate::code::Code;
use crate::side::Side;

/// A pair of portfolios: one of the initiating operator, one of the matching operator. Pairs are
/// ordered by the initiating code, then by the matching one.
#[derive(Clone, Copy, Debug, PartialEq, Eq, PartialOrd, Ord)]
pub struct Pair {
    pub initiating: Code,
    pub matching: Code,
}

impl Pair {
    /// The pair of a side's portfolio and its counterparty at the other side.
    pub fn of(side: Side, own: Code, other: Code) -> Pair
        ensures { result ≡ pair_of side own other }
    {
        match side {
            Side::I => Pair {
                initiating: own,
                matching: other,
            },
            Side::M => Pair {
                initiating: other,
                matching: own,
            },
        }
    }

    /// The portfolio at a side; its counterparty is that at the other one.
    pub fn at(self, side: Side) -> Code
        ensures { result ≡ code_at side self }
    {
        match side {
            Side::I => self.initiating,
            Side::M => self.matching,
        }
    }
}

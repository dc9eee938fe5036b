ghost use Rattle.std.specs.Prelude.{◌≡◌, ◌*◌, ◌^◌, ◌<◌, ◌≤◌};
ghost use Rattle.gi_pairs.specs.Quantity.{most_quantity};
ghost use Rattle.gi_processing.specs.Capacity.{part as part_of, parts as parts_of};
ghost use Rattle.gi_processing.specs.CapacityLimits.{most_permille};
ghost use Rattle.gi_processing.specs.HoursLeft.{IsLeft};
ghost use Rattle.gi_processing.specs.Kept.{contract_at, contract_key};

use crate::contract_key::ContractKey;
use crate::contracted::Contracted;
use crate::hours_left::Thousandths;
use crate::notice::MOST_PERMILLE;
use gi_day::GasDay;
use gi_pairs::{Code, Direction, Quantity};

/// What is available to a portfolio in each hour of a gas day and direction where no notice cuts
/// it, in kWh/h: a firm quantity and an interruptible one.
#[derive(Clone, Copy, Debug, PartialEq, Eq)]
pub struct Contract {
    pub portfolio: Code,
    pub day: GasDay,
    pub direction: Direction,
    pub firm: Quantity,
    pub interruptible: Quantity,
}

fn part(quantity: Quantity, permille: u16) -> u64
    ensures value { result ≡ part_of quantity permille }
    ensures whole { permille ≡ most_permille → result ≡ quantity }
    ensures bound { result < 2 ^ 60 }
    ensures in_range { permille ≤ most_permille → result ≤ most_quantity }
{
    quantity.value() * u64::from(permille) / u64::from(MOST_PERMILLE)
}

impl Contract {
    /// What so many thousandths leave of it, in kWh/h: the parts of the firm and of the interruptible
    /// quantity, each rounded down.
    pub fn parts(self, left: Thousandths) -> u64
        ensures value { result ≡ parts_of self left.firm left.interruptible }
        ensures in_range { IsLeft left → result ≤ 2 * most_quantity }
    {
        part(self.firm, left.firm) + part(self.interruptible, left.interruptible)
    }

    pub(crate) fn at(key: ContractKey, contracted: Contracted) -> Contract
        ensures { result ≡ contract_at key contracted }
    {
        Contract {
            portfolio: key.portfolio,
            day: key.day,
            direction: key.direction,
            firm: contracted.firm,
            interruptible: contracted.interruptible,
        }
    }

    pub(crate) fn key(&self) -> ContractKey
        ensures { result ≡ contract_key self.now.portfolio self.now.day self.now.direction }
    {
        ContractKey {
            portfolio: self.portfolio,
            day: self.day,
            direction: self.direction,
        }
    }

    pub(crate) fn contracted(&self) -> Contracted
        ensures { result ≡ record { firm = self.now.firm; interruptible = self.now.interruptible } }
    {
        Contracted {
            firm: self.firm,
            interruptible: self.interruptible,
        }
    }
}

use gi_day::GasDay;
use gi_pairs::{Code, Direction};

/// What a contract is for.
#[derive(Clone, Copy, Debug, PartialEq, Eq, PartialOrd, Ord)]
pub(crate) struct ContractKey {
    pub portfolio: Code,
    pub day: GasDay,
    pub direction: Direction,
}

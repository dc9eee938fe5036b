ghost use Rattle.std.specs.Prelude.{◌≡◌};
ghost use Rattle.gi_pairs.specs.CycleId.{answered, cycle_cmp};

use gi_day::GasDay;

/// The name of a cycle: its gas day and its number, from 0 to 36. Cycles are ordered by day, then
/// by number.
#[derive(Clone, Copy, Debug, PartialEq, Eq, PartialOrd, Ord)]
pub struct CycleId {
    pub day: GasDay,
    pub cycle: u8,
}

/// `cmp` orders cycles by day, then by number.
pub fn by_day_then_number(a: CycleId, b: CycleId)
    ensures { answered a b ≡ cycle_cmp a b }
{}

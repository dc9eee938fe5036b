ghost use Rattle.std.specs.Prelude.{◌≡◌};
ghost use Rattle.gi_schedule.specs.Wanted.{wants_day, wants_pair};

use gi_day::GasDay;
use gi_pairs::{Code, Pair};

/// What of a schedule is asked for: one gas day or all of them, and the pairs in which one portfolio
/// stands at either side or all of them.
#[derive(Clone, Copy)]
pub struct Wanted {
    pub day: Option<GasDay>,
    pub portfolio: Option<Code>,
}

impl Wanted {
    pub(crate) fn has_day(&self, day: GasDay) -> bool
        ensures { result ≡ wants_day self.now.day day }
    {
        match self.day {
            Some(wanted) => wanted == day,
            None => true,
        }
    }

    pub(crate) fn has_pair(&self, pair: &Pair) -> bool
        ensures { result ≡ wants_pair self.now.portfolio pair.now }
    {
        match self.portfolio {
            Some(code) => pair.initiating == code || pair.matching == code,
            None => true,
        }
    }
}

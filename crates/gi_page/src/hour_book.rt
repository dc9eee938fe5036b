use crate::hour_cycles::HourCycles;
use gi_pairs::Code;
use std::collections::BTreeMap;

/// An hour of a gas day, and of each portfolio the number of the fact whose nomination was in force as
/// the cycle was closed that is shown for the hour.
#[derive(Drop)]
pub(crate) struct HourBook {
    pub at: HourCycles,
    pub book: BTreeMap<Code, u32>,
}

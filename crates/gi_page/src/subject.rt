use gi_day::GasDay;
use gi_pairs::{Code, Side};

/// What a page is of: a side of an interconnection point, a gas day of so many hours, and how many
/// facts the side has.
#[derive(Clone, Copy)]
pub(crate) struct Subject {
    pub point: Code,
    pub side: Side,
    pub day: GasDay,
    pub facts: u32,
    pub count: u8,
}

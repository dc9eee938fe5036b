use crate::rule::Rule;
use gi_day::GasDay;
use gi_pairs::Side;

/// For which side, gas day and hours quantities are processed, and by which rule.
#[derive(Clone, Copy)]
pub(crate) struct Span {
    pub side: Side,
    pub day: GasDay,
    /// From 1.
    pub first: u8,
    pub last: u8,
    pub rule: Rule,
}

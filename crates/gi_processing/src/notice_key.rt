use gi_day::GasDay;
use gi_pairs::Direction;

/// What notices are for, apart from their hours.
#[derive(Clone, Copy, Debug, PartialEq, Eq, PartialOrd, Ord)]
pub(crate) struct NoticeKey {
    pub day: GasDay,
    pub direction: Direction,
}

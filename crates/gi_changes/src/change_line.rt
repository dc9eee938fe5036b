use gi_pairs::{CycleId, Direction, Pair};

/// An hour of a confirmed cycle in which a pair has another quantity than was in force before it, in
/// kWh/h: what was, what the cycle confirmed, and how much more that is.
#[derive(Clone, Copy)]
pub struct ChangeLine {
    pub id: CycleId,
    pub direction: Direction,
    pub pair: Pair,
    pub hour: u8,
    pub before: u64,
    pub after: u64,
    pub change: i64,
}

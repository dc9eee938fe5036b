use gi_pairs::{CycleId, Direction, Pair};

/// Which quantity is asked about.
#[derive(Clone, Copy)]
pub struct Question {
    pub pair: Pair,
    pub direction: Direction,
    pub id: CycleId,
    /// From 1; no cycle covers an hour 0.
    pub hour: u8,
}

use gi_pairs::{CycleId, Direction, Pair, Quantity};

/// An hour of a row of a confirmed cycle: which cycle and which row, the number of the hour from 1,
/// and the quantity in kWh/h.
#[derive(Clone, Copy)]
pub struct ConfirmedHour {
    pub id: CycleId,
    pub direction: Direction,
    pub pair: Pair,
    pub hour: u64,
    pub quantity: Quantity,
}

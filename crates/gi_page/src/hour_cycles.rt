/// An hour of a gas day by its number from 1, the cycle of which what is nominated and processed is
/// shown, and the cycle in force.
#[derive(Clone, Copy)]
pub(crate) struct HourCycles {
    pub number: u8,
    pub shown: Option<u8>,
    pub cycle: Option<u8>,
}

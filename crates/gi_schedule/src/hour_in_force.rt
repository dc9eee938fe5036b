/// An hour of a gas day, by its number from 1, and the number of the cycle in force for it.
#[derive(Clone, Copy)]
pub struct HourInForce {
    pub hour: u8,
    pub cycle: u8,
}

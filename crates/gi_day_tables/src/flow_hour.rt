use gi_picture::Amounts;

/// An hour of one row, which is a pair and a direction: its number from 1; the cycle of which what is
/// nominated and processed is shown; the cycle in force; and the amounts, in kWh/h. Where a cycle is in
/// force it is the one shown; else the one shown is the last closed cycle that covers the hour, if there
/// is any.
#[derive(Clone, Copy)]
pub struct FlowHour {
    pub number: u8,
    pub shown: Option<u8>,
    pub cycle: Option<u8>,
    pub amounts: Amounts,
}

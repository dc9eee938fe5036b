use crate::flow_hour::FlowHour;

/// Hours one after the other that show the same: the first, and how many they are.
#[derive(Clone, Copy)]
pub(crate) struct FlowRun {
    pub first: FlowHour,
    pub hours: u8,
}

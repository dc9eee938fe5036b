use gi_cycles::CycleState;

/// How far a closed cycle is, and which facts say so.
#[derive(Drop)]
pub(crate) struct Stage {
    pub state: CycleState,
    /// The number of the fact that closed it, from 1.
    pub closing: u32,
    /// The number of the fact that met the peer's table.
    pub meeting: Option<u32>,
}

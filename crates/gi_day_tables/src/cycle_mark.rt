/// A cycle of the day, as far as it is.
#[derive(Clone, Copy)]
pub enum Standing {
    /// It is not closed.
    NotClosed,
    /// It is closed, saved or not, and has not met the peer's table.
    Frozen,
    /// It has met the peer's table, and that is not saved.
    Unsaved,
    /// It is confirmed.
    Confirmed,
}

/// A cycle of a gas day: its number, its start, in whole seconds since 1970-01-01T00:00Z, the first hour
/// that it covers, how far it is, and the numbers of the facts that closed it and that met the peer's
/// table.
#[derive(Clone, Copy)]
pub struct CycleMark {
    pub cycle: u8,
    pub start: u64,
    pub first: u8,
    pub standing: Standing,
    pub closed: Option<u32>,
    pub met: Option<u32>,
}

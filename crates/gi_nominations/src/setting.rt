use gi_day::DayFrame;

/// What a nomination is judged by, beside the book.
#[derive(Clone, Copy)]
pub struct Setting {
    /// The frame of the nomination's gas day.
    pub frame: DayFrame,
    /// Whether the portfolio has a contract for the gas day.
    pub known: bool,
    /// The highest cycle of the gas day that is closed, if one is.
    pub last_closed: Option<u8>,
}

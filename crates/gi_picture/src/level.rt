/// What goes up from the zero line and what goes down again, in kWh/h.
#[derive(Clone, Copy)]
pub(crate) struct Level {
    pub up: u64,
    pub down: u64,
}

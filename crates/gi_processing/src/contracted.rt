use gi_pairs::Quantity;

/// The quantities of a contract, in kWh/h.
#[derive(Clone, Copy)]
pub(crate) struct Contracted {
    pub firm: Quantity,
    pub interruptible: Quantity,
}

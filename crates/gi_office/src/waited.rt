/// What became of the fact of a receipt.
#[derive(Clone, Copy, Debug, PartialEq, Eq)]
pub enum Waited {
    /// It is saved.
    Saved,
    /// It is not saved, and the desk is halted.
    Stopped,
    /// The receipt is of no fact.
    NoFact,
}

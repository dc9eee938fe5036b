use crate::facts::Facts;

/// What is to be saved of a desk.
#[derive(Drop)]
pub enum Look {
    /// The desk is halted.
    Halted,
    /// All facts are saved.
    Nothing,
    /// Fact number `n` is the next to save; these are copies of it and of those after it, 64 at most.
    Next { n: u32, facts: Facts },
}

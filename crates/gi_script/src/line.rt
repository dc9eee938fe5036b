use crate::instruction::Instruction;

/// A line of a script.
#[derive(Drop)]
pub struct Line {
    /// From 1, empty lines counted.
    pub number: u64,
    pub instruction: Instruction,
}

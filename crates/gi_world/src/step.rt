use gi_desk::Call;
use gi_pairs::Side;

/// What happens next at one of the two operators.
#[derive(Drop)]
pub enum Step {
    /// The side's desk is asked this; a delivery has a step of its own.
    Local { side: Side, call: Call },
    /// The side gets the packet that the other side let out to it as number `packet`, from 1. A
    /// packet may come in any order and as often as one likes; one that is never named is lost.
    Deliver { side: Side, packet: u64 },
    /// The side's desk starts again from its first `keep` facts, which are all that is saved.
    Restart { side: Side, keep: u32 },
}

use crate::packet::Packets;
use crate::refusal::Refusal;

/// What a desk answers to a call.
#[derive(Clone, Copy, Debug, PartialEq, Eq)]
pub enum Answer {
    /// The call is recorded as fact number `n`, from 1.
    Recorded { n: u32 },
    /// The call repeats what fact number `n` says.
    Repeat { n: u32 },
    /// Of `parts` parts of the peer's order or response `have` are kept.
    Kept { have: u8, parts: u8 },
    /// Fact number `n` is saved.
    Saved { n: u32 },
    /// All that the cycle's saved closing and meeting let out is let out again.
    Resent,
    /// The desk is halted.
    Stopped,
    /// The call changes nothing, for this reason.
    Refused(Refusal),
}

/// What a desk makes of a call: its answer, and the packets that it lets out.
#[derive(Drop)]
pub struct Reply {
    pub answer: Answer,
    pub out: Packets,
}

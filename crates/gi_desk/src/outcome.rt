use crate::refusal::Refusal;
use gi_facts::Fact;
use gi_pairs::CycleId;
use gi_parts::Part;

/// What a call comes to.
#[derive(Drop)]
pub enum Outcome {
    /// A new fact is recorded.
    Records(Fact),
    /// It repeats the nomination that fact number `n` records.
    RepeatsNomination { n: u32 },
    /// It repeats the meeting that fact number `n` records.
    RepeatsMeeting { n: u32 },
    /// It repeats that meeting by a part that is not the first, so nothing is let out.
    RepeatsPart { n: u32 },
    /// A part of the peer's order or response is kept, unless it is kept already.
    Keeps { id: CycleId, part: Part },
    /// Fact number `n` is saved.
    Saves { n: u32 },
    /// What the cycle let out is let out again.
    Resends(CycleId),
    /// The desk is halted.
    Stops,
    /// Nothing is changed, for this reason.
    Refuses(Refusal),
}

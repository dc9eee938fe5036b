ghost use Rattle.std.specs.Prelude.{◌≡◌};
ghost use Rattle.gi_schedule.specs.CutForms.{cut_word};

use gi_pairs::{CycleId, Direction, Pair};

/// An hour of a confirmed cycle in which a pair gets less than was nominated, in kWh/h: what its
/// portfolio at the side nominated, what the side processed, what the other one did, and what is
/// confirmed; then how much the side's own capacity cut of it, and how much the other operator did.
#[derive(Clone, Copy)]
pub struct CutLine {
    pub id: CycleId,
    pub direction: Direction,
    pub pair: Pair,
    pub hour: u8,
    pub nominated: u64,
    pub processed: u64,
    pub peer: u64,
    pub confirmed: u64,
    pub by_capacity: u64,
    pub by_peer: u64,
}

impl CutLine {
    /// `capacity`, `peer` or `both`: who cut it.
    pub(crate) fn word(&self) -> &'static str
        ensures { result.now ≡ cut_word self.now }
    {
        if self.by_capacity == 0 {
            return "peer";
        }
        if self.by_peer == 0 {
            "capacity"
        } else {
            "both"
        }
    }
}

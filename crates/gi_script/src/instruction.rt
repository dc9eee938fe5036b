use gi_carrier::Plan;
use gi_desk::Call;
use gi_pairs::Side;

/// What a line of a script asks.
#[derive(Drop)]
pub enum Instruction {
    /// A call of that side's desk: contract, notice, submit, close, resend or halt.
    Call { side: Side, call: Call },
    /// That side saves its next unsaved fact so many times: 1 to 1,000,000.
    Save { side: Side, count: u32 },
    /// That side is given the packet of that number.
    Deliver { side: Side, packet: u32 },
    /// That side starts again with so many facts.
    Restart { side: Side, keep: u32 },
    /// The plan of the carrier towards that side.
    Plan { side: Side, plan: Plan },
    /// One move of the carrier towards that side.
    Carry { side: Side },
}

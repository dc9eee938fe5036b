use gi_desk::Refusal;
use gi_world::WorldFault;
use std::fmt;

/// What came of a step.
#[derive(Clone, Copy, Debug, PartialEq, Eq)]
pub enum Outcome {
    /// Recorded as the fact of this number, from 1.
    Recorded(u32),
    /// It repeats what the fact of this number says.
    Repeat(u32),
    /// So many parts of the peer's order or response are kept.
    Kept(u8),
    /// The fact of this number is saved.
    Saved(u32),
    /// So many packets are let out again, to the peer and to portfolios.
    Resent(usize),
    /// The desk is halted.
    Stopped,
    /// The desk has started again with so many facts.
    Restarted(u32),
    /// There was no fact to save, or the carrier gave nothing.
    Nothing,
    /// The desk refused it.
    Refused(Refusal),
    /// There is no such packet or no such restart, or a local step holds a delivery.
    NotMade(WorldFault),
}

impl fmt::Display for Outcome {
    ghost use Rattle.std.specs.Prelude.{Some};
    ghost use Rattle.gi_simulation.specs.OutcomeText.{outcome_text};

    ghost output = { λ outcome. Some (outcome_text outcome) };

    fn fmt<W: fmt::Write>(&self, f: &mut fmt::Formatter<W>) -> fmt::Result {
        let (word, number) = match self {
            Outcome::Recorded(n) => ("recorded ", n),
            Outcome::Repeat(n) => ("repeat ", n),
            Outcome::Kept(have) => return write!(f, "kept {have}"),
            Outcome::Saved(n) => ("saved ", n),
            Outcome::Resent(packets) => return write!(f, "resent {packets}"),
            Outcome::Stopped => return f.write_str("stopped"),
            Outcome::Restarted(saved) => ("restarted ", saved),
            Outcome::Nothing => return f.write_str("nothing"),
            Outcome::Refused(refusal) => return write!(f, "refused {refusal}"),
            Outcome::NotMade(fault) => return write!(f, "refused {fault}"),
        };
        write!(f, "{word}{number}")
    }
}

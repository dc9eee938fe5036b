use std::error::Error;
use std::fmt;

/// Why moves make no plan.
#[derive(Clone, Copy, Debug, PartialEq, Eq)]
pub enum PlanFault {
    /// Not 1 to 1,000 moves.
    PlanLength,
}

impl fmt::Display for PlanFault {
    ghost use Rattle.std.specs.Prelude.{Some};
    ghost use Rattle.gi_carrier.specs.FaultText.{plan_fault_text};

    ghost output = { λ fault. Some (plan_fault_text fault) };

    fn fmt<W: fmt::Write>(&self, f: &mut fmt::Formatter<W>) -> fmt::Result {
        f.write_str(match self {
            PlanFault::PlanLength => "PlanLength",
        })
    }
}

impl Error for PlanFault {}

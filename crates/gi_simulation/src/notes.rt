ghost use Rattle.std.specs.Prelude.{◌≡◌, OnErr, OnOk};

use crate::outcome::Outcome;
use gi_script::Line;
use std::alloc::AllocError;

/// What is kept of a run.
pub(crate) trait Notes {
    ghost use Rattle.std.specs.Prelude.{List, Option, ℕ};
    ghost use Rattle.gi_script.specs.declared.line.Line.{Line};
    ghost use Rattle.gi_simulation.specs.declared.outcome.Outcome.{Outcome};

    ghost noting: { Self → Line → Option Outcome → List ℕ → Self };

    /// Notes what came of a line, with the lines that its trace tells. Where memory runs out nothing
    /// is noted.
    fn note(&mut self, line: &Line, outcome: Option<Outcome>, lines: &str) -> Result<(), AllocError>
        ensures noted { OnOk result (self.new ≡ noting self.old line.now outcome lines.now) }
        ensures unchanged { OnErr result (self.new ≡ self.old) };
}

ghost use Rattle.std.specs.Prelude.{◌≡◌};

use crate::line::Line;
use gi_pairs::Code;
use std::marker::Model;

/// What a script asks, in order, at a point.
#[derive(Drop)]
pub struct Script {
    point: Code,
    lines: Vec<Line>,
}

impl Model for Script {
    ghost use Rattle.gi_script.specs.Script.{ScriptContents};

    ghost Value = { ScriptContents };

    ghost view = { λ s. record { point = s.point; lines = s.lines.items } };
}

impl Script {
    pub(crate) fn new(point: Code, lines: Vec<Line>) -> Script
        ensures { result ≡ record { point = point; lines = lines.items } }
    {
        Script { point, lines }
    }

    /// The interconnection point.
    pub fn point(&self) -> Code
        ensures { result ≡ self.now.point }
    {
        self.point
    }

    /// The lines, in order, without the empty ones and the point's.
    pub fn lines(&self) -> &[Line]
        ensures { result.now ≡ self.now.lines }
    {
        &self.lines
    }

    /// The lines, in order, with the memory that they were read into.
    pub fn into_lines(self) -> Vec<Line>
        ensures { result.items ≡ self.lines }
    {
        self.lines
    }
}

ghost use Rattle.std.specs.Prelude.{◌≡◌, ◌++◌, [], IfOk, string_bytes};
ghost use Rattle.gi_simulation.specs.Runs.{side_of as side_of_instruction, step_text, text_of};

use crate::notes::Notes;
use crate::outcome::Outcome;
use gi_pairs::Side;
use gi_script::{Instruction, Line};
use std::alloc::{AllocError, Global};
use std::marker::Model;

/// The text of a run's steps.
#[derive(Drop)]
pub(crate) struct Text {
    alloc: Global,
    text: String,
}

impl Model for Text {
    ghost use Rattle.std.specs.Prelude.{List, ℕ, string_bytes};

    ghost Value = { List ℕ };

    ghost view = { λ t. string_bytes t.text };
}

fn side_of(instruction: &Instruction) -> Side
    ensures { result ≡ side_of_instruction instruction.now }
{
    match instruction {
        Instruction::Call { side, .. }
        | Instruction::Save { side, .. }
        | Instruction::Deliver { side, .. }
        | Instruction::Restart { side, .. }
        | Instruction::Plan { side, .. }
        | Instruction::Carry { side } => *side,
    }
}

fn step_line(alloc: Global, line: &Line, outcome: Outcome) -> Result<String, AllocError>
    ensures { IfOk result (λ text. string_bytes text ≡ step_text line.now outcome) }
{
    let (number, side) = (line.number, side_of(&line.instruction));
    format!(in alloc; "{number} {side} {outcome}\n")
}

fn outcome_line(alloc: Global, line: &Line, outcome: Option<Outcome>) -> Result<String, AllocError>
    ensures { IfOk result (λ text. string_bytes text ≡ text_of line.now outcome) }
{
    match outcome {
        None => Ok(String::new(alloc)),
        Some(outcome) => step_line(alloc, line, outcome),
    }
}

impl Text {
    pub(crate) fn new(alloc: Global) -> Text
        ensures { result ≡ [] }
    {
        Text {
            alloc,
            text: String::new(alloc),
        }
    }

    pub(crate) fn into_string(self) -> String
        ensures { string_bytes result ≡ self }
    {
        self.text
    }
}

impl Notes for Text {
    ghost use Rattle.gi_simulation.specs.Runs.{telling_lines};

    ghost noting = { telling_lines };

    fn note(
        &mut self,
        line: &Line,
        outcome: Option<Outcome>,
        lines: &str,
    ) -> Result<(), AllocError> {
        let mut text = outcome_line(self.alloc, line, outcome)?;
        text.push_str(lines)?;
        self.text.push_str(text.as_str())
    }
}

//! The lines of a script, one after the other, each as often as it says.

ghost use Rattle.std.specs.Prelude.{◌≡◌, ◌∷◌, [], OnErr, OnOk};
ghost use Rattle.gi_simulation.specs.Runs.{IsCutOff, IsRun, noting_turn, times as times_of, turns, turns_of};

use crate::notes::Notes;
use crate::simulation::Simulation;
use gi_script::{Instruction, Line};
use std::alloc::AllocError;

fn times(instruction: &Instruction) -> u32
    ensures { result ≡ times_of instruction.now }
{
    match instruction {
        Instruction::Save { count, .. } => *count,
        _ => 1,
    }
}

fn make_once<N: Notes>(
    simulation: &mut Simulation,
    line: &Line,
    notes: &mut N,
    trace: bool,
) -> Result<(), AllocError>
    ensures made { OnOk result (IsRun (noting_turn N.noting trace) simulation.old (line.now ∷ []) notes.old notes.new simulation.new) }
    ensures cut { OnErr result (IsCutOff (noting_turn N.noting trace) simulation.old (line.now ∷ []) notes.old notes.new simulation.new) }
{
    let (outcome, lines) = simulation.make_traced(&line.instruction, trace)?;
    notes.note(line, outcome, lines.as_str())
}

fn make_line<N: Notes>(
    simulation: &mut Simulation,
    line: &Line,
    notes: &mut N,
    trace: bool,
) -> Result<(), AllocError>
    ensures made { OnOk result (IsRun (noting_turn N.noting trace) simulation.old (turns_of line.now) notes.old notes.new simulation.new) }
    ensures cut { OnErr result (IsCutOff (noting_turn N.noting trace) simulation.old (turns_of line.now) notes.old notes.new simulation.new) }
{
    for _ in 0..times(&line.instruction) {
        make_once(simulation, line, notes, trace)?;
    }
    Ok(())
}

/// Makes a line as `make_line` does, and gives its memory back.
fn take_line<N: Notes>(
    simulation: &mut Simulation,
    line: Line,
    notes: &mut N,
    trace: bool,
) -> Result<(), AllocError>
    ensures made { OnOk result (IsRun (noting_turn N.noting trace) simulation.old (turns_of line) notes.old notes.new simulation.new) }
    ensures cut { OnErr result (IsCutOff (noting_turn N.noting trace) simulation.old (turns_of line) notes.old notes.new simulation.new) }
{
    let made = make_line(simulation, &line, notes, trace);
    // (handed to drop, by one call: going out of scope here would be checked field by field on each way out)
    drop(line);
    made
}

pub(crate) fn run<N: Notes>(
    simulation: &mut Simulation,
    lines: Vec<Line>,
    notes: &mut N,
    trace: bool,
) -> Result<(), AllocError>
    ensures made { OnOk result (IsRun (noting_turn N.noting trace) simulation.old (turns lines.items) notes.old notes.new simulation.new) }
    ensures cut { OnErr result (IsCutOff (noting_turn N.noting trace) simulation.old (turns lines.items) notes.old notes.new simulation.new) }
{
    for line in lines {
        take_line(simulation, line, notes, trace)?;
    }
    Ok(())
}

//! What `simulate` writes of a script.

ghost use Rattle.std.specs.Prelude.{◌≡◌, ◌++◌, Err, IfErr, IfOk, OnErr, OnOk, false, string_bytes, true};
ghost use Rattle.gi_script.specs.Script.{HasNoPoint};
ghost use Rattle.gi_script.specs.declared.fault.ScriptFault.TheVariants.{Point};
ghost use Rattle.gi_commands.specs.Simulating.{HasScript, IsCutShort, IsNoScript, IsSimulation, counts_of};

use crate::fault::Fault;
use gi_reports::counts_line;
use gi_script::read_script;
use gi_simulation::{Simulation, simulate};
use std::alloc::{AllocError, Global};

/// What is written of a script.
#[derive(Drop)]
pub struct Written {
    pub text: String,
    /// Whether that is all; else memory ran out, and these are lines of the first steps.
    pub complete: bool,
}

fn counts(alloc: Global, simulation: &Simulation) -> Result<String, AllocError>
    ensures { IfOk result (λ text. string_bytes text ≡ counts_of simulation.now) }
{
    let world = simulation.world();
    let mut text = counts_line(alloc, world.initiating())?;
    let matching = counts_line(alloc, world.matching())?;
    text.push_str(matching.as_str())?;
    Ok(text)
}

fn add_counts(alloc: Global, text: &mut String, simulation: &Simulation) -> Result<(), AllocError>
    ensures added { OnOk result (string_bytes text.new ≡ string_bytes text.old ++ counts_of simulation.now) }
    ensures unchanged { OnErr result (string_bytes text.new ≡ string_bytes text.old) }
{
    let counts = counts(alloc, simulation)?;
    text.push_str(counts.as_str())
}

/// The text with the lines of what the sides hold; where memory runs out, the text alone.
fn with_counts(alloc: Global, text: String, simulation: &Simulation) -> Written
    ensures whole { result.complete ≡ true → string_bytes result.text ≡ string_bytes text ++ counts_of simulation.now }
    ensures short { result.complete ≡ false → string_bytes result.text ≡ string_bytes text }
{
    let mut text = text;
    let complete = add_counts(alloc, &mut text, simulation).is_ok();
    Written { text, complete }
}

/// What `simulate` writes for an input: a line of each step of the script, with a trace also lines of
/// what moved in it, and two of what the sides then hold. The fault is the script's; `Point` wants no
/// memory. Where memory runs out in a step, or for its lines, the lines of those before it are written.
/// The input's memory is given back once the script is read.
pub fn simulated(alloc: Global, input: Vec<u8>, trace: bool) -> Result<Written, Fault>
    ensures text { IfOk result (λ written. written.complete ≡ true → IsSimulation trace input.items (string_bytes written.text)) }
    ensures cut { IfOk result (λ written. written.complete ≡ false → IsCutShort trace input.items (string_bytes written.text)) }
    ensures script { IfOk result (λ written. HasScript input.items) }
    ensures fault { IfErr result (IsNoScript input.items) }
    ensures point { HasNoPoint input.items → result ≡ Err (Fault.Script Point) }
{
    let script = read_script(alloc, &input)?;
    drop(input);
    let made = simulate(alloc, script, trace)?;
    if !made.complete {
        // (handed to drop, by one call: going out of scope here would be checked field by field on each way out)
        drop(made.simulation);
        return Ok(Written {
            text: made.text,
            complete: false,
        });
    }
    let written = with_counts(alloc, made.text, &made.simulation);
    drop(made.simulation);
    Ok(written)
}

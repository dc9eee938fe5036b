ghost use Rattle.std.specs.Prelude.{◌≡◌, [], IfErr, IfOk, false, string_bytes, true};
ghost use Rattle.gi_simulation.specs.OnItsWay.{AllIsDelivered, OnlySentWaits};
ghost use Rattle.gi_simulation.specs.Runs.{IsCutOff, gathered, printed, run as run_of, telling, turns};
ghost use Rattle.gi_simulation.specs.Simulation.{new_simulation};
ghost use Rattle.gi_world.specs.Headline.{OneConfirmedQuantity};
ghost use Rattle.gi_world.specs.Histories.{held};
ghost use Rattle.gi_world.specs.declared.start_fault.StartFault.TheVariants.{OutOfMemory};

use crate::run::run;
use crate::simulation::Simulation;
use crate::text::Text;
use gi_script::Script;
use gi_world::StartFault;
use std::alloc::Global;

/// What a script came to.
#[derive(Drop)]
pub struct Simulated {
    /// Both offices after these steps; where memory ran out, perhaps after one step more.
    pub simulation: Simulation,
    /// A line for each step, in order, each with the lines of its trace where that was asked for.
    pub text: String,
    /// Whether all of the script is made; else memory ran out.
    pub complete: bool,
}

/// Makes the lines of a script, from two desks without facts and nothing on its way, and writes a
/// line `N SIDE OUTCOME` of each step; with `trace` lines follow it that tell which messages moved.
/// A refused step is an outcome, and the run goes on; only want of memory ends it before the last
/// line. `OutOfMemory` comes before the first step, and no other refusal.
pub fn simulate(alloc: Global, script: Script, trace: bool) -> Result<Simulated, StartFault>
    ensures text { IfOk result (λ it. it.complete ≡ true
        → string_bytes it.text ≡ gathered (printed trace) (new_simulation script.point) (turns script.lines)) }
    ensures simulation { IfOk result (λ it. it.complete ≡ true
        → it.simulation ≡ run_of (new_simulation script.point) (turns script.lines)) }
    ensures one_quantity { IfOk result (λ it. OneConfirmedQuantity (held it.simulation.world)) }
    ensures waits { IfOk result (λ it. OnlySentWaits it.simulation) }
    ensures delivers { IfOk result (λ it. AllIsDelivered it.simulation) }
    ensures cut { IfOk result (λ it. it.complete ≡ false
        → IsCutOff (telling trace) (new_simulation script.point) (turns script.lines) [] (string_bytes it.text) it.simulation) }
    ensures refused { IfErr result (λ fault. fault ≡ OutOfMemory) }
{
    let mut simulation = match Simulation::new(alloc, script.point()) {
        Ok(simulation) => simulation,
        Err(fault) => {
            // (handed to drop, by one call: going out of scope here would be checked field by field on each way out)
            drop(script);
            return Err(fault);
        }
    };
    let mut text = Text::new(alloc);
    let complete = run(&mut simulation, script.into_lines(), &mut text, trace).is_ok();
    simulation.reveal_invariant();
    Ok(Simulated {
        simulation,
        text: text.into_string(),
        complete,
    })
}

//! Runs: all that can happen between two operators, step by step.

ghost use Rattle.std.specs.Prelude.{◌≡◌, ◌<◌, ◌≤◌, ◌+◌, ◌++◌, ◌∷◌, [], IfErr, IfOk, OnErr, OnOk, length, take, true};
ghost use Rattle.std.specs.Vec.{vec_capacity, vec_len};
ghost use Rattle.gi_world.specs.Agreement.{Agrees, AllAgree};
ghost use Rattle.gi_world.specs.Confirming.{ConfirmsAtBoth, ConfirmsTheLower};
ghost use Rattle.gi_world.specs.Headline.{OneConfirmedQuantity};
ghost use Rattle.gi_world.specs.Histories.{after_steps, held, no_histories};
ghost use Rattle.gi_world.specs.Runs.{IsRun};
ghost use Rattle.gi_world.specs.World.{after, may_want, new_world, outcome as outcome_of};
ghost use Rattle.gi_world.specs.declared.start_fault.StartFault.TheVariants.{OutOfMemory};

use crate::laws::histories_are_held;
use crate::outcomes::Outcomes;
use crate::start_fault::StartFault;
use crate::step::Step;
use crate::world::World;
use crate::world_fault::WorldFault;
use crate::world_reply::WorldReply;
use gi_pairs::Code;
use std::alloc::{AllocError, Global};

/// What a list of steps came to.
#[derive(Drop)]
pub struct Run {
    /// Both desks after the steps that are made.
    pub world: World,
    /// What came of each of these, in order.
    pub outcomes: Outcomes,
    /// How many they are: all, unless memory ran out.
    pub done: usize,
}

fn make(
    world: &mut World,
    outcomes: &mut Vec<Result<WorldReply, WorldFault>>,
    step: &Step,
) -> Result<(), AllocError>
    requires { vec_len outcomes.now < vec_capacity outcomes.now }
    ensures outcome { OnOk result (outcomes.new.items ≡ outcomes.old.items ++ outcome_of world.old step.now ∷ []) }
    ensures next { OnOk result (world.new ≡ after world.old step.now) }
    ensures agrees { OnOk result (Agrees step.now (outcome_of world.old step.now)) }
    ensures unchanged { OnErr result (outcomes.new.items ≡ outcomes.old.items) }
    ensures same { OnErr result (world.new ≡ world.old) }
    ensures short { OnErr result (may_want world.old step.now ≡ true) }
    ensures len { OnOk result (vec_len outcomes.new ≡ vec_len outcomes.old + 1) }
    ensures places { vec_capacity outcomes.new ≡ vec_capacity outcomes.old }
{
    let outcome = world.step(step);
    if let Err(WorldFault::OutOfMemory) = outcome {
        return Err(AllocError);
    }
    outcomes.push_reserved(outcome);
    Ok(())
}

fn make_all(
    world: &mut World,
    outcomes: &mut Vec<Result<WorldReply, WorldFault>>,
    steps: &[Step],
) -> Result<(), AllocError>
    requires none { outcomes.now.items ≡ [] }
    requires empty { vec_len outcomes.now ≡ 0 }
    requires places { length steps.now ≤ vec_capacity outcomes.now }
    ensures made { IsRun world.old steps.now (length outcomes.new.items) outcomes.new.items world.new }
    ensures agree { AllAgree steps.now outcomes.new.items }
    ensures all { OnOk result (length outcomes.new.items ≡ length steps.now) }
{
    for step in steps {
        make(world, outcomes, step)?;
    }
    Ok(())
}

/// Makes steps, from two desks without facts at the interconnection point. A refused step is an
/// outcome, and the run goes on; only want of memory ends it before the last step, with the world
/// as the steps made before left it. `OutOfMemory` comes before the first step, where there is no
/// place for the outcomes, and no other refusal.
///
/// Every quantity that either side has then confirmed or told is the lower of the two frozen ones.
/// So it is at every moment of the run, as the first of its steps are a run too; and none ever
/// changes, as each `World::step` keeps what is confirmed, and only adds to what is sent and told.
pub fn run_world(alloc: Global, point: Code, steps: &[Step]) -> Result<Run, StartFault>
    ensures made { IfOk result (λ run. IsRun (new_world point) steps.now run.done run.outcomes run.world) }
    ensures agree { IfOk result (λ run. AllAgree steps.now run.outcomes) }
    ensures history { IfOk result (λ run. held run.world ≡ after_steps no_histories (take run.done steps.now) run.outcomes) }
    ensures lower { IfOk result (λ run. ConfirmsTheLower run.world) }
    ensures both { IfOk result (λ run. ConfirmsAtBoth run.world) }
    ensures one_quantity { IfOk result (λ run. OneConfirmedQuantity (after_steps no_histories (take run.done steps.now) run.outcomes)) }
    ensures refused { IfErr result (λ fault. (fault ≡ OutOfMemory) × (0 < length steps.now)) }
{
    histories_are_held();
    let mut world = World::new(alloc, point)?;
    let Ok(mut outcomes) = Vec::with_capacity(alloc, steps.len()) else {
        // (handed to drop, by one call: going out of scope here would be checked field by field on each way out)
        drop(world);
        return Err(StartFault::OutOfMemory);
    };
    let done = match make_all(&mut world, &mut outcomes, steps) {
        Ok(()) => steps.len(),
        Err(_) => outcomes.len(),
    };
    world.reveal_invariant();
    Ok(Run {
        world,
        outcomes: Outcomes::from(outcomes),
        done,
    })
}

//! The audit of the books that both offices are left with after a run.

ghost use Rattle.std.specs.Prelude.{◌≡◌, ◌↔◌, Err, IfOk, IsTrue, OnOk, false, string_bytes};
ghost use Rattle.gi_desk.specs.Machine.{started_again};
ghost use Rattle.gi_world.specs.Agreement.{IsSound};
ghost use Rattle.gi_world.specs.Runs.{run};
ghost use Rattle.gi_world.specs.World.{after, after_restart, new_world, station_of, with_station};
ghost use Rattle.gi_world.specs.declared.world_fault.WorldFault.TheVariants.{OutOfMemory};
ghost use Rattle.gi_audit.specs.Audit.{IsAudit};
ghost use Rattle.gi_audit.specs.LetOut.{HaveLetOut};
ghost use Rattle.gi_audit.specs.Verdict.{names_difference};

use crate::auditing::{Audited, audit};
use crate::revealing::reveal_invariant;
use gi_pairs::Side;
use gi_world::{Step, World, WorldFault, WorldReply};
use std::alloc::{AllocError, Global};

fn is_short(outcome: &Result<WorldReply, WorldFault>) -> bool
    ensures { IsTrue result ↔ (outcome.now ≡ Err OutOfMemory) }
{
    matches!(outcome, Err(WorldFault::OutOfMemory))
}

fn make(world: &mut World, step: &Step) -> Result<(), AllocError>
    requires { IsSound world.now }
    ensures next { OnOk result (world.new ≡ after world.old step.now) }
    ensures sound { OnOk result (IsSound world.new) }
{
    reveal_invariant(world.initiating());
    reveal_invariant(world.matching());
    let outcome = world.step(step);
    if is_short(&outcome) {
        return Err(AllocError);
    }
    Ok(())
}

fn make_all(world: &mut World, steps: &[Step]) -> Result<(), AllocError>
    requires { IsSound world.now }
    ensures next { OnOk result (world.new ≡ run world.old steps.now) }
    ensures sound { OnOk result (IsSound world.new) }
{
    for step in steps {
        make(world, step)?;
    }
    Ok(())
}

fn saved(world: &World, side: Side) -> u32
    ensures { result ≡ (station_of side world.now).desk.saved }
{
    match side {
        Side::I => world.initiating().saved(),
        Side::M => world.matching().saved(),
    }
}

fn start_again(world: &mut World, side: Side) -> Result<(), AllocError>
    requires { IsSound world.now }
    ensures next { OnOk result (world.new ≡ with_station side (after_restart (station_of side world.old) (station_of side world.old).desk.saved) world.old) }
    ensures out { OnOk result (HaveLetOut world.old world.new) }
    ensures sound { OnOk result (IsSound world.new) }
{
    let keep = saved(world, side);
    make(world, &Step::Restart { side, keep })
}

fn start_both_again(world: &mut World) -> Result<(), AllocError>
    requires { IsSound world.now }
    ensures initiating { OnOk result (world.new.initiating.desk ≡ started_again world.old.initiating.desk world.old.initiating.desk.saved) }
    ensures matching { OnOk result (world.new.matching.desk ≡ started_again world.old.matching.desk world.old.matching.desk.saved) }
    ensures out { OnOk result (HaveLetOut world.old world.new) }
    ensures sound { OnOk result (IsSound world.new) }
{
    start_again(world, Side::I)?;
    start_again(world, Side::M)
}

/// Makes the steps in a world that has just been opened; then both sides start again from what is
/// saved, and are left so, and these two desks are set against each other. Nothing differs, whatever
/// the steps are: an audit of two offices' books gives no false alarm. There is none where memory runs
/// out.
pub fn audit_run(alloc: Global, world: &mut World, steps: &[Step]) -> Result<Audited, AllocError>
    requires { world.now ≡ new_world world.now.initiating.desk.point }
    ensures books { IfOk result (λ audited. let w = run world.old steps.now in
        IsAudit (started_again w.initiating.desk w.initiating.desk.saved) (started_again w.matching.desk w.matching.desk.saved) (string_bytes audited.text) audited.verdict) }
    ensures agreed { IfOk result (λ audited. names_difference audited.verdict ≡ false) }
    ensures initiating { OnOk result (let w = run world.old steps.now in world.new.initiating.desk ≡ started_again w.initiating.desk w.initiating.desk.saved) }
    ensures matching { OnOk result (let w = run world.old steps.now in world.new.matching.desk ≡ started_again w.matching.desk w.matching.desk.saved) }
    ensures out { OnOk result (HaveLetOut (run world.old steps.now) world.new) }
{
    make_all(world, steps)?;
    start_both_again(world)?;
    audit(alloc, world.initiating(), world.matching())
}

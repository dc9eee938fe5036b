//! How far the closed cycles are.

ghost use Rattle.std.specs.Prelude.{◌≡◌, ◌≤◌, ◌+◌, ◌++◌, ℕ, List, [], ◌∷◌, None, OnErr, OnOk, Some, length};
ghost use Rattle.gi_pairs.specs.Limits.{most_processed_rows};
ghost use Rattle.gi_pairs.specs.declared.side.Side.{Side};
ghost use Rattle.gi_processing.specs.Processing.{processed};
ghost use Rattle.gi_processing.specs.declared.rule.Rule.{Rule};
ghost use Rattle.gi_cycles.specs.States.{FrozenCycle, matched_of};
ghost use Rattle.gi_cycles.specs.declared.cycle_state.CycleState.TheVariants.{Frozen, Matched};
ghost use Rattle.gi_lesser.specs.Lesser.{HasShapeOf};
ghost use Rattle.gi_desk.specs.History.{capacity_of, documents_of};
ghost use Rattle.gi_desk.specs.Caches.{id_of};
ghost use Rattle.gi_desk.specs.Queries.{stage_of};
ghost use Rattle.gi_desk.specs.Machine.{bad_fact};
ghost use Rattle.gi_desk.specs.Stages.{AreStages};
ghost use Rattle.gi_facts.specs.declared.fact.Fact.{Fact};
ghost use Rattle.gi_facts.specs.declared.fact.Fact.TheVariants.{Closed, Met};

use crate::stage::Stage;
use crate::stage_name::StageName;
use gi_cycles::{Collecting, CycleState};
use gi_pairs::{CycleId, Table};
use std::alloc::{AllocError, Global};
use std::collections::BTreeMap;
use std::mem;

fn cycle_of(state: &CycleState) -> CycleId
    ensures { result ≡ id_of state.now }
{
    match state {
        CycleState::Collecting(cycle) => cycle.id(),
        CycleState::Frozen(cycle) => cycle.id(),
        CycleState::Matched(cycle) => cycle.id(),
    }
}

pub(crate) fn stage(state: &CycleState) -> StageName
    ensures { result ≡ stage_of state.now }
{
    match state {
        CycleState::Collecting(_) => StageName::Collecting,
        CycleState::Frozen(_) => StageName::Frozen,
        CycleState::Matched(_) => StageName::Matched,
    }
}

pub(crate) fn close(
    stages: &mut BTreeMap<CycleId, Stage>,
    id: &CycleId,
    own: Table,
    number: u32,
) -> Result<(), AllocError>
    requires { length own.rows ≤ most_processed_rows }
    ensures closed { (side : Side) (point : List ℕ) (facts : List Fact) (rule : Rule) → AreStages side point facts stages.old.entries → bad_fact side point (facts ++ Closed id.now rule ∷ []) ≡ None
        → own ≡ processed (capacity_of facts) (documents_of facts) side id.now.day id.now.cycle rule → number ≡ length facts + 1
        → OnOk result (AreStages side point (facts ++ Closed id.now rule ∷ []) stages.new.entries) }
    ensures unchanged { OnErr result (stages.new.entries ≡ stages.old.entries) }
{
    let stage = Stage {
        state: CycleState::Frozen(Collecting::new(*id).close(own)),
        closing: number,
        meeting: None,
    };
    // (handed to drop, by one call: going out of scope here would be checked field by field on each way out)
    drop(stages.insert(*id, stage)?);
    Ok(())
}

fn meet_in(alloc: Global, state: &mut CycleState, peer: Table) -> Result<(), AllocError>
    requires frozen { (cycle : FrozenCycle) × (state.now ≡ Frozen cycle) × HasShapeOf cycle.own peer }
    requires few { length peer.rows ≤ most_processed_rows }
    ensures met { (cycle : FrozenCycle) → state.old ≡ Frozen cycle → OnOk result (state.new ≡ Matched (matched_of cycle peer)) }
    ensures unchanged { OnErr result (state.new ≡ state.old) }
{
    // What meets is moved, so for that time another state stands in its place.
    let id = cycle_of(state);
    let collecting = CycleState::Collecting(Collecting::new(id));
    let CycleState::Frozen(cycle) = mem::replace(state, collecting) else {
        unreachable!()
    };
    match cycle.meet(alloc, peer) {
        Ok(matched) => {
            drop(mem::replace(state, CycleState::Matched(matched)));
            Ok(())
        }
        Err((cycle, _)) => {
            drop(mem::replace(state, CycleState::Frozen(cycle)));
            Err(AllocError)
        }
    }
}

fn meet_at(alloc: Global, stage: &mut Stage, peer: Table, number: u32) -> Result<(), AllocError>
    requires frozen { (cycle : FrozenCycle) × (stage.now.state ≡ Frozen cycle) × HasShapeOf cycle.own peer }
    requires few { length peer.rows ≤ most_processed_rows }
    ensures met { (cycle : FrozenCycle) → stage.old.state ≡ Frozen cycle
        → OnOk result (stage.new ≡ record { state = Matched (matched_of cycle peer); closing = stage.old.closing; meeting = Some number }) }
    ensures unchanged { OnErr result (stage.new ≡ stage.old) }
{
    meet_in(alloc, &mut stage.state, peer)?;
    stage.meeting = Some(number);
    Ok(())
}

pub(crate) fn meet(
    alloc: Global,
    stages: &mut BTreeMap<CycleId, Stage>,
    id: &CycleId,
    peer: Table,
    number: u32,
) -> Result<(), AllocError>
    requires { (side : Side) × (point : List ℕ) × (facts : List Fact)
        × AreStages side point facts stages.now.entries × (bad_fact side point (facts ++ Met id.now peer ∷ []) ≡ None) }
    ensures met { (side : Side) (point : List ℕ) (facts : List Fact) → AreStages side point facts stages.old.entries → bad_fact side point (facts ++ Met id.now peer ∷ []) ≡ None
        → number ≡ length facts + 1 → OnOk result (AreStages side point (facts ++ Met id.now peer ∷ []) stages.new.entries) }
    ensures unchanged { OnErr result (stages.new.entries ≡ stages.old.entries) }
{
    let Some(stage) = stages.get_mut(id) else {
        unreachable!()
    };
    meet_at(alloc, stage, peer, number)
}

//! The closed cycles of a desk.

ghost use Rattle.std.specs.Prelude.{◌≡◌, ◌++◌, IfOk, OnOk};
ghost use Rattle.std.specs.Option.{option_and_then, option_to_list};
ghost use Rattle.gi_desk.specs.History.{closing_in, closings as closings_of};
ghost use Rattle.gi_desk.specs.Queries.{fact_at};
ghost use Rattle.gi_reports.specs.Cycles.{AreClosedCycles};

use gi_desk::{Desk, Fact, Role, closes_once};
use gi_pairs::CycleId;
use std::alloc::{AllocError, Global};

fn closed_by<R: Role>(desk: &Desk<R>, n: u32) -> Option<CycleId>
    ensures { result ≡ option_and_then closing_in (fact_at desk.now.facts n) }
{
    match desk.fact(n) {
        Some(Fact::Closed { id, .. }) => Some(*id),
        _ => None,
    }
}

fn add(ids: &mut Vec<CycleId>, id: Option<CycleId>) -> Result<(), AllocError>
    ensures { OnOk result (ids.new.items ≡ ids.old.items ++ option_to_list id) }
{
    if let Some(id) = id {
        ids.push(id)?;
    }
    Ok(())
}

pub(crate) fn closings<R: Role>(alloc: Global, desk: &Desk<R>) -> Result<Vec<CycleId>, AllocError>
    ensures { IfOk result (λ ids. ids.items ≡ closings_of desk.now.facts) }
{
    let mut ids = Vec::new(alloc);
    for before in 0..desk.len() {
        add(&mut ids, closed_by(desk, before + 1))?;
    }
    Ok(ids)
}

/// The closed cycles of a desk, by gas day and number, each once.
pub fn closed_cycles<R: Role>(alloc: Global, desk: &Desk<R>) -> Result<Vec<CycleId>, AllocError>
    ensures { IfOk result (λ ids. AreClosedCycles desk.now.facts ids.items) }
{
    desk.reveal_invariant();
    closes_once();
    let mut ids = closings(alloc, desk)?;
    ids.sort_unstable();
    Ok(ids)
}

//! The cycles that are closed at either desk.

ghost use Rattle.std.specs.Prelude.{IfOk};
ghost use Rattle.gi_audit.specs.Cycles.{AreClosedAtEither};

use gi_desk::Desk;
use gi_initiator::Initiating;
use gi_matcher::Matching;
use gi_pairs::CycleId;
use gi_reports::closed_cycles;
use std::alloc::{AllocError, Global};

/// The cycles that either desk has closed, by gas day and number, each once.
pub(crate) fn closed_at_either(
    alloc: Global,
    initiating: &Desk<Initiating>,
    matching: &Desk<Matching>,
) -> Result<Vec<CycleId>, AllocError>
    ensures { IfOk result (λ ids. AreClosedAtEither initiating.now matching.now ids.items) }
{
    let mut ids = closed_cycles(alloc, initiating)?;
    let mut others = closed_cycles(alloc, matching)?;
    ids.append(&mut others)?;
    ids.sort_unstable();
    ids.dedup();
    Ok(ids)
}

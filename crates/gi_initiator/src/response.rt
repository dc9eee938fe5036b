ghost use Rattle.std.specs.Prelude.{◌≡◌, ◌≤◌, IfOk, length, if◌then◌else◌, true};
ghost use Rattle.gi_pairs.specs.Limits.{most_processed_rows, most_rows};
ghost use Rattle.gi_lesser.specs.Lesser.{HasShapeOf, lesser_of};
ghost use Rattle.gi_parts.specs.Gathering.{is_whole};
ghost use Rattle.gi_parts.specs.Parts.{IsSent, part_of_response, rows_of};
ghost use Rattle.gi_desk.specs.Deciding.{IsUnlessShort, by_response, compared, difference as difference_of, met_again as met_again_of, part_again as part_again_of, response_may_want};
ghost use Rattle.gi_desk.specs.declared.decision.Decision.TheVariants.{Meet};

use gi_cycles::{CycleState, Matched};
use gi_desk::{Decision, Refusal, difference, met_again, part_again, refusal_of};
use gi_lesser::lesser;
use gi_messages::Delres;
use gi_pairs::{Row, Table};
use gi_parts::{Gathered, KeptParts, Part, Whole};
use std::alloc::{AllocError, Global};

/// The least place at which what is confirmed is not the lesser of both tables.
fn differing(
    alloc: Global,
    own: &Table,
    peer: &Table,
    confirmed: &[Row],
) -> Result<Option<u32>, AllocError>
    requires own { length own.now.rows ≤ most_processed_rows }
    requires peer { length peer.now.rows ≤ most_processed_rows }
    requires hours { HasShapeOf own.now peer.now }
    requires confirmed { length confirmed.now ≤ most_rows }
    ensures { IfOk result (λ row. row ≡ difference_of confirmed.now (lesser_of own.now peer.now).rows) }
{
    let lesser = lesser(alloc, own, peer)?;
    Ok(difference(confirmed, lesser.rows()))
}

/// What comes of all parts at a frozen cycle.
fn confirms(alloc: Global, own: &Table, whole: Whole) -> Decision
    requires own { length own.now.rows ≤ most_processed_rows }
    requires peer { length whole.processed.rows ≤ most_processed_rows }
    requires hours { HasShapeOf own.now whole.processed }
    ensures { IsUnlessShort true (compared own.now whole.processed (rows_of whole.confirmed) (Meet whole.processed)) result }
{
    let row = differing(alloc, own, &whole.processed, whole.confirmed_rows());
    let Whole {
        processed,
        confirmed,
    } = whole;
    drop(confirmed);
    match row {
        Ok(None) => Decision::Meet(processed),
        Ok(Some(row)) => {
            drop(processed);
            Decision::Refused(Refusal::NotTheLesser { row })
        }
        Err(_) => {
            drop(processed);
            Decision::Refused(Refusal::OutOfMemory)
        }
    }
}

/// What comes of a response to a cycle that met, for its hours.
fn again(alloc: Global, cycle: &Matched, part: &Part) -> Decision
    requires readable { IsSent part.now }
    requires hours { HasShapeOf cycle.now.own part.now.processed }
    ensures { IsUnlessShort (is_whole part.now) (if is_whole part.now then compared cycle.now.own part.now.processed (rows_of part.now.confirmed) (met_again_of cycle.now.peer part.now.processed) else part_again_of cycle.now part.now) result }
{
    if part.parts != 1 {
        return part_again(cycle, part);
    }
    match differing(alloc, cycle.own(), &part.processed, part.confirmed_rows()) {
        Ok(None) => met_again(cycle.peer(), &part.processed),
        Ok(Some(row)) => Decision::Refused(Refusal::NotTheLesser { row }),
        Err(_) => Decision::Refused(Refusal::OutOfMemory),
    }
}

/// What comes of a response, one that can be read, in a state of its cycle and with the parts that
/// are kept: `NotClosed` while nominations are collected; `ShapeDiffers` where its processed table is
/// for other hours than the frozen one (in a response that was read both tables are for the same
/// hours). At a frozen cycle one part of several is `PartDiffers`, or to be kept until it is the last
/// one missing, and then all together are `PartsOverlap` or `TooManyRows`. What all parts confirm, or
/// a whole response, is `NotTheLesser` where it is not the lesser of the frozen table and the
/// processed one; else the cycle meets the latter, which is moved out of a whole response. A cycle
/// that met has met it already, or answers `Conflict`; a whole response may be `NotTheLesser` before.
/// `OutOfMemory` comes only where the hours are the same, at a frozen cycle, and for a whole response
/// at one that met.
pub fn take_response(
    alloc: Global,
    state: &CycleState,
    kept: &KeptParts,
    response: Delres,
) -> Decision
    requires { IsSent (part_of_response response) }
    ensures { IsUnlessShort (response_may_want (part_of_response response) state.now) (by_response kept.now (part_of_response response) state.now) result }
{
    let part = Part::of_response(response);
    let decision = match state {
        CycleState::Frozen(cycle) if cycle.own().covers_same_hours(&part.processed) => {
            return match kept.gather(alloc, &cycle.id(), part) {
                Gathered::Complete(whole) => confirms(alloc, cycle.own(), whole),
                Gathered::Keep(part) => Decision::Keep(part),
                Gathered::Refused(fault) => Decision::Refused(refusal_of(fault)),
            };
        }
        CycleState::Matched(cycle) if cycle.own().covers_same_hours(&part.processed) => {
            again(alloc, cycle, &part)
        }
        CycleState::Collecting(_) => Decision::Refused(Refusal::NotClosed),
        _ => Decision::Refused(Refusal::ShapeDiffers),
    };
    // (handed to drop, by one call: going out of scope here would be checked field by field on each way out)
    drop(part);
    decision
}

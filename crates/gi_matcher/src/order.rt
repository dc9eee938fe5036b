ghost use Rattle.std.specs.Prelude.{◌≡◌, if◌then◌else◌};
ghost use Rattle.gi_parts.specs.Gathering.{is_whole};
ghost use Rattle.gi_parts.specs.Parts.{IsSent, part_of_order};
ghost use Rattle.gi_desk.specs.Deciding.{IsUnlessShort, by_order, met_again as met_again_of, order_may_want, ordered as ordered_by, part_again as part_again_of};

use gi_cycles::{CycleState, Matched};
use gi_desk::{Decision, Refusal, met_again, part_again, refusal_of};
use gi_messages::Delord;
use gi_parts::{Gathered, KeptParts, Part, Whole};
use std::alloc::Global;

/// What comes of an order at a frozen cycle: the table of all parts meets, since an order confirms
/// nothing.
fn ordered(gathered: Gathered) -> Decision
    ensures { result ≡ ordered_by gathered }
{
    match gathered {
        Gathered::Complete(
            Whole {
                processed,
                confirmed,
            },
        ) => {
            drop(confirmed);
            Decision::Meet(processed)
        }
        Gathered::Keep(part) => Decision::Keep(part),
        Gathered::Refused(fault) => Decision::Refused(refusal_of(fault)),
    }
}

/// What comes of an order to a cycle that met, for its hours.
fn again(cycle: &Matched, part: &Part) -> Decision
    ensures { result ≡ (if is_whole part.now then met_again_of cycle.now.peer part.now.processed else part_again_of cycle.now part.now) }
{
    if part.parts == 1 {
        met_again(cycle.peer(), &part.processed)
    } else {
        part_again(cycle, part)
    }
}

/// What comes of an order, one that can be read, in a state of its cycle and with the parts that are
/// kept: `NotClosed` while nominations are collected; `ShapeDiffers` where its table is for other
/// hours than the frozen one. A frozen cycle meets the table of a whole order, which is moved out of
/// it. One part of several is `PartDiffers`, or to be kept until it is the last one missing; then all
/// together are `PartsOverlap`, `TooManyRows`, or the table that meets. A cycle that met has met it
/// already, or answers `Conflict`. `OutOfMemory` comes only for one of several parts, at a frozen
/// cycle and for its hours.
pub fn take_order(alloc: Global, state: &CycleState, kept: &KeptParts, order: Delord) -> Decision
    requires { IsSent (part_of_order order) }
    ensures { IsUnlessShort (order_may_want (part_of_order order) state.now) (by_order kept.now (part_of_order order) state.now) result }
{
    let part = Part::of_order(order);
    let decision = match state {
        CycleState::Frozen(cycle) if cycle.own().covers_same_hours(&part.processed) => {
            return ordered(kept.gather(alloc, &cycle.id(), part));
        }
        CycleState::Matched(cycle) if cycle.own().covers_same_hours(&part.processed) => {
            again(cycle, &part)
        }
        CycleState::Collecting(_) => Decision::Refused(Refusal::NotClosed),
        _ => Decision::Refused(Refusal::ShapeDiffers),
    };
    // (handed to drop, by one call: going out of scope here would be checked field by field on each way out)
    drop(part);
    decision
}

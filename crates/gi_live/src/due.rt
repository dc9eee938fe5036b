//! Which cycles are due at a moment.

ghost use Rattle.std.specs.Prelude.{◌≡◌, ◌++◌, IfOk, OnOk};
ghost use Rattle.std.specs.List.{list_any};
ghost use Rattle.gi_day.specs.Cycles.{IsCycle};
ghost use Rattle.gi_live.specs.Due.{AreDue, due_at, due_of, is_due as is_due_of, is_from as is_from_of};

use gi_day::{DayFrame, GasDay};
use gi_desk::{Desk, Role};
use gi_moments::Moment;
use gi_pairs::CycleId;
use gi_reports::closed_cycles;
use std::alloc::{AllocError, Global};

/// Whether it is the cycle of that number or a later one of the day.
fn is_from(day: GasDay, cycle: u8, id: &CycleId) -> bool
    ensures { result ≡ is_from_of day cycle id.now }
{
    id.day == day && cycle <= id.cycle
}

fn is_any_from(day: GasDay, cycle: u8, closed: &[CycleId]) -> bool
    ensures { result ≡ list_any (is_from_of day cycle) closed.now }
{
    for id in closed {
        if is_from(day, cycle, id) {
            return true;
        }
    }
    false
}

/// Whether the cycle has started at the moment, and neither it nor a later one of its day is closed.
fn is_due(closed: &[CycleId], moment: Moment, frame: DayFrame, cycle: u8) -> bool
    requires { IsCycle frame cycle }
    ensures { result ≡ is_due_of closed.now moment frame cycle }
{
    !is_any_from(frame.day(), cycle, closed) && frame.cycle_start(cycle).unwrap() <= moment.second()
}

fn add_due_at(
    ids: &mut Vec<CycleId>,
    closed: &[CycleId],
    moment: Moment,
    frame: DayFrame,
    cycle: u8,
) -> Result<(), AllocError>
    requires { IsCycle frame cycle }
    ensures { OnOk result (ids.new.items ≡ ids.old.items ++ due_at closed.now moment frame cycle) }
{
    if is_due(closed, moment, frame, cycle) {
        ids.push(CycleId {
            day: frame.day(),
            cycle,
        })?;
    }
    Ok(())
}

fn add_due(
    ids: &mut Vec<CycleId>,
    closed: &[CycleId],
    moment: Moment,
    frame: DayFrame,
) -> Result<(), AllocError>
    ensures { OnOk result (ids.new.items ≡ ids.old.items ++ due_of closed.now moment frame) }
{
    for cycle in 0..frame.cycle_count() {
        add_due_at(ids, closed, moment, frame, cycle)?;
    }
    Ok(())
}

/// The cycles that are due at the moment: those that have started and are not closed, nor is a later one of their day, by gas day and
/// number.
pub(crate) fn due_cycles<R: Role>(
    alloc: Global,
    desk: &Desk<R>,
    moment: Moment,
) -> Result<Vec<CycleId>, AllocError>
    ensures { IfOk result (λ ids. AreDue desk.now.facts moment ids.items) }
{
    let closed = closed_cycles(alloc, desk)?;
    let days = moment.near_days(alloc, desk.calendar())?;
    let mut ids = Vec::new(alloc);
    for day in &days {
        add_due(
            &mut ids,
            &closed,
            moment,
            desk.calendar().frame(*day).unwrap(),
        )?;
    }
    Ok(ids)
}

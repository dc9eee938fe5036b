//! The cycles of a gas day, each as far as it is.

ghost use Rattle.std.specs.Prelude.{◌≡◌, IfOk, unsigned_abs};
ghost use Rattle.std.specs.Option.{option_copied};
ghost use Rattle.gi_day.specs.Cycles.{IsCycle, cycle_count, cycle_start, first_hour};
ghost use Rattle.gi_desk.specs.Queries.{confirmed as confirmed_of};
ghost use Rattle.gi_page.specs.Marks.{mark_of, marks_of, met_by as met_by_of, standing_at, standing_by};

use gi_day::DayFrame;
use gi_day_tables::{CycleMark, Standing};
use gi_desk::{Desk, Role};
use gi_pairs::{CycleId, Table};
use std::alloc::{AllocError, Global};

fn start_of(frame: DayFrame, cycle: u8) -> u64
    requires { IsCycle frame cycle }
    ensures { result ≡ unsigned_abs (cycle_start frame cycle) }
{
    frame.cycle_start(cycle).unwrap().unsigned_abs()
}

fn first_of(frame: DayFrame, cycle: u8) -> u8
    requires { IsCycle frame cycle }
    ensures { result ≡ first_hour frame cycle }
{
    frame.first_hour(cycle).unwrap()
}

fn met_by<R: Role>(desk: &Desk<R>, id: &CycleId) -> Option<u32>
    ensures { result ≡ met_by_of desk.now id.now }
{
    match desk.meeting(*id) {
        Some((number, _)) => Some(number),
        None => None,
    }
}

fn standing_of(closed: Option<u32>, met: Option<u32>, table: Option<&Table>) -> Standing
    ensures { result ≡ standing_by closed met (option_copied table.entry) }
{
    match (closed, met, table) {
        (None, _, _) => Standing::NotClosed,
        (Some(_), None, _) => Standing::Frozen,
        (Some(_), Some(_), None) => Standing::Unsaved,
        (Some(_), Some(_), Some(_)) => Standing::Confirmed,
    }
}

fn standing<R: Role>(desk: &Desk<R>, id: &CycleId) -> Standing
    ensures { result ≡ standing_at R.SIDE desk.now id.now }
{
    standing_of(desk.closing(*id), met_by(desk, id), desk.confirmed(*id))
}

fn mark<R: Role>(desk: &Desk<R>, frame: DayFrame, id: &CycleId) -> CycleMark
    requires day { id.now.day ≡ frame }
    requires cycle { IsCycle frame id.now.cycle }
    ensures { result ≡ mark_of R.SIDE desk.now id.now }
{
    CycleMark {
        cycle: id.cycle,
        start: start_of(frame, id.cycle),
        first: first_of(frame, id.cycle),
        standing: standing(desk, id),
        closed: desk.closing(*id),
        met: met_by(desk, id),
    }
}

/// Each cycle of the gas day, in order.
pub(crate) fn cycle_marks<R: Role>(
    alloc: Global,
    desk: &Desk<R>,
    frame: DayFrame,
) -> Result<Vec<CycleMark>, AllocError>
    ensures { IfOk result (λ marks. marks.items ≡ marks_of R.SIDE desk.now frame (cycle_count frame)) }
{
    let mut marks = Vec::new(alloc);
    for cycle in 0..frame.cycle_count() {
        let id = CycleId {
            day: frame.day(),
            cycle,
        };
        marks.push(mark(desk, frame, &id))?;
    }
    Ok(marks)
}

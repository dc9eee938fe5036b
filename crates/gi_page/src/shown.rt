//! Of which cycle what is nominated and processed for an hour is shown.

ghost use Rattle.std.specs.Prelude.{◌≡◌, ◌≤◌, IfOk, length};
ghost use Rattle.std.specs.Option.{option_copied};
ghost use Rattle.gi_schedule.specs.InForce.{covers as covers_hour, is_covered as is_covered_by};
ghost use Rattle.gi_page.specs.Keys.{frozen_tables};
ghost use Rattle.gi_page.specs.Shown.{cycles_at as cycles_at_hour, first_of as first_of_both, hour_cycles as hour_cycles_of, last_closed as last_closed_of};

use crate::hour_cycles::HourCycles;
use gi_day::GasDay;
use gi_desk::{Desk, Role};
use gi_messages::LAST_CYCLE;
use gi_pairs::{CycleId, Table};
use gi_schedule::cycle_in_force;
use std::alloc::{AllocError, Global};

fn covers(table: Option<&Table>, hour: u8) -> bool
    ensures { result ≡ covers_hour hour (option_copied table.entry) }
{
    match table {
        Some(table) => table.first() <= hour && hour <= table.last(),
        None => false,
    }
}

fn is_covered<R: Role>(desk: &Desk<R>, day: GasDay, hour: u8, cycle: u8) -> bool
    ensures { result ≡ is_covered_by (frozen_tables R.SIDE desk.now) day hour cycle }
{
    covers(desk.frozen(CycleId { day, cycle }), hour)
}

fn last_closed<R: Role>(desk: &Desk<R>, day: GasDay, hour: u8) -> Option<u8>
    ensures { result ≡ last_closed_of R.SIDE desk.now day hour }
{
    let mut found = None;
    for cycle in 0..LAST_CYCLE + 1 {
        if is_covered(desk, day, hour, cycle) {
            found = Some(cycle);
        }
    }
    found
}

fn first_of(cycle: Option<u8>, other: Option<u8>) -> Option<u8>
    ensures { result ≡ first_of_both cycle other }
{
    match cycle {
        Some(cycle) => Some(cycle),
        None => other,
    }
}

fn cycles_at<R: Role>(desk: &Desk<R>, day: GasDay, number: u8) -> HourCycles
    ensures { result ≡ cycles_at_hour R.SIDE desk.now day number }
{
    let cycle = cycle_in_force(desk, day, number);
    HourCycles {
        number,
        shown: first_of(cycle, last_closed(desk, day, number)),
        cycle,
    }
}

/// The cycles of each hour of a gas day of so many, in order.
pub(crate) fn hour_cycles<R: Role>(
    alloc: Global,
    desk: &Desk<R>,
    day: GasDay,
    count: u8,
) -> Result<Vec<HourCycles>, AllocError>
    requires { count ≤ 25 }
    ensures value { IfOk result (λ cycles. cycles.items ≡ hour_cycles_of R.SIDE desk.now day count) }
    ensures count { IfOk result (λ cycles. length cycles.items ≡ count) }
{
    let mut cycles = Vec::new(alloc);
    for before in 0..count {
        cycles.push(cycles_at(desk, day, before + 1))?;
    }
    Ok(cycles)
}

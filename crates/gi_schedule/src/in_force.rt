//! Which confirmed cycle is in force for an hour, and what it has for it.

ghost use Rattle.std.specs.Prelude.{◌≡◌, ◌≤◌, ◌++◌, ℕ, false, IfOk, MatchOption, OnOk, length};
ghost use Rattle.gi_desk.specs.Queries.{confirmed};
ghost use Rattle.gi_pairs.specs.Limits.{last_hour};
ghost use Rattle.gi_pairs.specs.Quantity.{IsQuantity};
ghost use Rattle.gi_schedule.specs.InForce.{IsInForce, cycle_in_force as cycle_of_hour, hour_if, hours_in_force as hours_of, is_covered as is_covered_by, last_below, last_confirmed as last_of, quantity_of};

use crate::hour_in_force::HourInForce;
use gi_day::GasDay;
use gi_desk::{Desk, Role};
use gi_messages::LAST_CYCLE;
use gi_pairs::{CycleId, Key, LAST_HOUR};
use std::alloc::{AllocError, Global};

fn is_covered<R: Role>(desk: &Desk<R>, day: GasDay, hour: u8, cycle: u8) -> bool
    ensures { result ≡ is_covered_by (confirmed R.SIDE desk.now) day hour cycle }
{
    match desk.confirmed(CycleId { day, cycle }) {
        Some(table) => table.first() <= hour && hour <= table.last(),
        None => false,
    }
}

/// The number of the last of the day's confirmed cycles before a number that covers the hour, where
/// there is one.
pub fn last_before<R: Role>(desk: &Desk<R>, day: GasDay, hour: u8, end: u8) -> Option<u8>
    ensures { result ≡ last_below (is_covered_by (confirmed R.SIDE desk.now) day hour) end }
{
    let mut found = None;
    for cycle in 0..end {
        if is_covered(desk, day, hour, cycle) {
            found = Some(cycle);
        }
    }
    found
}

/// The number of the cycle in force for an hour of a gas day: of the confirmed cycles of the day the
/// last that covers the hour, where there is one.
pub fn cycle_in_force<R: Role>(desk: &Desk<R>, day: GasDay, hour: u8) -> Option<u8>
    ensures value { result ≡ cycle_of_hour (confirmed R.SIDE desk.now) day hour }
    ensures last { MatchOption result
        ((cycle : ℕ) → is_covered_by (confirmed R.SIDE desk.now) day hour cycle ≡ false)
        (IsInForce (confirmed R.SIDE desk.now) day hour) }
{
    desk.reveal_invariant();
    last_before(desk, day, hour, LAST_CYCLE + 1)
}

/// The quantity in force for a pair, a direction and an hour, in kWh/h: what the cycle that is in
/// force for the hour confirmed, and 0 where it has no row for them.
pub fn quantity_in_force<R: Role>(desk: &Desk<R>, day: GasDay, key: &Key, at: &HourInForce) -> u64
    ensures value { result ≡ quantity_of (confirmed R.SIDE desk.now) day key.now at.now }
    ensures in_range { IsQuantity result }
{
    match desk.confirmed(CycleId {
        day,
        cycle: at.cycle,
    }) {
        Some(table) => table.at(key.pair, key.direction, at.hour),
        None => 0,
    }
}

/// The number of the last confirmed cycle of a gas day, where there is one.
pub(crate) fn last_confirmed<R: Role>(desk: &Desk<R>, day: GasDay) -> Option<u8>
    ensures { result ≡ last_of (confirmed R.SIDE desk.now) day }
{
    let mut found = None;
    for cycle in 0..LAST_CYCLE + 1 {
        if desk.confirmed(CycleId { day, cycle }).is_some() {
            found = Some(cycle);
        }
    }
    found
}

fn add_hour(hours: &mut Vec<HourInForce>, hour: u8, cycle: Option<u8>) -> Result<(), AllocError>
    ensures { OnOk result (hours.new.items ≡ hours.old.items ++ hour_if hour cycle) }
{
    if let Some(cycle) = cycle {
        hours.push(HourInForce { hour, cycle })?;
    }
    Ok(())
}

/// Each hour of a gas day for which a cycle is in force, in order.
pub(crate) fn hours_in_force<R: Role>(
    alloc: Global,
    desk: &Desk<R>,
    day: GasDay,
) -> Result<Vec<HourInForce>, AllocError>
    ensures value { IfOk result (λ hours. hours.items ≡ hours_of (confirmed R.SIDE desk.now) day) }
    ensures few { IfOk result (λ hours. length hours.items ≤ last_hour) }
{
    let mut hours = Vec::new(alloc);
    for hour in 1..LAST_HOUR + 1 {
        add_hour(&mut hours, hour, cycle_in_force(desk, day, hour))?;
    }
    Ok(hours)
}

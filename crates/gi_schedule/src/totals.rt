//! The totals of a schedule.

ghost use Rattle.std.specs.Prelude.{◌≡◌, ◌*◌, ◌≤◌, ◌++◌, ◌∷◌, [], OnOk, length};
ghost use Rattle.gi_desk.specs.Queries.{confirmed};
ghost use Rattle.gi_pairs.specs.Limits.{last_hour};
ghost use Rattle.gi_schedule.specs.Keys.{most_keys};
ghost use Rattle.gi_schedule.specs.Lines.{counted as counted_of, day_total as total_of_day, hour_total as total_of_hour, most_hourly, total_line, total_lines};

use crate::hour_in_force::HourInForce;
use crate::in_force::quantity_in_force;
use crate::schedule_line::{Flow, ScheduleLine};
use gi_day::GasDay;
use gi_desk::{Desk, Role};
use gi_pairs::{Direction, Key};
use std::alloc::AllocError;

fn counted(direction: Direction, key: &Key, quantity: u64) -> u64
    ensures value { result ≡ counted_of direction key.now.direction quantity }
    ensures within { result ≤ quantity }
{
    match (direction, key.direction) {
        (Direction::IM, Direction::IM) => quantity,
        (Direction::MI, Direction::MI) => quantity,
        _ => 0,
    }
}

/// What is in force for an hour in a direction, of all those pairs together, in kWh/h.
pub(crate) fn hour_total<R: Role>(
    desk: &Desk<R>,
    day: GasDay,
    direction: Direction,
    keys: &[Key],
    at: &HourInForce,
) -> u64
    requires { length keys.now ≤ most_keys }
    ensures value { result ≡ total_of_hour (confirmed R.SIDE desk.now) day direction keys.now at.now }
    ensures within { result ≤ most_hourly }
{
    let mut total = 0;
    for key in keys {
        let quantity = quantity_in_force(desk, day, key, at);
        total += counted(direction, key, quantity);
    }
    total
}

/// The same of all those hours together, in kWh.
pub(crate) fn day_total<R: Role>(
    desk: &Desk<R>,
    day: GasDay,
    direction: Direction,
    keys: &[Key],
    hours: &[HourInForce],
) -> u64
    requires keys { length keys.now ≤ most_keys }
    requires hours { length hours.now ≤ last_hour }
    ensures value { result ≡ total_of_day (confirmed R.SIDE desk.now) day direction keys.now hours.now }
    ensures within { result ≤ last_hour * most_hourly }
{
    let mut total = 0;
    for at in hours {
        total += hour_total(desk, day, direction, keys, at);
    }
    total
}

fn add_total(
    lines: &mut Vec<ScheduleLine>,
    day: GasDay,
    at: Option<HourInForce>,
    flow: Flow,
    quantity: i64,
) -> Result<(), AllocError>
    ensures { OnOk result (lines.new.items ≡ lines.old.items ++ total_line day at flow quantity ∷ []) }
{
    lines.push(ScheduleLine {
        day,
        cycle: at.map(|at| at.cycle),
        flow,
        pair: None,
        hour: at.map(|at| at.hour),
        quantity,
    })?;
    Ok(())
}

/// Adds the lines of what goes in each direction, and of the difference.
pub(crate) fn add_totals(
    lines: &mut Vec<ScheduleLine>,
    day: GasDay,
    at: Option<HourInForce>,
    initiating: u64,
    matching: u64,
) -> Result<(), AllocError>
    requires initiating { initiating ≤ last_hour * most_hourly }
    requires matching { matching ≤ last_hour * most_hourly }
    ensures { OnOk result (lines.new.items ≡ lines.old.items ++ total_lines day at initiating matching) }
{
    let out = Flow::Gross(Direction::IM);
    let back = Flow::Gross(Direction::MI);
    let initiating = initiating as i64;
    let matching = matching as i64;
    add_total(lines, day, at, out, initiating)?;
    add_total(lines, day, at, back, matching)?;
    add_total(lines, day, at, Flow::Net, initiating - matching)
}

//! The lines of a schedule, before they are written in any form.

ghost use Rattle.std.specs.Prelude.{◌≡◌, ◌≤◌, ◌++◌, IfOk, OnOk, length};
ghost use Rattle.gi_desk.specs.Queries.{confirmed};
ghost use Rattle.gi_pairs.specs.Limits.{last_hour};
ghost use Rattle.gi_schedule.specs.Keys.{most_keys};
ghost use Rattle.gi_schedule.specs.Lines.{IsSchedule, day_lines as lines_of_day, hour_totals as totals_of_hours, is_listed as is_listed_of, is_number as is_number_of, key_lines as lines_of_key, keys_lines, lines_if, schedule};

use crate::hour_in_force::HourInForce;
use crate::in_force::{hours_in_force, last_confirmed, quantity_in_force};
use crate::keys::day_keys;
use crate::schedule_line::{Flow, ScheduleLine};
use crate::totals::{add_totals, day_total, hour_total};
use crate::wanted::Wanted;
use gi_day::GasDay;
use gi_desk::{Desk, Role};
use gi_pairs::{CycleId, Direction, Key};
use gi_reports::closed_cycles;
use std::alloc::{AllocError, Global};

fn add_key<R: Role>(
    lines: &mut Vec<ScheduleLine>,
    desk: &Desk<R>,
    day: GasDay,
    key: &Key,
    hours: &[HourInForce],
) -> Result<(), AllocError>
    ensures { OnOk result (lines.new.items ≡ lines.old.items ++ lines_of_key (confirmed R.SIDE desk.now) day hours.now key.now) }
{
    for at in hours {
        let quantity = quantity_in_force(desk, day, key, at);
        lines.push(ScheduleLine {
            day,
            cycle: Some(at.cycle),
            flow: Flow::Gross(key.direction),
            pair: Some(key.pair),
            hour: Some(at.hour),
            quantity: quantity as i64,
        })?;
    }
    Ok(())
}

fn add_keys<R: Role>(
    lines: &mut Vec<ScheduleLine>,
    desk: &Desk<R>,
    day: GasDay,
    keys: &[Key],
    hours: &[HourInForce],
) -> Result<(), AllocError>
    ensures { OnOk result (lines.new.items ≡ lines.old.items ++ keys_lines (confirmed R.SIDE desk.now) day keys.now hours.now) }
{
    for key in keys {
        add_key(lines, desk, day, key, hours)?;
    }
    Ok(())
}

fn add_hours<R: Role>(
    lines: &mut Vec<ScheduleLine>,
    desk: &Desk<R>,
    day: GasDay,
    keys: &[Key],
    hours: &[HourInForce],
) -> Result<(), AllocError>
    requires { length keys.now ≤ most_keys }
    ensures { OnOk result (lines.new.items ≡ lines.old.items ++ totals_of_hours (confirmed R.SIDE desk.now) day keys.now hours.now) }
{
    for at in hours {
        let initiating = hour_total(desk, day, Direction::IM, keys, at);
        let matching = hour_total(desk, day, Direction::MI, keys, at);
        add_totals(lines, day, Some(*at), initiating, matching)?;
    }
    Ok(())
}

fn add_listed<R: Role>(
    lines: &mut Vec<ScheduleLine>,
    desk: &Desk<R>,
    day: GasDay,
    keys: &[Key],
    hours: &[HourInForce],
) -> Result<(), AllocError>
    requires keys { length keys.now ≤ most_keys }
    requires hours { length hours.now ≤ last_hour }
    ensures { OnOk result (lines.new.items ≡ lines.old.items ++ lines_of_day (confirmed R.SIDE desk.now) day keys.now hours.now) }
{
    add_keys(lines, desk, day, keys, hours)?;
    add_hours(lines, desk, day, keys, hours)?;
    let initiating = day_total(desk, day, Direction::IM, keys, hours);
    let matching = day_total(desk, day, Direction::MI, keys, hours);
    add_totals(lines, day, None, initiating, matching)
}

fn add_day<R: Role>(
    alloc: Global,
    lines: &mut Vec<ScheduleLine>,
    desk: &Desk<R>,
    wanted: &Wanted,
    day: GasDay,
) -> Result<(), AllocError>
    ensures { OnOk result (lines.new.items ≡ lines.old.items ++ schedule (confirmed R.SIDE desk.now) wanted.now.portfolio day) }
{
    let hours = hours_in_force(alloc, desk, day)?;
    let keys = day_keys(alloc, desk, wanted, day)?;
    add_listed(lines, desk, day, &keys, &hours)
}

fn is_number(n: u8, number: Option<u8>) -> bool
    ensures { result ≡ is_number_of n number }
{
    match number {
        Some(other) => n == other,
        None => false,
    }
}

/// Whether a gas day that is wanted is listed at this cycle: it is the day's last confirmed one.
#[tactic(auto, unfolding(crate::specs::Lines::is_listed))]
pub fn is_listed<R: Role>(desk: &Desk<R>, wanted: &Wanted, id: &CycleId) -> bool
    ensures { result ≡ is_listed_of (confirmed R.SIDE desk.now) wanted.now id.now }
{
    wanted.has_day(id.day) && is_number(id.cycle, last_confirmed(desk, id.day))
}

/// The schedule of a side, each gas day that has a confirmed cycle in its order: the lines of each
/// pair and direction in table order, hour by hour; the totals of each hour; the totals of the day.
pub(crate) fn schedule_lines<R: Role>(
    alloc: Global,
    desk: &Desk<R>,
    wanted: &Wanted,
) -> Result<Vec<ScheduleLine>, AllocError>
    ensures { IfOk result (λ lines. IsSchedule R.SIDE desk.now wanted.now lines.items) }
{
    let ids = closed_cycles(alloc, desk)?;
    let mut lines = Vec::new(alloc);
    for id in &ids {
        if is_listed(desk, wanted, id) {
            add_day(alloc, &mut lines, desk, wanted, id.day)?;
        }
    }
    Ok(lines)
}

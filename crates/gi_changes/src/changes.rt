//! What each confirmed cycle of a gas day changed.

ghost use Rattle.std.specs.Prelude.{◌≡◌, ◌++◌, IfOk, OnOk, Some};
ghost use Rattle.gi_desk.specs.Queries.{confirmed};
ghost use Rattle.gi_pairs.specs.Quantity.{IsQuantity};
ghost use Rattle.gi_changes.specs.Changes.{AreChanges, changes, changes_if, hour_change as change_of_hour, if_changed, key_changes, keys_changes, quantity_before as quantity_of_before};

use crate::change_line::ChangeLine;
use gi_day::GasDay;
use gi_desk::{Desk, Role};
use gi_messages::LAST_CYCLE;
use gi_pairs::{CycleId, Key, Table};
use gi_reports::closed_cycles;
use gi_schedule::parts::{add_cycle_keys, is_listed, last_before};
use gi_schedule::{HourInForce, Wanted, quantity_in_force};
use std::alloc::{AllocError, Global};
use std::collections::BTreeSet;

fn quantity_before<R: Role>(desk: &Desk<R>, id: &CycleId, key: &Key, hour: u8) -> u64
    ensures value { result ≡ quantity_of_before (confirmed R.SIDE desk.now) id.now.day key.now hour id.now.cycle }
    ensures in_range { IsQuantity result }
{
    match last_before(desk, id.day, hour, id.cycle) {
        Some(cycle) => quantity_in_force(desk, id.day, key, &HourInForce { hour, cycle }),
        None => 0,
    }
}

fn hour_change<R: Role>(
    desk: &Desk<R>,
    id: &CycleId,
    key: &Key,
    table: &Table,
    hour: u8,
) -> ChangeLine
    ensures { result ≡ change_of_hour (confirmed R.SIDE desk.now) id.now key.now table.now hour }
{
    let before = quantity_before(desk, id, key, hour);
    let after = table.at(key.pair, key.direction, hour);
    ChangeLine {
        id: *id,
        direction: key.direction,
        pair: key.pair,
        hour,
        before,
        after,
        change: after as i64 - before as i64,
    }
}

fn add_if_changed(lines: &mut Vec<ChangeLine>, line: ChangeLine) -> Result<(), AllocError>
    ensures { OnOk result (lines.new.items ≡ lines.old.items ++ if_changed line) }
{
    if line.before != line.after {
        lines.push(line)?;
    }
    Ok(())
}

fn add_key<R: Role>(
    lines: &mut Vec<ChangeLine>,
    desk: &Desk<R>,
    id: &CycleId,
    key: &Key,
    table: &Table,
) -> Result<(), AllocError>
    ensures { OnOk result (lines.new.items ≡ lines.old.items ++ key_changes (confirmed R.SIDE desk.now) id.now table.now key.now) }
{
    table.reveal_invariant();
    for hour in table.first()..table.last() + 1 {
        add_if_changed(lines, hour_change(desk, id, key, table, hour))?;
    }
    Ok(())
}

fn add_keys<R: Role>(
    lines: &mut Vec<ChangeLine>,
    desk: &Desk<R>,
    id: &CycleId,
    keys: &[Key],
    table: &Table,
) -> Result<(), AllocError>
    ensures { OnOk result (lines.new.items ≡ lines.old.items ++ keys_changes (confirmed R.SIDE desk.now) id.now keys.now table.now) }
{
    for key in keys {
        add_key(lines, desk, id, key, table)?;
    }
    Ok(())
}

fn add_table<R: Role>(
    alloc: Global,
    lines: &mut Vec<ChangeLine>,
    desk: &Desk<R>,
    id: &CycleId,
    keys: &BTreeSet<Key>,
    table: &Table,
) -> Result<(), AllocError>
    ensures { OnOk result (lines.new.items ≡ lines.old.items ++ keys_changes (confirmed R.SIDE desk.now) id.now keys.now.keys table.now) }
{
    let listed: Vec<Key> = keys.iter().copied().collect(alloc)?;
    add_keys(lines, desk, id, &listed, table)
}

fn add_cycle<R: Role>(
    alloc: Global,
    lines: &mut Vec<ChangeLine>,
    desk: &Desk<R>,
    id: &CycleId,
    keys: &BTreeSet<Key>,
) -> Result<(), AllocError>
    ensures { OnOk result (lines.new.items ≡ lines.old.items ++ changes_if (confirmed R.SIDE desk.now) id.now keys.now.keys (confirmed R.SIDE desk.now id.now)) }
{
    match desk.confirmed(*id) {
        Some(table) => add_table(alloc, lines, desk, id, keys, table),
        None => Ok(()),
    }
}

/// What each confirmed cycle of the gas day changed.
fn day_changes<R: Role>(
    alloc: Global,
    desk: &Desk<R>,
    wanted: &Wanted,
    day: GasDay,
) -> Result<Vec<ChangeLine>, AllocError>
    ensures { IfOk result (λ lines. lines.items ≡ changes (confirmed R.SIDE desk.now) wanted.now.portfolio day) }
{
    let mut keys = BTreeSet::new(alloc);
    let mut lines = Vec::new(alloc);
    for cycle in 0..LAST_CYCLE + 1 {
        let id = CycleId { day, cycle };
        add_cycle_keys(&mut keys, desk, wanted, id)?;
        add_cycle(alloc, &mut lines, desk, &id, &keys)?;
    }
    Ok(lines)
}

fn add_day<R: Role>(
    alloc: Global,
    lines: &mut Vec<ChangeLine>,
    desk: &Desk<R>,
    wanted: &Wanted,
    day: GasDay,
) -> Result<(), AllocError>
    ensures { OnOk result (lines.new.items ≡ lines.old.items ++ changes (confirmed R.SIDE desk.now) wanted.now.portfolio day) }
{
    let more = day_changes(alloc, desk, wanted, day)?;
    lines.extend_from_slice(&more)
}

/// What each confirmed cycle changed, each gas day that has one in its order: the cycles in order, the
/// pairs and directions of the rows of all confirmed cycles of the day up to it in table order, the
/// hours that it covers in order.
pub(crate) fn change_lines<R: Role>(
    alloc: Global,
    desk: &Desk<R>,
    wanted: &Wanted,
) -> Result<Vec<ChangeLine>, AllocError>
    ensures { IfOk result (λ lines. AreChanges R.SIDE desk.now wanted.now lines.items) }
{
    let ids = closed_cycles(alloc, desk)?;
    let mut lines = Vec::new(alloc);
    for id in &ids {
        if is_listed(desk, wanted, id) {
            add_day(alloc, &mut lines, desk, wanted, id.day)?;
        }
    }
    Ok(lines)
}

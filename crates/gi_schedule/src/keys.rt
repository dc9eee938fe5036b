//! The pairs and directions that a gas day's schedule lists.

ghost use Rattle.std.specs.Prelude.{◌≡◌, ◌+◌, ◌≤◌, IfOk, OnOk, length};
ghost use Rattle.gi_desk.specs.Queries.{confirmed};
ghost use Rattle.gi_pairs.specs.Limits.{most_rows};
ghost use Rattle.gi_schedule.specs.Keys.{day_keys as keys_of_day, keys_if, most_keys, row_keys, table_keys, with_each};

use crate::wanted::Wanted;
use gi_day::GasDay;
use gi_desk::{Desk, Role};
use gi_messages::LAST_CYCLE;
use gi_pairs::{CycleId, Key, Row, Table};
use std::alloc::{AllocError, Global};
use std::collections::BTreeSet;

fn add_row(keys: &mut BTreeSet<Key>, wanted: &Wanted, row: &Row) -> Result<(), AllocError>
    ensures added { OnOk result (keys.new.keys ≡ with_each keys.old.keys (row_keys wanted.now.portfolio row.now)) }
    ensures few { OnOk result (length keys.new.keys ≤ length keys.old.keys + 1) }
{
    if wanted.has_pair(&row.pair) {
        keys.insert(row.key())?;
    }
    Ok(())
}

fn add_table(keys: &mut BTreeSet<Key>, wanted: &Wanted, table: &Table) -> Result<(), AllocError>
    ensures added { OnOk result (keys.new.keys ≡ with_each keys.old.keys (table_keys wanted.now.portfolio table.now)) }
    ensures few { OnOk result (length keys.new.keys ≤ length keys.old.keys + most_rows) }
{
    for row in table.rows() {
        add_row(keys, wanted, row)?;
    }
    Ok(())
}

/// Adds each pair and direction for which a cycle, where it is confirmed, has a row with a wanted pair.
pub fn add_cycle_keys<R: Role>(
    keys: &mut BTreeSet<Key>,
    desk: &Desk<R>,
    wanted: &Wanted,
    id: CycleId,
) -> Result<(), AllocError>
    ensures added { OnOk result (keys.new.keys ≡ with_each keys.old.keys (keys_if wanted.now.portfolio (confirmed R.SIDE desk.now id))) }
    ensures few { OnOk result (length keys.new.keys ≤ length keys.old.keys + most_rows) }
{
    match desk.confirmed(id) {
        Some(table) => add_table(keys, wanted, table),
        None => Ok(()),
    }
}

fn collected<R: Role>(
    alloc: Global,
    desk: &Desk<R>,
    wanted: &Wanted,
    day: GasDay,
) -> Result<BTreeSet<Key>, AllocError>
    ensures keys { IfOk result (λ set. set.keys ≡ keys_of_day (confirmed R.SIDE desk.now) wanted.now.portfolio day) }
    ensures few { IfOk result (λ set. length set.keys ≤ most_keys) }
{
    let mut keys = BTreeSet::new(alloc);
    for cycle in 0..LAST_CYCLE + 1 {
        add_cycle_keys(&mut keys, desk, wanted, CycleId { day, cycle })?;
    }
    Ok(keys)
}

/// Each pair and direction for which a confirmed cycle of the gas day has a row, in table order.
pub(crate) fn day_keys<R: Role>(
    alloc: Global,
    desk: &Desk<R>,
    wanted: &Wanted,
    day: GasDay,
) -> Result<Vec<Key>, AllocError>
    ensures value { IfOk result (λ keys. keys.items ≡ keys_of_day (confirmed R.SIDE desk.now) wanted.now.portfolio day) }
    ensures few { IfOk result (λ keys. length keys.items ≤ most_keys) }
{
    let set = collected(alloc, desk, wanted, day)?;
    set.iter().copied().collect(alloc)
}

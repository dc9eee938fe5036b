//! The pairs and directions of a page.

ghost use Rattle.std.specs.Prelude.{◌≡◌, ◌+◌, ◌*◌, ◌≤◌, IfOk, None, OnOk, length};
ghost use Rattle.std.specs.Option.{option_copied};
ghost use Rattle.gi_pairs.specs.Limits.{most_rows};
ghost use Rattle.gi_schedule.specs.Keys.{keys_if, row_keys, table_keys, with_each};
ghost use Rattle.gi_page.specs.Keys.{cycle_keys, most_page_keys, page_keys as page_keys_of};

use gi_day::GasDay;
use gi_desk::{Desk, Role};
use gi_messages::LAST_CYCLE;
use gi_pairs::{CycleId, Key, Row, Table};
use std::alloc::{AllocError, Global};
use std::collections::BTreeSet;

fn add_row(keys: &mut BTreeSet<Key>, row: &Row) -> Result<(), AllocError>
    ensures added { OnOk result (keys.new.keys ≡ with_each keys.old.keys (row_keys None row.now)) }
    ensures few { OnOk result (length keys.new.keys ≤ length keys.old.keys + 1) }
{
    keys.insert(row.key())?;
    Ok(())
}

fn add_rows(keys: &mut BTreeSet<Key>, table: &Table) -> Result<(), AllocError>
    ensures added { OnOk result (keys.new.keys ≡ with_each keys.old.keys (table_keys None table.now)) }
    ensures few { OnOk result (length keys.new.keys ≤ length keys.old.keys + most_rows) }
{
    for row in table.rows() {
        add_row(keys, row)?;
    }
    Ok(())
}

fn add_table(keys: &mut BTreeSet<Key>, table: Option<&Table>) -> Result<(), AllocError>
    ensures added { OnOk result (keys.new.keys ≡ with_each keys.old.keys (keys_if None (option_copied table.entry))) }
    ensures few { OnOk result (length keys.new.keys ≤ length keys.old.keys + most_rows) }
{
    match table {
        Some(table) => add_rows(keys, table),
        None => Ok(()),
    }
}

fn add_cycle<R: Role>(
    keys: &mut BTreeSet<Key>,
    desk: &Desk<R>,
    id: &CycleId,
) -> Result<(), AllocError>
    ensures added { OnOk result (keys.new.keys ≡ with_each keys.old.keys (cycle_keys R.SIDE desk.now id.now)) }
    ensures few { OnOk result (length keys.new.keys ≤ length keys.old.keys + 2 * most_rows) }
{
    add_table(keys, desk.frozen(*id))?;
    add_table(keys, desk.confirmed(*id))?;
    Ok(())
}

fn collected<R: Role>(
    alloc: Global,
    desk: &Desk<R>,
    day: GasDay,
) -> Result<BTreeSet<Key>, AllocError>
    ensures keys { IfOk result (λ set. set.keys ≡ page_keys_of R.SIDE desk.now day) }
    ensures few { IfOk result (λ set. length set.keys ≤ most_page_keys) }
{
    let mut keys = BTreeSet::new(alloc);
    for cycle in 0..LAST_CYCLE + 1 {
        add_cycle(&mut keys, desk, &CycleId { day, cycle })?;
    }
    Ok(keys)
}

/// Each pair and direction for which the frozen table of a closed cycle of the gas day, or a
/// confirmed one, has a row, in table order.
pub fn page_keys<R: Role>(
    alloc: Global,
    desk: &Desk<R>,
    day: GasDay,
) -> Result<Vec<Key>, AllocError>
    ensures value { IfOk result (λ keys. keys.items ≡ page_keys_of R.SIDE desk.now day) }
    ensures few { IfOk result (λ keys. length keys.items ≤ most_page_keys) }
{
    let set = collected(alloc, desk, day)?;
    set.iter().copied().collect(alloc)
}

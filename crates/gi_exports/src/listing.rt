//! The lines of the reports, before they are written in any form.

ghost use Rattle.std.specs.Prelude.{◌≡◌, ◌++◌, IfOk, OnOk};
ghost use Rattle.gi_exports.specs.Lines.{AreConfirmedHours, AreOpenCycles, row_hours, table_hours};

use crate::confirmed_hour::ConfirmedHour;
use crate::open_cycle::OpenCycle;
use gi_desk::{Desk, Role};
use gi_pairs::{CycleId, Row, Table};
use gi_reports::closed_cycles;
use std::alloc::{AllocError, Global};

fn add_row(
    all: &mut Vec<ConfirmedHour>,
    id: &CycleId,
    first: u8,
    row: &Row,
) -> Result<(), AllocError>
    ensures { OnOk result (all.new.items ≡ all.old.items ++ row_hours id.now first row.now) }
{
    let quantities = row.hours.as_slice();
    for place in 0..quantities.len() {
        all.push(ConfirmedHour {
            id: *id,
            direction: row.direction,
            pair: row.pair,
            hour: u64::from(first) + place as u64,
            quantity: quantities[place],
        })?;
    }
    Ok(())
}

fn add_table(all: &mut Vec<ConfirmedHour>, id: &CycleId, table: &Table) -> Result<(), AllocError>
    ensures { OnOk result (all.new.items ≡ all.old.items ++ table_hours id.now table.now) }
{
    let first = table.first();
    for row in table.rows() {
        add_row(all, id, first, row)?;
    }
    Ok(())
}

/// Each hour of each row of each confirmed cycle: the cycles by gas day and number, the rows in
/// table order, the hours from the table's first on.
pub(crate) fn confirmed_hours<R: Role>(
    alloc: Global,
    desk: &Desk<R>,
) -> Result<Vec<ConfirmedHour>, AllocError>
    ensures { IfOk result (λ hours. AreConfirmedHours R.SIDE desk.now hours.items) }
{
    let ids = closed_cycles(alloc, desk)?;
    let mut all = Vec::new(alloc);
    for id in &ids {
        if let Some(table) = desk.confirmed(*id) {
            add_table(&mut all, id, table)?;
        }
    }
    Ok(all)
}

/// Each closed cycle that is not confirmed, by gas day and number.
pub(crate) fn open_cycles<R: Role>(
    alloc: Global,
    desk: &Desk<R>,
) -> Result<Vec<OpenCycle>, AllocError>
    ensures { IfOk result (λ cycles. AreOpenCycles R.SIDE desk.now cycles.items) }
{
    let ids = closed_cycles(alloc, desk)?;
    let mut all = Vec::new(alloc);
    for id in &ids {
        if desk.confirmed(*id).is_none() {
            all.push(OpenCycle {
                id: *id,
                stage: desk.state(*id),
            })?;
        }
    }
    Ok(all)
}

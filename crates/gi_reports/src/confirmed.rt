//! What a desk has confirmed.

ghost use Rattle.std.specs.Prelude.{◌≡◌, IfOk, string_bytes};
ghost use Rattle.gi_reports.specs.Confirmed.{IsConfirmedReport, confirmed_line as line_of, confirmed_lines as lines_of, row_lines as lines_of_row, row_text as text_of, table_lines as lines_of_table};

use crate::columns::{LeftInSixteen, RightInTwelve};
use crate::cycles::closed_cycles;
use gi_desk::{Desk, Role};
use gi_pairs::{CycleId, Quantity, Row, Table};
use gi_text::RightInTwo;
use std::alloc::{AllocError, Global};

fn row_text(alloc: Global, row: &Row) -> Result<String, AllocError>
    ensures { IfOk result (λ text. string_bytes text ≡ text_of row.now) }
{
    let direction = row.direction;
    let initiating = LeftInSixteen {
        code: Some(row.pair.initiating),
    };
    let matching = LeftInSixteen {
        code: Some(row.pair.matching),
    };
    format!(in alloc; "{direction} {initiating} {matching}")
}

fn confirmed_line(
    alloc: Global,
    id: &CycleId,
    row: &Row,
    hour: u64,
    quantity: Quantity,
) -> Result<String, AllocError>
    ensures { IfOk result (λ line. string_bytes line ≡ line_of id.now row.now hour quantity) }
{
    let day = id.day;
    let cycle = RightInTwo {
        number: u64::from(id.cycle),
    };
    let row = row_text(alloc, row)?;
    let hour = RightInTwo { number: hour };
    let quantity = RightInTwelve {
        number: quantity.value(),
    };
    format!(in alloc; "{day} {cycle} {row} {hour} {quantity}\n")
}

fn row_lines(alloc: Global, id: &CycleId, first: u8, row: &Row) -> Result<String, AllocError>
    ensures { IfOk result (λ text. string_bytes text ≡ lines_of_row id.now first row.now) }
{
    let mut text = String::new(alloc);
    let hours = row.hours.as_slice();
    for place in 0..hours.len() {
        let hour = u64::from(first) + place as u64;
        let line = confirmed_line(alloc, id, row, hour, hours[place])?;
        text.push_str(line.as_str())?;
    }
    Ok(text)
}

fn table_lines(alloc: Global, id: &CycleId, table: &Table) -> Result<String, AllocError>
    ensures { IfOk result (λ text. string_bytes text ≡ lines_of_table id.now table.now) }
{
    let mut text = String::new(alloc);
    let first = table.first();
    for row in table.rows() {
        let lines = row_lines(alloc, id, first, row)?;
        text.push_str(lines.as_str())?;
    }
    Ok(text)
}

fn confirmed_lines<R: Role>(
    alloc: Global,
    desk: &Desk<R>,
    ids: &[CycleId],
) -> Result<String, AllocError>
    ensures { IfOk result (λ text. string_bytes text ≡ lines_of R.SIDE desk.now ids.now) }
{
    let mut text = String::new(alloc);
    for id in ids {
        if let Some(table) = desk.confirmed(*id) {
            let lines = table_lines(alloc, id, table)?;
            text.push_str(lines.as_str())?;
        }
    }
    Ok(text)
}

/// A line for each hour of each row of each confirmed cycle: the cycles by gas day and number, the
/// rows in table order, the hours from the table's first on. It has the day, the cycle's number
/// right in 2 places, the direction, the initiating and the matching code left in 16, the hour
/// right in 2 and the quantity in kWh/h right in 12, zeros too.
pub fn confirmed_report<R: Role>(alloc: Global, desk: &Desk<R>) -> Result<String, AllocError>
    ensures { IfOk result (λ text. IsConfirmedReport R.SIDE desk.now (string_bytes text)) }
{
    let ids = closed_cycles(alloc, desk)?;
    confirmed_lines(alloc, desk, &ids)
}

//! The columns of tables: what they show of an hour, and their sums.

ghost use Rattle.std.specs.Prelude.{◌≡◌, ◌≤◌, IfOk, is_some, length, map, string_bytes};
ghost use Rattle.std.specs.List.{list_any};
ghost use Rattle.gi_picture.specs.Numbers.{cell as cell_of};
ghost use Rattle.gi_day_tables.specs.Columns.{column_of, flow_of, flows_of, hour_text as hour_text_of, lost_if, sum_if_any as sum_if_any_of, sum_of, sum_text as sum_text_of, values_of, waiting_if as waiting_if_of};

use crate::column::Column;
use crate::flow_hour::FlowHour;
use gi_pairs::Direction;
use gi_picture::{Amounts, Hour, amount_if, cell, grouped, total};
use std::alloc::{AllocError, Global};

/// An hour in a direction, of all pairs together.
pub(crate) fn flow(direction: Direction, hour: Hour) -> FlowHour
    ensures { result ≡ flow_of direction hour }
{
    FlowHour {
        number: hour.number,
        shown: hour.shown,
        cycle: hour.cycle,
        amounts: hour.in_direction(direction),
    }
}

/// The hours of a day in a direction, of all pairs together.
pub(crate) fn flows(
    alloc: Global,
    direction: Direction,
    hours: &[Hour],
) -> Result<Vec<FlowHour>, AllocError>
    ensures { IfOk result (λ flows. flows.items ≡ flows_of direction hours.now) }
{
    hours
        .iter()
        .map(|hour| flow(direction, *hour))
        .collect(alloc)
}

fn waiting_if(cycle: Option<u8>, nominated: Option<u64>) -> Option<u64>
    ensures { result ≡ waiting_if_of cycle nominated }
{
    match cycle {
        Some(_) => None,
        None => nominated,
    }
}

fn lost(cycle: Option<u8>, amounts: Amounts) -> Option<u64>
    ensures { result ≡ lost_if cycle amounts }
{
    match cycle {
        Some(_) => {
            if amounts.in_force < amounts.nominated {
                Some(amounts.nominated)
            } else {
                None
            }
        }
        None => None,
    }
}

/// What a column shows of an hour.
pub(crate) fn column_value(column: Column, hour: FlowHour) -> Option<u64>
    ensures { result ≡ column_of column hour }
{
    let amounts = hour.amounts;
    match column {
        Column::Nominated => amount_if(hour.shown, amounts.nominated),
        Column::Processed => amount_if(hour.shown, amounts.processed),
        Column::Peers => amount_if(hour.cycle, amounts.peers),
        Column::InForce => amount_if(hour.cycle, amounts.in_force),
        Column::Cut => amount_if(hour.cycle, amounts.cut()),
        Column::OwnCut => amount_if(hour.cycle, amounts.own_cut()),
        Column::PeerCut => amount_if(hour.cycle, amounts.peer_cut()),
        Column::Waiting => {
            let nominated = amount_if(hour.shown, amounts.nominated);
            waiting_if(hour.cycle, nominated)
        }
        Column::Lost => lost(hour.cycle, amounts),
    }
}

/// What a column shows of each hour.
pub(crate) fn column_values(
    alloc: Global,
    column: Column,
    hours: &[FlowHour],
) -> Result<Vec<Option<u64>>, AllocError>
    ensures { IfOk result (λ values. values.items ≡ values_of column hours.now) }
{
    hours
        .iter()
        .map(|hour| column_value(column, *hour))
        .collect(alloc)
}

fn has_some(values: &[Option<u64>]) -> bool
    ensures { result ≡ list_any is_some values.now }
{
    let mut any = false;
    for value in values {
        any = any || value.is_some();
    }
    any
}

fn sum_if_any(values: &[Option<u64>]) -> Option<u128>
    requires { length values.now ≤ 25 }
    ensures { result ≡ sum_if_any_of values.now }
{
    if has_some(values) {
        Some(total(values))
    } else {
        None
    }
}

/// The sum of what a column shows of the day, in kWh: none where it shows nothing.
pub(crate) fn column_sum(
    alloc: Global,
    column: Column,
    hours: &[FlowHour],
) -> Result<Option<u128>, AllocError>
    requires { length hours.now ≤ 25 }
    ensures { IfOk result (λ sum. sum ≡ sum_of column hours.now) }
{
    let values = column_values(alloc, column, hours)?;
    Ok(sum_if_any(&values))
}

#[tactic(auto, unfolding(crate::specs::Columns::hour_text))]
pub(crate) fn hour_text(alloc: Global, column: Column, hour: FlowHour) -> Result<String, AllocError>
    ensures { IfOk result (λ text. string_bytes text ≡ hour_text_of column hour) }
{
    cell(alloc, column_value(column, hour))
}

#[tactic(auto, unfolding(gi_picture::specs::Numbers::cell))]
fn sum_cell(alloc: Global, sum: Option<u128>) -> Result<String, AllocError>
    ensures { IfOk result (λ text. string_bytes text ≡ cell_of sum) }
{
    match sum {
        Some(sum) => grouped(alloc, sum),
        None => format!(in alloc; "&ndash;"),
    }
}

#[tactic(auto, unfolding(crate::specs::Columns::sum_text))]
pub(crate) fn sum_text(
    alloc: Global,
    column: Column,
    hours: &[FlowHour],
) -> Result<String, AllocError>
    requires { length hours.now ≤ 25 }
    ensures { IfOk result (λ text. string_bytes text ≡ sum_text_of column hours.now) }
{
    let sum = column_sum(alloc, column, hours)?;
    sum_cell(alloc, sum)
}

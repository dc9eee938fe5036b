//! The cells of an hour, and of a day.

ghost use Rattle.std.specs.Prelude.{◌≡◌, ◌≤◌, IfOk, length, nat_eq, string_bytes};
ghost use Rattle.gi_picture.specs.Values.{value_or_none};
ghost use Rattle.gi_day_tables.specs.Cells.{cut_cell as cut_cell_of, cut_start as cut_start_of, cut_sum as cut_sum_of, sum_start as sum_start_of, planned_cells as planned_cells_of, held_cells as held_cells_of, hour_cells as hour_cells_of, planned_sums as planned_sums_of, held_sums as held_sums_of, day_cells as day_cells_of};

use crate::column::Column;
use crate::columns::{column_sum, column_value, hour_text, sum_text};
use crate::flow_hour::FlowHour;
use std::alloc::{AllocError, Global};

#[tactic(auto, unfolding(crate::specs::Cells::planned_cells))]
pub(crate) fn planned_cells(alloc: Global, hour: FlowHour) -> Result<String, AllocError>
    ensures { IfOk result (λ text. string_bytes text ≡ planned_cells_of hour) }
{
    let nominated = hour_text(alloc, Column::Nominated, hour)?;
    let processed = hour_text(alloc, Column::Processed, hour)?;
    let peers = hour_text(alloc, Column::Peers, hour)?;
    format!(in alloc;
        "<td class=\"wide\">{nominated}</td><td class=\"wide\">{processed}</td><td class=\"wide\">{peers}</td>"
    )
}

fn is_zero(value: Option<u64>) -> bool
    ensures { result ≡ nat_eq (value_or_none value) 0 }
{
    match value {
        Some(value) => value == 0,
        None => true,
    }
}

fn sum_is_zero(sum: Option<u128>) -> bool
    ensures { result ≡ nat_eq (value_or_none sum) 0 }
{
    match sum {
        Some(sum) => sum == 0,
        None => true,
    }
}

/// What begins the cell of a cut: it is marked where something is cut.
fn cut_start(zero: bool) -> &'static str
    ensures { result.now ≡ cut_start_of zero }
{
    if zero { "<td>" } else { "<td class=\"cut\">" }
}

#[tactic(auto, unfolding(crate::specs::Cells::cut_cell))]
fn cut_cell(alloc: Global, hour: FlowHour) -> Result<String, AllocError>
    ensures { IfOk result (λ text. string_bytes text ≡ cut_cell_of hour) }
{
    let start = cut_start(is_zero(column_value(Column::Cut, hour)));
    let cut = hour_text(alloc, Column::Cut, hour)?;
    format!(in alloc; "{start}{cut}</td>")
}

fn sum_start(alloc: Global, hours: &[FlowHour]) -> Result<&'static str, AllocError>
    requires { length hours.now ≤ 25 }
    ensures { IfOk result (λ start. start.now ≡ sum_start_of hours.now) }
{
    let sum = column_sum(alloc, Column::Cut, hours)?;
    Ok(cut_start(sum_is_zero(sum)))
}

/// The cell of what is cut over the day, in kWh.
#[tactic(auto, unfolding(crate::specs::Cells::cut_sum))]
pub(crate) fn cut_sum(alloc: Global, hours: &[FlowHour]) -> Result<String, AllocError>
    requires { length hours.now ≤ 25 }
    ensures { IfOk result (λ text. string_bytes text ≡ cut_sum_of hours.now) }
{
    let start = sum_start(alloc, hours)?;
    let cut = sum_text(alloc, Column::Cut, hours)?;
    format!(in alloc; "{start}{cut}</td>")
}

#[tactic(auto, unfolding(crate::specs::Cells::held_cells))]
fn held_cells(alloc: Global, hour: FlowHour) -> Result<String, AllocError>
    ensures { IfOk result (λ text. string_bytes text ≡ held_cells_of hour) }
{
    let in_force = hour_text(alloc, Column::InForce, hour)?;
    let cut = cut_cell(alloc, hour)?;
    format!(in alloc; "<td class=\"strong\">{in_force}</td>{cut}")
}

/// The cells of an hour in a direction.
#[tactic(auto, unfolding(crate::specs::Cells::hour_cells))]
pub(crate) fn hour_cells(alloc: Global, hour: FlowHour) -> Result<String, AllocError>
    ensures { IfOk result (λ text. string_bytes text ≡ hour_cells_of hour) }
{
    let planned = planned_cells(alloc, hour)?;
    let held = held_cells(alloc, hour)?;
    format!(in alloc; "{planned}{held}")
}

#[tactic(auto, unfolding(crate::specs::Cells::planned_sums))]
fn planned_sums(alloc: Global, hours: &[FlowHour]) -> Result<String, AllocError>
    requires { length hours.now ≤ 25 }
    ensures { IfOk result (λ text. string_bytes text ≡ planned_sums_of hours.now) }
{
    let nominated = sum_text(alloc, Column::Nominated, hours)?;
    let processed = sum_text(alloc, Column::Processed, hours)?;
    let peers = sum_text(alloc, Column::Peers, hours)?;
    format!(in alloc;
        "<td class=\"wide\">{nominated}</td><td class=\"wide\">{processed}</td><td class=\"wide\">{peers}</td>"
    )
}

#[tactic(auto, unfolding(crate::specs::Cells::held_sums))]
fn held_sums(alloc: Global, hours: &[FlowHour]) -> Result<String, AllocError>
    requires { length hours.now ≤ 25 }
    ensures { IfOk result (λ text. string_bytes text ≡ held_sums_of hours.now) }
{
    let in_force = sum_text(alloc, Column::InForce, hours)?;
    let cut = cut_sum(alloc, hours)?;
    format!(in alloc; "<td class=\"strong\">{in_force}</td>{cut}")
}

/// The cells of a day in a direction: sums, in kWh.
#[tactic(auto, unfolding(crate::specs::Cells::day_cells))]
pub(crate) fn day_cells(alloc: Global, hours: &[FlowHour]) -> Result<String, AllocError>
    requires { length hours.now ≤ 25 }
    ensures { IfOk result (λ text. string_bytes text ≡ day_cells_of hours.now) }
{
    let planned = planned_sums(alloc, hours)?;
    let held = held_sums(alloc, hours)?;
    format!(in alloc; "{planned}{held}")
}

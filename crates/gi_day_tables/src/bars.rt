//! The small bars of a row: what is in force before what is nominated.

ghost use Rattle.std.specs.Prelude.{◌≡◌, ◌≤◌, IfOk, length, max, string_bytes};
ghost use Rattle.gi_picture.specs.Runs.{runs as runs_of};
ghost use Rattle.gi_day_tables.specs.Bars.{bar as bar_of, bars as bars_of, height as height_of, most_nominated as most_nominated_of, bar_if as bar_if_of, bar_top as bar_top_of, column_bar as column_bar_of, edges as edges_of, highest as highest_of};
ghost use Rattle.gi_picture.specs.Values.{value_or_none};
ghost use Rattle.gi_day_tables.specs.Bars.{edge as edge_of, bars_scaled as bars_scaled_of, frame_of_bars as frame_of_bars_of};

use crate::column::Column;
use crate::columns::column_values;
use crate::flow_hour::FlowHour;
use gi_picture::{Run, runs};
use std::alloc::{AllocError, Global};

fn higher(value: Option<u64>, most: u64) -> u64
    ensures { result ≡ max (value_or_none value) most }
{
    match value {
        Some(value) => value.max(most),
        None => most,
    }
}

/// The highest of those values that are there.
#[tactic(auto, using(crate::proofs::BarLemmas::highest_more))]
fn highest(values: &[Option<u64>]) -> u64
    ensures { result ≡ highest_of values.now }
{
    let mut most = 0;
    for value in values {
        most = higher(*value, most);
    }
    most
}

fn height(most: u64, value: u64) -> u64
    ensures { result ≡ height_of most value }
{
    let high = u128::from(value) * 24 / u128::from(most.max(1));
    high.clamp(1, 24) as u64
}

fn bar_top(most: u64, value: Option<u64>) -> u64
    ensures { result ≡ bar_top_of most value }
{
    match value {
        Some(value) => {
            if value == 0 {
                24
            } else {
                24_u64.saturating_sub(height(most, value))
            }
        }
        None => 24,
    }
}

#[tactic(auto, unfolding(crate::specs::Bars::edge))]
fn edge(alloc: Global, most: u64, run: Run) -> Result<String, AllocError>
    ensures { IfOk result (λ text. string_bytes text ≡ edge_of most run) }
{
    let top = bar_top(most, run.value);
    let right = u16::from(run.behind) * 6;
    format!(in alloc; "V{top}H{right}")
}

fn edges(alloc: Global, most: u64, runs: &[Run]) -> Result<String, AllocError>
    ensures { IfOk result (λ text. string_bytes text ≡ edges_of most runs.now) }
{
    let mut text = String::new(alloc);
    for run in runs {
        let edge = edge(alloc, most, *run)?;
        text.push_str(edge.as_str())?;
    }
    Ok(text)
}

fn outline(alloc: Global, most: u64, values: &[Option<u64>]) -> Result<String, AllocError>
    requires { length values.now ≤ 25 }
    ensures { IfOk result (λ text. string_bytes text ≡ edges_of most (runs_of values.now)) }
{
    let runs = runs(alloc, values)?;
    edges(alloc, most, &runs)
}

#[tactic(auto, unfolding(crate::specs::Bars::bar))]
fn bar(
    alloc: Global,
    class: &'static str,
    most: u64,
    values: &[Option<u64>],
) -> Result<String, AllocError>
    requires { length values.now ≤ 25 }
    ensures { IfOk result (λ text. string_bytes text ≡ bar_of class.now most values.now) }
{
    let edges = outline(alloc, most, values)?;
    format!(in alloc; "<path class=\"{class}\" d=\"M0 24{edges}V24z\"/>")
}

fn bar_if(
    alloc: Global,
    class: &'static str,
    most: u64,
    values: &[Option<u64>],
) -> Result<String, AllocError>
    requires { length values.now ≤ 25 }
    ensures { IfOk result (λ text. string_bytes text ≡ bar_if_of class.now most values.now) }
{
    if highest(values) == 0 {
        return Ok(String::new(alloc));
    }
    bar(alloc, class, most, values)
}

fn column_bar(
    alloc: Global,
    class: &'static str,
    most: u64,
    column: Column,
    hours: &[FlowHour],
) -> Result<String, AllocError>
    requires { length hours.now ≤ 25 }
    ensures { IfOk result (λ text. string_bytes text ≡ column_bar_of class.now most column hours.now) }
{
    let values = column_values(alloc, column, hours)?;
    bar_if(alloc, class, most, &values)
}

/// The highest that is nominated, in kWh/h.
fn most_nominated(alloc: Global, hours: &[FlowHour]) -> Result<u64, AllocError>
    ensures { IfOk result (λ most. most ≡ most_nominated_of hours.now) }
{
    let values = column_values(alloc, Column::Nominated, hours)?;
    Ok(highest(&values))
}

#[tactic(auto, unfolding(crate::specs::Bars::bars_scaled))]
fn bars_scaled(alloc: Global, most: u64, hours: &[FlowHour]) -> Result<String, AllocError>
    requires { length hours.now ≤ 25 }
    ensures { IfOk result (λ text. string_bytes text ≡ bars_scaled_of most hours.now) }
{
    let open = column_bar(alloc, "open", most, Column::Waiting, hours)?;
    let lost = column_bar(alloc, "lost", most, Column::Lost, hours)?;
    let held = column_bar(alloc, "bar", most, Column::InForce, hours)?;
    format!(in alloc; "{open}{lost}{held}")
}

#[tactic(auto, unfolding(crate::specs::Bars::frame_of_bars))]
fn frame_of_bars(alloc: Global, count: u8) -> Result<String, AllocError>
    ensures { IfOk result (λ text. string_bytes text ≡ frame_of_bars_of count) }
{
    let width = u16::from(count) * 6;
    format!(in alloc;
        "<svg class=\"in bars\" viewBox=\"0 0 {width} 25\" width=\"{width}\" height=\"25\" preserveAspectRatio=\"none\" aria-hidden=\"true\">"
    )
}

fn scaled(alloc: Global, hours: &[FlowHour]) -> Result<String, AllocError>
    requires { length hours.now ≤ 25 }
    ensures { IfOk result (λ text. string_bytes text ≡ bars_scaled_of (most_nominated_of hours.now) hours.now) }
{
    let most = most_nominated(alloc, hours)?;
    bars_scaled(alloc, most, hours)
}

/// The bars of a row by hour: as high as the highest that is nominated.
#[tactic(auto, unfolding(crate::specs::Bars::bars))]
pub(crate) fn bars(alloc: Global, hours: &[FlowHour]) -> Result<String, AllocError>
    requires { length hours.now ≤ 25 }
    ensures { IfOk result (λ text. string_bytes text ≡ bars_of hours.now) }
{
    let frame = frame_of_bars(alloc, hours.len() as u8)?;
    let bars = scaled(alloc, hours)?;
    format!(in alloc; "{frame}{bars}</svg>")
}

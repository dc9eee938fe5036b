//! The axis of a chart: its grid and labels, and the three rows under it.

ghost use Rattle.std.specs.Prelude.{◌≡◌, ◌≤◌, IfOk, string_bytes};
ghost use Rattle.gi_picture.specs.Axis.{axis as axis_of, bound_labels as bound_labels_of, cycle_bar as cycle_bar_of, cycle_mark as cycle_mark_of, cycle_marks as cycle_marks_of, cycle_name as cycle_name_of, grid as grid_of, grid_name as grid_name_of, grid_rule as grid_rule_of, hour_label as hour_label_of, narrow_class as narrow_class_of, prefix as prefix_of, prefix_size as prefix_size_of, row_names as row_names_of, rows as rows_of, rule_class as rule_class_of, run_class as run_class_of, run_name as run_name_of, tick_above as tick_above_of, tick_below as tick_below_of, tick_label as tick_label_of, ticks_above as ticks_above_of, ticks_below as ticks_below_of, time_label as time_label_of, time_label_if as time_label_if_of, time_name as time_name_of, time_rule as time_rule_of, turn as turn_of, turn_path as turn_path_of, wide_class as wide_class_of};

use crate::clock::{clock_hour, clock_text};
use crate::frame::{Frame, right, x};
use crate::numbers::grouped;
use crate::run::Run;
use std::alloc::{AllocError, Global};

/// The size of the largest prefix that divides a step.
#[tactic(auto, unfolding(crate::specs::Axis::prefix_size))]
pub(crate) fn prefix_size(step: u64) -> u64
    ensures value { result ≡ prefix_size_of step }
    ensures some { 1 ≤ result }
{
    if step % 1_000_000_000_000 == 0 {
        return 1_000_000_000_000;
    }
    if step % 1_000_000_000 == 0 {
        return 1_000_000_000;
    }
    if step % 1_000_000 == 0 {
        return 1_000_000;
    }
    if step % 1_000 == 0 {
        return 1_000;
    }
    1
}

#[tactic(auto, unfolding(crate::specs::Axis::prefix))]
fn prefix(size: u64) -> &'static str
    ensures { result.now ≡ prefix_of size }
{
    if size == 1_000_000_000_000 {
        return "&nbsp;T";
    }
    if size == 1_000_000_000 {
        return "&nbsp;G";
    }
    if size == 1_000_000 {
        return "&nbsp;M";
    }
    if size == 1_000 {
        return "&nbsp;k";
    }
    ""
}

#[tactic(auto, unfolding(crate::specs::Axis::tick_label))]
fn tick_label(alloc: Global, frame: Frame, n: u8) -> Result<String, AllocError>
    ensures { IfOk result (λ text. string_bytes text ≡ tick_label_of frame n) }
{
    if n == 0 {
        return format!(in alloc; "0");
    }
    let size = prefix_size(frame.step);
    let number = grouped(alloc, u128::from(n) * u128::from(frame.step / size))?;
    let letter = prefix(size);
    format!(in alloc; "{number}{letter}")
}

#[tactic(auto, unfolding(crate::specs::Axis::grid_rule))]
fn grid_rule(alloc: Global, frame: Frame, place: u32, class: &str) -> Result<String, AllocError>
    ensures { IfOk result (λ text. string_bytes text ≡ grid_rule_of frame place class.now) }
{
    let right = right(frame);
    format!(in alloc; "<path class=\"{class}\" d=\"M84 {place}H{right}\"/>")
}

#[tactic(auto, unfolding(crate::specs::Axis::grid_name))]
fn grid_name(alloc: Global, place: u32, label: &str) -> Result<String, AllocError>
    requires { place ≤ 100_000 }
    ensures { IfOk result (λ text. string_bytes text ≡ grid_name_of place label.now) }
{
    let low = place + 4;
    format!(in alloc; "<text x=\"78\" y=\"{low}\">{label}</text>\n")
}

fn rule_class(n: u8) -> &'static str
    ensures { result.now ≡ rule_class_of n }
{
    if n == 0 { "zero" } else { "grid" }
}

#[tactic(auto, unfolding(crate::specs::Axis::tick_above))]
fn tick_above(alloc: Global, frame: Frame, n: u8) -> Result<String, AllocError>
    ensures { IfOk result (λ text. string_bytes text ≡ tick_above_of frame n) }
{
    let place = u32::from(frame.zero).saturating_sub(u32::from(n) * u32::from(frame.tick));
    let label = tick_label(alloc, frame, n)?;
    let rule = grid_rule(alloc, frame, place, rule_class(n))?;
    let name = grid_name(alloc, place, label.as_str())?;
    format!(in alloc; "{rule}{name}")
}

#[tactic(auto, unfolding(crate::specs::Axis::tick_below))]
fn tick_below(alloc: Global, frame: Frame, n: u8) -> Result<String, AllocError>
    ensures { IfOk result (λ text. string_bytes text ≡ tick_below_of frame n) }
{
    let place = u32::from(frame.zero) + u32::from(n) * u32::from(frame.tick);
    let size = tick_label(alloc, frame, n)?;
    let label = format!(in alloc; "&minus;{size}")?;
    let rule = grid_rule(alloc, frame, place, "grid")?;
    let name = grid_name(alloc, place, label.as_str())?;
    format!(in alloc; "{rule}{name}")
}

fn ticks_above(alloc: Global, frame: Frame, count: u16) -> Result<String, AllocError>
    requires { count ≤ 256 }
    ensures { IfOk result (λ text. string_bytes text ≡ ticks_above_of frame count) }
{
    let mut text = String::new(alloc);
    for n in 0..count {
        let tick = tick_above(alloc, frame, n as u8)?;
        text.push_str(tick.as_str())?;
    }
    Ok(text)
}

fn ticks_below(alloc: Global, frame: Frame) -> Result<String, AllocError>
    ensures { IfOk result (λ text. string_bytes text ≡ ticks_below_of frame frame.below) }
{
    let mut text = String::new(alloc);
    for n in 0..frame.below {
        let tick = tick_below(alloc, frame, n + 1)?;
        text.push_str(tick.as_str())?;
    }
    Ok(text)
}

#[tactic(auto, unfolding(crate::specs::Axis::row_names))]
fn row_names(alloc: Global, frame: Frame) -> Result<String, AllocError>
    ensures { IfOk result (λ text. string_bytes text ≡ row_names_of frame) }
{
    let floor = u32::from(frame.floor);
    let (hour, local, cycle) = (floor + 24, floor + 46, floor + 69);
    format!(in alloc;
        "<text class=\"dim\" x=\"78\" y=\"13\">kWh/h</text><text class=\"dim\" x=\"52\" y=\"{hour}\">hour</text><text class=\"dim\" x=\"52\" y=\"{local}\">local</text><text class=\"dim\" x=\"52\" y=\"{cycle}\">cycle</text>\n"
    )
}

#[tactic(auto, unfolding(crate::specs::Axis::wide_class))]
fn wide_class(n: u8) -> &'static str
    ensures { result.now ≡ wide_class_of n }
{
    if n % 6 == 0 { "" } else { " class=\"wide\"" }
}

#[tactic(auto, unfolding(crate::specs::Axis::hour_label))]
fn hour_label(alloc: Global, frame: Frame, bound: u8) -> Result<String, AllocError>
    ensures { IfOk result (λ text. string_bytes text ≡ hour_label_of frame bound) }
{
    let middle = x(frame, bound) + u32::from(frame.column / 2);
    let (low, number) = (u32::from(frame.floor) + 24, u32::from(bound) + 1);
    let class = wide_class(bound);
    format!(in alloc; "<text x=\"{middle}\" y=\"{low}\"{class}>{number}</text>")
}

#[tactic(auto, unfolding(crate::specs::Axis::time_rule))]
fn time_rule(alloc: Global, frame: Frame, bound: u8) -> Result<String, AllocError>
    ensures { IfOk result (λ text. string_bytes text ≡ time_rule_of frame bound) }
{
    let (place, floor) = (x(frame, bound), frame.floor);
    format!(in alloc; "<path class=\"zero\" d=\"M{place} {floor}v5\"/>")
}

#[tactic(auto, unfolding(crate::specs::Axis::time_name))]
fn time_name(alloc: Global, frame: Frame, bound: u8) -> Result<String, AllocError>
    ensures { IfOk result (λ text. string_bytes text ≡ time_name_of frame bound) }
{
    let (place, low) = (x(frame, bound), u32::from(frame.floor) + 46);
    let class = wide_class(clock_hour(frame.hours, bound));
    let time = clock_text(alloc, frame.hours, bound)?;
    format!(in alloc; "<text x=\"{place}\" y=\"{low}\"{class}>{time}</text>")
}

fn time_label(alloc: Global, frame: Frame, bound: u8) -> Result<String, AllocError>
    ensures { IfOk result (λ text. string_bytes text ≡ time_label_of frame bound) }
{
    let rule = time_rule(alloc, frame, bound)?;
    let name = time_name(alloc, frame, bound)?;
    format!(in alloc; "{rule}{name}")
}

#[tactic(auto, unfolding(crate::specs::Axis::time_label_if))]
fn time_label_if(alloc: Global, frame: Frame, bound: u8) -> Result<String, AllocError>
    ensures { IfOk result (λ text. string_bytes text ≡ time_label_if_of frame bound) }
{
    if clock_hour(frame.hours, bound) % 3 == 0 {
        return time_label(alloc, frame, bound);
    }
    Ok(String::new(alloc))
}

fn bound_labels(alloc: Global, frame: Frame) -> Result<String, AllocError>
    ensures { IfOk result (λ text. string_bytes text ≡ bound_labels_of frame frame.hours) }
{
    let mut text = String::new(alloc);
    for bound in 0..frame.hours {
        let hour = hour_label(alloc, frame, bound)?;
        let time = time_label_if(alloc, frame, bound)?;
        let both = format!(in alloc; "{hour}{time}")?;
        text.push_str(both.as_str())?;
    }
    Ok(text)
}

fn run_class(value: Option<u64>) -> &'static str
    ensures { result.now ≡ run_class_of value }
{
    match value {
        Some(_) => "reign",
        None => "none",
    }
}

fn run_name(alloc: Global, value: Option<u64>) -> Result<String, AllocError>
    ensures { IfOk result (λ text. string_bytes text ≡ run_name_of value) }
{
    match value {
        Some(cycle) => format!(in alloc; "{cycle}"),
        None => format!(in alloc; "&ndash;"),
    }
}

#[tactic(auto, unfolding(crate::specs::Axis::cycle_bar))]
fn cycle_bar(alloc: Global, frame: Frame, run: Run) -> Result<String, AllocError>
    ensures { IfOk result (λ text. string_bytes text ≡ cycle_bar_of frame run) }
{
    let class = run_class(run.value);
    let (from, to) = (x(frame, run.before), x(frame, run.behind));
    let (from, to) = (from + 1, to.saturating_sub(1));
    let low = u32::from(frame.floor) + 53;
    format!(in alloc; "<path class=\"{class}\" d=\"M{from} {low}H{to}\"/>")
}

fn narrow_class(frame: Frame, run: Run) -> &'static str
    ensures { result.now ≡ narrow_class_of frame run }
{
    if x(frame, run.before) + 30 <= x(frame, run.behind) {
        return "";
    }
    " class=\"wide\""
}

#[tactic(auto, unfolding(crate::specs::Axis::cycle_name))]
fn cycle_name(alloc: Global, frame: Frame, run: Run) -> Result<String, AllocError>
    ensures { IfOk result (λ text. string_bytes text ≡ cycle_name_of frame run) }
{
    let middle = (x(frame, run.before) + x(frame, run.behind)) / 2;
    let low = u32::from(frame.floor) + 69;
    let class = narrow_class(frame, run);
    let name = run_name(alloc, run.value)?;
    format!(in alloc; "<text x=\"{middle}\" y=\"{low}\"{class}>{name}</text>\n")
}

#[tactic(auto, unfolding(crate::specs::Axis::turn_path))]
fn turn_path(alloc: Global, frame: Frame, run: Run) -> Result<String, AllocError>
    ensures { IfOk result (λ text. string_bytes text ≡ turn_path_of frame run) }
{
    let (from, low) = (x(frame, run.before), u32::from(frame.floor) + 53);
    format!(in alloc; "<path class=\"turn\" d=\"M{from} 30V{low}\"/>")
}

#[tactic(auto, unfolding(crate::specs::Axis::turn))]
fn turn(alloc: Global, frame: Frame, run: Run) -> Result<String, AllocError>
    ensures { IfOk result (λ text. string_bytes text ≡ turn_of frame run) }
{
    if run.before == 0 {
        return Ok(String::new(alloc));
    }
    turn_path(alloc, frame, run)
}

fn cycle_mark(alloc: Global, frame: Frame, run: Run) -> Result<String, AllocError>
    ensures { IfOk result (λ text. string_bytes text ≡ cycle_mark_of frame run) }
{
    let turn = turn(alloc, frame, run)?;
    let bar = cycle_bar(alloc, frame, run)?;
    let name = cycle_name(alloc, frame, run)?;
    format!(in alloc; "{turn}{bar}{name}")
}

fn cycle_marks(alloc: Global, frame: Frame, runs: &[Run]) -> Result<String, AllocError>
    ensures { IfOk result (λ text. string_bytes text ≡ cycle_marks_of frame runs.now) }
{
    let mut text = String::new(alloc);
    for run in runs {
        let mark = cycle_mark(alloc, frame, *run)?;
        text.push_str(mark.as_str())?;
    }
    Ok(text)
}

#[tactic(auto, unfolding(crate::specs::Axis::grid))]
fn grid(alloc: Global, frame: Frame) -> Result<String, AllocError>
    ensures { IfOk result (λ text. string_bytes text ≡ grid_of frame) }
{
    let above = ticks_above(alloc, frame, u16::from(frame.above) + 1)?;
    let below = ticks_below(alloc, frame)?;
    let names = row_names(alloc, frame)?;
    format!(in alloc; "<g class=\"right\">{above}{below}{names}</g>\n")
}

#[tactic(auto, unfolding(crate::specs::Axis::rows))]
fn rows(alloc: Global, frame: Frame, cycles: &[Run]) -> Result<String, AllocError>
    ensures { IfOk result (λ text. string_bytes text ≡ rows_of frame cycles.now) }
{
    let bounds = bound_labels(alloc, frame)?;
    let end = time_label_if(alloc, frame, frame.hours)?;
    let marks = cycle_marks(alloc, frame, cycles)?;
    format!(in alloc; "<g class=\"middle\">{bounds}{end}{marks}</g>\n")
}

/// The grid and its labels, and under it the hours, the local times, and the cycles in force.
#[tactic(auto, unfolding(crate::specs::Axis::axis))]
pub(crate) fn axis(alloc: Global, frame: Frame, cycles: &[Run]) -> Result<String, AllocError>
    ensures { IfOk result (λ text. string_bytes text ≡ axis_of frame cycles.now) }
{
    let grid = grid(alloc, frame)?;
    let rows = rows(alloc, frame, cycles)?;
    format!(in alloc; "{grid}{rows}")
}

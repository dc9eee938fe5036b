//! The chart of a direction.

ghost use Rattle.std.specs.Prelude.{◌≡◌, ◌<◌, ◌≤◌, IfOk, length, string_bytes};
ghost use Rattle.gi_picture.specs.Chart.{back as back_of, chart as chart_of, chart_end as chart_end_of, cut_areas as cut_areas_of, cycles_of, description as description_of, drawn as drawn_of, force_words as force_words_of, front as front_of, ground as ground_of, lines as lines_of, most_words as most_words_of, nominated_words as nominated_words_of, opening as opening_of, peak as peak_of, start as start_of, sum_words as sum_words_of, title as title_of};
ghost use Rattle.gi_picture.specs.Heights.{direction_frame as direction_frame_of};
ghost use Rattle.gi_picture.specs.Runs.{runs as runs_of};

use crate::areas::{area_shape, blank_shape, blank_words};
use crate::axis::axis;
use crate::frame::Frame;
use crate::heights::{direction_frame, first_with, highest_force};
use crate::hour::Hour;
use crate::line::Line;
use crate::merging::runs;
use crate::names::direction_names;
use crate::numbers::grouped;
use crate::paths::line_shape;
use crate::run::Run;
use crate::tips::direction_tips;
use crate::values::{force_sum, nominated_sum};
use gi_pairs::Direction;
use std::alloc::{AllocError, Global};

fn cycle_values(alloc: Global, hours: &[Hour]) -> Result<Vec<Option<u64>>, AllocError>
    ensures { IfOk result (λ values. values.items ≡ cycles_of hours.now) }
{
    hours.iter().map(|hour| hour.cycle_number()).collect(alloc)
}

/// The runs of hours that have the same cycle in force.
pub fn cycle_runs(alloc: Global, hours: &[Hour]) -> Result<Vec<Run>, AllocError>
    requires { length hours.now ≤ 25 }
    ensures { IfOk result (λ found. found.items ≡ runs_of (cycles_of hours.now)) }
{
    let values = cycle_values(alloc, hours)?;
    runs(alloc, &values)
}

#[tactic(auto, unfolding(crate::specs::Chart::start))]
fn start(alloc: Global, frame: Frame, id: &str) -> Result<String, AllocError>
    ensures { IfOk result (λ text. string_bytes text ≡ start_of frame id.now) }
{
    let height = u32::from(frame.floor) + 77;
    format!(in alloc;
        "<svg class=\"chart\" viewBox=\"0 0 684 {height}\" role=\"img\" aria-labelledby=\"t-{id} d-{id}\">\n"
    )
}

#[tactic(auto, unfolding(crate::specs::Chart::title))]
fn title(alloc: Global, id: &str, words: &str) -> Result<String, AllocError>
    ensures { IfOk result (λ text. string_bytes text ≡ title_of id.now words.now) }
{
    format!(in alloc; "<title id=\"t-{id}\">{words}</title>\n<desc id=\"d-{id}\">")
}

/// What opens a chart: its title, and its description up to the words. `id` tells the charts of a page
/// apart.
#[tactic(auto, unfolding(crate::specs::Chart::opening))]
pub(crate) fn opening(
    alloc: Global,
    frame: Frame,
    id: &str,
    words: &str,
) -> Result<String, AllocError>
    ensures { IfOk result (λ text. string_bytes text ≡ opening_of frame id.now words.now) }
{
    let start = start(alloc, frame, id)?;
    let title = title(alloc, id, words)?;
    format!(in alloc; "{start}{title}")
}

#[tactic(auto, unfolding(crate::specs::Chart::cut_areas))]
fn cut_areas(
    alloc: Global,
    frame: Frame,
    direction: Direction,
    hours: &[Hour],
) -> Result<String, AllocError>
    requires { 0 < frame.step }
    ensures { IfOk result (λ text. string_bytes text ≡ cut_areas_of frame direction hours.now) }
{
    let nominated = Line::Nominated(direction);
    let processed = Line::Processed(direction);
    let in_force = Line::InForce(direction);
    let peer = area_shape(alloc, frame, "bypeer", processed, in_force, hours)?;
    let own = area_shape(alloc, frame, "byown", nominated, processed, hours)?;
    format!(in alloc; "{peer}{own}\n")
}

#[tactic(auto, unfolding(crate::specs::Chart::ground))]
fn ground(
    alloc: Global,
    frame: Frame,
    direction: Direction,
    hours: &[Hour],
    cycles: &[Run],
) -> Result<String, AllocError>
    requires { 0 < frame.step }
    ensures { IfOk result (λ text. string_bytes text ≡ ground_of frame direction hours.now cycles.now) }
{
    let in_force = Line::InForce(direction);
    let blank = blank_shape(alloc, frame, cycles)?;
    let force = area_shape(alloc, frame, "force", in_force, Line::Zero, hours)?;
    let cuts = cut_areas(alloc, frame, direction, hours)?;
    format!(in alloc; "{blank}{force}{cuts}")
}

#[tactic(auto, unfolding(crate::specs::Chart::lines))]
fn lines(
    alloc: Global,
    frame: Frame,
    direction: Direction,
    hours: &[Hour],
) -> Result<String, AllocError>
    requires some { 0 < frame.step }
    requires few { length hours.now ≤ 25 }
    ensures { IfOk result (λ text. string_bytes text ≡ lines_of frame direction hours.now) }
{
    let force = line_shape(alloc, frame, Line::InForce(direction), hours)?;
    let processed = line_shape(alloc, frame, Line::Processed(direction), hours)?;
    let nominated = line_shape(alloc, frame, Line::Nominated(direction), hours)?;
    let peers = line_shape(alloc, frame, Line::Peers(direction), hours)?;
    format!(in alloc; "{force}{processed}{nominated}{peers}\n")
}

/// The lines, the words on the ground, the names at the ends of the lines, and the columns under a pointer.
#[tactic(auto, unfolding(crate::specs::Chart::front))]
fn front(
    alloc: Global,
    frame: Frame,
    direction: Direction,
    hours: &[Hour],
    cycles: &[Run],
) -> Result<String, AllocError>
    requires some { 0 < frame.step }
    requires few { length hours.now ≤ 25 }
    ensures { IfOk result (λ text. string_bytes text ≡ front_of frame direction hours.now cycles.now) }
{
    let lines = lines(alloc, frame, direction, hours)?;
    let words = blank_words(alloc, frame, cycles)?;
    let names = direction_names(alloc, frame, direction, hours)?;
    let tips = direction_tips(alloc, frame, direction, hours)?;
    chart_end(
        alloc,
        lines.as_str(),
        words.as_str(),
        names.as_str(),
        tips.as_str(),
    )
}

/// What ends a chart: its lines, the words on the ground, the names, and the columns under a pointer.
#[tactic(auto, unfolding(crate::specs::Chart::chart_end))]
pub(crate) fn chart_end(
    alloc: Global,
    lines: &str,
    words: &str,
    names: &str,
    tips: &str,
) -> Result<String, AllocError>
    ensures { IfOk result (λ text. string_bytes text ≡ chart_end_of lines.now words.now names.now tips.now) }
{
    format!(in alloc;
        "{lines}<g class=\"middle\">{words}</g>\n{names}<g class=\"tips\">\n{tips}</g>\n</svg>\n"
    )
}

#[tactic(auto, unfolding(crate::specs::Chart::sum_words))]
fn sum_words(alloc: Global, direction: Direction, hours: &[Hour]) -> Result<String, AllocError>
    requires { length hours.now ≤ 25 }
    ensures { IfOk result (λ text. string_bytes text ≡ sum_words_of direction hours.now) }
{
    let sum = force_sum(alloc, direction, hours)?;
    format!(in alloc; "In force: {sum} kWh over the day, ")
}

#[tactic(auto, unfolding(crate::specs::Chart::most_words))]
fn most_words(
    alloc: Global,
    direction: Direction,
    hours: &[Hour],
    number: u8,
) -> Result<String, AllocError>
    ensures { IfOk result (λ text. string_bytes text ≡ most_words_of direction hours.now number) }
{
    let most = grouped(alloc, u128::from(highest_force(direction, hours)))?;
    format!(in alloc; "at most {most} kWh/h, first in hour {number}. ")
}

#[tactic(auto, unfolding(crate::specs::Chart::peak))]
fn peak(
    alloc: Global,
    direction: Direction,
    hours: &[Hour],
    number: u8,
) -> Result<String, AllocError>
    requires { length hours.now ≤ 25 }
    ensures { IfOk result (λ text. string_bytes text ≡ peak_of direction hours.now number) }
{
    let sum = sum_words(alloc, direction, hours)?;
    let most = most_words(alloc, direction, hours, number)?;
    format!(in alloc; "{sum}{most}")
}

#[tactic(auto, unfolding(crate::specs::Chart::force_words))]
fn force_words(alloc: Global, direction: Direction, hours: &[Hour]) -> Result<String, AllocError>
    requires { length hours.now ≤ 25 }
    ensures { IfOk result (λ text. string_bytes text ≡ force_words_of direction hours.now) }
{
    match first_with(direction, highest_force(direction, hours), hours) {
        Some(number) => peak(alloc, direction, hours, number),
        None => format!(in alloc; "Nothing is confirmed. "),
    }
}

#[tactic(auto, unfolding(crate::specs::Chart::nominated_words))]
fn nominated_words(
    alloc: Global,
    direction: Direction,
    hours: &[Hour],
) -> Result<String, AllocError>
    requires { length hours.now ≤ 25 }
    ensures { IfOk result (λ text. string_bytes text ≡ nominated_words_of direction hours.now) }
{
    let nominated = nominated_sum(alloc, direction, hours)?;
    format!(in alloc; "Nominated: {nominated} kWh. The table by hour has every value.</desc>\n")
}

#[tactic(auto, unfolding(crate::specs::Chart::description))]
fn description(alloc: Global, direction: Direction, hours: &[Hour]) -> Result<String, AllocError>
    requires { length hours.now ≤ 25 }
    ensures { IfOk result (λ text. string_bytes text ≡ description_of direction hours.now) }
{
    let force = force_words(alloc, direction, hours)?;
    let nominated = nominated_words(alloc, direction, hours)?;
    format!(in alloc; "{force}{nominated}")
}

/// The title, the description, and what lies behind the lines.
#[tactic(auto, unfolding(crate::specs::Chart::back))]
fn back(
    alloc: Global,
    frame: Frame,
    direction: Direction,
    hours: &[Hour],
    cycles: &[Run],
) -> Result<String, AllocError>
    requires some { 0 < frame.step }
    requires few { length hours.now ≤ 25 }
    ensures { IfOk result (λ text. string_bytes text ≡ back_of frame direction hours.now cycles.now) }
{
    let id = direction.as_str();
    let title = format!(in alloc; "{id} by hour")?;
    let opening = opening(alloc, frame, id, title.as_str())?;
    let description = description(alloc, direction, hours)?;
    let ground = ground(alloc, frame, direction, hours, cycles)?;
    let axis = axis(alloc, frame, cycles)?;
    format!(in alloc; "{opening}{description}{ground}{axis}")
}

#[tactic(auto, unfolding(crate::specs::Chart::drawn))]
fn drawn(
    alloc: Global,
    frame: Frame,
    direction: Direction,
    hours: &[Hour],
) -> Result<String, AllocError>
    requires some { 0 < frame.step }
    requires few { length hours.now ≤ 25 }
    ensures { IfOk result (λ text. string_bytes text ≡ drawn_of frame direction hours.now) }
{
    let cycles = cycle_runs(alloc, hours)?;
    let back = back(alloc, frame, direction, hours, &cycles)?;
    let front = front(alloc, frame, direction, hours, &cycles)?;
    format!(in alloc; "{back}{front}")
}

/// The chart of a direction of a day of so many hours, on an axis of its own: what is nominated, what
/// both sides processed, what is in force, and the cuts between these, with a title and a description.
#[tactic(auto, unfolding(crate::specs::Chart::chart))]
pub fn direction_chart(
    alloc: Global,
    count: u8,
    direction: Direction,
    hours: &[Hour],
) -> Result<String, AllocError>
    requires some { 2 ≤ count }
    requires few { length hours.now ≤ 25 }
    ensures { IfOk result (λ text. string_bytes text ≡ chart_of count direction hours.now) }
{
    let frame = direction_frame(count, direction, hours);
    drawn(alloc, frame, direction, hours)
}

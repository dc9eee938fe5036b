//! The areas of a chart.

ghost use Rattle.std.specs.Prelude.{◌≡◌, ◌<◌, ◌≤◌, IfOk, string_bytes};
ghost use Rattle.gi_picture.specs.Areas.{area as area_of, area_shape as area_shape_of, blank as blank_of, blank_shape as blank_shape_of, blank_words as blank_words_of, blank_word as blank_word_of, blanks as blanks_of, box_between as box_between_of, box_path as box_path_of, hour_box as hour_box_of, word_between as word_between_of};

use crate::frame::{Frame, x};
use crate::hour::Hour;
use crate::line::{Line, place};
use crate::run::Run;
use std::alloc::{AllocError, Global};

#[tactic(auto, unfolding(crate::specs::Areas::box_path))]
fn box_path(
    alloc: Global,
    frame: Frame,
    bound: u8,
    upper: u64,
    lower: u64,
) -> Result<String, AllocError>
    ensures { IfOk result (λ text. string_bytes text ≡ box_path_of frame bound upper lower) }
{
    let (left, column) = (x(frame, bound), frame.column);
    format!(in alloc; "M{left} {lower}V{upper}h{column}V{lower}z")
}

#[tactic(auto, unfolding(crate::specs::Areas::box_between))]
fn box_between(
    alloc: Global,
    frame: Frame,
    bound: u8,
    upper: Option<u64>,
    lower: Option<u64>,
) -> Result<String, AllocError>
    ensures { IfOk result (λ text. string_bytes text ≡ box_between_of frame bound upper lower) }
{
    let (Some(upper), Some(lower)) = (upper, lower) else {
        return Ok(String::new(alloc));
    };
    if upper == lower {
        return Ok(String::new(alloc));
    }
    box_path(alloc, frame, bound, upper, lower)
}

/// What stands in an hour between two lines, where a cycle is in force.
#[tactic(auto, unfolding(crate::specs::Areas::hour_box))]
fn hour_box(
    alloc: Global,
    frame: Frame,
    upper: Line,
    lower: Line,
    hour: Hour,
) -> Result<String, AllocError>
    requires { 0 < frame.step }
    ensures { IfOk result (λ text. string_bytes text ≡ hour_box_of frame upper lower hour) }
{
    let bound = hour.number.saturating_sub(1);
    match hour.cycle {
        Some(_) => {
            let (upper, lower) = (place(frame, upper, hour), place(frame, lower, hour));
            box_between(alloc, frame, bound, upper, lower)
        }
        None => Ok(String::new(alloc)),
    }
}

fn area(
    alloc: Global,
    frame: Frame,
    upper: Line,
    lower: Line,
    hours: &[Hour],
) -> Result<String, AllocError>
    requires { 0 < frame.step }
    ensures { IfOk result (λ text. string_bytes text ≡ area_of frame upper lower hours.now) }
{
    let mut text = String::new(alloc);
    for hour in hours {
        let path = hour_box(alloc, frame, upper, lower, *hour)?;
        text.push_str(path.as_str())?;
    }
    Ok(text)
}

/// The area between two lines, in the hours in which a cycle is in force, as one path, so that no seam
/// shows between two hours.
#[tactic(auto, unfolding(crate::specs::Areas::area_shape))]
pub(crate) fn area_shape(
    alloc: Global,
    frame: Frame,
    class: &str,
    upper: Line,
    lower: Line,
    hours: &[Hour],
) -> Result<String, AllocError>
    requires { 0 < frame.step }
    ensures { IfOk result (λ text. string_bytes text ≡ area_shape_of frame class.now upper lower hours.now) }
{
    let path = area(alloc, frame, upper, lower, hours)?;
    format!(in alloc; "<path class=\"{class}\" d=\"{path}\"/>")
}

#[tactic(auto, unfolding(crate::specs::Areas::blank))]
fn blank(alloc: Global, frame: Frame, run: Run) -> Result<String, AllocError>
    ensures { IfOk result (λ text. string_bytes text ≡ blank_of frame run) }
{
    match run.value {
        Some(_) => Ok(String::new(alloc)),
        None => {
            let (from, to) = (x(frame, run.before), x(frame, run.behind));
            let floor = frame.floor;
            format!(in alloc; "M{from} 30H{to}V{floor}H{from}z")
        }
    }
}

fn blanks(alloc: Global, frame: Frame, cycles: &[Run]) -> Result<String, AllocError>
    ensures { IfOk result (λ text. string_bytes text ≡ blanks_of frame cycles.now) }
{
    let mut text = String::new(alloc);
    for run in cycles {
        let path = blank(alloc, frame, *run)?;
        text.push_str(path.as_str())?;
    }
    Ok(text)
}

/// The ground of the hours in which no cycle is in force.
#[tactic(auto, unfolding(crate::specs::Areas::blank_shape))]
pub(crate) fn blank_shape(alloc: Global, frame: Frame, cycles: &[Run]) -> Result<String, AllocError>
    ensures { IfOk result (λ text. string_bytes text ≡ blank_shape_of frame cycles.now) }
{
    let path = blanks(alloc, frame, cycles)?;
    format!(in alloc; "<path class=\"blank\" d=\"{path}\"/>")
}

#[tactic(auto, unfolding(crate::specs::Areas::word_between))]
fn word_between(alloc: Global, from: u32, to: u32) -> Result<String, AllocError>
    requires from { from ≤ 100_000 }
    requires to { to ≤ 100_000 }
    ensures { IfOk result (λ text. string_bytes text ≡ word_between_of from to) }
{
    if from + 180 <= to {
        let middle = (from + to) / 2;
        return format!(in alloc;
            "<text class=\"dim over\" x=\"{middle}\" y=\"134\">nothing confirmed</text>"
        );
    }
    Ok(String::new(alloc))
}

#[tactic(auto, unfolding(crate::specs::Areas::blank_word))]
fn blank_word(alloc: Global, frame: Frame, run: Run) -> Result<String, AllocError>
    ensures { IfOk result (λ text. string_bytes text ≡ blank_word_of frame run) }
{
    match run.value {
        Some(_) => Ok(String::new(alloc)),
        None => word_between(alloc, x(frame, run.before), x(frame, run.behind)),
    }
}

/// The words on that ground, where they have room.
pub(crate) fn blank_words(alloc: Global, frame: Frame, cycles: &[Run]) -> Result<String, AllocError>
    ensures { IfOk result (λ text. string_bytes text ≡ blank_words_of frame cycles.now) }
{
    let mut text = String::new(alloc);
    for run in cycles {
        let word = blank_word(alloc, frame, *run)?;
        text.push_str(word.as_str())?;
    }
    Ok(text)
}

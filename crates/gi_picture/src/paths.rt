//! The paths of a chart.

ghost use Rattle.std.specs.Prelude.{◌≡◌, ◌<◌, ◌≤◌, IfOk, length, string_bytes};
ghost use Rattle.gi_picture.specs.Lines.{places_of};
ghost use Rattle.gi_picture.specs.Paths.{line_path as line_path_of, line_shape as line_shape_of, run_line as run_line_of, runs_line as runs_line_of, step_start as step_start_of};

use crate::frame::{Frame, x};
use crate::hour::Hour;
use crate::line::{Line, class, places};
use crate::merging::runs as runs_in;
use crate::run::Run;
use std::alloc::{AllocError, Global};

#[tactic(auto, unfolding(crate::specs::Paths::step_start))]
fn step_start(alloc: Global, frame: Frame, run: Run, place: u64) -> Result<String, AllocError>
    ensures { IfOk result (λ text. string_bytes text ≡ step_start_of frame run place) }
{
    match run.previous {
        Some(_) => format!(in alloc; "V{place}"),
        None => {
            let before = x(frame, run.before);
            format!(in alloc; "M{before} {place}")
        }
    }
}

#[tactic(auto, unfolding(crate::specs::Paths::run_line))]
fn run_line(alloc: Global, frame: Frame, run: Run) -> Result<String, AllocError>
    ensures { IfOk result (λ text. string_bytes text ≡ run_line_of frame run) }
{
    match run.value {
        Some(place) => {
            let start = step_start(alloc, frame, run, place)?;
            let behind = x(frame, run.behind);
            format!(in alloc; "{start}H{behind}")
        }
        None => Ok(String::new(alloc)),
    }
}

fn runs_line(alloc: Global, frame: Frame, runs: &[Run]) -> Result<String, AllocError>
    ensures { IfOk result (λ text. string_bytes text ≡ runs_line_of frame runs.now) }
{
    let mut text = String::new(alloc);
    for run in runs {
        let line = run_line(alloc, frame, *run)?;
        text.push_str(line.as_str())?;
    }
    Ok(text)
}

/// Steps over each run of hours in which something stands at one place.
#[tactic(auto, unfolding(crate::specs::Paths::line_path))]
fn line_path(alloc: Global, frame: Frame, places: &[Option<u64>]) -> Result<String, AllocError>
    requires { length places.now ≤ 250 }
    ensures { IfOk result (λ text. string_bytes text ≡ line_path_of frame places.now) }
{
    let runs = runs_in(alloc, places)?;
    runs_line(alloc, frame, &runs)
}

/// A line of a day.
#[tactic(auto, unfolding(crate::specs::Paths::line_shape))]
pub(crate) fn line_shape(
    alloc: Global,
    frame: Frame,
    line: Line,
    hours: &[Hour],
) -> Result<String, AllocError>
    requires some { 0 < frame.step }
    requires few { length hours.now ≤ 25 }
    ensures { IfOk result (λ text. string_bytes text ≡ line_shape_of frame line hours.now) }
{
    let places = places(alloc, frame, line, hours)?;
    let path = line_path(alloc, frame, &places)?;
    let class = class(line);
    format!(in alloc; "<path class=\"{class}\" d=\"{path}\"/>")
}

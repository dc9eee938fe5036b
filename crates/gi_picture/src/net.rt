//! The chart of the net flow.

ghost use Rattle.std.specs.Prelude.{◌≡◌, ◌<◌, ◌≤◌, IfOk, length, string_bytes};
ghost use Rattle.gi_picture.specs.Heights.{net_frame as net_frame_of};
ghost use Rattle.gi_picture.specs.Net.{net_back as net_back_of, net_chart as net_chart_of, net_description as net_description_of, net_drawn as net_drawn_of, net_front as net_front_of, net_ground as net_ground_of, net_lines as net_lines_of, net_title, towards as towards_of};
ghost use Rattle.gi_picture.specs.Runs.{runs as runs_of};

use crate::areas::{area_shape, blank_shape, blank_words};
use crate::axis::axis;
use crate::chart::{chart_end, cycle_runs, opening};
use crate::frame::Frame;
use crate::heights::net_frame;
use crate::hour::Hour;
use crate::line::Line;
use crate::names::net_names;
use crate::numbers::difference;
use crate::paths::line_shape;
use crate::run::Run;
use crate::tips::net_tips;
use crate::values::force_total;
use gi_pairs::Direction;
use std::alloc::{AllocError, Global};

#[tactic(auto, unfolding(crate::specs::Net::towards))]
fn towards(im: u128, mi: u128) -> &'static str
    ensures { result.now ≡ towards_of im mi }
{
    if mi < im {
        return "towards the matching operator";
    }
    if im < mi {
        return "towards the initiating operator";
    }
    "balanced"
}

#[tactic(auto, unfolding(crate::specs::Net::net_description))]
fn description(alloc: Global, hours: &[Hour]) -> Result<String, AllocError>
    requires { length hours.now ≤ 25 }
    ensures { IfOk result (λ text. string_bytes text ≡ net_description_of hours.now) }
{
    let im = force_total(alloc, Direction::IM, hours)?;
    let mi = force_total(alloc, Direction::MI, hours)?;
    let net = difference(alloc, im, mi)?;
    let towards = towards(im, mi);
    format!(in alloc;
        "Net of the day {net} kWh: {towards}. The table by hour has every value.</desc>\n"
    )
}

#[tactic(auto, unfolding(crate::specs::Net::net_ground))]
fn ground(alloc: Global, frame: Frame, hours: &[Hour], cycles: &[Run]) -> Result<String, AllocError>
    requires { 0 < frame.step }
    ensures { IfOk result (λ text. string_bytes text ≡ net_ground_of frame hours.now cycles.now) }
{
    let blank = blank_shape(alloc, frame, cycles)?;
    let up = area_shape(alloc, frame, "force", Line::Upwards, Line::Zero, hours)?;
    let down = area_shape(alloc, frame, "force", Line::Zero, Line::Downwards, hours)?;
    format!(in alloc; "{blank}{up}{down}\n")
}

#[tactic(auto, unfolding(crate::specs::Net::net_lines))]
fn lines(alloc: Global, frame: Frame, hours: &[Hour]) -> Result<String, AllocError>
    requires some { 0 < frame.step }
    requires few { length hours.now ≤ 25 }
    ensures { IfOk result (λ text. string_bytes text ≡ net_lines_of frame hours.now) }
{
    let up = line_shape(alloc, frame, Line::Upwards, hours)?;
    let down = line_shape(alloc, frame, Line::Downwards, hours)?;
    let net = line_shape(alloc, frame, Line::Net, hours)?;
    format!(in alloc; "{up}{down}{net}\n")
}

#[tactic(auto, unfolding(crate::specs::Net::net_front))]
fn front(alloc: Global, frame: Frame, hours: &[Hour], cycles: &[Run]) -> Result<String, AllocError>
    requires some { 0 < frame.step }
    requires few { length hours.now ≤ 25 }
    ensures { IfOk result (λ text. string_bytes text ≡ net_front_of frame hours.now cycles.now) }
{
    let lines = lines(alloc, frame, hours)?;
    let words = blank_words(alloc, frame, cycles)?;
    let names = net_names(alloc, frame, hours)?;
    let tips = net_tips(alloc, frame, hours)?;
    chart_end(
        alloc,
        lines.as_str(),
        words.as_str(),
        names.as_str(),
        tips.as_str(),
    )
}

#[tactic(auto, unfolding(crate::specs::Net::net_back))]
fn back(alloc: Global, frame: Frame, hours: &[Hour], cycles: &[Run]) -> Result<String, AllocError>
    requires some { 0 < frame.step }
    requires few { length hours.now ≤ 25 }
    ensures { IfOk result (λ text. string_bytes text ≡ net_back_of frame hours.now cycles.now) }
{
    let title = "Flow in force, IM upwards, MI downwards, and the net of both, by hour";
    let opening = opening(alloc, frame, "net", title)?;
    let description = description(alloc, hours)?;
    let ground = ground(alloc, frame, hours, cycles)?;
    let axis = axis(alloc, frame, cycles)?;
    format!(in alloc; "{opening}{description}{ground}{axis}")
}

#[tactic(auto, unfolding(crate::specs::Net::net_drawn))]
fn drawn(alloc: Global, frame: Frame, hours: &[Hour]) -> Result<String, AllocError>
    requires some { 0 < frame.step }
    requires few { length hours.now ≤ 25 }
    ensures { IfOk result (λ text. string_bytes text ≡ net_drawn_of frame hours.now) }
{
    let cycles = cycle_runs(alloc, hours)?;
    let back = back(alloc, frame, hours, &cycles)?;
    let front = front(alloc, frame, hours, &cycles)?;
    format!(in alloc; "{back}{front}")
}

/// The chart of the net flow of a day of so many hours, on one axis for both directions: what is in
/// force of IM upwards, what is in force of MI downwards, and the first less the second.
#[tactic(auto, unfolding(crate::specs::Net::net_chart))]
pub fn net_chart(alloc: Global, count: u8, hours: &[Hour]) -> Result<String, AllocError>
    requires some { 2 ≤ count }
    requires few { length hours.now ≤ 25 }
    ensures { IfOk result (λ text. string_bytes text ≡ net_chart_of count hours.now) }
{
    let frame = net_frame(count, hours);
    drawn(alloc, frame, hours)
}

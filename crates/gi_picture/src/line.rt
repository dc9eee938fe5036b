//! The lines of a chart.

ghost use Rattle.std.specs.Prelude.{◌≡◌, ◌<◌, ◌≤◌, IfOk, IfSome, map};
ghost use Rattle.gi_picture.specs.Lines.{class_of, level_if as level_if_of, level_of, place_of, places_of, word_of};

use crate::frame::{Frame, y};
use crate::hour::Hour;
use crate::level::Level;
use gi_pairs::Direction;
use std::alloc::{AllocError, Global};

/// A line of a chart: a quantity of a direction; of the net flow what is in force of IM, drawn upwards,
/// what is in force of MI, drawn downwards, and the first less the second; and the zero line.
#[derive(Clone, Copy)]
pub(crate) enum Line {
    Nominated(Direction),
    Processed(Direction),
    Peers(Direction),
    InForce(Direction),
    Upwards,
    Downwards,
    Net,
    Zero,
}

fn level_if(cycle: Option<u8>, up: u64, down: u64) -> Option<Level>
    ensures { result ≡ level_if_of cycle up down }
{
    match cycle {
        Some(_) => Some(Level { up, down }),
        None => None,
    }
}

/// The level of a line in an hour, if it has one there.
pub(crate) fn level_in(line: Line, hour: Hour) -> Option<Level>
    ensures { result ≡ level_of line hour }
{
    let (im, mi) = (hour.im.in_force, hour.mi.in_force);
    match line {
        Line::Nominated(way) => level_if(hour.shown, hour.in_direction(way).nominated, 0),
        Line::Processed(way) => level_if(hour.shown, hour.in_direction(way).processed, 0),
        Line::Peers(way) => level_if(hour.cycle, hour.in_direction(way).peers, 0),
        Line::InForce(way) => level_if(hour.cycle, hour.in_direction(way).in_force, 0),
        Line::Upwards => level_if(hour.cycle, im, 0),
        Line::Downwards => level_if(hour.cycle, 0, mi),
        Line::Net => level_if(hour.cycle, im, mi),
        Line::Zero => level_if(hour.cycle, 0, 0),
    }
}

/// Where a line stands in an hour, from the top.
pub(crate) fn place(frame: Frame, line: Line, hour: Hour) -> Option<u64>
    requires { 0 < frame.step }
    ensures value { result ≡ place_of frame line hour }
    ensures within { IfSome result (λ place. place ≤ 455) }
{
    match level_in(line, hour) {
        Some(level) => Some(y(frame, level)),
        None => None,
    }
}

/// Where a line stands in each hour.
pub(crate) fn places(
    alloc: Global,
    frame: Frame,
    line: Line,
    hours: &[Hour],
) -> Result<Vec<Option<u64>>, AllocError>
    requires { 0 < frame.step }
    ensures { IfOk result (λ places. places.items ≡ places_of frame line hours.now) }
{
    let mut places = Vec::new(alloc);
    for hour in hours {
        places.push(place(frame, line, *hour))?;
    }
    Ok(places)
}

/// How a line is drawn.
pub(crate) fn class(line: Line) -> &'static str
    ensures { result.now ≡ class_of line }
{
    match line {
        Line::Nominated(_) => "nominated",
        Line::Processed(_) => "processed",
        Line::Peers(_) => "peers",
        Line::InForce(_) | Line::Upwards | Line::Downwards => "edge",
        Line::Net => "net",
        Line::Zero => "zero",
    }
}

/// What a line is called.
pub(crate) fn word(line: Line) -> &'static str
    ensures { result.now ≡ word_of line }
{
    match line {
        Line::Nominated(_) => "nominated",
        Line::Processed(_) => "processed",
        Line::Peers(_) => "peer&rsquo;s<tspan class=\"wide\"> processed</tspan>",
        Line::InForce(_) => "<tspan class=\"strong\">in force</tspan>",
        Line::Upwards => "IM<tspan class=\"wide\"> in force</tspan>",
        Line::Downwards => "MI<tspan class=\"wide\"> in force</tspan>",
        Line::Net => "<tspan class=\"strong\">net</tspan>",
        Line::Zero => "",
    }
}

//! The names at the ends of the lines of a chart.

ghost use Rattle.std.specs.Prelude.{◌≡◌, ◌<◌, ◌≤◌, ◌+◌, ◌*◌, ◌++◌, ◌∷◌, IfOk, OnOk, IfSome, length, max, string_bytes};
ghost use Rattle.gi_picture.specs.Names.{direction_names as direction_names_of, end_at, ends as ends_of, lead as lead_of, limit as limit_of, line_name as line_name_of, names_behind as names_behind_of, names_in as names_in_of, names_of, net_names as net_names_of, place_of_first, sample as sample_of, wanted as wanted_of, word_at as word_at_of};

use crate::end::End;
use crate::frame::{Frame, right};
use crate::hour::Hour;
use crate::line::{Line, class, place, word};
use gi_pairs::Direction;
use std::alloc::{AllocError, Global};

fn wanted(low: u64, end: End) -> u64
    ensures value { result ≡ wanted_of low end }
    ensures within { result ≤ max low 65_535 }
{
    u64::from(end.place).max(low)
}

/// Where the name before these has to stand at most.
fn limit(high: u64, low: u64, ends: &[End]) -> u64
    requires { max low 65_535 + 19 * length ends.now ≤ 1_000_000_000_000 }
    ensures value { result ≡ limit_of high low ends.now }
    ensures within { result ≤ high }
{
    let Some((end, more)) = ends.split_first() else {
        return high;
    };
    let wanted = wanted(low, *end);
    limit(high, wanted + 19, more)
        .min(wanted)
        .saturating_sub(19)
}

/// Where the first of these names stands.
fn first_place(high: u64, low: u64, end: End, more: &[End]) -> u64
    requires { max low 65_535 + 19 * length more.now ≤ 1_000_000_000 }
    ensures value { result ≡ place_of_first high low end more.now }
    ensures within { result ≤ high }
{
    let wanted = wanted(low, end);
    limit(high, wanted + 19, more).min(wanted)
}

#[tactic(auto, unfolding(crate::specs::Names::lead))]
fn lead(alloc: Global, frame: Frame, from: u64, place: u64) -> Result<String, AllocError>
    ensures { IfOk result (λ text. string_bytes text ≡ lead_of frame from place) }
{
    let (near, far) = (right(frame) + 2, right(frame) + 12);
    format!(in alloc; "<path class=\"lead\" d=\"M{near} {from}L{far} {place}\"/>")
}

#[tactic(auto, unfolding(crate::specs::Names::sample))]
fn sample(alloc: Global, frame: Frame, place: u64, class: &str) -> Result<String, AllocError>
    ensures { IfOk result (λ text. string_bytes text ≡ sample_of frame place class.now) }
{
    let from = right(frame) + 14;
    format!(in alloc; "<path class=\"{class}\" d=\"M{from} {place}h22\"/>")
}

#[tactic(auto, unfolding(crate::specs::Names::word_at))]
fn word_at(alloc: Global, frame: Frame, place: u64, text: &str) -> Result<String, AllocError>
    requires { place ≤ 1000 }
    ensures { IfOk result (λ made. string_bytes made ≡ word_at_of frame place text.now) }
{
    let (from, low) = (right(frame) + 41, place + 4);
    format!(in alloc; "<text x=\"{from}\" y=\"{low}\">{text}</text>\n")
}

#[tactic(auto, unfolding(crate::specs::Names::line_name))]
fn line_name(alloc: Global, frame: Frame, end: End, place: u64) -> Result<String, AllocError>
    requires { place ≤ 1000 }
    ensures { IfOk result (λ text. string_bytes text ≡ line_name_of frame end place) }
{
    let lead = lead(alloc, frame, u64::from(end.place), place)?;
    let sample = sample(alloc, frame, place, class(end.line))?;
    let word = word_at(alloc, frame, place, word(end.line))?;
    format!(in alloc; "{lead}{sample}{word}")
}

fn names_in(alloc: Global, frame: Frame, low: u64, ends: &[End]) -> Result<String, AllocError>
    requires { max low 65_535 + 19 * length ends.now ≤ 1_000_000_000 }
    ensures { IfOk result (λ text. string_bytes text ≡ names_in_of frame low ends.now) }
{
    let Some((end, more)) = ends.split_first() else {
        return Ok(String::new(alloc));
    };
    let high = u64::from(frame.floor.saturating_sub(4));
    let name = line_name(alloc, frame, *end, first_place(high, low, *end, more))?;
    let rest = names_in(alloc, frame, wanted(low, *end) + 19, more)?;
    format!(in alloc; "{name}{rest}")
}

fn put_end(ends: &mut Vec<End>, line: Line, place: Option<u64>) -> Result<(), AllocError>
    requires { IfSome place (λ place. place ≤ 455) }
    ensures value { OnOk result (ends.new.items ≡ ends.old.items ++ end_at line place) }
    ensures few { length ends.new.items ≤ length ends.old.items + 1 }
{
    if let Some(place) = place {
        let place = place as u16;
        ends.push(End { line, place })?;
    }
    Ok(())
}

fn ends(alloc: Global, frame: Frame, hour: Hour, lines: &[Line]) -> Result<Vec<End>, AllocError>
    requires { 0 < frame.step }
    ensures value { IfOk result (λ ends. ends.items ≡ ends_of frame hour lines.now) }
    ensures few { IfOk result (λ ends. length ends.items ≤ length lines.now) }
{
    let mut ends = Vec::new(alloc);
    for line in lines {
        put_end(&mut ends, *line, place(frame, *line, hour))?;
    }
    Ok(ends)
}

/// The names of these lines behind an hour, from the top, of those that have a level in it.
#[tactic(auto, unfolding(crate::specs::Names::names_behind))]
fn names_behind(
    alloc: Global,
    frame: Frame,
    hour: Hour,
    lines: &[Line],
) -> Result<String, AllocError>
    requires some { 0 < frame.step }
    requires few { length lines.now ≤ 4 }
    ensures { IfOk result (λ text. string_bytes text ≡ names_behind_of frame hour lines.now) }
{
    let ends = ends(alloc, frame, hour, lines)?;
    names_in(alloc, frame, 34, &ends)
}

fn names(
    alloc: Global,
    frame: Frame,
    direction: Direction,
    hour: Hour,
) -> Result<String, AllocError>
    requires { 0 < frame.step }
    ensures { IfOk result (λ text. string_bytes text ≡ names_of frame direction hour) }
{
    let amounts = hour.in_direction(direction);
    let nominated = Line::Nominated(direction);
    let processed = Line::Processed(direction);
    let peers = Line::Peers(direction);
    let in_force = Line::InForce(direction);
    if amounts.nominated < amounts.peers {
        return names_behind(alloc, frame, hour, &[peers, nominated, processed, in_force]);
    }
    if amounts.processed < amounts.peers {
        return names_behind(alloc, frame, hour, &[nominated, peers, processed, in_force]);
    }
    names_behind(alloc, frame, hour, &[nominated, processed, peers, in_force])
}

/// The names of the lines of a direction, behind the last hour of the day.
#[tactic(auto, unfolding(crate::specs::Names::direction_names))]
pub(crate) fn direction_names(
    alloc: Global,
    frame: Frame,
    direction: Direction,
    hours: &[Hour],
) -> Result<String, AllocError>
    requires { 0 < frame.step }
    ensures { IfOk result (λ text. string_bytes text ≡ direction_names_of frame direction hours.now) }
{
    match hours.get(hours.len().saturating_sub(1)) {
        Some(hour) => names(alloc, frame, direction, *hour),
        None => Ok(String::new(alloc)),
    }
}

/// The names of the lines of the net flow, behind the last hour of the day.
#[tactic(auto, unfolding(crate::specs::Names::net_names))]
pub(crate) fn net_names(alloc: Global, frame: Frame, hours: &[Hour]) -> Result<String, AllocError>
    requires { 0 < frame.step }
    ensures { IfOk result (λ text. string_bytes text ≡ net_names_of frame hours.now) }
{
    match hours.get(hours.len().saturating_sub(1)) {
        Some(hour) => {
            let lines = [Line::Upwards, Line::Net, Line::Downwards];
            names_behind(alloc, frame, *hour, &lines)
        }
        None => Ok(String::new(alloc)),
    }
}

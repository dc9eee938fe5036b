//! The parts of a page that are the same for all rows: the head, the charts, the cycles.

ghost use Rattle.std.specs.Prelude.{◌≡◌, ◌≤◌, ◌++◌, IfOk, OnOk, length, string_bytes};
ghost use Rattle.std.specs.List.{list_any};
ghost use Rattle.gi_page.specs.Sections.{chart_body as chart_body_of, chart_part as chart_part_of, chart_section as chart_section_of, chart_title as chart_title_of, charts as charts_of, empty_part as empty_part_of, flow_part as flow_part_of, front_part, has_cycle, has_direction as has_direction_of, head_part as head_part_of, is_direction as is_direction_of, net_body as net_body_of, net_section as net_section_of, no_flow as no_flow_of, no_row as no_row_of, route as route_of, state_part as state_part_of, subject_part as subject_part_of, top_part as top_part_of, way as way_of};

use crate::header::{day_words, put_heading, put_style, put_title, side_words, standing_part};
use crate::style::navigation;
use crate::subject::Subject;
use crate::waiting::waiting_part;
use gi_day_tables::{CycleMark, cycles_section, totals_section};
use gi_pairs::{Direction, Key, Side};
use gi_picture::{Hour, chart_defs, chart_key, direction_chart, net_chart};
use std::alloc::{AllocError, Global};

// ---- the head

/// Adds the title, the style sheet and the heading.
#[tactic(auto, unfolding(crate::specs::Sections::front_part))]
pub(crate) fn put_front(
    alloc: Global,
    out: &mut Vec<u8>,
    subject: &Subject,
) -> Result<(), AllocError>
    ensures { OnOk result (out.new.items ≡ out.old.items ++ front_part subject.now) }
{
    put_title(alloc, out, subject)?;
    put_style(alloc, out, subject)?;
    put_heading(alloc, out, subject)
}

#[tactic(auto, unfolding(crate::specs::Sections::subject_part))]
fn subject_part(alloc: Global, subject: &Subject) -> Result<String, AllocError>
    ensures { IfOk result (λ text. string_bytes text ≡ subject_part_of subject.now) }
{
    let side = side_words(alloc, subject)?;
    let day = day_words(alloc, subject.count)?;
    format!(in alloc; "{side}{day}")
}

#[tactic(auto, unfolding(crate::specs::Sections::state_part))]
fn state_part(
    alloc: Global,
    count: u8,
    hours: &[Hour],
    marks: &[CycleMark],
) -> Result<String, AllocError>
    requires { length hours.now ≤ 25 }
    ensures { IfOk result (λ text. string_bytes text ≡ state_part_of count hours.now marks.now) }
{
    let standing = standing_part(alloc, count, hours)?;
    let waiting = waiting_part(alloc, hours, marks)?;
    format!(in alloc; "{standing}{waiting}</header>\n<main>\n")
}

/// What the page is of, what is in force and what is not final.
#[tactic(auto, unfolding(crate::specs::Sections::head_part))]
pub(crate) fn head_part(
    alloc: Global,
    subject: &Subject,
    hours: &[Hour],
    marks: &[CycleMark],
) -> Result<String, AllocError>
    requires { length hours.now ≤ 25 }
    ensures { IfOk result (λ text. string_bytes text ≡ head_part_of subject.now hours.now marks.now) }
{
    let subject_words = subject_part(alloc, subject)?;
    let state = state_part(alloc, subject.count, hours, marks)?;
    format!(in alloc; "{subject_words}{state}")
}

// ---- the charts

fn route(direction: Direction) -> &'static str
    ensures { result.now ≡ route_of direction }
{
    match direction {
        Direction::IM => "from the initiating to the matching operator",
        Direction::MI => "from the matching to the initiating operator",
    }
}

fn way(side: Side, direction: Direction) -> &'static str
    ensures { result.now ≡ way_of side direction }
{
    match (side, direction) {
        (Side::I, Direction::IM) => "out of",
        (Side::I, Direction::MI) => "into",
        (Side::M, Direction::IM) => "into",
        (Side::M, Direction::MI) => "out of",
    }
}

fn is_direction(direction: Direction, other: Direction) -> bool
    ensures { result ≡ is_direction_of direction other }
{
    match (direction, other) {
        (Direction::IM, Direction::IM) => true,
        (Direction::MI, Direction::MI) => true,
        _ => false,
    }
}

fn has_direction(direction: Direction, keys: &[Key]) -> bool
    ensures { result ≡ has_direction_of direction keys.now }
{
    let mut has = false;
    for key in keys {
        has = has || is_direction(direction, key.direction);
    }
    has
}

#[tactic(auto, unfolding(crate::specs::Sections::no_row))]
fn no_row(alloc: Global, direction: Direction) -> Result<String, AllocError>
    ensures { IfOk result (λ text. string_bytes text ≡ no_row_of direction) }
{
    format!(in alloc; "<p>No pair has a row in {direction}.</p>\n")
}

#[tactic(auto, unfolding(crate::specs::Sections::chart_body))]
fn chart_body(
    alloc: Global,
    has: bool,
    count: u8,
    direction: Direction,
    hours: &[Hour],
) -> Result<String, AllocError>
    requires some { 2 ≤ count }
    requires few { length hours.now ≤ 25 }
    ensures { IfOk result (λ text. string_bytes text ≡ chart_body_of has count direction hours.now) }
{
    if has {
        direction_chart(alloc, count, direction, hours)
    } else {
        no_row(alloc, direction)
    }
}

#[tactic(auto, unfolding(crate::specs::Sections::chart_title))]
fn chart_title(alloc: Global, side: Side, direction: Direction) -> Result<String, AllocError>
    ensures { IfOk result (λ text. string_bytes text ≡ chart_title_of side direction) }
{
    let (route, way) = (route(direction), way(side, direction));
    format!(in alloc;
        "<section aria-labelledby=\"s-{direction}\">\n<h2 id=\"s-{direction}\">{direction} <span>{route}, {way} this network</span></h2>\n"
    )
}

#[tactic(auto, unfolding(crate::specs::Sections::chart_section))]
fn chart_section(
    alloc: Global,
    side: Side,
    has: bool,
    count: u8,
    direction: Direction,
    hours: &[Hour],
) -> Result<String, AllocError>
    requires some { 2 ≤ count }
    requires few { length hours.now ≤ 25 }
    ensures { IfOk result (λ text. string_bytes text ≡ chart_section_of side has count direction hours.now) }
{
    let title = chart_title(alloc, side, direction)?;
    let body = chart_body(alloc, has, count, direction, hours)?;
    format!(in alloc; "{title}{body}</section>\n")
}

#[tactic(auto, unfolding(crate::specs::Sections::charts))]
fn charts(
    alloc: Global,
    side: Side,
    keys: &[Key],
    count: u8,
    hours: &[Hour],
) -> Result<String, AllocError>
    requires some { 2 ≤ count }
    requires few { length hours.now ≤ 25 }
    ensures { IfOk result (λ text. string_bytes text ≡ charts_of side keys.now count hours.now) }
{
    let has_im = has_direction(Direction::IM, keys);
    let has_mi = has_direction(Direction::MI, keys);
    let im = chart_section(alloc, side, has_im, count, Direction::IM, hours)?;
    let mi = chart_section(alloc, side, has_mi, count, Direction::MI, hours)?;
    format!(in alloc; "<div class=\"two\">\n{im}{mi}</div>\n")
}

// ---- the net flow and the cycles

fn has_cycles(hours: &[Hour]) -> bool
    ensures { result ≡ list_any has_cycle hours.now }
{
    let mut has = false;
    for hour in hours {
        has = has || hour.cycle.is_some();
    }
    has
}

#[tactic(auto, unfolding(crate::specs::Sections::no_flow))]
fn no_flow(alloc: Global) -> Result<String, AllocError>
    ensures { IfOk result (λ text. string_bytes text ≡ no_flow_of) }
{
    format!(in alloc; "<p>No cycle is confirmed, so there is no flow yet.</p>\n")
}

#[tactic(auto, unfolding(crate::specs::Sections::net_body))]
fn net_body(alloc: Global, has: bool, count: u8, hours: &[Hour]) -> Result<String, AllocError>
    requires some { 2 ≤ count }
    requires few { length hours.now ≤ 25 }
    ensures { IfOk result (λ text. string_bytes text ≡ net_body_of has count hours.now) }
{
    if has {
        net_chart(alloc, count, hours)
    } else {
        no_flow(alloc)
    }
}

#[tactic(auto, unfolding(crate::specs::Sections::net_section))]
fn net_section(alloc: Global, count: u8, hours: &[Hour]) -> Result<String, AllocError>
    requires some { 2 ≤ count }
    requires few { length hours.now ≤ 25 }
    ensures { IfOk result (λ text. string_bytes text ≡ net_section_of count hours.now) }
{
    let body = net_body(alloc, has_cycles(hours), count, hours)?;
    format!(in alloc;
        "<section aria-labelledby=\"s-net\">\n<h2 id=\"s-net\">Net flow <span>IM upwards, MI downwards, on one axis</span></h2>\n{body}</section>\n"
    )
}

#[tactic(auto, unfolding(crate::specs::Sections::flow_part))]
fn flow_part(
    alloc: Global,
    count: u8,
    hours: &[Hour],
    marks: &[CycleMark],
) -> Result<String, AllocError>
    requires some { 2 ≤ count }
    requires few { length hours.now ≤ 25 }
    ensures { IfOk result (λ text. string_bytes text ≡ flow_part_of count hours.now marks.now) }
{
    let net = net_section(alloc, count, hours)?;
    let cycles = cycles_section(alloc, marks, hours)?;
    format!(in alloc; "<div class=\"two\">\n{net}{cycles}</div>\n")
}

// ---- together

#[tactic(auto, unfolding(crate::specs::Sections::chart_part))]
fn chart_part(
    alloc: Global,
    side: Side,
    keys: &[Key],
    count: u8,
    hours: &[Hour],
) -> Result<String, AllocError>
    requires some { 2 ≤ count }
    requires few { length hours.now ≤ 25 }
    ensures { IfOk result (λ text. string_bytes text ≡ chart_part_of side keys.now count hours.now) }
{
    let (navigation, defs) = (navigation(), chart_defs());
    let totals = totals_section(alloc, count, hours)?;
    let charts = charts(alloc, side, keys, count, hours)?;
    let key = chart_key(alloc, hours)?;
    format!(in alloc; "{navigation}{defs}{totals}{charts}{key}")
}

/// The parts of the page that come before those of rows.
#[tactic(auto, unfolding(crate::specs::Sections::top_part))]
pub(crate) fn top_part(
    alloc: Global,
    side: Side,
    keys: &[Key],
    count: u8,
    hours: &[Hour],
    marks: &[CycleMark],
) -> Result<String, AllocError>
    requires some { 2 ≤ count }
    requires few { length hours.now ≤ 25 }
    ensures { IfOk result (λ text. string_bytes text ≡ top_part_of side keys.now count hours.now marks.now) }
{
    let charts = chart_part(alloc, side, keys, count, hours)?;
    let flow = flow_part(alloc, count, hours, marks)?;
    format!(in alloc; "{charts}{flow}")
}

/// What stands in the place of all parts where no pair has a row.
#[tactic(auto, unfolding(crate::specs::Sections::empty_part))]
pub(crate) fn empty_part(
    alloc: Global,
    hours: &[Hour],
    marks: &[CycleMark],
) -> Result<String, AllocError>
    requires { length hours.now ≤ 25 }
    ensures { IfOk result (λ text. string_bytes text ≡ empty_part_of hours.now marks.now) }
{
    let cycles = cycles_section(alloc, marks, hours)?;
    format!(in alloc; "<p>No pair has a row in this day.</p>\n{cycles}")
}

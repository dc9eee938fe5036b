//! What stands before the parts of a page: its title, its style, and what it is of.

ghost use Rattle.std.specs.Prelude.{◌≡◌, ◌≤◌, ◌++◌, IfOk, OnOk, length, string_bytes};
ghost use Rattle.std.specs.Option.{option_copied};
ghost use Rattle.gi_picture.specs.Chart.{cycles_of};
ghost use Rattle.gi_picture.specs.Escape.{escaped};
ghost use Rattle.gi_picture.specs.Runs.{runs as runs_of};
ghost use Rattle.gi_page.specs.Header.{clock_change as clock_change_of, cycle_at as cycle_at_of, day_words as day_words_of, foot_part, foot_words as foot_words_of, heading as heading_of, heading_part, hours_words as hours_words_of, last_in_force as last_in_force_of, name as name_of, operator as operator_of, reign as reign_of, reign_end as reign_end_of, reign_words as reign_words_of, reigns as reigns_of, side_and_day as side_and_day_of, side_words as side_words_of, standing_part as standing_part_of, standing_words as standing_words_of, style_part, title_part};

use crate::style::{head, style};
use crate::subject::Subject;
use gi_pairs::Side;
use gi_picture::{Hour, Run, cycle_runs, grouped, put_escaped};
use std::alloc::{AllocError, Global};

// ---- the title, the style and the heading

#[tactic(auto, unfolding(crate::specs::Header::side_and_day))]
fn side_and_day(alloc: Global, subject: &Subject) -> Result<String, AllocError>
    ensures { IfOk result (λ text. string_bytes text ≡ side_and_day_of subject.now) }
{
    let (side, day) = (subject.side, subject.day);
    format!(in alloc; " {side} {day}")
}

fn put_point(out: &mut Vec<u8>, subject: &Subject) -> Result<(), AllocError>
    ensures { OnOk result (out.new.items ≡ out.old.items ++ escaped subject.now.point) }
{
    put_escaped(out, subject.point.as_str().as_bytes())
}

#[tactic(auto, unfolding(crate::specs::Header::name))]
fn put_name(alloc: Global, out: &mut Vec<u8>, subject: &Subject) -> Result<(), AllocError>
    ensures { OnOk result (out.new.items ≡ out.old.items ++ name_of subject.now) }
{
    let words = side_and_day(alloc, subject)?;
    put_point(out, subject)?;
    out.extend_from_slice(words.as_bytes())
}

/// Adds what stands before the style sheet.
#[tactic(auto, unfolding(crate::specs::Header::title_part))]
pub(crate) fn put_title(
    alloc: Global,
    out: &mut Vec<u8>,
    subject: &Subject,
) -> Result<(), AllocError>
    ensures { OnOk result (out.new.items ≡ out.old.items ++ title_part subject.now) }
{
    out.extend_from_slice(head().as_bytes())?;
    put_name(alloc, out, subject)?;
    out.extend_from_slice(b"</title>\n<style>\n")
}

#[tactic(auto, unfolding(crate::specs::Header::foot_words))]
fn foot_words(alloc: Global, facts: u32) -> Result<String, AllocError>
    ensures { IfOk result (λ text. string_bytes text ≡ foot_words_of facts) }
{
    let facts = grouped(alloc, u128::from(facts))?;
    format!(in alloc; ", as of fact {facts}\"}}}}\n</style>\n</head>\n<body>\n<header>\n<h1>")
}

#[tactic(auto, unfolding(crate::specs::Header::foot_part))]
fn put_foot(alloc: Global, out: &mut Vec<u8>, subject: &Subject) -> Result<(), AllocError>
    ensures { OnOk result (out.new.items ≡ out.old.items ++ foot_part subject.now) }
{
    let words = foot_words(alloc, subject.facts)?;
    put_name(alloc, out, subject)?;
    out.extend_from_slice(words.as_bytes())
}

/// Adds the style sheet.
#[tactic(auto, unfolding(crate::specs::Header::style_part))]
pub(crate) fn put_style(
    alloc: Global,
    out: &mut Vec<u8>,
    subject: &Subject,
) -> Result<(), AllocError>
    ensures { OnOk result (out.new.items ≡ out.old.items ++ style_part subject.now) }
{
    out.extend_from_slice(style().as_bytes())?;
    put_foot(alloc, out, subject)
}

#[tactic(auto, unfolding(crate::specs::Header::heading))]
fn heading(alloc: Global, subject: &Subject) -> Result<String, AllocError>
    ensures { IfOk result (λ text. string_bytes text ≡ heading_of subject.now) }
{
    let day = subject.day;
    format!(in alloc; " <span>gas day</span> {day}</h1>\n")
}

/// Adds the heading.
#[tactic(auto, unfolding(crate::specs::Header::heading_part))]
pub(crate) fn put_heading(
    alloc: Global,
    out: &mut Vec<u8>,
    subject: &Subject,
) -> Result<(), AllocError>
    ensures { OnOk result (out.new.items ≡ out.old.items ++ heading_part subject.now) }
{
    let words = heading(alloc, subject)?;
    put_point(out, subject)?;
    out.extend_from_slice(words.as_bytes())
}

// ---- the side and the day

fn operator(side: Side) -> &'static str
    ensures { result.now ≡ operator_of side }
{
    match side {
        Side::I => "initiating",
        Side::M => "matching",
    }
}

#[tactic(auto, unfolding(crate::specs::Header::clock_change))]
fn clock_change(count: u8) -> &'static str
    ensures { result.now ≡ clock_change_of count }
{
    if count == 23 {
        return " The clock goes forward: hour 20 begins at 01:00, and hour 21 at 03:00.";
    }
    if count == 25 {
        return " The clock goes back: hours 21 and 22 both begin at 02:00.";
    }
    ""
}

/// The side, and how many facts it has.
#[tactic(auto, unfolding(crate::specs::Header::side_words))]
pub(crate) fn side_words(alloc: Global, subject: &Subject) -> Result<String, AllocError>
    ensures { IfOk result (λ text. string_bytes text ≡ side_words_of subject.now) }
{
    let side = subject.side;
    let operator = operator(side);
    let facts = grouped(alloc, u128::from(subject.facts))?;
    format!(in alloc; "<p>Side {side}, the {operator} operator, as of fact {facts}. ")
}

/// How many hours the day has, and where the clock changes.
#[tactic(auto, unfolding(crate::specs::Header::day_words))]
pub(crate) fn day_words(alloc: Global, count: u8) -> Result<String, AllocError>
    ensures { IfOk result (λ text. string_bytes text ≡ day_words_of count) }
{
    let change = clock_change(count);
    format!(in alloc;
        "{count} hours, from 06:00 to 06:00 of the next day, Central European local time.{change}</p>\n<p>"
    )
}

// ---- what is in force

/// `hour 3` or `hours 3–8`.
#[tactic(auto, unfolding(crate::specs::Header::hours_words))]
pub(crate) fn hours_words(alloc: Global, first: u32, last: u8) -> Result<String, AllocError>
    ensures { IfOk result (λ text. string_bytes text ≡ hours_words_of first last) }
{
    if first == u32::from(last) {
        return format!(in alloc; "hour {first}");
    }
    format!(in alloc; "hours {first}&ndash;{last}")
}

fn reign_words(alloc: Global, value: Option<u64>) -> Result<String, AllocError>
    ensures { IfOk result (λ text. string_bytes text ≡ reign_words_of value) }
{
    match value {
        Some(cycle) => format!(in alloc; " by cycle {cycle}"),
        None => format!(in alloc; " not at all"),
    }
}

#[tactic(auto, unfolding(crate::specs::Header::reign_end))]
fn reign_end(count: u8, behind: u8) -> &'static str
    ensures { result.now ≡ reign_end_of count behind }
{
    if behind == count {
        ".</span>"
    } else {
        ",</span> "
    }
}

#[tactic(auto, unfolding(crate::specs::Header::reign))]
fn reign(alloc: Global, count: u8, run: Run) -> Result<String, AllocError>
    ensures { IfOk result (λ text. string_bytes text ≡ reign_of count run) }
{
    let hours = hours_words(alloc, u32::from(run.before) + 1, run.behind)?;
    let words = reign_words(alloc, run.value)?;
    let end = reign_end(count, run.behind);
    format!(in alloc; "<span>{hours}{words}{end}")
}

fn reigns(alloc: Global, count: u8, runs: &[Run]) -> Result<String, AllocError>
    ensures { IfOk result (λ text. string_bytes text ≡ reigns_of count runs.now) }
{
    let mut text = String::new(alloc);
    for run in runs {
        let words = reign(alloc, count, *run)?;
        text.push_str(words.as_str())?;
    }
    Ok(text)
}

fn all_reigns(alloc: Global, count: u8, hours: &[Hour]) -> Result<String, AllocError>
    requires { length hours.now ≤ 25 }
    ensures { IfOk result (λ text. string_bytes text ≡ reigns_of count (runs_of (cycles_of hours.now))) }
{
    let runs = cycle_runs(alloc, hours)?;
    reigns(alloc, count, &runs)
}

fn cycle_at(hour: Option<&Hour>) -> Option<u8>
    ensures { result ≡ cycle_at_of (option_copied hour.entry) }
{
    match hour {
        Some(hour) => hour.cycle,
        None => None,
    }
}

#[tactic(auto, unfolding(crate::specs::Header::last_in_force))]
fn last_in_force(hours: &[Hour]) -> Option<u8>
    ensures { result ≡ last_in_force_of hours.now }
{
    cycle_at(hours.last())
}

fn standing_words(alloc: Global, cycle: Option<u8>, reigns: &str) -> Result<String, AllocError>
    ensures { IfOk result (λ text. string_bytes text ≡ standing_words_of cycle reigns.now) }
{
    match cycle {
        Some(cycle) => format!(in alloc; "<b>In force as of cycle {cycle}:</b> {reigns}</p>\n"),
        None => format!(in alloc;
            "<b>Nothing is in force:</b> no cycle of this day is confirmed.</p>\n"
        ),
    }
}

/// Which cycle is in force for which hours.
#[tactic(auto, unfolding(crate::specs::Header::standing_part))]
pub(crate) fn standing_part(alloc: Global, count: u8, hours: &[Hour]) -> Result<String, AllocError>
    requires { length hours.now ≤ 25 }
    ensures { IfOk result (λ text. string_bytes text ≡ standing_part_of count hours.now) }
{
    let reigns = all_reigns(alloc, count, hours)?;
    standing_words(alloc, last_in_force(hours), reigns.as_str())
}

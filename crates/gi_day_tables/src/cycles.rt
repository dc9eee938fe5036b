//! The cycles of the day: a strip of all, and a table of those in force or waiting.

ghost use Rattle.std.specs.Prelude.{◌≡◌, ◌≤◌, IfOk, length, map, string_bytes};
ghost use Rattle.std.specs.List.{list_any};
ghost use Rattle.gi_picture.specs.Runs.{runs as runs_of};
ghost use Rattle.gi_day_tables.specs.Cycles.{box_start as box_start_of, cycle_heads as cycle_heads_of, cycle_row_if as cycle_row_if_of, cycle_rows as cycle_rows_of, fact_text as fact_text_of, is_in_force as is_in_force_of, is_listed as is_listed_of, listed_rows as listed_rows_of, span_if as span_if_of, spans as spans_of, standing_text as standing_text_of, stands_for as stands_for_of, strip as strip_of};
ghost use Rattle.gi_day_tables.specs.Cycles.{cycle_box as cycle_box_of, row_front as row_front_of, row_middle as row_middle_of, row_end as row_end_of, cycle_row as cycle_row_of, cycles_section as cycles_section_of};

use crate::cycle_mark::{CycleMark, Standing};
use crate::spans::span;
use gi_picture::{Hour, Run, cycle_runs, grouped};
use gi_text::TwoDigits;
use std::alloc::{AllocError, Global};

fn box_start(standing: Standing) -> &'static str
    ensures { result.now ≡ box_start_of standing }
{
    match standing {
        Standing::NotClosed => "<li><b>",
        Standing::Frozen => "<li class=\"frozen\" title=\"frozen\"><b>",
        Standing::Unsaved => "<li class=\"unsaved\" title=\"unsaved\"><b>",
        Standing::Confirmed => "<li class=\"confirmed\" title=\"confirmed\"><b>",
    }
}

fn standing_text(standing: Standing) -> &'static str
    ensures { result.now ≡ standing_text_of standing }
{
    match standing {
        Standing::NotClosed => "not closed",
        Standing::Frozen => "frozen",
        Standing::Unsaved => "unsaved",
        Standing::Confirmed => "confirmed",
    }
}

#[tactic(auto, unfolding(crate::specs::Cycles::cycle_box))]
fn cycle_box(alloc: Global, mark: &CycleMark) -> Result<String, AllocError>
    ensures { IfOk result (λ text. string_bytes text ≡ cycle_box_of mark.now) }
{
    let start = box_start(mark.standing);
    let cycle = mark.cycle;
    let first = mark.first;
    format!(in alloc; "{start}{cycle}</b>{first}</li>")
}

fn strip(alloc: Global, marks: &[CycleMark]) -> Result<String, AllocError>
    ensures { IfOk result (λ text. string_bytes text ≡ strip_of marks.now) }
{
    let mut text = String::new(alloc);
    for mark in marks {
        let each = cycle_box(alloc, mark)?;
        text.push_str(each.as_str())?;
    }
    Ok(text)
}

fn stands_for(cycle: u8, run: Run) -> bool
    ensures { result ≡ stands_for_of cycle run }
{
    match run.value {
        Some(value) => value == u64::from(cycle),
        None => false,
    }
}

fn is_in_force(cycle: u8, runs: &[Run]) -> bool
    ensures { result ≡ is_in_force_of cycle runs.now }
{
    let mut any = false;
    for run in runs {
        any = any || stands_for(cycle, *run);
    }
    any
}

fn is_listed(mark: &CycleMark, runs: &[Run]) -> bool
    ensures { result ≡ is_listed_of mark.now runs.now }
{
    match mark.standing {
        Standing::NotClosed => false,
        Standing::Frozen => true,
        Standing::Unsaved => true,
        Standing::Confirmed => is_in_force(mark.cycle, runs),
    }
}

#[tactic(auto, unfolding(crate::specs::Cycles::span_if))]
fn span_if(alloc: Global, cycle: u8, run: Run) -> Result<String, AllocError>
    ensures { IfOk result (λ text. string_bytes text ≡ span_if_of cycle run) }
{
    if !stands_for(cycle, run) {
        return Ok(String::new(alloc));
    }
    let hours = span(alloc, run.before.saturating_add(1), run.behind)?;
    format!(in alloc; "<span>{hours}</span> ")
}

fn spans(alloc: Global, cycle: u8, runs: &[Run]) -> Result<String, AllocError>
    ensures { IfOk result (λ text. string_bytes text ≡ spans_of cycle runs.now) }
{
    let mut text = String::new(alloc);
    for run in runs {
        let each = span_if(alloc, cycle, *run)?;
        text.push_str(each.as_str())?;
    }
    Ok(text)
}

#[tactic(auto, unfolding(crate::specs::Cycles::fact_text))]
fn fact_text(alloc: Global, fact: Option<u32>) -> Result<String, AllocError>
    ensures { IfOk result (λ text. string_bytes text ≡ fact_text_of fact) }
{
    match fact {
        Some(fact) => grouped(alloc, u128::from(fact)),
        None => format!(in alloc; "&ndash;"),
    }
}

/// What stands between the strip and the rows of cycles.
#[tactic(auto, unfolding(crate::specs::Cycles::cycle_heads))]
fn cycle_heads() -> &'static str
    ensures { result.now ≡ cycle_heads_of }
{
    "</ol>\n<p class=\"dim\">In each box the cycle, and below it the first hour that it covers. <span><i class=\"confirmed\"></i> confirmed</span>, <span><i class=\"unsaved\"></i> met and unsaved</span>, <span><i class=\"frozen\"></i> frozen and not met</span>, else not closed.</p>\n<div class=\"scroll\"><table>\n<caption>Cycles in force, and those that are closed and not confirmed. Each covers the hours from its first to the end of the day.</caption>\n<thead><tr><th scope=\"col\" class=\"t\">Cycle</th><th scope=\"col\" class=\"t\">Starts, UTC</th><th scope=\"col\" class=\"t\">First hour</th><th scope=\"col\" class=\"t\">Standing</th><th scope=\"col\" class=\"t\">In force for</th><th scope=\"col\" class=\"wide\">Closed by fact</th><th scope=\"col\" class=\"wide\">Met by fact</th></tr></thead>\n<tbody>\n"
}

#[tactic(auto, unfolding(crate::specs::Cycles::row_front))]
fn row_front(alloc: Global, mark: &CycleMark) -> Result<String, AllocError>
    ensures { IfOk result (λ text. string_bytes text ≡ row_front_of mark.now) }
{
    let cycle = mark.cycle;
    let start = TwoDigits {
        number: (mark.start / 3600 % 24) as u8,
    };
    let first = mark.first;
    format!(in alloc;
        "<tr><th scope=\"row\" class=\"t\">{cycle}</th><td class=\"t\">{start}:00</td><td class=\"t\">{first}</td>"
    )
}

#[tactic(auto, unfolding(crate::specs::Cycles::row_middle))]
fn row_middle(alloc: Global, mark: &CycleMark, runs: &[Run]) -> Result<String, AllocError>
    ensures { IfOk result (λ text. string_bytes text ≡ row_middle_of mark.now runs.now) }
{
    let standing = standing_text(mark.standing);
    let hours = spans(alloc, mark.cycle, runs)?;
    format!(in alloc; "<td class=\"t\">{standing}</td><td class=\"t strong\">{hours}</td>")
}

#[tactic(auto, unfolding(crate::specs::Cycles::row_end))]
fn row_end(alloc: Global, mark: &CycleMark) -> Result<String, AllocError>
    ensures { IfOk result (λ text. string_bytes text ≡ row_end_of mark.now) }
{
    let closed = fact_text(alloc, mark.closed)?;
    let met = fact_text(alloc, mark.met)?;
    format!(in alloc; "<td class=\"wide\">{closed}</td><td class=\"wide\">{met}</td></tr>\n")
}

#[tactic(auto, unfolding(crate::specs::Cycles::cycle_row))]
fn cycle_row(alloc: Global, mark: &CycleMark, runs: &[Run]) -> Result<String, AllocError>
    ensures { IfOk result (λ text. string_bytes text ≡ cycle_row_of mark.now runs.now) }
{
    let front = row_front(alloc, mark)?;
    let middle = row_middle(alloc, mark, runs)?;
    let end = row_end(alloc, mark)?;
    format!(in alloc; "{front}{middle}{end}")
}

fn cycle_row_if(alloc: Global, mark: &CycleMark, runs: &[Run]) -> Result<String, AllocError>
    ensures { IfOk result (λ text. string_bytes text ≡ cycle_row_if_of mark.now runs.now) }
{
    if is_listed(mark, runs) {
        cycle_row(alloc, mark, runs)
    } else {
        Ok(String::new(alloc))
    }
}

fn cycle_rows(alloc: Global, marks: &[CycleMark], runs: &[Run]) -> Result<String, AllocError>
    ensures { IfOk result (λ text. string_bytes text ≡ cycle_rows_of marks.now runs.now) }
{
    let mut text = String::new(alloc);
    for mark in marks {
        let row = cycle_row_if(alloc, mark, runs)?;
        text.push_str(row.as_str())?;
    }
    Ok(text)
}

#[tactic(auto, unfolding(crate::specs::Cycles::listed_rows))]
fn listed_rows(alloc: Global, marks: &[CycleMark], hours: &[Hour]) -> Result<String, AllocError>
    requires { length hours.now ≤ 25 }
    ensures { IfOk result (λ text. string_bytes text ≡ listed_rows_of marks.now hours.now) }
{
    let runs = cycle_runs(alloc, hours)?;
    cycle_rows(alloc, marks, &runs)
}

/// The strip of all cycles of the day, and the table of those that are in force or wait to be.
#[tactic(auto, unfolding(crate::specs::Cycles::cycles_section))]
pub fn cycles_section(
    alloc: Global,
    marks: &[CycleMark],
    hours: &[Hour],
) -> Result<String, AllocError>
    requires { length hours.now ≤ 25 }
    ensures { IfOk result (λ text. string_bytes text ≡ cycles_section_of marks.now hours.now) }
{
    let strip = strip(alloc, marks)?;
    let heads = cycle_heads();
    let rows = listed_rows(alloc, marks, hours)?;
    format!(in alloc;
        "<section aria-labelledby=\"s-cycles\">\n<h2 id=\"s-cycles\">Cycles</h2>\n<ol class=\"strip\">\n{strip}{heads}{rows}</tbody>\n</table></div>\n</section>\n"
    )
}

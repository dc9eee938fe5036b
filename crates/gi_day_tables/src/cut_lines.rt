//! The lines of a row's cuts: a line for each run of hours that show the same.

ghost use Rattle.std.specs.Prelude.{◌≡◌, ◌≤◌, ◌++◌, IfOk, OnOk, length, string_bytes};
ghost use Rattle.gi_day_tables.specs.CutLines.{before as before_of, behind as behind_of, cut_by as cut_by_of, cut_if, cut_runs as cut_runs_of, more_lines as more_lines_of, row_lines as row_lines_of};
ghost use Rattle.gi_day_tables.specs.CutLines.{line_hours as line_hours_of, line_amounts as line_amounts_of, line_end as line_end_of, cut_line as cut_line_of, next_line as next_line_of};

use crate::by_hour::cycle_text;
use crate::cells::planned_cells;
use crate::column::Column;
use crate::columns::{column_value, hour_text};
use crate::flow_hour::FlowHour;
use crate::flow_merging::flow_runs;
use crate::flow_run::FlowRun;
use crate::spans::{local_span, span};
use gi_picture::Amounts;
use std::alloc::{AllocError, Global};

fn put_if_cut(runs: &mut Vec<FlowRun>, run: FlowRun) -> Result<(), AllocError>
    ensures { OnOk result (runs.new.items ≡ runs.old.items ++ cut_if run) }
{
    let cut = column_value(Column::Cut, run.first);
    if cut.unwrap_or(0) == 0 {
        return Ok(());
    }
    runs.push(run)?;
    Ok(())
}

/// The runs of hours of a row in which less is in force than is nominated.
pub(crate) fn cut_runs(alloc: Global, hours: &[FlowHour]) -> Result<Vec<FlowRun>, AllocError>
    requires { length hours.now ≤ 25 }
    ensures { IfOk result (λ runs. runs.items ≡ cut_runs_of hours.now) }
{
    let all = flow_runs(alloc, hours)?;
    let mut runs = Vec::new(alloc);
    for run in &all {
        put_if_cut(&mut runs, *run)?;
    }
    Ok(runs)
}

/// Who cut: this side's own capacity, where all that it processed is in force; the peer, where all that
/// is nominated was processed; else both.
fn cut_by(amounts: Amounts) -> &'static str
    ensures { result.now ≡ cut_by_of amounts }
{
    if amounts.processed == amounts.in_force {
        return "own";
    }
    if amounts.processed == amounts.nominated {
        return "peer";
    }
    "both"
}

fn before(run: FlowRun) -> u8
    ensures { result ≡ before_of run }
{
    run.first.number.saturating_sub(1)
}

fn behind(run: FlowRun) -> u8
    ensures { result ≡ behind_of run }
{
    before(run).saturating_add(run.hours)
}

#[tactic(auto, unfolding(crate::specs::CutLines::line_hours))]
fn line_hours(alloc: Global, count: u8, run: FlowRun) -> Result<String, AllocError>
    ensures { IfOk result (λ text. string_bytes text ≡ line_hours_of count run) }
{
    let hours = span(alloc, run.first.number, behind(run))?;
    let local = local_span(alloc, count, before(run), behind(run))?;
    format!(in alloc; "<td class=\"t\">{hours}</td><td class=\"t wide\">{local}</td>")
}

#[tactic(auto, unfolding(crate::specs::CutLines::line_amounts))]
fn line_amounts(alloc: Global, hour: FlowHour) -> Result<String, AllocError>
    ensures { IfOk result (λ text. string_bytes text ≡ line_amounts_of hour) }
{
    let planned = planned_cells(alloc, hour)?;
    let in_force = hour_text(alloc, Column::InForce, hour)?;
    let cut = hour_text(alloc, Column::Cut, hour)?;
    format!(in alloc; "{planned}<td class=\"wide\">{in_force}</td><td class=\"cut\">{cut}</td>")
}

#[tactic(auto, unfolding(crate::specs::CutLines::line_end))]
fn line_end(alloc: Global, hour: FlowHour) -> Result<String, AllocError>
    ensures { IfOk result (λ text. string_bytes text ≡ line_end_of hour) }
{
    let by = cut_by(hour.amounts);
    let cycle = cycle_text(alloc, hour.cycle)?;
    format!(in alloc; "<td class=\"t\">{by}</td><td class=\"t wide\">{cycle}</td></tr>\n")
}

#[tactic(auto, unfolding(crate::specs::CutLines::cut_line))]
fn cut_line(alloc: Global, count: u8, run: FlowRun) -> Result<String, AllocError>
    ensures { IfOk result (λ text. string_bytes text ≡ cut_line_of count run) }
{
    let hours = line_hours(alloc, count, run)?;
    let amounts = line_amounts(alloc, run.first)?;
    let end = line_end(alloc, run.first)?;
    format!(in alloc; "{hours}{amounts}{end}")
}

#[tactic(auto, unfolding(crate::specs::CutLines::next_line))]
fn next_line(alloc: Global, count: u8, run: FlowRun) -> Result<String, AllocError>
    ensures { IfOk result (λ text. string_bytes text ≡ next_line_of count run) }
{
    let line = cut_line(alloc, count, run)?;
    format!(in alloc; "<tr>{line}")
}

fn more_lines(alloc: Global, count: u8, runs: &[FlowRun]) -> Result<String, AllocError>
    ensures { IfOk result (λ text. string_bytes text ≡ more_lines_of count runs.now) }
{
    let mut text = String::new(alloc);
    for run in runs {
        let line = next_line(alloc, count, *run)?;
        text.push_str(line.as_str())?;
    }
    Ok(text)
}

/// The lines of a row: the first of them goes on with what stands before it.
#[tactic(auto, unfolding(crate::specs::CutLines::row_lines))]
pub(crate) fn row_lines(alloc: Global, count: u8, runs: &[FlowRun]) -> Result<String, AllocError>
    ensures { IfOk result (λ text. string_bytes text ≡ row_lines_of count runs.now) }
{
    let Some((run, more)) = runs.split_first() else {
        return format!(in alloc; "</tr>\n");
    };
    let first = cut_line(alloc, count, *run)?;
    let rest = more_lines(alloc, count, more)?;
    format!(in alloc; "{first}{rest}")
}

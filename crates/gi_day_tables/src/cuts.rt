//! The cuts of rows: the largest first, each with its lines, and a foot for those that are not shown.

ghost use Rattle.std.specs.Prelude.{◌≡◌, ◌≤◌, ◌++◌, IfOk, OnOk, drop, length, string_bytes};
ghost use Rattle.gi_day_tables.specs.Columns.{values_of};
ghost use Rattle.gi_day_tables.specs.CutLines.{cut_runs as cut_runs_of};
ghost use Rattle.gi_day_tables.specs.Cuts.{IsLargestFirst, cut_group, cut_heads as cut_heads_of, cut_rows, cuts_end as cuts_end_of, cuts_foot as cuts_foot_of, fitting as fitting_of, foot_if as foot_if_of, foot_of_rest as foot_of_rest_of, group_cells as group_cells_of, group_front as group_front_of, group_head, group_rest as group_rest_of, no_cuts as no_cuts_of, rest_sum as rest_sum_of, row_cut as row_cut_of, shown_groups as shown_groups_of, whole_of};

use crate::column::Column;
use crate::columns::{column_values, sum_text};
use crate::cut_lines::{cut_runs, row_lines};
use crate::flow_hour::FlowHour;
use crate::pairs::put_codes;
use crate::row_cut::RowCut;
use gi_pairs::{Direction, Key, Pair};
use gi_picture::{grouped, total};
use std::alloc::{AllocError, Global};

/// What stands before the groups of cuts.
#[tactic(auto, unfolding(crate::specs::Cuts::cut_heads))]
pub fn cut_heads() -> &'static str
    ensures { result.now ≡ cut_heads_of }
{
    "<section aria-labelledby=\"s-cuts\">\n<h2 id=\"s-cuts\">Cuts</h2>\n<div class=\"scroll\"><table class=\"codes\" style=\"--code:16ch\">\n<caption>The row that loses most over the day comes first. Hours one after the other with the same quantities and cycles are one line. By: own capacity, the peer, or both.</caption>\n<thead><tr><th scope=\"col\" class=\"t\">Initiating, matching</th><th scope=\"col\" class=\"t\"></th><th scope=\"col\">Cut, kWh</th><th scope=\"col\" class=\"t\">Hours</th><th scope=\"col\" class=\"t wide\">Local time</th><th scope=\"col\" class=\"wide\">Nominated</th><th scope=\"col\" class=\"wide\">Processed</th><th scope=\"col\" class=\"wide\">Peer&rsquo;s</th><th scope=\"col\" class=\"wide\">In force</th><th scope=\"col\">Cut, kWh/h</th><th scope=\"col\" class=\"t\">By</th><th scope=\"col\" class=\"t wide\">Cycle</th></tr></thead>\n"
}

/// What stands behind the groups of cuts and their foot.
#[tactic(auto, unfolding(crate::specs::Cuts::cuts_end))]
pub fn cuts_end() -> &'static str
    ensures { result.now ≡ cuts_end_of }
{
    "</table></div>\n</section>\n"
}

/// What stands in the place of cuts where no row has one.
#[tactic(auto, unfolding(crate::specs::Cuts::no_cuts))]
pub fn no_cuts() -> &'static str
    ensures { result.now ≡ no_cuts_of }
{
    "<section aria-labelledby=\"s-cuts\">\n<h2 id=\"s-cuts\">Cuts</h2>\n<p>None: wherever a cycle is in force, all that is nominated is.</p>\n</section>\n"
}

fn whole(alloc: Global, hours: &[FlowHour]) -> Result<u64, AllocError>
    requires { length hours.now ≤ 25 }
    ensures { IfOk result (λ whole. whole ≡ whole_of hours.now) }
{
    let values = column_values(alloc, Column::Cut, hours)?;
    let sum = total(&values).min(u128::from(u64::MAX));
    Ok(sum as u64)
}

fn row_cut(alloc: Global, place: usize, hours: &[FlowHour]) -> Result<RowCut, AllocError>
    requires { length hours.now ≤ 25 }
    ensures { IfOk result (λ cut. cut ≡ row_cut_of place hours.now) }
{
    let whole = whole(alloc, hours)?;
    let runs = cut_runs(alloc, hours)?;
    Ok(RowCut {
        place,
        whole,
        lines: runs.len(),
    })
}

/// Adds what the row at a place is cut by, where it is cut at all.
pub fn put_row_cut(
    alloc: Global,
    cuts: &mut Vec<RowCut>,
    place: usize,
    hours: &[FlowHour],
) -> Result<(), AllocError>
    requires { length hours.now ≤ 25 }
    ensures { OnOk result (cuts.new.items ≡ cuts.old.items ++ cut_rows place hours.now) }
{
    let cut = row_cut(alloc, place, hours)?;
    if cut.whole == 0 {
        return Ok(());
    }
    cuts.push(cut)?;
    Ok(())
}

/// Puts the largest cut first; equal ones stay in their order.
pub fn largest_first(cuts: &mut Vec<RowCut>) -> Result<(), AllocError>
    ensures { OnOk result (IsLargestFirst cuts.old.items cuts.new.items) }
{
    cuts.sort_by_key(|cut| u64::MAX.saturating_sub(cut.whole))?;
    Ok(())
}

#[tactic(auto, unfolding(crate::specs::Cuts::fitting))]
fn fitting(room: usize, cuts: &[RowCut]) -> usize
    ensures value { result ≡ fitting_of room cuts.now }
    ensures within { result ≤ length cuts.now }
{
    let mut left = room;
    let mut count = 0;
    for cut in cuts {
        if left < cut.lines {
            return count;
        }
        left -= cut.lines;
        count += 1;
    }
    count
}

/// How many groups are shown: while they have 100 lines at most, and the first always.
#[tactic(auto, unfolding(crate::specs::Cuts::shown_groups))]
pub fn shown_groups(cuts: &[RowCut]) -> usize
    ensures value { result ≡ shown_groups_of cuts.now }
    ensures within { result ≤ length cuts.now }
{
    let Some((first, more)) = cuts.split_first() else {
        return 0;
    };
    1 + fitting(100_usize.saturating_sub(first.lines), more)
}

#[tactic(auto, unfolding(crate::specs::Cuts::group_front))]
fn group_front(alloc: Global, lines: usize) -> Result<String, AllocError>
    ensures { IfOk result (λ text. string_bytes text ≡ group_front_of lines) }
{
    format!(in alloc; "<tbody>\n<tr><th scope=\"rowgroup\" class=\"t\" rowspan=\"{lines}\">")
}

#[tactic(auto, unfolding(crate::specs::Cuts::group_head))]
fn put_group_head(
    alloc: Global,
    out: &mut Vec<u8>,
    pair: Pair,
    hours: &[FlowHour],
) -> Result<(), AllocError>
    requires { length hours.now ≤ 25 }
    ensures { OnOk result (out.new.items ≡ out.old.items ++ group_head pair hours.now) }
{
    let lines = line_count(alloc, hours)?;
    let front = group_front(alloc, lines)?;
    out.extend_from_slice(front.as_bytes())?;
    put_codes(out, pair)
}

#[tactic(auto, unfolding(crate::specs::Cuts::group_cells))]
fn group_cells(
    alloc: Global,
    lines: usize,
    direction: Direction,
    hours: &[FlowHour],
) -> Result<String, AllocError>
    requires { length hours.now ≤ 25 }
    ensures { IfOk result (λ text. string_bytes text ≡ group_cells_of lines direction hours.now) }
{
    let whole = sum_text(alloc, Column::Cut, hours)?;
    format!(in alloc;
        "<td class=\"t\" rowspan=\"{lines}\">{direction}</td><td class=\"cut\" rowspan=\"{lines}\">{whole}</td>"
    )
}

#[tactic(auto, unfolding(crate::specs::Cuts::group_rest))]
fn group_rest(
    alloc: Global,
    count: u8,
    direction: Direction,
    hours: &[FlowHour],
) -> Result<String, AllocError>
    requires { length hours.now ≤ 25 }
    ensures { IfOk result (λ text. string_bytes text ≡ group_rest_of count direction hours.now) }
{
    let runs = cut_runs(alloc, hours)?;
    let cells = group_cells(alloc, runs.len(), direction, hours)?;
    let lines = row_lines(alloc, count, &runs)?;
    format!(in alloc; "{cells}{lines}</tbody>\n")
}

fn line_count(alloc: Global, hours: &[FlowHour]) -> Result<usize, AllocError>
    requires { length hours.now ≤ 25 }
    ensures { IfOk result (λ count. count ≡ length (cut_runs_of hours.now)) }
{
    let runs = cut_runs(alloc, hours)?;
    Ok(runs.len())
}

/// Adds the group of a row: its codes, its direction, what it is cut by over the day, and a line for
/// each run of hours in which it is cut.
#[tactic(auto, unfolding(crate::specs::Cuts::cut_group))]
pub fn put_cut_group(
    alloc: Global,
    out: &mut Vec<u8>,
    count: u8,
    key: &Key,
    hours: &[FlowHour],
) -> Result<(), AllocError>
    requires { length hours.now ≤ 25 }
    ensures { OnOk result (out.new.items ≡ out.old.items ++ cut_group count key.now hours.now) }
{
    let rest = group_rest(alloc, count, key.direction, hours)?;
    put_group_head(alloc, out, key.pair, hours)?;
    out.extend_from_slice(rest.as_bytes())
}

fn rest_sum(cuts: &[RowCut]) -> u128
    ensures { result ≡ rest_sum_of cuts.now }
{
    let mut total = 0;
    for cut in cuts {
        total += u128::from(cut.whole);
    }
    total
}

#[tactic(auto, unfolding(crate::specs::Cuts::foot_of_rest))]
fn foot_of_rest(alloc: Global, rest: &[RowCut]) -> Result<String, AllocError>
    ensures { IfOk result (λ text. string_bytes text ≡ foot_of_rest_of rest.now) }
{
    let count = rest.len();
    let sum = grouped(alloc, rest_sum(rest))?;
    format!(in alloc;
        "<tfoot>\n<tr><th scope=\"row\" class=\"t\">{count} more, in the table of pairs</th><td></td><td>{sum}</td><td></td><td class=\"wide\"></td><td class=\"wide\"></td><td class=\"wide\"></td><td class=\"wide\"></td><td class=\"wide\"></td><td></td><td></td><td class=\"wide\"></td></tr>\n</tfoot>\n"
    )
}

#[tactic(auto, unfolding(crate::specs::Cuts::foot_if))]
fn foot_if(alloc: Global, rest: &[RowCut]) -> Result<String, AllocError>
    ensures { IfOk result (λ text. string_bytes text ≡ foot_if_of rest.now) }
{
    if rest.is_empty() {
        return Ok(String::new(alloc));
    }
    foot_of_rest(alloc, rest)
}

/// The number and the sum of the groups that are not shown, of cuts in their order: nothing where all
/// are shown.
pub fn cuts_foot(alloc: Global, cuts: &[RowCut]) -> Result<String, AllocError>
    ensures { IfOk result (λ text. string_bytes text ≡ cuts_foot_of cuts.now) }
{
    let shown = shown_groups(cuts);
    foot_if(alloc, &cuts[shown..])
}

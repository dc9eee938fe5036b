//! The totals of the day: each direction, and the net.

ghost use Rattle.std.specs.Prelude.{◌≡◌, ◌≤◌, IfOk, length, string_bytes};
ghost use Rattle.gi_picture.specs.Runs.{runs as runs_of};
ghost use Rattle.gi_day_tables.specs.Columns.{flows_of};
ghost use Rattle.gi_picture.specs.Chart.{cycles_of};
ghost use Rattle.gi_day_tables.specs.Totals.{day_notes as day_notes_of, total_row as total_row_of, hours_in_force as hours_in_force_of, one_if as one_if_of, totals_head as totals_head_of, waiting_note as waiting_note_of, waiting_notes as waiting_notes_of};
ghost use Rattle.gi_day_tables.specs.Totals.{total_front as total_front_of, total_sums as total_sums_of, total_cuts as total_cuts_of, total_cells as total_cells_of, net_row as net_row_of, totals_top as totals_top_of, totals_rows as totals_rows_of, totals_section as totals_section_of};

use crate::cells::cut_sum;
use crate::column::Column;
use crate::columns::{flows, sum_text};
use crate::flow_hour::FlowHour;
use crate::net::day_net;
use crate::spans::span;
use gi_pairs::Direction;
use gi_picture::{Hour, Run, cycle_runs};
use std::alloc::{AllocError, Global};

fn one_if(cycle: Option<u8>) -> u8
    ensures value { result ≡ one_if_of cycle }
    ensures within { result ≤ 1 }
{
    match cycle {
        Some(_) => 1,
        None => 0,
    }
}

#[tactic(auto, unfolding(crate::specs::Totals::hours_in_force))]
fn hours_in_force(hours: &[FlowHour]) -> u8
    requires { length hours.now ≤ 25 }
    ensures { result ≡ hours_in_force_of hours.now }
{
    let mut count = 0;
    for hour in hours {
        count += one_if(hour.cycle);
    }
    count
}

#[tactic(auto, unfolding(crate::specs::Totals::total_front))]
fn total_front(
    alloc: Global,
    direction: Direction,
    hours: &[FlowHour],
) -> Result<String, AllocError>
    requires { length hours.now ≤ 25 }
    ensures { IfOk result (λ text. string_bytes text ≡ total_front_of direction hours.now) }
{
    let count = hours_in_force(hours);
    let nominated = sum_text(alloc, Column::Nominated, hours)?;
    format!(in alloc;
        "<tr><th scope=\"row\" class=\"t\">{direction}</th><td>{count}</td><td>{nominated}</td>"
    )
}

#[tactic(auto, unfolding(crate::specs::Totals::total_sums))]
fn total_sums(alloc: Global, hours: &[FlowHour]) -> Result<String, AllocError>
    requires { length hours.now ≤ 25 }
    ensures { IfOk result (λ text. string_bytes text ≡ total_sums_of hours.now) }
{
    let processed = sum_text(alloc, Column::Processed, hours)?;
    let peers = sum_text(alloc, Column::Peers, hours)?;
    let in_force = sum_text(alloc, Column::InForce, hours)?;
    format!(in alloc;
        "<td class=\"wide\">{processed}</td><td class=\"wide\">{peers}</td><td class=\"strong\">{in_force}</td>"
    )
}

#[tactic(auto, unfolding(crate::specs::Totals::total_cuts))]
fn total_cuts(alloc: Global, hours: &[FlowHour]) -> Result<String, AllocError>
    requires { length hours.now ≤ 25 }
    ensures { IfOk result (λ text. string_bytes text ≡ total_cuts_of hours.now) }
{
    let cut = cut_sum(alloc, hours)?;
    let own = sum_text(alloc, Column::OwnCut, hours)?;
    let peer = sum_text(alloc, Column::PeerCut, hours)?;
    format!(in alloc; "{cut}<td class=\"wide\">{own}</td><td class=\"wide\">{peer}</td></tr>\n")
}

#[tactic(auto, unfolding(crate::specs::Totals::total_cells))]
fn total_cells(
    alloc: Global,
    direction: Direction,
    hours: &[FlowHour],
) -> Result<String, AllocError>
    requires { length hours.now ≤ 25 }
    ensures { IfOk result (λ text. string_bytes text ≡ total_cells_of direction hours.now) }
{
    let front = total_front(alloc, direction, hours)?;
    let sums = total_sums(alloc, hours)?;
    let cuts = total_cuts(alloc, hours)?;
    format!(in alloc; "{front}{sums}{cuts}")
}

#[tactic(auto, unfolding(crate::specs::Totals::total_row))]
fn total_row(alloc: Global, direction: Direction, hours: &[Hour]) -> Result<String, AllocError>
    requires { length hours.now ≤ 25 }
    ensures { IfOk result (λ text. string_bytes text ≡ total_row_of direction hours.now) }
{
    let flows = flows(alloc, direction, hours)?;
    total_cells(alloc, direction, &flows)
}

#[tactic(auto, unfolding(crate::specs::Totals::net_row))]
fn net_row(alloc: Global, hours: &[Hour]) -> Result<String, AllocError>
    requires { length hours.now ≤ 25 }
    ensures { IfOk result (λ text. string_bytes text ≡ net_row_of hours.now) }
{
    let net = day_net(alloc, hours)?;
    format!(in alloc;
        "</tbody>\n<tfoot>\n<tr><th scope=\"row\" class=\"t\">Net, IM &minus; MI</th><td></td><td></td><td class=\"wide\"></td><td class=\"wide\"></td><td class=\"strong\">{net}</td><td></td><td class=\"wide\"></td><td class=\"wide\"></td></tr>\n</tfoot>\n</table></div>\n"
    )
}

#[tactic(auto, unfolding(crate::specs::Totals::waiting_note))]
fn waiting_note(alloc: Global, run: Run) -> Result<String, AllocError>
    ensures { IfOk result (λ text. string_bytes text ≡ waiting_note_of run) }
{
    match run.value {
        Some(_) => Ok(String::new(alloc)),
        None => {
            let hours = span(alloc, run.before.saturating_add(1), run.behind)?;
            format!(in alloc;
                "; hours without a cycle in force: {hours}, which add at most to nominated and processed"
            )
        }
    }
}

fn waiting_notes(alloc: Global, runs: &[Run]) -> Result<String, AllocError>
    ensures { IfOk result (λ text. string_bytes text ≡ waiting_notes_of runs.now) }
{
    let mut text = String::new(alloc);
    for run in runs {
        let note = waiting_note(alloc, *run)?;
        text.push_str(note.as_str())?;
    }
    Ok(text)
}

#[tactic(auto, unfolding(crate::specs::Totals::day_notes))]
fn day_notes(alloc: Global, hours: &[Hour]) -> Result<String, AllocError>
    requires { length hours.now ≤ 25 }
    ensures { IfOk result (λ text. string_bytes text ≡ day_notes_of hours.now) }
{
    let runs = cycle_runs(alloc, hours)?;
    waiting_notes(alloc, &runs)
}

/// The heads of the columns.
#[tactic(auto, unfolding(crate::specs::Totals::totals_head))]
fn totals_head() -> &'static str
    ensures { result.now ≡ totals_head_of }
{
    "</caption>\n<thead><tr><th scope=\"col\" class=\"t\">kWh</th><th scope=\"col\">Hours in force</th><th scope=\"col\">Nominated</th><th scope=\"col\" class=\"wide\">Processed</th><th scope=\"col\" class=\"wide\">Peer&rsquo;s processed</th><th scope=\"col\">In force</th><th scope=\"col\">Cut</th><th scope=\"col\" class=\"wide\">by own capacity</th><th scope=\"col\" class=\"wide\">by the peer</th></tr></thead>\n<tbody>\n"
}

#[tactic(auto, unfolding(crate::specs::Totals::totals_top))]
fn totals_top(alloc: Global, count: u8, hours: &[Hour]) -> Result<String, AllocError>
    requires { length hours.now ≤ 25 }
    ensures { IfOk result (λ text. string_bytes text ≡ totals_top_of count hours.now) }
{
    let notes = day_notes(alloc, hours)?;
    let head = totals_head();
    format!(in alloc;
        "<div class=\"scroll\"><table>\n<caption>Totals of the day&rsquo;s {count} hours over all pairs{notes}{head}"
    )
}

#[tactic(auto, unfolding(crate::specs::Totals::totals_rows))]
fn totals_rows(alloc: Global, hours: &[Hour]) -> Result<String, AllocError>
    requires { length hours.now ≤ 25 }
    ensures { IfOk result (λ text. string_bytes text ≡ totals_rows_of hours.now) }
{
    let im = total_row(alloc, Direction::IM, hours)?;
    let mi = total_row(alloc, Direction::MI, hours)?;
    let net = net_row(alloc, hours)?;
    format!(in alloc; "{im}{mi}{net}")
}

/// The table of totals of a day of so many hours, in kWh. An hour in which nothing is in force adds to what is
/// nominated and processed alone, and the caption names it.
#[tactic(auto, unfolding(crate::specs::Totals::totals_section))]
pub fn totals_section(alloc: Global, count: u8, hours: &[Hour]) -> Result<String, AllocError>
    requires { length hours.now ≤ 25 }
    ensures { IfOk result (λ text. string_bytes text ≡ totals_section_of count hours.now) }
{
    let top = totals_top(alloc, count, hours)?;
    let rows = totals_rows(alloc, hours)?;
    format!(in alloc; "{top}{rows}")
}

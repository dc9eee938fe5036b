//! The table by hour.

ghost use Rattle.std.specs.Prelude.{◌≡◌, ◌≤◌, IfOk, length, string_bytes};
ghost use Rattle.gi_day_tables.specs.ByHour.{cycle_text as cycle_text_of, day_sums as day_sums_of, hour_heads as hour_heads_of, hour_rows as hour_rows_of};
ghost use Rattle.gi_day_tables.specs.ByHour.{hour_front as hour_front_of, hour_back as hour_back_of, hour_row as hour_row_of, hour_foot as hour_foot_of, hour_section as hour_section_of};

use crate::cells::{day_cells, hour_cells};
use crate::columns::{flow, flows};
use crate::net::{day_net, hour_net};
use crate::spans::local_time;
use gi_pairs::Direction;
use gi_picture::Hour;
use std::alloc::{AllocError, Global};

/// What stands before the rows.
#[tactic(auto, unfolding(crate::specs::ByHour::hour_heads))]
fn hour_heads() -> &'static str
    ensures { result.now ≡ hour_heads_of }
{
    "<section aria-labelledby=\"s-hours\">\n<h2 id=\"s-hours\">By hour</h2>\n<div class=\"scroll\"><table>\n<caption>Sums over all pairs, in kWh/h; of the day in kWh. &ndash; where there is no such quantity.</caption>\n<thead><tr><th scope=\"col\" class=\"t\">Hour</th><th scope=\"col\" class=\"t\">Local</th><th scope=\"col\" class=\"wide\">Cycle</th><th scope=\"col\" class=\"wide\">IM<br>nominated</th><th scope=\"col\" class=\"wide\">IM<br>processed</th><th scope=\"col\" class=\"wide\">IM<br>peer&rsquo;s</th><th scope=\"col\">IM<br>in force</th><th scope=\"col\">IM<br>cut</th><th scope=\"col\" class=\"wide\">MI<br>nominated</th><th scope=\"col\" class=\"wide\">MI<br>processed</th><th scope=\"col\" class=\"wide\">MI<br>peer&rsquo;s</th><th scope=\"col\">MI<br>in force</th><th scope=\"col\">MI<br>cut</th><th scope=\"col\">Net</th></tr></thead>\n<tbody>\n"
}

/// The number of a cycle, and a dash where there is none.
#[tactic(auto, unfolding(crate::specs::ByHour::cycle_text))]
pub(crate) fn cycle_text(alloc: Global, cycle: Option<u8>) -> Result<String, AllocError>
    ensures { IfOk result (λ text. string_bytes text ≡ cycle_text_of cycle) }
{
    match cycle {
        Some(cycle) => format!(in alloc; "{cycle}"),
        None => format!(in alloc; "&ndash;"),
    }
}

#[tactic(auto, unfolding(crate::specs::ByHour::hour_front))]
fn hour_front(alloc: Global, count: u8, hour: Hour) -> Result<String, AllocError>
    ensures { IfOk result (λ text. string_bytes text ≡ hour_front_of count hour) }
{
    let number = hour.number;
    let time = local_time(alloc, count, number.saturating_sub(1))?;
    let cycle = cycle_text(alloc, hour.cycle)?;
    format!(in alloc;
        "<tr><th scope=\"row\" class=\"t\">{number}</th><td class=\"t\">{time}</td><td class=\"wide\">{cycle}</td>"
    )
}

#[tactic(auto, unfolding(crate::specs::ByHour::hour_back))]
fn hour_back(alloc: Global, hour: Hour) -> Result<String, AllocError>
    ensures { IfOk result (λ text. string_bytes text ≡ hour_back_of hour) }
{
    let im = hour_cells(alloc, flow(Direction::IM, hour))?;
    let mi = hour_cells(alloc, flow(Direction::MI, hour))?;
    let net = hour_net(alloc, hour)?;
    format!(in alloc; "{im}{mi}<td>{net}</td></tr>\n")
}

#[tactic(auto, unfolding(crate::specs::ByHour::hour_row))]
fn hour_row(alloc: Global, count: u8, hour: Hour) -> Result<String, AllocError>
    ensures { IfOk result (λ text. string_bytes text ≡ hour_row_of count hour) }
{
    let front = hour_front(alloc, count, hour)?;
    let back = hour_back(alloc, hour)?;
    format!(in alloc; "{front}{back}")
}

fn hour_rows(alloc: Global, count: u8, hours: &[Hour]) -> Result<String, AllocError>
    ensures { IfOk result (λ text. string_bytes text ≡ hour_rows_of count hours.now) }
{
    let mut text = String::new(alloc);
    for hour in hours {
        let row = hour_row(alloc, count, *hour)?;
        text.push_str(row.as_str())?;
    }
    Ok(text)
}

/// The sums of the day in a direction.
#[tactic(auto, unfolding(crate::specs::ByHour::day_sums))]
pub(crate) fn day_sums(
    alloc: Global,
    direction: Direction,
    hours: &[Hour],
) -> Result<String, AllocError>
    requires { length hours.now ≤ 25 }
    ensures { IfOk result (λ text. string_bytes text ≡ day_sums_of direction hours.now) }
{
    let flows = flows(alloc, direction, hours)?;
    day_cells(alloc, &flows)
}

#[tactic(auto, unfolding(crate::specs::ByHour::hour_foot))]
fn hour_foot(alloc: Global, hours: &[Hour]) -> Result<String, AllocError>
    requires { length hours.now ≤ 25 }
    ensures { IfOk result (λ text. string_bytes text ≡ hour_foot_of hours.now) }
{
    let im = day_sums(alloc, Direction::IM, hours)?;
    let mi = day_sums(alloc, Direction::MI, hours)?;
    let net = day_net(alloc, hours)?;
    format!(in alloc;
        "</tbody>\n<tfoot>\n<tr><th scope=\"row\" class=\"t\">Day</th><td></td><td class=\"wide\"></td>{im}{mi}<td>{net}</td></tr>\n</tfoot>\n</table></div>\n</section>\n"
    )
}

/// The table by hour of a day of so many hours, in kWh/h, and the sums of the day, in kWh.
#[tactic(auto, unfolding(crate::specs::ByHour::hour_section))]
pub fn hour_section(alloc: Global, count: u8, hours: &[Hour]) -> Result<String, AllocError>
    requires { length hours.now ≤ 25 }
    ensures { IfOk result (λ text. string_bytes text ≡ hour_section_of count hours.now) }
{
    let heads = hour_heads();
    let rows = hour_rows(alloc, count, hours)?;
    let foot = hour_foot(alloc, hours)?;
    format!(in alloc; "{heads}{rows}{foot}")
}

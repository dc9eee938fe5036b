//! The rows of pairs: the day's sums of each pair and direction.

ghost use Rattle.std.specs.Prelude.{◌≡◌, ◌≤◌, ◌++◌, IfOk, OnOk, length, string_bytes};
ghost use Rattle.gi_picture.specs.Escape.{escaped};
ghost use Rattle.gi_day_tables.specs.Pairs.{codes_of, pair_cells as pair_cells_of, pair_front, pair_heads as pair_heads_of, pair_row, pair_sums as pair_sums_of, row_start as row_start_of, foot_row as foot_row_of, pairs_foot as pairs_foot_of};

use crate::bars::bars;
use crate::by_hour::day_sums;
use crate::cells::day_cells;
use crate::flow_hour::FlowHour;
use gi_pairs::{Code, Direction, Key, Pair};
use gi_picture::{Hour, put_escaped};
use std::alloc::{AllocError, Global};

/// What stands before the rows of pairs.
#[tactic(auto, unfolding(crate::specs::Pairs::pair_heads))]
pub fn pair_heads() -> &'static str
    ensures { result.now ≡ pair_heads_of }
{
    "<section aria-labelledby=\"s-pairs\">\n<h2 id=\"s-pairs\">Pairs</h2>\n<div class=\"scroll\"><table class=\"codes\" style=\"--code:16ch\">\n<caption>Totals of the day in kWh. Bars: in force, before what is nominated and not in force; a row&rsquo;s highest hour is as high as the row. Outlined: nominated, nothing in force.</caption>\n<thead><tr><th scope=\"col\" class=\"t\">Initiating, matching</th><th scope=\"col\" class=\"t\"></th><th scope=\"col\" class=\"t\">By hour</th><th scope=\"col\" class=\"wide\">Nominated</th><th scope=\"col\" class=\"wide\">Processed</th><th scope=\"col\" class=\"wide\">Peer&rsquo;s</th><th scope=\"col\">In force</th><th scope=\"col\">Cut</th></tr></thead>\n<tbody>\n"
}

#[tactic(auto, unfolding(crate::specs::Pairs::foot_row))]
fn foot_row(alloc: Global, direction: Direction, hours: &[Hour]) -> Result<String, AllocError>
    requires { length hours.now ≤ 25 }
    ensures { IfOk result (λ text. string_bytes text ≡ foot_row_of direction hours.now) }
{
    let sums = day_sums(alloc, direction, hours)?;
    format!(in alloc;
        "<tr><th scope=\"row\" class=\"t\">All of {direction}</th><td></td><td></td>{sums}</tr>\n"
    )
}

/// The foot behind the rows of pairs: the sums of each direction over all pairs, in kWh.
#[tactic(auto, unfolding(crate::specs::Pairs::pairs_foot))]
pub fn pairs_foot(alloc: Global, hours: &[Hour]) -> Result<String, AllocError>
    requires { length hours.now ≤ 25 }
    ensures { IfOk result (λ text. string_bytes text ≡ pairs_foot_of hours.now) }
{
    let im = foot_row(alloc, Direction::IM, hours)?;
    let mi = foot_row(alloc, Direction::MI, hours)?;
    format!(in alloc; "</tbody>\n<tfoot>\n{im}{mi}</tfoot>\n</table></div>\n</section>\n")
}

fn put_code(out: &mut Vec<u8>, code: Code) -> Result<(), AllocError>
    ensures { OnOk result (out.new.items ≡ out.old.items ++ escaped code) }
{
    put_escaped(out, code.as_str().as_bytes())
}

/// Adds both codes of a pair, escaped.
#[tactic(auto, unfolding(crate::specs::Pairs::codes_of))]
pub(crate) fn put_codes(out: &mut Vec<u8>, pair: Pair) -> Result<(), AllocError>
    ensures { OnOk result (out.new.items ≡ out.old.items ++ codes_of pair) }
{
    out.extend_from_slice(b"<b>")?;
    put_code(out, pair.initiating)?;
    out.extend_from_slice(b"</b> <b>")?;
    put_code(out, pair.matching)?;
    out.extend_from_slice(b"</b></th>")
}

#[tactic(auto, unfolding(crate::specs::Pairs::pair_cells))]
fn pair_cells(alloc: Global, direction: Direction, hours: &[FlowHour]) -> Result<String, AllocError>
    requires { length hours.now ≤ 25 }
    ensures { IfOk result (λ text. string_bytes text ≡ pair_cells_of direction hours.now) }
{
    let bars = bars(alloc, hours)?;
    format!(in alloc; "<td class=\"t\">{direction}</td><td class=\"t\">{bars}</td>")
}

#[tactic(auto, unfolding(crate::specs::Pairs::pair_sums))]
fn pair_sums(alloc: Global, direction: Direction, hours: &[FlowHour]) -> Result<String, AllocError>
    requires { length hours.now ≤ 25 }
    ensures { IfOk result (λ text. string_bytes text ≡ pair_sums_of direction hours.now) }
{
    let cells = pair_cells(alloc, direction, hours)?;
    let sums = day_cells(alloc, hours)?;
    format!(in alloc; "{cells}{sums}</tr>\n")
}

/// What begins a row.
#[tactic(auto, unfolding(crate::specs::Pairs::row_start))]
fn row_start() -> &'static str
    ensures { result.now ≡ row_start_of }
{
    "<tr><th scope=\"row\" class=\"t\">"
}

#[tactic(auto, unfolding(crate::specs::Pairs::pair_front))]
fn put_pair_front(out: &mut Vec<u8>, pair: Pair) -> Result<(), AllocError>
    ensures { OnOk result (out.new.items ≡ out.old.items ++ pair_front pair) }
{
    out.extend_from_slice(row_start().as_bytes())?;
    put_codes(out, pair)
}

/// Adds the row of a pair and direction: both codes, the direction, its bars by hour, and the sums of
/// the day, in kWh.
#[tactic(auto, unfolding(crate::specs::Pairs::pair_row))]
pub fn put_pair_row(
    alloc: Global,
    out: &mut Vec<u8>,
    key: &Key,
    hours: &[FlowHour],
) -> Result<(), AllocError>
    requires { length hours.now ≤ 25 }
    ensures { OnOk result (out.new.items ≡ out.old.items ++ pair_row key.now hours.now) }
{
    let sums = pair_sums(alloc, key.direction, hours)?;
    put_pair_front(out, key.pair)?;
    out.extend_from_slice(sums.as_bytes())
}

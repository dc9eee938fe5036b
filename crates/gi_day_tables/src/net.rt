//! What is in force in the one direction, less that in the other.

ghost use Rattle.std.specs.Prelude.{◌≡◌, ◌≤◌, IfOk, length, string_bytes};
ghost use Rattle.gi_day_tables.specs.Columns.{flows_of, sum_of};
ghost use Rattle.gi_day_tables.specs.Net.{day_net as day_net_of, hour_net as hour_net_of, net_if};
ghost use Rattle.gi_day_tables.specs.declared.column.Column.TheVariants.{InForce};
ghost use Rattle.gi_pairs.specs.declared.direction.Direction.{Direction as Way};

use crate::column::Column;
use crate::columns::{column_sum, column_value, flow, flows};
use gi_pairs::Direction;
use gi_picture::{Hour, difference};
use std::alloc::{AllocError, Global};

#[tactic(auto, unfolding(crate::specs::Net::net_if))]
fn net(alloc: Global, im: Option<u128>, mi: Option<u128>) -> Result<String, AllocError>
    ensures { IfOk result (λ text. string_bytes text ≡ net_if im mi) }
{
    match (im, mi) {
        (Some(im), Some(mi)) => difference(alloc, im, mi),
        _ => format!(in alloc; "&ndash;"),
    }
}

fn wide(value: Option<u64>) -> Option<u128>
    ensures { result ≡ value }
{
    match value {
        Some(value) => Some(u128::from(value)),
        None => None,
    }
}

/// The net of an hour, in kWh/h: a dash where nothing is in force.
pub(crate) fn hour_net(alloc: Global, hour: Hour) -> Result<String, AllocError>
    ensures { IfOk result (λ text. string_bytes text ≡ hour_net_of hour) }
{
    let im = column_value(Column::InForce, flow(Direction::IM, hour));
    let mi = column_value(Column::InForce, flow(Direction::MI, hour));
    net(alloc, wide(im), wide(mi))
}

fn force_sum(
    alloc: Global,
    direction: Direction,
    hours: &[Hour],
) -> Result<Option<u128>, AllocError>
    requires { length hours.now ≤ 25 }
    ensures { IfOk result (λ sum. sum ≡ sum_of InForce (flows_of direction hours.now)) }
{
    let flows = flows(alloc, direction, hours)?;
    column_sum(alloc, Column::InForce, &flows)
}

/// The net of the day, in kWh.
pub(crate) fn day_net(alloc: Global, hours: &[Hour]) -> Result<String, AllocError>
    requires { length hours.now ≤ 25 }
    ensures { IfOk result (λ text. string_bytes text ≡ day_net_of hours.now) }
{
    let im = force_sum(alloc, Direction::IM, hours)?;
    let mi = force_sum(alloc, Direction::MI, hours)?;
    net(alloc, im, mi)
}

//! The highest values of a day.

ghost use Rattle.std.specs.Prelude.{◌≡◌, ◌<◌, ◌≤◌, ◌+◌};
ghost use Rattle.gi_picture.specs.Heights.{direction_frame as direction_frame_of, direction_scale as direction_scale_of, first_with as first_with_of, higher_of, highest as highest_of, highest_force as highest_force_of, net_frame as net_frame_of, net_scale as net_scale_of};
ghost use Rattle.gi_picture.specs.Quantities.{in_force_of};
ghost use Rattle.gi_picture.specs.Values.{value_or_none};

use crate::frame::{Frame, chart_frame};
use crate::hour::Hour;
use crate::merging::is_same;
use crate::scale::{Scale, axis_scale};
use crate::values::value_of;
use gi_pairs::Direction;

fn higher(direction: Direction, hour: Hour) -> u64
    ensures { result ≡ higher_of direction hour }
{
    let closed = value_of(hour.nominated(direction)).max(value_of(hour.processed(direction)));
    let confirmed = value_of(hour.peers(direction)).max(value_of(hour.in_force(direction)));
    closed.max(confirmed)
}

#[tactic(auto, using(crate::proofs::ChartLemmas::highest_more))]
fn highest(direction: Direction, hours: &[Hour]) -> u64
    ensures { result ≡ highest_of direction hours.now }
{
    let mut most = 0;
    for hour in hours {
        most = higher(direction, *hour).max(most);
    }
    most
}

/// The highest quantity that is in force in a direction, in kWh/h; 0 where none is.
#[tactic(auto, using(crate::proofs::ChartLemmas::highest_force_more))]
pub(crate) fn highest_force(direction: Direction, hours: &[Hour]) -> u64
    ensures { result ≡ highest_force_of direction hours.now }
{
    let mut most = 0;
    for hour in hours {
        most = value_of(hour.in_force(direction)).max(most);
    }
    most
}

/// The number of the first hour in which this quantity is in force.
pub(crate) fn first_with(direction: Direction, amount: u64, hours: &[Hour]) -> Option<u8>
    ensures { result ≡ first_with_of direction amount hours.now }
{
    for hour in hours {
        if is_same(hour.in_force(direction), Some(amount)) {
            return Some(hour.number);
        }
    }
    None
}

/// The scale of the chart of a direction.
pub(crate) fn direction_scale(direction: Direction, hours: &[Hour]) -> Scale
    ensures value { result ≡ direction_scale_of direction hours.now }
    ensures some { 0 < result.step }
    ensures ticks { 1 ≤ result.above + result.below }
    ensures few { result.above + result.below ≤ 5 }
{
    axis_scale(highest(direction, hours), 0, 5)
}

/// The scale of the chart of the net flow.
pub(crate) fn net_scale(hours: &[Hour]) -> Scale
    ensures value { result ≡ net_scale_of hours.now }
    ensures some { 0 < result.step }
    ensures ticks { 1 ≤ result.above + result.below }
    ensures few { result.above + result.below ≤ 6 }
{
    let above = highest_force(Direction::IM, hours);
    let below = highest_force(Direction::MI, hours);
    axis_scale(above, below, 6)
}

/// The frame of the chart of a direction, on an axis of its own.
pub(crate) fn direction_frame(count: u8, direction: Direction, hours: &[Hour]) -> Frame
    requires { 2 ≤ count }
    ensures value { result ≡ direction_frame_of count direction hours.now }
    ensures some { 0 < result.step }
{
    chart_frame(count, direction_scale(direction, hours))
}

/// The frame of the chart of the net flow, on one axis for both directions.
pub(crate) fn net_frame(count: u8, hours: &[Hour]) -> Frame
    requires { 2 ≤ count }
    ensures value { result ≡ net_frame_of count hours.now }
    ensures some { 0 < result.step }
{
    chart_frame(count, net_scale(hours))
}

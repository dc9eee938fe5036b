//! Where a chart draws what.

ghost use Rattle.std.specs.Prelude.{◌≡◌, ◌<◌, ◌≤◌, ◌+◌};
ghost use Rattle.gi_picture.specs.Frame.{frame as frame_of, height as height_of, right as right_of, x as x_of, y as y_of};

use crate::level::Level;
use crate::scale::Scale;

/// A chart's columns and ticks, in units of its field: how wide a column and how high a tick is, how
/// many hours it has, the step of a tick in kWh/h, how many ticks stand above and below the zero
/// line, where that stands, and where the lowest line does.
#[derive(Clone, Copy)]
pub(crate) struct Frame {
    pub column: u8,
    pub hours: u8,
    pub tick: u8,
    pub step: u64,
    pub above: u8,
    pub below: u8,
    pub zero: u8,
    pub floor: u8,
}

/// The frame of a chart of so many hours.
pub(crate) fn chart_frame(hours: u8, scale: Scale) -> Frame
    requires hours { 2 ≤ hours }
    requires some { 1 ≤ scale.above + scale.below }
    requires few { scale.above + scale.below ≤ 6 }
    ensures { result ≡ frame_of hours scale }
{
    let (above, below) = (scale.above as u8, scale.below as u8);
    let tick = 200 / (above + below);
    let zero = 30 + above * tick;
    Frame {
        column: (456 / u16::from(hours)) as u8,
        hours,
        tick,
        step: scale.step,
        above,
        below,
        zero,
        floor: zero + below * tick,
    }
}

/// Where the bound of hours with this number stands, from 0.
pub(crate) fn x(frame: Frame, bound: u8) -> u32
    ensures value { result ≡ x_of frame bound }
    ensures within { result ≤ 65_109 }
{
    84 + u32::from(bound) * u32::from(frame.column)
}

/// Where the last hour ends.
pub(crate) fn right(frame: Frame) -> u32
    ensures { result ≡ right_of frame }
{
    x(frame, frame.hours)
}

#[tactic(auto, unfolding(crate::specs::Frame::height))]
fn height(frame: Frame, value: u64) -> u64
    requires { 0 < frame.step }
    ensures value { result ≡ height_of frame value }
    ensures within { result ≤ 200 }
{
    if value == 0 {
        return 0;
    }
    let height = u128::from(value) * u128::from(frame.tick) / u128::from(frame.step);
    height.max(1).min(200) as u64
}

/// Where a level stands, from the top.
pub(crate) fn y(frame: Frame, level: Level) -> u64
    requires { 0 < frame.step }
    ensures value { result ≡ y_of frame level }
    ensures within { result ≤ 455 }
{
    let fallen = height(frame, level.down.saturating_sub(level.up));
    let risen = height(frame, level.up.saturating_sub(level.down));
    (u64::from(frame.zero) + fallen).saturating_sub(risen)
}

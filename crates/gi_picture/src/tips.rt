//! The columns of a chart that tell the values of an hour under a pointer.

ghost use Rattle.std.specs.Prelude.{◌≡◌, IfOk, string_bytes};
ghost use Rattle.gi_picture.specs.Tips.{both_values as both_values_of, closed_values as closed_values_of, confirmed_values as confirmed_values_of, cycle_words as cycle_words_of, direction_tip as direction_tip_of, direction_tips as direction_tips_of, net_tip as net_tip_of, net_tips as net_tips_of, net_values as net_values_of, tip_column as tip_column_of, tip_start as tip_start_of, tip_words as tip_words_of};

use crate::cells::{force_cell, nominated_cell, peers_cell, processed_cell};
use crate::clock::{clock_text, time_mark};
use crate::frame::{Frame, x};
use crate::hour::Hour;
use crate::numbers::{difference, grouped};
use gi_pairs::Direction;
use std::alloc::{AllocError, Global};

#[tactic(auto, unfolding(crate::specs::Tips::tip_column))]
fn tip_column(alloc: Global, frame: Frame, bound: u8) -> Result<String, AllocError>
    ensures { IfOk result (λ text. string_bytes text ≡ tip_column_of frame bound) }
{
    let (place, column) = (x(frame, bound), frame.column);
    let height = frame.floor.saturating_sub(30);
    format!(in alloc; "<path d=\"M{place} 30h{column}v{height}h-{column}z\">")
}

#[tactic(auto, unfolding(crate::specs::Tips::cycle_words))]
fn cycle_words(alloc: Global, cycle: Option<u8>) -> Result<String, AllocError>
    ensures { IfOk result (λ text. string_bytes text ≡ cycle_words_of cycle) }
{
    match cycle {
        Some(cycle) => format!(in alloc; "cycle {cycle}"),
        None => format!(in alloc; "not confirmed"),
    }
}

/// The hour, its local time, and the cycle in force.
#[tactic(auto, unfolding(crate::specs::Tips::tip_words))]
fn tip_words(alloc: Global, count: u8, hour: Hour) -> Result<String, AllocError>
    ensures { IfOk result (λ text. string_bytes text ≡ tip_words_of count hour) }
{
    let number = hour.number;
    let bound = number.saturating_sub(1);
    let time = clock_text(alloc, count, bound)?;
    let mark = time_mark(count, bound);
    let cycle = cycle_words(alloc, hour.cycle)?;
    format!(in alloc; "<title>hour {number}, {time}{mark}, {cycle}\n")
}

#[tactic(auto, unfolding(crate::specs::Tips::tip_start))]
fn tip_start(alloc: Global, frame: Frame, hour: Hour) -> Result<String, AllocError>
    ensures { IfOk result (λ text. string_bytes text ≡ tip_start_of frame hour) }
{
    let column = tip_column(alloc, frame, hour.number.saturating_sub(1))?;
    let words = tip_words(alloc, frame.hours, hour)?;
    format!(in alloc; "{column}{words}")
}

#[tactic(auto, unfolding(crate::specs::Tips::closed_values))]
fn closed_values(alloc: Global, direction: Direction, hour: Hour) -> Result<String, AllocError>
    ensures { IfOk result (λ text. string_bytes text ≡ closed_values_of direction hour) }
{
    let nominated = nominated_cell(alloc, direction, hour)?;
    let processed = processed_cell(alloc, direction, hour)?;
    format!(in alloc; "nominated {nominated}\nprocessed {processed}\n")
}

#[tactic(auto, unfolding(crate::specs::Tips::confirmed_values))]
fn confirmed_values(alloc: Global, direction: Direction, hour: Hour) -> Result<String, AllocError>
    ensures { IfOk result (λ text. string_bytes text ≡ confirmed_values_of direction hour) }
{
    let peers = peers_cell(alloc, direction, hour)?;
    let in_force = force_cell(alloc, direction, hour)?;
    format!(in alloc; "peer&rsquo;s {peers}\nin force {in_force}</title></path>\n")
}

#[tactic(auto, unfolding(crate::specs::Tips::direction_tip))]
fn direction_tip(
    alloc: Global,
    frame: Frame,
    direction: Direction,
    hour: Hour,
) -> Result<String, AllocError>
    ensures { IfOk result (λ text. string_bytes text ≡ direction_tip_of frame direction hour) }
{
    let start = tip_start(alloc, frame, hour)?;
    let closed = closed_values(alloc, direction, hour)?;
    let confirmed = confirmed_values(alloc, direction, hour)?;
    format!(in alloc; "{start}{closed}{confirmed}")
}

/// What a direction has in each hour.
pub(crate) fn direction_tips(
    alloc: Global,
    frame: Frame,
    direction: Direction,
    hours: &[Hour],
) -> Result<String, AllocError>
    ensures { IfOk result (λ text. string_bytes text ≡ direction_tips_of frame direction hours.now) }
{
    let mut text = String::new(alloc);
    for hour in hours {
        let tip = direction_tip(alloc, frame, direction, *hour)?;
        text.push_str(tip.as_str())?;
    }
    Ok(text)
}

#[tactic(auto, unfolding(crate::specs::Tips::both_values))]
fn both_values(alloc: Global, hour: Hour) -> Result<String, AllocError>
    ensures { IfOk result (λ text. string_bytes text ≡ both_values_of hour) }
{
    let im = grouped(alloc, u128::from(hour.im.in_force))?;
    let mi = grouped(alloc, u128::from(hour.mi.in_force))?;
    format!(in alloc; "IM {im}\nMI {mi}\n")
}

#[tactic(auto, unfolding(crate::specs::Tips::net_values))]
fn net_values(alloc: Global, hour: Hour) -> Result<String, AllocError>
    ensures { IfOk result (λ text. string_bytes text ≡ net_values_of hour) }
{
    let (up, down) = (u128::from(hour.im.in_force), u128::from(hour.mi.in_force));
    let both = both_values(alloc, hour)?;
    let net = difference(alloc, up, down)?;
    format!(in alloc; "{both}net {net}</title></path>\n")
}

#[tactic(auto, unfolding(crate::specs::Tips::net_tip))]
fn net_tip(alloc: Global, frame: Frame, hour: Hour) -> Result<String, AllocError>
    ensures { IfOk result (λ text. string_bytes text ≡ net_tip_of frame hour) }
{
    match hour.cycle {
        Some(_) => {
            let start = tip_start(alloc, frame, hour)?;
            let values = net_values(alloc, hour)?;
            format!(in alloc; "{start}{values}")
        }
        None => Ok(String::new(alloc)),
    }
}

/// What is in force in each hour in which a cycle is, and the net of it.
pub(crate) fn net_tips(alloc: Global, frame: Frame, hours: &[Hour]) -> Result<String, AllocError>
    ensures { IfOk result (λ text. string_bytes text ≡ net_tips_of frame hours.now) }
{
    let mut text = String::new(alloc);
    for hour in hours {
        let tip = net_tip(alloc, frame, *hour)?;
        text.push_str(tip.as_str())?;
    }
    Ok(text)
}

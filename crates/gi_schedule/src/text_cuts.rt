//! The cuts of a side in text.

ghost use Rattle.std.specs.Prelude.{◌≡◌, IfOk, string_bytes};
ghost use Rattle.gi_schedule.specs.CutForms.{IsCutText, amounts_text as text_of_amounts, cut_text as text_of, cuts_text as text_of_lines, place_text as text_of_place};

use crate::columns::{CodeInSixteen, NumberInTwo, RightInTwelve};
use crate::cut_line::CutLine;
use crate::cuts::cut_lines;
use crate::wanted::Wanted;
use gi_desk::{Desk, Role};
use gi_pairs::{CycleId, Direction, Pair};
use std::alloc::{AllocError, Global};

/// The day, the cycle's number right in 2 places, the direction, the initiating and the matching code
/// left in 16, and the hour right in 2.
pub fn place_text(
    alloc: Global,
    id: &CycleId,
    direction: Direction,
    pair: &Pair,
    hour: u8,
) -> Result<String, AllocError>
    ensures { IfOk result (λ text. string_bytes text ≡ text_of_place id.now direction pair.now hour) }
{
    let day = id.day;
    let cycle = NumberInTwo {
        number: Some(id.cycle),
    };
    let initiating = CodeInSixteen {
        code: Some(pair.initiating),
    };
    let matching = CodeInSixteen {
        code: Some(pair.matching),
    };
    let hour = NumberInTwo { number: Some(hour) };
    format!(in alloc; "{day} {cycle} {direction} {initiating} {matching} {hour}")
}

fn amounts_text(alloc: Global, line: &CutLine) -> Result<String, AllocError>
    ensures { IfOk result (λ text. string_bytes text ≡ text_of_amounts line.now) }
{
    let nominated = RightInTwelve {
        number: line.nominated,
    };
    let processed = RightInTwelve {
        number: line.processed,
    };
    let peer = RightInTwelve { number: line.peer };
    let confirmed = RightInTwelve {
        number: line.confirmed,
    };
    format!(in alloc; "{nominated} {processed} {peer} {confirmed}")
}

fn cut_text(alloc: Global, line: &CutLine) -> Result<String, AllocError>
    ensures { IfOk result (λ text. string_bytes text ≡ text_of line.now) }
{
    let place = place_text(alloc, &line.id, line.direction, &line.pair, line.hour)?;
    let amounts = amounts_text(alloc, line)?;
    let capacity = RightInTwelve {
        number: line.by_capacity,
    };
    let peer = RightInTwelve {
        number: line.by_peer,
    };
    let word = line.word();
    format!(in alloc; "{place} {amounts} {capacity} {peer} {word}\n")
}

fn cuts_text(alloc: Global, lines: &[CutLine]) -> Result<String, AllocError>
    ensures { IfOk result (λ text. string_bytes text ≡ text_of_lines lines.now) }
{
    let mut text = String::new(alloc);
    for line in lines {
        let line = cut_text(alloc, line)?;
        text.push_str(line.as_str())?;
    }
    Ok(text)
}

/// The cuts of a side: a line for each hour of each row of each confirmed cycle in which less is
/// confirmed than was nominated. It has the day, the cycle's number right in 2 places, the direction,
/// the initiating and the matching code left in 16 and the hour right in 2; then, in kWh/h and right
/// in 12, what was nominated, what the side processed, what the other operator did, what is confirmed,
/// and what the side's capacity and the other operator cut; and `capacity`, `peer` or `both`.
pub fn cut_report<R: Role>(
    alloc: Global,
    desk: &Desk<R>,
    wanted: &Wanted,
) -> Result<String, AllocError>
    ensures { IfOk result (λ text. IsCutText R.SIDE desk.now wanted.now (string_bytes text)) }
{
    let lines = cut_lines(alloc, desk, wanted)?;
    cuts_text(alloc, &lines)
}

//! A schedule in text.

ghost use Rattle.std.specs.Prelude.{◌≡◌, IfOk, string_bytes};
ghost use Rattle.gi_schedule.specs.Text.{IsScheduleText, front_text as text_of_front, line_text as text_of, lines_text as text_of_lines, pair_text as text_of_pair};

use crate::columns::{CodeInSixteen, FlowInThree, NumberInTwo, SignedInTwelve};
use crate::listing::schedule_lines;
use crate::schedule_line::ScheduleLine;
use crate::wanted::Wanted;
use gi_desk::{Desk, Role};
use std::alloc::{AllocError, Global};

fn front_text(alloc: Global, line: &ScheduleLine) -> Result<String, AllocError>
    ensures { IfOk result (λ text. string_bytes text ≡ text_of_front line.now) }
{
    let day = line.day;
    let cycle = NumberInTwo { number: line.cycle };
    let flow = FlowInThree { flow: line.flow };
    format!(in alloc; "{day} {cycle} {flow}")
}

fn pair_text(alloc: Global, line: &ScheduleLine) -> Result<String, AllocError>
    ensures { IfOk result (λ text. string_bytes text ≡ text_of_pair line.now) }
{
    let initiating = CodeInSixteen {
        code: line.initiating(),
    };
    let matching = CodeInSixteen {
        code: line.matching(),
    };
    format!(in alloc; "{initiating} {matching}")
}

fn line_text(alloc: Global, line: &ScheduleLine) -> Result<String, AllocError>
    ensures { IfOk result (λ text. string_bytes text ≡ text_of line.now) }
{
    let front = front_text(alloc, line)?;
    let pair = pair_text(alloc, line)?;
    let hour = NumberInTwo { number: line.hour };
    let quantity = SignedInTwelve {
        number: line.quantity,
    };
    format!(in alloc; "{front} {pair} {hour} {quantity}\n")
}

fn lines_text(alloc: Global, lines: &[ScheduleLine]) -> Result<String, AllocError>
    ensures { IfOk result (λ text. string_bytes text ≡ text_of_lines lines.now) }
{
    let mut text = String::new(alloc);
    for line in lines {
        let line = line_text(alloc, line)?;
        text.push_str(line.as_str())?;
    }
    Ok(text)
}

/// The schedule of a side: a line for each pair, direction and hour, then one for each hour and way,
/// then one for each way, of each gas day that has a confirmed cycle. It has the day, the number of
/// the cycle in force right in 2 places, `IM`, `MI` or `net` left in 3, the initiating and the
/// matching code left in 16, the hour right in 2 and the quantity in kWh/h, or in kWh of a day, right
/// in 12. What is of all pairs or of the whole day has `*` in place of the codes, the cycle and the hour.
pub fn schedule_report<R: Role>(
    alloc: Global,
    desk: &Desk<R>,
    wanted: &Wanted,
) -> Result<String, AllocError>
    ensures { IfOk result (λ text. IsScheduleText R.SIDE desk.now wanted.now (string_bytes text)) }
{
    let lines = schedule_lines(alloc, desk, wanted)?;
    lines_text(alloc, &lines)
}

//! A schedule as JSON lines.

ghost use Rattle.std.specs.Prelude.{◌≡◌, ◌++◌, IfOk};
ghost use Rattle.gi_messages.specs.Adding.{Adds};
ghost use Rattle.gi_exports.specs.Json.{json_lines, line_of};
ghost use Rattle.gi_schedule.specs.Json.{IsScheduleJson, line_data};

use crate::listing::schedule_lines;
use crate::objects::{put_code_at, put_signed, widened};
use crate::schedule_line::ScheduleLine;
use crate::wanted::Wanted;
use gi_desk::{Desk, Role};
use gi_exports::parts::{ended, put_number_or_null, put_word};
use gi_messages::parts::put_day;
use json::Writer;
use std::alloc::{AllocError, Global};

fn put_line(alloc: Global, out: &mut Writer, line: &ScheduleLine) -> Result<(), AllocError>
    ensures { Adds result out.old out.new (line_data line.now) }
{
    let initiating = line.initiating();
    let matching = line.matching();
    out.begin_object()?;
    put_number_or_null(out, "cycle", widened(line.cycle))?;
    put_day(alloc, out, &line.day)?;
    put_word(out, "direction", line.flow.as_str())?;
    put_number_or_null(out, "hour", widened(line.hour))?;
    put_code_at(out, "initiating", &initiating)?;
    put_code_at(out, "matching", &matching)?;
    put_signed(out, "quantity", &line.quantity)?;
    out.end_object()
}

fn with_line(alloc: Global, text: Vec<u8>, line: &ScheduleLine) -> Result<Vec<u8>, AllocError>
    ensures { IfOk result (λ bytes. bytes.items ≡ text.items ++ line_of (line_data line.now)) }
{
    let mut out = Writer::new(text);
    put_line(alloc, &mut out, line)?;
    ended(out)
}

fn lines_json(alloc: Global, lines: &[ScheduleLine]) -> Result<Vec<u8>, AllocError>
    ensures { IfOk result (λ bytes. bytes.items ≡ json_lines line_data lines.now) }
{
    let mut text = Vec::new(alloc);
    for line in lines {
        text = with_line(alloc, text, line)?;
    }
    Ok(text)
}

/// The schedule of a side as JSON lines: an object for each line of `schedule_report`, in the same
/// order, with the keys `cycle`, `day`, `direction`, `hour`, `initiating`, `matching` and `quantity`,
/// null for what a total does not have.
pub fn schedule_json<R: Role>(
    alloc: Global,
    desk: &Desk<R>,
    wanted: &Wanted,
) -> Result<Vec<u8>, AllocError>
    ensures { IfOk result (λ bytes. IsScheduleJson R.SIDE desk.now wanted.now bytes.items) }
{
    let lines = schedule_lines(alloc, desk, wanted)?;
    lines_json(alloc, &lines)
}

//! The changes of a gas day as JSON lines.

ghost use Rattle.std.specs.Prelude.{◌≡◌, ◌++◌, IfOk};
ghost use Rattle.gi_messages.specs.Adding.{Adds};
ghost use Rattle.gi_exports.specs.Json.{line_of};
ghost use Rattle.gi_changes.specs.Forms.{IsChangeJson, change_data, changes_json as json_of_lines};

use crate::change_line::ChangeLine;
use crate::changes::change_lines;
use gi_desk::{Desk, Role};
use gi_exports::parts::{ended, put_whole};
use gi_messages::Key;
use gi_messages::parts::{put_code, put_day, put_direction, put_number};
use gi_schedule::Wanted;
use gi_schedule::parts::put_signed;
use json::Writer;
use std::alloc::{AllocError, Global};

fn put_change(alloc: Global, out: &mut Writer, line: &ChangeLine) -> Result<(), AllocError>
    ensures { Adds result out.old out.new (change_data line.now) }
{
    out.begin_object()?;
    put_whole(out, "after", line.after)?;
    put_whole(out, "before", line.before)?;
    put_signed(out, "change", &line.change)?;
    put_number(out, Key::Cycle, u64::from(line.id.cycle))?;
    put_day(alloc, out, &line.id.day)?;
    put_direction(out, line.direction)?;
    put_whole(out, "hour", u64::from(line.hour))?;
    put_code(out, Key::Initiating, &line.pair.initiating)?;
    put_code(out, Key::Matching, &line.pair.matching)?;
    out.end_object()
}

fn with_change(alloc: Global, text: Vec<u8>, line: &ChangeLine) -> Result<Vec<u8>, AllocError>
    ensures { IfOk result (λ bytes. bytes.items ≡ text.items ++ line_of (change_data line.now)) }
{
    let mut out = Writer::new(text);
    put_change(alloc, &mut out, line)?;
    ended(out)
}

fn changes_json(alloc: Global, lines: &[ChangeLine]) -> Result<Vec<u8>, AllocError>
    ensures { IfOk result (λ bytes. bytes.items ≡ json_of_lines lines.now) }
{
    let mut text = Vec::new(alloc);
    for line in lines {
        text = with_change(alloc, text, line)?;
    }
    Ok(text)
}

/// The changes of a gas day as JSON lines: an object for each line of `change_report`, in the same
/// order, with the keys `after`, `before`, `change`, `cycle`, `day`, `direction`, `hour`,
/// `initiating` and `matching`.
pub fn change_json<R: Role>(
    alloc: Global,
    desk: &Desk<R>,
    wanted: &Wanted,
) -> Result<Vec<u8>, AllocError>
    ensures { IfOk result (λ bytes. IsChangeJson R.SIDE desk.now wanted.now bytes.items) }
{
    let lines = change_lines(alloc, desk, wanted)?;
    changes_json(alloc, &lines)
}

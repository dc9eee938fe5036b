//! The cuts of a side as JSON lines.

ghost use Rattle.std.specs.Prelude.{◌≡◌, ◌++◌, IfOk};
ghost use Rattle.gi_messages.specs.Adding.{Adds};
ghost use Rattle.gi_schedule.specs.CutForms.{IsCutJson, cut_data};
ghost use Rattle.gi_exports.specs.Json.{json_lines, line_of};

use crate::cut_line::CutLine;
use crate::cuts::cut_lines;
use crate::wanted::Wanted;
use gi_desk::{Desk, Role};
use gi_exports::parts::{ended, put_whole, put_word};
use gi_messages::Key;
use gi_messages::parts::{put_code, put_day, put_direction, put_number};
use json::Writer;
use std::alloc::{AllocError, Global};

fn put_cut(alloc: Global, out: &mut Writer, line: &CutLine) -> Result<(), AllocError>
    ensures { Adds result out.old out.new (cut_data line.now) }
{
    out.begin_object()?;
    put_whole(out, "by_capacity", line.by_capacity)?;
    put_whole(out, "by_peer", line.by_peer)?;
    put_whole(out, "confirmed", line.confirmed)?;
    put_word(out, "cut", line.word())?;
    put_number(out, Key::Cycle, u64::from(line.id.cycle))?;
    put_day(alloc, out, &line.id.day)?;
    put_direction(out, line.direction)?;
    put_whole(out, "hour", u64::from(line.hour))?;
    put_code(out, Key::Initiating, &line.pair.initiating)?;
    put_code(out, Key::Matching, &line.pair.matching)?;
    put_whole(out, "nominated", line.nominated)?;
    put_whole(out, "peer", line.peer)?;
    put_whole(out, "processed", line.processed)?;
    out.end_object()
}

fn with_cut(alloc: Global, text: Vec<u8>, line: &CutLine) -> Result<Vec<u8>, AllocError>
    ensures { IfOk result (λ bytes. bytes.items ≡ text.items ++ line_of (cut_data line.now)) }
{
    let mut out = Writer::new(text);
    put_cut(alloc, &mut out, line)?;
    ended(out)
}

fn cuts_json(alloc: Global, lines: &[CutLine]) -> Result<Vec<u8>, AllocError>
    ensures { IfOk result (λ bytes. bytes.items ≡ json_lines cut_data lines.now) }
{
    let mut text = Vec::new(alloc);
    for line in lines {
        text = with_cut(alloc, text, line)?;
    }
    Ok(text)
}

/// The cuts of a side as JSON lines: an object for each line of `cut_report`, in the same order, with
/// the keys `by_capacity`, `by_peer`, `confirmed`, `cut`, `cycle`, `day`, `direction`, `hour`,
/// `initiating`, `matching`, `nominated`, `peer` and `processed`.
pub fn cut_json<R: Role>(
    alloc: Global,
    desk: &Desk<R>,
    wanted: &Wanted,
) -> Result<Vec<u8>, AllocError>
    ensures { IfOk result (λ bytes. IsCutJson R.SIDE desk.now wanted.now bytes.items) }
{
    let lines = cut_lines(alloc, desk, wanted)?;
    cuts_json(alloc, &lines)
}

//! The reports as JSON lines.

ghost use Rattle.std.specs.Prelude.{◌≡◌, ◌++◌, IfOk};
ghost use Rattle.gi_messages.specs.Adding.{Adds};
ghost use Rattle.gi_reports.specs.Refused.{refused_counts as counts_of};
ghost use Rattle.gi_exports.specs.Json.{IsConfirmedJson, IsOpenJson, count_data, cycle_data, hour_data, json_lines, line_of};

use crate::confirmed_hour::ConfirmedHour;
use crate::listing::{confirmed_hours, open_cycles};
use crate::objects::{ended, put_portfolio, put_whole, put_word};
use crate::open_cycle::{OpenCycle, state_of};
use gi_desk::{Desk, Role};
use gi_messages::Key;
use gi_messages::parts::{put_code, put_day, put_direction, put_number};
use gi_pairs::Code;
use gi_reports::refused_counts;
use json::Writer;
use std::alloc::{AllocError, Global};

fn put_hour(alloc: Global, out: &mut Writer, entry: &ConfirmedHour) -> Result<(), AllocError>
    ensures { Adds result out.old out.new (hour_data entry.now) }
{
    out.begin_object()?;
    put_number(out, Key::Cycle, u64::from(entry.id.cycle))?;
    put_day(alloc, out, &entry.id.day)?;
    put_direction(out, entry.direction)?;
    put_whole(out, "hour", entry.hour)?;
    put_code(out, Key::Initiating, &entry.pair.initiating)?;
    put_code(out, Key::Matching, &entry.pair.matching)?;
    put_whole(out, "quantity", entry.quantity.value())?;
    out.end_object()
}

fn with_hour(alloc: Global, text: Vec<u8>, entry: &ConfirmedHour) -> Result<Vec<u8>, AllocError>
    ensures { IfOk result (λ bytes. bytes.items ≡ text.items ++ line_of (hour_data entry.now)) }
{
    let mut out = Writer::new(text);
    put_hour(alloc, &mut out, entry)?;
    ended(out)
}

fn hours_json(alloc: Global, hours: &[ConfirmedHour]) -> Result<Vec<u8>, AllocError>
    ensures { IfOk result (λ bytes. bytes.items ≡ json_lines hour_data hours.now) }
{
    let mut text = Vec::new(alloc);
    for entry in hours {
        text = with_hour(alloc, text, entry)?;
    }
    Ok(text)
}

/// What a desk has confirmed as JSON lines: an object for each hour of each row of each confirmed
/// cycle, in the order of `confirmed_report`, with the keys `cycle`, `day`, `direction`, `hour`,
/// `initiating`, `matching` and `quantity` (in kWh/h).
pub fn confirmed_json<R: Role>(alloc: Global, desk: &Desk<R>) -> Result<Vec<u8>, AllocError>
    ensures { IfOk result (λ bytes. IsConfirmedJson R.SIDE desk.now bytes.items) }
{
    let hours = confirmed_hours(alloc, desk)?;
    hours_json(alloc, &hours)
}

fn put_cycle(alloc: Global, out: &mut Writer, entry: &OpenCycle) -> Result<(), AllocError>
    ensures { Adds result out.old out.new (cycle_data entry.now) }
{
    out.begin_object()?;
    put_number(out, Key::Cycle, u64::from(entry.id.cycle))?;
    put_day(alloc, out, &entry.id.day)?;
    put_word(out, "state", state_of(entry.stage))?;
    out.end_object()
}

fn with_cycle(alloc: Global, text: Vec<u8>, entry: &OpenCycle) -> Result<Vec<u8>, AllocError>
    ensures { IfOk result (λ bytes. bytes.items ≡ text.items ++ line_of (cycle_data entry.now)) }
{
    let mut out = Writer::new(text);
    put_cycle(alloc, &mut out, entry)?;
    ended(out)
}

fn cycles_json(alloc: Global, cycles: &[OpenCycle]) -> Result<Vec<u8>, AllocError>
    ensures { IfOk result (λ bytes. bytes.items ≡ json_lines cycle_data cycles.now) }
{
    let mut text = Vec::new(alloc);
    for entry in cycles {
        text = with_cycle(alloc, text, entry)?;
    }
    Ok(text)
}

/// What stays open at a desk as JSON lines: an object for each closed cycle that is not confirmed,
/// in the order of `open_report`, with the keys `cycle`, `day` and `state`, which is `frozen`, or
/// `unsaved` where the cycle met the peer's table and that fact is not saved.
pub fn open_json<R: Role>(alloc: Global, desk: &Desk<R>) -> Result<Vec<u8>, AllocError>
    ensures { IfOk result (λ bytes. IsOpenJson R.SIDE desk.now bytes.items) }
{
    let cycles = open_cycles(alloc, desk)?;
    cycles_json(alloc, &cycles)
}

fn put_count(out: &mut Writer, code: &Option<Code>, count: u64) -> Result<(), AllocError>
    ensures { Adds result out.old out.new (count_data (code.now, count)) }
{
    out.begin_object()?;
    put_portfolio(out, code)?;
    put_whole(out, "submissions", count)?;
    out.end_object()
}

fn with_count(text: Vec<u8>, code: &Option<Code>, count: u64) -> Result<Vec<u8>, AllocError>
    ensures { IfOk result (λ bytes. bytes.items ≡ text.items ++ line_of (count_data (code.now, count))) }
{
    let mut out = Writer::new(text);
    put_count(&mut out, code, count)?;
    ended(out)
}

/// Refused submissions as JSON lines: an object for each portfolio with refused submissions, in the
/// order of `refused_report`, with the keys `portfolio`, null for those that cannot be read, and
/// `submissions`.
pub fn refused_json(alloc: Global, submissions: &[Option<Code>]) -> Result<Vec<u8>, AllocError>
    ensures { IfOk result (λ bytes. bytes.items ≡ json_lines count_data (counts_of submissions.now)) }
{
    let counts = refused_counts(alloc, submissions)?;
    let mut text = Vec::new(alloc);
    for (code, count) in &counts {
        text = with_count(text, code, *count)?;
    }
    Ok(text)
}

//! A schedule as CSV.

ghost use Rattle.std.specs.Prelude.{◌≡◌, IfOk, OnOk, string_bytes};
ghost use Rattle.gi_exports.specs.Csv.{csv_text, record_text};
ghost use Rattle.gi_schedule.specs.Csv.{IsScheduleCsv, code_field, line_fields, number_field, schedule_header};
ghost use Rattle.gi_exports.specs.Sheet.{AddsText};

use crate::listing::schedule_lines;
use crate::schedule_line::ScheduleLine;
use crate::wanted::Wanted;
use csv::Writer;
use gi_desk::{Desk, Role};
use gi_exports::sheet::{begun, finished, put_record};
use gi_pairs::Code;
use std::alloc::{AllocError, Global};

fn number_text(alloc: Global, number: Option<u8>) -> Result<String, AllocError>
    ensures { IfOk result (λ text. string_bytes text ≡ number_field number) }
{
    match number {
        Some(number) => number.to_string(alloc),
        None => Ok(String::new(alloc)),
    }
}

fn code_text(code: &Option<Code>) -> &str
    ensures { result.now ≡ code_field code.now }
{
    match code {
        Some(code) => code.as_str(),
        None => "",
    }
}

fn put_line(alloc: Global, out: &mut Writer<Vec<u8>>, line: &ScheduleLine) -> Result<(), AllocError>
    ensures { OnOk result (AddsText out.old out.new (record_text (line_fields line.now))) }
{
    let day = line.day.to_string(alloc)?;
    let cycle = number_text(alloc, line.cycle)?;
    let flow = line.flow.as_str();
    let initiating = line.initiating();
    let matching = line.matching();
    let hour = number_text(alloc, line.hour)?;
    let quantity = line.quantity.to_string(alloc)?;
    put_record(
        out,
        &[
            day.as_bytes(),
            cycle.as_bytes(),
            flow.as_bytes(),
            code_text(&initiating).as_bytes(),
            code_text(&matching).as_bytes(),
            hour.as_bytes(),
            quantity.as_bytes(),
        ],
    )
}

fn lines_csv(alloc: Global, lines: &[ScheduleLine]) -> Result<Vec<u8>, AllocError>
    ensures { IfOk result (λ bytes. bytes.items ≡ csv_text schedule_header line_fields lines.now) }
{
    let header: [&[u8]; 7] = [
        b"day",
        b"cycle",
        b"direction",
        b"initiating",
        b"matching",
        b"hour",
        b"quantity",
    ];
    let mut out = begun(alloc, &header)?;
    for line in lines {
        put_line(alloc, &mut out, line)?;
    }
    finished(out)
}

/// The schedule of a side as CSV: a header, then the lines of `schedule_report` in the same order,
/// with nothing padded and an empty field for what a total does not have. Each line ends with a line
/// feed.
pub fn schedule_csv<R: Role>(
    alloc: Global,
    desk: &Desk<R>,
    wanted: &Wanted,
) -> Result<Vec<u8>, AllocError>
    ensures { IfOk result (λ bytes. IsScheduleCsv R.SIDE desk.now wanted.now bytes.items) }
{
    let lines = schedule_lines(alloc, desk, wanted)?;
    lines_csv(alloc, &lines)
}

//! The reports as CSV.

ghost use Rattle.std.specs.Prelude.{◌≡◌, IfOk, OnOk};
ghost use Rattle.gi_reports.specs.Refused.{refused_counts as counts_of};
ghost use Rattle.gi_exports.specs.Csv.{IsConfirmedCsv, IsOpenCsv, confirmed_header, count_fields, csv_text, cycle_fields, hour_fields, open_header, portfolio_field, record_text, refused_text};
ghost use Rattle.gi_exports.specs.Sheet.{AddsText};

use crate::confirmed_hour::ConfirmedHour;
use crate::listing::{confirmed_hours, open_cycles};
use crate::open_cycle::{OpenCycle, state_of};
use crate::sheet::{begun, finished, put_record};
use csv::Writer;
use gi_desk::{Desk, Role};
use gi_pairs::Code;
use gi_reports::refused_counts;
use std::alloc::{AllocError, Global};

fn put_hour(
    alloc: Global,
    out: &mut Writer<Vec<u8>>,
    entry: &ConfirmedHour,
) -> Result<(), AllocError>
    ensures { OnOk result (AddsText out.old out.new (record_text (hour_fields entry.now))) }
{
    let day = entry.id.day.to_string(alloc)?;
    let cycle = entry.id.cycle.to_string(alloc)?;
    let direction = entry.direction.as_str();
    let pair = entry.pair;
    let hour = entry.hour.to_string(alloc)?;
    let quantity = entry.quantity.value().to_string(alloc)?;
    put_record(
        out,
        &[
            day.as_bytes(),
            cycle.as_bytes(),
            direction.as_bytes(),
            pair.initiating.as_str().as_bytes(),
            pair.matching.as_str().as_bytes(),
            hour.as_bytes(),
            quantity.as_bytes(),
        ],
    )
}

fn hours_csv(alloc: Global, hours: &[ConfirmedHour]) -> Result<Vec<u8>, AllocError>
    ensures { IfOk result (λ bytes. bytes.items ≡ csv_text confirmed_header hour_fields hours.now) }
{
    let header: [&[u8]; 7] = [
        b"day",
        b"cycle",
        b"direction",
        b"initiating",
        b"matching",
        b"hour",
        b"quantity",
    ];
    let mut out = begun(alloc, &header)?;
    for entry in hours {
        put_hour(alloc, &mut out, entry)?;
    }
    finished(out)
}

/// What a desk has confirmed as CSV: a header, then a line for each hour of each row of each
/// confirmed cycle, in the order of `confirmed_report`. It has the day, the cycle's number, the
/// direction, the initiating and the matching code, the hour and the quantity in kWh/h. Each line
/// ends with a line feed.
pub fn confirmed_csv<R: Role>(alloc: Global, desk: &Desk<R>) -> Result<Vec<u8>, AllocError>
    ensures { IfOk result (λ bytes. IsConfirmedCsv R.SIDE desk.now bytes.items) }
{
    let hours = confirmed_hours(alloc, desk)?;
    hours_csv(alloc, &hours)
}

fn put_cycle(alloc: Global, out: &mut Writer<Vec<u8>>, entry: &OpenCycle) -> Result<(), AllocError>
    ensures { OnOk result (AddsText out.old out.new (record_text (cycle_fields entry.now))) }
{
    let day = entry.id.day.to_string(alloc)?;
    let cycle = entry.id.cycle.to_string(alloc)?;
    let state = state_of(entry.stage);
    put_record(out, &[day.as_bytes(), cycle.as_bytes(), state.as_bytes()])
}

fn cycles_csv(alloc: Global, cycles: &[OpenCycle]) -> Result<Vec<u8>, AllocError>
    ensures { IfOk result (λ bytes. bytes.items ≡ csv_text open_header cycle_fields cycles.now) }
{
    let header: [&[u8]; 3] = [b"day", b"cycle", b"state"];
    let mut out = begun(alloc, &header)?;
    for entry in cycles {
        put_cycle(alloc, &mut out, entry)?;
    }
    finished(out)
}

/// What stays open at a desk as CSV: a header, then a line for each closed cycle that is not
/// confirmed, in the order of `open_report`. It has the day, the cycle's number, and `frozen`, or
/// `unsaved` where the cycle met the peer's table and that fact is not saved. Each line ends with a
/// line feed.
pub fn open_csv<R: Role>(alloc: Global, desk: &Desk<R>) -> Result<Vec<u8>, AllocError>
    ensures { IfOk result (λ bytes. IsOpenCsv R.SIDE desk.now bytes.items) }
{
    let cycles = open_cycles(alloc, desk)?;
    cycles_csv(alloc, &cycles)
}

fn portfolio_text(code: &Option<Code>) -> &str
    ensures { result.now ≡ portfolio_field code.now }
{
    match code {
        Some(code) => code.as_str(),
        None => "",
    }
}

fn put_count(
    alloc: Global,
    out: &mut Writer<Vec<u8>>,
    code: &Option<Code>,
    count: u64,
) -> Result<(), AllocError>
    ensures { OnOk result (AddsText out.old out.new (record_text (count_fields (code.now, count)))) }
{
    let portfolio = portfolio_text(code);
    let count = count.to_string(alloc)?;
    put_record(out, &[portfolio.as_bytes(), count.as_bytes()])
}

/// Refused submissions as CSV: a header, then a line for each portfolio with refused submissions,
/// in the order of `refused_report`. It has the code and the number of the submissions. The code
/// is empty for those that cannot be read. Each line ends with a line feed.
pub fn refused_csv(alloc: Global, submissions: &[Option<Code>]) -> Result<Vec<u8>, AllocError>
    ensures { IfOk result (λ bytes. bytes.items ≡ refused_text (counts_of submissions.now)) }
{
    let counts = refused_counts(alloc, submissions)?;
    let header: [&[u8]; 2] = [b"portfolio", b"submissions"];
    let mut out = begun(alloc, &header)?;
    for (code, count) in &counts {
        put_count(alloc, &mut out, code, *count)?;
    }
    finished(out)
}

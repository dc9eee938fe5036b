//! The cuts of a side as CSV.

ghost use Rattle.std.specs.Prelude.{◌≡◌, IfOk, OnOk};
ghost use Rattle.gi_exports.specs.Csv.{csv_text, record_text};
ghost use Rattle.gi_schedule.specs.CutForms.{IsCutCsv, cut_fields, cut_header};
ghost use Rattle.gi_exports.specs.Sheet.{AddsText};

use crate::cut_line::CutLine;
use crate::cuts::cut_lines;
use crate::wanted::Wanted;
use csv::Writer;
use gi_desk::{Desk, Role};
use gi_exports::sheet::{begun, finished, put_record};
use std::alloc::{AllocError, Global};

fn put_cut(alloc: Global, out: &mut Writer<Vec<u8>>, line: &CutLine) -> Result<(), AllocError>
    ensures { OnOk result (AddsText out.old out.new (record_text (cut_fields line.now))) }
{
    let day = line.id.day.to_string(alloc)?;
    let cycle = line.id.cycle.to_string(alloc)?;
    let direction = line.direction.as_str();
    let pair = line.pair;
    let hour = line.hour.to_string(alloc)?;
    let nominated = line.nominated.to_string(alloc)?;
    let processed = line.processed.to_string(alloc)?;
    let peer = line.peer.to_string(alloc)?;
    let confirmed = line.confirmed.to_string(alloc)?;
    let by_capacity = line.by_capacity.to_string(alloc)?;
    let by_peer = line.by_peer.to_string(alloc)?;
    let word = line.word();
    put_record(
        out,
        &[
            day.as_bytes(),
            cycle.as_bytes(),
            direction.as_bytes(),
            pair.initiating.as_str().as_bytes(),
            pair.matching.as_str().as_bytes(),
            hour.as_bytes(),
            nominated.as_bytes(),
            processed.as_bytes(),
            peer.as_bytes(),
            confirmed.as_bytes(),
            by_capacity.as_bytes(),
            by_peer.as_bytes(),
            word.as_bytes(),
        ],
    )
}

fn cuts_csv(alloc: Global, lines: &[CutLine]) -> Result<Vec<u8>, AllocError>
    ensures { IfOk result (λ bytes. bytes.items ≡ csv_text cut_header cut_fields lines.now) }
{
    let header: [&[u8]; 13] = [
        b"day",
        b"cycle",
        b"direction",
        b"initiating",
        b"matching",
        b"hour",
        b"nominated",
        b"processed",
        b"peer",
        b"confirmed",
        b"by_capacity",
        b"by_peer",
        b"cut",
    ];
    let mut out = begun(alloc, &header)?;
    for line in lines {
        put_cut(alloc, &mut out, line)?;
    }
    finished(out)
}

/// The cuts of a side as CSV: a header, then the lines of `cut_report` in the same order, with nothing
/// padded. Each line ends with a line feed.
pub fn cut_csv<R: Role>(
    alloc: Global,
    desk: &Desk<R>,
    wanted: &Wanted,
) -> Result<Vec<u8>, AllocError>
    ensures { IfOk result (λ bytes. IsCutCsv R.SIDE desk.now wanted.now bytes.items) }
{
    let lines = cut_lines(alloc, desk, wanted)?;
    cuts_csv(alloc, &lines)
}

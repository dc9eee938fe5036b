//! The changes of a gas day as CSV.

ghost use Rattle.std.specs.Prelude.{◌≡◌, IfOk, OnOk};
ghost use Rattle.gi_exports.specs.Csv.{record_text};
ghost use Rattle.gi_exports.specs.Sheet.{AddsText};
ghost use Rattle.gi_changes.specs.Forms.{IsChangeCsv, change_fields, changes_csv as csv_of_lines};

use crate::change_line::ChangeLine;
use crate::changes::change_lines;
use csv::Writer;
use gi_desk::{Desk, Role};
use gi_exports::sheet::{begun, finished, put_record};
use gi_schedule::Wanted;
use std::alloc::{AllocError, Global};

fn put_change(alloc: Global, out: &mut Writer<Vec<u8>>, line: &ChangeLine) -> Result<(), AllocError>
    ensures { OnOk result (AddsText out.old out.new (record_text (change_fields line.now))) }
{
    let day = line.id.day.to_string(alloc)?;
    let cycle = line.id.cycle.to_string(alloc)?;
    let direction = line.direction.as_str();
    let pair = line.pair;
    let hour = line.hour.to_string(alloc)?;
    let before = line.before.to_string(alloc)?;
    let after = line.after.to_string(alloc)?;
    let change = line.change.to_string(alloc)?;
    put_record(
        out,
        &[
            day.as_bytes(),
            cycle.as_bytes(),
            direction.as_bytes(),
            pair.initiating.as_str().as_bytes(),
            pair.matching.as_str().as_bytes(),
            hour.as_bytes(),
            before.as_bytes(),
            after.as_bytes(),
            change.as_bytes(),
        ],
    )
}

fn changes_csv(alloc: Global, lines: &[ChangeLine]) -> Result<Vec<u8>, AllocError>
    ensures { IfOk result (λ bytes. bytes.items ≡ csv_of_lines lines.now) }
{
    let header: [&[u8]; 9] = [
        b"day",
        b"cycle",
        b"direction",
        b"initiating",
        b"matching",
        b"hour",
        b"before",
        b"after",
        b"change",
    ];
    let mut out = begun(alloc, &header)?;
    for line in lines {
        put_change(alloc, &mut out, line)?;
    }
    finished(out)
}

/// The changes of a gas day as CSV: a header, then the lines of `change_report` in the same order,
/// with nothing padded. Each line ends with a line feed.
pub fn change_csv<R: Role>(
    alloc: Global,
    desk: &Desk<R>,
    wanted: &Wanted,
) -> Result<Vec<u8>, AllocError>
    ensures { IfOk result (λ bytes. IsChangeCsv R.SIDE desk.now wanted.now bytes.items) }
{
    let lines = change_lines(alloc, desk, wanted)?;
    changes_csv(alloc, &lines)
}

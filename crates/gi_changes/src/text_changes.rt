//! The changes of a gas day in text.

ghost use Rattle.std.specs.Prelude.{◌≡◌, IfOk, string_bytes};
ghost use Rattle.gi_changes.specs.Forms.{IsChangeText, change_text as text_of, changes_text as text_of_lines};

use crate::change_line::ChangeLine;
use crate::changes::change_lines;
use gi_desk::{Desk, Role};
use gi_schedule::Wanted;
use gi_schedule::parts::{RightInTwelve, SignedInTwelve, place_text};
use std::alloc::{AllocError, Global};

fn change_text(alloc: Global, line: &ChangeLine) -> Result<String, AllocError>
    ensures { IfOk result (λ text. string_bytes text ≡ text_of line.now) }
{
    let place = place_text(alloc, &line.id, line.direction, &line.pair, line.hour)?;
    let before = RightInTwelve {
        number: line.before,
    };
    let after = RightInTwelve { number: line.after };
    let change = SignedInTwelve {
        number: line.change,
    };
    format!(in alloc; "{place} {before} {after} {change}\n")
}

fn changes_text(alloc: Global, lines: &[ChangeLine]) -> Result<String, AllocError>
    ensures { IfOk result (λ text. string_bytes text ≡ text_of_lines lines.now) }
{
    let mut text = String::new(alloc);
    for line in lines {
        let line = change_text(alloc, line)?;
        text.push_str(line.as_str())?;
    }
    Ok(text)
}

/// What each confirmed cycle of a gas day changed: a line for each hour that the cycle covers in which
/// it confirmed another quantity than was in force before it, of each pair, or of those in which the
/// portfolio stands at either side. It has the day, the cycle's number right in 2 places, the
/// direction, the initiating and the matching code left in 16 and the hour right in 2; then, in kWh/h
/// and right in 12, what was in force, what the cycle confirmed, and how much more that is.
pub fn change_report<R: Role>(
    alloc: Global,
    desk: &Desk<R>,
    wanted: &Wanted,
) -> Result<String, AllocError>
    ensures { IfOk result (λ text. IsChangeText R.SIDE desk.now wanted.now (string_bytes text)) }
{
    let lines = change_lines(alloc, desk, wanted)?;
    changes_text(alloc, &lines)
}

//! What stays open at a desk.

ghost use Rattle.std.specs.Prelude.{◌≡◌, IfOk, string_bytes};
ghost use Rattle.gi_reports.specs.Open.{IsOpenReport, open_line as line_of, open_lines as lines_of, open_word as word_of};

use crate::cycles::closed_cycles;
use gi_desk::{Desk, Role, StageName};
use gi_pairs::CycleId;
use gi_text::RightInTwo;
use std::alloc::{AllocError, Global};

fn open_word(stage: StageName) -> &'static str
    ensures { result.now ≡ word_of stage }
{
    match stage {
        StageName::Matched => "unsaved",
        StageName::Frozen | StageName::Collecting => "frozen",
    }
}

fn open_line(alloc: Global, id: CycleId, stage: StageName) -> Result<String, AllocError>
    ensures { IfOk result (λ line. string_bytes line ≡ line_of id stage) }
{
    let day = id.day;
    let cycle = RightInTwo {
        number: u64::from(id.cycle),
    };
    let word = open_word(stage);
    format!(in alloc; "{day} {cycle} {word}\n")
}

fn open_lines<R: Role>(alloc: Global, desk: &Desk<R>, ids: &[CycleId]) -> Result<String, AllocError>
    ensures { IfOk result (λ text. string_bytes text ≡ lines_of R.SIDE desk.now ids.now) }
{
    let mut text = String::new(alloc);
    for id in ids {
        if desk.confirmed(*id).is_none() {
            let line = open_line(alloc, *id, desk.state(*id))?;
            text.push_str(line.as_str())?;
        }
    }
    Ok(text)
}

/// A line for each closed cycle that is not confirmed, by gas day and number: the day, the number
/// right in 2 places, and `frozen`, or `unsaved` where it met the peer's table and that fact is not
/// saved.
pub fn open_report<R: Role>(alloc: Global, desk: &Desk<R>) -> Result<String, AllocError>
    ensures { IfOk result (λ text. IsOpenReport R.SIDE desk.now (string_bytes text)) }
{
    let ids = closed_cycles(alloc, desk)?;
    open_lines(alloc, desk, &ids)
}

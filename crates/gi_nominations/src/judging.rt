//! What of a nomination is judged without the book.

ghost use Rattle.std.specs.Prelude.{◌≡◌};
ghost use Rattle.gi_nominations.specs.Lines.{is_twin as is_twin_of, has_hours, has_twin, has_twins, lines_fault as fault_of_lines};
ghost use Rattle.gi_nominations.specs.Judging.{is_day_over};

use crate::nomination_fault::NominationFault;
use gi_day::DayFrame;
use gi_messages::NominationLine;

/// How many lines a nomination has at most.
pub const MOST_LINES: usize = 64;

fn have_hours(lines: &[NominationLine], hours: usize) -> bool
    ensures { result ≡ has_hours hours lines.now }
{
    lines
        .iter()
        .all(|line| line.hours.as_slice().len() == hours)
}

fn is_twin(line: &NominationLine, other: &NominationLine) -> bool
    ensures { result ≡ is_twin_of line.now other.now }
{
    line.counterparty == other.counterparty && line.direction == other.direction
}

fn has_twin(line: &NominationLine, others: &[NominationLine]) -> bool
    ensures { result ≡ has_twin line.now others.now }
{
    others.iter().any(|other| is_twin(line, other))
}

fn have_twins(lines: &[NominationLine]) -> bool
    ensures { result ≡ has_twins lines.now }
{
    for i in 0..lines.len() {
        if has_twin(&lines[i], &lines[i + 1..]) {
            return true;
        }
    }
    false
}

/// The first fault of the lines of a gas day that has so many hours.
#[tactic(auto, unfolding(crate::specs::Lines::lines_fault))]
pub fn lines_fault(lines: &[NominationLine], hours: u8) -> Option<NominationFault>
    ensures { result ≡ fault_of_lines hours lines.now }
{
    if !have_hours(lines, usize::from(hours)) {
        return Some(NominationFault::HourCount);
    }
    if lines.len() > MOST_LINES {
        return Some(NominationFault::TooManyLines);
    }
    if have_twins(lines) {
        return Some(NominationFault::DuplicateLine);
    }
    None
}

/// Whether the last cycle of the gas day is closed.
pub fn is_day_over(frame: DayFrame, last_closed: Option<u8>) -> bool
    ensures { result ≡ is_day_over frame last_closed }
{
    match last_closed {
        Some(cycle) => cycle >= frame.cycle_count() - 1,
        None => false,
    }
}

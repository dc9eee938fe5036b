//! Which hours a cycle covers.

ghost use Rattle.std.specs.Prelude.{◌≡◌};
ghost use Rattle.gi_explanations.specs.Reduction.{covers_hour, is_covered as is_covered_of};

use crate::question::Question;
use gi_day::{Calendar, DayFrame};

fn covers(frame: DayFrame, cycle: u8, hour: u8) -> bool
    ensures { result ≡ covers_hour frame cycle hour }
{
    if cycle >= frame.cycle_count() {
        return false;
    }
    let first = frame.first_hour(cycle).unwrap();
    first <= hour && hour <= frame.hours()
}

pub(crate) fn is_covered(calendar: &Calendar, question: &Question) -> bool
    ensures { result ≡ is_covered_of question.now }
{
    let frame = calendar.frame(question.id.day).unwrap();
    covers(frame, question.id.cycle, question.hour)
}

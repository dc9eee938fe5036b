//! The local time at the bounds of hours.

ghost use Rattle.std.specs.Prelude.{◌≡◌, IfOk, string_bytes};
ghost use Rattle.gi_picture.specs.Clock.{clock_hour as clock_hour_of, clock_text as clock_text_of, time_mark as time_mark_of};

use gi_text::TwoDigits;
use std::alloc::{AllocError, Global};

/// The clock hour, 0 to 23, at a bound of hours, counted from 0, of a gas day of so many. The clock changes in days
/// of 23 and 25 hours alone.
#[tactic(auto, unfolding(crate::specs::Clock::clock_hour))]
pub fn clock_hour(hours: u8, bound: u8) -> u8
    ensures { result ≡ clock_hour_of hours bound }
{
    if hours == 23 && 20 <= bound {
        return ((u16::from(bound) + 7) % 24) as u8;
    }
    if hours == 25 && 21 <= bound {
        return ((u16::from(bound) + 5) % 24) as u8;
    }
    ((u16::from(bound) + 6) % 24) as u8
}

/// The local time at a bound, as `05:00`.
#[tactic(auto, unfolding(crate::specs::Clock::clock_text))]
pub fn clock_text(alloc: Global, hours: u8, bound: u8) -> Result<String, AllocError>
    ensures { IfOk result (λ text. string_bytes text ≡ clock_text_of hours bound) }
{
    let hour = TwoDigits {
        number: clock_hour(hours, bound),
    };
    format!(in alloc; "{hour}:00")
}

/// Which of two hours that begin at the same local time it is.
#[tactic(auto, unfolding(crate::specs::Clock::time_mark))]
pub fn time_mark(hours: u8, bound: u8) -> &'static str
    ensures { result.now ≡ time_mark_of hours bound }
{
    if hours == 25 && bound == 20 {
        return " (1st)";
    }
    if hours == 25 && bound == 21 {
        return " (2nd)";
    }
    ""
}

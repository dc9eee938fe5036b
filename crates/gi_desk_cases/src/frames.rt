//! What the calendar says of a gas day.

use gi_day::{Calendar, GasDay};
use gi_pairs::CycleId;

/// How many hours the gas day has.
pub fn hours(calendar: &Calendar, day: GasDay) -> u8 {
    match calendar.frame(day) {
        Ok(frame) => frame.hours(),
        Err(_) => 0,
    }
}

/// How many cycles the gas day has.
pub fn cycle_count(calendar: &Calendar, day: GasDay) -> u8 {
    match calendar.frame(day) {
        Ok(frame) => frame.cycle_count(),
        Err(_) => 0,
    }
}

/// The first hour of the cycle, where the gas day has it.
pub fn first_hour(calendar: &Calendar, id: &CycleId) -> Option<u8> {
    match calendar.frame(id.day) {
        Ok(frame) => frame.first_hour(id.cycle).ok(),
        Err(_) => None,
    }
}

//! Gas days: their dates, read and printed, their hours and their nomination cycles.
#![tactic(auto)]

mod calendar;
mod day_frame;
mod gas_day;

pub use calendar::{Calendar, CalendarFault};
pub use day_frame::{DayFrame, NoSuchCycle};
pub use gas_day::{DayFault, GasDay};

ghost use Rattle.std.specs.Prelude.{◌≡◌, ◌↔◌, ℕ, ℤ, pos, ◌*◌, ◌<◌, ◌≤◌, ◌-ℤ◌, OkIff, IfOk, Ok, MatchOption, Some, codes};
ghost use Rattle.std.specs.Int.{IsInRange};
ghost use Rattle.jiff_core.specs.Calendar.{IsBetween};
ghost use Rattle.jiff_core.specs.declared.civil.date.Date.{Date};
ghost use Rattle.gi_day.specs.Cycles.{day_start, day_end, first_cycle_start, cycle_start, hour_count, cycle_count, first_hour, IsCycle, IsCovered, IsDue, IsLeastOpen, IsOpen, wait_hours as wait_hours_of};
ghost use Rattle.gi_day.specs.Day.{IsGasYear};

use crate::calendar::CalendarFault;
use crate::gas_day::GasDay;
use std::error::Error;
use std::fmt;
use std::marker::Model;

/// A number of a cycle that the gas day does not have.
#[derive(Clone, Copy, Debug, PartialEq, Eq)]
pub struct NoSuchCycle;

impl fmt::Display for NoSuchCycle {
    ghost output = { λ _. Some (codes "NoSuchCycle") };

    fn fmt<W: fmt::Write>(&self, f: &mut fmt::Formatter<W>) -> fmt::Result {
        f.write_str("NoSuchCycle")
    }
}

impl Error for NoSuchCycle {}

/// A gas day with its hours and its nomination and re-nomination cycles. Moments are whole seconds
/// since 1970-01-01T00:00Z, hours are numbered from 1, and cycles from 0.
#[derive(Clone, Copy, Debug, PartialEq, Eq)]
pub struct DayFrame {
    day: GasDay,
    /// When cycle 0 starts.
    first_cycle: i64,
    /// How many hours later the day starts.
    lead: u8,
    hours: u8,
}

impl Model for DayFrame {
    ghost use Rattle.jiff_core.specs.declared.civil.date.Date.{Date};
    ghost use Rattle.gi_day.specs.Cycles.{first_cycle_start, hour_count};
    ghost use Rattle.gi_day.specs.FrameRepr.{IsFrame, lead_hours, same_frame};

    ghost Value = { Date };

    ghost view = { λ f. f.day };

    ghost invariant = { IsFrame };

    ghost inverse = { λ d. record { day = d; first_cycle = first_cycle_start d; lead = lead_hours d; hours = hour_count d } };

    ghost inverse_ok = { same_frame };
}

const SECONDS_PER_HOUR: i64 = 3600;

fn whole_hours(seconds: i64) -> Option<u8>
    ensures { (hours : ℕ) → hours < 256 → seconds ≡ pos (hours * 3600) → result ≡ Some hours }
{
    if seconds % SECONDS_PER_HOUR != 0 {
        return None;
    }
    u8::try_from(seconds / SECONDS_PER_HOUR).ok()
}

#[tactic(auto, unfolding(crate::specs::Cycles::wait_hours))]
fn wait_hours(cycle: u8) -> i64
    ensures { result ≡ pos (wait_hours_of cycle) }
{
    if cycle == 0 { 0 } else { cycle as i64 + 2 }
}

fn next_after(last_closed: Option<u8>) -> Option<u8>
    ensures { MatchOption result ((cycle : ℕ) → IsOpen last_closed cycle → 255 < cycle) (IsLeastOpen last_closed) }
{
    match last_closed {
        Some(cycle) => cycle.checked_add(1),
        None => Some(0),
    }
}

impl DayFrame {
    /// The frame of a day from the instants of its first cycle, its start and its end: `DayLength`
    /// where these are no whole hours apart, or the day has not 23 to 25 hours, which no gas day
    /// meets.
    pub(crate) fn new(
        day: GasDay,
        first_cycle: i64,
        start: i64,
        end: i64,
    ) -> Result<DayFrame, CalendarFault>
        requires year { IsGasYear day.year }
        requires first_cycle { first_cycle ≡ first_cycle_start day }
        requires start { start ≡ day_start day }
        requires end { end ≡ day_end day }
        ensures { result ≡ Ok day }
    {
        let Some(hours) = whole_hours(end - start) else {
            return Err(CalendarFault::DayLength);
        };
        let Some(lead) = whole_hours(start - first_cycle) else {
            return Err(CalendarFault::DayLength);
        };
        if !(23..=25).contains(&hours) {
            return Err(CalendarFault::DayLength);
        }
        Ok(DayFrame {
            day,
            first_cycle,
            lead,
            hours,
        })
    }

    /// The gas day.
    pub fn day(self) -> GasDay
        ensures { result ≡ self }
    {
        self.day
    }

    /// How many hours the day has: 23, 24 or 25.
    pub fn hours(self) -> u8
        ensures value { result ≡ hour_count self }
        ensures spans { pos (result * 3600) ≡ day_end self -ℤ day_start self }
        ensures in_range { IsInRange 23 25 result }
    {
        self.hours
    }

    /// How many cycles the day has: those from 0 to one less.
    pub fn cycle_count(self) -> u8
        ensures value { result ≡ cycle_count self }
        ensures cycles { (cycle : ℕ) → (cycle < result) ↔ IsCycle self cycle }
        ensures in_range { IsInRange 35 37 result }
    {
        self.lead + self.hours - 4
    }

    /// When the cycle starts, in whole seconds since 1970-01-01T00:00Z; `NoSuchCycle` from
    /// `cycle_count` on.
    pub fn cycle_start(self, cycle: u8) -> Result<i64, NoSuchCycle>
        ensures value { OkIff result (IsCycle self cycle) (cycle_start self cycle) }
        // From 1970 to 2286: far within what the library of dates has.
        ensures in_range { IfOk result (IsBetween (pos 0) (pos 9_999_999_999)) }
    {
        if cycle >= self.cycle_count() {
            return Err(NoSuchCycle);
        }
        Ok(self.first_cycle + wait_hours(cycle) * SECONDS_PER_HOUR)
    }

    /// The first hour that the cycle covers (it covers all further hours of the day too);
    /// `NoSuchCycle` from `cycle_count` on.
    pub fn first_hour(self, cycle: u8) -> Result<u8, NoSuchCycle>
        ensures value { OkIff result (IsCycle self cycle) (first_hour self cycle) }
        ensures covered { IfOk result (λ first. (hour : ℕ) → 1 ≤ hour → (first ≤ hour) ↔ IsCovered self cycle hour) }
        ensures in_range { IfOk result (IsInRange 1 (hour_count self)) }
    {
        if cycle >= self.cycle_count() {
            return Err(NoSuchCycle);
        }
        // Cycle 1 starts three hours after cycle 0, and each covers hours from two hours later on.
        if cycle + 4 < self.lead {
            return Ok(1);
        }
        Ok(cycle + 5 - self.lead)
    }

    /// The least-numbered cycle above the last closed one, where the day has it and it has started
    /// at the moment, in whole seconds since 1970-01-01T00:00Z.
    pub fn due(self, moment: i64, last_closed: Option<u8>) -> Option<u8>
        ensures { MatchOption result ((cycle : ℕ) → ¬ (IsDue self moment last_closed cycle))
            (IsDue self moment last_closed) }
    {
        let Some(next) = next_after(last_closed) else {
            return None;
        };
        let Ok(start) = self.cycle_start(next) else {
            return None;
        };
        if start <= moment { Some(next) } else { None }
    }
}

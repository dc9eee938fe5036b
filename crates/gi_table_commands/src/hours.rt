ghost use Rattle.std.specs.Prelude.{◌≡◌, ◌≤ℤ◌, pos, Err, IfErr, IfOk, string_bytes};
ghost use Rattle.jiff_core.specs.declared.civil.date.Date.{Date as CivilDate};
ghost use Rattle.gi_day.specs.Cycles.{IsCycle, cycle_count};
ghost use Rattle.gi_day.specs.Day.{IsDayText, IsGasYear, IsNoDay};
ghost use Rattle.gi_table_commands.specs.Hours.{AreCycleLines, IsCycleLine, IsFrameText, IsHoursRefused, IsHoursText, cycle_line as line_of};

use crate::fault::Fault;
use gi_day::{Calendar, DayFault, DayFrame, GasDay};
use gi_text::{RightInTwo, TwoDigits};
use jiff::Timestamp;
use jiff::civil::Date;
use jiff::tz::TimeZone;
use std::alloc::{AllocError, Global};

fn line_text(
    alloc: Global,
    cycle: u8,
    date: Date,
    hour: u8,
    minute: u8,
    first: u8,
) -> Result<String, AllocError>
    ensures { IfOk result (λ line. string_bytes line ≡ line_of cycle date hour minute first) }
{
    let cycle = RightInTwo {
        number: u64::from(cycle),
    };
    let first = RightInTwo {
        number: u64::from(first),
    };
    let (hour, minute) = (TwoDigits { number: hour }, TwoDigits { number: minute });
    format!(in alloc; "cycle {cycle} start {date}T{hour}:{minute}Z first {first}\n")
}

fn part(number: i8) -> u8
    requires { pos 0 ≤ℤ number }
    ensures { pos result ≡ number }
{
    number as u8
}

fn cycle_line(alloc: Global, frame: DayFrame, cycle: u8) -> Result<String, AllocError>
    requires { IsCycle frame cycle }
    ensures { IfOk result (λ line. IsCycleLine frame cycle (string_bytes line)) }
{
    let start = frame.cycle_start(cycle).unwrap();
    let start = TimeZone::UTC.to_datetime(Timestamp::from_second(start).unwrap());
    let (hour, minute) = (part(start.hour()), part(start.minute()));
    let first = frame.first_hour(cycle).unwrap();
    line_text(alloc, cycle, start.date(), hour, minute, first)
}

fn cycle_lines(alloc: Global, frame: DayFrame) -> Result<String, AllocError>
    ensures { IfOk result (λ text. AreCycleLines frame (cycle_count frame) (string_bytes text)) }
{
    let mut text = String::new(alloc);
    for cycle in 0..frame.cycle_count() {
        let line = cycle_line(alloc, frame, cycle)?;
        text.push_str(line.as_str())?;
    }
    Ok(text)
}

fn frame_text(alloc: Global, frame: DayFrame) -> Result<String, AllocError>
    ensures { IfOk result (λ text. IsFrameText frame (string_bytes text)) }
{
    let (day, hours, cycles) = (frame.day(), frame.hours(), frame.cycle_count());
    let lines = cycle_lines(alloc, frame)?;
    format!(in alloc; "day {day} hours {hours} cycles {cycles}\n{lines}")
}

/// What `hours` writes for a word: the day that it names with its hours, and a line for each cycle.
/// `Day` where the word is no gas day, `Calendar` where its hours cannot be told (no run answers it),
/// `OutOfMemory`.
pub fn hours_text(alloc: Global, word: &str) -> Result<String, Fault>
    ensures text { IfOk result (λ text. IsHoursText word.now (string_bytes text)) }
    ensures fault { IfErr result (IsHoursRefused word.now) }
    // A word that is no gas day takes no memory.
    ensures no_date { IsNoDay word.now → result ≡ Err (Fault.Day DayFault.DayText) }
    ensures out_of_range { (date : CivilDate) → IsDayText date word.now → ¬ (IsGasYear date.year)
        → result ≡ Err (Fault.Day DayFault.DayRange) }
{
    let day = match GasDay::read(word) {
        Ok(day) => day,
        Err(fault) => return Err(Fault::Day(fault)),
    };
    let frame = Calendar::new()?.frame(day)?;
    match frame_text(alloc, frame) {
        Ok(text) => Ok(text),
        Err(_) => Err(Fault::OutOfMemory),
    }
}

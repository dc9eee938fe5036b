ghost use Rattle.std.specs.Prelude.{◌≡◌, ◌≤ℤ◌, ◌<ℤ◌, ◌*ℤ◌, ◌-ℤ◌, ◌+ℤ◌, ◌++◌, ◌∷◌, [], ℕ, pos, IfOk, MatchOption, OnOk};
ghost use Rattle.jiff_core.specs.Calendar.{IsBetween};
ghost use Rattle.jiff_core.specs.Date.{epoch_day};
ghost use Rattle.gi_day.specs.Day.{IsGasYear};
ghost use Rattle.gi_day.specs.Cycles.{day_start};
ghost use Rattle.gi_moments.specs.Moment.{IsMoment};
ghost use Rattle.gi_moments.specs.Near.{AreDaysFrom, AreNear, IsDayAt};

use crate::moment::Moment;
use gi_day::{Calendar, DayFrame, GasDay};
use jiff::Timestamp;
use jiff::civil::Date;
use jiff::fmt::temporal::DateTimePrinter;
use jiff::tz::Offset;
use std::alloc::{AllocError, Global};

/// The gas day of a date.
fn gas_day(date: Date) -> Option<GasDay>
    ensures { MatchOption result (¬ (IsGasYear date.year)) (λ day. (day ≡ date) × IsGasYear date.year) }
{
    if date.year() < 0 {
        return None;
    }
    let date = date.to_plain();
    let text = DateTimePrinter::new().date_text(date);
    match GasDay::read(text.as_str()) {
        Ok(day) => Some(day),
        Err(_) => None,
    }
}

/// When the day starts, in whole seconds since 1970-01-01T00:00Z.
fn start(frame: DayFrame) -> i64
    ensures { result ≡ day_start frame }
{
    let first = frame.cycle_start(0).unwrap();
    let lead = frame.cycle_count() + 4 - frame.hours();
    first + i64::from(lead) * 3600
}

/// The date that a clock at UTC shows.
fn date(moment: Moment) -> Date
    ensures from { (epoch_day result *ℤ pos 86_400) ≤ℤ moment }
    ensures to { moment <ℤ (epoch_day result *ℤ pos 86_400 +ℤ pos 86_400) }
    ensures year { IsGasYear result.year }
{
    Offset::UTC
        .to_datetime(Timestamp::from_second(moment.second()).unwrap())
        .date()
}

/// The date of the gas day in which the moment lies.
fn today(calendar: &Calendar, moment: Moment) -> Date
    ensures day { IsDayAt moment (epoch_day result) }
    ensures range { IsBetween (pos 10_956) (pos 84_005) (epoch_day result) }
{
    let date = date(moment);
    let day = gas_day(date).unwrap();
    let frame = calendar.frame(day).unwrap();
    if start(frame) <= moment.second() {
        date
    } else {
        date.yesterday().unwrap()
    }
}

/// Adds the gas day of the date, where it is one.
fn add(days: &mut Vec<GasDay>, date: Date) -> Result<(), AllocError>
    ensures day { OnOk result (IsGasYear date.year → days.new.items ≡ days.old.items ++ date ∷ []) }
    ensures none { OnOk result (¬ (IsGasYear date.year) → days.new.items ≡ days.old.items) }
{
    match gas_day(date) {
        Some(day) => {
            days.push(day)?;
            Ok(())
        }
        None => Ok(()),
    }
}

impl Moment {
    ghost use Rattle.std.specs.Prelude.{IfOk};
    ghost use Rattle.gi_moments.specs.Near.{AreNear};

    /// The gas days from the one before that of the moment to two after it, in order: those that are looked at for what is due then.
    pub fn near_days(self, alloc: Global, calendar: &Calendar) -> Result<Vec<GasDay>, AllocError>
        ensures { IfOk result (λ days. AreNear self days.items) }
    {
        let first = today(calendar, self).yesterday().unwrap();
        let second = first.tomorrow().unwrap();
        let third = second.tomorrow().unwrap();
        let fourth = third.tomorrow().unwrap();
        let mut days = Vec::new(alloc);
        add(&mut days, first)?;
        add(&mut days, second)?;
        add(&mut days, third)?;
        add(&mut days, fourth)?;
        Ok(days)
    }
}

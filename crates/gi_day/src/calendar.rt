ghost use Rattle.std.specs.Prelude.{◌≡◌, pos, unsigned_abs, Ok, IsOk, Some};
ghost use Rattle.jiff_core.specs.Date.{epoch_day};
ghost use Rattle.gi_day.specs.Zone.{GivesInstants, instant_at, zone_text};

use crate::day_frame::DayFrame;
use crate::gas_day::GasDay;
use jiff::civil::Date;
use jiff::tz::TimeZone;
use std::error::Error;
use std::fmt;
use std::marker::Model;

/// Why there is no calendar or no frame. With the rule text of this zone no call answers any of
/// these, which the contracts say.
#[derive(Clone, Copy, Debug, PartialEq, Eq)]
pub enum CalendarFault {
    /// The rule text of the zone was refused.
    ZoneRefused,
    /// The day has no whole 23, 24 or 25 hours.
    DayLength,
    /// Memory ran out.
    OutOfMemory,
}

impl fmt::Display for CalendarFault {
    ghost use Rattle.gi_day.specs.CalendarText.{fault_text};

    ghost output = { λ fault. Some (fault_text fault) };

    fn fmt<W: fmt::Write>(&self, f: &mut fmt::Formatter<W>) -> fmt::Result {
        f.write_str(match self {
            CalendarFault::ZoneRefused => "ZoneRefused",
            CalendarFault::DayLength => "DayLength",
            CalendarFault::OutOfMemory => "OutOfMemory",
        })
    }
}

impl Error for CalendarFault {}

/// The rule text of the zone in which gas days are reckoned: Central European time.
const ZONE_TEXT: &str = "CET-1CEST,M3.5.0,M10.5.0/3";

/// The clock by which gas days start, 06:00 of Central European time.
#[derive(Drop)]
pub struct Calendar {
    zone: jiff_tz::TimeZone<'static>,
}

impl Model for Calendar {
    ghost use Rattle.std.specs.Prelude.{⊤};
    ghost use Rattle.jiff.specs.Placed.{IsPosixZone};
    ghost use Rattle.gi_day.specs.Zone.{zone_text};

    ghost Value = { ⊤ };

    ghost view = { λ _. tt };

    ghost invariant = { λ c. IsPosixZone zone_text c.zone };
}

impl Calendar {
    ghost use Rattle.jiff.specs.Placed.{IsPosixZone};
    ghost use Rattle.jiff.specs.ZoneView.{plain_zone};
    ghost use Rattle.gi_day.specs.Day.{IsClose};
    ghost use Rattle.jiff_core.specs.Calendar.{IsBetween};

    /// The calendar of gas days.
    pub fn new() -> Result<Calendar, CalendarFault>
        ensures succeeds { IsOk result }
        ensures instants { GivesInstants zone_text instant_at }
    {
        match TimeZone::posix(ZONE_TEXT) {
            Ok(zone) => Ok(Calendar {
                zone: zone.to_plain(),
            }),
            Err(_) => Err(CalendarFault::ZoneRefused),
        }
    }

    /// The same calendar again.
    pub fn copy(&self) -> Result<Calendar, CalendarFault>
        ensures { result ≡ Ok self.now }
    {
        Ok(Calendar { zone: self.zone })
    }

    fn zone(&self) -> TimeZone<'static>
        ensures { IsPosixZone zone_text (plain_zone result) }
    {
        TimeZone::from_plain(self.zone)
    }

    fn instant(&self, date: Date, hour: i8) -> Result<i64, CalendarFault>
        requires close { IsClose date }
        requires hour { IsBetween (pos 0) (pos 23) hour }
        ensures { result ≡ Ok (instant_at (epoch_day date) (unsigned_abs hour)) }
    {
        match self.zone().to_timestamp(date.at(hour, 0, 0, 0)) {
            Ok(instant) => Ok(instant.as_second()),
            Err(_) => Err(CalendarFault::DayLength),
        }
    }

    /// The frame of a gas day: its hours and its cycles.
    pub fn frame(&self, day: GasDay) -> Result<DayFrame, CalendarFault>
        ensures { result ≡ Ok day }
    {
        let date = day.date();
        let Ok(before) = date.yesterday() else {
            return Err(CalendarFault::DayLength);
        };
        let Ok(after) = date.tomorrow() else {
            return Err(CalendarFault::DayLength);
        };
        let first_cycle = self.instant(before, 14)?;
        let start = self.instant(date, 6)?;
        let end = self.instant(after, 6)?;
        DayFrame::new(day, first_cycle, start, end)
    }
}

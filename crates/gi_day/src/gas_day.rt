ghost use Rattle.std.specs.Prelude.{◌≡◌, ◌↔◌, IsTrue, Some, MatchOption};
ghost use Rattle.gi_day.specs.Day.{IsDayText, IsGasYear, IsNoDay};

use jiff::civil::Date;
use jiff::fmt::temporal::DateTimePrinter;
use jiff_core::civil;
use std::error::Error;
use std::fmt;
use std::marker::Model;

/// Why a text is not a gas day.
#[derive(Clone, Copy, Debug, PartialEq, Eq)]
pub enum DayFault {
    /// The text is not exactly `YYYY-MM-DD` of a date of the calendar.
    DayText,
    /// The date lies before 2000-01-01 or after 2199-12-31.
    DayRange,
}

impl fmt::Display for DayFault {
    ghost use Rattle.gi_day.specs.Read.{fault_text};

    ghost output = { λ fault. Some (fault_text fault) };

    fn fmt<W: fmt::Write>(&self, f: &mut fmt::Formatter<W>) -> fmt::Result {
        f.write_str(match self {
            DayFault::DayText => "DayText",
            DayFault::DayRange => "DayRange",
        })
    }
}

impl Error for DayFault {}

/// A gas day, named by the date on which it starts, from 2000-01-01 to 2199-12-31. Days are
/// ordered as their dates, and printed as they are read.
#[derive(Clone, Copy, Debug, PartialEq, Eq, PartialOrd, Ord)]
pub struct GasDay {
    date: civil::Date,
}

impl Model for GasDay {
    ghost use Rattle.jiff_core.specs.declared.civil.date.Date.{Date};
    ghost use Rattle.gi_day.specs.Day.{IsGasYear};

    ghost Value = { Date };

    ghost view = { λ d. d.date };

    ghost invariant = { λ d. IsGasYear d.date.year };

    ghost inverse = { λ d. record { date = d } };
}

fn is_gas_year(year: i16) -> bool
    ensures { IsTrue result ↔ IsGasYear year }
{
    2000 <= year && year <= 2199
}

fn date_of(text: &str) -> Option<civil::Date>
    ensures { MatchOption result (IsNoDay text.now) (λ date. IsDayText date text.now) }
{
    let Ok(date) = text.parse::<Date>() else {
        return None;
    };
    if date.year() < 0 {
        return None;
    }
    // The parser also takes other forms of a date, and a date with a time.
    let date = date.to_plain();
    let written = DateTimePrinter::new().date_text(date);
    if written.as_str() != text {
        return None;
    }
    Some(date)
}

impl GasDay {
    ghost use Rattle.jiff_core.specs.declared.civil.date.Date.{Date};
    ghost use Rattle.gi_day.specs.Day.{IsGasYear, day_text};
    ghost use Rattle.gi_day.specs.Read.{IsDayRead};

    /// The day that a text `YYYY-MM-DD` names: `DayText` where it is no such text of a date of the
    /// calendar, else `DayRange` where the date is no gas day.
    pub fn read(text: &str) -> Result<GasDay, DayFault>
        ensures exact { IsDayRead text.now result }
        // What a day prints reads as that day.
        ensures again { (day : Date) → IsGasYear day.year → text.now ≡ day_text day → result ≡ Ok day }
    {
        let Some(date) = date_of(text) else {
            return Err(DayFault::DayText);
        };
        if is_gas_year(date.year) {
            Ok(GasDay { date })
        } else {
            Err(DayFault::DayRange)
        }
    }

    pub(crate) fn date(self) -> Date
        ensures date { result ≡ self }
        ensures year { IsGasYear result.year }
    {
        Date::from_plain(self.date)
    }

    /// Every gas day lies in the years 2000 to 2199.
    pub fn reveal_invariant(self)
        ensures { IsGasYear self.year }
    {}
}

impl fmt::Display for GasDay {
    ghost use Rattle.gi_day.specs.Day.{day_text};

    ghost output = { λ d. Some (day_text d) };

    fn fmt<W: fmt::Write>(&self, f: &mut fmt::Formatter<W>) -> fmt::Result {
        let date = self.date();
        write!(f, "{date}")
    }
}

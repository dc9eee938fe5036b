ghost use Rattle.std.specs.Prelude.{◌≡◌, ◌<◌, ◌++◌, ◌∷◌, [], ℕ, ℤ, MatchOption};
ghost use Rattle.jiff_core.specs.declared.civil.date.Date.{Date as CivilDate};
ghost use Rattle.jiff_fmt.specs.Text.{pad2};
ghost use Rattle.gi_day.specs.Day.{IsGasYear, day_text};
ghost use Rattle.gi_moments.specs.Moment.{IsMinute, IsMoment, IsMomentText, clock_text, moment_of};

use gi_day::GasDay;
use jiff::civil::Date;
use jiff::tz::Offset;
use std::marker::Model;

/// A moment, in whole seconds since 1970-01-01T00:00Z, from 2000-01-01 to the end of 2199 at UTC.
#[derive(Clone, Copy, Debug, PartialEq, Eq)]
pub struct Moment {
    second: i64,
}

impl Model for Moment {
    ghost use Rattle.std.specs.Prelude.{ℤ};
    ghost use Rattle.gi_moments.specs.Moment.{IsMoment};

    ghost Value = { ℤ };

    ghost view = { λ m. m.second };

    ghost invariant = { λ m. IsMoment m.second };

    ghost inverse = { λ m. record { second = m } };
}

/// The number of two digits.
fn number(tens: u8, ones: u8) -> Option<u8>
    ensures { MatchOption result ((n : ℕ) → n < 100 → ¬ (tens ∷ ones ∷ [] ≡ pad2 n)) (λ n. (n < 100) × (tens ∷ ones ∷ [] ≡ pad2 n)) }
{
    if tens.is_ascii_digit() && ones.is_ascii_digit() {
        Some((tens - b'0') * 10 + (ones - b'0'))
    } else {
        None
    }
}

/// The hour and the minute of a text `T13:00Z`.
fn clock(text: &[u8]) -> Option<(u8, u8)>
    ensures { MatchOption result ((hour minute : ℕ) → IsMinute hour minute → ¬ (text.now ≡ clock_text hour minute)) (λ it. IsMinute it.0 it.1 × (text.now ≡ clock_text it.0 it.1)) }
{
    let [b'T', a, b, b':', c, d, b'Z'] = text else {
        return None;
    };
    let hour = number(*a, *b)?;
    let minute = number(*c, *d)?;
    if hour < 24 && minute < 60 {
        Some((hour, minute))
    } else {
        None
    }
}

/// The date of a gas day's text.
fn date(text: &str) -> Option<Date>
    ensures { MatchOption result ((date : CivilDate) → IsGasYear date.year → ¬ (text.now ≡ day_text date)) (λ date. IsGasYear date.year × (text.now ≡ day_text date)) }
{
    match GasDay::read(text) {
        Ok(_) => {}
        Err(_) => return None,
    }
    match text.parse::<Date>() {
        Ok(date) => Some(date),
        Err(_) => None,
    }
}

/// When a clock at UTC shows it.
fn second(date: Date, hour: u8, minute: u8) -> i64
    requires year { IsGasYear date.year }
    requires minute { IsMinute hour minute }
    ensures value { result ≡ moment_of date hour minute }
    ensures range { IsMoment result }
{
    match Offset::UTC.to_timestamp(date.at(hour as i8, minute as i8, 0, 0)) {
        Ok(instant) => instant.as_second(),
        Err(_) => unreachable!(),
    }
}

/// How many bytes a gas day's text has.
const DAY_LEN: usize = 10;

impl Moment {
    ghost use Rattle.std.specs.Prelude.{ℤ, MatchOption};
    ghost use Rattle.gi_moments.specs.Moment.{IsMoment, IsMomentText};

    /// The moment that a text `2026-01-15T13:00Z` names, from 2000 to 2199.
    pub fn read(text: &str) -> Option<Moment>
        ensures { MatchOption result ((moment : ℤ) → ¬ IsMomentText text.now moment) (IsMomentText text.now) }
    {
        let (day, time) = text.split_at_checked(DAY_LEN)?;
        let date = date(day)?;
        let (hour, minute) = clock(time.as_bytes())?;
        Some(Moment {
            second: second(date, hour, minute),
        })
    }

    /// In whole seconds since 1970-01-01T00:00Z.
    pub fn second(self) -> i64
        ensures value { result ≡ self }
        ensures range { IsMoment result }
    {
        self.second
    }
}

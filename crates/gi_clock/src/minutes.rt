//! The line of a minute.

ghost use Rattle.std.specs.Prelude.{◌≡◌, ◌<◌, ◌++◌, ◌≤ℤ◌, pos, IfOk, MatchOption, OnOk, codes};
ghost use Rattle.jiff_fmt.specs.Text.{pad2};
ghost use Rattle.gi_day.specs.Day.{day_text};
ghost use Rattle.gi_moments.specs.Moment.{clock_text};
ghost use Rattle.gi_clock.specs.Minutes.{IsMinute, IsMinuteLine};

use jiff::Timestamp;
use jiff::civil::Date;
use jiff::tz::Offset;
use std::alloc::{AllocError, Global};

/// The first minute of 2000 and that of 2200, counted from 1970-01-01T00:00Z.
const FIRST: u64 = 15_778_080;

const END: u64 = 120_968_640;

fn add_digits(text: &mut Vec<u8>, number: u8) -> Result<(), AllocError>
    requires { number < 100 }
    ensures { OnOk result (text.new.items ≡ text.old.items ++ pad2 number) }
{
    text.push(b'0' + number / 10)?;
    text.push(b'0' + number % 10)?;
    Ok(())
}

/// `T13:00Z`.
fn add_clock(text: &mut Vec<u8>, hour: u8, minute: u8) -> Result<(), AllocError>
    requires hour { hour < 100 }
    requires minute { minute < 100 }
    ensures { OnOk result (text.new.items ≡ text.old.items ++ clock_text hour minute) }
{
    text.push(b'T')?;
    add_digits(text, hour)?;
    text.push(b':')?;
    add_digits(text, minute)?;
    text.push(b'Z')?;
    Ok(())
}

fn part(number: i8) -> u8
    requires { pos 0 ≤ℤ number }
    ensures { pos result ≡ number }
{
    number as u8
}

fn line_text(alloc: Global, date: Date, hour: u8, minute: u8) -> Result<Vec<u8>, AllocError>
    requires hour { hour < 100 }
    requires minute { minute < 100 }
    ensures { IfOk result (λ line. line.items ≡ codes "due " ++ ((day_text date ++ clock_text hour minute) ++ codes "\n")) }
{
    let mut line = format!(in alloc; "due {date}")?.into_bytes();
    add_clock(&mut line, hour, minute)?;
    line.extend_from_slice(b"\n")?;
    Ok(line)
}

fn shown_line(alloc: Global, minute: u64) -> Result<Vec<u8>, AllocError>
    requires { IsMinute minute }
    ensures { IfOk result (λ line. IsMinuteLine minute line.items) }
{
    let seconds = (60 * minute) as i64;
    let shown = Offset::UTC.to_datetime(Timestamp::from_second(seconds).unwrap());
    let (hour, minute) = (part(shown.hour()), part(shown.minute()));
    line_text(alloc, shown.date(), hour, minute)
}

/// `due 2026-01-15T13:00Z` with its line feed, of a minute counted from 1970-01-01T00:00Z; `None` before 2000 and from 2200 on.
pub fn minute_line(alloc: Global, minute: u64) -> Result<Option<Vec<u8>>, AllocError>
    ensures { IfOk result (λ line. MatchOption line (¬ IsMinute minute) (λ line. IsMinute minute × IsMinuteLine minute line.items)) }
{
    if minute < FIRST || minute >= END {
        return Ok(None);
    }
    match shown_line(alloc, minute) {
        Ok(line) => Ok(Some(line)),
        Err(fault) => Err(fault),
    }
}

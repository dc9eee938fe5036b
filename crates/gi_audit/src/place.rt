//! Where a table that a side met and the one that its peer wrote differ first.

ghost use Rattle.std.specs.Prelude.{◌≡◌, Some};
ghost use Rattle.std.specs.Option.{option_copied};
ghost use Rattle.gi_audit.specs.Place.{differs_in as differs_in_of, differing_hour as differing_hour_of, first_place as first_place_of, hour_at as hour_at_of, hour_text, key_at as key_at_of, lower_key as lower_key_of, place_text};

use gi_desk::difference;
use gi_pairs::{Key, LAST_HOUR, Row, Table};
use std::cmp::Ordering;
use std::fmt;

/// The first hour of a row in which two tables read another quantity, and what both read.
#[derive(Clone, Copy)]
pub(crate) struct HourDifference {
    /// From 1.
    pub hour: u8,
    /// What the table that was met reads, in kWh/h.
    pub met: u64,
    /// What the table that was written reads.
    pub written: u64,
}

impl fmt::Display for HourDifference {
    ghost output = { λ differs. Some (hour_text differs) };

    fn fmt<W: fmt::Write>(&self, f: &mut fmt::Formatter<W>) -> fmt::Result {
        let (hour, met, written) = (self.hour, self.met, self.written);
        write!(f, " {hour} met {met} written {written}")
    }
}

/// The first row in which two tables differ, and there the first hour: none where both read alike,
/// as where a row of zeros is missing.
#[derive(Clone, Copy)]
pub(crate) struct Place {
    pub key: Key,
    pub hour: Option<HourDifference>,
}

impl fmt::Display for Place {
    ghost output = { λ place. Some (place_text place) };

    fn fmt<W: fmt::Write>(&self, f: &mut fmt::Formatter<W>) -> fmt::Result {
        let (pair, direction) = (self.key.pair, self.key.direction);
        let (initiating, matching) = (pair.initiating, pair.matching);
        write!(f, " at {initiating} {matching} {direction}")?;
        match self.hour {
            Some(differs) => write!(f, "{differs}"),
            None => Ok(()),
        }
    }
}

fn lower_key(met: Option<&Row>, written: Option<&Row>) -> Option<Key>
    ensures { result ≡ lower_key_of (option_copied met.entry) (option_copied written.entry) }
{
    match (met, written) {
        (Some(met), Some(written)) => {
            if written.key().cmp(&met.key()) == Ordering::Less {
                Some(written.key())
            } else {
                Some(met.key())
            }
        }
        (Some(row), None) | (None, Some(row)) => Some(row.key()),
        (None, None) => None,
    }
}

/// What the first row that differs is for.
fn key_at(met: &Table, written: &Table) -> Option<Key>
    ensures { result ≡ key_at_of met.now written.now }
{
    let (rows, others) = (met.rows(), written.rows());
    let Some(number) = difference(rows, others) else {
        return None;
    };
    let before = number.saturating_sub(1) as usize;
    lower_key(rows.get(before), others.get(before))
}

fn differs_in(met: &Table, written: &Table, key: &Key, hour: u8) -> bool
    ensures { result ≡ differs_in_of met.now written.now key.now hour }
{
    met.at(key.pair, key.direction, hour) != written.at(key.pair, key.direction, hour)
}

fn differing_hour(met: &Table, written: &Table, key: &Key) -> Option<u8>
    ensures { result ≡ differing_hour_of met.now written.now key.now }
{
    for hour in 1..=LAST_HOUR {
        if differs_in(met, written, key, hour) {
            return Some(hour);
        }
    }
    None
}

fn hour_at(met: &Table, written: &Table, key: &Key) -> Option<HourDifference>
    ensures { result ≡ hour_at_of met.now written.now key.now }
{
    let hour = differing_hour(met, written, key)?;
    Some(HourDifference {
        hour,
        met: met.at(key.pair, key.direction, hour),
        written: written.at(key.pair, key.direction, hour),
    })
}

/// The first row in which the tables differ, with its first hour that does: none where they have
/// the same rows.
pub(crate) fn first_place(met: &Table, written: &Table) -> Option<Place>
    ensures { result ≡ first_place_of met.now written.now }
{
    let key = key_at(met, written)?;
    let hour = hour_at(met, written, &key);
    Some(Place { key, hour })
}

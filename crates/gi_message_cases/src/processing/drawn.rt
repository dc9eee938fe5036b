//! Nominations of a day of 24 hours that are drawn, the same one by the same number.

ghost use Rattle.std.specs.Prelude.{◌<◌};

use crate::processing::reducing::{OTHERS, add_line};
use std::alloc::{AllocError, Global};
use std::fmt::Write;

/// The nomination of a number: so many lines, at most 6, and quantities up to the most.
#[derive(Clone, Copy)]
pub struct Drawn {
    pub number: u64,
    pub count: usize,
    pub most: u64,
}

/// A number that is mixed of two, so that it looks drawn (splitmix64).
fn mixed(number: u64, what: u64) -> u64 {
    let begun = number
        .wrapping_mul(0x0000_0100_0000_01B3)
        .wrapping_add(what)
        .wrapping_mul(0x9E37_79B9_7F4A_7C15);
    let once = (begun ^ begun >> 30).wrapping_mul(0xBF58_476D_1CE4_E5B9);
    let twice = (once ^ once >> 27).wrapping_mul(0x94D0_49BB_1331_11EB);
    twice ^ twice >> 31
}

impl Drawn {
    /// What is drawn of the numbers below a bound, 0 of none.
    fn below(self, bound: u64, what: u64) -> u64 {
        mixed(self.number, what).checked_rem(bound).unwrap_or(0)
    }

    /// What is available, half of it firm: at most what all lines may have.
    pub(crate) fn available(self) -> u64 {
        let lines = u64::try_from(self.count).unwrap_or(0);
        self.below(self.most.wrapping_mul(lines).wrapping_add(1), 0)
    }

    /// The priority at a place in order of counterparty, from 1 to 9: one of so many kinds, which are
    /// drawn first.
    pub(crate) fn priority(self, place: usize) -> u8 {
        let place = u64::try_from(place).unwrap_or(0);
        let kind = self.below(self.below(9, 1).wrapping_add(1), place.wrapping_add(10));
        let drawn = self.below(9, 2).wrapping_add(kind) % 9;
        u8::try_from(drawn).unwrap_or(0).wrapping_add(1)
    }

    /// The quantity in an hour, counted from 0, at a place in order of counterparty; 0 where there is no
    /// line.
    pub(crate) fn quantity(self, place: usize, hour: usize) -> u64 {
        if place >= self.count {
            return 0;
        }
        let what = place.wrapping_mul(100).wrapping_add(hour).wrapping_add(100);
        self.below(self.most.wrapping_add(1), u64::try_from(what).unwrap_or(0))
    }

    /// The quantities at a place, with commas between them.
    fn hours(self, alloc: Global, place: usize) -> Result<String, AllocError> {
        let mut hours = String::new(alloc);
        for hour in 0..24 {
            let comma = if hour > 0 { "," } else { "" };
            write!(hours, "{comma}{}", self.quantity(place, hour))?;
        }
        Ok(hours)
    }

    /// Adds the line at a place.
    fn add_line(self, alloc: Global, place: usize, lines: &mut String) -> Result<(), AllocError>
        requires { place < 6 }
    {
        let hours = self.hours(alloc, place)?;
        let priority = format!(in alloc; "{}", self.priority(place))?;
        add_line(
            OTHERS[place],
            "IM",
            hours.as_str(),
            priority.as_str(),
            lines,
        )
    }

    /// The lines in `IM`, as JSON text, in an order that begins with any of them.
    pub(crate) fn lines(self, alloc: Global) -> Result<String, AllocError> {
        let mut lines = String::new(alloc);
        let count = self.count.min(6);
        let first = self.first();
        for i in 0..count {
            self.add_line(alloc, (first + i) % count, &mut lines)?;
        }
        Ok(lines)
    }

    /// The place of the line that stands first.
    fn first(self) -> usize
        ensures { result < 6 }
    {
        usize::try_from(self.below(6, 3)).unwrap_or(0) % 6
    }
}

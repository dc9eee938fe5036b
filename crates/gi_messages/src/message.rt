ghost use Rattle.std.specs.Prelude.{◌≡◌, IfOk};

use crate::line::Line;
use crate::lines::Lines;
use crate::nomination_line::NominationLine;
use gi_day::GasDay;
use gi_pairs::{Code, Table};
use std::alloc::AllocError;

/// How many bytes a message has at most.
pub const MOST_BYTES: usize = 16_777_216;

/// How many elements the array `processed` of a message has at most.
pub const MOST_PROCESSED_ELEMENTS: usize = 4096;

/// How many elements its array `confirmed` has at most.
pub const MOST_CONFIRMED_ELEMENTS: usize = 8192;

/// How many parts an order or a response comes in at most.
pub const MOST_PARTS: u8 = 66;

/// How many elements each array of one of several parts has at most.
pub const MOST_PART_ELEMENTS: usize = 1000;

/// The highest number of a cycle.
pub const LAST_CYCLE: u8 = 36;

/// The highest version of a nomination.
pub const LAST_VERSION: u32 = 999_999_999;

/// What a shipper nominates: all lines of one portfolio for one gas day, in both directions. No
/// lines at all withdraw what was nominated.
#[derive(Drop, PartialEq, Eq)]
pub struct Nomint {
    pub point: Code,
    pub portfolio: Code,
    pub day: GasDay,
    /// From 1 to 999,999,999.
    pub version: u32,
    pub lines: Lines<NominationLine>,
}

impl Nomint {
    /// An equal nomination.
    pub fn copy(&self) -> Result<Nomint, AllocError>
        ensures { IfOk result (λ nomination. nomination ≡ self.now) }
    {
        Ok(Nomint {
            point: self.point,
            portfolio: self.portfolio,
            day: self.day,
            version: self.version,
            lines: self.lines.copy()?,
        })
    }
}

/// What an operator answers when a nomination is recorded and saved.
#[derive(Clone, Copy, Debug, PartialEq, Eq)]
pub struct Acknow {
    pub point: Code,
    pub portfolio: Code,
    pub day: GasDay,
    /// That of the nomination, from 1 to 999,999,999.
    pub version: u32,
}

/// What an operator tells a portfolio: its confirmed quantities of a cycle.
#[derive(Drop)]
pub struct Nomres {
    pub point: Code,
    pub portfolio: Code,
    pub day: GasDay,
    /// From 0 to 36.
    pub cycle: u8,
    /// The first hour that the lines cover, from 1.
    pub first: u8,
    /// The last hour that they cover, at most 25.
    pub last: u8,
    /// One quantity for each covered hour.
    pub lines: Lines<Line>,
}

/// What the initiating operator sends to the matching one: its processed quantities of a cycle.
#[derive(Drop)]
pub struct Delord {
    pub point: Code,
    pub day: GasDay,
    /// From 0 to 36.
    pub cycle: u8,
    /// In how many parts it comes, from 1 to 66.
    pub parts: u8,
    /// Which of them this is, from 1.
    pub part: u8,
    /// At most 4,096 rows, or 1,000 in one of several parts.
    pub processed: Table,
}

/// What the matching operator answers: its own processed quantities and the confirmed ones, both
/// for the same hours.
#[derive(Drop)]
pub struct Delres {
    pub point: Code,
    pub day: GasDay,
    /// From 0 to 36.
    pub cycle: u8,
    /// In how many parts it comes, from 1 to 66.
    pub parts: u8,
    /// Which of them this is, from 1.
    pub part: u8,
    /// At most 4,096 rows, or 1,000 in one of several parts.
    pub processed: Table,
    /// At most 8,192 rows, or 1,000 in one of several parts, for the same hours as the processed
    /// ones.
    pub confirmed: Table,
}

/// A message between an operator and a shipper, or between the two operators.
#[derive(Drop)]
pub enum Message {
    Nomint(Nomint),
    Acknow(Acknow),
    Nomres(Nomres),
    Delord(Delord),
    Delres(Delres),
}

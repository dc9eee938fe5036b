ghost use Rattle.std.specs.Prelude.{Some};

use std::error::Error;
use std::fmt;

/// The first difference between what a seat noted and the trail of its office, by seat and then by
/// place in the seat's list.
#[derive(Clone, Copy, Debug, PartialEq, Eq)]
pub struct Unsettled {
    /// The seat's number, from 1.
    pub seat: u8,
    /// From 1; 0 where the seat is missing.
    pub place: u64,
}

impl fmt::Display for Unsettled {
    ghost use Rattle.gi_office.specs.FaultText.{unsettled_text};

    ghost output = { λ fault. Some (unsettled_text fault) };

    fn fmt<W: fmt::Write>(&self, f: &mut fmt::Formatter<W>) -> fmt::Result {
        write!(f, "Unsettled {} {}", self.seat, self.place)
    }
}

impl Error for Unsettled {}

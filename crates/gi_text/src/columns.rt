//! Numbers in columns.

ghost use Rattle.std.specs.Prelude.{Some};
ghost use Rattle.gi_text.specs.Columns.{right_in, two_digits};

use std::fmt;

/// A number that is printed right in two places.
#[derive(Clone, Copy)]
pub struct RightInTwo {
    pub number: u64,
}

impl fmt::Display for RightInTwo {
    ghost output = { λ n. Some (right_in 2 n.number) };

    fn fmt<W: fmt::Write>(&self, f: &mut fmt::Formatter<W>) -> fmt::Result {
        let number = self.number;
        write!(f, "{number:>2}")
    }
}

/// A number that is printed in two digits, the first a zero where it is below 10.
#[derive(Clone, Copy)]
pub struct TwoDigits {
    pub number: u8,
}

impl fmt::Display for TwoDigits {
    ghost output = { λ n. Some (two_digits n.number) };

    fn fmt<W: fmt::Write>(&self, f: &mut fmt::Formatter<W>) -> fmt::Result {
        let number = self.number;
        write!(f, "{number:02}")
    }
}

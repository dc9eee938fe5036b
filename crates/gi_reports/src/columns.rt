//! The columns of a report.

ghost use Rattle.std.specs.Prelude.{◌≡◌, ◌≤◌, Some, length};
ghost use Rattle.std.specs.Str.{IsAscii};
ghost use Rattle.gi_reports.specs.Columns.{left_in, name_of};
ghost use Rattle.gi_text.specs.Columns.{right_in};

use gi_pairs::Code;
use std::fmt;

/// A number that is printed right in six places.
#[derive(Clone, Copy)]
pub(crate) struct RightInSix {
    pub number: u64,
}

impl fmt::Display for RightInSix {
    ghost output = { λ n. Some (right_in 6 n.number) };

    fn fmt<W: fmt::Write>(&self, f: &mut fmt::Formatter<W>) -> fmt::Result {
        let number = self.number;
        write!(f, "{number:>6}")
    }
}

/// A number that is printed right in twelve places.
#[derive(Clone, Copy)]
pub(crate) struct RightInTwelve {
    pub number: u64,
}

impl fmt::Display for RightInTwelve {
    ghost output = { λ n. Some (right_in 12 n.number) };

    fn fmt<W: fmt::Write>(&self, f: &mut fmt::Formatter<W>) -> fmt::Result {
        let number = self.number;
        write!(f, "{number:>12}")
    }
}

/// A code that is printed left in sixteen places, and `?` where there is none.
#[derive(Clone, Copy)]
pub(crate) struct LeftInSixteen {
    pub code: Option<Code>,
}

impl LeftInSixteen {
    fn name(&self) -> &str
        ensures value { result.now ≡ name_of self.now.code }
        ensures ascii { IsAscii result.now }
        ensures short { length result.now ≤ 16 }
    {
        match &self.code {
            Some(code) => code.as_str(),
            None => "?",
        }
    }
}

impl fmt::Display for LeftInSixteen {
    ghost output = { λ n. Some (left_in 16 (name_of n.code)) };

    fn fmt<W: fmt::Write>(&self, f: &mut fmt::Formatter<W>) -> fmt::Result {
        let name = self.name();
        write!(f, "{name:<16}")
    }
}

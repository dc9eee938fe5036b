//! The columns of a schedule in text.

ghost use Rattle.std.specs.Prelude.{◌≡◌, ◌≤◌, Some, length};
ghost use Rattle.std.specs.Fmt.{signed_decimal};
ghost use Rattle.std.specs.Str.{IsAscii};
ghost use Rattle.gi_reports.specs.Columns.{left_in};
ghost use Rattle.gi_text.specs.Columns.{right_in};
ghost use Rattle.gi_schedule.specs.Columns.{code_or_all, flow_column, number_column, right_of};

use crate::schedule_line::Flow;
use gi_pairs::{Code, Direction};
use gi_text::RightInTwo;
use std::fmt;

/// A number that is printed right in two places, and `*` there where there is none.
#[derive(Clone, Copy)]
pub(crate) struct NumberInTwo {
    pub number: Option<u8>,
}

impl fmt::Display for NumberInTwo {
    ghost output = { λ n. Some (number_column n.number) };

    fn fmt<W: fmt::Write>(&self, f: &mut fmt::Formatter<W>) -> fmt::Result {
        match self.number {
            Some(number) => {
                let number = RightInTwo {
                    number: u64::from(number),
                };
                write!(f, "{number}")
            }
            None => f.write_str(" *"),
        }
    }
}

/// Which way gas goes, left in three places.
#[derive(Clone, Copy)]
pub(crate) struct FlowInThree {
    pub flow: Flow,
}

impl fmt::Display for FlowInThree {
    ghost output = { λ f. Some (flow_column f.flow) };

    fn fmt<W: fmt::Write>(&self, f: &mut fmt::Formatter<W>) -> fmt::Result {
        f.write_str(match self.flow {
            Flow::Gross(Direction::IM) => "IM ",
            Flow::Gross(Direction::MI) => "MI ",
            Flow::Net => "net",
        })
    }
}

/// A code that is printed left in sixteen places, and `*` there where there is none.
#[derive(Clone, Copy)]
pub(crate) struct CodeInSixteen {
    pub code: Option<Code>,
}

impl CodeInSixteen {
    fn name(&self) -> &str
        ensures value { result.now ≡ code_or_all self.now.code }
        ensures ascii { IsAscii result.now }
        ensures short { length result.now ≤ 16 }
    {
        match &self.code {
            Some(code) => code.as_str(),
            None => "*",
        }
    }
}

impl fmt::Display for CodeInSixteen {
    ghost output = { λ n. Some (left_in 16 (code_or_all n.code)) };

    fn fmt<W: fmt::Write>(&self, f: &mut fmt::Formatter<W>) -> fmt::Result {
        let name = self.name();
        write!(f, "{name:<16}")
    }
}

/// A number that is printed right in twelve places.
#[derive(Clone, Copy)]
pub struct SignedInTwelve {
    pub number: i64,
}

impl fmt::Display for SignedInTwelve {
    ghost output = { λ n. Some (right_of 12 (signed_decimal n.number)) };

    fn fmt<W: fmt::Write>(&self, f: &mut fmt::Formatter<W>) -> fmt::Result {
        let signed = self.number;
        write!(f, "{signed:>12}")
    }
}

/// A quantity that is printed right in twelve places.
#[derive(Clone, Copy)]
pub struct RightInTwelve {
    pub number: u64,
}

impl fmt::Display for RightInTwelve {
    ghost output = { λ n. Some (right_in 12 n.number) };

    fn fmt<W: fmt::Write>(&self, f: &mut fmt::Formatter<W>) -> fmt::Result {
        let number = self.number;
        write!(f, "{number:>12}")
    }
}

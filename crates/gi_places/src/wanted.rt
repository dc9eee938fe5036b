use gi_day::GasDay;
use gi_pairs::{Code, Direction, Quantity, Side};
use std::fmt;

/// What a word of a script or of a command line, or a value of a message has to be.
#[derive(Clone, Copy, PartialEq, Eq)]
pub enum Wanted {
    Side,
    Code,
    Day,
    Direction,
    /// In kWh/h.
    Quantity,
    Cycle,
    Hour,
    /// Of a capacity, in thousandths.
    Share,
    Number,
    Count,
    /// It may be missing.
    Rule,
    Move,
    Command,
    Message,
    /// In a message, with these bounds.
    Whole { least: u64, most: u64 },
    /// The rows of a table, at most so many.
    Rows { most: usize },
    /// The lines of a nomination.
    Lines,
    Row,
    /// The quantities of a row.
    Hours,
    Kind,
    /// A message that is not one part of several.
    OnePart,
}

/// Whether the word is a number with these bounds, in digits alone.
fn is_number(word: &str, least: u64, most: u64) -> bool {
    if word.starts_with('+') {
        return false;
    }
    match word.parse::<u64>() {
        Ok(number) => least <= number && number <= most,
        Err(_) => false,
    }
}

impl Wanted {
    pub(crate) fn fits(self, word: &str) -> bool {
        match self {
            Wanted::Side => word.parse::<Side>().is_ok(),
            Wanted::Code => Code::read(word).is_ok(),
            Wanted::Day => GasDay::read(word).is_ok(),
            Wanted::Direction => word.parse::<Direction>().is_ok(),
            Wanted::Quantity => is_number(word, 0, Quantity::MAX),
            Wanted::Cycle | Wanted::Hour => is_number(word, 0, 255),
            Wanted::Share => is_number(word, 0, 65_535),
            Wanted::Number => is_number(word, 0, 4_294_967_295),
            Wanted::Count => is_number(word, 1, 1_000_000),
            Wanted::Rule => matches!(word, "1" | "2"),
            Wanted::Move => matches!(word, "pass" | "drop" | "repeat" | "hold"),
            Wanted::Whole { least, most } => is_number(word, least, most),
            Wanted::Command
            | Wanted::Message
            | Wanted::Rows { .. }
            | Wanted::Lines
            | Wanted::Row
            | Wanted::Hours
            | Wanted::Kind
            | Wanted::OnePart => true,
        }
    }
}

impl fmt::Display for Wanted {
    fn fmt<W: fmt::Write>(&self, f: &mut fmt::Formatter<W>) -> fmt::Result {
        f.write_str(match self {
            Wanted::Side => "side (I or M)",
            Wanted::Code => "code (1 to 16 of A to Z, 0 to 9 and '-')",
            Wanted::Day => "gas day (YYYY-MM-DD, from 2000-01-01 to 2199-12-31)",
            Wanted::Direction => "direction (IM or MI)",
            Wanted::Quantity => "quantity (0 to 999999999999 kWh/h)",
            Wanted::Cycle => "cycle (0 to 36, as 'dispatch hours DAY' lists them)",
            Wanted::Hour => "number of an hour (1 to 25)",
            Wanted::Share => "share in thousandths (0 to 1000)",
            Wanted::Number => "number (0 to 4294967295)",
            Wanted::Count => "count (1 to 1000000)",
            Wanted::Rule => "rule (1 or 2)",
            Wanted::Move => "move (pass, drop, repeat or hold)",
            Wanted::Command => "command, such as close,",
            Wanted::Message => "message",
            Wanted::Whole { least, most } => {
                return write!(f, "whole number from {least} to {most}");
            }
            Wanted::Rows { most } => {
                return write!(
                    f,
                    "JSON array of at most {most} objects, one for each pair and direction"
                );
            }
            Wanted::Lines => "JSON array of objects",
            Wanted::Row => "JSON object",
            Wanted::Hours => "JSON array with one quantity for each hour from first to last",
            Wanted::Kind => "DELORD",
            Wanted::OnePart => "whole DELORD, as one part",
        })
    }
}

/// The words that a command of a script has behind it.
pub(crate) fn wanted_behind(command: &str) -> &'static [Wanted] {
    match command {
        "point" => &[Wanted::Code],
        "contract" => &[
            Wanted::Code,
            Wanted::Day,
            Wanted::Direction,
            Wanted::Quantity,
            Wanted::Quantity,
        ],
        "notice" => &[
            Wanted::Day,
            Wanted::Direction,
            Wanted::Hour,
            Wanted::Hour,
            Wanted::Share,
            Wanted::Share,
        ],
        "close" => &[Wanted::Day, Wanted::Cycle, Wanted::Rule],
        "resend" => &[Wanted::Day, Wanted::Cycle],
        "save" => &[Wanted::Count],
        "deliver" | "restart" => &[Wanted::Number],
        _ => &[],
    }
}

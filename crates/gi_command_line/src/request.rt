//! What a command line asks for.

ghost use Rattle.std.specs.Prelude.{◌≡◌, Some};
ghost use Rattle.gi_command_line.specs.ReportWords.{can_be_narrowed, format_named as format_named_by, kind_named as kind_named_by, line_format_named as line_format_named_by, mistake_text};

use crate::expected::ExpectedFacts;
use crate::sessions::Sessions;
use crate::wait::WaitSeconds;
use gi_pairs::{Direction, Side};
use std::fmt;

/// Which report is asked for.
#[derive(Clone, Copy, Debug, PartialEq, Eq)]
pub enum ReportKind {
    /// The closed cycles that are not confirmed.
    Open,
    /// What is confirmed, hour by hour.
    Confirmed,
    /// The refused submissions of each portfolio.
    Refused,
    /// What is in force for each hour.
    Schedule,
    /// Where a pair gets less than was nominated.
    Cut,
    /// What each confirmed cycle changed.
    Changes,
}

impl ReportKind {
    /// Whether it can be narrowed to a gas day and a portfolio.
    pub(crate) fn can_be_narrowed(self) -> bool
        ensures { result ≡ can_be_narrowed self }
    {
        match self {
            ReportKind::Schedule | ReportKind::Cut | ReportKind::Changes => true,
            ReportKind::Open | ReportKind::Confirmed | ReportKind::Refused => false,
        }
    }
}

/// What a report is narrowed to, by words: a gas day and a portfolio, or all of them.
#[derive(Clone, Copy, Debug, PartialEq, Eq)]
pub struct Narrowing<'a> {
    pub day: Option<&'a str>,
    pub portfolio: Option<&'a str>,
}

/// How a report is written.
#[derive(Clone, Copy, Debug, PartialEq, Eq)]
pub enum Format {
    /// In columns, for people.
    Text,
    /// Comma-separated values, with a header.
    Csv,
    /// A JSON object a line.
    Json,
}

/// How an explanation or an audit is written.
#[derive(Clone, Copy, Debug, PartialEq, Eq)]
pub enum LineFormat {
    /// A line of words each, for people.
    Text,
    /// A JSON object a line.
    Json,
}

/// A book in a file, and the interconnection point that it is of.
#[derive(Clone, Copy, Debug, PartialEq, Eq)]
pub struct BookFile<'a> {
    pub file: &'a str,
    pub point: &'a str,
}

/// A report of a side: over its book, or else over a script.
#[derive(Clone, Copy, Debug, PartialEq, Eq)]
pub struct Report<'a> {
    pub kind: ReportKind,
    pub format: Format,
    pub side: Side,
    pub narrowing: Narrowing<'a>,
    pub book: Option<BookFile<'a>>,
}

/// A quantity, named by words: its portfolio pair, direction, gas day, nomination cycle and hour.
#[derive(Clone, Copy, Debug, PartialEq, Eq)]
pub struct NamedQuantity<'a> {
    pub initiating: &'a str,
    pub matching: &'a str,
    pub direction: Direction,
    pub day: &'a str,
    /// From 0 to 36, the last that any gas day has.
    pub cycle: u8,
    /// From 1 to 25.
    pub hour: u8,
}

/// What a quantity comes from at a side: over its book, or else over a script.
#[derive(Clone, Copy, Debug, PartialEq, Eq)]
pub struct Explanation<'a> {
    pub format: LineFormat,
    pub side: Side,
    pub quantity: NamedQuantity<'a>,
    pub book: Option<BookFile<'a>>,
}

/// The page of a gas day at a side: over its book, or else over a script.
#[derive(Clone, Copy, Debug, PartialEq, Eq)]
pub struct DayPage<'a> {
    pub side: Side,
    pub day: &'a str,
    pub book: Option<BookFile<'a>>,
}

/// Both operators' books in files, to be compared, and the interconnection point that they are of.
#[derive(Clone, Copy, Debug, PartialEq, Eq)]
pub struct BookFiles<'a> {
    pub initiating: &'a str,
    pub matching: &'a str,
    pub point: &'a str,
}

/// The audit of both operators' books.
#[derive(Clone, Copy, Debug, PartialEq, Eq)]
pub struct Audit<'a> {
    pub format: LineFormat,
    pub books: BookFiles<'a>,
}

/// What a book in a file is, and whether its first facts are the expected ones.
#[derive(Clone, Copy, Debug, PartialEq, Eq)]
pub struct BookQuestion<'a> {
    pub file: &'a str,
    /// None where nothing is expected.
    pub expected: Option<ExpectedFacts<'a>>,
}

/// Both offices, run by a script.
#[derive(Clone, Copy, Debug, PartialEq, Eq)]
pub struct Service<'a> {
    /// How many sessions each office has.
    pub sessions: Sessions,
    /// What the names of the books' files begin with; none where the books are in memory.
    pub books: Option<&'a str>,
    /// How long a book in a file that is in use is tried again.
    pub wait: WaitSeconds,
    /// Whether both books have to be there already: neither file is made.
    pub only_old: bool,
    /// Whether it is run over copies in memory of the books, so that neither file is made or changed.
    pub dry_run: bool,
    /// Whether it fails where a step is refused.
    pub strict: bool,
}

/// One operator's office, which runs as long as lines come.
#[derive(Clone, Copy, Debug, PartialEq, Eq)]
pub struct OfficeRun<'a> {
    pub side: Side,
    pub book: BookFile<'a>,
    /// How long a book that is in use is tried again.
    pub wait: WaitSeconds,
    /// Whether it is told the time by the machine's clock.
    pub by_clock: bool,
    /// Whether it fails where a line is refused.
    pub strict: bool,
}

/// What is wrong with the words of a command, where `clap` objects to nothing.
#[derive(Clone, Copy, Debug, PartialEq, Eq)]
pub enum Mistake<'a> {
    /// The word is no kind of report.
    Kind(&'a str),
    /// The word is no side.
    Side(&'a str),
    /// One of `--book` and `--point` without the other.
    Unpaired,
    /// The word is no format of a report.
    Format(&'a str),
    /// `--day` or `--portfolio` for another report than a schedule, cuts or changes.
    Narrowed,
    /// The word is no format of an explanation or an audit.
    LineFormat(&'a str),
    /// The word is no number of sessions.
    Sessions(&'a str),
    /// The word is no direction.
    Direction(&'a str),
    /// The word is no number of a cycle.
    Cycle(&'a str),
    /// The word is no number of an hour.
    Hour(&'a str),
    /// The word is no number of facts and their digest.
    Expected(&'a str),
    /// The word is no number of seconds to wait.
    Wait(&'a str),
    /// `--dry-run` without `--books`.
    NoBooks,
}

/// What a command line asks for, but `office` and `serve`.
#[derive(Clone, Copy, Debug, PartialEq, Eq)]
pub enum Request<'a> {
    /// The lesser of an order and an own table.
    Match,
    /// The hours and cycles of the day that the word names.
    Hours(&'a str),
    /// What comes of a script's steps; with a trace, also what moved in each. A strict one fails where a step is refused.
    Simulate { trace: bool, strict: bool },
    /// A report.
    Report(Report<'a>),
    /// What a quantity comes from.
    Explain(Explanation<'a>),
    /// The page of a gas day.
    Page(DayPage<'a>),
    /// Whether both operators' books agree.
    Audit(Audit<'a>),
    /// What a book is.
    Book(BookQuestion<'a>),
    /// A command, in wrong words.
    Mistaken(Mistake<'a>),
}

/// What a command line asks for.
#[derive(Clone, Copy, Debug, PartialEq, Eq)]
pub enum Task<'a> {
    /// What one thread does from its input to its output.
    AtOnce(Request<'a>),
    /// One running office.
    Office(OfficeRun<'a>),
    /// Both running offices.
    Serve(Service<'a>),
}

impl Task<'_> {
    ghost use Rattle.std.specs.Prelude.{◌≡◌};
    ghost use Rattle.gi_command_line.specs.Asked.{is_strict, task_meaning};

    /// Whether it fails where a step is refused.
    pub fn is_strict(&self) -> bool
        ensures { result ≡ is_strict (task_meaning self.now) }
    {
        match self {
            Task::AtOnce(Request::Simulate { strict, .. }) => *strict,
            Task::AtOnce(_) => false,
            Task::Office(run) => run.strict,
            Task::Serve(service) => service.strict,
        }
    }
}

impl fmt::Display for Mistake<'_> {
    ghost output = { λ mistake. Some (mistake_text mistake) };

    fn fmt<W: fmt::Write>(&self, f: &mut fmt::Formatter<W>) -> fmt::Result {
        match self {
            Mistake::Kind(word) => write!(
                f,
                "error: invalid value '{word}' for '<KIND>'\n  [possible values: open, confirmed, refused, schedule, cut, changes]\n"
            ),
            Mistake::Side(word) => write!(
                f,
                "error: invalid value '{word}' for '<SIDE>'\n  [possible values: I, M]\n"
            ),
            Mistake::Unpaired => {
                f.write_str("error: '--book <FILE>' and '--point <CODE>' need each other\n")
            }
            Mistake::Format(word) => write!(
                f,
                "error: invalid value '{word}' for '--format <FORMAT>'\n  [possible values: text, csv, json]\n"
            ),
            Mistake::Narrowed => f.write_str(
                "error: '--day <DAY>' and '--portfolio <CODE>' are for a schedule, cuts and changes\n",
            ),
            Mistake::LineFormat(word) => write!(
                f,
                "error: invalid value '{word}' for '--format <FORMAT>'\n  [possible values: text, json]\n"
            ),
            Mistake::Sessions(word) => write!(
                f,
                "error: invalid value '{word}' for '--sessions <N>'\n  [possible values: 1 to 8]\n"
            ),
            Mistake::Direction(word) => write!(
                f,
                "error: invalid value '{word}' for '<DIRECTION>'\n  [possible values: IM, MI]\n"
            ),
            Mistake::Cycle(word) => write!(
                f,
                "error: invalid value '{word}' for '<CYCLE>'\n  [possible values: 0 to 36]\n"
            ),
            Mistake::Hour(word) => write!(
                f,
                "error: invalid value '{word}' for '<HOUR>'\n  [possible values: 1 to 25]\n"
            ),
            Mistake::Expected(word) => write!(
                f,
                "error: invalid value '{word}' for '--expect <N:DIGEST>'\n  [possible values: 0 to 1000000, a colon and 64 digits of 0-9 and a-f]\n"
            ),
            Mistake::Wait(word) => write!(
                f,
                "error: invalid value '{word}' for '--wait <SECONDS>'\n  [possible values: 0 to 3600]\n"
            ),
            Mistake::NoBooks => f.write_str("error: '--dry-run' needs '--books <PREFIX>'\n"),
        }
    }
}

/// The kind of report that a word names.
pub fn kind_named(word: &str) -> Option<ReportKind>
    ensures { result ≡ kind_named_by word.now }
{
    match word {
        "open" => Some(ReportKind::Open),
        "confirmed" => Some(ReportKind::Confirmed),
        "refused" => Some(ReportKind::Refused),
        "schedule" => Some(ReportKind::Schedule),
        "cut" => Some(ReportKind::Cut),
        "changes" => Some(ReportKind::Changes),
        _ => None,
    }
}

/// The format that a word names.
pub fn format_named(word: &str) -> Option<Format>
    ensures { result ≡ format_named_by word.now }
{
    match word {
        "text" => Some(Format::Text),
        "csv" => Some(Format::Csv),
        "json" => Some(Format::Json),
        _ => None,
    }
}

/// The format of an explanation or an audit that a word names.
pub fn line_format_named(word: &str) -> Option<LineFormat>
    ensures { result ≡ line_format_named_by word.now }
{
    match word {
        "text" => Some(LineFormat::Text),
        "json" => Some(LineFormat::Json),
        _ => None,
    }
}

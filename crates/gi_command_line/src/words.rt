//! The words of a command line.
ghost use Rattle.std.specs.Prelude.{◌≡◌, IfOk, codes, false, map, option_map};
ghost use Rattle.std.specs.Result.{result_ok};
ghost use Rattle.clap.specs.Words.{FailsBy, first_of, found_of, rows_of, subcommand_rows_of};
ghost use Rattle.gi_command_line.specs.Asked.{book_of as book_words, expected_words, meaning, narrowing_words, quantity_words, task_meaning};
ghost use Rattle.gi_command_line.specs.CommandLine.{about_book_asked, asked, asked_at_once, asked_of, audit_asked, book_asked, expected_asked, explain_asked, fits as fits_kind, format_asked, has_books as has_books_named, hours_asked, is_set as is_set_by, line_format_asked, narrowing_asked, objections, office_asked, page_asked, quantity_asked, report_asked, serve_asked, sessions_asked, value_of as value_at, wait_asked};

use crate::commands::commands;
use crate::expected::ExpectedFacts;
use crate::numbers::{cycle_named, hour_named};
use crate::request::{
    Audit, BookFile, BookFiles, BookQuestion, DayPage, Explanation, Format, LineFormat, Mistake,
    NamedQuantity, Narrowing, OfficeRun, Report, ReportKind, Request, Service, Task, format_named,
    kind_named, line_format_named,
};
use crate::sessions::Sessions;
use crate::wait::WaitSeconds;
use clap::{ArgMatches, Error};
use gi_pairs::{Direction, Side};
use std::alloc::Global;
use std::convert::AsStr;

fn value_of<'a>(matches: &ArgMatches<'a>, name: &str) -> Option<&'a str>
    ensures { option_map (λ s. s.now) result ≡ first_of name.now (rows_of (found_of matches.now)) }
{
    matches.get_str(name)
}

fn hours_of<'a>(matches: &ArgMatches<'a>) -> Request<'a>
    ensures { meaning result ≡ hours_asked (first_of (codes "DAY") (rows_of (found_of matches.now))) }
{
    match value_of(matches, "DAY") {
        Some(day) => Request::Hours(day),
        None => Request::Match,
    }
}

/// The book that is named, if any; `None` where one of its file and its point is missing.
fn book_of<'a>(matches: &ArgMatches<'a>) -> Option<Option<BookFile<'a>>>
    ensures { option_map book_words result ≡ book_asked (rows_of (found_of matches.now)) }
{
    match (value_of(matches, "book"), value_of(matches, "point")) {
        (None, None) => Some(None),
        (Some(file), Some(point)) => Some(Some(BookFile { file, point })),
        _ => None,
    }
}

/// Whether an option without a value is among the words.
fn is_set(matches: &ArgMatches<'_>, name: &str) -> bool
    ensures { result ≡ is_set_by (first_of name.now (rows_of (found_of matches.now))) }
{
    value_of(matches, name) == Some("true")
}

fn word_of<'a>(matches: &ArgMatches<'a>, name: &str) -> &'a str
    ensures { result.now ≡ value_at name.now (rows_of (found_of matches.now)) }
{
    match value_of(matches, name) {
        Some(word) => word,
        None => "",
    }
}

fn format_of(word: Option<&str>) -> Option<Format>
    ensures { result ≡ format_asked (option_map (λ s. s.now) word.entry) }
{
    match word {
        Some(word) => format_named(word),
        None => Some(Format::Text),
    }
}

/// What a report is narrowed to, by the words.
fn narrowing_of<'a>(matches: &ArgMatches<'a>) -> Narrowing<'a>
    ensures { narrowing_words result ≡ narrowing_asked (rows_of (found_of matches.now)) }
{
    Narrowing {
        day: value_of(matches, "day"),
        portfolio: value_of(matches, "portfolio"),
    }
}

fn fits(kind: ReportKind, narrowing: &Narrowing<'_>) -> bool
    ensures { result ≡ fits_kind kind (narrowing_words narrowing.now) }
{
    kind.can_be_narrowed() || narrowing.day.is_none() && narrowing.portfolio.is_none()
}

fn line_format_of(word: Option<&str>) -> Option<LineFormat>
    ensures { result ≡ line_format_asked (option_map (λ s. s.now) word.entry) }
{
    match word {
        Some(word) => line_format_named(word),
        None => Some(LineFormat::Text),
    }
}

fn report_of<'a>(matches: &ArgMatches<'a>) -> Request<'a>
    ensures { meaning result ≡ report_asked (rows_of (found_of matches.now)) }
{
    let kind_word = word_of(matches, "KIND");
    let Some(kind) = kind_named(kind_word) else {
        return Request::Mistaken(Mistake::Kind(kind_word));
    };
    let side_word = word_of(matches, "SIDE");
    let Ok(side) = side_word.parse::<Side>() else {
        return Request::Mistaken(Mistake::Side(side_word));
    };
    let format_word = value_of(matches, "format");
    let Some(format) = format_of(format_word) else {
        return Request::Mistaken(Mistake::Format(format_word.unwrap_or("")));
    };
    let Some(book) = book_of(matches) else {
        return Request::Mistaken(Mistake::Unpaired);
    };
    let narrowing = narrowing_of(matches);
    if !fits(kind, &narrowing) {
        return Request::Mistaken(Mistake::Narrowed);
    }
    Request::Report(Report {
        kind,
        format,
        side,
        narrowing,
        book,
    })
}

/// The quantity that the words name, or the first word that is no direction, cycle or hour.
fn quantity_of<'a>(matches: &ArgMatches<'a>) -> Result<NamedQuantity<'a>, Mistake<'a>>
    ensures { option_map quantity_words (result_ok result) ≡ quantity_asked (rows_of (found_of matches.now)) }
{
    let direction_word = word_of(matches, "DIRECTION");
    let Ok(direction) = direction_word.parse::<Direction>() else {
        return Err(Mistake::Direction(direction_word));
    };
    let cycle_word = word_of(matches, "CYCLE");
    let Some(cycle) = cycle_named(cycle_word) else {
        return Err(Mistake::Cycle(cycle_word));
    };
    let hour_word = word_of(matches, "HOUR");
    let Some(hour) = hour_named(hour_word) else {
        return Err(Mistake::Hour(hour_word));
    };
    Ok(NamedQuantity {
        initiating: word_of(matches, "INITIATING"),
        matching: word_of(matches, "MATCHING"),
        direction,
        day: word_of(matches, "DAY"),
        cycle,
        hour,
    })
}

fn explanation_of<'a>(matches: &ArgMatches<'a>) -> Request<'a>
    ensures { meaning result ≡ explain_asked (rows_of (found_of matches.now)) }
{
    let side_word = word_of(matches, "SIDE");
    let Ok(side) = side_word.parse::<Side>() else {
        return Request::Mistaken(Mistake::Side(side_word));
    };
    let quantity = match quantity_of(matches) {
        Ok(quantity) => quantity,
        Err(mistake) => return Request::Mistaken(mistake),
    };
    let word = value_of(matches, "format");
    let Some(format) = line_format_of(word) else {
        return Request::Mistaken(Mistake::LineFormat(word.unwrap_or("")));
    };
    let Some(book) = book_of(matches) else {
        return Request::Mistaken(Mistake::Unpaired);
    };
    Request::Explain(Explanation {
        format,
        side,
        quantity,
        book,
    })
}

fn page_of<'a>(matches: &ArgMatches<'a>) -> Request<'a>
    ensures { meaning result ≡ page_asked (rows_of (found_of matches.now)) }
{
    let side_word = word_of(matches, "SIDE");
    let Ok(side) = side_word.parse::<Side>() else {
        return Request::Mistaken(Mistake::Side(side_word));
    };
    let Some(book) = book_of(matches) else {
        return Request::Mistaken(Mistake::Unpaired);
    };
    Request::Page(DayPage {
        side,
        day: word_of(matches, "DAY"),
        book,
    })
}

fn audit_of<'a>(matches: &ArgMatches<'a>) -> Request<'a>
    ensures { meaning result ≡ audit_asked (rows_of (found_of matches.now)) }
{
    let word = value_of(matches, "format");
    let Some(format) = line_format_of(word) else {
        return Request::Mistaken(Mistake::LineFormat(word.unwrap_or("")));
    };
    let books = BookFiles {
        initiating: word_of(matches, "initiating"),
        matching: word_of(matches, "matching"),
        point: word_of(matches, "point"),
    };
    Request::Audit(Audit { format, books })
}

/// The facts that are expected, if any; `None` where the word names none.
fn expected_of<'a>(word: Option<&'a str>) -> Option<Option<ExpectedFacts<'a>>>
    ensures { option_map (λ it. option_map expected_words it) result ≡ expected_asked (option_map (λ s. s.now) word.entry) }
{
    match word {
        Some(word) => match ExpectedFacts::named(word) {
            Some(expected) => Some(Some(expected)),
            None => None,
        },
        None => Some(None),
    }
}

fn about_book_of<'a>(matches: &ArgMatches<'a>) -> Request<'a>
    ensures { meaning result ≡ about_book_asked (rows_of (found_of matches.now)) }
{
    let word = value_of(matches, "expect");
    match expected_of(word) {
        Some(expected) => Request::Book(BookQuestion {
            file: word_of(matches, "FILE"),
            expected,
        }),
        None => Request::Mistaken(Mistake::Expected(word.unwrap_or(""))),
    }
}

fn sessions_of(word: Option<&str>) -> Option<Sessions>
    ensures { result ≡ sessions_asked (option_map (λ s. s.now) word.entry) }
{
    match word {
        Some(word) => Sessions::named(word),
        None => Some(Sessions::unnamed()),
    }
}

fn wait_of(word: Option<&str>) -> Option<WaitSeconds>
    ensures { result ≡ wait_asked (option_map (λ s. s.now) word.entry) }
{
    match word {
        Some(word) => WaitSeconds::named(word),
        None => Some(WaitSeconds::unnamed()),
    }
}

/// Whether there are books where a dry run is to be made over them.
fn has_books(dry_run: bool, books: Option<&str>) -> bool
    ensures { result ≡ has_books_named dry_run (option_map (λ s. s.now) books.entry) }
{
    !dry_run || books.is_some()
}

fn service_of<'a>(matches: &ArgMatches<'a>) -> Task<'a>
    ensures { task_meaning result ≡ serve_asked (rows_of (found_of matches.now)) }
{
    let sessions_word = value_of(matches, "sessions");
    let Some(sessions) = sessions_of(sessions_word) else {
        return Task::AtOnce(Request::Mistaken(Mistake::Sessions(sessions_word.unwrap_or(""))));
    };
    let wait_word = value_of(matches, "wait");
    let Some(wait) = wait_of(wait_word) else {
        return Task::AtOnce(Request::Mistaken(Mistake::Wait(wait_word.unwrap_or(""))));
    };
    let books = value_of(matches, "books");
    let dry_run = is_set(matches, "dry-run");
    if !has_books(dry_run, books) {
        return Task::AtOnce(Request::Mistaken(Mistake::NoBooks));
    }
    Task::Serve(Service {
        sessions,
        books,
        wait,
        only_old: is_set(matches, "old"),
        dry_run,
        strict: is_set(matches, "strict"),
    })
}

fn office_of<'a>(matches: &ArgMatches<'a>) -> Task<'a>
    ensures { task_meaning result ≡ office_asked (rows_of (found_of matches.now)) }
{
    let side_word = word_of(matches, "SIDE");
    let Ok(side) = side_word.parse::<Side>() else {
        return Task::AtOnce(Request::Mistaken(Mistake::Side(side_word)));
    };
    let seconds_word = value_of(matches, "wait");
    let Some(wait) = wait_of(seconds_word) else {
        return Task::AtOnce(Request::Mistaken(Mistake::Wait(seconds_word.unwrap_or(""))));
    };
    Task::Office(OfficeRun {
        side,
        book: BookFile {
            file: word_of(matches, "book"),
            point: word_of(matches, "point"),
        },
        wait,
        by_clock: is_set(matches, "clock"),
        strict: is_set(matches, "strict"),
    })
}

fn request_of<'a>(name: &str, entered: &ArgMatches<'a>) -> Request<'a>
    ensures { meaning result ≡ asked_at_once name.now (rows_of (found_of entered.now)) }
{
    match name {
        "hours" => hours_of(entered),
        "simulate" => Request::Simulate {
            trace: is_set(entered, "trace"),
            strict: is_set(entered, "strict"),
        },
        "report" => report_of(entered),
        "explain" => explanation_of(entered),
        "page" => page_of(entered),
        "audit" => audit_of(entered),
        "book" => about_book_of(entered),
        _ => Request::Match,
    }
}

fn task_of<'a>(matches: &ArgMatches<'a>) -> Task<'a>
    ensures { task_meaning result ≡ asked_of (subcommand_rows_of matches.now) }
{
    let Some((name, entered)) = matches.subcommand() else {
        return Task::AtOnce(Request::Match);
    };
    match name {
        "office" => office_of(entered),
        "serve" => service_of(entered),
        _ => Task::AtOnce(request_of(name, entered)),
    }
}

/// What the words ask for, the first being the program's own name. Help, the version and a mistake
/// are errors of `clap`, whose text is for the user.
pub fn requested<'a, S: AsStr>(alloc: Global, words: &'a [S]) -> Result<Task<'a>, Error>
    ensures refused { FailsBy (objections (map S.text words.entry.now)) result }
    ensures asked { IfOk result (λ task. task_meaning task ≡ asked (map S.text words.entry.now)) }
{
    let program = commands(alloc)?;
    let matches = program.try_get_matches_from(words)?;
    Ok(task_of(&matches))
}

//! What a task tells of the places of its faults.

use gi_command_line::{BookFile, Narrowing, Request, Task};
use gi_pairs::Side;
use gi_places::{Asked, Files, Meant, Wanted};

/// A book that is asked for: its file, its side and its point.
type Book<'a> = (Option<BookFile<'a>>, Side);

/// The one book that a task reads or writes.
fn book_of<'a>(task: &Task<'a>) -> Option<Book<'a>> {
    match task {
        Task::AtOnce(Request::Report(report)) => Some((report.book, report.side)),
        Task::AtOnce(Request::Explain(explanation)) => Some((explanation.book, explanation.side)),
        Task::AtOnce(Request::Page(page)) => Some((page.book, page.side)),
        Task::Office(run) => Some((Some(run.book), run.side)),
        _ => None,
    }
}

fn files_of<'a>(task: &Task<'a>) -> Option<Files<'a>> {
    match (task, book_of(task)) {
        (_, Some((Some(book), _))) => Some(Files::One(book.file)),
        (Task::AtOnce(Request::Book(question)), _) => Some(Files::One(question.file)),
        (Task::AtOnce(Request::Audit(audit)), _) => {
            Some(Files::EitherOf(audit.books.initiating, audit.books.matching))
        }
        (Task::Serve(service), _) => match service.books {
            Some(prefix) => Some(Files::Either(prefix)),
            None => None,
        },
        _ => None,
    }
}

/// The files that a task reads and does not make.
pub(crate) fn files_read<'a>(task: &Task<'a>) -> [Option<&'a str>; 2] {
    match (task, files_of(task)) {
        (Task::AtOnce(_), Some(Files::One(file))) => [Some(file), None],
        (Task::AtOnce(_), Some(Files::EitherOf(initiating, matching))) => {
            [Some(initiating), Some(matching)]
        }
        _ => [None, None],
    }
}

fn point_of<'a>(task: &Task<'a>) -> Option<&'a str> {
    match (task, book_of(task)) {
        (_, Some((Some(book), _))) => Some(book.point),
        (Task::AtOnce(Request::Audit(audit)), _) => Some(audit.books.point),
        _ => None,
    }
}

fn narrowing_words<'a>(narrowing: Narrowing<'a>) -> [Meant<'a>; 3] {
    [
        (narrowing.day, Wanted::Day),
        (narrowing.portfolio, Wanted::Code),
        (None, Wanted::Code),
    ]
}

/// The words of a task, but its point, that have to be codes or gas days.
fn words_of<'a>(task: &Task<'a>) -> [Meant<'a>; 3] {
    let none = (None, Wanted::Code);
    match task {
        Task::AtOnce(Request::Hours(day)) => [(Some(*day), Wanted::Day), none, none],
        Task::AtOnce(Request::Report(report)) => narrowing_words(report.narrowing),
        Task::AtOnce(Request::Explain(explanation)) => [
            (Some(explanation.quantity.initiating), Wanted::Code),
            (Some(explanation.quantity.matching), Wanted::Code),
            (Some(explanation.quantity.day), Wanted::Day),
        ],
        Task::AtOnce(Request::Page(page)) => [(Some(page.day), Wanted::Day), none, none],
        _ => [none, none, none],
    }
}

/// What is known of a fault, as it is printed, of a task, its input, and a file of it that is not there.
pub(crate) fn asked<'a>(
    fault: &'a str,
    task: &Task<'a>,
    input: Option<&'a [u8]>,
    missing: Option<&'a str>,
) -> Asked<'a> {
    let point = point_of(task);
    let [first, second, third] = words_of(task);
    Asked {
        fault,
        is_served: matches!(task, Task::Serve(_)),
        files: files_of(task),
        missing,
        side: match book_of(task) {
            Some((_, side)) => Some(side),
            None => None,
        },
        point,
        words: [(point, Wanted::Code), first, second, third],
        input,
    }
}

//! Where a fault is, by the line that names it.

use crate::books::{BookPlace, Files, book_place};
use crate::lines::{lines_of, parted};
use crate::message::{MessagePlace, message_place};
use crate::script::{line_place, point_place};
use crate::shown::Shown;
use crate::trouble::Trouble;
use crate::wanted::Wanted;
use crate::words::{Meant, wrong_word};
use gi_pairs::Side;
use std::alloc::Global;
use std::fmt;

/// Where a fault is, and what is found there and is wanted. It is printed as one line, without a line feed.
#[derive(Drop)]
pub enum Place<'a> {
    /// A line of a script, from 1.
    Line { number: u64, trouble: Trouble<'a> },
    /// A script of no line.
    NoLine,
    /// The lines of an input of `match`.
    Lines(u64),
    /// What is told of the input as a whole.
    Input(&'static str),
    /// A word of the command line.
    Word(&'a str, Wanted),
    /// A file that is not there.
    NoFile(&'a str),
    /// A book that may be none, or another file that is not there.
    NoBook(&'a str, &'a str),
    Book(BookPlace<'a>),
    Message(MessagePlace<'a>),
}

impl fmt::Display for Place<'_> {
    fn fmt<W: fmt::Write>(&self, f: &mut fmt::Formatter<W>) -> fmt::Result {
        match self {
            Place::Line { number, trouble } => write!(f, "line {number}{trouble}"),
            Place::NoLine => {
                f.write_str("standard input has no line, and 'point CODE' is wanted first")
            }
            Place::Lines(count) => write!(
                f,
                "two lines are wanted, the order and the own table, and standard input has {count}"
            ),
            Place::Input(found) => write!(f, "standard input {found}"),
            Place::Word(word, wanted) => write!(f, "'{}' is no {wanted}", Shown { word }),
            Place::NoFile(file) => write!(f, "{file}: no such file"),
            Place::NoBook(file, missing) => write!(
                f,
                "{file}: it cannot be read or written as a database; or {missing}: no such file"
            ),
            Place::Book(place) => fmt::Display::fmt(place, f),
            Place::Message(place) => fmt::Display::fmt(place, f),
        }
    }
}

/// The name of a fault, and the values behind it; of one of a turn that saves, those of the book's fault.
fn named(fault: &str) -> (&str, &str) {
    let (name, behind) = parted(fault);
    match behind {
        Some(of_book) if name == "Store" => {
            let (name, behind) = parted(of_book);
            (name, behind.unwrap_or(""))
        }
        Some(values) => (name, values),
        None => (name, ""),
    }
}

/// The line that a fault of a script names: `4: Unreadable`.
fn number_of(values: &str) -> Option<u64> {
    values.split_once(':')?.0.parse::<u64>().ok()
}

/// A place in a script.
fn of_script<'a>(
    alloc: Global,
    name: &str,
    values: &str,
    is_served: bool,
    script: &'a [u8],
) -> Option<Place<'a>> {
    match name {
        "line" => line_place(alloc, is_served, script, number_of(values)?),
        "Point" => point_place(script),
        _ => None,
    }
}

/// What is known of a fault.
#[derive(Clone, Copy)]
pub struct Asked<'a> {
    /// The fault as it is printed, without the program's name.
    pub fault: &'a str,
    /// Whether a script is for `serve`, and for no other command.
    pub is_served: bool,
    /// The files of the books that were asked for.
    pub files: Option<Files<'a>>,
    /// A file of them that is not there and has to be.
    pub missing: Option<&'a str>,
    /// Whose book was asked for, where that is one.
    pub side: Option<Side>,
    /// The point of the books, where the words name it.
    pub point: Option<&'a str>,
    /// The words that have to be codes or gas days.
    pub words: [Meant<'a>; 4],
    /// The input as it was read, where it is known.
    pub input: Option<&'a [u8]>,
}

/// Where a book is not read, of files of which one is missing: that one, or one that was to be read before it.
fn of_missing<'a>(files: Option<Files<'a>>, missing: &'a str) -> Place<'a> {
    match files {
        Some(Files::EitherOf(first, second)) if first != missing && second == missing => {
            Place::NoBook(first, missing)
        }
        _ => Place::NoFile(missing),
    }
}

/// Where the fault is, where that can be told; None too where memory runs out.
pub fn place_of<'a>(alloc: Global, asked: &Asked<'a>) -> Option<Place<'a>> {
    let (name, values) = named(asked.fault);
    match name {
        "Read" => Some(Place::Input("could not be read")),
        "TooLarge" => Some(Place::Input("has more than 67108864 bytes")),
        "Lines" => Some(Place::Lines(lines_of(asked.input?))),
        "CodeText" | "DayText" | "DayRange" => wrong_word(asked.words),
        "line" | "Point" => of_script(alloc, name, values, asked.is_served, asked.input?),
        "order:" | "own:" | "ShapeDiffers" => {
            let place = message_place(alloc, name, values, asked.input?)?;
            Some(Place::Message(place))
        }
        _ => match asked.missing {
            Some(file) if name == "Store" => Some(of_missing(asked.files, file)),
            _ => Some(Place::Book(book_place(asked, name, values)?)),
        },
    }
}

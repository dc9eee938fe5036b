//! What is wrong with a book.

ghost use Rattle.std.specs.Prelude.{Some};
ghost use Rattle.gi_places.specs.Texts.{book_text, files_text, wanted_text};

use crate::lines::{first_line, parted};
use crate::place::Asked;
use gi_pairs::Side;
use std::fmt;

/// The files of books, by their names.
#[derive(Clone, Copy)]
pub enum Files<'a> {
    One(&'a str),
    /// One of the two that `audit` compares.
    EitherOf(&'a str, &'a str),
    /// That of a side, of the two that `serve` opens by a prefix.
    OfSide(&'a str, Side),
    /// One of them.
    Either(&'a str),
    Both(&'a str),
}

impl fmt::Display for Files<'_> {
    ghost output = { λ files. Some (files_text files) };

    fn fmt<W: fmt::Write>(&self, f: &mut fmt::Formatter<W>) -> fmt::Result {
        match self {
            Files::One(file) => f.write_str(file),
            Files::EitherOf(initiating, matching) => write!(f, "{initiating} or {matching}"),
            Files::OfSide(prefix, side) => write!(f, "{prefix}-{side}.db"),
            Files::Either(prefix) => write!(f, "{prefix}-I.db or {prefix}-M.db"),
            Files::Both(prefix) => write!(f, "{prefix}-I.db and {prefix}-M.db"),
        }
    }
}

/// A side and a point, by which a book is asked for.
#[derive(Clone, Copy)]
pub struct Owner<'a> {
    pub side: Side,
    pub point: &'a str,
}

/// Whose book is wanted, where that is told.
#[derive(Clone, Copy)]
struct Demand<'a> {
    wanted: Option<Owner<'a>>,
}

impl fmt::Display for Demand<'_> {
    ghost output = { λ demand. Some (wanted_text demand.wanted) };

    fn fmt<W: fmt::Write>(&self, f: &mut fmt::Formatter<W>) -> fmt::Result {
        match self.wanted {
            Some(Owner { side, point }) => write!(f, ", and that of {side} {point} is wanted"),
            None => f.write_str(""),
        }
    }
}

/// What is told of the files: words, the values behind the fault's name, and words; and whose book is wanted.
#[derive(Clone, Copy)]
pub struct BookPlace<'a> {
    pub files: Files<'a>,
    pub front: &'static str,
    pub values: &'a str,
    pub back: &'static str,
    pub wanted: Option<Owner<'a>>,
}

impl fmt::Display for BookPlace<'_> {
    ghost output = { λ place. Some (book_text place) };

    fn fmt<W: fmt::Write>(&self, f: &mut fmt::Formatter<W>) -> fmt::Result {
        let BookPlace {
            files,
            front,
            values,
            back,
            wanted,
        } = *self;
        let demand = Demand { wanted };
        write!(f, "{files}: {front}{values}{back}{demand}")
    }
}

/// What is found, before and behind the values of the fault of this name.
fn words_of(name: &str) -> Option<(&'static str, &'static str)> {
    match name {
        "Busy" => Some(("in use by another process", "")),
        "Store" => Some(("it cannot be read or written as a database", "")),
        "Version" => Some(("it is a database, but no book of version 1 or 2", "")),
        "OtherBook" => Some(("it is the book of ", "")),
        "Gap" => Some(("row ", " comes next, and is not there")),
        "Damaged" => Some(("row ", " is no fact, or stands where it cannot")),
        "Lost" => Some(("it has not the ", " facts that its head (-head) tells")),
        "Head" => Some(("what stands beside it as its head (-head) is none", "")),
        "BadFact" => Some((
            "fact ",
            " does not fit the side, the point and the facts before it",
        )),
        "MissingBook" => Some((
            "it is not there, or empty; no book is made beside one with facts, nor with --old",
            "",
        )),
        "TwoPasts" => Some(("their tables differ, first in cycle ", "")),
        "Unexpected" => Some(("its first facts are not those of --expect", "")),
        _ => None,
    }
}

/// The point of a script, by its first line.
fn point_of(script: &[u8]) -> Option<&str> {
    let line = str::from_utf8(first_line(script)?.1).ok()?;
    parted(line).1
}

/// Which of two files has the book of the other side, and whose book is wanted there, where the owner that was found tells.
fn misplaced<'a>(
    files: Files<'a>,
    point: Option<&'a str>,
    owner: &'a str,
) -> Option<(Files<'a>, Owner<'a>)> {
    let (side, code) = parted(owner);
    let (side, point) = (side.parse::<Side>().ok()?.other(), point?);
    if code? != point {
        return None;
    }
    let file = match (files, side) {
        (Files::EitherOf(initiating, _), Side::I) => Files::One(initiating),
        (Files::EitherOf(_, matching), Side::M) => Files::One(matching),
        (Files::Either(prefix), side) => Files::OfSide(prefix, side),
        (files, _) => files,
    };
    Some((file, Owner { side, point }))
}

/// The file that has another's book, and whose book is wanted there.
fn of_other<'a>(
    asked: &Asked<'a>,
    files: Files<'a>,
    owner: &'a str,
) -> (Files<'a>, Option<Owner<'a>>) {
    let found = match (asked.side, asked.point, asked.input) {
        (Some(side), Some(point), _) => return (files, Some(Owner { side, point })),
        (None, Some(point), _) => misplaced(files, Some(point), owner),
        (_, None, Some(script)) => misplaced(files, point_of(script), owner),
        _ => None,
    };
    match found {
        Some((file, wanted)) => (file, Some(wanted)),
        None => (files, None),
    }
}

/// The file of a side, of those that `serve` opens.
fn of_side<'a>(files: Files<'a>, side: &str) -> Files<'a> {
    match (files, side.parse::<Side>()) {
        (Files::Either(prefix), Ok(side)) => Files::OfSide(prefix, side),
        _ => files,
    }
}

fn both<'a>(files: Files<'a>) -> Files<'a> {
    match files {
        Files::Either(prefix) => Files::Both(prefix),
        _ => files,
    }
}

/// What is found of a book, by the name of the fault and the values behind it.
pub(crate) fn book_place<'a>(
    asked: &Asked<'a>,
    name: &str,
    values: &'a str,
) -> Option<BookPlace<'a>> {
    let (front, back) = words_of(name)?;
    let all = asked.files?;
    let (files, values, wanted) = match name {
        "OtherBook" => {
            let (file, wanted) = of_other(asked, all, values);
            (file, values, wanted)
        }
        "MissingBook" => (of_side(all, values), "", None),
        "TwoPasts" => (both(all), values, None),
        _ => (all, values, None),
    };
    Some(BookPlace {
        files,
        front,
        values,
        back,
        wanted,
    })
}

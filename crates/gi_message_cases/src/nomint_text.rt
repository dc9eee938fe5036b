//! Nominations as they are written in cases: JSON text with two short forms.
//!
//! `[10x24]` stands for 24 times 10, and a line with `"B<0-63>"` for 64 lines, with B0 to B63.

use crate::numbers::numbers;
use gi_messages::{Message, Nomint, decode};
use std::alloc::{AllocError, Global};
use std::fmt::Write;

/// A line that stands for many, in the text around it. The number of each stands between `start`
/// and `end`.
#[derive(Clone, Copy)]
struct ManyLines<'a> {
    before: &'a str,
    start: &'a str,
    first: u8,
    last: u8,
    end: &'a str,
    after: &'a str,
}

/// The first line of the text that stands for many.
fn many_lines(text: &str) -> Option<ManyLines<'_>> {
    let (left, right) = text.split_once('<')?;
    let (range, right) = right.split_once('>')?;
    let (first, last) = numbers(range)?;
    let (before, start) = left.rsplit_once('{')?;
    let (end, after) = right.split_once('}')?;
    Some(ManyLines {
        before,
        start,
        first,
        last,
        end,
        after,
    })
}

/// Adds one of the lines.
fn add_line(many: &ManyLines<'_>, number: u8, text: &mut String) -> Result<(), AllocError> {
    let comma = if number > many.first { "," } else { "" };
    write!(text, "{comma}{{{}{number}{}}}", many.start, many.end)
}

/// The text with all of its lines.
fn with_lines(alloc: Global, text: &str) -> Result<String, AllocError> {
    let Some(many) = many_lines(text) else {
        return String::from_str(alloc, text);
    };
    let mut full = String::from_str(alloc, many.before)?;
    for number in many.first..=many.last {
        add_line(&many, number, &mut full)?;
    }
    full.push_str(many.after)?;
    Ok(full)
}

/// The digits that the text begins with, and what is behind them.
fn number_first(text: &str) -> (&str, &str) {
    let rest = text.trim_start_matches(|c: char| c.is_ascii_digit());
    (text.strip_suffix(rest).unwrap_or(""), rest)
}

/// The digits that the text ends with.
fn number_last(text: &str) -> &str {
    let rest = text.trim_end_matches(|c: char| c.is_ascii_digit());
    text.strip_prefix(rest).unwrap_or("")
}

/// Adds a quantity so many times, with a comma before each.
fn add_copies(quantity: &str, count: u8, text: &mut String) -> Result<(), AllocError> {
    for _ in 0..count {
        write!(text, ",{quantity}")?;
    }
    Ok(())
}

/// Adds what stands behind an `x`: further copies of the quantity that the text ends with, and the
/// rest.
fn add_behind(alloc: Global, piece: &str, text: &mut String) -> Result<(), AllocError> {
    let quantity = String::from_str(alloc, number_last(text.as_str()))?;
    let (count, rest) = number_first(piece);
    let count = count.parse::<u8>().unwrap_or(1);
    add_copies(quantity.as_str(), count.saturating_sub(1), text)?;
    text.push_str(rest)
}

/// The text with all of its quantities.
fn with_quantities(alloc: Global, text: &str) -> Result<String, AllocError> {
    let mut full = String::new(alloc);
    for (place, piece) in text.split('x').enumerate() {
        if place > 0 {
            add_behind(alloc, piece, &mut full)?;
        } else {
            full.push_str(piece)?;
        }
    }
    Ok(full)
}

/// The text with all of its lines and quantities.
fn full_text(alloc: Global, text: &str) -> Result<String, AllocError> {
    let lines = with_lines(alloc, text)?;
    with_quantities(alloc, lines.as_str())
}

/// The nomination that the bytes are.
fn decoded(alloc: Global, bytes: &[u8]) -> Option<Nomint> {
    match decode(alloc, bytes) {
        Ok(Message::Nomint(nomint)) => Some(nomint),
        _ => None,
    }
}

/// The nomination that the text is.
pub(crate) fn nomint(alloc: Global, text: &str) -> Result<Option<Nomint>, AllocError> {
    let full = full_text(alloc, text)?;
    Ok(decoded(alloc, full.as_bytes()))
}

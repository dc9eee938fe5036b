//! Tables as the words of a call, and as an answer shows them. A table in a call is the first and
//! the last hour, and then its rows, each behind a bar: `23 24 | A B IM 10 20 | A C MI 5 5`; like
//! rows may stand before them, `25 25 rows A 0 4095 7`: of `A` and `B0` to `B4095`, in `IM`,
//! with 7 in each hour.

use crate::answer::Answer;
use crate::fault::Fault;
use crate::words::Words;
use gi_pairs::{Code, Direction, Hours, Key, Pair, Quantity, Row, Table, TableFault};
use std::alloc::Global;

/// Of a table of more rows the first, the last and the number between are shown.
const MOST_SHOWN: usize = 20;

/// Adds the quantities of the words. `false` where a word is none.
fn push_hours(words: Words<'_>, quantities: &mut Vec<Quantity>) -> Result<bool, Fault> {
    if words.is_empty() {
        return Ok(true);
    }
    for word in words.rest().split(' ') {
        let Some(quantity) = Words::of(word).quantity() else {
            return Ok(false);
        };
        quantities.push(quantity)?;
    }
    Ok(true)
}

/// The quantities of the words.
pub fn hours_of(alloc: Global, words: Words<'_>) -> Result<Option<Hours>, Fault> {
    let mut quantities = Vec::new(alloc);
    match push_hours(words, &mut quantities) {
        Ok(true) => Ok(Some(Hours::from(quantities))),
        refused => {
            // (handed to `drop`, by one call: going out of scope here would be checked field by
            // field on each way out)
            drop(quantities);
            refused.map(|_| None)
        }
    }
}

/// The row of the words: a key and then the quantities.
pub fn row_of(alloc: Global, mut words: Words<'_>) -> Result<Option<Row>, Fault> {
    let Some(Key { pair, direction }) = words.key() else {
        return Ok(None);
    };
    match hours_of(alloc, words)? {
        Some(hours) => Ok(Some(Row {
            pair,
            direction,
            hours,
        })),
        None => Ok(None),
    }
}

/// A row of `IM` with one quantity in each of so many hours.
pub fn like_row(alloc: Global, pair: Pair, quantity: Quantity, hours: u8) -> Result<Row, Fault> {
    let mut quantities = Vec::new(alloc);
    for _ in 0..hours {
        quantities.push(quantity)?;
    }
    Ok(Row {
        pair,
        direction: Direction::IM,
        hours: Hours::from(quantities),
    })
}

/// The code of `B` and a number.
fn numbered(alloc: Global, number: u32) -> Result<Option<Code>, Fault> {
    let text = format!(in alloc; "B{number}")?;
    Ok(Code::read(text.as_str()).ok())
}

/// Adds the row of a number.
fn push_like_row(
    alloc: Global,
    number: u32,
    (initiating, quantity): (Code, Quantity),
    hours: u8,
    rows: &mut Vec<Row>,
) -> Result<bool, Fault> {
    let Some(matching) = numbered(alloc, number)? else {
        return Ok(false);
    };
    let pair = Pair {
        initiating,
        matching,
    };
    rows.push(like_row(alloc, pair, quantity, hours)?)?;
    Ok(true)
}

/// Adds the rows of the words: the initiating code, the first and the last number, and the quantity.
fn push_like_rows(
    alloc: Global,
    mut words: Words<'_>,
    hours: u8,
    rows: &mut Vec<Row>,
) -> Result<bool, Fault> {
    let (Some(initiating), Some(first), Some(last), Some(quantity)) = (
        words.code(),
        words.number(),
        words.number(),
        words.quantity(),
    ) else {
        return Ok(false);
    };
    for number in first..=last {
        if !push_like_row(alloc, number, (initiating, quantity), hours, rows)? {
            return Ok(false);
        }
    }
    Ok(true)
}

/// Adds the rows that come before the first bar: none, or like rows behind the word `rows`.
fn push_begun(
    alloc: Global,
    mut words: Words<'_>,
    hours: u8,
    rows: &mut Vec<Row>,
) -> Result<bool, Fault> {
    match words.next() {
        "" => Ok(true),
        "rows" => push_like_rows(alloc, words, hours, rows),
        _ => Ok(false),
    }
}

/// The first and the last hour. Adds the rows that come before the first bar.
fn begun(alloc: Global, text: &str, rows: &mut Vec<Row>) -> Result<Option<(u8, u8)>, Fault> {
    let mut words = Words::of(text);
    let (Some(first), Some(last)) = (words.byte(), words.byte()) else {
        return Ok(None);
    };
    let hours = last.saturating_sub(first).saturating_add(1);
    if push_begun(alloc, words, hours, rows)? {
        Ok(Some((first, last)))
    } else {
        Ok(None)
    }
}

/// Adds the row of the words, where they are one.
fn push_row(alloc: Global, text: &str, rows: &mut Vec<Row>) -> Result<bool, Fault> {
    match row_of(alloc, Words::of(text))? {
        Some(row) => {
            rows.push(row)?;
            Ok(true)
        }
        None => Ok(false),
    }
}

/// The hours of a call. Adds its rows.
fn push_rows(alloc: Global, text: &str, rows: &mut Vec<Row>) -> Result<Option<(u8, u8)>, Fault> {
    let mut parts = text.split(" | ");
    let Some(hours) = begun(alloc, parts.next().unwrap_or(""), rows)? else {
        return Ok(None);
    };
    for part in parts {
        if !push_row(alloc, part, rows)? {
            return Ok(None);
        }
    }
    Ok(Some(hours))
}

/// What `Table::build` answers to the hours and rows of a call.
pub fn built_table(alloc: Global, text: &str) -> Result<Option<Result<Table, TableFault>>, Fault> {
    let mut rows = Vec::new(alloc);
    match push_rows(alloc, text, &mut rows) {
        Ok(Some((first, last))) => Ok(Some(Table::build(first, last, rows))),
        refused => {
            drop(rows);
            refused.map(|_| None)
        }
    }
}

/// The table of the hours and rows of a call, where they are one.
pub fn table_of(alloc: Global, text: &str) -> Result<Option<Table>, Fault> {
    match built_table(alloc, text)? {
        Some(Ok(table)) => Ok(Some(table)),
        _ => Ok(None),
    }
}

/// Adds the quantities, each behind a space.
pub fn add_hours(hours: &Hours, text: &mut Answer) {
    for quantity in hours.as_slice() {
        text.word(quantity.value());
    }
}

/// Adds what a row is for.
pub fn add_key(key: Key, text: &mut Answer) {
    text.show(key.pair.initiating);
    text.word(key.pair.matching);
    text.word(key.direction);
}

/// Adds a row, in a line.
pub fn add_row(row: &Row, text: &mut Answer) {
    add_key(row.key(), text);
    add_hours(&row.hours, text);
    text.end_line();
}

/// Adds rows of which there are too many to show: the first, how many more there are, and the last.
fn add_ends(rows: &[Row], text: &mut Answer) {
    let [first, between @ .., last] = rows else {
        return;
    };
    let more = between.len();
    add_row(first, text);
    text.show(more);
    text.add(" more");
    text.end_line();
    add_row(last, text)
}

/// Adds the hours of a table, behind a space where its line has begun, and a line for each row; where
/// there are more than 20, for the first, the number of those between, and the last.
pub fn add_table(table: &Table, text: &mut Answer) {
    text.word("hours");
    text.word(table.first());
    text.word(table.last());
    text.end_line();
    if table.rows().len() > MOST_SHOWN {
        return add_ends(table.rows(), text);
    }
    for row in table.rows() {
        add_row(row, text);
    }
}

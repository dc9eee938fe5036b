//! Codes, quantities, rows and tables.

use crate::order::order_of;
use crate::sides::{other, pair_at, pair_of};
use gi_calls::{
    Answer, Fault, Subject, Words, add_hours, add_key, add_row, add_table, built_table, hours_of,
    row_of,
};
use gi_pairs::{
    Code, CodeText, Direction, Hours, Key, LAST_HOUR, MOST_PROCESSED_ROWS, MOST_ROWS, Quantity,
    QuantityRange, Row, Side, Table, TableFault,
};
use std::alloc::Global;

/// The calls of the subject `tables`: the table of the last `build` that made one.
#[derive(Drop)]
pub struct Tables {
    table: Option<Table>,
}

/// `code TEXT`, the rest of the line.
fn code(given: &str, text: &mut Answer) -> bool {
    match Code::read(given) {
        Ok(code) => text.add(code.as_str()),
        Err(fault) => text.show(fault),
    }
    true
}

/// `long_code COUNT`: so many times `A`, read as a code.
fn long_code(alloc: Global, mut words: Words<'_>, text: &mut Answer) -> Result<bool, Fault> {
    let Some(count) = words.number() else {
        return Ok(false);
    };
    let mut given = String::new(alloc);
    for _ in 0..count {
        given.push_str("A")?;
    }
    Ok(code(given.as_str(), text))
}

/// `quantity NUMBER`.
fn quantity(mut words: Words<'_>, text: &mut Answer) -> bool {
    let Ok(value) = words.next().parse::<u64>() else {
        return false;
    };
    match Quantity::new(value) {
        Ok(quantity) => {
            text.show(quantity.value());
        }
        Err(fault) => text.show(fault),
    }
    true
}

/// How the next two values stand to each other, where both could be read.
fn order_of_both<T: Ord + Copy>(left: Option<T>, right: Option<T>) -> Option<&'static str> {
    match (left, right) {
        (Some(left), Some(right)) => Some(order_of(left, right)),
        _ => None,
    }
}

/// `compare KIND VALUE VALUE`.
fn compare(mut words: Words<'_>, text: &mut Answer) -> bool {
    let order = match words.next() {
        "quantity" => order_of_both(words.quantity(), words.quantity()),
        "code" => order_of_both(words.code(), words.code()),
        "direction" => order_of_both(words.direction(), words.direction()),
        "pair" => order_of_both(words.pair(), words.pair()),
        "key" => order_of_both(words.key(), words.key()),
        "cycle" => order_of_both(words.cycle(), words.cycle()),
        _ => None,
    };
    let Some(order) = order else {
        return false;
    };
    text.add(order);
    true
}

/// `hours QUANTITY ..`: a copy of the hours, given back as a list.
fn hours(alloc: Global, words: Words<'_>, text: &mut Answer) -> Result<bool, Fault> {
    let Some(hours) = hours_of(alloc, words)? else {
        return Ok(false);
    };
    let quantities = hours.copy()?.into_vec();
    text.show(quantities.len());
    text.add(":");
    add_hours(&Hours::from(quantities), text);
    Ok(true)
}

/// `key ROW`: what the row is for.
fn key(alloc: Global, words: Words<'_>, text: &mut Answer) -> Result<bool, Fault> {
    let Some(row) = row_of(alloc, words)? else {
        return Ok(false);
    };
    add_key(row.key(), text);
    Ok(true)
}

/// `copy_row ROW`: a copy of the row.
fn copy_row(alloc: Global, words: Words<'_>, text: &mut Answer) -> Result<bool, Fault> {
    let Some(row) = row_of(alloc, words)? else {
        return Ok(false);
    };
    add_row(&row.copy()?, text);
    Ok(true)
}

/// Adds whether the row is that of the words.
fn add_equal(alloc: Global, left: &Row, right: &str, text: &mut Answer) -> Result<bool, Fault> {
    let Some(right) = row_of(alloc, Words::of(right))? else {
        return Ok(false);
    };
    text.show(*left == right);
    Ok(true)
}

/// `equal ROW | ROW`: whether the rows are equal.
fn equal(alloc: Global, rows: &str, text: &mut Answer) -> Result<bool, Fault> {
    let Some((left, right)) = rows.split_once(" | ") else {
        return Ok(false);
    };
    match row_of(alloc, Words::of(left))? {
        Some(left) => add_equal(alloc, &left, right, text),
        None => Ok(false),
    }
}

/// `names`: sides, directions and refusals.
fn names(text: &mut Answer) -> bool {
    let (initiating, matching) = (Side::I, Side::M);
    text.show(initiating);
    text.word(matching);
    text.end_line();
    let (leaving, entering) = (Direction::IM, Direction::MI);
    text.show(leaving);
    text.word(entering);
    text.end_line();
    let (range, format) = (QuantityRange, CodeText);
    text.show(range);
    text.word(format);
    text.end_line();
    let (hours, rows) = (TableFault::HourRange, TableFault::TooManyRows);
    text.show(hours);
    text.word(rows);
    text.end_line();
    let (unequal, twice) = (TableFault::UnequalHours, TableFault::Duplicate);
    text.show(unequal);
    text.word(twice);
    text.end_line();
    text.show(TableFault::OutOfMemory);
    text.end_line();
    true
}

/// `limits`: the last hour, the most rows of a processed table and the most rows of a table.
fn limits(text: &mut Answer) -> bool {
    text.show(LAST_HOUR);
    text.word(MOST_PROCESSED_ROWS);
    text.word(MOST_ROWS);
    true
}

/// Adds what the table reads, behind what stands there.
fn add_reading(table: &Table, key: &Key, hour: u8, text: &mut Answer) {
    text.word(table.at(key.pair, key.direction, hour));
}

/// `at INITIATING MATCHING DIRECTION HOUR ..`: the readings in these hours.
fn at(table: &Table, mut words: Words<'_>, text: &mut Answer) -> bool {
    let Some(key) = words.key() else {
        return false;
    };
    for word in words.rest().split(' ') {
        let Ok(hour) = word.parse::<u8>() else {
            return false;
        };
        add_reading(table, &key, hour, text);
    }
    true
}

/// The calls of values alone.
fn on_values(name: &str, words: Words<'_>, text: &mut Answer) -> bool {
    match name {
        "code" => code(words.rest(), text),
        "quantity" => quantity(words, text),
        "compare" => compare(words, text),
        "other" => other(words, text),
        "pair_of" => pair_of(words, text),
        "pair_at" => pair_at(words, text),
        "names" => names(text),
        "limits" => limits(text),
        _ => false,
    }
}

impl Tables {
    pub fn new() -> Tables {
        Tables { table: None }
    }

    /// Keeps a table in the place of the one before, which is let go here alone.
    fn keep(&mut self, table: Table, text: &mut Answer) {
        self.table = Some(table);
        text.add("ok");
    }

    /// `build FIRST LAST ROWS`; where it is refused the table before it stays.
    fn build(&mut self, alloc: Global, given: &str, text: &mut Answer) -> Result<bool, Fault> {
        let Some(built) = built_table(alloc, given)? else {
            return Ok(false);
        };
        match built {
            Ok(table) => self.keep(table, text),
            Err(fault) => text.show(fault),
        }
        Ok(true)
    }

    /// `copy`: a copy of the table takes its place.
    fn copy(&mut self, text: &mut Answer) -> Result<bool, Fault> {
        let Some(table) = &self.table else {
            return Ok(false);
        };
        let copy = table.copy()?;
        self.keep(copy, text);
        Ok(true)
    }

    /// The calls of a table.
    fn on_table(&self, name: &str, words: Words<'_>, text: &mut Answer) -> bool {
        let Some(table) = &self.table else {
            return false;
        };
        match name {
            "rows" => {
                add_table(table, text);
                true
            }
            "at" => at(table, words, text),
            _ => false,
        }
    }
}

impl Subject for Tables {
    fn answer(&mut self, rt: &HostRuntime, call: &str, text: &mut Answer) -> Result<bool, Fault> {
        let alloc = rt.alloc();
        let mut words = Words::of(call);
        match words.next() {
            "long_code" => long_code(alloc, words, text),
            "hours" => hours(alloc, words, text),
            "key" => key(alloc, words, text),
            "copy_row" => copy_row(alloc, words, text),
            "equal" => equal(alloc, words.rest(), text),
            "build" => self.build(alloc, words.rest(), text),
            "copy" => self.copy(text),
            name => Ok(on_values(name, words, text) || self.on_table(name, words, text)),
        }
    }
}

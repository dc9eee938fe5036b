//! Quantities as they are printed.

use gi_calls::Answer;
use gi_pairs::{Quantity, Row, Table};

/// Adds a quantity, behind a space, and how many times it stands there.
fn add_run(quantity: Quantity, count: usize, text: &mut Answer) {
    text.word(quantity.value());
    if count > 1 {
        text.add("x");
        text.show(count);
    }
}

/// Adds quantities in kWh/h, each behind a space; `10x24` stands for 24 times 10.
pub(crate) fn add_hours(hours: &[Quantity], text: &mut Answer) {
    for run in hours.chunk_by(|one, next| one == next) {
        if let Some(quantity) = run.first() {
            add_run(*quantity, run.len(), text);
        }
    }
}

/// Adds a row.
fn add_row(row: &Row, text: &mut Answer) {
    text.show(row.pair.initiating);
    text.word(row.pair.matching);
    text.word(row.direction);
    add_hours(row.hours.as_slice(), text);
}

/// Adds a table: the hours that it covers, and then a line for each row.
pub(crate) fn add_table(table: &Table, text: &mut Answer) {
    let (first, last) = (table.first(), table.last());
    text.add("hours");
    text.word(first);
    text.word(last);
    for row in table.rows() {
        text.end_line();
        add_row(row, text);
    }
}

//! What decisions are made of: how two tables compare.

use super::deciding::add_decision;
use super::tables::two_tables;
use gi_calls::{Answer, Fault, Words};
use gi_desk::{difference, met_again};
use gi_pairs::Table;
use std::alloc::Global;

/// Adds how the two tables compare, by the function of that name.
fn add_comparison(function: &str, one: &Table, other: &Table, text: &mut Answer) -> bool {
    match function {
        "difference" => match difference(one.rows(), other.rows()) {
            Some(row) => text.show(row),
            None => text.add("none"),
        },
        "met_again" => add_decision(&met_again(one, other), text),
        "covers_same_hours" => text.show(one.covers_same_hours(other)),
        _ => return false,
    }
    true
}

/// Adds how the two tables of the line compare, by the function of that name.
pub(crate) fn compared(alloc: Global, line: &str, text: &mut Answer) -> Result<bool, Fault> {
    let mut words = Words::of(line);
    let function = words.next();
    let Some((one, other)) = two_tables(alloc, words.rest(), " and ")? else {
        return Ok(false);
    };
    let is_added = add_comparison(function, &one, &other, text);
    // (handed to `drop`, by one call: going out of scope here would be checked field by field on
    // each way out)
    drop((one, other));
    Ok(is_added)
}

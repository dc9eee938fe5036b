//! Quantities in order of counterparty, reduced one by one, each from the sums of all quantities,
//! of those before it and of those up to it: a second program, which answers the same.

ghost use Rattle.std.specs.Prelude.{◌<◌};

use crate::processing::reducing::{OTHERS, add_line, processed_lines};
use gi_calls::{Answer, Fault, Words};
use gi_pairs::Table;
use gi_processing::Rule;
use std::alloc::{AllocError, Global};
use std::fmt::Write;

/// A sum scaled to what is available in place of the total, rounded down.
fn scaled(available: u64, sum: u64, total: u64) -> u64 {
    let whole = u128::from(available).wrapping_mul(u128::from(sum)) / u128::from(total).max(1);
    u64::try_from(whole).unwrap_or(u64::MAX)
}

/// The quantity at a place, reduced to what is available.
fn part_of(quantities: [u64; 3], place: usize, available: u64) -> u64
    requires { place < 3 }
{
    let (mut total, mut before, mut up_to) = (0u64, 0u64, 0u64);
    for other in 0..3 {
        let quantity = quantities[other];
        total = total.wrapping_add(quantity);
        before = before.wrapping_add(if other < place { quantity } else { 0 });
        up_to = up_to.wrapping_add(if other <= place { quantity } else { 0 });
    }
    if total <= available {
        return quantities[place];
    }
    scaled(available, up_to, total).wrapping_sub(scaled(available, before, total))
}

/// The quantities reduced to what is available.
fn one_by_one(quantities: [u64; 3], available: u64) -> [u64; 3] {
    let mut parts = [0; 3];
    for place in 0..3 {
        parts[place] = part_of(quantities, place, available);
    }
    parts
}

/// Three quantities of the values, which differ from number to number.
fn three(values: [u64; 6], number: usize) -> [u64; 3]
    requires { number < 216 }
{
    [
        values[number / 36],
        values[number / 6 % 6],
        values[number % 6],
    ]
}

/// The quantities of a day's hours, 24 numbers from the first on, at one place of the three.
fn hours_of(alloc: Global, values: [u64; 6], day: usize, place: usize) -> Result<String, AllocError>
    requires day { day < 9 }
    requires place { place < 3 }
{
    let mut hours = String::new(alloc);
    for hour in 0..24 {
        let quantities = three(values, day * 24 + hour);
        let comma = if hour > 0 { "," } else { "" };
        write!(hours, "{comma}{}", quantities[place])?;
    }
    Ok(hours)
}

/// Adds the line of a day at one place of the three.
fn add_day(
    alloc: Global,
    values: [u64; 6],
    day: usize,
    place: usize,
    lines: &mut String,
) -> Result<(), AllocError>
    requires day { day < 9 }
    requires place { place < 3 }
{
    let hours = hours_of(alloc, values, day, place)?;
    add_line(OTHERS[place], "IM", hours.as_str(), "", lines)
}

/// The lines of a day, which are not in order of counterparty.
fn lines_of(alloc: Global, values: [u64; 6], day: usize) -> Result<String, AllocError>
    requires { day < 9 }
{
    let mut lines = String::new(alloc);
    for place in [1, 2, 0] {
        add_day(alloc, values, day, place, &mut lines)?;
    }
    Ok(lines)
}

/// What is processed in an hour, counted from 0, of the row at a place.
fn part_at(table: &Table, place: usize, hour: usize) -> Option<u64> {
    let row = table.rows().get(place)?;
    let part = row.hours.as_slice().get(hour)?;
    Some(part.value())
}

/// Whether the rows of the table have these parts in an hour, counted from 0.
pub(crate) fn has_parts(table: &Table, hour: usize, parts: &[u64]) -> bool {
    if table.rows().len() != parts.len() {
        return false;
    }
    for (place, part) in parts.iter().enumerate() {
        if part_at(table, place, hour) != Some(*part) {
            return false;
        }
    }
    true
}

/// The first quantities of a day of which the table has other parts than they have one by one.
fn other_parts(table: &Table, values: [u64; 6], day: usize, available: u64) -> Option<[u64; 3]>
    requires { day < 9 }
{
    for hour in 0..24 {
        let quantities = three(values, day * 24 + hour);
        if !has_parts(table, hour, &one_by_one(quantities, available)) {
            return Some(quantities);
        }
    }
    None
}

/// The next six words as numbers.
fn six_numbers(words: &mut Words<'_>) -> Option<[u64; 6]> {
    let mut values = [0; 6];
    for place in 0..6 {
        values[place] = words.next().parse::<u64>().ok()?;
    }
    Some(values)
}

/// What is processed of a day's quantities.
fn table_of(
    alloc: Global,
    values: [u64; 6],
    day: usize,
    available: u64,
) -> Result<Option<Table>, AllocError>
    requires { day < 9 }
{
    let lines = lines_of(alloc, values, day)?;
    let half = available / 2;
    processed_lines(alloc, half, available - half, lines.as_str(), Rule::Two)
}

/// Adds whether each three of the values are reduced as one by one, or the first three that are not.
fn compare(
    alloc: Global,
    values: [u64; 6],
    available: u64,
    text: &mut Answer,
) -> Result<bool, Fault> {
    for day in 0..9 {
        let Some(table) = table_of(alloc, values, day, available)? else {
            return Ok(false);
        };
        if let Some(quantities) = other_parts(&table, values, day, available) {
            text.debug(&quantities);
            text.add(" not as one by one");
            return Ok(true);
        }
    }
    text.add("216 as one by one");
    Ok(true)
}

/// Answers `AVAILABLE VALUE VALUE VALUE VALUE VALUE VALUE`: whether each three of the values, 24
/// threes in the hours of one day, are reduced as one by one.
pub(crate) fn reduce_triples(
    alloc: Global,
    mut words: Words<'_>,
    text: &mut Answer,
) -> Result<bool, Fault> {
    let (Ok(available), Some(values)) = (words.next().parse::<u64>(), six_numbers(&mut words))
    else {
        return Ok(false);
    };
    compare(alloc, values, available, text)
}

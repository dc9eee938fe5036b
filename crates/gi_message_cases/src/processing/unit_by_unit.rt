//! Quantities of which each unit is given away by itself, by either rule: a second program, which
//! answers the same.

ghost use Rattle.std.specs.Prelude.{◌<◌};

use crate::processing::drawn::Drawn;
use crate::processing::one_by_one::has_parts;
use crate::processing::reducing::processed_lines;
use gi_calls::{Answer, Fault, Words};
use gi_pairs::Table;
use gi_processing::Rule;
use std::alloc::Global;

/// The quantities of an hour in order of counterparty, 0 where there is no line, each in a group from
/// 1 to 9: those of lower numbers are served first, and those of one number together.
#[derive(Clone, Copy)]
struct Quantities {
    each: [u64; 6],
    groups: [u8; 6],
}

/// What each has got, and what is left.
#[derive(Clone, Copy)]
struct Served {
    parts: [u64; 6],
    left: u64,
}

impl Quantities {
    /// The sum of a group's quantities up to a place.
    fn sum_up_to(&self, place: usize, group: u8) -> u64 {
        let mut sum = 0u64;
        for other in 0..6 {
            if other <= place && self.groups[other] == group {
                sum = sum.wrapping_add(self.each[other]);
            }
        }
        sum
    }

    /// Whose a unit is, counted from 1, of those that are given to a group: the first one's at which the
    /// sum, in proportion, is that large.
    fn owner(&self, unit: u64, given: u64, group: u8) -> usize
        ensures { result < 6 }
    {
        let all = self.sum_up_to(5, group);
        for place in 0..5 {
            if given.wrapping_mul(self.sum_up_to(place, group)) >= unit.wrapping_mul(all) {
                return place;
            }
        }
        5
    }
}

impl Served {
    /// Gives a group what is left, unit by unit, but no more than its quantities: where all fit, each
    /// gets its own.
    fn serve(&mut self, quantities: &Quantities, group: u8) {
        let given = self.left.min(quantities.sum_up_to(5, group));
        for unit in 1..=given {
            let owner = quantities.owner(unit, given, group);
            self.parts[owner] = self.parts[owner].wrapping_add(1);
        }
        self.left = self.left.wrapping_sub(given);
    }
}

/// The group of a priority: by rule 1 all are in one.
fn group_of(rule: Rule, priority: u8) -> u8 {
    match rule {
        Rule::One => 1,
        Rule::Two => priority,
    }
}

/// What is given of the quantities.
fn unit_by_unit(quantities: &Quantities, available: u64) -> [u64; 6] {
    let mut served = Served {
        parts: [0; 6],
        left: available,
    };
    for group in 1..10 {
        served.serve(quantities, group);
    }
    served.parts
}

/// The quantities of a nomination in an hour, counted from 0.
fn quantities_of(drawn: Drawn, rule: Rule, hour: usize) -> Quantities {
    let (mut each, mut groups) = ([0; 6], [0; 6]);
    for place in 0..6 {
        each[place] = drawn.quantity(place, hour);
        groups[place] = group_of(rule, drawn.priority(place));
    }
    Quantities { each, groups }
}

/// The first hour, counted from 0, in which the table has other parts.
fn other_hour(drawn: Drawn, rule: Rule, table: &Table) -> Option<usize> {
    for hour in 0..24 {
        let parts = unit_by_unit(&quantities_of(drawn, rule, hour), drawn.available());
        if !has_parts(table, hour, parts.get(..drawn.count).unwrap_or(&parts)) {
            return Some(hour);
        }
    }
    None
}

/// Adds the call of `reduce_by` for an hour.
fn add_hour(drawn: Drawn, rule: Rule, hour: usize, text: &mut Answer) {
    text.add("reduce_by");
    text.word(rule.number());
    text.word(drawn.available());
    for place in 0..drawn.count {
        text.word(drawn.quantity(place, hour));
        text.add("/");
        text.show(drawn.priority(place));
    }
}

/// Whether the nomination is reduced by a rule as unit by unit. Adds the first hour that is not.
fn is_same(alloc: Global, drawn: Drawn, rule: Rule, text: &mut Answer) -> Result<bool, Fault> {
    let available = drawn.available();
    let half = available / 2;
    let lines = drawn.lines(alloc)?;
    let Some(table) = processed_lines(alloc, half, available - half, lines.as_str(), rule)? else {
        text.add("no table");
        return Ok(false);
    };
    if let Some(hour) = other_hour(drawn, rule, &table) {
        add_hour(drawn, rule, hour, text);
        text.add(" not as unit by unit");
        return Ok(false);
    }
    Ok(true)
}

/// The nomination of the next three words: the number, how many lines, and the greatest quantity.
fn drawn_of(words: &mut Words<'_>) -> Option<Drawn> {
    let number = words.number()?;
    let count = words.byte()?;
    let most = words.number()?;
    if count > 6 {
        return None;
    }
    Some(Drawn {
        number: u64::from(number),
        count: usize::from(count),
        most: u64::from(most),
    })
}

/// Answers `NUMBER LINES MOST`: whether the 24 hours of a nomination that is drawn are reduced by
/// either rule as unit by unit.
pub(crate) fn reduce_drawn(
    alloc: Global,
    mut words: Words<'_>,
    text: &mut Answer,
) -> Result<bool, Fault> {
    let Some(drawn) = drawn_of(&mut words) else {
        return Ok(false);
    };
    if is_same(alloc, drawn, Rule::One, text)? && is_same(alloc, drawn, Rule::Two, text)? {
        text.add("48 as unit by unit");
    }
    Ok(true)
}

//! The processed table of a list of facts, line by line by the two sums of the definition.

use crate::frames::{first_hour, hours};
use crate::memory::put;
use crate::reading::{available, in_force};
use gi_day::{Calendar, GasDay};
use gi_desk::Fact;
use gi_lesser::lesser;
use gi_messages::{NominationLine, Nomint};
use gi_pairs::{CycleId, Hours, MOST_PROCESSED_ROWS, Pair, Quantity, Row, Side, Table};
use gi_processing::Rule;
use std::alloc::Global;

/// What a line nominates in an hour, from 1.
fn nominated(line: &NominationLine, hour: u8) -> u64 {
    match line.hours.as_slice().get(usize::from(hour).wrapping_sub(1)) {
        Some(quantity) => quantity.value(),
        None => 0,
    }
}

/// Whether both lines share what is available.
fn share(rule: Rule, line: &NominationLine, other: &NominationLine) -> bool {
    other.direction == line.direction && (rule == Rule::One || other.priority == line.priority)
}

/// What the lines of the direction take that are served before the line.
fn taken(rule: Rule, lines: &[NominationLine], line: &NominationLine, hour: u8) -> u64 {
    let mut taken = 0u64;
    if rule == Rule::Two {
        for other in lines {
            if other.direction == line.direction && other.priority < line.priority {
                taken = taken.wrapping_add(nominated(other, hour));
            }
        }
    }
    taken
}

/// The sums of all lines that share with the line, of those before it in order of counterparty, and of
/// these with it.
fn sums(rule: Rule, lines: &[NominationLine], line: &NominationLine, hour: u8) -> (u64, u64, u64) {
    let mut all = 0u64;
    let mut before = 0u64;
    for other in lines {
        if share(rule, line, other) {
            all = all.wrapping_add(nominated(other, hour));
            if other.counterparty < line.counterparty {
                before = before.wrapping_add(nominated(other, hour));
            }
        }
    }
    (all, before, before.wrapping_add(nominated(line, hour)))
}

/// What of a line is processed in an hour.
fn processed_in(
    facts: &[Fact],
    document: &Nomint,
    line: &NominationLine,
    hour: u8,
    rule: Rule,
) -> u64 {
    let all_available = available(
        facts,
        document.portfolio,
        document.day,
        line.direction,
        hour,
    );
    let lines = document.lines.as_slice();
    let available = all_available.saturating_sub(taken(rule, lines, line, hour));
    let (all, before, with) = sums(rule, lines, line, hour);
    if all <= available {
        return nominated(line, hour);
    }
    let up_to = available.wrapping_mul(with).checked_div(all).unwrap_or(0);
    let others = available.wrapping_mul(before).checked_div(all).unwrap_or(0);
    up_to.wrapping_sub(others)
}

/// What of a line is processed in each of the hours, from the first to the last.
fn processed_hours(
    alloc: Global,
    facts: &[Fact],
    document: &Nomint,
    line: &NominationLine,
    hours: (u8, u8),
    rule: Rule,
) -> Hours {
    let mut quantities = Vec::new(alloc);
    for hour in hours.0..hours.1.wrapping_add(1) {
        if let Ok(quantity) = Quantity::new(processed_in(facts, document, line, hour, rule)) {
            put(&mut quantities, quantity);
        }
    }
    Hours::from(quantities)
}

/// Adds the rows of a nomination.
fn add_rows(
    rows: &mut Vec<Row>,
    facts: &[Fact],
    side: Side,
    document: &Nomint,
    hours: (u8, u8),
    rule: Rule,
) {
    let alloc = *rows.allocator();
    for line in document.lines.as_slice() {
        let row = Row {
            pair: Pair::of(side, document.portfolio, line.counterparty),
            direction: line.direction,
            hours: processed_hours(alloc, facts, document, line, hours, rule),
        };
        put(rows, row);
    }
}

/// Whether the nomination is the one in force.
fn is_in_force(facts: &[Fact], document: &Nomint) -> bool {
    match in_force(facts, document.portfolio, document.day) {
        Some(held) => held.version == document.version,
        None => false,
    }
}

/// The rows of all nominations in force for a gas day.
fn rows_of(
    alloc: Global,
    facts: &[Fact],
    side: Side,
    day: GasDay,
    hours: (u8, u8),
    rule: Rule,
) -> Vec<Row> {
    let mut rows = Vec::new(alloc);
    for fact in facts {
        if let Fact::Nominated(document) = fact {
            if document.day == day && is_in_force(facts, document) {
                add_rows(&mut rows, facts, side, document, hours, rule);
            }
        }
    }
    rows
}

/// The processed table of a cycle by these facts and the rule.
pub fn processed(
    alloc: Global,
    calendar: &Calendar,
    facts: &[Fact],
    side: Side,
    id: &CycleId,
    rule: Rule,
) -> Option<Table> {
    let first = first_hour(calendar, id)?;
    let last = hours(calendar, id.day);
    let rows = rows_of(alloc, facts, side, id.day, (first, last), rule);
    Table::build(first, last, rows).ok()
}

/// The lesser of two small tables of the same hours.
pub fn lesser_of(alloc: Global, own: &Table, peer: &Table) -> Option<Table> {
    if !own.covers_same_hours(peer)
        || own.rows().len() > MOST_PROCESSED_ROWS
        || peer.rows().len() > MOST_PROCESSED_ROWS
    {
        return None;
    }
    lesser(alloc, own, peer).ok()
}

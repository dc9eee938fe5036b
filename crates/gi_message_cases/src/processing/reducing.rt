//! Quantities that one portfolio nominates, reduced to what is available to it: A nominates on a
//! day of 24 hours, to B, C, D and so on.

ghost use Rattle.std.specs.Prelude.{◌<◌};

use crate::hours_text::add_hours;
use crate::nomint_text::nomint;
use crate::processing::records::Records;
use gi_calls::{Answer, Fault, Words};
use gi_messages::Nomint;
use gi_nominations::Verdict;
use gi_pairs::{Direction, Quantity, Side, Table};
use gi_processing::{Contract, Rule};
use std::alloc::{AllocError, Global};
use std::fmt::Write;

/// The counterparties.
pub const OTHERS: [&str; 6] = ["B", "C", "D", "E", "F", "G"];

const NOMINT: &str =
    r#""kind":"NOMINT","point":"BORDER-1","portfolio":"A","day":"2026-01-15","version":1"#;

/// Adds a line to lines that are written as JSON text, with hours as they are written in cases, and
/// without a priority where that is empty.
pub(crate) fn add_line(
    counterparty: &str,
    direction: &str,
    hours: &str,
    priority: &str,
    lines: &mut String,
) -> Result<(), AllocError> {
    let comma = if lines.is_empty() { "" } else { "," };
    let key = if priority.is_empty() {
        ""
    } else {
        r#","priority":"#
    };
    write!(
        lines,
        r#"{comma}{{"counterparty":"{counterparty}","direction":"{direction}","hours":[{hours}]{key}{priority}}}"#
    )
}

/// A's nomination with these lines.
fn nomint_with(alloc: Global, lines: &str) -> Result<Option<Nomint>, AllocError> {
    let text = format!(in alloc; r#"{{{NOMINT},"lines":[{lines}]}}"#)?;
    nomint(alloc, text.as_str())
}

/// The contract for `IM` of the portfolio that nominates.
fn contract_for(nomint: &Nomint, firm: u64, interruptible: u64) -> Option<Contract> {
    let (Ok(firm), Ok(interruptible)) = (Quantity::new(firm), Quantity::new(interruptible)) else {
        return None;
    };
    Some(Contract {
        portfolio: nomint.portfolio,
        day: nomint.day,
        direction: Direction::IM,
        firm,
        interruptible,
    })
}

/// The processed table of cycle 0 at the initiating side by a rule. The side has recorded no more than
/// this contract and this nomination. Without the contract the nomination is refused.
fn processed_alone(
    alloc: Global,
    contract: Contract,
    nomint: Nomint,
    rule: Rule,
) -> Result<Option<Table>, AllocError> {
    let day = nomint.day;
    let mut records = Records::new(alloc, nomint.point);
    let _ = records.set(contract);
    let Verdict::Recordable = records.take(nomint)? else {
        return Ok(None);
    };
    Ok(records.processed(alloc, Side::I, day, 0, rule)?.ok())
}

/// The processed table of cycle 0 at the initiating side by a rule, where the contract of A for `IM`
/// has a firm and an interruptible quantity and A has these lines in force.
pub(crate) fn processed_lines(
    alloc: Global,
    firm: u64,
    interruptible: u64,
    lines: &str,
    rule: Rule,
) -> Result<Option<Table>, AllocError> {
    let Some(nomint) = nomint_with(alloc, lines)? else {
        return Ok(None);
    };
    match contract_for(&nomint, firm, interruptible) {
        Some(contract) => processed_alone(alloc, contract, nomint, rule),
        None => Ok(None),
    }
}

/// Adds a line in `IM` with this quantity in every hour, and the priority, where it is not empty.
fn add_same(
    alloc: Global,
    counterparty: &str,
    quantity: &str,
    priority: &str,
    lines: &mut String,
) -> Result<(), AllocError> {
    let hours = format!(in alloc; "{quantity}x24")?;
    add_line(counterparty, "IM", hours.as_str(), priority, lines)
}

/// Lines in `IM` with these quantities in every hour, B's first. Where they are mixed, the last one
/// is first, behind a line of C in `MI`.
fn lines_of(alloc: Global, quantities: &[&str], mixed: bool) -> Result<String, AllocError> {
    let mut lines = String::new(alloc);
    if mixed {
        add_line("C", "MI", "1000x24", "", &mut lines)?;
    }
    let count = quantities.len().min(6);
    for i in 0..count {
        let place = if mixed { count - 1 - i } else { i };
        add_same(alloc, OTHERS[place], quantities[place], "", &mut lines)?;
    }
    Ok(lines)
}

/// Adds the rows in one line.
fn add_rows(table: &Table, text: &mut Answer) {
    for (place, row) in table.rows().iter().enumerate() {
        if place > 0 {
            text.add(", ");
        }
        text.show(row.pair.matching);
        text.word(row.direction);
        add_hours(row.hours.as_slice(), text);
    }
    if table.rows().is_empty() {
        text.add("no rows");
    }
}

/// Adds the rows of the lines, where so much firm quantity is available.
fn add_processed(
    alloc: Global,
    available: u64,
    lines: &str,
    rule: Rule,
    text: &mut Answer,
) -> Result<bool, Fault> {
    let Some(table) = processed_lines(alloc, available, 0, lines, rule)? else {
        return Ok(false);
    };
    add_rows(&table, text);
    Ok(true)
}

/// The words of a text.
fn words_of(alloc: Global, text: &str) -> Result<Vec<&str>, AllocError> {
    let mut words = Vec::new(alloc);
    for word in text.split_whitespace() {
        words.push(word)?;
    }
    Ok(words)
}

/// Lines with the quantities of a text.
fn lines_from(alloc: Global, text: &str, mixed: bool) -> Result<String, AllocError> {
    let quantities = words_of(alloc, text)?;
    lines_of(alloc, &quantities, mixed)
}

/// Answers `AVAILABLE QUANTITY ..`: what is processed of the quantities.
pub(crate) fn reduce(
    alloc: Global,
    mut words: Words<'_>,
    mixed: bool,
    text: &mut Answer,
) -> Result<bool, Fault> {
    let Ok(available) = words.next().parse::<u64>() else {
        return Ok(false);
    };
    let lines = lines_from(alloc, words.rest(), mixed)?;
    add_processed(alloc, available, lines.as_str(), Rule::Two, text)
}

/// Lines in `IM` with the quantities and priorities of a text, which are written `QUANTITY/PRIORITY`,
/// or `QUANTITY` for a line that names no priority; B's first.
fn lines_with_priorities(alloc: Global, text: &str) -> Result<Option<String>, AllocError> {
    let mut lines = String::new(alloc);
    for (place, word) in text.split_whitespace().enumerate() {
        let Some(counterparty) = OTHERS.get(place) else {
            return Ok(None);
        };
        let (quantity, priority) = word.split_once('/').unwrap_or((word, ""));
        add_same(alloc, counterparty, quantity, priority, &mut lines)?;
    }
    Ok(Some(lines))
}

/// Answers `RULE AVAILABLE QUANTITY/PRIORITY ..`: what is processed of the quantities by the rule.
pub(crate) fn reduce_by(
    alloc: Global,
    mut words: Words<'_>,
    text: &mut Answer,
) -> Result<bool, Fault> {
    let (Some(rule), Ok(available)) = (words.rule(), words.next().parse::<u64>()) else {
        return Ok(false);
    };
    let Some(lines) = lines_with_priorities(alloc, words.rest())? else {
        return Ok(false);
    };
    add_processed(alloc, available, lines.as_str(), rule, text)
}

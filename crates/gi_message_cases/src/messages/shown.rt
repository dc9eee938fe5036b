//! The fields of what was read, in words.

use gi_calls::{Answer, add_hours, add_table};
use gi_day::GasDay;
use gi_messages::{
    Acknow, Delord, Delres, Line, Lines, Message, NominationLine, Nomint, Nomres, USUAL_PRIORITY,
};
use gi_pairs::Code;
use std::fmt::Display;

/// Adds a field behind its name.
pub(crate) fn add_field<T: Display>(name: &str, value: &T, text: &mut Answer) {
    text.word(name);
    text.word(value);
}

/// Adds a point and a portfolio.
fn add_portfolio(point: Code, portfolio: Code, text: &mut Answer) {
    add_field("point", &point, text);
    add_field("portfolio", &portfolio, text);
}

/// Adds a day and a cycle.
pub(crate) fn add_cycle(day: GasDay, cycle: u8, text: &mut Answer) {
    add_field("day", &day, text);
    add_field("cycle", &cycle, text);
}

/// Adds a line of a message.
pub(crate) fn add_line(line: &Line, text: &mut Answer) {
    text.add(line.counterparty.as_str());
    text.add(" ");
    text.add(line.direction.as_str());
    add_hours(&line.hours, text);
    text.end_line();
}

/// Adds the lines of a message, in their order.
pub(crate) fn add_lines(lines: &Lines<Line>, text: &mut Answer) {
    if lines.as_slice().is_empty() {
        text.add("no lines\n");
    }
    for line in lines.as_slice() {
        add_line(line, text);
    }
}

/// Adds the priority of a line, where it is not the usual one.
pub(crate) fn add_priority(line: &NominationLine, text: &mut Answer) {
    if line.priority != USUAL_PRIORITY {
        add_field("priority", &line.priority, text);
    }
}

/// Adds a line of a nomination.
pub(crate) fn add_nomination_line(line: &NominationLine, text: &mut Answer) {
    text.add(line.counterparty.as_str());
    text.add(" ");
    text.add(line.direction.as_str());
    add_priority(line, text);
    add_hours(&line.hours, text);
    text.end_line();
}

/// Adds the lines of a nomination, in their order.
pub(crate) fn add_nomination_lines(lines: &Lines<NominationLine>, text: &mut Answer) {
    if lines.as_slice().is_empty() {
        text.add("no lines\n");
    }
    for line in lines.as_slice() {
        add_nomination_line(line, text);
    }
}

/// Adds the fields of a NOMINT.
pub(crate) fn add_nomint(message: &Nomint, text: &mut Answer) {
    add_portfolio(message.point, message.portfolio, text);
    add_field("day", &message.day, text);
    add_field("version", &message.version, text);
    text.end_line();
    add_nomination_lines(&message.lines, text);
}

/// Adds the fields of an ACKNOW.
fn add_acknow(message: &Acknow, text: &mut Answer) {
    add_portfolio(message.point, message.portfolio, text);
    add_field("day", &message.day, text);
    add_field("version", &message.version, text);
    text.end_line();
}

/// Adds the fields of a NOMRES.
fn add_nomres(message: &Nomres, text: &mut Answer) {
    add_portfolio(message.point, message.portfolio, text);
    add_cycle(message.day, message.cycle, text);
    add_field("hours", &message.first, text);
    text.word(message.last);
    text.end_line();
    add_lines(&message.lines, text);
}

/// Adds which part a message is, where it is one of several.
fn add_part(parts: u8, part: u8, text: &mut Answer) {
    if parts != 1 {
        add_field("part", &part, text);
        add_field("of", &parts, text);
    }
}

/// Adds the fields of a DELORD.
fn add_delord(message: &Delord, text: &mut Answer) {
    add_field("point", &message.point, text);
    add_cycle(message.day, message.cycle, text);
    add_part(message.parts, message.part, text);
    text.end_line();
    add_table(&message.processed, text);
}

/// Adds the fields of a DELRES.
fn add_delres(message: &Delres, text: &mut Answer) {
    add_field("point", &message.point, text);
    add_cycle(message.day, message.cycle, text);
    add_part(message.parts, message.part, text);
    text.end_line();
    text.add("processed");
    add_table(&message.processed, text);
    text.add("confirmed");
    add_table(&message.confirmed, text);
}

/// Adds the kind and the fields of a message.
pub(crate) fn add_message(message: &Message, text: &mut Answer) {
    match message {
        Message::Nomint(nomint) => {
            text.add("NOMINT");
            add_nomint(nomint, text);
        }
        Message::Acknow(acknow) => {
            text.add("ACKNOW");
            add_acknow(acknow, text);
        }
        Message::Nomres(nomres) => {
            text.add("NOMRES");
            add_nomres(nomres, text);
        }
        Message::Delord(delord) => {
            text.add("DELORD");
            add_delord(delord, text);
        }
        Message::Delres(delres) => {
            text.add("DELRES");
            add_delres(delres, text);
        }
    }
}

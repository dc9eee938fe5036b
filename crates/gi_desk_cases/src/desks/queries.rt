//! What a desk tells without a step.

use super::texts::{add_bytes, add_message, add_packet};
use gi_calls::{Answer, Fault, Words, add_table};
use gi_desk::{Desk, Fact, Packet, Packets, Role, encode_fact};
use gi_messages::{Message, Nomres};
use gi_pairs::Table;
use std::alloc::{AllocError, Global};

/// The quantity of a table, as the words say: the pair, the direction and the hour.
fn reading(table: &Table, words: Words<'_>) -> Option<u64> {
    let mut words = words;
    let key = words.key()?;
    Some(table.at(key.pair, key.direction, words.byte()?))
}

/// Adds a table, or where the words ask for it, what it has in an hour.
fn add_reading(table: &Table, mut words: Words<'_>, text: &mut Answer) -> bool {
    match words.next() {
        "" => add_table(table, text),
        "at" => match reading(table, words) {
            Some(quantity) => text.show(quantity),
            None => return false,
        },
        _ => return false,
    }
    true
}

/// What is confirmed of a cycle.
fn confirmed<R: Role>(desk: &Desk<R>, mut words: Words<'_>, text: &mut Answer) -> bool {
    let Some(id) = words.cycle() else {
        return false;
    };
    match desk.confirmed(id) {
        Some(table) => add_reading(table, words, text),
        None => {
            text.add("none");
            true
        }
    }
}

/// How far a cycle is.
fn state<R: Role>(desk: &Desk<R>, mut words: Words<'_>, text: &mut Answer) -> bool {
    let Some(id) = words.cycle() else {
        return false;
    };
    let state = desk.state(id);
    text.debug(&state);
    true
}

/// How many parts are kept of a cycle.
fn kept<R: Role>(desk: &Desk<R>, mut words: Words<'_>, text: &mut Answer) -> bool {
    let Some(id) = words.cycle() else {
        return false;
    };
    text.show(desk.kept(id));
    true
}

/// Adds a response, or that there is none.
fn add_nomres(alloc: Global, message: Option<Nomres>, text: &mut Answer) -> Result<bool, Fault> {
    add_message(alloc, message.map(|nomres| Message::Nomres(nomres)), text)
}

/// What a portfolio is told of a cycle.
fn portfolio_told<R: Role>(
    alloc: Global,
    desk: &Desk<R>,
    mut words: Words<'_>,
    text: &mut Answer,
) -> Result<bool, Fault> {
    let (Some(portfolio), Some(id)) = (words.code(), words.cycle()) else {
        return Ok(false);
    };
    let message = desk.told(portfolio, id)?;
    add_nomres(alloc, message, text)
}

/// Adds a fact, or that there is none.
fn add_fact(alloc: Global, fact: Option<&Fact>, text: &mut Answer) -> Result<bool, Fault> {
    match fact {
        Some(fact) => add_bytes(&encode_fact(alloc, fact)?, text),
        None => text.add("none"),
    }
    Ok(true)
}

/// The next fact to save, behind its number.
fn unsaved<R: Role>(alloc: Global, desk: &Desk<R>, text: &mut Answer) -> Result<bool, Fault> {
    let Some((number, fact)) = desk.unsaved() else {
        return add_fact(alloc, None, text);
    };
    text.show(number);
    text.add(" ");
    add_fact(alloc, Some(fact), text)
}

/// Adds a line a packet.
fn add_packets(packets: Packets, text: &mut Answer) {
    let packets = packets.into_vec();
    if packets.is_empty() {
        text.add("nothing");
    }
    for packet in packets {
        add_packet(packet.to, &packet.body.into_vec(), text);
    }
}

/// Adds copies of packets, a line each.
fn add_copies(packets: &[Packet], text: &mut Answer) -> Result<(), AllocError> {
    for packet in packets {
        let copy = packet.copy()?;
        add_packet(copy.to, copy.body.as_slice(), text);
    }
    Ok(())
}

/// What the saved facts from a number on let out, a line a packet.
fn outgoing<R: Role>(desk: &Desk<R>, first: u32, text: &mut Answer) -> Result<bool, Fault> {
    let packets = desk.outgoing(first)?;
    add_packets(packets, text);
    Ok(true)
}

/// Copies of those packets, a line each.
fn copies<R: Role>(desk: &Desk<R>, first: u32, text: &mut Answer) -> Result<bool, Fault> {
    let packets = desk.outgoing(first)?;
    let added = add_copies(packets.as_slice(), text);
    // (handed to `drop`, by one call: going out of scope here would be checked field by field on
    // each way out)
    drop(packets);
    added?;
    Ok(true)
}

/// How many hours the desk's calendar gives a gas day.
fn hours<R: Role>(desk: &Desk<R>, mut words: Words<'_>, text: &mut Answer) -> bool {
    let Some(day) = words.day() else {
        return false;
    };
    match desk.calendar().frame(day) {
        Ok(frame) => {
            let hours = frame.hours();
            text.add("hours");
            text.word(hours);
        }
        Err(fault) => text.show(fault),
    }
    true
}

/// What is asked of a number.
fn told_of<R: Role>(
    alloc: Global,
    desk: &Desk<R>,
    query: &str,
    number: u32,
    text: &mut Answer,
) -> Result<bool, Fault> {
    match query {
        "fact" => add_fact(alloc, desk.fact(number), text),
        "acknowledged" => {
            text.show(desk.acknowledged(number));
            Ok(true)
        }
        "outgoing" => outgoing(desk, number, text),
        "copy_packets" => copies(desk, number, text),
        _ => Ok(false),
    }
}

/// What the desk tells of itself.
fn told_alone<R: Role>(desk: &Desk<R>, query: &str, text: &mut Answer) -> bool {
    match query {
        "len" => text.show(desk.len()),
        "saved" => text.show(desk.saved()),
        "halted" => text.show(desk.halted()),
        "point" => text.show(desk.point()),
        // All is saved.
        "save" => text.add("none"),
        "known" => {
            desk.reveal_invariant();
            text.add("ok");
        }
        _ => return false,
    }
    true
}

/// What the line asks, and what the desk tells.
pub(crate) fn told<R: Role>(
    alloc: Global,
    desk: &Desk<R>,
    line: &str,
    text: &mut Answer,
) -> Result<bool, Fault> {
    let mut words = Words::of(line);
    let query = words.next();
    match query {
        "state" => return Ok(state(desk, words, text)),
        "kept" => return Ok(kept(desk, words, text)),
        "confirmed" => return Ok(confirmed(desk, words, text)),
        "told" => return portfolio_told(alloc, desk, words, text),
        "calendar" => return Ok(hours(desk, words, text)),
        _ => {}
    }
    match (words.number(), query) {
        (Some(number), _) => told_of(alloc, desk, query, number, text),
        (None, "unsaved") => unsaved(alloc, desk, text),
        (None, _) => Ok(told_alone(desk, query, text)),
    }
}

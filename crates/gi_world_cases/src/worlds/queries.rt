//! What is asked about a world, and about one of its desks.

use crate::worlds::answers::{add_bytes, add_counts, add_kept};
use gi_calls::{Answer, Fault, Words, add_table};
use gi_desk::{Desk, Role};
use gi_messages::{Message, Nomres, encode};
use gi_pairs::{Side, Table};
use gi_world::World;
use std::alloc::{AllocError, Global};

/// Adds the quantity that a table has at a pair, a direction and an hour. `false` where the words
/// are none.
fn add_quantity(table: &Table, mut words: Words<'_>, text: &mut Answer) -> bool {
    let (Some(key), Some(hour)) = (words.key(), words.byte()) else {
        return false;
    };
    text.show(table.at(key.pair, key.direction, hour));
    text.end_line();
    true
}

/// Adds what the desk has confirmed of a cycle, in one hour where the words name one.
fn add_confirmed<R: Role>(desk: &Desk<R>, mut words: Words<'_>, text: &mut Answer) -> bool {
    let Some(id) = words.cycle() else {
        return false;
    };
    let Some(table) = desk.confirmed(id) else {
        text.add("none\n");
        return true;
    };
    if !words.is_empty() {
        return add_quantity(table, words, text);
    }
    add_table(table, text);
    true
}

/// The bytes of a nomination response.
fn bytes_of(alloc: Global, nomres: Nomres) -> Result<Vec<u8>, AllocError> {
    encode(alloc, &Message::Nomres(nomres))
}

/// Adds a nomination response, or that there is none.
fn add_nomres(alloc: Global, nomres: Option<Nomres>, text: &mut Answer) -> Result<bool, Fault> {
    match nomres {
        Some(nomres) => add_bytes(bytes_of(alloc, nomres)?.as_slice(), text),
        None => text.add("none"),
    }
    text.end_line();
    Ok(true)
}

/// Adds what the desk tells a portfolio of a cycle.
fn add_told<R: Role>(
    alloc: Global,
    desk: &Desk<R>,
    mut words: Words<'_>,
    text: &mut Answer,
) -> Result<bool, Fault> {
    let (Some(portfolio), Some(id)) = (words.code(), words.cycle()) else {
        return Ok(false);
    };
    let nomres = desk.told(portfolio, id)?;
    add_nomres(alloc, nomres, text)
}

/// Adds how far a cycle is.
fn add_state<R: Role>(desk: &Desk<R>, mut words: Words<'_>, text: &mut Answer) -> bool {
    let Some(id) = words.cycle() else {
        return false;
    };
    let state = desk.state(id);
    text.debug(&state);
    text.end_line();
    true
}

/// Adds what the saved facts from a number on let out.
fn add_outgoing<R: Role>(
    desk: &Desk<R>,
    mut words: Words<'_>,
    text: &mut Answer,
) -> Result<bool, Fault> {
    let Some(first) = words.number() else {
        return Ok(false);
    };
    add_kept(desk.outgoing(first)?.as_slice(), text);
    Ok(true)
}

/// Adds what a desk answers about itself. `false` where the words are no such question.
fn ask<R: Role>(
    alloc: Global,
    desk: &Desk<R>,
    question: &str,
    words: Words<'_>,
    text: &mut Answer,
) -> Result<bool, Fault> {
    match question {
        "confirmed" => Ok(add_confirmed(desk, words, text)),
        "told_by" => add_told(alloc, desk, words, text),
        "state" => Ok(add_state(desk, words, text)),
        "outgoing" => add_outgoing(desk, words, text),
        _ => Ok(false),
    }
}

/// Adds the number of the packet with these bytes that was let out to the side.
fn add_number(world: &World, side: Side, bytes: &str, text: &mut Answer) {
    match world.number_of(side, bytes.as_bytes()) {
        Some(number) => text.show(number),
        None => text.add("none"),
    }
    text.end_line();
}

/// Adds what a world answers about one of its sides. `false` where the words are no such question.
fn ask_of_side(
    alloc: Global,
    world: &World,
    question: &str,
    mut words: Words<'_>,
    text: &mut Answer,
) -> Result<bool, Fault> {
    let Some(side) = words.side() else {
        return Ok(false);
    };
    match question {
        "sent" => add_kept(world.sent(side), text),
        "told" => add_kept(world.told(side), text),
        "number_of" => add_number(world, side, words.rest(), text),
        _ => {
            return match side {
                Side::I => ask(alloc, world.initiating(), question, words, text),
                Side::M => ask(alloc, world.matching(), question, words, text),
            };
        }
    }
    Ok(true)
}

/// Adds what a world answers. `false` where the words are no question about it.
pub fn query(
    alloc: Global,
    world: &World,
    mut words: Words<'_>,
    text: &mut Answer,
) -> Result<bool, Fault> {
    match words.next() {
        "counts" => {
            add_counts(world.initiating(), text);
            add_counts(world.matching(), text);
            Ok(true)
        }
        question => ask_of_side(alloc, world, question, words, text),
    }
}

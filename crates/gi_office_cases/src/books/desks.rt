//! The calls on the desk of a book.

use crate::offices::calls::named;
use crate::offices::texts::add_answer;
use gi_calls::{Answer, Fault, Words};
use gi_day::Calendar;
use gi_desk::{Call, Desk, Fact, ReplayFault};
use gi_initiator::Initiating;
use gi_pairs::Code;
use std::alloc::Global;
use std::mem::ManuallyDrop;

/// The desk of these facts.
fn desk_of(alloc: Global, point: Code, facts: Vec<Fact>) -> Result<Desk<Initiating>, ReplayFault> {
    match Calendar::new() {
        Ok(calendar) => Desk::replay(alloc, calendar, point, facts),
        Err(_) => {
            // (handed to `drop`, by one call: going out of scope here would be checked field by
            // field on each way out)
            drop(facts);
            Err(ReplayFault::OutOfMemory)
        }
    }
}

/// Keeps the desk of these facts in the place of the one before, and says how many it has. The former
/// one stays until the program ends.
pub(crate) fn replay(
    alloc: Global,
    point: Code,
    facts: Vec<Fact>,
    place: &mut Option<Desk<Initiating>>,
    text: &mut Answer,
) {
    match desk_of(alloc, point, facts) {
        Ok(desk) => {
            add_counts(&desk, text);
            let _former = unsafe { ManuallyDrop::new_unchecked(place.replace(desk)) };
        }
        Err(fault) => text.show(fault),
    }
}

/// Adds how many facts a desk has, and how many of them are saved.
fn add_counts(desk: &Desk<Initiating>, text: &mut Answer) {
    let (facts, saved) = (desk.len(), desk.saved());
    text.add("facts ");
    text.show(facts);
    text.add(" saved ");
    text.show(saved);
}

/// Adds what is confirmed in a place, where its cycle is: a cycle, a key and an hour.
fn add_confirmed(desk: &Desk<Initiating>, mut words: Words<'_>, text: &mut Answer) -> bool {
    let (Some(id), Some(key), Some(hour)) = (words.cycle(), words.key(), words.byte()) else {
        return false;
    };
    match desk.confirmed(id) {
        Some(table) => {
            text.show(table.at(key.pair, key.direction, hour));
        }
        None => text.add("none"),
    }
    true
}

/// Makes a step, and adds its answer.
fn step(desk: &mut Desk<Initiating>, call: Call, text: &mut Answer) {
    let reply = desk.step(&call);
    add_answer(reply.answer, text);
    drop((call, reply));
}

/// Marks the desk's next fact as saved, and adds its answer.
pub(crate) fn mark(desk: &mut Desk<Initiating>, n: u32, fact: Fact, text: &mut Answer) {
    step(desk, Call::MarkSaved { n, fact }, text)
}

/// Makes a call on the desk, and adds its answer. `false` where it is none.
pub(crate) fn call(
    alloc: Global,
    desk: &mut Desk<Initiating>,
    line: &str,
    text: &mut Answer,
) -> Result<bool, Fault> {
    let mut words = Words::of(line);
    let word = words.next();
    if word == "confirmed" {
        return Ok(add_confirmed(desk, words, text));
    }
    let Some(call) = named(alloc, word, words)? else {
        return Ok(false);
    };
    step(desk, call, text);
    Ok(true)
}

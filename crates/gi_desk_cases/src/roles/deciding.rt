//! What is decided of the other operator's message.

ghost use Rattle.std.specs.Prelude.{◌≡◌, IsTrue, nat_le};
ghost use Rattle.gi_messages.specs.Limits.{elements_of};
ghost use Rattle.gi_parts.specs.Parts.{IsSent, part_of_order, part_of_response};

use super::tables::two_tables;
use gi_calls::{Answer, Fault, Words, add_table, table_of};
use gi_cycles::CycleState;
use gi_desk::{Decision, Role};
use gi_initiator::{Initiating, take_response};
use gi_matcher::{Matching, take_order};
use gi_messages::{
    Delord, Delres, MOST_CONFIRMED_ELEMENTS, MOST_PART_ELEMENTS, MOST_PARTS,
    MOST_PROCESSED_ELEMENTS,
};
use gi_pairs::{Code, CycleId, Side};
use gi_parts::KeptParts;
use std::alloc::Global;

/// Adds a decision: the table that is met, or the refusal.
pub(crate) fn add_decision(decision: &Decision, text: &mut Answer) {
    match decision {
        Decision::Meet(peer) => {
            text.add("Meet\n");
            add_table(peer, text);
        }
        Decision::Keep(part) => {
            text.add("Keep");
            text.word(part.number);
            text.add(" of");
            text.word(part.parts);
        }
        Decision::Again => text.add("Again"),
        Decision::Refused(refusal) => text.show(refusal),
    }
}

/// Which cycle it is.
fn id_of(state: &CycleState) -> CycleId {
    match state {
        CycleState::Collecting(cycle) => cycle.id(),
        CycleState::Frozen(cycle) => cycle.id(),
        CycleState::Matched(cycle) => cycle.id(),
    }
}

/// Which part of how many the line's message is, and the rest of the line: the first of two where it begins
/// with `of 2`.
fn parts_of(line: &str) -> (u8, &str) {
    match line.strip_prefix("of 2 ") {
        Some(rest) => (2, rest),
        None => (1, line),
    }
}

/// Whether so many rows may stand in one of so many parts.
fn are_few(rows: usize, most: usize, parts: u8) -> bool
    ensures { result ≡ nat_le rows (elements_of most parts) }
{
    rows <= if parts == 1 { most } else { MOST_PART_ELEMENTS }
}

/// Whether the order can be read: `take_order` and `decide` require it.
fn is_readable_order(order: &Delord) -> bool
    ensures { IsTrue result → IsSent (part_of_order order.now) }
{
    let parts = order.parts;
    1 <= order.part
        && order.part <= parts
        && parts <= MOST_PARTS
        && are_few(order.processed.rows().len(), MOST_PROCESSED_ELEMENTS, parts)
}

/// Whether the response can be read: `take_response` and `decide` require it.
fn is_readable_response(response: &Delres) -> bool
    ensures { IsTrue result → IsSent (part_of_response response.now) }
{
    let parts = response.parts;
    1 <= response.part
        && response.part <= parts
        && parts <= MOST_PARTS
        && are_few(
            response.processed.rows().len(),
            MOST_PROCESSED_ELEMENTS,
            parts,
        )
        && are_few(
            response.confirmed.rows().len(),
            MOST_CONFIRMED_ELEMENTS,
            parts,
        )
        && response.processed.covers_same_hours(&response.confirmed)
}

/// The order of the cycle with the table of the line.
fn order_of(alloc: Global, id: CycleId, line: &str) -> Result<Option<Delord>, Fault> {
    let (parts, line) = parts_of(line);
    let Some(processed) = table_of(alloc, line)? else {
        return Ok(None);
    };
    let Ok(point) = Code::read("BORDER-1") else {
        // (handed to `drop`, by one call: going out of scope here would be checked field by field
        // on each way out)
        drop(processed);
        return Ok(None);
    };
    Ok(Some(Delord {
        point,
        day: id.day,
        cycle: id.cycle,
        parts,
        part: 1,
        processed,
    }))
}

/// The response of the cycle with both tables of the line.
fn response_of(alloc: Global, id: CycleId, line: &str) -> Result<Option<Delres>, Fault> {
    let (parts, line) = parts_of(line);
    let Some((processed, confirmed)) = two_tables(alloc, line, " confirmed ")? else {
        return Ok(None);
    };
    let Ok(point) = Code::read("BORDER-1") else {
        drop((processed, confirmed));
        return Ok(None);
    };
    Ok(Some(Delres {
        point,
        day: id.day,
        cycle: id.cycle,
        parts,
        part: 1,
        processed,
        confirmed,
    }))
}

/// What is decided of the order that the line is; by the role, where it is asked.
fn order_taken(
    alloc: Global,
    state: &CycleState,
    by_role: bool,
    line: &str,
) -> Result<Option<Decision>, Fault> {
    let Some(order) = order_of(alloc, id_of(state), line)? else {
        return Ok(None);
    };
    if !is_readable_order(&order) {
        drop(order);
        return Ok(None);
    }
    if by_role {
        return Ok(Some(Matching::decide(alloc, state, &KeptParts::new(alloc), order)));
    }
    Ok(Some(take_order(alloc, state, &KeptParts::new(alloc), order)))
}

/// What is decided of the response that the line is; by the role, where it is asked.
fn response_taken(
    alloc: Global,
    state: &CycleState,
    by_role: bool,
    line: &str,
) -> Result<Option<Decision>, Fault> {
    let Some(response) = response_of(alloc, id_of(state), line)? else {
        return Ok(None);
    };
    if !is_readable_response(&response) {
        drop(response);
        return Ok(None);
    }
    if by_role {
        return Ok(Some(Initiating::decide(alloc, state, &KeptParts::new(alloc), response)));
    }
    Ok(Some(take_response(alloc, state, &KeptParts::new(alloc), response)))
}

/// What the role of a side decides.
fn decide(alloc: Global, state: &CycleState, words: Words<'_>) -> Result<Option<Decision>, Fault> {
    let mut words = words;
    match words.side() {
        Some(Side::I) => response_taken(alloc, state, true, words.rest()),
        Some(Side::M) => order_taken(alloc, state, true, words.rest()),
        None => Ok(None),
    }
}

/// Adds what the line's call decides in that state.
pub(crate) fn decided(
    alloc: Global,
    state: &CycleState,
    line: &str,
    text: &mut Answer,
) -> Result<bool, Fault> {
    let mut words = Words::of(line);
    let decision = match words.next() {
        "take_order" => order_taken(alloc, state, false, words.rest()),
        "take_response" => response_taken(alloc, state, false, words.rest()),
        "decide" => decide(alloc, state, words),
        _ => return Ok(false),
    };
    let Some(decision) = decision? else {
        return Ok(false);
    };
    add_decision(&decision, text);
    drop(decision);
    Ok(true)
}

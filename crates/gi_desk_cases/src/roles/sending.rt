//! What is sent to the other operator.

use crate::desks::texts::add_message;
use gi_calls::{Answer, Fault, Words};
use gi_cycles::CycleState;
use gi_desk::Role;
use gi_initiator::{Initiating, order_for};
use gi_matcher::{Matching, response_for};
use gi_messages::Message;
use gi_pairs::{Code, Side};
use std::alloc::{AllocError, Global};

/// What the role of a side sends when the cycle is closed; no answer where it is not just closed.
fn on_closed(
    alloc: Global,
    state: &CycleState,
    side: Side,
    point: Code,
) -> Result<Option<Vec<Message>>, AllocError> {
    let CycleState::Frozen(cycle) = state else {
        return Ok(None);
    };
    Ok(Some(match side {
        Side::I => Initiating::on_closed(alloc, point, cycle)?,
        Side::M => Matching::on_closed(alloc, point, cycle)?,
    }))
}

/// What the role of a side sends when the cycle has met a table; no answer where it has not.
fn on_met(
    alloc: Global,
    state: &CycleState,
    side: Side,
    point: Code,
) -> Result<Option<Vec<Message>>, AllocError> {
    let CycleState::Matched(cycle) = state else {
        return Ok(None);
    };
    Ok(Some(match side {
        Side::I => Initiating::on_met(alloc, point, cycle)?,
        Side::M => Matching::on_met(alloc, point, cycle)?,
    }))
}

/// What the role of a side sends, by its method of that name.
fn by_role(
    alloc: Global,
    state: &CycleState,
    method: &str,
    words: Words<'_>,
) -> Result<Option<Vec<Message>>, AllocError> {
    let mut words = words;
    let (Some(side), Some(point)) = (words.side(), words.code()) else {
        return Ok(None);
    };
    match method {
        "on_closed" => on_closed(alloc, state, side, point),
        "on_met" => on_met(alloc, state, side, point),
        _ => Ok(None),
    }
}

/// The order of the closed cycle.
fn order(
    alloc: Global,
    state: &CycleState,
    words: Words<'_>,
) -> Result<Option<Vec<Message>>, AllocError> {
    let mut words = words;
    let (CycleState::Frozen(cycle), Some(point)) = (state, words.code()) else {
        return Ok(None);
    };
    Ok(Some(order_for(alloc, point, cycle)?))
}

/// The response of the matched cycle.
fn response(
    alloc: Global,
    state: &CycleState,
    words: Words<'_>,
) -> Result<Option<Vec<Message>>, AllocError> {
    let mut words = words;
    let (CycleState::Matched(cycle), Some(point)) = (state, words.code()) else {
        return Ok(None);
    };
    Ok(Some(response_for(alloc, point, cycle)?))
}

/// Adds what the line's call sends in that state.
pub(crate) fn sent(
    alloc: Global,
    state: &CycleState,
    line: &str,
    text: &mut Answer,
) -> Result<bool, Fault> {
    let mut words = Words::of(line);
    let sent = match words.next() {
        "order_for" => order(alloc, state, words),
        "response_for" => response(alloc, state, words),
        method => by_role(alloc, state, method, words),
    };
    let Some(messages) = sent? else {
        return Ok(false);
    };
    if messages.is_empty() {
        return add_message(alloc, None, text);
    }
    for message in messages {
        add_message(alloc, Some(message), text)?;
    }
    Ok(true)
}

//! What a line asks of a desk.

use crate::nomination::nomination;
use gi_calls::Words;
use gi_desk::{Body, Call, Desk, Role};
use gi_pairs::Side;
use gi_world::{Step, World};
use std::alloc::{AllocError, Global};

/// The bytes of a text.
pub fn body(alloc: Global, text: &str) -> Result<Body, AllocError> {
    Ok(Body::from(Vec::from_slice(alloc, text.as_bytes())?))
}

/// The delivery of a text.
pub fn delivery(alloc: Global, text: &str) -> Result<Option<Call>, AllocError> {
    Ok(Some(Call::Deliver(body(alloc, text)?)))
}

/// The submission of a text.
fn submission(alloc: Global, text: &str) -> Result<Option<Call>, AllocError> {
    Ok(Some(Call::Submit(body(alloc, text)?)))
}

/// What the words ask of a desk, if that is a contract, a notice, a nomination, a closing, a
/// resending or a halt.
pub fn call_of(alloc: Global, mut words: Words<'_>) -> Result<Option<Call>, AllocError> {
    match words.next() {
        "contract" => Ok(words.contract().map(Call::Contract)),
        "notice" => Ok(words.notice().map(Call::Notice)),
        "submit" => submission(alloc, words.rest()),
        "nominate" => submission(alloc, nomination(alloc, words)?.as_str()),
        "close" => Ok(words.closing().map(|(id, rule)| Call::Close { id, rule })),
        "resend" => Ok(words.cycle().map(Call::Resend)),
        "halt" => Ok(Some(Call::Halt)),
        _ => Ok(None),
    }
}

/// The mark of a desk's next fact to save, if there is one.
pub fn mark<R: Role>(desk: &Desk<R>) -> Result<Option<Call>, AllocError> {
    let Some((n, fact)) = desk.unsaved() else {
        return Ok(None);
    };
    Ok(Some(Call::MarkSaved {
        n,
        fact: fact.copy()?,
    }))
}

/// The mark of a side's next fact to save, if there is one.
fn mark_of(world: &World, side: Side) -> Result<Option<Call>, AllocError> {
    match side {
        Side::I => mark(world.initiating()),
        Side::M => mark(world.matching()),
    }
}

/// The number of a packet.
fn packet(words: &mut Words<'_>) -> Option<u64> {
    words.next().parse::<u64>().ok()
}

/// The step that the words ask of a side, if they ask one.
pub fn step_of(
    alloc: Global,
    world: &World,
    side: Side,
    words: Words<'_>,
) -> Result<Option<Step>, AllocError> {
    let mut rest = words;
    let call = match rest.next() {
        "deliver" => return Ok(packet(&mut rest).map(|packet| Step::Deliver { side, packet })),
        "restart" => return Ok(rest.number().map(|keep| Step::Restart { side, keep })),
        "slip" => delivery(alloc, rest.rest()),
        "save" => mark_of(world, side),
        _ => call_of(alloc, words),
    }?;
    Ok(call.map(|call| Step::Local { side, call }))
}

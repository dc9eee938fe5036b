//! Reading orders and responses in the one text that an office writes of them.
//!
//! They are large, and come from the other operator's office. So they are first read as if they
//! had that text, in one pass and with no regard for JSON. The message that comes of it is written
//! again, and it is what the bytes say where it has their very text; else they are read as JSON.

ghost use Rattle.std.specs.Prelude.{◌≡◌, ◌≤◌, length, IfSome, IsTrue, Ok};
ghost use Rattle.gi_messages.specs.Decoding.{decoded};
ghost use Rattle.gi_messages.specs.Grammar.{Fits, FitsDelord, FitsDelres};
ghost use Rattle.gi_messages.specs.Limits.{most_bytes, most_parts};
ghost use Rattle.gi_messages.specs.Writing.{text_of};

use crate::encoding::encode;
use crate::front::Front;
use crate::head::{Head, Span, elements_of};
use crate::message::{
    Delord, Delres, LAST_CYCLE, MOST_CONFIRMED_ELEMENTS, MOST_PARTS, MOST_PROCESSED_ELEMENTS,
    Message,
};
use gi_pairs::Table;
use std::alloc::Global;

/// What stands before the processed rows: `start` goes before the number of the cycle, and `kind`
/// between the first hour and the last. Which part it is and of how many may be missing.
fn head(front: &mut Front<'_>, start: &[u8], kind: &[u8]) -> Option<Head> {
    let cycle = front.small(start)?;
    let day = front.day(b",\"day\":\"")?;
    let first = front.small(b",\"first\":")?;
    let last = front.small(kind)?;
    let part = front.small(b",\"part\":").unwrap_or(1);
    let parts = front.small(b",\"parts\":").unwrap_or(1);
    let point = front.code(b",\"point\":\"")?;
    Some(Head {
        point,
        day,
        cycle,
        span: Span { first, last },
        parts,
        part,
    })
}

/// An order, or what a response has as an order has it.
fn order(alloc: Global, front: &mut Front<'_>, start: &[u8], kind: &[u8]) -> Option<Delord> {
    let head = head(front, start, kind)?;
    let most = elements_of(MOST_PROCESSED_ELEMENTS, head.parts);
    let rows = front.rows(alloc, b",\"processed\":[", most)?;
    Some(Delord {
        point: head.point,
        day: head.day,
        cycle: head.cycle,
        parts: head.parts,
        part: head.part,
        processed: Table::build(head.span.first, head.span.last, rows).ok()?,
    })
}

fn delord(alloc: Global, front: &mut Front<'_>) -> Option<Delord> {
    order(
        alloc,
        front,
        b"{\"cycle\":",
        b",\"kind\":\"DELORD\",\"last\":",
    )
}

fn delres(alloc: Global, front: &mut Front<'_>) -> Option<Delres> {
    let rows = front.rows(alloc, b"{\"confirmed\":[", MOST_CONFIRMED_ELEMENTS)?;
    let order = order(
        alloc,
        front,
        b",\"cycle\":",
        b",\"kind\":\"DELRES\",\"last\":",
    )?;
    let confirmed = Table::build(order.processed.first(), order.processed.last(), rows).ok()?;
    Some(Delres {
        point: order.point,
        day: order.day,
        cycle: order.cycle,
        parts: order.parts,
        part: order.part,
        processed: order.processed,
        confirmed,
    })
}

fn is_part(parts: u8, part: u8) -> bool
    ensures { IsTrue result → (parts ≤ most_parts) × (1 ≤ part) × (part ≤ parts) }
{
    parts <= MOST_PARTS && 1 <= part && part <= parts
}

fn fits_delord(order: &Delord) -> bool
    ensures { IsTrue result → FitsDelord order.now }
{
    order.point.reveal_invariant();
    order.day.reveal_invariant();
    order.processed.reveal_invariant();
    order.cycle <= LAST_CYCLE
        && is_part(order.parts, order.part)
        && order.processed.rows().len() <= elements_of(MOST_PROCESSED_ELEMENTS, order.parts)
}

fn fits_delres(response: &Delres) -> bool
    ensures { IsTrue result → FitsDelres response.now }
{
    response.point.reveal_invariant();
    response.day.reveal_invariant();
    response.processed.reveal_invariant();
    response.confirmed.reveal_invariant();
    response.cycle <= LAST_CYCLE
        && is_part(response.parts, response.part)
        && response.processed.rows().len() <= elements_of(MOST_PROCESSED_ELEMENTS, response.parts)
        && response.confirmed.rows().len() <= elements_of(MOST_CONFIRMED_ELEMENTS, response.parts)
        && response.confirmed.first() == response.processed.first()
        && response.confirmed.last() == response.processed.last()
}

/// What the bytes may be, by their first key.
fn guessed(alloc: Global, bytes: &[u8]) -> Option<Message>
    ensures { IfSome result Fits }
{
    let mut front = Front::new(bytes);
    if bytes.starts_with(b"{\"cycle\"") {
        let order = delord(alloc, &mut front)?;
        if !fits_delord(&order) {
            return None;
        }
        return Some(Message::Delord(order));
    }
    let response = delres(alloc, &mut front)?;
    if !fits_delres(&response) {
        return None;
    }
    Some(Message::Delres(response))
}

fn is_text_of(alloc: Global, message: &Message, bytes: &[u8]) -> bool
    ensures { IsTrue result → bytes.now ≡ text_of message.now }
{
    match encode(alloc, message) {
        Ok(text) => text.as_slice() == bytes,
        Err(_) => false,
    }
}

/// The order or the response whose one text the bytes are. `None` where they are no such text, and
/// where memory runs out.
pub(crate) fn written(alloc: Global, bytes: &[u8]) -> Option<Message>
    requires { length bytes.now ≤ most_bytes }
    ensures { IfSome result (λ m. decoded bytes.now ≡ Ok m) }
{
    let message = guessed(alloc, bytes)?;
    if !is_text_of(alloc, &message, bytes) {
        return None;
    }
    Some(message)
}

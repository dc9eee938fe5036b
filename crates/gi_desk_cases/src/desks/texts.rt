//! Replies, packets, messages and tables as text.

use gi_calls::{Answer, Fault};
use gi_desk::{Recipient, Reply};
use gi_messages::{Message, encode};
use std::alloc::Global;

/// Adds the bytes of a text.
pub(crate) fn add_bytes(bytes: &[u8], text: &mut Answer) {
    match std::str::from_utf8(bytes) {
        Ok(bytes) => text.add(bytes),
        Err(_) => text.add("not text"),
    }
}

/// Adds `Recorded 4`: what was done, and the number of the fact.
fn add_numbered(done: &str, number: u32, text: &mut Answer) {
    text.add(done);
    text.word(number);
}

/// Adds a line with `Recorded 4`, or the refusal.
fn add_answer(answer: gi_desk::Answer, text: &mut Answer) {
    match answer {
        gi_desk::Answer::Recorded { n } => add_numbered("Recorded", n, text),
        gi_desk::Answer::Repeat { n } => add_numbered("Repeat", n, text),
        gi_desk::Answer::Kept { have, parts } => {
            add_numbered("Kept", u32::from(have), text);
            add_numbered(" of", u32::from(parts), text);
        }
        gi_desk::Answer::Saved { n } => add_numbered("Saved", n, text),
        gi_desk::Answer::Resent => text.add("Resent"),
        gi_desk::Answer::Stopped => text.add("Stopped"),
        gi_desk::Answer::Refused(refusal) => text.show(refusal),
    }
    text.end_line();
}

/// Adds a line for a packet: `-> peer`, or the portfolio, and its bytes.
pub(crate) fn add_packet(to: Recipient, body: &[u8], text: &mut Answer) {
    text.add("-> ");
    match to {
        Recipient::Peer => text.add("peer"),
        Recipient::User(portfolio) => text.show(portfolio),
    }
    text.add(" ");
    add_bytes(body, text);
    text.end_line();
}

/// Adds a reply: its answer, and a line for each packet.
pub(crate) fn add_reply(reply: &Reply, text: &mut Answer) {
    add_answer(reply.answer, text);
    for packet in reply.out.as_slice() {
        add_packet(packet.to, packet.body.as_slice(), text);
    }
}

/// Adds a message as it is written, or that there is none.
pub(crate) fn add_message(
    alloc: Global,
    message: Option<Message>,
    text: &mut Answer,
) -> Result<bool, Fault> {
    match message {
        Some(message) => {
            let bytes = encode(alloc, &message);
            // (handed to `drop`, by one call: going out of scope here would be checked field by
            // field on each way out)
            drop(message);
            add_bytes(&bytes?, text);
        }
        None => text.add("none"),
    }
    Ok(true)
}

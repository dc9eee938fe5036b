//! What comes of a step, and what is asked about, as text.

use gi_calls::Answer;
use gi_desk::{Desk, Packet, Recipient, Reply, Role};
use gi_world::{WorldFault, WorldReply};

/// Adds the text that the bytes are.
pub fn add_bytes(bytes: &[u8], text: &mut Answer) {
    match str::from_utf8(bytes) {
        Ok(body) => text.add(body),
        Err(_) => text.add("no text"),
    }
}

/// Adds the line of a packet.
fn add_packet(packet: &Packet, text: &mut Answer) {
    text.add("-> ");
    match packet.to {
        Recipient::Peer => text.add("peer"),
        Recipient::User(portfolio) => text.show(portfolio),
    }
    text.add(" ");
    add_bytes(packet.body.as_slice(), text);
    text.end_line();
}

/// Adds a line for each packet, in order.
fn add_packets(packets: &[Packet], text: &mut Answer) {
    for packet in packets {
        add_packet(packet, text);
    }
}

/// Adds a line for each packet; `none` where there is none.
pub fn add_kept(packets: &[Packet], text: &mut Answer) {
    if packets.is_empty() {
        return text.add("none\n");
    }
    add_packets(packets, text)
}

/// Adds a desk's answer, and a line for each packet that it lets out.
pub fn add_reply(reply: &Reply, text: &mut Answer) {
    match reply.answer {
        gi_desk::Answer::Refused(refusal) => {
            text.add("Refused");
            text.word(refusal);
        }
        answer => text.debug(&answer),
    }
    text.end_line();
    add_packets(reply.out.as_slice(), text)
}

/// Adds what came of a step.
pub fn add_outcome(outcome: &Result<WorldReply, WorldFault>, text: &mut Answer) {
    match outcome {
        Ok(WorldReply::Desk(reply)) => return add_reply(reply, text),
        Ok(WorldReply::Restarted { saved }) => {
            text.add("Restarted { saved: ");
            text.show(saved);
            text.add(" }");
        }
        Err(fault) => text.show(fault),
    }
    text.end_line();
}

/// Adds how many facts a desk has, and how many of them are saved.
pub fn add_counts<R: Role>(desk: &Desk<R>, text: &mut Answer) {
    let (side, facts, saved) = (R::SIDE, desk.len(), desk.saved());
    text.show(side);
    text.add(" facts");
    text.word(facts);
    text.add(" saved");
    text.word(saved);
    text.end_line();
}

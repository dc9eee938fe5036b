//! Receipts, and what is left of an office, as text.

use gi_calls::Answer;
use gi_desk::{Packet, Recipient, Reply, Role};
use gi_office::{Entry, OfficeFault, Receipt, Settled, Unsettled};

/// Adds a name and the number of a fact.
fn add_numbered(name: &str, n: u32, text: &mut Answer) {
    text.add(name);
    text.word(n);
}

/// Adds `Recorded 4`, or the refusal.
pub(crate) fn add_answer(answer: gi_desk::Answer, text: &mut Answer) {
    match answer {
        gi_desk::Answer::Recorded { n } => add_numbered("Recorded", n, text),
        gi_desk::Answer::Repeat { n } => add_numbered("Repeat", n, text),
        gi_desk::Answer::Kept { have, parts } => {
            add_numbered("Kept", u32::from(have), text);
            add_numbered(" of", u32::from(parts), text);
        }
        gi_desk::Answer::Saved { n } => add_numbered("Saved", n, text),
        gi_desk::Answer::Resent => text.add("Resent"),
        gi_desk::Answer::Stopped => text.add("Stopped"),
        gi_desk::Answer::Refused(refusal) => text.show(refusal),
    }
}

/// Adds a line for a packet: `-> peer`, or the portfolio, and its bytes.
fn add_packet(packet: &Packet, text: &mut Answer) {
    text.add("-> ");
    match packet.to {
        Recipient::Peer => text.add("peer"),
        Recipient::User(portfolio) => text.show(portfolio),
    }
    text.add(" ");
    text.add(std::str::from_utf8(packet.body.as_slice()).unwrap_or("not text"));
    text.end_line();
}

/// Adds the answer, and a line for each packet.
fn add_reply(reply: &Reply, text: &mut Answer) {
    add_answer(reply.answer, text);
    text.end_line();
    for packet in reply.out.as_slice() {
        add_packet(packet, text);
    }
}

/// Adds a receipt: its place in the trail, and the reply.
pub fn add_receipt(receipt: &Receipt, text: &mut Answer) {
    text.show(receipt.place);
    text.add(" ");
    add_reply(&receipt.reply, text)
}

/// Whether the call of the receipt recorded a fact.
pub fn is_recorded(receipt: &Receipt) -> bool {
    matches!(receipt.reply.answer, gi_desk::Answer::Recorded { .. })
}

/// Adds an entry of the trail: its seat, and the reply.
fn add_entry(entry: &Entry, text: &mut Answer) {
    text.add("seat ");
    text.show(entry.seat);
    text.add(" ");
    add_reply(&entry.reply, text)
}

/// Adds the receipt, or why there is none.
pub fn add_answered(answer: &Result<Receipt, OfficeFault>, text: &mut Answer) {
    match answer {
        Ok(receipt) => add_receipt(receipt, text),
        Err(fault) => text.show(fault),
    }
}

/// Adds the receipts that a seat was given.
pub fn add_receipts(receipts: &[Receipt], seat: u8, text: &mut Answer) {
    for receipt in receipts {
        if receipt.seat == seat {
            add_receipt(receipt, text);
        }
    }
}

/// Adds an entry of what is left of an office, or whether a fact is saved there.
pub fn add_told<R: Role>(settled: &Settled<R>, word: &str, number: u8, text: &mut Answer) {
    if word == "acknowledged" {
        let is_saved = settled.desk().acknowledged(u32::from(number));
        return text.show(is_saved);
    }
    match settled.entry(u64::from(number)) {
        Some(entry) => add_entry(entry, text),
        None => text.add("none"),
    }
}

/// Adds what is left of an office, or where the seats and the trail differ first.
pub fn add_settled<R: Role>(settled: &Result<Settled<R>, Unsettled>, text: &mut Answer) {
    match settled {
        Ok(settled) => {
            let (facts, saved) = (settled.desk().len(), settled.desk().saved());
            text.add("settled facts ");
            text.show(facts);
            text.add(" saved ");
            text.show(saved);
        }
        Err(fault) => text.show(fault),
    }
}

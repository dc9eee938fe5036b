//! The lines of a trace, and what they tell of a message.

ghost use Rattle.std.specs.Prelude.{◌≡◌, IfOk, map, string_bytes};
ghost use Rattle.std.specs.List.{flat_map};
ghost use Rattle.std.specs.Option.{option_copied};
ghost use Rattle.gi_messages.specs.Decoding.{decoded};
ghost use Rattle.gi_messages.specs.declared.message.Message.TheVariants as messages;
ghost use Rattle.gi_simulation.specs.Trace.{is_lost as is_lost_of, known_text as known_text_of, line_text as line_text_of, lines_text as lines_text_of, lost_text as lost_text_of, message_text as message_text_of, moved_line as moved_line_of, numbered_text, packet_line as packet_line_of, part_text as part_text_of, quantity_text, recipient_text as recipient_text_of};

use gi_carrier::{MOST_WAITING, Move};
use gi_desk::{Packet, Recipient};
use gi_messages::{Line, Message, MessageFault, Nomres, decode};
use gi_pairs::{Hours, Side};
use std::alloc::{AllocError, Global};

fn quantities_text(alloc: Global, hours: &Hours) -> Result<String, AllocError>
    ensures { IfOk result (λ text. string_bytes text ≡ flat_map quantity_text hours.now) }
{
    let mut text = String::new(alloc);
    for quantity in hours.as_slice() {
        let quantity = quantity.value();
        write!(text, " {quantity}")?;
    }
    Ok(text)
}

fn line_text(alloc: Global, first: u8, line: &Line) -> Result<String, AllocError>
    ensures { IfOk result (λ text. string_bytes text ≡ line_text_of first line.now) }
{
    let (counterparty, direction) = (line.counterparty, line.direction);
    let quantities = quantities_text(alloc, &line.hours)?;
    format!(in alloc; " {counterparty} {direction} {first}:{quantities}")
}

fn lines_text(alloc: Global, first: u8, lines: &[Line]) -> Result<String, AllocError>
    ensures { IfOk result (λ text. string_bytes text ≡ lines_text_of first lines.now) }
{
    let Some((line, later)) = lines.split_first() else {
        return Ok(String::new(alloc));
    };
    let mut text = line_text(alloc, first, line)?;
    for line in later {
        let line = line_text(alloc, first, line)?;
        write!(text, ",{line}")?;
    }
    Ok(text)
}

fn nomres_text(alloc: Global, nomres: &Nomres) -> Result<String, AllocError>
    ensures { IfOk result (λ text. string_bytes text ≡ known_text_of (messages.Nomres nomres.now)) }
{
    let (day, cycle) = (nomres.day, nomres.cycle);
    let lines = lines_text(alloc, nomres.first, nomres.lines.as_slice())?;
    format!(in alloc; "NOMRES {day} {cycle}{lines}")
}

fn part_text(alloc: Global, parts: u8, part: u8) -> Result<String, AllocError>
    ensures { IfOk result (λ text. string_bytes text ≡ part_text_of parts part) }
{
    if parts == 1 {
        return Ok(String::new(alloc));
    }
    format!(in alloc; " part {part} of {parts}")
}

fn known_text(alloc: Global, message: &Message) -> Result<String, AllocError>
    ensures { IfOk result (λ text. string_bytes text ≡ known_text_of message.now) }
{
    match message {
        Message::Nomint(nomint) => {
            let (day, version) = (nomint.day, nomint.version);
            format!(in alloc; "NOMINT {day} {version}")
        }
        Message::Acknow(acknow) => {
            let (day, version) = (acknow.day, acknow.version);
            format!(in alloc; "ACKNOW {day} {version}")
        }
        Message::Nomres(nomres) => nomres_text(alloc, nomres),
        Message::Delord(delord) => {
            let (day, cycle) = (delord.day, delord.cycle);
            let part = part_text(alloc, delord.parts, delord.part)?;
            format!(in alloc; "DELORD {day} {cycle}{part}")
        }
        Message::Delres(delres) => {
            let (day, cycle) = (delres.day, delres.cycle);
            let part = part_text(alloc, delres.parts, delres.part)?;
            format!(in alloc; "DELRES {day} {cycle}{part}")
        }
    }
}

fn message_text(alloc: Global, bytes: &[u8]) -> Result<String, AllocError>
    ensures { IfOk result (λ text. string_bytes text ≡ message_text_of (decoded bytes.now)) }
{
    match decode(alloc, bytes) {
        Ok(message) => {
            let text = known_text(alloc, &message);
            // (handed to drop, by one call: going out of scope here would be checked field by field on each way out)
            drop(message);
            text
        }
        Err(MessageFault::OutOfMemory) => Err(AllocError),
        Err(_) => format!(in alloc; "unreadable"),
    }
}

fn recipient_text(alloc: Global, peer: Side, to: Recipient) -> Result<String, AllocError>
    ensures { IfOk result (λ text. string_bytes text ≡ recipient_text_of peer to) }
{
    match to {
        Recipient::Peer => format!(in alloc; "{peer}"),
        Recipient::User(portfolio) => format!(in alloc; "{portfolio}"),
    }
}

fn is_lost(waiting: usize, packet: &Packet) -> bool
    ensures { result ≡ is_lost_of waiting packet.now }
{
    match packet.to {
        Recipient::Peer => MOST_WAITING <= waiting,
        Recipient::User(_) => false,
    }
}

fn lost_text(lost: bool) -> &'static str
    ensures { result.now ≡ lost_text_of lost }
{
    if lost { " lost" } else { "" }
}

/// The line of a packet, where so many messages wait on the way to the peer.
pub(crate) fn packet_line(
    alloc: Global,
    peer: Side,
    waiting: usize,
    packet: &Packet,
) -> Result<String, AllocError>
    ensures { IfOk result (λ text. string_bytes text ≡ packet_line_of peer waiting packet.now) }
{
    let to = recipient_text(alloc, peer, packet.to)?;
    let message = message_text(alloc, packet.body.as_slice())?;
    let lost = lost_text(is_lost(waiting, packet));
    format!(in alloc; "  -> {to} {message}{lost}\n")
}

/// The line of a carrier's move on the message that waits first.
pub(crate) fn moved_line(
    alloc: Global,
    next: Move,
    first: Option<&[u8]>,
) -> Result<String, AllocError>
    ensures { IfOk result (λ text. string_bytes text ≡ moved_line_of next (option_copied first.entry)) }
{
    match first {
        None => Ok(String::new(alloc)),
        Some(message) => {
            let message = message_text(alloc, message)?;
            format!(in alloc; "  {next} {message}\n")
        }
    }
}

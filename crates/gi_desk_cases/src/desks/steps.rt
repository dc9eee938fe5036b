//! The steps of a desk.

use super::calls::call_of;
use super::texts::add_reply;
use gi_calls::{Answer, Fault, Words};
use gi_desk::{Call, Desk, Packet, Refusal, Reply, Role, StageName};
use gi_pairs::CycleId;
use std::alloc::{AllocError, Global};

/// Whether two packets are the same.
fn is_same_packet(one: &Packet, other: &Packet) -> bool {
    one.to == other.to && one.body.as_slice() == other.body.as_slice()
}

/// Whether two replies are the same: their answers, and packet by packet what they let out.
fn is_same_reply(one: &Reply, other: &Reply) -> bool {
    let (packets, others) = (one.out.as_slice(), other.out.as_slice());
    if one.answer != other.answer || packets.len() != others.len() {
        return false;
    }
    for (packet, other) in packets.iter().zip(others) {
        if !is_same_packet(packet, other) {
            return false;
        }
    }
    true
}

/// What a copy of the call is answered. A line of the text tells where the desk foresaw another
/// answer.
fn step<R: Role>(desk: &mut Desk<R>, call: &Call, text: &mut Answer) -> Result<Reply, AllocError> {
    let copy = call.copy()?;
    let foreseen = desk.foresee(call);
    let reply = desk.step(&copy);
    if !is_same_reply(&reply, &foreseen) {
        text.add("foreseen otherwise\n");
    }
    // (handed to `drop`, by one call: going out of scope here would be checked field by field on
    // each way out)
    drop((copy, foreseen));
    Ok(reply)
}

/// What a call must leave where memory is refused.
#[derive(Clone, Copy, PartialEq, Eq)]
struct Front {
    len: u32,
    saved: u32,
    halted: bool,
    state: StageName,
    kept: u8,
    is_confirmed: bool,
}

fn front_of<R: Role>(desk: &Desk<R>, id: &CycleId) -> Front {
    Front {
        len: desk.len(),
        saved: desk.saved(),
        halted: desk.halted(),
        state: desk.state(*id),
        kept: desk.kept(*id),
        is_confirmed: desk.confirmed(*id).is_some(),
    }
}

/// What the call is answered, which is made again where memory is refused. A line of the text tells
/// where the refused call let something out, or changed the desk or the cycle.
fn made_again<R: Role>(desk: &mut Desk<R>, id: &CycleId, call: &Call, text: &mut Answer) -> Reply {
    let before = front_of(desk, id);
    let reply = desk.step(call);
    if reply.answer != gi_desk::Answer::Refused(Refusal::OutOfMemory) {
        return reply;
    }
    if !reply.out.as_slice().is_empty() || front_of(desk, id) != before {
        text.add("left something\n");
    }
    drop(reply);
    desk.step(call)
}

/// Makes the call, and adds the reply where it is wanted.
fn made<R: Role>(
    desk: &mut Desk<R>,
    call: Call,
    is_wanted: bool,
    text: &mut Answer,
) -> Result<(), AllocError> {
    let reply = step(desk, &call, text);
    drop(call);
    let reply = reply?;
    if is_wanted {
        add_reply(&reply, text);
    }
    drop(reply);
    Ok(())
}

/// Makes the call that stands behind a cycle, again where memory is refused.
fn again<R: Role>(
    alloc: Global,
    desk: &mut Desk<R>,
    words: Words<'_>,
    text: &mut Answer,
) -> Result<bool, Fault> {
    let mut words = words;
    let Some(id) = words.cycle() else {
        return Ok(false);
    };
    let Some(call) = call_of(alloc, desk, words.rest())? else {
        return Ok(false);
    };
    let reply = made_again(desk, &id, &call, text);
    add_reply(&reply, text);
    drop((call, reply));
    Ok(true)
}

/// The contract of the numbered portfolio, `P4` for instance, as the text says behind a portfolio.
fn numbered(alloc: Global, number: u8, text: &str) -> Result<Option<Call>, AllocError> {
    let text = format!(in alloc; "P{number} {text}")?;
    let mut words = Words::of(text.as_str());
    Ok(words.contract().map(|contract| Call::Contract(contract)))
}

/// The contracts of the portfolios from `P1` on, and what the last of them is answered.
fn contracts<R: Role>(
    alloc: Global,
    desk: &mut Desk<R>,
    words: Words<'_>,
    text: &mut Answer,
) -> Result<bool, Fault> {
    let mut words = words;
    let Some(count) = words.byte() else {
        return Ok(false);
    };
    for before in 0..count {
        let number = before + 1;
        let Some(call) = numbered(alloc, number, words.rest())? else {
            return Ok(false);
        };
        made(desk, call, number == count, text)?;
    }
    Ok(true)
}

/// What the desk foresees that it answers to the call of the line.
fn foreseen<R: Role>(
    alloc: Global,
    desk: &Desk<R>,
    line: &str,
    text: &mut Answer,
) -> Result<bool, Fault> {
    let Some(call) = call_of(alloc, desk, line)? else {
        return Ok(false);
    };
    let reply = desk.foresee(&call);
    add_reply(&reply, text);
    drop((call, reply));
    Ok(true)
}

/// Makes the call of the line, if it is one that changes the desk, or foresees it.
pub(crate) fn stepped<R: Role>(
    alloc: Global,
    desk: &mut Desk<R>,
    line: &str,
    text: &mut Answer,
) -> Result<bool, Fault> {
    let mut words = Words::of(line);
    match words.next() {
        "again" => return again(alloc, desk, words, text),
        "contracts" => return contracts(alloc, desk, words, text),
        "foresee" => return foreseen(alloc, desk, words.rest(), text),
        _ => {}
    }
    let Some(call) = call_of(alloc, desk, line)? else {
        return Ok(false);
    };
    made(desk, call, true, text)?;
    Ok(true)
}

//! What a fact lets out, by what it records.

ghost use Rattle.std.specs.Prelude.{◌≡◌, ◌≢◌, ◌∷◌, [], IfErr, IfOk, IsTrue};
ghost use Rattle.gi_messages.specs.Writing.{text_of};
ghost use Rattle.gi_messages.specs.declared.message.Message.TheVariants as messages;
ghost use Rattle.gi_desk.specs.LetOut.{frozen_of, let_out_on_closing, sent as sent_of};
ghost use Rattle.gi_desk.specs.Machine.{some_leave};
ghost use Rattle.gi_desk.specs.Messages.{acknow_of, on_closed, on_met, to_user};

use crate::packet::{Packet, Recipient};
use crate::role::Role;
use gi_cycles::{Collecting, CycleState, Frozen, Matched};
use gi_messages::{Acknow, Message, Nomint};
use gi_pairs::{Code, Side};
use std::alloc::{AllocError, Global};

/// The one packet of a message, which is dropped.
fn packet_of(alloc: Global, to: Recipient, message: Message) -> Result<Vec<Packet>, AllocError>
    ensures { IfOk result (λ packets. packets.items ≡ record { to = to; body = text_of message } ∷ []) }
{
    let packet = Packet::of(alloc, to, &message);
    // (handed to drop, by one call: going out of scope here would be checked field by field on each way out)
    drop(message);
    Ok(vec![in alloc; packet?]?)
}

/// The packets of messages to the peer, which are dropped.
fn sent(alloc: Global, messages: Vec<Message>) -> Result<Vec<Packet>, AllocError>
    ensures value { IfOk result (λ packets. packets.items ≡ sent_of messages.items) }
    ensures short { IfErr result (λ _. IsTrue (some_leave (sent_of messages.items))) }
{
    let mut packets = Vec::with_capacity(alloc, messages.len())?;
    for message in &messages {
        packets.push(Packet::of(alloc, Recipient::Peer, message)?)?;
    }
    drop(messages);
    Ok(packets)
}

pub(crate) fn on_taking(alloc: Global, document: &Nomint) -> Result<Vec<Packet>, AllocError>
    ensures { IfOk result (λ packets. packets.items ≡ to_user document.now.portfolio (messages.Acknow (acknow_of document.now)) ∷ []) }
{
    let message = Message::Acknow(Acknow {
        point: document.point,
        portfolio: document.portfolio,
        day: document.day,
        version: document.version,
    });
    packet_of(alloc, Recipient::User(document.portfolio), message)
}

/// The matched cycle as it was frozen: a role writes of a closing from that alone.
fn frozen_again(cycle: &Matched) -> Result<Frozen, AllocError>
    ensures { IfOk result (λ frozen. frozen ≡ frozen_of cycle.now) }
{
    let own = cycle.own().copy()?;
    Ok(Collecting::new(cycle.id()).close(own))
}

/// What a role writes of the closing of a cycle that has met. The matching side writes nothing, and
/// so copies nothing.
fn on_closed_again<R: Role>(
    alloc: Global,
    point: Code,
    cycle: &Matched,
) -> Result<Vec<Message>, AllocError>
    ensures value { IfOk result (λ messages. messages.items ≡ on_closed R.SIDE point (frozen_of cycle.now)) }
    ensures short { IfErr result (λ _. on_closed R.SIDE point (frozen_of cycle.now) ≢ []) }
{
    if R::SIDE == Side::M {
        return Ok(Vec::new(alloc));
    }
    let frozen = frozen_again(cycle)?;
    let messages = R::on_closed(alloc, point, &frozen);
    drop(frozen);
    messages
}

pub(crate) fn on_closing<R: Role>(
    alloc: Global,
    point: Code,
    state: &CycleState,
) -> Result<Vec<Packet>, AllocError>
    ensures value { IfOk result (λ packets. packets.items ≡ let_out_on_closing R.SIDE point state.now) }
    ensures short { IfErr result (λ _. IsTrue (some_leave (let_out_on_closing R.SIDE point state.now))) }
{
    let messages = match state {
        CycleState::Collecting(_) => Vec::new(alloc),
        CycleState::Frozen(cycle) => R::on_closed(alloc, point, cycle)?,
        CycleState::Matched(cycle) => on_closed_again::<R>(alloc, point, cycle)?,
    };
    sent(alloc, messages)
}

pub(crate) fn on_meeting<R: Role>(
    alloc: Global,
    point: Code,
    cycle: &Matched,
) -> Result<Vec<Packet>, AllocError>
    ensures value { IfOk result (λ packets. packets.items ≡ sent_of (on_met R.SIDE point cycle.now)) }
    ensures short { IfErr result (λ _. IsTrue (some_leave (sent_of (on_met R.SIDE point cycle.now)))) }
{
    sent(alloc, R::on_met(alloc, point, cycle)?)
}

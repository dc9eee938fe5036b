//! Which packets of a reply a station keeps: those for the peer, and those that tell.

ghost use Rattle.std.specs.Prelude.{◌≡◌, ◌<◌, ◌⊎◌, All, IfOk, OnErr, filter, length, position};
ghost use Rattle.gi_desk.specs.Machine.{is_for_peer as is_for_peer_of};
ghost use Rattle.gi_world.specs.World.{IsFromDesk, begins_with_cycle, has_bytes, tells as tells_of};

use gi_desk::{Packet, Recipient};
use std::alloc::{AllocError, Global};

fn is_for_peer(packet: &Packet) -> bool
    ensures { result ≡ is_for_peer_of packet.now }
{
    packet.to == Recipient::Peer
}

fn begins_with_cycle(text: &[u8]) -> bool
    ensures { result ≡ begins_with_cycle text.now }
{
    text.len() > 2 && text[2] == b'c'
}

/// No packet is read again: of what a portfolio is sent only a confirmation begins with its cycle.
fn tells(packet: &Packet) -> bool
    requires { IsFromDesk packet.now }
    ensures { result ≡ tells_of packet.now }
{
    !is_for_peer(packet) && begins_with_cycle(packet.body.as_slice())
}

pub(crate) fn place_of(packets: &[Packet], bytes: &[u8]) -> Option<usize>
    ensures { result ≡ position (has_bytes bytes.now) packets.now }
{
    packets
        .iter()
        .position(|packet| packet.body.as_slice() == bytes)
}

fn for_peer(alloc: Global, packets: &[Packet]) -> Result<Vec<Packet>, AllocError>
    ensures value { IfOk result (λ kept. kept.items ≡ filter is_for_peer_of packets.now) }
    ensures short { OnErr result (0 < length (filter is_for_peer_of packets.now)) }
{
    let mut kept = Vec::new(alloc);
    for packet in packets {
        if is_for_peer(packet) {
            kept.push(packet.copy()?)?;
        }
    }
    Ok(kept)
}

fn telling(alloc: Global, packets: &[Packet]) -> Result<Vec<Packet>, AllocError>
    requires { All IsFromDesk packets.now }
    ensures value { IfOk result (λ kept. kept.items ≡ filter tells_of packets.now) }
    ensures short { OnErr result (0 < length (filter tells_of packets.now)) }
{
    let mut kept = Vec::new(alloc);
    for packet in packets {
        if tells(packet) {
            kept.push(packet.copy()?)?;
        }
    }
    Ok(kept)
}

/// Copies of the packets that a station keeps: those for the peer, and those that tell.
pub(crate) fn kept(
    alloc: Global,
    packets: &[Packet],
) -> Result<(Vec<Packet>, Vec<Packet>), AllocError>
    requires { All IsFromDesk packets.now }
    ensures sent { IfOk result (λ both. both.0.items ≡ filter is_for_peer_of packets.now) }
    ensures told { IfOk result (λ both. both.1.items ≡ filter tells_of packets.now) }
    ensures short { OnErr result ((0 < length (filter is_for_peer_of packets.now)) ⊎ (0 < length (filter tells_of packets.now))) }
{
    let sent = for_peer(alloc, packets)?;
    let Ok(told) = telling(alloc, packets) else {
        // (handed to drop, by one call: going out of scope here would be checked field by field on each way out)
        drop(sent);
        return Err(AllocError);
    };
    Ok((sent, told))
}

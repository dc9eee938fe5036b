//! Two offices that are over, set against each other.

ghost use Rattle.std.specs.Prelude.{◌≡◌, IfErr, IfOk, IsTrue, MatchOption, OnOk};
ghost use Rattle.std.specs.List.{list_any};
ghost use Rattle.gi_desk.specs.Queries.{outgoing};
ghost use Rattle.gi_office.specs.Reconciling.{AgreeOnOneQuantity, AreFrom, IsStranger, IsStrangerFault, Reconciles, carries, entries_of, has_sent, is_from};

use crate::entry::Entry;
use crate::settled::Settled;
use crate::unreconciled::Unreconciled;
use gi_desk::{Call, Packet, Recipient, Role};
use gi_initiator::Initiating;
use gi_matcher::Matching;
use gi_pairs::Side;
use std::alloc::AllocError;

fn does_carry(bytes: &[u8], packet: &Packet) -> bool
    ensures { result ≡ carries bytes.now packet.now }
{
    packet.to == Recipient::Peer && packet.body.as_slice() == bytes
}

fn is_sent(bytes: &[u8], packets: &[Packet]) -> bool
    ensures { result ≡ list_any (carries bytes.now) packets.now }
{
    packets.iter().any(|packet| does_carry(bytes, packet))
}

fn is_among(packets: &[Packet], entry: &Entry) -> bool
    ensures { result ≡ is_from packets.now entry.now.call }
{
    match &entry.call {
        Call::Deliver(body) => is_sent(body.as_slice(), packets),
        _ => true,
    }
}

fn stranger_among<R: Role>(
    sender: &Settled<R>,
    packets: &[Packet],
    entries: &[Entry],
) -> Option<u64>
    requires { packets.now ≡ outgoing R.SIDE sender.now.desk 1 }
    ensures { MatchOption result (AreFrom R.SIDE sender.now.desk entries.now) (λ place. IsStranger R.SIDE sender.now.desk entries.now place) }
{
    for i in 0..entries.len() {
        if !is_among(packets, &entries[i]) {
            return Some(i as u64 + 1);
        }
    }
    None
}

fn stranger<R: Role, S: Role>(
    receiver: &Settled<R>,
    sender: &Settled<S>,
) -> Result<Option<u64>, AllocError>
    ensures first { IfOk result (λ found. MatchOption found (AreFrom S.SIDE sender.now.desk (entries_of receiver.now.lives)) (λ place. IsStranger S.SIDE sender.now.desk (entries_of receiver.now.lives) place)) }
    ensures short { IfErr result (λ _. IsTrue (has_sent S.SIDE sender.now.desk)) }
{
    let packets = sender.desk().outgoing(1)?;
    Ok(stranger_among(sender, packets.as_slice(), receiver.entries()))
}

/// Whether all that was delivered to this side was sent by the other.
fn none_strange<R: Role, S: Role>(
    side: Side,
    receiver: &Settled<R>,
    sender: &Settled<S>,
) -> Result<(), Unreconciled>
    ensures from { OnOk result (AreFrom S.SIDE sender.now.desk (entries_of receiver.now.lives)) }
    ensures refused { IfErr result (IsStrangerFault side S.SIDE sender.now.desk (entries_of receiver.now.lives)) }
{
    match stranger(receiver, sender)? {
        Some(place) => Err(Unreconciled::Stranger { side, place }),
        None => Ok(()),
    }
}

/// Sets the offices of the two operators against each other: whether both are of one point, else
/// `NotAPair`, and what was delivered to each, accepted or not, is what a saved fact of the other
/// lets out to its peer, else `Stranger`, the first; `OutOfMemory`, where a side let something out.
/// Where it answers `Ok`, and what each first life opened with agrees with the other side, every
/// quantity that either side has confirmed, or told in any reply, is the lower of the two that both
/// froze.
pub fn reconcile(
    initiating: &Settled<Initiating>,
    matching: &Settled<Matching>,
) -> Result<(), Unreconciled>
    ensures first { Reconciles initiating.now matching.now result }
    ensures one_quantity { IfOk result (λ done. AgreeOnOneQuantity initiating.now matching.now) }
{
    initiating.reveal_invariant();
    matching.reveal_invariant();
    if initiating.desk().point() != matching.desk().point() {
        return Err(Unreconciled::NotAPair);
    }
    none_strange(Side::I, initiating, matching)?;
    none_strange(Side::M, matching, initiating)?;
    Ok(())
}

//! Whether what a seat noted is what stands in the trail.

ghost use Rattle.std.specs.Prelude.{◌≡◌, ◌↔◌, IsTrue, Some, slice_get};
ghost use Rattle.gi_office.specs.Settling.{note_of};
ghost use Rattle.gi_desk.specs.declared.call.Call.TheVariants.{Close};

use crate::entry::Entry;
use crate::note::Note;
use gi_desk::{Answer, Call, Fact, Packet, Reply};
use gi_facts::same_facts_are_equal;
use gi_pairs::CycleId;
use gi_processing::{Contract, Notice, Rule};

pub(crate) fn is_same_fact(fact: &Fact, other: &Fact) -> bool
    ensures { IsTrue result ↔ (fact.now ≡ other.now) }
{
    same_facts_are_equal();
    fact.is(other)
}

pub(crate) fn are_same_facts(facts: &[Fact], others: &[Fact]) -> bool
    ensures { IsTrue result ↔ (facts.now ≡ others.now) }
{
    if facts.len() != others.len() {
        return false;
    }
    for i in 0..facts.len() {
        if !is_same_fact(&facts[i], &others[i]) {
            return false;
        }
    }
    true
}

/// Contracts, notices and cycles are compared so: `same_facts_are_equal` speaks of facts alone.
fn are_equal(fact: Fact, other: Fact) -> bool
    ensures { IsTrue result ↔ (fact ≡ other) }
{
    let is_same = is_same_fact(&fact, &other);
    // (handed to drop, by one call: going out of scope here would be checked field by field on each way out)
    drop((fact, other));
    is_same
}

fn is_same_contract(contract: &Contract, other: &Contract) -> bool
    ensures { IsTrue result ↔ (contract.now ≡ other.now) }
{
    are_equal(Fact::Contracted(*contract), Fact::Contracted(*other))
}

fn is_same_notice(notice: &Notice, other: &Notice) -> bool
    ensures { IsTrue result ↔ (notice.now ≡ other.now) }
{
    are_equal(Fact::Noticed(*notice), Fact::Noticed(*other))
}

fn is_same_cycle(id: &CycleId, other: &CycleId) -> bool
    ensures { IsTrue result ↔ (id.now ≡ other.now) }
{
    let rule = Rule::One;
    are_equal(
        Fact::Closed { id: *id, rule },
        Fact::Closed { id: *other, rule },
    )
}

fn is_same_closing(id: &CycleId, rule: Rule, other: &CycleId, by: Rule) -> bool
    ensures { IsTrue result ↔ (Close id.now rule ≡ Close other.now by) }
{
    are_equal(
        Fact::Closed { id: *id, rule },
        Fact::Closed {
            id: *other,
            rule: by,
        },
    )
}

fn is_same_call(call: &Call, other: &Call) -> bool
    ensures { IsTrue result ↔ (call.now ≡ other.now) }
{
    match (call, other) {
        (Call::Contract(a), Call::Contract(b)) => is_same_contract(a, b),
        (Call::Notice(a), Call::Notice(b)) => is_same_notice(a, b),
        (Call::Submit(a), Call::Submit(b)) => a.as_slice() == b.as_slice(),
        (Call::Close { id: a, rule }, Call::Close { id: b, rule: by }) => {
            is_same_closing(a, *rule, b, *by)
        }
        (Call::Deliver(a), Call::Deliver(b)) => a.as_slice() == b.as_slice(),
        (Call::Resend(a), Call::Resend(b)) => is_same_cycle(a, b),
        (Call::MarkSaved { n: a, fact }, Call::MarkSaved { n: b, fact: other }) => {
            a == b && is_same_fact(fact, other)
        }
        (Call::Halt, Call::Halt) => true,
        _ => false,
    }
}

fn is_same_packet(packet: &Packet, other: &Packet) -> bool
    ensures { IsTrue result ↔ (packet.now ≡ other.now) }
{
    packet.to == other.to && packet.body.as_slice() == other.body.as_slice()
}

fn are_same_packets(packets: &[Packet], others: &[Packet]) -> bool
    ensures { IsTrue result ↔ (packets.now ≡ others.now) }
{
    if packets.len() != others.len() {
        return false;
    }
    for i in 0..packets.len() {
        if !is_same_packet(&packets[i], &others[i]) {
            return false;
        }
    }
    true
}

fn is_same_answer(answer: &Answer, other: &Answer) -> bool
    ensures { IsTrue result ↔ (answer.now ≡ other.now) }
{
    answer == other
}

fn is_same_reply(reply: &Reply, other: &Reply) -> bool
    ensures { IsTrue result ↔ (reply.now ≡ other.now) }
{
    is_same_answer(&reply.answer, &other.answer)
        && are_same_packets(reply.out.as_slice(), other.out.as_slice())
}

pub(crate) fn is_noted(notes: &[Note], index: usize, place: u64, entry: &Entry) -> bool
    ensures { IsTrue result ↔ (slice_get notes.now index ≡ Some (note_of place entry.now)) }
{
    match notes.get(index) {
        Some(note) => {
            note.place == place
                && is_same_call(&note.call, &entry.call)
                && is_same_reply(&note.reply, &entry.reply)
        }
        None => false,
    }
}

//! Copies: equal replies, and the facts that are to be saved.

ghost use Rattle.std.specs.Prelude.{◌≡◌, ◌≤◌, ◌+◌, ◌^◌, IfOk, Some, length};
ghost use Rattle.std.specs.List.{AllByRecursion};
ghost use Rattle.gi_desk.specs.Queries.{fact_at};
ghost use Rattle.gi_facts.specs.Grammar.{IsWritable};
ghost use Rattle.gi_office.specs.Saving.{next_facts as next_facts_of};

use gi_desk::{Desk, Fact, Packet, Packets, Reply, Role};
use gi_facts::MOST_FACTS;
use std::alloc::{AllocError, Global};

fn packets_copy(alloc: Global, packets: &[Packet]) -> Result<Vec<Packet>, AllocError>
    ensures { IfOk result (λ copies. copies.items ≡ packets.now) }
{
    let mut copies = Vec::with_capacity(alloc, packets.len())?;
    for packet in packets {
        let Ok(copy) = packet.copy() else {
            // (handed to drop, by one call: going out of scope here would be checked field by field on each way out)
            drop(copies);
            return Err(AllocError);
        };
        copies.push_reserved(copy);
    }
    Ok(copies)
}

pub(crate) fn reply_copy(alloc: Global, reply: &Reply) -> Result<Reply, AllocError>
    ensures { IfOk result (λ copy. copy ≡ reply.now) }
{
    Ok(Reply {
        answer: reply.answer,
        out: Packets::from(packets_copy(alloc, reply.out.as_slice())?),
    })
}

fn fact_copy<R: Role>(desk: &Desk<R>, n: u32) -> Result<Fact, AllocError>
    requires some { 1 ≤ n }
    requires within { n ≤ length desk.now.facts }
    ensures value { IfOk result (λ copy. fact_at desk.now.facts n ≡ Some copy) }
    ensures writable { IfOk result IsWritable }
{
    let fact = desk.fact(n).unwrap();
    fact.copy()
}

pub(crate) fn next_facts<R: Role>(alloc: Global, desk: &Desk<R>) -> Result<Vec<Fact>, AllocError>
    ensures facts { IfOk result (λ copies. copies.items ≡ next_facts_of desk.now) }
    ensures writable { IfOk result (λ copies. AllByRecursion IsWritable copies.items) }
    ensures numbers { IfOk result (λ copies. desk.now.saved + 1 + length copies.items ≤ 2 ^ 32) }
{
    let saved = desk.saved();
    let count = (desk.len() - saved).min(MOST_FACTS as u32);
    let mut copies = Vec::with_capacity(alloc, count as usize)?;
    for before in 0..count {
        let Ok(copy) = fact_copy(desk, saved + before + 1) else {
            drop(copies);
            return Err(AllocError);
        };
        copies.push_reserved(copy);
    }
    Ok(copies)
}

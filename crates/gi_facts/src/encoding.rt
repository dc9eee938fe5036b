//! Writing facts.

ghost use Rattle.std.specs.Prelude.{◌≡◌, IfOk, Some};
ghost use Rattle.gi_messages.specs.Adding.{Adds};
ghost use Rattle.gi_facts.specs.Decoding.{fact_of};
ghost use Rattle.gi_facts.specs.Grammar.{IsWritable};
ghost use Rattle.gi_facts.specs.Writing.{AddsRule, closing_data, contract_data, data_of, fact_text, meeting_data, nomination_data, notice_data};

use crate::fact::Fact;
use crate::kind::Kind;
use gi_messages::parts::{
    put_code, put_day, put_direction, put_key, put_nomint, put_number, put_rows, put_text,
    room_for_lines, room_for_object, room_for_rows,
};
use gi_messages::{Key, Nomint};
use gi_pairs::{CycleId, Table};
use gi_processing::{Contract, Notice, Rule};
use json::Writer;
use std::alloc::{AllocError, Global};

fn put_contract(alloc: Global, out: &mut Writer, contract: &Contract) -> Result<(), AllocError>
    ensures { Adds result out.old out.new (contract_data contract.now) }
{
    out.begin_object()?;
    put_day(alloc, out, &contract.day)?;
    put_direction(out, contract.direction)?;
    put_text(out, Key::Fact, Kind::Contract.text())?;
    put_number(out, Key::Firm, contract.firm.value())?;
    put_number(out, Key::Interruptible, contract.interruptible.value())?;
    put_code(out, Key::Portfolio, &contract.portfolio)?;
    out.end_object()
}

fn put_notice(alloc: Global, out: &mut Writer, notice: &Notice) -> Result<(), AllocError>
    ensures { Adds result out.old out.new (notice_data notice.now) }
{
    out.begin_object()?;
    put_day(alloc, out, &notice.day)?;
    put_direction(out, notice.direction)?;
    put_text(out, Key::Fact, Kind::Notice.text())?;
    put_number(out, Key::Firm, u64::from(notice.firm))?;
    put_number(out, Key::First, u64::from(notice.first))?;
    put_number(out, Key::Interruptible, u64::from(notice.interruptible))?;
    put_number(out, Key::Last, u64::from(notice.last))?;
    out.end_object()
}

fn put_nomination(alloc: Global, out: &mut Writer, document: &Nomint) -> Result<(), AllocError>
    ensures { Adds result out.old out.new (nomination_data document.now) }
{
    out.begin_object()?;
    put_text(out, Key::Fact, Kind::Nomination.text())?;
    put_key(out, Key::Nomint)?;
    put_nomint(alloc, out, document)?;
    out.end_object()
}

/// Adds a rule at the key `rule`, unless it is the first.
fn put_rule(out: &mut Writer, rule: Rule) -> Result<(), AllocError>
    ensures { AddsRule result out.old out.new rule }
{
    if rule == Rule::One {
        return Ok(());
    }
    put_number(out, Key::Rule, u64::from(rule.number()))
}

fn put_closing(alloc: Global, out: &mut Writer, id: &CycleId, rule: Rule) -> Result<(), AllocError>
    ensures { Adds result out.old out.new (closing_data id.now rule) }
{
    out.begin_object()?;
    put_number(out, Key::Cycle, u64::from(id.cycle))?;
    put_day(alloc, out, &id.day)?;
    put_text(out, Key::Fact, Kind::Closed.text())?;
    put_rule(out, rule)?;
    out.end_object()
}

fn put_meeting(
    alloc: Global,
    out: &mut Writer,
    id: &CycleId,
    peer: &Table,
) -> Result<(), AllocError>
    ensures { Adds result out.old out.new (meeting_data id.now peer.now) }
{
    out.begin_object()?;
    put_number(out, Key::Cycle, u64::from(id.cycle))?;
    put_day(alloc, out, &id.day)?;
    put_text(out, Key::Fact, Kind::Met.text())?;
    put_number(out, Key::First, u64::from(peer.first()))?;
    put_number(out, Key::Last, u64::from(peer.last()))?;
    put_rows(out, Key::Peer, peer.rows())?;
    out.end_object()
}

/// Adds the object of a fact.
pub fn put_fact(alloc: Global, out: &mut Writer, fact: &Fact) -> Result<(), AllocError>
    ensures { Adds result out.old out.new (data_of fact.now) }
{
    match fact {
        Fact::Contracted(contract) => put_contract(alloc, out, contract),
        Fact::Noticed(notice) => put_notice(alloc, out, notice),
        Fact::Nominated(document) => put_nomination(alloc, out, document),
        Fact::Closed { id, rule } => put_closing(alloc, out, id, *rule),
        Fact::Met { id, peer } => put_meeting(alloc, out, id, peer),
    }
}

/// About how many bytes the text of a fact takes.
pub fn room_for_fact(fact: &Fact) -> usize {
    room_for_object(match fact {
        Fact::Nominated(document) => room_for_lines(document.lines.as_slice()),
        Fact::Met { peer, .. } => room_for_rows(peer.rows()),
        _ => 0,
    })
}

/// The one JSON text of the fact, with its keys in byte order, its lines in their order and its
/// rows in table order. It fails only for want of memory.
pub fn encode_fact(alloc: Global, fact: &Fact) -> Result<Vec<u8>, AllocError>
    ensures text { IfOk result (λ bytes. bytes.items ≡ fact_text fact.now) }
    ensures reads_back { IfOk result (λ bytes. IsWritable fact.now → fact_of bytes.items ≡ Some fact.now) }
{
    let mut out = Writer::new(Vec::with_capacity(alloc, room_for_fact(fact))?);
    put_fact(alloc, &mut out, fact)?;
    Ok(out.into_inner())
}

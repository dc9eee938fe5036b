//! Reading facts.

ghost use Rattle.std.specs.Prelude.{◌≡◌, ◌≤◌, IfOk, Some};
ghost use Rattle.gi_messages.specs.Tokens.{value_at};
ghost use Rattle.gi_pairs.specs.Quantity.{most_quantity};
ghost use Rattle.gi_messages.specs.Reading as reading;
ghost use Rattle.gi_facts.specs.declared.fact.Fact.{Fact};
ghost use Rattle.gi_facts.specs.Decoding.{Gives, closing, contract, cycle_id, document, document_of, fact, fact_of, kind, meeting, notice, of_kind, peer_table, rule};
ghost use Rattle.gi_facts.specs.Grammar.{Spells};

use crate::fact::Fact;
use crate::fact_fault::FactFault;
use crate::kind::{Kind, kind_named};
use gi_messages::parts::{
    FieldFault, JsonValue, Kind as MessageKind, Span, code, day, direction, json, kind_of, needed,
    nomint, number, number_or, span_of, table, text,
};
use gi_messages::{Key, LAST_CYCLE, Nomint};
use gi_pairs::{CycleId, MOST_PROCESSED_ROWS, Quantity, Table};
use gi_processing::{Contract, MOST_PERMILLE, Notice, Rule};
use json::Scratch;
use std::alloc::Global;

fn quantity(object: &JsonValue<'_, '_>, key: Key) -> Result<Quantity, Key>
    ensures { result ≡ reading.number 0 most_quantity key (value_at object.now) }
{
    let value = number(object, key, 0, Quantity::MAX)?;
    Ok(Quantity::new(value).unwrap())
}

#[tactic(auto, unfolding(crate::specs::Decoding::contract))]
fn contract(object: &JsonValue<'_, '_>) -> Result<Contract, Key>
    ensures { result ≡ contract (value_at object.now) }
{
    let portfolio = code(object, Key::Portfolio)?;
    let day = day(object, Key::Day)?;
    let direction = direction(object, Key::Direction)?;
    let firm = quantity(object, Key::Firm)?;
    let interruptible = quantity(object, Key::Interruptible)?;
    Ok(Contract {
        portfolio,
        day,
        direction,
        firm,
        interruptible,
    })
}

#[tactic(auto, unfolding(crate::specs::Decoding::notice))]
fn notice(object: &JsonValue<'_, '_>) -> Result<Notice, Key>
    ensures { result ≡ notice (value_at object.now) }
{
    let day = day(object, Key::Day)?;
    let direction = direction(object, Key::Direction)?;
    let span = span_of(object)?;
    let firm = number(object, Key::Firm, 0, u64::from(MOST_PERMILLE))? as u16;
    let interruptible = number(object, Key::Interruptible, 0, u64::from(MOST_PERMILLE))? as u16;
    Ok(Notice {
        day,
        direction,
        first: span.first,
        last: span.last,
        firm,
        interruptible,
    })
}

fn document_of(alloc: Global, object: &JsonValue<'_, '_>) -> Result<Nomint, FieldFault>
    ensures { reading.Gives (λ found. found) result (document_of (value_at object.now)) }
{
    match kind_of(object) {
        Some(MessageKind::Nomint) => nomint(alloc, object),
        _ => Err(FieldFault::Wrong(Key::Nomint)),
    }
}

#[tactic(auto, unfolding(crate::specs::Decoding::document))]
fn document(alloc: Global, object: &JsonValue<'_, '_>) -> Result<Nomint, FieldFault>
    ensures { reading.Gives (λ found. found) result (document (value_at object.now)) }
{
    document_of(alloc, &needed(object, Key::Nomint)?)
}

#[tactic(auto, unfolding(crate::specs::Decoding::cycle_id))]
fn cycle_id(object: &JsonValue<'_, '_>) -> Result<CycleId, Key>
    ensures { result ≡ cycle_id (value_at object.now) }
{
    let day = day(object, Key::Day)?;
    let cycle = number(object, Key::Cycle, 0, u64::from(LAST_CYCLE))? as u8;
    Ok(CycleId { day, cycle })
}

#[tactic(auto, unfolding(crate::specs::Decoding::rule))]
fn rule(object: &JsonValue<'_, '_>) -> Result<Rule, Key>
    ensures { result ≡ rule (value_at object.now) }
{
    Rule::numbered(number_or(object, Key::Rule, 1, 1, 2)?).ok_or(Key::Rule)
}

#[tactic(auto, unfolding(crate::specs::Decoding::closing))]
fn closing(object: &JsonValue<'_, '_>) -> Result<Fact, Key>
    ensures { result ≡ closing (value_at object.now) }
{
    let id = cycle_id(object)?;
    let rule = rule(object)?;
    Ok(Fact::Closed { id, rule })
}

#[tactic(auto, unfolding(crate::specs::Decoding::peer_table))]
fn peer_table(alloc: Global, object: &JsonValue<'_, '_>) -> Result<Table, FieldFault>
    ensures { reading.Gives (λ found. found) result (peer_table (value_at object.now)) }
{
    let Span { first, last } = span_of(object)?;
    table(alloc, object, Key::Peer, MOST_PROCESSED_ROWS, first, last)
}

#[tactic(auto, unfolding(crate::specs::Decoding::meeting))]
fn meeting(alloc: Global, object: &JsonValue<'_, '_>) -> Result<Fact, FieldFault>
    ensures { reading.Gives (λ found. found) result (meeting (value_at object.now)) }
{
    let id = cycle_id(object)?;
    let peer = peer_table(alloc, object)?;
    Ok(Fact::Met { id, peer })
}

#[tactic(auto, unfolding(crate::specs::Decoding::kind))]
fn kind(object: &JsonValue<'_, '_>) -> Result<Kind, Key>
    ensures { result ≡ kind (value_at object.now) }
{
    kind_named(text(object, Key::Fact)?).ok_or(Key::Fact)
}

fn of_kind(alloc: Global, kind: Kind, object: &JsonValue<'_, '_>) -> Result<Fact, FieldFault>
    ensures { reading.Gives (λ found. found) result (of_kind kind (value_at object.now)) }
{
    match kind {
        Kind::Contract => Ok(Fact::Contracted(contract(object)?)),
        Kind::Notice => Ok(Fact::Noticed(notice(object)?)),
        Kind::Nomination => Ok(Fact::Nominated(document(alloc, object)?)),
        Kind::Closed => Ok(closing(object)?),
        Kind::Met => meeting(alloc, object),
    }
}

#[tactic(auto, unfolding(crate::specs::Decoding::fact))]
pub fn fact(alloc: Global, object: &JsonValue<'_, '_>) -> Result<Fact, FieldFault>
    ensures { reading.Gives (λ found. found) result (fact (value_at object.now)) }
{
    let kind = kind(object)?;
    of_kind(alloc, kind, object)
}

#[tactic(auto, unfolding(crate::specs::Decoding::fact_of))]
fn read(alloc: Global, bytes: &[u8]) -> Result<Fact, FactFault>
    ensures { Gives result (fact_of bytes.now) }
{
    let mut scratch = Scratch::new(alloc);
    let Some(text) = json(alloc, bytes, &mut scratch)? else {
        return Err(FactFault::NotAFact);
    };
    Ok(fact(alloc, &text.root())?)
}

/// The fact that the bytes are. `NotAFact` where they are none, and `OutOfMemory` where memory runs
/// out.
pub fn decode_fact(alloc: Global, bytes: &[u8]) -> Result<Fact, FactFault>
    // What is read is spelled so.
    ensures found { IfOk result (λ fact. Spells bytes.now fact) }

    // What is spelled so is read, unless memory runs out.
    ensures only { (fact : Fact) → Spells bytes.now fact → Gives result (Some fact) }

    // Where there is no fact, there is none.
    ensures exact { Gives result (fact_of bytes.now) }
{
    read(alloc, bytes)
}

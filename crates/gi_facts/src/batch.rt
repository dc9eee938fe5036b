//! Several facts in one text.

ghost use Rattle.std.specs.Prelude.{◌≡◌, ◌<◌, Err, IfOk, Some};
ghost use Rattle.serde_json.specs.Data.{Items};
ghost use Rattle.serde_json.specs.Events.{items_len};
ghost use Rattle.serde_json.specs.Find.{as_array};
ghost use Rattle.gi_messages.specs.Adding.{Adds};
ghost use Rattle.gi_messages.specs.Reading as reading;
ghost use Rattle.gi_messages.specs.Tokens.{value_at, elements_at};
ghost use Rattle.gi_facts.specs.Batch.{GivesFacts, batch_of, batch_of_value, batch_text, facts_data, holds_several, most_facts, one_fact};
ghost use Rattle.gi_facts.specs.Decoding as decoding;
ghost use Rattle.gi_facts.specs.declared.fact_fault.FactFault.TheVariants.{NotAFact};

use crate::decoding::fact;
use crate::encoding::{encode_fact, put_fact, room_for_fact};
use crate::fact::Fact;
use crate::fact_fault::FactFault;
use gi_messages::MOST_BYTES;
use gi_messages::parts::{FieldFault, JsonElements, JsonValue, json};
use json::{Scratch, Writer};
use std::alloc::{AllocError, Global};

/// The most facts that are written as one text.
pub const MOST_FACTS: usize = 64;

fn room_for_facts(facts: &[Fact]) -> usize {
    let mut room = 0usize;
    for fact in facts {
        room = room.saturating_add(room_for_fact(fact));
    }
    room.min(MOST_BYTES)
}

fn put_facts(alloc: Global, out: &mut Writer, facts: &[Fact]) -> Result<(), AllocError>
    ensures { Adds result out.old out.new (facts_data facts.now) }
{
    out.begin_array()?;
    for fact in facts {
        put_fact(alloc, out, fact)?;
    }
    out.end_array()
}

/// The one text of the facts: of one fact its own, of several the JSON array of them with no
/// spaces. It fails only for want of memory.
pub fn encode_batch(alloc: Global, facts: &[Fact]) -> Result<Vec<u8>, AllocError>
    ensures text { IfOk result (λ bytes. bytes.items ≡ batch_text facts.now) }
{
    if facts.len() == 1 {
        return encode_fact(alloc, &facts[0]);
    }
    let mut out = Writer::new(Vec::with_capacity(alloc, room_for_facts(facts))?);
    put_facts(alloc, &mut out, facts)?;
    Ok(out.into_inner())
}

fn each_fact(alloc: Global, mut elements: JsonElements<'_, '_>) -> Result<Vec<Fact>, FieldFault>
    ensures { reading.Gives (λ found. found.items) result (reading.each decoding.fact (elements_at elements.entry)) }
{
    let mut facts = Vec::new(alloc);
    while let Some(element) = elements.next() {
        facts.push(fact(alloc, &element)?)?;
    }
    Ok(facts)
}

fn one_fact(alloc: Global, value: &JsonValue<'_, '_>) -> Result<Vec<Fact>, FieldFault>
    ensures { reading.Gives (λ found. found.items) result (one_fact (value_at value.now)) }
{
    let mut facts = Vec::with_capacity(alloc, 1)?;
    facts.push(fact(alloc, value)?)?;
    Ok(facts)
}

/// Whether it is an array of as many elements as there may be facts in one.
fn holds_several(value: &JsonValue<'_, '_>) -> bool
    ensures { result ≡ holds_several (value_at value.now) }
{
    match value.elements() {
        Some(elements) => matches!(elements.count_within(MOST_FACTS), Some(2..)),
        None => false,
    }
}

fn batch_of_value(alloc: Global, value: &JsonValue<'_, '_>) -> Result<Vec<Fact>, FactFault>
    ensures exact { GivesFacts (λ found. found.items) result (batch_of_value (value_at value.now)) }
    ensures too_many { (elements : Items) → as_array (value_at value.now) ≡ Some elements → most_facts < items_len elements → result ≡ Err NotAFact }
    ensures too_few { (elements : Items) → as_array (value_at value.now) ≡ Some elements → items_len elements < 2 → result ≡ Err NotAFact }
{
    let Some(elements) = value.elements() else {
        return Ok(one_fact(alloc, value)?);
    };
    if !holds_several(value) {
        return Err(FactFault::NotAFact);
    }
    Ok(each_fact(alloc, elements)?)
}

/// The facts that the bytes are: one, or the elements of an array of 2 to 64 facts. `NotAFact` where
/// they are neither, and `OutOfMemory` where memory runs out. Of an array of fewer or more elements
/// none is read.
#[tactic(auto, unfolding(crate::specs::Batch::batch_of))]
pub fn decode_batch(alloc: Global, bytes: &[u8]) -> Result<Vec<Fact>, FactFault>
    ensures exact { GivesFacts (λ found. found.items) result (batch_of bytes.now) }
{
    let mut scratch = Scratch::new(alloc);
    let Some(text) = json(alloc, bytes, &mut scratch)? else {
        return Err(FactFault::NotAFact);
    };
    batch_of_value(alloc, &text.root())
}

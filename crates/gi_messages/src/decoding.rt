//! Reading messages.

ghost use Rattle.std.specs.Prelude.{◌≡◌, ◌<◌, ◌≤◌, length, IfOk, IsUtf8, Ok, Err};
ghost use Rattle.gi_messages.specs.Tokens.{value_at};
ghost use Rattle.gi_messages.specs.Reading as reading;
ghost use Rattle.gi_messages.specs.declared.message.Message.{Message};
ghost use Rattle.gi_messages.specs.Grammar.{Spells};
ghost use Rattle.gi_messages.specs.declared.key.Key.TheVariants.{Version};
ghost use Rattle.gi_messages.specs.Json.{json_of};
ghost use Rattle.gi_messages.specs.Limits.{most_bytes, last_version};
ghost use Rattle.gi_messages.specs.Decoding.{Gives, nomint, acknow, nomres, processed, confirmed, delord, delres, kind_of, of_kind, if_kind, if_json, decoded};

use crate::fault::FieldFault;
use crate::fields::{code, day, number};
use crate::head::{Span, elements_of, head_of, span_of};
use crate::json_text::json;
use crate::json_value::JsonValue;
use crate::key::Key;
use crate::kind::{Kind, kind_named};
use crate::line_reading::lines;
use crate::message::{
    Acknow, Delord, Delres, LAST_CYCLE, LAST_VERSION, MOST_BYTES, MOST_CONFIRMED_ELEMENTS,
    MOST_PROCESSED_ELEMENTS, Message, Nomint, Nomres,
};
use crate::message_fault::MessageFault;
use crate::rows::table;
use crate::written::written;
use gi_pairs::Table;
use json::Scratch;
use std::alloc::Global;

fn version(object: &JsonValue<'_, '_>) -> Result<u32, Key>
    ensures { result ≡ reading.number 1 last_version Version (value_at object.now) }
{
    let version = number(object, Key::Version, 1, u64::from(LAST_VERSION))?;
    Ok(version as u32)
}

/// The NOMINT that an object is.
#[tactic(auto, unfolding(crate::specs::Decoding::nomint))]
pub fn nomint(alloc: Global, object: &JsonValue<'_, '_>) -> Result<Nomint, FieldFault>
    ensures { reading.Gives (λ found. found) result (nomint (value_at object.now)) }
{
    let point = code(object, Key::Point)?;
    let portfolio = code(object, Key::Portfolio)?;
    let day = day(object, Key::Day)?;
    let version = version(object)?;
    let lines = lines(alloc, object, None)?;
    Ok(Nomint {
        point,
        portfolio,
        day,
        version,
        lines,
    })
}

#[tactic(auto, unfolding(crate::specs::Decoding::acknow))]
fn acknow(object: &JsonValue<'_, '_>) -> Result<Acknow, FieldFault>
    ensures { reading.Gives (λ found. found) result (acknow (value_at object.now)) }
{
    let point = code(object, Key::Point)?;
    let portfolio = code(object, Key::Portfolio)?;
    let day = day(object, Key::Day)?;
    let version = version(object)?;
    Ok(Acknow {
        point,
        portfolio,
        day,
        version,
    })
}

#[tactic(auto, unfolding(crate::specs::Decoding::nomres))]
fn nomres(alloc: Global, object: &JsonValue<'_, '_>) -> Result<Nomres, FieldFault>
    ensures { reading.Gives (λ found. found) result (nomres (value_at object.now)) }
{
    let point = code(object, Key::Point)?;
    let portfolio = code(object, Key::Portfolio)?;
    let day = day(object, Key::Day)?;
    let cycle = number(object, Key::Cycle, 0, u64::from(LAST_CYCLE))? as u8;
    let span = span_of(object)?;
    let count = usize::from(span.last) + 1 - usize::from(span.first);
    let lines = lines(alloc, object, Some(count))?;
    Ok(Nomres {
        point,
        portfolio,
        day,
        cycle,
        first: span.first,
        last: span.last,
        lines,
    })
}

fn processed(
    alloc: Global,
    object: &JsonValue<'_, '_>,
    parts: u8,
    span: Span,
) -> Result<Table, FieldFault>
    requires { span.first ≤ span.last }
    ensures { reading.Gives (λ found. found) result (processed parts span (value_at object.now)) }
{
    let Span { first, last } = span;
    let most = elements_of(MOST_PROCESSED_ELEMENTS, parts);
    table(alloc, object, Key::Processed, most, first, last)
}

fn confirmed(
    alloc: Global,
    object: &JsonValue<'_, '_>,
    parts: u8,
    span: Span,
) -> Result<Table, FieldFault>
    requires { span.first ≤ span.last }
    ensures { reading.Gives (λ found. found) result (confirmed parts span (value_at object.now)) }
{
    let Span { first, last } = span;
    let most = elements_of(MOST_CONFIRMED_ELEMENTS, parts);
    table(alloc, object, Key::Confirmed, most, first, last)
}

#[tactic(auto, unfolding(crate::specs::Decoding::delord))]
fn delord(alloc: Global, object: &JsonValue<'_, '_>) -> Result<Delord, FieldFault>
    ensures { reading.Gives (λ found. found) result (delord (value_at object.now)) }
{
    let head = head_of(object)?;
    let processed = processed(alloc, object, head.parts, head.span)?;
    Ok(Delord {
        point: head.point,
        day: head.day,
        cycle: head.cycle,
        parts: head.parts,
        part: head.part,
        processed,
    })
}

#[tactic(auto, unfolding(crate::specs::Decoding::delres))]
fn delres(alloc: Global, object: &JsonValue<'_, '_>) -> Result<Delres, FieldFault>
    ensures { reading.Gives (λ found. found) result (delres (value_at object.now)) }
{
    let head = head_of(object)?;
    let processed = processed(alloc, object, head.parts, head.span)?;
    let confirmed = confirmed(alloc, object, head.parts, head.span)?;
    Ok(Delres {
        point: head.point,
        day: head.day,
        cycle: head.cycle,
        parts: head.parts,
        part: head.part,
        processed,
        confirmed,
    })
}

fn of_kind(alloc: Global, kind: Kind, object: &JsonValue<'_, '_>) -> Result<Message, FieldFault>
    ensures { reading.Gives (λ found. found) result (of_kind kind (value_at object.now)) }
{
    match kind {
        Kind::Nomint => nomint(alloc, object).map(Message::Nomint),
        Kind::Acknow => acknow(object).map(Message::Acknow),
        Kind::Nomres => nomres(alloc, object).map(Message::Nomres),
        Kind::Delord => delord(alloc, object).map(Message::Delord),
        Kind::Delres => delres(alloc, object).map(Message::Delres),
    }
}

/// The kind that an object names.
#[tactic(auto, unfolding(crate::specs::Decoding::kind_of))]
pub fn kind_of(object: &JsonValue<'_, '_>) -> Option<Kind>
    ensures { result ≡ kind_of (value_at object.now) }
{
    kind_named(object.get(Key::Kind.text())?.as_str()?)
}

fn of_object(alloc: Global, object: &JsonValue<'_, '_>) -> Result<Message, MessageFault>
    ensures { Gives result (if_kind (value_at object.now) (kind_of (value_at object.now))) }
{
    match kind_of(object) {
        Some(kind) => Ok(of_kind(alloc, kind, object)?),
        None => Err(MessageFault::UnknownKind),
    }
}

fn read_json(alloc: Global, bytes: &[u8]) -> Result<Message, MessageFault>
    ensures exact { Gives result (if_json (json_of bytes.now)) }
    ensures not_text { ¬ (IsUtf8 bytes.now) → result ≡ Err MessageFault.NotJson }
{
    let mut scratch = Scratch::new(alloc);
    match json(alloc, bytes, &mut scratch)? {
        Some(text) => of_object(alloc, &text.root()),
        None => Err(MessageFault::NotJson),
    }
}

#[tactic(auto, unfolding(crate::specs::Decoding::decoded))]
fn read(alloc: Global, bytes: &[u8]) -> Result<Message, MessageFault>
    ensures exact { Gives result (decoded bytes.now) }
    ensures too_large { most_bytes < length bytes.now → result ≡ Err MessageFault.TooLarge }
    ensures not_text { length bytes.now ≤ most_bytes → ¬ (IsUtf8 bytes.now) → result ≡ Err MessageFault.NotJson }
{
    if bytes.len() > MOST_BYTES {
        return Err(MessageFault::TooLarge);
    }
    match written(alloc, bytes) {
        Some(message) => Ok(message),
        None => read_json(alloc, bytes),
    }
}

/// The message that the bytes are, or the first fault: `TooLarge` (over 16,777,216 bytes),
/// `NotJson`, `UnknownKind`, `Field` (in the order of the kind's fields), `OutOfMemory`. Bytes that
/// are too large, and bytes that are no UTF-8, take no memory.
pub fn decode(alloc: Global, bytes: &[u8]) -> Result<Message, MessageFault>
    // What is read is spelled so.
    ensures found { IfOk result (λ m. Spells bytes.now m) }

    // What is spelled so is read, unless memory runs out.
    ensures only { (m : Message) → Spells bytes.now m → Gives result (Ok m) }

    // Which fault it is.
    ensures exact { Gives result (decoded bytes.now) }

    // What is known without memory.
    ensures too_large { most_bytes < length bytes.now → result ≡ Err MessageFault.TooLarge }
    ensures not_text { length bytes.now ≤ most_bytes → ¬ (IsUtf8 bytes.now) → result ≡ Err MessageFault.NotJson }
{
    read(alloc, bytes)
}

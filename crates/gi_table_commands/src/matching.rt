ghost use Rattle.std.specs.Prelude.{◌≡◌, ◌≢◌, ◌↔◌, ◌<◌, ◌≤◌, ◌∷◌, ◌++◌, [], ℕ, List, Err, IfOk, IfErr, IsTrue, length};
ghost use Rattle.gi_messages.specs.Limits.{most_bytes};
ghost use Rattle.gi_messages.specs.Writing.{text_of};
ghost use Rattle.gi_pairs.specs.Limits.{most_processed_rows};
ghost use Rattle.gi_text.specs.Lines.{line_feed};
ghost use Rattle.gi_table_commands.specs.Lines.{HasLines, HasNoLines};
ghost use Rattle.gi_table_commands.specs.Match.{IsAnswer, IsFirstLineFault, IsLineFault, IsRefused, IsResponse, IsTableOn, IsUnanswered, SameShape, SpellsWhole};

use crate::fault::{Fault, Line};
use crate::lines::two_lines;
use gi_lesser::lesser_parallel;
use gi_messages::{Delord, Delres, Message, MessageFault, decode, encode};
use gi_pairs::Table;
use gi_text::LINE_FEED;
use std::alloc::Global;
use std::thread;
use std::thread::Threads;

/// About how much memory the reading of an order takes at most, in bytes for each byte of its line.
const ROOM_FOR_BYTE: usize = 24;

/// More than the reading of the largest table takes, and no more than can stay with a thread.
const MOST_ROOM: usize = 16_777_216;

/// Has the thread hold as much memory as the reading of a line takes. The C library lends a second
/// thread its memory page by page, each by a call of the system. A large piece that is taken and
/// given back goes to the system the first time, and stays with the thread the second time. Want of
/// memory is left to the reading.
fn hold_memory(alloc: Global, line: &[u8]) {
    let room = line.len().saturating_mul(ROOM_FOR_BYTE).min(MOST_ROOM);
    for _ in 0..2 {
        let _ = Vec::<u8>::with_capacity(alloc, room);
    }
}

/// The table of a line, taken whole: `Parts` where it is one part of several.
fn whole(line: Line, table: Delord) -> Result<Delord, Fault>
    ensures taken { IfOk result (λ taken. (taken ≡ table) × (table.parts ≡ 1)) }
    ensures refused { IfErr result (λ fault. (fault ≡ Fault.Parts line) × (table.parts ≢ 1)) }
{
    if table.parts == 1 {
        return Ok(table);
    }
    drop(table);
    Err(Fault::Parts(line))
}

fn table_on(alloc: Global, line: Line, bytes: &[u8]) -> Result<Delord, Fault>
    ensures spelled { IfOk result (SpellsWhole bytes.now) }
    ensures few_rows { IfOk result (λ table. length table.processed.rows ≤ most_processed_rows) }
    ensures refused { IfErr result (IsLineFault line bytes.now) }
    ensures too_large { most_bytes < length bytes.now
        → result ≡ Err (Fault.Message line MessageFault.TooLarge) }
{
    hold_memory(alloc, bytes);
    match decode(alloc, bytes) {
        Ok(Message::Delord(table)) => whole(line, table),
        Ok(Message::Nomint(_)) => Err(Fault::WrongKind(line)),
        Ok(Message::Acknow(_)) => Err(Fault::WrongKind(line)),
        Ok(Message::Nomres(_)) => Err(Fault::WrongKind(line)),
        Ok(Message::Delres(_)) => Err(Fault::WrongKind(line)),
        Err(MessageFault::OutOfMemory) => Err(Fault::OutOfMemory),
        Err(fault) => Err(Fault::Message(line, fault)),
    }
}

/// What is read on both lines, at the same time.
fn both_read(
    rt: &(impl Threads + Sync),
    alloc: Global,
    order: &[u8],
    own: &[u8],
) -> (Result<Delord, Fault>, Result<Delord, Fault>)
    ensures order { IsTableOn Line.Order order.now result.0 }
    ensures own { IsTableOn Line.Own own.now result.1 }
{
    thread::join(
        rt,
        move || -> Result<Delord, Fault>
            ensures { IsTableOn Line.Order order.entry.now result }
        { table_on(alloc, Line::Order, order) },
        move || -> Result<Delord, Fault>
            ensures { IsTableOn Line.Own own.entry.now result }
        { table_on(alloc, Line::Own, own) },
    )
}

/// The tables on both lines.
fn tables_on(
    rt: &(impl Threads + Sync),
    alloc: Global,
    order: &[u8],
    own: &[u8],
) -> Result<(Delord, Delord), Fault>
    ensures order { IfOk result (λ tables. SpellsWhole order.now tables.0) }
    ensures own { IfOk result (λ tables. SpellsWhole own.now tables.1) }
    ensures few_rows { IfOk result (λ tables. length tables.0.processed.rows ≤ most_processed_rows) }
    ensures few_own_rows { IfOk result (λ tables. length tables.1.processed.rows ≤ most_processed_rows) }
    ensures refused { IfErr result (IsFirstLineFault order.now own.now) }
    ensures too_large { most_bytes < length order.now
        → result ≡ Err (Fault.Message Line.Order MessageFault.TooLarge) }
{
    let (order, own) = both_read(rt, alloc, order, own);
    match order {
        Ok(order) => match own {
            Ok(own) => Ok((order, own)),
            Err(fault) => Err(fault),
        },
        Err(fault) => Err(fault),
    }
}

fn same_shape(order: &Delord, own: &Delord) -> bool
    ensures { IsTrue result ↔ SameShape order.now own.now }
{
    order.point == own.point
        && order.day == own.day
        && order.cycle == own.cycle
        && own.processed.covers_same_hours(&order.processed)
}

/// The response to an order: its own table, and the lesser of both.
fn response_to(
    rt: &(impl Threads + Sync),
    alloc: Global,
    order: &Delord,
    own: Delord,
) -> Result<Message, Fault>
    requires few_rows { length order.now.processed.rows ≤ most_processed_rows }
    requires few_own_rows { length own.processed.rows ≤ most_processed_rows }
    ensures response { IfOk result (λ message. IsResponse order.now own message) }
    ensures fault { IfErr result (IsUnanswered order.now own) }
{
    if !same_shape(order, &own) {
        // (handed to drop, by one call: going out of scope here would be checked field by field on each way out)
        drop(own);
        return Err(Fault::ShapeDiffers);
    }
    let Ok(confirmed) = lesser_parallel(rt, alloc, &own.processed, &order.processed) else {
        drop(own);
        return Err(Fault::OutOfMemory);
    };
    Ok(Message::Delres(Delres {
        point: own.point,
        day: own.day,
        cycle: own.cycle,
        parts: 1,
        part: 1,
        processed: own.processed,
        confirmed,
    }))
}

/// The message's text, and a line feed.
fn line_of(alloc: Global, message: &Message) -> Result<Vec<u8>, Fault>
    ensures text { IfOk result (λ text. text.items ≡ text_of message.now ++ line_feed ∷ []) }
    ensures fault { IfErr result (λ fault. fault ≡ Fault.OutOfMemory) }
{
    let Ok(mut text) = encode(alloc, message) else {
        return Err(Fault::OutOfMemory);
    };
    if text.push(LINE_FEED).is_err() {
        drop(text);
        return Err(Fault::OutOfMemory);
    }
    Ok(text)
}

/// What `match` writes for an input: the DELRES and a line feed. The fault is the first of the
/// stated order; want of memory is answered where it stands in the way.
pub fn answer(rt: &(impl Threads + Sync), alloc: Global, input: &[u8]) -> Result<Vec<u8>, Fault>
    ensures text { IfOk result (λ text. IsAnswer input.now text.items) }
    ensures fault { IfErr result (IsRefused input.now) }

    // Want of memory is never answered in place of these two.
    ensures lines { HasNoLines input.now → result ≡ Err Fault.Lines }
    ensures too_large { (first second : List ℕ) → HasLines input.now first second
        → most_bytes < length first
        → result ≡ Err (Fault.Message Line.Order MessageFault.TooLarge) }
{
    let (order_line, own_line) = two_lines(input)?;
    let (order, own) = tables_on(rt, alloc, order_line, own_line)?;
    let response = response_to(rt, alloc, &order, own);
    drop(order);
    let response = response?;
    let text = line_of(alloc, &response);
    drop(response);
    text
}

//! Writing messages.

ghost use Rattle.std.specs.Prelude.{◌≡◌, ◌≤◌, length, IfOk, Ok};
ghost use Rattle.gi_messages.specs.Adding.{Adds, AddsHead, AddsPart};
ghost use Rattle.gi_messages.specs.Decoding.{decoded};
ghost use Rattle.gi_messages.specs.Grammar.{IsWritable};
ghost use Rattle.gi_messages.specs.Limits.{most_bytes};
ghost use Rattle.gi_messages.specs.Writing.{nomint_data, acknow_data, nomres_data, delord_data, delres_data, data_of, text_of};

use crate::head::Span;
use crate::key::Key;
use crate::kind::Kind;
use crate::line_writing::put_lines;
use crate::members::{put_code, put_day, put_number, put_text};
use crate::message::{Acknow, Delord, Delres, Message, Nomint, Nomres};
use crate::room::room_for;
use crate::row_writing::put_rows;
use gi_day::GasDay;
use json::Writer;
use std::alloc::{AllocError, Global};

/// Adds the object of a NOMINT.
pub fn put_nomint(alloc: Global, out: &mut Writer, message: &Nomint) -> Result<(), AllocError>
    ensures { Adds result out.old out.new (nomint_data message.now) }
{
    out.begin_object()?;
    put_day(alloc, out, &message.day)?;
    put_text(out, Key::Kind, Kind::Nomint.text())?;
    put_lines(out, message.lines.as_slice())?;
    put_code(out, Key::Point, &message.point)?;
    put_code(out, Key::Portfolio, &message.portfolio)?;
    put_number(out, Key::Version, u64::from(message.version))?;
    out.end_object()
}

fn put_acknow(alloc: Global, out: &mut Writer, message: &Acknow) -> Result<(), AllocError>
    ensures { Adds result out.old out.new (acknow_data message.now) }
{
    out.begin_object()?;
    put_day(alloc, out, &message.day)?;
    put_text(out, Key::Kind, Kind::Acknow.text())?;
    put_code(out, Key::Point, &message.point)?;
    put_code(out, Key::Portfolio, &message.portfolio)?;
    put_number(out, Key::Version, u64::from(message.version))?;
    out.end_object()
}

/// Adds what the messages of a cycle have from it on to the last hour.
fn put_head(
    alloc: Global,
    out: &mut Writer,
    kind: Kind,
    cycle: u8,
    day: &GasDay,
    span: Span,
) -> Result<(), AllocError>
    ensures { AddsHead result out.old out.new kind cycle day.now span }
{
    put_number(out, Key::Cycle, u64::from(cycle))?;
    put_day(alloc, out, day)?;
    put_number(out, Key::First, u64::from(span.first))?;
    put_text(out, Key::Kind, kind.text())?;
    put_number(out, Key::Last, u64::from(span.last))
}

fn put_nomres(alloc: Global, out: &mut Writer, message: &Nomres) -> Result<(), AllocError>
    ensures { Adds result out.old out.new (nomres_data message.now) }
{
    let span = Span {
        first: message.first,
        last: message.last,
    };
    out.begin_object()?;
    put_head(alloc, out, Kind::Nomres, message.cycle, &message.day, span)?;
    put_lines(out, message.lines.as_slice())?;
    put_code(out, Key::Point, &message.point)?;
    put_code(out, Key::Portfolio, &message.portfolio)?;
    out.end_object()
}

/// Adds which part it is and of how many, where there are several.
fn put_part(out: &mut Writer, parts: u8, part: u8) -> Result<(), AllocError>
    ensures { AddsPart result out.old out.new parts part }
{
    if parts == 1 {
        return Ok(());
    }
    put_number(out, Key::Part, u64::from(part))?;
    put_number(out, Key::Parts, u64::from(parts))
}

fn put_delord(alloc: Global, out: &mut Writer, message: &Delord) -> Result<(), AllocError>
    ensures { Adds result out.old out.new (delord_data message.now) }
{
    let span = Span {
        first: message.processed.first(),
        last: message.processed.last(),
    };
    out.begin_object()?;
    put_head(alloc, out, Kind::Delord, message.cycle, &message.day, span)?;
    put_part(out, message.parts, message.part)?;
    put_code(out, Key::Point, &message.point)?;
    put_rows(out, Key::Processed, message.processed.rows())?;
    out.end_object()
}

fn put_delres(alloc: Global, out: &mut Writer, message: &Delres) -> Result<(), AllocError>
    ensures { Adds result out.old out.new (delres_data message.now) }
{
    let span = Span {
        first: message.processed.first(),
        last: message.processed.last(),
    };
    out.begin_object()?;
    put_rows(out, Key::Confirmed, message.confirmed.rows())?;
    put_head(alloc, out, Kind::Delres, message.cycle, &message.day, span)?;
    put_part(out, message.parts, message.part)?;
    put_code(out, Key::Point, &message.point)?;
    put_rows(out, Key::Processed, message.processed.rows())?;
    out.end_object()
}

fn put_message(alloc: Global, out: &mut Writer, message: &Message) -> Result<(), AllocError>
    ensures { Adds result out.old out.new (data_of message.now) }
{
    match message {
        Message::Nomint(nomint) => put_nomint(alloc, out, nomint),
        Message::Acknow(acknow) => put_acknow(alloc, out, acknow),
        Message::Nomres(nomres) => put_nomres(alloc, out, nomres),
        Message::Delord(delord) => put_delord(alloc, out, delord),
        Message::Delres(delres) => put_delres(alloc, out, delres),
    }
}

/// The one JSON text of the message, with its keys in byte order, its lines in their order and its
/// rows in table order. It fails only for want of memory.
pub fn encode(alloc: Global, message: &Message) -> Result<Vec<u8>, AllocError>
    ensures text { IfOk result (λ bytes. bytes.items ≡ text_of message.now) }
    // The message is read back, where the text is not too large.
    ensures reads_back { IfOk result (λ bytes. IsWritable message.now → length bytes.items ≤ most_bytes → decoded bytes.items ≡ Ok message.now) }
{
    let mut out = Writer::new(Vec::with_capacity(alloc, room_for(message))?);
    put_message(alloc, &mut out, message)?;
    Ok(out.into_inner())
}

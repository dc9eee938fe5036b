//! What the portfolios of a side are told.

ghost use Rattle.std.specs.Prelude.{◌≡◌, ◌<◌, IfErr, IfOk, IsTrue, OnOk, Some, is_some, length, map};
ghost use Rattle.gi_messages.specs.declared.message.Message.TheVariants as messages;
ghost use Rattle.gi_desk.specs.Messages.{line_of as line_of_row, lines_of as lines_of_rows, portfolios_in as portfolios_in_rows, to_user, told_of, told_packets as told_packets_of, with_code};
ghost use Rattle.gi_desk.specs.Machine.{some_leave};
ghost use Rattle.gi_desk.specs.Queries.{stands_in as stands_in_rows, told_if as told_if_met};

use crate::packet::{Packet, Recipient};
use gi_cycles::Matched;
use gi_messages::{Line, Lines, Message, Nomres};
use gi_pairs::{Code, Row, Side};
use std::alloc::{AllocError, Global};

fn line_of(side: Side, row: &Row) -> Result<Line, AllocError>
    ensures { IfOk result (λ line. line ≡ line_of_row side row.now) }
{
    Ok(Line {
        counterparty: row.pair.at(side.other()),
        direction: row.direction,
        hours: row.hours.copy()?,
    })
}

fn lines_of(
    alloc: Global,
    side: Side,
    portfolio: Code,
    rows: &[Row],
) -> Result<Lines<Line>, AllocError>
    ensures { IfOk result (λ lines. lines ≡ lines_of_rows side portfolio rows.now) }
{
    let mut lines = Vec::new(alloc);
    for row in rows {
        if row.pair.at(side) == portfolio {
            lines.push(line_of(side, row)?)?;
        }
    }
    Ok(Lines::from(lines))
}

fn told(
    alloc: Global,
    side: Side,
    point: Code,
    cycle: &Matched,
    portfolio: Code,
) -> Result<Nomres, AllocError>
    ensures { IfOk result (λ nomres. nomres ≡ told_of side point cycle.now portfolio) }
{
    let id = cycle.id();
    let confirmed = cycle.confirmed();
    Ok(Nomres {
        point,
        portfolio,
        day: id.day,
        cycle: id.cycle,
        first: confirmed.first(),
        last: confirmed.last(),
        lines: lines_of(alloc, side, portfolio, confirmed.rows())?,
    })
}

fn stands_in(side: Side, portfolio: Code, rows: &[Row]) -> bool
    ensures { result ≡ stands_in_rows side portfolio rows.now }
{
    rows.iter().any(|row| row.pair.at(side) == portfolio)
}

pub(crate) fn told_if(
    alloc: Global,
    side: Side,
    point: Code,
    cycle: &Matched,
    portfolio: Code,
) -> Result<Option<Nomres>, AllocError>
    ensures value { IfOk result (λ nomres. nomres ≡ told_if_met side point portfolio (Some cycle.now)) }
    ensures short { IfErr result (λ _. IsTrue (is_some (told_if_met side point portfolio (Some cycle.now)))) }
{
    if !stands_in(side, portfolio, cycle.confirmed().rows()) {
        return Ok(None);
    }
    Ok(Some(told(alloc, side, point, cycle, portfolio)?))
}

fn packet_for(
    alloc: Global,
    side: Side,
    point: Code,
    cycle: &Matched,
    portfolio: Code,
) -> Result<Packet, AllocError>
    ensures { IfOk result (λ packet. packet ≡ to_user portfolio (messages.Nomres (told_of side point cycle.now portfolio))) }
{
    let message = Message::Nomres(told(alloc, side, point, cycle, portfolio)?);
    let packet = Packet::of(alloc, Recipient::User(portfolio), &message);
    // (handed to drop, by one call: going out of scope here would be checked field by field on each way out)
    drop(message);
    packet
}

pub(crate) fn packets_for(
    alloc: Global,
    side: Side,
    point: Code,
    cycle: &Matched,
    portfolios: &[Code],
) -> Result<Vec<Packet>, AllocError>
    ensures value { IfOk result (λ packets. packets.items ≡ map (λ portfolio. to_user portfolio (messages.Nomres (told_of side point cycle.now portfolio))) portfolios.now) }
    ensures short { IfErr result (λ _. 0 < length portfolios.now) }
{
    let mut packets = Vec::with_capacity(alloc, portfolios.len())?;
    for portfolio in portfolios {
        packets.push(packet_for(alloc, side, point, cycle, *portfolio)?)?;
    }
    Ok(packets)
}

fn insert(codes: &mut Vec<Code>, code: Code) -> Result<(), AllocError>
    ensures { OnOk result (codes.new.items ≡ with_code code codes.old.items) }
{
    let place = codes.iter().position(|other| code <= *other);
    let place = place.unwrap_or(codes.len());
    if place == codes.len() || code != codes[place] {
        codes.insert(place, code)?;
    }
    Ok(())
}

fn is_that(last: &Option<Code>, code: Code) -> bool
    ensures { IsTrue result → last.now ≡ Some code }
{
    match last {
        Some(last) => *last == code,
        None => false,
    }
}

/// Rows of one portfolio often follow each other, and then it is looked for once.
fn portfolios_in(alloc: Global, side: Side, rows: &[Row]) -> Result<Vec<Code>, AllocError>
    ensures value { IfOk result (λ codes. codes.items ≡ portfolios_in_rows side rows.now) }
    ensures short { IfErr result (λ _. 0 < length rows.now) }
{
    let mut codes = Vec::new(alloc);
    let mut last = None;
    for row in rows.iter().rev() {
        let code = row.pair.at(side);
        if !is_that(&last, code) {
            insert(&mut codes, code)?;
            last = Some(code);
        }
    }
    Ok(codes)
}

#[tactic(auto, unfolding(crate::specs::Messages::told_packets))]
pub(crate) fn told_packets(
    alloc: Global,
    side: Side,
    point: Code,
    cycle: &Matched,
) -> Result<Vec<Packet>, AllocError>
    ensures value { IfOk result (λ packets. packets.items ≡ told_packets_of side point cycle.now) }
    ensures short { IfErr result (λ _. IsTrue (some_leave (told_packets_of side point cycle.now))) }
{
    let portfolios = portfolios_in(alloc, side, cycle.confirmed().rows())?;
    packets_for(alloc, side, point, cycle, &portfolios)
}

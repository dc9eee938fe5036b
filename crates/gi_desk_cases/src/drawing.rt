//! Calls that are drawn. What a message has is drawn from few seeds, so that messages come again.

use crate::frames::{first_hour, hours};
use crate::memory::{put, written};
use crate::names::Names;
use crate::plain::{Plain, number};
use crate::random::Random;
use gi_desk::{Body, Call, Fact};
use gi_messages::{Delord, Delres, Lines, Message, NominationLine, Nomint};
use gi_pairs::{CycleId, Direction, Hours, Pair, Row, Side, Table};
use gi_processing::{Contract, Notice, Rule};
use std::alloc::Global;

fn direction(random: &mut Random) -> Direction {
    match random.below(3) {
        0 => Direction::MI,
        _ => Direction::IM,
    }
}

fn rule(random: &mut Random) -> Rule {
    match random.below(3) {
        0 => Rule::One,
        _ => Rule::Two,
    }
}

fn permille(random: &mut Random) -> u16 {
    match random.below(8) {
        0 => 0,
        1 => 333,
        2 | 3 => 500,
        4 => 1001,
        _ => 1000,
    }
}

fn contract(names: &Names, random: &mut Random) -> Contract {
    Contract {
        portfolio: names.drawn_portfolio(random),
        day: names.drawn_day(random),
        direction: direction(random),
        firm: names.quantity(random),
        interruptible: names.quantity(random),
    }
}

fn notice(names: &Names, random: &mut Random) -> Notice {
    let first = random.below(25);
    Notice {
        day: names.drawn_day(random),
        direction: direction(random),
        first,
        last: first.wrapping_add(random.below(12)),
        firm: permille(random),
        interruptible: permille(random),
    }
}

fn quantities(alloc: Global, names: &Names, random: &mut Random, count: u8) -> Hours {
    let mut quantities = Vec::new(alloc);
    for _ in 0..count {
        put(&mut quantities, names.quantity(random));
    }
    Hours::from(quantities)
}

fn lines(alloc: Global, names: &Names, random: &mut Random, count: u8) -> Lines<NominationLine> {
    let mut lines = Vec::new(alloc);
    for _ in 0..random.below(4) {
        let line = NominationLine {
            counterparty: names.counterparty(random.below(2)),
            direction: direction(random),
            hours: quantities(alloc, names, random, count),
            priority: random.below(9).wrapping_add(1),
        };
        put(&mut lines, line);
    }
    Lines::from(lines)
}

/// The nomination of a seed.
fn nomination(alloc: Global, names: &Names, seed: u8) -> Message {
    let mut random = Random::new(u64::from(seed));
    let day = names.drawn_day(&mut random);
    let count = match (day == names.gas_day(0), random.below(12)) {
        (true, 0) => 25,
        (true, _) => 24,
        _ => 23,
    };
    Message::Nomint(Nomint {
        point: names.drawn_point(&mut random),
        portfolio: names.drawn_portfolio(&mut random),
        day,
        version: u32::from(random.below(3)).wrapping_add(1),
        lines: lines(alloc, names, &mut random, count),
    })
}

/// The cycle of the first closing at or after a place.
fn closed_after(facts: &[Fact], place: u8) -> Option<CycleId> {
    for fact in facts.get(usize::from(place)..).unwrap_or(&[]) {
        if let Fact::Closed { id, .. } = fact {
            return Some(*id);
        }
    }
    None
}

/// A cycle that is closed, the first after a fact that is drawn, and at times any.
fn closed_id(plain: &Plain, names: &Names, random: &mut Random) -> CycleId {
    let place = random.below(u8::try_from(plain.facts.len()).unwrap_or(u8::MAX));
    if random.below(6) != 0 {
        if let Some(id) = closed_after(&plain.facts, place) {
            return id;
        }
    }
    names.cycle_id(random)
}

/// Rows of the pairs of the peer's two portfolios, each at times.
fn peer_rows(plain: &Plain, names: &Names, random: &mut Random, count: u8) -> Vec<Row> {
    let mut rows = Vec::new(plain.alloc);
    for number in 0..6u8 {
        if random.below(2) == 0 {
            let own = names.portfolio(number / 2);
            let row = Row {
                pair: Pair::of(plain.side, own, names.counterparty(number % 2)),
                direction: direction(random),
                hours: quantities(plain.alloc, names, random, count),
            };
            put(&mut rows, row);
        }
    }
    rows
}

/// A table of the peer for the hours of the cycle, one of three for each cycle, and at times for
/// others.
fn peer_table(plain: &Plain, names: &Names, random: &mut Random, id: &CycleId) -> Option<Table> {
    let last = hours(&plain.calendar, id.day);
    let first = match random.below(16) {
        0 => last,
        _ => first_hour(&plain.calendar, id).unwrap_or(1),
    };
    let mut again = Random::new(u64::from(random.below(3)));
    let count = last.wrapping_sub(first).wrapping_add(1);
    let rows = peer_rows(plain, names, &mut again, count);
    Table::build(first, last, rows).ok()
}

/// What the peer confirms beside its table: the lesser, and at times its own table.
fn confirmed(plain: &Plain, random: &mut Random, id: &CycleId, processed: &Table) -> Option<Table> {
    if random.below(8) != 0 {
        if let Some(lesser) = plain.lesser(id, processed) {
            return Some(lesser);
        }
    }
    processed.copy().ok()
}

/// Which part of how many a message of the peer is: at times one of two, and seldom of three.
fn drawn_part(random: &mut Random) -> (u8, u8) {
    match random.below(32) {
        0..=5 => (random.below(2).wrapping_add(1), 2),
        6 => (random.below(3).wrapping_add(1), 3),
        _ => (1, 1),
    }
}

/// The peer's response with its table.
fn response(
    plain: &Plain,
    names: &Names,
    random: &mut Random,
    id: &CycleId,
    processed: Table,
) -> Option<Message> {
    let confirmed = confirmed(plain, random, id, &processed)?;
    let (part, parts) = drawn_part(random);
    Some(Message::Delres(Delres {
        point: names.drawn_point(random),
        day: id.day,
        cycle: id.cycle,
        parts,
        part,
        processed,
        confirmed,
    }))
}

/// The peer's order with its table.
fn order(names: &Names, random: &mut Random, id: &CycleId, processed: Table) -> Message {
    let (part, parts) = drawn_part(random);
    Message::Delord(Delord {
        point: names.drawn_point(random),
        day: id.day,
        cycle: id.cycle,
        parts,
        part,
        processed,
    })
}

/// A message of the peer, of the kind for the side, and at times of the other.
fn message(plain: &Plain, names: &Names, random: &mut Random) -> Option<Message> {
    let id = closed_id(plain, names, random);
    let processed = peer_table(plain, names, random, &id)?;
    let is_right = random.below(24) != 0;
    if (plain.side == Side::I) == is_right {
        return response(plain, names, random, &id, processed);
    }
    Some(order(names, random, &id, processed))
}

/// The message's bytes, and at times those of no message; none where there is no memory for them.
fn body(alloc: Global, random: &mut Random, message: Message) -> Option<Body> {
    let mut bytes = written(alloc, message);
    if random.below(40) == 0 {
        bytes.clear();
        let _ = bytes.extend_from_slice(b"{}");
    }
    if bytes.is_empty() {
        return None;
    }
    Some(Body::from(bytes))
}

/// A nomination, one of 48.
fn submission(alloc: Global, names: &Names, random: &mut Random) -> Option<Call> {
    let message = nomination(alloc, names, random.below(48));
    match body(alloc, random, message) {
        Some(body) => Some(Call::Submit(body)),
        None => None,
    }
}

fn delivery(plain: &Plain, names: &Names, random: &mut Random) -> Option<Call> {
    let message = message(plain, names, random)?;
    match body(plain.alloc, random, message) {
        Some(body) => Some(Call::Deliver(body)),
        None => None,
    }
}

/// The next fact to save, and at times another.
fn marked(plain: &Plain, names: &Names, random: &mut Random) -> Option<Fact> {
    let is_next = random.below(16) != 0;
    match plain.facts.get(plain.saved) {
        Some(fact) if is_next => fact.copy().ok(),
        _ => Some(Fact::Closed {
            id: names.cycle_id(random),
            rule: rule(random),
        }),
    }
}

/// The mark of the next fact, at times with the number after.
fn mark(plain: &Plain, names: &Names, random: &mut Random) -> Option<Call> {
    let beyond = match random.below(16) {
        0 => 2,
        _ => 1,
    };
    match marked(plain, names, random) {
        Some(fact) => Some(Call::MarkSaved {
            n: number(plain.saved).wrapping_add(beyond),
            fact,
        }),
        None => None,
    }
}

/// How many numbers a call is drawn from: a desk of few facts is mostly told what others build on.
fn bound(plain: &Plain, random: &mut Random) -> u8 {
    match random.below(4) {
        0 => 240,
        _ if plain.facts.len() >= 8 => 240,
        _ => 120,
    }
}

/// A call; none where there is no memory for it.
pub fn drawn(plain: &Plain, names: &Names, random: &mut Random) -> Option<Call> {
    let bound = bound(plain, random);
    match random.below(bound) {
        0..=41 => Some(Call::Contract(contract(names, random))),
        42..=53 => Some(Call::Notice(notice(names, random))),
        54..=119 => submission(plain.alloc, names, random),
        120..=137 => Some(Call::Close {
            id: names.cycle_id(random),
            rule: rule(random),
        }),
        138..=167 => delivery(plain, names, random),
        168..=179 => Some(Call::Resend(closed_id(plain, names, random))),
        180 => Some(Call::Halt),
        _ => mark(plain, names, random),
    }
}

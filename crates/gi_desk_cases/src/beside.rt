//! A desk and a plain desk, side by side over days that are drawn.

use crate::drawing::drawn;
use crate::memory::put;
use crate::names::Names;
use crate::plain::{Plain, number};
use crate::random::Random;
use gi_day::Calendar;
use gi_desk::{Call, Desk, Fact, Packet, Role};
use gi_messages::{Message, Nomres, encode};
use gi_pairs::{Code, CycleId, Table};
use std::alloc::Global;

/// Whether both are to the same recipient, and of the same bytes.
fn is_same(packet: &Packet, other: &Packet) -> bool {
    packet.to == other.to && packet.body.as_slice() == other.body.as_slice()
}

/// Whether both are as many, and the same in order.
fn are_same(packets: &[Packet], others: &[Packet]) -> bool {
    let mut place = 0usize;
    for packet in packets {
        match others.get(place) {
            Some(other) if is_same(packet, other) => {}
            _ => return false,
        }
        place = place.wrapping_add(1);
    }
    packets.len() == others.len()
}

/// Makes the call at both: whether they reply the same.
fn step<R: Role>(desk: &mut Desk<R>, plain: &mut Plain, call: &Call) -> bool {
    let mut out = Vec::new(plain.alloc);
    let answer = plain.step(&mut out, call);
    let reply = desk.step(call);
    let is_same = reply.answer == answer && are_same(reply.out.as_slice(), &out);
    drop(reply);
    drop(out);
    is_same
}

/// Makes a call that is drawn at both: whether they reply the same.
fn step_drawn<R: Role>(
    desk: &mut Desk<R>,
    plain: &mut Plain,
    names: &Names,
    random: &mut Random,
) -> bool {
    match drawn(plain, names, random) {
        Some(call) => {
            let is_same = step(desk, plain, &call);
            drop(call);
            is_same
        }
        None => false,
    }
}

/// Whether both have the same facts.
fn have_same_facts<R: Role>(desk: &Desk<R>, facts: &[Fact]) -> bool {
    let mut n = 0u32;
    for fact in facts {
        n = n.wrapping_add(1);
        match desk.fact(n) {
            Some(other) if other.is(fact) => {}
            _ => return false,
        }
    }
    desk.len() == n
}

/// The bytes of what is told, no byte of nothing. `None` where there is no memory for them.
fn text_of(alloc: Global, told: Option<Nomres>) -> Option<Vec<u8>> {
    match told {
        Some(told) => {
            let message = Message::Nomres(told);
            let text = encode(alloc, &message).ok();
            drop(message);
            text
        }
        None => Some(Vec::new(alloc)),
    }
}

/// Whether both tell the portfolio the same of a cycle with this confirmed table.
fn tell_it_same<R: Role>(
    desk: &Desk<R>,
    plain: &Plain,
    portfolio: Code,
    id: &CycleId,
    confirmed: &Table,
) -> bool {
    let Ok(told) = desk.told(portfolio, *id) else {
        return false;
    };
    let told = text_of(plain.alloc, told);
    let other = text_of(plain.alloc, plain.told(portfolio, id, confirmed));
    match (&told, &other) {
        (Some(told), Some(other)) => told.as_slice() == other.as_slice(),
        _ => false,
    }
}

/// Whether both tell each portfolio the same.
fn tell_same<R: Role>(
    desk: &Desk<R>,
    plain: &Plain,
    names: &Names,
    id: &CycleId,
    confirmed: &Table,
) -> bool {
    for number in 0..3 {
        if !tell_it_same(desk, plain, names.portfolio(number), id, confirmed) {
            return false;
        }
    }
    true
}

/// Whether a desk tells the portfolio nothing of a cycle.
fn tells_nothing<R: Role>(desk: &Desk<R>, portfolio: Code, id: &CycleId) -> bool {
    match desk.told(portfolio, *id) {
        Ok(told) => told.is_none(),
        Err(_) => false,
    }
}

/// Whether a plain desk confirms this table of the cycle.
fn confirms(plain: &Plain, id: &CycleId, table: &Table) -> bool {
    match plain.confirmed(id) {
        Some(other) => *table == other,
        None => false,
    }
}

/// Whether both confirm the same of the cycle, and tell it.
fn confirm_same<R: Role>(desk: &Desk<R>, plain: &Plain, names: &Names, id: &CycleId) -> bool {
    match desk.confirmed(*id) {
        Some(table) => confirms(plain, id, table) && tell_same(desk, plain, names, id, table),
        None => plain.confirmed(id).is_none() && tells_nothing(desk, names.portfolio(0), id),
    }
}

/// Whether both have come to the same of a gas day's cycles.
fn end_day_same<R: Role>(desk: &Desk<R>, plain: &Plain, names: &Names, number: u8) -> bool {
    let day = names.gas_day(number);
    for cycle in [0, 20, 21, 33, 34, 35] {
        let id = CycleId { day, cycle };
        if desk.state(id) != plain.state(&id) || !confirm_same(desk, plain, names, &id) {
            return false;
        }
    }
    true
}

/// Whether both have come to the same.
fn end_same<R: Role>(desk: &Desk<R>, plain: &Plain, names: &Names) -> bool {
    desk.halted() == plain.halted
        && desk.saved() == number(plain.saved)
        && have_same_facts(desk, &plain.facts)
        && end_day_same(desk, plain, names, 0)
        && end_day_same(desk, plain, names, 1)
}

/// Copies of the facts.
fn copies(alloc: Global, facts: &[Fact]) -> Vec<Fact> {
    let mut copies = Vec::new(alloc);
    for fact in facts {
        if let Ok(copy) = fact.copy() {
            put(&mut copies, copy);
        }
    }
    copies
}

/// A desk of a plain desk's facts.
fn desk_of<R: Role>(plain: &Plain) -> Option<Desk<R>> {
    let calendar = Calendar::new().ok()?;
    let facts = copies(plain.alloc, &plain.facts);
    Desk::replay(plain.alloc, calendar, plain.point, facts).ok()
}

/// Makes so many calls at both: whether they replied and came to the same.
fn goes_on<R: Role>(
    desk: &mut Desk<R>,
    plain: &mut Plain,
    names: &Names,
    random: &mut Random,
    calls: u8,
) -> bool {
    for _ in 0..calls {
        if !step_drawn(desk, plain, names, random) {
            return false;
        }
    }
    end_same(desk, plain, names)
}

/// The same, after both are started again with so many of their facts.
fn goes_on_with<R: Role>(
    plain: &mut Plain,
    names: &Names,
    random: &mut Random,
    keep: usize,
    calls: u8,
) -> bool {
    plain.restart(keep);
    match desk_of::<R>(plain) {
        Some(mut desk) => goes_on(&mut desk, plain, names, random, calls),
        None => false,
    }
}

/// How many facts are kept: those that are saved, and of the others some.
fn kept(plain: &Plain, random: &mut Random) -> usize {
    let unsaved = plain.facts.len().saturating_sub(plain.saved);
    let most = u8::try_from(unsaved).unwrap_or(u8::MAX).saturating_add(1);
    let lost = random.below(most);
    plain.facts.len().saturating_sub(usize::from(lost))
}

/// A day of 60 calls, with a restart at one of them: whether both were the same all along.
fn are_same_over<R: Role>(plain: &mut Plain, names: &Names, seed: u64) -> bool {
    let mut random = Random::new(seed);
    let calls = random.below(61);
    if !goes_on_with::<R>(plain, names, &mut random, 0, calls) {
        return false;
    }
    let keep = kept(plain, &mut random);
    let calls = 60u8.saturating_sub(calls);
    goes_on_with::<R>(plain, names, &mut random, keep, calls)
}

/// The same, of a new desk and a new plain desk.
pub fn are_same_all_day<R: Role>(alloc: Global, seed: u64) -> bool {
    let Some(names) = Names::read() else {
        return false;
    };
    match Plain::new(alloc, R::SIDE, names.point()) {
        Some(mut plain) => are_same_over::<R>(&mut plain, &names, seed),
        None => false,
    }
}

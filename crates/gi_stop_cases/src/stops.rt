//! The calls of the subject.

use crate::ends::{Ends, Told};
use crate::lives::run;
use crate::plans::Plan;
use crate::scripts::Script;
use crate::writes::fail_each_write;
use gi_calls::{Answer, Fault, Subject, Words, add_table};
use gi_desk::Role;
use gi_initiator::Initiating;
use gi_matcher::Matching;
use gi_office::{Settled, reconcile};
use gi_pairs::{CycleId, Side};
use std::alloc::Global;
use std::marker::Brand;
use std::sync::Wait;
use std::sync::ledger::Blank;

/// How many calls of a disk are tried at most.
const MOST_CALLS: u64 = 10_000;

/// What both offices do.
#[derive(Drop)]
struct Exchange {
    id: CycleId,
    initiating: Script,
    matching: Script,
}

/// The calls of the subject `stops`. Offices may wait.
pub struct Stops<'a, W: Wait> {
    handle: &'a W,
    exchange: Option<Exchange>,
}

/// The exchange of the words: the point, the cycle, and of each side, the initiating one first, its
/// portfolio and what that nominates with the other.
fn exchange_of(alloc: Global, mut words: Words<'_>) -> Result<Option<Exchange>, Fault> {
    let (Some(point), Some(id)) = (words.code(), words.cycle()) else {
        return Ok(None);
    };
    let (Some(one), Some(firsts)) = (words.code(), words.quantity()) else {
        return Ok(None);
    };
    let (Some(two), Some(seconds)) = (words.code(), words.quantity()) else {
        return Ok(None);
    };
    let Some(initiating) = Script::of(alloc, point, &id, (one, two), firsts)? else {
        return Ok(None);
    };
    match Script::of(alloc, point, &id, (two, one), seconds) {
        Ok(Some(matching)) => Ok(Some(Exchange {
            id,
            initiating,
            matching,
        })),
        refused => {
            // (handed to `drop`, by one call: going out of scope here would be checked field by field)
            drop((initiating, refused));
            Err(Fault::OutOfMemory)
        }
    }
}

/// Adds how many facts are saved and what is confirmed.
fn add_desk<R: Role>(settled: &Option<Settled<R>>, id: &CycleId, text: &mut Answer) {
    let Some(settled) = settled else {
        text.add("nothing is left\n");
        return;
    };
    let desk = settled.desk();
    let (facts, saved) = (desk.len(), desk.saved());
    text.add("facts");
    text.word(facts);
    text.add(" saved");
    text.word(saved);
    match desk.confirmed(*id) {
        Some(table) => add_table(table, text),
        None => text.add(" not confirmed\n"),
    }
}

/// Adds what is left of both offices, and what comes of setting them against each other.
fn add_end(
    initiating: &Option<Settled<Initiating>>,
    matching: &Option<Settled<Matching>>,
    id: &CycleId,
    text: &mut Answer,
) {
    text.add("I ");
    add_desk(initiating, id, text);
    text.add("M ");
    add_desk(matching, id, text);
    let (Some(initiating), Some(matching)) = (initiating, matching) else {
        return;
    };
    match reconcile(initiating, matching) {
        Ok(()) => text.add("reconciled"),
        Err(fault) => text.show(fault),
    }
}

/// A run in which a disk of the initiating office stops.
fn stop_initiating<W: Wait>(
    handle: &W,
    alloc: Global,
    plan: Plan,
    exchange: &Exchange,
    calls: u64,
    told: &mut Told,
) {
    let (initiating, matching) = run::<Initiating, Matching, Brand, Brand, Brand, W>(
        handle,
        alloc,
        Blank::new(16),
        Blank::new(16),
        Blank::new(16),
        plan,
        &exchange.initiating,
        &exchange.matching,
        calls,
        told,
    );
    add_end(&initiating, &matching, &exchange.id, &mut told.end);
    drop((initiating, matching));
}

/// A run in which a disk of the matching office stops.
fn stop_matching<W: Wait>(
    handle: &W,
    alloc: Global,
    plan: Plan,
    exchange: &Exchange,
    calls: u64,
    told: &mut Told,
) {
    let (matching, initiating) = run::<Matching, Initiating, Brand, Brand, Brand, W>(
        handle,
        alloc,
        Blank::new(16),
        Blank::new(16),
        Blank::new(16),
        plan,
        &exchange.matching,
        &exchange.initiating,
        calls,
        told,
    );
    add_end(&initiating, &matching, &exchange.id, &mut told.end);
    drop((initiating, matching));
}

/// Runs the exchange with a stop at one more call each time, until a run ends with none.
fn stop_at_each_call<W: Wait>(handle: &W, alloc: Global, plan: Plan, exchange: &Exchange) -> Ends {
    let mut ends = Ends::new(alloc);
    for calls in 0..MOST_CALLS {
        let mut told = Told::new(alloc);
        match plan.side {
            Side::I => stop_initiating(handle, alloc, plan, exchange, calls, &mut told),
            Side::M => stop_matching(handle, alloc, plan, exchange, calls, &mut told),
        }
        ends.keep(told);
        if ends.is_over() {
            break;
        }
    }
    ends
}

impl<'a, W: Wait> Stops<'a, W> {
    pub fn new(handle: &'a W) -> Stops<'a, W> {
        Stops {
            handle,
            exchange: None,
        }
    }

    /// Keeps the exchange.
    fn set(&mut self, exchange: Option<Exchange>) -> bool {
        let is_one = exchange.is_some();
        drop(std::mem::replace(&mut self.exchange, exchange));
        is_one
    }

    /// Runs the exchange with stops.
    fn stop(&self, alloc: Global, words: Words<'_>, text: &mut Answer) -> bool {
        let (Some(exchange), Some(plan)) = (&self.exchange, Plan::of(words)) else {
            return false;
        };
        let ends = stop_at_each_call(self.handle, alloc, plan, exchange);
        ends.add(text);
        drop(ends);
        true
    }
}

impl<'a, W: Wait> Subject for Stops<'a, W> {
    fn answer(&mut self, rt: &HostRuntime, call: &str, text: &mut Answer) -> Result<bool, Fault> {
        let alloc = rt.alloc();
        let mut words = Words::of(call);
        match words.next() {
            "exchange" => Ok(self.set(exchange_of(alloc, words)?)),
            "stop_at_each_call" => Ok(self.stop(alloc, words, text)),
            "fail_each_write" => Ok(fail_each_write(alloc, words, text)),
            _ => Ok(false),
        }
    }
}

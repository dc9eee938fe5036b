//! One desk of either side: what it answers to calls, and what it tells.

mod calls;
mod facts;
mod queries;
mod steps;
pub mod texts;

use facts::{chosen, fact_of};
use gi_calls::{Answer, Fault, Subject, Words};
use gi_day::Calendar;
use gi_desk::{Desk, Fact, ReplayFault, Role};
use gi_initiator::Initiating;
use gi_matcher::Matching;
use gi_pairs::{Code, Side};
use queries::told;
use std::alloc::Global;
use std::mem::ManuallyDrop;
use steps::stepped;

/// The desk that the calls are made of.
enum Seat {
    Empty,
    Initiating(Desk<Initiating>),
    Matching(Desk<Matching>),
}

/// The calls of the subject `desks`.
pub struct Desks {
    seat: Seat,
    /// What replays choose from, by number.
    given: Vec<Fact>,
}

/// A side's desk of these facts.
fn seat_of(alloc: Global, side: Side, point: Code, facts: Vec<Fact>) -> Result<Seat, ReplayFault> {
    let Ok(calendar) = Calendar::new() else {
        // (handed to `drop`, by one call: going out of scope here would be checked field by field
        // on each way out)
        drop(facts);
        return Err(ReplayFault::OutOfMemory);
    };
    Ok(match side {
        Side::I => Seat::Initiating(Desk::replay(alloc, calendar, point, facts)?),
        Side::M => Seat::Matching(Desk::replay(alloc, calendar, point, facts)?),
    })
}

/// Makes a call of the desk, or asks it.
fn asked<R: Role>(
    alloc: Global,
    desk: &mut Desk<R>,
    line: &str,
    text: &mut Answer,
) -> Result<bool, Fault> {
    if stepped(alloc, desk, line, text)? {
        return Ok(true);
    }
    told(alloc, desk, line, text)
}

impl Desks {
    pub fn new(alloc: Global) -> Desks {
        Desks {
            seat: Seat::Empty,
            given: Vec::new(alloc),
        }
    }

    /// Gives the fact that the text is to the replays that follow.
    fn give(&mut self, alloc: Global, given: &str, text: &mut Answer) -> Result<bool, Fault> {
        let Some(fact) = fact_of(alloc, given) else {
            return Ok(false);
        };
        self.given.push(fact)?;
        text.add("ok");
        Ok(true)
    }

    /// Puts a side's desk of these facts here, where they make one. The desk before it is kept until
    /// the program ends, as `answered` keeps its subject.
    fn seat(
        &mut self,
        alloc: Global,
        side: Side,
        point: Code,
        facts: Vec<Fact>,
        text: &mut Answer,
    ) {
        match seat_of(alloc, side, point, facts) {
            Ok(seat) => {
                let former = std::mem::replace(&mut self.seat, seat);
                let _former = unsafe { ManuallyDrop::new_unchecked(former) };
                text.add("ok");
            }
            Err(fault) => text.show(fault),
        }
    }

    /// Replays the facts that the words number.
    fn replay(
        &mut self,
        alloc: Global,
        mut words: Words<'_>,
        text: &mut Answer,
    ) -> Result<bool, Fault> {
        let (Some(side), Some(point)) = (words.side(), words.code()) else {
            return Ok(false);
        };
        let Some(facts) = chosen(alloc, &self.given, words.rest())? else {
            return Ok(false);
        };
        self.seat(alloc, side, point, facts, text);
        Ok(true)
    }
}

impl Subject for Desks {
    fn answer(&mut self, rt: &HostRuntime, call: &str, text: &mut Answer) -> Result<bool, Fault> {
        let alloc = rt.alloc();
        let mut words = Words::of(call);
        match words.next() {
            "new" => {
                self.given.clear();
                self.replay(alloc, words, text)
            }
            "fact" if words.rest().starts_with('{') => self.give(alloc, words.rest(), text),
            "replay" => self.replay(alloc, words, text),
            _ => match &mut self.seat {
                Seat::Empty => Ok(false),
                Seat::Initiating(desk) => asked(alloc, desk, call, text),
                Seat::Matching(desk) => asked(alloc, desk, call, text),
            },
        }
    }
}

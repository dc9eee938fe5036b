//! Plans, and carriers of messages.

use crate::moves::{add_moves, moves};
use crate::runs::{Runs, Shown};
use gi_calls::{Answer, Fault, Subject, Words};
use gi_carrier::{Carrier, Plan, PlanFault, SendFault};
use std::alloc::{AllocError, Global};

/// The calls of the subject `carriers`. Messages are text; one that comes out stands in quotes.
#[derive(Drop)]
pub struct Carriers {
    alloc: Global,
    carrier: Carrier,
}

/// Adds the bytes of a message as text in quotes.
fn add_quoted(message: &[u8], text: &mut Answer) {
    match str::from_utf8(message) {
        Ok(message) => text.debug(&message),
        Err(_) => text.add("no text"),
    }
}

/// What is answered to a message that is sent: `ok`, or the refusal and what is handed back.
impl Shown for Result<(), (Vec<u8>, SendFault)> {
    fn add_to(&self, text: &mut Answer) {
        match self {
            Ok(()) => text.add("ok"),
            Err((message, fault)) => {
                text.show(fault);
                text.add(" ");
                add_quoted(message, text);
            }
        }
    }
}

/// What a carrier gives: a message, or `none`.
impl Shown for Option<Vec<u8>> {
    fn add_to(&self, text: &mut Answer) {
        match self {
            Some(message) => add_quoted(message, text),
            None => text.add("none"),
        }
    }
}

/// The plan that the words name; none where a word is no move.
fn plan(alloc: Global, words: Words<'_>) -> Result<Option<Result<Plan, PlanFault>>, AllocError> {
    let Some(moves) = moves(alloc, words)? else {
        return Ok(None);
    };
    Ok(Some(Plan::build(moves)))
}

/// `build MOVES`: the moves of the plan, as it lends them.
fn build(alloc: Global, words: Words<'_>, text: &mut Answer) -> Result<bool, Fault> {
    let Some(plan) = plan(alloc, words)? else {
        return Ok(false);
    };
    match plan {
        Ok(plan) => add_moves(&plan, text),
        Err(fault) => text.show(fault),
    }
    Ok(true)
}

/// `eq MOVES / MOVES`: whether the two plans are equal.
fn eq(alloc: Global, words: Words<'_>, text: &mut Answer) -> Result<bool, Fault> {
    let Some((one, other)) = words.rest().split_once(" / ") else {
        return Ok(false);
    };
    let Some(Ok(one)) = plan(alloc, Words::of(one))? else {
        return Ok(false);
    };
    let Some(Ok(other)) = plan(alloc, Words::of(other))? else {
        return Ok(false);
    };
    text.show(one == other);
    Ok(true)
}

/// The printed names of what is refused, a line each.
fn faults(text: &mut Answer) -> bool {
    let (length, full) = (PlanFault::PlanLength, SendFault::Full);
    let memory = SendFault::OutOfMemory;
    text.show(length);
    text.end_line();
    text.show(full);
    text.end_line();
    text.show(memory);
    text.end_line();
    true
}

impl Carriers {
    /// At first nothing waits.
    pub fn new(alloc: Global) -> Carriers {
        Carriers {
            alloc,
            carrier: Carrier::new(alloc),
        }
    }

    /// Sends a message: where it is refused, it is handed back.
    fn sent(&mut self, message: &str) -> Result<Result<(), (Vec<u8>, SendFault)>, AllocError> {
        let message = Vec::from_slice(self.alloc, message.as_bytes())?;
        Ok(self.carrier.send(message))
    }

    /// `send TEXT`.
    fn send(&mut self, words: Words<'_>, text: &mut Answer) -> Result<bool, Fault> {
        self.sent(words.rest())?.add_to(text);
        Ok(true)
    }

    /// `send_times COUNT TEXT`: what is answered to each.
    fn send_times(&mut self, mut words: Words<'_>, text: &mut Answer) -> Result<bool, Fault> {
        let Some(count) = words.number() else {
            return Ok(false);
        };
        let mut runs = Runs::new();
        for _ in 0..count {
            runs.add(self.sent(words.rest())?, text);
        }
        runs.close(text);
        Ok(true)
    }

    /// `new TEXTS`: a carrier at which these wait, one after the other.
    fn start(&mut self, words: Words<'_>, text: &mut Answer) -> Result<bool, Fault> {
        self.carrier = Carrier::new(self.alloc);
        if !words.is_empty() {
            for message in words.rest().split(' ') {
                let sent = self.sent(message)?;
                if sent.is_err() {
                    sent.add_to(text);
                    return Ok(true);
                }
            }
        }
        text.add("ok");
        Ok(true)
    }

    /// `next MOVES`, so many times: what is given each time.
    fn next(&mut self, count: u32, words: Words<'_>, text: &mut Answer) -> Result<bool, Fault> {
        let Some(Ok(plan)) = plan(self.alloc, words)? else {
            return Ok(false);
        };
        let mut runs = Runs::new();
        for _ in 0..count {
            runs.add(self.carrier.next(&plan)?, text);
        }
        runs.close(text);
        Ok(true)
    }

    /// `next_times COUNT MOVES`.
    fn next_times(&mut self, mut words: Words<'_>, text: &mut Answer) -> Result<bool, Fault> {
        match words.number() {
            Some(count) => self.next(count, words, text),
            None => Ok(false),
        }
    }
}

impl Subject for Carriers {
    fn answer(&mut self, _rt: &HostRuntime, call: &str, text: &mut Answer) -> Result<bool, Fault> {
        let mut words = Words::of(call);
        match words.next() {
            "build" => build(self.alloc, words, text),
            "eq" => eq(self.alloc, words, text),
            "new" => self.start(words, text),
            "send" => self.send(words, text),
            "send_times" => self.send_times(words, text),
            "next" => self.next(1, words, text),
            "next_times" => self.next_times(words, text),
            "faults" => Ok(faults(text)),
            _ => Ok(false),
        }
    }
}

use crate::reports::add_report;
use crate::worlds::{body, mark};
use gi_calls::{Answer, Fault, Words};
use gi_day::Calendar;
use gi_desk::{Call, Desk, Fact, ReplayFault, Role};
use gi_initiator::Initiating;
use gi_matcher::Matching;
use gi_pairs::{Code, Side};
use gi_reports::{closed_cycles, confirmed_report, counts_line, open_report};
use gi_script::{Instruction, read_script};
use std::alloc::{AllocError, Global};

/// The desk of one of the operators.
#[derive(Drop)]
pub enum Office {
    I(Desk<Initiating>),
    M(Desk<Matching>),
}

/// Adds each closed cycle in a line, or that there is none.
fn add_cycles<R: Role>(alloc: Global, desk: &Desk<R>, text: &mut Answer) -> Result<bool, Fault> {
    let ids = closed_cycles(alloc, desk)?;
    if ids.is_empty() {
        text.add("no lines");
    }
    for id in &ids {
        text.show(id.day);
        text.word(id.cycle);
        text.end_line();
    }
    Ok(true)
}

/// Adds the report of that name.
fn report<R: Role>(
    alloc: Global,
    desk: &Desk<R>,
    name: &str,
    text: &mut Answer,
) -> Result<bool, Fault> {
    let report = match name {
        "open_report" => open_report(alloc, desk),
        "confirmed_report" => confirmed_report(alloc, desk),
        "counts_line" => counts_line(alloc, desk),
        "closed_cycles" => return add_cycles(alloc, desk, text),
        _ => return Ok(false),
    };
    add_report(report?.as_str(), text);
    Ok(true)
}

/// The call that a line of a script says, without its side.
fn call_said(alloc: Global, words: Words<'_>) -> Result<Option<Call>, AllocError> {
    let script = format!(in alloc; "point P\nI {}\n", words.rest())?;
    let Ok(script) = read_script(alloc, script.as_bytes()) else {
        return Ok(None);
    };
    let [line, ..] = script.lines() else {
        return Ok(None);
    };
    match &line.instruction {
        Instruction::Call { call, .. } => Ok(Some(call.copy()?)),
        _ => Ok(None),
    }
}

impl Office {
    /// The desk of these facts, all of them saved.
    pub fn replay(
        alloc: Global,
        calendar: Calendar,
        side: Side,
        point: Code,
        facts: Vec<Fact>,
    ) -> Result<Office, ReplayFault> {
        Ok(match side {
            Side::I => Office::I(Desk::replay(alloc, calendar, point, facts)?),
            Side::M => Office::M(Desk::replay(alloc, calendar, point, facts)?),
        })
    }

    /// Adds what the desk answers to the call.
    fn answer(&mut self, call: &Call, text: &mut Answer) {
        let reply = match self {
            Office::I(desk) => desk.step(call),
            Office::M(desk) => desk.step(call),
        };
        text.debug(&reply.answer);
        text.end_line();
    }

    /// `step CALL`: the call as a script has it, without the side.
    pub fn step(
        &mut self,
        alloc: Global,
        words: Words<'_>,
        text: &mut Answer,
    ) -> Result<bool, Fault> {
        let Some(call) = call_said(alloc, words)? else {
            return Ok(false);
        };
        self.answer(&call, text);
        Ok(true)
    }

    /// `deliver BODY`.
    pub fn deliver(
        &mut self,
        alloc: Global,
        given: &str,
        text: &mut Answer,
    ) -> Result<bool, Fault> {
        self.answer(&Call::Deliver(body(alloc, given)?), text);
        Ok(true)
    }

    /// Marks the next fact as saved.
    fn save_next(&mut self, text: &mut Answer) -> Result<(), Fault> {
        let mark = match self {
            Office::I(desk) => mark(desk),
            Office::M(desk) => mark(desk),
        };
        match mark? {
            Some(call) => self.answer(&call, text),
            None => text.add("nothing\n"),
        }
        Ok(())
    }

    /// `save COUNT`: marks so many facts as saved.
    pub fn save(&mut self, mut words: Words<'_>, text: &mut Answer) -> Result<bool, Fault> {
        let Some(count) = words.number() else {
            return Ok(false);
        };
        if count == 0 {
            text.add("no lines");
        }
        for _ in 0..count {
            self.save_next(text)?;
        }
        Ok(true)
    }

    /// Adds the report of that name.
    pub fn report(&self, alloc: Global, name: &str, text: &mut Answer) -> Result<bool, Fault> {
        match self {
            Office::I(desk) => report(alloc, desk, name, text),
            Office::M(desk) => report(alloc, desk, name, text),
        }
    }
}

//! The reports of a desk, and counts of refused submissions.

mod office;
mod submitting;

use gi_calls::{Answer, Fault, Subject, Words};
use gi_day::Calendar;
use gi_desk::{Fact, decode_fact};
use gi_reports::{refused_counts, refused_report};
use office::Office;
use std::alloc::{AllocError, Global};
use submitting::submitters;

/// The calls of the subject `reports`: on the desk that `replay` made, and on what was refused.
#[derive(Drop)]
pub struct Reports {
    alloc: Global,
    /// The facts that the next desk is replayed from.
    facts: Vec<Fact>,
    office: Option<Office>,
}

/// Adds a report: its lines, or that it has none.
fn add_report(report: &str, text: &mut Answer) {
    if report.is_empty() {
        return text.add("no lines");
    }
    text.add(report);
    if !report.ends_with('\n') {
        text.add("\nno line feed at the end");
    }
}

/// `refused_counts SUBMITTERS`: a line for each, with its count.
fn counts(alloc: Global, words: Words<'_>, text: &mut Answer) -> Result<bool, Fault> {
    let Some(submissions) = submitters(alloc, words)? else {
        return Ok(false);
    };
    let counts = refused_counts(alloc, &submissions)?;
    if counts.is_empty() {
        text.add("no counts");
    }
    for (who, count) in &counts {
        match who {
            Some(code) => text.show(code),
            None => text.add("none"),
        }
        text.word(count);
        text.end_line();
    }
    Ok(true)
}

/// `refused_report SUBMITTERS`.
fn refused(alloc: Global, words: Words<'_>, text: &mut Answer) -> Result<bool, Fault> {
    let Some(submissions) = submitters(alloc, words)? else {
        return Ok(false);
    };
    add_report(refused_report(alloc, &submissions)?.as_str(), text);
    Ok(true)
}

impl Reports {
    /// At first there is no fact and no desk.
    pub fn new(alloc: Global) -> Reports {
        Reports {
            alloc,
            facts: Vec::new(alloc),
            office: None,
        }
    }

    /// Keeps a fact for the next desk.
    fn keep(&mut self, fact: Fact) -> Result<(), AllocError> {
        self.facts.push(fact)?;
        Ok(())
    }

    /// A copy of the facts.
    fn copy_facts(&self) -> Result<Vec<Fact>, AllocError> {
        let mut facts = Vec::new(self.alloc);
        for fact in &self.facts {
            facts.push(fact.copy()?)?;
        }
        Ok(facts)
    }

    /// `fact JSON`: one more fact.
    fn add_fact(&mut self, words: Words<'_>, text: &mut Answer) -> Result<bool, Fault> {
        match decode_fact(self.alloc, words.rest().as_bytes()) {
            Ok(fact) => {
                self.keep(fact)?;
                text.add("ok");
            }
            Err(fault) => text.show(fault),
        }
        Ok(true)
    }

    /// `no_facts`: none is left.
    fn clear_facts(&mut self, text: &mut Answer) -> bool {
        self.facts.clear();
        text.add("ok");
        true
    }

    /// Keeps a desk in the place of the one before, which is let go here alone.
    fn keep_office(&mut self, office: Office) {
        let _former = self.office.replace(office);
    }

    /// `replay SIDE POINT`: the desk of the facts.
    fn replay(&mut self, mut words: Words<'_>, text: &mut Answer) -> Result<bool, Fault> {
        let (Some(side), Some(point)) = (words.side(), words.code()) else {
            return Ok(false);
        };
        let facts = self.copy_facts()?;
        let Ok(calendar) = Calendar::new() else {
            return Err(Fault::OutOfMemory);
        };
        match Office::replay(self.alloc, calendar, side, point, facts) {
            Ok(office) => {
                self.keep_office(office);
                text.add("ok");
            }
            Err(fault) => text.show(fault),
        }
        Ok(true)
    }

    /// A call on the desk.
    fn on_desk(&mut self, call: &str, words: Words<'_>, text: &mut Answer) -> Result<bool, Fault> {
        let Some(office) = &mut self.office else {
            return Ok(false);
        };
        match call {
            "step" => office.step(self.alloc, words, text),
            "deliver" => office.deliver(self.alloc, words.rest(), text),
            "save" => office.save(words, text),
            _ => office.report(self.alloc, call, text),
        }
    }
}

impl Subject for Reports {
    fn answer(&mut self, _rt: &HostRuntime, call: &str, text: &mut Answer) -> Result<bool, Fault> {
        let mut words = Words::of(call);
        match words.next() {
            "fact" => self.add_fact(words, text),
            "no_facts" => Ok(self.clear_facts(text)),
            "replay" => self.replay(words, text),
            "refused_counts" => counts(self.alloc, words, text),
            "refused_report" => refused(self.alloc, words, text),
            call => self.on_desk(call, words, text),
        }
    }
}

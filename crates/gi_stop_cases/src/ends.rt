//! What came of runs, of which all are to end alike.

use gi_calls::Answer;
use std::alloc::Global;

/// Where a run was stopped.
#[derive(Clone, Copy, PartialEq, Eq)]
pub enum Met {
    Nothing,
    /// While its book was opened and loaded.
    Opening,
    /// When it saved.
    Saving,
}

/// What came of one run.
#[derive(Drop)]
pub struct Told {
    pub met: Met,
    /// What was answered about a stop when it saved.
    pub stop: Answer,
    /// How it ended.
    pub end: Answer,
}

/// An answer, and of how many runs it is.
#[derive(Drop)]
struct Kind {
    runs: u32,
    answer: Answer,
}

/// What came of all runs: how many there were, and each answer once.
#[derive(Drop)]
pub struct Ends {
    opening: u32,
    saving: u32,
    is_over: bool,
    stops: Vec<Kind>,
    ends: Vec<Kind>,
}

impl Told {
    pub fn new(alloc: Global) -> Told {
        Told {
            met: Met::Nothing,
            stop: Answer::new(alloc),
            end: Answer::new(alloc),
        }
    }
}

/// Counts the answer. One that there is no memory for is lost, and so is its count.
fn count(kinds: &mut Vec<Kind>, answer: Answer) {
    for kind in kinds.iter_mut() {
        if kind.answer == answer {
            kind.runs = kind.runs.wrapping_add(1);
            drop(answer);
            return;
        }
    }
    drop(kinds.push(Kind { runs: 1, answer }));
}

/// Adds each answer behind the number of its runs.
fn add_kinds(kinds: &[Kind], text: &mut Answer) {
    for kind in kinds {
        let runs = kind.runs;
        text.show(runs);
        text.add(" ");
        text.append(&kind.answer);
        text.end_line();
    }
}

impl Ends {
    pub fn new(alloc: Global) -> Ends {
        Ends {
            opening: 0,
            saving: 0,
            is_over: false,
            stops: Vec::new(alloc),
            ends: Vec::new(alloc),
        }
    }

    /// Keeps what came of a run.
    pub fn keep(&mut self, told: Told) {
        let Told { met, stop, end } = told;
        match met {
            Met::Nothing => self.is_over = true,
            Met::Opening => self.opening = self.opening.wrapping_add(1),
            Met::Saving => self.saving = self.saving.wrapping_add(1),
        }
        if met == Met::Saving {
            count(&mut self.stops, stop);
        } else {
            drop(stop);
        }
        count(&mut self.ends, end);
    }

    /// Whether the last run met nothing.
    pub fn is_over(&self) -> bool {
        self.is_over
    }

    /// Adds how many runs were stopped, how many of these were answered what, and how many of all ended
    /// how.
    pub fn add(&self, text: &mut Answer) {
        let (opening, saving) = (self.opening, self.saving);
        text.show(opening);
        text.add(" at the opening, ");
        text.show(saving);
        text.add(" at a save");
        text.end_line();
        add_kinds(&self.stops, text);
        add_kinds(&self.ends, text);
    }
}

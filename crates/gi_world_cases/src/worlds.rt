//! Both operators' desks, and what happens between them step by step, or in one run.

mod answers;
mod asking;
mod lone;
mod queries;

use answers::add_outcome;
use asking::step_of;
pub use asking::{body, mark};
use gi_calls::{Answer, Fault, Subject, Words};
use gi_pairs::{Code, Side};
use gi_world::{Run, Step, World, run_world};
use lone::Lone;
pub use queries::query;
use std::alloc::Global;
use std::mem::ManuallyDrop;

/// The calls of the subject `worlds`.
pub struct Worlds {
    world: Option<World>,
    point: Option<Code>,
    /// The steps since `new` or `script`.
    steps: Vec<Step>,
    lone: Lone,
}

/// Adds what comes of words that ask no step: nothing of a saving where all is saved.
fn add_nothing(words: Words<'_>, text: &mut Answer) -> bool {
    if words.rest() != "save" {
        return false;
    }
    text.add("nothing\n");
    true
}

/// Adds what came of each step of a run, and how many are made.
fn add_run(run: &Run, text: &mut Answer) {
    for outcome in run.outcomes.as_slice() {
        add_outcome(outcome, text);
    }
    let done = run.done;
    text.add("done");
    text.word(done);
    text.end_line();
}

impl Worlds {
    /// There is no world yet.
    pub fn new(alloc: Global) -> Worlds {
        Worlds {
            world: None,
            point: None,
            steps: Vec::new(alloc),
            lone: Lone::new(),
        }
    }

    /// Keeps a world in the place of the one before, which stays until the program ends, as `answered`
    /// keeps its subject.
    fn take(&mut self, world: World) {
        let _former = unsafe { ManuallyDrop::new_unchecked(self.world.replace(world)) };
    }

    /// Forgets the steps so far.
    fn begin_steps(&mut self, alloc: Global, text: &mut Answer) -> bool {
        self.steps = Vec::new(alloc);
        text.add("ok\n");
        true
    }

    /// A world at the interconnection point, of which no step is made.
    fn begin(&mut self, alloc: Global, mut words: Words<'_>, text: &mut Answer) -> bool {
        let Some(point) = words.code() else {
            return false;
        };
        match World::new(alloc, point) {
            Ok(world) => {
                self.take(world);
                self.point = Some(point);
                self.begin_steps(alloc, text)
            }
            Err(fault) => {
                text.show(fault);
                text.end_line();
                true
            }
        }
    }

    /// Makes a step at a side.
    fn make(
        &mut self,
        alloc: Global,
        side: Side,
        words: Words<'_>,
        text: &mut Answer,
    ) -> Result<bool, Fault> {
        let Some(world) = &mut self.world else {
            return Ok(false);
        };
        let Some(step) = step_of(alloc, world, side, words)? else {
            return Ok(add_nothing(words, text));
        };
        let outcome = world.step(&step);
        add_outcome(&outcome, text);
        // (handed to `drop`, by one call: going out of scope here would be checked field by field
        // on each way out)
        drop(outcome);
        self.steps.push(step)?;
        Ok(true)
    }

    /// Makes the steps again in one run, from two desks without facts; its world is the one that is
    /// asked from then on.
    fn run(&mut self, alloc: Global, text: &mut Answer) -> bool {
        let Some(point) = self.point else {
            return false;
        };
        match run_world(alloc, point, &self.steps) {
            Ok(run) => {
                add_run(&run, text);
                self.take(run.world);
            }
            Err(fault) => {
                text.show(fault);
                text.end_line();
            }
        }
        true
    }

    /// Adds what the world answers to a question.
    fn query(&self, alloc: Global, words: Words<'_>, text: &mut Answer) -> Result<bool, Fault> {
        match &self.world {
            Some(world) => query(alloc, world, words, text),
            None => Ok(false),
        }
    }
}

impl Subject for Worlds {
    fn answer(&mut self, rt: &HostRuntime, call: &str, text: &mut Answer) -> Result<bool, Fault> {
        let alloc = rt.alloc();
        let mut words = Words::of(call);
        match words.next() {
            "new" => Ok(self.begin(alloc, words, text)),
            "script" => Ok(self.begin_steps(alloc, text)),
            "I" => self.make(alloc, Side::I, words, text),
            "M" => self.make(alloc, Side::M, words, text),
            "run" => Ok(self.run(alloc, text)),
            "lone" => self.lone.answer(alloc, words, text),
            _ => self.query(alloc, Words::of(call), text),
        }
    }
}

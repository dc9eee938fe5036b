//! Scripts: both offices and the carriers between them.

use crate::nomination::nomination;
use crate::worlds::{body, query};
use gi_calls::{Answer, Fault, Subject, Words};
use gi_desk::Call;
use gi_script::{Instruction, Script, read_script};
use gi_simulation::{Simulated, Simulation, refused_submissions, simulate};
use std::alloc::{AllocError, Global};
use std::mem::ManuallyDrop;

/// The calls of the subject `simulations`.
pub struct Simulations {
    /// The script so far.
    script: String,
    /// The simulation that is asked.
    simulation: Option<Simulation>,
}

/// A line of a script; `SIDE nominate ..` is written out as a submission.
fn script_line(alloc: Global, line: &str) -> Result<String, AllocError> {
    let mut words = Words::of(line);
    let (side, what) = (words.next(), words.next());
    if what != "nominate" {
        return format!(in alloc; "{line}");
    }
    let text = nomination(alloc, words)?;
    format!(in alloc; "{side} submit {text}")
}

/// The delivery, as a local call, that `SIDE slip TEXT` asks.
fn slipped(alloc: Global, line: &str) -> Result<Option<Instruction>, AllocError> {
    let mut words = Words::of(line);
    let Some(side) = words.side() else {
        return Ok(None);
    };
    if words.next() != "slip" {
        return Ok(None);
    }
    let call = Call::Deliver(body(alloc, words.rest())?);
    Ok(Some(Instruction::Call { side, call }))
}

/// Makes an instruction, and adds what comes of it.
fn make(
    simulation: &mut Simulation,
    instruction: &Instruction,
    text: &mut Answer,
) -> Result<(), AllocError> {
    match simulation.make(instruction)? {
        Some(outcome) => text.show(outcome),
        None => text.add("none"),
    }
    text.end_line();
    Ok(())
}

/// Makes what each line of a script asks.
fn make_lines(
    simulation: &mut Simulation,
    script: &Script,
    text: &mut Answer,
) -> Result<(), AllocError> {
    for line in script.lines() {
        make(simulation, &line.instruction, text)?;
    }
    Ok(())
}

/// The text of a script of one line.
fn one_line(alloc: Global, line: &str) -> Result<String, AllocError> {
    let line = script_line(alloc, line)?;
    format!(in alloc; "point BORDER-1\n{line}")
}

/// The script of a text; where it is none, the fault is added.
fn read(alloc: Global, script: &str, text: &mut Answer) -> Option<Script> {
    match read_script(alloc, script.as_bytes()) {
        Ok(script) => Some(script),
        Err(fault) => {
            text.show(fault);
            text.end_line();
            None
        }
    }
}

/// Makes what a line of a script asks.
fn make_scripted(
    alloc: Global,
    simulation: &mut Simulation,
    line: &str,
    text: &mut Answer,
) -> Result<(), AllocError> {
    let script = one_line(alloc, line)?;
    match read(alloc, script.as_str(), text) {
        Some(script) => make_lines(simulation, &script, text),
        None => Ok(()),
    }
}

/// Makes what a line asks.
fn make_line(
    alloc: Global,
    simulation: &mut Simulation,
    line: &str,
    text: &mut Answer,
) -> Result<(), AllocError> {
    match slipped(alloc, line)? {
        Some(instruction) => make(simulation, &instruction, text),
        None => make_scripted(alloc, simulation, line, text),
    }
}

/// The number and whether the trace is wanted, of `[NUMBER] [--trace]`.
fn asked(mut words: Words<'_>) -> (u32, bool) {
    let first = words.next();
    let last = if first == "--trace" {
        first
    } else {
        words.next()
    };
    (first.parse::<u32>().unwrap_or(0), last == "--trace")
}

/// Adds the lines from the first on that begins with a number of at least `first`; the lines of a
/// trace begin with none.
fn add_from(lines: &str, first: u32, text: &mut Answer) {
    let mut wanted = false;
    for line in lines.lines() {
        let number = Words::of(line).number();
        wanted = wanted || number.is_some_and(|number| number >= first);
        if wanted {
            text.add(line);
            text.end_line();
        }
    }
}

/// Adds the first so many lines of a script.
fn add_first(script: &str, count: usize, text: &mut String) -> Result<(), AllocError> {
    for line in script.lines().take(count) {
        write!(text, "{line}\n")?;
    }
    Ok(())
}

/// Adds what the lines of a script from number `first` on printed, and whether all of it is made.
fn add_simulated(simulated: &Simulated, first: u32, text: &mut Answer) {
    add_from(simulated.text.as_str(), first, text);
    text.add(if simulated.complete {
        "complete\n"
    } else {
        "cut off\n"
    });
}

impl Simulations {
    /// There is no script and no simulation yet.
    pub fn new(alloc: Global) -> Simulations {
        Simulations {
            script: String::new(alloc),
            simulation: None,
        }
    }

    /// Keeps a simulation in the place of the one before, which stays until the program ends, as
    /// `answered` keeps its subject.
    fn take(&mut self, simulation: Simulation) {
        let former = self.simulation.replace(simulation);
        let _former = unsafe { ManuallyDrop::new_unchecked(former) };
    }

    /// Forgets the script so far.
    fn begin_script(&mut self, alloc: Global) -> bool {
        self.script = String::new(alloc);
        true
    }

    /// Adds a line as it is written in a script, so many times.
    fn add_written(&mut self, line: &str, times: u32) -> Result<bool, Fault> {
        for _ in 0..times {
            write!(self.script, "{line}\n")?;
        }
        Ok(true)
    }

    /// Adds a line to the script, so many times.
    fn add_line(&mut self, alloc: Global, line: &str, times: u32) -> Result<bool, Fault> {
        let line = script_line(alloc, line)?;
        self.add_written(line.as_str(), times)
    }

    /// Adds a line to the script as often as its first word says.
    fn add_times(&mut self, alloc: Global, mut words: Words<'_>) -> Result<bool, Fault> {
        match words.number() {
            Some(times) => self.add_line(alloc, words.rest(), times),
            None => Ok(false),
        }
    }

    /// Goes back to the script's first so many lines.
    fn go_back(&mut self, alloc: Global, mut words: Words<'_>) -> Result<bool, Fault> {
        let Some(count) = words.number() else {
            return Ok(false);
        };
        let mut first = String::new(alloc);
        let added = add_first(self.script.as_str(), count as usize, &mut first);
        self.script = first;
        added?;
        Ok(true)
    }

    /// Simulates the script; its offices are those that are asked from then on. With a number only
    /// what the lines from that one on printed is added, and with `--trace` their traces too.
    fn simulate(&mut self, alloc: Global, words: Words<'_>, text: &mut Answer) -> bool {
        let (first, trace) = asked(words);
        let Some(script) = read(alloc, self.script.as_str(), text) else {
            return true;
        };
        match simulate(alloc, script, trace) {
            Ok(simulated) => {
                add_simulated(&simulated, first, text);
                self.take(simulated.simulation);
            }
            Err(fault) => {
                text.show(fault);
                text.end_line();
            }
        }
        true
    }

    /// Simulates the script, and adds the portfolios of a side's refused submissions.
    fn refused(&mut self, alloc: Global, mut words: Words<'_>, text: &mut Answer) -> bool {
        let Some(side) = words.side() else {
            return false;
        };
        let Some(script) = read(alloc, self.script.as_str(), text) else {
            return true;
        };
        match refused_submissions(alloc, side, script) {
            Ok((simulation, portfolios)) => {
                self.take(simulation);
                text.debug(&portfolios);
                text.end_line();
            }
            Err(fault) => {
                text.show(fault);
                text.end_line();
            }
        }
        true
    }

    /// A simulation without facts, with nothing on its way.
    fn begin(&mut self, alloc: Global, mut words: Words<'_>, text: &mut Answer) -> bool {
        let Some(point) = words.code() else {
            return false;
        };
        match Simulation::new(alloc, point) {
            Ok(simulation) => {
                self.take(simulation);
                text.add("ok\n");
            }
            Err(fault) => {
                text.show(fault);
                text.end_line();
            }
        }
        true
    }

    /// Makes what a line asks, in the simulation.
    fn make(&mut self, alloc: Global, line: &str, text: &mut Answer) -> Result<bool, Fault> {
        let Some(simulation) = &mut self.simulation else {
            return Ok(false);
        };
        make_line(alloc, simulation, line, text)?;
        Ok(true)
    }

    /// Adds what the simulation's world answers to a question.
    fn query(&self, alloc: Global, words: Words<'_>, text: &mut Answer) -> Result<bool, Fault> {
        match &self.simulation {
            Some(simulation) => query(alloc, simulation.world(), words, text),
            None => Ok(false),
        }
    }
}

impl Subject for Simulations {
    fn answer(&mut self, rt: &HostRuntime, call: &str, text: &mut Answer) -> Result<bool, Fault> {
        let alloc = rt.alloc();
        let mut words = Words::of(call);
        match words.next() {
            "script" => Ok(self.begin_script(alloc)),
            "point" | "I" | "M" | "plan" => self.add_line(alloc, call, 1),
            "empty" => self.add_line(alloc, "", 1),
            "times" => self.add_times(alloc, words),
            "first" => self.go_back(alloc, words),
            "simulate" => Ok(self.simulate(alloc, words, text)),
            "refused_submissions" => Ok(self.refused(alloc, words, text)),
            "new" => Ok(self.begin(alloc, words, text)),
            "make" => self.make(alloc, words.rest(), text),
            _ => self.query(alloc, Words::of(call), text),
        }
    }
}

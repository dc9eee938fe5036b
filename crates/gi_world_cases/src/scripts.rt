//! Scripts, and the lines in them.

mod escapes;
mod saying;

use escapes::unescaped;
use gi_calls::{Answer, Fault, Subject, Words};
use gi_script::{Script, ScriptFault, read_script};
use saying::add_instruction;
use std::alloc::Global;
use std::fmt::Write;

/// The calls of the subject `scripts`. In their text `\n`, `\r`, `\t` and `\xHH` are a byte each.
#[derive(Drop)]
pub struct Scripts {
    alloc: Global,
    /// The lines of the next script, each with its line feed.
    lines: Vec<u8>,
}

/// Adds what the lines of a script say, in a script of one line without its number.
fn add_said(script: &Script, text: &mut Answer) {
    if script.lines().is_empty() {
        text.add("no line");
    }
    for line in script.lines() {
        add_instruction(&line.instruction, text);
        text.end_line();
    }
}

/// Adds a script's point, and the number of each line with what it says.
fn add_script(script: &Script, text: &mut Answer) {
    text.show(script.point());
    text.end_line();
    for line in script.lines() {
        text.show(line.number);
        add_instruction(&line.instruction, text);
        text.end_line();
    }
}

/// Reads a script of the point `P` and one line: what the line says, or the fault.
fn add_line(alloc: Global, line: &[u8], text: &mut Answer) -> Result<bool, Fault> {
    let mut script = Vec::from_slice(alloc, b"point P\n")?;
    script.extend_from_slice(line)?;
    script.extend_from_slice(b"\n")?;
    match read_script(alloc, &script) {
        Ok(script) => add_said(&script, text),
        Err(fault) => text.show(fault),
    }
    Ok(true)
}

/// `line TEXT`.
fn line(alloc: Global, words: Words<'_>, text: &mut Answer) -> Result<bool, Fault> {
    let Some(line) = unescaped(alloc, words.rest())? else {
        return Ok(false);
    };
    add_line(alloc, &line, text)
}

/// `plan_line SIDE COUNT MOVE`: the line of a plan of so many moves.
fn plan_line(alloc: Global, mut words: Words<'_>, text: &mut Answer) -> Result<bool, Fault> {
    let side = words.next();
    let Some(count) = words.number() else {
        return Ok(false);
    };
    let mut line = format!(in alloc; "plan {side}")?;
    for _ in 0..count {
        write!(line, " {}", words.rest())?;
    }
    add_line(alloc, line.as_bytes(), text)
}

/// The printed names of the faults, a line each.
fn faults(text: &mut Answer) -> bool {
    let (point, unreadable) = (ScriptFault::Point, ScriptFault::Unreadable(7));
    let memory = ScriptFault::OutOfMemory;
    text.show(point);
    text.end_line();
    text.show(unreadable);
    text.end_line();
    text.show(memory);
    text.end_line();
    true
}

impl Scripts {
    /// At first the next script has no line.
    pub fn new(alloc: Global) -> Scripts {
        Scripts {
            alloc,
            lines: Vec::new(alloc),
        }
    }

    /// `| TEXT`: a line of the next script. It answers nothing.
    fn add_line(&mut self, words: Words<'_>) -> Result<bool, Fault> {
        let Some(line) = unescaped(self.alloc, words.rest())? else {
            return Ok(false);
        };
        self.lines.extend_from_slice(&line)?;
        self.lines.extend_from_slice(b"\n")?;
        Ok(true)
    }

    /// `read_script TEXT`: reads the lines that came before, and the text behind them.
    fn read_script(&mut self, words: Words<'_>, text: &mut Answer) -> Result<bool, Fault> {
        let Some(last) = unescaped(self.alloc, words.rest())? else {
            return Ok(false);
        };
        self.lines.extend_from_slice(&last)?;
        match read_script(self.alloc, &self.lines) {
            Ok(script) => add_script(&script, text),
            Err(fault) => text.show(fault),
        }
        self.lines.clear();
        Ok(true)
    }
}

impl Subject for Scripts {
    fn answer(&mut self, _rt: &HostRuntime, call: &str, text: &mut Answer) -> Result<bool, Fault> {
        let mut words = Words::of(call);
        match words.next() {
            "|" => self.add_line(words),
            "read_script" => self.read_script(words, text),
            "line" => line(self.alloc, words, text),
            "plan_line" => plan_line(self.alloc, words, text),
            "faults" => Ok(faults(text)),
            _ => Ok(false),
        }
    }
}

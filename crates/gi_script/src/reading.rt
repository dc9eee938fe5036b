ghost use Rattle.std.specs.Prelude.{◌≡◌, ◌∷◌, codes, Err, Ok, IfOk, IfErr, MatchResult};
ghost use Rattle.gi_script.specs.Grammar.{SaysCommand, SaysPlan, Spells, SpellsPoint};
ghost use Rattle.gi_script.specs.LinesRepr.{IsCounted, left};
ghost use Rattle.gi_script.specs.Reading.{Finds, Reads};
ghost use Rattle.gi_script.specs.Script.{HasNoPoint, IsFault, IsFaultBy, IsLineRead, IsOfficeFault, IsOfficeScript, IsScript, IsScriptBy, IsStopped, ScriptContents, SpellAll, spelling};
ghost use Rattle.gi_script.specs.declared.fault.ScriptFault.TheVariants.{OutOfMemory, Point};

use crate::command::command;
use crate::fault::{LineFault, ScriptFault};
use crate::forms::Forms;
use crate::instruction::Instruction;
use crate::line::Line;
use crate::lines::Lines;
use crate::plan::plan;
use crate::script::Script;
use crate::words::Words;
use gi_pairs::{Code, Side};
use std::alloc::Global;

fn point(line: &[u8]) -> Option<Code>
    ensures { Finds (SpellsPoint line.now) result }
{
    let Ok(text) = str::from_utf8(line) else {
        return None;
    };
    let mut words = Words::of(text);
    let Some("point") = words.next() else {
        return None;
    };
    let point = words.code()?;
    if !words.is_empty() {
        return None;
    }
    Some(point)
}

fn plan_line(alloc: Global, mut words: Words<'_>) -> Result<Instruction, LineFault>
    ensures { Reads (SaysPlan (codes "plan" ∷ words.entry)) result }
{
    let Some(side) = words.side() else {
        return Err(LineFault::Unreadable);
    };
    match plan(alloc, words) {
        Ok(plan) => Ok(Instruction::Plan { side, plan }),
        Err(fault) => Err(fault),
    }
}

fn side_command(alloc: Global, first: &str, mut words: Words<'_>) -> Result<Instruction, LineFault>
    ensures { Reads (SaysCommand (first.now ∷ words.entry)) result }
{
    let Ok(side) = first.parse::<Side>() else {
        return Err(LineFault::Unreadable);
    };
    let Some(verb) = words.verb() else {
        return Err(LineFault::Unreadable);
    };
    command(alloc, side, verb, words)
}

fn instruction(alloc: Global, line: &[u8]) -> Result<Instruction, LineFault>
    ensures { Reads (Spells line.now) result }
{
    let Ok(text) = str::from_utf8(line) else {
        return Err(LineFault::Unreadable);
    };
    let mut words = Words::of(text);
    match words.next() {
        Some("plan") => plan_line(alloc, words),
        Some(first) => side_command(alloc, first, words),
        None => Err(LineFault::Unreadable),
    }
}

fn line(alloc: Global, forms: Forms, number: u64, text: &[u8]) -> Result<Line, ScriptFault>
    ensures { IsLineRead (spelling forms) (record { number = number; text = text.now }) result }
{
    match instruction(alloc, text) {
        Ok(instruction) => {
            if !forms.take(&instruction) {
                return Err(ScriptFault::Unreadable(number));
            }
            Ok(Line {
                number,
                instruction,
            })
        }
        Err(LineFault::Unreadable) => Err(ScriptFault::Unreadable(number)),
        Err(LineFault::OutOfMemory) => Err(ScriptFault::OutOfMemory),
    }
}

fn further(alloc: Global, forms: Forms, mut lines: Lines<'_>) -> Result<Vec<Line>, ScriptFault>
    requires { IsCounted lines }
    ensures { MatchResult result (λ read. SpellAll (spelling forms) (left lines.entry) read.items) (IsStopped (spelling forms) (left lines.entry)) }
{
    let mut read = Vec::new(alloc);
    while let Some((number, text)) = lines.next() {
        let line = line(alloc, forms, number, text)?;
        if read.push(line).is_err() {
            return Err(ScriptFault::OutOfMemory);
        }
    }
    Ok(read)
}

fn read(alloc: Global, forms: Forms, bytes: &[u8]) -> Result<Script, ScriptFault>
    ensures found { IfOk result (IsScriptBy (spelling forms) bytes.now) }
    ensures fault { IfErr result (IsFaultBy (spelling forms) bytes.now) }
    ensures point { HasNoPoint bytes.now → result ≡ Err Point }
{
    let mut lines = Lines::of(bytes);
    let Some((_, first)) = lines.next() else {
        return Err(ScriptFault::Point);
    };
    let Some(point) = point(first) else {
        return Err(ScriptFault::Point);
    };
    let read = further(alloc, forms, lines)?;
    Ok(Script::new(point, read))
}

/// The script that the bytes are. `Point` where the first line that is not empty is not `point` and
/// a code, or where there is none; `Unreadable` with the number of the first further line that is of
/// no form. `OutOfMemory` where memory runs out; `Point` wants none.
pub fn read_script(alloc: Global, bytes: &[u8]) -> Result<Script, ScriptFault>
    ensures found { IfOk result (IsScript bytes.now) }
    ensures only { (script : ScriptContents) → IsScript bytes.now script → MatchResult result (λ read. read ≡ script) (λ fault. fault ≡ OutOfMemory) }
    ensures fault { IfErr result (IsFault bytes.now) }
    // This takes no memory.
    ensures point { HasNoPoint bytes.now → result ≡ Err Point }
{
    read(alloc, Forms::All, bytes)
}

/// The script that the bytes are, where it has only lines that a running office takes. The faults are
/// those of `read_script`, and a `save`, `deliver` or `restart` line is `Unreadable` too.
pub fn read_office_script(alloc: Global, bytes: &[u8]) -> Result<Script, ScriptFault>
    ensures found { IfOk result (IsOfficeScript bytes.now) }
    ensures only { (script : ScriptContents) → IsOfficeScript bytes.now script → MatchResult result (λ read. read ≡ script) (λ fault. fault ≡ OutOfMemory) }
    ensures fault { IfErr result (IsOfficeFault bytes.now) }
    // This takes no memory.
    ensures point { HasNoPoint bytes.now → result ≡ Err Point }
{
    read(alloc, Forms::Office, bytes)
}

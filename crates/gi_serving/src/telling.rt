//! The lines that tell what came of steps.

ghost use Rattle.std.specs.Prelude.{◌≡◌, ◌++◌, IfErr, IfOk, OnErr, OnOk, string_bytes};
ghost use Rattle.std.specs.Io.KnownBytes.{Appends};
ghost use Rattle.gi_serving.specs.Batches.{batch_text as text_of, told as told_of};
ghost use Rattle.gi_serving.specs.Words.{step_line};

use crate::pieces::submission;
use crate::serve_fault::ServeFault;
use crate::word::Word;
use gi_pairs::Side;
use gi_script::Line;
use std::alloc::{AllocError, Global};
use std::io::Write;

fn add_line(
    alloc: Global,
    text: &mut String,
    number: u64,
    side: Side,
    word: Word,
) -> Result<(), AllocError>
    ensures added { OnOk result (string_bytes text.new ≡ string_bytes text.old ++ step_line number side word) }
    ensures unchanged { OnErr result (string_bytes text.new ≡ string_bytes text.old) }
{
    let line = format!(in alloc; "{number} {side} {word}\n")?;
    text.push_str(line.as_str())
}

fn add_told(
    alloc: Global,
    text: &mut String,
    number: u64,
    side: Side,
    word: Option<Word>,
) -> Result<(), AllocError>
    ensures { OnOk result (string_bytes text.new ≡ string_bytes text.old ++ told_of number side word) }
{
    match word {
        Some(word) => add_line(alloc, text, number, side, word),
        None => Ok(()),
    }
}

pub(crate) fn told_text(
    alloc: Global,
    number: u64,
    side: Side,
    word: Option<Word>,
) -> Result<String, AllocError>
    ensures { IfOk result (λ text. string_bytes text ≡ told_of number side word) }
{
    let mut text = String::new(alloc);
    add_told(alloc, &mut text, number, side, word)?;
    Ok(text)
}

pub(crate) fn batch_text(
    alloc: Global,
    lines: &[Line],
    initiating: Vec<Word>,
    matching: Vec<Word>,
) -> Result<String, AllocError>
    ensures { IfOk result (λ text. string_bytes text ≡ text_of lines.now initiating.items matching.items) }
{
    let mut text = String::new(alloc);
    let mut initiating = initiating.into_iter();
    let mut matching = matching.into_iter();
    for line in lines {
        if let Some((side, _)) = submission(line) {
            let word = match side {
                Side::I => initiating.next(),
                Side::M => matching.next(),
            };
            add_told(alloc, &mut text, line.number, side, word)?;
        }
    }
    Ok(text)
}

/// Writes lines, and hands them on at once. `Write` where the writer fails.
pub(crate) fn write<O: Write>(output: &mut O, lines: &[u8]) -> Result<(), ServeFault>
    ensures written { OnOk result (Appends (O.contents output.old) (O.contents output.new) lines.now) }
    ensures fault { IfErr result (λ fault. fault ≡ ServeFault.Write) }
{
    match output.write_all(lines) {
        Ok(()) => {}
        Err(_) => return Err(ServeFault::Write),
    }
    match output.flush() {
        Ok(()) => Ok(()),
        Err(_) => Err(ServeFault::Write),
    }
}

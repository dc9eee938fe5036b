//! The lines of the input.

ghost use Rattle.std.specs.Prelude.{◌≡◌, ◌⊎◌, ◌<◌, ◌≤◌, ◌++◌, ◌∷◌, [], IfErr, IfOk, None, OnOk, false, length, true};
ghost use Rattle.std.specs.Io.Buffered.{reader_remaining};
ghost use Rattle.std.specs.List.{list_any};
ghost use Rattle.gi_live.specs.Lines.{IsAtEnd, ResendsFirst, TakesLines, TakesNext, is_alone as is_alone_of, is_query as is_query_of, is_resend, lines_left};

use crate::live_fault::LiveFault;
use gi_text::LINE_FEED;
use memchr::memchr;
use std::alloc::Global;
use std::io::{BufRead, BufReader, Read};
use std::marker::Model;

/// A line, with its line feed; the last one of the input may have none.
#[derive(Drop)]
pub struct InputLine {
    bytes: Vec<u8>,
}

impl Model for InputLine {
    ghost use Rattle.std.specs.Prelude.{List, ℕ};

    ghost Value = { List ℕ };

    ghost view = { λ line. line.bytes.items };
}

impl InputLine {
    pub fn as_slice(&self) -> &[u8]
        ensures { result.now ≡ self.now }
    {
        &self.bytes
    }
}

/// The next line; `None` where the input has none left.
fn next_line<R: BufRead>(alloc: Global, input: &mut R) -> Result<Option<InputLine>, LiveFault>
    ensures line { IfOk result (λ line. TakesNext (lines_left None (R.remaining input.old)) line (lines_left None (R.remaining input.new))) }
    ensures fault { IfErr result (λ fault. fault ≡ LiveFault.Read) }
{
    let mut bytes = Vec::new(alloc);
    match input.read_until(LINE_FEED, &mut bytes) {
        Ok(0) => Ok(None),
        Ok(_) => Ok(Some(InputLine { bytes })),
        Err(_) => Err(LiveFault::Read),
    }
}

/// The line that is kept back, or else the next one.
fn kept_or_next<R: BufRead>(
    alloc: Global,
    input: &mut R,
    kept: &mut Option<InputLine>,
) -> Result<Option<InputLine>, LiveFault>
    ensures line { IfOk result (λ line. TakesNext (lines_left kept.old (R.remaining input.old)) line (lines_left kept.new (R.remaining input.new))) }
    ensures none { kept.new ≡ None }
    ensures fault { IfErr result (λ fault. fault ≡ LiveFault.Read) }
{
    match kept.take() {
        Some(line) => Ok(Some(line)),
        None => next_line(alloc, input),
    }
}

/// How many lines are answered together at most: as many as a row of a book takes facts.
pub const MOST_LINES: usize = 64;

/// How many bytes of lines are answered together: behind so many no further line is added.
const MOST_BYTES: usize = 1_048_576;

/// What asks for a resending, of which what is not saved is no part.
const RESEND: &[u8] = b"resend";

/// Whether a line begins with the word of a query.
pub(crate) fn is_query(line: &[u8]) -> bool
    ensures { result ≡ is_query_of line.now }
{
    line.starts_with(b"outgoing")
        || line.starts_with(b"facts")
        || line.starts_with(b"report")
        || line.starts_with(b"explain")
        || line.starts_with(b"due")
}

/// Whether one of the lines is a query.
pub(crate) fn has_query(lines: &[InputLine]) -> bool
    ensures { result ≡ list_any is_query_of lines.now }
{
    for line in lines {
        if is_query(line.as_slice()) {
            return true;
        }
    }
    false
}

/// Whether a line is taken by itself.
fn is_alone(line: &[u8]) -> bool
    ensures { result ≡ is_alone_of line.now }
{
    line.starts_with(b"halt") || is_query(line)
}

/// Whether a line is taken together with none before it.
fn begins(line: &[u8]) -> bool
    ensures alone { is_alone_of line.now ≡ true → result ≡ true }
    ensures resend { is_resend line.now ≡ true → result ≡ true }
{
    line.starts_with(RESEND) || is_alone(line)
}

/// Whether a line is not taken behind these lines.
#[tactic(auto, using(crate::proofs::LineLemmas::resends_more))]
fn waits(line: &[u8], lines: &[InputLine]) -> bool
    ensures alone { result ≡ false → is_alone_of line.now ≡ true → lines.now ≡ [] }
    ensures resend { result ≡ false → ResendsFirst lines.now → ResendsFirst (lines.now ++ line.now ∷ []) }
    ensures none { result ≡ true → 0 < length lines.now }
{
    begins(line) && !lines.is_empty()
}

/// Takes the next line, and the lines behind it which the input holds already, so that no answer waits for a line that may
/// never come: 64 at most, and none behind 1,048,576 bytes. A halt and a query are taken by themselves, and a resending
/// together with none before it: such a line is kept back. There is none where the input has none left. `Read` where
/// the reader fails, and `OutOfMemory`.
#[tactic(auto, using(crate::proofs::LineLemmas::takes_both))]
pub fn next_lines<I: Read>(
    alloc: Global,
    input: &mut BufReader<I>,
    kept: &mut Option<InputLine>,
    lines: &mut Vec<InputLine>,
) -> Result<(), LiveFault>
    requires none { lines.old.items ≡ [] }
    ensures taken { OnOk result (TakesLines (lines_left kept.old (reader_remaining I.remaining input.old)) lines.new.items (lines_left kept.new (reader_remaining I.remaining input.new))) }
    ensures few { OnOk result (length lines.new.items ≤ 64) }
    ensures alone { OnOk result (list_any is_alone_of lines.new.items ≡ true → length lines.new.items ≡ 1) }
    ensures resends { OnOk result (ResendsFirst lines.new.items) }
    ensures fault { IfErr result (λ fault. (fault ≡ LiveFault.Read) ⊎ (fault ≡ LiveFault.OutOfMemory)) }
    ensures end { OnOk result (lines.new.items ≡ [] → IsAtEnd (lines_left kept.old (reader_remaining I.remaining input.old))) }
{
    let mut bytes = 0;
    for _ in 0..MOST_LINES {
        let Some(line) = kept_or_next(alloc, input, kept)? else {
            return Ok(());
        };
        if waits(line.as_slice(), lines.as_slice()) {
            *kept = Some(line);
            return Ok(());
        }
        let is_last = is_alone(line.as_slice()) || line.as_slice().len() >= MOST_BYTES - bytes;
        if !is_last {
            bytes += line.as_slice().len();
        }
        if lines.push(line).is_err() {
            return Err(LiveFault::OutOfMemory);
        }
        if is_last || memchr(LINE_FEED, input.buffer()).is_none() {
            return Ok(());
        }
    }
    Ok(())
}

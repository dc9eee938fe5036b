//! A whole run: stretches of an office over a desk, each of which is settled, and queries between them.

ghost use Rattle.std.specs.Prelude.{◌≡◌, ◌≤◌, ◌<◌, ◌+◌, ◌^◌, IfErr, IfOk, None, OnOk, false, length, true};
ghost use Rattle.std.specs.Io.Buffered.{reader_remaining};
ghost use Rattle.gi_office.specs.Opening.{new_seat};
ghost use Rattle.gi_live.specs.Lines.{lines_left};
ghost use Rattle.gi_live.specs.Stretches.{AnswersHere, DueClosed, EndsAt, EndsLife, GoesFurther, GoesSome, GoesTo, IsPaused, IsSettlingFault, LeavesBetween, LeavesDue, RunsInPart, RunsWhole, StretchesUntil, pause};
ghost use Rattle.std.specs.Io.KnownBytes.{Appends};
ghost use Rattle.std.specs.Prelude.{List, ℕ};

use crate::answering::{answer_query, due_in, tell_end};
use crate::closing::close_cycles;
use crate::due::due_cycles;
use crate::input::InputLine;
use crate::live_fault::LiveFault;
use crate::running::{End, run};
use gi_desk::{Desk, Role};
use gi_moments::Moment;
use gi_office::{Office, Seat};
use gi_serving::Turns;
use std::alloc::Global;
use std::io::{BufReader, Read, Write};
use std::marker::Brand;
use std::sync::Wait;
use std::sync::ledger::{Blank, Ledger};

/// How many stretches a run has at most.
const MOST_STRETCHES: u64 = 1 << 30;

/// The office and its one seat.
fn opened<R: Role, L: Ledger>(
    alloc: Global,
    blank: Blank,
    desk: Desk<R>,
) -> Result<(Office<R, L>, Seat<L>), LiveFault>
    requires name { blank.name ≡ L.name }
    requires whole { blank.parts ≡ L.parts }
    requires parts { blank.parts ≡ 16 }
    requires saved { desk.saved ≡ length desk.facts }
    requires runs { desk.halted ≡ false }
    ensures office { IfOk result (λ opened. opened.0.seats ≡ 1) }
    ensures seat { IfOk result (λ opened. opened.1 ≡ new_seat 16 1) }
    ensures fault { IfErr result (λ fault. fault ≡ LiveFault.OutOfMemory) }
{
    let Ok((office, seats)) = Office::new(alloc, blank, desk, 1) else {
        return Err(LiveFault::OutOfMemory);
    };
    let mut seats = seats;
    match seats.pop() {
        Some(seat) => Ok((office, seat)),
        None => unreachable!(),
    }
}

/// Takes the office apart: what the seat noted is one legal life, of which the desk that comes back is the end.
fn settled<R: Role, L: Ledger>(
    alloc: Global,
    office: Office<R, L>,
    seat: Seat<L>,
) -> Result<Desk<R>, LiveFault>
    requires { office.seats ≡ 1 }
    ensures life { IfOk result (EndsLife R.SIDE seat) }
    ensures fault { IfErr result IsSettlingFault }
{
    let Ok(seats) = vec![in alloc; seat] else {
        drop(office);
        return Err(LiveFault::OutOfMemory);
    };
    match office.settle(seats) {
        Ok(settled) => Ok(settled.into_desk()),
        Err(fault) => Err(LiveFault::Unsettled(fault)),
    }
}

/// A stretch: an office is opened over the desk, runs over the lines behind so many, and is settled. The desk comes back, and
/// how many lines are answered, and why it ended.
fn stretch<R: Role, L: Ledger, B: Turns, T: Wait, I: Read, O: Write>(
    rt: &T,
    alloc: Global,
    blank: Blank,
    desk: Desk<R>,
    book: &mut B,
    before: u64,
    input: &mut BufReader<I>,
    kept: &mut Option<InputLine>,
    output: &mut O,
) -> Result<(Desk<R>, u64, End), LiveFault>
    requires name { blank.name ≡ L.name }
    requires whole { blank.parts ≡ L.parts }
    requires parts { blank.parts ≡ 16 }
    requires paused { IsPaused desk }
    requires room { before < 2 ^ 62 }
    ensures until { IfOk result (λ it. StretchesUntil R.SIDE (pause desk before) (lines_left kept.old (reader_remaining I.remaining input.old)) (lines_left kept.new (reader_remaining I.remaining input.new)) (O.contents output.old) (O.contents output.new) it.0 it.1 it.2) }
    ensures few { IfOk result (λ it. it.1 ≤ before + 2 ^ 30) }
    ensures some { IfErr result (GoesSome R.SIDE (pause desk before) (lines_left kept.old (reader_remaining I.remaining input.old)) (O.contents output.old) (O.contents output.new)) }
{
    let saved = desk.saved();
    let (office, seat) = match opened::<R, L>(alloc, blank, desk) {
        Ok(opened) => opened,
        Err(fault) => return Err(fault),
    };
    let (seat, taken, end) = run(
        rt, alloc, &office, book, seat, saved, before, input, kept, output,
    );
    let end = match end {
        Ok(end) => end,
        Err(fault) => {
            drop((office, seat));
            return Err(fault);
        }
    };
    match settled(alloc, office, seat) {
        Ok(desk) => Ok((desk, taken, end)),
        Err(fault) => {
            drop(end);
            Err(fault)
        }
    }
}

/// The desk, over which a further office can be opened. `Unsaved` where a fact is not saved, or it is halted.
fn resumed<R: Role>(desk: Desk<R>) -> Result<Desk<R>, LiveFault>
    ensures desk { IfOk result (λ same. (same ≡ desk) × IsPaused desk) }
    ensures fault { IfErr result (λ fault. (fault ≡ LiveFault.Unsaved) × ¬ (IsPaused desk)) }
{
    if desk.saved() == desk.len() && !desk.halted() {
        Ok(desk)
    } else {
        drop(desk);
        Err(LiveFault::Unsaved)
    }
}

/// Closes the cycles that are due at the moment, by an office over the desk behind so many lines, which is settled then. The desk comes back.
fn close_due<R: Role, L: Ledger, B: Turns, T: Wait, O: Write>(
    rt: &T,
    alloc: Global,
    blank: Blank,
    desk: Desk<R>,
    book: &mut B,
    before: u64,
    moment: Moment,
    output: &mut O,
) -> Result<Desk<R>, LiveFault>
    requires name { blank.name ≡ L.name }
    requires whole { blank.parts ≡ L.parts }
    requires parts { blank.parts ≡ 16 }
    requires paused { IsPaused desk }
    requires room { before + 1 < 2 ^ 63 }
    ensures closed { IfOk result (λ new. (text : List ℕ) × DueClosed R.SIDE (pause desk before) moment text new × Appends (O.contents output.old) (O.contents output.new) text) }
    ensures paused { IfOk result IsPaused }
    ensures leaves { IfErr result (LeavesDue R.SIDE (pause desk before) moment (O.contents output.old) (O.contents output.new)) }
{
    let Ok(ids) = due_cycles(alloc, &desk, moment) else {
        drop(desk);
        return Err(LiveFault::OutOfMemory);
    };
    let saved = desk.saved();
    let (office, seat) = match opened::<R, L>(alloc, blank, desk) {
        Ok(opened) => opened,
        Err(fault) => {
            drop(ids);
            return Err(fault);
        }
    };
    let (seat, end) = close_cycles(
        rt,
        alloc,
        &office,
        book,
        seat,
        saved,
        before + 1,
        &ids,
        output,
    );
    drop(ids);
    if let Err(fault) = end {
        drop((office, seat));
        return Err(fault);
    }
    match settled(alloc, office, seat) {
        Ok(desk) => resumed(desk),
        Err(fault) => Err(fault),
    }
}

/// What is made of a query behind so many lines, over a desk, and the desk that comes back.
fn answered<R: Role, B: Turns, T: Wait, O: Write>(
    rt: &T,
    alloc: Global,
    desk: Desk<R>,
    book: &mut B,
    before: u64,
    line: &InputLine,
    output: &mut O,
) -> Result<Desk<R>, LiveFault>
    requires paused { IsPaused desk }
    requires room { before + 1 < 2 ^ 63 }
    ensures answers { IfOk result (λ new. (text : List ℕ) × AnswersHere R.SIDE (pause desk before) line.now text new × Appends (O.contents output.old) (O.contents output.new) text) }
    ensures paused { IfOk result IsPaused }
    ensures leaves { IfErr result (LeavesBetween R.SIDE (pause desk before) (End.Asked line.now) (O.contents output.old) (O.contents output.new)) }
{
    if let Some(moment) = due_in(line) {
        return close_due::<R, Brand, B, T, O>(
            rt,
            alloc,
            Blank::new(16),
            desk,
            book,
            before,
            moment,
            output,
        );
    }
    match answer_query(alloc, &desk, before + 1, line, output) {
        Ok(()) => Ok(desk),
        Err(fault) => {
            drop(desk);
            Err(fault)
        }
    }
}

/// What is made between a stretch and the next one, by why it ended: a query is answered, and what is due is closed.
fn between<R: Role, B: Turns, T: Wait, O: Write>(
    rt: &T,
    alloc: Global,
    desk: Desk<R>,
    book: &mut B,
    taken: u64,
    end: End,
    output: &mut O,
) -> Result<(Desk<R>, u64, bool), LiveFault>
    requires room { taken + 1 < 2 ^ 63 }
    ensures further { IfOk result (λ it. GoesFurther R.SIDE (pause desk taken) end (O.contents output.old) (O.contents output.new) it.0 it.1 it.2) }
    ensures leaves { IfErr result (LeavesBetween R.SIDE (pause desk taken) end (O.contents output.old) (O.contents output.new)) }
{
    let line = match end {
        End::Input => return Ok((desk, taken, true)),
        End::Full => return Ok((resumed(desk)?, taken, false)),
        End::Asked(line) => line,
    };
    let desk = match resumed(desk) {
        Ok(desk) => desk,
        Err(fault) => {
            drop(line);
            return Err(fault);
        }
    };
    let answered = answered(rt, alloc, desk, book, taken, &line, output);
    drop(line);
    match answered {
        Ok(desk) => Ok((desk, taken + 1, false)),
        Err(fault) => Err(fault),
    }
}

/// A stretch, and the query behind it. The desk comes back, and how many lines are answered, and whether the input has none left.
fn part<R: Role, B: Turns, T: Wait, I: Read, O: Write>(
    rt: &T,
    alloc: Global,
    desk: Desk<R>,
    book: &mut B,
    before: u64,
    input: &mut BufReader<I>,
    kept: &mut Option<InputLine>,
    output: &mut O,
) -> Result<(Desk<R>, u64, bool), LiveFault>
    requires paused { IsPaused desk }
    requires room { before < 2 ^ 62 }
    ensures goes { IfOk result (λ it. GoesTo R.SIDE (pause desk before) (lines_left kept.old (reader_remaining I.remaining input.old)) (lines_left kept.new (reader_remaining I.remaining input.new)) (O.contents output.old) (O.contents output.new) (pause it.0 it.1)) }
    ensures paused { IfOk result (λ it. it.2 ≡ false → IsPaused it.0) }
    ensures end { IfOk result (λ it. it.2 ≡ true → EndsAt (lines_left kept.old (reader_remaining I.remaining input.old)) (lines_left kept.new (reader_remaining I.remaining input.new))) }
    ensures few { IfOk result (λ it. it.1 ≤ before + 2 ^ 31) }
    ensures some { IfErr result (GoesSome R.SIDE (pause desk before) (lines_left kept.old (reader_remaining I.remaining input.old)) (O.contents output.old) (O.contents output.new)) }
{
    let (desk, taken, end) = match stretch::<R, Brand, B, T, I, O>(
        rt,
        alloc,
        Blank::new(16),
        desk,
        book,
        before,
        input,
        kept,
        output,
    ) {
        Ok(stretch) => stretch,
        Err(fault) => return Err(fault),
    };
    between(rt, alloc, desk, book, taken, end, output)
}

fn run_parts<R: Role, B: Turns, T: Wait, I: Read, O: Write>(
    rt: &T,
    alloc: Global,
    desk: Desk<R>,
    book: &mut B,
    input: &mut BufReader<I>,
    output: &mut O,
) -> Result<(), LiveFault>
    requires paused { IsPaused desk }
    ensures whole { OnOk result (RunsWhole R.SIDE desk (reader_remaining I.remaining input.old) (O.contents output.old) (O.contents output.new)) }
    ensures part { IfErr result (RunsInPart R.SIDE desk (lines_left None (reader_remaining I.remaining input.old)) (O.contents output.old) (O.contents output.new)) }
{
    let mut desk = desk;
    let mut taken = 0;
    let mut kept = None;
    for _ in 0..MOST_STRETCHES {
        let (back, now, is_over) = match part(
            rt, alloc, desk, book, taken, input, &mut kept, output,
        ) {
            Ok(part) => part,
            Err(fault) => {
                drop(kept);
                return Err(fault);
            }
        };
        desk = back;
        taken = now;
        if is_over {
            let end = tell_end(alloc, &desk, output);
            drop((desk, kept));
            return end;
        }
    }
    drop((desk, kept));
    Err(LiveFault::Read)
}

/// Runs one operator's office over its desk, which is not halted and whose facts are all saved, and its book, which is loaded
/// and has these facts, as long as the input has lines: the calls in stretches, each of which is settled, so that what was
/// written of it is that of one legal life, and the queries between them. At the end a line tells what the desk has. The
/// fault is the first: what was written before it is whole.
pub fn serve_lines<R: Role, B: Turns + Drop, T: Wait, I: Read, O: Write>(
    rt: &T,
    alloc: Global,
    desk: Desk<R>,
    book: B,
    input: &mut BufReader<I>,
    output: &mut O,
) -> Result<(), LiveFault>
    requires saved { desk.saved ≡ length desk.facts }
    requires runs { desk.halted ≡ false }
    requires book { B.holds book desk.facts }
    ensures whole { OnOk result (RunsWhole R.SIDE desk (reader_remaining I.remaining input.old) (O.contents output.old) (O.contents output.new)) }
    ensures part { IfErr result (RunsInPart R.SIDE desk (lines_left None (reader_remaining I.remaining input.old)) (O.contents output.old) (O.contents output.new)) }
{
    let mut book = book;
    let end = run_parts(rt, alloc, desk, &mut book, input, output);
    drop(book);
    end
}

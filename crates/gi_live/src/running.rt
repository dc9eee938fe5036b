//! An office that runs: the lines that come, in steps, and what is written of each.

ghost use Rattle.std.specs.Prelude.{◌≡◌, ◌⊎◌, ◌+◌, ◌<◌, ◌≤◌, ◌^◌, IfErr, IfOk, OnOk, drop, false, length, true};
ghost use Rattle.std.specs.List.{list_all, list_any};
ghost use Rattle.std.specs.Io.Buffered.{reader_remaining};
ghost use Rattle.std.specs.Io.KnownBytes.{Appends};
ghost use Rattle.gi_serving.specs.Asking.{NotesMarks, NotesTurns};
ghost use Rattle.gi_serving.specs.Ending.{place_of};
ghost use Rattle.gi_live.specs.Lines.{ResendsFirst, is_halt, is_query, lines_left};
ghost use Rattle.gi_live.specs.Running.{HasRoom, LeavesStep, LeavesTold, RunsSome, WritesStep, first_fault as first_fault_of, has_halted as has_halted_in, is_stopped as is_stopped_by, live, notes_since};
ghost use Rattle.gi_live.specs.Stretches.{IsAsked, RunsUntil};
ghost use Rattle.gi_live.specs.Telling.{may_tell_of, saved_by as saved_by_of, step_text as step_text_of};

use crate::asking::ask_all;
use crate::came::Came;
use crate::input::{InputLine, has_query, next_lines};
use crate::live_fault::LiveFault;
use crate::marks::saved_now;
use crate::outlet::Outlet;
use crate::telling::may_tell_all;
use gi_desk::{Answer, Role};
use gi_office::{Note, Office, SaveFault, Seat};
use gi_serving::Turns;
use std::alloc::Global;
use std::io::{BufReader, Read};
use std::sync::Wait;
use std::sync::ledger::Ledger;

/// How many steps a stretch has at most.
const MOST_STEPS: u64 = 1 << 24;

/// Behind so many notes of its seat a stretch ends, so that what an office keeps of its calls is bounded.
const MOST_NOTED: usize = 100_000;

/// The first fault: of the writing, of the saving, or that not all could be told.
fn first_fault(
    told: Result<(), LiveFault>,
    saved: Result<(), SaveFault>,
    are_told: bool,
) -> Result<(), LiveFault>
    ensures { result ≡ first_fault_of told saved are_told }
{
    told?;
    match saved {
        Ok(()) => {}
        Err(fault) => return Err(LiveFault::Turn(fault)),
    }
    if are_told {
        Ok(())
    } else {
        Err(LiveFault::Unsaved)
    }
}

/// Saves all, and writes what came of the lines from this number on, and what was let out.
pub(crate) fn save_and_tell<R: Role, L: Ledger, B: Turns, W: Wait, O: Outlet>(
    rt: &W,
    alloc: Global,
    office: &Office<R, L>,
    book: &mut B,
    seat: Seat<L>,
    saved: u32,
    line: u64,
    cames: Vec<Came>,
    output: &mut O,
) -> (Seat<L>, u32, Result<(), LiveFault>)
    requires { line + length cames.items < 2 ^ 64 }
    ensures place { place_of result.0 ≡ place_of seat }
    ensures saved { result.1 ≡ saved_by_of saved (notes_since seat result.0) }
    ensures marks { OnOk result.2 (NotesMarks seat result.0) }
    ensures notes { NotesTurns seat result.0 }
    ensures answered { OnOk result.2 (list_all (may_tell_of result.1) cames.items ≡ true) }
    ensures written { OnOk result.2 (Appends (O.told output.old) (O.told output.new) (step_text_of result.1 line cames.items (notes_since seat result.0))) }
    ensures leaves { IfErr result.2 (LeavesTold (step_text_of result.1 line cames.items (notes_since seat result.0)) (O.told output.old) (O.told output.new)) }
{
    let (seat, marks, end) = saved_now(rt, office, book, seat, saved);
    let told = output.tell(alloc, line, &cames, &marks, seat.notes());
    let are_told = may_tell_all(marks.saved(), &cames);
    drop(cames);
    (seat, marks.saved(), first_fault(told, end, are_told))
}

/// Makes the calls that the lines ask for, behind so many lines, saves what they record, and writes what came of each line, and what
/// was let out. Of a fault of the saving what may be told is written before it.
fn step<R: Role, L: Ledger, B: Turns, W: Wait, O: Outlet>(
    rt: &W,
    alloc: Global,
    office: &Office<R, L>,
    book: &mut B,
    seat: Seat<L>,
    saved: u32,
    before: u64,
    lines: &[InputLine],
    output: &mut O,
) -> (Seat<L>, u32, Result<(), LiveFault>)
    requires room { before + length lines.now + 1 < 2 ^ 64 }
    requires queries { list_any is_query lines.now ≡ true → has_halted_in seat.notes ≡ true }
    requires halts { list_any is_halt lines.now ≡ true → length lines.now ≡ 1 }
    requires resends { ResendsFirst lines.now }
    requires has_room { HasRoom seat }
    ensures place { place_of result.0 ≡ place_of seat }
    ensures steps { OnOk result.2 (WritesStep R.SIDE (live seat saved before) lines.now (O.told output.old) (O.told output.new) (live result.0 result.1 (before + length lines.now))) }
    ensures leaves { IfErr result.2 (LeavesStep R.SIDE (live seat saved before) lines.now (O.told output.old) (O.told output.new)) }
{
    let (seat, cames) = ask_all(rt, alloc, office, seat, lines);
    match cames {
        Ok(cames) => save_and_tell(
            rt,
            alloc,
            office,
            book,
            seat,
            saved,
            before + 1,
            cames,
            output,
        ),
        Err(fault) => (seat, saved, Err(fault)),
    }
}

fn is_stopped(answer: Answer) -> bool
    ensures { result ≡ is_stopped_by answer }
{
    match answer {
        Answer::Stopped => true,
        _ => false,
    }
}

/// Whether a halt was noted.
fn has_halted(notes: &[Note]) -> bool
    ensures { result ≡ has_halted_in notes.now }
{
    for note in notes {
        if is_stopped(note.reply.answer) {
            return true;
        }
    }
    false
}

/// Whether a stretch ends behind these notes.
fn is_full(notes: &[Note]) -> bool
    ensures room { result ≡ false → has_halted_in notes.now ≡ false → length notes.now < 100_000 }
    ensures runs { result ≡ true → has_halted_in notes.now ≡ false }
{
    notes.len() >= MOST_NOTED && !has_halted(notes)
}

/// Why a stretch ends.
#[derive(Drop)]
pub(crate) enum End {
    /// The input has no further line.
    Input,
    /// The office keeps as much of its calls as it may.
    Full,
    /// This line, which is taken, is a query.
    Asked(InputLine),
}

fn asked(lines: Vec<InputLine>) -> End
    requires { length lines.items ≡ 1 }
    ensures { IsAsked lines.items result }
{
    let mut lines = lines;
    match lines.pop() {
        Some(line) => End::Asked(line),
        None => unreachable!(),
    }
}

/// Runs the office over the lines behind so many, from a seat of it, with its book, where so many facts are saved. Each line is
/// answered once, in order: it asks for a call, which is made, and what came of it is written once what it recorded is saved. The
/// lines that have come are taken together, 64 at most, and saved together. A stretch ends at the end of the input, at a
/// query and behind 100,000 notes, unless the office is halted, of which there are 2^24 steps at most (`Read`). Else the fault is the first: what was written before it is
/// whole. The seat comes back, and how many lines are answered.
pub(crate) fn run<R: Role, L: Ledger, B: Turns, W: Wait, I: Read, O: Outlet>(
    rt: &W,
    alloc: Global,
    office: &Office<R, L>,
    book: &mut B,
    seat: Seat<L>,
    saved: u32,
    before: u64,
    input: &mut BufReader<I>,
    kept: &mut Option<InputLine>,
    output: &mut O,
) -> (Seat<L>, u64, Result<End, LiveFault>)
    requires room { before < 2 ^ 62 }
    requires begins { HasRoom seat }
    ensures place { place_of result.0 ≡ place_of seat }
    ensures few { result.1 ≤ before + 2 ^ 30 }
    ensures until { IfOk result.2 (RunsUntil R.SIDE (live seat saved before) (lines_left kept.old (reader_remaining I.remaining input.old)) (lines_left kept.new (reader_remaining I.remaining input.new)) (O.told output.old) (O.told output.new) result.0 result.1) }
    ensures some { IfErr result.2 (RunsSome R.SIDE (live seat saved before) (lines_left kept.old (reader_remaining I.remaining input.old)) (O.told output.old) (O.told output.new)) }
{
    let mut seat = seat;
    let mut saved = saved;
    let mut taken = before;
    for _ in 0..MOST_STEPS {
        let mut lines = Vec::new(alloc);
        if let Err(fault) = next_lines(alloc, input, kept, &mut lines) {
            drop(lines);
            return (seat, taken, Err(fault));
        }
        if lines.is_empty() {
            return (seat, taken, Ok(End::Input));
        }
        if has_query(&lines) && !has_halted(seat.notes()) {
            return (seat, taken, Ok(asked(lines)));
        }
        let (back, now, end) = step(rt, alloc, office, book, seat, saved, taken, &lines, output);
        seat = back;
        saved = now;
        taken += lines.len() as u64;
        drop(lines);
        if let Err(fault) = end {
            return (seat, taken, Err(fault));
        }
        if is_full(seat.notes()) {
            return (seat, taken, Ok(End::Full));
        }
    }
    if has_halted(seat.notes()) {
        return (seat, taken, Err(LiveFault::Read));
    }
    (seat, taken, Ok(End::Full))
}

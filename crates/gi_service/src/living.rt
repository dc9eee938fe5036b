//! One running office as a command: its book in a file, its desk, and its run over the input.

ghost use Rattle.std.specs.Prelude.{◌≡◌, IfErr, None, OnOk, Err};
ghost use Rattle.std.specs.Io.Buffered.{reader_capacity, reader_remaining};
ghost use Rattle.gi_commands.specs.Fault.{no_code};
ghost use Rattle.gi_pairs.specs.Code.{IsCode};
ghost use Rattle.gi_service.specs.Living.{IsFirstOfficeFault, LeavesOffice, RunsOffice, input_of};
ghost use Rattle.gi_service.specs.Stations.{IsStationFault};
ghost use Rattle.gi_service.specs.declared.program_fault.ProgramFault.TheVariants.{Command};

use crate::places::{InFile, looked_at};
use crate::program_fault::ProgramFault;
use crate::stations::station;
use gi_clock::with_clock;
use gi_command_line::OfficeRun;
use gi_commands::{Fault, replayed};
use gi_desk::Role;
use gi_initiator::Initiating;
use gi_live::serve_lines;
use gi_matcher::Matching;
use gi_pairs::{Code, Side};
use gi_store::{Owner, close_book};
use std::io::{BufReader, IsTerminal, Read, Write};
use std::sync::Wait;
use std::thread::Threads;
use std::time::Clock;

/// How many bytes of the input are read at once: so many lines can be answered together.
const READ_AT_ONCE: usize = 1_048_576;

/// Whether the book is to be made. Where it is there, its copy makes a desk of this side and point.
#[tactic(auto, using(crate::proofs::Opened::of_store))]
fn is_new<R: Role>(rt: &HostRuntime, file: &str, point: Code) -> Result<bool, Fault>
    ensures { IfErr result (IsStationFault R.SIDE point) }
{
    let side = R::SIDE;
    match looked_at(rt, file, Owner { side, point }) {
        Ok(None) => Ok(true),
        Ok(Some(facts)) => match replayed::<R>(rt.alloc(), point, facts) {
            Ok(desk) => {
                drop(desk);
                Ok(false)
            }
            Err(fault) => Err(fault),
        },
        Err(fault) => Err(Fault::from(fault)),
    }
}

/// Tells on a terminal that the book is made.
fn tell_new(rt: &HostRuntime, file: &str) {
    let mut errors = rt.stderr();
    if errors.is_terminal() {
        let _ = write!(errors, "new book: {file}\n");
    }
}

#[tactic(auto, using(crate::proofs::Begun::unchanged))]
fn run_side<R: Role, T: Wait, I: Read, W: Write>(
    rt: &HostRuntime,
    threads: &T,
    run: &OfficeRun<'_>,
    point: Code,
    input: &mut BufReader<I>,
    output: &mut W,
) -> Result<(), ProgramFault>
    ensures runs { OnOk result (RunsOffice R.SIDE point (reader_remaining I.remaining input.old) (W.contents output.old) (W.contents output.new)) }
    ensures first { IfErr result (IsFirstOfficeFault R.SIDE point) }
    ensures leaves { IfErr result (LeavesOffice R.SIDE point (reader_remaining I.remaining input.old) (W.contents output.old) (W.contents output.new)) }
{
    let file = run.book.file;
    match is_new::<R>(rt, file, point) {
        Ok(true) => tell_new(rt, file),
        Ok(false) => {}
        Err(fault) => return Err(ProgramFault::Command(fault)),
    }
    let wait = run.wait;
    let place = InFile {
        rt,
        file,
        point,
        wait,
    };
    let (desk, book) = match station::<R, InFile<'_>>(rt.alloc(), point, &place) {
        Ok(station) => station,
        Err(fault) => return Err(ProgramFault::Command(fault)),
    };
    desk.reveal_invariant();
    match serve_lines(threads, rt.alloc(), desk, book, input, output) {
        // (a book that failed is left as it is: to close it would begin its log anew)
        Ok(()) => match close_book(rt, file) {
            Ok(()) => Ok(()),
            Err(fault) => Err(ProgramFault::Closed(fault)),
        },
        Err(fault) => Err(ProgramFault::Live(fault)),
    }
}

#[tactic(auto, using(crate::proofs::Begun::unchanged))]
fn run_over<T: Wait, I: Read, W: Write>(
    rt: &HostRuntime,
    threads: &T,
    run: &OfficeRun<'_>,
    point: Code,
    input: &mut I,
    output: &mut W,
) -> Result<(), ProgramFault>
    ensures runs { OnOk result (RunsOffice run.now.side point (I.remaining input.old) (W.contents output.old) (W.contents output.new)) }
    ensures first { IfErr result (IsFirstOfficeFault run.now.side point) }
    ensures leaves { IfErr result (LeavesOffice run.now.side point (I.remaining input.old) (W.contents output.old) (W.contents output.new)) }
{
    let mut lines = match BufReader::with_capacity(rt.alloc(), READ_AT_ONCE, input) {
        Ok(lines) => lines,
        Err(_) => return Err(ProgramFault::Command(Fault::OutOfMemory)),
    };
    match run.side {
        Side::I => run_side::<Initiating, _, _, _>(rt, threads, run, point, &mut lines, output),
        Side::M => run_side::<Matching, _, _, _>(rt, threads, run, point, &mut lines, output),
    }
}

/// Runs it over standard input, among whose lines come those of the machine's clock.
#[tactic(auto, using(crate::proofs::Begun::unchanged))]
fn run_by_clock<T: Threads + Wait + Clock + Copy + Send + 'static, W: Write>(
    rt: &HostRuntime,
    threads: &T,
    run: &OfficeRun<'_>,
    point: Code,
    output: &mut W,
) -> Result<(), ProgramFault>
    ensures runs { OnOk result (RunsOffice run.now.side point None (W.contents output.old) (W.contents output.new)) }
    ensures first { IfErr result (IsFirstOfficeFault run.now.side point) }
    ensures leaves { IfErr result (LeavesOffice run.now.side point None (W.contents output.old) (W.contents output.new)) }
{
    let mut input = match with_clock(*threads, rt.alloc(), rt.stdin()) {
        Ok(input) => input,
        Err(_) => return Err(ProgramFault::Command(Fault::OutOfMemory)),
    };
    let done = run_over(rt, threads, run, point, &mut input, output);
    drop(input);
    done
}

/// Runs one operator's office over its book in a file, which is made where it is not there, as long as the input has lines, and closes
/// the book then, so that the file alone is the whole book. By the clock the input is standard input, with lines `due MOMENT`
/// among its own. `CodeText` where the point is no code; then what is told of a
/// copy of the book, up to where nothing is made or changed; then what is told of the book as it is opened; what ended the
/// run; and what kept the book from being closed.
#[tactic(auto, using(crate::proofs::Begun::unchanged))]
pub fn run_office<T: Threads + Wait + Clock + Copy + Send + 'static, I: Read, W: Write>(
    rt: &HostRuntime,
    threads: &T,
    run: &OfficeRun<'_>,
    input: &mut I,
    output: &mut W,
) -> Result<(), ProgramFault>
    ensures runs { OnOk result (RunsOffice run.now.side run.now.book.point.now (input_of run.now.by_clock (I.remaining input.old)) (W.contents output.old) (W.contents output.new)) }
    ensures first { IfErr result (IsFirstOfficeFault run.now.side run.now.book.point.now) }
    ensures leaves { IfErr result (LeavesOffice run.now.side run.now.book.point.now (input_of run.now.by_clock (I.remaining input.old)) (W.contents output.old) (W.contents output.new)) }
    ensures code { ¬ (IsCode run.now.book.point.now) → result ≡ Err (Command no_code) }
{
    let point = match Code::read(run.book.point) {
        Ok(point) => point,
        Err(fault) => return Err(ProgramFault::Command(Fault::from(fault))),
    };
    if run.by_clock {
        run_by_clock(rt, threads, run, point, output)
    } else {
        run_over(rt, threads, run, point, input, output)
    }
}

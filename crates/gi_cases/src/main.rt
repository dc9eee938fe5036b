//! Cases as text: each line of standard input is a call to one of the crates below, and each answer
//! is printed under its call. A file of cases has calls and answers, so that it is its own
//! expectation: `gi_cases SUBJECT < cases/SUBJECT/NAME.txt` prints the file again where all holds.
#![tactic(auto)]

use gi_calls::{Fault, answered};
use gi_command_cases::command_answers;
use gi_desk_cases::{Desks, DrawnDays, Roles};
use gi_message_cases::{
    Cycles, Days, Facts, Messages, Nominations, Processing, Repeated, Tables, walk_answers,
};
use gi_office_cases::{Books, office_answers};
use gi_stop_cases::Stops;
use gi_world_cases::{Carriers, Reports, Scripts, Simulations, Worlds};
use std::env;
use std::io::{self, Write};
use std::process::ExitCode;
use std::rt::Clock;
use std::sync::Wait;
use std::thread::Threads;

/// The cases with their answers, of the subject that the word names. Offices may wait and start threads,
/// and so may walks.
fn answers<W: Threads + Wait + Clock + Sync>(
    rt: &HostRuntime,
    handle: &W,
    subject: &str,
    cases: &str,
) -> Result<String, Fault> {
    let alloc = rt.alloc();
    match subject {
        "books" => answered(rt, Books::new(), cases),
        "carriers" => answered(rt, Carriers::new(alloc), cases),
        "commands" => command_answers(handle, alloc, cases),
        "cycles" => answered(rt, Cycles::new(), cases),
        "days" => answered(rt, Days::new(), cases),
        "desks" => answered(rt, Desks::new(alloc), cases),
        "drawn" => answered(rt, DrawnDays, cases),
        "facts" => answered(rt, Facts::new(), cases),
        "messages" => answered(rt, Repeated::of(Messages::new()), cases),
        "nominations" => answered(rt, Repeated::of(Nominations::new()), cases),
        "offices" => office_answers(handle, alloc, cases),
        "processing" => answered(rt, Repeated::of(Processing::new()), cases),
        "reports" => answered(rt, Reports::new(alloc), cases),
        "roles" => answered(rt, Roles::new(), cases),
        "scripts" => answered(rt, Scripts::new(alloc), cases),
        "simulations" => answered(rt, Simulations::new(alloc), cases),
        "stops" => answered(rt, Stops::new(handle), cases),
        "tables" => answered(rt, Tables::new(), cases),
        "walks" => walk_answers(handle, alloc, cases),
        "worlds" => answered(rt, Worlds::new(alloc), cases),
        _ => Err(Fault::NoSubject),
    }
}

/// The subject that the command line names.
fn subject_named(rt: &HostRuntime) -> Result<String, Fault> {
    let Ok(mut words) = env::args(rt) else {
        return Err(Fault::NoSubject);
    };
    let _program = words.next();
    words.next().ok_or(Fault::NoSubject)
}

/// Reads the cases and prints them with their answers.
fn run<W: Threads + Wait + Clock + Sync>(rt: &HostRuntime, handle: &W) -> Result<(), Fault> {
    let subject = subject_named(rt)?;
    let cases = io::read_to_string(rt.alloc(), rt.stdin()).map_err(|_| Fault::Read)?;
    let text = answers(rt, handle, subject.as_str(), cases.as_str())?;
    rt.stdout()
        .write_all(text.as_bytes())
        .map_err(|_| Fault::Write)
}

fn main(rt: HostRuntime) -> ExitCode {
    match run(&rt, &rt) {
        Ok(()) => ExitCode::SUCCESS,
        Err(fault) => {
            let _ = writeln!(rt.stderr(), "gi_cases: {fault:?}");
            ExitCode::FAILURE
        }
    }
}
